// SPDX-License-Identifier: Apache-2.0
//! Copies registers to 8-bit registers: folded to a smaller `lg_k` (docs/MODEL.md, "Folding"), or with their estimate state.
ghost use Rattle.std.specs.Prelude.{◌≡◌, ◌≤◌, IfOk, IfErr};
ghost use Rattle.hll_base.specs.declared.error.Reason.TheVariants.{Memory};
ghost use Rattle.hll_coupons.specs.Fold.{fold_to, pairs};
ghost use Rattle.hll_registers.specs.State.{cleared_state};
ghost use Rattle.hll_sketch.specs.Value.{IsLgK};

use hll_arrays::array8::Array8;
use hll_arrays::merge::merge_from;
use hll_arrays::registers::Registers;
use hll_base::error::Error;
use std::alloc::Allocator;

/// Returns the fold of registers.
pub fn fold_of_registers<R: Registers, A: Allocator>(
    alloc: A,
    lg_k: u8,
    source: &R,
) -> Result<Array8<A>, Error>
    requires lg_k { IsLgK lg_k }
    requires within { lg_k ≤ (R.stored source.now).lg_k }
    ensures ok { IfOk result (λ a. a ≡ record { lg_k = lg_k; registers = fold_to (pairs (R.stored source.now).registers) lg_k; state = cleared_state }) }
    ensures err { IfErr result (λ e. e ≡ Memory) }
{
    let mut made = Array8::new(alloc, lg_k)?;
    merge_from(&mut made, source);
    Ok(made)
}

/// Returns a copy of registers as 8-bit registers, with their estimate state.
///
/// Allocates only with this allocator. Fails with `Memory`.
pub(crate) fn eight_bits_of<R: Registers, A: Allocator>(
    alloc: A,
    source: &R,
) -> Result<Array8<A>, Error>
    ensures ok { IfOk result (λ a. a ≡ R.stored source.now) }
    ensures err { IfErr result (λ e. e ≡ Memory) }
{
    let mut made = fold_of_registers(alloc, source.lg_k(), source)?;
    made.restore_estimate_state(source.estimate_state());
    Ok(made)
}
