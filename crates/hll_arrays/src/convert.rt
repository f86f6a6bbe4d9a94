// SPDX-License-Identifier: Apache-2.0
//! Conversions of registers to another width (docs/MODEL.md, "Merges and conversions").
ghost use Rattle.std.specs.Prelude.{◌≡◌, IfOk, IfErr};
ghost use Rattle.hll_base.specs.declared.error.Reason.TheVariants.{Memory};

use crate::array8::Array8;
use hll_base::error::Error;
use hll_registers::register_store::RegisterStore;
use std::alloc::Allocator;

/// Returns a copy of the registers and the state in another representation.
///
/// Allocates with the source's allocator. Fails with `Memory` if an allocation fails.
pub fn convert<S: RegisterStore<A>, A: Allocator + Clone>(src: &Array8<A>) -> Result<S, Error>
    ensures ok { IfOk result (λ s. S.stored s ≡ src.now) }
    ensures err { IfErr result (λ e. e ≡ Memory) }
{
    let mut made = S::from_values(src.allocator().clone()?, src.lg_k(), src.values())?;
    made.restore(src.estimate_state());
    Ok(made)
}
