// SPDX-License-Identifier: Apache-2.0
//! Merges of registers from any source (docs/MODEL.md, "Merges and conversions").
ghost use Rattle.std.specs.Prelude.{◌≡◌, ◌≤◌};
ghost use Rattle.hll_registers.specs.Store.{merge_with};

use crate::array8::Array8;
use hll_registers::registers::Registers;
use std::alloc::Allocator;

/// Sets each register to the maximum of itself and the source's registers that fold to it, and clears the state.
///
/// The source's `lg_k` is at least that of the destination. One pass over the source; allocates nothing.
pub fn merge_from<R: Registers, A: Allocator>(dst: &mut Array8<A>, src: &R)
    requires { dst.old.lg_k ≤ (R.stored src.now).lg_k }
    ensures { dst.new ≡ merge_with dst.old (R.stored src.now).registers }
{
    dst.merge_folds(src);
}
