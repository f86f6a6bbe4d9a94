// SPDX-License-Identifier: Apache-2.0
//! Takes the maximum of values and folded registers.
ghost use Rattle.std.specs.Prelude.{◌≡◌, ◌^◌, ◌≤◌, length};
ghost use Rattle.hll_coupons.specs.Fold.{fold_to, pairs};
ghost use Rattle.hll_base.specs.Join.{join};
ghost use Rattle.hll_kernels.specs.Packed.{AreRegisters};

use crate::register_slice::RegisterSlice;
use crate::registers::{Registers, two_to};

/// The logarithm of the number of registers to fold to first, if reading few registers at a time is expensive.
const LG_PART: u8 = 14;

/// Sets each of 2^`lg_k` values to the maximum of itself and the source's registers that fold to it: each block of
/// 2^`lg_k` consecutive registers folds to all of the values. Folds to 2^14 registers first if the source is slow to
/// read in smaller blocks.
pub fn max_folds<R: Registers>(values: &mut [u8], lg_k: u8, src: &R)
    requires least { 4 ≤ lg_k }
    requires most { lg_k ≤ (R.stored src.now).lg_k }
    requires size { length values.old ≡ 2 ^ lg_k }
    ensures joined { values.new ≡ join values.old (fold_to (pairs (R.stored src.now).registers) lg_k) }
    ensures registers { AreRegisters lg_k values.old → AreRegisters lg_k values.new }
{
    if lg_k < LG_PART && src.lg_k() > LG_PART && src.is_slow_in_small_blocks() {
        max_by_stages(values, lg_k, src);
    } else {
        max_blocks(values, lg_k, src);
    }
}

/// Sets each value to the maximum of itself and the registers that fold to it. Folds to 2^14 registers first; the
/// source has at least this number.
#[inline(never)]
fn max_by_stages<R: Registers>(values: &mut [u8], lg_k: u8, src: &R)
    requires least { 4 ≤ lg_k }
    requires below { lg_k ≤ 14 }
    requires most { 14 ≤ (R.stored src.now).lg_k }
    requires size { length values.old ≡ 2 ^ lg_k }
    ensures joined { values.new ≡ join values.old (fold_to (pairs (R.stored src.now).registers) lg_k) }
    ensures registers { AreRegisters lg_k values.old → AreRegisters lg_k values.new }
{
    let mut parts = [0; 16384];
    max_blocks(&mut parts, LG_PART, src);
    max_blocks(values, lg_k, &RegisterSlice::new(LG_PART, &parts));
}

/// Sets each value to the maximum of itself and the registers that fold to it, one block after the other.
fn max_blocks<R: Registers>(values: &mut [u8], lg_k: u8, src: &R)
    requires least { 4 ≤ lg_k }
    requires most { lg_k ≤ (R.stored src.now).lg_k }
    requires size { length values.old ≡ 2 ^ lg_k }
    ensures joined { values.new ≡ join values.old (fold_to (pairs (R.stored src.now).registers) lg_k) }
    ensures registers { AreRegisters lg_k values.old → AreRegisters lg_k values.new }
{
    let size = values.len();
    for block in 0..two_to(src.lg_k() - lg_k) {
        src.max_into((block * size) as u32, values);
    }
}
