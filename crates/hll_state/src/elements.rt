// SPDX-License-Identifier: Apache-2.0
//! Raw coupons in elements of four bytes, the lowest byte first.
ghost use Rattle.std.specs.Prelude.{◌≡◌, ◌+◌, ◌-◌, ◌<◌, ◌≤◌, ◌++◌, drop, length, slice_index, slice_set, take};
ghost use Rattle.std.specs.List.Sorted.{IsNonDecreasing, IsPermutation};
ghost use Rattle.hll_state.specs.CouponRun.{raws};

/// Returns the raw coupon of an element.
#[inline(always)]
pub(crate) fn get(coupons: &[[u8; 4]], at: usize) -> u32
    requires { at < length coupons.now }
    ensures { result ≡ slice_index (raws coupons.now) at }
{
    u32::from_le_bytes(coupons[at])
}

/// Writes a raw coupon into an element.
#[inline(always)]
pub(crate) fn set(coupons: &mut [[u8; 4]], at: usize, raw: u32)
    requires { at < length coupons.old }
    ensures { raws coupons.new ≡ slice_set (raws coupons.old) at raw }
{
    coupons[at] = raw.to_le_bytes();
}

/// Moves the first `len` elements to the end.
pub(crate) fn move_to_end(coupons: &mut [[u8; 4]], len: usize)
    requires { len ≤ length coupons.old }
    ensures { drop (length coupons.old - len) (raws coupons.new) ≡ take len (raws coupons.old) }
{
    let end = coupons.len() - len;
    coupons.copy_within(..len, end);
}

/// Moves the elements from index `from` on down to index `to`.
pub(crate) fn move_down(coupons: &mut [[u8; 4]], from: usize, to: usize)
    requires down { to ≤ from }
    requires within { from ≤ length coupons.old }
    ensures { take (to + (length coupons.old - from)) (raws coupons.new) ≡ take to (raws coupons.old) ++ drop from (raws coupons.old) }
{
    coupons.copy_within(from.., to);
}

/// Copies other elements over the elements from index `at` on.
pub(crate) fn copy_to(coupons: &mut [[u8; 4]], at: usize, others: &[[u8; 4]])
    requires { at + length others.now ≤ length coupons.old }
    ensures { take (at + length others.now) (raws coupons.new) ≡ take at (raws coupons.old) ++ raws others.now }
{
    coupons[at..at + others.len()].copy_from_slice(others);
}

/// Sorts elements by their raw coupons.
pub(crate) fn sort(coupons: &mut [[u8; 4]])
    ensures permutation { IsPermutation (raws coupons.old) (raws coupons.new) }
    ensures sorted { IsNonDecreasing (raws coupons.new) }
{
    coupons.sort_unstable_by_key(|coupon| u32::from_le_bytes(*coupon));
}
