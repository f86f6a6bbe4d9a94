// SPDX-License-Identifier: Apache-2.0
//! Ascending coupons, merged in place.
ghost use Rattle.std.specs.Prelude.{◌≡◌, ◌+◌, ◌≤◌, length, take};
ghost use Rattle.std.specs.FinSet.{union};
ghost use Rattle.std.specs.List.Sorted.{IsNonDecreasing, IsStrictlyIncreasing};
ghost use Rattle.hll_coupons.specs.Coupons.{IsAscending};
ghost use Rattle.hll_coupons.specs.Pair.{set_of};
ghost use Rattle.hll_state.specs.CouponRun.{raws};

use crate::elements::{copy_to, get, move_down, move_to_end, set};

/// Merges the first `len` coupons with others, both ascending. Returns the number of distinct coupons, which ascend in the
/// first elements afterwards.
///
/// There are exactly as many elements as coupons in both together. It takes one pass, without a branch on the order of coupons.
pub(crate) fn merge(coupons: &mut [[u8; 4]], len: usize, others: &[[u8; 4]]) -> usize
    requires room { len + length others.now ≡ length coupons.old }
    requires ascends { IsStrictlyIncreasing (take len (raws coupons.old)) }
    requires others { IsStrictlyIncreasing (raws others.now) }
    ensures within { result ≤ length coupons.old }
    ensures ascending { IsAscending (take result (raws coupons.new)) (union (set_of (take len (raws coupons.old))) (set_of (raws others.now))) }
{
    let mut from = others.len();
    move_to_end(coupons, len);
    let mut next = 0;
    let mut kept = 0;
    while from < coupons.len() && next < others.len() {
        let left = get(coupons, from);
        let right = get(others, next);
        set(coupons, kept, left.min(right));
        kept += 1;
        from += usize::from(left <= right);
        next += usize::from(right <= left);
    }
    if next < others.len() {
        copy_to(coupons, kept, &others[next..]);
        return kept + (others.len() - next);
    }
    move_down(coupons, from, kept);
    kept + (coupons.len() - from)
}

/// Keeps each of the sorted coupons once, in the first elements, and returns their number. It takes one pass.
pub(crate) fn dedup(coupons: &mut [[u8; 4]]) -> usize
    requires { IsNonDecreasing (raws coupons.old) }
    ensures within { result ≤ length coupons.old }
    ensures ascending { IsAscending (take result (raws coupons.new)) (set_of (raws coupons.old)) }
{
    if coupons.is_empty() {
        return 0;
    }
    let mut last = 0;
    for i in 1..coupons.len() {
        let raw = get(coupons, i);
        last += usize::from(get(coupons, last) != raw);
        set(coupons, last, raw);
    }
    last + 1
}
