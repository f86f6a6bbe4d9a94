// SPDX-License-Identifier: Apache-2.0
//! Sorts the tail of a run into it, in place.
ghost use Rattle.std.specs.Prelude.{◌≡◌, ◌+◌, ◌≤◌, length, take};
ghost use Rattle.std.specs.List.Sorted.{IsStrictlyIncreasing};
ghost use Rattle.hll_coupons.specs.Coupons.{IsAscending};
ghost use Rattle.hll_coupons.specs.Pair.{set_of};
ghost use Rattle.hll_state.specs.CouponRun.{raws};

use crate::elements::sort;
use crate::merge::{dedup, merge};
use hll_coupons::raw_coupons::ascends;

/// Sorts the first `used` coupons, of which the first `run` are meant to ascend. Returns the number of distinct coupons, which
/// ascend in the first elements afterwards.
///
/// If the first `run` coupons don't ascend, sorts all.
pub(crate) fn settle(coupons: &mut [[u8; 4]], run: usize, used: usize) -> usize
    requires run { run ≤ used }
    requires used { used ≤ length coupons.old }
    ensures within { result ≤ used }
    ensures ascending { IsAscending (take result (raws coupons.new)) (set_of (take used (raws coupons.old))) }
{
    if !ascends(&coupons[..run]) {
        return sort_all(&mut coupons[..used]);
    }
    if run == used {
        return used;
    }
    settle_tail(coupons, run, used)
}

/// Sorts a copy of the tail in the free elements and merges it with the run, which ascends. Sorts all coupons if the free
/// elements are fewer than the tail.
fn settle_tail(coupons: &mut [[u8; 4]], run: usize, used: usize) -> usize
    requires run { run ≤ used }
    requires used { used ≤ length coupons.old }
    requires ascends { IsStrictlyIncreasing (take run (raws coupons.old)) }
    ensures within { result ≤ used }
    ensures ascending { IsAscending (take result (raws coupons.new)) (set_of (take used (raws coupons.old))) }
{
    let tail = used - run;
    let (front, free) = coupons.split_at_mut(used);
    if tail <= free.len() {
        merge_tail(front, run, &mut free[..tail])
    } else {
        sort_all(front)
    }
}

/// Sorts the coupons after the first `run`, in a copy, and merges them with the run.
fn merge_tail(coupons: &mut [[u8; 4]], run: usize, copy: &mut [[u8; 4]]) -> usize
    requires room { run + length copy.old ≡ length coupons.old }
    requires ascends { IsStrictlyIncreasing (take run (raws coupons.old)) }
    ensures within { result ≤ length coupons.old }
    ensures ascending { IsAscending (take result (raws coupons.new)) (set_of (raws coupons.old)) }
{
    copy.copy_from_slice(&coupons[run..]);
    let distinct = sort_all(copy);
    merge(&mut coupons[..run + distinct], run, &copy[..distinct])
}

/// Sorts coupons, keeps each once, in the first elements, and returns their number.
fn sort_all(coupons: &mut [[u8; 4]]) -> usize
    ensures within { result ≤ length coupons.old }
    ensures ascending { IsAscending (take result (raws coupons.new)) (set_of (raws coupons.old)) }
{
    sort(coupons);
    dedup(coupons)
}
