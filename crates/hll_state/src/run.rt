// SPDX-License-Identifier: Apache-2.0
//! Distinct coupons in borrowed elements. No call allocates.
ghost use Rattle.std.specs.Prelude.{◌≡◌, ◌*◌, ◌+◌, ◌<◌, ◌≤◌, length, take, List, ℕ};
ghost use Rattle.std.specs.FinSet.{empty, insert, union};
ghost use Rattle.std.specs.List.Sorted.{IsStrictlyIncreasing};
ghost use Rattle.hll_coupons.specs.Coupons.{coupon_bytes, raw_coupons, IsAscending, WritesAscending};
ghost use Rattle.hll_coupons.specs.Pair.{set_of};
ghost use Rattle.hll_state.specs.CouponRun.{IsRun, members, raws};

use crate::elements::{copy_to, set};
use crate::merge::merge;
use crate::settle::settle;

/// The least number of coupons in a tail that a push sorts into the run.
const LEAST_TAIL: usize = 32;

/// How many elements of a slice are in use, and how many of them are the run, which is meant to ascend. The others are the
/// tail, which is in any order and may repeat coupons.
///
/// An element holds a raw coupon, the lowest byte first. Each call borrows the elements: pass them as the last call left them.
/// Contracts see `members`, the set of the coupons in use. No call trusts what the elements hold: if other code wrote into
/// them, the set is that of the new bytes, and `settle` sorts it, even if the run does not ascend.
#[derive(Clone, Copy, Debug, PartialEq, Eq)]
pub struct CouponRun {
    /// The length of the run.
    pub run: usize,

    /// The number of elements in use, at least the number of distinct coupons.
    pub used: usize,
}

impl CouponRun {
    /// Returns a run of no coupons, whatever the elements hold.
    pub fn new() -> CouponRun
        ensures run { (coupons : List (List ℕ)) → IsRun result coupons }
        ensures none { (coupons : List (List ℕ)) → members result coupons ≡ empty }
    {
        CouponRun { run: 0, used: 0 }
    }

    /// Adds a raw coupon, any `u32`. At least one element is free.
    ///
    /// A push writes one element. Before that it settles the run, if the tail is as long as the run and has at least 32
    /// coupons.
    #[inline(always)]
    pub fn push(&mut self, coupons: &mut [[u8; 4]], raw: u32)
        requires run { IsRun self.old coupons.old }
        requires room { self.old.used < length coupons.old }
        ensures run { IsRun self.new coupons.new }
        ensures added { members self.new coupons.new ≡ insert (members self.old coupons.old) raw }
        ensures used { self.new.used ≤ self.old.used + 1 }
    {
        if self.used - self.run >= self.run.max(LEAST_TAIL) {
            self.settle(coupons);
        }
        set(coupons, self.used, raw);
        self.used += 1;
    }

    /// Adds others, in any order. At least as many elements are free.
    ///
    /// It writes their elements. Before that it settles the run, where `push` does.
    pub fn extend(&mut self, coupons: &mut [[u8; 4]], others: &[[u8; 4]])
        requires run { IsRun self.old coupons.old }
        requires room { self.old.used + length others.now ≤ length coupons.old }
        ensures run { IsRun self.new coupons.new }
        ensures added { members self.new coupons.new ≡ union (members self.old coupons.old) (set_of (raws others.now)) }
        ensures used { self.new.used ≤ self.old.used + length others.now }
    {
        if self.used - self.run >= self.run.max(LEAST_TAIL) {
            self.settle(coupons);
        }
        copy_to(coupons, self.used, others);
        self.used += others.len();
    }

    /// Sorts the tail into the run, and keeps each coupon once. If the run does not ascend, sorts all coupons.
    ///
    /// It needs no memory but the elements: a copy of the tail is sorted in the free elements, and merged with the run. If the
    /// free elements are fewer than the tail, all coupons are sorted. If the run ascends and there is no tail, it takes one
    /// pass over the run.
    #[inline(never)]
    pub fn settle(&mut self, coupons: &mut [[u8; 4]])
        requires { IsRun self.old coupons.old }
        ensures run { IsRun self.new coupons.new }
        ensures members { members self.new coupons.new ≡ members self.old coupons.old }
        ensures settled { self.new.run ≡ self.new.used }
        ensures ascending { IsAscending (take self.new.used (raws coupons.new)) (members self.old coupons.old) }
        ensures fewer { self.new.used ≤ self.old.used }
    {
        self.used = settle(coupons, self.run, self.used);
        self.run = self.used;
    }

    /// Returns the bytes of all coupons in use, which ascend as `settle` leaves them: four bytes each, as in a compact image
    /// (docs/FORMAT.md, "What is written").
    pub fn as_bytes<'a>(&self, coupons: &'a [[u8; 4]]) -> &'a [u8]
        requires run { IsRun self.now coupons.now }
        requires ascends { IsStrictlyIncreasing (take self.now.used (raws coupons.now)) }
        ensures size { length result.now ≡ 4 * self.now.used }
        ensures ascending { IsAscending (raw_coupons self.now.used result.now) (members self.now coupons.now) }
        ensures written { WritesAscending coupon_bytes (members self.now coupons.now) result.now }
    {
        let bytes = coupons[..self.used].as_flattened();
        bytes_are_written(bytes);
        bytes
    }
}

/// States that bytes are what is written for the raw coupons that are read from them. Does nothing at run time: a proof needs
/// it.
fn bytes_are_written(bytes: &[u8])
    ensures { (count : ℕ) → length bytes.now ≡ 4 * count → bytes.now ≡ coupon_bytes (raw_coupons count bytes.now) }
{}
