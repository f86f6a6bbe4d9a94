// SPDX-License-Identifier: Apache-2.0
//! Long searches for absent keys, shortened by cycles (docs/MODEL.md, "Cycles").
ghost use Rattle.std.specs.Prelude.{◌≡◌, ℕ, List, ◌%◌, ◌^◌, ◌<◌, ◌≤◌, All, length, IsTrue, IfOk, OnOk, IfErr, IfSome};
ghost use Rattle.hll_base.specs.declared.error.Reason.TheVariants.{Memory};
ghost use Rattle.hll_coupons.specs.Cycle.{IsSound, AreFilled};
ghost use Rattle.hll_coupons.specs.Keys.{key_of};
ghost use Rattle.hll_coupons.specs.LongSearches.{AreFor, EndsByCycle};
ghost use Rattle.hll_coupons.specs.Probe.{EndsAt, Passes, IsAbsent};
ghost use Rattle.hll_coupons.specs.Table.{coupons_in};

use crate::coupon::Coupon;
use crate::cycle::Cycle;
use crate::search::{Key, SHORT, search, search_on, search_within, stride_of};
use hll_base::error::Error;
use std::alloc::Allocator;

/// The logarithm of the smallest number of buckets that a cycle is made for: one block of bits.
const LG_LEAST_CYCLE: usize = 6;

/// The cycles that were made while a table is filled, and the number of steps of long searches since the last cycle was
/// made.
#[derive(Drop)]
pub(crate) struct LongSearches<A: Allocator> {
    steps: usize,
    cycles: Vec<Cycle<A>, A>,
}

impl<A: Allocator> LongSearches<A> {
    /// Returns a record with no steps and no cycles.
    pub(crate) fn new(alloc: A) -> LongSearches<A>
        ensures { (lg : ℕ) (buckets : List ℕ) → AreFor lg buckets result }
    {
        LongSearches {
            steps: 0,
            cycles: Vec::new(alloc),
        }
    }

    /// Returns whether there are no cycles.
    pub(crate) fn are_none(&self) -> bool
        ensures { IsTrue result → (lg : ℕ) (buckets : List ℕ) → AreFor lg buckets self.now }
    {
        self.cycles.is_empty()
    }

    /// Forgets all cycles, because their table is gone.
    pub(crate) fn forget(&mut self)
        ensures { (lg : ℕ) (buckets : List ℕ) → AreFor lg buckets self.new }
    {
        self.steps = 0;
        self.cycles.clear();
    }

    /// Returns the bucket where the search for an absent key ends, if there is a cycle of its stride.
    #[inline(never)]
    fn end_by_cycle(&self, lg_size: usize, key: u32) -> Option<usize>
        requires small { lg_size ≤ 26 }
        requires sound { All IsSound self.now.cycles.items }
        ensures { IfSome result (EndsByCycle self.now lg_size key) }
    {
        let stride = stride_of(lg_size, key);
        for cycle in &self.cycles {
            if cycle.stride() == stride {
                return cycle.first_empty(key);
            }
        }
        None
    }

    /// Records that a bucket of the table is filled.
    pub(crate) fn fill(&mut self, bucket: usize)
        requires sound { All IsSound self.old.cycles.items }
        requires within { All (λ c. bucket < 2 ^ c.lg_size) self.old.cycles.items }
        ensures { AreFilled self.old.cycles.items bucket self.new.cycles.items }
    {
        fill_each(&mut self.cycles, bucket);
    }
}

impl<A: Allocator + Clone> LongSearches<A> {
    /// Returns the bucket where the search for an absent key ends.
    ///
    /// Allocates a cycle when long searches have become expensive. Fails with `Memory` if an allocation fails.
    pub(crate) fn end_of(
        &mut self,
        by: Key,
        lg_size: usize,
        buckets: &[Coupon],
        key: u32,
    ) -> Result<usize, Error>
        requires small { lg_size ≤ 26 }
        requires size { length buckets.now ≡ 2 ^ lg_size }
        requires absent { IsAbsent (key_of by) buckets.now key }
        requires room { length (coupons_in buckets.now) < 2 ^ lg_size }
        requires cycles { AreFor lg_size buckets.now self.old }
        ensures ends { IfOk result (EndsAt (key_of by) lg_size buckets.now key) }
        ensures cycles { AreFor lg_size buckets.now self.new }
        ensures err { IfErr result (λ e. e ≡ Memory) }
    {
        if !self.cycles.is_empty() {
            if let Some(bucket) = self.end_by_cycle(lg_size, key) {
                return Ok(bucket);
            }
        }
        let limit = SHORT.min(buckets.len());
        match search_within(by, lg_size, buckets, key, limit) {
            Some(bucket) => Ok(bucket),
            None => self.end_of_long(by, lg_size, buckets, key, limit),
        }
    }

    /// Returns the bucket where the search for an absent key ends. If a cycle can't be allocated, walks the path.
    pub(crate) fn end_or_walk(
        &mut self,
        by: Key,
        lg_size: usize,
        buckets: &[Coupon],
        key: u32,
    ) -> usize
        requires small { lg_size ≤ 26 }
        requires size { length buckets.now ≡ 2 ^ lg_size }
        requires absent { IsAbsent (key_of by) buckets.now key }
        requires room { length (coupons_in buckets.now) < 2 ^ lg_size }
        requires cycles { AreFor lg_size buckets.now self.old }
        ensures ends { EndsAt (key_of by) lg_size buckets.now key result }
        ensures cycles { AreFor lg_size buckets.now self.new }
    {
        match self.end_of(by, lg_size, buckets, key) {
            Ok(bucket) => bucket,
            Err(_) => match search(by, lg_size, buckets, key) {
                Some(bucket) => bucket,
                None => unreachable!(),
            },
        }
    }

    /// Does what `end_of` does, after the first `passed` buckets of the path, and counts the steps.
    #[inline(never)]
    fn end_of_long(
        &mut self,
        by: Key,
        lg_size: usize,
        buckets: &[Coupon],
        key: u32,
        passed: usize,
    ) -> Result<usize, Error>
        requires small { lg_size ≤ 26 }
        requires size { length buckets.now ≡ 2 ^ lg_size }
        requires room { length (coupons_in buckets.now) < 2 ^ lg_size }
        requires within { passed ≤ 2 ^ lg_size }
        requires passes { Passes (key_of by) lg_size buckets.now key passed }
        requires cycles { AreFor lg_size buckets.now self.old }
        ensures ends { IfOk result (EndsAt (key_of by) lg_size buckets.now key) }
        ensures cycles { AreFor lg_size buckets.now self.new }
        ensures err { IfErr result (λ e. e ≡ Memory) }
    {
        let Some((bucket, more)) = search_on(by, lg_size, buckets, key, passed) else {
            unreachable!()
        };
        self.steps = self.steps.saturating_add(more);
        if are_expensive(self.steps, lg_size) {
            self.make_cycle(lg_size, stride_of(lg_size, key), buckets)?;
        }
        Ok(bucket)
    }

    /// Makes the cycle of a stride through these buckets, and resets the count of steps to 0.
    fn make_cycle(&mut self, lg_size: usize, stride: u32, buckets: &[Coupon]) -> Result<(), Error>
        requires least { 6 ≤ lg_size }
        requires small { lg_size ≤ 26 }
        requires size { length buckets.now ≡ 2 ^ lg_size }
        requires odd { stride % 2 ≡ 1 }
        requires few { stride < 2 ^ 26 }
        requires cycles { AreFor lg_size buckets.now self.old }
        ensures cycles { AreFor lg_size buckets.now self.new }
        ensures err { IfErr result (λ e. e ≡ Memory) }
    {
        self.steps = 0;
        let alloc = self.cycles.allocator().clone()?;
        let cycle = Cycle::new(alloc, lg_size, stride, buckets)?;
        self.cycles.push(cycle)?;
        Ok(())
    }
}

/// Returns whether the table has at least 64 buckets and long searches took at least four steps for each bucket.
fn are_expensive(steps: usize, lg_size: usize) -> bool
    requires { lg_size ≤ 26 }
    ensures { IsTrue result → 6 ≤ lg_size }
{
    lg_size >= LG_LEAST_CYCLE && steps >= 4 << lg_size
}

/// Records in each cycle that a bucket is filled.
fn fill_each<A: Allocator>(cycles: &mut [Cycle<A>], bucket: usize)
    requires sound { All IsSound cycles.old }
    requires within { All (λ c. bucket < 2 ^ c.lg_size) cycles.old }
    ensures { AreFilled cycles.old bucket cycles.new }
{
    for cycle in cycles.iter_mut() {
        cycle.fill(bucket);
    }
}
