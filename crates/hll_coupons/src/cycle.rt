// SPDX-License-Identifier: Apache-2.0
//! The cycle of a stride, and searches along it (docs/MODEL.md, "Cycles").
ghost use Rattle.std.specs.Prelude.{◌≡◌, ℕ, ◌+◌, ◌*◌, ◌/◌, ◌%◌, ◌^◌, ◌<◌, ◌≤◌, length, IfOk, IfErr, IfSome, IfNone};
ghost use Rattle.hll_base.specs.declared.error.Reason.TheVariants.{Memory};
ghost use Rattle.hll_coupons.specs.Blocks.{bit_of, IsSummary, NoneFrom};
ghost use Rattle.hll_coupons.specs.Cycle.{IsEmptyMap, IsNextRound, IsSound, Shows, EndsForAbsent, Fills};

use crate::blocks::{next_by_summary, set, take};
use crate::coupon::Coupon;
use crate::inverse::inverse_of;
use crate::search::wrapped;
use hll_base::error::Error;
use std::alloc::Allocator;

/// Which buckets of a table are empty, in the order in which steps of one stride visit them.
#[derive(Drop)]
pub(crate) struct Cycle<A: Allocator> {
    lg_size: usize,
    stride: u32,
    inverse: usize,
    empty: Vec<u64, A>,
    summary: Vec<u64, A>,
}

/// Returns the index of the first bit that is set, starting at `from` and wrapping around at the end.
fn next_round(blocks: &[u64], summary: &[u64], from: usize) -> Option<usize>
    requires small { 64 * length summary.now < 2 ^ 26 }
    requires summary { IsSummary blocks.now summary.now }
    requires within { from < 64 * length blocks.now }
    ensures found { IfSome result (λ bit. (lg : ℕ) → 64 * length blocks.now ≡ 2 ^ lg → IsNextRound lg blocks.now from bit) }
    ensures none { IfNone result (NoneFrom blocks.now 0) }
{
    match next_by_summary(blocks, summary, from) {
        Some(bit) => Some(bit),
        None => next_by_summary(blocks, summary, 0),
    }
}

/// Sets the bit of each empty bucket.
fn mark_empty(blocks: &mut [u64], lg_size: usize, stride: u32, buckets: &[Coupon])
    requires small { lg_size ≤ 26 }
    requires few { stride < 2 ^ 26 }
    requires size { length buckets.now ≡ 2 ^ lg_size }
    requires blocks { 64 * length blocks.old ≡ 2 ^ lg_size }
    requires none { (i : ℕ) → bit_of blocks.old i ≡ 0 }
    ensures { IsEmptyMap lg_size stride buckets.now blocks.new }
{
    let mut bucket = 0;
    for steps in 0..buckets.len() {
        if buckets[bucket].is_empty() {
            set(blocks, steps);
        }
        bucket = wrapped(lg_size, bucket + stride as usize);
    }
}

/// Sets the summary's bit of each block that has a bit set.
fn summarize(summary: &mut [u64], blocks: &[u64])
    requires room { length blocks.now ≤ 64 * length summary.old }
    requires none { (i : ℕ) → bit_of summary.old i ≡ 0 }
    ensures { IsSummary blocks.now summary.new }
{
    for i in 0..blocks.len() {
        if blocks[i] != 0 {
            set(summary, i);
        }
    }
}

impl<A: Allocator + Clone> Cycle<A> {
    /// Returns the cycle of an odd stride through these buckets.
    ///
    /// Allocates a bit for each bucket and a bit for each 64 buckets, in two requests. Fails with `Memory` if an
    /// allocation fails.
    pub(crate) fn new(
        alloc: A,
        lg_size: usize,
        stride: u32,
        buckets: &[Coupon],
    ) -> Result<Cycle<A>, Error>
        requires least { 6 ≤ lg_size }
        requires small { lg_size ≤ 26 }
        requires size { length buckets.now ≡ 2 ^ lg_size }
        requires odd { stride % 2 ≡ 1 }
        requires few { stride < 2 ^ 26 }
        ensures sound { IfOk result IsSound }
        ensures size { IfOk result (λ c. c.lg_size ≡ lg_size) }
        ensures stride { IfOk result (λ c. c.stride ≡ stride) }
        ensures shows { IfOk result (λ c. Shows c buckets.now) }
        ensures err { IfErr result (λ e. e ≡ Memory) }
    {
        let mut empty = vec![in alloc.clone()?; 0u64; buckets.len() / 64]?;
        mark_empty(&mut empty, lg_size, stride, buckets);
        let mut summary = vec![in alloc; 0u64; empty.len() / 64 + 1]?;
        summarize(&mut summary, &empty);
        Ok(Cycle {
            lg_size,
            stride,
            inverse: inverse_of(lg_size, stride),
            empty,
            summary,
        })
    }
}

impl<A: Allocator> Cycle<A> {
    /// Returns the stride.
    pub(crate) fn stride(&self) -> u32
        ensures { result ≡ self.now.stride }
    {
        self.stride
    }

    /// Returns the bucket where the search for an absent key of this stride ends, or `None` in a full table.
    pub(crate) fn first_empty(&self, key: u32) -> Option<usize>
        requires { IsSound self.now }
        ensures found { IfSome result (EndsForAbsent self.now key) }
        ensures none { IfNone result (NoneFrom self.now.empty.items 0) }
    {
        let start = wrapped(self.lg_size, key as usize * self.inverse);
        let steps = next_round(&self.empty, &self.summary, start)?;
        Some(wrapped(self.lg_size, steps * self.stride as usize))
    }

    /// Records that a bucket is filled.
    pub(crate) fn fill(&mut self, bucket: usize)
        requires sound { IsSound self.old }
        requires within { bucket < 2 ^ self.old.lg_size }
        ensures sound { IsSound self.new }
        ensures size { self.new.lg_size ≡ self.old.lg_size }
        ensures stride { self.new.stride ≡ self.old.stride }
        ensures fills { Fills self.old bucket self.new }
    {
        let steps = wrapped(self.lg_size, bucket * self.inverse);
        take(&mut self.empty, &mut self.summary, steps);
    }
}
