// SPDX-License-Identifier: Apache-2.0
//! Builds maps of exceptions.
ghost use Rattle.std.specs.Prelude.{◌≡◌, ◌≢◌, ◌↔◌, ◌*◌, ◌^◌, ◌<◌, ◌≤◌, ◌==◌, ℕ, if◌then◌else◌, length, None, Some, IsTrue, IfOk, IfErr, IfSome, OnOk, OnErr};
ghost use Rattle.hll_base.specs.declared.error.Reason.TheVariants.{Memory};
ghost use Rattle.hll_coupons.specs.AuxMap.{empty_map, value_in, IsMap, MarksValues};
ghost use Rattle.hll_coupons.specs.Blocks.{bit_of};

use crate::aux_map::AuxMap;
use crate::blocks::{is_set, set};
use crate::long_searches::LongSearches;
use hll_base::error::Error;
use std::alloc::{Allocator, Global};
use std::marker::Model;

/// Builds a map of exceptions entry by entry. The number of entries bounds the time, even if their slots were chosen to
/// make searches long. Contracts see the map.
///
/// Allocates the map. When searches have become expensive it allocates more: a bit for each slot, and bitmaps of
/// buckets (docs/OPERATING.md).
#[derive(Drop)]
pub struct AuxMapBuilder<A: Allocator = Global> {
    map: AuxMap<A>,
    searches: LongSearches<A>,
    /// The bits of the slots that have a value. They are made when a search for a slot is cut off.
    marks: Option<Vec<u64, A>>,
}

impl<A: Allocator> Model for AuxMapBuilder<A> {
    ghost use Rattle.std.specs.Prelude.{IfSome};
    ghost use Rattle.hll_coupons.specs.AuxMap.{ExceptionMap, MarksValues};
    ghost use Rattle.hll_coupons.specs.LongSearches.{AreFor};

    ghost Value = { ExceptionMap };

    ghost view = { λ b. b.map };

    ghost invariant = { λ b. AreFor b.map.table.lg_size b.map.table.buckets b.searches × IfSome b.marks (λ blocks. MarksValues b.map blocks.items) };
}

impl<A: Allocator> AuxMapBuilder<A> {
    /// Returns the map.
    pub fn build(self) -> AuxMap<A>
        ensures { result ≡ self }
    {
        let AuxMapBuilder { map, .. } = self;
        map
    }
}

impl<A: Allocator + Clone> AuxMapBuilder<A> {
    /// Returns a builder of a map with no entries.
    ///
    /// `lg_config_k` is 4 to 21. Fails with `Memory` if an allocation fails.
    pub fn new(alloc: A, lg_config_k: u8) -> Result<AuxMapBuilder<A>, Error>
        requires least { 4 ≤ lg_config_k }
        requires most { lg_config_k ≤ 21 }
        ensures ok { IfOk result (λ m. m ≡ empty_map lg_config_k) }
        ensures map { IfOk result IsMap }
        ensures err { IfErr result (λ e. e ≡ Memory) }
    {
        let map = AuxMap::new(alloc.clone()?, lg_config_k)?;
        Ok(AuxMapBuilder {
            map,
            searches: LongSearches::new(alloc),
            marks: None,
        })
    }

    /// Returns whether a slot below 2^`lg_config_k` has a value.
    ///
    /// Fails with `Memory` if a search was cut off and an allocation fails.
    pub fn has(&mut self, slot: u32) -> Result<bool, Error>
        requires { slot < 2 ^ self.old.lg_k }
        ensures has { IfOk result (λ has. IsTrue has ↔ (value_in self.old slot ≢ None)) }
        ensures unchanged { self.new ≡ self.old }
        ensures err { IfErr result (λ e. e ≡ Memory) }
    {
        if let Some(value) = self.map.get_bounded(slot) {
            return Ok(value.is_some());
        }
        has_mark(&self.map, &mut self.marks, slot)
    }

    /// Inserts a value for a slot that has none.
    ///
    /// `slot` is below 2^`lg_config_k` and has no value, and `value` is 1 to 63. Fails with `Memory` if an allocation
    /// fails; then the map is unchanged.
    pub fn insert(&mut self, slot: u32, value: u8) -> Result<(), Error>
        requires within { slot < 2 ^ self.old.lg_k }
        requires least { 1 ≤ value }
        requires most { value ≤ 63 }
        requires absent { value_in self.old slot ≡ None }
        ensures lg_k { OnOk result (self.new.lg_k ≡ self.old.lg_k) }
        ensures values { OnOk result ((s : ℕ) → value_in self.new s ≡ (if s == slot then Some value else value_in self.old s)) }
        ensures map { OnOk result (IsMap self.new) }
        ensures unchanged { OnErr result (self.new ≡ self.old) }
        ensures err { IfErr result (λ e. e ≡ Memory) }
    {
        self.map.insert_by(&mut self.searches, slot, value)?;
        if let Some(blocks) = &mut self.marks {
            set(blocks, slot as usize);
        }
        Ok(())
    }
}

/// Returns whether the bit of a slot is set in the marks. Makes the marks first if there are none.
///
/// Fails with `Memory` if an allocation fails.
#[inline(never)]
fn has_mark<A: Allocator + Clone>(
    map: &AuxMap<A>,
    marks: &mut Option<Vec<u64, A>>,
    slot: u32,
) -> Result<bool, Error>
    requires within { slot < 2 ^ map.now.lg_k }
    requires marks { IfSome marks.old (λ blocks. MarksValues map.now blocks.items) }
    ensures has { IfOk result (λ has. IsTrue has ↔ (value_in map.now slot ≢ None)) }
    ensures marks { IfSome marks.new (λ blocks. MarksValues map.now blocks.items) }
    ensures err { IfErr result (λ e. e ≡ Memory) }
{
    if let Some(blocks) = &*marks {
        return Ok(is_set(blocks, slot as usize));
    }
    let blocks = marks_of(map)?;
    let has = is_set(&blocks, slot as usize);
    *marks = Some(blocks);
    Ok(has)
}

/// Returns a bit for each slot, set if the slot has a value. Fails with `Memory` if the allocation fails.
fn marks_of<A: Allocator + Clone>(map: &AuxMap<A>) -> Result<Vec<u64, A>, Error>
    ensures ok { IfOk result (λ blocks. MarksValues map.now blocks.items) }
    ensures err { IfErr result (λ e. e ≡ Memory) }
{
    let size = (1usize << map.lg_config_k()) / 64 + 1;
    let mut blocks = vec![in map.allocator().clone()?; 0u64; size]?;
    mark_slots(&mut blocks, map);
    Ok(blocks)
}

/// Sets the bit of each slot that has a value.
fn mark_slots<A: Allocator>(blocks: &mut [u64], map: &AuxMap<A>)
    requires map { IsMap map.now }
    requires room { 2 ^ map.now.lg_k ≤ 64 * length blocks.old }
    requires none { (s : ℕ) → bit_of blocks.old s ≡ 0 }
    ensures { MarksValues map.now blocks.new }
{
    for (slot, _) in map.iter() {
        set(blocks, slot as usize);
    }
}
