// SPDX-License-Identifier: Apache-2.0
//! The exceptions of 4-bit registers: a map from slots to values (docs/MODEL.md, "Maps of exceptions").
ghost use Rattle.std.specs.Prelude.{◌≡◌, ◌≢◌, ◌+◌, ◌*◌, ◌^◌, ◌<◌, ◌≤◌, ◌==◌, ℕ, if◌then◌else◌, true, length, map, None, Some, IsOk, IfOk, IfErr, OnOk, OnErr, IfSome};
ghost use Rattle.std.specs.FinSet as set;
ghost use Rattle.std.specs.Int.{w32, from_le_bytes};
ghost use Rattle.std.specs.Iterator.{YieldsFirst, item_count};
ghost use Rattle.std.specs.List.{list_all};
ghost use Rattle.hll_base.specs.declared.error.Reason.TheVariants.{Memory};
ghost use Rattle.hll_coupons.specs.AuxMap as sizes;
ghost use Rattle.hll_coupons.specs.AuxMap.{table_size, empty_map, entries_in, entry_of, value_in, with_value, Inserts, IsGrownFrom, IsMap};
ghost use Rattle.hll_coupons.specs.Coupons.{IsAscending};
ghost use Rattle.hll_coupons.specs.LongSearches.{AreFor};
ghost use Rattle.hll_coupons.specs.Pair.{slot_of, value_of, pair};
ghost use Rattle.hll_coupons.specs.Probe.{IsProbed, IsAbsent};
ghost use Rattle.hll_coupons.specs.Same.{have_same_coupons};
ghost use Rattle.hll_coupons.specs.Table.{coupons_in, coupons_of, IsTable};

use crate::container::{Container, ContainerIter};
use crate::coupon::Coupon;
use crate::filling::{put_all, put_one};
use crate::long_searches::LongSearches;
use crate::raw_coupons::{ascends, raw_coupon_at};
use crate::search::{Key, SHORT_BY_SLOT, put_entry, search, search_within};
use hll_base::error::Error;
use std::alloc::{Allocator, Global};
use std::marker::Model;

/// A map from slots below 2^`lg_config_k` to values of 1 to 63, in a hash table whose key is the slot. At most three
/// quarters of the buckets are filled, and the table has the smallest such size, from the start size up
/// (docs/FORMAT.md, "Probing"). Contracts see `lg_config_k`, the size and the list of buckets; the entries are a
/// function of it.
#[derive_where(Debug)]
#[derive(Drop)]
pub struct AuxMap<A: Allocator = Global> {
    lg_config_k: u8,
    table: Container<A>,
}

impl<A: Allocator> Model for AuxMap<A> {
    ghost use Rattle.hll_coupons.specs.AuxMap.{ExceptionMap, IsMap};

    ghost Value = { ExceptionMap };

    ghost view = { λ m. record { lg_k = m.lg_config_k; table = m.table } };

    ghost invariant = { λ m. IsMap (record { lg_k = m.lg_config_k; table = m.table }) };
}

impl<A: Allocator> AuxMap<A> {
    /// Returns an empty map with the start size, four bytes for each bucket.
    ///
    /// `lg_config_k` is 4 to 21. Fails with `Memory` if the allocation fails.
    pub fn new(alloc: A, lg_config_k: u8) -> Result<AuxMap<A>, Error>
        requires least { 4 ≤ lg_config_k }
        requires most { lg_config_k ≤ 21 }
        ensures ok { IfOk result (λ m. m ≡ empty_map lg_config_k) }
        ensures map { IfOk result IsMap }
        ensures err { IfErr result (λ e. e ≡ Memory) }
    {
        Ok(AuxMap {
            lg_config_k,
            table: Container::new(alloc, start_size(lg_config_k))?,
        })
    }

    /// Returns the `lg_k` of the slots, 4 to 21.
    pub fn lg_config_k(&self) -> u8
        ensures lg_k { result ≡ self.now.lg_k }
        ensures map { IsMap self.now }
    {
        self.lg_config_k
    }

    /// Returns the number of entries.
    pub fn len(&self) -> usize
        ensures count { result ≡ length (coupons_in self.now.table.buckets) }
        ensures map { IsMap self.now }
    {
        self.table.len()
    }

    /// Returns the value of a slot below 2^`lg_config_k`, or `None` if it has no value.
    pub fn get(&self, slot: u32) -> Option<u8>
        requires { slot < 2 ^ self.now.lg_k }
        ensures value { result ≡ value_in self.now slot }
        ensures small { IfSome result (λ v. (1 ≤ v) × (v ≤ 63)) }
    {
        let buckets = self.table.buckets();
        let bucket = search(Key::Slot, self.table.lg_size(), buckets, slot)?;
        value_of_bucket(buckets[bucket])
    }

    /// Returns the value of a slot below 2^`lg_config_k` by a short search: `None` if the search was cut off, and
    /// `Some(None)` if the slot has no value.
    pub fn get_bounded(&self, slot: u32) -> Option<Option<u8>>
        requires { slot < 2 ^ self.now.lg_k }
        ensures value { IfSome result (λ value. value ≡ value_in self.now slot) }
        ensures small { IfSome result (λ value. IfSome value (λ v. (1 ≤ v) × (v ≤ 63))) }
    {
        let buckets = self.table.buckets();
        let limit = SHORT_BY_SLOT.min(buckets.len());
        let bucket = search_within(Key::Slot, self.table.lg_size(), buckets, slot, limit)?;
        Some(value_of_bucket(buckets[bucket]))
    }

    /// Replaces the value of a slot, in the same bucket.
    ///
    /// `slot` is below 2^`lg_config_k` and has a value, and `value` is 1 to 63.
    pub fn replace(&mut self, slot: u32, value: u8)
        requires within { slot < 2 ^ self.old.lg_k }
        requires least { 1 ≤ value }
        requires most { value ≤ 63 }
        requires present { value_in self.old slot ≢ None }
        ensures buckets { self.new ≡ with_value self.old slot value }
        ensures values { (s : ℕ) → value_in self.new s ≡ (if s == slot then Some value else value_in self.old s) }
        ensures map { IsMap self.new }
    {
        let buckets = self.table.buckets();
        let Some(bucket) = search(Key::Slot, self.table.lg_size(), buckets, slot) else {
            unreachable!()
        };
        self.table.replace(bucket, Coupon::pack(slot, value));
    }

    /// Returns whether the map has this entry.
    fn has(&self, entry: Coupon) -> bool
        requires { 1 ≤ value_of entry }
        ensures { result ≡ set.contains (coupons_of self.now.table) entry }
    {
        let buckets = self.table.buckets();
        match search(Key::Slot, self.table.lg_size(), buckets, entry.slot()) {
            Some(bucket) => buckets[bucket] == entry,
            None => false,
        }
    }

    /// Returns whether the map has each entry of another map.
    fn has_all(&self, other: &AuxMap<A>) -> bool
        ensures { result ≡ set.is_subset (coupons_of other.now.table) (coupons_of self.now.table) }
    {
        for entry in other.table.iter() {
            if !self.has(entry) {
                return false;
            }
        }
        true
    }

    /// Returns whether two maps have the same entries.
    fn has_same(&self, other: &AuxMap<A>) -> bool
        ensures { result ≡ have_same_coupons self.now.table other.now.table }
    {
        self.table.len() == other.table.len() && other.has_all(self)
    }

    /// Returns whether raw coupons, each of four bytes, are the entries in ascending order. Searches for one after the other,
    /// which takes quadratic time if all entries are on one path. Allocates nothing.
    pub fn equals_ascending(&self, coupons: &[[u8; 4]]) -> bool
        ensures { result ≡ true → IsAscending (map (from_le_bytes w32) coupons.now) (coupons_of self.now.table) }
    {
        if coupons.len() != self.table.len() || !ascends(coupons) {
            return false;
        }
        self.has_each(coupons)
    }

    /// Returns whether each of some raw coupons, of four bytes, is an entry. Searches for one after the other.
    fn has_each(&self, coupons: &[[u8; 4]]) -> bool
        ensures { result ≡ true → list_all (set.contains (coupons_of self.now.table)) (map (from_le_bytes w32) coupons.now) ≡ true }
    {
        for index in 0..coupons.len() {
            let coupon = Coupon::from_raw(raw_coupon_at(coupons, index));
            if coupon.value() == 0 || !self.has(coupon) {
                return false;
            }
        }
        true
    }

    /// Returns a copy of the entries as coupons, in ascending order.
    ///
    /// Allocates four bytes for each entry, in one request. Fails with `Memory` if the allocation fails.
    pub fn ascending<B: Allocator>(&self, alloc: B) -> Result<Vec<Coupon, B>, Error>
        ensures ok { IfOk result (λ entries. IsAscending entries.items (coupons_of self.now.table)) }
        ensures count { IfOk result (λ entries. length entries.items ≡ length (coupons_in self.now.table.buckets)) }
        ensures err { IfErr result (λ e. e ≡ Memory) }
    {
        self.table.ascending(alloc)
    }

    /// Returns an iterator over the entries in the order of their buckets, each once.
    pub fn iter(&self) -> AuxMapRefIter<'_>
        ensures { result ≡ entries_in self.now }
    {
        AuxMapRefIter {
            entries: self.table.iter(),
        }
    }

    /// Returns the map's allocator.
    pub(crate) fn allocator(&self) -> &A {
        self.table.allocator()
    }

    /// Returns the size of all buckets in bytes, four for each.
    pub fn estimated_size(&self) -> usize
        ensures { result ≡ 4 * 2 ^ self.now.table.lg_size }
    {
        self.table.estimated_size()
    }
}

impl<A: Allocator + Clone> AuxMap<A> {
    /// Inserts a value for a slot that has none. If more than three quarters of the buckets are then filled, the
    /// entries move to a table with twice as many buckets, in the order of their buckets.
    ///
    /// `slot` is below 2^`lg_config_k` and has no value, and `value` is 1 to 63. Fails with `Memory` if the table has
    /// to grow and an allocation fails; then the map is unchanged.
    pub fn insert(&mut self, slot: u32, value: u8) -> Result<(), Error>
        requires within { slot < 2 ^ self.old.lg_k }
        requires least { 1 ≤ value }
        requires most { value ≤ 63 }
        requires absent { value_in self.old slot ≡ None }
        ensures lg_k { OnOk result (self.new.lg_k ≡ self.old.lg_k) }
        ensures buckets { OnOk result (Inserts self.old.table (pair slot value) self.new.table) }
        ensures members { OnOk result (coupons_of self.new.table ≡ set.insert (coupons_of self.old.table) (pair slot value)) }
        ensures values { OnOk result ((s : ℕ) → value_in self.new s ≡ (if s == slot then Some value else value_in self.old s)) }
        ensures map { OnOk result (IsMap self.new) }
        ensures unchanged { OnErr result (self.new ≡ self.old) }
        ensures err { IfErr result (λ e. e ≡ Memory) }
        ensures never { table_size self.old.lg_k (length (coupons_in self.old.table.buckets) + 1) ≡ self.old.table.lg_size → IsOk result }
    {
        let entry = Coupon::pack(slot, value);
        if 4 * (self.table.len() + 1) <= 3 * self.table.capacity() {
            put_entry(&mut self.table, Key::Slot, entry);
        } else {
            put_growing(&mut self.table, entry)?;
        }
        Ok(())
    }

    /// Inserts a value for a slot that has none, by these searches of the table. They are forgotten when the table
    /// grows.
    ///
    /// Fails with `Memory` if an allocation fails; then the map is unchanged.
    pub(crate) fn insert_by(
        &mut self,
        searches: &mut LongSearches<A>,
        slot: u32,
        value: u8,
    ) -> Result<(), Error>
        requires within { slot < 2 ^ self.old.lg_k }
        requires least { 1 ≤ value }
        requires most { value ≤ 63 }
        requires absent { value_in self.old slot ≡ None }
        requires cycles { AreFor self.old.table.lg_size self.old.table.buckets searches.old }
        ensures lg_k { OnOk result (self.new.lg_k ≡ self.old.lg_k) }
        ensures buckets { OnOk result (Inserts self.old.table (pair slot value) self.new.table) }
        ensures members { OnOk result (coupons_of self.new.table ≡ set.insert (coupons_of self.old.table) (pair slot value)) }
        ensures values { OnOk result ((s : ℕ) → value_in self.new s ≡ (if s == slot then Some value else value_in self.old s)) }
        ensures map { OnOk result (IsMap self.new) }
        ensures unchanged { OnErr result (self.new ≡ self.old) }
        ensures err { IfErr result (λ e. e ≡ Memory) }
        ensures cycles { AreFor self.new.table.lg_size self.new.table.buckets searches.new }
    {
        let entry = Coupon::pack(slot, value);
        if 3 * self.table.capacity() < 4 * (self.table.len() + 1) {
            put_growing(&mut self.table, entry)?;
            searches.forget();
        } else {
            put_one(&mut self.table, searches, Key::Slot, entry)?;
        }
        Ok(())
    }

    /// Returns a copy with the same buckets.
    ///
    /// Fails with `Memory` if an allocation fails.
    pub fn clone(&self) -> Result<AuxMap<A>, Error>
        ensures ok { IfOk result (λ m. m ≡ self.now) }
        ensures err { IfErr result (λ e. e ≡ Memory) }
    {
        Ok(AuxMap {
            lg_config_k: self.lg_config_k,
            table: self.table.clone()?,
        })
    }
}

/// Returns the logarithm of the start size of a table (docs/FORMAT.md, "Probing").
fn start_size(lg_config_k: u8) -> usize
    requires { lg_config_k ≤ 21 }
    ensures size { result ≡ sizes.start_size lg_config_k }
    ensures small { result ≤ 26 }
{
    match lg_config_k {
        ..=6 => 2,
        7..=9 => 3,
        10..=11 => 4,
        12..=13 => 5,
        _ => usize::from(lg_config_k) - 8,
    }
}

/// Returns the value of an entry, or `None` for an empty bucket.
fn value_of_bucket(entry: Coupon) -> Option<u8>
    ensures { result ≡ (if entry == 0 then None else Some (value_of entry)) }
{
    if entry.is_empty() {
        None
    } else {
        Some(entry.value())
    }
}

/// Puts an entry into a table, and moves all entries to a table with twice as many buckets, in the order of their
/// buckets.
///
/// Fails with `Memory` if an allocation fails; then the table is unchanged.
fn put_growing<A: Allocator + Clone>(table: &mut Container<A>, entry: Coupon) -> Result<(), Error>
    requires probed { IsProbed slot_of table.old.lg_size table.old.buckets }
    requires valued { 1 ≤ value_of entry }
    requires absent { IsAbsent slot_of table.old.buckets (slot_of entry) }
    requires room { length (coupons_in table.old.buckets) < 2 ^ table.old.lg_size }
    requires small { table.old.lg_size < 26 }
    ensures ok { OnOk result (IsGrownFrom table.old entry table.new) }
    ensures probed { OnOk result (IsProbed slot_of table.new.lg_size table.new.buckets) }
    ensures members { OnOk result (coupons_of table.new ≡ set.insert (coupons_of table.old) entry) }
    ensures count { OnOk result (length (coupons_in table.new.buckets) ≡ length (coupons_in table.old.buckets) + 1) }
    ensures table { OnOk result (IsTable table.new) }
    ensures unchanged { OnErr result (table.new ≡ table.old) }
    ensures err { IfErr result (λ e. e ≡ Memory) }
{
    table.table_is_legal();
    let mut larger = Container::new(table.allocator().clone()?, table.lg_size() + 1)?;
    let bucket = put_entry(table, Key::Slot, entry);
    match put_all(&mut larger, Key::Slot, table.buckets()) {
        Ok(()) => {
            *table = larger;
            Ok(())
        }
        Err(e) => {
            table.take_out(bucket);
            Err(e)
        }
    }
}

/// Maps are equal if they have the same `lg_config_k` and the same entries; their buckets don't matter. Looks up each
/// entry of one map in the other, and allocates nothing.
impl<A: Allocator> PartialEq for AuxMap<A> {
    ghost use Rattle.hll_coupons.specs.Same.{have_same_entries, have_same_entries-partial};

    ghost eq = { have_same_entries };

    ghost laws = { have_same_entries-partial };

    fn eq(&self, other: &AuxMap<A>) -> bool {
        self.lg_config_k == other.lg_config_k && self.has_same(other)
    }
}

impl<A: Allocator> Eq for AuxMap<A> {
    ghost use Rattle.hll_coupons.specs.Same.{have_same_entries-equivalence};

    ghost laws = { have_same_entries-equivalence };
}

impl<A: Allocator> IntoIterator for AuxMap<A> {
    type Item = (u32, u8);

    type IntoIter = AuxMapIter<A>;

    ghost into_iter_gives = { λ m entries. entries ≡ entries_in m };

    /// Returns an iterator over the entries in the order of their buckets, each once.
    fn into_iter(self) -> AuxMapIter<A> {
        let AuxMap { table, .. } = self;
        AuxMapIter { table, bucket: 0 }
    }
}

/// An iterator over the entries of a map, in the order of their buckets. Contracts see the list of the entries not yet
/// returned.
#[derive(Debug, Drop)]
pub struct AuxMapRefIter<'a> {
    entries: ContainerIter<'a>,
}

impl<'a> Model for AuxMapRefIter<'a> {
    ghost use Rattle.std.specs.Prelude.{List, ℕ, map};
    ghost use Rattle.hll_coupons.specs.AuxMap.{entry_of};

    ghost Value = { List (ℕ × ℕ) };

    ghost view = { λ r. map entry_of r.entries };
}

impl<'a> Iterator for AuxMapRefIter<'a> {
    type Item = (u32, u8);

    ghost next_gives = { YieldsFirst (λ s. s) };

    ghost remaining = { item_count (λ s. s) };

    fn next(&mut self) -> Option<(u32, u8)> {
        // (a map with few exceptions has mostly empty buckets)
        self.entries.pass_empty();
        let entry = self.entries.next()?;
        Some((entry.slot(), entry.value()))
    }
}

/// An iterator over the entries of a map that it owns, in the order of their buckets. Contracts see the list of the
/// entries not yet returned.
#[derive(Drop)]
pub struct AuxMapIter<A: Allocator = Global> {
    table: Container<A>,
    bucket: usize,
}

impl<A: Allocator> Model for AuxMapIter<A> {
    ghost use Rattle.std.specs.Prelude.{List, ℕ, map, drop};
    ghost use Rattle.hll_coupons.specs.AuxMap.{entry_of};
    ghost use Rattle.hll_coupons.specs.Table.{coupons_in};

    ghost Value = { List (ℕ × ℕ) };

    ghost view = { λ r. map entry_of (coupons_in (drop r.bucket r.table.buckets)) };
}

impl<A: Allocator> Iterator for AuxMapIter<A> {
    type Item = (u32, u8);

    ghost next_gives = { YieldsFirst (λ s. s) };

    ghost remaining = { item_count (λ s. s) };

    fn next(&mut self) -> Option<(u32, u8)> {
        while let Some(entry) = self.table.buckets().get(self.bucket) {
            self.bucket += 1;
            if !entry.is_empty() {
                return Some((entry.slot(), entry.value()));
            }
        }
        None
    }
}
