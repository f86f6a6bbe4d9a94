// SPDX-License-Identifier: Apache-2.0
//! A set of coupons in a hash table (docs/MODEL.md, "Tables" and "Probing").
ghost use Rattle.std.specs.Prelude.{◌≡◌, ◌+◌, ◌*◌, ◌^◌, ◌<◌, ◌≤◌, ◌⊎◌, ◌↔◌, ◌++◌, if◌then◌else◌, All, length, take, drop, false, IsTrue, IfOk, IfErr, IfSome, IfNone, OnOk};
ghost use Rattle.std.specs.FinSet as set;
ghost use Rattle.std.specs.Int.{w32, to_le_bytes};
ghost use Rattle.hll_base.specs.declared.error.Reason.TheVariants.{Memory};
ghost use Rattle.hll_base.specs.declared.error.Reason.TheVariants as reasons;
ghost use Rattle.hll_coupons.specs.Coupons.{WritesAscending, set_bytes, coupons_at, AreCoupons};
ghost use Rattle.hll_coupons.specs.Pair.{IsPair, set_of, value_of};
ghost use Rattle.hll_coupons.specs.Payload.{shape_of_set, HasSetCount, set_coupons, set_buckets, IsSetPayload, IsSetTable, SetFault};
ghost use Rattle.hll_coupons.specs.HashSet.{IsHashSet};
ghost use Rattle.hll_coupons.specs.Insertion.{IsInsertion, IfTaken, IfRefused};
ghost use Rattle.hll_coupons.specs.Probe.{Puts, PutsEach};
ghost use Rattle.hll_coupons.specs.Reading.{IfWhole};
ghost use Rattle.hll_coupons.specs.Same.{have_same_coupons};
ghost use Rattle.hll_coupons.specs.Table.{coupons_in, coupons_of, empty_table, IsTable};

use crate::container::{Container, Insertion, buckets_of};
use crate::coupon::Coupon;
use crate::distinct::are_distinct;
use crate::filling::{put_all, put_by_cycles};
use crate::search::{Key, SHORT, search, search_within};
use crate::serialization::{COUPON_SIZE_BYTES, LG_LEAST_SET_BUCKETS, set_header};
use hll_base::cursor::SketchSlice;
use hll_base::error::{Error, Reason};
use hll_base::hll_type::HllType;
use std::alloc::{Allocator, Global};
use std::marker::Model;

/// A container in which each coupon is in the bucket where a search finds it. Contracts see the container's size and
/// buckets.
// More methods are in the module additions.
#[derive_where(Debug)]
#[derive(Drop)]
pub struct HashSet<A: Allocator = Global> {
    pub(crate) container: Container<A>,
}

impl<A: Allocator> Model for HashSet<A> {
    ghost use Rattle.hll_coupons.specs.HashSet.{IsHashSet};
    ghost use Rattle.hll_coupons.specs.Table.{Table};

    ghost Value = { Table };

    ghost view = { λ s. s.container };

    ghost invariant = { λ s. IsHashSet s.container };
}

impl<A: Allocator> HashSet<A> {
    /// Returns an empty set with 2^`lg_size` buckets, four bytes for each.
    ///
    /// `lg_size` is at most 26. Fails with `Memory` if an allocation fails.
    pub fn new(alloc: A, lg_size: usize) -> Result<HashSet<A>, Error>
        requires { lg_size ≤ 26 }
        ensures ok { IfOk result (λ s. s ≡ empty_table lg_size) }
        ensures err { IfErr result (λ e. e ≡ Memory) }
    {
        Ok(HashSet {
            container: Container::new(alloc, lg_size)?,
        })
    }

    /// Returns an empty set with 32 buckets.
    ///
    /// Fails with `Memory` if an allocation fails.
    pub fn default_in(alloc: A) -> Result<HashSet<A>, Error>
        ensures ok { IfOk result (λ s. s ≡ empty_table 5) }
        ensures err { IfErr result (λ e. e ≡ Memory) }
    {
        HashSet::new(alloc, usize::from(LG_LEAST_SET_BUCKETS))
    }

    /// Inserts a coupon, unless the set has it.
    ///
    /// Its value is at least 1. If the set doesn't have it, a bucket is empty.
    pub fn update(&mut self, coupon: Coupon)
        requires valued { 1 ≤ value_of coupon }
        requires room { set.contains (coupons_of self.old) coupon ≡ false → length (coupons_in self.old.buckets) < 2 ^ self.old.lg_size }
        ensures size { self.new.lg_size ≡ self.old.lg_size }
        ensures buckets { Puts (λ c. c) self.old.lg_size self.old.buckets coupon self.new.buckets }
        ensures members { coupons_of self.new ≡ set.insert (coupons_of self.old) coupon }
        ensures set { IsHashSet self.new }
    {
        let most = self.container.capacity();
        match self.update_within(coupon, most) {
            Insertion::Added => {}
            Insertion::Held => {}
            Insertion::Refused => unreachable!(),
        }
    }

    /// Inserts a coupon by a short search, unless the set has it. Returns whether the coupon is new, or `None` if the
    /// search was cut off.
    pub(crate) fn insert_bounded(&mut self, coupon: Coupon) -> Option<bool>
        requires valued { 1 ≤ value_of coupon }
        ensures new { IfSome result (λ new. IsTrue new ↔ (set.contains (coupons_of self.old) coupon ≡ false)) }
        ensures size { self.new.lg_size ≡ self.old.lg_size }
        ensures buckets { IfSome result (λ _. Puts (λ c. c) self.old.lg_size self.old.buckets coupon self.new.buckets) }
        ensures members { IfSome result (λ _. coupons_of self.new ≡ set.insert (coupons_of self.old) coupon) }
        ensures unchanged { IfNone result (self.new ≡ self.old) }
        ensures set { IsHashSet self.new }
    {
        let lg_size = self.container.lg_size();
        let buckets = self.container.buckets();
        let limit = SHORT.min(buckets.len());
        let bucket = search_within(Key::RawCoupon, lg_size, buckets, coupon.raw(), limit)?;
        if !buckets[bucket].is_empty() {
            return Some(false);
        }
        self.container.put(bucket, coupon);
        Some(true)
    }

    /// Inserts a coupon, unless the set has it already, or would then have more than `most` coupons. A set that has more
    /// than `most` coupons returns `Refused` even for a coupon that it has. One search; allocates nothing.
    ///
    /// Its value is at least 1, and `most` is at most the number of buckets.
    pub fn update_within(&mut self, coupon: Coupon, most: usize) -> Insertion
        requires valued { 1 ≤ value_of coupon }
        requires within { most ≤ 2 ^ self.old.lg_size }
        ensures insertion { IsInsertion (coupons_of self.old) coupon most result }
        ensures size { self.new.lg_size ≡ self.old.lg_size }
        ensures buckets { IfTaken result (Puts (λ c. c) self.old.lg_size self.old.buckets coupon self.new.buckets) }
        ensures members { IfTaken result (coupons_of self.new ≡ set.insert (coupons_of self.old) coupon) }
        ensures unchanged { IfRefused result (self.new ≡ self.old) }
        ensures set { IsHashSet self.new }
    {
        let count = self.container.len();
        let buckets = self.container.buckets();
        let found = search(
            Key::RawCoupon,
            self.container.lg_size(),
            buckets,
            coupon.raw(),
        );
        let Some(bucket) = found else {
            return Insertion::Refused;
        };
        let is_new = buckets[bucket].is_empty();
        if count + usize::from(is_new) > most {
            return Insertion::Refused;
        }
        if !is_new {
            return Insertion::Held;
        }
        self.container.put(bucket, coupon);
        Insertion::Added
    }

    /// Returns whether the set has the coupon, by a search.
    pub fn contains(&self, coupon: Coupon) -> bool
        ensures { result ≡ set.contains (coupons_of self.now) coupon }
    {
        let buckets = self.container.buckets();
        match search(
            Key::RawCoupon,
            self.container.lg_size(),
            buckets,
            coupon.raw(),
        ) {
            Some(bucket) => !buckets[bucket].is_empty(),
            None => false,
        }
    }

    /// Returns whether the set has the coupon, by a short search, or `None` if the search was cut off.
    pub(crate) fn has_bounded(&self, coupon: Coupon) -> Option<bool>
        ensures { IfSome result (λ has. has ≡ set.contains (coupons_of self.now) coupon) }
    {
        let lg_size = self.container.lg_size();
        let buckets = self.container.buckets();
        let limit = SHORT.min(buckets.len());
        let bucket = search_within(Key::RawCoupon, lg_size, buckets, coupon.raw(), limit)?;
        Some(!buckets[bucket].is_empty())
    }

    /// Returns the container with the buckets.
    pub fn container(&self) -> &Container<A>
        ensures same { result.now ≡ self.now }
        ensures set { IsHashSet self.now }
    {
        &self.container
    }

    /// Returns whether the set has each coupon of another set.
    fn contains_all(&self, other: &HashSet<A>) -> bool
        ensures { result ≡ set.is_subset (coupons_of other.now) (coupons_of self.now) }
    {
        for coupon in other.container.iter() {
            if !self.contains(coupon) {
                return false;
            }
        }
        true
    }

    /// Returns a copy allocated by `alloc`, with the same buckets.
    ///
    /// Fails with `Memory` if an allocation fails.
    pub fn clone_in(&self, alloc: A) -> Result<HashSet<A>, Error>
        ensures ok { IfOk result (λ s. s ≡ self.now) }
        ensures err { IfErr result (λ e. e ≡ Memory) }
    {
        Ok(HashSet {
            container: self.container.clone_in(alloc)?,
        })
    }
}

impl<A: Allocator + Clone> HashSet<A> {
    /// Returns a set of the coupons of a container, inserted in the order of their buckets into 2^`lg_size` empty
    /// buckets.
    ///
    /// `lg_size` is at most 26, and there are at most as many coupons as buckets. Allocates the buckets, and bitmaps
    /// when searches have become expensive (docs/OPERATING.md). Fails with `Memory` if an allocation fails.
    pub fn from_container(
        alloc: A,
        lg_size: usize,
        coupons: &Container<A>,
    ) -> Result<HashSet<A>, Error>
        requires small { lg_size ≤ 26 }
        requires room { length (coupons_in coupons.now.buckets) ≤ 2 ^ lg_size }
        ensures size { IfOk result (λ s. s.lg_size ≡ lg_size) }
        ensures buckets { IfOk result (λ s. PutsEach (λ c. c) lg_size (empty_table lg_size).buckets (coupons_in coupons.now.buckets) s.buckets) }
        ensures members { IfOk result (λ s. coupons_of s ≡ coupons_of coupons.now) }
        ensures count { IfOk result (λ s. length (coupons_in s.buckets) ≡ length (coupons_in coupons.now.buckets)) }
        ensures set { IfOk result IsHashSet }
        ensures err { IfErr result (λ e. e ≡ Memory) }
    {
        let mut container = Container::new(alloc, lg_size)?;
        put_all(&mut container, Key::RawCoupon, coupons.buckets())?;
        Ok(HashSet { container })
    }

    /// Reads the part of a set's image after the header (docs/FORMAT.md, "SET"): the count, and 2^`lg_arr` buckets, or
    /// only the filled buckets if `compact`. The coupons are inserted in their order, as in a new set.
    ///
    /// `lg_arr` is at most 26. Fails with `Truncated`, `Count` or `Coupon` for the first check that fails, and with
    /// `Memory` if an allocation fails. Allocates only after checking that the bytes are there: the buckets, and copies
    /// of the coupons and bitmaps when searches have become expensive (docs/OPERATING.md).
    pub fn deserialize(
        alloc: A,
        mut cursor: SketchSlice<'_>,
        lg_arr: usize,
        compact: bool,
    ) -> Result<HashSet<A>, Error>
        requires { lg_arr ≤ 26 }
        ensures ok { let h = shape_of_set lg_arr compact in
            IfOk result (λ s. IsSetPayload h (take (4 + 4 * set_buckets h cursor.entry) cursor.entry) × IsSetTable h cursor.entry s) }
        ensures members { let h = shape_of_set lg_arr compact in
            IfOk result (λ s. coupons_of s ≡ set_of (set_coupons h cursor.entry)) }
        ensures room { IfOk result (λ s. length (coupons_in s.buckets) < 2 ^ s.lg_size) }
        ensures err { let h = shape_of_set lg_arr compact in
            IfErr result (λ e. (e ≡ Memory) ⊎ SetFault h cursor.entry e) }
        ensures asked { let h = shape_of_set lg_arr compact in
            IfErr result (λ e. e ≡ Memory → HasSetCount h cursor.entry × (4 + 4 * set_buckets h cursor.entry ≤ length cursor.entry)) }
        ensures order { let h = shape_of_set lg_arr compact in
            IfErr result (λ e. e ≡ reasons.Count → HasSetCount h cursor.entry → AreCoupons (coupons_at compact (set_buckets h cursor.entry) (drop 4 cursor.entry))) }
    {
        let count = cursor.read_u32_le()? as usize;
        if count >= buckets_of(lg_arr) {
            return Err(Error::new(Reason::Count));
        }
        let buckets = buckets_to_read(lg_arr, count, compact);
        if cursor.remaining().len() < buckets * COUPON_SIZE_BYTES {
            return Err(Error::new(Reason::Truncated));
        }
        let mut set = HashSet::new(alloc, lg_arr)?;
        match read_buckets(&mut set, cursor, buckets, compact) {
            Ok(()) if set.container.len() == count => Ok(set),
            Ok(()) => Err(Error::new(Reason::Count)),
            Err(e) => Err(e),
        }
    }

    /// Returns a copy with the same buckets.
    ///
    /// Fails with `Memory` if an allocation fails.
    pub fn clone(&self) -> Result<HashSet<A>, Error>
        ensures ok { IfOk result (λ s. s ≡ self.now) }
        ensures err { IfErr result (λ e. e ≡ Memory) }
    {
        self.clone_in(self.container.allocator().clone()?)
    }

    /// Returns the compact image of the set (docs/FORMAT.md, "What is written"): twelve bytes, then four for each
    /// coupon, by ascending raw coupon.
    ///
    /// `lg_config_k` is 4 to 21, and the set has a size of 5 to `lg_config_k` - 3 and an empty bucket. Allocates a
    /// sorted copy of the coupons, and the image in one request. Fails with `Memory` if an allocation fails.
    pub fn serialize(&self, lg_config_k: u8, hll_type: HllType) -> Result<Vec<u8, A>, Error>
        requires most { lg_config_k ≤ 21 }
        requires low { 5 ≤ self.now.lg_size }
        requires high { self.now.lg_size + 3 ≤ lg_config_k }
        requires room { length (coupons_in self.now.buckets) < 2 ^ self.now.lg_size }
        ensures ok { IfOk result (λ image. WritesAscending (set_bytes lg_config_k hll_type self.now.lg_size) (coupons_of self.now) image.items) }
        ensures err { IfErr result (λ e. e ≡ Memory) }
    {
        let lg_size = self.container.lg_size() as u8;
        let count = self.container.len() as u32;
        self.container
            .image(&set_header(lg_config_k, hll_type, lg_size, count))
    }
}

/// Sets are equal if they have the same coupons, whatever their sizes and buckets. Compares the counts, and looks up
/// each coupon of one set in the other.
impl<A: Allocator> PartialEq for HashSet<A> {
    ghost use Rattle.hll_coupons.specs.Same.{have_same_coupons, have_same_coupons-partial};

    ghost eq = { have_same_coupons };

    ghost laws = { have_same_coupons-partial };

    fn eq(&self, other: &HashSet<A>) -> bool {
        self.container.len() == other.container.len() && other.contains_all(self)
    }
}

impl<A: Allocator> Eq for HashSet<A> {
    ghost use Rattle.hll_coupons.specs.Same.{have_same_coupons-equivalence};

    ghost laws = { have_same_coupons-equivalence };
}

/// Returns how many buckets follow the count.
fn buckets_to_read(lg_arr: usize, count: usize, compact: bool) -> usize
    requires { lg_arr ≤ 26 }
    ensures { result ≡ (if compact then count else (2 ^ lg_arr)) }
{
    if compact { count } else { buckets_of(lg_arr) }
}

/// Reads buckets into an empty set. Fails with `Coupon` if a coupon has no value or occurs twice, or if a bucket of a
/// compact image is empty.
fn read_buckets<A: Allocator + Clone>(
    set: &mut HashSet<A>,
    cursor: SketchSlice<'_>,
    buckets: usize,
    compact: bool,
) -> Result<(), Error>
    requires small { set.old.lg_size ≤ 26 }
    requires none { set.old ≡ empty_table set.old.lg_size }
    requires room { buckets ≤ 2 ^ set.old.lg_size }
    requires there { 4 * buckets ≤ length cursor }
    ensures size { OnOk result (set.new.lg_size ≡ set.old.lg_size) }
    ensures ok { OnOk result (PutsEach (λ c. c) set.old.lg_size set.old.buckets (coupons_at compact buckets cursor.entry) set.new.buckets × AreCoupons (coupons_at compact buckets cursor.entry)) }
    ensures members { OnOk result (coupons_of set.new ≡ set_of (coupons_at compact buckets cursor.entry)) }
    ensures err { IfErr result (λ e. (e ≡ Memory) ⊎ ((e ≡ reasons.Coupon) × (AreCoupons (coupons_at compact buckets cursor.entry) → ⊥))) }
{
    let bytes = cursor.remaining();
    match read_by_search(set, cursor, buckets, compact)? {
        Reading::Whole => Ok(()),
        Reading::Cut => read_by_order(set, SketchSlice::new(bytes), buckets, compact),
    }
}

/// What `read_by_search` read.
enum Reading {
    /// All buckets.
    Whole,
    /// Some of the buckets, until a search was cut off.
    Cut,
}

/// Reads buckets into an empty set by short searches, until a search is cut off.
fn read_by_search<A: Allocator>(
    set: &mut HashSet<A>,
    mut cursor: SketchSlice<'_>,
    buckets: usize,
    compact: bool,
) -> Result<Reading, Error>
    requires small { set.old.lg_size ≤ 26 }
    requires none { set.old ≡ empty_table set.old.lg_size }
    requires room { buckets ≤ 2 ^ set.old.lg_size }
    requires there { 4 * buckets ≤ length cursor }
    ensures size { set.new.lg_size ≡ set.old.lg_size }
    ensures ok { IfOk result (λ r. IfWhole r (PutsEach (λ c. c) set.old.lg_size set.old.buckets (coupons_at compact buckets cursor.entry) set.new.buckets × AreCoupons (coupons_at compact buckets cursor.entry))) }
    ensures members { IfOk result (λ r. IfWhole r (coupons_of set.new ≡ set_of (coupons_at compact buckets cursor.entry))) }
    ensures err { IfErr result (λ e. (e ≡ reasons.Coupon) × (AreCoupons (coupons_at compact buckets cursor.entry) → ⊥)) }
{
    for _ in 0..buckets {
        let coupon = Coupon::from_raw(cursor.read_u32_le()?);
        if coupon.is_empty() && !compact {
            continue;
        }
        if coupon.value() == 0 {
            return Err(Error::new(Reason::Coupon));
        }
        match set.insert_bounded(coupon) {
            Some(true) => {}
            Some(false) => return Err(Error::new(Reason::Coupon)),
            None => return Ok(Reading::Cut),
        }
    }
    Ok(Reading::Whole)
}

/// Reads buckets into a set, replacing what it has, by sorted copies of the coupons and the cycles of their strides.
/// Frees the memory of the old buckets first.
#[inline(never)]
fn read_by_order<A: Allocator + Clone>(
    set: &mut HashSet<A>,
    cursor: SketchSlice<'_>,
    buckets: usize,
    compact: bool,
) -> Result<(), Error>
    requires small { set.old.lg_size ≤ 26 }
    requires room { buckets ≤ 2 ^ set.old.lg_size }
    requires there { 4 * buckets ≤ length cursor }
    ensures size { OnOk result (set.new.lg_size ≡ set.old.lg_size) }
    ensures ok { OnOk result (PutsEach (λ c. c) set.old.lg_size (empty_table set.old.lg_size).buckets (coupons_at compact buckets cursor.entry) set.new.buckets × AreCoupons (coupons_at compact buckets cursor.entry)) }
    ensures members { OnOk result (coupons_of set.new ≡ set_of (coupons_at compact buckets cursor.entry)) }
    ensures err { IfErr result (λ e. (e ≡ Memory) ⊎ ((e ≡ reasons.Coupon) × (AreCoupons (coupons_at compact buckets cursor.entry) → ⊥))) }
{
    let lg_size = set.container.lg_size();
    let alloc = set.container.allocator().clone()?;
    *set = HashSet {
        container: Container::eight(alloc.clone()?),
    };
    let coupons = read_coupons(alloc.clone()?, cursor, buckets, compact)?;
    if !are_distinct(alloc.clone()?, &coupons)? {
        return Err(Error::new(Reason::Coupon));
    }
    let mut filled = Container::new(alloc, lg_size)?;
    put_by_cycles(&mut filled, Key::RawCoupon, &coupons)?;
    *set = HashSet { container: filled };
    Ok(())
}

/// Returns the coupons of buckets, in their order. Fails with `Coupon` if a coupon has no value, or if a bucket of a
/// compact image is empty.
///
/// Allocates in one request. Fails with `Memory` if the allocation fails.
fn read_coupons<A: Allocator>(
    alloc: A,
    mut cursor: SketchSlice<'_>,
    buckets: usize,
    compact: bool,
) -> Result<Vec<Coupon, A>, Error>
    requires { 4 * buckets ≤ length cursor }
    ensures ok { IfOk result (λ coupons. coupons.items ≡ coupons_at compact buckets cursor.entry) }
    ensures pairs { IfOk result (λ coupons. All IsPair coupons.items) }
    ensures few { IfOk result (λ coupons. length coupons.items ≤ buckets) }
    ensures err { IfErr result (λ e. (e ≡ Memory) ⊎ ((e ≡ reasons.Coupon) × (AreCoupons (coupons_at compact buckets cursor.entry) → ⊥))) }
{
    let mut coupons = Vec::with_capacity(alloc, buckets)?;
    for _ in 0..buckets {
        let coupon = Coupon::from_raw(cursor.read_u32_le()?);
        if coupon.is_empty() && !compact {
            continue;
        }
        if coupon.value() == 0 {
            return Err(Error::new(Reason::Coupon));
        }
        coupons.push(coupon)?;
    }
    Ok(coupons)
}
