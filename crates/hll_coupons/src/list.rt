// SPDX-License-Identifier: Apache-2.0
//! A list of coupons in order of arrival (docs/MODEL.md, "Tables").
ghost use Rattle.std.specs.Prelude.{◌≡◌, ◌≢◌, ℕ, ◌^◌, ◌<◌, ◌≤◌, length, true, false, IfOk, IfErr, ◌*◌, ◌⊎◌, take, OnOk, OnErr, Bool, IsTrue, ◌↔◌};
ghost use Rattle.std.specs.FinSet as set;
ghost use Rattle.hll_base.specs.declared.error.Reason.TheVariants.{Memory};
ghost use Rattle.hll_base.specs.declared.error.Reason.TheVariants as reasons;
ghost use Rattle.hll_coupons.specs.Insertion.{IsInsertion, IfTaken, IfRefused};
ghost use Rattle.hll_coupons.specs.Pair.{value_of};
ghost use Rattle.hll_coupons.specs.Table.{coupons_in, coupons_of, empty_table, filled_from_front, coupons_with, IsFilledFromFront};
ghost use Rattle.hll_coupons.specs.Coupons.{WritesAscending, list_bytes, coupons_at, AreCoupons};
ghost use Rattle.hll_coupons.specs.Payload.{shape_of_list, HasListCount, list_buckets, list_table, IsListPayload, ListFault};

use crate::container::{Container, Insertion, buckets_of};
use crate::coupon::{Coupon, SLOT_MASK};
use crate::raw_coupons::elements_of_raw_coupons;
use crate::serialization::{COUPON_SIZE_BYTES, LG_LIST_BUCKETS, list_header};
use hll_base::cursor::SketchSlice;
use hll_base::error::{Error, Reason};
use hll_base::hll_type::HllType;
use std::alloc::{Allocator, Global};
use std::marker::Model;

/// A container whose buckets are filled from the first on, in order of arrival. Contracts see the container's size and
/// buckets.
#[derive_where(Debug)]
#[derive(Drop)]
pub struct List<A: Allocator = Global> {
    container: Container<A>,
}

impl<A: Allocator> Model for List<A> {
    ghost use Rattle.hll_coupons.specs.Table.{Table, IsFilledFromFront};

    ghost Value = { Table };

    ghost view = { λ l. l.container };

    ghost invariant = { λ l. IsFilledFromFront l.container };
}

impl<A: Allocator> List<A> {
    /// Returns an empty list with 2^`lg_size` buckets, four bytes for each. Eight buckets allocate nothing.
    ///
    /// Fails with `Memory` if an allocation fails.
    pub fn new(alloc: A, lg_size: usize) -> Result<List<A>, Error>
        requires { lg_size ≤ 26 }
        ensures ok { IfOk result (λ l. l ≡ empty_table lg_size) }
        ensures needed { OnErr result (lg_size ≢ 3) }
        ensures err { IfErr result (λ e. e ≡ Memory) }
    {
        Ok(List {
            container: Container::new(alloc, lg_size)?,
        })
    }

    /// Returns an empty list with eight buckets.
    pub fn default_in(alloc: A) -> List<A>
        ensures { result ≡ empty_table 3 }
    {
        List {
            container: Container::eight(alloc),
        }
    }

    /// Reads the part of a list's image after the header (docs/FORMAT.md, "LIST"): 2^`lg_arr` buckets of which
    /// `coupon_count` are filled, or only the filled buckets if `compact`. Gaps between filled buckets are closed, and
    /// the order is kept.
    ///
    /// `lg_arr` is at most 26. Fails with `Count`, `Truncated` or `Coupon` for the first check that fails, and with
    /// `Memory` if an allocation fails. Allocates only after checking that the bytes are there.
    pub fn deserialize(
        alloc: A,
        cursor: SketchSlice<'_>,
        lg_arr: usize,
        coupon_count: usize,
        empty: bool,
        compact: bool,
    ) -> Result<List<A>, Error>
        requires { lg_arr ≤ 26 }
        ensures ok { let h = shape_of_list lg_arr coupon_count empty compact in
            IfOk result (λ l. IsListPayload h (take (4 * list_buckets h) cursor.entry) × (l ≡ list_table h cursor.entry)) }
        ensures err { let h = shape_of_list lg_arr coupon_count empty compact in
            IfErr result (λ e. (e ≡ Memory) ⊎ ListFault h cursor.entry e) }
        ensures asked { let h = shape_of_list lg_arr coupon_count empty compact in
            IfErr result (λ e. e ≡ Memory → HasListCount h × (4 * list_buckets h ≤ length cursor.entry)) }
        ensures order { let h = shape_of_list lg_arr coupon_count empty compact in
            IfErr result (λ e. e ≡ reasons.Count → HasListCount h → AreCoupons (coupons_at compact (list_buckets h) cursor.entry)) }
    {
        if !is_list_count(lg_arr, coupon_count, empty) {
            return Err(Error::new(Reason::Count));
        }
        let buckets = buckets_to_read(lg_arr, coupon_count, empty, compact);
        if cursor.remaining().len() < buckets * COUPON_SIZE_BYTES {
            return Err(Error::new(Reason::Truncated));
        }
        let mut list = List::new(alloc, lg_arr)?;
        match read_buckets(&mut list, cursor, buckets, compact) {
            Ok(()) if list.container.len() == coupon_count => Ok(list),
            Ok(()) => Err(Error::new(Reason::Count)),
            Err(e) => Err(e),
        }
    }

    /// Puts a coupon into the first empty bucket, unless the list has it.
    ///
    /// Its value is at least 1. If the list doesn't have it, a bucket is empty.
    pub fn update(&mut self, coupon: Coupon)
        requires valued { 1 ≤ value_of coupon }
        requires room { set.contains (coupons_of self.old) coupon ≡ false → length (coupons_in self.old.buckets) < 2 ^ self.old.lg_size }
        ensures buckets { self.new ≡ filled_from_front self.old.lg_size (coupons_with (coupons_in self.old.buckets) coupon) }
        ensures order { coupons_in self.new.buckets ≡ coupons_with (coupons_in self.old.buckets) coupon }
        ensures members { coupons_of self.new ≡ set.insert (coupons_of self.old) coupon }
    {
        self.container.table_is_legal();
        let most = self.container.capacity();
        self.update_within(coupon, most);
    }

    /// Puts a coupon into the first empty bucket, unless the list has it already, or would then have more than `most`
    /// coupons. A list that has more than `most` coupons returns `Refused` even for a coupon that it has. Looks at each
    /// coupon until it is found, and allocates nothing.
    ///
    /// Its value is at least 1, and `most` is at most the number of buckets.
    pub fn update_within(&mut self, coupon: Coupon, most: usize) -> Insertion
        requires valued { 1 ≤ value_of coupon }
        requires within { most ≤ 2 ^ self.old.lg_size }
        ensures insertion { IsInsertion (coupons_of self.old) coupon most result }
        ensures size { self.new.lg_size ≡ self.old.lg_size }
        ensures buckets { IfTaken result (self.new ≡ filled_from_front self.old.lg_size (coupons_with (coupons_in self.old.buckets) coupon)) }
        ensures order { IfTaken result (coupons_in self.new.buckets ≡ coupons_with (coupons_in self.old.buckets) coupon) }
        ensures members { IfTaken result (coupons_of self.new ≡ set.insert (coupons_of self.old) coupon) }
        ensures unchanged { IfRefused result (self.new ≡ self.old) }
    {
        let is_new = !self.contains(coupon);
        if self.container.len() + usize::from(is_new) > most {
            return Insertion::Refused;
        }
        if !is_new {
            return Insertion::Held;
        }
        self.push(coupon);
        Insertion::Added
    }

    /// Puts a new coupon into the first empty bucket.
    fn push(&mut self, coupon: Coupon)
        requires valued { 1 ≤ value_of coupon }
        requires room { length (coupons_in self.old.buckets) < 2 ^ self.old.lg_size }
        requires fresh { set.contains (coupons_of self.old) coupon ≡ false }
        ensures buckets { self.new ≡ filled_from_front self.old.lg_size (coupons_with (coupons_in self.old.buckets) coupon) }
        ensures order { coupons_in self.new.buckets ≡ coupons_with (coupons_in self.old.buckets) coupon }
        ensures members { coupons_of self.new ≡ set.insert (coupons_of self.old) coupon }
    {
        let bucket = self.container.len();
        self.container.put(bucket, coupon);
    }

    /// Returns whether the list has the coupon. Looks at each coupon until it is found, and allocates nothing.
    pub fn contains(&self, coupon: Coupon) -> bool
        ensures { result ≡ set.contains (coupons_of self.now) coupon }
    {
        self.container.buckets()[..self.container.len()].contains(&coupon)
    }

    /// Returns the container with the buckets.
    pub fn container(&self) -> &Container<A>
        ensures same { result.now ≡ self.now }
        ensures front { IsFilledFromFront self.now }
    {
        &self.container
    }

    /// Returns a copy allocated by `alloc`, with the same buckets.
    ///
    /// Fails with `Memory` if an allocation fails.
    pub fn clone_in(&self, alloc: A) -> Result<List<A>, Error>
        ensures ok { IfOk result (λ l. l ≡ self.now) }
        ensures err { IfErr result (λ e. e ≡ Memory) }
    {
        Ok(List {
            container: self.container.clone_in(alloc)?,
        })
    }
}

impl<A: Allocator + Clone> List<A> {
    /// Returns a copy with the same buckets.
    ///
    /// Fails with `Memory` if an allocation fails.
    pub fn clone(&self) -> Result<List<A>, Error>
        ensures ok { IfOk result (λ l. l ≡ self.now) }
        ensures err { IfErr result (λ e. e ≡ Memory) }
    {
        self.clone_in(self.container.allocator().clone()?)
    }

    /// Returns the compact image of a list of eight buckets (docs/FORMAT.md, "What is written"): eight bytes, then four
    /// for each coupon, in ascending order.
    ///
    /// `lg_config_k` is 4 to 21, and the list has size 3. Allocates a sorted copy of the coupons, and the image in one
    /// request. Fails with `Memory` if an allocation fails.
    pub fn serialize(&self, lg_config_k: u8, hll_type: HllType) -> Result<Vec<u8, A>, Error>
        requires least { 4 ≤ lg_config_k }
        requires most { lg_config_k ≤ 21 }
        requires size { self.now.lg_size ≡ 3 }
        ensures ok { IfOk result (λ image. WritesAscending (list_bytes lg_config_k hll_type) (coupons_of self.now) image.items) }
        ensures err { IfErr result (λ e. e ≡ Memory) }
    {
        let count = self.container.len();
        self.container
            .image(&list_header(lg_config_k, hll_type, count))
    }
}

/// Lists are equal if they have the same coupons, whatever their sizes and order. Looks up each coupon, and allocates
/// nothing.
impl<A: Allocator> PartialEq for List<A> {
    ghost use Rattle.hll_coupons.specs.Same.{have_same_coupons, have_same_coupons-partial};

    ghost eq = { have_same_coupons };

    ghost laws = { have_same_coupons-partial };

    fn eq(&self, other: &List<A>) -> bool {
        self.container == other.container
    }
}

impl<A: Allocator> Eq for List<A> {
    ghost use Rattle.hll_coupons.specs.Same.{have_same_coupons-equivalence};

    ghost laws = { have_same_coupons-equivalence };
}

/// Returns whether a list of this size may have this count, and whether the empty flag agrees with the count.
fn is_list_count(lg_arr: usize, coupon_count: usize, empty: bool) -> bool
    requires { lg_arr ≤ 26 }
    ensures { (compact : Bool) → let h = shape_of_list lg_arr coupon_count empty compact in
        IsTrue result ↔ HasListCount h }
{
    coupon_count <= buckets_of(lg_arr) && empty == (coupon_count == 0)
}

/// Returns how many buckets follow the header.
fn buckets_to_read(lg_arr: usize, coupon_count: usize, empty: bool, compact: bool) -> usize
    requires { lg_arr ≤ 26 }
    ensures { let h = shape_of_list lg_arr coupon_count empty compact in
        result ≡ list_buckets h }
{
    if empty {
        0
    } else if compact {
        coupon_count
    } else {
        buckets_of(lg_arr)
    }
}

/// Reads buckets into an empty list. Fails with `Coupon` if a coupon has no value or occurs twice, or if a bucket of a
/// compact image is empty. A coupon greater than all before it has a value, since the first one is compared with the
/// greatest coupon that has none, and isn't searched for: an image whose coupons ascend takes one comparison for each.
fn read_buckets<A: Allocator>(
    list: &mut List<A>,
    cursor: SketchSlice<'_>,
    buckets: usize,
    compact: bool,
) -> Result<(), Error>
    requires none { list.old ≡ empty_table list.old.lg_size }
    requires room { buckets ≤ 2 ^ list.old.lg_size }
    requires there { 4 * buckets ≤ length cursor }
    ensures ok { OnOk result ((list.new ≡ filled_from_front list.old.lg_size (coupons_at compact buckets cursor.entry)) × AreCoupons (coupons_at compact buckets cursor.entry)) }
    ensures err { IfErr result (λ e. (e ≡ reasons.Coupon) × (AreCoupons (coupons_at compact buckets cursor.entry) → ⊥)) }
{
    let mut greatest = SLOT_MASK;
    for element in elements_of_raw_coupons(cursor.remaining(), buckets) {
        let coupon = Coupon::from_raw(u32::from_le_bytes(*element));
        if coupon.raw() <= greatest {
            if coupon.is_empty() && !compact {
                continue;
            }
            if coupon.value() == 0 || list.contains(coupon) {
                return Err(Error::new(Reason::Coupon));
            }
        }
        list.push(coupon);
        greatest = greatest.max(coupon.raw());
    }
    Ok(())
}
