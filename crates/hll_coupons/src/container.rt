// SPDX-License-Identifier: Apache-2.0
//! A table of buckets for coupons (docs/MODEL.md, "Tables").
ghost use Rattle.std.specs.Prelude.{◌≡◌, ◌≢◌, ℕ, ◌+◌, ◌*◌, ◌^◌, ◌<◌, ◌≤◌, ◌↔◌, ◌++◌, [], length, slice_set, slice_index, false, IsTrue, IfOk, IfErr, OnOk, OnErr};
ghost use Rattle.std.specs.Bool.{OnFalse};
ghost use Rattle.std.specs.Iterator.{YieldsFirst, item_count};
ghost use Rattle.std.specs.FinSet as set;
ghost use Rattle.std.specs.FinSet.{len};
ghost use Rattle.hll_base.specs.declared.error.Reason.TheVariants.{Memory};
ghost use Rattle.hll_coupons.specs.Pair.{value_of};
ghost use Rattle.hll_coupons.specs.Table.{coupons_in, coupons_of, empty_table, IsTable};
ghost use Rattle.hll_coupons.specs.Coupons.{coupon_bytes, IsAscending, WritesAscending};

use crate::coupon::Coupon;
use crate::serialization::{COUPON_SIZE_BYTES, LG_LIST_BUCKETS};
use crate::storage::Storage;
use hll_base::codec::SketchBytes;
use hll_base::error::Error;
use std::alloc::{Allocator, Global};
use std::marker::Model;

/// What an insertion with a limit on the number of coupons did.
#[derive(Clone, Copy, Debug, PartialEq, Eq)]
pub enum Insertion {
    /// The table didn't have the coupon, and has it now.
    Added,
    /// The table had the coupon already.
    Held,
    /// The table would have more coupons than the limit. It is unchanged.
    Refused,
}

/// 2^`lg_size` buckets. Each is empty or has a coupon of value 1 to 63, and the coupons are distinct. Contracts see the
/// size and the list of buckets; the coupons are a function of it.
#[derive_where(Debug)]
#[derive(Drop)]
pub struct Container<A: Allocator = Global> {
    lg_size: usize,
    len: usize,
    buckets: Storage<A>,
}

impl<A: Allocator> Model for Container<A> {
    ghost use Rattle.std.specs.Prelude.{◌≡◌, length};
    ghost use Rattle.hll_coupons.specs.Storage.{buckets_in};
    ghost use Rattle.hll_coupons.specs.Table.{Table, coupons_in, IsTable};

    ghost Value = { Table };

    ghost view = { λ c. record { lg_size = c.lg_size; buckets = buckets_in c.buckets } };

    ghost invariant = { λ c. IsTable (record { lg_size = c.lg_size; buckets = buckets_in c.buckets }) × (c.len ≡ length (coupons_in (buckets_in c.buckets))) };
}

impl<A: Allocator> Container<A> {
    /// Returns a table of eight empty buckets.
    pub(crate) fn eight(alloc: A) -> Container<A>
        ensures { result ≡ empty_table 3 }
    {
        Container {
            lg_size: usize::from(LG_LIST_BUCKETS),
            len: 0,
            buckets: Storage::eight(alloc),
        }
    }

    /// Returns a table of 2^`lg_size` empty buckets, four bytes for each. Eight buckets allocate nothing.
    ///
    /// Fails with `Memory` if an allocation fails.
    pub fn new(alloc: A, lg_size: usize) -> Result<Container<A>, Error>
        requires { lg_size ≤ 26 }
        ensures ok { IfOk result (λ c. c ≡ empty_table lg_size) }
        ensures needed { OnErr result (lg_size ≢ 3) }
        ensures err { IfErr result (λ e. e ≡ Memory) }
    {
        Ok(Container {
            lg_size,
            len: 0,
            buckets: Storage::new(alloc, lg_size)?,
        })
    }

    /// Returns a table of these buckets, of which `len` are filled.
    ///
    /// `lg_size` is at most 26, there are 2^`lg_size` buckets, and the filled ones are distinct and have values of 1 to
    /// 63.
    pub fn from_coupons(lg_size: usize, coupons: Vec<Coupon, A>, len: usize) -> Container<A>
        requires table { IsTable (record { lg_size = lg_size; buckets = coupons.items }) }
        requires count { len ≡ length (coupons_in coupons.items) }
        ensures { result ≡ record { lg_size = lg_size; buckets = coupons.items } }
    {
        Container {
            lg_size,
            len,
            buckets: Storage::Allocated(coupons),
        }
    }

    /// Returns the container's allocator.
    pub fn allocator(&self) -> &A {
        self.buckets.allocator()
    }

    /// Returns a copy allocated by `alloc`, with the same buckets.
    ///
    /// Fails with `Memory` if an allocation fails.
    pub fn clone_in(&self, alloc: A) -> Result<Container<A>, Error>
        ensures ok { IfOk result (λ c. c ≡ self.now) }
        ensures err { IfErr result (λ e. e ≡ Memory) }
    {
        Ok(Container {
            lg_size: self.lg_size,
            len: self.len,
            buckets: self.buckets.clone_in(alloc)?,
        })
    }

    /// Returns the number of coupons, at most the number of buckets.
    pub fn len(&self) -> usize
        ensures count { result ≡ length (coupons_in self.now.buckets) }
        ensures within { result ≤ 2 ^ self.now.lg_size }
        ensures table { IsTable self.now }
    {
        self.len
    }

    /// States that the coupons are distinct, have values, and don't outnumber the buckets. Does nothing: a caller whose
    /// proof needs the invariant calls it.
    pub fn table_is_legal(&self)
        ensures within { length (coupons_in self.now.buckets) ≤ 2 ^ self.now.lg_size }
        ensures table { IsTable self.now }
    {
        let _len = self.len;
    }

    /// Returns whether there is no coupon.
    pub fn is_empty(&self) -> bool
        ensures { IsTrue result ↔ (coupons_in self.now.buckets ≡ []) }
    {
        self.len == 0
    }

    /// Returns whether each bucket has a coupon.
    pub fn is_full(&self) -> bool
        ensures full { IsTrue result ↔ (length (coupons_in self.now.buckets) ≡ 2 ^ self.now.lg_size) }
        ensures room { OnFalse result (length (coupons_in self.now.buckets) < 2 ^ self.now.lg_size) }
    {
        self.len == self.capacity()
    }

    /// Returns the logarithm of the number of buckets, at most 26.
    pub fn lg_size(&self) -> usize
        ensures size { result ≡ self.now.lg_size }
        ensures small { result ≤ 26 }
    {
        self.lg_size
    }

    /// Returns the number of buckets.
    pub fn capacity(&self) -> usize
        ensures { result ≡ 2 ^ self.now.lg_size }
    {
        buckets_of(self.lg_size)
    }

    /// Returns the size of all buckets in bytes, four for each.
    pub fn estimated_size(&self) -> usize
        ensures { result ≡ 4 * 2 ^ self.now.lg_size }
    {
        buckets_of(self.lg_size) * 4
    }

    /// Returns whether one of the buckets has the coupon. Looks at each bucket until it is found, and allocates
    /// nothing.
    pub fn contains(&self, coupon: Coupon) -> bool
        ensures { result ≡ set.contains (coupons_of self.now) coupon }
    {
        !coupon.is_empty() && self.buckets.as_slice().contains(&coupon)
    }

    /// Returns an iterator over the coupons in the order of their buckets, each once.
    pub fn iter(&self) -> ContainerIter<'_>
        ensures { result ≡ coupons_in self.now.buckets }
    {
        coupons_of_buckets(self.buckets.as_slice())
    }

    /// Returns the buckets, each empty or filled with a coupon.
    pub(crate) fn buckets(&self) -> &[Coupon]
        ensures buckets { result.now ≡ self.now.buckets }
        ensures table { IsTable self.now }
    {
        self.buckets.as_slice()
    }

    /// Puts a new coupon into an empty bucket.
    pub(crate) fn put(&mut self, bucket: usize, coupon: Coupon)
        requires inside { bucket < 2 ^ self.old.lg_size }
        requires empty { slice_index self.old.buckets bucket ≡ 0 }
        requires valued { 1 ≤ value_of coupon }
        requires fresh { set.contains (coupons_of self.old) coupon ≡ false }
        ensures buckets { self.new ≡ record self.old { buckets = slice_set self.old.buckets bucket coupon } }
        ensures table { IsTable self.new }
    {
        prove!(1 <= coupon.value());
        self.buckets.set(bucket, coupon);
        self.len += 1;
    }

    /// Replaces the coupon of a filled bucket by one that no other bucket has.
    pub(crate) fn replace(&mut self, bucket: usize, coupon: Coupon)
        requires inside { bucket < 2 ^ self.old.lg_size }
        requires filled { slice_index self.old.buckets bucket ≢ 0 }
        requires valued { 1 ≤ value_of coupon }
        requires others { (p : ℕ) → p < length self.old.buckets → p ≢ bucket → slice_index self.old.buckets p ≢ coupon }
        ensures buckets { self.new ≡ record self.old { buckets = slice_set self.old.buckets bucket coupon } }
        ensures table { IsTable self.new }
        ensures count { length (coupons_in self.new.buckets) ≡ length (coupons_in self.old.buckets) }
    {
        prove!(1 <= coupon.value());
        self.buckets.set(bucket, coupon);
    }

    /// Empties a filled bucket.
    pub(crate) fn take_out(&mut self, bucket: usize)
        requires inside { bucket < 2 ^ self.old.lg_size }
        requires table { IsTable (record self.old { buckets = slice_set self.old.buckets bucket 0 }) }
        requires count { length (coupons_in self.old.buckets) ≡ length (coupons_in (slice_set self.old.buckets bucket 0)) + 1 }
        ensures { self.new ≡ record self.old { buckets = slice_set self.old.buckets bucket 0 } }
    {
        self.buckets.set(bucket, Coupon::EMPTY);
        self.len -= 1;
    }

    /// Empties all buckets.
    pub(crate) fn clear(&mut self)
        ensures { self.new ≡ empty_table self.old.lg_size }
    {
        self.buckets.clear();
        self.len = 0;
    }

    /// Returns a copy of the coupons in the order of their buckets, allocated in one request.
    pub(crate) fn copied<B: Allocator>(&self, alloc: B) -> Result<Vec<Coupon, B>, Error>
        ensures ok { IfOk result (λ coupons. coupons.items ≡ coupons_in self.now.buckets) }
        ensures distinct { len (coupons_of self.now) ≡ length (coupons_in self.now.buckets) }
        ensures err { IfErr result (λ e. e ≡ Memory) }
    {
        let mut coupons = Vec::with_capacity(alloc, self.len)?;
        for coupon in self.iter() {
            coupons.push(coupon)?;
        }
        Ok(coupons)
    }

    /// Returns a copy of the coupons in ascending order.
    ///
    /// Allocates four bytes for each coupon, in one request. Fails with `Memory` if the allocation fails.
    pub(crate) fn ascending<B: Allocator>(&self, alloc: B) -> Result<Vec<Coupon, B>, Error>
        ensures ok { IfOk result (λ coupons. IsAscending coupons.items (coupons_of self.now)) }
        ensures count { IfOk result (λ coupons. length coupons.items ≡ length (coupons_in self.now.buckets)) }
        ensures err { IfErr result (λ e. e ≡ Memory) }
    {
        let mut coupons = self.copied(alloc)?;
        coupons.sort_unstable();
        Ok(coupons)
    }

    /// Returns whether each coupon of another container is in this one.
    fn contains_all(&self, other: &Container<A>) -> bool
        ensures { result ≡ set.is_subset (coupons_of other.now) (coupons_of self.now) }
    {
        for coupon in other.iter() {
            if !self.contains(coupon) {
                return false;
            }
        }
        true
    }
}

impl<A: Allocator + Clone> Container<A> {
    /// Returns a copy with the same buckets.
    ///
    /// Fails with `Memory` if an allocation fails.
    pub fn clone(&self) -> Result<Container<A>, Error>
        ensures ok { IfOk result (λ c. c ≡ self.now) }
        ensures err { IfErr result (λ e. e ≡ Memory) }
    {
        self.clone_in(self.allocator().clone()?)
    }

    /// Returns an image: this header, followed by the coupons in ascending order, four bytes each.
    ///
    /// Allocates a sorted copy of the coupons, and the image in one request. Fails with `Memory` if an allocation
    /// fails.
    pub(crate) fn image(&self, header: &[u8]) -> Result<Vec<u8, A>, Error>
        ensures ok { IfOk result (λ image. WritesAscending (λ order. header.now ++ coupon_bytes order) (coupons_of self.now) image.items) }
        ensures err { IfErr result (λ e. e ≡ Memory) }
    {
        let alloc = self.allocator();
        let coupons = self.ascending(alloc.clone()?)?;
        let needed = header.len() + coupons.len() * COUPON_SIZE_BYTES;
        let mut bytes = SketchBytes::with_capacity(alloc.clone()?, needed)?;
        bytes.write(header)?;
        Ok(with_coupons(bytes, &coupons)?.into_bytes())
    }
}

/// Containers are equal if they have the same coupons, whatever their sizes and buckets. Looks up each coupon, and
/// allocates nothing.
impl<A: Allocator> PartialEq for Container<A> {
    ghost use Rattle.hll_coupons.specs.Same.{have_same_coupons, have_same_coupons-partial};

    ghost eq = { have_same_coupons };

    ghost laws = { have_same_coupons-partial };

    fn eq(&self, other: &Container<A>) -> bool {
        other.contains_all(self) && self.contains_all(other)
    }
}

impl<A: Allocator> Eq for Container<A> {
    ghost use Rattle.hll_coupons.specs.Same.{have_same_coupons-equivalence};

    ghost laws = { have_same_coupons-equivalence };
}

/// Returns an iterator over the coupons of buckets, in their order.
pub(crate) fn coupons_of_buckets(buckets: &[Coupon]) -> ContainerIter<'_>
    ensures { result ≡ coupons_in buckets.now }
{
    ContainerIter { buckets }
}

/// Returns the number of buckets of a size.
pub(crate) fn buckets_of(lg_size: usize) -> usize
    requires { lg_size ≤ 26 }
    ensures { result ≡ 2 ^ lg_size }
{
    1 << lg_size
}

/// Returns `bytes` with coupons appended to it, four bytes each.
///
/// Allocates if the buffer has no room. Fails with `Memory` if the allocation fails.
pub fn with_coupons<A: Allocator>(
    mut bytes: SketchBytes<A>,
    coupons: &[Coupon],
) -> Result<SketchBytes<A>, Error>
    ensures ok { IfOk result (λ new. new ≡ bytes ++ coupon_bytes coupons.now) }
    ensures err { IfErr result (λ e. e ≡ Memory) }
{
    for coupon in coupons {
        bytes.write_u32_le(coupon.raw())?;
    }
    Ok(bytes)
}

/// An iterator over the coupons of a container, in the order of their buckets. Contracts see the list of the coupons
/// not yet returned.
#[derive(Debug, Drop)]
pub struct ContainerIter<'a> {
    buckets: &'a [Coupon],
}

impl<'a> Model for ContainerIter<'a> {
    ghost use Rattle.std.specs.Prelude.{List, ℕ};
    ghost use Rattle.hll_coupons.specs.Table.{coupons_in};

    ghost Value = { List ℕ };

    ghost view = { λ c. coupons_in c.buckets.now };
}

impl<'a> ContainerIter<'a> {
    /// Skips empty buckets, four at a time. Skips no coupon.
    pub(crate) fn pass_empty(&mut self)
        ensures { self.new ≡ self.old }
    {
        while let [a, b, c, d, others @ ..] = self.buckets {
            if !a.is_empty() || !b.is_empty() || !c.is_empty() || !d.is_empty() {
                return;
            }
            self.buckets = others;
        }
    }
}

impl<'a> Iterator for ContainerIter<'a> {
    type Item = Coupon;

    ghost next_gives = { YieldsFirst (λ s. s) };

    ghost remaining = { item_count (λ s. s) };

    fn next(&mut self) -> Option<Coupon> {
        while let Some((first, others)) = self.buckets.split_first() {
            self.buckets = others;
            if !first.is_empty() {
                return Some(*first);
            }
        }
        None
    }
}
