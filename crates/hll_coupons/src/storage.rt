// SPDX-License-Identifier: Apache-2.0
//! Storage for coupons: in the value itself, or allocated.
ghost use Rattle.std.specs.Prelude.{◌≡◌, ◌≢◌, ◌^◌, ◌<◌, ◌≤◌, length, replicate, slice_set, IfOk, IfErr, OnErr};
ghost use Rattle.hll_base.specs.declared.error.Reason.TheVariants.{Memory};
ghost use Rattle.hll_coupons.specs.Storage.{buckets_in};

use crate::coupon::Coupon;
use crate::serialization::LG_LIST_BUCKETS;
use hll_base::error::Error;
use std::alloc::{Allocator, Global};
use std::fmt;

/// 2^`lg_size` buckets, each empty or filled. The eight buckets of a list are in the value itself.
pub(crate) enum Storage<A: Allocator = Global> {
    /// Eight buckets, which allocate nothing.
    InValue { coupons: [Coupon; 8], alloc: A },
    /// Any number of buckets.
    Allocated(Vec<Coupon, A>),
}

/// Written out instead of derived. The proof of code that drops a table then uses this contract instead of considering
/// both variants.
impl<A: Allocator> Drop for Storage<A> {
    fn drop(self) {
        match self {
            Storage::InValue { coupons: _, alloc } => drop(alloc),
            Storage::Allocated(coupons) => drop(coupons),
        }
    }
}

impl<A: Allocator> Storage<A> {
    /// Returns eight empty buckets.
    pub(crate) fn eight(alloc: A) -> Storage<A>
        ensures { buckets_in result ≡ replicate 8 0 }
    {
        Storage::InValue {
            coupons: [Coupon::EMPTY; 8],
            alloc,
        }
    }

    /// Returns 2^`lg_size` empty buckets. Eight buckets allocate nothing.
    ///
    /// Fails with `Memory` if an allocation fails.
    pub(crate) fn new(alloc: A, lg_size: usize) -> Result<Storage<A>, Error>
        requires { lg_size ≤ 26 }
        ensures ok { IfOk result (λ p. buckets_in p ≡ replicate (2 ^ lg_size) 0) }
        ensures needed { OnErr result (lg_size ≢ 3) }
        ensures err { IfErr result (λ e. e ≡ Memory) }
    {
        if lg_size == usize::from(LG_LIST_BUCKETS) {
            return Ok(Storage::eight(alloc));
        }
        Ok(Storage::Allocated(vec![in alloc; Coupon::EMPTY; 1 << lg_size]?))
    }

    /// Returns the allocator.
    pub(crate) fn allocator(&self) -> &A {
        match self {
            Storage::InValue { alloc, .. } => alloc,
            Storage::Allocated(coupons) => coupons.allocator(),
        }
    }

    /// Returns a copy allocated by `alloc`.
    ///
    /// Fails with `Memory` if the buckets are allocated and an allocation fails.
    pub(crate) fn clone_in(&self, alloc: A) -> Result<Storage<A>, Error>
        ensures ok { IfOk result (λ p. buckets_in p ≡ buckets_in self.now) }
        ensures err { IfErr result (λ e. e ≡ Memory) }
    {
        match self {
            Storage::InValue { coupons, .. } => Ok(Storage::InValue {
                coupons: *coupons,
                alloc,
            }),
            Storage::Allocated(coupons) => {
                Ok(Storage::Allocated(Vec::from_slice(alloc, coupons)?))
            }
        }
    }

    /// Returns the buckets.
    pub(crate) fn as_slice(&self) -> &[Coupon]
        ensures { result.now ≡ buckets_in self.now }
    {
        match self {
            Storage::InValue { coupons, .. } => coupons,
            Storage::Allocated(coupons) => coupons,
        }
    }

    /// Empties all buckets.
    pub(crate) fn clear(&mut self)
        ensures { buckets_in self.new ≡ replicate (length (buckets_in self.old)) 0 }
    {
        match self {
            Storage::InValue { coupons, .. } => coupons.fill(Coupon::EMPTY),
            Storage::Allocated(coupons) => coupons.fill(Coupon::EMPTY),
        }
    }

    /// Fills a bucket.
    pub(crate) fn set(&mut self, bucket: usize, coupon: Coupon)
        requires small { bucket < 2 ^ 26 }
        requires within { bucket < length (buckets_in self.old) }
        ensures { buckets_in self.new ≡ slice_set (buckets_in self.old) bucket coupon }
    {
        match self {
            Storage::InValue { coupons, .. } => coupons[bucket] = coupon,
            Storage::Allocated(coupons) => coupons[bucket] = coupon,
        }
    }
}

/// The buckets, as a list.
impl<A: Allocator> fmt::Debug for Storage<A> {
    fn fmt<W: fmt::Write>(&self, f: &mut fmt::Formatter<W>) -> fmt::Result {
        self.as_slice().fmt(f)
    }
}
