// SPDX-License-Identifier: Apache-2.0
//! Coupons of many sketches, collected before they are put into a table together. So a union of many small sketches
//! costs one sort of their coupons, however long the searches for their buckets would be (docs/OPERATING.md, "Unions of
//! many images").
ghost use Rattle.std.specs.Prelude.{◌≡◌, ℕ, ◌+◌, ◌*◌, ◌^◌, ◌<◌, ◌≤◌, ◌++◌, [], ◌∷◌, length, take, vec_len, IfOk, IfErr, OnOk, OnErr, All};
ghost use Rattle.hll_base.specs.declared.error.Reason.TheVariants.{Memory};
ghost use Rattle.hll_coupons.specs.Coupons.{IsAscending};
ghost use Rattle.hll_coupons.specs.Pair.{IsPair, set_of};
ghost use Rattle.hll_coupons.specs.Table.{coupons_in, coupons_of};

use crate::container::{Container, buckets_of};
use crate::coupon::Coupon;
use hll_base::error::Error;
use std::alloc::{Allocator, Global};
use std::marker::Model;

/// Coupons in the order of arrival, up to 2^26 - 1, possibly repeated. Contracts see the list of their raw coupons.
#[derive(Drop)]
pub struct CouponBatch<A: Allocator = Global> {
    coupons: Vec<Coupon, A>,
}

impl<A: Allocator> Model for CouponBatch<A> {
    ghost use Rattle.std.specs.Prelude.{ℕ, List, All, length, ◌^◌, ◌<◌};
    ghost use Rattle.hll_coupons.specs.Pair.{IsPair};

    ghost Value = { List ℕ };

    ghost view = { λ b. b.coupons.items };

    ghost invariant = { λ b. All IsPair b.coupons.items × (length b.coupons.items < 2 ^ 26) };
}

impl<A: Allocator> CouponBatch<A> {
    /// Returns an empty batch. Allocates nothing.
    pub fn new(alloc: A) -> CouponBatch<A>
        ensures { result ≡ [] }
    {
        CouponBatch {
            coupons: Vec::new(alloc),
        }
    }

    /// Returns the number of coupons. A coupon that came twice counts twice.
    pub fn len(&self) -> usize
        ensures count { result ≡ length self.now }
        ensures few { result < 2 ^ 26 }
        ensures pairs { All IsPair self.now }
    {
        self.coupons.len()
    }

    /// Appends the coupons of a table.
    ///
    /// In total there are fewer than 2^26. Fails with `Memory` if an allocation fails; then the batch is unchanged.
    pub fn extend_from_table<B: Allocator>(&mut self, table: &Container<B>) -> Result<(), Error>
        requires room { length self.old + length (coupons_in table.now.buckets) < 2 ^ 26 }
        ensures ok { OnOk result (self.new ≡ self.old ++ coupons_in table.now.buckets) }
        ensures unchanged { OnErr result (self.new ≡ self.old) }
        ensures err { IfErr result (λ e. e ≡ Memory) }
    {
        table.table_is_legal();
        let count = self.coupons.len();
        let appended = push_coupons_of_table(&mut self.coupons, table);
        if appended.is_err() {
            self.coupons.truncate(count);
        }
        appended
    }

    /// Sorts the coupons and removes repeated ones. Allocates nothing.
    fn sort(&mut self)
        ensures ascending { IsAscending self.new (set_of self.old) }
    {
        self.coupons.sort_unstable();
        self.coupons.dedup();
    }
}

impl<A: Allocator + Clone> CouponBatch<A> {
    /// Returns a table of the distinct coupons, in ascending order in its first buckets. The batch keeps its coupons,
    /// each once.
    ///
    /// Fails with `Memory` if an allocation fails.
    pub fn to_table(&mut self) -> Result<Container<A>, Error>
        ensures ok { IfOk result (λ table. coupons_of table ≡ set_of self.old) }
        ensures ascending { IsAscending self.new (set_of self.old) }
        ensures err { IfErr result (λ e. e ≡ Memory) }
    {
        self.sort();
        let count = self.coupons.len();
        let lg_size = lg_size_above(count);
        let size = buckets_of(lg_size);
        let mut buckets = Vec::with_capacity(self.coupons.allocator().clone()?, size)?;
        buckets.extend_from_slice(&self.coupons)?;
        buckets.resize(size, Coupon::EMPTY)?;
        Ok(Container::from_coupons(lg_size, buckets, count))
    }
}

/// Appends the coupons of a table.
///
/// Fails with `Memory` if an allocation fails; some coupons may have been appended by then.
fn push_coupons_of_table<A: Allocator, B: Allocator>(
    coupons: &mut Vec<Coupon, A>,
    table: &Container<B>,
) -> Result<(), Error>
    ensures ok { OnOk result (coupons.new.items ≡ coupons.old.items ++ coupons_in table.now.buckets) }
    ensures some { OnErr result (take (length coupons.old.items) coupons.new.items ≡ coupons.old.items) }
    ensures err { IfErr result (λ e. e ≡ Memory) }
{
    for coupon in table.iter() {
        coupons.push(coupon)?;
    }
    Ok(())
}

/// Returns the size, as a power of two, of the smallest table that has more buckets than `count`.
fn lg_size_above(count: usize) -> usize
    requires { count < 2 ^ 26 }
    ensures more { count < 2 ^ result }
    ensures small { result ≤ 26 }
{
    match count {
        0 => 0,
        _ => count.ilog2() as usize + 1,
    }
}
