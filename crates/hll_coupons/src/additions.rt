// SPDX-License-Identifier: Apache-2.0
//! Counts the coupons of a set and a table together, and adds the coupons of a table to a set. Each coupon of the table
//! is looked up by a short search. If one search is cut off, a sorted copy of the set's coupons is used instead
//! (docs/OPERATING.md), unless the table has so few coupons that searching on is cheaper.
ghost use Rattle.std.specs.Prelude.{◌≡◌, ◌^◌, ◌<◌, ◌≤◌, true, false, length, IfOk, IfErr};
ghost use Rattle.std.specs.FinSet.{contains, insert, len, union};
ghost use Rattle.std.specs.List.Sorted.{IsStrictlyIncreasing};
ghost use Rattle.hll_base.specs.declared.error.Reason.TheVariants.{Memory};
ghost use Rattle.hll_coupons.specs.Coupons.{IsAscending};
ghost use Rattle.hll_coupons.specs.HashSet.{IsHashSet};
ghost use Rattle.hll_coupons.specs.LongSearches.{AreFor};
ghost use Rattle.hll_coupons.specs.Pair.{set_of, value_of};
ghost use Rattle.hll_coupons.specs.Table.{coupons_in, coupons_of};

use crate::container::Container;
use crate::coupon::Coupon;
use crate::hash_set::HashSet;
use crate::long_searches::LongSearches;
use crate::search::Key;
use hll_base::error::Error;
use std::alloc::Allocator;

/// If the table has at most this number of coupons, their searches go on to the end, which costs less than sorting the
/// coupons of the set.
const WALKED: usize = 8;

impl<A: Allocator + Clone> HashSet<A> {
    /// Returns the number of distinct coupons in the set and a table together.
    ///
    /// If a search is long and the table has more than eight coupons, allocates a sorted copy of the set's coupons. If
    /// that allocation fails, it searches on.
    pub fn count_with(&self, others: &Container<A>) -> usize
        ensures { result ≡ len (union (coupons_of self.now) (coupons_of others.now)) }
    {
        others.table_is_legal();
        let mut count = self.container.len();
        for coupon in others.iter() {
            let has = match self.has_bounded(coupon) {
                Some(has) => has,
                None if others.len() <= WALKED => self.contains(coupon),
                None => match self.ascending() {
                    Ok(own) => return count_of_both(&own, others),
                    Err(_) => self.contains(coupon),
                },
            };
            count += usize::from(!has);
        }
        count
    }

    /// Returns a copy of the coupons in ascending order. Fails with `Memory`.
    fn ascending(&self) -> Result<Vec<Coupon, A>, Error>
        ensures ok { IfOk result (λ own. IsAscending own.items (coupons_of self.now)) }
        ensures count { IfOk result (λ own. length own.items ≡ length (coupons_in self.now.buckets)) }
        ensures err { IfErr result (λ e. e ≡ Memory) }
    {
        let alloc = self.container.allocator().clone()?;
        self.container.ascending(alloc)
    }

    /// Adds the coupons of a table. The set has room for them.
    ///
    /// If a search is long and the table has more than eight coupons, allocates a sorted copy of the set's coupons, and
    /// bitmaps. If an allocation fails, it searches on.
    pub fn update_each(&mut self, others: &Container<A>)
        requires { len (union (coupons_of self.old) (coupons_of others.now)) ≤ 2 ^ self.old.lg_size }
        ensures size { self.new.lg_size ≡ self.old.lg_size }
        ensures members { coupons_of self.new ≡ union (coupons_of self.old) (coupons_of others.now) }
        ensures set { IsHashSet self.new }
    {
        others.table_is_legal();
        // (gives the proof the invariant of a set)
        let _container = self.container();
        for coupon in others.iter() {
            match self.insert_bounded(coupon) {
                Some(_) => {}
                None if self.update_by_order(others) => return,
                None => self.update(coupon),
            }
        }
    }

    /// Adds the coupons of a table by a sorted copy of the set's coupons, if the table has more than eight. Returns
    /// whether it did. It returns false if the copy can't be allocated; then nothing has changed.
    #[inline(never)]
    fn update_by_order(&mut self, others: &Container<A>) -> bool
        requires { len (union (coupons_of self.old) (coupons_of others.now)) ≤ 2 ^ self.old.lg_size }
        ensures size { self.new.lg_size ≡ self.old.lg_size }
        ensures members { result ≡ true → coupons_of self.new ≡ union (coupons_of self.old) (coupons_of others.now) }
        ensures unchanged { result ≡ false → self.new ≡ self.old }
        ensures set { IsHashSet self.new }
    {
        // (gives the proof the invariant of a set)
        let _container = self.container();
        if others.len() <= WALKED {
            return false;
        }
        let Ok(own) = self.ascending() else {
            return false;
        };
        put_lacking(&mut self.container, own.allocator(), &own, others);
        true
    }
}

/// Returns the number of distinct coupons in both. `own` is in ascending order.
fn count_of_both<A: Allocator>(own: &[Coupon], others: &Container<A>) -> usize
    requires ascends { IsStrictlyIncreasing own.now }
    requires few { length own.now ≤ 2 ^ 26 }
    ensures { result ≡ len (union (set_of own.now) (coupons_of others.now)) }
{
    others.table_is_legal();
    let mut count = own.len();
    for coupon in others.iter() {
        count += usize::from(!is_among(own, coupon));
    }
    count
}

/// Adds those coupons of `others` that `table` lacks. `own` has the coupons of `table` in ascending order, and `table`
/// has room.
///
/// Allocates with `alloc` when long searches have become expensive, and goes on without if that fails.
fn put_lacking<A: Allocator, B: Allocator + Clone>(
    table: &mut Container<A>,
    alloc: B,
    own: &[Coupon],
    others: &Container<A>,
)
    requires set { IsHashSet table.old }
    requires own { IsAscending own.now (coupons_of table.old) }
    requires room { len (union (coupons_of table.old) (coupons_of others.now)) ≤ 2 ^ table.old.lg_size }
    ensures size { table.new.lg_size ≡ table.old.lg_size }
    ensures members { coupons_of table.new ≡ union (coupons_of table.old) (coupons_of others.now) }
    ensures set { IsHashSet table.new }
{
    others.table_is_legal();
    let mut searches = LongSearches::new(alloc);
    for coupon in others.iter() {
        if !is_among(own, coupon) {
            put_new(table, &mut searches, coupon);
        }
    }
}

/// Adds a coupon that a table lacks and has room for.
fn put_new<A: Allocator, B: Allocator + Clone>(
    table: &mut Container<A>,
    searches: &mut LongSearches<B>,
    coupon: Coupon,
)
    requires valued { 1 ≤ value_of coupon }
    requires set { IsHashSet table.old }
    requires new { contains (coupons_of table.old) coupon ≡ false }
    requires room { length (coupons_in table.old.buckets) < 2 ^ table.old.lg_size }
    requires cycles { AreFor table.old.lg_size table.old.buckets searches.old }
    ensures size { table.new.lg_size ≡ table.old.lg_size }
    ensures members { coupons_of table.new ≡ insert (coupons_of table.old) coupon }
    ensures set { IsHashSet table.new }
    ensures cycles { AreFor table.new.lg_size table.new.buckets searches.new }
{
    let bucket = searches.end_or_walk(
        Key::RawCoupon,
        table.lg_size(),
        table.buckets(),
        coupon.raw(),
    );
    table.put(bucket, coupon);
    searches.fill(bucket);
}

/// Returns whether `own`, which is in ascending order, has the coupon.
fn is_among(own: &[Coupon], coupon: Coupon) -> bool
    requires { IsStrictlyIncreasing own.now }
    ensures { result ≡ contains (set_of own.now) coupon }
{
    own.binary_search(&coupon).is_ok()
}
