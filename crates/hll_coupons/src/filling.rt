// SPDX-License-Identifier: Apache-2.0
//! Fills tables with entries whose keys are distinct. Each entry gets the bucket that probing one entry at a time would
//! give it.
ghost use Rattle.std.specs.Prelude.{◌≡◌, ◌^◌, ◌<◌, ◌≤◌, false, All, length, map, OnOk, OnErr, IfErr};
ghost use Rattle.std.specs.Bool.{OnTrue};
ghost use Rattle.std.specs.FinSet.{len};
ghost use Rattle.hll_base.specs.declared.error.Reason.TheVariants.{Memory};
ghost use Rattle.hll_coupons.specs.Keys.{key_of};
ghost use Rattle.hll_coupons.specs.LongSearches.{AreFor};
ghost use Rattle.hll_coupons.specs.Pair.{set_of, value_of, IsPair};
ghost use Rattle.hll_coupons.specs.Probe.{IsProbed, IsAbsent, Puts, PutsEach};
ghost use Rattle.hll_coupons.specs.Table.{coupons_in, coupons_of, empty_table, IsTable};

use crate::container::{Container, coupons_of_buckets};
use crate::coupon::Coupon;
use crate::long_searches::LongSearches;
use crate::search::{Key, SHORT, search_within};
use hll_base::error::Error;
use std::alloc::Allocator;

/// Puts an entry into the empty bucket where the search for its key ends.
///
/// Its value is at least 1, its key is absent, and a bucket is empty. Fails with `Memory` if an allocation fails; then
/// no bucket has changed.
fn put_absent<A: Allocator + Clone>(
    table: &mut Container<A>,
    searches: &mut LongSearches<A>,
    by: Key,
    entry: Coupon,
) -> Result<(), Error>
    requires valued { 1 ≤ value_of entry }
    requires absent { IsAbsent (key_of by) table.old.buckets (key_of by entry) }
    requires room { length (coupons_in table.old.buckets) < 2 ^ table.old.lg_size }
    requires cycles { AreFor table.old.lg_size table.old.buckets searches.old }
    ensures size { OnOk result (table.new.lg_size ≡ table.old.lg_size) }
    ensures buckets { OnOk result (Puts (key_of by) table.old.lg_size table.old.buckets entry table.new.buckets) }
    ensures table { OnOk result (IsTable table.new) }
    ensures cycles { AreFor table.new.lg_size table.new.buckets searches.new }
    ensures unchanged { OnErr result (table.new ≡ table.old) }
    ensures err { IfErr result (λ e. e ≡ Memory) }
{
    let bucket = searches.end_of(by, table.lg_size(), table.buckets(), by.of(entry))?;
    table.put(bucket, entry);
    searches.fill(bucket);
    Ok(())
}

/// Puts an entry into the empty bucket where the search for its key ends. Uses a short search if that is enough and
/// there are no cycles yet.
#[inline(always)]
pub(crate) fn put_one<A: Allocator + Clone>(
    table: &mut Container<A>,
    searches: &mut LongSearches<A>,
    by: Key,
    entry: Coupon,
) -> Result<(), Error>
    requires valued { 1 ≤ value_of entry }
    requires absent { IsAbsent (key_of by) table.old.buckets (key_of by entry) }
    requires room { length (coupons_in table.old.buckets) < 2 ^ table.old.lg_size }
    requires cycles { AreFor table.old.lg_size table.old.buckets searches.old }
    ensures size { OnOk result (table.new.lg_size ≡ table.old.lg_size) }
    ensures buckets { OnOk result (Puts (key_of by) table.old.lg_size table.old.buckets entry table.new.buckets) }
    ensures table { OnOk result (IsTable table.new) }
    ensures cycles { AreFor table.new.lg_size table.new.buckets searches.new }
    ensures unchanged { OnErr result (table.new ≡ table.old) }
    ensures err { IfErr result (λ e. e ≡ Memory) }
{
    if searches.are_none() && put_bounded(table, by, entry) {
        return Ok(());
    }
    put_absent(table, searches, by, entry)
}

/// Puts an entry into the empty bucket where a short search for its key ends. Returns false if the search was cut off.
///
/// Its value is at least 1, and its key is absent.
fn put_bounded<A: Allocator>(table: &mut Container<A>, by: Key, entry: Coupon) -> bool
    requires valued { 1 ≤ value_of entry }
    requires absent { IsAbsent (key_of by) table.old.buckets (key_of by entry) }
    ensures size { table.new.lg_size ≡ table.old.lg_size }
    ensures buckets { OnTrue result (Puts (key_of by) table.old.lg_size table.old.buckets entry table.new.buckets) }
    ensures table { IsTable table.new }
    ensures unchanged { result ≡ false → table.new ≡ table.old }
{
    let buckets = table.buckets();
    let limit = SHORT.min(buckets.len());
    let found = search_within(by, table.lg_size(), buckets, by.of(entry), limit);
    let Some(bucket) = found else {
        return false;
    };
    table.put(bucket, entry);
    true
}

/// Puts coupons into an empty table, in their order. Empty buckets among `from` are skipped.
///
/// No two of them have the same key, and there are at most as many coupons as the table has buckets. Allocates when
/// long searches have become expensive. Fails with `Memory` if an allocation fails.
// (inlined, because callers have the table among their own values)
#[inline(always)]
pub(crate) fn put_all<A: Allocator + Clone>(
    into: &mut Container<A>,
    by: Key,
    from: &[Coupon],
) -> Result<(), Error>
    requires small { into.old.lg_size ≤ 26 }
    requires none { into.old ≡ empty_table into.old.lg_size }
    requires valued { All IsPair (coupons_in from.now) }
    requires room { length (coupons_in from.now) ≤ 2 ^ into.old.lg_size }
    requires distinct { len (set_of (map (key_of by) (coupons_in from.now))) ≡ length (coupons_in from.now) }
    ensures size { OnOk result (into.new.lg_size ≡ into.old.lg_size) }
    ensures buckets { OnOk result (PutsEach (key_of by) into.old.lg_size into.old.buckets (coupons_in from.now) into.new.buckets) }
    ensures probed { OnOk result (IsProbed (key_of by) into.new.lg_size into.new.buckets) }
    ensures members { OnOk result (coupons_of into.new ≡ set_of (coupons_in from.now)) }
    ensures count { OnOk result (length (coupons_in into.new.buckets) ≡ length (coupons_in from.now)) }
    ensures table { OnOk result (IsTable into.new) }
    ensures err { IfErr result (λ e. e ≡ Memory) }
{
    if put_by_search(into, by, from) {
        return Ok(());
    }
    into.clear();
    put_by_cycles(into, by, from)
}

/// Puts coupons into an empty table, in their order, by short searches. Returns whether none of them was cut off.
#[inline(always)]
fn put_by_search<A: Allocator>(into: &mut Container<A>, by: Key, from: &[Coupon]) -> bool
    requires small { into.old.lg_size ≤ 26 }
    requires none { into.old ≡ empty_table into.old.lg_size }
    requires valued { All IsPair (coupons_in from.now) }
    requires room { length (coupons_in from.now) ≤ 2 ^ into.old.lg_size }
    requires distinct { len (set_of (map (key_of by) (coupons_in from.now))) ≡ length (coupons_in from.now) }
    ensures size { into.new.lg_size ≡ into.old.lg_size }
    ensures buckets { OnTrue result (PutsEach (key_of by) into.old.lg_size into.old.buckets (coupons_in from.now) into.new.buckets) }
    ensures probed { OnTrue result (IsProbed (key_of by) into.new.lg_size into.new.buckets) }
    ensures members { OnTrue result (coupons_of into.new ≡ set_of (coupons_in from.now)) }
    ensures count { OnTrue result (length (coupons_in into.new.buckets) ≡ length (coupons_in from.now)) }
    ensures table { OnTrue result (IsTable into.new) }
{
    for entry in coupons_of_buckets(from) {
        if !put_bounded(into, by, entry) {
            return false;
        }
    }
    true
}

/// Puts coupons into an empty table, in their order, with cycles when searches are long. Fails with `Memory` if an
/// allocation fails.
#[inline(never)]
pub(crate) fn put_by_cycles<A: Allocator + Clone>(
    into: &mut Container<A>,
    by: Key,
    from: &[Coupon],
) -> Result<(), Error>
    requires small { into.old.lg_size ≤ 26 }
    requires none { into.old ≡ empty_table into.old.lg_size }
    requires valued { All IsPair (coupons_in from.now) }
    requires room { length (coupons_in from.now) ≤ 2 ^ into.old.lg_size }
    requires distinct { len (set_of (map (key_of by) (coupons_in from.now))) ≡ length (coupons_in from.now) }
    ensures size { OnOk result (into.new.lg_size ≡ into.old.lg_size) }
    ensures buckets { OnOk result (PutsEach (key_of by) into.old.lg_size into.old.buckets (coupons_in from.now) into.new.buckets) }
    ensures probed { OnOk result (IsProbed (key_of by) into.new.lg_size into.new.buckets) }
    ensures members { OnOk result (coupons_of into.new ≡ set_of (coupons_in from.now)) }
    ensures count { OnOk result (length (coupons_in into.new.buckets) ≡ length (coupons_in from.now)) }
    ensures table { OnOk result (IsTable into.new) }
    ensures err { IfErr result (λ e. e ≡ Memory) }
{
    let mut searches = LongSearches::new(into.allocator().clone()?);
    for entry in coupons_of_buckets(from) {
        put_absent(into, &mut searches, by, entry)?;
    }
    Ok(())
}
