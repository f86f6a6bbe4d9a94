// SPDX-License-Identifier: Apache-2.0
//! Searches a table by a key, and puts entries where the searches end (docs/MODEL.md, "Probing").
ghost use Rattle.std.specs.Prelude.{◌≡◌, ◌%◌, ◌^◌, ◌<◌, ◌≤◌, length, slice_index, slice_set, IfSome, IfNone};
ghost use Rattle.std.specs.FinSet.{len};
ghost use Rattle.hll_coupons.specs.Pair.{set_of, value_of};
ghost use Rattle.hll_coupons.specs.Table.{coupons_in, coupons_of, empty_table, IsTable};
ghost use Rattle.hll_coupons.specs.Probe as probe;
ghost use Rattle.hll_coupons.specs.Probe.{EndsAt, Passes, IsProbed, IsAbsent, Puts, PutsEach};
ghost use Rattle.hll_coupons.specs.Keys.{key_of};

use crate::container::Container;
use crate::coupon::Coupon;
use std::alloc::Allocator;

/// What a search compares.
#[derive(Clone, Copy)]
pub(crate) enum Key {
    /// The raw coupon, as in a set.
    RawCoupon,
    /// The slot, as in a table of exceptions.
    Slot,
}

impl Key {
    /// Returns the key of an entry.
    pub(crate) fn of(self, entry: Coupon) -> u32
        ensures { result ≡ key_of self entry }
    {
        match self {
            Key::RawCoupon => entry.raw(),
            Key::Slot => entry.slot(),
        }
    }
}

/// Returns a bucket's index modulo 2^`lg_size`.
pub(crate) fn wrapped(lg_size: usize, bucket: usize) -> usize
    requires { lg_size ≤ 26 }
    ensures { result ≡ bucket % 2 ^ lg_size }
{
    bucket & ((1 << lg_size) - 1)
}

/// Returns the stride of a key: the bits of its slot above the `lg_size` low ones, made odd.
pub(crate) fn stride_of(lg_size: usize, key: u32) -> u32
    requires { lg_size ≤ 26 }
    ensures stride { result ≡ probe.stride_of lg_size key }
    ensures odd { result % 2 ≡ 1 }
    ensures small { result < 2 ^ 26 }
{
    Coupon::from_raw(key).slot() >> lg_size | 1
}

/// A short search looks at this number of buckets.
pub(crate) const SHORT: usize = 64;

/// A short search for an exception looks at this number of buckets. Slots have few bits above the low ones that index
/// the table, so most searches go on to the neighboring bucket, and filled buckets cluster.
pub(crate) const SHORT_BY_SLOT: usize = 256;

/// Returns the first bucket on the path of a key that is empty or filled with the key, or `None` if the table is full
/// of other keys.
pub(crate) fn search(by: Key, lg_size: usize, buckets: &[Coupon], key: u32) -> Option<usize>
    requires small { lg_size ≤ 26 }
    requires size { length buckets.now ≡ 2 ^ lg_size }
    ensures found { IfSome result (EndsAt (key_of by) lg_size buckets.now key) }
    ensures full { IfNone result (Passes (key_of by) lg_size buckets.now key (2 ^ lg_size)) }
{
    search_within(by, lg_size, buckets, key, buckets.len())
}

/// Returns the first bucket, among the first `limit` on the path of a key, that is empty or filled with the key.
pub(crate) fn search_within(
    by: Key,
    lg_size: usize,
    buckets: &[Coupon],
    key: u32,
    limit: usize,
) -> Option<usize>
    requires small { lg_size ≤ 26 }
    requires size { length buckets.now ≡ 2 ^ lg_size }
    requires limit { limit ≤ 2 ^ lg_size }
    ensures found { IfSome result (EndsAt (key_of by) lg_size buckets.now key) }
    ensures none { IfNone result (Passes (key_of by) lg_size buckets.now key limit) }
{
    let stride = stride_of(lg_size, key) as usize;
    let mut bucket = wrapped(lg_size, key as usize);
    for _ in 0..limit {
        let entry = buckets[bucket];
        if entry.is_empty() || by.of(entry) == key {
            return Some(bucket);
        }
        bucket = wrapped(lg_size, bucket + stride);
    }
    None
}

/// Returns the first bucket on the path of a key that is empty or filled with the key, after the first `passed` buckets
/// of the path, and the number of steps from there.
#[inline(never)]
pub(crate) fn search_on(
    by: Key,
    lg_size: usize,
    buckets: &[Coupon],
    key: u32,
    passed: usize,
) -> Option<(usize, usize)>
    requires small { lg_size ≤ 26 }
    requires size { length buckets.now ≡ 2 ^ lg_size }
    requires within { passed ≤ 2 ^ lg_size }
    requires passes { Passes (key_of by) lg_size buckets.now key passed }
    ensures found { IfSome result (λ end. EndsAt (key_of by) lg_size buckets.now key end.0) }
    ensures full { IfNone result (Passes (key_of by) lg_size buckets.now key (2 ^ lg_size)) }
{
    let stride = stride_of(lg_size, key) as usize;
    let mut bucket = wrapped(lg_size, key as usize + passed * stride);
    for index in passed..buckets.len() {
        let entry = buckets[bucket];
        if entry.is_empty() || by.of(entry) == key {
            return Some((bucket, index - passed));
        }
        bucket = wrapped(lg_size, bucket + stride);
    }
    None
}

/// Puts an entry into the empty bucket where the search for its key ends. Returns this bucket.
///
/// Its value is at least 1, its key is absent, and a bucket is empty.
pub(crate) fn put_entry<A: Allocator>(table: &mut Container<A>, by: Key, entry: Coupon) -> usize
    requires probed { IsProbed (key_of by) table.old.lg_size table.old.buckets }
    requires valued { 1 ≤ value_of entry }
    requires absent { IsAbsent (key_of by) table.old.buckets (key_of by entry) }
    requires room { length (coupons_in table.old.buckets) < 2 ^ table.old.lg_size }
    ensures within { result < 2 ^ table.old.lg_size }
    ensures empty { slice_index table.old.buckets result ≡ 0 }
    ensures at { table.new.buckets ≡ slice_set table.old.buckets result entry }
    ensures size { table.new.lg_size ≡ table.old.lg_size }
    ensures buckets { Puts (key_of by) table.old.lg_size table.old.buckets entry table.new.buckets }
    ensures table { IsTable table.new }
{
    let buckets = table.buckets();
    let Some(bucket) = search(by, table.lg_size(), buckets, by.of(entry)) else {
        unreachable!()
    };
    table.put(bucket, entry);
    bucket
}
