// SPDX-License-Identifier: Apache-2.0
//! Coupons in ascending order, as in canonical images: merged in one pass, and written without a table (docs/FORMAT.md,
//! "What is written").
ghost use Rattle.std.specs.Prelude.{◌≡◌, ℕ, List, ◌*◌, ◌^◌, ◌<◌, ◌≤◌, ◌↔◌, ◌∷◌, ◌++◌, [], drop, length, map, slice_index, IsTrue, IfSome, IfNone, IfOk, IfErr};
ghost use Rattle.std.specs.Int.{w32, from_le_bytes};
ghost use Rattle.std.specs.FinSet.{union};
ghost use Rattle.std.specs.List.Sorted.{IsStrictlyIncreasing};
ghost use Rattle.hll_base.specs.declared.error.Reason.TheVariants.{Memory};
ghost use Rattle.hll_coupons.specs.Ascending.{without_first, IsLeastFirst};
ghost use Rattle.hll_coupons.specs.Coupons.{coupon_bytes, list_bytes, set_bytes, raw_coupons, WritesAscending};
ghost use Rattle.hll_coupons.specs.Pair.{set_of};

use crate::serialization::{COUPON_SIZE_BYTES, list_header, set_header};
use hll_base::codec::SketchBytes;
use hll_base::error::Error;
use hll_base::hll_type::HllType;
use std::alloc::Allocator;
use std::marker::Model;

/// An iterator over raw coupons in bytes, four bytes each. Contracts see the list of the raw coupons not yet returned.
/// No call allocates.
#[derive(Debug, Drop)]
pub struct RawCouponIter<'a> {
    bytes: &'a [u8],
    count: usize,
}

impl<'a> Model for RawCouponIter<'a> {
    ghost use Rattle.std.specs.Prelude.{ℕ, List, ◌*◌, ◌≤◌, length};
    ghost use Rattle.hll_coupons.specs.Coupons.{raw_coupons};

    ghost Value = { List ℕ };

    ghost view = { λ w. raw_coupons w.count w.bytes.now };

    ghost invariant = { λ w. 4 * w.count ≤ length w.bytes.now };
}

impl<'a> RawCouponIter<'a> {
    /// Returns an iterator over the first `count` raw coupons of `bytes`. The bytes have to be there.
    pub fn new(bytes: &'a [u8], count: usize) -> RawCouponIter<'a>
        requires { 4 * count ≤ length bytes.now }
        ensures { result ≡ raw_coupons count bytes.now }
    {
        RawCouponIter { bytes, count }
    }

    /// Returns the number of raw coupons left.
    pub fn len(&self) -> usize
        ensures { result ≡ length self.now }
    {
        self.count
    }

    /// Returns the next raw coupon, and keeps it.
    fn first(&self) -> Option<u32>
        ensures some { IfSome result (λ raw_coupon. self.now ≡ raw_coupon ∷ drop 1 self.now) }
        ensures none { IfNone result (self.now ≡ []) }
    {
        if self.count == 0 {
            return None;
        }
        let bytes = self.bytes;
        Some(u32::from_le_bytes([bytes[0], bytes[1], bytes[2], bytes[3]]))
    }

    /// Removes a raw coupon, if it is the next.
    fn pass(&mut self, raw_coupon: u32)
        ensures { self.new ≡ without_first raw_coupon self.old }
    {
        if self.first() == Some(raw_coupon) {
            self.bytes = &self.bytes[COUPON_SIZE_BYTES..];
            self.count -= 1;
        }
    }
}

/// Returns the bytes of the first `count` raw coupons. The bytes have to be there.
pub fn bytes_of_raw_coupons(bytes: &[u8], count: usize) -> &[u8]
    requires { 4 * count ≤ length bytes.now }
    ensures { result.now ≡ coupon_bytes (raw_coupons count bytes.now) }
{
    &bytes[..count * COUPON_SIZE_BYTES]
}

/// Returns the first `count` raw coupons, as elements of four bytes. The bytes have to be there.
pub fn elements_of_raw_coupons(bytes: &[u8], count: usize) -> &[[u8; 4]]
    requires { 4 * count ≤ length bytes.now }
    ensures { map (from_le_bytes w32) result.now ≡ raw_coupons count bytes.now }
{
    let (elements, _) = bytes.as_chunks::<4>();
    &elements[..count]
}

/// Returns whether each coupon, of four bytes, is less than the next one.
// (without an exit from the loop, so that the compiler compares several at once)
pub fn ascends(coupons: &[[u8; 4]]) -> bool
    ensures { IsTrue result ↔ IsStrictlyIncreasing (map (from_le_bytes w32) coupons.now) }
{
    let mut ascends = true;
    for i in 1..coupons.len() {
        ascends &= raw_coupon_at(coupons, i - 1) < raw_coupon_at(coupons, i);
    }
    ascends
}

/// Returns the raw coupon of an element.
#[inline(always)]
pub fn raw_coupon_at(coupons: &[[u8; 4]], at: usize) -> u32
    requires { at < length coupons.now }
    ensures { result ≡ slice_index (map (from_le_bytes w32) coupons.now) at }
{
    u32::from_le_bytes(coupons[at])
}

/// Returns the bytes of the coupons of two ascending lists, merged in ascending order, each once, four bytes each. One
/// pass.
///
/// Allocates four bytes for each coupon of both lists, in one request. Fails with `Memory` if the allocation fails.
pub fn union_of_ascending<A: Allocator>(
    alloc: A,
    mut left: RawCouponIter<'_>,
    mut right: RawCouponIter<'_>,
) -> Result<Vec<u8, A>, Error>
    requires left { IsStrictlyIncreasing left }
    requires right { IsStrictlyIncreasing right }
    ensures ok { IfOk result (λ bytes. WritesAscending coupon_bytes (union (set_of left.entry) (set_of right.entry)) bytes.items) }
    ensures err { IfErr result (λ e. e ≡ Memory) }
{
    let most = left.len().saturating_add(right.len());
    let mut coupons = SketchBytes::with_capacity(alloc, most.saturating_mul(COUPON_SIZE_BYTES))?;
    while let Some(raw_coupon) = least_first(&left, &right) {
        left.pass(raw_coupon);
        right.pass(raw_coupon);
        coupons.write_u32_le(raw_coupon)?;
    }
    Ok(coupons.into_bytes())
}

/// Returns the lesser of the next raw coupons of two lists, or the only one that is left.
fn least_first(left: &RawCouponIter<'_>, right: &RawCouponIter<'_>) -> Option<u32>
    ensures some { IfSome result (λ raw_coupon. IsLeastFirst raw_coupon left.now right.now) }
    ensures none { IfNone result ((left.now ≡ []) × (right.now ≡ [])) }
{
    match (left.first(), right.first()) {
        (Some(a), Some(b)) => Some(a.min(b)),
        (Some(a), None) => Some(a),
        (None, b) => b,
    }
}

/// Returns the compact image of a list with the coupons in this order, four bytes each (docs/FORMAT.md, "LIST").
///
/// There are at most eight coupons. Allocates in one request. Fails with `Memory` if the allocation fails.
pub fn list_image<A: Allocator>(
    alloc: A,
    lg_config_k: u8,
    hll_type: HllType,
    coupons: &[u8],
) -> Result<Vec<u8, A>, Error>
    requires { length coupons.now ≤ 4 * 8 }
    ensures ok { IfOk result (λ image. (order : List ℕ) → coupons.now ≡ coupon_bytes order → image.items ≡ list_bytes lg_config_k hll_type order) }
    ensures err { IfErr result (λ e. e ≡ Memory) }
{
    let count = coupons.len() / COUPON_SIZE_BYTES;
    image_of(alloc, &list_header(lg_config_k, hll_type, count), coupons)
}

/// Returns the compact image of a set whose table has 2^`lg_size` buckets, with the coupons in this order, four bytes
/// each (docs/FORMAT.md, "SET").
///
/// There are fewer than 2^32 coupons. Allocates in one request. Fails with `Memory` if the allocation fails.
pub fn set_image<A: Allocator>(
    alloc: A,
    lg_config_k: u8,
    hll_type: HllType,
    lg_size: u8,
    coupons: &[u8],
) -> Result<Vec<u8, A>, Error>
    requires { length coupons.now < 4 * 2 ^ 32 }
    ensures ok { IfOk result (λ image. (order : List ℕ) → coupons.now ≡ coupon_bytes order → image.items ≡ set_bytes lg_config_k hll_type lg_size order) }
    ensures err { IfErr result (λ e. e ≡ Memory) }
{
    let count = (coupons.len() / COUPON_SIZE_BYTES) as u32;
    image_of(
        alloc,
        &set_header(lg_config_k, hll_type, lg_size, count),
        coupons,
    )
}

/// Returns a header followed by the bytes of coupons, allocated in one request.
///
/// Fails with `Memory` if the allocation fails.
fn image_of<A: Allocator>(alloc: A, header: &[u8], coupons: &[u8]) -> Result<Vec<u8, A>, Error>
    ensures ok { IfOk result (λ image. image.items ≡ header.now ++ coupons.now) }
    ensures err { IfErr result (λ e. e ≡ Memory) }
{
    let mut bytes = SketchBytes::with_capacity(alloc, header.len().saturating_add(coupons.len()))?;
    bytes.write(header)?;
    bytes.write(coupons)?;
    Ok(bytes.into_bytes())
}
