// SPDX-License-Identifier: Apache-2.0
//! Makes images of coupons from images of coupons, without a table: the union of two images, an image with coupons added, at
//! another width, or folded. Coupons that ascend, as in images that this library wrote, are read in place. Up to 128 coupons
//! in another order are sorted first.
ghost use Rattle.std.specs.Prelude.{◌≡◌, ℕ, List, ◌≤◌, ◌<◌, true, None, IfSome, IfNone, IfOk, IfErr, OnErr, length};
ghost use Rattle.std.specs.FinSet.{len, union};
ghost use Rattle.std.specs.List.Sorted.{IsPermutation, IsStrictlyIncreasing};
ghost use Rattle.hll_base.specs.declared.error.Reason.TheVariants.{Memory};
ghost use Rattle.hll_coupons.specs.Coupons.{coupon_bytes, raw_coupons};
ghost use Rattle.hll_coupons.specs.Pair.{set_of};
ghost use Rattle.hll_images.specs.CouponImages.{order_of, IsOrdered, IsOrderedImage, HasEvidentCoupons, HaveUnionInTable, IsImageOfUnion, HasCouponsAt, IsImageOfUnionOfOne, AreBothRead, IsImageAt, AreFoldedRegisters, IsFoldedImage, IsImageOfBoth, IsImageWith};
ghost use Rattle.hll_sketch.specs.Stage as stages;
ghost use Rattle.hll_sketch.specs.Image.{IsReadAs, stage_bits};
ghost use Rattle.hll_sketch.specs.Value.{Sketch, IsLgK, IsTableFor};
ghost use Rattle.hll_sketch.specs.Written as written;

use crate::sorted::{coupons_in_order, sorted_numbers};
use hll_arrays::registers::two_to;
use hll_base::error::Error;
use hll_base::hll_type::HllType;
use hll_coupons::raw_coupons::{list_image, set_image, union_of_ascending};
use hll_coupons::serialization::{COUPON_SIZE_BYTES, LG_LIST_BUCKETS};
use hll_sketch::coupon_room::CouponRoom;
use hll_sketch::header::{Header, says_registers};
use hll_sketch::raw_coupons::{RawCoupons, counted_coupons};
use hll_sketch::stage::stage;
use std::alloc::{Allocator, Global};

/// What an image of coupons says, with its coupons in ascending order.
#[derive(Drop)]
struct OrderedImage<'a> {
    /// The logarithm of the number of registers, 4 to 21.
    lg_k: u8,
    /// The width that its registers will have.
    hll_type: HllType,
    /// The logarithm of the number of buckets of its table.
    lg_size: u8,
    /// The coupons, in ascending order.
    raw_coupons: RawCoupons<'a>,
}

/// Returns the image, at a width, of the union of two images of coupons, without making a table.
///
/// Returns `None` unless all of these hold; then a union has to merge the images:
///
/// - each image is compact, has coupons, and they ascend or are at most 128, or it is updatable and has 1 to 128 coupons;
/// - the first image is at `lg_max_k`, the bound of the union;
/// - a table at that `lg_k` holds the coupons of both.
///
/// Allocates four bytes for each coupon of both images, and then the image. Fails with `Memory`.
pub fn union_of_coupon_images<A: Allocator + Clone>(
    alloc: A,
    lg_max_k: u8,
    hll_type: HllType,
    left: &[u8],
    right: &[u8],
) -> Result<Option<Vec<u8, A>>, Error>
    ensures some { IfOk result (λ found. IfSome found (λ image. IsImageOfUnion lg_max_k hll_type left.now right.now image.items)) }
    ensures none { IfOk result (λ found. IfNone found (HaveUnionInTable lg_max_k left.now right.now → ⊥)) }
    ensures read { OnErr result (AreBothRead lg_max_k left.now right.now) }
    ensures err { IfErr result (λ e. e ≡ Memory) }
{
    if let Some(left) = ascending_image(left)
        && let Some(right) = ascending_image(right)
    {
        return union_of_ordered(alloc, lg_max_k, hll_type, left, right);
    }
    // (after the return: room is cleared)
    let mut left_room = CouponRoom::new();
    let Some(left) = ordered_image(left, &mut left_room) else {
        return Ok(None);
    };
    let mut right_room = CouponRoom::new();
    match ordered_image(right, &mut right_room) {
        Some(right) => union_of_ordered(alloc, lg_max_k, hll_type, left, right),
        None => Ok(None),
    }
}

/// Returns the image, at a width, of the union of the coupons of two images, as `union_of_coupon_images` does.
///
/// Allocates four bytes for each coupon of both images, and then the image. Fails with `Memory`.
fn union_of_ordered<A: Allocator + Clone>(
    alloc: A,
    lg_max_k: u8,
    hll_type: HllType,
    left: OrderedImage<'_>,
    right: OrderedImage<'_>,
) -> Result<Option<Vec<u8, A>>, Error>
    requires left { IsOrdered left }
    requires right { IsOrdered right }
    ensures some { IfOk result (λ found. IfSome found (λ image. (b d : List ℕ) → IsOrderedImage b left.entry → IsOrderedImage d right.entry → IsImageOfUnion lg_max_k hll_type b d image.items)) }
    ensures none { IfOk result (λ found. IfNone found ((b d : List ℕ) → IsOrderedImage b left.entry → IsOrderedImage d right.entry → HaveUnionInTable lg_max_k b d → ⊥)) }
    ensures read { OnErr result ((b d : List ℕ) → IsOrderedImage b left.entry → IsOrderedImage d right.entry → AreBothRead lg_max_k b d) }
    ensures err { IfErr result (λ e. e ≡ Memory) }
{
    if left.lg_k != lg_max_k {
        return Ok(None);
    }
    // (without coupons on one side, the union is the other side, perhaps at another size of the table)
    if left.raw_coupons.count == 0 || right.raw_coupons.count == 0 {
        return Ok(None);
    }
    image_of_both(
        alloc,
        lg_max_k,
        hll_type,
        left.lg_size,
        left.raw_coupons,
        right.raw_coupons,
    )
}

/// Returns the image, at a width, of the union of one image of coupons, without making a table.
///
/// Returns `None` unless all of these hold; then a union has to merge the image:
///
/// - the image is compact, has coupons, and they ascend or are at most 128, or it is updatable and has 1 to 128 coupons;
/// - the image is at `lg_max_k`, the bound of the union.
///
/// Allocates once, for the image. Fails with `Memory`.
pub fn union_of_one_coupon_image<A: Allocator>(
    alloc: A,
    lg_max_k: u8,
    hll_type: HllType,
    image: &[u8],
) -> Result<Option<Vec<u8, A>>, Error>
    ensures some { IfOk result (λ found. IfSome found (λ written. IsImageOfUnionOfOne lg_max_k hll_type image.now written.items)) }
    ensures none { IfOk result (λ found. IfNone found (HasCouponsAt lg_max_k image.now → ⊥)) }
    ensures read { OnErr result (IsLgK lg_max_k × (x : Sketch) × IsReadAs image.now x) }
    ensures err { IfErr result (λ e. e ≡ Memory) }
{
    if says_registers(image) {
        return Ok(None);
    }
    match ascending_image(image) {
        Some(ordered) => union_of_one_ordered(alloc, lg_max_k, hll_type, ordered),
        None => union_of_one_sorted(alloc, lg_max_k, hll_type, image),
    }
}

/// Does what `union_of_one_coupon_image` does, and sorts the coupons if they don't ascend.
// (not inlined: a caller that had the room among its own values would make it for ascending coupons too)
#[inline(never)]
fn union_of_one_sorted<A: Allocator>(
    alloc: A,
    lg_max_k: u8,
    hll_type: HllType,
    image: &[u8],
) -> Result<Option<Vec<u8, A>>, Error>
    ensures some { IfOk result (λ found. IfSome found (λ written. IsImageOfUnionOfOne lg_max_k hll_type image.now written.items)) }
    ensures none { IfOk result (λ found. IfNone found (HasCouponsAt lg_max_k image.now → ⊥)) }
    ensures read { OnErr result (IsLgK lg_max_k × (x : Sketch) × IsReadAs image.now x) }
    ensures err { IfErr result (λ e. e ≡ Memory) }
{
    let mut room = CouponRoom::new();
    match ordered_image(image, &mut room) {
        Some(ordered) => union_of_one_ordered(alloc, lg_max_k, hll_type, ordered),
        None => Ok(None),
    }
}

/// Returns the image, at a width, of the union of the coupons of one image, as `union_of_one_coupon_image` does.
///
/// Allocates once, for the image. Fails with `Memory`.
fn union_of_one_ordered<A: Allocator>(
    alloc: A,
    lg_max_k: u8,
    hll_type: HllType,
    image: OrderedImage<'_>,
) -> Result<Option<Vec<u8, A>>, Error>
    requires { IsOrdered image }
    ensures some { IfOk result (λ found. IfSome found (λ written. (b : List ℕ) → IsOrderedImage b image.entry → IsImageOfUnionOfOne lg_max_k hll_type b written.items)) }
    ensures none { IfOk result (λ found. IfNone found ((b : List ℕ) → IsOrderedImage b image.entry → HasCouponsAt lg_max_k b → ⊥)) }
    ensures bound { OnErr result (IsLgK lg_max_k) }
    ensures err { IfErr result (λ e. e ≡ Memory) }
{
    // (an empty sketch leaves a union the table that it has)
    if image.lg_k != lg_max_k || image.raw_coupons.count == 0 {
        return Ok(None);
    }
    Ok(Some(ordered_image_at(alloc, hll_type, image)?))
}

/// Returns the image, at an `lg_k` and a width, of the coupons of two lists in ascending order. The coupons of the second list
/// are added to those of the first, whose table has 2^`lg_size` buckets. Returns `None` if no table holds all of them.
///
/// Allocates four bytes for each coupon of both lists, and then the image. Fails with `Memory`.
// (inlined, so that its arguments aren't written to memory)
#[inline(always)]
fn image_of_both<A: Allocator + Clone>(
    alloc: A,
    lg_k: u8,
    hll_type: HllType,
    lg_size: u8,
    left: RawCoupons<'_>,
    right: RawCoupons<'_>,
) -> Result<Option<Vec<u8, A>>, Error>
    requires left { IsStrictlyIncreasing (raw_coupons left.count left.bytes.now) }
    requires right { IsStrictlyIncreasing (raw_coupons right.count right.bytes.now) }
    requires lg_k { IsLgK lg_k }
    ensures some { IfOk result (λ found. IfSome found (λ image. IsImageOfBoth lg_k hll_type lg_size (raw_coupons left.entry.count left.entry.bytes.now) (raw_coupons right.entry.count right.entry.bytes.now) image.items)) }
    ensures none { IfOk result (λ found. IfNone found (stages.stage lg_k lg_size (len (union (set_of (raw_coupons left.entry.count left.entry.bytes.now)) (set_of (raw_coupons right.entry.count right.entry.bytes.now)))) ≡ None)) }
    ensures err { IfErr result (λ e. e ≡ Memory) }
{
    let coupons = union_of_ascending(alloc.clone()?, left.all(), right.all())?;
    match stage(lg_k, lg_size, coupons.len() / COUPON_SIZE_BYTES) {
        Some(lg_size) => Ok(Some(coupon_image(alloc, lg_k, hll_type, lg_size, &coupons)?)),
        None => Ok(None),
    }
}

/// Returns the image of the sketch of an image of coupons with more coupons added, without making a table.
///
/// The raw coupons may be in another order afterwards, whatever the call returns; they are the same ones.
///
/// There are 1 to 128 raw coupons, none with the value 0. Returns `None` unless all of these hold; then a sketch has to add the
/// coupons:
///
/// - the image is compact, and its coupons ascend or are at most 128, or it is updatable and has 1 to 128 coupons;
/// - no two of the raw coupons are equal;
/// - a table at the `lg_k` of the image holds all coupons.
///
/// Allocates four bytes for each coupon, and then the image. Fails with `Memory`.
pub fn coupon_image_with<A: Allocator + Clone>(
    alloc: A,
    image: &[u8],
    raw_coupons: &mut [u32],
) -> Result<Option<Vec<u8, A>>, Error>
    requires some { 1 ≤ length raw_coupons.old }
    requires few { length raw_coupons.old ≤ 128 }
    ensures some { IfOk result (λ found. IfSome found (λ written. IsImageWith raw_coupons.old image.now written.items)) }
    ensures order { IsPermutation raw_coupons.old raw_coupons.new }
    ensures read { OnErr result ((x : Sketch) × IsReadAs image.now x) }
    ensures coupons { OnErr result (stage_bits image.now ≡ 2 → ⊥) }
    ensures err { IfErr result (λ e. e ≡ Memory) }
{
    if says_registers(image) {
        return Ok(None);
    }
    let mut room = CouponRoom::new();
    match ordered_image(image, &mut room) {
        Some(ordered) => ordered_image_with(alloc, ordered, raw_coupons),
        None => Ok(None),
    }
}

/// Returns the image of coupons in ascending order with more coupons added, which it sorts. Returns `None` if two of these are
/// equal, or if no table holds all coupons.
///
/// Allocates four bytes for each coupon, and then the image. Fails with `Memory`.
fn ordered_image_with<A: Allocator + Clone>(
    alloc: A,
    image: OrderedImage<'_>,
    more: &mut [u32],
) -> Result<Option<Vec<u8, A>>, Error>
    requires ascend { IsStrictlyIncreasing (raw_coupons image.raw_coupons.count image.raw_coupons.bytes.now) }
    requires lg_k { IsLgK image.lg_k }
    requires few { length more.old ≤ 128 }
    ensures some { IfOk result (λ found. IfSome found (λ written. (ys : List ℕ) × (set_of ys ≡ set_of more.old) × IsImageOfBoth image.entry.lg_k image.entry.hll_type image.entry.lg_size (raw_coupons image.entry.raw_coupons.count image.entry.raw_coupons.bytes.now) ys written.items)) }
    ensures order { IsPermutation more.old more.new }
    ensures err { IfErr result (λ e. e ≡ Memory) }
{
    let mut room = CouponRoom::new();
    let Some(sorted) = sorted_numbers(more, &mut room) else {
        return Ok(None);
    };
    image_of_both(
        alloc,
        image.lg_k,
        image.hll_type,
        image.lg_size,
        image.raw_coupons,
        sorted,
    )
}

/// Returns the image, at a width, of the sketch of an image of coupons, without making a table.
///
/// Returns `None` unless the image is compact, and its coupons ascend or are at most 128, or it is updatable and has 1 to
/// 128 coupons.
///
/// Allocates once, for the image. Fails with `Memory`.
pub fn coupon_image_at<A: Allocator>(
    alloc: A,
    hll_type: HllType,
    image: &[u8],
) -> Result<Option<Vec<u8, A>>, Error>
    ensures some { IfOk result (λ found. IfSome found (λ written. IsImageAt hll_type image.now written.items)) }
    ensures none { IfOk result (λ found. IfNone found (HasEvidentCoupons image.now → ⊥)) }
    ensures read { OnErr result ((x : Sketch) × IsReadAs image.now x) }
    ensures coupons { OnErr result (stage_bits image.now ≡ 2 → ⊥) }
    ensures err { IfErr result (λ e. e ≡ Memory) }
{
    if says_registers(image) {
        return Ok(None);
    }
    match ascending_image(image) {
        Some(ordered) => Ok(Some(ordered_image_at(alloc, hll_type, ordered)?)),
        None => sorted_image_at(alloc, hll_type, image),
    }
}

/// Does what `coupon_image_at` does, and sorts the coupons if they don't ascend.
// (not inlined: a caller that had the room among its own values would make it for ascending coupons too)
#[inline(never)]
fn sorted_image_at<A: Allocator>(
    alloc: A,
    hll_type: HllType,
    image: &[u8],
) -> Result<Option<Vec<u8, A>>, Error>
    ensures some { IfOk result (λ found. IfSome found (λ written. IsImageAt hll_type image.now written.items)) }
    ensures none { IfOk result (λ found. IfNone found (HasEvidentCoupons image.now → ⊥)) }
    ensures read { OnErr result ((x : Sketch) × IsReadAs image.now x) }
    ensures err { IfErr result (λ e. e ≡ Memory) }
{
    let mut room = CouponRoom::new();
    match ordered_image(image, &mut room) {
        Some(ordered) => Ok(Some(ordered_image_at(alloc, hll_type, ordered)?)),
        None => Ok(None),
    }
}

/// Returns the image of coupons in ascending order, at a width.
///
/// Allocates once, for the image. Fails with `Memory`.
fn ordered_image_at<A: Allocator>(
    alloc: A,
    hll_type: HllType,
    image: OrderedImage<'_>,
) -> Result<Vec<u8, A>, Error>
    requires { IsOrdered image }
    ensures ok { IfOk result (λ v. v.items ≡ written.coupon_image image.entry.lg_k hll_type image.entry.lg_size (order_of image.entry)) }
    ensures err { IfErr result (λ e. e ≡ Memory) }
{
    let coupons = image.raw_coupons.as_bytes();
    coupon_image(alloc, image.lg_k, hll_type, image.lg_size, coupons)
}

/// Returns the image of the sketch of an image of coupons, folded to an `lg_k`, without making a table.
///
/// Returns `None` unless all of these hold; then a sketch has to fold the coupons:
///
/// - the image is compact, and its coupons ascend or are at most 128, or it is updatable and has 1 to 128 coupons;
/// - `lg_k` is at most that of the image;
/// - a table at `lg_k` holds the coupons.
///
/// Allocates once, for the image. Fails with `Memory`.
pub fn folded_coupon_image<A: Allocator>(
    alloc: A,
    lg_k: u8,
    image: &[u8],
) -> Result<Option<Vec<u8, A>>, Error>
    requires { IsLgK lg_k }
    ensures some { IfOk result (λ found. IfSome found (λ written. IsFoldedImage lg_k image.now written.items)) }
    ensures read { OnErr result ((x : Sketch) × IsReadAs image.now x) }
    ensures err { IfErr result (λ e. e ≡ Memory) }
{
    let mut room = CouponRoom::new();
    let Some(ordered) = ordered_image(image, &mut room) else {
        return Ok(None);
    };
    if ordered.lg_k < lg_k {
        return Ok(None);
    }
    let Some(lg_size) = stage(lg_k, LG_LIST_BUCKETS, ordered.raw_coupons.count) else {
        return Ok(None);
    };
    let coupons = ordered.raw_coupons.as_bytes();
    let written = coupon_image(alloc, lg_k, ordered.hll_type, lg_size, coupons)?;
    Ok(Some(written))
}

/// Registers that coupons were folded to.
#[derive(Drop)]
pub struct FoldedRegisters<A: Allocator = Global> {
    /// The width of the image.
    pub hll_type: HllType,
    /// The registers, one byte for each.
    pub values: Vec<u8, A>,
}

/// Returns the registers that the coupons of an image become at an `lg_k`, without making a table.
///
/// Returns `None` unless all of these hold; then a sketch has to fold the coupons:
///
/// - the image is compact, and its coupons ascend or are at most 128, or it is updatable and has 1 to 128 coupons;
/// - `lg_k` is at most that of the image;
/// - no table at `lg_k` holds the coupons.
///
/// Allocates one byte for each register. Fails with `Memory`.
pub fn folded_coupon_registers<A: Allocator>(
    alloc: A,
    lg_k: u8,
    image: &[u8],
) -> Result<Option<FoldedRegisters<A>>, Error>
    requires { IsLgK lg_k }
    ensures some { IfOk result (λ found. IfSome found (λ r. AreFoldedRegisters lg_k image.now r.hll_type r.values.items)) }
    ensures read { OnErr result ((x : Sketch) × IsReadAs image.now x) }
    ensures err { IfErr result (λ e. e ≡ Memory) }
{
    let mut room = CouponRoom::new();
    let Some(ordered) = ordered_image(image, &mut room) else {
        return Ok(None);
    };
    let coupons = ordered.raw_coupons;
    if ordered.lg_k < lg_k || stage(lg_k, LG_LIST_BUCKETS, coupons.count).is_some() {
        return Ok(None);
    }
    let mut values = vec![in alloc; 0; two_to(lg_k)]?;
    coupons.max_into(&mut values, lg_k);
    Ok(Some(FoldedRegisters {
        hll_type: ordered.hll_type,
        values,
    }))
}

/// Returns what an image says, if it is compact and its coupons ascend.
fn ascending_image(bytes: &[u8]) -> Option<OrderedImage<'_>>
    ensures ordered { IfSome result IsOrdered }
    ensures some { IfSome result (IsOrderedImage bytes.now) }
{
    let Ok(header) = Header::read(bytes) else {
        return None;
    };
    let raw_coupons = counted_coupons(bytes, header)?;
    if !raw_coupons.ascend() {
        return None;
    }
    Some(OrderedImage {
        lg_k: header.lg_k,
        hll_type: header.hll_type,
        lg_size: header.lg_arr,
        raw_coupons,
    })
}

/// Returns what an image says, if it is compact and its coupons ascend or are at most 128, or if it is updatable and has 1
/// to 128 coupons. Coupons that don't ascend are sorted into `room`.
fn ordered_image<'a>(bytes: &'a [u8], room: &'a mut CouponRoom) -> Option<OrderedImage<'a>>
    ensures ordered { IfSome result IsOrdered }
    ensures some { IfSome result (IsOrderedImage bytes.now) }
    ensures width { IfSome result (λ a. (x : Sketch) → IsReadAs bytes.now x → x.width ≡ a.hll_type) }
    ensures none { IfNone result (HasEvidentCoupons bytes.now → ⊥) }
{
    let Ok(header) = Header::read(bytes) else {
        return None;
    };
    let raw_coupons = coupons_in_order(bytes, header, room)?;
    Some(OrderedImage {
        lg_k: header.lg_k,
        hll_type: header.hll_type,
        lg_size: header.lg_arr,
        raw_coupons,
    })
}

/// Returns the image of coupons in this order, four bytes each, whose table has 2^`lg_size` buckets.
///
/// Allocates once. Fails with `Memory`.
pub fn coupon_image<A: Allocator>(
    alloc: A,
    lg_k: u8,
    hll_type: HllType,
    lg_size: u8,
    coupons: &[u8],
) -> Result<Vec<u8, A>, Error>
    requires lg_k { IsLgK lg_k }
    requires table { (order : List ℕ) × (coupons.now ≡ coupon_bytes order) × IsTableFor lg_k (length order) lg_size }
    ensures ok { IfOk result (λ image. (order : List ℕ) → coupons.now ≡ coupon_bytes order → image.items ≡ written.coupon_image lg_k hll_type lg_size order) }
    ensures err { IfErr result (λ e. e ≡ Memory) }
{
    if lg_size == LG_LIST_BUCKETS {
        list_image(alloc, lg_k, hll_type, coupons)
    } else {
        set_image(alloc, lg_k, hll_type, lg_size, coupons)
    }
}
