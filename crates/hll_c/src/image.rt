// SPDX-License-Identifier: Apache-2.0
//! The calls over images.
ghost use Rattle.std.specs.Prelude.{◌≡◌, ◌≢◌, ◌≤◌, ◌⊎◌, ◌↔◌, ◌∷◌, [], min, length, map, IsTrue, IfSome, IfNone, IfOk, IfErr, OnOk, OnErr};
ghost use Rattle.hll_base.specs.declared.error.Reason.TheVariants as reasons;
ghost use Rattle.hll_coupons.specs.Hashed.{coupon_of_bytes};
ghost use Rattle.hll_coupons.specs.Pair.{set_of, value_of};
ghost use Rattle.hll_sketch.specs.Adding.{add};
ghost use Rattle.hll_images.specs.BorrowedRegisters.{lg_k_of, values_of, width_of, width_in, AreWhole};
ghost use Rattle.hll_sketch.specs.ByteRegisters.{AreRegistersOf};
ghost use Rattle.hll_images.specs.CouponImages.{IsImageWith};
ghost use Rattle.hll_sketch.specs.EstimatorFields.{SetsFields};
ghost use Rattle.hll_sketch.specs.Image.{IsReadAs, IsSizeOfImage, stage_bits, width_bits, width_of_bits};
ghost use Rattle.hll_sketch.specs.Laws.{add_in_turn};
ghost use Rattle.hll_sketch.specs.Layout.{sketch_of};
ghost use Rattle.hll_images.specs.RegisterImages.{IsFilledImageWith, IsPlainImage};
ghost use Rattle.hll_sketch.specs.MergedIn.{HasPlainRegisters};
ghost use Rattle.hll_sketch.specs.Value.{Sketch, IsLgK};
ghost use Rattle.hll_c.specs.Answers.{IsImageOf, WithFields, RefusesArguments, RefusesImage, RefusesTested, RefusesWith, RefusesImages, ArePlainAlike};
ghost use Rattle.hll_c.specs.Calls.{bit, AreNewArguments, IsEmptyAt, IsMadeOf, IsFoldOf, RefusesFold, HasWidth, IsAtWidth, AsksWidth, AsksOwnWidth, IsCleared, AreOfCoupon, HasCoupon, HasValues, SaysAgreement};
ghost use Rattle.hll_c.specs.Steps.{IsRefusedAt};
ghost use Rattle.hll_c.specs.BytesOrParts.{bytes_of};

use crate::answer::{BytesOrParts, image_with_fields};
use crate::arguments::{asked_width, lg_k_of_number, width_of};
use crate::coupons::{CouponsOf, put_each};
use crate::state::image_of_registers;
use crate::strings::Strings;
use hll_base::bounds::{MAX_VALUE, SLOT_BITS};
use hll_base::error::{Error, Reason};
use hll_base::hll_type::HllType;
use hll_coupons::coupon::Coupon;
use hll_coupons::serialization::{TGT_HLL4, TGT_HLL6, extract_tgt_hll_type};
use hll_images::borrowed_registers::BorrowedRegisters;
use hll_images::coupon_images::coupon_image_with;
use hll_images::{
    coupon_image_at, folded_coupon_image, folded_coupon_registers, register_image_at,
    register_image_with,
};
use hll_registers::estimate_state::EstimateState;
use hll_registers::image_parts::ImageParts;
use hll_sketch::HllSketch;
use hll_sketch::header::says_registers;
use hll_sketch::image_head::size_of_image;
use std::alloc::Global;

/// The number of byte strings whose coupons are computed before they are added to a sketch.
const BLOCK: usize = 128;

/// The number of byte strings whose coupons are computed to see whether registers hold them. They are computed again if not.
const FEW: usize = 16;

/// The index of the byte of an image that has the stage and the width.
const MODE_BYTE: usize = 7;

/// Reads the registers of the image with this number. If the image fails a check, `failed` becomes its number.
fn read_registers<'a>(
    alloc: Global,
    image: &'a [u8],
    number: usize,
    failed: &mut usize,
) -> Result<BorrowedRegisters<'a>, Error>
    ensures ok { IfOk result (λ r. AreRegistersOf image.now (lg_k_of r) (values_of r) × AreWhole r × (failed.new ≡ failed.old)) }
    ensures width { IfOk result (λ r. width_of r ≡ width_in image.now) }
    ensures err { IfErr result (λ e. IsRefusedAt image.now number failed.old failed.new e) }
    ensures plain { IfErr result (λ e. e ≡ reasons.Memory → HasPlainRegisters image.now → ⊥) }
{
    match BorrowedRegisters::read(alloc, image) {
        Ok(registers) => Ok(registers),
        Err(e) => Err(refused_at(e, number, failed)),
    }
}

/// Checks the image with this number. If it fails a check, `failed` becomes its number.
fn check_at(alloc: Global, image: &[u8], number: usize, failed: &mut usize) -> Result<(), Error>
    ensures ok { OnOk result (((x : Sketch) × IsReadAs image.now x) × (failed.new ≡ failed.old)) }
    ensures err { IfErr result (λ e. IsRefusedAt image.now number failed.old failed.new e) }
    ensures plain { IfErr result (λ e. e ≡ reasons.Memory → HasPlainRegisters image.now → ⊥) }
{
    match HllSketch::check(alloc, image) {
        Ok(()) => Ok(()),
        Err(e) => Err(refused_at(e, number, failed)),
    }
}

/// Returns the error. Unless it is `Memory`, it is an error of the image with this number, and `failed` becomes that number.
pub(crate) fn refused_at(e: Error, number: usize, failed: &mut usize) -> Error
    ensures same { result ≡ e }
    ensures reported { ((e ≡ reasons.Memory) × (failed.new ≡ failed.old)) ⊎ ((e ≢ reasons.Memory) × (failed.new ≡ number)) }
{
    if e.reason() != Reason::Memory {
        *failed = number;
    }
    e
}

/// Checks whether the bytes begin with an image.
pub(crate) fn check(alloc: Global, image: &[u8]) -> Result<(), Error>
    ensures ok { OnOk result ((x : Sketch) × IsReadAs image.now x) }
    ensures err { IfErr result (λ e. RefusesTested image.now e) }
{
    HllSketch::check(alloc, image)
}

/// Returns an empty sketch. Fails with `Argument` if `lg_k` or `width` is out of range, or with `Memory`.
pub(crate) fn empty(alloc: Global, lg_k: u32, width: u32) -> Result<HllSketch, Error>
    ensures ok { IfOk result (λ s. IsEmptyAt lg_k width (sketch_of s)) }
    ensures err { IfErr result (λ e. RefusesArguments (AreNewArguments lg_k width) e) }
{
    let lg_k = lg_k_of_number(lg_k)?;
    HllSketch::new(alloc, lg_k, width_of(width)?)
}

/// Returns the image with one more coupon, with its estimator fields set if its estimate state is cleared.
pub(crate) fn with_coupon(
    alloc: Global,
    image: &[u8],
    slot: u32,
    value: u32,
) -> Result<BytesOrParts<'_>, Error>
    ensures ok { IfOk result (λ written. IsImageOf (WithFields (IsMadeOf image.now (HasCoupon slot value))) (bytes_of written)) }
    ensures err { IfErr result (λ e. RefusesWith (AreOfCoupon slot value) image.now e) }
    ensures memory { IfErr result (λ e. e ≡ reasons.Memory → IsPlainImage image.now → Unit {0} → ⊥) }
{
    if !are_of_coupon(slot, value) {
        return Err(Error::new(Reason::Argument));
    }
    let coupon = Coupon::pack(slot, value as u8);
    if let Some(written) = coupon_image_with(alloc, image, &mut [coupon.raw()])? {
        return Ok(BytesOrParts::Bytes(written));
    }
    if let Some(parts) = register_image_with(&alloc, image, &[coupon.raw()]) {
        return Ok(BytesOrParts::Parts(parts));
    }
    let sketch = sketch_with_coupon(alloc, image, coupon)?;
    Ok(BytesOrParts::Bytes(image_with_fields(sketch)?))
}

/// Returns the sketch of the image with one more coupon.
fn sketch_with_coupon(alloc: Global, image: &[u8], coupon: Coupon) -> Result<HllSketch, Error>
    requires { 1 ≤ value_of coupon }
    ensures ok { IfOk result (λ s. IsMadeOf image.now (λ x y. y ≡ add x (set_of (coupon ∷ []))) (sketch_of s)) }
    ensures err { IfErr result (λ e. RefusesImage image.now e) }
{
    let mut sketch = HllSketch::deserialize(alloc, image)?;
    sketch.update_with_coupon(coupon)?;
    Ok(sketch)
}

/// Returns whether a coupon may have this slot and value.
fn are_of_coupon(slot: u32, value: u32) -> bool
    ensures { IsTrue result ↔ AreOfCoupon slot value }
{
    slot < 1 << SLOT_BITS && 0 < value && value <= u32::from(MAX_VALUE)
}

/// Returns the image with the coupons of byte strings, with its estimator fields set if its estimate state is cleared.
pub(crate) fn with_values<'a, S: Strings>(
    alloc: Global,
    image: &'a [u8],
    values: &S,
) -> Result<BytesOrParts<'a>, Error>
    ensures ok { IfOk result (λ written. IsImageOf (WithFields (IsMadeOf image.now (HasValues (S.Strings.are values.now) (S.Strings.strings values.now)))) (bytes_of written)) }
    ensures err { IfErr result (λ e. RefusesWith (S.Strings.are values.now) image.now e) }
    ensures memory { IfErr result (λ e. e ≡ reasons.Memory → IsPlainImage image.now → length (S.Strings.strings values.now) ≤ 1 → ⊥) }
{
    if !values.are_delimited() {
        return Err(Error::new(Reason::Argument));
    }
    if let Some(written) = coupon_image_with_values(alloc, image, values)? {
        return Ok(BytesOrParts::Bytes(written));
    }
    if let Some(parts) = register_image_with_values(alloc, image, values) {
        return Ok(BytesOrParts::Parts(parts));
    }
    let sketch = sketch_with_values(alloc, image, values)?;
    Ok(BytesOrParts::Bytes(image_with_fields(sketch)?))
}

/// Returns an image of registers with the coupons of at most `FEW` byte strings, if its registers hold them all or there is one.
/// Returns `None` for more strings, or if `register_image_with` returns `None`.
fn register_image_with_values<'a, S: Strings>(
    alloc: Global,
    image: &'a [u8],
    values: &S,
) -> Option<ImageParts<'a>>
    requires { S.Strings.are values.now }
    ensures some { IfSome result (λ written. IsFilledImageWith (map coupon_of_bytes (S.Strings.strings values.now)) image.now written) }
    ensures none { IfNone result (IsPlainImage image.now → length (S.Strings.strings values.now) ≤ 1 → ⊥) }
{
    let count = values.count();
    if FEW < count {
        return None;
    }
    let mut raw_coupons = [0; FEW];
    let raw_coupons = &mut raw_coupons[..count];
    put_each(&CouponsOf { strings: values }, 0, raw_coupons);
    register_image_with(&alloc, image, raw_coupons)
}

/// Returns an image of coupons with the coupons of 1 to `BLOCK` byte strings, without making a table. Returns `None` for
/// another number of strings, for a register image, or if `coupon_image_with` returns `None`.
// (not inlined: a caller that had the room among its own values would clear it for registers too)
#[inline(never)]
fn coupon_image_with_values<S: Strings>(
    alloc: Global,
    image: &[u8],
    values: &S,
) -> Result<Option<Vec<u8>>, Error>
    requires { S.Strings.are values.now }
    ensures some { IfOk result (λ found. IfSome found (λ written. IsImageWith (map coupon_of_bytes (S.Strings.strings values.now)) image.now written.items)) }
    ensures read { OnErr result ((x : Sketch) × IsReadAs image.now x) }
    ensures coupons { OnErr result (stage_bits image.now ≡ 2 → ⊥) }
    ensures err { IfErr result (λ e. e ≡ reasons.Memory) }
{
    let count = values.count();
    if count == 0 || BLOCK < count || says_registers(image) {
        return Ok(None);
    }
    let mut raw_coupons = [0; BLOCK];
    let raw_coupons = &mut raw_coupons[..count];
    put_each(&CouponsOf { strings: values }, 0, raw_coupons);
    coupon_image_with(alloc, image, raw_coupons)
}

/// Returns the sketch of the image with the coupons of byte strings.
fn sketch_with_values<S: Strings>(
    alloc: Global,
    image: &[u8],
    values: &S,
) -> Result<HllSketch, Error>
    requires { S.Strings.are values.now }
    ensures ok { IfOk result (λ s. IsMadeOf image.now (HasValues (S.Strings.are values.now) (S.Strings.strings values.now)) (sketch_of s)) }
    ensures err { IfErr result (λ e. RefusesWith (S.Strings.are values.now) image.now e) }
{
    let mut sketch = HllSketch::deserialize(alloc, image)?;
    add_values(&mut sketch, values)?;
    Ok(sketch)
}

/// Adds the coupons of byte strings in turn.
fn add_values<S: Strings>(sketch: &mut HllSketch, values: &S) -> Result<(), Error>
    requires { S.Strings.are values.now }
    ensures ok { OnOk result (sketch_of sketch.new ≡ add_in_turn (sketch_of sketch.old) (map coupon_of_bytes (S.Strings.strings values.now))) }
    ensures err { IfErr result (λ e. e ≡ reasons.Memory) }
{
    let coupons = CouponsOf { strings: values };
    let count = values.count();
    let mut raw_coupons = [0; BLOCK];
    let mut first = 0;
    while first < count {
        let size = (count - first).min(BLOCK);
        let block = &mut raw_coupons[..size];
        put_each(&coupons, first, block);
        sketch.update_with_raw_coupons(block)?;
        first += size;
    }
    Ok(())
}

/// Returns the image folded to an `lg_k`, with its estimator fields set if its estimate state is cleared.
pub(crate) fn folded(alloc: Global, image: &[u8], lg_k: u32) -> Result<Vec<u8>, Error>
    ensures ok { IfOk result (λ written. IsImageOf (WithFields (IsMadeOf image.now (IsFoldOf lg_k))) written.items) }
    ensures err { IfErr result (λ e. RefusesFold lg_k image.now e) }
{
    let target = lg_k_of_number(lg_k)?;
    if let Some(written) = folded_coupons(alloc, image, target)? {
        return Ok(written);
    }
    image_with_fields(folded_sketch(alloc, image, target)?)
}

/// Returns an image of coupons folded to an `lg_k`, without making a table. Returns `None` for images of registers, and if neither
/// `folded_coupon_image` nor `folded_coupon_registers` does it.
fn folded_coupons(alloc: Global, image: &[u8], lg_k: u8) -> Result<Option<Vec<u8>>, Error>
    requires { IsLgK lg_k }
    ensures some { IfOk result (λ found. IfSome found (λ written. IsImageOf (WithFields (IsMadeOf image.now (IsFoldOf lg_k))) written.items)) }
    ensures read { OnErr result ((x : Sketch) × IsReadAs image.now x) }
    ensures err { IfErr result (λ e. e ≡ reasons.Memory) }
{
    if says_registers(image) {
        return Ok(None);
    }
    if let Some(written) = folded_coupon_image(alloc, lg_k, image)? {
        return Ok(Some(written));
    }
    folded_to_registers(alloc, image, lg_k)
}

/// Returns the image folded to an `lg_k` at which its coupons become registers, without making a table. Returns `None` if
/// `folded_coupon_registers` does.
fn folded_to_registers(alloc: Global, image: &[u8], lg_k: u8) -> Result<Option<Vec<u8>>, Error>
    requires { IsLgK lg_k }
    ensures some { IfOk result (λ found. IfSome found (λ written. IsImageOf (WithFields (IsMadeOf image.now (IsFoldOf lg_k))) written.items)) }
    ensures read { OnErr result ((x : Sketch) × IsReadAs image.now x) }
    ensures err { IfErr result (λ e. e ≡ reasons.Memory) }
{
    let Some(folded) = folded_coupon_registers(alloc, lg_k, image)? else {
        return Ok(None);
    };
    let cleared = EstimateState::CLEARED;
    let written = image_of_registers(alloc, lg_k, folded.hll_type, &folded.values, cleared)?;
    Ok(Some(written))
}

/// Returns the sketch of the image, folded to an `lg_k`.
fn folded_sketch(alloc: Global, image: &[u8], lg_k: u8) -> Result<HllSketch, Error>
    requires { IsLgK lg_k }
    ensures ok { IfOk result (λ s. IsMadeOf image.now (IsFoldOf lg_k) (sketch_of s)) }
    ensures err { IfErr result (λ e. RefusesFold lg_k image.now e) }
{
    HllSketch::deserialize(alloc, image)?.folded(lg_k)
}

/// Returns the image at the width that a number asks for. 0 asks for the image's own width.
pub(crate) fn converted(alloc: Global, image: &[u8], width: u32) -> Result<BytesOrParts<'_>, Error>
    ensures ok { IfOk result (λ written. IsImageOf (WithFields (IsMadeOf image.now (IsAtWidth width))) (bytes_of written)) }
    ensures err { IfErr result (λ e. RefusesWith (AsksWidth width) image.now e) }
    ensures memory { IfErr result (λ e. e ≡ reasons.Memory → IsPlainImage image.now → AsksOwnWidth width image.now → ⊥) }
{
    let hll_type = asked_width(width, width_in_header(image))?;
    if let Some(written) = coupon_image_at(alloc, hll_type, image)? {
        return Ok(BytesOrParts::Bytes(written));
    }
    if let Some(parts) = register_image_at(&alloc, hll_type, image)? {
        return Ok(BytesOrParts::Parts(parts));
    }
    let sketch = sketch_at(alloc, image, hll_type)?;
    Ok(BytesOrParts::Bytes(image_with_fields(sketch)?))
}

/// Returns the sketch of the image at a width.
fn sketch_at(alloc: Global, image: &[u8], width: HllType) -> Result<HllSketch, Error>
    ensures ok { IfOk result (λ s. IsMadeOf image.now (HasWidth width) (sketch_of s)) }
    ensures err { IfErr result (λ e. RefusesImage image.now e) }
{
    HllSketch::deserialize(alloc, image)?.into_width(width)
}

/// Returns the width in the header of an image. For bytes that are not an image it is the width that their mode byte says, or 4
/// bits if they have no mode byte.
fn width_in_header(image: &[u8]) -> HllType
    ensures { result ≡ width_of_bits (width_bits image.now) }
{
    if image.len() <= MODE_BYTE {
        return HllType::Hll4;
    }
    match extract_tgt_hll_type(image[MODE_BYTE]) {
        TGT_HLL4 => HllType::Hll4,
        TGT_HLL6 => HllType::Hll6,
        _ => HllType::Hll8,
    }
}

/// Returns the image with its estimator fields set.
pub(crate) fn with_estimator_fields(alloc: Global, image: &[u8]) -> Result<Vec<u8>, Error>
    ensures ok { IfOk result (λ written. IsImageOf (WithFields (IsMadeOf image.now SetsFields)) written.items) }
    ensures err { IfErr result (λ e. RefusesImage image.now e) }
{
    if let Some(written) = coupon_image_at(alloc, width_in_header(image), image)? {
        return Ok(written);
    }
    let mut sketch = HllSketch::deserialize(alloc, image)?;
    sketch.set_estimator_fields();
    image_with_fields(sketch)
}

/// Returns the image with its estimate state cleared.
pub(crate) fn without_estimator_fields(alloc: Global, image: &[u8]) -> Result<Vec<u8>, Error>
    ensures ok { IfOk result (λ written. IsImageOf (IsMadeOf image.now IsCleared) written.items) }
    ensures err { IfErr result (λ e. RefusesImage image.now e) }
{
    if let Some(written) = coupon_image_at(alloc, width_in_header(image), image)? {
        return Ok(written);
    }
    let mut sketch = HllSketch::deserialize(alloc, image)?;
    sketch.clear_estimator_fields();
    sketch.serialize()
}

/// Returns the size in bytes of the image that the bytes begin with.
pub(crate) fn size(alloc: Global, image: &[u8]) -> Result<usize, Error>
    ensures ok { IfOk result (IsSizeOfImage image.now) }
    ensures err { IfErr result (λ e. RefusesTested image.now e) }
{
    check(alloc, image)?;
    Ok(size_of_image(image))
}

/// Returns 1 if two images fold to the same registers at the smaller `lg_k` of both, else 0.
pub(crate) fn agree(
    alloc: Global,
    left: &[u8],
    right: &[u8],
    failed: &mut usize,
) -> Result<u8, Error>
    ensures ok { IfOk result (λ same. SaysAgreement left.now right.now failed.old failed.new same) }
    ensures err { IfErr result (λ e. RefusesImages (Unit {0}) (left.now ∷ right.now ∷ []) failed.old failed.new e) }
    ensures plain { IfErr result (λ e. e ≡ reasons.Memory → ArePlainAlike left.now right.now → ⊥) }
{
    // equal bytes are read as the same sketch
    if left == right {
        check_at(alloc, left, 0, failed)?;
        return Ok(1);
    }
    let left = read_registers(alloc, left, 0, failed)?;
    let right = read_registers(alloc, right, 1, failed)?;
    Ok(u8::from(left.agrees_with(&alloc, right)?))
}
