// SPDX-License-Identifier: Apache-2.0
//! Makes images of registers from images of registers of the same width, without making a sketch: the registers are copied once,
//! by the caller.
ghost use Rattle.std.specs.Prelude.{◌≡◌, ◌≢◌, ◌/◌, ◌^◌, ◌<◌, ◌≤◌, fold, slice_index, slice_set, length, true, Some, None, IfSome, IfNone, IfOk, IfErr};
ghost use Rattle.hll_base.specs.declared.error.Reason.TheVariants.{Memory};
ghost use Rattle.hll_base.specs.declared.hll_type.HllType.TheVariants.{Hll4};
ghost use Rattle.hll_registers.specs.State.{cleared_state};
ghost use Rattle.hll_registers.specs.Store.{update_with_coupon};
ghost use Rattle.hll_sketch.specs.Checks.{first_fault};
ghost use Rattle.hll_sketch.specs.Header.{header_of};
ghost use Rattle.hll_sketch.specs.Image.{stage_bits, width_bits, width_of_bits, HasHeader};
ghost use Rattle.hll_images.specs.RegisterImages.{FillsState, IsFilledImageOf, IsFilledImageWith, IsPlainImage};

use hll_arrays::registers::{Registers, two_to};
use hll_base::bounds::SLOT_BITS;
use hll_base::error::{Error, Reason};
use hll_base::hll_type::HllType;
use hll_coupons::raw_coupons::{ascends, elements_of_raw_coupons};
use hll_coupons::serialization::{COUPON_SIZE_BYTES, HLL_PREAMBLE_SIZE};
use hll_registers::estimate_state::EstimateState;
use hll_registers::image_parts::ImageParts;
use hll_registers::registers::Use;
use hll_sketch::header::{Header, Stage};
use hll_sketch::raw_registers::{eight_bit_registers, four_bit_registers, six_bit_registers};
use std::alloc::Allocator;

/// The place of the number of exceptions in an image of registers.
const EXCEPTION_COUNT: usize = HLL_PREAMBLE_SIZE - 4;

/// The greatest number of exceptions that are searched for in their map, one after the other. If there are more, an image can have
/// them all on one path of the map, and then the searches take quadratic time.
const MOST_EXCEPTIONS: usize = 128;

/// Returns the image, at a width, of an image that has registers of that width: with their estimate state, or with the estimator
/// fields set if that is cleared. Returns `None` if the image has coupons or registers of another width. It also returns `None`
/// for 4-bit registers if an allocation fails, or if they are not as this library writes them: with the least register as the
/// minimum, and at most `MOST_EXCEPTIONS`, in ascending order.
///
/// Fails with the reason of the first check that the bytes fail (docs/FORMAT.md, "Order of checks"), unless it returns `None`.
/// Allocates a map for the exceptions of 4-bit registers, if there are any, and else nothing.
pub fn register_image_at<'a, A: Allocator + Clone>(
    alloc: &A,
    hll_type: HllType,
    bytes: &'a [u8],
) -> Result<Option<ImageParts<'a>>, Error>
    ensures some { IfOk result (λ found. IfSome found (λ image. IsFilledImageOf hll_type bytes.now image)) }
    ensures none { IfOk result (λ found. IfNone found (stage_bits bytes.now ≡ 2 → width_of_bits (width_bits bytes.now) ≡ hll_type → hll_type ≡ Hll4)) }
    ensures err { IfErr result (λ e. first_fault bytes.now ≡ Some e) }
    ensures memory { IfErr result (λ e. e ≢ Memory) }
{
    let header = Header::read(bytes)?;
    match (header.stage, header.hll_type, hll_type) {
        (Stage::Hll, HllType::Hll4, HllType::Hll4) => four_bits_at(alloc, bytes, header),
        (Stage::Hll, HllType::Hll6, HllType::Hll6) => {
            let source = six_bit_registers(bytes, header)?;
            Ok(Some(source.image_parts(filled_state(&source))))
        }
        (Stage::Hll, HllType::Hll8, HllType::Hll8) => {
            let source = eight_bit_registers(bytes, header, Use::Copy)?;
            Ok(Some(source.image_parts(filled_state(&source))))
        }
        _ => Ok(None),
    }
}

/// Returns the image of registers with coupons added, if the registers hold all of them, so that none changes a register, or if
/// there is one coupon. Returns `None` if one of several coupons changes a register, for images of coupons, and for bytes that
/// are not an image; and for 4-bit registers, if they are not as this library writes them or have more than `MOST_EXCEPTIONS`, if
/// the register or the coupon is an exception, if the minimum rises, or if an allocation fails.
///
/// Allocates a map for the exceptions of 4-bit registers, if there are any, and else nothing.
pub fn register_image_with<'a, A: Allocator + Clone>(
    alloc: &A,
    bytes: &'a [u8],
    raw_coupons: &[u32],
) -> Option<ImageParts<'a>>
    ensures some { IfSome result (λ image. IsFilledImageWith raw_coupons.now bytes.now image) }
    ensures none { IfNone result (IsPlainImage bytes.now → length raw_coupons.now ≤ 1 → ⊥) }
{
    let Ok(header) = Header::read(bytes) else {
        return None;
    };
    match (header.stage, header.hll_type) {
        (Stage::Hll, HllType::Hll4) => four_bits_with(alloc, bytes, header, raw_coupons),
        (Stage::Hll, HllType::Hll6) => six_bits_with(bytes, header, raw_coupons),
        (Stage::Hll, HllType::Hll8) => eight_bits_with(bytes, header, raw_coupons),
        _ => None,
    }
}

/// Does what `register_image_at` does, for an image of 4-bit registers whose header has been read, at 4 bits.
fn four_bits_at<'a, A: Allocator + Clone>(
    alloc: &A,
    bytes: &'a [u8],
    header: Header,
) -> Result<Option<ImageParts<'a>>, Error>
    requires has { HasHeader bytes.now 2 }
    requires width { width_bits bytes.now ≡ 0 }
    requires header { header ≡ header_of bytes.now }
    ensures some { IfOk result (λ found. IfSome found (λ image. IsFilledImageOf Hll4 bytes.now image)) }
    ensures err { IfErr result (λ e. (e ≢ Memory) × (first_fault bytes.now ≡ Some e)) }
{
    let Some(exceptions) = ascending_exceptions(bytes, header) else {
        return Ok(None);
    };
    match four_bit_registers(alloc, bytes, header, Use::Copy) {
        Ok(source) => Ok(source.image_parts(exceptions, filled_state(&source))),
        Err(e) if e.reason() != Reason::Memory => Err(e),
        Err(_) => Ok(None),
    }
}

/// Does what `register_image_with` does, for an image of 4-bit registers whose header has been read.
fn four_bits_with<'a, A: Allocator + Clone>(
    alloc: &A,
    bytes: &'a [u8],
    header: Header,
    raw_coupons: &[u32],
) -> Option<ImageParts<'a>>
    requires has { HasHeader bytes.now 2 }
    requires width { width_bits bytes.now ≡ 0 }
    requires header { header ≡ header_of bytes.now }
    ensures { IfSome result (λ image. IsFilledImageWith raw_coupons.now bytes.now image) }
{
    let exceptions = ascending_exceptions(bytes, header)?;
    let Ok(source) = four_bit_registers(alloc, bytes, header, Use::Copy) else {
        return None;
    };
    if hold_all(&source, raw_coupons) {
        return source.image_parts(exceptions, filled_state(&source));
    }
    let [raw_coupon] = raw_coupons else {
        return None;
    };
    match raised_slot(&source, *raw_coupon) {
        Some(slot) => source.raised_parts(exceptions, slot, (*raw_coupon >> SLOT_BITS) as u8),
        None => None,
    }
}

/// Returns the bytes after the nibbles of an image of 4-bit registers, if the image is compact or has no exceptions, and these
/// bytes begin with as many ascending raw coupons as it says it has exceptions, at most `MOST_EXCEPTIONS`. So images with other
/// exceptions are read once, as a sketch.
fn ascending_exceptions(bytes: &[u8], header: Header) -> Option<&[u8]>
    requires header { header ≡ header_of bytes.now }
    requires has { HasHeader bytes.now 2 }
{
    let count = u32::from_le_bytes(*bytes.get(EXCEPTION_COUNT..)?.first_chunk::<4>()?) as usize;
    let exceptions = bytes.get(HLL_PREAMBLE_SIZE + two_to(header.lg_k - 1)..)?;
    if !(header.compact | (count == 0)) || MOST_EXCEPTIONS < count {
        return None;
    }
    if exceptions.len() / COUPON_SIZE_BYTES < count {
        return None;
    }
    if !ascends(elements_of_raw_coupons(exceptions, count)) {
        return None;
    }
    Some(exceptions)
}

/// Does what `register_image_with` does, for an image of 8-bit registers whose header has been read.
fn eight_bits_with<'a>(
    bytes: &'a [u8],
    header: Header,
    raw_coupons: &[u32],
) -> Option<ImageParts<'a>>
    requires has { HasHeader bytes.now 2 }
    requires width { width_bits bytes.now ≡ 2 }
    requires header { header ≡ header_of bytes.now }
    ensures some { IfSome result (λ image. IsFilledImageWith raw_coupons.now bytes.now image) }
    ensures none { IfNone result (first_fault bytes.now ≡ None → length raw_coupons.now ≤ 1 → ⊥) }
{
    let Ok(source) = eight_bit_registers(bytes, header, Use::Copy) else {
        return None;
    };
    if raw_coupons.len() == 1 {
        let raw_coupon = raw_coupons[0];
        return Some(match raised_slot(&source, raw_coupon) {
            Some(slot) => source.raised_parts(slot, (raw_coupon >> SLOT_BITS) as u8),
            None => source.image_parts(filled_state(&source)),
        });
    }
    if hold_all(&source, raw_coupons) {
        Some(source.image_parts(filled_state(&source)))
    } else {
        None
    }
}

/// Does what `register_image_with` does, for an image of 6-bit registers whose header has been read.
fn six_bits_with<'a>(bytes: &'a [u8], header: Header, raw_coupons: &[u32]) -> Option<ImageParts<'a>>
    requires has { HasHeader bytes.now 2 }
    requires width { width_bits bytes.now ≡ 1 }
    requires header { header ≡ header_of bytes.now }
    ensures some { IfSome result (λ image. IsFilledImageWith raw_coupons.now bytes.now image) }
    ensures none { IfNone result (first_fault bytes.now ≡ None → length raw_coupons.now ≤ 1 → ⊥) }
{
    let Ok(source) = six_bit_registers(bytes, header) else {
        return None;
    };
    if raw_coupons.len() == 1 {
        let raw_coupon = raw_coupons[0];
        return Some(match raised_slot(&source, raw_coupon) {
            Some(slot) => source.raised_parts(slot, (raw_coupon >> SLOT_BITS) as u8),
            None => source.image_parts(filled_state(&source)),
        });
    }
    if hold_all(&source, raw_coupons) {
        Some(source.image_parts(filled_state(&source)))
    } else {
        None
    }
}

/// Returns whether registers hold all coupons: whether adding them changes nothing.
fn hold_all<R: Registers>(source: &R, raw_coupons: &[u32]) -> bool
    ensures held { let x = R.stored source.now in result ≡ true → fold update_with_coupon x raw_coupons.now ≡ x }
    ensures none { length raw_coupons.now ≡ 0 → result ≡ true }
{
    for raw_coupon in raw_coupons {
        if raised_slot(source, *raw_coupon).is_some() {
            return false;
        }
    }
    true
}

/// Returns the slot of a coupon, if its value is greater than the register there.
fn raised_slot<R: Registers>(source: &R, raw_coupon: u32) -> Option<usize>
    ensures none { let x = R.stored source.now in IfNone result (update_with_coupon x raw_coupon ≡ x) }
    ensures some { let x = R.stored source.now in IfSome result (λ slot. update_with_coupon x raw_coupon ≡ record { lg_k = x.lg_k; registers = slice_set x.registers slot (raw_coupon / 2 ^ 26); state = cleared_state }) }
    ensures slot { let x = R.stored source.now in IfSome result (λ slot. slot < 2 ^ x.lg_k) }
    ensures greater { let x = R.stored source.now in IfSome result (λ slot. slice_index x.registers slot < raw_coupon / 2 ^ 26) }
{
    let slot = raw_coupon as usize % two_to(source.lg_k());
    if source.get(slot as u32) < (raw_coupon >> SLOT_BITS) as u8 {
        Some(slot)
    } else {
        None
    }
}

/// Returns the estimate state of registers, or, if that is cleared, the state with the estimator fields of the registers.
fn filled_state<R: Registers>(source: &R) -> EstimateState
    ensures { FillsState (R.stored source.now) result }
{
    let state = source.estimate_state();
    if state == EstimateState::CLEARED {
        source.estimator_fields()
    } else {
        state
    }
}
