// SPDX-License-Identifier: Apache-2.0
//! Makes images of registers from their parts, and compares them with the sketches that these are read as.
ghost use Rattle.std.specs.Prelude.{◌≤◌};

use crate::fixtures::{WIDTHS, filled};
use hll_base::error::Error;
use hll_base::hll_type::HllType;
use hll_coupons::coupon::Coupon;
use hll_images::{register_image_at, register_image_with};
use hll_registers::image_parts::ImageParts;
use hll_sketch::HllSketch;
use std::alloc::Global;
use std::test::Fail;

/// A byte that no image ends in.
const AFTER: u8 = 170;

/// Returns the image of 64 registers of which the first `count` are 1 to 20, in turn. Its estimate state is that of its registers,
/// or cleared.
fn registers(
    alloc: Global,
    hll_type: HllType,
    count: u32,
    has_fields: bool,
) -> Result<Vec<u8>, Error> {
    let mut sketch = filled(alloc, 6, hll_type, count, 20)?;
    if has_fields {
        sketch.set_estimator_fields();
    }
    sketch.serialize()
}

/// Writes parts, and returns what was written. Returns no bytes if a byte after them changed.
fn written(alloc: Global, parts: &ImageParts<'_>) -> Result<Vec<u8>, Error> {
    let size = parts.len();
    let mut out = Vec::new(alloc);
    out.resize(size.saturating_add(3), AFTER)?;
    if size <= out.len() {
        parts.put(&mut out);
    }
    if !out[size.min(out.len())..].iter().all(|byte| *byte == AFTER) {
        return Ok(Vec::new(alloc));
    }
    out.truncate(size);
    Ok(out)
}

/// Returns the image of a sketch, with its estimator fields set if its estimate state is cleared.
fn filled_image(mut sketch: HllSketch) -> Result<Vec<u8>, Error> {
    sketch.fill_estimator_fields();
    sketch.serialize()
}

/// Returns whether an image of `registers`, at 4 bits, has parts with one more coupon: if the registers hold it, or if it is no
/// exception and a register stays at the minimum.
fn has_parts(count: u32, slot: u32, value: u8) -> bool {
    let slot = slot % 64;
    let (minimum, low_count) = if count == 64 {
        (1, 4)
    } else {
        (0, 64u32.saturating_sub(count))
    };
    let register = if slot < count {
        1 + (slot % 20) as u8
    } else {
        0
    };
    value <= register || value < minimum + 15 && (minimum < register || 1 < low_count)
}

/// Returns whether an image with one more coupon is made of parts, if that is wanted, and then equals that of its sketch.
fn one_more_is_right(
    alloc: Global,
    image: &[u8],
    slot: u32,
    value: u8,
    wanted: bool,
) -> Result<bool, Error>
    requires least { 1 ≤ value }
    requires most { value ≤ 63 }
{
    let coupon = Coupon::pack(slot, value);
    let mut sketch = HllSketch::deserialize(alloc, image)?;
    sketch.update_with_coupon(coupon)?;
    match register_image_with(&alloc, image, &[coupon.raw()]) {
        Some(parts) => Ok(wanted && written(alloc, &parts)? == filled_image(sketch)?),
        None => Ok(!wanted),
    }
}

/// Returns a slot and a value for which the image of `registers` with this coupon is wrong: of the slots of a group, of one with
/// an exception, and of the last ones.
fn first_wrong(
    alloc: Global,
    hll_type: HllType,
    count: u32,
    has_fields: bool,
) -> Result<Option<(u32, u8)>, Error> {
    let image = registers(alloc, hll_type, count, has_fields)?;
    for slot in [0, 1, 2, 3, 4, 18, 61, 62, 63, 67] {
        for value in 1..64 {
            let wanted = hll_type != HllType::Hll4 || has_parts(count, slot, value);
            if !one_more_is_right(alloc, &image, slot, value, wanted)? {
                return Ok(Some((slot, value)));
            }
        }
    }
    Ok(None)
}

/// One coupon, that registers hold or that changes one of them.
#[test]
fn one_coupon(rt: HostRuntime) -> Result<(), Fail> {
    for hll_type in WIDTHS {
        for has_fields in [false, true] {
            for count in [25, 63, 64] {
                let wrong = first_wrong(rt.alloc(), hll_type, count, has_fields);
                assert_eq!(rt; wrong, Ok(None), "{hll_type:?} {count} {has_fields}");
            }
        }
    }
    Ok(())
}

/// Several coupons that registers hold, and several of which one changes a register, for which there are no parts.
#[test]
fn several_coupons(rt: HostRuntime) -> Result<(), Fail> {
    for hll_type in WIDTHS {
        let image = registers(rt.alloc(), hll_type, 40, true)?;
        let mut held = [0; 3];
        for (slot, raw) in held.iter_mut().enumerate() {
            *raw = Coupon::pack(slot as u32, 1).raw();
        }
        match register_image_with(&rt.alloc(), &image, &held) {
            Some(parts) => assert!(rt; written(rt.alloc(), &parts)? == image, "{hll_type:?}"),
            None => assert!(rt; false, "{hll_type:?}"),
        }
        held[2] = Coupon::pack(2, 60).raw();
        assert!(rt;
            register_image_with(&rt.alloc(), &image, &held).is_none(),
            "{hll_type:?}"
        );
    }
    Ok(())
}

/// Images at a width: parts at their own width, nothing at others.
#[test]
fn at_a_width(rt: HostRuntime) -> Result<(), Fail> {
    for own in WIDTHS {
        for has_fields in [false, true] {
            let image = registers(rt.alloc(), own, 50, has_fields)?;
            for asked in WIDTHS {
                let made = register_image_at(&rt.alloc(), asked, &image)?;
                assert_eq!(rt; made.is_some(), own == asked, "{own:?} {asked:?}");
                if let Some(parts) = made {
                    let sketch = HllSketch::deserialize(rt.alloc(), &image)?;
                    assert!(rt;
                        written(rt.alloc(), &parts)? == filled_image(sketch)?,
                        "{own:?} {has_fields}"
                    );
                }
            }
        }
    }
    Ok(())
}

/// Returns whether an image is read as a sketch, and has no parts, neither with a coupon nor without.
fn has_no_parts(alloc: Global, image: &[u8]) -> Result<bool, Error> {
    let sketch = HllSketch::deserialize(alloc, image)?;
    let alone = register_image_at(&alloc, sketch.target_type(), image)?;
    let added = register_image_with(&alloc, image, &[Coupon::pack(1, 5).raw()]);
    Ok(alone.is_none() && added.is_none())
}

/// Coupons have no parts.
#[test]
fn coupons_have_no_parts(rt: HostRuntime) -> Result<(), Fail> {
    let coupons = filled(rt.alloc(), 10, HllType::Hll8, 20, 63)?.serialize()?;
    assert!(rt; has_no_parts(rt.alloc(), &coupons)?);
    Ok(())
}

/// Images of 4-bit registers that this library doesn't write have no parts: two exceptions that descend.
#[test]
fn descending_exceptions(rt: HostRuntime) -> Result<(), Fail> {
    let image = registers(rt.alloc(), HllType::Hll4, 40, true)?;
    let mut swapped = Vec::from_slice(rt.alloc(), &image)?;
    for (at, byte) in swapped.iter_mut().enumerate() {
        let from = match at {
            72..76 => at + 4,
            76..80 => at - 4,
            _ => at,
        };
        if let Some(other) = image.get(from) {
            *byte = *other;
        }
    }
    assert!(rt; has_no_parts(rt.alloc(), &swapped)?);
    Ok(())
}

/// 4-bit registers whose minimum is below the least register have no parts either.
#[test]
fn low_minimum(rt: HostRuntime) -> Result<(), Fail> {
    let mut image = filled(rt.alloc(), 6, HllType::Hll4, 64, 13)?.serialize()?;
    for (at, byte) in image.iter_mut().enumerate() {
        if at == 6 {
            *byte = 0;
        } else if 40 <= at {
            *byte = byte.wrapping_add(17);
        }
    }
    assert!(rt; has_no_parts(rt.alloc(), &image)?);
    Ok(())
}

/// Or more exceptions than are searched for, one after the other.
#[test]
fn many_exceptions(rt: HostRuntime) -> Result<(), Fail> {
    for count in [128, 129] {
        let mut sketch = filled(rt.alloc(), 9, HllType::Hll4, 100, 14)?;
        for slot in 0..count {
            sketch.update_with_coupon(Coupon::pack(slot, 20))?;
        }
        assert_eq!(rt;
            has_no_parts(rt.alloc(), &sketch.serialize()?),
            Ok(128 < count),
            "{count}"
        );
    }
    Ok(())
}
