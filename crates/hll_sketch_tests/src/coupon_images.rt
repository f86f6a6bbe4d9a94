// SPDX-License-Identifier: Apache-2.0
//! Makes images of coupons from images of coupons, and compares them with the sketches that these are read as.
ghost use Rattle.std.specs.Prelude.{◌≤◌};

use crate::fixtures::{WIDTHS, filled, updatable_image, with_bytes_twice};
use hll_base::error::Error;
use hll_base::hll_type::HllType;
use hll_images::{coupon_image_at, union_of_coupon_images, union_of_one_coupon_image};
use hll_sketch::{HllSketch, HllUnion};
use std::alloc::Global;
use std::test::Fail;

/// The number of coupons, and the `lg_k`: lists, sets of several sizes, and registers.
const SOURCES: [(u32, u8); 9] = [
    (0, 10),
    (1, 10),
    (7, 10),
    (8, 10),
    (20, 10),
    (25, 10),
    (60, 12),
    (96, 10),
    (300, 8),
];

/// Returns the image of a sketch with a width of 6 bits, of this many coupons and of the values below a number.
fn image_of(alloc: Global, source: (u32, u8), from: u32) -> Result<Vec<u8>, Error> {
    let (count, lg_k) = source;
    let mut sketch = filled(alloc, lg_k, HllType::Hll6, count, 63)?;
    for value in 0..from {
        sketch.update(value)?;
    }
    sketch.serialize()
}

/// Returns the image of the union of two images, made with a union.
fn by_union(alloc: Global, hll_type: HllType, left: &[u8], right: &[u8]) -> Result<Vec<u8>, Error> {
    let mut union = HllUnion::new(alloc, 10)?;
    union.update(&HllSketch::deserialize(alloc, left)?)?;
    union.update(&HllSketch::deserialize(alloc, right)?)?;
    union.into_sketch(hll_type)?.serialize()
}

/// Returns whether what is made of two images is the image of their union, or nothing.
fn union_is_right(
    alloc: Global,
    hll_type: HllType,
    left: &[u8],
    right: &[u8],
) -> Result<bool, Error> {
    match union_of_coupon_images(alloc, 10, hll_type, left, right)? {
        Some(image) => Ok(by_union(alloc, hll_type, left, right)? == image),
        None => Ok(true),
    }
}

/// Returns whether the union of these two images is made from their bytes.
fn is_made(alloc: Global, left: &[u8], right: &[u8]) -> Result<bool, Error> {
    Ok(union_of_coupon_images(alloc, 10, HllType::Hll8, left, right)?.is_some())
}

/// Unions of images that have some, all or none of their coupons in common. What is made is what a union gives, and it is made
/// if both have coupons, the first is at the bound, and a table holds all coupons.
#[test]
fn unions_of_coupons(rt: HostRuntime) -> Result<(), Fail> {
    for (number, one) in SOURCES.into_iter().enumerate() {
        for (index, other) in SOURCES.into_iter().enumerate() {
            for more in [0, 5, 40] {
                let left = image_of(rt.alloc(), one, 0)?;
                let right = image_of(rt.alloc(), other, more)?;
                for hll_type in WIDTHS {
                    assert!(rt;
                        union_is_right(rt.alloc(), hll_type, &left, &right)?,
                        "{one:?} {other:?} {more}"
                    );
                }
                let some = 0 < index || 0 < more;
                let few = one.0.max(other.0).saturating_add(more) <= 96;
                let held = 0 < number && number < 6 && index < 6 && some && few;
                let made = is_made(rt.alloc(), &left, &right)?;
                assert!(rt; made || !held, "{one:?} {other:?} {more}");
            }
        }
    }
    Ok(())
}

/// Returns whether the union of one image is made from its bytes at a width, or `None` if what is made is not the image of its
/// union.
fn is_made_alone(alloc: Global, hll_type: HllType, image: &[u8]) -> Result<Option<bool>, Error> {
    let Some(made) = union_of_one_coupon_image(alloc, 10, hll_type, image)? else {
        return Ok(Some(false));
    };
    let mut union = HllUnion::new(alloc, 10)?;
    union.update(&HllSketch::deserialize(alloc, image)?)?;
    let right = union.into_sketch(hll_type)?.serialize()? == made;
    Ok(if right { Some(true) } else { None })
}

/// Unions of one image. What is made is what a union gives, and it is made of coupons at the bound, in any order and in buckets.
#[test]
fn unions_of_one_image(rt: HostRuntime) -> Result<(), Fail> {
    for source in SOURCES {
        let (count, lg_k) = source;
        let written = image_of(rt.alloc(), source, 0)?;
        let held = Some(0 < count && lg_k == 10);
        for hll_type in WIDTHS {
            let made = is_made_alone(rt.alloc(), hll_type, &written)?;
            assert_eq!(rt; made, held, "{source:?}");
        }
        if held == Some(true) {
            let turned = descending(rt.alloc(), &written)?;
            let placed = updatable_image(rt.alloc(), source)?;
            for image in [&turned, &placed] {
                let made = is_made_alone(rt.alloc(), HllType::Hll4, image)?;
                assert_eq!(rt; made, held, "{source:?}");
            }
        }
    }
    Ok(())
}

/// Returns whether what is made of an image at a width is the image of its sketch at that width.
fn image_at_is_right(alloc: Global, hll_type: HllType, image: &[u8]) -> Result<bool, Error> {
    match coupon_image_at(alloc, hll_type, image)? {
        Some(made) => {
            let sketch = HllSketch::deserialize(alloc, image)?.into_width(hll_type)?;
            Ok(sketch.serialize()? == made)
        }
        None => Ok(true),
    }
}

/// Makes images at each width from each image of coupons, also with one of its first bytes changed, so that coupons descend,
/// are repeated or have the value 0. What is made is the image of the sketch that it is read as, and the union with another
/// image is right.
#[test]
fn changed_images_of_coupons(rt: HostRuntime) -> Result<(), Fail> {
    for source in [(3, 10), (8, 10), (30, 10)] {
        let other = image_of(rt.alloc(), (5, 10), 0)?;
        let mut image = image_of(rt.alloc(), source, 0)?;
        for hll_type in WIDTHS {
            assert!(rt; coupon_image_at(rt.alloc(), hll_type, &image)?.is_some());
        }
        for index in 0..image.len().min(28) {
            let byte = image[index];
            for value in [0, 1, 4, byte.wrapping_add(1), byte ^ 8, byte ^ 128, 255] {
                image[index] = value;
                for hll_type in WIDTHS {
                    assert!(rt;
                        image_at_is_right(rt.alloc(), hll_type, &image)?,
                        "{source:?} {index} {value}"
                    );
                }
                assert!(rt;
                    union_is_right(rt.alloc(), HllType::Hll8, &image, &other)?,
                    "{source:?} {index} {value}"
                );
                assert!(rt;
                    union_is_right(rt.alloc(), HllType::Hll8, &other, &image)?,
                    "{source:?} {index} {value}"
                );
            }
            image[index] = byte;
        }
    }
    Ok(())
}

/// Returns the bytes before the coupons of an image.
fn head_of(image: &[u8]) -> usize
    ensures { result ≤ 12 }
{
    if image.first() == Some(&2) { 8 } else { 12 }
}

/// Returns a compact image with its coupons in descending order.
fn descending(alloc: Global, image: &[u8]) -> Result<Vec<u8>, Error> {
    let head = head_of(image).min(image.len());
    let mut turned = Vec::from_slice(alloc, &image[..head])?;
    for word in image[head..].chunks(4).rev() {
        turned.extend_from_slice(word)?;
    }
    Ok(turned)
}

/// Returns whether an image is made from an image at each width, and from its union with another, on either side.
fn is_made_of(alloc: Global, image: &[u8], other: &[u8]) -> Result<bool, Error> {
    let mut made = is_made(alloc, image, other)? && is_made(alloc, other, image)?;
    for hll_type in WIDTHS {
        made = made && coupon_image_at(alloc, hll_type, image)?.is_some();
    }
    Ok(made)
}

/// Returns whether what is made from an image at each width, and from its union with another, on either side, is right.
fn all_are_right(alloc: Global, image: &[u8], other: &[u8]) -> Result<bool, Error> {
    let mut right = true;
    for hll_type in WIDTHS {
        right = right
            && image_at_is_right(alloc, hll_type, image)?
            && union_is_right(alloc, hll_type, image, other)?
            && union_is_right(alloc, hll_type, other, image)?;
    }
    Ok(right)
}

/// Images as other libraries write them, whose coupons don't ascend or are in the buckets of a table. What is made is what is
/// read and written. It is made for up to 128 coupons, and for none if a coupon is repeated.
#[test]
fn images_of_others(rt: HostRuntime) -> Result<(), Fail> {
    let other = image_of(rt.alloc(), (5, 10), 0)?;
    for source in [(2, 10), (8, 10), (20, 10), (90, 10)] {
        let turned = descending(rt.alloc(), &image_of(rt.alloc(), source, 0)?)?;
        let placed = updatable_image(rt.alloc(), source)?;
        for image in [&turned, &placed] {
            assert!(rt; is_made_of(rt.alloc(), image, &other)?, "{source:?}");
            assert!(rt; is_made_of(rt.alloc(), image, &turned)?, "{source:?}");
            assert!(rt; all_are_right(rt.alloc(), image, &other)?, "{source:?}");
            assert!(rt; all_are_right(rt.alloc(), image, &turned)?, "{source:?}");
        }
        let head = head_of(&turned);
        let twice = with_bytes_twice(rt.alloc(), &turned, head, head + 4)?;
        assert!(rt; !is_made(rt.alloc(), &twice, &other)?, "{source:?}");
        assert!(rt; coupon_image_at(rt.alloc(), HllType::Hll4, &twice)?.is_none());
    }
    Ok(())
}

/// An image is made of at most 128 coupons in any order, and of any number of coupons that ascend.
#[test]
fn few_coupons_of_others(rt: HostRuntime) -> Result<(), Fail> {
    for (source, few) in [((128, 12), true), ((129, 12), false)] {
        let written = image_of(rt.alloc(), source, 0)?;
        let turned = descending(rt.alloc(), &written)?;
        let placed = updatable_image(rt.alloc(), source)?;
        assert!(rt; coupon_image_at(rt.alloc(), HllType::Hll8, &written)?.is_some());
        for image in [&turned, &placed] {
            let made = coupon_image_at(rt.alloc(), HllType::Hll8, image)?;
            assert_eq!(rt; made.is_some(), few, "{source:?}");
            assert!(rt; image_at_is_right(rt.alloc(), HllType::Hll8, image)?);
        }
    }
    Ok(())
}
