// SPDX-License-Identifier: Apache-2.0
//! Unions of sketches of several widths and orders, of values, and of images.
use crate::fixtures::{WIDTHS, filled, updatable_image, with_bytes_twice};
use hll_base::error::Error;
use hll_base::hll_type::HllType;
use hll_coupons::coupon::Coupon;
use hll_sketch::{HllSketch, HllUnion, agree};
use std::alloc::Global;
use std::test::Fail;

/// The number of coupons, and the `lg_k`: a list, sets and registers of sizes below, at and above the bound of 8.
const SOURCES: [(u32, u8); 7] = [
    (3, 8),
    (7, 21),
    (20, 8),
    (60, 12),
    (40, 5),
    (300, 8),
    (400, 9),
];

/// Merges a sketch of this many coupons into a union.
fn merge_filled(
    alloc: Global,
    union: &mut HllUnion,
    hll_type: HllType,
    source: (u32, u8),
) -> Result<(), Error> {
    let (count, lg_k) = source;
    let sketch = filled(alloc, lg_k, hll_type, count, 63)?;
    union.update(&sketch)
}

/// Returns the union of two sketches of the same width, under the bound of 8.
fn union_in(
    alloc: Global,
    hll_type: HllType,
    first: (u32, u8),
    second: (u32, u8),
) -> Result<HllUnion, Error> {
    let mut union = HllUnion::new(alloc, 8)?;
    merge_filled(alloc, &mut union, hll_type, first)?;
    merge_filled(alloc, &mut union, hll_type, second)?;
    Ok(union)
}

/// Returns whether the results of two unions agree, the first at this width.
fn agree_at(one: &HllUnion, hll_type: HllType, other: &HllUnion) -> Result<bool, Error> {
    let sketch = one.to_sketch(hll_type)?;
    agree(&sketch, &other.to_sketch(HllType::Hll8)?)
}

/// Returns whether two unions give the same 8-bit sketch.
fn give_one_sketch(one: &HllUnion, other: &HllUnion) -> Result<bool, Error> {
    let sketch = one.to_sketch(HllType::Hll8)?;
    Ok(sketch == other.to_sketch(HllType::Hll8)?)
}

/// Returns whether a union gives the same sketch when it is consumed as before.
fn gives_the_same_at_last(union: HllUnion, hll_type: HllType) -> Result<bool, Error> {
    let sketch = union.to_sketch(hll_type)?;
    Ok(union.into_sketch(hll_type)? == sketch)
}

/// Merges sketches of each width. The result follows from the coupons and registers, not from the width or the order of the
/// sources, and it agrees with the result after each source is merged again.
#[test]
fn widths_and_orders(rt: HostRuntime) -> Result<(), Fail> {
    for first in SOURCES {
        for second in SOURCES {
            let both = union_in(rt.alloc(), HllType::Hll8, first, second)?;
            for hll_type in WIDTHS {
                let turned = union_in(rt.alloc(), hll_type, second, first)?;
                assert_eq!(rt; turned.lg_config_k(), both.lg_config_k());
                assert!(rt; agree_at(&turned, hll_type, &both)?, "{first:?} {second:?}");
                assert!(rt; give_one_sketch(&turned, &both)?, "{first:?} {second:?}");
                assert!(rt; gives_the_same_at_last(turned, hll_type)?);
            }
        }
    }
    Ok(())
}

/// Returns a sketch with a width of 6 bits of the values below a number.
fn sketch_of_values(alloc: Global, count: u64) -> Result<HllSketch, Error> {
    let mut sketch = HllSketch::new(alloc, 11, HllType::Hll6)?;
    for value in 0..count {
        sketch.update(value)?;
    }
    Ok(sketch)
}

/// Returns a union of the same values.
fn union_of_values(alloc: Global, count: u64) -> Result<HllUnion, Error> {
    let mut union = HllUnion::new(alloc, 11)?;
    for value in 0..count {
        union.update_value(value)?;
    }
    Ok(union)
}

/// Returns whether the union that a call made gives this sketch with a width of 6 bits.
fn gives(made: Result<HllUnion, Error>, sketch: &HllSketch) -> Result<bool, Error> {
    let union = made?;
    Ok(union.into_sketch(HllType::Hll6)? == *sketch)
}

/// Returns whether the copy of the union that a call made gives this sketch with a width of 6 bits.
fn copy_gives(made: Result<HllUnion, Error>, sketch: &HllSketch) -> Result<bool, Error> {
    let union = made?;
    gives(union.clone(), sketch)
}

/// A value is added as its coupon, as to a sketch.
#[test]
fn values(rt: HostRuntime) -> Result<(), Fail> {
    for count in [0u64, 1, 51, 101, 151, 201, 251, 300] {
        let sketch = sketch_of_values(rt.alloc(), count)?;
        assert_eq!(rt;
            gives(union_of_values(rt.alloc(), count), &sketch),
            Ok(true)
        );
        assert_eq!(rt;
            copy_gives(union_of_values(rt.alloc(), count), &sketch),
            Ok(true)
        );
    }
    Ok(())
}

/// Returns a union under the bound of 10 of this many coupons.
fn union_with(alloc: Global, count: u32) -> Result<HllUnion, Error> {
    let mut union = HllUnion::new(alloc, 10)?;
    merge_filled(alloc, &mut union, HllType::Hll8, (count, 10))?;
    Ok(union)
}

/// Returns whether checking an image gives the result of reading it.
fn is_checked_alike(alloc: Global, image: &[u8]) -> bool {
    let read = match HllSketch::deserialize(alloc, image) {
        Ok(_) => Ok(()),
        Err(e) => Err(e),
    };
    HllSketch::check(alloc, image) == read
}

/// Returns the image of a sketch of this many coupons, with more bytes after it.
fn image_of(alloc: Global, hll_type: HllType, source: (u32, u8)) -> Result<Vec<u8>, Error> {
    let (count, lg_k) = source;
    let mut image = filled(alloc, lg_k, hll_type, count, 63)?.serialize()?;
    image.extend_from_slice(&[0, 255, 7])?;
    Ok(image)
}

/// Returns whether an image with one byte changed is checked as it is read, for each of some bytes from an
/// index on, as far as there are any.
fn changes_are_checked_alike(alloc: Global, image: &mut [u8], from: usize, changed: usize) -> bool {
    let mut alike = true;
    for index in from..image.len().min(from.saturating_add(changed)) {
        let byte = image[index];
        for value in [
            0,
            1,
            4,
            byte.wrapping_add(1),
            byte.wrapping_sub(1),
            byte ^ 8,
            255,
        ] {
            image[index] = value;
            alike = alike && is_checked_alike(alloc, image);
        }
        image[index] = byte;
    }
    alike
}

/// Returns whether each prefix of an image is checked as it is read.
fn fronts_are_checked_alike(alloc: Global, image: &[u8]) -> bool {
    let mut alike = true;
    for length in 0..image.len().min(100) {
        alike = alike && is_checked_alike(alloc, &image[..length]);
    }
    alike
}

/// Images are checked as they are read: images of each stage and width, cut short, and with a byte changed, so that coupons
/// descend, are repeated or have the value 0.
#[test]
fn images(rt: HostRuntime) -> Result<(), Fail> {
    for source in [
        (0, 10),
        (1, 9),
        (3, 8),
        (7, 21),
        (20, 8),
        (60, 12),
        (300, 8),
    ] {
        for hll_type in WIDTHS {
            let mut image = image_of(rt.alloc(), hll_type, source)?;
            assert!(rt; is_checked_alike(rt.alloc(), &image), "{source:?}");
            assert!(rt; fronts_are_checked_alike(rt.alloc(), &image), "{source:?}");
            assert!(rt;
                changes_are_checked_alike(rt.alloc(), &mut image, 0, 28),
                "{source:?}"
            );
        }
    }
    Ok(())
}

/// Returns a sketch of registers with few exceptions: this many from 1 to 14 in turn, and three of 40.
fn with_few_exceptions(
    alloc: Global,
    hll_type: HllType,
    source: (u32, u8),
) -> Result<HllSketch, Error> {
    let (count, lg_k) = source;
    let mut sketch = filled(alloc, lg_k, hll_type, count, 14)?;
    for slot in [0, 77, 200] {
        sketch.update_with_coupon(Coupon::pack(slot, 40))?;
    }
    Ok(sketch)
}

/// Images of registers are checked as they are read, also if they have few exceptions: cut short, and with a byte changed, so
/// that counts, nibbles and exceptions are wrong or don't agree.
#[test]
fn images_of_registers(rt: HostRuntime) -> Result<(), Fail> {
    for source in [(256, 8), (1024, 10), (4096, 12)] {
        for hll_type in WIDTHS {
            let mut image = with_few_exceptions(rt.alloc(), hll_type, source)?.serialize()?;
            assert!(rt; is_checked_alike(rt.alloc(), &image), "{source:?}");
            assert!(rt; fronts_are_checked_alike(rt.alloc(), &image), "{source:?}");
            assert!(rt;
                changes_are_checked_alike(rt.alloc(), &mut image, 28, 20),
                "{source:?}"
            );
            let last = image.len().saturating_sub(13);
            assert!(rt;
                changes_are_checked_alike(rt.alloc(), &mut image, last, 13),
                "{source:?}"
            );
        }
    }
    Ok(())
}

/// Returns whether an image in which some buckets have the raw coupons of others is checked as it is read.
fn raw_coupons_are_checked_alike(alloc: Global, image: &[u8]) -> Result<bool, Error> {
    let mut alike = true;
    for from in 2u8..12 {
        for to in 2u8..9 {
            let (from, to) = (usize::from(from) * 4, usize::from(to) * 20 - 28);
            let changed = with_bytes_twice(alloc, image, from, to)?;
            alike = alike && is_checked_alike(alloc, &changed);
        }
    }
    Ok(alike)
}

/// Updatable images are checked as they are read: lists, and
/// sets of up to 128 coupons and of more, as they are, cut short, and with bytes and raw coupons changed, so that coupons
/// descend, are repeated, have the value 0, or don't agree with the count.
#[test]
fn updatable_images(rt: HostRuntime) -> Result<(), Fail> {
    for source in [
        (0, 10),
        (1, 9),
        (7, 21),
        (20, 8),
        (60, 12),
        (128, 12),
        (129, 12),
    ] {
        let mut image = updatable_image(rt.alloc(), source)?;
        assert!(rt; is_checked_alike(rt.alloc(), &image), "{source:?}");
        assert!(rt; fronts_are_checked_alike(rt.alloc(), &image), "{source:?}");
        assert!(rt;
            raw_coupons_are_checked_alike(rt.alloc(), &image)?,
            "{source:?}"
        );
        assert!(rt;
            changes_are_checked_alike(rt.alloc(), &mut image, 0, 28),
            "{source:?}"
        );
    }
    Ok(())
}
