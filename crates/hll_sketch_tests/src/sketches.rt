// SPDX-License-Identifier: Apache-2.0
//! Sketches of every width in each stage: what they hold, count and write.
ghost use Rattle.std.specs.Prelude.{◌≤◌};

use crate::fixtures::{WIDTHS, filled};
use hll_base::error::Error;
use hll_base::hll_type::HllType;
use hll_coupons::coupon::Coupon;
use hll_sketch::stage::{can_hold, most_kept, stage};
use hll_sketch::{HllSketch, Mode};
use std::alloc::{Allocator, Global};
use std::process::Abort;
use std::test::Fail;

/// Adds a coupon, if its value is above 0.
fn add<A: Allocator + Clone>(sketch: &mut HllSketch<A>, slot: u32, value: u8) -> Result<(), Error>
    requires { value ≤ 63 }
{
    let coupon = Coupon::pack(slot, value);
    if coupon.value() > 0 {
        sketch.update_with_coupon(coupon)?;
    }
    Ok(())
}

/// What a sketch holds.
#[derive(Clone, Copy, Debug, PartialEq, Eq)]
enum Kind {
    List,
    Set,
    Registers(HllType),
}

/// Returns the kind of table, the number of buckets, and the number of coupons.
fn table_of<A: Allocator>(sketch: &HllSketch<A>) -> (Kind, usize, Option<usize>) {
    match sketch.mode() {
        Mode::List { list, .. } => (
            Kind::List,
            list.container().capacity(),
            sketch.num_coupons(),
        ),
        Mode::Set { set, .. } => (Kind::Set, set.container().capacity(), sketch.num_coupons()),
        Mode::Array4(_) => (Kind::Registers(HllType::Hll4), 0, sketch.num_coupons()),
        Mode::Array6(_) => (Kind::Registers(HllType::Hll6), 0, sketch.num_coupons()),
        Mode::Array8(_) => (Kind::Registers(HllType::Hll8), 0, sketch.num_coupons()),
    }
}

/// At each `lg_k` a number of coupons, and what holds them: a table with its number of buckets, or no table for registers, and
/// the size in bytes with 4, 6 and 8 bits.
const STAGES: [(u8, u32, Option<Kind>, usize, [usize; 3]); 14] = [
    (4, 0, Some(Kind::List), 8, [32; 3]),
    (4, 7, Some(Kind::List), 8, [32; 3]),
    (4, 8, None, 0, [8, 13, 16]),
    (7, 8, None, 0, [64, 97, 128]),
    (8, 26, None, 0, [128, 193, 256]),
    (9, 7, Some(Kind::List), 8, [32; 3]),
    (9, 8, Some(Kind::Set), 32, [128; 3]),
    (9, 24, Some(Kind::Set), 32, [128; 3]),
    (9, 25, Some(Kind::Set), 64, [256; 3]),
    (9, 48, Some(Kind::Set), 64, [256; 3]),
    (9, 49, None, 0, [256, 385, 512]),
    (10, 49, Some(Kind::Set), 128, [512; 3]),
    (12, 385, None, 0, [2048, 3073, 4096]),
    (21, 49, Some(Kind::Set), 128, [512; 3]),
];

#[test]
fn stages(rt: HostRuntime) -> Result<(), Fail> {
    for (lg_k, count, table, buckets, sizes) in STAGES {
        for (hll_type, size) in WIDTHS.iter().zip(sizes.iter()) {
            let sketch = filled(rt.alloc(), lg_k, *hll_type, count, 1)?;
            let wanted = match table {
                Some(kind) => (kind, buckets, Some(count as usize)),
                None => (Kind::Registers(*hll_type), buckets, None),
            };
            assert_eq!(rt; table_of(&sketch), wanted, "{lg_k} {count}");
            assert_eq!(rt; sketch.estimated_size(), *size, "{lg_k} {count}");
            assert_eq!(rt;
                (
                    sketch.lg_config_k(),
                    sketch.target_type(),
                    sketch.is_empty()
                ),
                (lg_k, *hll_type, count == 0)
            );
        }
    }
    Ok(())
}

/// At `lg_k` 8 a list is followed by a set of 32 buckets, and that by registers; at 4 a list is followed by registers.
#[test]
fn stages_of_counts(rt: HostRuntime) {
    assert_eq!(rt; stage(8, 3, 7), Some(3));
    assert_eq!(rt; stage(8, 3, 8), Some(5));
    assert_eq!(rt; stage(8, 5, 24), Some(5));
    assert_eq!(rt; stage(8, 5, 25), None);
    assert_eq!(rt; stage(4, 3, 8), None);
    assert!(rt; can_hold(6, 48) && !can_hold(6, 49));
    assert_eq!(rt; (most_kept(3), most_kept(5)), (7, 24));
}

/// Returns a sketch with a coupon of value 1 at each slot below a number, in descending order.
fn turned(alloc: Global, lg_k: u8, hll_type: HllType, count: u32) -> Result<HllSketch, Error> {
    let mut sketch = HllSketch::new(alloc, lg_k, hll_type)?;
    for slot in 0..count {
        add(&mut sketch, (count - 1) - slot, 1)?;
    }
    Ok(sketch)
}

/// Returns a sketch with a coupon of value 1 at each slot below a number, each added twice.
fn twice(alloc: Global, lg_k: u8, hll_type: HllType, count: u32) -> Result<HllSketch, Error> {
    let mut sketch = turned(alloc, lg_k, hll_type, count)?;
    for slot in 0..count {
        add(&mut sketch, slot, 1)?;
    }
    Ok(sketch)
}

/// Returns a sketch with a coupon of value 1 at each slot below a number, and a coupon of value 2 at slot 0.
fn with_another(
    alloc: Global,
    lg_k: u8,
    hll_type: HllType,
    count: u32,
) -> Result<HllSketch, Error> {
    let mut sketch = turned(alloc, lg_k, hll_type, count)?;
    add(&mut sketch, 0, 2)?;
    Ok(sketch)
}

/// Returns whether two sketches are equal, compared in both directions.
fn equals(sketch: &HllSketch, made: Result<HllSketch, Error>) -> Result<bool, Error> {
    let other = made?;
    let same = *sketch == other;
    Ok(same && other == *sketch)
}

/// Returns whether two sketches differ, compared in both directions.
fn differs(sketch: &HllSketch, made: Result<HllSketch, Error>) -> Result<bool, Error> {
    let other = made?;
    let differ = *sketch != other;
    Ok(differ && other != *sketch)
}

/// A set of coupons in two orders gives equal sketches. So do a copy, and a sketch to which each coupon was added twice. A
/// sketch of another width, `lg_k` or kind, or with another coupon, is not equal.
fn equal_in(rt: &impl Abort, alloc: Global, lg_k: u8, count: u32) -> Result<(), Fail> {
    for hll_type in WIDTHS {
        let sketch = filled(alloc, lg_k, hll_type, count, 1)?;
        assert_eq!(rt; equals(&sketch, sketch.clone()), Ok(true));
        let other = turned(alloc, lg_k, hll_type, count);
        assert_eq!(rt; equals(&sketch, other), Ok(true));
        let other = twice(alloc, lg_k, hll_type, count);
        assert_eq!(rt; equals(&sketch, other), Ok(true));
        let other = with_another(alloc, lg_k, hll_type, count);
        assert_eq!(rt; differs(&sketch, other), Ok(true));
        for width in WIDTHS {
            let other = filled(alloc, lg_k, width, count, 1);
            assert_eq!(rt; equals(&sketch, other), Ok(hll_type == width));
        }
        let other = filled(alloc, lg_k.saturating_add(1).min(21), hll_type, count, 1);
        assert_eq!(rt; differs(&sketch, other), Ok(lg_k < 21));
    }
    Ok(())
}

#[test]
fn equality(rt: HostRuntime) -> Result<(), Fail> {
    for (lg_k, count) in [(4u8, 7u32), (4, 16), (8, 8), (8, 24), (8, 40), (21, 5)] {
        equal_in(&rt, rt.alloc(), lg_k, count)?;
    }
    Ok(())
}

/// Returns whether the image of a sketch allocates exactly as many bytes as it has.
fn fits_its_image(made: Result<HllSketch, Error>) -> Result<bool, Error> {
    let image = made?.serialize()?;
    Ok(image.capacity() == image.len())
}

#[test]
fn sizes_of_images(rt: HostRuntime) {
    for (lg_k, count, _, _, _) in STAGES {
        for hll_type in WIDTHS {
            let made = filled(rt.alloc(), lg_k, hll_type, count, 63);
            assert_eq!(rt; fits_its_image(made), Ok(true), "{lg_k} {count}");
        }
    }
}

/// Returns a sketch with a width of 4 bits of the values below a number.
fn of_values(alloc: Global, count: u64) -> Result<HllSketch, Error> {
    let mut sketch = HllSketch::new(alloc, 12, HllType::Hll4)?;
    for value in 0..count {
        sketch.update(value)?;
    }
    Ok(sketch)
}

/// Returns a sketch with a width of 4 bits of the coupons of these values.
fn of_coupons(alloc: Global, count: u64) -> Result<HllSketch, Error> {
    let mut sketch = HllSketch::new(alloc, 12, HllType::Hll4)?;
    for value in 0..count {
        sketch.update_with_coupon(Coupon::from_value(value))?;
    }
    Ok(sketch)
}

/// A value is added as its coupon.
#[test]
fn values(rt: HostRuntime) -> Result<(), Fail> {
    let sketch = of_values(rt.alloc(), 100)?;
    assert_eq!(rt; equals(&sketch, of_coupons(rt.alloc(), 100)), Ok(true));
    assert_eq!(rt; sketch.num_coupons(), Some(100));
    Ok(())
}
