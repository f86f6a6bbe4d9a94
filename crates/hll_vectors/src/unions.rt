// SPDX-License-Identifier: Apache-2.0
//! Unions: their `lg_k`, the tables that they keep, and sketches that agree.
use crate::sketches::{digits_of, sketch_of, sketch_with};
use hll_base::error::Error;
use hll_base::hll_type::HllType;
use hll_coupons::coupon::Coupon;
use hll_sketch::{HllSketch, HllUnion, agree};
use std::alloc::Global;
use std::test::Fail;

/// Registers of `lg_k` 4 that are all 0.
const ZEROS: &str =
    "0a0107040000000a00000000000000000000000000000000000000000000000010000000000000000000000000000000000000000000000000";

/// Registers of `lg_k` 4: 10 and 20 in the first slots.
const SMALL: &str =
    "0a0107040010000a0000000000000000000000000000000000000000000000000e000000000000000a140000000000000000000000000000";

/// Registers of `lg_k` 5: 15 and 18 in the first slots, 25 and 30 in slots 16 and 17.
const LARGE: &str =
    "0a0107050010000a0000000000000000000000000000000000000000000000001c000000000000000f120000000000000000000000000000191e0000000000000000000000000000";

/// Both merged, at `lg_k` 4.
const JOINED: &str =
    "0a0107040010000a0000000000000000000000000000000000000000000000000e00000000000000191e0000000000000000000000000000";

/// An empty list at `lg_k` 12.
const EMPTY: &str = "0201070c030c0008";

/// Images that are merged in turn, and the `lg_k` of the union after each: a list of `lg_k` 6, registers of 0,
/// registers of `lg_k` 6, a list of `lg_k` 21, and registers of `lg_k` 4.
const STEPS: [(&str, u8); 5] = [
    ("02010706030801000500000c", 12),
    (ZEROS, 12),
    (
        "0a010706001800020000000000000000000000000000000000000000000000003f000000000000000500000000000000000000000000000000000000000000000000000000000000",
        6,
    ),
    ("02010715030801000600000c", 6),
    (SMALL, 4),
];

/// Merges the sketch of an image into a union.
fn merge_image(alloc: Global, union: &mut HllUnion, digits: &str) -> Result<(), Fail> {
    let sketch = sketch_of(alloc, digits)?;
    Ok(union.update(&sketch)?)
}

/// The `lg_k` goes down to that of registers, and a reset restores the bound.
#[test]
fn lg_k(rt: HostRuntime) -> Result<(), Fail> {
    let mut union = HllUnion::new(rt.alloc(), 12)?;
    assert_eq!(rt; (union.lg_config_k(), union.is_empty()), (12, true));
    for (digits, lg_k) in STEPS {
        merge_image(rt.alloc(), &mut union, digits)?;
        assert_eq!(rt;
            (union.lg_config_k(), union.lg_max_k(), union.is_empty()),
            (lg_k, 12, false)
        );
    }
    assert_eq!(rt; union.estimated_size(), 16);
    union.reset()?;
    assert_eq!(rt; (union.lg_config_k(), union.is_empty()), (12, true));
    Ok(())
}

/// Returns the 8-bit sketch of a union of one sketch.
fn merged(alloc: Global, lg_max_k: u8, sketch: &HllSketch) -> Result<HllSketch, Error> {
    let mut union = HllUnion::new(alloc, lg_max_k)?;
    union.update(sketch)?;
    union.to_sketch(HllType::Hll8)
}

/// A coupon at `lg_k` 4 keeps all bits of its slot.
#[test]
fn slots_stay_whole(rt: HostRuntime) -> Result<(), Fail> {
    let mut sketch = HllSketch::new(rt.alloc(), 4, HllType::Hll8)?;
    sketch.update_with_coupon(Coupon::pack(16, 1))?;
    let written = digits_of(rt.alloc(), &merged(rt.alloc(), 12, &sketch)?)?;
    assert_eq!(rt; written.as_str(), "0201070c0308010810000004");
    Ok(())
}

/// 25 coupons, at the bound of an empty union, keep their table of 64 buckets.
#[test]
fn tables_are_taken_whole(rt: HostRuntime) -> Result<(), Fail> {
    let sketch = sketch_with(rt.alloc(), 10, HllType::Hll6, 25)?;
    assert_eq!(rt; merged(rt.alloc(), 10, &sketch)?.estimated_size(), 256);
    Ok(())
}

/// Zeros of one `lg_k` agree with an empty list of another; registers with another value don't.
const AGREEMENTS: [(&str, &str, bool); 4] = [
    (ZEROS, EMPTY, true),
    (JOINED, LARGE, true),
    (JOINED, SMALL, false),
    (EMPTY, SMALL, false),
];

/// Returns whether the sketches of two images agree, and the other way round.
fn agree_either_way(alloc: Global, first: &str, second: &str) -> Result<(bool, bool), Fail> {
    let one = sketch_of(alloc, first)?;
    let two = sketch_of(alloc, second)?;
    Ok((agree(&one, &two)?, agree(&two, &one)?))
}

#[test]
fn agreement(rt: HostRuntime) -> Result<(), Fail> {
    for (first, second, wanted) in AGREEMENTS {
        let agreed = agree_either_way(rt.alloc(), first, second)?;
        assert_eq!(rt; agreed, (wanted, wanted));
    }
    Ok(())
}
