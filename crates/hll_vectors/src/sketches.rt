// SPDX-License-Identifier: Apache-2.0
//! Sketches: stages, arguments, buckets, texts, values and folds.
use crate::coupons::Piece;
use crate::hash::TEXT;
use hll_base::error::{Error, ErrorKind, Reason};
use hll_base::hll_type::HllType;
use hll_coupons::coupon::Coupon;
use hll_sketch::{HllSketch, HllUnion, Mode, Stage};
use linked_list_allocator::LocalHeap;
use std::alloc::{AllocError, Global};
use std::fmt::Debug;
use std::test::Fail;

/// A number of coupons, what stores them (a list of 8 buckets, a set of 32 buckets, or 4-bit registers), the number of
/// coupons that is reported, and the size in bytes.
const STAGES: [(u32, Stage, Option<usize>, usize); 4] = [
    (7, Stage::List, Some(7), 32),
    (8, Stage::Set, Some(8), 128),
    (24, Stage::Set, Some(24), 128),
    (25, Stage::Hll, None, 128),
];

fn stage_of(sketch: &HllSketch) -> Stage {
    match sketch.mode() {
        Mode::List { .. } => Stage::List,
        Mode::Set { .. } => Stage::Set,
        Mode::Array4(_) | Mode::Array6(_) | Mode::Array8(_) => Stage::Hll,
    }
}

/// Returns a sketch with a coupon of value 1 at each slot below a number.
pub(crate) fn sketch_with(
    alloc: Global,
    lg_k: u8,
    hll_type: HllType,
    count: u32,
) -> Result<HllSketch, Error> {
    let mut sketch = HllSketch::new(alloc, lg_k, hll_type)?;
    for slot in 0..count {
        sketch.update_with_coupon(Coupon::pack(slot, 1))?;
    }
    Ok(sketch)
}

/// Returns the sketch of an image in hexadecimal.
pub(crate) fn sketch_of(alloc: Global, digits: &str) -> Result<HllSketch, Fail> {
    let image = hex::decode(alloc, digits)?;
    Ok(HllSketch::deserialize(alloc, &image)?)
}

/// Returns the image of a sketch, in hexadecimal.
pub(crate) fn digits_of(alloc: Global, sketch: &HllSketch) -> Result<String, Fail> {
    Ok(hex::encode(alloc, sketch.serialize()?)?)
}

#[test]
fn stages(rt: HostRuntime) -> Result<(), Fail> {
    for (count, stage, coupons, size) in STAGES {
        let sketch = sketch_with(rt.alloc(), 8, HllType::Hll4, count)?;
        assert_eq!(rt;
            (
                stage_of(&sketch),
                sketch.num_coupons(),
                sketch.estimated_size()
            ),
            (stage, coupons, size)
        );
    }
    Ok(())
}

/// Returns the kind of the error, if there is one.
fn kind_of<T: Drop>(answer: Result<T, Error>) -> Option<ErrorKind> {
    answer.err().map(|e| e.kind())
}

#[test]
fn arguments(rt: HostRuntime) {
    let refused = Some(ErrorKind::InvalidArgument);
    for lg_k in [0u8, 3, 22, 255] {
        let sketch = HllSketch::new(rt.alloc(), lg_k, HllType::Hll8);
        assert_eq!(rt; kind_of(sketch), refused, "{lg_k}");
        let union = HllUnion::new(rt.alloc(), lg_k);
        assert_eq!(rt; kind_of(union), refused, "{lg_k}");
    }
}

/// Returns a sketch of `lg_k` 10 with one coupon, folded.
fn folded(alloc: Global, lg_k: u8) -> Result<HllSketch, Error> {
    let mut sketch = HllSketch::new(alloc, 10, HllType::Hll8)?;
    sketch.update_with_coupon(Coupon::pack(5, 3))?;
    sketch.folded(lg_k)
}

/// A sketch can be folded to 4 and up to its own `lg_k`.
#[test]
fn folds(rt: HostRuntime) -> Result<(), Fail> {
    let refused = Some(ErrorKind::InvalidArgument);
    for lg_k in [0u8, 3, 11, 21, 255] {
        assert_eq!(rt; kind_of(folded(rt.alloc(), lg_k)), refused, "{lg_k}");
    }
    for lg_k in 4..11u8 {
        assert_eq!(rt; folded(rt.alloc(), lg_k)?.lg_config_k(), lg_k);
    }
    let written = digits_of(rt.alloc(), &folded(rt.alloc(), 4)?)?;
    assert_eq!(rt; written.as_str(), "02010704030801080500000c");
    Ok(())
}

/// Slots that start at bucket 0 of 32, with the strides 1, 1, 3, 3, 5, 5, 7 and 7, and their order in the buckets: the
/// coupons of the list come first, then the eighth.
const SLOTS: [u32; 8] = [0, 32, 64, 96, 128, 160, 192, 224];

const PLACED: [u32; 8] = [0, 32, 64, 128, 96, 192, 160, 224];

/// Returns a sketch with a coupon at each of these slots.
fn sketch_at(alloc: Global, slots: [u32; 8]) -> Result<HllSketch, Error> {
    let mut sketch = HllSketch::new(alloc, 10, HllType::Hll8)?;
    for slot in slots {
        sketch.update_with_coupon(Coupon::pack(slot, 1))?;
    }
    Ok(sketch)
}

/// Returns the slots of the set in the order of its buckets, or no slots for any other stage.
fn placed(alloc: Global, sketch: &HllSketch) -> Result<Vec<u32>, AllocError> {
    let mut slots = Vec::new(alloc);
    if let Mode::Set { set, .. } = sketch.mode() {
        for coupon in set.container().iter() {
            slots.push(coupon.slot())?;
        }
    }
    Ok(slots)
}

/// Returns the image of a sketch with a coupon at each of these slots.
fn written_at(alloc: Global, slots: [u32; 8]) -> Result<String, Fail> {
    digits_of(alloc, &sketch_at(alloc, slots)?)
}

/// The image has the coupons in ascending order.
#[test]
fn buckets(rt: HostRuntime) -> Result<(), Fail> {
    let sketch = sketch_at(rt.alloc(), SLOTS)?;
    let slots = placed(rt.alloc(), &sketch)?;
    assert_eq!(rt; slots.as_slice(), PLACED.as_slice());
    assert_eq!(rt;
        written_at(rt.alloc(), SLOTS)?.as_str(),
        "0301070a05080009080000000000000420000004400000046000000480000004a0000004c0000004e0000004"
    );
    Ok(())
}

/// An `lg_k`, a width, a number of coupons, and the text for debugging.
const TEXTS: [(u8, HllType, u32, &str); 3] = [
    (
        10,
        HllType::Hll8,
        0,
        "HllSketch { lg_config_k: 10, target_type: Hll8, mode: \"List\", is_empty: true }",
    ),
    (
        10,
        HllType::Hll4,
        8,
        "HllSketch { lg_config_k: 10, target_type: Hll4, mode: \"Set\", is_empty: false }",
    ),
    (
        4,
        HllType::Hll6,
        8,
        "HllSketch { lg_config_k: 4, target_type: Hll6, mode: \"Hll\", is_empty: false, estimator: \"Composite\" }",
    ),
];

/// 8-bit registers whose state has no flag, and their text.
const IN_ORDER: &str =
    "0a0107040000000a0100000000000000020000000000000003000000000000000f0000000000000005000000000000000000000000000000";

const IN_ORDER_TEXT: &str =
    "HllSketch { lg_config_k: 4, target_type: Hll8, mode: \"Hll\", is_empty: false, estimator: \"HIP\" }";

/// An empty union with bound 8.
const UNION_TEXT: &str =
    "HllUnion { lg_max_k: 8, gadget: HllSketch { lg_config_k: 8, target_type: Hll8, mode: \"List\", is_empty: true } }";

/// Returns the text for debugging of what a call made.
fn text_of<T: Debug + Drop>(alloc: Global, made: Result<T, Error>) -> Result<String, Fail> {
    let made = made?;
    Ok(format!(in alloc; "{made:?}")?)
}

#[test]
fn texts(rt: HostRuntime) -> Result<(), Fail> {
    for (lg_k, hll_type, count, text) in TEXTS {
        let shown = text_of(rt.alloc(), sketch_with(rt.alloc(), lg_k, hll_type, count))?;
        assert_eq!(rt; shown.as_str(), text);
    }
    let shown = text_of(rt.alloc(), HllUnion::new(rt.alloc(), 8))?;
    assert_eq!(rt; shown.as_str(), UNION_TEXT);
    Ok(())
}

#[test]
fn text_in_order(rt: HostRuntime) -> Result<(), Fail> {
    let image = hex::decode(rt.alloc(), IN_ORDER)?;
    let shown = text_of(rt.alloc(), HllSketch::deserialize(rt.alloc(), &image))?;
    assert_eq!(rt; shown.as_str(), IN_ORDER_TEXT);
    Ok(())
}

/// Eight coupons give the same registers at each width.
#[test]
fn widths(rt: HostRuntime) -> Result<(), Fail> {
    for hll_type in [HllType::Hll4, HllType::Hll6, HllType::Hll8] {
        let mut sketch = HllSketch::new(rt.alloc(), 4, hll_type)?;
        for slot in 0..8u32 {
            sketch.update_with_coupon(Coupon::pack(slot, slot as u8 + 1))?;
        }
        let registers = sketch.registers_at(sketch.lg_config_k())?;
        assert_eq!(rt;
            registers.as_slice(),
            [1, 2, 3, 4, 5, 6, 7, 8, 0, 0, 0, 0, 0, 0, 0, 0].as_slice()
        );
    }
    Ok(())
}

/// Returns a sketch after the coupon of a value.
fn after_coupon(alloc: Global, bytes: &[u8]) -> Result<HllSketch, Error> {
    let mut sketch = HllSketch::new(alloc, 10, HllType::Hll8)?;
    sketch.update_with_coupon(Coupon::from_bytes(bytes))?;
    Ok(sketch)
}

/// Returns a sketch after a value.
fn after_value(alloc: Global, bytes: &[u8]) -> Result<HllSketch, Error> {
    let mut sketch = HllSketch::new(alloc, 10, HllType::Hll8)?;
    sketch.update(Piece { bytes })?;
    Ok(sketch)
}

/// Returns the sketch of a union after a value.
fn of_union(alloc: Global, bytes: &[u8]) -> Result<HllSketch, Error> {
    let mut union = HllUnion::new(alloc, 10)?;
    union.update_value(Piece { bytes })?;
    union.into_sketch(HllType::Hll8)
}

/// Returns whether two calls made the same sketch.
fn make_one(one: Result<HllSketch, Error>, other: Result<HllSketch, Error>) -> Result<bool, Error> {
    let sketch = one?;
    Ok(sketch == other?)
}

/// A value is added to a sketch and to a union as the coupon of its bytes.
#[test]
fn values(rt: HostRuntime) {
    let alloc = rt.alloc();
    for bytes in [&TEXT[..0], &TEXT[..15], &TEXT[15..]] {
        let same = make_one(after_coupon(alloc, bytes), after_value(alloc, bytes));
        assert_eq!(rt; same, Ok(true), "{bytes:?}");
        let same = make_one(after_coupon(alloc, bytes), of_union(alloc, bytes));
        assert_eq!(rt; same, Ok(true), "{bytes:?}");
    }
}

/// An image that gives the size of a table whose bytes are missing is rejected before the table is allocated.
#[test]
fn missing_tables(rt: HostRuntime) -> Result<(), Fail> {
    let image = hex::decode(
        rt.alloc(),
        "0a0107041a0000020000000000000000000000000000000000000000000000000f000000010000000000000000000000",
    )?;
    let heap = LocalHeap::new(rt.alloc(), 64)?;
    let read = HllSketch::deserialize(&heap, &image);
    assert_eq!(rt; read.err().map(|e| e.reason()), Some(Reason::Truncated));
    Ok(())
}

/// Images, and the images with their estimator fields set: slot 0 is 5 and fifteen slots are 0, which is 15 + 2^-5, for
/// 8-bit, 6-bit and 4-bit registers with fields that were read; then a list and a set, which don't change.
const FIELDS_SET: [(&str, &str); 5] = [
    (
        "0a0107040000000a0100000000000000020000000000000003000000000000000f0000000000000005000000000000000000000000000000",
        "0a0107040010000a00000000000000000000000000102e4000000000000000000f0000000000000005000000000000000000000000000000",
    ),
    (
        "0a010704000000060100000000000000020000000000000003000000000000000f0000000000000005000000000000000000000000",
        "0a0107040010000600000000000000000000000000102e4000000000000000000f0000000000000005000000000000000000000000",
    ),
    (
        "0a010704000800020100000000000000020000000000000003000000000000000f000000000000000500000000000000",
        "0a0107040018000200000000000000000000000000102e4000000000000000000f000000000000000500000000000000",
    ),
    ("02010704030801080500000c", "02010704030801080500000c"),
    (
        "0301070a05080009010000000500000c",
        "0301070a05080009010000000500000c",
    ),
];

/// If they are set twice, the fields are the same.
#[test]
fn estimator_fields(rt: HostRuntime) -> Result<(), Fail> {
    for (image, wanted) in FIELDS_SET {
        let mut sketch = sketch_of(rt.alloc(), image)?;
        for _ in 0..2 {
            sketch.set_estimator_fields();
            let written = digits_of(rt.alloc(), &sketch)?;
            assert_eq!(rt; written.as_str(), wanted);
        }
    }
    Ok(())
}
