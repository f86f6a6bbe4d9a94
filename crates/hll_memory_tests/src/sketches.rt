// SPDX-License-Identifier: Apache-2.0
//! Sketches of each stage and width.
ghost use Rattle.std.specs.Prelude.{◌≤◌};
ghost use Rattle.hll_coupons.specs.Pair.{value_of};

use crate::harness::{Heap, Trial, requests_of, shown, text};
use hll_base::error::Error;
use hll_base::hll_type::HllType;
use hll_coupons::coupon::Coupon;
use hll_registers::registers::Use;
use hll_sketch::HllSketch;
use hll_sketch::borrowed_image::BorrowedImage;
use hll_sketch::coupon_room::CouponRoom;
use hll_text::fault::Fault;
use std::alloc::Global;
use std::mem;
use std::test::Fail;

/// All widths.
pub(crate) const WIDTHS: [HllType; 3] = [HllType::Hll4, HllType::Hll6, HllType::Hll8];

/// Returns a coupon at a slot. The values go from 1 to 63, and start again.
pub(crate) fn coupon_at(slot: u32) -> Coupon
    ensures { 1 ≤ value_of result }
{
    Coupon::pack(slot, 1 + (slot % 63) as u8)
}

/// The coupons of a sketch: its `lg_k`, the first slot, and their number.
pub(crate) type Shape = (u8, u32, u32);

/// Returns a sketch with a coupon at each slot from the first on.
pub(crate) fn sketch_in(
    heap: &Heap,
    hll_type: HllType,
    shape: Shape,
) -> Result<HllSketch<&Heap>, Fault> {
    let (lg_k, first, count) = shape;
    let mut sketch = HllSketch::new(heap, lg_k, hll_type)?;
    for slot in first..first.saturating_add(count) {
        sketch.update_with_coupon(coupon_at(slot))?;
    }
    Ok(sketch)
}

/// Returns the whole sketch as text: its `lg_k`, and the buckets of its table or its registers and their state.
pub(crate) fn sketch_text(heap: &Heap, sketch: &HllSketch<&Heap>) -> Result<String, Fault> {
    text(heap, &(sketch.lg_config_k(), sketch.mode()))
}

/// Returns the whole sketch that a call made as text, or why it made none.
pub(crate) fn shown_sketch<'h>(
    heap: &'h Heap,
    made: Result<HllSketch<&'h Heap>, Error>,
) -> Result<String, Fault> {
    sketch_text(heap, &made?)
}

/// Returns the registers of a sketch at the smallest `lg_k`.
fn least_registers<'h>(sketch: &HllSketch<&'h Heap>) -> Result<Vec<u8, &'h Heap>, Error> {
    let lg_k = sketch.lg_config_k().min(4);
    sketch.registers_at(lg_k)
}

/// Returns whether the sketch of an image is empty.
fn is_empty_image(heap: &Heap, image: &[u8]) -> Result<bool, Error> {
    let mut room = CouponRoom::new();
    Ok(BorrowedImage::read(heap, image, &mut room, Use::Join)?.is_empty())
}

/// Takes a sketch, and leaves an empty one in its place.
fn taken<'h>(
    heap: &'h Heap,
    sketch: &mut HllSketch<&'h Heap>,
) -> Result<HllSketch<&'h Heap>, Error> {
    Ok(mem::replace(sketch, HllSketch::new(heap, 4, HllType::Hll8)?))
}

/// Returns an image with all buckets of a table of 2^`lg_arr`, including the empty ones, and this number of bytes.
pub(crate) fn with_buckets(
    alloc: Global,
    image: &[u8],
    lg_arr: u8,
    size: usize,
) -> Result<Vec<u8>, Fault> {
    let mut bytes = Vec::from_slice(alloc, image)?;
    if let Some(buckets) = bytes.get_mut(4) {
        *buckets = lg_arr;
    }
    if let Some(flags) = bytes.get_mut(5) {
        *flags &= 0xf7;
    }
    bytes.resize(size.max(bytes.len()), 0)?;
    Ok(bytes)
}

#[derive(Clone, Copy, Debug)]
enum SketchCall {
    Clone,
    CloneMode,
    Serialize,
    Folded,
    RegistersAt,
    IntoWidth(HllType),
    Deserialize,
    DeserializeBuckets,
    Check,
    CheckBuckets,
    Borrow,
    BorrowBuckets,
    UpdateNew,
    UpdateHeld,
    UpdateValue,
    Queries,
}

/// A call on a sketch, with its image, an image with all buckets of its table, and the size of that table.
#[derive(Drop)]
struct SketchTrial<'h> {
    heap: &'h Heap,
    hll_type: HllType,
    shape: Shape,
    buckets: (u8, usize),
    call: SketchCall,
}

impl<'h> Trial for SketchTrial<'h> {
    type Subject = (HllSketch<&'h Heap>, Vec<u8>, Vec<u8>);

    fn make(&self) -> Result<(HllSketch<&'h Heap>, Vec<u8>, Vec<u8>), Fault> {
        let sketch = sketch_in(self.heap, self.hll_type, self.shape)?;
        let image = Vec::from_slice(self.heap.inner(), &sketch.serialize()?)?;
        let whole = with_buckets(self.heap.inner(), &image, self.buckets.0, self.buckets.1)?;
        Ok((sketch, image, whole))
    }

    fn call(&self, subject: &mut (HllSketch<&'h Heap>, Vec<u8>, Vec<u8>)) -> Result<String, Fault> {
        let heap = self.heap;
        let (sketch, image, whole) = subject;
        match self.call {
            SketchCall::Clone => shown_sketch(heap, sketch.clone()),
            SketchCall::CloneMode => shown(heap, sketch.mode().clone()),
            SketchCall::Serialize => shown(heap, sketch.serialize()),
            SketchCall::Folded => shown_sketch(heap, sketch.folded(4)),
            SketchCall::RegistersAt => shown(heap, least_registers(sketch)),
            SketchCall::IntoWidth(hll_type) => {
                shown_sketch(heap, taken(heap, sketch)?.into_width(hll_type))
            }
            SketchCall::Deserialize => shown_sketch(heap, HllSketch::deserialize(heap, image)),
            SketchCall::DeserializeBuckets => {
                shown_sketch(heap, HllSketch::deserialize(heap, whole))
            }
            SketchCall::Check => shown(heap, HllSketch::check(heap, image)),
            SketchCall::CheckBuckets => shown(heap, HllSketch::check(heap, whole)),
            SketchCall::Borrow => shown(heap, is_empty_image(heap, image)),
            SketchCall::BorrowBuckets => shown(heap, is_empty_image(heap, whole)),
            SketchCall::Queries => {
                let numbers = (
                    sketch.num_coupons(),
                    sketch.estimated_size(),
                    sketch.is_empty(),
                );
                text(heap, &(numbers, &*sketch == &*sketch))
            }
            SketchCall::UpdateNew => {
                shown(heap, sketch.update_with_coupon(coupon_at(self.shape.2)))
            }
            SketchCall::UpdateHeld => shown(heap, sketch.update_with_coupon(coupon_at(0))),
            SketchCall::UpdateValue => shown(heap, sketch.update(self.shape.2)),
        }
    }

    fn show(&self, subject: &(HllSketch<&'h Heap>, Vec<u8>, Vec<u8>)) -> Result<String, Fault> {
        sketch_text(self.heap, &subject.0)
    }

    fn spends(&self) -> bool {
        matches!(self.call, SketchCall::IntoWidth(_))
    }
}

/// The `lg_k` and the number of coupons, from slot 0 on, with the size of a table in an image, and the number of bytes
/// with it. Lists, sets, and registers: with no exception at 4 bits, with one after the next coupon, with one, and with
/// many.
const STAGES: [(u8, u32, u8, usize); 10] = [
    (10, 0, 3, 40),
    (4, 7, 3, 40),
    (10, 7, 3, 40),
    (10, 23, 5, 140),
    (10, 24, 5, 140),
    (8, 24, 5, 140),
    (4, 8, 0, 48),
    (4, 15, 2, 64),
    (4, 16, 2, 64),
    (8, 200, 8, 1192),
];

/// The calls, and the requests of each at these stages, for 4-bit, 6-bit and 8-bit registers.
const SKETCH_CALLS: [(SketchCall, [[u64; 10]; 3]); 18] = [
    (
        SketchCall::Clone,
        [
            [0, 0, 0, 1, 1, 1, 1, 3, 3, 3],
            [0, 0, 0, 1, 1, 1, 1, 1, 1, 1],
            [0, 0, 0, 1, 1, 1, 1, 1, 1, 1],
        ],
    ),
    (
        SketchCall::CloneMode,
        [
            [0, 0, 0, 1, 1, 1, 1, 3, 3, 3],
            [0, 0, 0, 1, 1, 1, 1, 1, 1, 1],
            [0, 0, 0, 1, 1, 1, 1, 1, 1, 1],
        ],
    ),
    (
        SketchCall::Serialize,
        [
            [1, 2, 2, 2, 2, 2, 1, 2, 2, 2],
            [1, 2, 2, 2, 2, 2, 1, 1, 1, 1],
            [1, 2, 2, 2, 2, 2, 1, 1, 1, 1],
        ],
    ),
    (
        SketchCall::Folded,
        [
            [0, 0, 0, 4, 4, 4, 1, 3, 3, 2],
            [0, 0, 0, 1, 1, 1, 1, 1, 1, 2],
            [0, 0, 0, 1, 1, 1, 1, 1, 1, 1],
        ],
    ),
    (SketchCall::RegistersAt, [[1; 10]; 3]),
    (
        SketchCall::IntoWidth(HllType::Hll4),
        [
            [0; 10],
            [0, 0, 0, 0, 0, 0, 2, 4, 4, 8],
            [0, 0, 0, 0, 0, 0, 1, 3, 3, 7],
        ],
    ),
    (
        SketchCall::IntoWidth(HllType::Hll6),
        [
            [0, 0, 0, 0, 0, 0, 2, 2, 2, 2],
            [0; 10],
            [0, 0, 0, 0, 0, 0, 1, 1, 1, 1],
        ],
    ),
    (
        SketchCall::IntoWidth(HllType::Hll8),
        [
            [0, 0, 0, 0, 0, 0, 1, 1, 1, 1],
            [0, 0, 0, 0, 0, 0, 1, 1, 1, 1],
            [0; 10],
        ],
    ),
    (
        SketchCall::Deserialize,
        [
            [0, 0, 0, 1, 1, 1, 1, 3, 3, 7],
            [0, 0, 0, 1, 1, 1, 1, 1, 1, 1],
            [0, 0, 0, 1, 1, 1, 1, 1, 1, 1],
        ],
    ),
    (
        SketchCall::DeserializeBuckets,
        [
            [0, 0, 0, 1, 1, 1, 1, 3, 3, 7],
            [0, 0, 0, 1, 1, 1, 1, 1, 1, 1],
            [0, 0, 0, 1, 1, 1, 1, 1, 1, 1],
        ],
    ),
    (
        SketchCall::Check,
        [[0, 0, 0, 0, 0, 0, 0, 0, 0, 6], [0; 10], [0; 10]],
    ),
    (
        SketchCall::CheckBuckets,
        [[0, 0, 0, 0, 0, 0, 0, 2, 2, 6], [0; 10], [0; 10]],
    ),
    (
        SketchCall::Borrow,
        [[0, 0, 0, 0, 0, 0, 0, 2, 2, 6], [0; 10], [0; 10]],
    ),
    (
        SketchCall::BorrowBuckets,
        [[0, 0, 0, 0, 0, 0, 0, 2, 2, 6], [0; 10], [0; 10]],
    ),
    (
        SketchCall::UpdateNew,
        [
            [0, 2, 1, 0, 1, 4, 0, 2, 2, 0],
            [0, 1, 1, 0, 1, 1, 0, 0, 0, 0],
            [0, 1, 1, 0, 1, 1, 0, 0, 0, 0],
        ],
    ),
    (SketchCall::UpdateHeld, [[0; 10]; 3]),
    (
        SketchCall::UpdateValue,
        [
            [0, 2, 1, 0, 1, 4, 0, 0, 0, 0],
            [0, 1, 1, 0, 1, 1, 0, 0, 0, 0],
            [0, 1, 1, 0, 1, 1, 0, 0, 0, 0],
        ],
    ),
    (SketchCall::Queries, [[0; 10]; 3]),
];

#[test]
fn refused_sketches(rt: HostRuntime) -> Result<(), Fail> {
    let heap = Heap::new(rt.alloc());
    for (call, requests) in SKETCH_CALLS {
        for (hll_type, requests) in WIDTHS.into_iter().zip(requests) {
            for ((lg_k, count, lg_arr, size), requests) in STAGES.into_iter().zip(requests) {
                let trial = SketchTrial {
                    heap: &heap,
                    hll_type,
                    shape: (lg_k, 0, count),
                    buckets: (lg_arr, size),
                    call,
                };
                let asked = requests_of(&rt, &heap, &trial);
                assert_eq!(rt; asked, Ok(requests), "{call:?} {hll_type:?} {lg_k} {count}");
            }
        }
    }
    Ok(())
}
