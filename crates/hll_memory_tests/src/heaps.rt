// SPDX-License-Identifier: Apache-2.0
//! Two heaps, one of which is full. `agree` allocates only from the heap of its first argument. A call that is given an
//! allocator, and a union, allocate only from their own.
use crate::harness::Heap;
use crate::sketches::{Shape, WIDTHS, sketch_in};
use crate::unions::union_in;
use hll_base::hll_type::HllType;
use hll_merge::evaluate::{compare, evaluate};
use hll_sketch::{HllSketch, agree, union_of};
use hll_text::fault::Fault;
use hll_text::step::Step;
use std::test::Fail;

/// Sketches: an empty list, lists, sets and registers.
const SKETCHES: [Shape; 7] = [
    (12, 0, 0),
    (12, 0, 7),
    (6, 0, 7),
    (12, 0, 20),
    (10, 0, 90),
    (10, 0, 600),
    (4, 0, 16),
];

/// Returns the requests to each heap for checking whether a sketch of the first heap agrees with a sketch of the
/// second, which is full by then.
fn agree_asks<'h>(
    heap: &'h Heap,
    full: &'h Heap,
    hll_type: HllType,
    shape: Shape,
) -> Result<(u64, u64), Fault> {
    full.admit();
    let other = sketch_in(full, hll_type, shape)?;
    full.refuse_all();
    agree_with(heap, hll_type, &other)?;
    Ok((heap.asked(), full.asked()))
}

/// Checks whether a sketch of this heap agrees with another one, and counts the requests to this heap for that.
fn agree_with<'h>(
    heap: &'h Heap,
    hll_type: HllType,
    other: &HllSketch<&'h Heap>,
) -> Result<bool, Fault> {
    let one = sketch_in(heap, hll_type, (10, 0, 90))?;
    heap.admit();
    Ok(agree(&one, other)?)
}

#[test]
fn agree_asks_its_first_argument(rt: HostRuntime) -> Result<(), Fail> {
    let heap = Heap::new(rt.alloc());
    let full = Heap::new(rt.alloc());
    for shape in SKETCHES {
        for hll_type in WIDTHS {
            let asked = agree_asks(&heap, &full, hll_type, shape);
            assert_eq!(rt; asked, Ok((2, 0)), "{shape:?} {hll_type:?}");
        }
    }
    Ok(())
}

/// Returns the requests to the second heap, which is full by then, for merging a sketch of it into a union of the
/// first. The bound of the union is the `lg_k` of what is in it.
fn update_asks<'h>(
    heap: &'h Heap,
    full: &'h Heap,
    inside: Shape,
    hll_type: HllType,
    incoming: Shape,
) -> Result<u64, Fault> {
    full.admit();
    let other = sketch_in(full, hll_type, incoming)?;
    full.refuse_all();
    merge_into(heap, inside, &other)?;
    Ok(full.asked())
}

/// Merges a sketch into a union of this heap.
fn merge_into<'h>(heap: &'h Heap, inside: Shape, other: &HllSketch<&'h Heap>) -> Result<(), Fault> {
    let mut union = union_in(heap, inside)?;
    Ok(union.update(other)?)
}

/// Unions with nothing, a list and registers in them.
const UNIONS: [Shape; 4] = [(12, 0, 0), (12, 0, 1), (4, 0, 16), (8, 0, 200)];

#[test]
fn unions_ask_their_own(rt: HostRuntime) -> Result<(), Fail> {
    let heap = Heap::new(rt.alloc());
    let full = Heap::new(rt.alloc());
    for inside in UNIONS {
        for incoming in SKETCHES {
            for hll_type in WIDTHS {
                let asked = update_asks(&heap, &full, inside, hll_type, incoming);
                assert_eq!(rt; asked, Ok(0), "{inside:?} {incoming:?} {hll_type:?}");
            }
        }
    }
    Ok(())
}

/// Returns the requests to the second heap, which is full by then, for the union that the first heap makes of its
/// sketches.
fn union_of_asks<'h>(
    heap: &'h Heap,
    full: &'h Heap,
    hll_type: HllType,
    shape: Shape,
) -> Result<u64, Fault> {
    full.admit();
    let mut sketches = Vec::new(heap.inner());
    sketches.push(sketch_in(full, hll_type, (10, 0, 90))?)?;
    sketches.push(sketch_in(full, hll_type, shape)?)?;
    full.refuse_all();
    let _union = union_of(heap, 12, &sketches)?;
    Ok(full.asked())
}

#[test]
fn union_of_asks_its_own(rt: HostRuntime) -> Result<(), Fail> {
    let heap = Heap::new(rt.alloc());
    let full = Heap::new(rt.alloc());
    for shape in SKETCHES {
        for hll_type in WIDTHS {
            let asked = union_of_asks(&heap, &full, hll_type, shape);
            assert_eq!(rt; asked, Ok(0), "{shape:?} {hll_type:?}");
        }
    }
    Ok(())
}

/// A list with a coupon, as an image.
const IMAGE: &[u8] = b"\x02\x01\x07\x0a\x03\x08\x01\x08\x05\x00\x00\x0c";

/// Returns the requests to the second heap, which is full by then, for the outcome of steps with an image in it, and
/// for its comparison with itself.
fn steps_ask<'h>(heap: &'h Heap, full: &'h Heap) -> Result<(u64, u64), Fault> {
    full.admit();
    let steps = [
        Step::Image(Vec::from_slice(full, IMAGE)?),
        Step::New(8, HllType::Hll4),
        Step::Coupon(2, 30),
        Step::Union(2, 12, HllType::Hll4),
        Step::Fold(4),
    ];
    full.refuse_all();
    if let Err(e) = evaluate(heap, &steps) {
        return Err(e.fault);
    }
    let asked = full.asked();
    match compare(heap, &steps, &steps) {
        Ok(_) => Ok((asked, full.asked())),
        Err(e) => Err(e.fault),
    }
}

#[test]
fn steps_ask_their_own(rt: HostRuntime) -> Result<(), Fail> {
    let heap = Heap::new(rt.alloc());
    let full = Heap::new(rt.alloc());
    assert_eq!(rt; steps_ask(&heap, &full), Ok((0, 0)));
    Ok(())
}
