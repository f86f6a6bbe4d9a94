// SPDX-License-Identifier: Apache-2.0
//! Unions, and calls on several sketches.
use crate::harness::{Heap, Trial, requests_of, shown, text};
use crate::sketches::{Shape, coupon_at, shown_sketch, sketch_in};
use hll_base::error::Error;
use hll_base::hll_type::HllType;
use hll_images::coupon_images::coupon_image_with;
use hll_images::{coupon_image_at, union_of_coupon_images, union_of_one_coupon_image};
use hll_sketch::{HllSketch, HllUnion, agree, union_of};
use hll_text::fault::Fault;
use std::alloc::Global;
use std::mem;
use std::process::Abort;

#[derive(Clone, Copy, Debug)]
enum UnionCall {
    Clone,
    ToSketch,
    IntoSketch,
    Reset,
    Update,
    UpdateNew,
    UpdateValue,
    UnionOf,
    UnionOfThree,
    Agree,
    ImageOnce,
    ImageTwice,
    ImageAt,
    ImageWith,
}

/// A call on a union with a bound, of one 8-bit sketch, and on another sketch of some width.
#[derive(Drop)]
struct UnionTrial<'h> {
    heap: &'h Heap,
    lg_max_k: u8,
    inside: Shape,
    incoming: Shape,
    hll_type: HllType,
    call: UnionCall,
}

/// A union, three sketches (the one in it, and the other one twice), and the image of the other one.
type Joined<'h> = (HllUnion<&'h Heap>, Vec<HllSketch<&'h Heap>>, Vec<u8>);

/// Returns a whole union, which is used up, as text: its bound and its gadget.
pub(crate) fn union_text(heap: &Heap, union: HllUnion<&Heap>) -> Result<String, Fault> {
    let gadget = (union.lg_max_k(), union.into_sketch(HllType::Hll8)?);
    text(heap, &(gadget.0, gadget.1.lg_config_k(), gadget.1.mode()))
}

/// Returns the whole union that a call made as text, or why it made none.
fn shown_union<'h>(
    heap: &'h Heap,
    made: Result<HllUnion<&'h Heap>, Error>,
) -> Result<String, Fault> {
    union_text(heap, made?)
}

/// Returns a union with a bound, of one sketch.
fn union_with<'h>(
    heap: &'h Heap,
    lg_max_k: u8,
    sketch: &HllSketch<&'h Heap>,
) -> Result<HllUnion<&'h Heap>, Fault> {
    let mut union = HllUnion::new(heap, lg_max_k)?;
    union.update(sketch)?;
    Ok(union)
}

/// Returns a union of one 8-bit sketch, whose `lg_k` is the bound.
pub(crate) fn union_in(heap: &Heap, inside: Shape) -> Result<HllUnion<&Heap>, Fault> {
    let sketch = sketch_in(heap, HllType::Hll8, inside)?;
    union_with(heap, inside.0, &sketch)
}

/// Returns a sketch, and another one twice, in a vector.
fn three_of<'h>(
    alloc: Global,
    one: HllSketch<&'h Heap>,
    two: HllSketch<&'h Heap>,
) -> Result<Vec<HllSketch<&'h Heap>>, Fault> {
    let mut all = Vec::new(alloc);
    all.push(one)?;
    all.push(two.clone()?)?;
    all.push(two)?;
    Ok(all)
}

/// Turns a union into its sketch, and leaves an empty union with the same bound in its place.
fn taken<'h>(
    heap: &'h Heap,
    union: &mut HllUnion<&'h Heap>,
    hll_type: HllType,
) -> Result<HllSketch<&'h Heap>, Error> {
    let lg_max_k = union.lg_max_k();
    mem::replace(union, HllUnion::new(heap, lg_max_k)?).into_sketch(hll_type)
}

impl<'h> UnionTrial<'h> {
    /// Returns the image that a call makes from the bytes of an image: of its union, of the union with itself, at another width,
    /// or with a coupon added.
    fn image_made(&self, image: &[u8]) -> Result<String, Fault> {
        let heap = self.heap;
        match self.call {
            UnionCall::ImageOnce => {
                let made = union_of_one_coupon_image(heap, self.lg_max_k, self.hll_type, image);
                shown(heap, made)
            }
            UnionCall::ImageTwice => {
                let made = union_of_coupon_images(heap, self.lg_max_k, self.hll_type, image, image);
                shown(heap, made)
            }
            UnionCall::ImageWith => {
                let mut more = [coupon_at(self.inside.2).raw()];
                shown(heap, coupon_image_with(heap, image, &mut more))
            }
            _ => shown(heap, coupon_image_at(heap, self.hll_type, image)),
        }
    }

    /// Returns what a call makes of two sketches, or of these and one of them once more.
    fn made(&self, all: &[HllSketch<&'h Heap>]) -> Result<String, Fault> {
        let heap = self.heap;
        let [one, two, _] = all else {
            return Err(Fault::Stack);
        };
        match self.call {
            UnionCall::Agree => shown(heap, agree(one, two)),
            UnionCall::UnionOf => shown_union(heap, union_of(heap, self.lg_max_k, &all[..2])),
            _ => shown_union(heap, union_of(heap, self.lg_max_k, all)),
        }
    }

    /// Makes a call on the union, and returns its result.
    fn given(&self, union: &mut HllUnion<&'h Heap>) -> Result<String, Fault> {
        let heap = self.heap;
        let count = self.inside.2;
        match self.call {
            UnionCall::Clone => shown_union(heap, union.clone()),
            UnionCall::ToSketch => shown_sketch(heap, union.to_sketch(self.hll_type)),
            UnionCall::IntoSketch => shown_sketch(heap, taken(heap, union, self.hll_type)),
            UnionCall::Reset => shown(heap, union.reset()),
            UnionCall::UpdateNew => shown(heap, union.update_with_coupon(coupon_at(count))),
            _ => shown(heap, union.update_value(count)),
        }
    }
}

impl<'h> Trial for UnionTrial<'h> {
    type Subject = Joined<'h>;

    fn make(&self) -> Result<Joined<'h>, Fault> {
        let one = sketch_in(self.heap, HllType::Hll8, self.inside)?;
        let union = union_with(self.heap, self.lg_max_k, &one)?;
        let two = sketch_in(self.heap, self.hll_type, self.incoming)?;
        let image = Vec::from_slice(self.heap.inner(), &two.serialize()?)?;
        Ok((union, three_of(self.heap.inner(), one, two)?, image))
    }

    fn call(&self, joined: &mut Joined<'h>) -> Result<String, Fault> {
        let (union, all, image) = joined;
        match self.call {
            UnionCall::Agree | UnionCall::UnionOf | UnionCall::UnionOfThree => {
                self.made(all.as_slice())
            }
            UnionCall::Update => match all.get(1) {
                Some(two) => shown(self.heap, union.update(two)),
                None => Err(Fault::Stack),
            },
            UnionCall::ImageOnce
            | UnionCall::ImageTwice
            | UnionCall::ImageAt
            | UnionCall::ImageWith => self.image_made(image),
            _ => self.given(union),
        }
    }

    fn show(&self, joined: &Joined<'h>) -> Result<String, Fault> {
        union_text(self.heap, joined.0.clone()?)
    }

    fn spends(&self) -> bool {
        matches!(self.call, UnionCall::IntoSketch)
    }
}

/// A bound, the coupons in the union, and the coupons of the other sketch.
const UNIONS: [(u8, Shape, Shape); 13] = [
    // an empty sketch, and a list in the union
    (8, (8, 0, 7), (8, 0, 0)),
    // a set of eight, and lists, and a list in the union
    (8, (8, 0, 7), (8, 100, 8)),
    (8, (8, 0, 7), (8, 100, 1)),
    (8, (8, 0, 6), (8, 100, 1)),
    // a list, a set, and registers, and an empty union
    (8, (8, 0, 0), (8, 0, 7)),
    (8, (8, 0, 0), (8, 0, 20)),
    (8, (8, 0, 0), (10, 0, 600)),
    // registers, and a set of 200 coupons in the union
    (12, (12, 0, 200), (10, 0, 600)),
    (12, (12, 0, 200), (4, 0, 16)),
    // coupons, and registers in the union; registers, and registers of the same, a greater and a smaller `lg_k` in the
    // union
    (12, (8, 0, 200), (8, 0, 20)),
    (12, (8, 0, 200), (8, 0, 200)),
    (12, (8, 0, 200), (10, 0, 600)),
    (12, (8, 0, 200), (4, 0, 16)),
];

/// The calls, and the requests of each on these unions, for 4-bit, 6-bit and 8-bit registers.
const UNION_CALLS: [(UnionCall, [[u64; 13]; 3]); 14] = [
    (
        UnionCall::Clone,
        [[0, 0, 0, 0, 0, 0, 0, 1, 1, 1, 1, 1, 1]; 3],
    ),
    (
        UnionCall::ToSketch,
        [
            [0, 0, 0, 0, 0, 0, 0, 1, 1, 7, 7, 7, 7],
            [0, 0, 0, 0, 0, 0, 0, 1, 1, 1, 1, 1, 1],
            [0, 0, 0, 0, 0, 0, 0, 1, 1, 1, 1, 1, 1],
        ],
    ),
    (
        UnionCall::IntoSketch,
        [
            [0, 0, 0, 0, 0, 0, 0, 0, 0, 7, 7, 7, 7],
            [0, 0, 0, 0, 0, 0, 0, 0, 0, 1, 1, 1, 1],
            [0; 13],
        ],
    ),
    (UnionCall::Reset, [[0; 13]; 3]),
    (
        UnionCall::Update,
        [[0, 1, 1, 0, 0, 1, 1, 1, 1, 0, 0, 0, 1]; 3],
    ),
    (
        UnionCall::UpdateNew,
        [[1, 1, 1, 0, 0, 0, 0, 0, 0, 0, 0, 0, 0]; 3],
    ),
    (
        UnionCall::UpdateValue,
        [[1, 1, 1, 0, 0, 0, 0, 0, 0, 0, 0, 0, 0]; 3],
    ),
    (
        UnionCall::UnionOf,
        [[0, 1, 1, 0, 0, 1, 1, 2, 2, 1, 1, 1, 2]; 3],
    ),
    (
        UnionCall::UnionOfThree,
        [[0, 4, 1, 0, 0, 6, 1, 2, 2, 1, 1, 1, 2]; 3],
    ),
    (UnionCall::Agree, [[2; 13]; 3]),
    (
        UnionCall::ImageOnce,
        [[0, 1, 1, 1, 1, 1, 0, 0, 0, 0, 0, 0, 0]; 3],
    ),
    (
        UnionCall::ImageTwice,
        [[0, 2, 2, 2, 2, 2, 0, 0, 0, 0, 0, 0, 0]; 3],
    ),
    (
        UnionCall::ImageAt,
        [[1, 1, 1, 1, 1, 1, 0, 0, 0, 1, 0, 0, 0]; 3],
    ),
    (
        UnionCall::ImageWith,
        [[2, 2, 2, 2, 2, 2, 0, 0, 0, 2, 0, 0, 0]; 3],
    ),
];

/// Makes each call on each union, with other sketches of a width.
fn refuse_unions(rt: &impl Abort, heap: &Heap, hll_type: HllType) {
    for (call, [four, six, eight]) in UNION_CALLS {
        let requests = match hll_type {
            HllType::Hll4 => four,
            HllType::Hll6 => six,
            HllType::Hll8 => eight,
        };
        for ((lg_max_k, inside, incoming), requests) in UNIONS.into_iter().zip(requests) {
            let trial = UnionTrial {
                heap,
                lg_max_k,
                inside,
                incoming,
                hll_type,
                call,
            };
            let asked = requests_of(rt, heap, &trial);
            assert_eq!(rt; asked, Ok(requests), "{call:?} {inside:?} {incoming:?}");
        }
    }
}

#[test]
fn refused_unions_of_four_bits(rt: HostRuntime) {
    refuse_unions(&rt, &Heap::new(rt.alloc()), HllType::Hll4);
}

#[test]
fn refused_unions_of_six_bits(rt: HostRuntime) {
    refuse_unions(&rt, &Heap::new(rt.alloc()), HllType::Hll6);
}

#[test]
fn refused_unions_of_eight_bits(rt: HostRuntime) {
    refuse_unions(&rt, &Heap::new(rt.alloc()), HllType::Hll8);
}
