// SPDX-License-Identifier: Apache-2.0
//! The order of coupons in sketches that are read from images of lists.
use hll_base::error::Error;
use hll_coupons::coupon::Coupon;
use hll_sketch::{HllSketch, Mode};
use std::alloc::Global;
use std::test::Fail;

/// Eight buckets with gaps between slot 7 with value 2 and slot 5 with value 1.
const BUCKETS: [u8; 40] = [
    2, 1, 7, 10, 3, 0, 2, 8, 0, 0, 0, 0, 7, 0, 0, 8, 0, 0, 0, 0, 0, 0, 0, 0, 5, 0, 0, 4, 0, 0, 0,
    0, 0, 0, 0, 0, 0, 0, 0, 0,
];

/// Returns the first three coupons of a list, in the order of its buckets.
fn coupons_in(sketch: &HllSketch) -> [Option<Coupon>; 3] {
    match sketch.mode() {
        Mode::List { list, .. } => {
            let mut coupons = list.container().iter();
            [coupons.next(), coupons.next(), coupons.next()]
        }
        _ => [None; 3],
    }
}

/// Returns the coupons of an image of a list, in the order of buckets.
fn coupons_of(alloc: Global, image: &[u8]) -> Result<[Option<Coupon>; 3], Error> {
    Ok(coupons_in(&HllSketch::deserialize(alloc, image)?))
}

/// Returns what is written for the sketch of an image.
fn written(alloc: Global, image: &[u8]) -> Result<Vec<u8>, Error> {
    HllSketch::deserialize(alloc, image)?.serialize()
}

/// Gaps between filled buckets are closed. The coupons keep their order until they are written, in ascending order.
#[test]
fn lists(rt: HostRuntime) -> Result<(), Fail> {
    let placed = [Some(Coupon::pack(7, 2)), Some(Coupon::pack(5, 1)), None];
    assert_eq!(rt; coupons_of(rt.alloc(), &BUCKETS), Ok(placed));
    let image = written(rt.alloc(), &BUCKETS)?;
    let ascending = [Some(Coupon::pack(5, 1)), Some(Coupon::pack(7, 2)), None];
    assert_eq!(rt; coupons_of(rt.alloc(), &image), Ok(ascending));
    Ok(())
}
