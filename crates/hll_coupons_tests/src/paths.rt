// SPDX-License-Identifier: Apache-2.0
//! Sets whose coupons share one path or a few: the buckets are those of a step-by-step walk.
ghost use Rattle.std.specs.Prelude.{◌≤◌};

use hll_base::cursor::SketchSlice;
use hll_base::error::{Error, Reason};
use hll_coupons::coupon::Coupon;
use hll_coupons::hash_set::HashSet;
use std::alloc::{AllocError, Global};
use std::test::Fail;

/// The logarithm of the number of buckets.
const LG_SIZE: usize = 9;

/// The number of buckets.
const BUCKETS: usize = 512;

/// Returns coupon `index` of `strides` strides that take turns. The first 126 coupons of a stride begin at one bucket,
/// the next 126 at the bucket before it on the path, and so on, so each search goes through the buckets of the coupons
/// that came before.
fn on_paths(index: u32, strides: u32) -> Coupon {
    let strides = strides.max(1);
    let number = index / strides;
    let stride = 2 * (index % strides).min(100) + 15;
    let begin = 4096u32.wrapping_sub((number / 126).wrapping_mul(stride)) % 512;
    let high = stride - (number / 63) % 2;
    Coupon::pack(
        begin.wrapping_add(high.wrapping_mul(512)),
        (number % 63) as u8 + 1,
    )
}

/// Returns the first `count` coupons of some strides, in their order, or from the last to the first.
fn coupons_of(
    alloc: Global,
    count: u32,
    strides: u32,
    reversed: bool,
) -> Result<Vec<Coupon>, AllocError> {
    let mut coupons = Vec::new(alloc);
    for index in 0..count {
        let number = if reversed { count - 1 - index } else { index };
        coupons.push(on_paths(number, strides))?;
    }
    Ok(coupons)
}

/// Puts a coupon into the first empty bucket of its path.
fn put_by_steps(buckets: &mut [Coupon], coupon: Coupon) {
    let size = buckets.len().max(1);
    let stride = coupon.slot() as usize / size | 1;
    let mut bucket = coupon.slot() as usize % size;
    for _ in 0..size {
        match buckets.get_mut(bucket) {
            Some(entry) if entry.is_empty() => {
                *entry = coupon;
                return;
            }
            _ => bucket = bucket.wrapping_add(stride) % size,
        }
    }
}

/// Returns buckets in which the coupons were put one by one.
fn buckets_by_steps(
    alloc: Global,
    size: usize,
    coupons: &[Coupon],
) -> Result<Vec<Coupon>, AllocError> {
    let mut buckets = vec![in alloc; Coupon::EMPTY; size]?;
    for coupon in coupons {
        put_by_steps(&mut buckets, *coupon);
    }
    Ok(buckets)
}

/// Returns whether a set has the coupons of these buckets, in their order.
fn has_buckets(set: &HashSet, buckets: &[Coupon]) -> bool {
    let mut coupons = set.container().iter();
    for bucket in buckets {
        if !bucket.is_empty() && coupons.next() != Some(*bucket) {
            return false;
        }
    }
    coupons.next().is_none()
}

/// Returns the count and the coupons, as they are after the header of an image.
fn image_of(alloc: Global, coupons: &[Coupon]) -> Result<Vec<u8>, AllocError> {
    let mut bytes = Vec::new(alloc);
    bytes.extend_from_slice(&u32::to_le_bytes(coupons.len().min(BUCKETS) as u32))?;
    for coupon in coupons {
        bytes.extend_from_slice(&u32::to_le_bytes(coupon.raw()))?;
    }
    Ok(bytes)
}

/// Returns the set that is read from the image of these coupons.
fn read(alloc: Global, coupons: &[Coupon]) -> Result<HashSet, Error> {
    let image = image_of(alloc, coupons)?;
    HashSet::deserialize(alloc, SketchSlice::new(&image), LG_SIZE, true)
}

/// Returns a set of twice the number of buckets with the coupons of a set, or `None` if they don't fit.
fn grown(alloc: Global, set: &HashSet) -> Result<Option<HashSet>, Error> {
    if set.container().len() > 2 * BUCKETS {
        return Ok(None);
    }
    let larger = HashSet::from_container(alloc, LG_SIZE + 1, set.container())?;
    Ok(Some(larger))
}

/// Numbers of coupons and of their strides: three quarters of the buckets are filled, or all but one.
const CASES: [(u32, u32); 6] = [(384, 1), (511, 1), (384, 4), (511, 4), (511, 8), (511, 100)];

/// Read in any order, or moved to a larger table, the coupons are in the buckets of a walk.
#[test]
fn buckets_on_paths(rt: HostRuntime) -> Result<(), Fail> {
    for (count, strides) in CASES {
        for reversed in [false, true] {
            let mut coupons = coupons_of(rt.alloc(), count, strides, reversed)?;
            let set = read(rt.alloc(), &coupons)?;
            let buckets = buckets_by_steps(rt.alloc(), BUCKETS, &coupons)?;
            assert!(rt; has_buckets(&set, &buckets), "{count} {strides} {reversed}");
            let larger = grown(rt.alloc(), &set)?;
            let buckets = buckets_by_steps(rt.alloc(), 2 * BUCKETS, &buckets)?;
            let is_same = larger.is_some_and(|larger| has_buckets(&larger, &buckets));
            assert!(rt; is_same, "{count} {strides} {reversed}");
            coupons.sort_unstable();
            let set = read(rt.alloc(), &coupons)?;
            let buckets = buckets_by_steps(rt.alloc(), BUCKETS, &coupons)?;
            assert!(rt; has_buckets(&set, &buckets), "{count} {strides}");
        }
    }
    Ok(())
}

/// A coupon that occurs twice is rejected, wherever it is.
#[test]
fn doubled_on_a_path(rt: HostRuntime) -> Result<(), Fail> {
    for twice in [0, 1, 200, 509] {
        let mut coupons = coupons_of(rt.alloc(), 510, 1, false)?;
        coupons.push(on_paths(twice, 1))?;
        let reason = read(rt.alloc(), &coupons).err().map(|e| e.reason());
        assert_eq!(rt; reason, Some(Reason::Coupon), "{twice}");
        coupons.sort_unstable();
        let reason = read(rt.alloc(), &coupons).err().map(|e| e.reason());
        assert_eq!(rt; reason, Some(Reason::Coupon), "{twice}");
    }
    Ok(())
}
