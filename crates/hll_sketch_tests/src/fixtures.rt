// SPDX-License-Identifier: Apache-2.0
//! Sketches that the tests share.
ghost use Rattle.std.specs.Prelude.{◌≤◌};

use hll_base::error::Error;
use hll_base::hll_type::HllType;
use hll_coupons::coupon::Coupon;
use hll_sketch::HllSketch;
use std::alloc::{Allocator, Global};

/// All widths.
pub(crate) const WIDTHS: [HllType; 3] = [HllType::Hll4, HllType::Hll6, HllType::Hll8];

/// Returns a sketch with coupons of the slots from 0 on. Their values are 1 to the greatest, in turn.
pub(crate) fn filled<A: Allocator + Clone>(
    alloc: A,
    lg_k: u8,
    hll_type: HllType,
    count: u32,
    greatest: u8,
) -> Result<HllSketch<A>, Error>
    requires least { 1 ≤ greatest }
    requires most { greatest ≤ 63 }
{
    let mut sketch = HllSketch::new(alloc, lg_k, hll_type)?;
    for slot in 0..count {
        let value = 1 + (slot % u32::from(greatest)) as u8;
        sketch.update_with_coupon(Coupon::pack(slot, value))?;
    }
    Ok(sketch)
}

/// Returns the index of the last bucket of the table of an image of coupons.
fn last_bucket(image: &[u8]) -> usize
    ensures { result ≤ 255 }
{
    match image.get(4) {
        Some(3) => 7,
        Some(5) => 31,
        Some(6) => 63,
        Some(7) => 127,
        _ => 255,
    }
}

/// Returns the image of a list or a set of this many coupons with all buckets of its table, including the empty ones, and more
/// bytes after it.
pub(crate) fn updatable_image(alloc: Global, source: (u32, u8)) -> Result<Vec<u8>, Error> {
    let (count, lg_k) = source;
    let compact = filled(alloc, lg_k, HllType::Hll8, count, 63)?.serialize()?;
    let last = last_bucket(&compact);
    let head = if last == 7 { 8 } else { 12 };
    let mut image = Vec::from_slice(alloc, &compact[..head.min(compact.len())])?;
    if let Some(flags) = image.get_mut(5) {
        *flags &= 0xf7;
    }
    image.resize(head + 4 * last + 7, 0)?;
    for (number, byte) in compact.iter().skip(head).enumerate() {
        let index = (number / 4).wrapping_mul(5).wrapping_add(3) & last;
        let at = index.wrapping_mul(4).wrapping_add(head + number % 4);
        if let Some(room) = image.get_mut(at) {
            *room = *byte;
        }
    }
    Ok(image)
}

/// Returns an image with the four bytes at one index copied to another.
pub(crate) fn with_bytes_twice(
    alloc: Global,
    image: &[u8],
    from: usize,
    to: usize,
) -> Result<Vec<u8>, Error> {
    let mut changed = Vec::from_slice(alloc, image)?;
    for index in 0..4 {
        let byte = image.get(from.wrapping_add(index));
        if let (Some(byte), Some(room)) = (byte, changed.get_mut(to.wrapping_add(index))) {
            *room = *byte;
        }
    }
    Ok(changed)
}
