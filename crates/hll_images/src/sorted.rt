// SPDX-License-Identifier: Apache-2.0
//! Puts the coupons of an image in ascending order: up to `FEW` of them are sorted in an array on the stack.
ghost use Rattle.std.specs.Prelude.{◌≡◌, ◌<◌, ◌≤◌, take, length, IfSome, IfNone, OnSome};
ghost use Rattle.std.specs.List.Sorted.{IsPermutation, IsStrictlyIncreasing};
ghost use Rattle.hll_coupons.specs.Coupons.{raw_coupons, AreCoupons, IsAscending};
ghost use Rattle.hll_coupons.specs.Pair.{set_of};
ghost use Rattle.hll_images.specs.CouponImages.{HasEvidentCoupons};
ghost use Rattle.hll_sketch.specs.Header.{header_of};
ghost use Rattle.hll_sketch.specs.Image.{HasHeader, stage_bits};
ghost use Rattle.hll_sketch.specs.MergedIn.{IsOfCoupons};
ghost use Rattle.hll_sketch.specs.Updatable.{HasUpdatableCoupons};

use hll_base::cursor::SketchSlice;
use hll_sketch::coupon_room::{CouponRoom, ROOM};
use hll_sketch::header::Header;
use hll_sketch::raw_coupons::{FEW, RawCoupons, counted_coupons};
use hll_sketch::updatable::{gathered_coupons, put};

/// Returns the coupons of an image of a list or a set in ascending order. They are borrowed from the image if it is compact and
/// they ascend; else they are sorted into `room`. Returns `None` unless the image is compact, and its coupons ascend or are at
/// most `FEW`, or it is updatable and has 1 to `FEW` coupons.
pub fn coupons_in_order<'a>(
    bytes: &'a [u8],
    header: Header,
    room: &'a mut CouponRoom,
) -> Option<RawCoupons<'a>>
    requires has { HasHeader bytes.now (stage_bits bytes.now) }
    requires stage { stage_bits bytes.now < 3 }
    requires header { header ≡ header_of bytes.now }
    ensures some { IfSome result (λ w. IsOfCoupons bytes.now (raw_coupons w.count w.bytes.now)) }
    ensures ascend { IfSome result (λ w. IsStrictlyIncreasing (raw_coupons w.count w.bytes.now)) }
    ensures none { IfNone result (HasEvidentCoupons bytes.now → ⊥) }
{
    let Some(coupons) = counted_coupons(bytes, header) else {
        return updatable_coupons_in_order(bytes, header, room);
    };
    if coupons.ascend() {
        return Some(coupons);
    }
    if FEW < coupons.count {
        return None;
    }
    sorted(coupons, room)
}

/// Returns the coupons of an updatable image of a list or a set, sorted into `room`. Returns `None` unless there are 1 to
/// `FEW`.
// (not inlined: coupons that ascend don't need it)
#[inline(never)]
fn updatable_coupons_in_order<'a>(
    bytes: &[u8],
    header: Header,
    room: &'a mut CouponRoom,
) -> Option<RawCoupons<'a>>
    requires has { HasHeader bytes.now (stage_bits bytes.now) }
    requires stage { stage_bits bytes.now < 3 }
    requires header { header ≡ header_of bytes.now }
    ensures some { IfSome result (λ w. IsOfCoupons bytes.now (raw_coupons w.count w.bytes.now)) }
    ensures ascend { IfSome result (λ w. IsStrictlyIncreasing (raw_coupons w.count w.bytes.now)) }
    ensures none { IfNone result (HasUpdatableCoupons bytes.now → ⊥) }
{
    let mut gathered = CouponRoom::new();
    let coupons = gathered_coupons(bytes, header, &mut gathered)?;
    sorted(coupons, room)
}

/// Sorts raw coupons, at most `FEW`, into `room`, and returns them. Returns `None` unless each has a value
/// above 0, and no two are equal.
// (not inlined: a caller would have to clear the numbers at each of its own calls)
#[inline(never)]
fn sorted<'a>(coupons: RawCoupons<'_>, room: &'a mut CouponRoom) -> Option<RawCoupons<'a>>
    requires few { coupons.count ≤ 128 }
    ensures some { IfSome result (λ w. IsAscending (raw_coupons w.count w.bytes.now) (set_of (raw_coupons coupons.entry.count coupons.entry.bytes.now))) }
    ensures are { OnSome result (AreCoupons (raw_coupons coupons.entry.count coupons.entry.bytes.now)) }
    ensures none { IfNone result (AreCoupons (raw_coupons coupons.entry.count coupons.entry.bytes.now) → ⊥) }
{
    let mut numbers = [0; FEW];
    read_raw_coupons(coupons, &mut numbers);
    sorted_numbers(&mut numbers[..coupons.count], room)
}

/// Sorts raw coupons, at most `FEW`, writes them into `room`, and returns them. Returns `None` unless each has
/// a value above 0, and no two are equal.
pub fn sorted_numbers<'a>(numbers: &mut [u32], room: &'a mut CouponRoom) -> Option<RawCoupons<'a>>
    requires few { length numbers.old ≤ 128 }
    ensures some { IfSome result (λ w. IsAscending (raw_coupons w.count w.bytes.now) (set_of numbers.old)) }
    ensures are { OnSome result (AreCoupons numbers.old) }
    ensures none { IfNone result (AreCoupons numbers.old → ⊥) }
    ensures order { IsPermutation numbers.old numbers.new }
{
    numbers.sort_unstable();
    let bytes = room.cleared();
    write_raw_coupons(numbers, bytes);
    let sorted = RawCoupons {
        bytes,
        count: numbers.len(),
    };
    if !sorted.ascend() {
        return None;
    }
    Some(sorted)
}

/// Reads raw coupons, at most `FEW`, into the first elements of `numbers`.
fn read_raw_coupons(coupons: RawCoupons<'_>, numbers: &mut [u32; FEW])
    requires { coupons.count ≤ 128 }
    ensures { take coupons.entry.count numbers.new ≡ raw_coupons coupons.entry.count coupons.entry.bytes.now }
{
    let mut cursor = SketchSlice::new(coupons.bytes);
    for index in 0..coupons.count {
        let Ok(raw_coupon) = cursor.read_u32_le() else {
            return;
        };
        numbers[index] = raw_coupon;
    }
}

/// Writes numbers, at most `FEW`, into the first bytes of `room`, four bytes each.
fn write_raw_coupons(numbers: &[u32], room: &mut [u8; ROOM])
    requires { length numbers.now ≤ 128 }
    ensures { raw_coupons (length numbers.now) room.new ≡ numbers.now }
{
    for index in 0..numbers.len() {
        put(room, index, numbers[index]);
    }
}
