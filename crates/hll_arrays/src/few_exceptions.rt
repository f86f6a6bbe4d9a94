// SPDX-License-Identifier: Apache-2.0
//! 4-bit registers with few exceptions, in the part of an image after the header (docs/FORMAT.md, "HLL"). The exceptions are
//! compared each with each, so they need no map and no allocation.
ghost use Rattle.std.specs.Prelude.{◌≡◌, ◌+◌, ◌*◌, ◌%◌, ◌^◌, ◌≤◌, true, None, Some, All, IfSome, length, map, take};
ghost use Rattle.std.specs.Int.{w32, from_le_bytes};
ghost use Rattle.hll_arrays.specs.FewExceptions.{registers_with, HasExceptions};
ghost use Rattle.hll_coupons.specs.AuxMap.{entry_at};
ghost use Rattle.hll_coupons.specs.Coupons.{raw_coupons};
ghost use Rattle.hll_coupons.specs.Pair.{slot_of, value_of};
ghost use Rattle.hll_kernels.specs.Packed.{nibble_at};
ghost use Rattle.hll_registers.specs.Payload.{hll4_size, registers_of, shape_of_hll4, Agrees, AreEntries, IsHll4Payload};
ghost use Rattle.hll_registers.specs.declared.aux_format.AuxFormat.TheVariants.{Compact};

use crate::four_bit_payload::{Hll4Header, frame_of};
use hll_base::cursor::SketchSlice;
use hll_coupons::coupon::Coupon;
use hll_coupons::raw_coupons::elements_of_raw_coupons;
use hll_kernels::nibbles::{MARK, count_mark_nibbles, nibble_of};
use hll_registers::agreement::are_plain;
use hll_registers::aux_format::AuxFormat;
use hll_registers::registers::two_to;

/// The greatest number of exceptions that are compared each with each.
const FEW: usize = 8;

/// 4-bit registers of an image that passes all checks, with 1 to 8 exceptions.
#[derive(Clone, Copy, Debug)]
pub struct FewExceptions<'a> {
    /// The logarithm of the number of registers, 4 to 21.
    pub lg_k: u8,
    /// The minimum, 0 to 48. It may be below the least register.
    pub minimum: u8,
    /// The nibbles, two in a byte, the lower half of a byte first. A nibble of 15 marks an exception.
    pub nibbles: &'a [u8],
    /// The exceptions as raw coupons, the lowest byte first. Their slots count modulo 2^`lg_k`, and differ.
    pub entries: &'a [[u8; 4]],
}

/// Returns the registers in the part of an image of 4-bit registers after the header, if it has 1 to 8 exceptions without gaps
/// between them and passes all checks. Returns `None` for other bytes. `cur_min` is the state byte. Allocates nothing.
///
/// `lg_config_k` is 4 to 21.
pub fn read_few_exceptions(
    cursor: SketchSlice<'_>,
    cur_min: u8,
    lg_config_k: u8,
) -> Option<FewExceptions<'_>>
    requires least { 4 ≤ lg_config_k }
    requires most { lg_config_k ≤ 21 }
    ensures payload { let h = shape_of_hll4 lg_config_k cur_min Compact in
        IfSome result (λ _. IsHll4Payload h (take (hll4_size h cursor.entry) cursor.entry)) }
    ensures registers { let h = shape_of_hll4 lg_config_k cur_min Compact in
        IfSome result (λ r. registers_with r.lg_k r.minimum r.nibbles.now (map (from_le_bytes w32) r.entries.now) ≡ registers_of h (take (hll4_size h cursor.entry) cursor.entry)) }
    ensures parts { IfSome result (λ r. (r.lg_k ≡ lg_config_k) × HasExceptions r.lg_k r.minimum r.nibbles.now (map (from_le_bytes w32) r.entries.now)) }
{
    let header = Hll4Header {
        lg_config_k,
        cur_min,
        aux_format: AuxFormat::Compact,
        ooo: false,
    };
    let Ok(frame) = frame_of(cursor, header) else {
        return None;
    };
    let count = frame.buckets;
    if count == 0 || count > FEW {
        return None;
    }
    if !agree(frame.nibbles, frame.entries, count, lg_config_k, cur_min) {
        return None;
    }
    Some(FewExceptions {
        lg_k: lg_config_k,
        minimum: cur_min,
        nibbles: frame.nibbles,
        entries: elements_of_raw_coupons(frame.entries, count),
    })
}

/// Returns whether the first raw coupons of some bytes, at least one, are exceptions that agree with the nibbles: their slots
/// differ, each has a nibble of 15 and is at least 15 above the minimum, no other slot has such a nibble, and each other register
/// is at most 63.
fn agree(nibbles: &[u8], entries: &[u8], count: usize, lg_k: u8, minimum: u8) -> bool
    requires most { lg_k ≤ 21 }
    requires size { 2 * length nibbles.now ≡ 2 ^ lg_k }
    requires some { 1 ≤ count }
    requires there { 4 * count ≤ length entries.now }
    ensures { result ≡ true → HasExceptions lg_k minimum nibbles.now (raw_coupons count entries.now) }
{
    count_mark_nibbles(nibbles) as usize == count
        && are_plain(nibbles, minimum)
        && are_exceptions(nibbles, entries, count, lg_k, minimum)
}

/// Returns whether the slots of raw coupons differ, and each has a nibble of 15 and a value at least 15 above the minimum.
fn are_exceptions(nibbles: &[u8], entries: &[u8], count: usize, lg_k: u8, minimum: u8) -> bool
    requires most { lg_k ≤ 21 }
    requires minimum { minimum ≤ 63 }
    requires size { 2 * length nibbles.now ≡ 2 ^ lg_k }
    requires there { 4 * count ≤ length entries.now }
    ensures entries { result ≡ true → AreEntries lg_k (raw_coupons count entries.now) }
    ensures marked { result ≡ true → All (λ c. Agrees minimum (nibble_at nibbles.now (slot_of c % 2 ^ lg_k)) (Some (value_of c))) (raw_coupons count entries.now) }
{
    let mut cursor = SketchSlice::new(entries);
    for index in 0..count {
        let Ok(raw_coupon) = cursor.read_u32_le() else {
            return false;
        };
        let entry = Coupon::from_raw(raw_coupon);
        if !is_marked(nibbles, entry, lg_k, minimum) || !is_new(entries, index, entry, lg_k) {
            return false;
        }
    }
    true
}

/// Returns whether the slot of an exception has a nibble of 15, and its value is at least 15 above the minimum.
fn is_marked(nibbles: &[u8], entry: Coupon, lg_k: u8, minimum: u8) -> bool
    requires most { lg_k ≤ 21 }
    requires minimum { minimum ≤ 63 }
    requires size { 2 * length nibbles.now ≡ 2 ^ lg_k }
    ensures { result ≡ true → Agrees minimum (nibble_at nibbles.now (slot_of entry % 2 ^ lg_k)) (Some (value_of entry)) }
{
    let slot = entry.slot() as usize % two_to(lg_k);
    entry.value() >= minimum + MARK && nibble_of(nibbles, slot) == MARK
}

/// Returns whether none of the first raw coupons of some bytes has the slot of this one.
fn is_new(entries: &[u8], count: usize, entry: Coupon, lg_k: u8) -> bool
    requires most { lg_k ≤ 21 }
    requires there { 4 * count ≤ length entries.now }
    ensures { result ≡ true → entry_at lg_k (raw_coupons count entries.now) (slot_of entry % 2 ^ lg_k) ≡ None }
{
    let slot = entry.slot() as usize % two_to(lg_k);
    let mut cursor = SketchSlice::new(entries);
    for _ in 0..count {
        let Ok(raw_coupon) = cursor.read_u32_le() else {
            return false;
        };
        if Coupon::from_raw(raw_coupon).slot() as usize % two_to(lg_k) == slot {
            return false;
        }
    }
    true
}
