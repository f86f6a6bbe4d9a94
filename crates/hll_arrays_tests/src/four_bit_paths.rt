// SPDX-License-Identifier: Apache-2.0
//! 4-bit registers whose exceptions share one path of their table, compared with 8-bit registers.
ghost use Rattle.std.specs.Prelude.{◌≤◌};

use hll_arrays::convert::convert;
use hll_arrays::merge::merge_from;
use hll_arrays::{Array4, Array8, AuxFormat};
use hll_base::cursor::SketchSlice;
use hll_base::error::{Error, Reason};
use hll_coupons::coupon::Coupon;
use std::alloc::{AllocError, Global};
use std::test::Fail;

/// Returns the exceptions that fill three quarters of a table with half as many buckets as there are registers. Two of
/// them start at each of the first buckets, so each search goes through those that came before. The last one is 15, the
/// others are greater.
fn on_a_path(alloc: Global, lg_k: u8, reversed: bool) -> Result<Vec<Coupon>, AllocError>
    requires least { 4 ≤ lg_k }
    requires most { lg_k ≤ 12 }
{
    let half = 1u32 << (lg_k - 1);
    let count = half / 4 * 3;
    let mut coupons = Vec::new(alloc);
    for index in 0..count {
        let number = if reversed { count - 1 - index } else { index };
        let value = if number == 0 {
            15
        } else {
            20 + (number % 40) as u8
        };
        coupons.push(Coupon::pack(number / 2 + number % 2 * half, value))?;
    }
    Ok(coupons)
}

/// Returns registers with these exceptions, one register of 0, and the others 1.
fn registers_of(alloc: Global, lg_k: u8, coupons: &[Coupon]) -> Result<Array8, Error>
    requires least { 4 ≤ lg_k }
    requires most { lg_k ≤ 12 }
{
    let mut array = Array8::new(alloc, lg_k)?;
    for slot in 1..1u32 << lg_k {
        array.update(Coupon::pack(slot - 1, 1));
    }
    for coupon in coupons {
        array.update(*coupon);
    }
    Ok(array)
}

/// Returns the part of their image after the header: fields of 0, the counts, the nibbles, and the exceptions in their
/// order.
fn payload_of(alloc: Global, values: &[u8], coupons: &[Coupon]) -> Result<Vec<u8>, Error> {
    let mut bytes = Vec::new(alloc);
    bytes.extend_from_slice(&[0; 28])?;
    bytes.extend_from_slice(&u32::to_le_bytes(coupons.len().min(1 << 21) as u32))?;
    for pair in values.chunks_exact(2) {
        bytes.push(pair[0].min(15) | pair[1].min(15) << 4)?;
    }
    for coupon in coupons {
        bytes.extend_from_slice(&u32::to_le_bytes(coupon.raw()))?;
    }
    Ok(bytes)
}

/// Returns the 4-bit registers that are read from it.
fn read(alloc: Global, lg_k: u8, values: &[u8], coupons: &[Coupon]) -> Result<Array4, Error>
    requires least { 4 ≤ lg_k }
    requires most { lg_k ≤ 12 }
{
    let bytes = payload_of(alloc, values, coupons)?;
    let cursor = SketchSlice::new(&bytes);
    Array4::deserialize(alloc, cursor, 0, lg_k, AuxFormat::Compact, true)
}

/// Returns whether 4-bit registers are the same as 8-bit registers: merged into 8-bit registers, converted from them,
/// and by their weights.
fn are_same(alloc: Global, four: &Array4, eight: &Array8) -> Result<bool, Error> {
    let mut wide = Array8::new(alloc, eight.lg_k())?;
    if wide.lg_k() <= four.lg_k() {
        merge_from(&mut wide, four);
    }
    let narrow: Array4 = convert(eight)?;
    Ok(wide.values() == eight.values() && narrow == *four && four.kxq_units() == eight.kxq_units())
}

/// Exceptions read in any order give the same registers as updates one by one, also after the minimum rises: then one
/// exception is no longer one, and the others stay.
#[test]
fn exceptions_on_a_path(rt: HostRuntime) -> Result<(), Fail> {
    for lg_k in 4..13u8 {
        for reversed in [false, true] {
            let coupons = on_a_path(rt.alloc(), lg_k, reversed)?;
            let mut eight = registers_of(rt.alloc(), lg_k, &coupons)?;
            let mut four = read(rt.alloc(), lg_k, eight.values(), &coupons)?;
            assert!(rt; are_same(rt.alloc(), &four, &eight)?, "{lg_k} {reversed}");
            let last = Coupon::pack((1 << lg_k) - 1, 1);
            four.update(last)?;
            eight.update(last);
            assert_eq!(rt; four.cur_min(), 1);
            assert!(rt; are_same(rt.alloc(), &four, &eight)?, "{lg_k} {reversed}");
        }
    }
    Ok(())
}

/// An exception that occurs twice is rejected, wherever it is.
#[test]
fn doubled_on_a_path(rt: HostRuntime) -> Result<(), Fail> {
    for twice in [0, 1, 700, 1535usize] {
        let mut coupons = on_a_path(rt.alloc(), 12, false)?;
        let eight = registers_of(rt.alloc(), 12, &coupons)?;
        let again = coupons.get(twice).copied().unwrap_or(Coupon::EMPTY);
        coupons.push(again)?;
        let refusal = read(rt.alloc(), 12, eight.values(), &coupons).err();
        let reason = refusal.map(|e| e.reason());
        assert_eq!(rt; reason, Some(Reason::Coupon), "{twice}");
    }
    Ok(())
}
