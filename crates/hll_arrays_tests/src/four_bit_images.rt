// SPDX-License-Identifier: Apache-2.0
//! 4-bit registers read from the part of an image after the header, compared with the registers that made it.
ghost use Rattle.std.specs.Prelude.{◌≤◌};

use crate::four_bits::{assert_packed, seen_at};
use crate::register_fixtures::coupons_in;
use hll_arrays::{Array4, Array8, AuxFormat};
use hll_base::cursor::SketchSlice;
use hll_base::error::Error;
use std::alloc::Allocator;
use std::test::Fail;

/// Returns the part of an image after the header: fields 1, 2 and 3, the counts, the nibble bytes, and the exceptions.
fn payload_of<A: Allocator>(
    alloc: A,
    counts: [u32; 2],
    nibbles: &[u8],
    entries: &[u32],
) -> Result<Vec<u8, A>, Error> {
    let mut bytes = Vec::new(alloc);
    for word in [1u64, 2, 3] {
        bytes.extend_from_slice(&word.to_le_bytes())?;
    }
    for count in counts {
        bytes.extend_from_slice(&count.to_le_bytes())?;
    }
    bytes.extend_from_slice(nibbles)?;
    for entry in entries {
        bytes.extend_from_slice(&entry.to_le_bytes())?;
    }
    Ok(bytes)
}

/// Returns the nibble bytes of registers.
fn nibbles_of<A: Allocator>(alloc: A, array: &Array4<A>, lg_k: u8) -> Result<Vec<u8, A>, Error>
    requires least { 4 ≤ lg_k }
    requires most { lg_k ≤ 21 }
{
    let mut nibbles = Vec::new(alloc);
    for pair in 0..1u32 << (lg_k - 1) {
        let (low, high) = (seen_at(array, 2 * pair).0, seen_at(array, 2 * pair + 1).0);
        nibbles.push(high.wrapping_mul(16).wrapping_add(low))?;
    }
    Ok(nibbles)
}

/// Returns the raw coupons of the exceptions, and their number.
fn entries_of<A: Allocator>(
    alloc: A,
    array: &Array4<A>,
    lg_k: u8,
) -> Result<(Vec<u32, A>, u32), Error>
    requires { lg_k ≤ 21 }
{
    let mut entries = Vec::new(alloc);
    let mut count = 0u32;
    for slot in 0..1u32 << lg_k {
        if let Some(value) = seen_at(array, slot).1 {
            let word = u32::from(value).wrapping_mul(0x0400_0000);
            entries.push(word.wrapping_add(slot))?;
            count = count.saturating_add(1);
        }
    }
    Ok((entries, count))
}

/// Registers of each size, made by updates, and read back from their nibbles and exceptions.
#[test]
fn sizes(rt: HostRuntime) -> Result<(), Fail> {
    for lg_k in 4..11u8 {
        let mut four = Array4::new(rt.alloc(), lg_k)?;
        let mut eight = Array8::new(rt.alloc(), lg_k)?;
        for coupon in &coupons_in(rt.alloc(), 3usize << lg_k)? {
            four.update(*coupon)?;
            eight.update(*coupon);
        }
        let nibbles = nibbles_of(rt.alloc(), &four, lg_k)?;
        let (entries, count) = entries_of(rt.alloc(), &four, lg_k)?;
        assert!(rt; count > 0);
        let bytes = payload_of(rt.alloc(), [0, count], &nibbles, &entries)?;
        let read = Array4::deserialize(
            rt.alloc(),
            SketchSlice::new(&bytes),
            four.cur_min(),
            lg_k,
            AuxFormat::Compact,
            false,
        )?;
        assert_packed(&rt, &read, eight.values());
    }
    Ok(())
}
