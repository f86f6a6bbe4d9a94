// SPDX-License-Identifier: Apache-2.0
//! 4-bit registers as a store: sizes, equality, values and weights, worked out by hand.
ghost use Rattle.std.specs.Prelude.{◌≤◌};
ghost use Rattle.hll_kernels.specs.Packed.{AreRegisters};

use crate::four_bits::{assert_packed, one_in};
use crate::register_fixtures::{READ, first_of};
use crate::register_images::compared_in;
use crate::stores::updated;
use hll_arrays::{Array4, Array8, EstimateState, RegisterStore, Registers};
use hll_base::error::Error;
use hll_base::hll_type::HllType;
use hll_coupons::coupon::Coupon;
use std::alloc::{Allocator, Global};
use std::process::Abort;
use std::test::Fail;

/// The image of 20 at slot 0 and 1 at seven others: one exception.
const HIGH: [u8; 52] = [
    0x0a, 0x01, 0x07, 0x04, 0x00, 0x18, 0x00, 0x02, 0, 0, 0, 0, 0, 0, 0, 0, 0, 0, 0, 0, 0, 0, 0, 0,
    0, 0, 0, 0, 0, 0, 0, 0, 0x08, 0, 0, 0, 0x01, 0, 0, 0, 0x1f, 0x11, 0x11, 0x11, 0, 0, 0, 0, 0, 0,
    0, 0x50,
];

/// Returns registers of 20 to 22 at three slots, made by updates in this order.
fn three_in<A: Allocator + Clone>(alloc: A, slots: [u32; 3]) -> Result<Array4<A>, Error> {
    let mut array = Array4::new(alloc, 4)?;
    for slot in slots {
        array.update(Coupon::pack(slot, 20 + (slot % 3) as u8))?;
    }
    Ok(array)
}

/// Returns the registers of `HIGH`, made by updates.
fn high_in<A: Allocator + Clone>(alloc: A) -> Result<Array4<A>, Error> {
    let mut array = Array4::new(alloc, 4)?;
    array.update(Coupon::pack(0, 20))?;
    for slot in 1..8u32 {
        array.update(Coupon::pack(slot, 1))?;
    }
    Ok(array)
}

#[test]
fn updates(rt: HostRuntime) -> Result<(), Fail> {
    let four: Array4 = updated(&rt, rt.alloc())?;
    assert_eq!(rt;
        (four.num_zeros(), four.is_empty(), four.estimated_size()),
        (11, false, 24)
    );
    assert_eq!(rt; Array4::<Global>::WIDTH, HllType::Hll4);
    Ok(())
}

/// Exceptions whose searches begin at one bucket are stored in the order of arrival. Arrays with the same registers are
/// still equal, and have equal images.
#[test]
fn histories(rt: HostRuntime) -> Result<(), Fail> {
    let array = three_in(rt.alloc(), [1, 5, 9])?;
    let mut values = [0u8; 16];
    values[1] = 21;
    values[5] = 22;
    values[9] = 20;
    assert_eq!(rt; first_of(&array), values);
    for slots in [[1u32, 9, 5], [5, 1, 9], [5, 9, 1], [9, 1, 5], [9, 5, 1]] {
        let other = three_in(rt.alloc(), slots)?;
        assert!(rt; array == other && other == array);
        assert!(rt; array.write_image()? == other.write_image()?);
    }
    let at_once: Array4 = RegisterStore::from_values(rt.alloc(), 4, &values)?;
    assert!(rt; array == at_once);
    Ok(())
}

/// Registers that differ in a nibble, an exception, its slot, the minimum or the size are not equal. Nor are those with
/// different states.
#[test]
fn differences(rt: HostRuntime) -> Result<(), Fail> {
    let array = one_in(rt.alloc(), 2, 60, 7)?;
    for (slot, value, others) in [
        (2u32, 61u8, 7u8),
        (3, 60, 7),
        (2, 60, 6),
        (2, 8, 7),
        (2, 7, 7),
    ] {
        assert!(rt; array != one_in(rt.alloc(), slot, value, others)?);
    }
    let mut other = one_in(rt.alloc(), 2, 60, 7)?;
    assert!(rt; array == other);
    other.update(Coupon::pack(9, 8))?;
    assert!(rt; array != other);
    let mut read = high_in(rt.alloc())?;
    read.restore_estimate_state(READ);
    compared_in(&rt, rt.alloc(), &read, high_in(rt.alloc())?)
}

/// Sixteen consecutive values, from 0.
const ROW: [u8; 16] = [0, 1, 2, 3, 4, 5, 6, 7, 8, 9, 10, 11, 12, 13, 14, 15];

/// Sixteen consecutive values, up to 63.
const LAST: [u8; 16] = [
    63, 62, 61, 60, 59, 58, 57, 56, 55, 54, 53, 52, 51, 50, 49, 48,
];

/// Exceptions in the first and the last slot, at 15 above the minimum, and next to each other.
const MIXED: [u8; 16] = [17, 3, 63, 18, 2, 5, 16, 4, 4, 2, 3, 40, 40, 16, 2, 17];

/// Registers made from values have the minimum, nibbles, exceptions and weights of the values.
fn packed_in(rt: &impl Abort, alloc: Global, lg_k: u8, values: &[u8]) -> Result<(), Fail>
    requires least { 4 ≤ lg_k }
    requires most { lg_k ≤ 21 }
    requires registers { AreRegisters lg_k values.now }
{
    let four: Array4 = RegisterStore::from_values(alloc, lg_k, values)?;
    assert_packed(rt, &four, values);
    assert_eq!(rt; four.estimate_state(), EstimateState::CLEARED);
    let eight: Array8 = RegisterStore::from_values(alloc, lg_k, values)?;
    assert_eq!(rt; four.kxq_units(), eight.kxq_units());
    Ok(())
}

#[test]
fn values(rt: HostRuntime) -> Result<(), Fail> {
    packed_in(&rt, rt.alloc(), 4, &[0; 16])?;
    packed_in(&rt, rt.alloc(), 4, &[63; 16])?;
    packed_in(&rt, rt.alloc(), 4, &ROW)?;
    packed_in(&rt, rt.alloc(), 4, &LAST)?;
    packed_in(&rt, rt.alloc(), 4, &MIXED)
}

/// Sums that were worked out by hand.
#[test]
fn weights(rt: HostRuntime) -> Result<(), Fail> {
    assert_eq!(rt; Array4::new(rt.alloc(), 21)?.kxq_units(), 1u128 << 84);
    assert_eq!(rt;
        one_in(rt.alloc(), 0, 15, 1)?.kxq_units(),
        (15u128 << 62) + (1 << 48)
    );
    assert_eq!(rt;
        high_in(rt.alloc())?.kxq_units(),
        (8u128 << 63) + (7 << 62) + (1 << 43)
    );
    Ok(())
}

/// The maximum of value i and register `first + i`.
#[test]
fn takes_max(rt: HostRuntime) -> Result<(), Fail> {
    let array = one_in(rt.alloc(), 5, 40, 3)?;
    array.lg_k();
    assert!(rt; array.num_registers() == 16);
    let mut all = [9u8; 16];
    all[0] = 0;
    array.max_into(0, &mut all);
    assert_eq!(rt; all, [3, 9, 9, 9, 9, 40, 9, 9, 9, 9, 9, 9, 9, 9, 9, 9]);
    let mut part = [1u8, 39, 41, 2];
    array.max_into(4, &mut part);
    assert_eq!(rt; part, [3, 40, 41, 3]);
    let mut greater = [50u8, 50, 50, 50, 0, 0, 0, 0];
    array.max_into(4, &mut greater);
    assert_eq!(rt; greater, [50, 50, 50, 50, 3, 3, 3, 3]);
    array.max_into(16, &mut []);
    Ok(())
}
