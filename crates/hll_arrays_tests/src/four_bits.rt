// SPDX-License-Identifier: Apache-2.0
//! 4-bit registers: the minimum, nibbles and exceptions, at values worked out by hand.
ghost use Rattle.std.specs.Prelude.{◌≤◌};

use crate::register_fixtures::{READ, first_of};
use hll_arrays::{Array4, EstimateState};
use hll_base::error::Error;
use hll_coupons::coupon::Coupon;
use std::alloc::Allocator;
use std::process::Abort;
use std::test::Fail;

/// What calls return for a slot: its nibble, its exception, and its register.
pub(crate) type Seen = (u8, Option<u8>, u8);

pub(crate) fn seen_at<A: Allocator>(array: &Array4<A>, slot: u32) -> Seen {
    if array.num_registers() <= slot as usize {
        return (0, None, 0);
    }
    (array.nibble(slot), array.exception(slot), array.get(slot))
}

/// Returns the minimum, and the number of registers at it.
fn least_of<A: Allocator>(array: &Array4<A>) -> (u8, u32) {
    (array.cur_min(), array.num_at_cur_min())
}

/// Returns sixteen registers, all the same except for one.
pub(crate) fn one_in<A: Allocator + Clone>(
    alloc: A,
    slot: u32,
    value: u8,
    others: u8,
) -> Result<Array4<A>, Error>
    requires value { value ≤ 63 }
    requires others { others ≤ 63 }
{
    let mut array = Array4::new(alloc, 4)?;
    for other in 0..16u32 {
        if other != slot {
            array.update(Coupon::pack(other, others))?;
        }
    }
    array.update(Coupon::pack(slot, value))?;
    Ok(array)
}

/// Registers in this representation are packed like `array`: nibbles, exceptions, minimum, and count at the minimum.
pub(crate) fn assert_packed<A: Allocator>(rt: &impl Abort, array: &Array4<A>, registers: &[u8]) {
    let least = registers.iter().copied().min().unwrap_or(0);
    let count = registers.iter().filter(|r| **r == least).count();
    assert_eq!(rt;
        (array.cur_min(), array.num_at_cur_min() as usize),
        (least, count)
    );
    for (slot, register) in (0..1u32 << 21).zip(registers.iter().copied()) {
        let above = register.saturating_sub(least);
        let exception = if above < 15 { None } else { Some(register) };
        assert_eq!(rt;
            seen_at(array, slot),
            (above.min(15), exception, register),
            "{slot}"
        );
    }
}

/// New registers of each size.
#[test]
fn new_registers(rt: HostRuntime) -> Result<(), Fail> {
    for lg_k in 4..22u8 {
        let array = Array4::new(rt.alloc(), lg_k)?;
        assert_eq!(rt;
            (
                array.lg_k(),
                array.num_registers(),
                array.is_empty(),
                array.num_zeros()
            ),
            (lg_k, 1usize << lg_k, true, 1u32 << lg_k)
        );
        assert_eq!(rt; least_of(&array), (0, 1u32 << lg_k));
        assert_eq!(rt;
            (first_of(&array), array.estimate_state()),
            ([0; 16], EstimateState::CLEARED)
        );
    }
    Ok(())
}

/// The state is cleared exactly if a register changes.
#[test]
fn states(rt: HostRuntime) -> Result<(), Fail> {
    let mut array = one_in(rt.alloc(), 3, 9, 0)?;
    array.restore_estimate_state(READ);
    for value in 0..10u8 {
        array.update(Coupon::pack(19, value))?;
    }
    assert_eq!(rt; array.estimate_state(), READ);
    for value in [10u8, 40, 63] {
        array.restore_estimate_state(READ);
        array.update(Coupon::pack(3, value))?;
        assert_eq!(rt; array.estimate_state(), EstimateState::CLEARED);
    }
    Ok(())
}

/// Returns the nibbles, exceptions and registers of the first four slots, the minimum with its count, and the state.
fn all_of<A: Allocator>(array: &Array4<A>) -> ([Seen; 4], (u8, u32), EstimateState) {
    let seen = [
        seen_at(array, 0),
        seen_at(array, 1),
        seen_at(array, 2),
        seen_at(array, 3),
    ];
    (seen, least_of(array), array.estimate_state())
}

#[test]
fn copies(rt: HostRuntime) -> Result<(), Fail> {
    let mut array = one_in(rt.alloc(), 2, 60, 7)?;
    array.restore_estimate_state(READ);
    let copy = array.clone()?;
    assert_eq!(rt; all_of(&copy), all_of(&array));
    array.update(Coupon::pack(2, 61))?;
    assert_eq!(rt;
        (seen_at(&copy, 2), seen_at(&array, 2)),
        ((15, Some(60), 60), (15, Some(61), 61))
    );
    Ok(())
}
