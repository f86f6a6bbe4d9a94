// SPDX-License-Identifier: Apache-2.0
//! Values and calls that several tests use.
ghost use Rattle.std.specs.Prelude.{◌≤◌};

use hll_arrays::merge::merge_from;
use hll_arrays::{Array6, Array8, EstimateState, RegisterStore, Registers};
use hll_base::cursor::SketchSlice;
use hll_base::error::Error;
use hll_coupons::coupon::Coupon;
use std::alloc::{Allocator, Global};
use std::process::Abort;
use std::test::Fail;

/// A state as it is read from an image.
pub(crate) const READ: EstimateState = EstimateState {
    words: [1, 2, 3],
    out_of_order: false,
};

/// Registers that can be copied, and read from an image.
pub(crate) trait Images<A: Allocator>: RegisterStore<A> {
    /// Reads the part of an image after the header.
    fn read(alloc: A, image: &[u8], lg_k: u8, out_of_order: bool) -> Result<Self, Error>
    where
        Self: Sized,
        requires least { 4 ≤ lg_k }
        requires most { lg_k ≤ 21 };

    /// Returns a copy.
    fn copied(&self) -> Result<Self, Error>
    where
        Self: Sized;
}

impl<A: Allocator + Clone> Images<A> for Array8<A> {
    fn read(alloc: A, image: &[u8], lg_k: u8, out_of_order: bool) -> Result<Array8<A>, Error> {
        Array8::deserialize_registers(alloc, after_header(image)?, lg_k, out_of_order)
    }

    fn copied(&self) -> Result<Array8<A>, Error> {
        self.clone()
    }
}

impl<A: Allocator + Clone> Images<A> for Array6<A> {
    fn read(alloc: A, image: &[u8], lg_k: u8, out_of_order: bool) -> Result<Array6<A>, Error> {
        Array6::deserialize_registers(alloc, after_header(image)?, lg_k, out_of_order)
    }

    fn copied(&self) -> Result<Array6<A>, Error> {
        self.clone()
    }
}

/// Returns a cursor after the eight bytes of a header.
fn after_header(image: &[u8]) -> Result<SketchSlice<'_>, Error> {
    let mut cursor = SketchSlice::new(image);
    cursor.read_u64_le()?;
    Ok(cursor)
}

/// Returns coupons from a multiplicative sequence, with all values from 0 to 63.
pub(crate) fn coupons_in<A: Allocator>(alloc: A, count: usize) -> Result<Vec<Coupon, A>, Error> {
    let mut coupons = Vec::new(alloc);
    let mut word = 1u64;
    for _ in 0..count {
        word = word.wrapping_mul(0xd1342543de82ef95);
        let coupon = Coupon::pack((word >> 32) as u32, (word >> 58) as u8);
        coupons.push(coupon)?;
    }
    Ok(coupons)
}

/// Returns the fold of coupons to an `lg_k`, by a plain loop: at each slot the greatest value.
pub(crate) fn folded<A: Allocator>(
    alloc: A,
    coupons: &[Coupon],
    lg_k: u8,
) -> Result<Vec<u8, A>, Error>
    requires { lg_k ≤ 21 }
{
    let mut registers = vec![in alloc; 0u8; 1usize << lg_k]?;
    for coupon in coupons {
        let at = coupon.slot() as usize % (1usize << lg_k);
        if let Some(register) = registers.get_mut(at) {
            *register = coupon.value().max(*register);
        }
    }
    Ok(registers)
}

/// Returns the greater register at each slot, by a plain loop.
pub(crate) fn joined<A: Allocator>(
    alloc: A,
    left: &[u8],
    right: &[u8],
) -> Result<Vec<u8, A>, Error> {
    let mut registers = Vec::new(alloc);
    for (one, other) in left.iter().zip(right) {
        registers.push(*one.max(other))?;
    }
    Ok(registers)
}

/// Returns new registers, and checks that they are 0 and have the cleared state.
pub(crate) fn new_in<S: RegisterStore<Global>>(
    rt: &impl Abort,
    alloc: Global,
    lg_k: u8,
) -> Result<S, Fail>
    requires least { 4 ≤ lg_k }
    requires most { lg_k ≤ 21 }
{
    let store = S::make(alloc, lg_k)?;
    assert_eq!(rt;
        (store.lg_k(), store.num_registers()),
        (lg_k, 1usize << lg_k)
    );
    assert_eq!(rt;
        (first_of(&store), store.estimate_state()),
        ([0; 16], EstimateState::CLEARED)
    );
    Ok(store)
}

/// Returns the registers of coupons, made by updates, with a state as read from an image.
pub(crate) fn store_of<S: RegisterStore<A>, A: Allocator>(
    alloc: A,
    lg_k: u8,
    coupons: &[Coupon],
) -> Result<S, Error>
    requires least { 4 ≤ lg_k }
    requires most { lg_k ≤ 21 }
{
    let mut store = S::make(alloc, lg_k)?;
    for coupon in coupons {
        store.put_coupon(*coupon)?;
    }
    store.restore(READ);
    Ok(store)
}

/// Merges a source of no smaller `lg_k` into registers with a state as read from an image.
pub(crate) fn merge<R: Registers>(rt: &impl Abort, array: &mut Array8, source: &R) {
    array.restore_estimate_state(READ);
    assert!(rt; array.lg_k() <= source.lg_k());
    merge_from(array, source);
}

/// Returns the first sixteen registers.
pub(crate) fn first_of<R: Registers>(store: &R) -> [u8; 16] {
    let mut registers = [0u8; 16];
    for slot in 0..16usize {
        if slot < store.num_registers() {
            registers[slot] = store.get(slot as u32);
        }
    }
    registers
}
