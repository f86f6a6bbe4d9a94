// SPDX-License-Identifier: Apache-2.0
//! 8-bit registers: the calls that only they have, at values worked out by hand.
ghost use Rattle.std.specs.Prelude.{◌≡◌, IfOk};

use crate::register_fixtures::{first_of, new_in};
use crate::register_images::{largest_in, read_in, written_in};
use hll_arrays::Array8;
use hll_base::error::Error;
use hll_coupons::coupon::Coupon;
use std::alloc::Allocator;
use std::test::Fail;

/// Registers at `lg_k` 4 with the values 1 to 8 in the first slots.
pub(crate) const EIGHT: [u8; 16] = [1, 2, 3, 4, 5, 6, 7, 8, 0, 0, 0, 0, 0, 0, 0, 0];

/// The image of these registers with the cleared state: header, fields, counts, registers.
pub(crate) const IMAGE: [u8; 56] = [
    10, 1, 7, 4, 0, 16, 0, 10, 0, 0, 0, 0, 0, 0, 0, 0, 0, 0, 0, 0, 0, 0, 0, 0, 0, 0, 0, 0, 0, 0, 0,
    0, 8, 0, 0, 0, 0, 0, 0, 0, 1, 2, 3, 4, 5, 6, 7, 8, 0, 0, 0, 0, 0, 0, 0, 0,
];

/// Returns the registers of `EIGHT`, made by updates.
pub(crate) fn eight_in<A: Allocator>(alloc: A) -> Result<Array8<A>, Error>
    ensures { IfOk result (λ a. a.lg_k ≡ 4) }
{
    let mut array = Array8::new(alloc, 4)?;
    array.update(Coupon::pack(0, 1));
    array.update(Coupon::pack(1, 2));
    array.update(Coupon::pack(2, 3));
    array.update(Coupon::pack(3, 4));
    array.update(Coupon::pack(4, 5));
    array.update(Coupon::pack(5, 6));
    array.update(Coupon::pack(6, 7));
    array.update(Coupon::pack(7, 8));
    Ok(array)
}

/// New registers of each size.
#[test]
fn new_registers(rt: HostRuntime) -> Result<(), Fail> {
    for lg_k in 4..22u8 {
        let array: Array8 = new_in(&rt, rt.alloc(), lg_k)?;
        assert!(rt; array.is_empty() && array.values().iter().all(|v| *v == 0));
        assert_eq!(rt;
            (array.values().len(), array.num_zeros(), array.kxq_units()),
            (1usize << lg_k, 1u32 << lg_k, 1u128 << (63 + lg_k))
        );
    }
    Ok(())
}

#[test]
fn images(rt: HostRuntime) -> Result<(), Fail> {
    let array = eight_in(rt.alloc())?;
    assert_eq!(rt; first_of(&array), EIGHT);
    read_in(&rt, rt.alloc(), &array, &IMAGE)?;
    written_in(&rt, rt.alloc(), array, &IMAGE)
}

#[test]
fn largest_registers(rt: HostRuntime) -> Result<(), Fail> {
    let (array, image): (Array8, Vec<u8>) = largest_in(&rt, rt.alloc())?;
    assert_eq!(rt;
        (array.is_empty(), array.num_zeros(), image.len()),
        (false, 2097151, 2097192)
    );
    Ok(())
}
