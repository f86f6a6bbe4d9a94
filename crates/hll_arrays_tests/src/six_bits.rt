// SPDX-License-Identifier: Apache-2.0
//! 6-bit registers: groups of four, at values worked out by hand.
ghost use Rattle.std.specs.Prelude.{◌≡◌, IfOk};

use crate::register_fixtures::{first_of, new_in};
use crate::register_images::{largest_in, read_in, written_in};
use hll_arrays::{Array6, RegisterStore, Registers};
use hll_base::error::Error;
use hll_coupons::coupon::Coupon;
use std::alloc::Allocator;
use std::test::Fail;

/// Registers at `lg_k` 4.
pub(crate) const THREE: [u8; 16] = [0, 63, 42, 51, 0, 0, 0, 0, 0, 0, 0, 0, 0, 0, 0, 0];

/// The image of these registers with the cleared state: header, fields, counts, registers, and a zero byte.
pub(crate) const IMAGE: [u8; 53] = [
    0x0a, 0x01, 0x07, 0x04, 0x00, 0x10, 0x00, 0x06, 0, 0, 0, 0, 0, 0, 0, 0, 0, 0, 0, 0, 0, 0, 0, 0,
    0, 0, 0, 0, 0, 0, 0, 0, 0x0d, 0, 0, 0, 0, 0, 0, 0, 0xc0, 0xaf, 0xce, 0, 0, 0, 0, 0, 0, 0, 0, 0,
    0,
];

/// Returns the registers of `THREE`, made by updates.
pub(crate) fn three_in<A: Allocator>(alloc: A) -> Result<Array6<A>, Error>
    ensures { IfOk result (λ a. a.lg_k ≡ 4) }
{
    let mut array = Array6::new(alloc, 4)?;
    array.update(Coupon::pack(1, 63));
    array.update(Coupon::pack(2, 42));
    array.update(Coupon::pack(3, 51));
    Ok(array)
}

/// New registers of each size.
#[test]
fn new_registers(rt: HostRuntime) -> Result<(), Fail> {
    for lg_k in 4..22u8 {
        let array: Array6 = new_in(&rt, rt.alloc(), lg_k)?;
        assert_eq!(rt;
            (array.is_empty(), array.num_zeros(), array.kxq_units()),
            (true, 1u32 << lg_k, 1u128 << (63 + lg_k))
        );
    }
    Ok(())
}

/// The maximum of value i and register `first + i`.
#[test]
fn takes_max(rt: HostRuntime) -> Result<(), Fail> {
    let array = three_in(rt.alloc())?;
    array.lg_k();
    let mut all = [50u8; 16];
    array.max_into(0, &mut all);
    assert_eq!(rt;
        all,
        [
            50, 63, 50, 51, 50, 50, 50, 50, 50, 50, 50, 50, 50, 50, 50, 50
        ]
    );
    let mut front = [0u8, 62, 63, 51];
    array.max_into(0, &mut front);
    assert_eq!(rt; front, [0, 63, 63, 51]);
    let mut after = [1u8, 2, 3, 4, 5, 6, 7, 8];
    array.max_into(4, &mut after);
    assert_eq!(rt; after, [1, 2, 3, 4, 5, 6, 7, 8]);
    array.max_into(16, &mut []);
    Ok(())
}

#[test]
fn images(rt: HostRuntime) -> Result<(), Fail> {
    let array = three_in(rt.alloc())?;
    assert_eq!(rt; first_of(&array), THREE);
    read_in(&rt, rt.alloc(), &array, &IMAGE)?;
    written_in(&rt, rt.alloc(), array, &IMAGE)
}

#[test]
fn largest_registers(rt: HostRuntime) -> Result<(), Fail> {
    let (array, image): (Array6, Vec<u8>) = largest_in(&rt, rt.alloc())?;
    assert_eq!(rt; (array.is_empty(), array.num_zeros()), (false, 2097151));
    assert_eq!(rt;
        (array.kxq_units(), array.estimated_size()),
        ((2097151u128 << 63) + (1 << 54), 1572865)
    );
    assert_eq!(rt; image.len(), 1572905);
    assert_eq!(rt; [image[1572903], image[1572904]], [9 << 2, 0]);
    Ok(())
}
