// SPDX-License-Identifier: Apache-2.0
//! Copies of 8-bit and 6-bit registers.
use crate::eight_bits::eight_in;
use crate::register_fixtures::{Images, READ, first_of};
use crate::register_images::compared_in;
use crate::six_bits::three_in;
use hll_coupons::coupon::Coupon;
use std::alloc::Global;
use std::process::Abort;
use std::test::Fail;

/// A copy of registers of `lg_k` 4 is equal, and independent.
fn copied_in<S: Images<Global>>(rt: &impl Abort, mut store: S) -> Result<S, Fail> {
    let registers = first_of(&store);
    store.restore(READ);
    let mut copy = store.copied()?;
    assert!(rt; copy == store);
    assert_eq!(rt;
        (copy.num_registers(), first_of(&copy), copy.estimate_state()),
        (16, registers, READ)
    );
    copy.put_coupon(Coupon::pack(15, 1))?;
    assert_eq!(rt;
        (first_of(&store), store.estimate_state()),
        (registers, READ)
    );
    copy.restore(READ);
    assert!(rt; copy != store);
    Ok(store)
}

#[test]
fn copies(rt: HostRuntime) -> Result<(), Fail> {
    let eight = copied_in(&rt, eight_in(rt.alloc())?)?;
    compared_in(&rt, rt.alloc(), &eight, eight_in(rt.alloc())?)?;
    let six = copied_in(&rt, three_in(rt.alloc())?)?;
    compared_in(&rt, rt.alloc(), &six, three_in(rt.alloc())?)
}
