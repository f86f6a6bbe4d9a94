// SPDX-License-Identifier: Apache-2.0
//! 8-bit and 6-bit registers: images written and read back, and states compared.
ghost use Rattle.std.specs.Prelude.{◌≤◌, length};

use crate::register_fixtures::{Images, READ, first_of};
use hll_arrays::{EstimateState, RegisterStore, Registers};
use hll_coupons::coupon::Coupon;
use std::alloc::Global;
use std::process::Abort;
use std::test::Fail;

/// The image of registers of `lg_k` 4 with the cleared state is written, and read with each flag.
pub(crate) fn read_in<S: Images<Global>>(
    rt: &impl Abort,
    alloc: Global,
    store: &S,
    image: &[u8],
) -> Result<(), Fail> {
    let written = store.write_image()?;
    assert_eq!(rt;
        (written.as_slice(), written.capacity()),
        (image, image.len())
    );
    for out_of_order in [true, false] {
        let read = S::read(alloc, image, 4, out_of_order)?;
        let state = EstimateState {
            words: [0; 3],
            out_of_order,
        };
        assert_eq!(rt;
            (first_of(&read), read.estimate_state()),
            (first_of(store), state)
        );
    }
    Ok(())
}

/// The image of these registers with a state as read from an image is written, and read back with other bytes after it.
pub(crate) fn written_in<S: Images<Global>>(
    rt: &impl Abort,
    alloc: Global,
    mut store: S,
    image: &[u8],
) -> Result<(), Fail>
    requires { 40 ≤ length image.now }
{
    store.restore(READ);
    let mut expected = Vec::from_slice(alloc, image)?;
    expected[5] = 0;
    expected[8] = 1;
    expected[16] = 2;
    expected[24] = 3;
    let mut written = store.write_image()?;
    assert_eq!(rt; written.as_slice(), expected.as_slice());
    written.extend_from_slice(&[255, 255])?;
    assert!(rt; S::read(alloc, &written, 4, false)? == store);
    Ok(())
}

/// The last register of the largest store is written through a slot above it, and the image is read back.
pub(crate) fn largest_in<S: Images<Global>>(
    rt: &impl Abort,
    alloc: Global,
) -> Result<(S, Vec<u8>), Fail> {
    let mut store = S::make(alloc, 21)?;
    store.put_coupon(Coupon::pack(67108863, 9))?;
    assert!(rt; store.num_registers() == 2097152);
    let registers = [store.get(0), store.get(2097150), store.get(2097151)];
    assert_eq!(rt; registers, [0, 0, 9]);
    let image = store.write_image()?;
    assert!(rt; S::read(alloc, &image, 21, true)? == store);
    Ok((store, image))
}

/// States, and whether they are equal to `READ`.
const STATES: [([u64; 3], bool, bool); 5] = [
    ([1, 2, 3], false, true),
    ([0, 2, 3], false, false),
    ([1, 3, 3], false, false),
    ([1, 2, 9223372036854775811], false, false),
    ([1, 2, 3], true, false),
];

/// Registers with states that differ in a field or in the flag are not equal. Nor are registers of different sizes.
pub(crate) fn compared_in<S: RegisterStore<Global>>(
    rt: &impl Abort,
    alloc: Global,
    store: &S,
    mut other: S,
) -> Result<(), Fail> {
    for (words, out_of_order, same) in &STATES {
        let state = EstimateState {
            words: *words,
            out_of_order: *out_of_order,
        };
        other.restore(state);
        assert_eq!(rt; (state, *store == other), (state, *same));
    }
    assert!(rt; S::make(alloc, 4)? != S::make(alloc, 5)?);
    Ok(())
}
