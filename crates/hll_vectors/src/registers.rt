// SPDX-License-Identifier: Apache-2.0
//! 8-bit, 6-bit and 4-bit registers: weights, images, merges, states, and exceptions.
ghost use Rattle.std.specs.Prelude.{◌≡◌, ◌≤◌, IfOk};

use hll_arrays::convert::convert;
use hll_arrays::merge::merge_from;
use hll_arrays::{Array4, Array6, Array8, EstimateState, RegisterStore, Registers};
use hll_base::error::Error;
use hll_coupons::coupon::Coupon;
use std::alloc::Global;
use std::process::Abort;
use std::test::Fail;

/// A state as it is read from an image.
const READ: EstimateState = EstimateState {
    words: [1, 2, 3],
    out_of_order: false,
};

/// Returns the image of registers in hexadecimal.
fn image_of<S: RegisterStore<Global>>(alloc: Global, store: &S) -> Result<String, Fail> {
    Ok(hex::encode(alloc, store.write_image()?)?)
}

/// Returns sixteen registers, each set alone, with a state as read from an image.
fn set_in(alloc: Global, values: [u8; 16]) -> Result<Array8, Error>
    ensures { IfOk result (λ a. a.lg_k ≡ 4) }
{
    let mut array = Array8::new(alloc, 4)?;
    for slot in 0..16usize {
        array.set_register(slot, values[slot].min(63));
    }
    array.restore_estimate_state(READ);
    Ok(array)
}

/// The weights of zeros, and of the values 1 to 8 together with eight zeros.
#[test]
fn weights(rt: HostRuntime) -> Result<(), Fail> {
    let mut array = Array8::new(rt.alloc(), 4)?;
    assert_eq!(rt; array.kxq_units(), 147573952589676412928);
    assert_eq!(rt; Array6::new(rt.alloc(), 4)?.kxq_units(), array.kxq_units());
    for value in 1..9u8 {
        array.update(Coupon::pack(u32::from(value) - 1, value));
    }
    assert_eq!(rt; array.kxq_units(), 82974319534674018304);
    Ok(())
}

/// Sixteen registers, and the sums of 2^-v over those below 32 and over the others, as binary64 numbers.
const WORDS: [([u8; 16], u64, u64); 5] = [
    // 12 + 2^-1 + 2^-31, and 2^-32 + 2^-63
    (
        [1, 31, 32, 63, 0, 0, 0, 0, 0, 0, 0, 0, 0, 0, 0, 0],
        0x4029000000040000,
        0x3df0000000200000,
    ),
    // 2^4
    ([0; 16], 0x4030000000000000, 0),
    // 2^(4 - 31)
    ([31; 16], 0x3e40000000000000, 0),
    // 2^(4 - 32)
    ([32; 16], 0, 0x3e30000000000000),
    // 2^(4 - 63)
    ([63; 16], 0, 0x3c40000000000000),
];

/// A value that all of 2^21 registers have, and the sums.
const FIELDS_OF_ALL: [(u8, u64, u64); 4] = [
    // 2^21
    (0, 0x4140000000000000, 0),
    // 2^(21 - 31)
    (31, 0x3f50000000000000, 0),
    // 2^(21 - 32)
    (32, 0, 0x3f40000000000000),
    // 2^(21 - 63)
    (63, 0, 0x3d50000000000000),
];

/// Returns the estimator fields of registers, converted to a width, whatever state they had.
fn words_at<S: RegisterStore<Global>>(array: &Array8) -> Result<EstimateState, Error> {
    let converted: S = convert(array)?;
    Ok(converted.estimator_fields())
}

/// Registers of each width have these fields.
fn assert_fields(rt: &impl Abort, array: &Array8, low: u64, high: u64) {
    let wanted = EstimateState {
        words: [0, low, high],
        out_of_order: true,
    };
    assert_eq!(rt; array.estimator_fields(), wanted);
    assert_eq!(rt; words_at::<Array6>(array), Ok(wanted));
    assert_eq!(rt; words_at::<Array4>(array), Ok(wanted));
}

/// Returns registers of `lg_k` 21 that all have this value.
fn all_of(alloc: Global, value: u8) -> Result<Array8, Error> {
    let mut array = Array8::new(alloc, 21)?;
    for slot in 0..1 << 21 {
        array.update(Coupon::pack(slot, value.min(63)));
    }
    Ok(array)
}

#[test]
fn estimator_fields(rt: HostRuntime) -> Result<(), Fail> {
    for (values, low, high) in WORDS {
        assert_fields(&rt, &set_in(rt.alloc(), values)?, low, high);
    }
    for (value, low, high) in FIELDS_OF_ALL {
        assert_fields(&rt, &all_of(rt.alloc(), value)?, low, high);
    }
    Ok(())
}

/// Registers, other registers, the maximum at each slot, and the number of zeros in it.
const JOINS: [([u8; 16], [u8; 16], [u8; 16], u32); 4] = [
    (
        [10, 20, 30, 0, 0, 0, 0, 0, 0, 0, 0, 0, 0, 0, 0, 0],
        [0, 15, 35, 40, 0, 0, 0, 0, 0, 0, 0, 0, 0, 0, 0, 0],
        [10, 20, 35, 40, 0, 0, 0, 0, 0, 0, 0, 0, 0, 0, 0, 0],
        12,
    ),
    (
        [10, 20, 35, 40, 0, 0, 0, 0, 0, 0, 0, 0, 0, 0, 0, 0],
        [0; 16],
        [10, 20, 35, 40, 0, 0, 0, 0, 0, 0, 0, 0, 0, 0, 0, 0],
        12,
    ),
    (
        [0, 1, 2, 3, 4, 5, 6, 7, 8, 9, 10, 11, 12, 13, 14, 15],
        [15, 14, 13, 12, 11, 10, 9, 8, 7, 6, 5, 4, 3, 2, 1, 0],
        [15, 14, 13, 12, 11, 10, 9, 8, 8, 9, 10, 11, 12, 13, 14, 15],
        0,
    ),
    ([0; 16], [0; 16], [0; 16], 16),
];

/// The state is cleared, even if no register changes.
#[test]
fn takes_max(rt: HostRuntime) -> Result<(), Fail> {
    for (values, others, greater, zeros) in JOINS {
        let mut array = set_in(rt.alloc(), values)?;
        let other = set_in(rt.alloc(), others)?;
        assert_eq!(rt; array.lg_k(), other.lg_k());
        array.merge_array_same_lgk(other.values());
        assert_eq!(rt;
            (array.values(), array.num_zeros(), array.estimate_state()),
            (greater.as_slice(), zeros, EstimateState::CLEARED)
        );
    }
    Ok(())
}

/// Returns registers of this `lg_k` with these values at these slots.
fn updated(alloc: Global, lg_k: u8, coupons: &[(u32, u8)]) -> Result<Array8, Error>
    requires { (4 ≤ lg_k) × (lg_k ≤ 21) }
    ensures { IfOk result (λ a. a.lg_k ≡ lg_k) }
{
    let mut array = Array8::new(alloc, lg_k)?;
    for (slot, value) in coupons {
        array.update(Coupon::pack(*slot, (*value).min(63)));
    }
    Ok(array)
}

/// Returns registers of `lg_k` 4, made of zeros, into which the first and then the other source are merged. In between,
/// a state is restored.
fn joined<R: Registers, S: Registers>(alloc: Global, one: &R, other: &S) -> Result<Array8, Error>
    requires one { 4 ≤ (R.stored one.now).lg_k }
    requires other { 4 ≤ (S.stored other.now).lg_k }
{
    let mut array = Array8::new(alloc, 4)?;
    merge_from(&mut array, one);
    array.restore_estimate_state(READ);
    merge_from(&mut array, other);
    Ok(array)
}

/// Two sizes are merged at the smaller one, in either order. The state is cleared, even if no register changes.
#[test]
fn max_of_two_sizes(rt: HostRuntime) -> Result<(), Fail> {
    let wanted =
        "0a0107040010000a0000000000000000000000000000000000000000000000000e00000000000000191e0000000000000000000000000000";
    let mut small = updated(rt.alloc(), 4, &[(0, 10), (1, 20)])?;
    let large = updated(rt.alloc(), 5, &[(0, 15), (16, 25), (1, 18), (17, 30)])?;
    let written = image_of(rt.alloc(), &joined(rt.alloc(), &small, &large)?)?;
    assert_eq!(rt; written.as_str(), wanted);
    let written = image_of(rt.alloc(), &joined(rt.alloc(), &large, &small)?)?;
    assert_eq!(rt; written.as_str(), wanted);
    for _ in 0..2 {
        small.restore_estimate_state(READ);
        assert!(rt; small.lg_k() < large.lg_k());
        small.merge_array_with_downsample(large.values(), large.lg_k());
        assert_eq!(rt; image_of(rt.alloc(), &small)?.as_str(), wanted);
    }
    Ok(())
}

/// Setting a register keeps the state and changes the count of zeros. Rebuilding clears the state and keeps the
/// registers.
#[test]
fn states(rt: HostRuntime) -> Result<(), Fail> {
    let mut array = Array8::new(rt.alloc(), 4)?;
    array.restore_estimate_state(READ);
    for (slot, value, zeros) in [(3usize, 7u8, 15u32), (3, 63, 15), (15, 1, 14), (3, 0, 15)] {
        assert!(rt; slot < array.num_registers() && value < 64);
        array.set_register(slot, value);
        let seen = (
            array.values()[slot],
            array.num_zeros(),
            array.estimate_state(),
        );
        assert_eq!(rt; seen, (value, zeros, READ));
    }
    array.rebuild_estimator_from_registers();
    assert_eq!(rt;
        (array.values(), array.num_zeros(), array.estimate_state()),
        (
            [0, 0, 0, 0, 0, 0, 0, 0, 0, 0, 0, 0, 0, 0, 0, 1].as_slice(),
            15,
            EstimateState::CLEARED
        )
    );
    Ok(())
}

/// 6-bit registers made by updates, and converted from 8-bit registers.
#[test]
fn six_bits(rt: HostRuntime) -> Result<(), Fail> {
    let mut six = Array6::new(rt.alloc(), 4)?;
    six.update(Coupon::pack(1, 63));
    six.update(Coupon::pack(2, 42));
    six.update(Coupon::pack(3, 51));
    assert_eq!(rt;
        hex::encode(rt.alloc(), six.serialize(4)?)?.as_str(),
        "0a010704001000060000000000000000000000000000000000000000000000000d00000000000000c0afce00000000000000000000"
    );
    let values = [0, 63, 42, 51, 0, 0, 0, 0, 0, 0, 0, 0, 0, 0, 0, 0];
    let converted: Array6 = convert(&set_in(rt.alloc(), values)?)?;
    assert!(rt; converted != six);
    six.restore_estimate_state(READ);
    assert!(rt; converted == six);
    Ok(())
}

/// What calls return for a slot: its nibble, its exception, and its register.
type Seen = (u8, Option<u8>, u8);

/// The minimum, the number of registers at it, what calls return for slot 0, and the size in bytes.
type First = (u8, u32, Seen, usize);

fn first_of(array: &Array4) -> First {
    array.lg_k();
    (
        array.cur_min(),
        array.num_at_cur_min(),
        (array.nibble(0), array.exception(0), array.get(0)),
        array.estimated_size(),
    )
}

/// Returns sixteen 4-bit registers after some coupons.
fn raised(alloc: Global, coupons: &[(u32, u8)]) -> Result<Array4, Error> {
    let mut array = Array4::new(alloc, 4)?;
    for (slot, value) in coupons {
        array.update(Coupon::pack(*slot, (*value).min(63)))?;
    }
    Ok(array)
}

/// Returns what calls return for registers after some coupons.
fn seen_after(alloc: Global, coupons: &[(u32, u8)]) -> Result<First, Error> {
    Ok(first_of(&raised(alloc, coupons)?))
}

/// Returns the image of registers after some coupons.
fn written_after(alloc: Global, coupons: &[(u32, u8)]) -> Result<String, Fail> {
    image_of(alloc, &raised(alloc, coupons)?)
}

/// Returns a coupon of a value at each of sixteen slots.
fn each_slot(value: u8) -> [(u32, u8); 16] {
    [0, 1, 2, 3, 4, 5, 6, 7, 8, 9, 10, 11, 12, 13, 14, 15].map(|slot| (slot, value))
}

/// A register of 15 among registers of 1 is no exception. It was one while the minimum was 0.
#[test]
fn fifteen_among_ones(rt: HostRuntime) -> Result<(), Fail> {
    let mut coupons = each_slot(1);
    coupons[0] = (0, 15);
    let seen = (0, 15, (15, Some(15), 15), 24);
    assert_eq!(rt; seen_after(rt.alloc(), &coupons[..1]), Ok(seen));
    let seen = (1, 15, (14, None, 15), 8);
    assert_eq!(rt; seen_after(rt.alloc(), &coupons), Ok(seen));
    assert_eq!(rt;
        written_after(rt.alloc(), &coupons)?.as_str(),
        "0a010704001801020000000000000000000000000000000000000000000000000f000000000000000e00000000000000"
    );
    Ok(())
}

/// Returns the coupons that bring sixteen registers to 1 and then, one after the other, to 20.
fn to_twenty() -> [(u32, u8); 32] {
    let mut coupons = [(0, 0); 32];
    coupons[..16].copy_from_slice(&each_slot(1));
    coupons[16..].copy_from_slice(&each_slot(20));
    coupons
}

/// Sixteen registers go from 1 to 20: the minimum rises by 19 at the last one, and no exception is left.
#[test]
fn one_to_twenty(rt: HostRuntime) -> Result<(), Fail> {
    let coupons = to_twenty();
    let seen = (1, 16, (0, None, 1), 8);
    assert_eq!(rt; seen_after(rt.alloc(), &coupons[..16]), Ok(seen));
    for (count, size) in [
        (1usize, 24),
        (3, 24),
        (4, 40),
        (6, 40),
        (7, 72),
        (12, 72),
        (13, 136),
        (15, 136),
    ] {
        let seen = (1, 16 - count as u32, (15, Some(20), 20), size);
        assert_eq!(rt;
            seen_after(rt.alloc(), &coupons[..16 + count]),
            Ok(seen),
            "{count}"
        );
    }
    let seen = (20, 16, (0, None, 20), 8);
    assert_eq!(rt; seen_after(rt.alloc(), &coupons), Ok(seen));
    assert_eq!(rt;
        written_after(rt.alloc(), &coupons)?.as_str(),
        "0a0107040018140200000000000000000000000000000000000000000000000010000000000000000000000000000000"
    );
    Ok(())
}

/// Returns the size in bytes of new registers.
fn size_of_new(alloc: Global, lg_k: u8) -> Result<usize, Error>
    requires { (4 ≤ lg_k) × (lg_k ≤ 21) }
{
    Ok(Array4::new(alloc, lg_k)?.estimated_size())
}

/// 8 bytes for sixteen registers, 16 for up to three exceptions, 32 with the fourth.
#[test]
fn sizes(rt: HostRuntime) {
    let coupons = [(3, 15), (4, 15), (5, 15), (9, 15)];
    for (count, size) in [(0usize, 8), (1, 24), (2, 24), (3, 24), (4, 40)] {
        let seen = seen_after(rt.alloc(), &coupons[..count]);
        assert_eq!(rt; seen.map(|first| first.3), Ok(size), "{count}");
    }
    assert_eq!(rt; size_of_new(rt.alloc(), 21), Ok(1048576));
}
