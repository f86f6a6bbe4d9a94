// SPDX-License-Identifier: Apache-2.0
//! Registers of each width, and of a representation that `hll_arrays` doesn't know: updates, merges and conversions,
//! compared with plain loops.
ghost use Rattle.std.specs.Prelude.{◌≤◌};

use crate::array16::Array16;
use crate::register_fixtures::{READ, coupons_in, first_of, folded, joined, merge, store_of};
use hll_arrays::convert::convert;
use hll_arrays::merge::merge_from;
use hll_arrays::{Array4, Array6, Array8, EstimateState, RegisterStore, Registers};
use hll_base::error::Error;
use hll_base::hll_type::HllType;
use hll_coupons::coupon::Coupon;
use std::alloc::Global;
use std::process::Abort;
use std::test::Fail;

/// The registers after the updates of `updated`.
const UPDATED: [u8; 16] = [7, 1, 0, 9, 0, 0, 0, 0, 1, 0, 0, 0, 0, 0, 0, 63];

/// Coupons at `lg_k` 4, one after the other, each with the slot of its register, the value there afterwards, and
/// whether it changed. The state is cleared if it did, and no other register changes. `from_values` makes the same
/// store.
pub(crate) fn updated<S: RegisterStore<Global>>(rt: &impl Abort, alloc: Global) -> Result<S, Fail> {
    let mut store = S::make(alloc, 4)?;
    let mut registers = [0u8; 16];
    for (coupon, slot, value, changes) in &[
        (Coupon::pack(3, 5), 3usize, 5u8, true),
        (Coupon::pack(3, 4), 3, 5, false),
        (Coupon::pack(3, 5), 3, 5, false),
        (Coupon::pack(3, 0), 3, 5, false),
        (Coupon::pack(3, 6), 3, 6, true),
        (Coupon::pack(0, 0), 0, 0, false),
        (Coupon::pack(16, 7), 0, 7, true),
        (Coupon::pack(17, 1), 1, 1, true),
        (Coupon::pack(67108848, 6), 0, 7, false),
        (Coupon::pack(67108863, 62), 15, 62, true),
        (Coupon::pack(67108863, 63), 15, 63, true),
        (Coupon::pack(15, 63), 15, 63, false),
        (Coupon::pack(19, 9), 3, 9, true),
        (Coupon::pack(3, 8), 3, 9, false),
        (Coupon::pack(5, 0), 5, 0, false),
        (Coupon::pack(33554440, 1), 8, 1, true),
    ] {
        registers[*slot % 16] = *value;
        store.restore(READ);
        store.put_coupon(*coupon)?;
        let state = if *changes {
            EstimateState::CLEARED
        } else {
            READ
        };
        assert_eq!(rt;
            (first_of(&store), store.estimate_state()),
            (registers, state)
        );
    }
    assert_eq!(rt; registers, UPDATED);
    assert!(rt; store == S::from_values(alloc, 4, &UPDATED)?);
    Ok(store)
}

#[test]
fn updates(rt: HostRuntime) -> Result<(), Fail> {
    let eight: Array8 = updated(&rt, rt.alloc())?;
    let sixteen: Array16<_> = updated(&rt, rt.alloc())?;
    assert_eq!(rt;
        (eight.num_zeros(), eight.is_empty(), eight.estimated_size()),
        (11, false, 16)
    );
    assert_eq!(rt;
        eight.write_image()?.as_slice(),
        sixteen.write_image()?.as_slice()
    );
    Ok(())
}

#[test]
fn updates_of_six_bits(rt: HostRuntime) -> Result<(), Fail> {
    let six: Array6 = updated(&rt, rt.alloc())?;
    assert_eq!(rt;
        (six.num_zeros(), six.is_empty(), six.estimated_size()),
        (11, false, 13)
    );
    assert_eq!(rt; Array6::<Global>::WIDTH, HllType::Hll6);
    Ok(())
}

/// Updates are the fold of their coupons.
fn folded_in<S: RegisterStore<Global>>(
    rt: &impl Abort,
    alloc: Global,
    lg_k: u8,
    coupons: &[Coupon],
) -> Result<(), Fail>
    requires least { 4 ≤ lg_k }
    requires most { lg_k ≤ 21 }
{
    let store: S = store_of(alloc, lg_k, coupons)?;
    let fold = folded(alloc, coupons, lg_k)?;
    assert_eq!(rt; store.lg_k(), lg_k);
    assert_eq!(rt; fold.len(), store.num_registers());
    for slot in 0..1u32 << lg_k {
        assert_eq!(rt; store.get(slot), fold[slot as usize]);
    }
    Ok(())
}

/// Merging the updates of two halves gives the updates of all.
fn merged_in(rt: &impl Abort, alloc: Global, lg_k: u8, coupons: &[Coupon]) -> Result<(), Fail>
    requires least { 4 ≤ lg_k }
    requires most { lg_k ≤ 21 }
{
    let (left, right) = coupons.split_at(coupons.len() / 2);
    let first: Array8 = store_of(alloc, lg_k, left)?;
    let second: Array8 = store_of(alloc, lg_k, right)?;
    assert_eq!(rt; first.values().len(), second.values().len());
    let join = joined(alloc, first.values(), second.values())?;
    let all: Array8 = store_of(alloc, lg_k, coupons)?;
    assert_eq!(rt; all.values(), join.as_slice());
    Ok(())
}

#[test]
fn updates_are_folds(rt: HostRuntime) -> Result<(), Fail> {
    for lg_k in 4..13u8 {
        let coupons = coupons_in(rt.alloc(), 3usize << lg_k)?;
        folded_in::<Array8>(&rt, rt.alloc(), lg_k, &coupons)?;
        folded_in::<Array6>(&rt, rt.alloc(), lg_k, &coupons)?;
        folded_in::<Array4>(&rt, rt.alloc(), lg_k, &coupons)?;
        folded_in::<Array16<_>>(&rt, rt.alloc(), lg_k, &coupons)?;
        merged_in(&rt, rt.alloc(), lg_k, &coupons)?;
    }
    Ok(())
}

/// Returns whether the registers of coupons, merged with a source of no smaller `lg_k` in this representation, are the
/// fold of all coupons with the cleared state.
fn merges_to<S: RegisterStore<Global>>(
    alloc: Global,
    lg_k: u8,
    coupons: &[Coupon],
    source: &Array8,
    fold: &[u8],
) -> Result<bool, Error>
    requires least { 4 ≤ lg_k }
    requires most { lg_k ≤ 21 }
{
    let source: S = convert(source)?;
    let mut array: Array8 = store_of(alloc, lg_k, coupons)?;
    if array.lg_k() <= source.lg_k() {
        merge_from(&mut array, &source);
    }
    Ok(array.values() == fold && array.estimate_state() == EstimateState::CLEARED)
}

/// A merge from a size and each representation gives the fold of all coupons.
fn folds_from(
    rt: &impl Abort,
    alloc: Global,
    lg_k: u8,
    src_lg_k: u8,
    coupons: &[Coupon],
) -> Result<(), Fail>
    requires lg_k { (4 ≤ lg_k) × (lg_k ≤ 21) }
    requires src_lg_k { (4 ≤ src_lg_k) × (src_lg_k ≤ 21) }
{
    let (left, right) = coupons.split_at(coupons.len() / 3);
    let fold = folded(alloc, coupons, lg_k)?;
    let source: Array8 = store_of(alloc, src_lg_k, right)?;
    let eight = merges_to::<Array8>(alloc, lg_k, left, &source, &fold);
    let six = merges_to::<Array6>(alloc, lg_k, left, &source, &fold);
    let four = merges_to::<Array4>(alloc, lg_k, left, &source, &fold);
    assert_eq!(rt; (eight, six, four), (Ok(true), Ok(true), Ok(true)));
    let sixteen = merges_to::<Array16<_>>(alloc, lg_k, left, &source, &fold);
    assert_eq!(rt; sixteen, Ok(true));
    Ok(())
}

#[test]
fn folds(rt: HostRuntime) -> Result<(), Fail> {
    let coupons = coupons_in(rt.alloc(), 1000)?;
    for (lg_k, src_lg_k) in [
        (4u8, 4u8),
        (4, 5),
        (4, 8),
        (5, 5),
        (6, 12),
        (11, 12),
        (4, 16),
    ] {
        let (lg_k, src_lg_k) = (lg_k.clamp(4, 21), src_lg_k.clamp(4, 21));
        folds_from(&rt, rt.alloc(), lg_k, src_lg_k, &coupons)?;
    }
    Ok(())
}

/// A conversion and the conversion back keep registers and state.
fn converted_in<S: RegisterStore<Global>>(
    rt: &impl Abort,
    alloc: Global,
    array: &Array8,
) -> Result<S, Fail> {
    let store: S = convert(array)?;
    assert_eq!(rt; store.num_registers(), array.num_registers());
    assert_eq!(rt;
        (store.lg_k(), store.estimate_state()),
        (array.lg_k(), READ)
    );
    let mut back = Array8::new(alloc, array.lg_k())?;
    merge(rt, &mut back, &store);
    back.restore_estimate_state(store.estimate_state());
    assert!(rt; back == *array);
    Ok(store)
}

/// Does what `converted_in` does, to and from two bytes each. The image is the same.
fn widened_in(rt: &impl Abort, alloc: Global, array: &Array8) -> Result<(), Fail> {
    let sixteen: Array16<_> = converted_in(rt, alloc, array)?;
    let again: Array16<_> = converted_in(rt, alloc, &sixteen.narrowed()?)?;
    assert!(rt; again == sixteen);
    assert!(rt; array.write_image()? == sixteen.write_image()?);
    Ok(())
}

/// Returns the weights of registers converted to 6 bits.
fn units_of_six(rt: &impl Abort, alloc: Global, array: &Array8) -> Result<u128, Fail> {
    let six: Array6 = converted_in(rt, alloc, array)?;
    Ok(six.kxq_units())
}

/// Returns the weights of registers converted to 4 bits.
fn units_of_four(rt: &impl Abort, alloc: Global, array: &Array8) -> Result<u128, Fail> {
    let four: Array4 = converted_in(rt, alloc, array)?;
    Ok(four.kxq_units())
}

/// Converts the registers of coupons to each representation and back.
fn convert_each(rt: &impl Abort, alloc: Global, array: &Array8) -> Result<(), Fail> {
    assert_eq!(rt; units_of_six(rt, alloc, array)?, array.kxq_units());
    assert_eq!(rt; units_of_four(rt, alloc, array)?, array.kxq_units());
    widened_in(rt, alloc, array)
}

#[test]
fn conversions(rt: HostRuntime) -> Result<(), Fail> {
    let coupons = coupons_in(rt.alloc(), 500)?;
    for lg_k in 4..11u8 {
        let array: Array8 = store_of(rt.alloc(), lg_k, &coupons)?;
        convert_each(&rt, rt.alloc(), &array)?;
    }
    Ok(())
}
