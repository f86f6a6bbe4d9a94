// SPDX-License-Identifier: Apache-2.0
//! Caller-owned registers: 2^`lg_k` bytes, one for each register.
ghost use Rattle.std.specs.Prelude.{◌≡◌, ◌^◌, ◌≤◌, ◌↔◌, ℕ, length, IsTrue, IfOk, IfErr};
ghost use Rattle.hll_base.specs.declared.error.Reason.TheVariants as reasons;
ghost use Rattle.hll_base.specs.Join.{join};
ghost use Rattle.hll_coupons.specs.Fold.{fold_to};
ghost use Rattle.hll_coupons.specs.Pair.{set_of};
ghost use Rattle.hll_kernels.specs.Packed.{AreRegisters};
ghost use Rattle.hll_sketch.specs.Layout.{sketch_of};
ghost use Rattle.hll_sketch.specs.Value.{IsLgK};
ghost use Rattle.hll_c.specs.ByteRegisters.{HasLgK, IsLgKOf, MergesImageInto, MergesRegistersInto, AddsCoupons, FoldsInPlace, RefusesRegisters, SaysCounts, IsOfBytes, RefusesBytes};

use crate::answer::OK;
use crate::arguments::{lg_k_of_number, width_of};
use crate::coupons::Coupons;
use crate::info::{HllHistogram, counts_of};
use hll_arrays::registers::two_to;
use hll_base::bounds::{MAX_LG_K, MAX_VALUE, MIN_LG_K};
use hll_base::error::{Error, Reason};
use hll_kernels::kernels::greatest_of;
use hll_registers::register_slice::RegisterSlice;
use hll_sketch::max_registers::{fold_in_place, max_registers, merge_image, sketch_in_registers};
use hll_sketch::{HllSketch, max_coupon};
use std::alloc::Global;

/// The code of a call if the other registers are fewer.
const COARSER: u8 = 15;

/// Returns the `lg_k` of registers that are one byte each. Fails with `Argument` if their number is not 2^`lg_k`.
pub(crate) fn lg_k_of(registers: &[u8]) -> Result<u8, Error>
    ensures ok { IfOk result (IsLgKOf registers.now) }
    ensures err { IfErr result (λ e. (e ≡ reasons.Argument) × (HasLgK registers.now → ⊥)) }
{
    lg_k_of_count(registers.len())
}

/// Returns the `lg_k` of this number of registers. Fails with `Argument` if it is not 2^`lg_k`.
pub(crate) fn lg_k_of_count(count: usize) -> Result<u8, Error>
    ensures ok { IfOk result (λ k. IsLgK k × (count ≡ 2 ^ k)) }
    ensures err { IfErr result (λ e. (e ≡ reasons.Argument) × ((k : ℕ) → IsLgK k → count ≡ 2 ^ k → ⊥)) }
{
    if count < two_to(MIN_LG_K) || two_to(MAX_LG_K) < count {
        return Err(Error::new(Reason::Argument));
    }
    let lg_k = (usize::BITS - 1 - count.leading_zeros()) as u8;
    if two_to(lg_k) != count {
        return Err(Error::new(Reason::Argument));
    }
    Ok(lg_k)
}

/// Returns whether each register is at most 63.
fn are_small(registers: &[u8], lg_k: u8) -> bool
    requires { IsLgKOf registers.now lg_k }
    ensures { IsTrue result ↔ AreRegisters lg_k registers.now }
{
    greatest_of(registers) <= MAX_VALUE
}

/// Returns the `lg_k` of registers that are at most 63. Fails with `Argument` if their number is not 2^`lg_k`, else with
/// `Register` if one is above 63.
pub(crate) fn checked_lg_k(registers: &[u8]) -> Result<u8, Error>
    ensures ok { IfOk result (λ k. IsLgKOf registers.now k × AreRegisters k registers.now) }
    ensures err { IfErr result (RefusesRegisters registers.now) }
{
    let lg_k = lg_k_of(registers)?;
    if !are_small(registers, lg_k) {
        return Err(Error::new(Reason::Register));
    }
    Ok(lg_k)
}

/// Merges the registers of an image into caller-owned registers.
pub(crate) fn merge(alloc: Global, registers: &mut [u8], image: &[u8], coarser: &mut u8) -> u8
    ensures { MergesImageInto image.now registers.old registers.new coarser.old coarser.new result }
{
    let Ok(lg_k) = lg_k_of(registers) else {
        return Reason::Argument.number();
    };
    match merge_image(alloc, registers, lg_k, image) {
        Ok(None) => OK,
        Ok(Some(of_image)) => {
            *coarser = of_image;
            COARSER
        }
        Err(e) => e.reason().number(),
    }
}

/// Merges other registers into caller-owned registers.
pub(crate) fn merge_others(registers: &mut [u8], others: &[u8], coarser: &mut u8) -> u8
    ensures { MergesRegistersInto others.now registers.old registers.new coarser.old coarser.new result }
{
    let Ok(lg_k) = lg_k_of(registers) else {
        return Reason::Argument.number();
    };
    let Ok(others_lg_k) = lg_k_of(others) else {
        return Reason::Argument.number();
    };
    if !are_small(others, others_lg_k) {
        return Reason::Register.number();
    }
    let source = RegisterSlice::new(others_lg_k, others);
    match max_registers(registers, lg_k, &source, source.are_all_zero()) {
        None => OK,
        Some(of_others) => {
            *coarser = of_others;
            COARSER
        }
    }
}

/// Adds coupons to caller-owned registers.
pub(crate) fn add<C: Coupons>(registers: &mut [u8], coupons: &C) -> u8
    ensures { AddsCoupons (C.Coupons.are coupons.now) (C.Coupons.raw_coupons coupons.now) registers.old registers.new result }
{
    let Ok(lg_k) = lg_k_of(registers) else {
        return Reason::Argument.number();
    };
    if !coupons.are_valid() {
        return Reason::Argument.number();
    }
    max_each(registers, lg_k, coupons);
    OK
}

/// Adds coupons to registers.
// (inlined, as `put_each` is)
#[inline(always)]
fn max_each<C: Coupons>(registers: &mut [u8], lg_k: u8, coupons: &C)
    requires lg_k { IsLgKOf registers.old lg_k }
    requires are { C.Coupons.are coupons.now }
    ensures { registers.new ≡ join registers.old (fold_to (set_of (C.Coupons.raw_coupons coupons.now)) lg_k) }
{
    for number in 0..coupons.count() {
        max_coupon(registers, lg_k, coupons.coupon(number));
    }
}

/// Folds caller-owned registers in place, into their first 2^`to` bytes.
pub(crate) fn fold(registers: &mut [u8], to: u32) -> u8
    ensures { FoldsInPlace to registers.old registers.new result }
{
    let Ok(lg_k) = lg_k_of(registers) else {
        return Reason::Argument.number();
    };
    let Ok(target) = lg_k_of_number(to) else {
        return Reason::Argument.number();
    };
    if lg_k < target {
        return Reason::Argument.number();
    }
    if !are_small(registers, lg_k) {
        return Reason::Register.number();
    }
    fold_in_place(registers, lg_k, target);
    OK
}

/// Counts the caller-owned registers with each value.
pub(crate) fn histogram(registers: &[u8]) -> Result<HllHistogram, Error>
    ensures ok { IfOk result (SaysCounts registers.now) }
    ensures err { IfErr result (RefusesRegisters registers.now) }
{
    checked_lg_k(registers)?;
    Ok(HllHistogram {
        counts: counts_of(registers),
    })
}

/// Returns the sketch of caller-owned registers.
pub(crate) fn sketch(alloc: Global, registers: &[u8], width: u32) -> Result<HllSketch, Error>
    ensures ok { IfOk result (λ s. IsOfBytes width registers.now (sketch_of s)) }
    ensures err { IfErr result (RefusesBytes width registers.now) }
{
    let width = width_of(width)?;
    let lg_k = checked_lg_k(registers)?;
    sketch_in_registers(alloc, lg_k, width, registers)
}
