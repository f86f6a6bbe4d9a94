// SPDX-License-Identifier: Apache-2.0
//! Caller-owned registers: 2^`lg_k` bytes, one for each register (docs/MODEL.md, "Caller-owned registers"). Nothing of them is
//! kept here.
ghost use Rattle.std.specs.Prelude.{◌≡◌, ◌^◌, ◌<◌, ◌≤◌, ◌==◌, ◌++◌, length, drop, IfOk, IfErr, OnErr};
ghost use Rattle.std.specs.List.{list_all};
ghost use Rattle.hll_base.specs.declared.error.Reason.TheVariants.{Memory};
ghost use Rattle.hll_base.specs.Join.{join};
ghost use Rattle.hll_coupons.specs.Fold.{fold_to, pairs};
ghost use Rattle.hll_coupons.specs.Table.{coupons_of};
ghost use Rattle.hll_kernels.specs.Packed.{AreRegisters};
ghost use Rattle.hll_registers.specs.declared.estimate_state.EstimateState.{EstimateState};
ghost use Rattle.hll_sketch.specs.ByteRegisters.{TakesMaxWithImage, TakesMaxWithSketch, HasFieldsOf, ReadNeedsMemory};
ghost use Rattle.hll_sketch.specs.Header.{header_of};
ghost use Rattle.hll_sketch.specs.Image.{HasHeader, stage_bits};
ghost use Rattle.hll_sketch.specs.Layout.{sketch_of};
ghost use Rattle.hll_sketch.specs.Refusal.{IsRefusal};
ghost use Rattle.hll_sketch.specs.MergedIn.{HasCompactCoupons, HasPlainRegisters};
ghost use Rattle.hll_sketch.specs.Value as values;
ghost use Rattle.hll_sketch.specs.Value.{Sketch, IsLgK};

use crate::coupon_room::CouponRoom;
use crate::header::{Header, Stage};
use crate::mode::{Mode, array_into_mode};
use crate::raw_coupons::{compact_coupons, max_coupon};
use crate::raw_registers::with_registers;
use crate::read_image::read_sketch;
use crate::sketch::HllSketch;
use crate::updatable::updatable_coupons;
use hll_arrays::array8::Array8;
use hll_arrays::kernels::max_into;
use hll_arrays::register_store::RegisterStore;
use hll_arrays::registers::{Registers, two_to};
use hll_base::error::Error;
use hll_base::hll_type::HllType;
use hll_coupons::container::Container;
use hll_registers::folds::max_folds;
use std::alloc::Allocator;

/// Merges the registers of an image of any stage and width, folded to the `lg_k` of the caller's, into caller-owned registers.
/// If the image has registers that are not all 0, and fewer than the caller, it returns the image's `lg_k` and changes nothing.
/// All checks are made before the merge.
///
/// Fails with the reason of the first check that the image fails, or with `Memory`, and then changes nothing. Allocates a map
/// for the exceptions of 4-bit registers, if there are any, and a table for coupons, except for at most 128 or ascending ones in a
/// compact image and for 1 to 128 in an updatable one.
pub fn merge_image<A: Allocator + Clone>(
    alloc: A,
    registers: &mut [u8],
    lg_k: u8,
    image: &[u8],
) -> Result<Option<u8>, Error>
    requires lg_k { IsLgK lg_k }
    requires size { length registers.old ≡ 2 ^ lg_k }
    ensures ok { IfOk result (TakesMaxWithImage lg_k image.now registers.old registers.new) }
    ensures unchanged { OnErr result (registers.new ≡ registers.old) }
    ensures err { IfErr result (IsRefusal image.now) }
    ensures needed { IfErr result (λ e. e ≡ Memory → ReadNeedsMemory image.now) }
{
    let header = Header::read(image)?;
    match header.stage {
        Stage::List | Stage::Set => match compact_coupons(image, header) {
            Some(coupons) => {
                coupons.max_into(registers, lg_k);
                Ok(None)
            }
            None => max_other_coupons(&alloc, registers, lg_k, image, header),
        },
        Stage::Hll => merge_image_of_registers(&alloc, registers, lg_k, image, header),
    }
}

/// Merges the coupons of an image into registers, as `merge_image` does, if one pass over a compact image has not shown that
/// they are distinct.
// (not inlined: compact coupons need none of it)
#[inline(never)]
fn max_other_coupons<A: Allocator + Clone>(
    alloc: &A,
    registers: &mut [u8],
    lg_k: u8,
    image: &[u8],
    header: Header,
) -> Result<Option<u8>, Error>
    requires lg_k { IsLgK lg_k }
    requires size { length registers.old ≡ 2 ^ lg_k }
    requires has { HasHeader image.now (stage_bits image.now) }
    requires stage { stage_bits image.now < 2 }
    requires header { header ≡ header_of image.now }
    requires other { HasCompactCoupons image.now → ⊥ }
    ensures ok { IfOk result (TakesMaxWithImage lg_k image.now registers.old registers.new) }
    ensures unchanged { OnErr result (registers.new ≡ registers.old) }
    ensures err { IfErr result (IsRefusal image.now) }
    ensures needed { IfErr result (λ e. e ≡ Memory → ReadNeedsMemory image.now) }
{
    let mut room = CouponRoom::new();
    if let Some(coupons) = updatable_coupons(image, header, &mut room) {
        coupons.max_into(registers, lg_k);
        return Ok(None);
    }
    let sketch = read_sketch(alloc, image, header)?;
    Ok(merge_sketch(registers, lg_k, &sketch))
}

/// Merges the registers after the header of an image into registers, as `merge_image` does.
// (not inlined: a caller would have to clear its values for compact coupons too)
#[inline(never)]
fn merge_image_of_registers<A: Allocator + Clone>(
    alloc: &A,
    registers: &mut [u8],
    lg_k: u8,
    image: &[u8],
    header: Header,
) -> Result<Option<u8>, Error>
    requires lg_k { IsLgK lg_k }
    requires size { length registers.old ≡ 2 ^ lg_k }
    requires has { HasHeader image.now 2 }
    requires header { header ≡ header_of image.now }
    ensures ok { IfOk result (TakesMaxWithImage lg_k image.now registers.old registers.new) }
    ensures unchanged { OnErr result (registers.new ≡ registers.old) }
    ensures err { IfErr result (IsRefusal image.now) }
    ensures plain { IfErr result (λ e. e ≡ Memory → HasPlainRegisters image.now → ⊥) }
{
    with_registers!(alloc, image, header, source => {
        Ok(max_registers(registers, lg_k, &source, source.are_all_zero()))
    })
}

/// Merges the registers of a sketch, folded to the `lg_k` of the caller's, into caller-owned registers. If the sketch has
/// registers that are not all 0, and fewer than the caller, it returns the sketch's `lg_k` and changes nothing.
pub fn merge_sketch<A: Allocator + Clone>(
    registers: &mut [u8],
    lg_k: u8,
    sketch: &HllSketch<A>,
) -> Option<u8>
    requires lg_k { IsLgK lg_k }
    requires size { length registers.old ≡ 2 ^ lg_k }
    ensures { TakesMaxWithSketch lg_k (sketch_of sketch.now) registers.old registers.new result }
{
    sketch.value_is_legal();
    match &sketch.mode {
        Mode::List { list, .. } => {
            max_table(registers, lg_k, list.container());
            None
        }
        Mode::Set { set, .. } => {
            max_table(registers, lg_k, set.container());
            None
        }
        Mode::Array4(array) => max_registers(registers, lg_k, array, sketch.is_empty()),
        Mode::Array6(array) => max_registers(registers, lg_k, array, sketch.is_empty()),
        Mode::Array8(array) => max_registers(registers, lg_k, array, sketch.is_empty()),
    }
}

/// Adds the coupons of a table to registers.
fn max_table<A: Allocator>(registers: &mut [u8], lg_k: u8, table: &Container<A>)
    requires most { lg_k ≤ 21 }
    requires size { length registers.old ≡ 2 ^ lg_k }
    ensures { registers.new ≡ join registers.old (fold_to (coupons_of table.now) lg_k) }
{
    for coupon in table.iter() {
        max_coupon(registers, lg_k, coupon);
    }
}

/// Merges the registers of a source, folded to the `lg_k` of the caller's, into caller-owned registers. `are_all_zero` says
/// whether all registers of the source are 0. If they are not, and the source has fewer registers, it returns the source's
/// `lg_k` and changes nothing.
pub fn max_registers<R: Registers>(
    registers: &mut [u8],
    lg_k: u8,
    source: &R,
    are_all_zero: bool,
) -> Option<u8>
    requires lg_k { IsLgK lg_k }
    requires size { length registers.old ≡ 2 ^ lg_k }
    requires zeros { are_all_zero ≡ list_all (λ v. v == 0) (R.stored source.now).registers }
    ensures { let x = R.stored source.now in
        (y : Sketch) (s : EstimateState) → y.lg_k ≡ x.lg_k → y.content ≡ values.registers x.registers s → TakesMaxWithSketch lg_k y registers.old registers.new result }
{
    if are_all_zero {
        return None;
    }
    if source.lg_k() < lg_k {
        return Some(source.lg_k());
    }
    max_folds(registers, lg_k, source);
    None
}

/// Folds registers in place to an `lg_k` that is at most their own. The result is the first 2^`to` bytes; the bytes after these
/// are unchanged.
pub fn fold_in_place(registers: &mut [u8], lg_k: u8, to: u8)
    requires most { lg_k ≤ 21 }
    requires within { to ≤ lg_k }
    requires size { length registers.old ≡ 2 ^ lg_k }
    ensures { registers.new ≡ fold_to (pairs registers.old) to ++ drop (2 ^ to) registers.old }
{
    let (front, after) = registers.split_at_mut(two_to(to));
    max_blocks(front, after, lg_k, to);
}

/// Takes the maximum of the first 2^`to` of 2^`lg_k` registers and of each block of the same length after them.
fn max_blocks(front: &mut [u8], after: &[u8], lg_k: u8, to: u8)
    requires most { lg_k ≤ 21 }
    requires within { to ≤ lg_k }
    requires size { length front.old ≡ 2 ^ to }
    requires all { length (front.old ++ after.now) ≡ 2 ^ lg_k }
    ensures { front.new ≡ fold_to (pairs (front.old ++ after.now)) to }
{
    let size = front.len();
    for block in 0..two_to(lg_k - to) - 1 {
        max_into(front, &after[block * size..(block + 1) * size]);
    }
}

/// Returns a sketch of a width in registers with these values, and with its estimator fields set.
///
/// Allocates the registers, and for 4 and 6 bits also 8-bit registers. Fails with `Memory`.
pub fn sketch_in_registers<A: Allocator + Clone>(
    alloc: A,
    lg_k: u8,
    hll_type: HllType,
    registers: &[u8],
) -> Result<HllSketch<A>, Error>
    requires lg_k { IsLgK lg_k }
    requires registers { AreRegisters lg_k registers.now }
    ensures ok { IfOk result (λ s. HasFieldsOf lg_k hll_type registers.now (sketch_of s)) }
    ensures err { IfErr result (λ e. e ≡ Memory) }
{
    let mut array = Array8::from_values(alloc, lg_k, registers)?;
    array.restore_estimate_state(array.estimator_fields());
    let mode = array_into_mode(array, hll_type)?;
    Ok(HllSketch {
        lg_config_k: lg_k,
        mode,
    })
}
