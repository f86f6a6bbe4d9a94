// SPDX-License-Identifier: Apache-2.0
//! Registers of a counter in borrowed elements: one byte each, four in an element, in ascending slots. No call allocates.
ghost use Rattle.std.specs.Prelude.{◌≡◌, ◌*◌, ◌+◌, ◌-◌, ◌%◌, ◌^◌, ◌<◌, ◌≤◌, true, [], ◌∷◌, ◌++◌, ℕ, List, drop, length, max, nat_eq, nat_le, not, slice_index, slice_set, take, unwrap_or, IfOk, IfErr};
ghost use Rattle.std.specs.Cmp.Lexicographic.{pointwise};
ghost use Rattle.std.specs.List.{list_all};
ghost use Rattle.hll_arrays.specs.FewExceptions.{registers_with, HasExceptions};
ghost use Rattle.hll_base.specs.Join.{join};
ghost use Rattle.hll_base.specs.declared.error.Reason.TheVariants as reasons;
ghost use Rattle.hll_coupons.specs.AuxMap.{entries_in, value_in, ExceptionMap, IsMap};
ghost use Rattle.hll_coupons.specs.Fold.{fold_to, pairs};
ghost use Rattle.hll_coupons.specs.Pair.{set_of};
ghost use Rattle.hll_kernels.specs.Lanes.{nibble_values};
ghost use Rattle.hll_kernels.specs.Packed.{AreRegisters};
ghost use Rattle.hll_registers.specs.FourBits.{ArePartsOf};
ghost use Rattle.hll_registers.specs.Store.{IsStored};
ghost use Rattle.hll_sketch.specs.Value.{IsLgK};
ghost use Rattle.hll_state.specs.CouponRun.{IsRun, members, raws};
ghost use Rattle.hll_state.specs.Registers.{values};

use crate::elements::move_to_end;
use crate::run::CouponRun;
use hll_arrays::few_exceptions::FewExceptions;
use hll_base::bounds::{MAX_VALUE, SLOT_BITS};
use hll_base::error::{Error, Reason};
use hll_coupons::aux_map::AuxMapRefIter;
use hll_kernels::kernels::{greatest_of, max_into};
use hll_kernels::nibbles;
use hll_registers::folds::max_folds;
use hll_registers::nibble_parts::NibbleParts;
use hll_registers::registers::{Registers, two_to};
use std::simd::prelude::*;

/// The number of elements that are copied to the stack at a time: 2^14 registers.
const PART: usize = 4096;
/// Few registers are copied in smaller parts, of 2^12 registers. Then less of the stack is filled with zeros first.
const SMALL_PART: usize = 1024;

/// Returns the register of a slot.
#[inline(always)]
fn get(elements: &[[u8; 4]], slot: usize) -> u8
    requires { slot < 4 * length elements.now }
    ensures { result ≡ slice_index (values elements.now) slot }
{
    elements[slot / 4][slot % 4]
}

/// Writes the register of a slot.
#[inline(always)]
fn set(elements: &mut [[u8; 4]], slot: usize, register: u8)
    requires { slot < 4 * length elements.old }
    ensures { values elements.new ≡ slice_set (values elements.old) slot register }
{
    elements[slot / 4][slot % 4] = register;
}

/// Sets the register of the coupon's slot modulo 2^`lg_k` to the maximum of the register and the coupon's value. Returns whether
/// the register changed.
///
/// There are 2^`lg_k` registers, four in an element; `lg_k` is 4 to 21.
#[inline(always)]
pub fn raise(elements: &mut [[u8; 4]], lg_k: u8, raw: u32) -> bool
    requires least { 4 ≤ lg_k }
    requires most { lg_k ≤ 21 }
    requires size { length elements.old ≡ 2 ^ (lg_k - 2) }
    ensures joined { values elements.new ≡ join (values elements.old) (fold_to (set_of (raw ∷ [])) lg_k) }
    ensures changed { result ≡ not (pointwise nat_eq (values elements.old) (values elements.new)) }
    ensures small { AreRegisters lg_k (values elements.old) → AreRegisters lg_k (values elements.new) }
{
    let slot = raw as usize % two_to(lg_k);
    let value = (raw >> SLOT_BITS) as u8;
    if get(elements, slot) >= value {
        return false;
    }
    set(elements, slot, value);
    true
}

/// Returns whether the register of the coupon's slot modulo 2^`lg_k` is at least the coupon's value: then `raise` changes nothing.
#[inline(always)]
pub(crate) fn is_raised(elements: &[[u8; 4]], lg_k: u8, raw: u32) -> bool
    requires least { 4 ≤ lg_k }
    requires most { lg_k ≤ 21 }
    requires size { 2 ^ (lg_k - 2) ≤ length elements.now }
    ensures { let R = values (take (2 ^ (lg_k - 2)) elements.now) in result ≡ true → R ≡ join R (fold_to (set_of (raw ∷ [])) lg_k) }
{
    let slot = raw as usize % two_to(lg_k);
    let value = (raw >> SLOT_BITS) as u8;
    get(&elements[..two_to(lg_k - 2)], slot) >= value
}

/// Raises the registers of coupons in turn.
pub(crate) fn raise_all(elements: &mut [[u8; 4]], lg_k: u8, coupons: &[[u8; 4]])
    requires least { 4 ≤ lg_k }
    requires most { lg_k ≤ 21 }
    requires size { length elements.old ≡ 2 ^ (lg_k - 2) }
    ensures joined { values elements.new ≡ join (values elements.old) (fold_to (set_of (raws coupons.now)) lg_k) }
    ensures small { AreRegisters lg_k (values elements.old) → AreRegisters lg_k (values elements.new) }
{
    for coupon in coupons {
        raise(elements, lg_k, u32::from_le_bytes(*coupon));
    }
}

/// Makes registers of the coupons of a run, in place: the first elements hold the 2^`lg_k` registers afterwards.
///
/// The elements have room for the registers and, after them, for the coupons, which are moved there. `lg_k` is 4 to 21. The
/// content of the elements after the registers is unspecified afterwards. The registers are 0 to 63, whatever the coupons are.
pub fn promote(run: CouponRun, elements: &mut [[u8; 4]], lg_k: u8)
    requires run { IsRun run elements.old }
    requires least { 4 ≤ lg_k }
    requires most { lg_k ≤ 21 }
    requires room { 2 ^ (lg_k - 2) + run.used ≤ length elements.old }
    ensures folded { values (take (2 ^ (lg_k - 2)) elements.new) ≡ fold_to (members run elements.old) lg_k }
    ensures small { AreRegisters lg_k (values (take (2 ^ (lg_k - 2)) elements.new)) }
{
    move_to_end(elements, run.used);
    let end = elements.len() - run.used;
    let (front, coupons) = elements.split_at_mut(end);
    make_registers(&mut front[..two_to(lg_k - 2)], lg_k, coupons);
}

/// Writes the registers of coupons, whatever the elements hold.
fn make_registers(elements: &mut [[u8; 4]], lg_k: u8, coupons: &[[u8; 4]])
    requires least { 4 ≤ lg_k }
    requires most { lg_k ≤ 21 }
    requires size { length elements.old ≡ 2 ^ (lg_k - 2) }
    ensures folded { values elements.new ≡ fold_to (set_of (raws coupons.now)) lg_k }
    ensures small { AreRegisters lg_k (values elements.new) }
{
    elements.fill([0; 4]);
    raise_all(elements, lg_k, coupons);
}

/// Takes the maximum of 2^`lg_k` registers, four in an element, and of the source's registers that fold to them: register s of
/// the source folds to register s modulo 2^`lg_k`.
///
/// `lg_k` is 4 to 21, and at most the source's. It takes one pass over the source: in lanes, 64 registers at a time, if the
/// source has the same `lg_k`; otherwise in blocks of 2^14 registers, or more if small blocks are expensive, which take 4 to 32
/// kilobytes of the stack.
pub fn max_with<R: Registers>(elements: &mut [[u8; 4]], lg_k: u8, src: &R)
    requires least { 4 ≤ lg_k }
    requires most { lg_k ≤ (R.stored src.now).lg_k }
    requires size { length elements.old ≡ 2 ^ (lg_k - 2) }
    ensures joined { values elements.new ≡ join (values elements.old) (fold_to (pairs (R.stored src.now).registers) lg_k) }
    ensures registers { AreRegisters lg_k (values elements.old) → AreRegisters lg_k (values elements.new) }
{
    if elements.len() < 16 {
        max_in_copy::<64, R>(elements, lg_k, src);
    } else if src.lg_k() == lg_k {
        max_with_same_size(elements, lg_k, src);
    } else if elements.len() <= SMALL_PART {
        max_in_copy::<4096, R>(elements, lg_k, src);
    } else if elements.len() <= PART {
        max_in_copy::<16384, R>(elements, lg_k, src);
    } else {
        max_blocks(elements, lg_k, src);
    }
}

/// Takes the maximum as `max_with` does, for at most `N` registers, in a copy.
fn max_in_copy<const N: usize, R: Registers>(elements: &mut [[u8; 4]], lg_k: u8, src: &R)
    requires least { 4 ≤ lg_k }
    requires few { 4 * length elements.old ≤ N }
    requires small { N < 2 ^ 32 }
    requires most { lg_k ≤ (R.stored src.now).lg_k }
    requires size { length elements.old ≡ 2 ^ (lg_k - 2) }
    ensures joined { values elements.new ≡ join (values elements.old) (fold_to (pairs (R.stored src.now).registers) lg_k) }
    ensures registers { AreRegisters lg_k (values elements.old) → AreRegisters lg_k (values elements.new) }
{
    let mut registers = [0; N];
    let copy = &mut registers[..4 * elements.len()];
    copy.copy_from_slice(elements.as_flattened());
    max_folds(copy, lg_k, src);
    write_all(elements, copy);
}

/// Takes the maximum as `max_with` does, in lanes, if the source has the same number of registers, and at least 64.
fn max_with_same_size<R: Registers>(elements: &mut [[u8; 4]], lg_k: u8, src: &R)
    requires least { 4 ≤ lg_k }
    requires same { (R.stored src.now).lg_k ≡ lg_k }
    requires legal { IsStored (R.stored src.now) }
    requires size { length elements.old ≡ 2 ^ (lg_k - 2) }
    requires many { 16 ≤ length elements.old }
    ensures joined { values elements.new ≡ join (values elements.old) (fold_to (pairs (R.stored src.now).registers) lg_k) }
    ensures registers { AreRegisters lg_k (values elements.old) → AreRegisters lg_k (values elements.new) }
{
    match src.nibble_parts() {
        Some(parts) => max_with_nibble_parts(elements, lg_k, parts),
        None => max_in_lanes(elements, lg_k, src),
    }
}

/// Takes the maximum of registers and of the same number of 4-bit registers, at least 64: of their nibbles, and then of each
/// exception.
fn max_with_nibble_parts(elements: &mut [[u8; 4]], lg_k: u8, parts: NibbleParts<'_>)
    requires least { 4 ≤ lg_k }
    requires size { length elements.old ≡ 2 ^ (lg_k - 2) }
    requires many { 16 ≤ length elements.old }
    requires parts { (R : List ℕ) × ArePartsOf lg_k parts.minimum parts.nibbles.now parts.exceptions R }
    ensures { (R : List ℕ) → ArePartsOf lg_k parts.entry.minimum parts.entry.nibbles.now parts.entry.exceptions R → values elements.new ≡ join (values elements.old) R }
{
    let NibbleParts {
        minimum,
        nibbles,
        exceptions,
    } = parts;
    max_with_nibbles(elements, nibbles, minimum);
    if let Some(entries) = exceptions {
        raise_entries(elements, entries);
    }
}

/// Takes the maximum of registers and of nibbles above a minimum, 64 at a time.
fn max_with_nibbles(elements: &mut [[u8; 4]], nibbles: &[u8], minimum: u8)
    requires size { length nibbles.now ≡ 2 * length elements.old }
    requires sixteens { length elements.old % 16 ≡ 0 }
    requires small { minimum ≤ 240 }
    ensures { values elements.new ≡ join (values elements.old) (nibble_values minimum nibbles.now) }
{
    let mut at = 0;
    while at < elements.len() {
        let block = &nibbles[2 * at..2 * at + 32];
        max_with_32_bytes(&mut elements[at..at + 16], block, minimum);
        at += 16;
    }
}

/// Takes the maximum of 64 registers and of 64 nibbles above a minimum. The compiler keeps them in lanes.
#[inline(always)]
fn max_with_32_bytes(elements: &mut [[u8; 4]], nibbles: &[u8], minimum: u8)
    requires size { length elements.old ≡ 16 }
    requires bytes { length nibbles.now ≡ 32 }
    requires small { minimum ≤ 240 }
    ensures { values elements.new ≡ join (values elements.old) (nibble_values minimum nibbles.now) }
{
    let mut registers = read_64(elements);
    nibbles::max_with_nibbles(&mut registers, nibbles, minimum);
    write_64(elements, &registers);
}

/// Takes the maximum of registers and of the same number of 4-bit registers with few exceptions, at least 64: of their nibbles,
/// and then of each exception.
pub(crate) fn max_with_few_exceptions(elements: &mut [[u8; 4]], few: &FewExceptions<'_>)
    requires least { 4 ≤ few.now.lg_k }
    requires most { few.now.lg_k ≤ 21 }
    requires size { length elements.old ≡ 2 ^ (few.now.lg_k - 2) }
    requires many { 16 ≤ length elements.old }
    requires parts { HasExceptions few.now.lg_k few.now.minimum few.now.nibbles.now (raws few.now.entries.now) }
    ensures { values elements.new ≡ join (values elements.old) (registers_with few.now.lg_k few.now.minimum few.now.nibbles.now (raws few.now.entries.now)) }
{
    max_with_nibbles(elements, few.nibbles, few.minimum);
    raise_all(elements, few.lg_k, few.entries);
}

/// Takes the maximum of registers and of bytes, 64 at a time, and returns the greatest byte. One pass over the bytes, which
/// doesn't check them: a byte may be above 63.
pub(crate) fn max_with_bytes(elements: &mut [[u8; 4]], bytes: &[u8]) -> u8
    requires size { length bytes.now ≡ 4 * length elements.old }
    requires sixteens { length elements.old % 16 ≡ 0 }
    ensures joined { values elements.new ≡ join (values elements.old) bytes.now }
    ensures greatest { (bound : ℕ) → list_all (λ b. nat_le b bound) bytes.now ≡ nat_le result bound }
{
    let mut greatest = u8x64::splat(0);
    let mut at = 0;
    while at < elements.len() {
        let block = block_of(&bytes[4 * at..4 * at + 64]);
        max_with_block(&mut elements[at..at + 16], &block);
        greatest = greater_lanes(greatest, &block);
        at += 16;
    }
    greatest_of(&greatest.to_array())
}

/// Takes the maximum of 64 registers and of 64 bytes. The compiler keeps them in lanes.
#[inline(always)]
fn max_with_block(elements: &mut [[u8; 4]], block: &[u8; 64])
    requires { length elements.old ≡ 16 }
    ensures { values elements.new ≡ join (values elements.old) block.now }
{
    let registers = u8x64::from_array(read_64(elements));
    write_64(elements, &greater_lanes(registers, block).to_array());
}

/// Returns 64 bytes.
#[inline(always)]
fn block_of(bytes: &[u8]) -> [u8; 64]
    requires { length bytes.now ≡ 64 }
    ensures { result ≡ bytes.now }
{
    match bytes.as_array::<64>() {
        Some(block) => *block,
        None => [0; 64],
    }
}

/// Returns the greater of each lane and the byte at the same index.
#[inline(always)]
fn greater_lanes(lanes: u8x64, bytes: &[u8; 64]) -> u8x64
    requires { length lanes ≡ 64 }
    ensures is { result ≡ join lanes bytes.now }
    ensures len { length result ≡ 64 }
{
    lanes.simd_max(u8x64::from_array(*bytes))
}

/// Takes the maximum of registers and of the entries of a map of exceptions, one after the other.
fn raise_entries(elements: &mut [[u8; 4]], entries: AuxMapRefIter<'_>)
    ensures raised { (t : ExceptionMap) → IsMap t → entries.entry ≡ entries_in t → (s : ℕ) → s < 4 * length elements.old
        → slice_index (values elements.new) s ≡ max (slice_index (values elements.old) s) (unwrap_or (value_in t s) 0) }
    ensures len { (t : ExceptionMap) → IsMap t → entries.entry ≡ entries_in t → length (values elements.new) ≡ length (values elements.old) }
{
    for (slot, value) in entries {
        raise_slot(elements, slot as usize, value);
    }
}

/// Takes the maximum of the register of a slot and of a value, if there is such a register.
fn raise_slot(elements: &mut [[u8; 4]], slot: usize, value: u8)
    ensures inside { slot < 4 * length elements.old → values elements.new ≡ slice_set (values elements.old) slot (max (slice_index (values elements.old) slot) value) }
    ensures outside { 4 * length elements.old ≤ slot → elements.new ≡ elements.old }
{
    if slot / 4 < elements.len() {
        set(elements, slot, get(elements, slot).max(value));
    }
}

/// Takes the maximum as `max_with` does, with one block of the source's registers after the other, in lanes.
fn max_in_lanes<R: Registers>(elements: &mut [[u8; 4]], lg_k: u8, src: &R)
    requires least { 4 ≤ lg_k }
    requires most { lg_k ≤ (R.stored src.now).lg_k }
    requires size { length elements.old ≡ 2 ^ (lg_k - 2) }
    ensures joined { values elements.new ≡ join (values elements.old) (fold_to (pairs (R.stored src.now).registers) lg_k) }
    ensures registers { AreRegisters lg_k (values elements.old) → AreRegisters lg_k (values elements.new) }
{
    let size = 4 * elements.len();
    for block in 0..two_to(src.lg_k() - lg_k) {
        max_from_in_lanes(elements, block * size, src);
    }
}

/// Takes the maximum of registers and of the source's registers from `first` on, 64 registers at a time.
fn max_from_in_lanes<R: Registers>(elements: &mut [[u8; 4]], first: usize, src: &R)
    requires within { first + 4 * length elements.old ≤ 2 ^ (R.stored src.now).lg_k }
    requires legal { IsStored (R.stored src.now) }
    requires aligned { first % 4 ≡ 0 }
    ensures { values elements.new ≡ join (values elements.old) (take (4 * length elements.old) (drop first (R.stored src.now).registers)) }
{
    let mut at = 0;
    while at + 16 <= elements.len() {
        max_64(&mut elements[at..at + 16], first + 4 * at, src);
        at += 16;
    }
    if at < elements.len() {
        max_part::<64, R>(&mut elements[at..], first + 4 * at, src);
    }
}

/// Takes the maximum of 64 registers and of the source's registers from `first` on. The compiler keeps them in lanes.
#[inline(always)]
fn max_64<R: Registers>(elements: &mut [[u8; 4]], first: usize, src: &R)
    requires size { length elements.old ≡ 16 }
    requires within { first + 64 ≤ 2 ^ (R.stored src.now).lg_k }
    requires legal { IsStored (R.stored src.now) }
    requires aligned { first % 4 ≡ 0 }
    ensures { values elements.new ≡ join (values elements.old) (take (4 * length elements.old) (drop first (R.stored src.now).registers)) }
{
    let mut registers = read_64(elements);
    src.max_into(first as u32, &mut registers);
    write_64(elements, &registers);
}

/// Returns the 64 registers of sixteen elements.
#[inline(always)]
fn read_64(elements: &[[u8; 4]]) -> [u8; 64]
    requires { length elements.now ≡ 16 }
    ensures { result ≡ values elements.now }
{
    match elements.as_flattened().as_array::<64>() {
        Some(registers) => *registers,
        None => [0; 64],
    }
}

/// Writes 64 registers over sixteen elements.
// (an assignment of arrays: `copy_from_slice` compares addresses, and then the compiler keeps the registers in memory)
#[inline(always)]
fn write_64(elements: &mut [[u8; 4]], registers: &[u8; 64])
    requires { length elements.old ≡ 16 }
    ensures { values elements.new ≡ registers.now }
{
    let (chunks, _) = registers.as_chunks::<4>();
    if let Some(from) = chunks.as_array::<16>()
        && let Some(to) = elements.as_mut_array::<16>()
    {
        *to = *from;
    }
}

/// Takes the maximum as `max_with` does, with one block of the source's registers after the other.
fn max_blocks<R: Registers>(elements: &mut [[u8; 4]], lg_k: u8, src: &R)
    requires least { 4 ≤ lg_k }
    requires most { lg_k ≤ (R.stored src.now).lg_k }
    requires size { length elements.old ≡ 2 ^ (lg_k - 2) }
    ensures joined { values elements.new ≡ join (values elements.old) (fold_to (pairs (R.stored src.now).registers) lg_k) }
    ensures registers { AreRegisters lg_k (values elements.old) → AreRegisters lg_k (values elements.new) }
{
    let size = 4 * elements.len();
    for block in 0..two_to(src.lg_k() - lg_k) {
        max_from(elements, block * size, src);
    }
}

/// Takes the maximum of registers and of the source's registers from `first` on, part by part.
fn max_from<R: Registers>(elements: &mut [[u8; 4]], first: usize, src: &R)
    requires within { first + 4 * length elements.old ≤ 2 ^ (R.stored src.now).lg_k }
    requires legal { IsStored (R.stored src.now) }
    requires aligned { first % 4 ≡ 0 }
    ensures { values elements.new ≡ join (values elements.old) (take (4 * length elements.old) (drop first (R.stored src.now).registers)) }
{
    let mut at = 0;
    while at < elements.len() {
        let end = (at + PART).min(elements.len());
        max_part::<16384, R>(&mut elements[at..end], first + 4 * at, src);
        at = end;
    }
}

/// Takes the maximum of at most `N` registers and of the source's registers from `first` on, in a copy.
fn max_part<const N: usize, R: Registers>(elements: &mut [[u8; 4]], first: usize, src: &R)
    requires few { 4 * length elements.old ≤ N }
    requires small { N < 2 ^ 32 }
    requires within { first + 4 * length elements.old ≤ 2 ^ (R.stored src.now).lg_k }
    requires legal { IsStored (R.stored src.now) }
    requires aligned { first % 4 ≡ 0 }
    ensures { values elements.new ≡ join (values elements.old) (take (4 * length elements.old) (drop first (R.stored src.now).registers)) }
{
    let mut registers = [0; N];
    let copy = &mut registers[..4 * elements.len()];
    copy.copy_from_slice(elements.as_flattened());
    src.max_into(first as u32, copy);
    write_all(elements, copy);
}

/// Folds 2^`from` registers, four in an element, into the first 2^`to` of them. Register s folds to register s modulo 2^`to`,
/// which becomes the greatest of the registers that fold to it.
///
/// `to` is 4 or more, and at most `from`, which is at most 21. The content of the elements after the fold is unspecified
/// afterwards.
pub fn fold(elements: &mut [[u8; 4]], from: u8, to: u8)
    requires least { 4 ≤ to }
    requires within { to ≤ from }
    requires most { from ≤ 21 }
    requires size { length elements.old ≡ 2 ^ (from - 2) }
    ensures { values (take (2 ^ (to - 2)) elements.new) ≡ fold_to (pairs (values elements.old)) to }
{
    let (front, after) = elements.split_at_mut(two_to(to - 2));
    fold_blocks(front, after, from, to);
}

/// Takes the maximum of the first 2^`to` of 2^`from` registers and of each block of the same length after them.
fn fold_blocks(front: &mut [[u8; 4]], after: &[[u8; 4]], from: u8, to: u8)
    requires least { 4 ≤ to }
    requires within { to ≤ from }
    requires most { from ≤ 21 }
    requires size { length front.old ≡ 2 ^ (to - 2) }
    requires all { length (front.old ++ after.now) ≡ 2 ^ (from - 2) }
    ensures { values front.new ≡ fold_to (pairs (values (front.old ++ after.now))) to }
{
    let size = front.len();
    for block in 0..two_to(from - to) - 1 {
        max_elements(front, &after[block * size..(block + 1) * size]);
    }
}

/// Takes the maximum of registers and of the registers of the same number of other elements, 64 at a time.
fn max_elements(elements: &mut [[u8; 4]], others: &[[u8; 4]])
    requires { length elements.old ≡ length others.now }
    ensures { values elements.new ≡ join (values elements.old) (values others.now) }
{
    let mut at = 0;
    while at < elements.len() {
        let end = (at + 16).min(elements.len());
        max_few(&mut elements[at..end], &others[at..end]);
        at = end;
    }
}

/// Takes the maximum of 64 registers and of the registers of sixteen other elements. The compiler keeps them in lanes.
#[inline(always)]
fn max_16(elements: &mut [[u8; 4]], others: &[[u8; 4]])
    requires size { length elements.old ≡ 16 }
    requires others { length others.now ≡ 16 }
    ensures { values elements.new ≡ join (values elements.old) (values others.now) }
{
    let mut registers = read_64(elements);
    max_into(&mut registers, &read_64(others));
    write_64(elements, &registers);
}

/// Takes the maximum of at most 64 registers and of the registers of the same number of other elements: in lanes if there are 64,
/// otherwise in a copy.
#[inline(always)]
fn max_few(elements: &mut [[u8; 4]], others: &[[u8; 4]])
    requires few { length elements.old ≤ 16 }
    requires size { length elements.old ≡ length others.now }
    ensures { values elements.new ≡ join (values elements.old) (values others.now) }
{
    if elements.len() == 16 {
        max_16(elements, others);
        return;
    }
    let mut registers = [0; 64];
    let copy = &mut registers[..4 * elements.len()];
    copy.copy_from_slice(elements.as_flattened());
    max_into(copy, others.as_flattened());
    write_all(elements, copy);
}

/// Writes all registers.
#[inline(always)]
pub(crate) fn write_all(elements: &mut [[u8; 4]], registers: &[u8])
    requires { length registers.now ≡ 4 * length elements.old }
    ensures { values elements.new ≡ registers.now }
{
    let (chunks, _) = registers.as_chunks::<4>();
    elements.copy_from_slice(chunks);
}

/// Returns the first 2^`lg_k` registers of the elements, one byte each; `lg_k` is 4 to 21.
pub fn as_bytes(elements: &[[u8; 4]], lg_k: u8) -> &[u8]
    requires least { 4 ≤ lg_k }
    requires most { lg_k ≤ 21 }
    requires within { 2 ^ (lg_k - 2) ≤ length elements.now }
    ensures { result.now ≡ values (take (2 ^ (lg_k - 2)) elements.now) }
{
    elements[..two_to(lg_k - 2)].as_flattened()
}

/// Returns the first 2^`lg_k` registers of the elements, one byte each; `lg_k` is 4 to 21.
///
/// Fails with `Register` if one is above 63.
pub fn small_registers(elements: &[[u8; 4]], lg_k: u8) -> Result<&[u8], Error>
    requires lg_k { IsLgK lg_k }
    requires within { 2 ^ (lg_k - 2) ≤ length elements.now }
    ensures registers { IfOk result (λ registers. registers.now ≡ values (take (2 ^ (lg_k - 2)) elements.now)) }
    ensures ok { IfOk result (λ registers. AreRegisters lg_k registers.now) }
    ensures err { IfErr result (λ e. (e ≡ reasons.Register) × (AreRegisters lg_k (values (take (2 ^ (lg_k - 2)) elements.now)) → ⊥)) }
{
    let registers = as_bytes(elements, lg_k);
    if greatest_of(registers) > MAX_VALUE {
        return Err(Error::new(Reason::Register));
    }
    Ok(registers)
}
