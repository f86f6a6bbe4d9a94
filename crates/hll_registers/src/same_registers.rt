// SPDX-License-Identifier: Apache-2.0
//! Compares registers: by blocks of registers, or, for the exceptions of 4-bit registers, by short searches.
ghost use Rattle.std.specs.Prelude.{◌≡◌, ◌+◌, ◌*◌, ◌%◌, ◌^◌, ◌<◌, ◌≤◌, ◌↔◌, ℕ, length, take, drop, true, false, Some, IsTrue};
ghost use Rattle.hll_coupons.specs.AuxMap.{value_in, IsMap};
ghost use Rattle.hll_registers.specs.FourBits.{exception_in, unboxed, IsMapFor};
ghost use Rattle.hll_registers.specs.Store.{IsStored};

use crate::exception_map::Exceptions;
use crate::registers::{Registers, two_to};
use hll_coupons::aux_map::AuxMap;
use std::alloc::Allocator;

/// The logarithm of the number of registers that are compared at a time.
const LG_BLOCK: u8 = 14;

/// Returns whether two sources of the same `lg_k` have the same registers. One pass over both, by blocks.
pub(crate) fn have_same_registers<R: Registers>(left: &R, right: &R) -> bool
    requires { (R.stored left.now).lg_k ≡ (R.stored right.now).lg_k }
    ensures { IsTrue result ↔ ((R.stored left.now).registers ≡ (R.stored right.now).registers) }
{
    // (gives the proof that the registers are legal)
    let _lg_k = right.lg_k();
    let lg_size = left.lg_k().min(LG_BLOCK);
    let size = two_to(lg_size);
    for block in 0..two_to(left.lg_k() - lg_size) {
        if !have_same_block(left, right, block * size, size) {
            return false;
        }
    }
    true
}

/// Returns whether at most 16,384 registers from `first` on are the same.
///
/// These registers exist, and `first` and their number are multiples of four.
fn have_same_block<R: Registers>(left: &R, right: &R, first: usize, size: usize) -> bool
    requires left { IsStored (R.stored left.now) }
    requires right { IsStored (R.stored right.now) }
    requires within { first + size ≤ 2 ^ (R.stored left.now).lg_k }
    requires others { first + size ≤ 2 ^ (R.stored right.now).lg_k }
    requires aligned { first % 4 ≡ 0 }
    requires groups { size % 4 ≡ 0 }
    requires few { size ≤ 16384 }
    ensures { IsTrue result ↔ (take size (drop first (R.stored left.now).registers) ≡ take size (drop first (R.stored right.now).registers)) }
{
    let mut registers = [0; 16384];
    let mut others = [0; 16384];
    left.max_into(first as u32, &mut registers[..size]);
    right.max_into(first as u32, &mut others[..size]);
    registers[..size] == others[..size]
}

/// Returns whether each exception is also one of `other`, for the same slots and with the same value, by short
/// searches. Returns `None` if a search was cut off, or if only one of both has a map.
pub(crate) fn are_all_in<A: Allocator>(
    map: &Exceptions<A>,
    other: &Exceptions<A>,
    lg_k: u8,
) -> Option<bool>
    requires map { IsMapFor lg_k (unboxed map.now) }
    requires other { IsMapFor lg_k (unboxed other.now) }
    ensures all { result ≡ Some true → (s v : ℕ) → exception_in (unboxed map.now) s ≡ Some v → exception_in (unboxed other.now) s ≡ Some v }
    ensures some { result ≡ Some false → (s : ℕ) × (v : ℕ) × (s < 2 ^ lg_k) × (exception_in (unboxed map.now) s ≡ Some v) × (exception_in (unboxed other.now) s ≡ Some v → ⊥) }
{
    match (map, other) {
        (Some(map), Some(other)) => are_all_entries_of(other, map),
        (None, None) => Some(true),
        _ => None,
    }
}

/// Returns whether a map has each of these entries, which are for the same slots, by short searches. Returns `None` if
/// a search was cut off.
fn are_all_entries_of<A: Allocator>(map: &AuxMap<A>, entries: &AuxMap<A>) -> Option<bool>
    requires lg_k { map.now.lg_k ≡ entries.now.lg_k }
    requires entries { IsMap entries.now }
    ensures all { result ≡ Some true → (s v : ℕ) → value_in entries.now s ≡ Some v → value_in map.now s ≡ Some v }
    ensures some { result ≡ Some false → (s : ℕ) × (v : ℕ) × (s < 2 ^ map.now.lg_k) × (value_in entries.now s ≡ Some v) × (value_in map.now s ≡ Some v → ⊥) }
{
    for (slot, value) in entries.iter() {
        if map.get_bounded(slot)? != Some(value) {
            return Some(false);
        }
    }
    Some(true)
}
