// SPDX-License-Identifier: Apache-2.0
//! Checks that nibbles above a minimum and exceptions agree, as an image has to (docs/MODEL.md, "4-bit registers"). The exceptions have distinct slots. If each of their slots has a nibble of 15, and the number of such
//! nibbles is the number of exceptions, then no other slot has one. So the map needs no look-ups.
ghost use Rattle.std.specs.Prelude.{◌≡◌, ◌+◌, ◌*◌, ◌^◌, ◌<◌, ◌≤◌, ℕ, length, true, false, Some};
ghost use Rattle.hll_coupons.specs.AuxMap.{value_in, IsMap};
ghost use Rattle.hll_kernels.specs.Packed.{mark_nibbles, nibble_at};
ghost use Rattle.hll_registers.specs.FourBits.{unboxed, exception_in, IsMapFor};
ghost use Rattle.hll_registers.specs.Payload.{Agrees};

use crate::exception_map::{Exceptions, count_exceptions};
use hll_base::bounds::MAX_VALUE;
use hll_coupons::aux_map::AuxMap;
use hll_kernels::nibbles::{MARK, all_at_most, nibble_of};
use std::alloc::Allocator;

/// Returns whether nibbles and exceptions agree: each nibble of 15 has an exception at least 15 above the minimum, each
/// exception has a nibble of 15, and each other register is at most 63. `marks` is the number of nibbles of 15.
pub(crate) fn agree<A: Allocator>(
    nibbles: &[u8],
    map: &Exceptions<A>,
    lg_k: u8,
    minimum: u8,
    marks: u32,
) -> bool
    requires size { 2 * length nibbles.now ≡ 2 ^ lg_k }
    requires map { IsMapFor lg_k (unboxed map.now) }
    requires marks { marks ≡ mark_nibbles nibbles.now }
    ensures all { result ≡ true → (s : ℕ) → s < 2 ^ lg_k → Agrees minimum (nibble_at nibbles.now s) (exception_in (unboxed map.now) s) }
    ensures some { result ≡ false → ((s : ℕ) → s < 2 ^ lg_k → Agrees minimum (nibble_at nibbles.now s) (exception_in (unboxed map.now) s)) → ⊥ }
{
    if marks as usize != count_exceptions(map) {
        return false;
    }
    if !are_plain(nibbles, minimum) {
        return false;
    }
    match map {
        Some(entries) => are_marked(nibbles, entries, minimum),
        None => true,
    }
}

/// Returns whether the minimum plus each nibble below 15 is at most 63. That holds for all nibbles if the minimum is at
/// most 49. There is at least one nibble.
pub fn are_plain(nibbles: &[u8], minimum: u8) -> bool
    requires { 0 < length nibbles.now }
    ensures least { result ≡ true → minimum ≤ 63 }
    ensures all { result ≡ true → (s : ℕ) → s < 2 * length nibbles.now → nibble_at nibbles.now s < 15 → minimum + nibble_at nibbles.now s ≤ 63 }
    ensures high { result ≡ false → 49 < minimum }
    ensures some { result ≡ false → ((s : ℕ) → s < 2 * length nibbles.now → minimum + nibble_at nibbles.now s ≤ 63) → ⊥ }
{
    minimum <= MAX_VALUE + 1 - MARK
        || (minimum <= MAX_VALUE && all_at_most(nibbles, MAX_VALUE - minimum))
}

/// Returns whether each exception is at least 15 above the minimum, and its slot has a nibble of 15.
fn are_marked<A: Allocator>(nibbles: &[u8], map: &AuxMap<A>, minimum: u8) -> bool
    requires minimum { minimum ≤ 63 }
    requires size { 2 * length nibbles.now ≡ 2 ^ map.now.lg_k }
    requires map { IsMap map.now }
    ensures all { result ≡ true → (s v : ℕ) → value_in map.now s ≡ Some v → Agrees minimum (nibble_at nibbles.now s) (Some v) }
    ensures some { result ≡ false → (s : ℕ) × (v : ℕ) × (s < 2 ^ map.now.lg_k) × (value_in map.now s ≡ Some v) × (Agrees minimum (nibble_at nibbles.now s) (Some v) → ⊥) }
{
    for (slot, value) in map.iter() {
        if value < minimum + MARK || nibble_of(nibbles, slot as usize) != MARK {
            return false;
        }
    }
    true
}
