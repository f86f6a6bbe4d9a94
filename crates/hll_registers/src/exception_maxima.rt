// SPDX-License-Identifier: Apache-2.0
//! Takes the maximum of values and the exceptions of 4-bit registers: by a loop over the map, or by a loop over the
//! nibbles, which mark the slots that have an exception. A merge with many exceptions spends its time here.
ghost use Rattle.std.specs.Prelude.{◌≡◌, ◌≢◌, ◌+◌, ◌-◌, ◌*◌, ◌^◌, ◌<◌, ◌≤◌, ℕ, length, max, slice_index, unwrap_or, None};
ghost use Rattle.std.specs.Bool.{OnTrue};
ghost use Rattle.hll_coupons.specs.AuxMap.{value_in, IsMap};
ghost use Rattle.hll_kernels.specs.Packed.{nibble_at};

use hll_coupons::aux_map::AuxMap;
use hll_kernels::nibbles::{MARK, are_at_most, nibble_of};
use std::alloc::Allocator;

/// Sets value i to the maximum of itself and the exception of slot `first + i`, if the slot has one. Loops over the map
/// if it has at most 32 buckets, or few compared with the number of values, or if a search is long; otherwise over the
/// nibbles.
///
/// There is a byte of nibbles for each two values. A slot whose nibble isn't 15 has no exception.
pub(crate) fn max_with_exceptions<A: Allocator>(
    values: &mut [u8],
    nibbles: &[u8],
    map: &AuxMap<A>,
    first: u32,
)
    requires size { length values.old ≡ 2 * length nibbles.now }
    requires within { first + length values.old ≤ 2 ^ map.now.lg_k }
    requires map { IsMap map.now }
    requires marked { (s : ℕ) → s < length values.old → nibble_at nibbles.now s ≢ 15 → value_in map.now (first + s) ≡ None }
    ensures raised { (s : ℕ) → s < length values.old → slice_index values.new s ≡ max (slice_index values.old s) (unwrap_or (value_in map.now (first + s)) 0) }
    ensures len { length values.new ≡ length values.old }
{
    let has_few_buckets = map.estimated_size() <= (values.len() / 8).max(128);
    if has_few_buckets || !max_by_marks(values, nibbles, map, first) {
        max_with_entries(values, map, first);
    }
}

/// Sets each value to the maximum of itself and the exception of its slot, by a loop over the entries of the map.
fn max_with_entries<A: Allocator>(values: &mut [u8], map: &AuxMap<A>, first: u32)
    requires map { IsMap map.now }
    ensures raised { (s : ℕ) → s < length values.old → slice_index values.new s ≡ max (slice_index values.old s) (unwrap_or (value_in map.now (first + s)) 0) }
    ensures len { length values.new ≡ length values.old }
{
    for (slot, value) in map.iter() {
        if slot < first {
            continue;
        }
        let index = (slot - first) as usize;
        if index < values.len() {
            values[index] = values[index].max(value);
        }
    }
}

/// Sets each value to the maximum of itself and the exception of its slot, by a short search for each nibble of 15.
/// Skips blocks of 64 slots without such a nibble. Returns whether no search was cut off; if one was, some values may
/// have changed.
fn max_by_marks<A: Allocator>(
    values: &mut [u8],
    nibbles: &[u8],
    map: &AuxMap<A>,
    first: u32,
) -> bool
    requires size { length values.old ≡ 2 * length nibbles.now }
    requires within { first + length values.old ≤ 2 ^ map.now.lg_k }
    requires map { IsMap map.now }
    requires marked { (s : ℕ) → s < length values.old → nibble_at nibbles.now s ≢ 15 → value_in map.now (first + s) ≡ None }
    ensures raised { OnTrue result ((s : ℕ) → s < length values.old → slice_index values.new s ≡ max (slice_index values.old s) (unwrap_or (value_in map.now (first + s)) 0)) }
    ensures some { (s : ℕ) → s < length values.old → max (slice_index values.new s) (unwrap_or (value_in map.now (first + s)) 0) ≡ max (slice_index values.old s) (unwrap_or (value_in map.now (first + s)) 0) }
    ensures len { length values.new ≡ length values.old }
{
    let (blocks, rest) = nibbles.as_chunks::<32>();
    for index in 0..blocks.len() {
        let block = &blocks[index];
        if !are_at_most(block, MARK - 1)
            && !max_by_marks_at(values, 64 * index, block, map, first)
        {
            return false;
        }
    }
    max_by_marks_at(values, 64 * blocks.len(), rest, map, first)
}

/// Does what `max_by_marks` does for the values from `at` on, two for each byte of nibbles. The other values don't
/// change. Returns whether no search was cut off.
fn max_by_marks_at<A: Allocator>(
    values: &mut [u8],
    at: usize,
    nibbles: &[u8],
    map: &AuxMap<A>,
    first: u32,
) -> bool
    requires room { at + 2 * length nibbles.now ≤ length values.old }
    requires within { first + length values.old ≤ 2 ^ map.now.lg_k }
    requires map { IsMap map.now }
    requires marked { (s : ℕ) → at ≤ s → s < at + 2 * length nibbles.now → nibble_at nibbles.now (s - at) ≢ 15 → value_in map.now (first + s) ≡ None }
    ensures raised { OnTrue result ((s : ℕ) → at ≤ s → s < at + 2 * length nibbles.now → slice_index values.new s ≡ max (slice_index values.old s) (unwrap_or (value_in map.now (first + s)) 0)) }
    ensures some { (s : ℕ) → max (slice_index values.new s) (unwrap_or (value_in map.now (first + s)) 0) ≡ max (slice_index values.old s) (unwrap_or (value_in map.now (first + s)) 0) }
    ensures before { (s : ℕ) → s < at → slice_index values.new s ≡ slice_index values.old s }
    ensures after { (s : ℕ) → at + 2 * length nibbles.now ≤ s → slice_index values.new s ≡ slice_index values.old s }
    ensures len { length values.new ≡ length values.old }
{
    for slot in at..at + 2 * nibbles.len() {
        if nibble_of(nibbles, slot - at) == MARK {
            let Some(exception) = map.get_bounded(first + slot as u32) else {
                return false;
            };
            values[slot] = values[slot].max(exception.unwrap_or(0));
        }
    }
    true
}
