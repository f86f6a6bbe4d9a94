// SPDX-License-Identifier: Apache-2.0
//! 4-bit registers: two in each byte, each the height of a register above a minimum. 15 marks an exception, a register
//! that is kept elsewhere (docs/FORMAT.md, "Packed registers").
ghost use Rattle.std.specs.Prelude.{◌≡◌, ℕ, ◌+◌, ◌-◌, ◌*◌, ◌/◌, ◌%◌, ◌^◌, ◌<◌, ◌≤◌, ◌==◌, ◌⊎◌, ◌↔◌, ◌&&◌, nat_le, nat_lt, if◌then◌else◌, [], ◌∷◌, ◌++◌, length, map, count_by, slice_set, All, IfOk, IfSome, IsSome};
ghost use Rattle.std.specs.List.{list_all};
ghost use Rattle.std.specs.Simd.Lanes.{chunk, put_chunk, Each1};
ghost use Rattle.hll_base.specs.Join.{join};
ghost use Rattle.hll_kernels.specs.Lanes.{max_at, nibble_values, nibble_pairs};
ghost use Rattle.hll_kernels.specs.Packed.{nibble, nibble_at, nibble_bytes_above, mark_nibbles, lowered_byte, zero_nibbles};
ghost use Rattle.hll_kernels.specs.Packed.{lowered_by};
ghost use Rattle.hll_kernels.specs.WeightSums.{AreSumsOf};

use crate::kernels::{WeightSums, are_below, max_16, max_one, shifted_sums};
use std::alloc::{AllocError, Allocator};
use std::simd::prelude::*;

/// The nibble that marks an exception. The register is at least this much above the minimum.
pub const MARK: u8 = 15;

// ---- single nibbles

/// Returns the nibble of a slot.
pub fn nibble_of(bytes: &[u8], slot: usize) -> u8
    requires { slot < 2 * length bytes.now }
    ensures nibble { result ≡ nibble_at bytes.now slot }
    ensures small { result < 16 }
{
    let byte = bytes[slot / 2];
    if slot % 2 == 0 { byte % 16 } else { byte / 16 }
}

/// Sets the nibble of a slot. The other nibbles don't change.
pub fn put_nibble(bytes: &mut [u8], slot: usize, nibble: u8)
    requires within { slot < 2 * length bytes.old }
    requires small { nibble < 16 }
    ensures nibbles { (s : ℕ) → nibble_at bytes.new s ≡ (if s == slot then nibble else nibble_at bytes.old s) }
    ensures len { length bytes.new ≡ length bytes.old }
    ensures fits { All (λ b. b < 256) bytes.old → All (λ b. b < 256) bytes.new }
{
    let (at, byte) = with_nibble(bytes, slot, nibble);
    bytes[at] = byte;
}

/// Returns the index of the byte with the nibble of a slot, and this byte with the nibble set. Its other nibble doesn't change.
pub fn with_nibble(bytes: &[u8], slot: usize, nibble: u8) -> (usize, u8)
    requires within { slot < 2 * length bytes.now }
    requires small { nibble < 16 }
    ensures within { result.0 < length bytes.now }
    ensures fits { result.1 < 256 }
    ensures nibbles { (s : ℕ) → nibble_at (slice_set bytes.now result.0 result.1) s ≡ (if s == slot then nibble else nibble_at bytes.now s) }
{
    let at = slot / 2;
    let byte = bytes[at];
    if slot % 2 == 0 {
        (at, byte / 16 * 16 + nibble)
    } else {
        (at, byte % 16 + nibble * 16)
    }
}

/// Returns whether no nibble of a block is greater than `greatest`, which is at most 15.
pub fn are_at_most(block: &[u8; 32], greatest: u8) -> bool
    requires { greatest ≤ 15 }
    ensures { result ≡ list_all (λ b. nat_le (b % 16) greatest && nat_le (b / 16) greatest) block.now }
{
    let bytes = u8x32::from_array(*block);
    let low = (bytes & u8x32::splat(15)).simd_gt(u8x32::splat(greatest));
    let high = bytes.simd_gt(u8x32::splat(16 * greatest + 15));
    (low | high).to_bitmask() == 0
}

/// Returns the number of nibbles that are 0. One pass.
pub fn count_zero_nibbles(bytes: &[u8]) -> u32
    requires { length bytes.now ≤ 2 ^ 20 }
    ensures { result ≡ zero_nibbles bytes.now }
{
    let (blocks, rest) = bytes.as_chunks::<64>();
    let mut count = 0;
    for block in blocks {
        count += u32::from(zero_nibbles_in(block));
    }
    count + zero_nibbles_one_by_one(rest)
}

/// Returns the number of nibbles that are 15. One pass.
pub fn count_mark_nibbles(bytes: &[u8]) -> u32
    requires { length bytes.now ≤ 2 ^ 20 }
    ensures { result ≡ mark_nibbles bytes.now }
{
    let (blocks, rest) = bytes.as_chunks::<64>();
    let mut count = 0;
    for block in blocks {
        count += u32::from(mark_nibbles_in(block));
    }
    count + mark_nibbles_one_by_one(rest)
}

/// Returns the number of nibbles that are 0, and the number of nibbles that are 15. One pass.
pub fn count_zeros_and_marks(bytes: &[u8]) -> (u32, u32)
    requires { length bytes.now ≤ 2 ^ 20 }
    ensures zeros { result.0 ≡ zero_nibbles bytes.now }
    ensures marks { result.1 ≡ mark_nibbles bytes.now }
{
    let (blocks, rest) = bytes.as_chunks::<64>();
    let mut zeros = 0;
    let mut marks = 0;
    for block in blocks {
        zeros += u32::from(zero_nibbles_in(block));
        marks += u32::from(mark_nibbles_in(block));
    }
    (
        zeros + zero_nibbles_one_by_one(rest),
        marks + mark_nibbles_one_by_one(rest),
    )
}

/// Returns the number of nibbles of a block that are 0. It fits a byte.
fn zero_nibbles_in(block: &[u8; 64]) -> u8
    ensures count { result ≡ zero_nibbles block.now }
    ensures bound { result ≤ 128 }
{
    let mut count = 0;
    for byte in block {
        count += zeros_of(*byte) as u8;
    }
    count
}

/// Returns the number of nibbles that are 0, looking at one byte after the other.
fn zero_nibbles_one_by_one(bytes: &[u8]) -> u32
    requires { length bytes.now ≤ 2 ^ 20 }
    ensures { result ≡ zero_nibbles bytes.now }
{
    let mut count = 0;
    for byte in bytes {
        count += zeros_of(*byte);
    }
    count
}

/// Returns the number of nibbles of a byte that are 0.
fn zeros_of(byte: u8) -> u32
    ensures count { result ≡ zero_nibbles (byte ∷ []) }
    ensures bound { result ≤ 2 }
{
    u32::from(byte % 16 == 0) + u32::from(byte / 16 == 0)
}

/// Returns the number of nibbles of a block that are 15. It fits a byte. Most blocks have none.
#[inline(always)]
fn mark_nibbles_in(block: &[u8; 64]) -> u8
    ensures count { result ≡ mark_nibbles block.now }
    ensures bound { result ≤ 128 }
{
    if is_unmarked(block) {
        return 0;
    }
    some_mark_nibbles_in(block)
}

/// Returns whether no nibble of a block is 15.
#[inline(always)]
fn is_unmarked(block: &[u8; 64]) -> bool
    ensures { result ≡ (mark_nibbles block.now == 0) }
{
    are_below(&greater_nibbles(block), MARK)
}

/// Returns the greater of both nibbles of each byte.
#[inline(always)]
fn greater_nibbles(block: &[u8; 64]) -> [u8; 64]
    ensures { (bound : ℕ) → list_all (λ n. nat_lt n bound) result ≡ (list_all (λ n. nat_lt n bound) (map (λ b. b % 16) block.now) && list_all (λ n. nat_lt n bound) (map (λ b. b / 16) block.now)) }
{
    let low = u8x64::from_array(low_nibbles(block));
    let high = u8x64::from_array(high_nibbles(block));
    low.simd_max(high).to_array()
}

/// Returns the number of nibbles of a block that are 15, counted byte by byte.
// (not inlined: the loop over blocks, most of which have no such nibble, is shorter without it)
#[inline(never)]
fn some_mark_nibbles_in(block: &[u8; 64]) -> u8
    ensures count { result ≡ mark_nibbles block.now }
    ensures bound { result ≤ 128 }
{
    let mut count = 0;
    for byte in block {
        count += marks_of(*byte);
    }
    count
}

/// Returns the number of nibbles that are 15, looking at one byte after the other.
fn mark_nibbles_one_by_one(bytes: &[u8]) -> u32
    requires { length bytes.now ≤ 2 ^ 20 }
    ensures { result ≡ mark_nibbles bytes.now }
{
    let mut count = 0;
    for byte in bytes {
        count += u32::from(marks_of(*byte));
    }
    count
}

/// Returns the number of nibbles of a byte that are 15.
fn marks_of(byte: u8) -> u8
    ensures count { result ≡ mark_nibbles (byte ∷ []) }
    ensures bound { result ≤ 2 }
{
    u8::from(byte % 16 == 15) + u8::from(byte / 16 == 15)
}

/// Returns whether no nibble is greater than `greatest`, which is at most 15.
pub fn all_at_most(bytes: &[u8], greatest: u8) -> bool
    requires { greatest ≤ 15 }
    ensures { result ≡ list_all (λ b. nat_le (b % 16) greatest && nat_le (b / 16) greatest) bytes.now }
{
    bytes
        .iter()
        .all(|byte| *byte % 16 <= greatest && *byte / 16 <= greatest)
}

// ---- lowering

/// Lowers each nibble below 15 by `steps`; a nibble of 15 stays.
///
/// Each nibble is 15, or at least `steps`.
pub fn lower_by(bytes: &mut [u8], steps: u8)
    requires few { length bytes.old ≤ 2 ^ 20 }
    requires fits { All (λ b. b < 256) bytes.old }
    requires high { (s : ℕ) → s < 2 * length bytes.old → (nibble_at bytes.old s ≡ 15) ⊎ (steps ≤ nibble_at bytes.old s) }
    ensures nibbles { (s : ℕ) → s < 2 * length bytes.old → nibble_at bytes.new s ≡ lowered_by steps (nibble_at bytes.old s) }
    ensures len { length bytes.new ≡ length bytes.old }
    ensures fits { All (λ b. b < 256) bytes.new }
{
    for _ in 0..steps {
        lower_nibbles(bytes);
    }
}

/// Lowers each nibble below 15 by one; a nibble of 15 stays. Returns the number of nibbles that are 0 afterwards.
///
/// No nibble is 0 before, and there are at most 2^20 bytes. One pass; allocates nothing.
pub fn lower_nibbles(bytes: &mut [u8]) -> u32
    requires none { zero_nibbles bytes.old ≡ 0 }
    requires few { length bytes.old ≤ 2 ^ 20 }
    ensures lowered { bytes.new ≡ map lowered_byte bytes.old }
    ensures zeros { result ≡ zero_nibbles bytes.new }
    ensures bound { result ≤ 2 * length bytes.new }
{
    let blocks = bytes.len() / 32;
    let mut zeros = 0;
    for place in 0..blocks {
        zeros += lower_32(bytes, 32 * place);
    }
    zeros + lower_one_by_one(&mut bytes[32 * blocks..])
}

/// Lowers the nibbles of the 32 bytes from `at` on. Returns the number of nibbles that are 0 afterwards.
fn lower_32(bytes: &mut [u8], at: usize) -> u32
    requires room { at + 32 ≤ length bytes.old }
    requires none { zero_nibbles (chunk at 32 bytes.old) ≡ 0 }
    ensures lowered { bytes.new ≡ put_chunk at bytes.old (map lowered_byte (chunk at 32 bytes.old)) }
    ensures zeros { result ≡ zero_nibbles (map lowered_byte (chunk at 32 bytes.old)) }
{
    let lowered = lowered_lanes(u8x32::from_slice(&bytes[at..]));
    lowered.copy_to_slice(&mut bytes[at..]);
    low_zeros(lowered) + high_zeros(lowered)
}

fn lowered_lanes(bytes: u8x32) -> u8x32
    requires { zero_nibbles bytes ≡ 0 }
    ensures { result ≡ map lowered_byte bytes }
{
    bytes - low_steps(bytes) - high_steps(bytes)
}

/// Returns what to subtract from each byte to lower its low nibble.
fn low_steps(bytes: u8x32) -> u8x32
    ensures { result ≡ map (λ b. if b % 16 == 15 then 0 else 1) bytes }
{
    (bytes & u8x32::splat(15))
        .simd_ne(u8x32::splat(15))
        .select(u8x32::splat(1), u8x32::splat(0))
}

/// Returns what to subtract from each byte to lower its high nibble.
fn high_steps(bytes: u8x32) -> u8x32
    ensures { result ≡ map (λ b. if b / 16 == 15 then 0 else 16) bytes }
{
    bytes
        .simd_lt(u8x32::splat(240))
        .select(u8x32::splat(16), u8x32::splat(0))
}

/// Returns the number of low nibbles that are 0.
fn low_zeros(bytes: u8x32) -> u32
    ensures count { result ≡ count_by (λ b. b % 16 == 0) bytes }
    ensures bound { result ≤ 32 }
{
    (bytes & u8x32::splat(15))
        .simd_eq(u8x32::splat(0))
        .to_bitmask()
        .count_ones()
}

/// Returns the number of high nibbles that are 0.
fn high_zeros(bytes: u8x32) -> u32
    ensures count { result ≡ count_by (λ b. b / 16 == 0) bytes }
    ensures bound { result ≤ 32 }
{
    bytes.simd_lt(u8x32::splat(16)).to_bitmask().count_ones()
}

/// Lowers each nibble below 15 by one, one byte after the other. Returns the number of nibbles that are 0 afterwards.
fn lower_one_by_one(bytes: &mut [u8]) -> u32
    requires none { zero_nibbles bytes.old ≡ 0 }
    requires few { length bytes.old ≤ 2 ^ 20 }
    ensures lowered { bytes.new ≡ map lowered_byte bytes.old }
    ensures zeros { result ≡ zero_nibbles bytes.new }
{
    let mut zeros = 0;
    for place in 0..bytes.len() {
        let byte = lowered(bytes[place]);
        bytes[place] = byte;
        zeros += zeros_of(byte);
    }
    zeros
}

/// Returns a byte with both nibbles lowered.
fn lowered(byte: u8) -> u8
    requires { (0 < byte % 16) × (0 < byte / 16) }
    ensures { result ≡ lowered_byte byte }
{
    let low = if byte % 16 == 15 { 0 } else { 1 };
    let high = if byte / 16 == 15 { 0 } else { 16 };
    byte - low - high
}

// ---- maxima

/// Sets each value to the maximum of itself and its nibble plus the minimum. One pass.
///
/// There are two values for each byte, and the minimum is at most 240. A nibble of 15 counts as 15 above the minimum,
/// which is at most the register that it marks.
pub fn max_with_nibbles(values: &mut [u8], bytes: &[u8], minimum: u8)
    requires size { length values.old ≡ 2 * length bytes.now }
    requires small { minimum ≤ 240 }
    ensures { values.new ≡ join values.old (nibble_values minimum bytes.now) }
{
    let (blocks, rest) = bytes.as_chunks::<32>();
    for place in 0..blocks.len() {
        max_with_block(values, 64 * place, &blocks[place], minimum);
    }
    max_one_by_one(&mut values[64 * blocks.len()..], rest, minimum);
}

/// Sets the 64 values from `at` on to the maximum of themselves and the nibbles of a block plus the minimum.
fn max_with_block(values: &mut [u8], at: usize, block: &[u8; 32], minimum: u8)
    requires room { at + 64 ≤ length values.old }
    requires small { minimum ≤ 240 }
    ensures { values.new ≡ max_at at values.old (nibble_values minimum block.now) }
{
    max_with_half(values, at, u8x16::from_slice(&block[..]), minimum);
    max_with_half(values, at + 32, u8x16::from_slice(&block[16..]), minimum);
}

/// Sets each value to the maximum of itself and its nibble plus the minimum, one byte after the other.
fn max_one_by_one(values: &mut [u8], bytes: &[u8], minimum: u8)
    requires size { length values.old ≡ 2 * length bytes.now }
    requires small { minimum ≤ 240 }
    ensures { values.new ≡ join values.old (nibble_values minimum bytes.now) }
{
    for place in 0..bytes.len() {
        max_one(values, 2 * place, minimum + bytes[place] % 16);
        max_one(values, 2 * place + 1, minimum + bytes[place] / 16);
    }
}

/// Sets the 32 values from `at` on to the maximum of themselves and the nibbles of sixteen bytes plus the minimum.
fn max_with_half(values: &mut [u8], at: usize, bytes: u8x16, minimum: u8)
    requires room { at + 32 ≤ length values.old }
    requires small { minimum ≤ 240 }
    ensures { values.new ≡ max_at at values.old (nibble_values minimum bytes) }
{
    let (first, second) = nibble_lanes(bytes, minimum);
    max_16(values, at, first);
    max_16(values, at + 16, second);
}

/// Returns the nibbles of sixteen bytes plus the minimum.
fn nibble_lanes(bytes: u8x16, minimum: u8) -> (u8x16, u8x16)
    requires { minimum ≤ 240 }
    ensures nibbles { result.0 ++ result.1 ≡ nibble_values minimum bytes }
    ensures len { length result.0 ≡ 16 }
{
    let low = (bytes & u8x16::splat(15)) + u8x16::splat(minimum);
    let high = (bytes >> u8x16::splat(4)) + u8x16::splat(minimum);
    low.interleave(high)
}

// ---- weights

/// Returns the sums of 2^-(minimum + n) over the nibbles n of a block, or `None` if a nibble is 15. The minimum is at
/// most 16.
pub fn unmarked_sums(block: &[u8; 64], minimum: u8) -> Option<WeightSums>
    requires { minimum ≤ 16 }
    ensures unmarked { IsSome result ↔ All (λ n. n < 15) (nibble_values 0 block.now) }
    ensures sums { IfSome result (λ s. AreSumsOf s (nibble_values minimum block.now)) }
{
    if !is_unmarked(block) {
        return None;
    }
    let low = shifted_sums(&low_nibbles(block), minimum);
    let high = shifted_sums(&high_nibbles(block), minimum);
    Some(low.plus(high))
}

/// Returns the low nibble of each byte.
#[inline(always)]
fn low_nibbles(block: &[u8; 64]) -> [u8; 64]
    ensures { result ≡ map (λ b. b % 16) block.now }
{
    (u8x64::from_array(*block) & u8x64::splat(15)).to_array()
}

/// Returns the high nibble of each byte.
#[inline(always)]
fn high_nibbles(block: &[u8; 64]) -> [u8; 64]
    ensures { result ≡ map (λ b. b / 16) block.now }
{
    (u8x64::from_array(*block) >> u8x64::splat(4)).to_array()
}

// ---- packing

/// Returns the nibbles of registers above the minimum, two in each byte.
///
/// The number of registers is even. Allocates in one request, and fails if the allocation fails.
pub fn packed_nibbles<A: Allocator>(
    alloc: A,
    registers: &[u8],
    minimum: u8,
) -> Result<Vec<u8, A>, AllocError>
    requires { length registers.now % 2 ≡ 0 }
    ensures { IfOk result (λ nibbles. nibbles.items ≡ nibble_bytes_above minimum registers.now) }
{
    let mut nibbles = vec![in alloc; 0; registers.len() / 2]?;
    pack_nibbles(&mut nibbles, registers, minimum);
    Ok(nibbles)
}

/// Writes the nibbles of registers above the minimum. One pass. A register below the minimum counts as the minimum.
///
/// There are two registers for each byte.
pub fn pack_nibbles(bytes: &mut [u8], registers: &[u8], minimum: u8)
    requires { 2 * length bytes.old ≡ length registers.now }
    ensures { bytes.new ≡ nibble_bytes_above minimum registers.now }
{
    let (blocks, rest) = registers.as_chunks::<32>();
    for place in 0..blocks.len() {
        put_16(bytes, 16 * place, packed_lanes(&blocks[place], minimum));
    }
    pack_one_by_one(&mut bytes[16 * blocks.len()..], rest, minimum);
}

/// Writes the nibbles of registers above the minimum, one byte after the other. A register below the minimum counts as
/// the minimum.
fn pack_one_by_one(bytes: &mut [u8], registers: &[u8], minimum: u8)
    requires { 2 * length bytes.old ≡ length registers.now }
    ensures { bytes.new ≡ nibble_bytes_above minimum registers.now }
{
    let (pairs, _) = registers.as_chunks::<2>();
    for place in 0..pairs.len() {
        bytes[place] = packed_pair(pairs[place], minimum);
    }
}

/// Returns the byte that holds the nibbles of two registers.
fn packed_pair(pair: [u8; 2], minimum: u8) -> u8
    ensures { (result ∷ []) ≡ nibble_bytes_above minimum pair }
{
    let [low, high] = pair;
    low.saturating_sub(minimum).min(15) + 16 * high.saturating_sub(minimum).min(15)
}

/// Writes sixteen lanes from `at` on.
fn put_16(bytes: &mut [u8], at: usize, lanes: u8x16)
    requires { at + 16 ≤ length bytes.old }
    ensures { bytes.new ≡ put_chunk at bytes.old lanes }
{
    lanes.copy_to_slice(&mut bytes[at..]);
}

/// Returns the bytes that hold the nibbles of 32 registers.
fn packed_lanes(block: &[u8; 32], minimum: u8) -> u8x16
    ensures { result ≡ nibble_bytes_above minimum block.now }
{
    let first = nibbles_above(u8x16::from_slice(&block[..]), minimum);
    let second = nibbles_above(u8x16::from_slice(&block[16..]), minimum);
    paired(first, second)
}

/// Returns the difference of each value and the minimum, at most 15.
fn nibbles_above(values: u8x16, minimum: u8) -> u8x16
    ensures { result ≡ map (nibble minimum) values }
{
    values
        .saturating_sub(u8x16::splat(minimum))
        .simd_min(u8x16::splat(15))
}

/// Returns each two nibbles as a byte, the first in the low half.
fn paired(first: u8x16, second: u8x16) -> u8x16
    requires { Each1 (λ v. v ≤ 15) (first ++ second) }
    ensures { result ≡ nibble_pairs (first ++ second) }
{
    let (low, high) = first.deinterleave(second);
    low + (high << u8x16::splat(4))
}
