// SPDX-License-Identifier: Apache-2.0
//! 6-bit registers: groups of four registers in three bytes (docs/FORMAT.md, "Packed registers").
ghost use Rattle.std.specs.Prelude.{◌≡◌, ℕ, ◌+◌, ◌-◌, ◌*◌, ◌/◌, ◌%◌, ◌^◌, ◌<◌, ◌≤◌, ◌==◌, [], ◌∷◌, ◌++◌, length, map, take, drop, slice_index, slice_set, All, IfOk};
ghost use Rattle.std.specs.List.{list_all, flat_map};
ghost use Rattle.std.specs.Simd.Lanes.{chunk, put_chunk};
ghost use Rattle.hll_base.specs.Join.{join};
ghost use Rattle.hll_kernels.specs.Groups.{IsGroup, group_fields, registers_in};
ghost use Rattle.hll_kernels.specs.Lanes.{max_at, words_of, fields_of_pairs, numbers_of, groups_of};
ghost use Rattle.hll_kernels.specs.Packed as packed;
ghost use Rattle.hll_kernels.specs.Packed.{fields, field_bytes, group_bytes, zeros};
ghost use Rattle.hll_kernels.specs.WeightSums.{AreSumsOf};

use crate::kernels::{
    RunningSums, RunningZeros, WeightSums, all_zero, count_zeros, max_64, max_one, weight_sums,
};
use std::alloc::{AllocError, Allocator};
use std::simd::prelude::*;

/// The mask of a 6-bit register.
const FIELD: u32 = 0x3f;

/// For each pair of bytes of a group: the factor after which its registers are its high twelve bits.
const FACTORS: [u16; 32] = [
    16, 1, 16, 1, 16, 1, 16, 1, 16, 1, 16, 1, 16, 1, 16, 1, 16, 1, 16, 1, 16, 1, 16, 1, 16, 1, 16,
    1, 16, 1, 16, 1,
];

// ---- one group

/// Returns the four registers of a group of three bytes.
pub fn unpack_group(group: [u8; 3]) -> [u8; 4]
    ensures fields { result ≡ group_fields group }
    ensures small { All (λ v. v ≤ 63) result }
{
    let [low, middle, high] = group;
    let bits = u32::from(low) | u32::from(middle) << 8 | u32::from(high) << 16;
    [
        (bits & FIELD) as u8,
        (bits >> 6 & FIELD) as u8,
        (bits >> 12 & FIELD) as u8,
        (bits >> 18) as u8,
    ]
}

/// Returns the group of three bytes that holds four registers, each at most 63.
pub fn pack_group(registers: [u8; 4]) -> [u8; 3]
    requires { All (λ v. v ≤ 63) registers }
    ensures bytes { result ≡ group_bytes (slice_index registers 0) (slice_index registers 1) (slice_index registers 2) (slice_index registers 3) }
    ensures group { IsGroup result }
    ensures fields { group_fields result ≡ registers }
{
    let [first, second, third, fourth] = registers;
    let bits = u32::from(first)
        + (u32::from(second) << 6)
        + (u32::from(third) << 12)
        + (u32::from(fourth) << 18);
    let [low, middle, high, _] = bits.to_le_bytes();
    [low, middle, high]
}

// ---- one register

/// Returns the register of a slot.
pub fn register_at(groups: &[[u8; 3]], slot: usize) -> u8
    requires { slot < 4 * length groups.now }
    ensures { result ≡ slice_index (registers_in groups.now) slot }
{
    unpack_group(groups[slot / 4])[slot % 4]
}

/// Sets the register of a slot to a value of at most 63. The other registers don't change.
pub fn put_register(groups: &mut [[u8; 3]], slot: usize, value: u8)
    requires within { slot < 4 * length groups.old }
    requires small { value ≤ 63 }
    requires groups { All IsGroup groups.old }
    ensures registers { registers_in groups.new ≡ slice_set (registers_in groups.old) slot value }
    ensures groups { All IsGroup groups.new }
    ensures len { length groups.new ≡ length groups.old }
{
    let mut registers = unpack_group(groups[slot / 4]);
    registers[slot % 4] = value;
    groups[slot / 4] = pack_group(registers);
}

// ---- packing

/// Returns the groups of registers.
///
/// The number of registers is a multiple of four, and each is at most 63. Allocates in one request, and fails if the
/// allocation fails.
pub fn pack_groups<A: Allocator>(alloc: A, registers: &[u8]) -> Result<Vec<[u8; 3], A>, AllocError>
    requires small { All (λ v. v ≤ 63) registers.now }
    requires whole { length registers.now % 4 ≡ 0 }
    ensures registers { IfOk result (λ groups. registers_in groups.items ≡ registers.now) }
    ensures groups { IfOk result (λ groups. All IsGroup groups.items) }
{
    let mut groups = vec![in alloc; [0; 3]; registers.len() / 4]?;
    pack_groups_into(&mut groups, registers);
    Ok(groups)
}

/// Writes the group of each four registers, sixteen registers at a time.
fn pack_groups_into(groups: &mut [[u8; 3]], registers: &[u8])
    requires size { 4 * length groups.old ≡ length registers.now }
    requires small { All (λ v. v ≤ 63) registers.now }
    ensures { groups.new ≡ groups_of registers.now }
{
    let (blocks, rest) = registers.as_chunks::<16>();
    for place in 0..blocks.len() {
        put_four_groups(groups, 4 * place, &blocks[place]);
    }
    pack_one_by_one(&mut groups[4 * blocks.len()..], rest);
}

/// Writes the group of each four registers, one after the other.
fn pack_one_by_one(groups: &mut [[u8; 3]], registers: &[u8])
    requires size { 4 * length groups.old ≡ length registers.now }
    requires small { All (λ v. v ≤ 63) registers.now }
    ensures { groups.new ≡ groups_of registers.now }
{
    let (fours, _) = registers.as_chunks::<4>();
    for place in 0..fours.len() {
        groups[place] = pack_group(fours[place]);
    }
}

/// Writes the groups of sixteen registers, starting at group `at`.
fn put_four_groups(groups: &mut [[u8; 3]], at: usize, block: &[u8; 16])
    requires room { at + 4 ≤ length groups.old }
    requires small { All (λ v. v ≤ 63) block.now }
    ensures { groups.new ≡ put_chunk at groups.old (groups_of block.now) }
{
    let [first, second, third, fourth] = four_groups(block);
    groups[at] = first;
    groups[at + 1] = second;
    groups[at + 2] = third;
    groups[at + 3] = fourth;
}

/// Returns the groups of sixteen registers.
#[inline(always)]
fn four_groups(block: &[u8; 16]) -> [[u8; 3]; 4]
    requires { All (λ v. v ≤ 63) block.now }
    ensures { result ≡ groups_of block.now }
{
    let [first, second, third, fourth] = numbers_in(block).to_array();
    [
        group_of(first),
        group_of(second),
        group_of(third),
        group_of(fourth),
    ]
}

/// Writes registers in groups: three bytes for each four registers, sixteen registers at a time.
///
/// The number of registers is a multiple of sixteen, and each is at most 63. One pass; allocates nothing.
pub fn write_groups(bytes: &mut [u8], registers: &[u8])
    requires size { 4 * length bytes.old ≡ 3 * length registers.now }
    requires whole { length registers.now % 16 ≡ 0 }
    requires small { All (λ v. v ≤ 63) registers.now }
    ensures { bytes.new ++ 0 ∷ [] ≡ field_bytes registers.now }
{
    let (blocks, _) = registers.as_chunks::<16>();
    for place in 0..blocks.len() {
        write_four_groups(bytes, 12 * place, &blocks[place]);
    }
}

/// Writes the groups of sixteen registers over the twelve bytes from `at` on.
// (an assignment of arrays: `copy_from_slice` compares addresses, and then the compiler keeps the groups in memory)
#[inline(always)]
fn write_four_groups(bytes: &mut [u8], at: usize, block: &[u8; 16])
    requires room { at + 12 ≤ length bytes.old }
    requires small { All (λ v. v ≤ 63) block.now }
    ensures { bytes.new ≡ put_chunk at bytes.old (flat_map (λ g. g) (groups_of block.now)) }
{
    put_12(&mut bytes[at..at + 12], four_groups(block));
}

/// Writes four groups over twelve bytes.
#[inline(always)]
fn put_12(bytes: &mut [u8], groups: [[u8; 3]; 4])
    requires { length bytes.old ≡ 12 }
    ensures { bytes.new ≡ flat_map (λ g. g) groups }
{
    if let Some(from) = groups.as_flattened().as_array::<12>()
        && let Some(to) = bytes.as_mut_array::<12>()
    {
        *to = *from;
    }
}

/// Returns the lower three bytes of a number.
fn group_of(number: u32) -> [u8; 3]
    ensures { result ≡ (number % 256) ∷ (number / 256 % 256) ∷ (number / 65536 % 256) ∷ [] }
{
    let [low, middle, high, _] = number.to_le_bytes();
    [low, middle, high]
}

/// Returns each four registers as one number, the first register in the lowest six bits.
fn numbers_in(block: &[u8; 16]) -> u32x4
    requires { All (λ v. v ≤ 63) block.now }
    ensures { result ≡ numbers_of block.now }
{
    let words = words_in(u8x16::from_array(*block));
    let low = field(words, 0) + (field(words, 8) << u32x4::splat(6));
    let high = (field(words, 16) << u32x4::splat(12)) + (field(words, 24) << u32x4::splat(18));
    low + high
}

// ---- lanes

fn words_in(bytes: u8x16) -> u32x4
    ensures { result ≡ words_of bytes }
{
    u32x4::from_le_bytes(bytes)
}

/// Returns six bits of each 32-bit lane, starting at bit `from`.
fn field(words: u32x4, from: u32) -> u32x4
    requires { from ≤ 24 }
    ensures { result ≡ map (λ w. w / 2 ^ from % 64) words }
{
    words >> u32x4::splat(from) & u32x4::splat(63)
}

// ---- maxima

/// Sets each byte of `dst` to the maximum of itself and the register at the same index. One pass.
pub fn max_groups_into(dst: &mut [u8], groups: &[[u8; 3]])
    requires { length dst.old ≡ 4 * length groups.now }
    ensures { dst.new ≡ join dst.old (registers_in groups.now) }
{
    max_with_fields(dst, groups.as_flattened());
}

/// Sets each value to the maximum of itself and the register at the same index, sixteen groups at a time.
fn max_with_fields(values: &mut [u8], bytes: &[u8])
    requires { 3 * length values.old ≡ 4 * length bytes.now }
    ensures { values.new ≡ join values.old (fields bytes.now) }
{
    let (blocks, rest) = bytes.as_chunks::<48>();
    for place in 0..blocks.len() {
        max_with_block(values, 64 * place, &blocks[place]);
    }
    max_one_by_one(&mut values[64 * blocks.len()..], rest);
}

/// Sets each value to the maximum of itself and the register at the same index, one group after the other.
fn max_one_by_one(values: &mut [u8], bytes: &[u8])
    requires { 3 * length values.old ≡ 4 * length bytes.now }
    ensures { values.new ≡ join values.old (fields bytes.now) }
{
    let (groups, _) = bytes.as_chunks::<3>();
    for place in 0..groups.len() {
        max_with_group(values, 4 * place, groups[place]);
    }
}

/// Sets the four values from `at` on to the maximum of themselves and the registers of a group.
fn max_with_group(values: &mut [u8], at: usize, group: [u8; 3])
    requires { at + 4 ≤ length values.old }
    ensures { values.new ≡ max_at at values.old (fields group) }
{
    let [first, second, third, fourth] = unpack_group(group);
    max_one(values, at, first);
    max_one(values, at + 1, second);
    max_one(values, at + 2, third);
    max_one(values, at + 3, fourth);
}

/// Sets the 64 values from `at` on to the maximum of themselves and the registers of sixteen groups.
fn max_with_block(values: &mut [u8], at: usize, block: &[u8; 48])
    requires { at + 64 ≤ length values.old }
    ensures { values.new ≡ max_at at values.old (fields block.now) }
{
    max_64(values, at, fields_in(block));
}

// ---- unpacking sixteen groups

/// Returns the registers of sixteen groups.
#[inline(always)]
fn fields_in(block: &[u8; 48]) -> u8x64
    ensures { result ≡ fields block.now }
{
    spread(pairs_in(block))
}

/// Returns sixteen groups, each as two pairs of bytes: the first and second byte, and the second and third.
#[inline(always)]
fn pairs_in(block: &[u8; 48]) -> u8x64
    ensures { fields_of_pairs result ≡ fields block.now }
{
    let low = joined(pairs_at(block, 0), pairs_at(block, 12));
    let high = joined(pairs_at(block, 24), pairs_at_end(block));
    low.shuffle(
        high,
        [
            0, 1, 2, 3, 4, 5, 6, 7, 8, 9, 10, 11, 12, 13, 14, 15, 16, 17, 18, 19, 20, 21, 22, 23,
            24, 25, 26, 27, 28, 29, 30, 31, 32, 33, 34, 35, 36, 37, 38, 39, 40, 41, 42, 43, 44, 45,
            46, 47, 48, 49, 50, 51, 52, 53, 54, 55, 56, 57, 58, 59, 60, 61, 62, 63,
        ],
    )
}

/// Returns the lanes of both.
#[inline(always)]
fn joined(lanes: u8x16, others: u8x16) -> u8x32
    ensures { result ≡ lanes ++ others }
{
    lanes.shuffle(
        others,
        [
            0, 1, 2, 3, 4, 5, 6, 7, 8, 9, 10, 11, 12, 13, 14, 15, 16, 17, 18, 19, 20, 21, 22, 23,
            24, 25, 26, 27, 28, 29, 30, 31,
        ],
    )
}

/// Returns the four groups from byte `at` on, each as two pairs of bytes.
#[inline(always)]
fn pairs_at(block: &[u8; 48], at: usize) -> u8x16
    requires { at ≤ 32 }
    ensures fields { fields_of_pairs result ≡ fields (chunk at 12 block.now) }
    ensures lanes { length result ≡ 16 }
{
    first_pairs(u8x16::from_slice(&block[at..]))
}

/// Returns the last four groups of a block, each as two pairs of bytes.
#[inline(always)]
fn pairs_at_end(block: &[u8; 48]) -> u8x16
    ensures fields { fields_of_pairs result ≡ fields (chunk 36 12 block.now) }
    ensures lanes { length result ≡ 16 }
{
    last_pairs(u8x16::from_slice(&block[32..]))
}

/// Returns the four groups in the first twelve lanes, each as two pairs of bytes.
#[inline(always)]
fn first_pairs(bytes: u8x16) -> u8x16
    ensures fields { fields_of_pairs result ≡ fields (take 12 bytes) }
    ensures lanes { length result ≡ 16 }
{
    bytes.swizzle([0, 1, 1, 2, 3, 4, 4, 5, 6, 7, 7, 8, 9, 10, 10, 11])
}

/// Returns the four groups in the last twelve lanes, each as two pairs of bytes.
#[inline(always)]
fn last_pairs(bytes: u8x16) -> u8x16
    ensures fields { fields_of_pairs result ≡ fields (take 12 (drop 4 bytes)) }
    ensures lanes { length result ≡ 16 }
{
    bytes.swizzle([4, 5, 5, 6, 7, 8, 8, 9, 10, 11, 11, 12, 13, 14, 14, 15])
}

/// Returns the registers of groups whose bytes are two pairs.
///
/// A pair is a 16-bit number. Its registers are its low twelve bits in the first pair of a group, and its high twelve bits in
/// the second. Times 16, the first are the high twelve bits, too.
#[inline(always)]
fn spread(pairs: u8x64) -> u8x64
    ensures { result ≡ fields_of_pairs pairs }
{
    let aligned = u16x32::from_le_bytes(pairs) * u16x32::from_array(FACTORS);
    let low = aligned >> u16x32::splat(4) & u16x32::splat(63);
    let high = aligned >> u16x32::splat(10) << u16x32::splat(8);
    (low + high).to_le_bytes()
}

// ---- zeros and weights

/// Returns whether all registers are 0.
pub fn all_zero_in(groups: &[[u8; 3]]) -> bool
    requires { All IsGroup groups.now }
    ensures { result ≡ list_all (λ v. v == 0) (registers_in groups.now) }
{
    all_zero(groups.as_flattened())
}

/// Returns the number of registers that are 0. One pass over at most 2^19 groups.
pub fn count_zeros_in(groups: &[[u8; 3]]) -> usize
    requires { length groups.now ≤ 2 ^ 19 }
    ensures count { result ≡ zeros (registers_in groups.now) }
    ensures bound { result ≤ 4 * length groups.now }
{
    zero_fields(groups.as_flattened())
}

/// Returns the number of registers that are 0 in the bytes of groups, sixteen groups at a time.
fn zero_fields(bytes: &[u8]) -> usize
    requires whole { length bytes.now % 3 ≡ 0 }
    requires few { length bytes.now ≤ 3 * 2 ^ 19 }
    ensures { result ≡ zeros (fields bytes.now) }
{
    let (parts, rest) = bytes.as_chunks::<6144>();
    let mut count = 0;
    for part in parts {
        count += zero_fields_in(part);
    }
    count + zero_fields_in(rest)
}

/// Returns the number of registers that are 0 in the bytes of at most 2048 groups, sixteen groups at a time.
fn zero_fields_in(bytes: &[u8]) -> usize
    requires whole { length bytes.now % 3 ≡ 0 }
    requires few { length bytes.now ≤ 6144 }
    ensures count { result ≡ zeros (fields bytes.now) }
    ensures bound { result ≤ 8192 }
{
    let (blocks, rest) = bytes.as_chunks::<48>();
    let mut zeros = RunningZeros::new();
    for block in blocks {
        zeros.add(fields_in(block));
    }
    zeros.total() + zero_fields_one_by_one(rest)
}

/// Returns the number of registers that are 0 in at most 15 groups.
fn zero_fields_one_by_one(bytes: &[u8]) -> usize
    requires whole { length bytes.now % 3 ≡ 0 }
    requires few { length bytes.now < 48 }
    ensures count { result ≡ zeros (fields bytes.now) }
    ensures bound { result ≤ 64 }
{
    let registers = unpacked(bytes);
    count_zeros(&registers[..bytes.len() / 3 * 4])
}

/// Returns the sums of 2^-v over the registers v. One pass over at most 2^19 groups.
pub fn weight_sums_in(groups: &[[u8; 3]]) -> WeightSums
    requires { length groups.now ≤ 2 ^ 19 }
    ensures { AreSumsOf result (registers_in groups.now) }
{
    field_sums(groups.as_flattened())
}

/// Returns the sums of the weights of registers in the bytes of groups, sixteen groups at a time.
fn field_sums(bytes: &[u8]) -> WeightSums
    requires whole { length bytes.now % 3 ≡ 0 }
    requires few { length bytes.now ≤ 3 * 2 ^ 19 }
    ensures { AreSumsOf result (fields bytes.now) }
{
    let (blocks, rest) = bytes.as_chunks::<48>();
    let mut sums = RunningSums::new();
    for block in blocks {
        sums.add(fields_in(block));
    }
    sums.total().plus(field_sums_one_by_one(rest))
}

/// Returns the number of registers that are 0, and the sums of 2^-v over the registers v. One pass over at most 2^19 groups.
pub fn zeros_and_sums_in(groups: &[[u8; 3]]) -> (usize, WeightSums)
    requires { length groups.now ≤ 2 ^ 19 }
    ensures zeros { result.0 ≡ zeros (registers_in groups.now) }
    ensures bound { result.0 ≤ 4 * length groups.now }
    ensures sums { AreSumsOf result.1 (registers_in groups.now) }
{
    zeros_and_field_sums(groups.as_flattened())
}

/// Returns the number of registers that are 0 in the bytes of groups, and the sums of the weights of the registers.
fn zeros_and_field_sums(bytes: &[u8]) -> (usize, WeightSums)
    requires whole { length bytes.now % 3 ≡ 0 }
    requires few { length bytes.now ≤ 3 * 2 ^ 19 }
    ensures zeros { result.0 ≡ zeros (fields bytes.now) }
    ensures sums { AreSumsOf result.1 (fields bytes.now) }
{
    let (parts, rest) = bytes.as_chunks::<6144>();
    let mut count = 0;
    let mut sums = WeightSums { low: 0, high: 0 };
    for part in parts {
        let (more, others) = zeros_and_field_sums_in(part);
        count += more;
        sums = sums.plus(others);
    }
    let (more, others) = zeros_and_field_sums_in(rest);
    (count + more, sums.plus(others))
}

/// Returns the number of registers that are 0 in the bytes of at most 2048 groups, and the sums of the weights of the registers,
/// sixteen groups at a time.
fn zeros_and_field_sums_in(bytes: &[u8]) -> (usize, WeightSums)
    requires whole { length bytes.now % 3 ≡ 0 }
    requires few { length bytes.now ≤ 6144 }
    ensures zeros { result.0 ≡ zeros (fields bytes.now) }
    ensures bound { result.0 ≤ 8192 }
    ensures sums { AreSumsOf result.1 (fields bytes.now) }
{
    let (blocks, rest) = bytes.as_chunks::<48>();
    let mut zeros = RunningZeros::new();
    let mut sums = RunningSums::new();
    for block in blocks {
        let registers = fields_in(block);
        zeros.add(registers);
        sums.add(registers);
    }
    (
        zeros.total() + zero_fields_one_by_one(rest),
        sums.total().plus(field_sums_one_by_one(rest)),
    )
}

/// Returns the sums of the weights of the registers of at most 15 groups.
fn field_sums_one_by_one(bytes: &[u8]) -> WeightSums
    requires whole { length bytes.now % 3 ≡ 0 }
    requires few { length bytes.now < 48 }
    ensures { AreSumsOf result (fields bytes.now) }
{
    let registers = unpacked(bytes);
    weight_sums(&registers[..bytes.len() / 3 * 4])
}

/// Returns the registers of at most 15 groups, followed by zeros.
fn unpacked(bytes: &[u8]) -> [u8; 64]
    requires whole { length bytes.now % 3 ≡ 0 }
    requires few { length bytes.now < 48 }
    ensures { take (length bytes.now / 3 * 4) result ≡ fields bytes.now }
{
    let mut registers = [0; 64];
    max_with_fields(&mut registers[..bytes.len() / 3 * 4], bytes);
    registers
}

/// Returns the groups in `bytes`, borrowed. One or two bytes left at the end, too few for a group, are ignored.
pub fn groups_in(bytes: &[u8]) -> &[[u8; 3]]
    ensures registers { registers_in result.now ≡ packed.fields bytes.now }
    ensures groups { All IsGroup result.now }
{
    let (groups, _) = bytes.as_chunks::<3>();
    groups
}
