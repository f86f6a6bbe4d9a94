// SPDX-License-Identifier: Apache-2.0
//! Loops over the bytes of registers: with SIMD lanes, and byte by byte for what is left after the last full block.
//! None of them allocates.
ghost use Rattle.std.specs.Prelude.{◌≡◌, ℕ, ◌+◌, ◌-◌, ◌*◌, ◌/◌, ◌%◌, ◌^◌, ◌<◌, ◌≤◌, ◌==◌, nat_le, nat_lt, not, List, [], ◌∷◌, ◌++◌, count_by, length, map, slice_index, slice_set, All};
ghost use Rattle.std.specs.List.{list_all};
ghost use Rattle.std.specs.Simd.Lanes.{mask_l, sum_l, Each1};
ghost use Rattle.hll_base.specs.Join.{join};
ghost use Rattle.hll_kernels.specs.Lanes.{max_at, window_weight, window_units, IsIndex};
ghost use Rattle.hll_kernels.specs.Packed as packed;
ghost use Rattle.hll_kernels.specs.Packed.{zeros};
ghost use Rattle.hll_kernels.specs.Packed.{AreRegisters};
ghost use Rattle.hll_kernels.specs.WeightSums.{AreSumsOf, AreRunningSums};
ghost use Rattle.hll_kernels.specs.ZeroCounts.{AreRunningZeros};

use std::simd::prelude::*;

/// The upper byte of 2^(15 - v) at the index v, 0 to 15, four times.
const UPPER_BYTES: [u8; 64] = [
    128, 64, 32, 16, 8, 4, 2, 1, 0, 0, 0, 0, 0, 0, 0, 0, 128, 64, 32, 16, 8, 4, 2, 1, 0, 0, 0, 0,
    0, 0, 0, 0, 128, 64, 32, 16, 8, 4, 2, 1, 0, 0, 0, 0, 0, 0, 0, 0, 128, 64, 32, 16, 8, 4, 2, 1,
    0, 0, 0, 0, 0, 0, 0, 0,
];

/// The lower byte of 2^(15 - v) at the index v, 0 to 15, four times.
const LOWER_BYTES: [u8; 64] = [
    0, 0, 0, 0, 0, 0, 0, 0, 128, 64, 32, 16, 8, 4, 2, 1, 0, 0, 0, 0, 0, 0, 0, 0, 128, 64, 32, 16,
    8, 4, 2, 1, 0, 0, 0, 0, 0, 0, 0, 0, 128, 64, 32, 16, 8, 4, 2, 1, 0, 0, 0, 0, 0, 0, 0, 0, 128,
    64, 32, 16, 8, 4, 2, 1,
];

/// Sets each byte of `dst` to the maximum of itself and the byte of `src` at the same index.
///
/// Both have the same length. One pass; allocates nothing.
pub fn max_into(dst: &mut [u8], src: &[u8])
    requires { length dst.old ≡ length src.now }
    ensures joined { dst.new ≡ join dst.old src.now }
    ensures registers { (k : ℕ) → AreRegisters k dst.old → AreRegisters k src.now → AreRegisters k dst.new }
{
    let (blocks, rest) = src.as_chunks::<64>();
    for place in 0..blocks.len() {
        max_64(dst, 64 * place, u8x64::from_array(blocks[place]));
    }
    max_one_by_one(&mut dst[64 * blocks.len()..], rest);
}

/// Sets the 64 bytes from `at` on to the maximum of themselves and the lanes.
#[inline(always)]
pub(crate) fn max_64(dst: &mut [u8], at: usize, lanes: u8x64)
    requires { at + 64 ≤ length dst.old }
    ensures { dst.new ≡ max_at at dst.old lanes }
{
    let old = u8x64::from_slice(&dst[at..]);
    old.simd_max(lanes).copy_to_slice(&mut dst[at..]);
}

/// Sets the sixteen bytes from `at` on to the maximum of themselves and the lanes.
pub(crate) fn max_16(dst: &mut [u8], at: usize, lanes: u8x16)
    requires { at + 16 ≤ length dst.old }
    ensures { dst.new ≡ max_at at dst.old lanes }
{
    let old = u8x16::from_slice(&dst[at..]);
    old.simd_max(lanes).copy_to_slice(&mut dst[at..]);
}

/// Sets the byte at `at` to the maximum of itself and `value`.
pub(crate) fn max_one(dst: &mut [u8], at: usize, value: u8)
    requires { at < length dst.old }
    ensures { dst.new ≡ max_at at dst.old (value ∷ []) }
{
    dst[at] = dst[at].max(value);
}

/// Sets each byte of `dst` to the maximum of itself and the byte of `src` at the same index, one after the other.
fn max_one_by_one(dst: &mut [u8], src: &[u8])
    requires { length dst.old ≡ length src.now }
    ensures { dst.new ≡ join dst.old src.now }
{
    for place in 0..dst.len() {
        dst[place] = dst[place].max(src[place]);
    }
}

/// Returns the number of bytes that are 0. One pass; allocates nothing.
pub fn count_zeros(bytes: &[u8]) -> usize
    ensures zeros { result ≡ zeros bytes.now }
    ensures bound { result ≤ length bytes.now }
{
    let (parts, rest) = bytes.as_chunks::<8192>();
    let mut count = 0;
    for part in parts {
        count += zeros_in(part);
    }
    count + zeros_in(rest)
}

/// Returns the number of at most 8192 bytes that are 0.
fn zeros_in(bytes: &[u8]) -> usize
    requires { length bytes.now ≤ 8192 }
    ensures zeros { result ≡ zeros bytes.now }
    ensures bound { result ≤ 8192 }
{
    let (blocks, rest) = bytes.as_chunks::<64>();
    let mut zeros = RunningZeros::new();
    for block in blocks {
        zeros.add(u8x64::from_array(*block));
    }
    zeros.total() + zeros_one_by_one(rest)
}

/// The number of values that are 0, of at most 8192 values that come in blocks of 64: a count for each place in a block.
// (a sum of lanes takes longer than to count a block, so there is one for 128 blocks; a lane has room for 255)
#[derive(Clone, Copy)]
pub(crate) struct RunningZeros {
    counts: u8x64,
}

impl RunningZeros {
    /// Returns the counts of no values.
    #[inline(always)]
    pub(crate) fn new() -> RunningZeros
        ensures { AreRunningZeros result [] }
    {
        RunningZeros {
            counts: u8x64::splat(0),
        }
    }

    /// Adds 64 values. There are at most 8192 in all.
    #[inline(always)]
    pub(crate) fn add(&mut self, values: u8x64)
        requires { (R : List ℕ) × AreRunningZeros self.old R × (length R + 64 ≤ 8192) }
        ensures { (R : List ℕ) → AreRunningZeros self.old R → AreRunningZeros self.new (R ++ values) }
    {
        self.counts = self.counts.strict_add(zero_lanes(values));
    }

    /// Returns the number of values that are 0.
    #[inline(always)]
    pub(crate) fn total(self) -> usize
        requires { (R : List ℕ) × AreRunningZeros self R × (length R ≤ 8192) }
        ensures { (R : List ℕ) → AreRunningZeros self R → result ≡ zeros R }
    {
        lane_sum(byte_sums(self.counts)) as usize
    }
}

/// Returns lanes of 1 for the lanes that are 0, and of 0 for the others.
#[inline(always)]
fn zero_lanes(values: u8x64) -> u8x64
    ensures count { sum_l result ≡ zeros values }
    ensures lanes { length result ≡ 64 }
    ensures small { Each1 (λ n. n ≤ 1) result }
{
    values
        .simd_eq(u8x64::splat(0))
        .select(u8x64::splat(1), u8x64::splat(0))
}

/// Returns the number of bytes that are 0, counted one after the other.
fn zeros_one_by_one(bytes: &[u8]) -> usize
    ensures { result ≡ zeros bytes.now }
{
    let mut count = 0;
    for byte in bytes {
        if *byte == 0 {
            count += 1;
        }
    }
    count
}

/// Returns the number of bytes that equal a value. One pass; allocates nothing.
pub fn count_of(bytes: &[u8], value: u8) -> usize
    ensures count { result ≡ count_by (λ v. v == value) bytes.now }
    ensures bound { result ≤ length bytes.now }
{
    let (blocks, rest) = bytes.as_chunks::<64>();
    let mut count = 0;
    for block in blocks {
        count += usize::from(count_of_few(block, value));
    }
    count + usize::from(count_of_few(rest, value))
}

/// Returns the number of at most 64 bytes that equal a value. It fits a byte.
#[inline(always)]
fn count_of_few(bytes: &[u8], value: u8) -> u8
    requires { length bytes.now ≤ 64 }
    ensures count { result ≡ count_by (λ v. v == value) bytes.now }
    ensures bound { result ≤ 64 }
{
    let mut count = 0;
    for byte in bytes {
        count += u8::from(*byte == value);
    }
    count
}

/// Returns the least of some registers. One pass.
pub fn least_of(values: &[u8]) -> u8
    ensures { result ≡ packed.minimum values.now }
{
    let mut least = 63u8;
    for value in values {
        least = least.min(*value);
    }
    least
}

/// Returns the greatest of some bytes, or 0 if there are none. One pass.
pub fn greatest_of(bytes: &[u8]) -> u8
    ensures { (bound : ℕ) → list_all (λ b. nat_le b bound) bytes.now ≡ nat_le result bound }
{
    let (blocks, rest) = bytes.as_chunks::<64>();
    let mut lanes = u8x64::splat(0);
    for block in blocks {
        lanes = lanes.simd_max(u8x64::from_array(*block));
    }
    greatest_one_by_one(&lanes.to_array()).max(greatest_one_by_one(rest))
}

/// Returns the number of bytes that are 0, and the greatest byte, or 0 if there are none. One pass; allocates nothing.
pub fn zeros_and_greatest(bytes: &[u8]) -> (usize, u8)
    ensures zeros { result.0 ≡ zeros bytes.now }
    ensures bound { result.0 ≤ length bytes.now }
    ensures greatest { (bound : ℕ) → list_all (λ b. nat_le b bound) bytes.now ≡ nat_le result.1 bound }
{
    let (parts, rest) = bytes.as_chunks::<8192>();
    let mut count = 0;
    let mut greatest = 0u8;
    for part in parts {
        let (more, other) = zeros_and_greatest_in(part);
        count += more;
        greatest = greatest.max(other);
    }
    let (more, other) = zeros_and_greatest_in(rest);
    (count + more, greatest.max(other))
}

/// Returns the number of at most 8192 bytes that are 0, and the greatest byte, or 0 if there are none.
fn zeros_and_greatest_in(bytes: &[u8]) -> (usize, u8)
    requires { length bytes.now ≤ 8192 }
    ensures zeros { result.0 ≡ zeros bytes.now }
    ensures bound { result.0 ≤ 8192 }
    ensures greatest { (bound : ℕ) → list_all (λ b. nat_le b bound) bytes.now ≡ nat_le result.1 bound }
{
    let (blocks, rest) = bytes.as_chunks::<64>();
    let mut zeros = RunningZeros::new();
    let mut lanes = u8x64::splat(0);
    for block in blocks {
        let values = u8x64::from_array(*block);
        zeros.add(values);
        lanes = lanes.simd_max(values);
    }
    let greatest = greatest_one_by_one(&lanes.to_array()).max(greatest_one_by_one(rest));
    (zeros.total() + zeros_one_by_one(rest), greatest)
}

/// Returns the greatest of bytes, compared one after the other.
fn greatest_one_by_one(bytes: &[u8]) -> u8
    ensures { (bound : ℕ) → list_all (λ b. nat_le b bound) bytes.now ≡ nat_le result bound }
{
    let mut greatest = 0u8;
    for byte in bytes {
        greatest = greatest.max(*byte);
    }
    greatest
}

/// Returns whether each byte of a block is below a bound.
#[inline(always)]
pub fn are_below(block: &[u8; 64], bound: u8) -> bool
    ensures { result ≡ list_all (λ v. nat_lt v bound) block.now }
{
    greatest_of_fours(u8x64::from_array(*block))
        .simd_ge(u8x16::splat(bound))
        .to_bitmask()
        == 0
}

/// Returns the greatest of each four lanes that are sixteen apart.
// (sixteen lanes fit one register: a mask of 64 lanes takes some thirty instructions on 64-bit ARM)
#[inline(always)]
fn greatest_of_fours(lanes: u8x64) -> u8x16
    ensures below { (bound : ℕ) → list_all (λ v. nat_lt v bound) lanes ≡ list_all (λ v. nat_lt v bound) result }
    ensures lanes { length result ≡ 16 }
{
    let of_twos = lanes.extract::<0, 32>().simd_max(lanes.extract::<32, 32>());
    of_twos
        .extract::<0, 16>()
        .simd_max(of_twos.extract::<16, 16>())
}

/// Returns whether all bytes are 0. Stops at the first block with another byte; allocates nothing.
pub fn all_zero(bytes: &[u8]) -> bool
    ensures { result ≡ list_all (λ b. b == 0) bytes.now }
{
    let (blocks, rest) = bytes.as_chunks::<64>();
    for block in blocks {
        if nonzeros_in(block) != 0 {
            return false;
        }
    }
    all_zero_one_by_one(rest)
}

/// Returns whether all bytes are 0, looking at one after the other.
fn all_zero_one_by_one(bytes: &[u8]) -> bool
    ensures { result ≡ list_all (λ b. b == 0) bytes.now }
{
    bytes.iter().all(|byte| *byte == 0)
}

/// Returns a bit for each byte of a block, set if the byte is not 0.
fn nonzeros_in(block: &[u8; 64]) -> u64
    ensures { result ≡ mask_l (map (λ b. not (b == 0)) block.now) }
{
    u8x64::from_array(*block)
        .simd_ne(u8x64::splat(0))
        .to_bitmask()
}

/// The sum of 2^-v over registers v, in two parts. Over 2^21 registers each part is at most 2^52.
#[derive(Clone, Copy, Debug, PartialEq, Eq)]
pub struct WeightSums {
    /// The sum over the registers below 32, in units of 2^-31.
    pub low: u64,
    /// The sum over the registers from 32 on, in units of 2^-63.
    pub high: u64,
}

impl WeightSums {
    /// Returns the sum of both parts, in units of 2^-63.
    pub fn units(self) -> u128
        ensures { result ≡ 2 ^ 32 * self.low + self.high }
    {
        (u128::from(self.low) << 32) + u128::from(self.high)
    }

    /// Returns the sums over the registers of both.
    pub fn plus(self, others: WeightSums) -> WeightSums
        requires low { self.low + others.low < 2 ^ 64 }
        requires high { self.high + others.high < 2 ^ 64 }
        ensures low { result.low ≡ self.low + others.low }
        ensures high { result.high ≡ self.high + others.high }
    {
        WeightSums {
            low: self.low + others.low,
            high: self.high + others.high,
        }
    }

    /// Returns the sums after one of the registers became `new`, which was `old` before.
    ///
    /// There are at most 2^21 registers, each at most 63.
    pub fn replaced(self, old: u8, new: u8) -> WeightSums
        requires { (R : List ℕ) × (slot : ℕ) × AreSumsOf self R × (slot < length R) × (slice_index R slot ≡ old) × (length R ≤ 2 ^ 21) × (new ≤ 63) × (old ≤ 63) }
        ensures sums { (R : List ℕ) (slot : ℕ) → AreSumsOf self R → slot < length R → slice_index R slot ≡ old → AreSumsOf result (slice_set R slot new) }
        ensures low { result.low < 2 ^ 53 }
        ensures high { result.high < 2 ^ 53 }
    {
        let old = value_sums(old);
        let new = value_sums(new);
        WeightSums {
            low: self.low - old.low + new.low,
            high: self.high - old.high + new.high,
        }
    }
}

/// The sums of 2^-v over values v that come in blocks. The values of blocks in which all are below 16 are summed in lanes: the
/// upper bytes of 2^(15 - v), and the lower ones.
#[derive(Clone, Copy)]
pub(crate) struct RunningSums {
    upper: u32x8,
    lower: u32x8,
    others: WeightSums,
}

impl RunningSums {
    /// Returns the sums over no values.
    #[inline(always)]
    pub(crate) fn new() -> RunningSums
        ensures { AreRunningSums result [] }
    {
        RunningSums {
            upper: u32x8::splat(0),
            lower: u32x8::splat(0),
            others: WeightSums { low: 0, high: 0 },
        }
    }

    /// Adds 64 values, each at most 63. There are at most 2^21 values in all.
    ///
    /// Most often none of the 64 is above 15.
    #[inline(always)]
    pub(crate) fn add(&mut self, values: u8x64)
        requires small { All (λ v. v ≤ 63) values }
        requires few { (R : List ℕ) × AreRunningSums self.old R × (length R + 64 ≤ 2 ^ 21) }
        ensures { (R : List ℕ) → AreRunningSums self.old R → AreRunningSums self.new (R ++ values) }
    {
        if are_below(&values.to_array(), 16) {
            let upper = halves_added(byte_sums(upper_bytes(values)));
            let lower = halves_added(byte_sums(lower_bytes(values)));
            self.upper = lanes_added(self.upper, upper);
            self.lower = lanes_added(self.lower, lower);
        } else {
            let sums = block_sums_above_least(&values.to_array());
            self.others = self.others.plus(sums);
        }
    }

    /// Returns the sums over at most 2^21 values.
    pub(crate) fn total(self) -> WeightSums
        requires { (R : List ℕ) × AreRunningSums self R × (length R ≤ 2 ^ 21) }
        ensures { (R : List ℕ) → AreRunningSums self R → AreSumsOf result R }
    {
        let upper = u64::from(sum_of_eight(self.upper));
        let lower = u64::from(sum_of_eight(self.lower));
        WeightSums {
            low: (upper << 24) + (lower << 16) + self.others.low,
            high: self.others.high,
        }
    }
}

/// Returns the sum of the lanes.
fn sum_of_eight(lanes: u32x8) -> u32
    requires { sum_l lanes < 2 ^ 32 }
    ensures { result ≡ sum_l lanes }
{
    lanes.strict_reduce_sum()
}

/// Returns the sums of each lane of the first half and a lane of the second half.
#[inline(always)]
fn halves_added(lanes: u32x16) -> u32x8
    requires lanes { length lanes ≡ 16 }
    requires small { sum_l lanes < 2 ^ 32 }
    ensures sum { sum_l result ≡ sum_l lanes }
    ensures lanes { length result ≡ 8 }
{
    lanes_added(lanes.extract::<0, 8>(), lanes.extract::<8, 8>())
}

/// Returns the sums of lanes at the same index.
#[inline(always)]
fn lanes_added(lanes: u32x8, others: u32x8) -> u32x8
    requires lanes { length lanes ≡ length others }
    requires small { sum_l lanes + sum_l others < 2 ^ 32 }
    ensures sum { sum_l result ≡ sum_l lanes + sum_l others }
    ensures lanes { length result ≡ length lanes }
{
    lanes.strict_add(others)
}

/// Returns the sums of 2^-v over the bytes v.
///
/// There are at most 2^21 bytes, each at most 63. One pass, by blocks of 64; allocates nothing.
pub fn weight_sums(bytes: &[u8]) -> WeightSums
    requires small { All (λ v. v ≤ 63) bytes.now }
    requires few { length bytes.now ≤ 2 ^ 21 }
    ensures { AreSumsOf result bytes.now }
{
    let (blocks, rest) = bytes.as_chunks::<64>();
    let mut sums = RunningSums::new();
    for block in blocks {
        sums.add(u8x64::from_array(*block));
    }
    sums.total().plus(weight_sums_one_by_one(rest))
}

/// Returns the sum of 2^-v over the bytes v, in units of 2^-63.
///
/// There are at most 2^21 bytes, each at most 63. One pass; allocates nothing.
pub fn units(bytes: &[u8]) -> u128
    requires small { All (λ v. v ≤ 63) bytes.now }
    requires few { length bytes.now ≤ 2 ^ 21 }
    ensures units { result ≡ packed.units bytes.now }
    ensures bound { result ≤ 2 ^ 84 }
{
    weight_sums(bytes).units()
}

/// Returns the sums over a block. Works on the differences from its least value if they are below 16.
#[cold]
#[inline(never)]
fn block_sums_above_least(block: &[u8; 64]) -> WeightSums
    requires { All (λ v. v ≤ 63) block.now }
    ensures { AreSumsOf result block.now }
{
    let least = u8x64::from_array(*block).reduce_min().min(16);
    let above = differences(block, least);
    if are_below(&above, 16) {
        return shifted_sums(&above, least);
    }
    block_sums_by_windows(block)
}

/// Returns the sums over a block, in four windows of sixteen values.
#[inline(never)]
fn block_sums_by_windows(block: &[u8; 64]) -> WeightSums
    requires { All (λ v. v ≤ 63) block.now }
    ensures { AreSumsOf result block.now }
{
    WeightSums {
        low: half_sum(block, 0),
        high: half_sum(block, 32),
    }
}

/// Returns the sum of 2^(31 - d) over those bytes of a block that are `from + d` for a d below 32.
fn half_sum(block: &[u8; 64], from: u8) -> u64
    requires { from ≤ 32 }
    ensures { result ≡ 65536 * window_units (map (λ v. (v + (256 - from)) % 256) block.now) + window_units (map (λ v. (v + (256 - (from + 16))) % 256) block.now) }
{
    let first = indices_above(block, from);
    let second = indices_above(block, from + 16);
    (u64::from(window_sum(first)) << 16) + u64::from(window_sum(second))
}

/// Returns the difference of each byte of a block and `least`. It wraps if the byte is less.
#[inline(always)]
fn differences(block: &[u8; 64], least: u8) -> [u8; 64]
    ensures { result ≡ map (λ v. (v + (256 - least)) % 256) block.now }
{
    (u8x64::from_array(*block) - u8x64::splat(least)).to_array()
}

/// Returns the sums of 2^-(least + d) over the bytes d of a block, each at most 15.
pub(crate) fn shifted_sums(differences: &[u8; 64], least: u8) -> WeightSums
    requires small { All (λ d. d < 16) differences.now }
    requires least { least ≤ 16 }
    ensures low { result.low ≡ 2 ^ (16 - least) * window_units differences.now }
    ensures high { result.high ≡ 0 }
{
    let units = u64::from(window_sum(u8x64::from_array(*differences)));
    WeightSums {
        low: units << (16 - least),
        high: 0,
    }
}

/// Returns the difference of each byte of a block and `from` if it is 0 to 15, and a byte of at least 128 otherwise.
#[inline(always)]
fn indices_above(block: &[u8; 64], from: u8) -> u8x64
    ensures units { window_units result ≡ window_units (map (λ v. (v + (256 - from)) % 256) block.now) }
    ensures indices { All IsIndex result }
{
    let values = u8x64::from_array(differences(block, from));
    ((values + u8x64::splat(112)) | values) & u8x64::splat(143)
}

/// Returns the sum of 2^(15 - v) over the lanes v below 16. All other lanes are at least 128.
fn window_sum(values: u8x64) -> u32
    requires { All IsIndex values }
    ensures units { result ≡ window_units values }
    ensures bound { result ≤ 2 ^ 21 }
{
    let upper = byte_sums(upper_bytes(values));
    let lower = byte_sums(lower_bytes(values));
    lane_sum((upper << u32x16::splat(8)) + lower)
}

/// Returns the upper byte of 2^(15 - v) for each lane v below 16, and 0 for the other lanes, which are at least 128.
fn upper_bytes(values: u8x64) -> u8x64
    requires { All IsIndex values }
    ensures { result ≡ map (λ v. window_weight v / 256) values }
{
    u8x64::from_array(UPPER_BYTES).swizzle_dyn_within::<16>(values)
}

/// Returns the lower byte of 2^(15 - v) for each lane v below 16, and 0 for the other lanes, which are at least 128.
fn lower_bytes(values: u8x64) -> u8x64
    requires { All IsIndex values }
    ensures { result ≡ map (λ v. window_weight v % 256) values }
{
    u8x64::from_array(LOWER_BYTES).swizzle_dyn_within::<16>(values)
}

/// Returns the sum of the bytes, in sixteen parts.
fn byte_sums(bytes: u8x64) -> u32x16
    ensures sum { sum_l result ≡ sum_l bytes }
    ensures lanes { length result ≡ 16 }
{
    bytes.dot4(u8x64::splat(1))
}

/// Returns the sum of the lanes.
fn lane_sum(lanes: u32x16) -> u32
    requires { sum_l lanes < 2 ^ 32 }
    ensures { result ≡ sum_l lanes }
{
    lanes.strict_reduce_sum()
}

/// Returns the sums of 2^-v over at most 63 bytes v, one after the other.
fn weight_sums_one_by_one(bytes: &[u8]) -> WeightSums
    requires small { All (λ v. v ≤ 63) bytes.now }
    requires few { length bytes.now < 64 }
    ensures { AreSumsOf result bytes.now }
{
    let mut sums = WeightSums { low: 0, high: 0 };
    for value in bytes {
        sums = sums.plus(value_sums(*value));
    }
    sums
}

/// Returns 2^-v for one value v.
fn value_sums(value: u8) -> WeightSums
    requires { value ≤ 63 }
    ensures { AreSumsOf result (value ∷ []) }
{
    if value < 32 {
        WeightSums {
            low: 1 << (31 - value),
            high: 0,
        }
    } else {
        WeightSums {
            low: 0,
            high: 1 << (63 - value),
        }
    }
}
