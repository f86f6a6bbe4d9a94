// SPDX-License-Identifier: Apache-2.0
//! Bits in blocks of 64.
ghost use Rattle.std.specs.Prelude.{◌≡◌, ◌≢◌, ◌↔◌, ℕ, ◌*◌, ◌^◌, ◌<◌, ◌≤◌, length, IsTrue, IfSome, IfNone};
ghost use Rattle.std.specs.Int.{bit_at};
ghost use Rattle.hll_coupons.specs.Blocks.{bit_of, IsNext, NoneFrom, IsSummary};

/// Returns a block with this bit set.
fn with(block: u64, bit: usize) -> u64
    requires { bit < 64 }
    ensures same { bit_at result bit ≡ 1 }
    ensures others { (j : ℕ) → j ≢ bit → bit_at result j ≡ bit_at block j }
{
    block | (1 << bit)
}

/// Returns a block without this bit.
fn without(block: u64, bit: usize) -> u64
    requires { bit < 64 }
    ensures same { bit_at result bit ≡ 0 }
    ensures others { (j : ℕ) → j < 64 → j ≢ bit → bit_at result j ≡ bit_at block j }
    ensures less { result ≤ block }
{
    block & !(1 << bit)
}

/// Returns the bits of a block from `bit` on; the lower ones are cleared.
fn from_bit(block: u64, bit: usize) -> u64
    requires { bit < 64 }
    ensures low { (j : ℕ) → j < bit → bit_at result j ≡ 0 }
    ensures high { (j : ℕ) → bit ≤ j → j < 64 → bit_at result j ≡ bit_at block j }
{
    block & (u64::MAX << bit)
}

/// Returns the index of the lowest bit that is set.
fn lowest(block: u64) -> usize
    requires { 0 < block }
    ensures within { result < 64 }
    ensures set { bit_at block result ≡ 1 }
    ensures before { (j : ℕ) → j < result → bit_at block j ≡ 0 }
{
    block.trailing_zeros() as usize
}

/// Returns whether a bit is set.
pub(crate) fn is_set(blocks: &[u64], bit: usize) -> bool
    requires { bit < 64 * length blocks.now }
    ensures { IsTrue result ↔ (bit_of blocks.now bit ≡ 1) }
{
    blocks[bit / 64] >> (bit % 64) & 1 == 1
}

/// Sets a bit.
pub(crate) fn set(blocks: &mut [u64], bit: usize)
    requires { bit < 64 * length blocks.old }
    ensures same { bit_of blocks.new bit ≡ 1 }
    ensures others { (j : ℕ) → j ≢ bit → bit_of blocks.new j ≡ bit_of blocks.old j }
{
    blocks[bit / 64] = with(blocks[bit / 64], bit % 64);
}

/// Clears a bit.
pub(crate) fn clear(blocks: &mut [u64], bit: usize)
    requires { bit < 64 * length blocks.old }
    ensures same { bit_of blocks.new bit ≡ 0 }
    ensures others { (j : ℕ) → j ≢ bit → bit_of blocks.new j ≡ bit_of blocks.old j }
{
    blocks[bit / 64] = without(blocks[bit / 64], bit % 64);
}

/// Clears a bit. If its block then has no bit set, clears the block's bit in the summary, too.
pub(crate) fn take(blocks: &mut [u64], summary: &mut [u64], bit: usize)
    requires summary { IsSummary blocks.old summary.old }
    requires within { bit < 64 * length blocks.old }
    ensures summary { IsSummary blocks.new summary.new }
    ensures same { bit_of blocks.new bit ≡ 0 }
    ensures others { (j : ℕ) → j ≢ bit → bit_of blocks.new j ≡ bit_of blocks.old j }
{
    let block = without(blocks[bit / 64], bit % 64);
    blocks[bit / 64] = block;
    if block == 0 {
        clear(summary, bit / 64);
    }
}

/// Returns the index of the first bit that is set, starting at `from`.
pub(crate) fn next(blocks: &[u64], from: usize) -> Option<usize>
    requires small { 64 * length blocks.now < 2 ^ 32 }
    requires within { from ≤ 64 * length blocks.now }
    ensures found { IfSome result (IsNext blocks.now from) }
    ensures none { IfNone result (NoneFrom blocks.now from) }
{
    let start = from / 64;
    if start == blocks.len() {
        return None;
    }
    let rest = from_bit(blocks[start], from % 64);
    if rest != 0 {
        return Some(64 * start + lowest(rest));
    }
    for i in start + 1..blocks.len() {
        let block = blocks[i];
        if block != 0 {
            return Some(64 * i + lowest(block));
        }
    }
    None
}

/// Returns the index of the first bit that is set, starting at `from`. With the summary it skips 64 blocks without set
/// bits at a time.
pub(crate) fn next_by_summary(blocks: &[u64], summary: &[u64], from: usize) -> Option<usize>
    requires small { 64 * length summary.now < 2 ^ 26 }
    requires summary { IsSummary blocks.now summary.now }
    requires within { from ≤ 64 * length blocks.now }
    ensures found { IfSome result (IsNext blocks.now from) }
    ensures none { IfNone result (NoneFrom blocks.now from) }
{
    let start = from / 64;
    if start == blocks.len() {
        return None;
    }
    let rest = from_bit(blocks[start], from % 64);
    if rest != 0 {
        return Some(64 * start + lowest(rest));
    }
    let i = next(summary, start + 1)?;
    Some(64 * i + lowest(blocks[i]))
}
