// SPDX-License-Identifier: Apache-2.0
//! The state of MurmurHash3 x64 128 and its mixing steps (docs/FORMAT.md, "The hash").
ghost use Rattle.std.specs.Prelude.{◌≡◌, ℕ, take, drop, ◌++◌, ◌-◌, ◌<◌, ◌≤◌, ◌^◌, List, length, replicate, fold};
ghost use Rattle.std.specs.Int.{w32, w64, from_le_bytes};
ghost use Rattle.hll_base.specs.Hash as spec;
ghost use Rattle.hll_base.specs.Hash.{rotation, mix_of, first_scramble, second_scramble, first_word, second_word, after_block, after_rest, final_halves};

use std::marker::Model;

/// The reference's c1: multiplies the first half of a block before the rotation, and the second half after it.
const FIRST_FACTOR: u64 = 0x87c3_7b91_1142_53d5;

/// The reference's c2: multiplies the second half of a block before the rotation, and the first half after it.
const SECOND_FACTOR: u64 = 0x4cf5_ad43_2745_937f;

/// The two 64-bit halves of the hash state.
#[derive(Clone, Copy, Debug)]
pub(crate) struct Halves {
    first: u64,
    second: u64,
}

impl Model for Halves {
    ghost use Rattle.hll_base.specs.Hash as spec;

    ghost Value = { spec.Halves };

    ghost view = { λ h. record { first = h.first; second = h.second } };

    ghost inverse = { λ h. record { first = h.first; second = h.second } };
}

/// Returns a half after the final mix.
fn mix(word: u64) -> u64
    ensures { result ≡ mix_of word }
{
    let word = (word ^ word >> 33).wrapping_mul(0xff51_afd7_ed55_8ccd);
    let word = (word ^ word >> 33).wrapping_mul(0xc4ce_b9fe_1a85_ec53);
    word ^ word >> 33
}

/// Returns a 64-bit number rotated left by `COUNT` bits. This is a function of its own so that the compiler rotates the
/// product instead of multiplying twice.
fn turn<const COUNT: u32>(word: u64) -> u64
    ensures { result ≡ rotation word COUNT }
{
    word.rotate_left(COUNT)
}

/// Scrambles the first half of a block for the first half of the state.
fn scramble_first(word: u64) -> u64
    ensures { result ≡ first_scramble word }
{
    turn::<31>(word.wrapping_mul(FIRST_FACTOR)).wrapping_mul(SECOND_FACTOR)
}

/// Scrambles the second half of a block for the second half of the state.
fn scramble_second(word: u64) -> u64
    ensures { result ≡ second_scramble word }
{
    turn::<33>(word.wrapping_mul(SECOND_FACTOR)).wrapping_mul(FIRST_FACTOR)
}

/// Returns the two little-endian 64-bit halves of a block.
fn words(block: &[u8; 16]) -> (u64, u64)
    ensures first { result.0 ≡ first_word block.now }
    ensures second { result.1 ≡ second_word block.now }
{
    let [a, b, c, d, e, f, g, h, i, j, k, l, m, n, o, p] = *block;
    (
        u64::from_le_bytes([a, b, c, d, e, f, g, h]),
        u64::from_le_bytes([i, j, k, l, m, n, o, p]),
    )
}

/// Returns the little-endian number that up to three bytes hold.
fn few_bytes(bytes: &[u8]) -> u64
    requires { length bytes.now ≤ 3 }
    ensures number { result ≡ from_le_bytes w64 bytes.now }
    ensures small { result < 2 ^ 24 }
{
    match *bytes {
        [] => 0,
        [a] => u64::from(a),
        [a, b] => u64::from(a) + u64::from(b) * (1 << 8),
        [a, b, c, ..] => u64::from(a) + u64::from(b) * (1 << 8) + u64::from(c) * (1 << 16),
    }
}

/// Returns the little-endian number that up to seven bytes hold.
// (from four bytes on by two numbers that overlap, so that there is no branch for each length)
fn some_bytes(bytes: &[u8]) -> u64
    requires { length bytes.now ≤ 7 }
    ensures { result ≡ from_le_bytes w64 bytes.now }
{
    if bytes.len() < 4 {
        return few_bytes(bytes);
    }
    first_four(bytes) + (last_four(bytes) >> (8 * (8 - bytes.len()))) * (1 << 32)
}

/// Returns the little-endian number that the first four bytes hold.
fn first_four(bytes: &[u8]) -> u64
    requires { 4 ≤ length bytes.now }
    ensures number { result ≡ from_le_bytes w32 (take 4 bytes.now) }
    ensures small { result < 2 ^ 32 }
{
    match bytes.first_chunk::<4>() {
        Some(four) => u64::from(u32::from_le_bytes(*four)),
        None => 0,
    }
}

/// Returns the little-endian number that the last four bytes hold.
fn last_four(bytes: &[u8]) -> u64
    requires { 4 ≤ length bytes.now }
    ensures number { result ≡ from_le_bytes w32 (drop (length bytes.now - 4) bytes.now) }
    ensures small { result < 2 ^ 32 }
{
    match bytes.last_chunk::<4>() {
        Some(four) => u64::from(u32::from_le_bytes(*four)),
        None => 0,
    }
}

/// Returns the little-endian number that the last eight bytes hold.
fn last_eight(bytes: &[u8]) -> u64
    requires { 8 ≤ length bytes.now }
    ensures { result ≡ from_le_bytes w64 (drop (length bytes.now - 8) bytes.now) }
{
    match bytes.last_chunk::<8>() {
        Some(eight) => u64::from_le_bytes(*eight),
        None => 0,
    }
}

/// Returns the little-endian number that up to eight bytes hold.
fn word(bytes: &[u8]) -> u64
    requires { length bytes.now ≤ 8 }
    ensures { result ≡ from_le_bytes w64 bytes.now }
{
    match bytes.first_chunk::<8>() {
        Some(all) => u64::from_le_bytes(*all),
        None => some_bytes(bytes),
    }
}

/// Returns the little-endian number that the bytes after the first eight hold, of 9 to 15 bytes.
fn end_of_tail(rest: &[u8]) -> u64
    requires more { 8 < length rest.now }
    requires few { length rest.now < 16 }
    ensures { result ≡ second_word rest.now }
{
    last_eight(rest) >> (8 * (16 - rest.len()))
}

impl Halves {
    /// Returns the state before any block.
    pub(crate) fn at_seed(seed: u64) -> Halves
        ensures { result ≡ record { first = seed; second = seed } }
    {
        Halves {
            first: seed,
            second: seed,
        }
    }

    /// Absorbs a full block.
    pub(crate) fn absorb(&mut self, block: &[u8; 16])
        ensures { self.new ≡ after_block self.old block.now }
    {
        let (first, second) = words(block);
        self.first ^= scramble_first(first);
        self.first = self.first.rotate_left(27).wrapping_add(self.second);
        self.first = self.first.wrapping_mul(5).wrapping_add(0x52dc_e729);
        self.second ^= scramble_second(second);
        self.second = self.second.rotate_left(31).wrapping_add(self.first);
        self.second = self.second.wrapping_mul(5).wrapping_add(0x3849_5ab5);
    }

    /// Absorbs full blocks, in order.
    pub(crate) fn absorb_each(&mut self, blocks: &[[u8; 16]])
        ensures { self.new ≡ fold after_block self.old blocks.now }
    {
        for block in blocks {
            self.absorb(block);
        }
    }

    /// Absorbs the last `count` bytes: the first `count` bytes of a block padded with zeros.
    pub(crate) fn absorb_rest(&mut self, block: &[u8; 16], count: usize)
        ensures { (rest : List ℕ) → length rest ≡ count → block.now ≡ rest ++ replicate (16 - count) 0 → self.new ≡ after_rest self.old rest }
    {
        if count == 0 {
            return;
        }
        let (low, high) = words(block);
        self.first ^= scramble_first(low);
        if count > 8 {
            self.second ^= scramble_second(high);
        }
    }

    /// Absorbs the last bytes, at most 15.
    pub(crate) fn absorb_tail(&mut self, rest: &[u8])
        requires { length rest.now < 16 }
        ensures { self.new ≡ after_rest self.old rest.now }
    {
        if rest.is_empty() {
            return;
        }
        if rest.len() <= 8 {
            self.first ^= scramble_first(word(rest));
            return;
        }
        self.first ^= scramble_first(word(&rest[..8]));
        self.second ^= scramble_second(end_of_tail(rest));
    }

    /// Absorbs the last eight bytes, with the same result as `absorb_tail`.
    pub(crate) fn absorb_eight(&mut self, rest: &[u8; 8])
        ensures { self.new ≡ after_rest self.old rest.now }
    {
        self.first ^= scramble_first(u64::from_le_bytes(*rest));
    }

    /// Adds the second half to the first, and then the new first half to the second.
    fn sum(&mut self)
        ensures { self.new ≡ spec.cross_sum self.old.first self.old.second }
    {
        self.first = self.first.wrapping_add(self.second);
        self.second = self.second.wrapping_add(self.first);
    }

    /// Returns the hash, given the total number of bytes.
    pub(crate) fn end(mut self, count: u64) -> (u64, u64)
        ensures first { result.0 ≡ (final_halves count self).first }
        ensures second { result.1 ≡ (final_halves count self).second }
    {
        self.first ^= count;
        self.second ^= count;
        self.sum();
        self.first = mix(self.first);
        self.second = mix(self.second);
        self.sum();
        (self.first, self.second)
    }
}
