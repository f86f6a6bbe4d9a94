// SPDX-License-Identifier: Apache-2.0
//! MurmurHash3 x64 128 (docs/FORMAT.md, "The hash").
ghost use Rattle.std.specs.Prelude.{◌≡◌, ◌+◌, ◌%◌, ◌^◌, ◌≤◌, ◌<◌, ◌++◌, [], length, take, drop};
ghost use Rattle.hll_base.specs.Hash.{initial_state, after_bytes, after_piece, hash, hash_of, default_seed};

use crate::halves::Halves;
use std::hash::Hasher;
use std::marker::Model;

/// The default seed.
pub const DEFAULT_SEED: u64 = 9001;

/// The number of bytes in a block.
const BLOCK: usize = 16;

/// A streaming MurmurHash3 x64 128. The hash depends on the bytes written, not on how they are divided between calls.
/// Contracts see both halves, the bytes of the partial block, and the number of bytes modulo 2^64.
///
/// No call allocates.
#[derive(Debug, Drop)]
pub struct MurmurHash3X64128 {
    halves: Halves,
    /// The partial block, padded with zeros.
    block: [u8; 16],
    /// The number of bytes in the partial block, less than 16.
    partial: usize,
    /// The number of bytes written, modulo 2^64.
    count: u64,
}

impl Model for MurmurHash3X64128 {
    ghost use Rattle.std.specs.Prelude.{◌≡◌, ◌<◌, ◌-◌, take, drop, replicate};
    ghost use Rattle.hll_base.specs.Hash.{HashState};

    ghost Value = { HashState };

    ghost view = { λ h. record { halves = h.halves; partial = take h.partial h.block; count = h.count } };

    ghost invariant = { λ h. (h.partial < 16) × (drop h.partial h.block ≡ replicate (16 - h.partial) 0) };
}

impl Default for MurmurHash3X64128 {
    /// Returns the hash of no bytes, with seed 9001.
    fn default() -> Self
        ensures { result ≡ initial_state default_seed }
    {
        Self::with_seed(DEFAULT_SEED)
    }
}

/// Copies `others` into a block after its first `count` bytes.
fn extend(block: &mut [u8; 16], count: usize, others: &[u8])
    requires { count + length others.now ≤ 16 }
    ensures { block.new ≡ take count block.old ++ others.now ++ drop (count + length others.now) block.old }
{
    block[count..count + others.len()].copy_from_slice(others);
}

impl MurmurHash3X64128 {
    /// Returns the hash of no bytes, with this seed.
    pub fn with_seed(seed: u64) -> Self
        ensures { result ≡ initial_state seed }
    {
        MurmurHash3X64128 {
            halves: Halves::at_seed(seed),
            block: [0; 16],
            partial: 0,
            count: 0,
        }
    }

    /// Appends bytes to the hashed input.
    pub fn write(&mut self, bytes: &[u8])
        ensures { self.new ≡ after_piece self.old bytes.now }
    {
        self.count = self.count.wrapping_add(bytes.len() as u64);
        let rest = self.fill(bytes);
        if self.partial == 0 {
            let (blocks, rest) = rest.as_chunks::<BLOCK>();
            self.halves.absorb_each(blocks);
            self.begin(rest);
        }
    }

    /// Completes the partial block, if there is one, and returns the bytes that are left. If the block is still
    /// partial, none are left.
    fn fill<'a>(&mut self, bytes: &'a [u8]) -> &'a [u8]
        ensures same { after_bytes self.new.halves (self.new.partial ++ result.now) self.old.count ≡ after_bytes self.old.halves (self.old.partial ++ bytes.now) self.old.count }
        ensures after { 0 < length self.new.partial → result.now ≡ [] }
        ensures count { self.new.count ≡ self.old.count }
    {
        if self.partial == 0 {
            return bytes;
        }
        let (front, rest) = bytes.split_at((BLOCK - self.partial).min(bytes.len()));
        let end = self.partial + front.len();
        extend(&mut self.block, self.partial, front);
        if end == BLOCK {
            self.halves.absorb(&self.block);
            self.block = [0; BLOCK];
            self.partial = 0;
        } else {
            self.partial = end;
        }
        rest
    }

    /// Starts a partial block with at most 15 bytes.
    fn begin(&mut self, bytes: &[u8])
        requires none { self.old.partial ≡ [] }
        requires few { length bytes.now < 16 }
        ensures { self.new ≡ record self.old { partial = bytes.now } }
    {
        extend(&mut self.block, 0, bytes);
        self.partial = bytes.len();
    }

    /// Returns the 128-bit hash of the bytes written, as two 64-bit halves.
    pub fn finish128(&self) -> (u64, u64)
        ensures first { result.0 ≡ (hash_of self.now).first }
        ensures second { result.1 ≡ (hash_of self.now).second }
    {
        let mut halves = self.halves;
        halves.absorb_rest(&self.block, self.partial);
        halves.end(self.count)
    }
}

/// Returns the number of bytes, modulo 2^64.
fn count_of(bytes: &[u8]) -> u64
    ensures { result ≡ length bytes.now % 2 ^ 64 }
{
    bytes.len() as u64
}

/// Returns the 128-bit hash of `bytes` with a seed, as two 64-bit halves.
pub fn hash_of_bytes(seed: u64, bytes: &[u8]) -> (u64, u64)
    ensures first { result.0 ≡ (hash seed bytes.now).first }
    ensures second { result.1 ≡ (hash seed bytes.now).second }
{
    let mut halves = Halves::at_seed(seed);
    let (blocks, rest) = bytes.as_chunks::<BLOCK>();
    halves.absorb_each(blocks);
    halves.absorb_tail(rest);
    halves.end(count_of(bytes))
}

/// Returns the 128-bit hash of eight bytes with a seed, as two 64-bit halves. Same result as `hash_of_bytes`.
// (inlined into the loops of callers)
#[inline(always)]
pub fn hash_of_eight_bytes(seed: u64, bytes: &[u8; 8]) -> (u64, u64)
    ensures first { result.0 ≡ (hash seed bytes.now).first }
    ensures second { result.1 ≡ (hash seed bytes.now).second }
{
    let mut halves = Halves::at_seed(seed);
    halves.absorb_eight(bytes);
    halves.end(8)
}

impl Hasher for MurmurHash3X64128 {
    ghost write = { after_piece };

    ghost finish = { λ s. (hash_of s).first };

    /// Returns the first half of the 128-bit hash.
    fn finish(&self) -> u64 {
        self.finish128().0
    }

    fn write(&mut self, bytes: &[u8]) {
        self.write(bytes);
    }
}
