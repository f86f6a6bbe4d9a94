// SPDX-License-Identifier: Apache-2.0
//! Finds a byte in a text.
ghost use Rattle.std.specs.Prelude.{◌≡◌, ◌+◌, ◌≤◌, ◌==◌, length, map, position, MatchOption};
ghost use Rattle.std.specs.Simd.Lanes.{chunk, mask_l};

use std::simd::prelude::*;

/// The number of bytes that are examined at a time.
const LANES: usize = 64;

/// Returns the index of the first byte with this value. Examines a block of bytes at a time, and the bytes after the last whole
/// block one by one.
pub(crate) fn first_of(byte: u8, text: &[u8]) -> Option<usize>
    ensures { result ≡ position (λ b. b == byte) text.now }
{
    for block in 0..text.len() / LANES {
        let marks = marks_at(byte, text, LANES * block);
        if marks != 0 {
            return Some(LANES * block + marks.trailing_zeros() as usize);
        }
    }
    let start = text.len() / LANES * LANES;
    match first_one_by_one(byte, &text[start..]) {
        None => None,
        Some(at) => Some(start + at),
    }
}

/// Returns the index of the first byte with this value, examining bytes one by one.
pub(crate) fn first_one_by_one(byte: u8, text: &[u8]) -> Option<usize>
    ensures { result ≡ position (λ b. b == byte) text.now }
{
    text.iter().position(|b| *b == byte)
}

/// Returns a bit for each byte of the block from `at` on, set if the byte has this value.
fn marks_at(byte: u8, text: &[u8], at: usize) -> u64
    requires { at + 64 ≤ length text.now }
    ensures { result ≡ mask_l (map (λ b. b == byte) (chunk at 64 text.now)) }
{
    u8x64::from_slice(&text[at..])
        .simd_eq(u8x64::splat(byte))
        .to_bitmask()
}
