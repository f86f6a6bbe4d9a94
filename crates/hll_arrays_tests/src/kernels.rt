// SPDX-License-Identifier: Apache-2.0
//! The loops over bytes, at values worked out by hand, and compared with plain loops for every length up to 130.
ghost use Rattle.std.specs.Prelude.{◌≡◌, ◌↔◌, ◌^◌, ◌<◌, ◌≤◌, length, All, IsTrue};
ghost use Rattle.hll_kernels.specs.Packed.{zero_nibbles};

use hll_arrays::kernels::{count_zeros, lower_nibbles, max_into, pack_group, units, unpack_group};
use hll_kernels::kernels::all_zero;

/// The offsets of slices in an array of 160 bytes, and the length of the longest slice.
const OFFSETS: [usize; 4] = [0, 1, 7, 30];

const LONGEST: usize = 130;

/// Returns the multiples of a step modulo a number of at most 64.
fn multiples(step: usize, modulus: usize) -> [u8; 160]
    requires step { step ≤ 64 }
    requires modulus { (0 < modulus) × (modulus ≤ 64) }
{
    let mut bytes = [0; 160];
    for index in 0..160 {
        bytes[index] = (index * step % modulus) as u8;
    }
    bytes
}

/// Returns bytes whose nibbles are 1 to 15.
fn pairs() -> [u8; 160] {
    let mut bytes = [0; 160];
    for index in 0..160 {
        bytes[index] = (17 + index * 7 % 15 + 16 * (index * 4 % 15)) as u8;
    }
    bytes
}

/// Groups of three bytes with their registers: all 0, each register alone at 1, and all 63.
const GROUPS: [([u8; 3], [u8; 4]); 6] = [
    ([0, 0, 0], [0, 0, 0, 0]),
    ([1, 0, 0], [1, 0, 0, 0]),
    ([0x40, 0, 0], [0, 1, 0, 0]),
    ([0, 0x10, 0], [0, 0, 1, 0]),
    ([0, 0, 4], [0, 0, 0, 1]),
    ([255, 255, 255], [63, 63, 63, 63]),
];

#[test]
fn groups(rt: HostRuntime) {
    for (group, registers) in GROUPS {
        let fields = unpack_group(group);
        assert_eq!(rt; fields, registers);
        assert_eq!(rt; pack_group(fields), group);
    }
}

/// Four registers as a group, the number of them that are 0, and the sum of their weights.
#[test]
fn sums(rt: HostRuntime) {
    for (group, zeros, sum) in [
        ([0u8, 0, 0], 4usize, 4u128 << 63),
        ([1, 0, 0], 3, (3 << 63) + (1 << 62)),
        ([0, 0, 4], 3, (3 << 63) + (1 << 62)),
        ([255, 255, 255], 0, 4),
        ([0xc0, 0xaf, 0xce], 1, (1 << 63) + 1 + (1 << 21) + (1 << 12)),
    ] {
        let registers = unpack_group(group);
        assert_eq!(rt; count_zeros(&registers), zeros);
        assert_eq!(rt; units(&registers), sum);
        assert_eq!(rt; all_zero(&registers), zeros == 4);
        assert_eq!(rt; all_zero(&group), zeros == 4);
    }
    assert_eq!(rt; units(&[]), 0);
    assert!(rt; all_zero(&[]));
}

/// The maximum of the bytes at each index.
#[test]
fn maxima(rt: HostRuntime) {
    let mut dst = [1u8, 5, 3, 0];
    max_into(&mut dst, &[4, 2, 3, 0]);
    assert_eq!(rt; dst, [4, 5, 3, 0]);
    max_into(&mut [], &[]);
}

fn zeros_among(bytes: &[u8]) -> usize {
    let mut count = 0usize;
    for byte in bytes {
        if *byte == 0 {
            count = count.wrapping_add(1);
        }
    }
    count
}

fn weights_of(bytes: &[u8]) -> u128 {
    let mut sum = 0u128;
    for byte in bytes {
        sum = sum.wrapping_add(1 << (63 - (*byte).min(63)));
    }
    sum
}

fn are_small(bytes: &[u8]) -> bool
    ensures { IsTrue result ↔ All (λ v. v ≤ 63) bytes.now }
{
    bytes.iter().all(|value| *value <= 63)
}

/// Returns whether the calls that read return what plain loops return.
fn reads_agree(bytes: &[u8]) -> bool
    requires { length bytes.now ≤ 2 ^ 21 }
{
    let zeros = zeros_among(bytes);
    are_small(bytes)
        && units(bytes) == weights_of(bytes)
        && count_zeros(bytes) == zeros
        && all_zero(bytes) == (zeros == bytes.len())
}

#[test]
fn reads_of_every_length(rt: HostRuntime) {
    let values = multiples(37, 64);
    let others = multiples(23, 3);
    let zeros = [0u8; 160];
    for from in OFFSETS {
        for length in 0..LONGEST + 1 {
            let to = from + length;
            assert!(rt; reads_agree(&values[from..to]));
            assert!(rt; reads_agree(&others[from..to]));
            assert!(rt; reads_agree(&zeros[from..to]));
        }
    }
}

/// Returns the number of nibbles that are 0.
fn zeros_of(bytes: &[u8]) -> usize
    requires { length bytes.now ≤ 2 ^ 20 }
    ensures { result ≡ zero_nibbles bytes.now }
{
    let low = bytes.iter().filter(|byte| **byte % 16 == 0).count();
    let high = bytes.iter().filter(|byte| **byte / 16 == 0).count();
    low + high
}

/// Lowers nibbles if none is 0.
fn lowered(bytes: &mut [u8]) -> Option<u32>
    requires { length bytes.old ≤ 2 ^ 20 }
{
    if zeros_of(bytes) == 0 {
        Some(lower_nibbles(bytes))
    } else {
        None
    }
}

fn lowered_byte(byte: u8) -> u8 {
    let low = if byte % 16 == 15 {
        15
    } else {
        (byte % 16).saturating_sub(1)
    };
    let high = if byte / 16 == 15 {
        15
    } else {
        (byte / 16).saturating_sub(1)
    };
    low + 16 * high
}

/// Only the bytes of the slice change.
#[test]
fn writes_of_every_length(rt: HostRuntime) {
    let values = multiples(37, 64);
    let others = multiples(23, 3);
    let pairs = pairs();
    for from in OFFSETS {
        for length in 0..LONGEST + 1 {
            let to = from + length;
            let mut raised = values;
            max_into(&mut raised[from..to], &others[from..to]);
            let mut nibbles = pairs;
            let count = lowered(&mut nibbles[from..to]);
            assert_eq!(rt; count, Some(zeros_of(&nibbles[from..to]) as u32));
            for index in 0..160 {
                let inside = from <= index && index < to;
                let most = values[index].max(others[index]);
                assert_eq!(rt; raised[index], if inside { most } else { values[index] });
                let less = lowered_byte(pairs[index]);
                assert_eq!(rt; nibbles[index], if inside { less } else { pairs[index] });
            }
        }
    }
}

/// Nibbles, what they become, and how many are 0 then.
#[test]
fn lowered_nibbles(rt: HostRuntime) {
    for (mut bytes, after, zeros) in [
        ([0x11u8, 0x11], [0u8, 0], 4u32),
        ([0xff, 0xff], [0xff, 0xff], 0),
        ([0xe2, 0x2e], [0xd1, 0x1d], 0),
    ] {
        assert_eq!(rt; lowered(&mut bytes), Some(zeros));
        assert_eq!(rt; bytes, after);
    }
    assert_eq!(rt; lowered(&mut []), Some(0));
    assert_eq!(rt; lowered(&mut [0x10]), None);
}
