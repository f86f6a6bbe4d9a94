// SPDX-License-Identifier: Apache-2.0
//! An image of registers in parts: its first 40 bytes, and registers and exceptions that are borrowed from another image. So
//! these are copied once, to where the image is wanted.
ghost use Rattle.std.specs.Prelude.{◌≡◌, ◌+◌, ◌*◌, ◌/◌, ◌<◌, ◌≤◌, ◌^◌, ◌∷◌, ◌++◌, length, take, drop, slice_set};
ghost use Rattle.std.specs.List.{flat_map};
ghost use Rattle.std.specs.Simd.Lanes.{put_chunk};
ghost use Rattle.hll_kernels.specs.Groups.{registers_in, AreGroups};
ghost use Rattle.hll_kernels.specs.Packed.{zeros};
ghost use Rattle.hll_base.specs.declared.hll_type.HllType.TheVariants.{Hll4};
ghost use Rattle.hll_coupons.specs.Coupons.{mode_byte};
ghost use Rattle.hll_registers.specs.Payload.{flag_of, hll6_bytes, hll8_bytes, nibble_image, number_bytes};

use crate::estimate_state::EstimateState;
use crate::preamble::{HllHeader, Preamble};
use hll_base::hll_type::HllType;
use hll_coupons::serialization::{COMPACT_FLAG_MASK, COUPON_SIZE_BYTES};
use hll_kernels::groups::{pack_group, unpack_group};
use std::marker::Model;

/// The bytes of an image of registers, one part after the other. Contracts see the list of all of them.
#[derive(Debug, Drop)]
pub struct ImageParts<'a> {
    /// The header and the preamble.
    start: [[u8; 8]; 5],
    /// The packed registers.
    registers: &'a [u8],
    /// What is changed in them.
    change: Change,
    /// What follows them: the exceptions of 4-bit registers, or the zero byte after 6-bit registers.
    end: &'a [u8],
}

/// The bytes that take the place of as many packed registers from index `at` on: none, one byte for an 8-bit register or two
/// 4-bit registers, or the three bytes of a group of 6-bit registers.
#[derive(Clone, Copy, Debug)]
struct Change {
    at: usize,
    bytes: [u8; 3],
    count: usize,
}

impl Change {
    /// No change.
    const NONE: Change = Change {
        at: 0,
        bytes: [0; 3],
        count: 0,
    };
}

impl<'a> Model for ImageParts<'a> {
    ghost use Rattle.std.specs.Prelude.{ℕ, List, ◌≡◌, ◌≤◌, ◌^◌, ◌++◌, ◌+◌, length, take};
    ghost use Rattle.std.specs.List.{flat_map};
    ghost use Rattle.std.specs.Simd.Lanes.{put_chunk};

    ghost Value = { List ℕ };

    ghost view = { λ p. flat_map (λ b. b) p.start ++ (put_chunk p.change.at p.registers.now (take p.change.count p.change.bytes) ++ p.end.now) };

    ghost invariant = { λ p. (length (flat_map (λ b. b) p.start) ≡ 40) × (length p.registers.now ≤ 2 ^ 21) × (p.change.count ≤ 3) × (p.change.at + p.change.count ≤ length p.registers.now) × (length p.change.bytes ≡ 3) × (length p.end.now ≤ 2 ^ 23) };
}

impl<'a> ImageParts<'a> {
    /// Returns the image of 8-bit registers, given their state and the number of registers that are 0.
    pub fn of_bytes(
        lg_k: u8,
        registers: &'a [u8],
        zero_count: u32,
        state: EstimateState,
    ) -> ImageParts<'a>
        requires zeros { zero_count ≡ zeros registers.now }
        requires few { length registers.now ≤ 2 ^ 21 }
        ensures { result ≡ hll8_bytes lg_k registers.now state }
    {
        ImageParts {
            start: plain_start(lg_k, HllType::Hll8, zero_count, state),
            registers,
            change: Change::NONE,
            end: &[],
        }
    }

    /// Returns the image of 6-bit registers, given their state and the number of registers that are 0.
    pub fn of_groups(
        lg_k: u8,
        groups: &'a [[u8; 3]],
        zero_count: u32,
        state: EstimateState,
    ) -> ImageParts<'a>
        requires groups { AreGroups lg_k groups.now }
        requires few { length groups.now ≤ 2 ^ 19 }
        requires zeros { zero_count ≡ zeros (registers_in groups.now) }
        ensures { result ≡ hll6_bytes lg_k (registers_in groups.now) state }
    {
        ImageParts {
            start: plain_start(lg_k, HllType::Hll6, zero_count, state),
            registers: groups.as_flattened(),
            change: Change::NONE,
            end: &[0],
        }
    }

    /// Returns the image of 8-bit registers of which one is replaced, given their state and the number of registers that are 0
    /// then.
    pub fn replacing_byte(
        lg_k: u8,
        registers: &'a [u8],
        slot: usize,
        value: u8,
        zero_count: u32,
        state: EstimateState,
    ) -> ImageParts<'a>
        requires slot { slot < length registers.now }
        requires zeros { zero_count ≡ zeros (slice_set registers.now slot value) }
        requires few { length registers.now ≤ 2 ^ 21 }
        ensures { result ≡ hll8_bytes lg_k (slice_set registers.now slot value) state }
    {
        ImageParts {
            start: plain_start(lg_k, HllType::Hll8, zero_count, state),
            registers,
            change: Change {
                at: slot,
                bytes: [value, 0, 0],
                count: 1,
            },
            end: &[],
        }
    }

    /// Returns the image of 6-bit registers of which one is replaced, given their state and the number of registers that are 0
    /// then.
    pub fn replacing_field(
        lg_k: u8,
        groups: &'a [[u8; 3]],
        slot: usize,
        value: u8,
        zero_count: u32,
        state: EstimateState,
    ) -> ImageParts<'a>
        requires groups { AreGroups lg_k groups.now }
        requires few { length groups.now ≤ 2 ^ 19 }
        requires slot { slot < 4 * length groups.now }
        requires value { value ≤ 63 }
        requires zeros { zero_count ≡ zeros (slice_set (registers_in groups.now) slot value) }
        ensures { result ≡ hll6_bytes lg_k (slice_set (registers_in groups.now) slot value) state }
    {
        let mut registers = unpack_group(groups[slot / 4]);
        registers[slot % 4] = value;
        ImageParts {
            start: plain_start(lg_k, HllType::Hll6, zero_count, state),
            registers: groups.as_flattened(),
            change: Change {
                at: slot / 4 * 3,
                bytes: pack_group(registers),
                count: 3,
            },
            end: &[0],
        }
    }

    /// Returns the image of 4-bit registers: nibbles above a minimum, of which `low_count` are 0, and exceptions of four bytes
    /// each. Its state is given.
    pub fn of_nibbles(
        lg_k: u8,
        minimum: u8,
        low_count: u32,
        nibbles: &'a [u8],
        exceptions: &'a [u8],
        state: EstimateState,
    ) -> ImageParts<'a>
        requires few { length nibbles.now ≤ 2 ^ 21 }
        requires exceptions { length exceptions.now ≤ 2 ^ 23 }
        ensures { result ≡ nibble_image lg_k minimum low_count nibbles.now exceptions.now state }
    {
        ImageParts {
            start: nibble_start(lg_k, minimum, low_count, exceptions, state),
            registers: nibbles,
            change: Change::NONE,
            end: exceptions,
        }
    }

    /// Returns the image of 4-bit registers of which the nibbles in one byte are replaced. Then `low_count` of all nibbles are 0.
    pub fn replacing_nibbles(
        lg_k: u8,
        minimum: u8,
        low_count: u32,
        nibbles: &'a [u8],
        replaced: (usize, u8),
        exceptions: &'a [u8],
        state: EstimateState,
    ) -> ImageParts<'a>
        requires few { length nibbles.now ≤ 2 ^ 21 }
        requires within { replaced.0 < length nibbles.now }
        requires exceptions { length exceptions.now ≤ 2 ^ 23 }
        ensures { result ≡ nibble_image lg_k minimum low_count (slice_set nibbles.now replaced.0 replaced.1) exceptions.now state }
    {
        let (at, byte) = replaced;
        ImageParts {
            start: nibble_start(lg_k, minimum, low_count, exceptions, state),
            registers: nibbles,
            change: Change {
                at,
                bytes: [byte, 0, 0],
                count: 1,
            },
            end: exceptions,
        }
    }

    /// Returns the size of the image in bytes.
    pub fn len(&self) -> usize
        ensures { result ≡ length self.now }
    {
        40 + self.registers.len() + self.end.len()
    }

    /// Writes the image over the first bytes of `out`, which has room for it.
    pub fn put(&self, out: &mut [u8])
        requires { length self.now ≤ length out.old }
        ensures { out.new ≡ self.now ++ drop (length self.now) out.old }
    {
        put_registers(out, &self.start, self.registers, self.change);
        if !self.end.is_empty() {
            put_at(out, 40 + self.registers.len(), self.end);
        }
    }
}

/// Returns the first 40 bytes of an image of 8-bit or 6-bit registers of which `zero_count` are 0.
fn plain_start(lg_k: u8, hll_type: HllType, zero_count: u32, state: EstimateState) -> [[u8; 8]; 5]
    ensures bytes { flat_map (λ b. b) result ≡ 10 ∷ 1 ∷ 7 ∷ lg_k ∷ 0 ∷ flag_of state ∷ 0 ∷ mode_byte 2 hll_type ∷ number_bytes state zero_count 0 }
    ensures size { length (flat_map (λ b. b) result) ≡ 40 }
{
    let preamble = Preamble {
        state,
        num_at_cur_min: zero_count,
        exception_count: 0,
    };
    preamble.start(HllHeader::plain(lg_k, hll_type))
}

/// Returns the first 40 bytes of an image of 4-bit registers, whose exceptions are four bytes each.
fn nibble_start(
    lg_k: u8,
    minimum: u8,
    low_count: u32,
    exceptions: &[u8],
    state: EstimateState,
) -> [[u8; 8]; 5]
    requires { length exceptions.now ≤ 2 ^ 23 }
    ensures bytes { flat_map (λ b. b) result ≡ 10 ∷ 1 ∷ 7 ∷ lg_k ∷ 0 ∷ (8 + flag_of state) ∷ minimum ∷ mode_byte 2 Hll4 ∷ number_bytes state low_count (length exceptions.now / 4) }
    ensures size { length (flat_map (λ b. b) result) ≡ 40 }
{
    let preamble = Preamble {
        state,
        num_at_cur_min: low_count,
        exception_count: (exceptions.len() / COUPON_SIZE_BYTES) as u32,
    };
    preamble.start(HllHeader {
        lg_config_k: lg_k,
        hll_type: HllType::Hll4,
        flags: COMPACT_FLAG_MASK,
        minimum,
    })
}

/// Writes the first 40 bytes of an image and its registers, with a change, over the first bytes of `out`.
fn put_registers(out: &mut [u8], start: &[[u8; 8]; 5], registers: &[u8], change: Change)
    requires start { length (flat_map (λ b. b) start.now) ≡ 40 }
    requires three { length change.bytes ≡ 3 }
    requires few { change.count ≤ 3 }
    requires within { change.at + change.count ≤ length registers.now }
    requires room { 40 + length registers.now ≤ length out.old }
    ensures { out.new ≡ (flat_map (λ b. b) start.now ++ put_chunk change.at registers.now (take change.count change.bytes)) ++ drop (40 + length registers.now) out.old }
{
    put_at(out, 0, start.as_flattened());
    put_at(out, 40, registers);
    if change.count > 0 {
        put_at(out, 40 + change.at, &change.bytes[..change.count]);
    }
}

/// Writes bytes over those of `out` from `at` on.
fn put_at(out: &mut [u8], at: usize, bytes: &[u8])
    requires { at + length bytes.now ≤ length out.old }
    ensures { out.new ≡ take at out.old ++ (bytes.now ++ drop (at + length bytes.now) out.old) }
{
    out[at..at + bytes.len()].copy_from_slice(bytes);
}
