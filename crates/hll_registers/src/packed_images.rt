// SPDX-License-Identifier: Apache-2.0
//! Images of registers that are given one byte each, at any width (docs/FORMAT.md, "What is written"). The registers are packed
//! straight into the image.
ghost use Rattle.std.specs.Prelude.{◌≡◌, ◌%◌, ◌≤◌, ◌<◌, ◌^◌, ◌++◌, All, length, IfOk, IfErr, OnOk};
ghost use Rattle.hll_base.specs.declared.error.Reason.TheVariants.{Memory};
ghost use Rattle.hll_base.specs.declared.hll_type.HllType.TheVariants.{Hll4};
ghost use Rattle.hll_coupons.specs.Coupons.{coupon_bytes, WritesAscending};
ghost use Rattle.hll_coupons.specs.Pair.{set_of};
ghost use Rattle.hll_kernels.specs.Packed.{field_bytes, nibble_bytes_above, AreRegisters};
ghost use Rattle.hll_registers.specs.Exceptions.{exceptions};
ghost use Rattle.hll_registers.specs.Payload.{hll6_bytes, WritesRegisters};
ghost use Rattle.hll_kernels.specs.Packed as packed;

use crate::estimate_state::EstimateState;
use crate::exception_map::{count_exceptions, exceptions_of, with_exceptions};
use crate::plain_images::eight_bit_image;
use crate::preamble::{HllHeader, Preamble};
use hll_base::codec::SketchBytes;
use hll_base::error::Error;
use hll_base::hll_type::HllType;
use hll_coupons::serialization::{COMPACT_FLAG_MASK, COUPON_SIZE_BYTES, HLL_PREAMBLE_SIZE};
use hll_kernels::groups::write_groups;
use hll_kernels::kernels::{count_of, count_zeros, least_of};
use hll_kernels::nibbles::pack_nibbles;
use std::alloc::Allocator;

/// Returns the image of 2^`lg_k` registers of 0 to 63, given their state, at a width.
///
/// Allocates the image in one request, and for 4 bits, if there are exceptions, also a map and two copies of them. Fails with
/// `Memory` if an allocation fails.
pub fn packed_image<A: Allocator + Clone>(
    alloc: A,
    lg_k: u8,
    hll_type: HllType,
    registers: &[u8],
    state: EstimateState,
) -> Result<Vec<u8, A>, Error>
    requires least { 4 ≤ lg_k }
    requires most { lg_k ≤ 21 }
    requires registers { AreRegisters lg_k registers.now }
    ensures ok { IfOk result (λ image. WritesRegisters image.items lg_k hll_type registers.now state) }
    ensures err { IfErr result (λ e. e ≡ Memory) }
{
    match hll_type {
        HllType::Hll4 => image_in_nibbles(alloc, lg_k, registers, state),
        HllType::Hll6 => image_in_groups(alloc, lg_k, registers, state),
        HllType::Hll8 => {
            eight_bit_image(alloc, lg_k, registers, count_zeros(registers) as u32, state)
        }
    }
}

/// Returns the image of 6-bit registers. Allocated in one request.
fn image_in_groups<A: Allocator>(
    alloc: A,
    lg_k: u8,
    registers: &[u8],
    state: EstimateState,
) -> Result<Vec<u8, A>, Error>
    requires least { 4 ≤ lg_k }
    requires most { lg_k ≤ 21 }
    requires registers { AreRegisters lg_k registers.now }
    ensures ok { IfOk result (λ image. image.items ≡ hll6_bytes lg_k registers.now state) }
    ensures err { IfErr result (λ e. e ≡ Memory) }
{
    let preamble = Preamble {
        state,
        num_at_cur_min: count_zeros(registers) as u32,
        exception_count: 0,
    };
    let header = HllHeader::plain(lg_k, HllType::Hll6);
    let size = HLL_PREAMBLE_SIZE + registers.len() / 4 * 3 + 1;
    let mut image = preamble.start_image(alloc, header, size)?.into_bytes();
    append_groups(&mut image, registers)?;
    Ok(image)
}

/// Appends registers in groups of four, and a zero byte.
fn append_groups<A: Allocator>(image: &mut Vec<u8, A>, registers: &[u8]) -> Result<(), Error>
    requires whole { length registers.now % 16 ≡ 0 }
    requires few { length registers.now ≤ 2 ^ 21 }
    requires small { All (λ v. v ≤ 63) registers.now }
    ensures ok { OnOk result (image.new.items ≡ image.old.items ++ field_bytes registers.now) }
    ensures err { IfErr result (λ e. e ≡ Memory) }
{
    let start = image.len();
    image.resize(start + registers.len() / 4 * 3, 0)?;
    write_groups(&mut image[start..], registers);
    image.push(0)?;
    Ok(())
}

/// Returns the image of 4-bit registers. Allocated in one request, after the exceptions.
fn image_in_nibbles<A: Allocator + Clone>(
    alloc: A,
    lg_k: u8,
    registers: &[u8],
    state: EstimateState,
) -> Result<Vec<u8, A>, Error>
    requires least { 4 ≤ lg_k }
    requires most { lg_k ≤ 21 }
    requires registers { AreRegisters lg_k registers.now }
    ensures ok { IfOk result (λ image. WritesRegisters image.items lg_k Hll4 registers.now state) }
    ensures err { IfErr result (λ e. e ≡ Memory) }
{
    let minimum = least_of(registers);
    let entries = exception_bytes(&alloc, lg_k, registers, minimum)?;
    let preamble = Preamble {
        state,
        num_at_cur_min: count_of(registers, minimum) as u32,
        exception_count: (entries.len() / COUPON_SIZE_BYTES) as u32,
    };
    let header = HllHeader {
        lg_config_k: lg_k,
        hll_type: HllType::Hll4,
        flags: COMPACT_FLAG_MASK,
        minimum,
    };
    let size = HLL_PREAMBLE_SIZE + registers.len() / 2 + entries.len();
    let mut image = preamble.start_image(alloc, header, size)?.into_bytes();
    append_nibbles(&mut image, registers, minimum)?;
    image.extend_from_slice(&entries)?;
    Ok(image)
}

/// Returns the exceptions of registers with this minimum, as coupons of four bytes in ascending order. Allocates nothing if there
/// are none.
fn exception_bytes<A: Allocator + Clone>(
    alloc: &A,
    lg_k: u8,
    registers: &[u8],
    minimum: u8,
) -> Result<Vec<u8, A>, Error>
    requires least { 4 ≤ lg_k }
    requires most { lg_k ≤ 21 }
    requires registers { AreRegisters lg_k registers.now }
    requires minimum { minimum ≡ packed.minimum registers.now }
    ensures ok { IfOk result (λ bytes. WritesAscending coupon_bytes (set_of (exceptions registers.now)) bytes.items) }
    ensures few { IfOk result (λ bytes. length bytes.items ≤ 2 ^ 23) }
    ensures err { IfErr result (λ e. e ≡ Memory) }
{
    let map = exceptions_of(alloc, lg_k, registers, minimum)?;
    let size = COUPON_SIZE_BYTES * count_exceptions(&map);
    let bytes = SketchBytes::with_capacity(alloc.clone()?, size)?;
    Ok(with_exceptions(bytes, &map, alloc)?.into_bytes())
}

/// Appends the nibbles of registers above a minimum.
fn append_nibbles<A: Allocator>(
    image: &mut Vec<u8, A>,
    registers: &[u8],
    minimum: u8,
) -> Result<(), Error>
    requires even { length registers.now % 2 ≡ 0 }
    requires few { length registers.now ≤ 2 ^ 21 }
    ensures ok { OnOk result (image.new.items ≡ image.old.items ++ nibble_bytes_above minimum registers.now) }
    ensures err { IfErr result (λ e. e ≡ Memory) }
{
    let start = image.len();
    image.resize(start + registers.len() / 2, 0)?;
    pack_nibbles(&mut image[start..], registers, minimum);
    Ok(())
}
