// SPDX-License-Identifier: Apache-2.0
//! Reads 4-bit registers from the part of an image after the header (docs/FORMAT.md, "HLL").
ghost use Rattle.std.specs.Prelude.{◌≡◌, ◌≢◌, ◌+◌, ◌-◌, ◌*◌, ◌%◌, ◌^◌, ◌<◌, ◌≤◌, ◌==◌, ◌⊎◌, ℕ, if◌then◌else◌, length, take, drop, true, false, None, Some, IfOk, IfErr, OnOk};
ghost use Rattle.hll_base.specs.declared.error.Reason.TheVariants.{Memory};
ghost use Rattle.hll_base.specs.declared.error.Reason.TheVariants as reasons;
ghost use Rattle.hll_coupons.specs.AuxMap.{entry_at, value_in, IsMap};
ghost use Rattle.hll_coupons.specs.Coupons.{coupons_at};
ghost use Rattle.hll_coupons.specs.Pair.{slot_of, value_of};
ghost use Rattle.hll_registers.specs.FourBits.{unboxed, exception_in, IsMapFor, IsSlotOf};
ghost use Rattle.hll_kernels.specs.Packed.{nibble_at};
ghost use Rattle.hll_registers.specs.Payload.{state_at, exception_count, exception_buckets, hll4_size, is_compact, lg_table_of, nibbles_of, registers_of, shape_of_hll4, Agrees, AreEntries, FirstHll4Fault, IsHll4Payload, IsWhole};
ghost use Rattle.hll_registers.specs.State.{IsState};

use hll_base::cursor::SketchSlice;
use hll_base::error::{Error, Reason};
use hll_coupons::coupon::Coupon;
use hll_coupons::serialization::COUPON_SIZE_BYTES;
use hll_registers::aux_format::AuxFormat;
use hll_registers::estimate_state::EstimateState;
use hll_registers::exception_map::{
    Exceptions, ExceptionsBuilder, add_exception, built, has_exception,
};
use hll_registers::nibble_registers::NibbleRegisters;
use hll_registers::nibble_slice::NibbleSlice;
use hll_registers::preamble::Preamble;
use hll_registers::registers::{Registers, Use, two_to};
use std::alloc::Allocator;

/// The fields of an image's header for 4-bit registers. The minimum may be below the least register.
#[derive(Clone, Copy)]
pub(crate) struct Hll4Header {
    pub(crate) lg_config_k: u8,
    pub(crate) cur_min: u8,
    pub(crate) aux_format: AuxFormat,
    pub(crate) ooo: bool,
}

// ---- the whole

/// Reads the estimate state, and the registers above the minimum that the header gives.
///
/// Fails with the reason of the first check that fails, and with `Memory` if an allocation fails.
pub(crate) fn read_payload<A: Allocator + Clone>(
    alloc: A,
    cursor: SketchSlice<'_>,
    header: Hll4Header,
) -> Result<(NibbleRegisters<A>, EstimateState), Error>
    requires least { 4 ≤ header.lg_config_k }
    requires most { header.lg_config_k ≤ 21 }
    ensures state { IfOk result (λ r. (r.1 ≡ state_at header.ooo cursor.entry) × IsState r.1) }
    ensures payload { let h = shape_of_hll4 header.lg_config_k header.cur_min header.aux_format in
        IfOk result (λ r. IsWhole h cursor.entry × IsHll4Payload h (take (hll4_size h cursor.entry) cursor.entry)) }
    ensures registers { let h = shape_of_hll4 header.lg_config_k header.cur_min header.aux_format in
        IfOk result (λ r. (r.0.lg_k ≡ header.lg_config_k) × (r.0.registers ≡ registers_of h cursor.entry)) }
    ensures err { let h = shape_of_hll4 header.lg_config_k header.cur_min header.aux_format in
        IfErr result (λ e. (e ≡ Memory) ⊎ FirstHll4Fault h cursor.entry e) }
    ensures asked { let h = shape_of_hll4 header.lg_config_k header.cur_min header.aux_format in
        IfErr result (λ e. e ≡ Memory → IsWhole h cursor.entry) }
{
    let registers = read_slice(&alloc, cursor, header, Use::Copy)?;
    let state = registers.estimate_state();
    Ok((registers.into_registers(alloc)?, state))
}

/// Returns the registers above the minimum that the header gives, with their nibbles borrowed, their estimate state,
/// and a map of the exceptions allocated by `alloc`.
///
/// Fails with the reason of the first check that fails, and with `Memory` if there are exceptions and an allocation
/// fails.
pub(crate) fn read_slice<'a, A: Allocator + Clone>(
    alloc: &A,
    cursor: SketchSlice<'a>,
    header: Hll4Header,
    later: Use,
) -> Result<NibbleSlice<'a, A>, Error>
    requires least { 4 ≤ header.lg_config_k }
    requires most { header.lg_config_k ≤ 21 }
    ensures payload { let h = shape_of_hll4 header.lg_config_k header.cur_min header.aux_format in
        IfOk result (λ r. IsWhole h cursor.entry × IsHll4Payload h (take (hll4_size h cursor.entry) cursor.entry)) }
    ensures registers { let h = shape_of_hll4 header.lg_config_k header.cur_min header.aux_format in
        IfOk result (λ r. r ≡ record { lg_k = header.lg_config_k; registers = registers_of h cursor.entry; state = state_at header.ooo cursor.entry }) }
    ensures legal { IfOk result (λ r. IsState r.state) }
    ensures err { let h = shape_of_hll4 header.lg_config_k header.cur_min header.aux_format in
        IfErr result (λ e. (e ≡ Memory) ⊎ FirstHll4Fault h cursor.entry e) }
    ensures asked { let h = shape_of_hll4 header.lg_config_k header.cur_min header.aux_format in
        IfErr result (λ e. e ≡ Memory → IsWhole h cursor.entry) }
    ensures needed { IfErr result (λ e. e ≡ Memory → exception_count cursor.entry ≢ 0) }
{
    let frame = frame_of(cursor, header)?;
    let exceptions = read_entries(alloc, header.lg_config_k, &frame)?;
    let registers = NibbleSlice::from_parts(
        header.lg_config_k,
        header.cur_min,
        frame.nibbles,
        exceptions,
        later,
    )?;
    Ok(registers.with_state(frame.preamble.state))
}

// ---- sizes

/// The preamble, and the bytes of nibbles and exceptions after it.
#[derive(Drop)]
pub(crate) struct Frame<'a> {
    preamble: Preamble,
    compact: bool,
    pub(crate) buckets: usize,
    pub(crate) nibbles: &'a [u8],
    pub(crate) entries: &'a [u8],
}

/// Reads the counts. Checks them, and the number of bytes.
pub(crate) fn frame_of<'a>(cursor: SketchSlice<'a>, header: Hll4Header) -> Result<Frame<'a>, Error>
    requires least { 4 ≤ header.lg_config_k }
    requires most { header.lg_config_k ≤ 21 }
    ensures ok { (m : ℕ) → let h = shape_of_hll4 header.lg_config_k m header.aux_format in
        IfOk result (λ f. IsWhole h cursor.entry × (f.compact ≡ is_compact header.aux_format) × (f.buckets ≡ exception_buckets h cursor.entry)
        × (f.nibbles.now ≡ nibbles_of h cursor.entry) × (f.entries.now ≡ drop (32 + 2 ^ (header.lg_config_k - 1)) cursor.entry)) }
    ensures numbers { IfOk result (λ f. (f.preamble.state ≡ state_at header.ooo cursor.entry) × IsState f.preamble.state × (f.preamble.exception_count ≡ exception_count cursor.entry)) }
    ensures err { (m : ℕ) → IfErr result (FirstHll4Fault (shape_of_hll4 header.lg_config_k m header.aux_format) cursor.entry) }
{
    let (preamble, rest) = Preamble::read(cursor, header.ooo)?;
    let size = two_to(header.lg_config_k);
    let count = preamble.exception_count as usize;
    if preamble.num_at_cur_min as usize > size || count > size {
        return Err(Error::new(Reason::Count));
    }
    let buckets = buckets_of(header.aux_format, count)?;
    let Some((nibbles, entries)) = rest
        .remaining()
        .split_at_checked(two_to(header.lg_config_k - 1))
    else {
        return Err(Error::new(Reason::Truncated));
    };
    if entries.len() < buckets * COUPON_SIZE_BYTES {
        return Err(Error::new(Reason::Truncated));
    }
    Ok(Frame {
        preamble,
        compact: is_without_gaps(header.aux_format),
        buckets,
        nibbles,
        entries,
    })
}

/// Returns whether the exceptions are stored without empty buckets between them.
fn is_without_gaps(aux_format: AuxFormat) -> bool
    ensures { result ≡ is_compact aux_format }
{
    match aux_format {
        AuxFormat::Compact => true,
        AuxFormat::Updatable { .. } => false,
    }
}

/// Returns the number of buckets of exceptions.
///
/// Fails with `LgArr`.
fn buckets_of(aux_format: AuxFormat, count: usize) -> Result<usize, Error>
    ensures ok { IfOk result (λ n. n ≡ (if is_compact aux_format then count else (if count == 0 then 0 else 2 ^ lg_table_of aux_format))) }
    ensures table { IfOk result (λ n. is_compact aux_format ≡ false → count ≢ 0 → lg_table_of aux_format ≤ 26) }
    ensures err { IfErr result (λ e. (e ≡ reasons.LgArr) × (is_compact aux_format ≡ false) × (count ≢ 0) × (26 < lg_table_of aux_format)) }
{
    match aux_format {
        AuxFormat::Compact => Ok(count),
        AuxFormat::Updatable { lg_arr } => {
            if count == 0 {
                return Ok(0);
            }
            if lg_arr > 26 {
                return Err(Error::new(Reason::LgArr));
            }
            Ok(1 << lg_arr)
        }
    }
}

// ---- exceptions

/// Reads the exceptions into a map by slots modulo 2^`lg_config_k`, allocated by `alloc`.
///
/// Fails with `Coupon` or `Count`, and with `Memory` if there are buckets and an allocation fails.
fn read_entries<A: Allocator + Clone>(
    alloc: &A,
    lg_config_k: u8,
    frame: &Frame<'_>,
) -> Result<Exceptions<A>, Error>
    requires least { 4 ≤ lg_config_k }
    requires most { lg_config_k ≤ 21 }
    requires there { 4 * frame.now.buckets ≤ length frame.now.entries.now }
    ensures map { IfOk result (λ map. IsMapFor lg_config_k (unboxed map)) }
    ensures values { IfOk result (λ map. (s : ℕ) → exception_in (unboxed map) s ≡ entry_at lg_config_k (coupons_at frame.now.compact frame.now.buckets frame.now.entries.now) s) }
    ensures entries { IfOk result (λ map. AreEntries lg_config_k (coupons_at frame.now.compact frame.now.buckets frame.now.entries.now)) }
    ensures number { IfOk result (λ map. length (coupons_at frame.now.compact frame.now.buckets frame.now.entries.now) ≡ frame.now.preamble.exception_count) }
    ensures err { let entries = coupons_at frame.now.compact frame.now.buckets frame.now.entries.now in
        IfErr result (λ e. (e ≡ Memory) ⊎ (((e ≡ reasons.Coupon) × (AreEntries lg_config_k entries → ⊥))
        ⊎ ((e ≡ reasons.Count) × AreEntries lg_config_k entries × (length entries ≢ frame.now.preamble.exception_count)))) }
    ensures needed { IfErr result (λ e. e ≡ Memory → frame.now.buckets ≢ 0) }
{
    let mut cursor = SketchSlice::new(frame.entries);
    let mut map = None;
    let mut filled = 0;
    for _ in 0..frame.buckets {
        let entry = Coupon::from_raw(cursor.read_u32_le()?);
        if entry.is_empty() && !frame.compact {
            continue;
        }
        put_entry(&mut map, alloc, lg_config_k, entry)?;
        filled += 1;
    }
    if filled != frame.preamble.exception_count as usize {
        return Err(Error::new(Reason::Count));
    }
    built(map, alloc)
}

/// Puts an exception that was read into the map.
///
/// Fails with `Coupon` if it has no value or its slot already has an exception, and with `Memory` if an allocation
/// fails.
fn put_entry<A: Allocator + Clone>(
    map: &mut ExceptionsBuilder<A>,
    alloc: &A,
    lg_config_k: u8,
    entry: Coupon,
) -> Result<(), Error>
    requires least { 4 ≤ lg_config_k }
    requires most { lg_config_k ≤ 21 }
    requires map { IsMapFor lg_config_k map.old }
    ensures map { OnOk result (IsMapFor lg_config_k map.new) }
    ensures values { OnOk result ((s : ℕ) → exception_in map.new s ≡ (if s == slot_of entry % 2 ^ lg_config_k then Some (value_of entry) else exception_in map.old s)) }
    ensures valued { OnOk result (1 ≤ value_of entry) }
    ensures new { OnOk result (exception_in map.old (slot_of entry % 2 ^ lg_config_k) ≡ None) }
    ensures err { IfErr result (λ e. (e ≡ Memory) ⊎ ((e ≡ reasons.Coupon) × ((value_of entry ≡ 0) ⊎ (exception_in map.old (slot_of entry % 2 ^ lg_config_k) ≢ None)))) }
{
    let slot = entry.slot() % two_to(lg_config_k) as u32;
    if entry.value() == 0 || has_exception(map, slot)? {
        return Err(Error::new(Reason::Coupon));
    }
    add_exception(map, alloc, lg_config_k, slot, entry.value())
}
