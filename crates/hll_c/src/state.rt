// SPDX-License-Identifier: Apache-2.0
//! States of counters in caller-owned memory.
ghost use Rattle.std.specs.Prelude.{◌≡◌, ◌≢◌, ◌*◌, ◌-◌, ◌^◌, ◌<◌, ◌≤◌, ◌⊎◌, [], ◌∷◌, true, false, Some, length, drop, IfSome, IfNone, IfOk, IfErr};
ghost use Rattle.hll_base.specs.declared.error.Reason.TheVariants.{Memory};
ghost use Rattle.hll_base.specs.declared.error.Reason.TheVariants as reasons;
ghost use Rattle.hll_coupons.specs.Hashed.{coupon_of_bytes};
ghost use Rattle.hll_kernels.specs.Packed.{AreRegisters};
ghost use Rattle.hll_sketch.specs.EstimatorFields.{FillsFields};
ghost use Rattle.hll_images.specs.RegisterImages.{FillsState};
ghost use Rattle.hll_sketch.specs.Value as contents;
ghost use Rattle.hll_sketch.specs.Laws.{add_in_turn};
ghost use Rattle.hll_sketch.specs.Value.{IsLgK, IsLegal};
ghost use Rattle.hll_state.specs.Counter.{sketch_in, content_of, IsResolved, AreResolved};
ghost use Rattle.hll_state.specs.Header.{IsWithin, AreWithin, HasRoom};
ghost use Rattle.hll_state.specs.Header as headers;
ghost use Rattle.hll_state.specs.Memory.{HasHeader, IsState, IsStateOf, OfState, IsOnlyRead, IsSettled, IsGrownBy, GrowsBy};
ghost use Rattle.hll_state.specs.Memory.{is_open as is_lg_k_open};
ghost use Rattle.hll_state.specs.Merged.{HasLegalRegisters};
ghost use Rattle.hll_state.specs.Registers.{values};
ghost use Rattle.hll_c.specs.Answers.{buffer_code, Answers, IsImageOf, WithFields};
ghost use Rattle.hll_c.specs.Calls.{IsWidth};
ghost use Rattle.hll_c.specs.Estimates.{IsEstimateOfContent};
ghost use Rattle.hll_c.specs.States.{IsNewState, MakesState, TakesValues, AddsToState, IsOfState, SaysEstimateOfState, RefusesState};
ghost use Rattle.hll_c.specs.declared.estimate.HllEstimate.{HllEstimate};

use crate::answer::{BUFFER, OK, put_bytes};
use crate::arguments::{lg_k_of_number, width_of};
use crate::coupons::Coupons;
use crate::estimate::{HllEstimate, estimate_of_coupons, estimate_of_registers};
use hll_base::bounds::MIN_LG_K;
use hll_base::error::{Error, Reason};
use hll_base::hll_type::HllType;
use hll_coupons::coupon::Coupon;
use hll_images::coupon_images::coupon_image;
use hll_registers::estimate_state::EstimateState;
use hll_registers::packed_images::packed_image;
use hll_registers::register_slice::RegisterSlice;
use hll_registers::registers::Registers;
use hll_state::header::{CouponTable, HEADER_LEN, Header, Held};
use hll_state::memory::{
    Begun, add_in_place, append, begin, begin_with, close, has_raised, is_open, open, resolve,
    set_open,
};
use hll_state::registers::{as_bytes, small_registers};
use std::alloc::Global;

/// Makes the state of an empty sketch. Its `lg_k` is open if `lg_k` is 0.
pub(crate) fn new(lg_k: u32, state: &mut [[u8; 4]]) -> u8
    ensures { MakesState lg_k state.old state.new result }
{
    let is_open = lg_k == 0;
    let least = if is_open { u32::from(MIN_LG_K) } else { lg_k };
    let Ok(lg_k) = lg_k_of_number(least) else {
        return Reason::Argument.number();
    };
    if state.len() < HEADER_LEN {
        return BUFFER;
    }
    make(lg_k, is_open, state);
    OK
}

/// Makes the state of an empty sketch in enough elements, and returns its header.
pub(crate) fn make(lg_k: u8, is_open: bool, state: &mut [[u8; 4]]) -> Header
    requires lg_k { IsLgK lg_k }
    requires there { 10 ≤ length state.old }
    ensures made { IsNewState lg_k is_open state.new }
    ensures has { HasHeader state.new result }
    ensures header { result ≡ headers.new_header lg_k }
{
    let header = Header::new(lg_k);
    close(state, header);
    set_open(state, is_open);
    header
}

/// Adds coupons.
pub(crate) fn add<C: Coupons>(state: &mut [[u8; 4]], coupons: &C, size: &mut usize) -> u8
    ensures added { AddsToState (C.Coupons.are coupons.now × TakesValues state.old) (C.Coupons.raw_coupons coupons.now) state.old state.new size.old size.new result }
    ensures grows { GrowsBy (length (C.Coupons.raw_coupons coupons.now)) state.old state.new }
    ensures lg_k_open { is_lg_k_open state.new ≡ is_lg_k_open state.old }
{
    if is_open(state) {
        return Reason::Argument.number();
    }
    if !coupons.are_valid() {
        return Reason::Argument.number();
    }
    match begin(state, coupons.count()) {
        Begun::NoState => Reason::Argument.number(),
        Begun::NoRoom(len) => too_small(len, size),
        Begun::Room(mut header) => {
            push_each(&mut header, &mut state[HEADER_LEN..], coupons);
            close(state, header);
            OK
        }
    }
}

/// Adds coupons. There is room for them.
// (inlined, as `put_each` is)
#[inline(always)]
fn push_each<C: Coupons>(header: &mut Header, body: &mut [[u8; 4]], coupons: &C)
    requires are { C.Coupons.are coupons.now }
    requires within { IsWithin header.old (length body.old) }
    requires room { HasRoom header.old (length (C.Coupons.raw_coupons coupons.now)) (length body.old) }
    ensures within { IsWithin header.new (length body.old) }
    ensures added { sketch_in header.new body.new ≡ add_in_turn (sketch_in header.old body.old) (C.Coupons.raw_coupons coupons.now) }
    ensures grows { IsGrownBy (length (C.Coupons.raw_coupons coupons.now)) header.old header.new }
{
    for number in 0..coupons.count() {
        header.push(body, coupons.coupon(number).raw());
    }
}

/// Sets `size` to the bytes of `len` elements, and returns the code of a buffer that is too small.
pub(crate) fn too_small(len: usize, size: &mut usize) -> u8
    requires { len < 2 ^ 32 }
    ensures size { size.new ≡ 4 * len }
    ensures code { result ≡ buffer_code }
{
    *size = 4 * len;
    BUFFER
}

/// Adds the coupon of a byte string.
pub(crate) fn add_value(state: &mut [[u8; 4]], value: &[u8], size: &mut usize) -> u8
    ensures added { AddsToState (TakesValues state.old) (coupon_of_bytes value.now ∷ []) state.old state.new size.old size.new result }
    ensures grows { GrowsBy 1 state.old state.new }
    ensures lg_k_open { is_lg_k_open state.new ≡ is_lg_k_open state.old }
{
    let raw = Coupon::from_bytes(value).raw();
    if append(state, raw) {
        return OK;
    }
    if has_raised(state, raw) {
        return OK;
    }
    add_raw(state, raw, size)
}

/// Adds a raw coupon.
// (not inlined, and it reads the header again: passed in memory, the header would cost more, also where the value is held)
#[inline(never)]
fn add_raw(state: &mut [[u8; 4]], raw: u32, size: &mut usize) -> u8
    ensures added { AddsToState (TakesValues state.old) (raw ∷ []) state.old state.new size.old size.new result }
    ensures grows { GrowsBy 1 state.old state.new }
    ensures lg_k_open { is_lg_k_open state.new ≡ is_lg_k_open state.old }
{
    match open(state) {
        Some(header) if !is_open(state) => add_with(state, header, raw, size),
        _ => Reason::Argument.number(),
    }
}

/// Adds a raw coupon to a state whose header was read.
#[inline(always)]
fn add_with(state: &mut [[u8; 4]], header: Header, raw: u32, size: &mut usize) -> u8
    requires header { HasHeader state.old header }
    ensures added { AddsToState (Unit {0}) (raw ∷ []) state.old state.new size.old size.new result }
    ensures grows { GrowsBy 1 state.old state.new }
    ensures lg_k_open { is_lg_k_open state.new ≡ is_lg_k_open state.old }
{
    if add_in_place(state, header, raw) {
        return OK;
    }
    match begin_with(state, header, 1) {
        Err(len) => too_small(len, size),
        Ok(mut header) => {
            header.push_higher(&mut state[HEADER_LEN..], raw);
            close(state, header);
            OK
        }
    }
}

/// Writes the image of the sketch of a state into a buffer.
pub(crate) fn put_image(
    alloc: Global,
    state: &mut [[u8; 4]],
    width: u32,
    out: &mut [u8],
    size: &mut usize,
) -> u8
    ensures image { Answers (IsOfState width state.old) (RefusesState (IsWidth width) state.old) out.old out.new size.old size.new result }
    ensures kept { IsOnlyRead state.old state.new }
    ensures settled { result ≡ 0 → IsSettled state.new }
{
    put_bytes(image_of(alloc, state, width), out, size)
}

/// Returns the image of the sketch of a state, at a width.
fn image_of(alloc: Global, state: &mut [[u8; 4]], width: u32) -> Result<Vec<u8>, Error>
    ensures ok { IfOk result (λ image. IsImageOf (WithFields (IsOfState width state.old)) image.items) }
    ensures err { IfErr result (RefusesState (IsWidth width) state.old) }
    ensures kept { IsOnlyRead state.old state.new }
    ensures settled { IfOk result (λ image. IsSettled state.new) }
{
    let hll_type = width_of(width)?;
    let Some(header) = resolve(state) else {
        return Err(Error::new(Reason::Argument));
    };
    image_of_held(alloc, header, &state[HEADER_LEN..], hll_type)
}

/// Returns the image of the sketch of a settled state, at a width. Fails with `Argument` if the elements are not such a state,
/// with `Register` if a register is above 63, or with `Memory`.
pub(crate) fn image_of_settled(
    alloc: Global,
    state: &[[u8; 4]],
    width: u32,
) -> Result<Vec<u8>, Error>
    ensures ok { IfOk result (λ image. IsImageOf (WithFields (IsOfState width state.now)) image.items) }
    ensures err { IfErr result (RefusesState (IsWidth width × IsSettled state.now) state.now) }
{
    let hll_type = width_of(width)?;
    let Some(header) = open_settled(state) else {
        return Err(Error::new(Reason::Argument));
    };
    image_of_held(alloc, header, &state[HEADER_LEN..], hll_type)
}

/// Reads the header of a settled state: its sketch can be read from the elements as they are. Returns `None` if the elements
/// are not such a state.
fn open_settled(state: &[[u8; 4]]) -> Option<Header>
    ensures some { IfSome result (λ h. HasHeader state.now h) }
    ensures within { IfSome result (λ h. IsWithin h (length state.now - 10)) }
    ensures settled { IfSome result (λ h. IsSettled state.now) }
    ensures resolved { IfSome result (λ h. IsResolved h (drop 10 state.now)) }
    ensures none { IfNone result (IsState state.now → IsSettled state.now → ⊥) }
{
    let header = open(state)?;
    if header.is_resolved(&state[HEADER_LEN..]) {
        Some(header)
    } else {
        None
    }
}

/// Returns the image, at a width, of the sketch of a state that `resolve` has made ready to be read.
///
/// Fails with `Register` if a register is above 63, or with `Memory`.
fn image_of_held(
    alloc: Global,
    header: Header,
    body: &[[u8; 4]],
    hll_type: HllType,
) -> Result<Vec<u8>, Error>
    requires within { IsWithin header (length body.now) }
    requires resolved { IsResolved header body.now }
    ensures ok { IfOk result (λ image. IsImageOf (FillsFields (record (sketch_in header body.now) { width = hll_type })) image.items) }
    ensures err { IfErr result (λ e. (e ≡ Memory) ⊎ ((e ≡ reasons.Register) × (IsLegal (sketch_in header body.now) → ⊥))) }
{
    if let Held::Registers(_) = header.held {
        small_registers(body, header.lg_k)?;
    }
    image_of_legal(alloc, header, body, hll_type)
}

/// Does what `image_of_held` does, for a state of which no register is above 63.
///
/// Fails with `Memory`.
pub(crate) fn image_of_legal(
    alloc: Global,
    header: Header,
    body: &[[u8; 4]],
    hll_type: HllType,
) -> Result<Vec<u8>, Error>
    requires within { IsWithin header (length body.now) }
    requires resolved { IsResolved header body.now }
    requires registers { HasLegalRegisters header body.now }
    ensures ok { IfOk result (λ image. IsImageOf (FillsFields (record (sketch_in header body.now) { width = hll_type })) image.items) }
    ensures err { IfErr result (λ e. e ≡ Memory) }
{
    let lg_k = header.lg_k;
    match header.held {
        Held::Coupons(coupons) => image_of_coupons(alloc, lg_k, hll_type, coupons, body),
        Held::Registers(state) => {
            image_of_registers(alloc, lg_k, hll_type, as_bytes(body, lg_k), state)
        }
    }
}

/// Returns the image of registers at a width, with their estimator fields set if their estimate state is cleared. The registers
/// are copied or packed once, into the image.
///
/// Fails with `Memory`.
pub(crate) fn image_of_registers(
    alloc: Global,
    lg_k: u8,
    hll_type: HllType,
    registers: &[u8],
    state: EstimateState,
) -> Result<Vec<u8>, Error>
    requires lg_k { IsLgK lg_k }
    requires registers { AreRegisters lg_k registers.now }
    ensures ok { IfOk result (λ image. IsImageOf (FillsFields (record { lg_k = lg_k; width = hll_type; content = contents.registers registers.now state })) image.items) }
    ensures err { IfErr result (λ e. e ≡ Memory) }
{
    let source = RegisterSlice::new(lg_k, registers).with_state(state);
    packed_image(alloc, lg_k, hll_type, registers, filled_state(&source))
}

/// Returns the estimate state of registers, or, if that is cleared, the state with the estimator fields of the registers.
fn filled_state(source: &RegisterSlice<'_>) -> EstimateState
    ensures { FillsState source.now result }
{
    let state = source.estimate_state();
    if state == EstimateState::CLEARED {
        source.estimator_fields()
    } else {
        state
    }
}

/// Returns the image of coupons in ascending order.
///
/// Fails with `Memory`.
fn image_of_coupons(
    alloc: Global,
    lg_k: u8,
    hll_type: HllType,
    coupons: CouponTable,
    body: &[[u8; 4]],
) -> Result<Vec<u8>, Error>
    requires lg_k { IsLgK lg_k }
    requires within { AreWithin lg_k coupons (length body.now) }
    requires resolved { AreResolved lg_k coupons body.now }
    ensures ok { IfOk result (λ image. IsImageOf (FillsFields (record { lg_k = lg_k; width = hll_type; content = content_of lg_k (headers.of_coupons coupons) body.now })) image.items) }
    ensures err { IfErr result (λ e. e ≡ Memory) }
{
    coupon_image(
        alloc,
        lg_k,
        hll_type,
        coupons.resolved_size(lg_k),
        coupons.run.as_bytes(body),
    )
}

/// Returns the estimate of the sketch of a state.
pub(crate) fn estimate_of(state: &mut [[u8; 4]]) -> Result<HllEstimate, Error>
    ensures ok { IfOk result (SaysEstimateOfState state.old) }
    ensures err { IfErr result (RefusesState (Unit {0}) state.old) }
    ensures needless { IfErr result (λ e. e ≢ Memory) }
    ensures kept { IsOnlyRead state.old state.new }
    ensures settled { IfOk result (λ e. IsSettled state.new) }
{
    let Some(header) = resolve(state) else {
        return Err(Error::new(Reason::Argument));
    };
    estimate_of_held(header, &state[HEADER_LEN..])
}

/// Returns the estimate of the sketch of a settled state, of which it writes no byte. Fails with `Argument` if the elements are not
/// such a state, or with `Register` if a register is above 63.
pub(crate) fn estimate_of_settled(state: &[[u8; 4]]) -> Result<HllEstimate, Error>
    ensures ok { IfOk result (SaysEstimateOfState state.now) }
    ensures err { IfErr result (RefusesState (IsSettled state.now) state.now) }
    ensures needless { IfErr result (λ e. e ≢ Memory) }
{
    let Some(header) = open_settled(state) else {
        return Err(Error::new(Reason::Argument));
    };
    estimate_of_held(header, &state[HEADER_LEN..])
}

/// Returns the estimate of the sketch of a state that `resolve` has made ready to be read. Fails with `Register` if a register
/// is above 63.
fn estimate_of_held(header: Header, body: &[[u8; 4]]) -> Result<HllEstimate, Error>
    requires within { IsWithin header (length body.now) }
    requires resolved { IsResolved header body.now }
    ensures ok { IfOk result (IsEstimateOfContent header.lg_k (content_of header.lg_k header.held body.now)) }
    ensures err { IfErr result (λ e. (e ≡ reasons.Register) × (IsLegal (sketch_in header body.now) → ⊥)) }
{
    match header.held {
        Held::Coupons(coupons) => Ok(estimate_of_coupons(coupons.run.used)),
        Held::Registers(_) => {
            let registers = small_registers(body, header.lg_k)?;
            Ok(estimate_of_registers(header.lg_k, registers))
        }
    }
}
