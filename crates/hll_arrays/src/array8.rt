// SPDX-License-Identifier: Apache-2.0
//! 8-bit registers: one byte each.
ghost use Rattle.std.specs.Prelude.{◌≡◌, ◌+◌, ◌^◌, ◌<◌, ◌≤◌, ◌==◌, ◌⊎◌, nat_le, true, false, length, take, drop, slice_index, slice_set, IfSome, IfOk, IfErr, OnOk};
ghost use Rattle.std.specs.List.{list_all};
ghost use Rattle.hll_base.specs.declared.error.Reason.TheVariants.{Memory, Register};
ghost use Rattle.hll_base.specs.Join.{join};
ghost use Rattle.hll_kernels.specs.Packed as packed;
ghost use Rattle.hll_kernels.specs.Packed.{zeros};
ghost use Rattle.hll_registers.specs.Store.{size_in_registers};
ghost use Rattle.hll_registers.specs.Payload.{state_at, HasPlainCounts, IsHll8Payload, FirstHll8Fault, Hll8Fault, hll8_bytes};
ghost use Rattle.hll_registers.specs.State.{cleared_state, IsState};
ghost use Rattle.hll_base.specs.declared.hll_type.HllType.TheVariants.{Hll8};
ghost use Rattle.hll_registers.specs.Store.{zero_registers, update_with_coupon, merge_with, IsStored};
ghost use Rattle.hll_kernels.specs.Packed.{AreRegisters};

use hll_base::bounds::MAX_VALUE;
use hll_base::cursor::SketchSlice;
use hll_base::error::{Error, Reason};
use hll_base::hll_type::HllType;
use hll_coupons::coupon::Coupon;
use hll_kernels::kernels::{
    WeightSums, all_zero, count_zeros, greatest_of, max_into, units, weight_sums,
    zeros_and_greatest,
};
use hll_registers::estimate_state::EstimateState;
use hll_registers::folds::max_folds;
use hll_registers::plain_images::eight_bit_image;
use hll_registers::preamble::Preamble;
use hll_registers::register_slice::RegisterSlice;
use hll_registers::register_store::RegisterStore;
use hll_registers::registers::{Registers, Use, two_to, zeros_left};
use std::alloc::{Allocator, Global};
use std::marker::Model;

/// 2^`lg_k` registers of 0 to 63, one byte each, and their estimate state. Contracts see the `lg_k`, the list of
/// registers and the state.
#[derive_where(Debug)]
#[derive(Drop)]
pub struct Array8<A: Allocator = Global> {
    lg_config_k: u8,
    /// The number of registers that are 0, if it is known.
    zero_count: Option<u32>,
    registers: Vec<u8, A>,
    state: EstimateState,
}

impl<A: Allocator> Model for Array8<A> {
    ghost use Rattle.std.specs.Prelude.{◌≡◌, ◌≤◌, IfSome};
    ghost use Rattle.hll_kernels.specs.Packed.{zeros};
    ghost use Rattle.hll_registers.specs.State.{IsState};
    ghost use Rattle.hll_registers.specs.Store.{Stored};
    ghost use Rattle.hll_kernels.specs.Packed.{AreRegisters};

    ghost Value = { Stored };

    ghost view = { λ a. record { lg_k = a.lg_config_k; registers = a.registers.items; state = a.state } };

    ghost invariant = { λ a. (4 ≤ a.lg_config_k) × (a.lg_config_k ≤ 21) × AreRegisters a.lg_config_k a.registers.items × IsState a.state × IfSome a.zero_count (λ n. n ≡ zeros a.registers.items) };
}

impl<A: Allocator> Array8<A> {
    /// Returns 2^`lg_config_k` registers of 0, with the cleared state.
    ///
    /// `lg_config_k` is 4 to 21. Fails with `Memory` if the allocation fails.
    pub fn new(alloc: A, lg_config_k: u8) -> Result<Array8<A>, Error>
        requires least { 4 ≤ lg_config_k }
        requires most { lg_config_k ≤ 21 }
        ensures ok { IfOk result (λ a. a ≡ zero_registers lg_config_k) }
        ensures err { IfErr result (λ e. e ≡ Memory) }
    {
        Ok(Array8 {
            lg_config_k,
            registers: vec![in alloc; 0; two_to(lg_config_k)]?,
            zero_count: Some(two_to(lg_config_k) as u32),
            state: EstimateState::CLEARED,
        })
    }

    /// Reads the part of an image of 8-bit registers after the header (docs/FORMAT.md, "HLL"). The zero count is
    /// checked against its bound, but not used.
    ///
    /// `lg_config_k` is 4 to 21. Fails with `Truncated`, `Count`, `Register` or `Memory`. Allocates the registers only
    /// after checking the bytes, and copies them once.
    pub fn deserialize_registers(
        alloc: A,
        cursor: SketchSlice<'_>,
        lg_config_k: u8,
        ooo: bool,
    ) -> Result<Array8<A>, Error>
        requires least { 4 ≤ lg_config_k }
        requires most { lg_config_k ≤ 21 }
        ensures ok { IfOk result (λ a. IsHll8Payload lg_config_k (take (32 + 2 ^ lg_config_k) cursor.entry)
            × (a ≡ record { lg_k = lg_config_k; registers = take (2 ^ lg_config_k) (drop 32 cursor.entry); state = state_at ooo cursor.entry })) }
        ensures err { IfErr result (λ e. (e ≡ Memory) ⊎ Hll8Fault lg_config_k cursor.entry e) }
        ensures order { IfErr result (λ e. (e ≡ Memory) ⊎ FirstHll8Fault lg_config_k cursor.entry e) }
        ensures asked { IfErr result (λ e. e ≡ Memory → IsHll8Payload lg_config_k (take (32 + 2 ^ lg_config_k) cursor.entry)) }
    {
        let source = read_registers(cursor, lg_config_k, ooo, Use::Join)?;
        // (not the header's count: zeros are counted when a caller asks for them)
        let zero_count = None;
        Ok(Array8 {
            lg_config_k,
            registers: Vec::from_slice(alloc, source.values())?,
            zero_count,
            state: source.estimate_state(),
        })
    }

    /// Returns the `lg_k`, 4 to 21.
    pub fn lg_k(&self) -> u8
        ensures lg_k { result ≡ self.now.lg_k }
        ensures legal { IsStored self.now }
    {
        self.lg_config_k
    }

    /// Returns the number of registers: 2^`lg_k`.
    pub fn num_registers(&self) -> usize
        ensures { result ≡ 2 ^ self.now.lg_k }
    {
        two_to(self.lg_config_k)
    }

    /// Returns the register of a slot below 2^`lg_k`.
    pub fn get(&self, slot: u32) -> u8
        requires { slot < 2 ^ self.now.lg_k }
        ensures { result ≡ slice_index self.now.registers slot }
    {
        self.registers[slot as usize]
    }

    /// Returns the registers.
    pub fn values(&self) -> &[u8]
        ensures values { result.now ≡ self.now.registers }
        ensures registers { AreRegisters self.now.lg_k self.now.registers }
    {
        &self.registers
    }

    /// Returns the registers, without their `lg_k` and state.
    pub fn into_values(self) -> Vec<u8, A>
        ensures { result.items ≡ self.registers }
    {
        self.registers
    }

    /// Sets the register at the coupon's slot modulo 2^`lg_k` to the maximum of itself and the coupon's value. If it
    /// changes, the state is cleared.
    pub fn update(&mut self, coupon: Coupon)
        ensures { self.new ≡ update_with_coupon self.old coupon }
    {
        let slot = coupon.slot() as usize % two_to(self.lg_config_k);
        let register = self.registers[slot];
        if register < coupon.value() {
            self.zero_count = zeros_left(self.zero_count, register);
            self.registers[slot] = coupon.value();
            self.state = EstimateState::CLEARED;
        }
    }

    /// Sets each register to the maximum of itself and the value at the same slot, and clears the state.
    ///
    /// There is a value for each register, each at most 63. One pass; allocates nothing.
    pub fn merge_array_same_lgk(&mut self, src: &[u8])
        requires { AreRegisters self.old.lg_k src.now }
        ensures { self.new ≡ record { lg_k = self.old.lg_k; registers = join self.old.registers src.now; state = cleared_state } }
    {
        self.zero_count = None;
        max_into(&mut self.registers, src);
        self.rebuild_estimator_from_registers();
    }

    /// Sets each register to the maximum of itself and the values that fold to it, and clears the state.
    ///
    /// There are 2^`src_lg_k` values, each at most 63, and `src_lg_k` is at most 21 and greater than the `lg_k` of the
    /// registers. One pass over the values; allocates nothing.
    pub fn merge_array_with_downsample(&mut self, src: &[u8], src_lg_k: u8)
        requires larger { self.old.lg_k < src_lg_k }
        requires most { src_lg_k ≤ 21 }
        requires registers { AreRegisters src_lg_k src.now }
        ensures { self.new ≡ merge_with self.old src.now }
    {
        self.zero_count = None;
        max_folds(
            &mut self.registers,
            self.lg_config_k,
            &RegisterSlice::new(src_lg_k, src),
        );
        self.rebuild_estimator_from_registers();
    }

    /// Sets each register to the maximum of itself and the source's registers that fold to it, and clears the state.
    ///
    /// The source's `lg_k` is at least that of the registers. One pass over the source; allocates nothing.
    pub(crate) fn merge_folds<R: Registers>(&mut self, src: &R)
        requires { self.old.lg_k ≤ (R.stored src.now).lg_k }
        ensures { self.new ≡ merge_with self.old (R.stored src.now).registers }
    {
        self.zero_count = None;
        max_folds(&mut self.registers, self.lg_config_k, src);
        self.rebuild_estimator_from_registers();
    }

    /// Sets one register. The state doesn't change.
    ///
    /// `slot` is below 2^`lg_k`, and `value` is at most 63.
    pub fn set_register(&mut self, slot: usize, value: u8)
        requires slot { slot < 2 ^ self.old.lg_k }
        requires value { value ≤ 63 }
        ensures { self.new ≡ record self.old { registers = slice_set self.old.registers slot value } }
    {
        self.zero_count = None;
        self.registers[slot] = value;
    }

    /// Clears the state. The registers don't change.
    pub fn rebuild_estimator_from_registers(&mut self)
        ensures { self.new ≡ record self.old { state = cleared_state } }
    {
        self.state = EstimateState::CLEARED;
    }

    /// Returns the size of the registers in bytes: 2^`lg_k`.
    pub fn estimated_size(&self) -> usize
        ensures { result ≡ size_in_registers self.now.lg_k Hll8 self.now.registers }
    {
        self.registers.len()
    }

    /// Returns whether all registers are 0. If the number of zeros isn't known, looks at the registers up to the first
    /// that isn't 0; allocates nothing.
    pub fn is_empty(&self) -> bool
        ensures empty { result ≡ list_all (λ v. v == 0) self.now.registers }
    {
        if let Some(count) = self.zero_count {
            return count as usize == two_to(self.lg_config_k);
        }
        all_zero(&self.registers)
    }

    /// Returns the number of registers that are 0. One pass if they were read from an image, merged or set, otherwise
    /// none; allocates nothing.
    pub fn num_zeros(&self) -> u32
        ensures { result ≡ zeros self.now.registers }
    {
        match self.zero_count {
            Some(count) => count,
            None => count_zeros(&self.registers) as u32,
        }
    }

    /// Returns the sum of 2^-v over the registers v, in units of 2^-63. One pass; allocates nothing.
    pub fn kxq_units(&self) -> u128
        ensures units { result ≡ packed.units self.now.registers }
        ensures bound { result ≤ 2 ^ 84 }
    {
        units(&self.registers)
    }

    /// Returns the estimate state.
    pub fn estimate_state(&self) -> EstimateState
        ensures { result ≡ self.now.state }
    {
        self.state
    }

    /// Sets the estimate state. The registers don't change.
    pub fn restore_estimate_state(&mut self, state: EstimateState)
        ensures { self.new ≡ record self.old { state = state } }
    {
        self.state = state;
    }

    /// Returns the allocator of the registers.
    pub fn allocator(&self) -> &A {
        self.registers.allocator()
    }

    /// Returns a copy allocated by `alloc`.
    ///
    /// Fails with `Memory` if an allocation fails.
    pub fn clone_in(&self, alloc: A) -> Result<Array8<A>, Error>
        ensures ok { IfOk result (λ a. a ≡ self.now) }
        ensures err { IfErr result (λ e. e ≡ Memory) }
    {
        Ok(Array8 {
            lg_config_k: self.lg_config_k,
            registers: Vec::from_slice(alloc, &self.registers)?,
            zero_count: self.zero_count,
            state: self.state,
        })
    }
}

impl<A: Allocator + Clone> Array8<A> {
    /// Returns a copy.
    ///
    /// Fails with `Memory` if an allocation fails.
    pub fn clone(&self) -> Result<Array8<A>, Error>
        ensures ok { IfOk result (λ a. a ≡ self.now) }
        ensures err { IfErr result (λ e. e ≡ Memory) }
    {
        self.clone_in(self.allocator().clone()?)
    }

    /// Returns the image (docs/FORMAT.md, "What is written"): 40 bytes, and one for each register. Allocated in one
    /// request.
    ///
    /// `lg_config_k` is that of the registers. Fails with `Memory` if the allocation fails.
    pub fn serialize(&self, lg_config_k: u8) -> Result<Vec<u8, A>, Error>
        requires { lg_config_k ≡ self.now.lg_k }
        ensures ok { IfOk result (λ image. image.items ≡ hll8_bytes lg_config_k self.now.registers self.now.state) }
        ensures err { IfErr result (λ e. e ≡ Memory) }
    {
        eight_bit_image(
            self.allocator().clone()?,
            lg_config_k,
            &self.registers,
            self.num_zeros(),
            self.state,
        )
    }
}

impl<A: Allocator> Registers for Array8<A> {
    ghost stored = { λ a. a };

    fn lg_k(&self) -> u8 {
        Array8::lg_k(self)
    }

    fn num_registers(&self) -> usize {
        Array8::num_registers(self)
    }

    fn get(&self, slot: u32) -> u8 {
        Array8::get(self, slot)
    }

    fn estimate_state(&self) -> EstimateState {
        Array8::estimate_state(self)
    }

    /// One pass.
    fn weight_sums(&self) -> WeightSums {
        weight_sums(&self.registers)
    }

    /// One pass.
    fn max_into(&self, first: u32, values: &mut [u8]) {
        let first = first as usize;
        max_into(values, &self.registers[first..first + values.len()]);
    }
}

impl<A: Allocator + Clone> RegisterStore<A> for Array8<A> {
    ghost use Rattle.std.specs.Prelude.{true};
    ghost use Rattle.hll_base.specs.declared.hll_type.HllType.TheVariants.{Hll8};
    ghost use Rattle.hll_arrays.specs.Same.{same_stored-from, same_stored-to};

    const WIDTH: HllType = HllType::Hll8;

    ghost WIDTH = { Hll8 };

    const NEVER_REFUSES: bool = true;

    ghost NEVER_REFUSES = { true };

    fn make(alloc: A, lg_k: u8) -> Result<Array8<A>, Error> {
        Array8::new(alloc, lg_k)
    }

    fn put_coupon(&mut self, coupon: Coupon) -> Result<(), Error> {
        self.update(coupon);
        Ok(())
    }

    fn restore(&mut self, state: EstimateState) {
        self.restore_estimate_state(state);
    }

    fn write_image(&self) -> Result<Vec<u8, A>, Error> {
        self.serialize(self.lg_config_k)
    }

    /// Copies the values, and counts the zeros.
    fn from_values(alloc: A, lg_k: u8, values: &[u8]) -> Result<Array8<A>, Error> {
        Ok(Array8 {
            lg_config_k: lg_k,
            registers: Vec::from_slice(alloc, values)?,
            zero_count: Some(count_zeros(values) as u32),
            state: EstimateState::CLEARED,
        })
    }

    ghost equal = { λ x y. (same_stored-from x y, same_stored-to x y) };
}

/// Two arrays are equal if their `lg_k`, registers and states are equal.
impl<A: Allocator> PartialEq for Array8<A> {
    ghost use Rattle.hll_arrays.specs.Same.{same_stored, same_stored-partial};

    ghost eq = { same_stored };

    ghost laws = { same_stored-partial };

    fn eq(&self, other: &Array8<A>) -> bool {
        self.lg_config_k == other.lg_config_k
            && self.registers.as_slice() == other.registers.as_slice()
            && self.state == other.state
    }
}

impl<A: Allocator> Eq for Array8<A> {
    ghost use Rattle.hll_arrays.specs.Same.{same_stored-equivalence};

    ghost laws = { same_stored-equivalence };
}

/// Returns the registers in the part of an image of 8-bit registers after the header, borrowed, with their state
/// (docs/FORMAT.md, "HLL"). The zero count is checked against its bound, but not used.
///
/// `lg_config_k` is 4 to 21. Fails with `Truncated`, `Count` or `Register`. One pass, which also counts what a later `Use` needs;
/// allocates nothing.
pub fn read_registers(
    cursor: SketchSlice<'_>,
    lg_config_k: u8,
    ooo: bool,
    later: Use,
) -> Result<RegisterSlice<'_>, Error>
    requires least { 4 ≤ lg_config_k }
    requires most { lg_config_k ≤ 21 }
    ensures ok { IfOk result (λ r. IsHll8Payload lg_config_k (take (32 + 2 ^ lg_config_k) cursor.entry)
        × (r ≡ record { lg_k = lg_config_k; registers = take (2 ^ lg_config_k) (drop 32 cursor.entry); state = state_at ooo cursor.entry })) }
    ensures err { IfErr result (λ e. Hll8Fault lg_config_k cursor.entry e) }
    ensures order { IfErr result (λ e. FirstHll8Fault lg_config_k cursor.entry e) }
{
    let (bytes, state) = read_register_bytes(cursor, lg_config_k, ooo)?;
    let zero_count = checked_zeros(bytes, later)?;
    Ok(
        RegisterSlice::new(lg_config_k, bytes)
            .with_zero_count(zero_count)
            .with_state(state),
    )
}

/// Checks that each byte is at most 63, and returns the number of zeros if a later `Use` needs it. One pass.
///
/// Fails with `Register`.
fn checked_zeros(bytes: &[u8], later: Use) -> Result<Option<u32>, Error>
    requires few { length bytes.now ≤ 2 ^ 21 }
    ensures small { OnOk result (list_all (λ v. nat_le v 63) bytes.now ≡ true) }
    ensures zeros { IfOk result (λ found. IfSome found (λ n. n ≡ zeros bytes.now)) }
    ensures err { IfErr result (λ e. (e ≡ Register) × (list_all (λ v. nat_le v 63) bytes.now ≡ false)) }
{
    match later {
        Use::Join => {
            if are_registers(bytes) {
                return Ok(None);
            }
        }
        Use::Count | Use::Copy => {
            let (zeros, greatest) = zeros_and_greatest(bytes);
            if greatest <= MAX_VALUE {
                return Ok(Some(zeros as u32));
            }
        }
    }
    Err(Error::new(Reason::Register))
}

/// Returns the bytes of the registers in the part of an image of 8-bit registers after the header, and their state, as
/// `read_registers` does, but does not check that each byte is at most 63. Reads 32 bytes; allocates nothing.
///
/// `lg_config_k` is 4 to 21. Fails with `Truncated` or `Count`.
pub fn read_register_bytes(
    cursor: SketchSlice<'_>,
    lg_config_k: u8,
    ooo: bool,
) -> Result<(&[u8], EstimateState), Error>
    requires { lg_config_k ≤ 21 }
    ensures ok { IfOk result (λ r. HasPlainCounts lg_config_k cursor.entry × (32 + 2 ^ lg_config_k ≤ length cursor.entry)
        × (r.0.now ≡ take (2 ^ lg_config_k) (drop 32 cursor.entry)) × (r.1 ≡ state_at ooo cursor.entry)) }
    ensures legal { IfOk result (λ r. IsState r.1) }
    ensures err { IfErr result (λ e. Hll8Fault lg_config_k cursor.entry e) }
    ensures order { IfErr result (λ e. FirstHll8Fault lg_config_k cursor.entry e) }
{
    let size = two_to(lg_config_k);
    let (preamble, rest) = Preamble::read(cursor, ooo)?;
    if preamble.num_at_cur_min as usize > size || preamble.exception_count != 0 {
        return Err(Error::new(Reason::Count));
    }
    let Some(registers) = rest.remaining().get(..size) else {
        return Err(Error::new(Reason::Truncated));
    };
    Ok((registers, preamble.state))
}

/// Returns whether each byte is at most 63. One pass.
fn are_registers(bytes: &[u8]) -> bool
    ensures { result ≡ list_all (λ v. nat_le v 63) bytes.now }
{
    greatest_of(bytes) <= MAX_VALUE
}
