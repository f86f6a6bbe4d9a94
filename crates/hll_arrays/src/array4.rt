// SPDX-License-Identifier: Apache-2.0
//! 4-bit registers: nibbles above a minimum, and a map of exceptions (docs/MODEL.md, "4-bit registers").
ghost use Rattle.std.specs.Prelude.{◌≡◌, ◌≢◌, ◌+◌, ◌^◌, ◌<◌, ◌≤◌, ◌==◌, ◌⊎◌, take, nat_eq, slice_index, IfOk, IfErr, OnOk, OnErr, None};
ghost use Rattle.std.specs.List.{list_all};
ghost use Rattle.std.specs.Cmp.Lexicographic.{pointwise};
ghost use Rattle.hll_base.specs.declared.error.Reason.TheVariants.{Memory};
ghost use Rattle.hll_base.specs.declared.hll_type.HllType.TheVariants.{Hll4};
ghost use Rattle.hll_kernels.specs.Packed.{minimum, count_at_minimum, nibble, units, zeros};
ghost use Rattle.hll_registers.specs.FourBits.{exception_of, ExceptionsMove};
ghost use Rattle.hll_registers.specs.Payload.{exception_count, shape_of_hll4, hll4_size, registers_of, state_at, FirstHll4Fault, Hll4Fault, IsHll4Payload, IsWhole, WritesRegisters};
ghost use Rattle.hll_registers.specs.Store.{size_in_registers, zero_registers, update_with_coupon, IsStored};

use crate::four_bit_payload::{Hll4Header, read_payload, read_slice};
use hll_base::cursor::SketchSlice;
use hll_base::error::Error;
use hll_base::hll_type::HllType;
use hll_coupons::coupon::Coupon;
use hll_coupons::serialization::{COMPACT_FLAG_MASK, COUPON_SIZE_BYTES, HLL_PREAMBLE_SIZE};
use hll_kernels::kernels::WeightSums;
use hll_registers::aux_format::AuxFormat;
use hll_registers::estimate_state::EstimateState;
use hll_registers::nibble_registers::NibbleRegisters;
use hll_registers::nibble_slice::NibbleSlice;
use hll_registers::preamble::{HllHeader, Preamble};
use hll_registers::register_store::RegisterStore;
use hll_registers::registers::{Registers, Use, two_to, units_of};
use std::alloc::{Allocator, Global};
use std::marker::Model;

/// 2^`lg_k` registers of 0 to 63, two in a byte, and their estimate state. A nibble is the height of the register above
/// the least register. Registers 15 or more above it are in a map. Contracts see the `lg_k`, the list of registers, the
/// state, and the buckets of the map.
#[derive_where(Debug)]
#[derive(Drop)]
pub struct Array4<A: Allocator = Global> {
    registers: NibbleRegisters<A>,
    state: EstimateState,
}

impl<A: Allocator> Model for Array4<A> {
    ghost use Rattle.hll_registers.specs.FourBits.{FourBits};
    ghost use Rattle.hll_registers.specs.State.{IsState};

    ghost Value = { FourBits };

    ghost view = { λ a. record { stored = record { lg_k = a.registers.lg_k; registers = a.registers.registers; state = a.state }; exceptions = a.registers.exceptions } };

    ghost invariant = { λ a. IsState a.state };
}

impl<A: Allocator> Array4<A> {
    /// Returns 2^`lg_config_k` registers of 0, with the cleared state.
    ///
    /// `lg_config_k` is 4 to 21. Fails with `Memory` if the allocation fails.
    pub fn new(alloc: A, lg_config_k: u8) -> Result<Array4<A>, Error>
        requires least { 4 ≤ lg_config_k }
        requires most { lg_config_k ≤ 21 }
        ensures ok { IfOk result (λ a. a ≡ record { stored = zero_registers lg_config_k; exceptions = None }) }
        ensures err { IfErr result (λ e. e ≡ Memory) }
    {
        Ok(Array4 {
            registers: NibbleRegisters::new(alloc, lg_config_k)?,
            state: EstimateState::CLEARED,
        })
    }

    /// Returns the `lg_k`, 4 to 21.
    pub fn lg_k(&self) -> u8
        ensures lg_k { result ≡ self.now.stored.lg_k }
        ensures legal { IsStored self.now.stored }
    {
        self.registers.lg_k()
    }

    /// Returns the number of registers: 2^`lg_k`.
    pub fn num_registers(&self) -> usize
        ensures { result ≡ 2 ^ self.now.stored.lg_k }
    {
        two_to(self.registers.lg_k())
    }

    /// Returns the least register.
    pub fn cur_min(&self) -> u8
        ensures { result ≡ minimum self.now.stored.registers }
    {
        self.registers.minimum()
    }

    /// Returns the number of registers that are equal to the least register.
    pub fn num_at_cur_min(&self) -> u32
        ensures { result ≡ count_at_minimum self.now.stored.registers }
    {
        self.registers.count_at_minimum()
    }

    /// Returns the nibble of a slot below 2^`lg_k`.
    pub fn nibble(&self, slot: u32) -> u8
        requires { slot < 2 ^ self.now.stored.lg_k }
        ensures { result ≡ nibble (minimum self.now.stored.registers) (slice_index self.now.stored.registers slot) }
    {
        self.registers.nibble(slot)
    }

    /// Returns the exception of a slot below 2^`lg_k`, or `None` if it has none.
    pub fn exception(&self, slot: u32) -> Option<u8>
        requires { slot < 2 ^ self.now.stored.lg_k }
        ensures { result ≡ exception_of (minimum self.now.stored.registers) (slice_index self.now.stored.registers slot) }
    {
        self.registers.exception(slot)
    }

    /// Returns the register of a slot below 2^`lg_k`.
    pub fn get(&self, slot: u32) -> u8
        requires { slot < 2 ^ self.now.stored.lg_k }
        ensures register { result ≡ slice_index self.now.stored.registers slot }
        ensures small { result ≤ 63 }
    {
        self.registers.get(slot)
    }

    /// Returns whether all registers are 0.
    pub fn is_empty(&self) -> bool
        ensures { result ≡ list_all (λ v. v == 0) self.now.stored.registers }
    {
        self.num_zeros() as usize == two_to(self.lg_k())
    }

    /// Returns the number of registers that are 0.
    pub fn num_zeros(&self) -> u32
        ensures { result ≡ zeros self.now.stored.registers }
    {
        self.registers.num_zeros()
    }

    /// Returns the sum of 2^-v over the registers v, in units of 2^-63. One pass, and a search for each exception;
    /// allocates nothing.
    pub fn kxq_units(&self) -> u128
        ensures units { result ≡ units self.now.stored.registers }
        ensures bound { result ≤ 2 ^ 84 }
    {
        units_of(self)
    }

    /// Returns the estimate state.
    pub fn estimate_state(&self) -> EstimateState
        ensures { result ≡ self.now.stored.state }
    {
        self.state
    }

    /// Sets the estimate state. The registers don't change.
    pub fn restore_estimate_state(&mut self, state: EstimateState)
        ensures { self.new ≡ record { stored = record self.old.stored { state = state }; exceptions = self.old.exceptions } }
    {
        self.state = state;
    }

    /// Returns the size of the registers in bytes: 2^(`lg_k` - 1), and the buckets of the map if there are exceptions.
    /// Allocates nothing.
    pub fn estimated_size(&self) -> usize
        ensures { result ≡ size_in_registers self.now.stored.lg_k Hll4 self.now.stored.registers }
    {
        self.registers.estimated_size()
    }

    /// Returns the header of the image, without the state.
    fn header(&self, lg_config_k: u8) -> HllHeader
        ensures { result ≡ record { lg_config_k = lg_config_k; hll_type = Hll4; flags = 8; minimum = minimum self.now.stored.registers } }
    {
        HllHeader {
            lg_config_k,
            hll_type: HllType::Hll4,
            flags: COMPACT_FLAG_MASK,
            minimum: self.cur_min(),
        }
    }

    /// Returns the allocator of the registers.
    pub fn allocator(&self) -> &A {
        self.registers.allocator()
    }
}

impl<A: Allocator + Clone> Array4<A> {
    /// Reads the part of an image of 4-bit registers after the header (docs/FORMAT.md, "HLL"). `cur_min` is the state
    /// byte, which may be below the least register, and `aux_format` gives how the exceptions are stored. The count of
    /// registers at the minimum is checked against its bound, but not used.
    ///
    /// `lg_config_k` is 4 to 21. Fails with the reason of the first check that fails (`Count`, `LgArr`, `Truncated`,
    /// `Coupon` or `Register`), and with `Memory` if an allocation fails. Allocates only after checking that the bytes
    /// are there: the map of exceptions as it grows, then the nibbles in one request. If the minimum is below the least
    /// register, it allocates a byte for each register, and then nibbles and a new map.
    pub fn deserialize(
        alloc: A,
        cursor: SketchSlice<'_>,
        cur_min: u8,
        lg_config_k: u8,
        aux_format: AuxFormat,
        ooo: bool,
    ) -> Result<Array4<A>, Error>
        requires least { 4 ≤ lg_config_k }
        requires most { lg_config_k ≤ 21 }
        ensures ok { let h = shape_of_hll4 lg_config_k cur_min aux_format in
            IfOk result (λ a. IsHll4Payload h (take (hll4_size h cursor.entry) cursor.entry)
            × (a.stored ≡ record { lg_k = lg_config_k; registers = registers_of h (take (hll4_size h cursor.entry) cursor.entry); state = state_at ooo cursor.entry })) }
        ensures whole { let h = shape_of_hll4 lg_config_k cur_min aux_format in
            OnOk result (IsWhole h cursor.entry) }
        ensures err { let h = shape_of_hll4 lg_config_k cur_min aux_format in
            IfErr result (λ e. (e ≡ Memory) ⊎ Hll4Fault h cursor.entry e) }
        ensures order { let h = shape_of_hll4 lg_config_k cur_min aux_format in
            IfErr result (λ e. (e ≡ Memory) ⊎ FirstHll4Fault h cursor.entry e) }
        ensures asked { let h = shape_of_hll4 lg_config_k cur_min aux_format in
            IfErr result (λ e. e ≡ Memory → IsWhole h cursor.entry) }
    {
        let header = Hll4Header {
            lg_config_k,
            cur_min,
            aux_format,
            ooo,
        };
        let (registers, state) = read_payload(alloc, cursor, header)?;
        Ok(Array4 { registers, state })
    }

    /// Returns a copy with the same buckets of the map.
    ///
    /// Fails with `Memory` if an allocation fails.
    pub fn clone(&self) -> Result<Array4<A>, Error>
        ensures ok { IfOk result (λ a. a ≡ self.now) }
        ensures err { IfErr result (λ e. e ≡ Memory) }
    {
        Ok(Array4 {
            registers: self.registers.clone()?,
            state: self.state,
        })
    }

    /// Returns the image (docs/FORMAT.md, "What is written"): 40 bytes, a byte for each two registers, and four bytes
    /// for each exception, by ascending raw coupon.
    ///
    /// `lg_config_k` is that of the registers. Allocates the image in one request, and a sorted copy of the exceptions
    /// if there are any. Fails with `Memory` if an allocation fails.
    pub fn serialize(&self, lg_config_k: u8) -> Result<Vec<u8, A>, Error>
        requires { lg_config_k ≡ self.now.stored.lg_k }
        ensures ok { IfOk result (λ image. WritesRegisters image.items lg_config_k Hll4 self.now.stored.registers self.now.stored.state) }
        ensures err { IfErr result (λ e. e ≡ Memory) }
    {
        let count = self.registers.exception_count();
        let preamble = Preamble {
            state: self.estimate_state(),
            num_at_cur_min: self.num_at_cur_min(),
            exception_count: count as u32,
        };
        let packed = two_to(self.registers.lg_k() - 1) + count * COUPON_SIZE_BYTES;
        let needed = HLL_PREAMBLE_SIZE + packed;
        let alloc = self.allocator().clone()?;
        let bytes = preamble.start_image(alloc, self.header(lg_config_k), needed)?;
        let written = self.registers.with_written(bytes)?;
        Ok(written.into_bytes())
    }

    /// Sets the register at the coupon's slot modulo 2^`lg_k` to the maximum of itself and the coupon's value. If it
    /// changes, the state is cleared.
    ///
    /// Fails with `Memory` if an allocation fails; then the registers are unchanged. That can happen only if the set of
    /// slots with an exception changes and isn't empty afterwards.
    pub fn update(&mut self, coupon: Coupon) -> Result<(), Error>
        ensures ok { OnOk result (self.new.stored ≡ update_with_coupon self.old.stored coupon) }
        ensures unchanged { OnErr result (self.new ≡ self.old) }
        ensures err { IfErr result (λ e. e ≡ Memory) }
        ensures needed { OnErr result (ExceptionsMove self.old.stored.lg_k self.old.stored.registers (update_with_coupon self.old.stored coupon).registers) }
    {
        let slot = coupon.slot() % two_to(self.registers.lg_k()) as u32;
        if coupon.value() <= self.registers.get(slot) {
            return Ok(());
        }
        self.registers.max_slot(slot, coupon.value())?;
        self.state = EstimateState::CLEARED;
        Ok(())
    }
}

impl<A: Allocator> Registers for Array4<A> {
    ghost stored = { λ a. a.stored };

    fn lg_k(&self) -> u8 {
        Array4::lg_k(self)
    }

    fn num_registers(&self) -> usize {
        Array4::num_registers(self)
    }

    fn get(&self, slot: u32) -> u8 {
        Array4::get(self, slot)
    }

    fn estimate_state(&self) -> EstimateState {
        Array4::estimate_state(self)
    }

    fn is_slow_in_small_blocks(&self) -> bool {
        self.registers.is_slow_in_small_blocks()
    }

    fn weight_sums_of_few(&self, first: usize, size: usize) -> WeightSums {
        self.registers.weight_sums_of_few(first, size)
    }

    /// One pass, and a search for each exception.
    fn max_into(&self, first: u32, values: &mut [u8]) {
        self.registers.max_into(first, values);
    }
}

impl<A: Allocator + Clone> RegisterStore<A> for Array4<A> {
    ghost use Rattle.std.specs.Prelude.{false};
    ghost use Rattle.hll_base.specs.declared.hll_type.HllType.TheVariants.{Hll4};
    ghost use Rattle.hll_arrays.specs.Same.{same_stored-from, same_stored-to};

    const WIDTH: HllType = HllType::Hll4;

    ghost WIDTH = { Hll4 };

    const NEVER_REFUSES: bool = false;

    ghost NEVER_REFUSES = { false };

    fn make(alloc: A, lg_k: u8) -> Result<Array4<A>, Error> {
        Array4::new(alloc, lg_k)
    }

    fn put_coupon(&mut self, coupon: Coupon) -> Result<(), Error> {
        self.update(coupon)
    }

    fn restore(&mut self, state: EstimateState) {
        self.restore_estimate_state(state);
    }

    fn write_image(&self) -> Result<Vec<u8, A>, Error> {
        self.serialize(self.registers.lg_k())
    }

    /// Two passes over the values, two over their nibbles, and an insertion for each exception.
    fn from_values(alloc: A, lg_k: u8, values: &[u8]) -> Result<Array4<A>, Error> {
        Ok(Array4 {
            registers: NibbleRegisters::from_values(alloc, lg_k, values)?,
            state: EstimateState::CLEARED,
        })
    }

    ghost equal = { λ x y. (same_stored-from x.stored y.stored, same_stored-to x.stored y.stored) };
}

/// Two arrays are equal if their `lg_k`, registers and states are equal. The buckets of the exceptions don't matter.
impl<A: Allocator> PartialEq for Array4<A> {
    ghost use Rattle.hll_arrays.specs.Same.{same_four_bits, same_four_bits-partial};

    ghost eq = { same_four_bits };

    ghost laws = { same_four_bits-partial };

    fn eq(&self, other: &Array4<A>) -> bool {
        self.lg_k() == other.lg_k()
            && self.registers.is_same(&other.registers)
            && self.state == other.state
    }
}

impl<A: Allocator> Eq for Array4<A> {
    ghost use Rattle.hll_arrays.specs.Same.{same_four_bits-equivalence};

    ghost laws = { same_four_bits-equivalence };
}

/// Returns the registers in the part of an image of 4-bit registers after the header, with their nibbles borrowed,
/// their state, and a map of their exceptions allocated by `alloc` (docs/FORMAT.md, "HLL"). `cur_min` is the state
/// byte, which may be below the least register, and `aux_format` gives how the exceptions are stored. The count of
/// registers at the minimum is checked against its bound, but not used.
///
/// `lg_config_k` is 4 to 21. Fails with the reason of the first check that fails (`Count`, `LgArr`, `Truncated`,
/// `Coupon` or `Register`), and with `Memory` if an allocation fails. Allocates only after checking that the bytes are
/// there: the map of exceptions as it grows, and nothing if there are no exceptions.
pub fn read_nibbles<'a, A: Allocator + Clone>(
    alloc: &A,
    cursor: SketchSlice<'a>,
    cur_min: u8,
    lg_config_k: u8,
    aux_format: AuxFormat,
    ooo: bool,
    later: Use,
) -> Result<NibbleSlice<'a, A>, Error>
    requires least { 4 ≤ lg_config_k }
    requires most { lg_config_k ≤ 21 }
    ensures ok { let h = shape_of_hll4 lg_config_k cur_min aux_format in
        IfOk result (λ r. IsHll4Payload h (take (hll4_size h cursor.entry) cursor.entry)
        × (r ≡ record { lg_k = lg_config_k; registers = registers_of h (take (hll4_size h cursor.entry) cursor.entry); state = state_at ooo cursor.entry })) }
    ensures err { let h = shape_of_hll4 lg_config_k cur_min aux_format in
        IfErr result (λ e. (e ≡ Memory) ⊎ Hll4Fault h cursor.entry e) }
    ensures order { let h = shape_of_hll4 lg_config_k cur_min aux_format in
        IfErr result (λ e. (e ≡ Memory) ⊎ FirstHll4Fault h cursor.entry e) }
    ensures asked { let h = shape_of_hll4 lg_config_k cur_min aux_format in
        IfErr result (λ e. e ≡ Memory → IsWhole h cursor.entry) }
    ensures needed { IfErr result (λ e. e ≡ Memory → exception_count cursor.entry ≢ 0) }
{
    let header = Hll4Header {
        lg_config_k,
        cur_min,
        aux_format,
        ooo,
    };
    read_slice(alloc, cursor, header, later)
}
