// SPDX-License-Identifier: Apache-2.0
//! 6-bit registers: four of them in three bytes.
ghost use Rattle.std.specs.Prelude.{◌≡◌, ◌+◌, ◌^◌, ◌-◌, ◌<◌, ◌≤◌, ◌==◌, ◌⊎◌, take, drop, slice_index, IfOk, IfErr};
ghost use Rattle.std.specs.List.{list_all};
ghost use Rattle.hll_base.specs.declared.error.Reason.TheVariants.{Memory};
ghost use Rattle.hll_base.specs.declared.hll_type.HllType.TheVariants.{Hll6};
ghost use Rattle.hll_kernels.specs.Groups.{registers_in, AreGroups};
ghost use Rattle.hll_kernels.specs.Packed.{fields, zeros, units};
ghost use Rattle.hll_registers.specs.Store.{size_in_registers};
ghost use Rattle.hll_registers.specs.Payload.{field_size, state_at, IsHll6Payload, FirstHll6Fault, Hll6Fault, hll6_bytes};
ghost use Rattle.hll_registers.specs.State.{IsState};
ghost use Rattle.hll_registers.specs.Store.{zero_registers, update_with_coupon, IsStored};

use hll_base::cursor::SketchSlice;
use hll_base::error::{Error, Reason};
use hll_base::hll_type::HllType;
use hll_coupons::coupon::Coupon;
use hll_coupons::serialization::HLL_PREAMBLE_SIZE;
use hll_kernels::groups::{
    all_zero_in, count_zeros_in, groups_in, max_groups_into, pack_groups, put_register,
    register_at, weight_sums_in,
};
use hll_kernels::kernels::{WeightSums, count_zeros};
use hll_registers::estimate_state::EstimateState;
use hll_registers::plain_images::six_bit_image;
use hll_registers::preamble::Preamble;
use hll_registers::register_store::RegisterStore;
use hll_registers::registers::{Registers, two_to, units_of, zeros_left};
use std::alloc::{Allocator, Global};
use std::marker::Model;

/// 2^`lg_k` registers of 0 to 63, four of them in three bytes, and their estimate state. Contracts see the `lg_k`, the
/// list of registers and the state.
#[derive_where(Debug)]
#[derive(Drop)]
pub struct Array6<A: Allocator = Global> {
    lg_config_k: u8,
    /// The number of registers that are 0, if it is known.
    zero_count: Option<u32>,
    groups: Vec<[u8; 3], A>,
    state: EstimateState,
}

impl<A: Allocator> Model for Array6<A> {
    ghost use Rattle.std.specs.Prelude.{◌≡◌, ◌≤◌, IfSome};
    ghost use Rattle.hll_kernels.specs.Groups.{registers_in, AreGroups};
    ghost use Rattle.hll_kernels.specs.Packed.{zeros};
    ghost use Rattle.hll_registers.specs.State.{IsState};
    ghost use Rattle.hll_registers.specs.Store.{Stored};

    ghost Value = { Stored };

    ghost view = { λ a. record { lg_k = a.lg_config_k; registers = registers_in a.groups.items; state = a.state } };

    ghost invariant = { λ a. (4 ≤ a.lg_config_k) × (a.lg_config_k ≤ 21) × AreGroups a.lg_config_k a.groups.items × IsState a.state × IfSome a.zero_count (λ n. n ≡ zeros (registers_in a.groups.items)) };
}

impl<A: Allocator> Array6<A> {
    /// Returns 2^`lg_config_k` registers of 0, with the cleared state.
    ///
    /// `lg_config_k` is 4 to 21. Fails with `Memory` if the allocation fails.
    pub fn new(alloc: A, lg_config_k: u8) -> Result<Array6<A>, Error>
        requires least { 4 ≤ lg_config_k }
        requires most { lg_config_k ≤ 21 }
        ensures ok { IfOk result (λ a. a ≡ zero_registers lg_config_k) }
        ensures err { IfErr result (λ e. e ≡ Memory) }
    {
        Ok(Array6 {
            lg_config_k,
            groups: vec![in alloc; [0; 3]; 1 << (lg_config_k - 2)]?,
            zero_count: Some(two_to(lg_config_k) as u32),
            state: EstimateState::CLEARED,
        })
    }

    /// Reads the part of an image of 6-bit registers after the header (docs/FORMAT.md, "HLL"). The zero count is
    /// checked against its bound, but not used. The last byte has to be there, and may have any value.
    ///
    /// `lg_config_k` is 4 to 21. Fails with `Truncated`, `Count` or `Memory`. Allocates the registers only after
    /// checking the bytes, and copies them once.
    pub fn deserialize_registers(
        alloc: A,
        cursor: SketchSlice<'_>,
        lg_config_k: u8,
        ooo: bool,
    ) -> Result<Array6<A>, Error>
        requires least { 4 ≤ lg_config_k }
        requires most { lg_config_k ≤ 21 }
        ensures ok { IfOk result (λ a. IsHll6Payload lg_config_k (take (32 + field_size lg_config_k) cursor.entry)
            × (a ≡ record { lg_k = lg_config_k; registers = fields (take (field_size lg_config_k) (drop 32 cursor.entry)); state = state_at ooo cursor.entry })) }
        ensures err { IfErr result (λ e. (e ≡ Memory) ⊎ Hll6Fault lg_config_k cursor.entry e) }
        ensures order { IfErr result (λ e. (e ≡ Memory) ⊎ FirstHll6Fault lg_config_k cursor.entry e) }
        ensures asked { IfErr result (λ e. e ≡ Memory → IsHll6Payload lg_config_k (take (32 + field_size lg_config_k) cursor.entry)) }
    {
        let (groups, state) = read_groups(cursor, lg_config_k, ooo)?;
        // (not the header's count: zeros are counted when a caller asks for them)
        let zero_count = None;
        Ok(Array6 {
            lg_config_k,
            groups: Vec::from_slice(alloc, groups)?,
            zero_count,
            state,
        })
    }

    /// Returns the `lg_k`, 4 to 21.
    pub fn lg_k(&self) -> u8
        ensures lg_k { result ≡ self.now.lg_k }
        ensures legal { IsStored self.now }
    {
        self.lg_config_k
    }

    /// Returns the number of registers: 2^`lg_k`.
    pub fn num_registers(&self) -> usize
        ensures { result ≡ 2 ^ self.now.lg_k }
    {
        two_to(self.lg_config_k)
    }

    /// Returns the register of a slot below 2^`lg_k`.
    pub fn get(&self, slot: u32) -> u8
        requires { slot < 2 ^ self.now.lg_k }
        ensures { result ≡ slice_index self.now.registers slot }
    {
        register_at(&self.groups, slot as usize)
    }

    /// Sets the register at the coupon's slot modulo 2^`lg_k` to the maximum of itself and the coupon's value. If it
    /// changes, the state is cleared.
    pub fn update(&mut self, coupon: Coupon)
        ensures { self.new ≡ update_with_coupon self.old coupon }
    {
        let slot = coupon.slot() as usize % two_to(self.lg_config_k);
        let register = register_at(&self.groups, slot);
        if register < coupon.value() {
            self.zero_count = zeros_left(self.zero_count, register);
            put_register(&mut self.groups, slot, coupon.value());
            self.state = EstimateState::CLEARED;
        }
    }

    /// Returns whether all registers are 0. Stops at the first group with another register; allocates nothing.
    pub fn is_empty(&self) -> bool
        ensures empty { result ≡ list_all (λ v. v == 0) self.now.registers }
    {
        all_zero_in(&self.groups)
    }

    /// Returns the number of registers that are 0. One pass if they were read from an image, otherwise none; allocates
    /// nothing.
    pub fn num_zeros(&self) -> u32
        ensures { result ≡ zeros self.now.registers }
    {
        match self.zero_count {
            Some(count) => count,
            None => count_zeros_in(&self.groups) as u32,
        }
    }

    /// Returns the sum of 2^-v over the registers v, in units of 2^-63. One pass; allocates nothing.
    pub fn kxq_units(&self) -> u128
        ensures units { result ≡ units self.now.registers }
        ensures bound { result ≤ 2 ^ 84 }
    {
        units_of(self)
    }

    /// Returns the estimate state.
    pub fn estimate_state(&self) -> EstimateState
        ensures { result ≡ self.now.state }
    {
        self.state
    }

    /// Sets the estimate state. The registers don't change.
    pub fn restore_estimate_state(&mut self, state: EstimateState)
        ensures { self.new ≡ record self.old { state = state } }
    {
        self.state = state;
    }

    /// Returns the size of the registers in an image, in bytes.
    pub fn estimated_size(&self) -> usize
        ensures { result ≡ size_in_registers self.now.lg_k Hll6 self.now.registers }
    {
        packed_size(self.lg_config_k)
    }

    /// Returns the allocator of the registers.
    pub fn allocator(&self) -> &A {
        self.groups.allocator()
    }
}

impl<A: Allocator + Clone> Array6<A> {
    /// Returns a copy.
    ///
    /// Fails with `Memory` if an allocation fails.
    pub fn clone(&self) -> Result<Array6<A>, Error>
        ensures ok { IfOk result (λ a. a ≡ self.now) }
        ensures err { IfErr result (λ e. e ≡ Memory) }
    {
        Ok(Array6 {
            lg_config_k: self.lg_config_k,
            groups: Vec::from_slice(self.groups.allocator().clone()?, &self.groups)?,
            zero_count: self.zero_count,
            state: self.state,
        })
    }

    /// Returns the image (docs/FORMAT.md, "What is written"): 40 bytes, three for each four registers, and a zero byte.
    /// Allocated in one request.
    ///
    /// `lg_config_k` is that of the registers. Fails with `Memory` if the allocation fails.
    pub fn serialize(&self, lg_config_k: u8) -> Result<Vec<u8, A>, Error>
        requires { lg_config_k ≡ self.now.lg_k }
        ensures ok { IfOk result (λ image. image.items ≡ hll6_bytes lg_config_k self.now.registers self.now.state) }
        ensures err { IfErr result (λ e. e ≡ Memory) }
    {
        six_bit_image(
            self.allocator().clone()?,
            lg_config_k,
            &self.groups,
            self.num_zeros(),
            self.state,
        )
    }
}

impl<A: Allocator> Registers for Array6<A> {
    ghost stored = { λ a. a };

    fn lg_k(&self) -> u8 {
        Array6::lg_k(self)
    }

    fn num_registers(&self) -> usize {
        Array6::num_registers(self)
    }

    fn get(&self, slot: u32) -> u8 {
        Array6::get(self, slot)
    }

    fn estimate_state(&self) -> EstimateState {
        Array6::estimate_state(self)
    }

    /// One pass.
    fn weight_sums(&self) -> WeightSums {
        weight_sums_in(&self.groups)
    }

    /// One pass, by groups.
    fn max_into(&self, first: u32, values: &mut [u8]) {
        let first = first as usize / 4;
        let end = first + values.len() / 4;
        let groups = &self.groups[first..end];
        max_groups_into(values, groups);
    }
}

impl<A: Allocator + Clone> RegisterStore<A> for Array6<A> {
    ghost use Rattle.std.specs.Prelude.{true};
    ghost use Rattle.hll_base.specs.declared.hll_type.HllType.TheVariants.{Hll6};
    ghost use Rattle.hll_arrays.specs.Same.{same_stored-from, same_stored-to};

    const WIDTH: HllType = HllType::Hll6;

    ghost WIDTH = { Hll6 };

    const NEVER_REFUSES: bool = true;

    ghost NEVER_REFUSES = { true };

    fn make(alloc: A, lg_k: u8) -> Result<Array6<A>, Error> {
        Array6::new(alloc, lg_k)
    }

    fn put_coupon(&mut self, coupon: Coupon) -> Result<(), Error> {
        self.update(coupon);
        Ok(())
    }

    fn restore(&mut self, state: EstimateState) {
        self.restore_estimate_state(state);
    }

    fn write_image(&self) -> Result<Vec<u8, A>, Error> {
        self.serialize(self.lg_config_k)
    }

    /// One pass by groups, and one that counts the zeros.
    fn from_values(alloc: A, lg_k: u8, values: &[u8]) -> Result<Array6<A>, Error> {
        Ok(Array6 {
            lg_config_k: lg_k,
            groups: pack_groups(alloc, values)?,
            zero_count: Some(count_zeros(values) as u32),
            state: EstimateState::CLEARED,
        })
    }

    ghost equal = { λ x y. (same_stored-from x y, same_stored-to x y) };
}

/// Two arrays are equal if their `lg_k`, registers and states are equal.
impl<A: Allocator> PartialEq for Array6<A> {
    ghost use Rattle.hll_arrays.specs.Same.{same_stored, same_stored-partial};

    ghost eq = { same_stored };

    ghost laws = { same_stored-partial };

    fn eq(&self, other: &Array6<A>) -> bool {
        self.lg_config_k == other.lg_config_k
            && self.groups.as_slice() == other.groups.as_slice()
            && self.state == other.state
    }
}

impl<A: Allocator> Eq for Array6<A> {
    ghost use Rattle.hll_arrays.specs.Same.{same_stored-equivalence};

    ghost laws = { same_stored-equivalence };
}

/// Returns the registers in the part of an image of 6-bit registers after the header, borrowed in groups of four, and
/// their state (docs/FORMAT.md, "HLL"). The zero count is checked against its bound, but not used. The last byte has to
/// be there, and may have any value.
///
/// `lg_config_k` is 4 to 21. Fails with `Truncated` or `Count`.
pub fn read_groups(
    cursor: SketchSlice<'_>,
    lg_config_k: u8,
    ooo: bool,
) -> Result<(&[[u8; 3]], EstimateState), Error>
    requires least { 4 ≤ lg_config_k }
    requires most { lg_config_k ≤ 21 }
    ensures ok { IfOk result (λ r. IsHll6Payload lg_config_k (take (32 + field_size lg_config_k) cursor.entry)
        × (registers_in r.0.now ≡ fields (take (field_size lg_config_k) (drop 32 cursor.entry))) × (r.1 ≡ state_at ooo cursor.entry)) }
    ensures legal { IfOk result (λ r. AreGroups lg_config_k r.0.now × IsState r.1) }
    ensures err { IfErr result (λ e. Hll6Fault lg_config_k cursor.entry e) }
    ensures order { IfErr result (λ e. FirstHll6Fault lg_config_k cursor.entry e) }
{
    let size = two_to(lg_config_k);
    let (preamble, rest) = Preamble::read(cursor, ooo)?;
    if preamble.num_at_cur_min as usize > size || preamble.exception_count != 0 {
        return Err(Error::new(Reason::Count));
    }
    let Some(packed) = rest.remaining().get(..packed_size(lg_config_k)) else {
        return Err(Error::new(Reason::Truncated));
    };
    Ok((groups_in(packed), preamble.state))
}

/// Returns the size of 2^`lg_k` registers in an image, in bytes.
fn packed_size(lg_k: u8) -> usize
    requires { lg_k ≤ 21 }
    ensures { result ≡ field_size lg_k }
{
    3 * two_to(lg_k) / 4 + 1
}
