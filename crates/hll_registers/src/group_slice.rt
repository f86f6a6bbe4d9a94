// SPDX-License-Identifier: Apache-2.0
//! A slice of groups of three bytes as 6-bit registers.
ghost use Rattle.std.specs.Prelude.{◌≡◌, ◌^◌, ◌<◌, ◌≤◌, ◌==◌, ◌↔◌, IsTrue, slice_set};
ghost use Rattle.std.specs.List.{list_all};
ghost use Rattle.hll_kernels.specs.Groups.{registers_in, AreGroups};
ghost use Rattle.hll_kernels.specs.Packed.{zeros};
ghost use Rattle.hll_kernels.specs.WeightSums.{AreSumsOf};
ghost use Rattle.hll_registers.specs.EstimatorFields.{AreEstimatorFields};
ghost use Rattle.hll_registers.specs.Payload.{hll6_bytes};
ghost use Rattle.hll_registers.specs.State.{cleared_state, IsState};

use crate::estimate_state::EstimateState;
use crate::image_parts::ImageParts;
use crate::registers::{Registers, two_to};
use hll_kernels::groups::{
    all_zero_in, count_zeros_in, max_groups_into, register_at, weight_sums_in, zeros_and_sums_in,
};
use hll_kernels::kernels::WeightSums;
use std::marker::Model;

/// 2^`lg_k` borrowed registers, four of them in three bytes, with their estimate state.
#[derive(Debug, Drop)]
pub struct GroupSlice<'a> {
    lg_k: u8,
    groups: &'a [[u8; 3]],
    state: EstimateState,
}

impl<'a> Model for GroupSlice<'a> {
    ghost use Rattle.std.specs.Prelude.{◌≤◌};
    ghost use Rattle.hll_kernels.specs.Groups.{registers_in, AreGroups};
    ghost use Rattle.hll_registers.specs.State.{IsState};
    ghost use Rattle.hll_registers.specs.Store.{Stored};

    ghost Value = { Stored };

    ghost view = { λ l. record { lg_k = l.lg_k; registers = registers_in l.groups.now; state = l.state } };

    ghost invariant = { λ l. (4 ≤ l.lg_k) × (l.lg_k ≤ 21) × AreGroups l.lg_k l.groups.now × IsState l.state };
}

impl<'a> GroupSlice<'a> {
    /// Returns the 2^`lg_k` registers in `groups`, with the cleared state. `lg_k` is 4 to 21.
    pub fn new(lg_k: u8, groups: &'a [[u8; 3]]) -> GroupSlice<'a>
        requires least { 4 ≤ lg_k }
        requires most { lg_k ≤ 21 }
        requires groups { AreGroups lg_k groups.now }
        ensures { result ≡ record { lg_k = lg_k; registers = registers_in groups.now; state = cleared_state } }
    {
        GroupSlice {
            lg_k,
            groups,
            state: EstimateState::CLEARED,
        }
    }

    /// Returns these registers with another state.
    pub fn with_state(self, state: EstimateState) -> GroupSlice<'a>
        requires { IsState state }
        ensures { result ≡ record self.entry { state = state } }
    {
        GroupSlice { state, ..self }
    }

    /// Returns the image of these registers with another state (docs/FORMAT.md, "What is written"), in parts. One pass that
    /// counts zeros.
    pub fn image_parts(&self, state: EstimateState) -> ImageParts<'a>
        ensures { result ≡ hll6_bytes self.now.lg_k self.now.registers state }
    {
        ImageParts::of_groups(self.lg_k, self.groups, self.num_zeros(), state)
    }

    /// Returns the image of these registers with the register of a slot raised to a value, and its estimator fields set, in parts.
    /// One pass that counts zeros and sums weights.
    ///
    /// `slot` is below 2^`lg_k`, and `value` is 1 to 63.
    pub fn raised_parts(&self, slot: usize, value: u8) -> ImageParts<'a>
        requires slot { slot < 2 ^ self.now.lg_k }
        requires least { 1 ≤ value }
        requires most { value ≤ 63 }
        ensures { (state : EstimateState) × AreEstimatorFields (slice_set self.now.registers slot value) state × (result ≡ hll6_bytes self.now.lg_k (slice_set self.now.registers slot value) state) }
    {
        let old = register_at(self.groups, slot);
        let (zeros, sums) = self.zeros_and_sums();
        let zeros = zeros - u32::from(old == 0);
        let state = EstimateState::of_sums(sums.replaced(old, value));
        ImageParts::replacing_field(self.lg_k, self.groups, slot, value, zeros, state)
    }

    /// Returns the number of registers that are 0, and the sums of 2^-v over the registers v. One pass.
    pub fn zeros_and_sums(&self) -> (u32, WeightSums)
        ensures zeros { result.0 ≡ zeros self.now.registers }
        ensures sums { AreSumsOf result.1 self.now.registers }
    {
        let (zeros, sums) = zeros_and_sums_in(self.groups);
        (zeros as u32, sums)
    }

    /// Returns the number of registers that are 0. One pass.
    pub fn num_zeros(&self) -> u32
        ensures { result ≡ zeros self.now.registers }
    {
        count_zeros_in(self.groups) as u32
    }

    /// Returns whether all registers are 0.
    pub fn are_all_zero(&self) -> bool
        ensures { result ≡ list_all (λ v. v == 0) self.now.registers }
    {
        all_zero_in(self.groups)
    }

    /// Returns whether the registers are the same as those of `other`. One pass over the groups.
    pub fn has_same_registers(&self, other: &GroupSlice<'_>) -> bool
        ensures { IsTrue result ↔ (self.now.registers ≡ other.now.registers) }
    {
        self.groups.as_flattened() == other.groups.as_flattened()
    }
}

impl<'a> Registers for GroupSlice<'a> {
    ghost stored = { λ l. l };

    fn lg_k(&self) -> u8 {
        self.lg_k
    }

    fn num_registers(&self) -> usize {
        two_to(self.lg_k)
    }

    fn get(&self, slot: u32) -> u8 {
        register_at(self.groups, slot as usize)
    }

    fn estimate_state(&self) -> EstimateState {
        self.state
    }

    /// One pass.
    fn weight_sums(&self) -> WeightSums {
        weight_sums_in(self.groups)
    }

    /// One pass, by groups.
    fn max_into(&self, first: u32, values: &mut [u8]) {
        let first = first as usize / 4;
        let end = first + values.len() / 4;
        max_groups_into(values, &self.groups[first..end]);
    }
}
