// SPDX-License-Identifier: Apache-2.0
//! A slice of bytes as registers.
ghost use Rattle.std.specs.Prelude.{◌≡◌, ◌^◌, ◌<◌, ◌≤◌, ◌==◌, ◌↔◌, IsTrue, IfSome, slice_set};
ghost use Rattle.std.specs.List.{list_all};
ghost use Rattle.hll_registers.specs.EstimatorFields.{AreEstimatorFields};
ghost use Rattle.hll_registers.specs.Payload.{hll8_bytes};
ghost use Rattle.hll_registers.specs.State.{cleared_state, IsState};
ghost use Rattle.hll_kernels.specs.Packed.{AreRegisters, zeros};

use crate::estimate_state::EstimateState;
use crate::image_parts::ImageParts;
use crate::registers::Registers;
use hll_kernels::kernels::{WeightSums, all_zero, count_zeros, max_into, weight_sums};
use std::marker::Model;

/// 2^`lg_k` borrowed registers, one byte each, with their estimate state.
#[derive(Debug, Drop)]
pub struct RegisterSlice<'a> {
    lg_k: u8,
    values: &'a [u8],
    /// The number of registers that are 0, if they were counted.
    zero_count: Option<u32>,
    state: EstimateState,
}

impl<'a> Model for RegisterSlice<'a> {
    ghost use Rattle.std.specs.Prelude.{◌≡◌, IfSome};
    ghost use Rattle.hll_kernels.specs.Packed.{zeros};
    ghost use Rattle.hll_registers.specs.Store.{Stored, IsStored};

    ghost Value = { Stored };

    ghost view = { λ l. record { lg_k = l.lg_k; registers = l.values.now; state = l.state } };

    ghost invariant = { λ l. IsStored (record { lg_k = l.lg_k; registers = l.values.now; state = l.state }) × IfSome l.zero_count (λ n. n ≡ zeros l.values.now) };
}

impl<'a> RegisterSlice<'a> {
    /// Returns 2^`lg_k` registers, each at most 63, with the cleared state. `lg_k` is 4 to 21.
    pub fn new(lg_k: u8, values: &'a [u8]) -> RegisterSlice<'a>
        requires least { 4 ≤ lg_k }
        requires most { lg_k ≤ 21 }
        requires registers { AreRegisters lg_k values.now }
        ensures { result ≡ record { lg_k = lg_k; registers = values.now; state = cleared_state } }
    {
        RegisterSlice {
            lg_k,
            values,
            zero_count: None,
            state: EstimateState::CLEARED,
        }
    }

    /// Returns these registers with another state.
    pub fn with_state(self, state: EstimateState) -> RegisterSlice<'a>
        requires { IsState state }
        ensures { result ≡ record self.entry { state = state } }
    {
        RegisterSlice { state, ..self }
    }

    /// Returns these registers with the number of zeros among them, if it is known.
    pub fn with_zero_count(self, zero_count: Option<u32>) -> RegisterSlice<'a>
        requires { IfSome zero_count (λ n. n ≡ zeros self.registers) }
        ensures { result ≡ self.entry }
    {
        RegisterSlice { zero_count, ..self }
    }

    /// Returns the registers, without their `lg_k` and state.
    pub fn values(&self) -> &'a [u8]
        ensures { result.now ≡ self.now.registers }
    {
        self.values
    }

    /// Returns the image of these registers with another state (docs/FORMAT.md, "What is written"), in parts. One pass if
    /// zeros were not counted.
    pub fn image_parts(&self, state: EstimateState) -> ImageParts<'a>
        ensures { result ≡ hll8_bytes self.now.lg_k self.now.registers state }
    {
        ImageParts::of_bytes(self.lg_k, self.values, self.num_zeros(), state)
    }

    /// Returns the image of these registers with the register of a slot raised to a value, and its estimator fields set, in parts.
    /// One pass that sums weights, and one more if zeros were not counted.
    ///
    /// `slot` is below 2^`lg_k`, and `value` is 1 to 63.
    pub fn raised_parts(&self, slot: usize, value: u8) -> ImageParts<'a>
        requires slot { slot < 2 ^ self.now.lg_k }
        requires least { 1 ≤ value }
        requires most { value ≤ 63 }
        ensures { (state : EstimateState) × AreEstimatorFields (slice_set self.now.registers slot value) state × (result ≡ hll8_bytes self.now.lg_k (slice_set self.now.registers slot value) state) }
    {
        let old = self.values[slot];
        let zeros = self.num_zeros() - u32::from(old == 0);
        let sums = weight_sums(self.values).replaced(old, value);
        let state = EstimateState::of_sums(sums);
        ImageParts::replacing_byte(self.lg_k, self.values, slot, value, zeros, state)
    }

    /// Returns the number of registers that are 0. One pass if they were not counted.
    pub fn num_zeros(&self) -> u32
        ensures { result ≡ zeros self.now.registers }
    {
        match self.zero_count {
            Some(count) => count,
            None => count_zeros(self.values) as u32,
        }
    }

    /// Returns whether all registers are 0.
    pub fn are_all_zero(&self) -> bool
        ensures { result ≡ list_all (λ v. v == 0) self.now.registers }
    {
        all_zero(self.values)
    }

    /// Returns whether the registers are the same as those of `other`. One pass.
    pub fn has_same_registers(&self, other: &RegisterSlice<'_>) -> bool
        ensures { IsTrue result ↔ (self.now.registers ≡ other.now.registers) }
    {
        self.values == other.values
    }
}

impl<'a> Registers for RegisterSlice<'a> {
    ghost stored = { λ l. l };

    fn lg_k(&self) -> u8 {
        self.lg_k
    }

    fn num_registers(&self) -> usize {
        self.values.len()
    }

    fn get(&self, slot: u32) -> u8 {
        self.values[slot as usize]
    }

    fn estimate_state(&self) -> EstimateState {
        self.state
    }

    /// One pass.
    fn weight_sums(&self) -> WeightSums {
        weight_sums(self.values)
    }

    /// One pass.
    fn max_into(&self, first: u32, values: &mut [u8]) {
        let first = first as usize;
        max_into(values, &self.values[first..first + values.len()]);
    }
}
