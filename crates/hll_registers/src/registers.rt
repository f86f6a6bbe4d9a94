// SPDX-License-Identifier: Apache-2.0
//! Registers that can be read, however they are stored (docs/MODEL.md, "Laws of a store").
ghost use Rattle.std.specs.Prelude.{◌≡◌, ◌+◌, ◌%◌, ◌^◌, ◌<◌, ◌≤◌, ◌==◌, if◌then◌else◌, length, take, drop, slice_index, Some, None, IfSome};
ghost use Rattle.hll_base.specs.Join.{join};
ghost use Rattle.hll_kernels.specs.Packed as packed;
ghost use Rattle.hll_registers.specs.FourBits.{ArePartsOf};
ghost use Rattle.hll_registers.specs.Store.{Stored, IsStored};
ghost use Rattle.hll_kernels.specs.WeightSums.{AreSumsOf};
ghost use Rattle.hll_registers.specs.EstimatorFields.{AreEstimatorFields};

use crate::estimate_state::EstimateState;
use crate::nibble_parts::NibbleParts;
use hll_kernels::kernels::{WeightSums, weight_sums};

/// What the caller will do with borrowed registers. The pass that checks them can count zeros too.
#[derive(Clone, Copy)]
pub enum Use {
    /// Merge them, or only check them: zeros are not counted.
    Join,
    /// Estimate from them, which needs the number of registers that are 0.
    Count,
    /// Write an image of them, which needs the number of registers that are 0, and for 4 bits the number of nibbles that are 0.
    Copy,
}

/// 2^`lg_k` registers of 0 to 63, and their estimate state. No call allocates.
pub trait Registers {
    /// What contracts see: the `lg_k`, the list of registers, and the estimate state.
    ghost stored: { Self → Stored };

    /// Returns the `lg_k`, 4 to 21.
    fn lg_k(&self) -> u8
        ensures lg_k { result ≡ (stored self.now).lg_k }
        ensures legal { IsStored (stored self.now) };

    /// Returns the number of registers: 2^`lg_k`.
    fn num_registers(&self) -> usize
        ensures { result ≡ 2 ^ (stored self.now).lg_k };

    /// Returns the register of a slot below 2^`lg_k`, 0 to 63.
    fn get(&self, slot: u32) -> u8
        requires { slot < 2 ^ (stored self.now).lg_k }
        ensures { result ≡ slice_index (stored self.now).registers slot };

    /// Returns the estimate state.
    fn estimate_state(&self) -> EstimateState
        ensures { result ≡ (stored self.now).state };

    /// Returns the sums of 2^-v over the registers v. One pass, by blocks.
    fn weight_sums(&self) -> WeightSums
        ensures { AreSumsOf result (stored self.now).registers }
    {
        let lg_size = self.lg_k().min(lg_block(self.is_slow_in_small_blocks()));
        let size = two_to(lg_size);
        let mut sums = WeightSums { low: 0, high: 0 };
        for block in 0..two_to(self.lg_k() - lg_size) {
            sums = sums.plus(self.weight_sums_at(block * size, size));
        }
        sums
    }

    /// Returns the sums of 2^-v over at most 16,384 registers v from `first` on.
    ///
    /// These registers exist, and `first` and their number are multiples of four.
    fn weight_sums_at(&self, first: usize, size: usize) -> WeightSums
        requires within { first + size ≤ 2 ^ (stored self.now).lg_k }
        requires aligned { first % 4 ≡ 0 }
        requires groups { size % 4 ≡ 0 }
        requires few { size ≤ 16384 }
        requires legal { IsStored (stored self.now) }
        ensures { AreSumsOf result (take size (drop first (stored self.now).registers)) }
    {
        if size <= 128 {
            return self.weight_sums_of_few(first, size);
        }
        let mut registers = [0; 16384];
        self.max_into(first as u32, &mut registers[..size]);
        weight_sums(&registers[..size])
    }

    /// Returns the sums of 2^-v over at most 128 registers v from `first` on. An implementation may loop over its own
    /// bytes.
    ///
    /// These registers exist, and `first` and their number are multiples of four.
    fn weight_sums_of_few(&self, first: usize, size: usize) -> WeightSums
        requires within { first + size ≤ 2 ^ (stored self.now).lg_k }
        requires aligned { first % 4 ≡ 0 }
        requires groups { size % 4 ≡ 0 }
        requires few { size ≤ 128 }
        requires legal { IsStored (stored self.now) }
        ensures { AreSumsOf result (take size (drop first (stored self.now).registers)) }
    {
        let mut registers = [0; 128];
        self.max_into(first as u32, &mut registers[..size]);
        weight_sums(&registers[..size])
    }

    /// Returns the state that a composite estimator computes from (docs/FORMAT.md, "Estimator fields"): exact numbers,
    /// a function of the registers. One pass.
    fn estimator_fields(&self) -> EstimateState
        ensures { AreEstimatorFields (stored self.now).registers result }
    {
        // (gives the proof that the registers are legal)
        let _lg_k = self.lg_k();
        EstimateState::of_sums(self.weight_sums())
    }

    /// Returns whether `max_into` is expensive for few values, because each call goes over something that all registers
    /// share. It changes only speed, no result.
    fn is_slow_in_small_blocks(&self) -> bool {
        false
    }

    /// Sets value i to the maximum of itself and register `first + i`.
    ///
    /// These registers exist, and `first` and the number of values are multiples of four. That the registers are legal
    /// is a clause of `lg_k`. An implementation may read them in groups of four; this body calls `get` for each.
    fn max_into(&self, first: u32, values: &mut [u8])
        requires within { first + length values.old ≤ 2 ^ (stored self.now).lg_k }
        requires legal { IsStored (stored self.now) }
        requires aligned { first % 4 ≡ 0 }
        requires groups { length values.old % 4 ≡ 0 }
        ensures { values.new ≡ join values.old (take (length values.old) (drop first (stored self.now).registers)) }
    {
        for index in 0..values.len() {
            let register = self.get(first + index as u32);
            values[index] = values[index].max(register);
        }
    }

    /// Returns the nibbles and the exceptions of the registers, if they are stored so. The maximum with all registers is
    /// then taken over the nibbles first, and over each exception afterwards.
    fn nibble_parts(&self) -> Option<NibbleParts<'_>>
        ensures { IfSome result (λ p. ArePartsOf (stored self.now).lg_k p.minimum p.nibbles.now p.exceptions (stored self.now).registers) }
    {
        None
    }
}

/// Returns 2^`lg_k`.
pub fn two_to(lg_k: u8) -> usize
    requires { lg_k ≤ 21 }
    ensures { result ≡ 2 ^ lg_k }
{
    1 << lg_k
}

/// Returns the logarithm of the number of registers whose weights are summed at a time.
fn lg_block(is_slow_in_small_blocks: bool) -> u8
    ensures least { 7 ≤ result }
    ensures most { result ≤ 14 }
{
    if is_slow_in_small_blocks { 14 } else { 7 }
}

/// Returns the number of registers that are 0 after `register` gets a greater value, if their number before is known.
pub fn zeros_left(zero_count: Option<u32>, register: u8) -> Option<u32>
    requires some { register ≡ 0 → IfSome zero_count (λ n. 0 < n) }
    ensures left { IfSome result (λ left. zero_count ≡ Some (if register == 0 then (left + 1) else left)) }
    ensures known { result ≡ None → zero_count ≡ None }
{
    match zero_count {
        Some(count) if register == 0 => Some(count - 1),
        _ => zero_count,
    }
}

/// Returns the sum of 2^-v over the registers v, in units of 2^-63. One pass.
pub fn units_of<R: Registers>(src: &R) -> u128
    ensures units { result ≡ packed.units (R.stored src.now).registers }
    ensures bound { result ≤ 2 ^ 84 }
{
    // (gives the proof that the registers are legal)
    let _lg_k = src.lg_k();
    src.weight_sums().units()
}
