// SPDX-License-Identifier: Apache-2.0
//! A slice of nibbles above a minimum, with a map of exceptions, as 4-bit registers (docs/MODEL.md, "4-bit registers").
ghost use Rattle.std.specs.Prelude.{◌≡◌, ◌*◌, ◌^◌, ◌<◌, ◌≤◌, ◌==◌, ◌↔◌, ℕ, length, slice_index, slice_set, IsTrue, IfSome, IfOk, IfErr, OnOk};
ghost use Rattle.std.specs.List.{list_all};
ghost use Rattle.hll_base.specs.declared.error.Reason.TheVariants.{Memory, Register};
ghost use Rattle.hll_kernels.specs.Packed.{mark_nibbles, nibble_at, zero_nibbles, zeros};
ghost use Rattle.hll_registers.specs.FourBits.{exception_in, unboxed, unpacked, IsMapFor};
ghost use Rattle.hll_base.specs.declared.hll_type.HllType.TheVariants.{Hll4};
ghost use Rattle.hll_registers.specs.EstimatorFields.{AreEstimatorFields};
ghost use Rattle.hll_registers.specs.Payload.{Agrees, WritesRegisters};
ghost use Rattle.hll_registers.specs.State.{cleared_state, IsState};

use crate::agreement::agree;
use crate::estimate_state::EstimateState;
use crate::exception_map::{
    Exceptions, entries_of, exceptions_in_order, has_many_buckets, max_with_registers, register_at,
};
use crate::image_parts::ImageParts;
use crate::nibble_parts::NibbleParts;
use crate::nibble_registers::NibbleRegisters;
use crate::nibble_sums::sums_of_few;
use crate::registers::{Registers, Use, two_to};
use crate::same_registers::{are_all_in, have_same_registers};
use hll_base::error::{Error, Reason};
use hll_kernels::kernels::{WeightSums, all_zero};
use hll_kernels::nibbles::{
    MARK, count_mark_nibbles, count_zero_nibbles, count_zeros_and_marks, nibble_of, with_nibble,
};
use std::alloc::Allocator;
use std::marker::Model;

/// 2^`lg_k` registers, two in each borrowed byte, with their estimate state. A nibble is the height of the register
/// above a minimum, and 15 marks a register that is in a map. The minimum may be below the least register.
#[derive_where(Debug)]
pub struct NibbleSlice<'a, A: Allocator> {
    lg_k: u8,
    minimum: u8,
    nibbles: &'a [u8],
    /// The number of nibbles that are 0, if they were counted.
    zeros: Option<u32>,
    exceptions: Exceptions<A>,
    state: EstimateState,
}

/// Written out instead of derived. The proof of code that drops registers then uses this contract instead of
/// considering their parts.
impl<'a, A: Allocator> Drop for NibbleSlice<'a, A> {
    fn drop(self) {
        let NibbleSlice {
            lg_k: _,
            minimum: _,
            nibbles: _,
            zeros: _,
            exceptions,
            state: _,
        } = self;
        drop(exceptions);
    }
}

impl<'a, A: Allocator> Model for NibbleSlice<'a, A> {
    ghost use Rattle.std.specs.Prelude.{◌≡◌, ◌*◌, ◌^◌, ◌<◌, ◌≤◌, ℕ, List, All, IfSome, length};
    ghost use Rattle.hll_kernels.specs.Packed.{nibble_at, zero_nibbles};
    ghost use Rattle.hll_registers.specs.FourBits.{exception_in, unboxed, unpacked, IsMapFor};
    ghost use Rattle.hll_registers.specs.Payload.{Agrees};
    ghost use Rattle.hll_registers.specs.State.{IsState};
    ghost use Rattle.hll_registers.specs.Store.{Stored};

    ghost Value = { Stored };

    ghost view = { λ l. record { lg_k = l.lg_k; registers = unpacked l.lg_k l.minimum l.nibbles.now (unboxed l.exceptions); state = l.state } };

    ghost invariant = { λ l. (4 ≤ l.lg_k) × (l.lg_k ≤ 21) × (2 * length l.nibbles.now ≡ 2 ^ l.lg_k) × All (λ b. b < 256) l.nibbles.now × IsMapFor l.lg_k (unboxed l.exceptions)
        × ((s : ℕ) → s < 2 ^ l.lg_k → Agrees l.minimum (nibble_at l.nibbles.now s) (exception_in (unboxed l.exceptions) s)) × IfSome l.zeros (λ n. n ≡ zero_nibbles l.nibbles.now) × IsState l.state };
}

impl<'a, A: Allocator> NibbleSlice<'a, A> {
    /// Returns the registers of nibbles above a minimum and exceptions, with the cleared state. One pass over the
    /// nibbles if the minimum is at most 49; it also counts what a later `Use` needs. Allocates nothing.
    ///
    /// `lg_k` is 4 to 21. Fails with `Register` if nibbles and exceptions don't agree.
    pub fn from_parts(
        lg_k: u8,
        minimum: u8,
        nibbles: &'a [u8],
        exceptions: Exceptions<A>,
        later: Use,
    ) -> Result<NibbleSlice<'a, A>, Error>
        requires least { 4 ≤ lg_k }
        requires most { lg_k ≤ 21 }
        requires size { 2 * length nibbles.now ≡ 2 ^ lg_k }
        requires map { IsMapFor lg_k (unboxed exceptions) }
        ensures ok { IfOk result (λ r. r ≡ record { lg_k = lg_k; registers = unpacked lg_k minimum nibbles.now (unboxed exceptions); state = cleared_state }) }
        ensures agree { OnOk result ((s : ℕ) → s < 2 ^ lg_k → Agrees minimum (nibble_at nibbles.now s) (exception_in (unboxed exceptions) s)) }
        ensures err { IfErr result (λ e. (e ≡ Register) × (((s : ℕ) → s < 2 ^ lg_k → Agrees minimum (nibble_at nibbles.now s) (exception_in (unboxed exceptions) s)) → ⊥)) }
    {
        let (zeros, marks) = counts_of(nibbles, minimum, later);
        if !agree(nibbles, &exceptions, lg_k, minimum, marks) {
            return Err(Error::new(Reason::Register));
        }
        Ok(NibbleSlice {
            lg_k,
            minimum,
            nibbles,
            zeros,
            exceptions,
            state: EstimateState::CLEARED,
        })
    }

    /// Returns these registers with another state.
    pub fn with_state(self, state: EstimateState) -> NibbleSlice<'a, A>
        requires { IsState state }
        ensures { result ≡ record self.entry { state = state } }
    {
        let NibbleSlice {
            lg_k,
            minimum,
            nibbles,
            zeros,
            exceptions,
            state: _,
        } = self;
        NibbleSlice {
            lg_k,
            minimum,
            nibbles,
            zeros,
            exceptions,
            state,
        }
    }

    /// Returns the image of these registers with another state (docs/FORMAT.md, "What is written"), in parts: the nibbles are
    /// borrowed, and the exceptions are the first bytes of `after`. One pass if zeros were not counted, and a search for each
    /// exception, which takes quadratic time if all are on one path; allocates nothing.
    ///
    /// Returns `None` if the minimum is below the least register, or if the first bytes of `after` are not the exceptions in
    /// ascending order.
    pub fn image_parts(&self, after: &'a [u8], state: EstimateState) -> Option<ImageParts<'a>>
        ensures { IfSome result (λ image. WritesRegisters image self.now.lg_k Hll4 self.now.registers state) }
    {
        let low_count = zeros_or_count(self.zeros, self.nibbles);
        if low_count == 0 {
            return None;
        }
        let exceptions = exceptions_in_order(&self.exceptions, after)?;
        Some(ImageParts::of_nibbles(
            self.lg_k,
            self.minimum,
            low_count,
            self.nibbles,
            exceptions,
            state,
        ))
    }

    /// Returns the image of these registers with the register of a slot raised to a value, and its estimator fields set, in parts
    /// as `image_parts` does. One more pass, which sums weights.
    ///
    /// Also returns `None` if the register or the value is an exception, or if the raised register was the last at the minimum.
    pub fn raised_parts(&self, after: &'a [u8], slot: usize, value: u8) -> Option<ImageParts<'a>>
        requires slot { slot < 2 ^ self.now.lg_k }
        requires greater { slice_index self.now.registers slot < value }
        requires most { value ≤ 63 }
        ensures { IfSome result (λ image. (state : EstimateState) × AreEstimatorFields (slice_set self.now.registers slot value) state
            × WritesRegisters image self.now.lg_k Hll4 (slice_set self.now.registers slot value) state) }
    {
        let old = nibble_of(self.nibbles, slot);
        let new = value - self.minimum;
        let at_minimum = u32::from(old == 0);
        let low_count = zeros_or_count(self.zeros, self.nibbles);
        if MARK <= new || low_count <= at_minimum {
            return None;
        }
        let exceptions = exceptions_in_order(&self.exceptions, after)?;
        let sums = self.weight_sums().replaced(self.minimum + old, value);
        Some(ImageParts::replacing_nibbles(
            self.lg_k,
            self.minimum,
            low_count - at_minimum,
            self.nibbles,
            with_nibble(self.nibbles, slot, new),
            exceptions,
            EstimateState::of_sums(sums),
        ))
    }

    /// Returns the number of registers that are 0. One pass if the minimum is 0 and the nibbles were not counted.
    pub fn num_zeros(&self) -> u32
        ensures { result ≡ zeros self.now.registers }
    {
        if self.minimum > 0 {
            return 0;
        }
        zeros_or_count(self.zeros, self.nibbles)
    }

    /// Returns whether all registers are 0.
    pub fn are_all_zero(&self) -> bool
        ensures { result ≡ list_all (λ v. v == 0) self.now.registers }
    {
        self.minimum == 0 && all_zero(self.nibbles)
    }

    /// Returns whether the registers are the same as those of `other`, which has the same `lg_k`. If the minimums are
    /// the same, one pass over the nibbles and the exceptions. Otherwise, or if a search for an exception is long, one
    /// pass over the registers, by blocks.
    pub fn has_same_registers(&self, other: &NibbleSlice<'_, A>) -> bool
        requires { self.now.lg_k ≡ other.now.lg_k }
        ensures { IsTrue result ↔ (self.now.registers ≡ other.now.registers) }
    {
        match self.has_same_parts(other) {
            Some(same) => same,
            None => have_same_registers(self, other),
        }
    }

    /// Returns whether the registers are the same as those of `other`, which has the same `lg_k`, by comparing nibbles
    /// and exceptions with short searches. Returns `None` if the minimums differ, or if a search was cut off.
    fn has_same_parts(&self, other: &NibbleSlice<'_, A>) -> Option<bool>
        requires { self.now.lg_k ≡ other.now.lg_k }
        ensures { IfSome result (λ same. IsTrue same ↔ (self.now.registers ≡ other.now.registers)) }
    {
        if self.minimum != other.minimum {
            return None;
        }
        if self.nibbles != other.nibbles {
            return Some(false);
        }
        are_all_in(&self.exceptions, &other.exceptions, self.lg_k)
    }
}

impl<'a, A: Allocator + Clone> NibbleSlice<'a, A> {
    /// Returns a copy of the registers that owns its memory, as nibbles above the least register. Copies the nibbles;
    /// if the minimum is below the least register, it takes two more passes. Allocates with `alloc`, which has to be
    /// the map's allocator.
    ///
    /// Fails with `Memory` if an allocation fails.
    pub fn into_registers(self, alloc: A) -> Result<NibbleRegisters<A>, Error>
        ensures ok { IfOk result (λ r. (r.lg_k ≡ self.entry.lg_k) × (r.registers ≡ self.entry.registers)) }
        ensures err { IfErr result (λ e. e ≡ Memory) }
    {
        let NibbleSlice {
            lg_k,
            minimum,
            nibbles,
            zeros,
            exceptions,
            state: _,
        } = self;
        let zeros = zeros_or_count(zeros, nibbles);
        NibbleRegisters::from_parts(alloc, lg_k, minimum, nibbles, zeros, exceptions)
    }
}

/// Returns the number of nibbles that are 0. One pass if it isn't known.
fn zeros_or_count(zeros: Option<u32>, nibbles: &[u8]) -> u32
    requires few { length nibbles.now ≤ 2 ^ 20 }
    requires zeros { IfSome zeros (λ n. n ≡ zero_nibbles nibbles.now) }
    ensures { result ≡ zero_nibbles nibbles.now }
{
    match zeros {
        Some(zeros) => zeros,
        None => count_zero_nibbles(nibbles),
    }
}

/// Returns the number of nibbles that are 0, if it is needed later, and the number of nibbles that are 15. One pass.
fn counts_of(nibbles: &[u8], minimum: u8, later: Use) -> (Option<u32>, u32)
    requires { length nibbles.now ≤ 2 ^ 20 }
    ensures zeros { IfSome result.0 (λ n. n ≡ zero_nibbles nibbles.now) }
    ensures marks { result.1 ≡ mark_nibbles nibbles.now }
{
    if !needs_zeros(minimum, later) {
        return (None, count_mark_nibbles(nibbles));
    }
    let (zeros, marks) = count_zeros_and_marks(nibbles);
    (Some(zeros), marks)
}

/// Returns whether the number of nibbles that are 0 is needed later. If the minimum is above 0, no register is 0, so an estimate
/// doesn't need it.
fn needs_zeros(minimum: u8, later: Use) -> bool {
    match later {
        Use::Join => false,
        Use::Count => minimum == 0,
        Use::Copy => true,
    }
}

impl<'a, A: Allocator> Registers for NibbleSlice<'a, A> {
    ghost stored = { λ l. l };

    fn lg_k(&self) -> u8 {
        self.lg_k
    }

    fn num_registers(&self) -> usize {
        two_to(self.lg_k)
    }

    fn get(&self, slot: u32) -> u8 {
        register_at(self.nibbles, &self.exceptions, self.minimum, slot)
    }

    fn estimate_state(&self) -> EstimateState {
        self.state
    }

    fn is_slow_in_small_blocks(&self) -> bool {
        has_many_buckets(&self.exceptions)
    }

    fn weight_sums_of_few(&self, first: usize, size: usize) -> WeightSums {
        sums_of_few(
            first,
            size,
            self.nibbles,
            &self.exceptions,
            self.lg_k,
            self.minimum,
        )
    }

    /// One pass, and a search for each exception.
    fn max_into(&self, first: u32, values: &mut [u8]) {
        max_with_registers(
            values,
            first,
            self.nibbles,
            &self.exceptions,
            self.lg_k,
            self.minimum,
        );
    }

    fn nibble_parts(&self) -> Option<NibbleParts<'_>> {
        Some(NibbleParts {
            minimum: self.minimum,
            nibbles: self.nibbles,
            exceptions: entries_of(&self.exceptions),
        })
    }
}
