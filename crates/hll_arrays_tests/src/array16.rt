// SPDX-License-Identifier: Apache-2.0
//! A representation of registers that `hll_arrays` doesn't know: two bytes each, with only the required methods.
ghost use Rattle.std.specs.Prelude.{◌≡◌, ◌^◌, ◌≤◌, IfOk, IfErr};
ghost use Rattle.hll_base.specs.declared.error.Reason.TheVariants.{Memory};

use hll_arrays::merge::merge_from;
use hll_arrays::{Array8, EstimateState, RegisterStore, Registers};
use hll_base::error::Error;
use hll_base::hll_type::HllType;
use hll_coupons::coupon::Coupon;
use std::alloc::Allocator;
use std::marker::Model;

/// Returns 2^`lg_k`.
fn two_to(lg_k: u8) -> usize
    requires { lg_k ≤ 21 }
    ensures { result ≡ 2 ^ lg_k }
{
    1 << lg_k
}

/// 2^`lg_k` registers, two bytes each.
#[derive(Drop)]
pub(crate) struct Array16<A: Allocator> {
    lg_k: u8,
    registers: Vec<u16, A>,
    state: EstimateState,
}

impl<A: Allocator> Model for Array16<A> {
    ghost use Rattle.std.specs.Prelude.{◌≤◌};
    ghost use Rattle.hll_registers.specs.State.{IsState};
    ghost use Rattle.hll_registers.specs.Store.{Stored};
    ghost use Rattle.hll_kernels.specs.Packed.{AreRegisters};

    ghost Value = { Stored };

    ghost view = { λ a. record { lg_k = a.lg_k; registers = a.registers.items; state = a.state } };

    ghost invariant = { λ a. (4 ≤ a.lg_k) × (a.lg_k ≤ 21) × AreRegisters a.lg_k a.registers.items × IsState a.state };
}

impl<A: Allocator> PartialEq for Array16<A> {
    ghost use Rattle.hll_arrays.specs.Same.{same_stored, same_stored-partial};

    ghost eq = { same_stored };

    ghost laws = { same_stored-partial };

    fn eq(&self, other: &Array16<A>) -> bool {
        self.lg_k == other.lg_k
            && self.registers.as_slice() == other.registers.as_slice()
            && self.state == other.state
    }
}

impl<A: Allocator> Registers for Array16<A> {
    ghost stored = { λ a. a };

    fn lg_k(&self) -> u8 {
        self.lg_k
    }

    fn num_registers(&self) -> usize {
        self.registers.len()
    }

    fn get(&self, slot: u32) -> u8 {
        self.registers[slot as usize] as u8
    }

    fn estimate_state(&self) -> EstimateState {
        self.state
    }
}

impl<A: Allocator + Clone> Array16<A> {
    /// Returns a copy with one byte for each register.
    pub(crate) fn narrowed(&self) -> Result<Array8<A>, Error>
        ensures ok { IfOk result (λ a. a ≡ self.now) }
        ensures err { IfErr result (λ e. e ≡ Memory) }
    {
        let mut narrow = Array8::new(self.registers.allocator().clone()?, self.lg_k)?;
        merge_from(&mut narrow, self);
        narrow.restore_estimate_state(self.state);
        Ok(narrow)
    }
}

impl<A: Allocator + Clone> RegisterStore<A> for Array16<A> {
    ghost use Rattle.std.specs.Prelude.{true};
    ghost use Rattle.hll_base.specs.declared.hll_type.HllType.TheVariants.{Hll8};
    ghost use Rattle.hll_arrays.specs.Same.{same_stored-from, same_stored-to};

    const WIDTH: HllType = HllType::Hll8;

    ghost WIDTH = { Hll8 };

    const NEVER_REFUSES: bool = true;

    ghost NEVER_REFUSES = { true };

    fn make(alloc: A, lg_k: u8) -> Result<Array16<A>, Error> {
        Ok(Array16 {
            lg_k,
            registers: vec![in alloc; 0; two_to(lg_k)]?,
            state: EstimateState::CLEARED,
        })
    }

    fn put_coupon(&mut self, coupon: Coupon) -> Result<(), Error> {
        let slot = coupon.slot() as usize % two_to(self.lg_k);
        if u16::from(coupon.value()) <= self.registers[slot] {
            return Ok(());
        }
        self.registers[slot] = u16::from(coupon.value());
        self.state = EstimateState::CLEARED;
        Ok(())
    }

    fn restore(&mut self, state: EstimateState) {
        self.state = state;
    }

    fn write_image(&self) -> Result<Vec<u8, A>, Error> {
        let narrow = self.narrowed()?;
        narrow.serialize(self.lg_k)
    }

    ghost equal = { λ x y. (same_stored-from x y, same_stored-to x y) };
}
