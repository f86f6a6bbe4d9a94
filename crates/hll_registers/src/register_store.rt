// SPDX-License-Identifier: Apache-2.0
//! Registers that can be made, changed and written (docs/MODEL.md, "Laws of a store").
ghost use Rattle.std.specs.Prelude.{◌≡◌, ◌↔◌, ◌+◌, ◌^◌, ◌<◌, ◌≤◌, Bool, true, IsTrue, IsOk, IfOk, IfErr, OnOk, OnErr};
ghost use Rattle.hll_base.specs.declared.error.Reason.TheVariants.{Memory};
ghost use Rattle.hll_base.specs.declared.hll_type.HllType.{HllType};
ghost use Rattle.hll_registers.specs.Payload.{WritesRegisters};
ghost use Rattle.hll_registers.specs.State.{cleared_state};
ghost use Rattle.hll_kernels.specs.Packed.{AreRegisters};
ghost use Rattle.hll_registers.specs.Store.{zero_registers, update_with_coupon};

use crate::estimate_state::EstimateState;
use crate::registers::Registers;
use hll_base::error::Error;
use hll_base::hll_type::HllType;
use hll_coupons::coupon::Coupon;
use std::alloc::Allocator;

/// A representation of registers. The clauses are laws that each representation satisfies.
pub trait RegisterStore<A: Allocator>: Registers + PartialEq + Drop {
    /// The width that its images give.
    const WIDTH: HllType;

    ghost WIDTH: { HllType };

    /// Whether `put_coupon` never fails.
    const NEVER_REFUSES: bool;

    ghost NEVER_REFUSES: { Bool };

    /// Returns 2^`lg_k` registers of 0, with the cleared state.
    ///
    /// `lg_k` is 4 to 21. Fails with `Memory` if an allocation fails.
    fn make(alloc: A, lg_k: u8) -> Result<Self, Error>
    where
        Self: Sized,
        requires least { 4 ≤ lg_k }
        requires most { lg_k ≤ 21 }
        ensures ok { IfOk result (λ s. Self.stored s ≡ zero_registers lg_k) }
        ensures err { IfErr result (λ e. e ≡ Memory) };

    /// Sets the register at the coupon's slot modulo 2^`lg_k` to the maximum of itself and the coupon's value. If it
    /// changes, the state is cleared.
    ///
    /// Fails with `Memory` if an allocation fails, unless `NEVER_REFUSES` is true; then the registers are unchanged.
    fn put_coupon(&mut self, coupon: Coupon) -> Result<(), Error>
        ensures ok { OnOk result (Self.stored self.new ≡ update_with_coupon (Self.stored self.old) coupon) }
        ensures err { OnErr result (self.new ≡ self.old) }
        ensures memory { IfErr result (λ e. e ≡ Memory) }
        ensures never { IsTrue NEVER_REFUSES → IsOk result };

    /// Sets the estimate state. The registers don't change.
    fn restore(&mut self, state: EstimateState)
        ensures { Self.stored self.new ≡ record (Self.stored self.old) { state = state } };

    /// Returns the image (docs/FORMAT.md, "What is written"). Its bytes are a function of the width and the `Stored`.
    ///
    /// Fails with `Memory` if an allocation fails.
    fn write_image(&self) -> Result<Vec<u8, A>, Error>
        ensures ok { IfOk result (λ image. WritesRegisters image.items (Self.stored self.now).lg_k WIDTH (Self.stored self.now).registers (Self.stored self.now).state) }
        ensures err { IfErr result (λ e. e ≡ Memory) };

    /// Returns registers with these values, with the cleared state.
    ///
    /// `lg_k` is 4 to 21, and there are 2^`lg_k` values of at most 63. Fails with `Memory` if an allocation fails. An
    /// implementation may pack the values directly; this body puts them as coupons.
    fn from_values(alloc: A, lg_k: u8, values: &[u8]) -> Result<Self, Error>
    where
        Self: Sized,
        requires least { 4 ≤ lg_k }
        requires most { lg_k ≤ 21 }
        requires registers { AreRegisters lg_k values.now }
        ensures ok { IfOk result (λ s. Self.stored s ≡ record { lg_k = lg_k; registers = values.now; state = cleared_state }) }
        ensures err { IfErr result (λ e. e ≡ Memory) }
    {
        let mut made = Self::make(alloc, lg_k)?;
        for slot in 0..values.len() {
            made.put_coupon(Coupon::pack(slot as u32, values[slot]))?;
        }
        Ok(made)
    }

    /// Two stores are equal exactly if their `lg_k`, registers and states are equal.
    ghost equal: { (x y : Self) → IsTrue (Self.eq x y) ↔ (Self.stored x ≡ Self.stored y) };
}
