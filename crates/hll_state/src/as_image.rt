// SPDX-License-Identifier: Apache-2.0
//! The sketch of a state, borrowed as the sketch of an image is, so that it can be merged into another state.
ghost use Rattle.std.specs.Prelude.{◌≡◌, ◌≢◌, ◌-◌, ◌^◌, ◌≤◌, true, false, length, take, Some, None, IfOk, IfErr};
ghost use Rattle.hll_base.specs.declared.error.Reason.TheVariants as reasons;
ghost use Rattle.hll_kernels.specs.Packed.{AreRegisters};
ghost use Rattle.hll_sketch.specs.BorrowedImage.{sketch_of_borrowed, sketch_of_coupons};
ghost use Rattle.hll_sketch.specs.Stage as stages;
ghost use Rattle.hll_sketch.specs.Value.{IsLgK};
ghost use Rattle.hll_state.specs.Counter.{sketch_in, IsResolved, AreResolved};
ghost use Rattle.hll_state.specs.Header.{IsWithin, AreWithin};
ghost use Rattle.hll_state.specs.Header as spec;
ghost use Rattle.hll_state.specs.Merged.{HasLegalRegisters, sketch_of_held};
ghost use Rattle.hll_state.specs.Registers.{values};

use crate::header::{CouponTable, Header, Held};
use crate::registers::small_registers;
use hll_base::error::Error;
use hll_base::hll_type::HllType;
use hll_registers::estimate_state::EstimateState;
use hll_registers::register_slice::RegisterSlice;
use hll_sketch::borrowed_image::BorrowedImage;
use hll_sketch::coupons_of_image::CouponsOfImage;
use hll_sketch::stage::stage;
use std::alloc::Allocator;

impl Header {
    /// Returns the sketch of a resolved state, with a width of 8 bits, as it would be borrowed from its image.
    ///
    /// Fails with `Register` if a register is above 63, which no call of this library writes.
    pub fn as_image<'a, A: Allocator>(
        &self,
        body: &'a [[u8; 4]],
    ) -> Result<BorrowedImage<'a, A>, Error>
        requires within { IsWithin self.now (length body.now) }
        requires resolved { IsResolved self.now body.now }
        ensures ok { IfOk result (λ image. sketch_of_borrowed image ≡ sketch_in self.now body.now) }
        ensures err { IfErr result (λ e. (e ≡ reasons.Register) × (HasLegalRegisters self.now body.now → ⊥)) }
    {
        match self.held {
            Held::Coupons(coupons) => {
                Ok(BorrowedImage::Coupons(coupons_of(self.lg_k, coupons, body)))
            }
            Held::Registers(state) => {
                let registers = registers_of(self.lg_k, state, body)?;
                Ok(BorrowedImage::Bytes(registers))
            }
        }
    }
}

/// Returns resolved coupons, with the size of the table that they need.
fn coupons_of<'a>(lg_k: u8, coupons: CouponTable, body: &'a [[u8; 4]]) -> CouponsOfImage<'a>
    requires lg_k { IsLgK lg_k }
    requires within { AreWithin lg_k coupons (length body.now) }
    requires resolved { AreResolved lg_k coupons body.now }
    ensures { sketch_of_coupons result ≡ sketch_of_held lg_k (spec.of_coupons coupons) body.now }
{
    CouponsOfImage {
        lg_k,
        hll_type: HllType::Hll8,
        lg_size: coupons.resolved_size(lg_k),
        elements: &body[..coupons.run.used],
    }
}

/// Returns the registers of a state, with their estimate state. Fails with `Register` if one is above 63.
fn registers_of<'a>(
    lg_k: u8,
    state: EstimateState,
    body: &'a [[u8; 4]],
) -> Result<RegisterSlice<'a>, Error>
    requires lg_k { IsLgK lg_k }
    requires within { 2 ^ (lg_k - 2) ≤ length body.now }
    ensures ok { IfOk result (λ registers. registers ≡ record { lg_k = lg_k; registers = values (take (2 ^ (lg_k - 2)) body.now); state = state }) }
    ensures err { IfErr result (λ e. (e ≡ reasons.Register) × (AreRegisters lg_k (values (take (2 ^ (lg_k - 2)) body.now)) → ⊥)) }
{
    let registers = small_registers(body, lg_k)?;
    Ok(RegisterSlice::new(lg_k, registers).with_state(state))
}

impl CouponTable {
    /// Returns the size of the table of resolved coupons at an `lg_k`.
    pub fn resolved_size(&self, lg_k: u8) -> u8
        requires { IsLgK lg_k }
        ensures kept { self.now.added ≡ false → result ≡ self.now.lg_size }
        ensures staged { self.now.added ≡ true → stages.stage lg_k self.now.lg_size self.now.run.used ≢ None → stages.stage lg_k self.now.lg_size self.now.run.used ≡ Some result }
    {
        if !self.added {
            return self.lg_size;
        }
        match stage(lg_k, self.lg_size, self.run.used) {
            Some(lg_size) => lg_size,
            None => self.lg_size,
        }
    }
}
