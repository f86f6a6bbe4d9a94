// SPDX-License-Identifier: Apache-2.0
//! A sketch at another `lg_k` (docs/MODEL.md, "Folding") or width.
ghost use Rattle.std.specs.Prelude.{◌≡◌, ◌≢◌, ◌≤◌, ◌⊎◌, ◌↔◌, true, false, IsTrue, IfOk, IfErr, OnOk, OnErr};
ghost use Rattle.hll_base.specs.declared.error.Reason.TheVariants.{Memory};
ghost use Rattle.hll_base.specs.declared.error.Reason.TheVariants as reasons;
ghost use Rattle.hll_base.specs.declared.hll_type.HllType.TheVariants.{Hll8};
ghost use Rattle.hll_coupons.specs.Fold.{fold_to};
ghost use Rattle.hll_sketch.specs.Folding as folding;
ghost use Rattle.hll_sketch.specs.Folding.{IsFoldLgK};
ghost use Rattle.hll_sketch.specs.Layout.{content_in, layout_of, sketch_of, width_of, IsLayoutFor};
ghost use Rattle.hll_sketch.specs.Value.{in_registers, pairs_of};

use crate::folding::{fold_of, has_least_size, mode_of_coupons};
use crate::mode::{Mode, array_into_mode, array_to_mode};
use crate::sketch::HllSketch;
use hll_base::bounds::MIN_LG_K;
use hll_base::error::{Error, Reason};
use hll_base::hll_type::HllType;
use std::alloc::Allocator;

impl<A: Allocator + Clone> HllSketch<A> {
    /// Returns the sketch at another width: coupons at the size of their table, or registers with their estimate state.
    ///
    /// The registers are 8-bit registers. Fails with `Memory`.
    pub(crate) fn to_width(&self, hll_type: HllType) -> Result<HllSketch<A>, Error>
        requires { in_registers (content_in self.now.layout) ≡ true → width_of self.now.layout ≡ Hll8 }
        ensures ok { IfOk result (λ s. sketch_of s ≡ record (sketch_of self.now) { width = hll_type }) }
        ensures err { IfErr result (λ e. e ≡ Memory) }
    {
        match &self.mode {
            Mode::Array8(array) => Ok(HllSketch {
                lg_config_k: self.lg_config_k,
                mode: array_to_mode(array, hll_type)?,
            }),
            _ => self.table_in(self.allocator(), hll_type),
        }
    }

    /// Returns a sketch of coupons at another width, with the size of its table. Allocates with a clone of this allocator.
    ///
    /// Fails with `Memory`.
    pub(crate) fn table_in(&self, alloc: &A, hll_type: HllType) -> Result<HllSketch<A>, Error>
        requires { in_registers (content_in self.now.layout) ≡ false }
        ensures ok { IfOk result (λ s. sketch_of s ≡ record (sketch_of self.now) { width = hll_type }) }
        ensures err { IfErr result (λ e. e ≡ Memory) }
    {
        let alloc = alloc.clone()?;
        let mode = match &self.mode {
            Mode::List { list, .. } => Mode::List {
                list: list.clone_in(alloc)?,
                hll_type,
            },
            Mode::Set { set, .. } => Mode::Set {
                set: set.clone_in(alloc)?,
                hll_type,
            },
            Mode::Array4(_) | Mode::Array6(_) | Mode::Array8(_) => unreachable!(),
        };
        Ok(HllSketch {
            lg_config_k: self.lg_config_k,
            mode,
        })
    }

    /// Returns the sketch at a width: coupons at the size of their table, or registers with their estimate state. Nothing is
    /// copied unless it changes.
    ///
    /// Fails with `Memory`, only for registers at another width than their own.
    pub fn into_width(self, hll_type: HllType) -> Result<HllSketch<A>, Error>
        ensures ok { IfOk result (λ s. sketch_of s ≡ record (sketch_of self) { width = hll_type }) }
        ensures needed { OnErr result ((in_registers (content_in self.layout) ≡ true) × (hll_type ≢ width_of self.layout)) }
        ensures err { IfErr result (λ e. e ≡ Memory) }
    {
        self.value_is_legal();
        if hll_type == self.target_type() {
            return Ok(self);
        }
        let HllSketch { lg_config_k, mode } = self;
        Ok(HllSketch {
            lg_config_k,
            mode: mode.into_width(hll_type)?,
        })
    }

    /// Returns the registers that its pairs fold to at an `lg_k`: 2^`lg_k` values of 0 to 63.
    ///
    /// `lg_k` is 4 to the sketch's. Allocates one byte for each register, and takes one pass. Fails with `Memory`.
    pub fn registers_at(&self, lg_k: u8) -> Result<Vec<u8, A>, Error>
        requires least { 4 ≤ lg_k }
        requires most { lg_k ≤ self.now.lg_k }
        ensures ok { IfOk result (λ values. values.items ≡ fold_to (pairs_of (sketch_of self.now)) lg_k) }
        ensures err { IfErr result (λ e. e ≡ Memory) }
    {
        self.registers_in(self.allocator().clone()?, lg_k)
    }

    /// Returns what `registers_at` does, in memory of this allocator.
    pub(crate) fn registers_in(&self, alloc: A, lg_k: u8) -> Result<Vec<u8, A>, Error>
        requires least { 4 ≤ lg_k }
        requires most { lg_k ≤ self.now.lg_k }
        ensures ok { IfOk result (λ values. values.items ≡ fold_to (pairs_of (sketch_of self.now)) lg_k) }
        ensures err { IfErr result (λ e. e ≡ Memory) }
    {
        Ok(fold_of(alloc, &self.mode, lg_k)?.into_values())
    }

    /// Returns the sketch folded to an `lg_k`, at the same width (docs/MODEL.md, "Folding"): all coupons are kept, and
    /// registers keep their estimate state only at their own `lg_k`.
    ///
    /// Fails with `Argument` if `lg_k` is not 4 to the sketch's, or else with `Memory`.
    pub fn folded(&self, lg_k: u8) -> Result<HllSketch<A>, Error>
        ensures ok { IfOk result (λ s. sketch_of s ≡ folding.folded (sketch_of self.now) lg_k) }
        ensures lg_k { OnOk result (IsFoldLgK self.now.lg_k lg_k) }
        ensures outside { IfErr result (λ e. e ≡ reasons.Argument → IsFoldLgK self.now.lg_k lg_k → ⊥) }
        ensures within { IfErr result (λ e. e ≡ Memory → IsFoldLgK self.now.lg_k lg_k) }
        ensures err { IfErr result (λ e. (e ≡ reasons.Argument) ⊎ (e ≡ Memory)) }
    {
        if lg_k < MIN_LG_K || self.lg_config_k < lg_k {
            return Err(Error::new(Reason::Argument));
        }
        Ok(HllSketch {
            lg_config_k: lg_k,
            mode: self.folded_mode(lg_k)?,
        })
    }

    /// Returns whether the sketch is its own fold to an `lg_k`, so `folded` would only make a copy. It is at its own `lg_k`,
    /// with registers, or with coupons in the smallest table that holds them.
    pub fn is_own_fold(&self, lg_k: u8) -> bool
        ensures { IsTrue result ↔ (folding.folded (sketch_of self.now) lg_k ≡ sketch_of self.now) }
    {
        self.value_is_legal();
        if self.lg_config_k != lg_k {
            return false;
        }
        match &self.mode {
            Mode::List { list, .. } => has_least_size(lg_k, list.container()),
            Mode::Set { set, .. } => has_least_size(lg_k, set.container()),
            Mode::Array4(_) | Mode::Array6(_) | Mode::Array8(_) => true,
        }
    }

    /// Returns the mode at an `lg_k`.
    fn folded_mode(&self, lg_k: u8) -> Result<Mode<A>, Error>
        requires { IsFoldLgK self.now.lg_k lg_k }
        ensures content { IfOk result (λ m. content_in (layout_of m) ≡ folding.folded_content self.now.lg_k lg_k (content_in self.now.layout)) }
        ensures layout { IfOk result (λ m. IsLayoutFor lg_k (layout_of m)) }
        ensures width { IfOk result (λ m. width_of (layout_of m) ≡ width_of self.now.layout) }
        ensures err { IfErr result (λ e. e ≡ Memory) }
    {
        match &self.mode {
            Mode::List { list, hll_type } => mode_of_coupons(lg_k, *hll_type, list.container()),
            Mode::Set { set, hll_type } => mode_of_coupons(lg_k, *hll_type, set.container()),
            Mode::Array4(_) | Mode::Array6(_) | Mode::Array8(_) => self.folded_registers(lg_k),
        }
    }

    /// Returns the registers at an `lg_k`.
    fn folded_registers(&self, lg_k: u8) -> Result<Mode<A>, Error>
        requires lg_k { IsFoldLgK self.now.lg_k lg_k }
        requires registers { in_registers (content_in self.now.layout) ≡ true }
        ensures content { IfOk result (λ m. content_in (layout_of m) ≡ folding.folded_content self.now.lg_k lg_k (content_in self.now.layout)) }
        ensures layout { IfOk result (λ m. IsLayoutFor lg_k (layout_of m)) }
        ensures width { IfOk result (λ m. width_of (layout_of m) ≡ width_of self.now.layout) }
        ensures err { IfErr result (λ e. e ≡ Memory) }
    {
        self.value_is_legal();
        if lg_k == self.lg_config_k {
            self.mode.clone()
        } else {
            array_into_mode(
                fold_of(self.allocator().clone()?, &self.mode, lg_k)?,
                self.target_type(),
            )
        }
    }
}
