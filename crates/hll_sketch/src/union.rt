// SPDX-License-Identifier: Apache-2.0
//! Unions of sketches (docs/MODEL.md, "Merging").
ghost use Rattle.std.specs.Prelude.{◌≡◌, ◌≢◌, ◌≤◌, ◌⊎◌, ◌↔◌, true, false, IsTrue, [], ◌∷◌, fold, IfOk, IfErr, OnOk, OnErr, IfSome, IfNone};
ghost use Rattle.hll_base.specs.declared.error.Reason.TheVariants.{Memory};
ghost use Rattle.hll_base.specs.declared.error.Reason.TheVariants as reasons;
ghost use Rattle.hll_base.specs.Hash.{hash_of, initial_state, after_piece, default_seed};
ghost use Rattle.hll_coupons.specs.Hashed.{coupon_of_halves};
ghost use Rattle.hll_coupons.specs.Pair.{value_of, set_of};
ghost use Rattle.hll_base.specs.declared.hll_type.HllType.TheVariants.{Hll8};
ghost use Rattle.hll_sketch.specs.Adding.{add};
ghost use Rattle.hll_sketch.specs.Agree.{Agree};
ghost use Rattle.hll_sketch.specs.Layout.{sketch_of, NeedsMemory};
ghost use Rattle.hll_sketch.specs.Merging.{empty_union};
ghost use Rattle.hll_sketch.specs.Union.{gadget_of, IsGadget};
ghost use Rattle.hll_sketch.specs.Value.{IsLegal, IsLgK, in_registers, is_empty, size_of};

use crate::sketch::HllSketch;
use hll_base::error::Error;
use hll_base::hll_type::HllType;
use hll_coupons::coupon::Coupon;
use std::alloc::{Allocator, Global};
use std::hash::Hash;
use std::marker::Model;

/// A union: a bound of the `lg_k`, and a gadget that sketches are merged into. The gadget is a sketch with a width of 8 bits:
/// it has coupons at the bound, or registers at the bound or at a smaller `lg_k`. Contracts see the bound and the gadget.
// More methods are in the modules merge and unions.
#[derive_where(Debug)]
#[derive(Drop)]
pub struct HllUnion<A: Allocator = Global> {
    pub(crate) lg_max_k: u8,
    pub(crate) gadget: HllSketch<A>,
}

impl<A: Allocator> Model for HllUnion<A> {
    ghost use Rattle.hll_sketch.specs.Layout.{sketch_of};
    ghost use Rattle.hll_sketch.specs.Union.{UnionLayout, IsGadget};
    ghost use Rattle.hll_sketch.specs.Value.{IsLgK};

    ghost Value = { UnionLayout };

    ghost view = { λ u. record { lg_max_k = u.lg_max_k; gadget = u.gadget } };

    ghost invariant = { λ u. IsLgK u.lg_max_k × IsGadget u.lg_max_k (sketch_of u.gadget) };
}

impl<A: Allocator> HllUnion<A> {
    /// Returns a union of nothing: an empty list at the bound.
    ///
    /// Fails with `Argument` if `lg_max_k` is not 4 to 21.
    pub fn new(alloc: A, lg_max_k: u8) -> Result<HllUnion<A>, Error>
        ensures ok { IfOk result (λ u. (u.lg_max_k ≡ lg_max_k) × (gadget_of u ≡ empty_union lg_max_k)) }
        ensures lg_k { OnOk result (IsLgK lg_max_k) }
        ensures outside { OnErr result (IsLgK lg_max_k → ⊥) }
        ensures err { IfErr result (λ e. e ≡ reasons.Argument) }
    {
        Ok(HllUnion {
            lg_max_k,
            gadget: HllSketch::new(alloc, lg_max_k, HllType::Hll8)?,
        })
    }

    /// Returns the `lg_k` of the gadget: the smallest of the bound and of the `lg_k` of all merged sketches in registers that
    /// are not all 0.
    pub fn lg_config_k(&self) -> u8
        ensures lg_k { result ≡ (gadget_of self.now).lg_k }
        ensures legal { IsLgK result }
    {
        self.gadget.lg_config_k()
    }

    /// Returns the bound.
    pub fn lg_max_k(&self) -> u8
        ensures lg_max_k { result ≡ self.now.lg_max_k }
        ensures legal { IsLgK result }
    {
        self.lg_max_k
    }

    /// Returns whether nothing but empty sketches was merged.
    pub fn is_empty(&self) -> bool
        ensures { result ≡ is_empty (gadget_of self.now) }
    {
        self.gadget.is_empty()
    }

    /// Returns the number of bytes of the gadget's table or registers.
    pub fn estimated_size(&self) -> usize
        ensures { result ≡ size_of (gadget_of self.now) }
    {
        self.gadget.estimated_size()
    }
}

impl<A: Allocator + Clone> HllUnion<A> {
    /// Adds a coupon, as to a sketch.
    ///
    /// Its value is at least 1. Fails with `Memory`, only if a table changes its size, and then changes nothing, not even
    /// buckets.
    pub fn update_with_coupon(&mut self, coupon: Coupon) -> Result<(), Error>
        requires { 1 ≤ value_of coupon }
        ensures ok { OnOk result (gadget_of self.new ≡ add (gadget_of self.old) (set_of (coupon ∷ []))) }
        ensures bound { self.new.lg_max_k ≡ self.old.lg_max_k }
        ensures unchanged { OnErr result (self.new ≡ self.old) }
        ensures needed { OnErr result (NeedsMemory self.old.gadget.lg_k self.old.gadget.layout coupon) }
        ensures err { IfErr result (λ e. e ≡ Memory) }
    {
        self.gadget.value_is_legal();
        let _value = coupon.value();
        self.gadget.update_with_coupon(coupon)
    }

    /// Adds the coupon of a value, as `update_with_coupon` does.
    ///
    /// Fails with `Memory`, only if a table changes its size, and then changes nothing.
    pub fn update_value<T: Hash + Drop>(&mut self, value: T) -> Result<(), Error>
        ensures ok { let c = coupon_of_halves (hash_of (fold after_piece (initial_state default_seed) (T.hash_input value))) in
            OnOk result (gadget_of self.new ≡ add (gadget_of self.old) (set_of (c ∷ []))) }
        ensures bound { self.new.lg_max_k ≡ self.old.lg_max_k }
        ensures unchanged { OnErr result (self.new ≡ self.old) }
        ensures needed { let c = coupon_of_halves (hash_of (fold after_piece (initial_state default_seed) (T.hash_input value))) in
            OnErr result (NeedsMemory self.old.gadget.lg_k self.old.gadget.layout c) }
        ensures err { IfErr result (λ e. e ≡ Memory) }
    {
        self.update_with_coupon(Coupon::from_value(value))
    }

    /// Returns the gadget at a width: its `lg_k`, and its coupons at the size of its table, or its registers with their
    /// estimate state.
    ///
    /// Fails with `Memory`.
    pub fn to_sketch(&self, hll_type: HllType) -> Result<HllSketch<A>, Error>
        ensures ok { IfOk result (λ s. sketch_of s ≡ record (gadget_of self.now) { width = hll_type }) }
        ensures err { IfErr result (λ e. e ≡ Memory) }
    {
        self.gadget.to_width(hll_type)
    }

    /// Returns the gadget at a width, as `to_sketch` does, without a copy of what doesn't change.
    ///
    /// Fails with `Memory`, only for 4-bit and 6-bit registers.
    pub fn into_sketch(self, hll_type: HllType) -> Result<HllSketch<A>, Error>
        ensures ok { IfOk result (λ s. sketch_of s ≡ record (gadget_of self) { width = hll_type }) }
        ensures needed { OnErr result ((in_registers (gadget_of self).content ≡ true) × (hll_type ≢ Hll8)) }
        ensures err { IfErr result (λ e. e ≡ Memory) }
    {
        let HllUnion { gadget, .. } = self;
        gadget.into_width(hll_type)
    }

    /// Returns the number of coupons, if there are any and no registers.
    pub(crate) fn coupons(&self) -> Option<usize>
        ensures some { IfSome result (λ count. (in_registers (gadget_of self.now).content ≡ false) × (is_empty (gadget_of self.now) ≡ false)) }
        ensures none { IfNone result ((in_registers (gadget_of self.now).content ≡ true) ⊎ (is_empty (gadget_of self.now) ≡ true)) }
        ensures gadget { IsGadget self.now.lg_max_k (gadget_of self.now) }
        ensures legal { IsLegal (gadget_of self.now) }
    {
        self.gadget.value_is_legal();
        match self.gadget.num_coupons() {
            None | Some(0) => None,
            some => some,
        }
    }

    /// Returns the allocator of the gadget.
    pub(crate) fn allocator(&self) -> &A {
        self.gadget.allocator()
    }

    /// Returns a copy of the allocator.
    ///
    /// Fails with `Memory`.
    pub(crate) fn cloned_allocator(&self) -> Result<A, Error>
        ensures { IfErr result (λ e. e ≡ Memory) }
    {
        Ok(self.gadget.allocator().clone()?)
    }

    /// Empties the union: the gadget is an empty list at the bound.
    ///
    /// Fails with `Memory`, and then changes nothing.
    pub fn reset(&mut self) -> Result<(), Error>
        ensures ok { OnOk result (gadget_of self.new ≡ empty_union self.old.lg_max_k) }
        ensures bound { self.new.lg_max_k ≡ self.old.lg_max_k }
        ensures unchanged { OnErr result (self.new ≡ self.old) }
        ensures err { IfErr result (λ e. e ≡ Memory) }
    {
        let alloc = self.gadget.allocator().clone()?;
        self.gadget = HllSketch::new(alloc, self.lg_max_k, HllType::Hll8)?;
        Ok(())
    }

    /// Returns a copy, with the same buckets.
    ///
    /// Fails with `Memory`.
    pub fn clone(&self) -> Result<HllUnion<A>, Error>
        ensures ok { IfOk result (λ u. u ≡ self.now) }
        ensures err { IfErr result (λ e. e ≡ Memory) }
    {
        Ok(HllUnion {
            lg_max_k: self.lg_max_k,
            gadget: self.gadget.clone()?,
        })
    }
}

/// Returns whether two sketches fold to the same registers at the smaller `lg_k` of both. Allocates two bytes for each register
/// at that `lg_k`.
///
/// Fails with `Memory`.
pub fn agree<A: Allocator + Clone>(a: &HllSketch<A>, b: &HllSketch<A>) -> Result<bool, Error>
    ensures ok { IfOk result (λ same. IsTrue same ↔ Agree (sketch_of a.now) (sketch_of b.now)) }
    ensures err { IfErr result (λ e. e ≡ Memory) }
{
    let lg_k = a.lg_config_k().min(b.lg_config_k());
    let others = b.registers_in(a.allocator().clone()?, lg_k)?;
    Ok(a.registers_at(lg_k)?.as_slice() == others.as_slice())
}
