// SPDX-License-Identifier: Apache-2.0
//! Sketches (docs/MODEL.md, "Sketch values" and "Adding").
ghost use Rattle.std.specs.Prelude.{◌≡◌, ◌^◌, ◌<◌, ◌≤◌, ◌⊎◌, ◌↔◌, length, take, [], ◌∷◌, true, false, All, IsTrue, fold, Some, None, IfOk, IfErr, IfSome, IfNone, OnOk, OnErr};
ghost use Rattle.hll_base.specs.declared.error.Reason.TheVariants.{Memory};
ghost use Rattle.hll_base.specs.declared.error.Reason.TheVariants as reasons;
ghost use Rattle.hll_base.specs.Hash.{hash_of, initial_state, after_piece, default_seed};
ghost use Rattle.hll_coupons.specs.Hashed.{coupon_of_halves};
ghost use Rattle.hll_coupons.specs.Pair.{value_of, set_of};
ghost use Rattle.hll_coupons.specs.Table.{coupons_in, coupons_of};
ghost use Rattle.hll_sketch.specs.Adding.{add, content_with};
ghost use Rattle.hll_registers.specs.declared.estimate_state.EstimateState.{EstimateState};
ghost use Rattle.hll_registers.specs.State.{cleared_state};
ghost use Rattle.hll_registers.specs.Store.{update_with_coupon};
ghost use Rattle.hll_sketch.specs.Laws.{add_in_turn, AddsSome, PutsSome};
ghost use Rattle.hll_sketch.specs.EstimatorFields.{SetsFields, AreFieldsIn, HasClearedState, FillsFields, cleared, with_state};
ghost use Rattle.hll_sketch.specs.Layout.{layout_of, content_in, width_of, sketch_of, IsLayoutFor, can_hold_with, count_in, NeedsMemory};
ghost use Rattle.hll_sketch.specs.Value.{IsLgK, coupons, empty_sketch, in_registers, is_empty, pairs_of, size_of, IsLegal};
ghost use Rattle.hll_sketch.specs.Written.{Written};

use crate::mode::Mode;
use crate::promotion::promoted_table;
use crate::stage::most_kept;
use hll_arrays::estimate_state::EstimateState;
use hll_arrays::register_store::RegisterStore;
use hll_arrays::registers::{Registers, two_to};
use hll_base::bounds::{MAX_LG_K, MIN_LG_K};
use hll_base::error::{Error, Reason};
use hll_base::hll_type::HllType;
use hll_coupons::container::{Container, Insertion};
use hll_coupons::coupon::Coupon;
use hll_coupons::list::List;
use std::alloc::{Allocator, Global};
use std::fmt;
use std::hash::Hash;
use std::marker::Model;

/// A sketch: an `lg_k`, and a mode. Contracts see the `lg_k` and the layout of the mode, including the buckets of tables; the
/// sketch value is a function of them.
// More methods are in the modules additions, conversion, image_check, merge and read_image.
#[derive(Drop)]
pub struct HllSketch<A: Allocator = Global> {
    pub(crate) lg_config_k: u8,
    pub(crate) mode: Mode<A>,
}

impl<A: Allocator> Model for HllSketch<A> {
    ghost use Rattle.hll_sketch.specs.Layout.{SketchLayout, layout_of, IsLayoutFor};
    ghost use Rattle.hll_sketch.specs.Value.{IsLgK};

    ghost Value = { SketchLayout };

    ghost view = { λ s. record { lg_k = s.lg_config_k; layout = layout_of s.mode } };

    ghost invariant = { λ s. IsLgK s.lg_config_k × IsLayoutFor s.lg_config_k (layout_of s.mode) };
}

impl<A: Allocator> HllSketch<A> {
    /// Returns an empty sketch: a list, with the width that its registers will have.
    ///
    /// Fails with `Argument` if `lg_config_k` is not 4 to 21.
    pub fn new(alloc: A, lg_config_k: u8, hll_type: HllType) -> Result<HllSketch<A>, Error>
        ensures ok { IfOk result (λ s. sketch_of s ≡ empty_sketch lg_config_k hll_type) }
        ensures lg_k { OnOk result (IsLgK lg_config_k) }
        ensures outside { OnErr result (IsLgK lg_config_k → ⊥) }
        ensures err { IfErr result (λ e. e ≡ reasons.Argument) }
    {
        if lg_config_k < MIN_LG_K || lg_config_k > MAX_LG_K {
            return Err(Error::new(Reason::Argument));
        }
        let list = List::default_in(alloc);
        Ok(HllSketch {
            lg_config_k,
            mode: Mode::List { list, hll_type },
        })
    }

    /// Returns the `lg_k`, 4 to 21.
    pub fn lg_config_k(&self) -> u8
        ensures lg_k { result ≡ self.now.lg_k }
        ensures legal { IsLgK self.now.lg_k }
    {
        self.lg_config_k
    }

    /// Returns the width of registers.
    pub fn target_type(&self) -> HllType
        ensures { result ≡ width_of self.now.layout }
    {
        match &self.mode {
            Mode::List { hll_type, .. } | Mode::Set { hll_type, .. } => *hll_type,
            Mode::Array4(_) => HllType::Hll4,
            Mode::Array6(_) => HllType::Hll6,
            Mode::Array8(_) => HllType::Hll8,
        }
    }

    /// Returns the mode.
    pub fn mode(&self) -> &Mode<A>
        ensures { layout_of result.now ≡ self.now.layout }
    {
        &self.mode
    }

    /// States that the layout is valid for the `lg_k`. Does nothing at run time: a caller whose proof needs the invariant calls
    /// it.
    pub fn layout_is_legal(&self)
        ensures { IsLayoutFor self.now.lg_k self.now.layout }
    {
        let _lg_k = self.lg_config_k;
    }

    /// Returns whether there are no coupons, or registers that are all 0.
    pub fn is_empty(&self) -> bool
        ensures { result ≡ is_empty (sketch_of self.now) }
    {
        match &self.mode {
            Mode::List { list, .. } => list.container().len() == 0,
            Mode::Set { set, .. } => set.container().len() == 0,
            Mode::Array4(array) => array.is_empty(),
            Mode::Array6(array) => array.is_empty(),
            Mode::Array8(array) => array.is_empty(),
        }
    }

    /// Returns the table of its coupons, or `None` for registers.
    pub(crate) fn table(&self) -> Option<&Container<A>>
        ensures some { IfSome result (λ table. content_in self.now.layout ≡ coupons (coupons_of table.now) table.now.lg_size) }
        ensures none { IfNone result (in_registers (content_in self.now.layout) ≡ true) }
        ensures legal { IfSome result (λ table. length (coupons_in table.now.buckets) < 2 ^ 19) }
    {
        match &self.mode {
            Mode::List { list, .. } => {
                list.container().table_is_legal();
                Some(list.container())
            }
            Mode::Set { set, .. } => Some(set.container()),
            Mode::Array4(_) | Mode::Array6(_) | Mode::Array8(_) => None,
        }
    }

    /// Returns whether the sketch has registers.
    pub(crate) fn in_registers(&self) -> bool
        ensures { result ≡ in_registers (content_in self.now.layout) }
    {
        match &self.mode {
            Mode::List { .. } | Mode::Set { .. } => false,
            Mode::Array4(_) | Mode::Array6(_) | Mode::Array8(_) => true,
        }
    }

    /// Returns the number of coupons of a list or a set, or `None` for registers.
    pub fn num_coupons(&self) -> Option<usize>
        ensures { result ≡ count_in (content_in self.now.layout) }
    {
        match &self.mode {
            Mode::List { list, .. } => Some(list.container().len()),
            Mode::Set { set, .. } => Some(set.container().len()),
            Mode::Array4(_) | Mode::Array6(_) | Mode::Array8(_) => None,
        }
    }

    /// Returns the name of the estimator that the estimate state of registers belongs to, or `None` for coupons.
    fn estimator(&self) -> Option<&'static str> {
        let state = match &self.mode {
            Mode::List { .. } | Mode::Set { .. } => return None,
            Mode::Array4(array) => array.estimate_state(),
            Mode::Array6(array) => array.estimate_state(),
            Mode::Array8(array) => array.estimate_state(),
        };
        if state.out_of_order {
            Some("Composite")
        } else {
            Some("HIP")
        }
    }

    /// Sets the estimator fields of registers (hipAccum, kxq0, kxq1), and the out-of-order flag
    /// (docs/FORMAT.md, "Estimator fields"). A list or a set is unchanged.
    ///
    /// The registers, buckets and size are unchanged. It takes one pass over the registers.
    pub fn set_estimator_fields(&mut self)
        ensures fields { SetsFields (sketch_of self.old) (sketch_of self.new) }
        ensures rest { (s : EstimateState) × (self.new ≡ record self.old { layout = with_state self.old.layout s }) }
    {
        if let Some(fields) = self.estimator_fields() {
            self.restore_estimate_state(fields);
        }
    }

    /// Sets the estimator fields of registers whose estimate state is cleared, as `set_estimator_fields` does. Any other
    /// estimate state is unchanged.
    pub fn fill_estimator_fields(&mut self)
        ensures fields { FillsFields (sketch_of self.old) (sketch_of self.new) }
        ensures rest { (s : EstimateState) × (self.new ≡ record self.old { layout = with_state self.old.layout s }) }
    {
        if self.has_cleared_state() {
            self.set_estimator_fields();
        }
    }

    /// Clears the estimate state of registers: fields of 0, with the out-of-order flag. A list or a set is unchanged.
    pub fn clear_estimator_fields(&mut self)
        ensures state { sketch_of self.new ≡ cleared (sketch_of self.old) }
        ensures rest { self.new ≡ record self.old { layout = with_state self.old.layout cleared_state } }
    {
        self.restore_estimate_state(EstimateState::CLEARED);
    }

    /// Returns whether the sketch has registers whose estimate state is cleared.
    fn has_cleared_state(&self) -> bool
        ensures { IsTrue result ↔ HasClearedState (content_in self.now.layout) }
    {
        match &self.mode {
            Mode::List { .. } | Mode::Set { .. } => false,
            Mode::Array4(array) => array.estimate_state() == EstimateState::CLEARED,
            Mode::Array6(array) => array.estimate_state() == EstimateState::CLEARED,
            Mode::Array8(array) => array.estimate_state() == EstimateState::CLEARED,
        }
    }

    /// Returns the estimate state with the estimator fields of the registers, or `None` for coupons.
    fn estimator_fields(&self) -> Option<EstimateState>
        ensures { AreFieldsIn (content_in self.now.layout) result }
    {
        match &self.mode {
            Mode::List { .. } | Mode::Set { .. } => None,
            Mode::Array4(array) => Some(array.estimator_fields()),
            Mode::Array6(array) => Some(array.estimator_fields()),
            Mode::Array8(array) => Some(array.estimator_fields()),
        }
    }

    /// Sets the estimate state of registers. A list or a set has none, and is unchanged.
    fn restore_estimate_state(&mut self, state: EstimateState)
        ensures { self.new ≡ record self.old { layout = with_state self.old.layout state } }
    {
        match &mut self.mode {
            Mode::List { .. } | Mode::Set { .. } => {}
            Mode::Array4(array) => array.restore_estimate_state(state),
            Mode::Array6(array) => array.restore_estimate_state(state),
            Mode::Array8(array) => array.restore_estimate_state(state),
        }
    }

    /// Returns the number of bytes of the table or of the registers.
    pub fn estimated_size(&self) -> usize
        ensures { result ≡ size_of (sketch_of self.now) }
    {
        match &self.mode {
            Mode::List { list, .. } => list.container().estimated_size(),
            Mode::Set { set, .. } => set.container().estimated_size(),
            Mode::Array4(array) => array.estimated_size(),
            Mode::Array6(array) => array.estimated_size(),
            Mode::Array8(array) => array.estimated_size(),
        }
    }

    /// Returns the allocator of its table or registers.
    pub(crate) fn allocator(&self) -> &A {
        match &self.mode {
            Mode::List { list, .. } => list.container().allocator(),
            Mode::Set { set, .. } => set.container().allocator(),
            Mode::Array4(array) => array.allocator(),
            Mode::Array6(array) => array.allocator(),
            Mode::Array8(array) => array.allocator(),
        }
    }
}

impl<A: Allocator + Clone> HllSketch<A> {
    /// Returns a copy, with the same buckets.
    ///
    /// Fails with `Memory`.
    pub fn clone(&self) -> Result<HllSketch<A>, Error>
        ensures ok { IfOk result (λ s. s ≡ self.now) }
        ensures err { IfErr result (λ e. e ≡ Memory) }
    {
        Ok(HllSketch {
            lg_config_k: self.lg_config_k,
            mode: self.mode.clone()?,
        })
    }

    /// Returns the image (docs/FORMAT.md, "What is written"), with coupons and exceptions in ascending order.
    ///
    /// Allocates a sorted copy of these, and then the image, once. Fails with `Memory`.
    pub fn serialize(&self) -> Result<Vec<u8, A>, Error>
        ensures ok { IfOk result (λ image. Written image.items (sketch_of self.now)) }
        ensures err { IfErr result (λ e. e ≡ Memory) }
    {
        match &self.mode {
            Mode::List { list, hll_type } => list.serialize(self.lg_config_k, *hll_type),
            Mode::Set { set, hll_type } => set.serialize(self.lg_config_k, *hll_type),
            Mode::Array4(array) => array.serialize(self.lg_config_k),
            Mode::Array6(array) => array.serialize(self.lg_config_k),
            Mode::Array8(array) => array.serialize(self.lg_config_k),
        }
    }

    /// Adds a coupon (docs/MODEL.md, "Adding").
    ///
    /// Its value is at least 1. Fails with `Memory`, only if a table changes its size or the buckets of the exceptions of 4-bit
    /// registers do, and then changes nothing, not even buckets.
    // (inlined into the loops of callers)
    #[inline(always)]
    pub fn update_with_coupon(&mut self, coupon: Coupon) -> Result<(), Error>
        requires { 1 ≤ value_of coupon }
        ensures ok { OnOk result (sketch_of self.new ≡ add (sketch_of self.old) (set_of (coupon ∷ []))) }
        ensures unchanged { OnErr result (self.new ≡ self.old) }
        ensures needed { OnErr result (NeedsMemory self.old.lg_k self.old.layout coupon) }
        ensures err { IfErr result (λ e. e ≡ Memory) }
    {
        match &mut self.mode {
            Mode::List { .. } | Mode::Set { .. } => self.update_table(coupon),
            Mode::Array4(array) => array.update(coupon),
            Mode::Array6(array) => {
                array.update(coupon);
                Ok(())
            }
            Mode::Array8(array) => {
                array.update(coupon);
                Ok(())
            }
        }
    }

    /// Adds a coupon to a list or a set, as `update_with_coupon` does.
    // (not inlined into the loops of callers, which are meant for registers)
    #[inline(never)]
    fn update_table(&mut self, coupon: Coupon) -> Result<(), Error>
        requires valued { 1 ≤ value_of coupon }
        requires table { in_registers (content_in self.old.layout) ≡ false }
        ensures ok { OnOk result (sketch_of self.new ≡ add (sketch_of self.old) (set_of (coupon ∷ []))) }
        ensures unchanged { OnErr result (self.new ≡ self.old) }
        ensures needed { OnErr result (NeedsMemory self.old.lg_k self.old.layout coupon) }
        ensures err { IfErr result (λ e. e ≡ Memory) }
    {
        let insertion = match &mut self.mode {
            Mode::List { list, .. } => {
                let most = most_kept(list.container().lg_size() as u8);
                list.update_within(coupon, most)
            }
            Mode::Set { set, .. } => {
                let most = most_kept(set.container().lg_size() as u8);
                set.update_within(coupon, most)
            }
            Mode::Array4(_) | Mode::Array6(_) | Mode::Array8(_) => unreachable!(),
        };
        match insertion {
            Insertion::Added | Insertion::Held => Ok(()),
            Insertion::Refused => {
                self.mode = self.promoted(coupon)?;
                Ok(())
            }
        }
    }

    /// Adds the coupons of raw coupons in turn (docs/MODEL.md, "Adding"). For the calls of the C library, which drop the sketch
    /// on an error.
    ///
    /// The value of each is at least 1. Fails with `Memory`, as `update_with_coupon` does; the coupons before that are then
    /// added.
    pub fn update_with_raw_coupons(&mut self, raw_coupons: &[u32]) -> Result<(), Error>
        requires { All (λ c. 1 ≤ value_of c) raw_coupons.now }
        ensures ok { OnOk result (sketch_of self.new ≡ add_in_turn (sketch_of self.old) raw_coupons.now) }
        ensures stopped { OnErr result (AddsSome (sketch_of self.old) (sketch_of self.new) raw_coupons.now) }
        ensures err { IfErr result (λ e. e ≡ Memory) }
    {
        let count = self.update_while_table(raw_coupons)?;
        if count == raw_coupons.len() {
            return Ok(());
        }
        self.update_registers(&raw_coupons[count..])
    }

    /// Adds the coupons of raw coupons in turn to a list or a set, as long as it is one. Returns how many are added.
    ///
    /// Fails with `Memory`, as `update_with_coupon` does; the coupons before that are then added.
    fn update_while_table(&mut self, raw_coupons: &[u32]) -> Result<usize, Error>
        requires { All (λ c. 1 ≤ value_of c) raw_coupons.now }
        ensures within { IfOk result (λ count. count ≤ length raw_coupons.now) }
        ensures ok { IfOk result (λ count. sketch_of self.new ≡ add_in_turn (sketch_of self.old) (take count raw_coupons.now)) }
        ensures rest { IfOk result (λ count. count < length raw_coupons.now → in_registers (content_in self.new.layout) ≡ true) }
        ensures stopped { OnErr result (AddsSome (sketch_of self.old) (sketch_of self.new) raw_coupons.now) }
        ensures err { IfErr result (λ e. e ≡ Memory) }
    {
        for index in 0..raw_coupons.len() {
            if self.in_registers() {
                return Ok(index);
            }
            self.update_table(Coupon::from_raw(raw_coupons[index]))?;
        }
        Ok(raw_coupons.len())
    }

    /// Adds the coupons of raw coupons in turn to registers.
    ///
    /// Fails with `Memory`, as `update_with_coupon` does; the coupons before that are then added.
    fn update_registers(&mut self, raw_coupons: &[u32]) -> Result<(), Error>
        requires { in_registers (content_in self.old.layout) ≡ true }
        ensures ok { OnOk result (sketch_of self.new ≡ add_in_turn (sketch_of self.old) raw_coupons.now) }
        ensures stopped { OnErr result (AddsSome (sketch_of self.old) (sketch_of self.new) raw_coupons.now) }
        ensures err { IfErr result (λ e. e ≡ Memory) }
    {
        match &mut self.mode {
            Mode::Array4(array) => put_each(array, raw_coupons),
            Mode::Array6(array) => put_each(array, raw_coupons),
            Mode::Array8(array) => put_each(array, raw_coupons),
            Mode::List { .. } | Mode::Set { .. } => unreachable!(),
        }
    }

    /// Adds the coupon of a value, as `update_with_coupon` does.
    ///
    /// Fails with `Memory`, and then changes nothing.
    pub fn update<T: Hash + Drop>(&mut self, value: T) -> Result<(), Error>
        ensures ok { let c = coupon_of_halves (hash_of (fold after_piece (initial_state default_seed) (T.hash_input value))) in
            OnOk result (sketch_of self.new ≡ add (sketch_of self.old) (set_of (c ∷ []))) }
        ensures unchanged { OnErr result (self.new ≡ self.old) }
        ensures needed { let c = coupon_of_halves (hash_of (fold after_piece (initial_state default_seed) (T.hash_input value))) in
            OnErr result (NeedsMemory self.old.lg_k self.old.layout c) }
        ensures err { IfErr result (λ e. e ≡ Memory) }
    {
        self.update_with_coupon(Coupon::from_value(value))
    }

    /// States that the sketch value is legal. Does nothing at run time: a caller whose proof needs the invariant calls it.
    pub(crate) fn value_is_legal(&self)
        ensures { IsLegal (sketch_of self.now) }
    {
        match &self.mode {
            Mode::List { list, .. } => list.container().table_is_legal(),
            Mode::Set { set, .. } => set.container().table_is_legal(),
            // their `lg_k` makes known the invariant of registers
            Mode::Array4(array) => {
                let _lg_k = array.lg_k();
            }
            Mode::Array6(array) => {
                let _lg_k = array.lg_k();
            }
            Mode::Array8(array) => {
                let _lg_k = array.lg_k();
            }
        }
    }

    /// Returns the next stage of a sketch whose table overflows with one more coupon.
    fn promoted(&self, coupon: Coupon) -> Result<Mode<A>, Error>
        requires valued { 1 ≤ value_of coupon }
        requires overflows { can_hold_with self.now.layout coupon ≡ false }
        ensures content { IfOk result (λ mode.
            content_in (layout_of mode) ≡ content_with self.now.lg_k (content_in self.now.layout) (set_of (coupon ∷ []))) }
        ensures layout { IfOk result (λ mode. IsLayoutFor self.now.lg_k (layout_of mode)) }
        ensures width { IfOk result (λ mode. width_of (layout_of mode) ≡ width_of self.now.layout) }
        ensures err { IfErr result (λ e. e ≡ Memory) }
    {
        match &self.mode {
            Mode::List { list, hll_type } => {
                promoted_table(self.lg_config_k, *hll_type, list.container(), coupon)
            }
            Mode::Set { set, hll_type } => {
                promoted_table(self.lg_config_k, *hll_type, set.container(), coupon)
            }
            Mode::Array4(_) | Mode::Array6(_) | Mode::Array8(_) => unreachable!(),
        }
    }
}

/// Adds the coupons of raw coupons in turn to registers.
///
/// Fails with `Memory`; the coupons before that are then added.
// (a loop of its own for each representation, so that the kind is not checked at each coupon)
fn put_each<S: RegisterStore<A>, A: Allocator>(
    store: &mut S,
    raw_coupons: &[u32],
) -> Result<(), Error>
    ensures ok { OnOk result (S.stored store.new ≡ fold update_with_coupon (S.stored store.old) raw_coupons.now) }
    ensures stopped { OnErr result (PutsSome (S.stored store.old) (S.stored store.new) raw_coupons.now) }
    ensures lg_k { (S.stored store.new).lg_k ≡ (S.stored store.old).lg_k }
    ensures err { IfErr result (λ e. e ≡ Memory) }
{
    for raw_coupon in raw_coupons {
        put_one(store, Coupon::from_raw(*raw_coupon))?;
    }
    Ok(())
}

/// Adds a coupon to registers, as `put_coupon` does.
// (checks first whether a coupon raises a 4-bit register: passing on one that doesn't costs more than the check)
#[inline(always)]
fn put_one<S: RegisterStore<A>, A: Allocator>(store: &mut S, coupon: Coupon) -> Result<(), Error>
    ensures ok { OnOk result (S.stored store.new ≡ update_with_coupon (S.stored store.old) coupon) }
    ensures unchanged { OnErr result (store.new ≡ store.old) }
    ensures err { IfErr result (λ e. e ≡ Memory) }
{
    if S::WIDTH == HllType::Hll4 && is_held(store, coupon) {
        return Ok(());
    }
    store.put_coupon(coupon)
}

/// Returns whether the register at the coupon's slot modulo 2^`lg_k` has the coupon's value or a greater one, so the coupon
/// changes nothing.
#[inline(always)]
fn is_held<S: Registers>(store: &S, coupon: Coupon) -> bool
    ensures { result ≡ true → S.stored store.now ≡ update_with_coupon (S.stored store.now) coupon }
{
    let slot = coupon.slot() % two_to(store.lg_k()) as u32;
    coupon.value() <= store.get(slot)
}

/// Shows the `lg_k`, the width, the kind of mode, and whether the sketch is empty; for registers also the estimator that their
/// estimate state belongs to.
impl<A: Allocator> fmt::Debug for HllSketch<A> {
    fn fmt<W: fmt::Write>(&self, f: &mut fmt::Formatter<W>) -> fmt::Result {
        let mode = match &self.mode {
            Mode::List { .. } => "List",
            Mode::Set { .. } => "Set",
            Mode::Array4(_) | Mode::Array6(_) | Mode::Array8(_) => "Hll",
        };
        let mut shown = f.debug_struct("HllSketch");
        shown
            .field("lg_config_k", &self.lg_config_k)
            .field("target_type", &self.target_type())
            .field("mode", &mode)
            .field("is_empty", &self.is_empty());
        if let Some(estimator) = self.estimator() {
            shown.field("estimator", &estimator);
        }
        shown.finish()
    }
}

/// Sketches are equal if their `lg_k`, kind, width and coupons are equal, or their registers and estimate states. The
/// buckets of their tables don't count.
impl<A: Allocator> PartialEq for HllSketch<A> {
    ghost use Rattle.hll_sketch.specs.Same.{same_sketch, same_sketch-partial};

    ghost eq = { same_sketch };

    ghost laws = { same_sketch-partial };

    fn eq(&self, other: &HllSketch<A>) -> bool {
        self.lg_config_k == other.lg_config_k && self.mode == other.mode
    }
}

impl<A: Allocator> Eq for HllSketch<A> {
    ghost use Rattle.hll_sketch.specs.Same.{same_sketch-equivalence};

    ghost laws = { same_sketch-equivalence };
}
