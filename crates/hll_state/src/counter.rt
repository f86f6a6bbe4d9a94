// SPDX-License-Identifier: Apache-2.0
//! A state: a header, and the elements after it. Coupons are added to it, and resolved so that its sketch can be read.
ghost use Rattle.std.specs.Prelude.{◌≡◌, ◌≢◌, ◌↔◌, ℕ, ◌+◌, ◌-◌, ◌^◌, ◌<◌, ◌≤◌, ◌∷◌, [], true, false, None, IsTrue, length};
ghost use Rattle.hll_coupons.specs.Pair.{Pairs, set_of};
ghost use Rattle.hll_registers.specs.State.{state_after};
ghost use Rattle.hll_sketch.specs.Adding.{add, content_with};
ghost use Rattle.hll_sketch.specs.Laws.{add_in_turn};
ghost use Rattle.hll_sketch.specs.Stage as stages;
ghost use Rattle.hll_sketch.specs.Value.{IsLgK};
ghost use Rattle.hll_state.specs.Counter.{sketch_in, content_of, IsHeldResolved, IsResolved, AreResolved};
ghost use Rattle.hll_state.specs.CouponRun.{raws};
ghost use Rattle.hll_state.specs.Header as spec;
ghost use Rattle.hll_state.specs.Header.{most_used, AreWithin, IsHeldWithin, IsWithin, HasRoomFor, HasRoom, HasElementLeft};
ghost use Rattle.hll_state.specs.Merged.{used_in};
ghost use Rattle.hll_state.specs.Registers.{values};

use crate::header::{CouponTable, Header, Held, most_used};
use crate::registers::{is_raised, promote, raise};
use hll_coupons::raw_coupons::ascends;
use hll_registers::estimate_state::EstimateState;
use hll_registers::registers::two_to;
use hll_sketch::stage::stage;

impl Header {
    /// Makes the sketch of the state ready to be read: afterwards coupons ascend and none is repeated, or they have become
    /// registers. The sketch is unchanged.
    pub fn resolve(&mut self, body: &mut [[u8; 4]])
        requires { IsWithin self.old (length body.old) }
        ensures within { IsWithin self.new (length body.old) }
        ensures same { sketch_in self.new body.new ≡ sketch_in self.old body.old }
        ensures resolved { IsResolved self.new body.new }
        ensures lg_k { self.new.lg_k ≡ self.old.lg_k }
        ensures widths { self.new.widths ≡ self.old.widths }
        ensures fewer { used_in self.new.held ≤ used_in self.old.held }
        ensures room { (n room : ℕ) → HasRoom self.old n room → HasRoom self.new n room }
    {
        if let Held::Coupons(coupons) = self.held {
            self.held = coupons.resolved(body, self.lg_k);
        }
    }

    /// Returns whether the sketch can be read from the elements as they are: there are registers, or the coupons ascend, none is
    /// repeated and a table holds them. It takes one pass over the coupons.
    pub fn is_resolved(&self, body: &[[u8; 4]]) -> bool
        requires { IsWithin self.now (length body.now) }
        ensures { IsTrue result ↔ IsResolved self.now body.now }
    {
        match self.held {
            Held::Coupons(coupons) => coupons.are_resolved(body, self.lg_k),
            Held::Registers(_) => true,
        }
    }

    /// Returns whether there are registers of which the coupon's is at least the coupon's value.
    #[inline(always)]
    pub(crate) fn has_raised(&self, body: &[[u8; 4]], raw: u32) -> bool
        requires { IsWithin self.now (length body.now) }
        ensures { result ≡ true → add_in_turn (sketch_in self.now body.now) (raw ∷ []) ≡ sketch_in self.now body.now }
    {
        match self.held {
            Held::Coupons(_) => false,
            Held::Registers(_) => is_raised(body, self.lg_k, raw),
        }
    }

    /// Adds a raw coupon if there are registers with the cleared estimate state, since then the header stays as it is. Returns
    /// whether there are.
    #[inline(always)]
    pub(crate) fn push_in_place(&self, body: &mut [[u8; 4]], raw: u32) -> bool
        requires { IsWithin self.now (length body.old) }
        ensures added { result ≡ true → sketch_in self.now body.new ≡ add_in_turn (sketch_in self.now body.old) (raw ∷ []) }
        ensures none { result ≡ false → body.new ≡ body.old }
    {
        if !self.has_cleared_registers() {
            return false;
        }
        raise(&mut body[..two_to(self.lg_k - 2)], self.lg_k, raw);
        true
    }

    /// Adds a raw coupon, as to a sketch. There is room for it. If its register is high enough, nothing is written.
    #[inline(always)]
    pub fn push(&mut self, body: &mut [[u8; 4]], raw: u32)
        requires within { IsWithin self.old (length body.old) }
        requires room { HasRoom self.old 1 (length body.old) }
        ensures within { IsWithin self.new (length body.old) }
        ensures added { sketch_in self.new body.new ≡ add (sketch_in self.old body.old) (set_of (raw ∷ [])) }
        ensures widths { self.new.widths ≡ self.old.widths }
        ensures room { (n room : ℕ) → HasRoom self.old (n + 1) room → HasRoom self.new n room }
    {
        if !self.has_raised(body, raw) {
            self.push_higher(body, raw);
        }
    }

    /// Adds a raw coupon, as `push` does, without looking first whether its register is high enough: for a caller that did.
    #[inline(always)]
    pub fn push_higher(&mut self, body: &mut [[u8; 4]], raw: u32)
        requires within { IsWithin self.old (length body.old) }
        requires room { HasRoom self.old 1 (length body.old) }
        ensures within { IsWithin self.new (length body.old) }
        ensures added { sketch_in self.new body.new ≡ add (sketch_in self.old body.old) (set_of (raw ∷ [])) }
        ensures widths { self.new.widths ≡ self.old.widths }
        ensures room { (n room : ℕ) → HasRoom self.old (n + 1) room → HasRoom self.new n room }
    {
        self.leave_element(body);
        self.held = match self.held {
            Held::Coupons(coupons) => Held::Coupons(coupons.with(body, self.lg_k, raw)),
            Held::Registers(state) => Held::Registers(raise_one(body, self.lg_k, raw, state)),
        };
    }

    /// Drops repeated coupons if the greatest number of elements is in use, since a coupon is about to be added. If the
    /// distinct coupons are too many for a table, they become registers.
    #[inline(always)]
    fn leave_element(&mut self, body: &mut [[u8; 4]])
        requires { IsWithin self.old (length body.old) }
        ensures within { IsWithin self.new (length body.old) }
        ensures same { (T : Pairs) → add (sketch_in self.new body.new) T ≡ add (sketch_in self.old body.old) T }
        ensures left { HasElementLeft self.new.lg_k self.new.held }
        ensures widths { self.new.widths ≡ self.old.widths }
        ensures room { (n room : ℕ) → HasRoom self.old n room → HasRoom self.new n room }
    {
        if let Held::Coupons(coupons) = self.held
            && coupons.run.used == most_used(self.lg_k)
        {
            let adding = CouponTable {
                added: true,
                ..coupons
            };
            self.held = adding.resolved(body, self.lg_k);
        }
    }
}

impl CouponTable {
    /// Returns whether the coupons ascend, none is repeated and a table holds them.
    fn are_resolved(&self, body: &[[u8; 4]], lg_k: u8) -> bool
        requires lg_k { IsLgK lg_k }
        requires within { AreWithin lg_k self.now (length body.now) }
        ensures { IsTrue result ↔ AreResolved lg_k self.now body.now }
    {
        if self.run.run < self.run.used || !self.has_table(lg_k) {
            return false;
        }
        ascends(&body[..self.run.used])
    }

    /// Returns whether the coupons, if they are distinct, don't become registers.
    fn has_table(&self, lg_k: u8) -> bool
        requires { IsLgK lg_k }
        ensures { IsTrue result ↔ (self.now.added ≡ true → stages.stage lg_k self.now.lg_size self.now.run.used ≢ None) }
    {
        !self.added || stage(lg_k, self.lg_size, self.run.used).is_some()
    }

    /// Returns the coupons, ascending and without repeats; or registers, if coupons were added and are too many for a table.
    #[inline(never)]
    fn resolved(mut self, body: &mut [[u8; 4]], lg_k: u8) -> Held
        requires lg_k { IsLgK lg_k }
        requires within { AreWithin lg_k self (length body.old) }
        ensures within { IsHeldWithin lg_k result (length body.old) }
        ensures same { content_of lg_k result body.new ≡ content_of lg_k (spec.of_coupons self) body.old }
        ensures resolved { IsHeldResolved lg_k result body.new }
        ensures left { self.added ≡ true → HasElementLeft lg_k result }
        ensures fewer { used_in result ≤ self.run.used }
        ensures room { (n room : ℕ) → HasRoomFor lg_k (spec.of_coupons self) n room → HasRoomFor lg_k result n room }
    {
        self.run.settle(body);
        if self.added && stage(lg_k, self.lg_size, self.run.used).is_none() {
            promote(self.run, body, lg_k);
            return Held::Registers(EstimateState::CLEARED);
        }
        Held::Coupons(self)
    }

    /// Returns the coupons with one more. An element is left for it.
    #[inline(always)]
    pub(crate) fn with(mut self, body: &mut [[u8; 4]], lg_k: u8, raw: u32) -> CouponTable
        requires lg_k { IsLgK lg_k }
        requires within { AreWithin lg_k self (length body.old) }
        requires room { HasRoomFor lg_k (spec.of_coupons self) 1 (length body.old) }
        requires left { HasElementLeft lg_k (spec.of_coupons self) }
        ensures within { AreWithin lg_k result (length body.old) }
        ensures added { content_of lg_k (spec.of_coupons result) body.new ≡ content_with lg_k (content_of lg_k (spec.of_coupons self) body.old) (set_of (raw ∷ [])) }
        ensures room { (n room : ℕ) → HasRoomFor lg_k (spec.of_coupons self) (n + 1) room → HasRoomFor lg_k (spec.of_coupons result) n room }
        ensures size { result.lg_size ≡ self.lg_size }
        ensures added_one { result.added ≡ true }
    {
        self.added = true;
        self.run.push(body, raw);
        self
    }

    /// Returns the coupons with others, which are few enough for the elements that may be in use.
    pub(crate) fn with_all(
        mut self,
        body: &mut [[u8; 4]],
        lg_k: u8,
        others: &[[u8; 4]],
    ) -> CouponTable
        requires lg_k { IsLgK lg_k }
        requires within { AreWithin lg_k self (length body.old) }
        requires room { HasRoomFor lg_k (spec.of_coupons self) (length others.now) (length body.old) }
        requires few { self.run.used + length others.now ≤ most_used lg_k }
        ensures within { AreWithin lg_k result (length body.old) }
        ensures added { content_of lg_k (spec.of_coupons result) body.new ≡ content_with lg_k (content_of lg_k (spec.of_coupons self) body.old) (set_of (raws others.now)) }
        ensures room { (n room : ℕ) → HasRoomFor lg_k (spec.of_coupons self) (n + length others.now) room → HasRoomFor lg_k (spec.of_coupons result) n room }
    {
        self.added = true;
        self.run.extend(body, others);
        self
    }
}

/// Raises the register of a raw coupon. Returns the estimate state, which is cleared if the register rose.
#[inline(always)]
fn raise_one(body: &mut [[u8; 4]], lg_k: u8, raw: u32, state: EstimateState) -> EstimateState
    requires lg_k { IsLgK lg_k }
    requires within { 2 ^ (lg_k - 2) ≤ length body.old }
    ensures { content_of lg_k (spec.of_registers result) body.new ≡ content_with lg_k (content_of lg_k (spec.of_registers state) body.old) (set_of (raw ∷ [])) }
{
    if raise(&mut body[..two_to(lg_k - 2)], lg_k, raw) {
        EstimateState::CLEARED
    } else {
        state
    }
}
