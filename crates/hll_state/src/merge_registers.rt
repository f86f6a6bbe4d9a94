// SPDX-License-Identifier: Apache-2.0
//! Merges registers into a state, in place, at the smaller `lg_k`.
ghost use Rattle.std.specs.Prelude.{◌≡◌, ◌+◌, ◌-◌, ◌^◌, ◌≤◌, ◌&&◌, if◌then◌else◌, nat_le, true, false, ℕ, length, min, take, IfSome, IfNone};
ghost use Rattle.std.specs.List.{list_all};
ghost use Rattle.hll_arrays.specs.FewExceptions.{registers_with, HasExceptions};
ghost use Rattle.hll_coupons.specs.Fold.{fold_to};
ghost use Rattle.hll_registers.specs.State.{cleared_state};
ghost use Rattle.hll_registers.specs.declared.estimate_state.EstimateState.{EstimateState};
ghost use Rattle.hll_sketch.specs.Merging as merging;
ghost use Rattle.hll_sketch.specs.Value as content;
ghost use Rattle.hll_sketch.specs.Value.{Sketch, in_registers, pairs_of};
ghost use Rattle.hll_state.specs.Counter.{sketch_in, IsResolved};
ghost use Rattle.hll_state.specs.CouponRun.{raws};
ghost use Rattle.hll_state.specs.Header.{has_registers, IsWithin, HasRoom, HasShortTail};
ghost use Rattle.hll_state.specs.Merged.{HasSomeRegister, used_in};
ghost use Rattle.hll_state.specs.Registers.{values};
ghost use Rattle.hll_state.specs.declared.header.Held.TheVariants.{Registers};

use crate::header::{Header, Held};
use crate::registers::{
    fold, max_with, max_with_bytes, max_with_few_exceptions, promote, write_all,
};
use hll_arrays::few_exceptions::FewExceptions;
use hll_registers::estimate_state::EstimateState;
use hll_registers::register_slice::RegisterSlice;
use hll_registers::registers::{Registers, two_to};

impl Header {
    /// Merges registers: at each slot of the smaller `lg_k`, which the state has afterwards, it holds the greater value of
    /// both. Returns whether there was room. If there was none, the sketch of the state is unchanged.
    ///
    /// An empty state copies the estimate state, if the `lg_k` of the source is at most its own.
    pub fn merge_registers<R: Registers>(&mut self, body: &mut [[u8; 4]], src: &R) -> bool
        requires { IsWithin self.old (length body.old) }
        ensures within { IsWithin self.new (length body.old) }
        ensures merged { let x = R.stored src.now in
            HasSomeRegister (sketch_in self.old body.old) → result ≡ true → sketch_in self.new body.new ≡ merging.merge_registers self.old.lg_k (sketch_in self.old body.old) x.lg_k x.registers x.state }
        ensures same { result ≡ false → sketch_in self.new body.new ≡ sketch_in self.old body.old }
        ensures widths { self.new.widths ≡ self.old.widths }
        ensures none { let x = R.stored src.now in
            result ≡ false → 2 ^ (min self.old.lg_k x.lg_k - 2) + used_in self.old.held ≤ length body.old → ⊥ }
        ensures takes { let x = R.stored src.now in
            result ≡ true → (room : ℕ) → 2 ^ (min self.old.lg_k x.lg_k - 2) + used_in self.old.held ≤ room → HasRoom self.new 0 room }
        ensures keeps { result ≡ false → (n room : ℕ) → HasRoom self.old n room → HasRoom self.new n room }
        ensures short { result ≡ false → HasShortTail self.new.held }
    {
        let bound = self.lg_k;
        let is_empty = self.is_empty();
        self.resolve(body);
        let lg_k = bound.min(src.lg_k());
        if !self.make_registers(body, lg_k) {
            return false;
        }
        max_with(&mut body[..two_to(lg_k - 2)], lg_k, src);
        self.lg_k = lg_k;
        self.held = Held::Registers(state_after_merge(is_empty, bound, src));
        true
    }

    /// Merges 8-bit registers as `merge_registers` does. An empty state of their `lg_k` copies them.
    pub(crate) fn merge_bytes(&mut self, body: &mut [[u8; 4]], src: &RegisterSlice<'_>) -> bool
        requires { IsWithin self.old (length body.old) }
        ensures within { IsWithin self.new (length body.old) }
        ensures merged { let x = src.now in
            HasSomeRegister (sketch_in self.old body.old) → result ≡ true → sketch_in self.new body.new ≡ merging.merge_registers self.old.lg_k (sketch_in self.old body.old) x.lg_k x.registers x.state }
        ensures same { result ≡ false → sketch_in self.new body.new ≡ sketch_in self.old body.old }
        ensures widths { self.new.widths ≡ self.old.widths }
        ensures none { let x = src.now in
            result ≡ false → 2 ^ (min self.old.lg_k x.lg_k - 2) + used_in self.old.held ≤ length body.old → ⊥ }
        ensures takes { let x = src.now in
            result ≡ true → (room : ℕ) → 2 ^ (min self.old.lg_k x.lg_k - 2) + used_in self.old.held ≤ room → HasRoom self.new 0 room }
        ensures keeps { result ≡ false → (n room : ℕ) → HasRoom self.old n room → HasRoom self.new n room }
        ensures short { result ≡ false → HasShortTail self.new.held }
    {
        let len = two_to(self.lg_k - 2);
        if !self.is_empty() || self.lg_k != src.lg_k() || body.len() < len {
            return self.merge_registers(body, src);
        }
        write_all(&mut body[..len], src.values());
        self.held = Held::Registers(src.estimate_state());
        true
    }

    /// Takes the maximum with 2^`lg_k` bytes in one pass, if the state has registers at this `lg_k`, of which there are at least
    /// 64. Returns the greatest byte, or `None` if nothing was done.
    ///
    /// The bytes are merged as registers are. They are not checked: if the greatest is above 63, so is a register of the state.
    pub fn max_with_bytes(&mut self, body: &mut [[u8; 4]], lg_k: u8, bytes: &[u8]) -> Option<u8>
        requires within { IsWithin self.old (length body.old) }
        requires size { length bytes.now ≡ 2 ^ lg_k }
        ensures within { IsWithin self.new (length body.old) }
        ensures merged { IfSome result (λ _. (y : Sketch) (state : EstimateState) → y.lg_k ≡ lg_k → y.content ≡ content.registers bytes.now state → HasSomeRegister (sketch_in self.old body.old)
            → sketch_in self.new body.new ≡ merging.merge self.old.lg_k (sketch_in self.old body.old) y) }
        ensures registers { IfSome result (λ _. in_registers (sketch_in self.old body.old).content ≡ true) }
        ensures greatest { IfSome result (λ greatest. (bound : ℕ) → list_all (λ b. nat_le b bound) bytes.now ≡ nat_le greatest bound) }
        ensures none { IfNone result ((self.new ≡ self.old) × (body.new ≡ body.old)) }
        ensures lacks { IfNone result (self.old.lg_k ≡ lg_k → 6 ≤ lg_k → has_registers self.old.held ≡ false) }
    {
        if !self.has_registers_at(lg_k) {
            return None;
        }
        let greatest = max_with_bytes(&mut body[..two_to(lg_k - 2)], bytes);
        if greatest > 0 {
            self.held = Held::Registers(EstimateState::CLEARED);
        }
        Some(greatest)
    }

    /// Takes the maximum with 4-bit registers that have few exceptions, if the state has registers at their `lg_k`, of which there
    /// are at least 64. Returns whether it did. If not, nothing changes.
    pub fn max_with_few_exceptions(&mut self, body: &mut [[u8; 4]], few: &FewExceptions<'_>) -> bool
        requires within { IsWithin self.old (length body.old) }
        requires parts { HasExceptions few.now.lg_k few.now.minimum few.now.nibbles.now (raws few.now.entries.now) }
        ensures within { IsWithin self.new (length body.old) }
        ensures merged { result ≡ true → (y : Sketch) (state : EstimateState) → y.lg_k ≡ few.now.lg_k → y.content ≡ content.registers (registers_with few.now.lg_k few.now.minimum few.now.nibbles.now (raws few.now.entries.now)) state
            → HasSomeRegister (sketch_in self.old body.old) → sketch_in self.new body.new ≡ merging.merge self.old.lg_k (sketch_in self.old body.old) y }
        ensures registers { result ≡ true → in_registers (sketch_in self.old body.old).content ≡ true }
        ensures unchanged { result ≡ false → (self.new ≡ self.old) × (body.new ≡ body.old) }
    {
        if !self.has_registers_at(few.lg_k) {
            return false;
        }
        max_with_few_exceptions(&mut body[..two_to(few.lg_k - 2)], few);
        self.held = Held::Registers(EstimateState::CLEARED);
        true
    }

    /// Returns whether the state has registers at this `lg_k`, and at least 64 of them.
    fn has_registers_at(&self, lg_k: u8) -> bool
        ensures has { result ≡ true → (self.now.lg_k ≡ lg_k) × (6 ≤ lg_k) × ((state : EstimateState) × (self.now.held ≡ Registers state)) }
        ensures lacks { result ≡ false → self.now.lg_k ≡ lg_k → 6 ≤ lg_k → has_registers self.now.held ≡ false }
    {
        match self.held {
            Held::Coupons(_) => false,
            Held::Registers(_) => self.lg_k == lg_k && 6 <= lg_k,
        }
    }

    /// Writes the registers that a resolved state folds to at an `lg_k` of at most its own, and returns whether there was room.
    /// If there was none, nothing changes.
    fn make_registers(&self, body: &mut [[u8; 4]], lg_k: u8) -> bool
        requires within { IsWithin self.now (length body.old) }
        requires resolved { IsResolved self.now body.old }
        requires least { 4 ≤ lg_k }
        requires most { lg_k ≤ self.now.lg_k }
        ensures made { result ≡ true → values (take (2 ^ (lg_k - 2)) body.new) ≡ fold_to (pairs_of (sketch_in self.now body.old)) lg_k }
        ensures room { result ≡ true → 2 ^ (lg_k - 2) ≤ length body.old }
        ensures unchanged { result ≡ false → body.new ≡ body.old }
        ensures none { result ≡ false → 2 ^ (lg_k - 2) + used_in self.now.held ≤ length body.old → ⊥ }
    {
        match self.held {
            Held::Coupons(coupons) => {
                if body.len() < two_to(lg_k - 2) + coupons.run.used {
                    return false;
                }
                promote(coupons.run, body, lg_k);
            }
            Held::Registers(_) => fold(&mut body[..two_to(self.lg_k - 2)], self.lg_k, lg_k),
        }
        true
    }
}

/// Returns the estimate state after a merge of registers: the source's, if the state was empty and the source's `lg_k` is at
/// most the bound; else the cleared one.
fn state_after_merge<R: Registers>(is_empty: bool, bound: u8, src: &R) -> EstimateState
    ensures { let x = R.stored src.now in result ≡ (if is_empty && nat_le x.lg_k bound then x.state else cleared_state) }
{
    if is_empty && src.lg_k() <= bound {
        src.estimate_state()
    } else {
        EstimateState::CLEARED
    }
}
