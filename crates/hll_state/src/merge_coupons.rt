// SPDX-License-Identifier: Apache-2.0
//! Merges coupons into a state. An empty state copies them with the size of their table; any other state adds them.
ghost use Rattle.std.specs.Prelude.{◌≡◌, ℕ, ◌+◌, ◌≤◌, true, false, List, length};
ghost use Rattle.hll_registers.specs.State.{cleared_state};
ghost use Rattle.hll_sketch.specs.Laws.{add_in_turn};
ghost use Rattle.hll_sketch.specs.Merging as merging;
ghost use Rattle.hll_sketch.specs.Value.{IsTableFor, is_empty};
ghost use Rattle.hll_state.specs.Counter.{sketch_in};
ghost use Rattle.hll_state.specs.CouponRun.{raws};
ghost use Rattle.hll_state.specs.Header as spec;
ghost use Rattle.hll_state.specs.Header.{IsWithin, HasRoom, HasShortTail};
ghost use Rattle.hll_state.specs.Merged.{table_of, HasSomeRegister, is_unused};

use crate::elements::copy_to;
use crate::header::{CouponTable, Header, Held, elements_for, most_used};
use crate::registers::raise_all;
use crate::run::CouponRun;
use hll_registers::estimate_state::EstimateState;
use hll_registers::registers::two_to;

impl Header {
    /// Merges the coupons of a sketch: at least one, and each once. An empty state of the same `lg_k` copies them all, with the
    /// size of their table; any other state adds them. Returns whether there was room. If there was none, the sketch of the
    /// state is unchanged.
    ///
    /// A state of registers counts as not empty, so its registers must not all be 0. No call leaves such a state. `lg_size` is
    /// the logarithm of the number of buckets of their table at `lg_k`: 3, or 5 to `lg_k` - 3. The number of elements that
    /// `most_elements` returns is always enough.
    pub fn merge_coupons(
        &mut self,
        body: &mut [[u8; 4]],
        lg_k: u8,
        lg_size: u8,
        coupons: &[[u8; 4]],
    ) -> bool
        requires within { IsWithin self.old (length body.old) }
        requires some { 1 ≤ length coupons.now }
        requires table { IsTableFor lg_k (length coupons.now) lg_size }
        ensures within { IsWithin self.new (length body.old) }
        ensures merged { HasSomeRegister (sketch_in self.old body.old) → result ≡ true → sketch_in self.new body.new ≡ merging.merge_coupons (sketch_in self.old body.old) (table_of lg_k lg_size coupons.now) }
        ensures same { result ≡ false → sketch_in self.new body.new ≡ sketch_in self.old body.old }
        ensures widths { self.new.widths ≡ self.old.widths }
        ensures none { result ≡ false → HasRoom self.old (length coupons.now) (length body.old) → ⊥ }
        ensures takes { result ≡ true → (room : ℕ) → HasRoom self.old (length coupons.now) room → HasRoom self.new 0 room }
        ensures keeps { result ≡ false → (n room : ℕ) → HasRoom self.old n room → HasRoom self.new n room }
        ensures short { result ≡ false → HasShortTail self.new.held }
    {
        if self.lg_k == lg_k && self.is_empty() {
            return self.take_coupons(body, lg_size, coupons);
        }
        if !self.make_room(body, coupons.len()) {
            return false;
        }
        self.push_all(body, coupons);
        true
    }

    /// Returns whether no element is in use. Then the sketch of the state is empty, unless it has registers that are all 0.
    pub fn is_empty(&self) -> bool
        ensures is { result ≡ is_unused self.now.held }
        ensures empty { (body : List (List ℕ)) → IsWithin self.now (length body) → HasSomeRegister (sketch_in self.now body) → result ≡ is_empty (sketch_in self.now body) }
        ensures room { result ≡ true → (n room : ℕ) → HasRoom self.now n room → spec.elements_for self.now.lg_k n ≤ room }
        ensures none { result ≡ true → (old new : List (List ℕ)) → sketch_in self.now new ≡ sketch_in self.now old }
        ensures short { result ≡ true → HasShortTail self.now.held }
    {
        match self.held {
            Held::Coupons(coupons) => coupons.run.used == 0,
            Held::Registers(_) => false,
        }
    }

    /// Replaces what the state holds by these coupons with their table. Returns whether there was room.
    fn take_coupons(&mut self, body: &mut [[u8; 4]], lg_size: u8, coupons: &[[u8; 4]]) -> bool
        requires within { IsWithin self.old (length body.old) }
        requires table { IsTableFor self.old.lg_k (length coupons.now) lg_size }
        ensures within { IsWithin self.new (length body.old) }
        ensures taken { result ≡ true → sketch_in self.new body.new ≡ table_of self.old.lg_k lg_size coupons.now }
        ensures same { result ≡ false → sketch_in self.new body.new ≡ sketch_in self.old body.old }
        ensures widths { self.new.widths ≡ self.old.widths }
        ensures none { result ≡ false → spec.elements_for self.old.lg_k (length coupons.now) ≤ length body.old → ⊥ }
        ensures takes { result ≡ true → (room : ℕ) → spec.elements_for self.old.lg_k (length coupons.now) ≤ room → HasRoom self.new 0 room }
        ensures unchanged { result ≡ false → self.new ≡ self.old }
    {
        if body.len() < elements_for(self.lg_k, coupons.len()) {
            return false;
        }
        copy_to(body, 0, coupons);
        self.held = Held::Coupons(CouponTable {
            lg_size,
            added: false,
            run: CouponRun {
                run: 0,
                used: coupons.len(),
            },
        });
        true
    }

    /// Adds coupons in turn, at least one. There is room for them.
    fn push_all(&mut self, body: &mut [[u8; 4]], coupons: &[[u8; 4]])
        requires within { IsWithin self.old (length body.old) }
        requires room { HasRoom self.old (length coupons.now) (length body.old) }
        requires some { 1 ≤ length coupons.now }
        ensures within { IsWithin self.new (length body.old) }
        ensures added { sketch_in self.new body.new ≡ add_in_turn (sketch_in self.old body.old) (raws coupons.now) }
        ensures room { (n room : ℕ) → HasRoom self.old (n + length coupons.now) room → HasRoom self.new n room }
        ensures widths { self.new.widths ≡ self.old.widths }
    {
        if self.has_cleared_registers() {
            raise_all(&mut body[..two_to(self.lg_k - 2)], self.lg_k, coupons);
            return;
        }
        if let Held::Coupons(table) = self.held
            && coupons.len() <= most_used(self.lg_k) - table.run.used
        {
            self.held = Held::Coupons(table.with_all(body, self.lg_k, coupons));
            return;
        }
        for coupon in coupons {
            self.push(body, u32::from_le_bytes(*coupon));
        }
    }
}
