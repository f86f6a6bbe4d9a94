// SPDX-License-Identifier: Apache-2.0
//! Merges coupons of a table into a state, as `merge_coupons` merges coupons of a slice.
ghost use Rattle.std.specs.Prelude.{◌≡◌, ℕ, ◌+◌, ◌≤◌, true, false, length};
ghost use Rattle.hll_coupons.specs.Table.{coupons_in, coupons_of};
ghost use Rattle.hll_sketch.specs.Laws.{add_in_turn};
ghost use Rattle.hll_sketch.specs.Merging as merging;
ghost use Rattle.hll_sketch.specs.Value.{IsTableFor};
ghost use Rattle.hll_state.specs.Counter.{sketch_in};
ghost use Rattle.hll_state.specs.CouponRun.{IsRun, members};
ghost use Rattle.hll_state.specs.Header as spec;
ghost use Rattle.hll_state.specs.Header.{IsWithin, HasRoom, HasShortTail};
ghost use Rattle.hll_state.specs.Merged.{sketch_of_table, HasSomeRegister};

use crate::header::{CouponTable, Header, Held, elements_for};
use crate::run::CouponRun;
use hll_coupons::container::Container;
use std::alloc::Allocator;

impl Header {
    /// Merges the coupons of a table at an `lg_k`, at least one, as `merge_coupons` does.
    pub(crate) fn merge_table<A: Allocator>(
        &mut self,
        body: &mut [[u8; 4]],
        lg_k: u8,
        table: &Container<A>,
    ) -> bool
        requires within { IsWithin self.old (length body.old) }
        requires some { 1 ≤ length (coupons_in table.now.buckets) }
        requires table { IsTableFor lg_k (length (coupons_in table.now.buckets)) table.now.lg_size }
        ensures within { IsWithin self.new (length body.old) }
        ensures merged { HasSomeRegister (sketch_in self.old body.old) → result ≡ true → sketch_in self.new body.new ≡ merging.merge_coupons (sketch_in self.old body.old) (sketch_of_table lg_k table.now) }
        ensures same { result ≡ false → sketch_in self.new body.new ≡ sketch_in self.old body.old }
        ensures widths { self.new.widths ≡ self.old.widths }
        ensures none { result ≡ false → HasRoom self.old (length (coupons_in table.now.buckets)) (length body.old) → ⊥ }
        ensures takes { result ≡ true → (room : ℕ) → HasRoom self.old (length (coupons_in table.now.buckets)) room → HasRoom self.new 0 room }
        ensures keeps { result ≡ false → (n room : ℕ) → HasRoom self.old n room → HasRoom self.new n room }
        ensures short { result ≡ false → HasShortTail self.new.held }
    {
        if self.lg_k == lg_k && self.is_empty() {
            return self.take_table(body, table);
        }
        if !self.make_room(body, table.len()) {
            return false;
        }
        self.push_table(body, table);
        true
    }

    /// Replaces what the state holds by the coupons of a table, with its size. Returns whether there was room.
    fn take_table<A: Allocator>(&mut self, body: &mut [[u8; 4]], table: &Container<A>) -> bool
        requires within { IsWithin self.old (length body.old) }
        requires table { IsTableFor self.old.lg_k (length (coupons_in table.now.buckets)) table.now.lg_size }
        ensures within { IsWithin self.new (length body.old) }
        ensures taken { result ≡ true → sketch_in self.new body.new ≡ sketch_of_table self.old.lg_k table.now }
        ensures same { result ≡ false → sketch_in self.new body.new ≡ sketch_in self.old body.old }
        ensures widths { self.new.widths ≡ self.old.widths }
        ensures none { result ≡ false → spec.elements_for self.old.lg_k (length (coupons_in table.now.buckets)) ≤ length body.old → ⊥ }
        ensures takes { result ≡ true → (room : ℕ) → spec.elements_for self.old.lg_k (length (coupons_in table.now.buckets)) ≤ room → HasRoom self.new 0 room }
        ensures unchanged { result ≡ false → self.new ≡ self.old }
    {
        if body.len() < elements_for(self.lg_k, table.len()) {
            return false;
        }
        self.held = Held::Coupons(CouponTable {
            lg_size: table.lg_size() as u8,
            added: false,
            run: run_of(body, table),
        });
        true
    }

    /// Adds the coupons of a table in turn. There is room for them.
    fn push_table<A: Allocator>(&mut self, body: &mut [[u8; 4]], table: &Container<A>)
        requires within { IsWithin self.old (length body.old) }
        requires room { HasRoom self.old (length (coupons_in table.now.buckets)) (length body.old) }
        ensures within { IsWithin self.new (length body.old) }
        ensures added { sketch_in self.new body.new ≡ add_in_turn (sketch_in self.old body.old) (coupons_in table.now.buckets) }
        ensures room { (n room : ℕ) → HasRoom self.old (n + length (coupons_in table.now.buckets)) room → HasRoom self.new n room }
        ensures widths { self.new.widths ≡ self.old.widths }
    {
        for coupon in table.iter() {
            self.push(body, coupon.raw());
        }
    }
}

/// Writes the coupons of a table over elements, of which there are enough, and returns them as a run.
fn run_of<A: Allocator>(body: &mut [[u8; 4]], table: &Container<A>) -> CouponRun
    requires { length (coupons_in table.now.buckets) ≤ length body.old }
    ensures run { IsRun result body.new }
    ensures members { members result body.new ≡ coupons_of table.now }
    ensures used { result.used ≤ length (coupons_in table.now.buckets) }
{
    let mut run = CouponRun::new();
    for coupon in table.iter() {
        run.push(body, coupon.raw());
    }
    run
}
