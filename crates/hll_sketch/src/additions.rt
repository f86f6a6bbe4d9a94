// SPDX-License-Identifier: Apache-2.0
//! Adds many coupons at once to an 8-bit sketch, or takes the maximum with registers (docs/MODEL.md, "Adding" and "Merging").
//! If that needs an allocation, the result is made separately and then replaces the old content.
ghost use Rattle.std.specs.Prelude.{◌≡◌, ◌^◌, ◌<◌, ◌≤◌, nat_le, true, false, IfOk, IfErr, OnOk, OnErr};
ghost use Rattle.std.specs.FinSet.{len, union};
ghost use Rattle.hll_base.specs.declared.error.Reason.TheVariants.{Memory};
ghost use Rattle.hll_base.specs.declared.hll_type.HllType.TheVariants.{Hll8};
ghost use Rattle.hll_coupons.specs.Table.{coupons_of};
ghost use Rattle.hll_registers.specs.State.{cleared_state};
ghost use Rattle.hll_sketch.specs.Adding.{add, content_with};
ghost use Rattle.hll_sketch.specs.Laws as laws;
ghost use Rattle.hll_sketch.specs.Layout.{content_in, layout_of, sketch_of, width_of, IsLayoutFor};
ghost use Rattle.hll_sketch.specs.Merging as merging;
ghost use Rattle.hll_sketch.specs.Union.{coupons_kept, can_hold_all, ContentNeedsMemory};
ghost use Rattle.hll_sketch.specs.Value.{coupons, in_registers, is_empty, registers};

use crate::folding::fold_of;
use crate::mode::Mode;
use crate::promotion::{add_each_to, mode_of_both};
use crate::raw_coupons::RawCoupons;
use crate::sketch::HllSketch;
use crate::stage::most_kept;
use hll_arrays::merge::merge_from;
use hll_arrays::registers::Registers;
use hll_base::error::Error;
use hll_base::hll_type::HllType;
use hll_coupons::container::Container;
use hll_coupons::list::List;
use std::alloc::Allocator;

impl<A: Allocator + Clone> HllSketch<A> {
    /// Merges the coupons of this table, which are those of a sketch. An empty sketch at their `lg_k` copies them, with the
    /// size of the table.
    pub(crate) fn merge_coupons(
        &mut self,
        sketch: &HllSketch<A>,
        table: &Container<A>,
    ) -> Result<(), Error>
        requires width { width_of self.old.layout ≡ Hll8 }
        requires registers { in_registers (content_in self.old.layout) ≡ true → is_empty (sketch_of self.old) ≡ false }
        requires table { content_in sketch.now.layout ≡ coupons (coupons_of table.now) table.now.lg_size }
        requires some { is_empty (sketch_of sketch.now) ≡ false }
        ensures ok { OnOk result (sketch_of self.new ≡ merging.merge_coupons (sketch_of self.old) (sketch_of sketch.now)) }
        ensures unchanged { OnErr result (self.new ≡ self.old) }
        ensures needed { OnErr result (ContentNeedsMemory (sketch_of self.old) (content_in self.old.layout) sketch.now.lg_k (content_in sketch.now.layout)) }
        ensures err { IfErr result (λ e. e ≡ Memory) }
    {
        if self.is_empty() && self.lg_config_k == sketch.lg_config_k {
            *self = sketch.table_in(self.allocator(), HllType::Hll8)?;
            Ok(())
        } else {
            self.add_table(table)
        }
    }

    /// Adds the coupons of a table, of which there is at least one.
    ///
    /// Fails with `Memory`, only if its own table has no room for them, and then changes nothing.
    pub(crate) fn add_table(&mut self, table: &Container<A>) -> Result<(), Error>
        requires width { width_of self.old.layout ≡ Hll8 }
        requires some { len (coupons_of table.now) ≡ 0 → ⊥ }
        ensures ok { OnOk result (sketch_of self.new ≡ add (sketch_of self.old) (coupons_of table.now)) }
        ensures unchanged { OnErr result (self.new ≡ self.old) }
        ensures needed { OnErr result (can_hold_all self.old.layout (coupons_of table.now) ≡ false) }
        ensures err { IfErr result (λ e. e ≡ Memory) }
    {
        if self.has_room_for(table) {
            self.add_each(table);
            Ok(())
        } else {
            let larger = self.mode_with_all(table)?;
            self.mode = larger;
            Ok(())
        }
    }

    /// Adds the coupons of a table, for which there is room. Allocates only if searches have become expensive, and goes on
    /// without if that fails.
    pub(crate) fn add_each(&mut self, table: &Container<A>)
        requires width { width_of self.old.layout ≡ Hll8 }
        requires room { can_hold_all self.old.layout (coupons_of table.now) ≡ true }
        requires some { len (coupons_of table.now) ≡ 0 → ⊥ }
        ensures { sketch_of self.new ≡ add (sketch_of self.old) (coupons_of table.now) }
    {
        table.table_is_legal();
        self.value_is_legal();
        match &mut self.mode {
            Mode::List { list, .. } => update_each(list, table),
            Mode::Set { set, .. } => set.update_each(table),
            Mode::Array8(array) => add_each_to(array, table),
            Mode::Array4(_) | Mode::Array6(_) => unreachable!(),
        }
    }

    /// Returns the mode with the coupons of a table added, for which this list or set has no room: a larger set, or 8-bit
    /// registers.
    ///
    /// Fails with `Memory`.
    fn mode_with_all(&self, table: &Container<A>) -> Result<Mode<A>, Error>
        requires width { width_of self.now.layout ≡ Hll8 }
        requires overflows { can_hold_all self.now.layout (coupons_of table.now) ≡ false }
        ensures content { IfOk result (λ mode. content_in (layout_of mode) ≡ content_with self.now.lg_k (content_in self.now.layout) (coupons_of table.now)) }
        ensures layout { IfOk result (λ mode. IsLayoutFor self.now.lg_k (layout_of mode)) }
        ensures width { IfOk result (λ mode. width_of (layout_of mode) ≡ Hll8) }
        ensures err { IfErr result (λ e. e ≡ Memory) }
    {
        self.value_is_legal();
        let count = self.count_with_all(table);
        match &self.mode {
            Mode::List { list, .. } => {
                mode_of_both(self.lg_config_k, list.container(), table, count)
            }
            Mode::Set { set, .. } => {
                mode_of_both(self.lg_config_k, set.container(), table, count)
            }
            Mode::Array4(_) | Mode::Array6(_) | Mode::Array8(_) => unreachable!(),
        }
    }

    /// Returns whether the table keeps its size when the coupons of another one are added. 6-bit and 8-bit registers always
    /// keep theirs.
    fn has_room_for(&self, table: &Container<A>) -> bool
        ensures { result ≡ can_hold_all self.now.layout (coupons_of table.now) }
    {
        let size = match &self.mode {
            Mode::List { list, .. } => list.container().lg_size(),
            Mode::Set { set, .. } => set.container().lg_size(),
            Mode::Array4(_) => return false,
            Mode::Array6(_) | Mode::Array8(_) => return true,
        };
        self.are_at_most(most_kept(size as u8), table)
    }

    /// Returns whether there are at most `most` coupons together with those of a table. Counts them only if the two numbers add
    /// up to more.
    fn are_at_most(&self, most: usize, table: &Container<A>) -> bool
        ensures { result ≡ nat_le (len (union (coupons_kept self.now.layout) (coupons_of table.now))) most }
    {
        table.table_is_legal();
        self.value_is_legal();
        let both = self.num_coupons().unwrap_or(0) + table.len();
        both <= most || self.count_with_all(table) <= most
    }

    /// Returns the number of coupons together with those of a table. Registers have no coupons.
    fn count_with_all(&self, table: &Container<A>) -> usize
        ensures { result ≡ len (union (coupons_kept self.now.layout) (coupons_of table.now)) }
    {
        match &self.mode {
            Mode::List { list, .. } => count_with(list, table),
            Mode::Set { set, .. } => set.count_with(table),
            Mode::Array4(_) | Mode::Array6(_) | Mode::Array8(_) => table.len(),
        }
    }

    /// Takes the maximum with registers at the smaller `lg_k` of both, and clears the estimate state. This is done in place if
    /// the sketch has registers at the other `lg_k` or a smaller one.
    ///
    /// The sketch has a width of 8 bits. Fails with `Memory`, and then changes nothing.
    pub(crate) fn max_with<R: Registers>(&mut self, source: &R) -> Result<(), Error>
        requires width { width_of self.old.layout ≡ Hll8 }
        ensures ok { let x = R.stored source.now in OnOk result (sketch_of self.new ≡ merging.max_registers (sketch_of self.old) x.lg_k x.registers cleared_state) }
        ensures unchanged { OnErr result (self.new ≡ self.old) }
        ensures needed { let x = R.stored source.now in
            OnErr result (ContentNeedsMemory (sketch_of self.old) (content_in self.old.layout) x.lg_k (registers x.registers x.state)) }
        ensures err { IfErr result (λ e. e ≡ Memory) }
    {
        if self.in_registers() && self.lg_config_k <= source.lg_k() {
            self.max_in_place(source);
            return Ok(());
        }
        self.max_aside(source)
    }

    /// Takes the maximum of 8-bit registers and of registers at their `lg_k` or a greater one, and clears the estimate state.
    pub(crate) fn max_in_place<R: Registers>(&mut self, source: &R)
        requires width { width_of self.old.layout ≡ Hll8 }
        requires inside { in_registers (content_in self.old.layout) ≡ true }
        requires within { self.old.lg_k ≤ (R.stored source.now).lg_k }
        ensures { let x = R.stored source.now in sketch_of self.new ≡ merging.max_registers (sketch_of self.old) x.lg_k x.registers cleared_state }
    {
        self.value_is_legal();
        match &mut self.mode {
            Mode::Array8(array) => merge_from(array, source),
            Mode::List { .. } | Mode::Set { .. } | Mode::Array4(_) | Mode::Array6(_) => {
                unreachable!()
            }
        }
    }

    /// Takes the maximum with registers, as `max_with` does, in a copy: the fold of the sketch to the smaller `lg_k` of both.
    fn max_aside<R: Registers>(&mut self, source: &R) -> Result<(), Error>
        requires width { width_of self.old.layout ≡ Hll8 }
        ensures ok { let x = R.stored source.now in OnOk result (sketch_of self.new ≡ merging.max_registers (sketch_of self.old) x.lg_k x.registers cleared_state) }
        ensures unchanged { OnErr result (self.new ≡ self.old) }
        ensures err { IfErr result (λ e. e ≡ Memory) }
    {
        let lg_k = self.lg_config_k.min(source.lg_k());
        let mut merged = fold_of(self.allocator().clone()?, &self.mode, lg_k)?;
        merge_from(&mut merged, source);
        *self = HllSketch {
            lg_config_k: lg_k,
            mode: Mode::Array8(merged),
        };
        Ok(())
    }
}

/// Returns the number of coupons of a list together with those of a table.
fn count_with<A: Allocator>(list: &List<A>, table: &Container<A>) -> usize
    ensures { result ≡ len (union (coupons_of list.now) (coupons_of table.now)) }
{
    table.table_is_legal();
    let mut count = list.container().len();
    for coupon in table.iter() {
        count += usize::from(!list.contains(coupon));
    }
    count
}

/// Adds the coupons of a table to a list, which has room for them.
fn update_each<A: Allocator>(list: &mut List<A>, table: &Container<A>)
    requires { len (union (coupons_of list.old) (coupons_of table.now)) ≤ 2 ^ list.old.lg_size }
    ensures size { list.new.lg_size ≡ list.old.lg_size }
    ensures members { coupons_of list.new ≡ union (coupons_of list.old) (coupons_of table.now) }
{
    table.table_is_legal();
    for coupon in table.iter() {
        list.container().table_is_legal();
        list.update(coupon);
    }
}
