// SPDX-License-Identifier: Apache-2.0
//! Merges sketches into a union (docs/MODEL.md, "Merging").
ghost use Rattle.std.specs.Prelude.{◌≡◌, ℕ, ◌<◌, ◌≤◌, true, false, All, List, map, [], ◌∷◌, ◌++◌, IfErr, OnOk, OnErr};
ghost use Rattle.std.specs.FinSet.{len};
ghost use Rattle.hll_base.specs.declared.error.Reason.TheVariants.{Memory};
ghost use Rattle.hll_coupons.specs.Table.{coupons_of};
ghost use Rattle.hll_registers.specs.State.{cleared_state};
ghost use Rattle.hll_sketch.specs.Adding.{add};
ghost use Rattle.hll_sketch.specs.Canonical.{IsCanonicalCleared};
ghost use Rattle.hll_sketch.specs.Joined.{IsMergeOf};
ghost use Rattle.hll_sketch.specs.Layout.{content_in, sketch_of};
ghost use Rattle.hll_sketch.specs.Merging as merging;
ghost use Rattle.hll_sketch.specs.Union.{gadget_of, sketch_of_registers, CanMergeIn, ContentNeedsMemory, IsGadget, MergeNeedsMemory};
ghost use Rattle.hll_sketch.specs.Value.{Sketch, IsLegal, IsLgK, coupons, in_registers, is_empty, registers};

use crate::mode::Mode;
use crate::register_folds::eight_bits_of;
use crate::sketch::HllSketch;
use crate::union::HllUnion;
use hll_arrays::array8::Array8;
use hll_arrays::registers::Registers;
use hll_base::error::Error;
use hll_coupons::container::Container;
use std::alloc::Allocator;

impl<A: Allocator + Clone> HllUnion<A> {
    /// Merges a sketch of any stage, width and `lg_k` (docs/MODEL.md, "Merging"), in one pass. If the gadget is the union of
    /// canonical sketches with cleared fields, and this sketch is one too, the result is the union of all of them
    /// (docs/MODEL.md, "Convergence").
    ///
    /// Fails with `Memory`, and then changes nothing, not even buckets. Allocates nothing for an empty sketch, for coupons that
    /// are added to registers or to a table that has coupons and room for these, nor for registers that are merged into
    /// registers at their `lg_k` or a smaller one.
    pub fn update(&mut self, sketch: &HllSketch<A>) -> Result<(), Error>
        ensures ok { OnOk result (gadget_of self.new ≡ merging.merge self.old.lg_max_k (gadget_of self.old) (sketch_of sketch.now)) }
        ensures bound { self.new.lg_max_k ≡ self.old.lg_max_k }
        ensures canonical { OnOk result ((xs : List Sketch) → IsMergeOf xs self.old → IsCanonicalCleared (sketch_of sketch.now) → IsMergeOf (xs ++ sketch_of sketch.now ∷ []) self.new) }
        ensures unchanged { OnErr result (self.new ≡ self.old) }
        ensures needed { OnErr result (MergeNeedsMemory (gadget_of self.old) (sketch_of sketch.now)) }
        ensures err { IfErr result (λ e. e ≡ Memory) }
    {
        sketch.value_is_legal();
        if sketch.is_empty() {
            return Ok(());
        }
        self.merge_content(sketch)
    }

    /// Merges a sketch that is not empty.
    ///
    /// Fails with `Memory`, and then changes nothing.
    fn merge_content(&mut self, sketch: &HllSketch<A>) -> Result<(), Error>
        requires other { IsLegal (sketch_of sketch.now) }
        requires some { is_empty (sketch_of sketch.now) ≡ false }
        ensures ok { OnOk result (gadget_of self.new ≡ merging.merge_content self.old.lg_max_k (gadget_of self.old) (sketch_of sketch.now) (content_in sketch.now.layout)) }
        ensures bound { self.new.lg_max_k ≡ self.old.lg_max_k }
        ensures unchanged { OnErr result (self.new ≡ self.old) }
        ensures needed { OnErr result (ContentNeedsMemory (gadget_of self.old) (gadget_of self.old).content sketch.now.lg_k (content_in sketch.now.layout)) }
        ensures err { IfErr result (λ e. e ≡ Memory) }
    {
        match &sketch.mode {
            Mode::List { list, .. } => self.merge_table(sketch, list.container()),
            Mode::Set { set, .. } => self.merge_table(sketch, set.container()),
            Mode::Array4(array) => self.merge_registers(array),
            Mode::Array6(array) => self.merge_registers(array),
            Mode::Array8(array) => self.merge_array8(array),
        }
    }

    /// Merges the coupons of this table, which are those of a sketch, at least one. An empty gadget at their `lg_k` copies
    /// them, with the size of the table.
    fn merge_table(&mut self, sketch: &HllSketch<A>, table: &Container<A>) -> Result<(), Error>
        requires table { content_in sketch.now.layout ≡ coupons (coupons_of table.now) table.now.lg_size }
        requires other { IsLegal (sketch_of sketch.now) }
        requires some { is_empty (sketch_of sketch.now) ≡ false }
        ensures ok { OnOk result (gadget_of self.new ≡ merging.merge_coupons (gadget_of self.old) (sketch_of sketch.now)) }
        ensures bound { self.new.lg_max_k ≡ self.old.lg_max_k }
        ensures unchanged { OnErr result (self.new ≡ self.old) }
        ensures needed { OnErr result (ContentNeedsMemory (gadget_of self.old) (gadget_of self.old).content sketch.now.lg_k (content_in sketch.now.layout)) }
        ensures err { IfErr result (λ e. e ≡ Memory) }
    {
        self.gadget.value_is_legal();
        self.gadget.merge_coupons(sketch, table)
    }

    /// Merges 8-bit registers: an empty gadget copies them, if their `lg_k` is within the bound.
    fn merge_array8(&mut self, source: &Array8<A>) -> Result<(), Error>
        requires some { is_empty (sketch_of_registers source.now) ≡ false }
        ensures ok { OnOk result (gadget_of self.new ≡ merging.merge_registers self.old.lg_max_k (gadget_of self.old) source.now.lg_k source.now.registers source.now.state) }
        ensures bound { self.new.lg_max_k ≡ self.old.lg_max_k }
        ensures unchanged { OnErr result (self.new ≡ self.old) }
        ensures needed { OnErr result (ContentNeedsMemory (gadget_of self.old) (gadget_of self.old).content source.now.lg_k (registers source.now.registers source.now.state)) }
        ensures err { IfErr result (λ e. e ≡ Memory) }
    {
        if !self.is_empty() || self.lg_max_k < source.lg_k() {
            return self.merge_registers(source);
        }
        let copy = source.clone_in(self.gadget.allocator().clone()?)?;
        self.take_over(copy);
        Ok(())
    }

    /// Merges registers, of which one is not 0. An empty gadget copies their estimate state too, if their `lg_k` is within the
    /// bound.
    ///
    /// Fails with `Memory`, and then changes nothing.
    fn merge_registers<R: Registers>(&mut self, source: &R) -> Result<(), Error>
        requires some { is_empty (sketch_of_registers (R.stored source.now)) ≡ false }
        ensures ok { let x = R.stored source.now in
            OnOk result (gadget_of self.new ≡ merging.merge_registers self.old.lg_max_k (gadget_of self.old) x.lg_k x.registers x.state) }
        ensures bound { self.new.lg_max_k ≡ self.old.lg_max_k }
        ensures unchanged { OnErr result (self.new ≡ self.old) }
        ensures needed { let x = R.stored source.now in
            OnErr result (ContentNeedsMemory (gadget_of self.old) (gadget_of self.old).content x.lg_k (registers x.registers x.state)) }
        ensures err { IfErr result (λ e. e ≡ Memory) }
    {
        if self.is_empty() && source.lg_k() <= self.lg_max_k {
            let copy = eight_bits_of(self.gadget.allocator().clone()?, source)?;
            self.take_over(copy);
            return Ok(());
        }
        self.max_with(source)
    }

    /// Takes the maximum of the gadget and of registers, of which one is not 0. The estimate state is then cleared.
    ///
    /// Fails with `Memory`, and then changes nothing.
    fn max_with<R: Registers>(&mut self, source: &R) -> Result<(), Error>
        requires some { is_empty (sketch_of_registers (R.stored source.now)) ≡ false }
        ensures ok { let x = R.stored source.now in OnOk result (gadget_of self.new ≡ merging.max_registers (gadget_of self.old) x.lg_k x.registers cleared_state) }
        ensures bound { self.new.lg_max_k ≡ self.old.lg_max_k }
        ensures unchanged { OnErr result (self.new ≡ self.old) }
        ensures needed { let x = R.stored source.now in
            OnErr result (ContentNeedsMemory (gadget_of self.old) (gadget_of self.old).content x.lg_k (registers x.registers x.state)) }
        ensures err { IfErr result (λ e. e ≡ Memory) }
    {
        self.gadget.value_is_legal();
        let _lg_k = source.lg_k();
        self.gadget.max_with(source)
    }

    /// Makes 8-bit registers the gadget, which was empty: their `lg_k` is within the bound, and one is not 0.
    fn take_over(&mut self, array: Array8<A>)
        requires none { is_empty (gadget_of self.old) ≡ true }
        requires within { array.lg_k ≤ self.old.lg_max_k }
        requires some { is_empty (sketch_of_registers array) ≡ false }
        ensures gadget { gadget_of self.new ≡ merging.merge_registers self.old.lg_max_k (gadget_of self.old) array.lg_k array.registers array.state }
        ensures bound { self.new.lg_max_k ≡ self.old.lg_max_k }
    {
        self.gadget.value_is_legal();
        self.gadget = HllSketch {
            lg_config_k: array.lg_k(),
            mode: Mode::Array8(array),
        };
    }

    /// Adds the coupons of a table, of which there is at least one.
    ///
    /// Fails with `Memory`, and then changes nothing.
    pub(crate) fn update_with_table(&mut self, table: &Container<A>) -> Result<(), Error>
        requires { len (coupons_of table.now) ≡ 0 → ⊥ }
        ensures ok { OnOk result (gadget_of self.new ≡ add (gadget_of self.old) (coupons_of table.now)) }
        ensures bound { self.new.lg_max_k ≡ self.old.lg_max_k }
        ensures unchanged { OnErr result (self.new ≡ self.old) }
        ensures err { IfErr result (λ e. e ≡ Memory) }
    {
        self.gadget.value_is_legal();
        table.table_is_legal();
        self.gadget.add_table(table)
    }
}

impl<A: Allocator + Clone> HllSketch<A> {
    /// Returns whether this is the gadget of a union with this bound, and has registers.
    pub(crate) fn is_gadget_of_registers(&self, bound: u8) -> bool
        ensures gadget { result ≡ true → IsGadget bound (sketch_of self.now) }
        ensures registers { result ≡ true → in_registers (content_in self.now.layout) ≡ true }
        ensures other { result ≡ false → IsGadget bound (sketch_of self.now) → in_registers (content_in self.now.layout) ≡ true → ⊥ }
    {
        match &self.mode {
            Mode::Array8(_) => self.lg_config_k <= bound && !self.is_empty(),
            _ => false,
        }
    }

    /// Merges a sketch at its `lg_k` or a greater one into 8-bit registers that are not all 0, whatever the bound of their
    /// union is.
    fn merge_in_place(&mut self, sketch: &HllSketch<A>)
        requires gadget { IsGadget self.old.lg_k (sketch_of self.old) }
        requires inside { in_registers (content_in self.old.layout) ≡ true }
        requires within { self.old.lg_k ≤ sketch.now.lg_k }
        ensures { (bound : ℕ) → sketch_of self.new ≡ merging.merge bound (sketch_of self.old) (sketch_of sketch.now) }
    {
        sketch.value_is_legal();
        if !sketch.is_empty() {
            match &sketch.mode {
                Mode::List { list, .. } => self.add_each(list.container()),
                Mode::Set { set, .. } => self.add_each(set.container()),
                Mode::Array4(array) => self.max_in_place(array),
                Mode::Array6(array) => self.max_in_place(array),
                Mode::Array8(array) => self.max_in_place(array),
            }
        }
    }
}

/// Merges all other sketches into the first, under a bound, if that allocates nothing, and returns whether it did. The first
/// must have 8-bit registers that are not all 0, at an `lg_k` of at most the bound and the `lg_k` of each other sketch.
/// Otherwise nothing changes.
///
/// `lg_max_k` is 4 to 21.
pub fn union_in_place<A: Allocator + Clone>(
    lg_max_k: u8,
    first: &mut HllSketch<A>,
    others: &[HllSketch<A>],
) -> bool
    requires { IsLgK lg_max_k }
    ensures can { result ≡ true → CanMergeIn lg_max_k first.old others.now }
    ensures cannot { result ≡ false → CanMergeIn lg_max_k first.old others.now → ⊥ }
    ensures merged { result ≡ true → sketch_of first.new ≡ merging.merge_all lg_max_k (merging.empty_union lg_max_k) (sketch_of first.old ∷ map sketch_of others.now) }
    ensures unchanged { result ≡ false → first.new ≡ first.old }
{
    if !first.is_gadget_of_registers(lg_max_k) || !are_at_least(first.lg_config_k(), others) {
        return false;
    }
    first.value_is_legal();
    for sketch in others {
        first.value_is_legal();
        sketch.value_is_legal();
        first.merge_in_place(sketch);
    }
    true
}

/// Returns whether the `lg_k` of each sketch is at least this one.
fn are_at_least<A: Allocator>(lg_k: u8, sketches: &[HllSketch<A>]) -> bool
    ensures all { result ≡ true → All (λ x. lg_k ≤ x.lg_k) sketches.now }
    ensures some { result ≡ false → All (λ x. lg_k ≤ x.lg_k) sketches.now → ⊥ }
{
    for sketch in sketches {
        if sketch.lg_config_k() < lg_k {
            return false;
        }
    }
    true
}
