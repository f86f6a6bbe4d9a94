// SPDX-License-Identifier: Apache-2.0
//! The union of many sketches. Once the union has more coupons than a list, the coupons of the next sketches are collected,
//! sorted and added together: adding T and then U is adding both (law `add_of_add`). So a union of many small sketches takes
//! one sort of their coupons, however long the searches in the table are (docs/OPERATING.md, "Unions of many images").
ghost use Rattle.std.specs.Prelude.{◌≡◌, ◌⊎◌, ◌≤◌, ◌<◌, ◌^◌, true, false, [], All, map, take, length, IfOk, IfErr, IfSome, IfNone, OnOk};
ghost use Rattle.hll_base.specs.declared.error.Reason.TheVariants.{Memory};
ghost use Rattle.hll_base.specs.declared.error.Reason.TheVariants as reasons;
ghost use Rattle.hll_sketch.specs.Canonical.{IsCanonicalCleared};
ghost use Rattle.hll_sketch.specs.Collected.{with_coupons};
ghost use Rattle.hll_sketch.specs.Joined.{least_lg_k, IsMergeOf};
ghost use Rattle.hll_sketch.specs.Layout.{sketch_of};
ghost use Rattle.hll_sketch.specs.Merging.{merge, merge_all, empty_union};
ghost use Rattle.hll_sketch.specs.Union.{gadget_of};
ghost use Rattle.hll_sketch.specs.Value.{IsLegal, IsLgK, in_registers, is_empty};

use crate::sketch::HllSketch;
use crate::union::HllUnion;
use hll_base::error::Error;
use hll_coupons::batch::CouponBatch;
use hll_coupons::serialization::LG_LIST_BUCKETS;
use std::alloc::Allocator;

/// While the union has at most this number of coupons, others are added at once, which allocates nothing.
const MOST_IN_LIST: usize = 1 << LG_LIST_BUCKETS;

/// Coupons are collected until there are at least this number, however few the union has.
const LEAST_COLLECTED: usize = 256;

/// Coupons are added once there are this number, however many the union has.
const MOST_COLLECTED: usize = (1 << 18) - 1;

impl<A: Allocator + Clone> HllUnion<A> {
    /// If the union has more coupons than `MOST_IN_LIST`, merges the sketches that come first and are empty or have coupons,
    /// until enough coupons are collected. Returns the other sketches, or `None` if it merged none.
    ///
    /// Fails with `Memory`.
    fn update_together<'a>(
        &mut self,
        sketches: &'a [HllSketch<A>],
    ) -> Result<Option<&'a [HllSketch<A>]>, Error>
        ensures merged { IfOk result (λ some. IfSome some (λ left. merge_all self.old.lg_max_k (gadget_of self.new) (map sketch_of left.now) ≡ merge_all self.old.lg_max_k (gadget_of self.old) (map sketch_of sketches.now))) }
        ensures legal { IfOk result (λ some. IfSome some (λ left. All (λ x. IsLegal (sketch_of x)) left.now → All (λ x. IsLegal (sketch_of x)) sketches.now)) }
        ensures fewer { IfOk result (λ some. IfSome some (λ left. length left.now < length sketches.now)) }
        ensures none { IfOk result (λ some. IfNone some (self.new ≡ self.old)) }
        ensures bound { self.new.lg_max_k ≡ self.old.lg_max_k }
        ensures err { IfErr result (λ e. e ≡ Memory) }
    {
        let Some(own) = self.coupons() else {
            return Ok(None);
        };
        if own <= MOST_IN_LIST {
            return Ok(None);
        }
        let most = own.clamp(LEAST_COLLECTED, MOST_COLLECTED);
        let mut batch = CouponBatch::new(self.cloned_allocator()?);
        let count = self.collect_all(sketches, most, &mut batch)?;
        if count == 0 {
            return Ok(None);
        }
        self.update_with_batch(&mut batch)?;
        let (_, left) = sketches.split_at(count);
        Ok(Some(left))
    }

    /// Collects the coupons of the sketches that come first and are empty or have coupons, until there are at least `most`.
    /// Returns the number of these sketches.
    ///
    /// The union has coupons. Fails with `Memory`.
    fn collect_all(
        &self,
        sketches: &[HllSketch<A>],
        most: usize,
        batch: &mut CouponBatch<A>,
    ) -> Result<usize, Error>
        requires outside { in_registers (gadget_of self.now).content ≡ false }
        requires some { is_empty (gadget_of self.now) ≡ false }
        requires few { most < 2 ^ 18 }
        requires none { batch.old ≡ [] }
        ensures count { IfOk result (λ count. count ≤ length sketches.now) }
        ensures merged { IfOk result (λ count. with_coupons (gadget_of self.now) batch.new ≡ merge_all self.now.lg_max_k (gadget_of self.now) (map sketch_of (take count sketches.now))) }
        ensures legal { IfOk result (λ count. All (λ x. IsLegal (sketch_of x)) (take count sketches.now)) }
        ensures err { IfErr result (λ e. e ≡ Memory) }
    {
        let mut count = 0;
        for sketch in sketches {
            sketch.value_is_legal();
            if !self.collect(sketch, most, batch)? {
                return Ok(count);
            }
            count += 1;
        }
        Ok(count)
    }

    /// Collects the coupons of a sketch that is empty or has coupons, if fewer than `most` are collected. Returns whether it did.
    ///
    /// The union has coupons. Fails with `Memory`.
    fn collect(
        &self,
        sketch: &HllSketch<A>,
        most: usize,
        batch: &mut CouponBatch<A>,
    ) -> Result<bool, Error>
        requires outside { in_registers (gadget_of self.now).content ≡ false }
        requires some { is_empty (gadget_of self.now) ≡ false }
        requires few { most < 2 ^ 18 }
        ensures merged { IfOk result (λ did. did ≡ true → with_coupons (gadget_of self.now) batch.new ≡ merge self.now.lg_max_k (with_coupons (gadget_of self.now) batch.old) (sketch_of sketch.now)) }
        ensures left { IfOk result (λ did. did ≡ false → batch.new ≡ batch.old) }
        ensures err { IfErr result (λ e. e ≡ Memory) }
    {
        // (gives the proof what is known of a gadget with coupons)
        let _own = self.coupons();
        if most <= batch.len() {
            return Ok(false);
        }
        if sketch.is_empty() {
            return Ok(true);
        }
        match sketch.table() {
            Some(table) => {
                batch.extend_from_table(table)?;
                Ok(true)
            }
            None => Ok(false),
        }
    }

    /// Adds the coupons of a batch, if there are any.
    ///
    /// Fails with `Memory`.
    fn update_with_batch(&mut self, batch: &mut CouponBatch<A>) -> Result<(), Error>
        ensures ok { OnOk result (gadget_of self.new ≡ with_coupons (gadget_of self.old) batch.old) }
        ensures bound { self.new.lg_max_k ≡ self.old.lg_max_k }
        ensures err { IfErr result (λ e. e ≡ Memory) }
    {
        if batch.len() == 0 {
            return Ok(());
        }
        let table = batch.to_table()?;
        self.update_with_table(&table)
    }
}

/// Returns the union of sketches under a bound. Its `lg_k` is the smallest of the bound and of the `lg_k` of the sketches in
/// registers that are not all 0. If all sketches are canonical with cleared fields, so is the gadget, and it does not depend on
/// their order.
///
/// Fails with `Argument` if `lg_max_k` is not 4 to 21, or else with `Memory`.
pub fn union_of<A: Allocator + Clone>(
    alloc: A,
    lg_max_k: u8,
    sketches: &[HllSketch<A>],
) -> Result<HllUnion<A>, Error>
    ensures merged { IfOk result (λ u. gadget_of u ≡ merge_all lg_max_k (empty_union lg_max_k) (map sketch_of sketches.now)) }
    ensures bound { IfOk result (λ u. u.lg_max_k ≡ lg_max_k) }
    ensures lg_k { IfOk result (λ u. (gadget_of u).lg_k ≡ least_lg_k lg_max_k (map sketch_of sketches.now)) }
    ensures legal { OnOk result (IsLgK lg_max_k) }
    ensures canonical { IfOk result (λ u. All IsCanonicalCleared (map sketch_of sketches.now) → IsMergeOf (map sketch_of sketches.now) u) }
    ensures outside { IfErr result (λ e. e ≡ reasons.Argument → IsLgK lg_max_k → ⊥) }
    ensures within { IfErr result (λ e. e ≡ Memory → IsLgK lg_max_k) }
    ensures err { IfErr result (λ e. (e ≡ reasons.Argument) ⊎ (e ≡ Memory)) }
{
    let mut union = HllUnion::new(alloc, lg_max_k)?;
    let mut left = sketches;
    while let Some((first, others)) = left.split_first() {
        first.value_is_legal();
        left = match union.update_together(left)? {
            Some(rest) => rest,
            None => {
                union.update(first)?;
                others
            }
        };
    }
    Ok(union)
}
