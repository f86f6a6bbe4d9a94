// SPDX-License-Identifier: Apache-2.0
//! A proved caller of the library: the example that the README of this crate shows.
#![tactic(auto)]

ghost use Rattle.std.specs.Prelude.{◌≡◌, ◌≤◌, ◌⊎◌, ◌++◌, All, map, IfOk, IfErr};
ghost use Rattle.std.specs.FinSet.{union};
ghost use Rattle.hll_base.specs.declared.error.Reason.TheVariants as reasons;
ghost use Rattle.hll_base.specs.declared.error.Reason.TheVariants.{Memory};
ghost use Rattle.hll_coupons.specs.Pair.{set_of};
ghost use Rattle.hll_coupons.specs.Fold.{fold_to};
ghost use Rattle.hll_registers.specs.State.{cleared_state};
ghost use Rattle.hll_sketch.specs.Canonical.{IsCanonicalCleared};
ghost use Rattle.hll_sketch.specs.Joined.{IsMergeOf};
ghost use Rattle.hll_sketch.specs.Layout.{sketch_of};
ghost use Rattle.hll_merge.specs.Accepting.{IsFirstFault};
ghost use Rattle.hll_merge.specs.Run.{IsAnswer};
ghost use Rattle.hll_text.specs.declared.fault.Fault.TheVariants as faults;

use hll_arrays::array8::Array8;
use hll_arrays::merge::merge_from;
use hll_base::error::Error;
use hll_base::hll_type::HllType;
use hll_coupons::coupon::Coupon;
use hll_merge::fault::{Fault, MergeError};
use hll_merge::run::run;
use hll_merge::watched::Watched;
use hll_sketch::sketch::HllSketch;
use hll_sketch::{HllUnion, union_of};
use std::alloc::Allocator;

/// Returns the registers of coupons: at each slot the greatest value of the coupons that fold to it.
///
/// `lg_k` is 4 to 21. Allocates a byte for each register. Fails with `Memory` if the allocation fails.
pub fn registers_of<A: Allocator>(
    alloc: A,
    lg_k: u8,
    coupons: &[Coupon],
) -> Result<Array8<A>, Error>
    requires least { 4 ≤ lg_k }
    requires most { lg_k ≤ 21 }
    ensures ok { IfOk result (λ a. a ≡ record { lg_k = lg_k; registers = fold_to (set_of coupons.now) lg_k; state = cleared_state }) }
    ensures err { IfErr result (λ e. e ≡ Memory) }
{
    let mut array = Array8::new(alloc, lg_k)?;
    for coupon in coupons {
        array.update(*coupon);
    }
    Ok(array)
}

/// Returns the registers of the coupons of two shards together. The result doesn't depend on which shard has which
/// coupons.
///
/// `lg_k` is 4 to 21. Allocates two bytes for each register. Fails with `Memory` if an allocation fails.
pub fn max_of_shards<A: Allocator + Clone>(
    alloc: A,
    lg_k: u8,
    here: &[Coupon],
    there: &[Coupon],
) -> Result<Array8<A>, Error>
    requires least { 4 ≤ lg_k }
    requires most { lg_k ≤ 21 }
    ensures ok { IfOk result (λ a. a.registers ≡ fold_to (union (set_of here.now) (set_of there.now)) lg_k) }
    ensures err { IfErr result (λ e. e ≡ Memory) }
{
    let mut joined = registers_of(alloc.clone()?, lg_k, here)?;
    let other = registers_of(alloc, lg_k, there)?;
    merge_from(&mut joined, &other);
    Ok(joined)
}

/// Returns the union of the sketches of two shards. One shard sends the sketch of its own union, at some width. If all
/// sketches are canonical with cleared fields, the result is the merge of them all, and doesn't depend on which shard
/// has which sketches.
///
/// Fails with `Argument` if `lg_max_k` is not 4 to 21, and with `Memory` if an allocation fails. Allocates both unions
/// and the sketch that is sent.
pub fn union_of_shards<A: Allocator + Clone>(
    alloc: A,
    lg_max_k: u8,
    width: HllType,
    here: &[HllSketch<A>],
    there: &[HllSketch<A>],
) -> Result<HllUnion<A>, Error>
    ensures canonical { let all = map sketch_of here.now ++ map sketch_of there.now in IfOk result (λ u. All IsCanonicalCleared all → IsMergeOf all u) }
    ensures bound { IfOk result (λ u. u.lg_max_k ≡ lg_max_k) }
    ensures err { IfErr result (λ e. (e ≡ reasons.Argument) ⊎ (e ≡ Memory)) }
{
    let sender = union_of(alloc.clone()?, lg_max_k, there)?;
    let sent = sender.to_sketch(width)?;
    let mut union = union_of(alloc, lg_max_k, here)?;
    union.update(&sent)?;
    Ok(union)
}

/// Runs a plan in memory, and returns the line that the program would print for it.
///
/// Fails with `Memory` if an allocation fails, or with the first fault of the plan and its line. Allocates the
/// sketches, the bytes of an image, and the line.
pub fn run_in_memory<A: Allocator + Clone>(alloc: A, plan: &[u8]) -> Result<Vec<u8, A>, MergeError>
    ensures ok { IfOk result (λ line. IsAnswer plan.now line.items) }
    ensures err { IfErr result (λ e. (e.fault ≡ faults.Memory) ⊎ IsFirstFault plan.now e) }
{
    let for_line = match alloc.clone() {
        Ok(for_line) => for_line,
        Err(e) => return Err(Fault::from(e).at(0)),
    };
    let mut reader = Watched::new(plan);
    let mut writer = Watched::new(Vec::new(for_line));
    match run(alloc, &mut reader, &mut writer) {
        Ok(()) => Ok(writer.into_inner()),
        // a stream in memory fails only if an allocation fails
        Err(e) if reader.failed() || writer.failed() => Err(Fault::Memory.at(e.line)),
        Err(e) => Err(e),
    }
}
