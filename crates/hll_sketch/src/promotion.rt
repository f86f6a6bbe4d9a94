// SPDX-License-Identifier: Apache-2.0
//! The next stage, when a table overflows with one more coupon (docs/MODEL.md, "Stages").
ghost use Rattle.std.specs.Prelude.{◌≡◌, ◌+◌, ◌^◌, ◌<◌, ◌≤◌, length, false, IfOk, IfErr, IfSome, IfNone};
ghost use Rattle.std.specs.FinSet.{len, insert, union};
ghost use Rattle.hll_base.specs.declared.error.Reason.TheVariants.{Memory};
ghost use Rattle.hll_base.specs.declared.hll_type.HllType.TheVariants.{Hll8};
ghost use Rattle.hll_coupons.specs.Fold.{fold_to};
ghost use Rattle.hll_coupons.specs.Pair.{value_of};
ghost use Rattle.hll_coupons.specs.Table.{coupons_in, coupons_of};
ghost use Rattle.hll_registers.specs.State.{cleared_state};
ghost use Rattle.hll_sketch.specs.Adding.{content_for};
ghost use Rattle.hll_sketch.specs.Laws.{add_in_turn};
ghost use Rattle.hll_sketch.specs.Layout.{layout_of, content_in, width_of, IsLayoutFor, IsSize, size_after};
ghost use Rattle.hll_sketch.specs.Promotion.{with_more};
ghost use Rattle.hll_sketch.specs.Stage as stages;
ghost use Rattle.hll_sketch.specs.Union.{sketch_of_registers};
ghost use Rattle.hll_sketch.specs.Value.{IsLgK, registers};

use crate::mode::Mode;
use crate::stage::stage;
use hll_arrays::array4::Array4;
use hll_arrays::array6::Array6;
use hll_arrays::array8::Array8;
use hll_arrays::convert::convert;
use hll_arrays::register_store::RegisterStore;
use hll_base::error::Error;
use hll_base::hll_type::HllType;
use hll_coupons::container::Container;
use hll_coupons::coupon::Coupon;
use hll_coupons::hash_set::HashSet;
use hll_coupons::serialization::{LG_LEAST_SET_BUCKETS, LG_LIST_BUCKETS, LG_SET_BELOW_LG_K};
use std::alloc::Allocator;

/// Returns the next stage of a table that overflows with one more coupon: a larger set, or registers.
///
/// Fails with `Memory`.
pub(crate) fn promoted_table<A: Allocator + Clone>(
    lg_k: u8,
    hll_type: HllType,
    table: &Container<A>,
    coupon: Coupon,
) -> Result<Mode<A>, Error>
    requires lg_k { IsLgK lg_k }
    requires size { IsSize lg_k table.now.lg_size }
    requires room { 5 ≤ table.now.lg_size → length (coupons_in table.now.buckets) < 2 ^ table.now.lg_size }
    requires valued { 1 ≤ value_of coupon }
    requires overflows { stages.can_hold table.now.lg_size (len (insert (coupons_of table.now) coupon)) ≡ false }
    ensures content { let pairs = insert (coupons_of table.now) coupon in
        IfOk result (λ mode. content_in (layout_of mode) ≡ content_for lg_k pairs (stages.stage lg_k table.now.lg_size (len pairs))) }
    ensures layout { IfOk result (λ mode. IsLayoutFor lg_k (layout_of mode)) }
    ensures width { IfOk result (λ mode. width_of (layout_of mode) ≡ hll_type) }
    ensures err { IfErr result (λ e. e ≡ Memory) }
{
    table.table_is_legal();
    match next_size(lg_k, table.lg_size()) {
        None => mode_of_table(lg_k, hll_type, table, Some(coupon)),
        Some(size) => Ok(Mode::Set {
            set: set_of_size(size, table, coupon)?,
            hll_type,
        }),
    }
}

/// Returns the size after this one, or `None` if the coupons become registers.
fn next_size(lg_k: u8, size: usize) -> Option<usize>
    requires { size ≤ 26 }
    ensures some { IfSome result (λ next. (next ≡ size_after size) × (next + 3 ≤ lg_k)) }
    ensures none { IfNone result (lg_k < size_after size + 3) }
{
    let next = if size == usize::from(LG_LIST_BUCKETS) {
        usize::from(LG_LEAST_SET_BUCKETS)
    } else {
        size + 1
    };
    if next + usize::from(LG_SET_BELOW_LG_K) <= usize::from(lg_k) {
        Some(next)
    } else {
        None
    }
}

/// Returns the registers of this width of the coupons of a table, and of one more coupon if there is one.
///
/// Fails with `Memory`.
pub(crate) fn mode_of_table<A: Allocator + Clone>(
    lg_k: u8,
    hll_type: HllType,
    table: &Container<A>,
    more: Option<Coupon>,
) -> Result<Mode<A>, Error>
    requires lg_k { IsLgK lg_k }
    ensures content { IfOk result (λ m. content_in (layout_of m) ≡ registers (fold_to (with_more (coupons_of table.now) more) lg_k) cleared_state) }
    ensures layout { IfOk result (λ m. IsLayoutFor lg_k (layout_of m)) }
    ensures width { IfOk result (λ m. width_of (layout_of m) ≡ hll_type) }
    ensures err { IfErr result (λ e. e ≡ Memory) }
{
    let alloc = table.allocator().clone()?;
    match hll_type {
        HllType::Hll4 => Ok(Mode::Array4(four_bits_of_table(alloc, lg_k, table, more)?)),
        HllType::Hll6 => Ok(Mode::Array6(registers_of_table(alloc, lg_k, table, more)?)),
        HllType::Hll8 => Ok(Mode::Array8(registers_of_table(alloc, lg_k, table, more)?)),
    }
}

/// Returns the 4-bit registers of the coupons of a table, and of one more coupon if there is one, with the cleared estimate
/// state. It makes 8-bit registers first, so that all exceptions are inserted at once.
///
/// Fails with `Memory`.
fn four_bits_of_table<A: Allocator + Clone>(
    alloc: A,
    lg_k: u8,
    table: &Container<A>,
    more: Option<Coupon>,
) -> Result<Array4<A>, Error>
    requires { IsLgK lg_k }
    ensures ok { IfOk result (λ a. a.stored ≡ record { lg_k = lg_k; registers = fold_to (with_more (coupons_of table.now) more) lg_k; state = cleared_state }) }
    ensures err { IfErr result (λ e. e ≡ Memory) }
{
    let wide: Array8<A> = registers_of_table(alloc, lg_k, table, more)?;
    convert(&wide)
}

/// Returns the registers of the coupons of a table, and of one more coupon if there is one, with the cleared estimate state.
///
/// Fails with `Memory`.
pub(crate) fn registers_of_table<S: RegisterStore<A>, A: Allocator>(
    alloc: A,
    lg_k: u8,
    table: &Container<A>,
    more: Option<Coupon>,
) -> Result<S, Error>
    requires { IsLgK lg_k }
    ensures ok { IfOk result (λ s. S.stored s ≡ record { lg_k = lg_k; registers = fold_to (with_more (coupons_of table.now) more) lg_k; state = cleared_state }) }
    ensures err { IfErr result (λ e. e ≡ Memory) }
{
    let mut registers = S::make(alloc, lg_k)?;
    for coupon in table.iter() {
        registers.put_coupon(coupon)?;
    }
    if let Some(one) = more {
        registers.put_coupon(one)?;
    }
    Ok(registers)
}

/// Returns a set of 2^`lg_size` buckets with the coupons of a table and one more.
fn set_of_size<A: Allocator + Clone>(
    lg_size: usize,
    table: &Container<A>,
    coupon: Coupon,
) -> Result<HashSet<A>, Error>
    requires small { lg_size ≤ 26 }
    requires room { length (coupons_in table.now.buckets) < 2 ^ lg_size }
    requires valued { 1 ≤ value_of coupon }
    ensures size { IfOk result (λ s. s.lg_size ≡ lg_size) }
    ensures members { IfOk result (λ s. coupons_of s ≡ insert (coupons_of table.now) coupon) }
    ensures count { IfOk result (λ s. length (coupons_in s.buckets) ≡ len (insert (coupons_of table.now) coupon)) }
    ensures err { IfErr result (λ e. e ≡ Memory) }
{
    let mut set = HashSet::from_container(table.allocator().clone()?, lg_size, table)?;
    set.update(coupon);
    Ok(set)
}

/// Returns the next stage of a table that has no room for the coupons of another one: a larger set, or 8-bit registers.
///
/// Both have `count` coupons together. Fails with `Memory`.
pub(crate) fn mode_of_both<A: Allocator + Clone>(
    lg_k: u8,
    table: &Container<A>,
    others: &Container<A>,
    count: usize,
) -> Result<Mode<A>, Error>
    requires lg_k { IsLgK lg_k }
    requires size { IsSize lg_k table.now.lg_size }
    requires count { count ≡ len (union (coupons_of table.now) (coupons_of others.now)) }
    requires overflows { stages.can_hold table.now.lg_size count ≡ false }
    ensures content { let pairs = union (coupons_of table.now) (coupons_of others.now) in
        IfOk result (λ mode. content_in (layout_of mode) ≡ content_for lg_k pairs (stages.stage lg_k table.now.lg_size (len pairs))) }
    ensures layout { IfOk result (λ mode. IsLayoutFor lg_k (layout_of mode)) }
    ensures width { IfOk result (λ mode. width_of (layout_of mode) ≡ Hll8) }
    ensures err { IfErr result (λ e. e ≡ Memory) }
{
    table.table_is_legal();
    let alloc = table.allocator().clone()?;
    match stage(lg_k, table.lg_size() as u8, count) {
        None => {
            let mut array: Array8<A> = registers_of_table(alloc, lg_k, table, None)?;
            add_each_to(&mut array, others);
            Ok(Mode::Array8(array))
        }
        Some(size) => {
            let mut set = HashSet::from_container(alloc, usize::from(size), table)?;
            set.update_each(others);
            set.container().table_is_legal();
            let hll_type = HllType::Hll8;
            Ok(Mode::Set { set, hll_type })
        }
    }
}

/// Adds the coupons of a table in turn to 8-bit registers.
pub(crate) fn add_each_to<A: Allocator>(array: &mut Array8<A>, table: &Container<A>)
    ensures added { sketch_of_registers array.new ≡ add_in_turn (sketch_of_registers array.old) (coupons_in table.now.buckets) }
    ensures lg_k { array.new.lg_k ≡ array.old.lg_k }
{
    for coupon in table.iter() {
        array.update(coupon);
    }
}
