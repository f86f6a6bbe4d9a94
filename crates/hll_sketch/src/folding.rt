// SPDX-License-Identifier: Apache-2.0
//! What a mode becomes at a smaller `lg_k` (docs/MODEL.md, "Folding").
ghost use Rattle.std.specs.Prelude.{◌≡◌, ◌≤◌, ◌↔◌, IsTrue, Some, IfOk, IfErr};
ghost use Rattle.std.specs.FinSet.{len};
ghost use Rattle.hll_base.specs.declared.error.Reason.TheVariants.{Memory};
ghost use Rattle.hll_coupons.specs.Fold.{fold_to};
ghost use Rattle.hll_coupons.specs.Table.{coupons_of};
ghost use Rattle.hll_registers.specs.State.{cleared_state};
ghost use Rattle.hll_sketch.specs.Adding.{content_for};
ghost use Rattle.hll_sketch.specs.Layout.{layout_of, content_in, width_of, IsLayoutFor, IsWithin};
ghost use Rattle.hll_sketch.specs.Stage as stages;
ghost use Rattle.hll_sketch.specs.Value.{IsLgK, pairs_in, registers};

use crate::mode::Mode;
use crate::promotion::{mode_of_table, registers_of_table};
use crate::register_folds::fold_of_registers;
use crate::stage::stage;
use hll_arrays::array8::Array8;
use hll_base::error::Error;
use hll_base::hll_type::HllType;
use hll_coupons::container::Container;
use hll_coupons::hash_set::HashSet;
use hll_coupons::list::List;
use hll_coupons::serialization::LG_LIST_BUCKETS;
use std::alloc::Allocator;

/// Returns the 8-bit registers that all pairs of a mode fold to, with the cleared estimate state.
///
/// `lg_k` is at most that of registers. It takes one pass. Allocates only with this allocator. Fails with `Memory`.
pub(crate) fn fold_of<A: Allocator + Clone>(
    alloc: A,
    mode: &Mode<A>,
    lg_k: u8,
) -> Result<Array8<A>, Error>
    requires lg_k { IsLgK lg_k }
    requires within { IsWithin lg_k (layout_of mode.now) }
    ensures ok { IfOk result (λ a. a ≡ record { lg_k = lg_k; registers = fold_to (pairs_in (content_in (layout_of mode.now))) lg_k; state = cleared_state }) }
    ensures err { IfErr result (λ e. e ≡ Memory) }
{
    match mode {
        Mode::List { list, .. } => registers_of_table(alloc, lg_k, list.container(), None),
        Mode::Set { set, .. } => registers_of_table(alloc, lg_k, set.container(), None),
        Mode::Array4(array) => fold_of_registers(alloc, lg_k, array),
        Mode::Array6(array) => fold_of_registers(alloc, lg_k, array),
        Mode::Array8(array) => fold_of_registers(alloc, lg_k, array),
    }
}

/// Returns whether a table has the smallest size that holds its coupons at an `lg_k`.
pub(crate) fn has_least_size<A: Allocator>(lg_k: u8, table: &Container<A>) -> bool
    requires { IsLgK lg_k }
    ensures { IsTrue result ↔ (stages.stage lg_k 3 (len (coupons_of table.now)) ≡ Some table.now.lg_size) }
{
    stage(lg_k, LG_LIST_BUCKETS, table.len()) == Some(table.lg_size() as u8)
}

/// Returns the mode of the coupons of a table at an `lg_k`: the smallest table that holds them, or registers.
///
/// Fails with `Memory`.
pub(crate) fn mode_of_coupons<A: Allocator + Clone>(
    lg_k: u8,
    hll_type: HllType,
    table: &Container<A>,
) -> Result<Mode<A>, Error>
    requires { IsLgK lg_k }
    ensures content { IfOk result (λ m. content_in (layout_of m) ≡ content_for lg_k (coupons_of table.now) (stages.stage lg_k 3 (len (coupons_of table.now)))) }
    ensures layout { IfOk result (λ m. IsLayoutFor lg_k (layout_of m)) }
    ensures width { IfOk result (λ m. width_of (layout_of m) ≡ hll_type) }
    ensures err { IfErr result (λ e. e ≡ Memory) }
{
    match stage(lg_k, LG_LIST_BUCKETS, table.len()) {
        None => mode_of_table(lg_k, hll_type, table, None),
        Some(LG_LIST_BUCKETS) => Ok(Mode::List {
            list: list_of(table)?,
            hll_type,
        }),
        Some(size) => {
            let alloc = table.allocator().clone()?;
            let set = HashSet::from_container(alloc, usize::from(size), table)?;
            Ok(Mode::Set { set, hll_type })
        }
    }
}

/// Returns a list of eight buckets with the coupons of a table, at most eight.
fn list_of<A: Allocator + Clone>(table: &Container<A>) -> Result<List<A>, Error>
    requires { len (coupons_of table.now) ≤ 8 }
    ensures size { IfOk result (λ l. l.lg_size ≡ 3) }
    ensures members { IfOk result (λ l. coupons_of l ≡ coupons_of table.now) }
    ensures err { IfErr result (λ e. e ≡ Memory) }
{
    table.table_is_legal();
    let mut list = List::default_in(table.allocator().clone()?);
    for coupon in table.iter() {
        list.container().table_is_legal();
        list.update(coupon);
    }
    Ok(list)
}
