// SPDX-License-Identifier: Apache-2.0
//! What a sketch holds (docs/MODEL.md, "Sketch values").
ghost use Rattle.std.specs.Prelude.{◌≡◌, ◌≢◌, ℕ, true, IfOk, IfErr, OnErr};
ghost use Rattle.hll_base.specs.declared.error.Reason.TheVariants.{Memory};
ghost use Rattle.hll_base.specs.declared.hll_type.HllType.TheVariants.{Hll8};
ghost use Rattle.hll_sketch.specs.Layout.{content_in, layout_of, width_of, IsLayoutFor};
ghost use Rattle.hll_sketch.specs.Value.{in_registers, registers};

use crate::register_folds::eight_bits_of;
use hll_arrays::array4::Array4;
use hll_arrays::array6::Array6;
use hll_arrays::array8::Array8;
use hll_arrays::convert::convert;
use hll_arrays::registers::Registers;
use hll_base::error::Error;
use hll_base::hll_type::HllType;
use hll_coupons::hash_set::HashSet;
use hll_coupons::list::List;
use std::alloc::{Allocator, Global};

/// A list or a set of coupons with the width that registers will have, or registers.
#[derive_where(Debug)]
pub enum Mode<A: Allocator = Global> {
    /// A list of eight buckets.
    List { list: List<A>, hll_type: HllType },
    /// A set of 32 buckets or more.
    Set { set: HashSet<A>, hll_type: HllType },
    /// 4-bit registers.
    Array4(Array4<A>),
    /// 6-bit registers.
    Array6(Array6<A>),
    /// 8-bit registers.
    Array8(Array8<A>),
}

/// Drops the table or the registers. Written out, since a derived drop is proved again, kind by kind, in each function that
/// drops a sketch.
impl<A: Allocator> Drop for Mode<A> {
    fn drop(self) {
        match self {
            Mode::List { list, hll_type: _ } => drop(list),
            Mode::Set { set, hll_type: _ } => drop(set),
            Mode::Array4(array) => drop(array),
            Mode::Array6(array) => drop(array),
            Mode::Array8(array) => drop(array),
        }
    }
}

impl<A: Allocator + Clone> Mode<A> {
    /// Returns the mode at another width: coupons at the size of their table, or registers with their estimate state.
    ///
    /// Fails with `Memory`, only for registers.
    pub(crate) fn into_width(self, hll_type: HllType) -> Result<Mode<A>, Error>
        ensures content { IfOk result (λ m. content_in (layout_of m) ≡ content_in (layout_of self)) }
        ensures layout { IfOk result (λ m. (lg_k : ℕ) → IsLayoutFor lg_k (layout_of self) → IsLayoutFor lg_k (layout_of m)) }
        ensures width { IfOk result (λ m. width_of (layout_of m) ≡ hll_type) }
        ensures needed { OnErr result (in_registers (content_in (layout_of self)) ≡ true) }
        ensures err { IfErr result (λ e. e ≡ Memory) }
    {
        match self {
            Mode::List { list, hll_type: _ } => Ok(Mode::List { list, hll_type }),
            Mode::Set { set, hll_type: _ } => Ok(Mode::Set { set, hll_type }),
            Mode::Array4(array) => registers_to_mode(array.allocator(), &array, hll_type),
            Mode::Array6(array) => registers_to_mode(array.allocator(), &array, hll_type),
            Mode::Array8(array) => array_into_mode(array, hll_type),
        }
    }

    /// Returns a copy, with the same buckets.
    ///
    /// Fails with `Memory`.
    pub fn clone(&self) -> Result<Mode<A>, Error>
        ensures ok { IfOk result (λ m. layout_of m ≡ layout_of self.now) }
        ensures err { IfErr result (λ e. e ≡ Memory) }
    {
        match self {
            Mode::List { list, hll_type } => Ok(Mode::List {
                list: list.clone()?,
                hll_type: *hll_type,
            }),
            Mode::Set { set, hll_type } => Ok(Mode::Set {
                set: set.clone()?,
                hll_type: *hll_type,
            }),
            Mode::Array4(array) => Ok(Mode::Array4(array.clone()?)),
            Mode::Array6(array) => Ok(Mode::Array6(array.clone()?)),
            Mode::Array8(array) => Ok(Mode::Array8(array.clone()?)),
        }
    }
}

/// Modes are equal if their kind, width and coupons are equal, or their registers and estimate states. The buckets of their
/// tables don't count. Allocates nothing.
impl<A: Allocator> PartialEq for Mode<A> {
    ghost use Rattle.hll_base.specs.declared.hll_type.HllType.TheVariants.{Hll8};
    ghost use Rattle.hll_sketch.specs.Layout.{content_in, layout_of, width_of, IsLayoutFor};
    ghost use Rattle.hll_sketch.specs.Value.{in_registers, registers};
    ghost use Rattle.hll_sketch.specs.Same.{same_layout, same_layout-partial};

    ghost eq = { λ x y. same_layout (layout_of x) (layout_of y) };

    ghost laws = { record { symm = λ x y. same_layout-partial.symm (layout_of x) (layout_of y); trans = λ x y z. same_layout-partial.trans (layout_of x) (layout_of y) (layout_of z) } };

    fn eq(&self, other: &Mode<A>) -> bool {
        match (self, other) {
            (
                Mode::List { list, hll_type },
                Mode::List {
                    list: others,
                    hll_type: width,
                },
            ) => { *hll_type == *width && *list == *others }
            (
                Mode::Set { set, hll_type },
                Mode::Set {
                    set: others,
                    hll_type: width,
                },
            ) => { *hll_type == *width && *set == *others }
            (Mode::Array4(array), Mode::Array4(others)) => *array == *others,
            (Mode::Array6(array), Mode::Array6(others)) => *array == *others,
            (Mode::Array8(array), Mode::Array8(others)) => *array == *others,
            _ => false,
        }
    }
}

/// Returns a copy of registers as a mode of a width, with their estimate state.
///
/// Allocates only with a clone of this allocator. Fails with `Memory`.
pub(crate) fn registers_to_mode<R: Registers, A: Allocator + Clone>(
    alloc: &A,
    source: &R,
    hll_type: HllType,
) -> Result<Mode<A>, Error>
    ensures content { IfOk result (λ m. content_in (layout_of m) ≡ registers (R.stored source.now).registers (R.stored source.now).state) }
    ensures layout { IfOk result (λ m. IsLayoutFor (R.stored source.now).lg_k (layout_of m)) }
    ensures width { IfOk result (λ m. width_of (layout_of m) ≡ hll_type) }
    ensures err { IfErr result (λ e. e ≡ Memory) }
{
    array_into_mode(eight_bits_of(alloc.clone()?, source)?, hll_type)
}

/// Returns 8-bit registers as a mode of another width, with their estimate state.
///
/// Allocates nothing for 8 bits. Fails with `Memory`.
pub(crate) fn array_into_mode<A: Allocator + Clone>(
    array: Array8<A>,
    hll_type: HllType,
) -> Result<Mode<A>, Error>
    ensures content { IfOk result (λ m. content_in (layout_of m) ≡ registers array.registers array.state) }
    ensures layout { IfOk result (λ m. IsLayoutFor array.lg_k (layout_of m)) }
    ensures width { IfOk result (λ m. width_of (layout_of m) ≡ hll_type) }
    ensures needed { OnErr result (hll_type ≢ Hll8) }
    ensures err { IfErr result (λ e. e ≡ Memory) }
{
    match hll_type {
        HllType::Hll8 => Ok(Mode::Array8(array)),
        HllType::Hll4 | HllType::Hll6 => array_to_mode(&array, hll_type),
    }
}

/// Returns a copy of 8-bit registers as a mode of another width, with their estimate state.
///
/// Fails with `Memory`.
pub(crate) fn array_to_mode<A: Allocator + Clone>(
    array: &Array8<A>,
    hll_type: HllType,
) -> Result<Mode<A>, Error>
    ensures content { IfOk result (λ m. content_in (layout_of m) ≡ registers array.now.registers array.now.state) }
    ensures layout { IfOk result (λ m. IsLayoutFor array.now.lg_k (layout_of m)) }
    ensures width { IfOk result (λ m. width_of (layout_of m) ≡ hll_type) }
    ensures err { IfErr result (λ e. e ≡ Memory) }
{
    match hll_type {
        HllType::Hll4 => Ok(Mode::Array4(convert(array)?)),
        HllType::Hll6 => Ok(Mode::Array6(convert(array)?)),
        HllType::Hll8 => Ok(Mode::Array8(array.clone()?)),
    }
}
