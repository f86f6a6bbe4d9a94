// SPDX-License-Identifier: Apache-2.0
//! The exceptions of 4-bit registers: an optional map.
ghost use Rattle.std.specs.Prelude.{◌≡◌, ◌≢◌, ◌+◌, ◌-◌, ◌*◌, ◌^◌, ◌%◌, ◌++◌, ◌<◌, ◌≤◌, ◌==◌, ◌↔◌, ◌⊎◌, ℕ, if◌then◌else◌, length, take, drop, slice_index, unwrap_or, All, true, false, None, Some, IsOk, IsTrue, IfOk, IfErr, IfSome, OnOk, OnErr};
ghost use Rattle.hll_base.specs.declared.error.Reason.TheVariants.{Memory};
ghost use Rattle.std.specs.FinSet.{len};
ghost use Rattle.std.specs.Option.{option_map};
ghost use Rattle.hll_coupons.specs.AuxMap.{entries_in, table_bytes, value_in, ExceptionMap, IsMap};
ghost use Rattle.hll_base.specs.Join.{join};
ghost use Rattle.hll_coupons.specs.Coupons.{coupon_bytes, WritesAscending};
ghost use Rattle.hll_registers.specs.FourBits.{unboxed, exception_in, exception_of, exceptions_in, fallen, kept_above, unpacked, IsMapFor, IsSlotOf};
ghost use Rattle.hll_registers.specs.Payload.{register_of, Agrees};
ghost use Rattle.hll_kernels.specs.Packed.{lowered_by, nibble, nibble_at, AreRegisters};

use crate::exception_maxima::max_with_exceptions;
use hll_base::codec::SketchBytes;
use hll_base::error::Error;
use hll_coupons::aux_map::{AuxMap, AuxMapRefIter};
use hll_coupons::aux_map_builder::AuxMapBuilder;
use hll_coupons::container::with_coupons;
use hll_coupons::raw_coupons::{bytes_of_raw_coupons, elements_of_raw_coupons};
use hll_coupons::serialization::COUPON_SIZE_BYTES;
use hll_kernels::kernels::are_below;
use hll_kernels::nibbles::{MARK, lower_by, max_with_nibbles, nibble_of, put_nibble};
use std::alloc::Allocator;

/// A map of exceptions, allocated only if there are any.
pub type Exceptions<A> = Option<Box<AuxMap<A>, A>>;

/// Such a map while it is filled.
pub type ExceptionsBuilder<A> = Option<AuxMapBuilder<A>>;

/// Returns the exception of a slot, or `None` if it has none.
pub fn exception_at<A: Allocator>(map: &Exceptions<A>, slot: u32) -> Option<u8>
    requires { IsSlotOf (unboxed map.now) slot }
    ensures value { result ≡ exception_in (unboxed map.now) slot }
    ensures small { IfSome result (λ v. (1 ≤ v) × (v ≤ 63)) }
{
    match map {
        Some(map) => map.get(slot),
        None => None,
    }
}

/// Returns a copy allocated by `alloc`, with the same buckets.
pub(crate) fn copied<A: Allocator + Clone>(
    map: &Exceptions<A>,
    alloc: &A,
) -> Result<Exceptions<A>, Error>
    ensures ok { IfOk result (λ copy. unboxed copy ≡ unboxed map.now) }
    ensures err { IfErr result (λ e. e ≡ Memory) }
{
    match map {
        Some(map) => Ok(Some(Box::new(alloc.clone()?, map.as_ref().clone()?)?)),
        None => Ok(None),
    }
}

/// Returns the size of the map's buckets in bytes, 0 if there is no map.
pub(crate) fn bytes_of_buckets<A: Allocator>(map: &Exceptions<A>) -> usize
    ensures size { (k : ℕ) → IsMapFor k (unboxed map.now) → result ≡ table_bytes k (len (exceptions_in (unboxed map.now))) }
    ensures bound { (k : ℕ) → IsMapFor k (unboxed map.now) → result ≤ 2 ^ 28 }
{
    match map {
        Some(map) => map.estimated_size(),
        None => 0,
    }
}

/// Returns whether a pass over the buckets of the map would be expensive if only a few values are read.
pub(crate) fn has_many_buckets<A: Allocator>(map: &Exceptions<A>) -> bool {
    match map {
        Some(map) => map.estimated_size() > 1 << 13,
        None => false,
    }
}

/// Returns an iterator over the slots and values of the exceptions, in the order of their buckets, or `None` if there is no
/// map.
pub(crate) fn entries_of<A: Allocator>(map: &Exceptions<A>) -> Option<AuxMapRefIter<'_>>
    ensures { result ≡ option_map entries_in (unboxed map.now) }
{
    match map {
        Some(map) => Some(map.iter()),
        None => None,
    }
}

/// Returns the number of exceptions.
pub(crate) fn count_exceptions<A: Allocator>(map: &Exceptions<A>) -> usize
    ensures count { (k : ℕ) → IsMapFor k (unboxed map.now) → result ≡ len (exceptions_in (unboxed map.now)) }
    ensures bound { (k : ℕ) → IsMapFor k (unboxed map.now) → result ≤ 2 ^ 21 }
{
    match map {
        Some(map) => map.len(),
        None => 0,
    }
}

/// Returns whether two maps for the same slots have the same entries. Their buckets don't matter.
pub(crate) fn have_same_exceptions<A: Allocator>(map: &Exceptions<A>, other: &Exceptions<A>) -> bool
    ensures { (k : ℕ) → IsMapFor k (unboxed map.now) → IsMapFor k (unboxed other.now) → IsTrue result ↔ (exceptions_in (unboxed map.now) ≡ exceptions_in (unboxed other.now)) }
{
    match (map, other) {
        (Some(map), Some(other)) => *map == *other,
        (None, None) => true,
        _ => false,
    }
}

/// Returns `bytes` with the exceptions appended, as coupons in ascending order.
///
/// Allocates a sorted copy, or nothing if there is no map. Fails with `Memory` if an allocation fails.
pub(crate) fn with_exceptions<A: Allocator + Clone>(
    bytes: SketchBytes<A>,
    map: &Exceptions<A>,
    alloc: &A,
) -> Result<SketchBytes<A>, Error>
    ensures ok { IfOk result (WritesAscending (λ order. bytes ++ coupon_bytes order) (exceptions_in (unboxed map.now))) }
    ensures err { IfErr result (λ e. e ≡ Memory) }
{
    match map {
        Some(map) => {
            let entries = map.ascending(alloc.clone()?)?;
            with_coupons(bytes, &entries)
        }
        None => Ok(bytes),
    }
}

/// Returns the first bytes, four for each exception, if they are the exceptions as coupons in ascending order. Searches for one
/// after the other; allocates nothing.
pub(crate) fn exceptions_in_order<'a, A: Allocator>(
    map: &Exceptions<A>,
    bytes: &'a [u8],
) -> Option<&'a [u8]>
    ensures order { IfSome result (λ found. WritesAscending coupon_bytes (exceptions_in (unboxed map.now)) found.now) }
    ensures few { IfSome result (λ found. length found.now ≤ 2 ^ 23) }
{
    match map {
        Some(map) => entries_in_order(map, bytes),
        None => Some(&[]),
    }
}

/// Returns the first bytes, four for each entry of a map, if they are the entries as coupons in ascending order.
fn entries_in_order<'a, A: Allocator>(map: &AuxMap<A>, bytes: &'a [u8]) -> Option<&'a [u8]>
    ensures order { IfSome result (λ found. WritesAscending coupon_bytes (exceptions_in (Some map.now)) found.now) }
    ensures few { IfSome result (λ found. length found.now ≤ 2 ^ 23) }
{
    let count = map.len();
    if bytes.len() / COUPON_SIZE_BYTES < count {
        return None;
    }
    if map.equals_ascending(elements_of_raw_coupons(bytes, count)) {
        Some(bytes_of_raw_coupons(bytes, count))
    } else {
        None
    }
}

/// Returns a map with one entry.
fn one_entry<A: Allocator + Clone>(
    alloc: A,
    lg_k: u8,
    slot: u32,
    value: u8,
) -> Result<AuxMap<A>, Error>
    requires low { 4 ≤ lg_k }
    requires high { lg_k ≤ 21 }
    requires within { slot < 2 ^ lg_k }
    requires least { 1 ≤ value }
    requires most { value ≤ 63 }
    ensures map { IfOk result (λ m. IsMapFor lg_k (Some m)) }
    ensures values { IfOk result (λ m. (s : ℕ) → exception_in (Some m) s ≡ (if s == slot then Some value else None)) }
    ensures err { IfErr result (λ e. e ≡ Memory) }
{
    let mut map = AuxMap::new(alloc, lg_k)?;
    add_value(&mut map, slot, value)?;
    Ok(map)
}

/// Sets the exception of a slot, whether or not the slot has one. If there is no map, makes one with `alloc`.
///
/// Fails with `Memory` if an allocation fails, which can't happen if the slot has an exception; then the map is
/// unchanged.
pub(crate) fn put_exception<A: Allocator + Clone>(
    map: &mut Exceptions<A>,
    alloc: &A,
    lg_k: u8,
    slot: u32,
    value: u8,
) -> Result<(), Error>
    requires low { 4 ≤ lg_k }
    requires high { lg_k ≤ 21 }
    requires within { slot < 2 ^ lg_k }
    requires least { 1 ≤ value }
    requires most { value ≤ 63 }
    requires map { IsMapFor lg_k (unboxed map.old) }
    ensures map { OnOk result (IsMapFor lg_k (unboxed map.new)) }
    ensures values { OnOk result ((s : ℕ) → exception_in (unboxed map.new) s ≡ (if s == slot then Some value else exception_in (unboxed map.old) s)) }
    ensures unchanged { OnErr result ((unboxed map.new) ≡ (unboxed map.old)) }
    ensures err { IfErr result (λ e. e ≡ Memory) }
    ensures never { exception_in (unboxed map.old) slot ≢ None → IsOk result }
{
    match map {
        Some(map) => set_value(map, slot, value),
        None => {
            let entry = one_entry(alloc.clone()?, lg_k, slot, value)?;
            *map = Some(Box::new(alloc.clone()?, entry)?);
            Ok(())
        }
    }
}

/// Sets the value of a slot in a map, whether or not the slot has one.
fn set_value<A: Allocator + Clone>(map: &mut AuxMap<A>, slot: u32, value: u8) -> Result<(), Error>
    requires within { slot < 2 ^ map.old.lg_k }
    requires least { 1 ≤ value }
    requires most { value ≤ 63 }
    ensures map { OnOk result (IsMapFor map.old.lg_k (Some map.new)) }
    ensures values { OnOk result ((s : ℕ) → exception_in (Some map.new) s ≡ (if s == slot then Some value else exception_in (Some map.old) s)) }
    ensures unchanged { OnErr result (map.new ≡ map.old) }
    ensures err { IfErr result (λ e. e ≡ Memory) }
    ensures never { exception_in (Some map.old) slot ≢ None → IsOk result }
{
    match map.get(slot) {
        Some(_) => {
            map.replace(slot, value);
            Ok(())
        }
        None => map.insert(slot, value),
    }
}

// ---- maps that are filled

/// Returns a builder of a map, with one entry.
fn one_entry_to_fill<A: Allocator + Clone>(
    alloc: A,
    lg_k: u8,
    slot: u32,
    value: u8,
) -> Result<AuxMapBuilder<A>, Error>
    requires low { 4 ≤ lg_k }
    requires high { lg_k ≤ 21 }
    requires within { slot < 2 ^ lg_k }
    requires least { 1 ≤ value }
    requires most { value ≤ 63 }
    ensures map { IfOk result (λ m. IsMapFor lg_k (Some m)) }
    ensures values { IfOk result (λ m. (s : ℕ) → exception_in (Some m) s ≡ (if s == slot then Some value else None)) }
    ensures err { IfErr result (λ e. e ≡ Memory) }
{
    let mut map = AuxMapBuilder::new(alloc, lg_k)?;
    fill_value(&mut map, slot, value)?;
    Ok(map)
}

/// Adds an exception for a slot that has none. If there is no map, makes one with `alloc`.
///
/// Fails with `Memory` if an allocation fails; then the map is unchanged.
pub fn add_exception<A: Allocator + Clone>(
    map: &mut ExceptionsBuilder<A>,
    alloc: &A,
    lg_k: u8,
    slot: u32,
    value: u8,
) -> Result<(), Error>
    requires low { 4 ≤ lg_k }
    requires high { lg_k ≤ 21 }
    requires within { slot < 2 ^ lg_k }
    requires least { 1 ≤ value }
    requires most { value ≤ 63 }
    requires map { IsMapFor lg_k map.old }
    requires none { exception_in map.old slot ≡ None }
    ensures map { OnOk result (IsMapFor lg_k map.new) }
    ensures values { OnOk result ((s : ℕ) → exception_in map.new s ≡ (if s == slot then Some value else exception_in map.old s)) }
    ensures unchanged { OnErr result (map.new ≡ map.old) }
    ensures err { IfErr result (λ e. e ≡ Memory) }
{
    match map {
        Some(map) => fill_value(map, slot, value),
        None => {
            *map = Some(one_entry_to_fill(alloc.clone()?, lg_k, slot, value)?);
            Ok(())
        }
    }
}

/// Returns whether a slot has an exception.
///
/// Fails with `Memory` if a search was cut off and an allocation fails.
pub fn has_exception<A: Allocator + Clone>(
    map: &mut ExceptionsBuilder<A>,
    slot: u32,
) -> Result<bool, Error>
    requires { IsSlotOf map.old slot }
    ensures has { IfOk result (λ has. IsTrue has ↔ (exception_in map.old slot ≢ None)) }
    ensures unchanged { map.new ≡ map.old }
    ensures err { IfErr result (λ e. e ≡ Memory) }
{
    match map {
        Some(map) => map.has(slot),
        None => Ok(false),
    }
}

/// Sets the exception of a slot, unless the slot has this one already.
///
/// Fails with `Memory` if an allocation fails.
fn keep_exception<A: Allocator + Clone>(
    map: &mut ExceptionsBuilder<A>,
    alloc: &A,
    lg_k: u8,
    slot: u32,
    value: u8,
) -> Result<(), Error>
    requires low { 4 ≤ lg_k }
    requires high { lg_k ≤ 21 }
    requires within { slot < 2 ^ lg_k }
    requires least { 1 ≤ value }
    requires most { value ≤ 63 }
    requires map { IsMapFor lg_k map.old }
    requires same { (v : ℕ) → exception_in map.old slot ≡ Some v → v ≡ value }
    ensures map { OnOk result (IsMapFor lg_k map.new) }
    ensures values { OnOk result ((s : ℕ) → exception_in map.new s ≡ (if s == slot then Some value else exception_in map.old s)) }
    ensures err { IfErr result (λ e. e ≡ Memory) }
{
    if has_exception(map, slot)? {
        return Ok(());
    }
    add_exception(map, alloc, lg_k, slot, value)
}

/// Returns the map that was built, allocated by `alloc`.
///
/// Fails with `Memory` if an allocation fails, which can't happen if there are no exceptions.
pub fn built<A: Allocator + Clone>(
    map: ExceptionsBuilder<A>,
    alloc: &A,
) -> Result<Exceptions<A>, Error>
    ensures ok { IfOk result (λ built. unboxed built ≡ map) }
    ensures needed { OnErr result (map ≢ None) }
    ensures err { IfErr result (λ e. e ≡ Memory) }
{
    match map {
        Some(map) => Ok(Some(Box::new(alloc.clone()?, map.build())?)),
        None => Ok(None),
    }
}

/// Adds a value for a slot that has none in the map.
fn fill_value<A: Allocator + Clone>(
    map: &mut AuxMapBuilder<A>,
    slot: u32,
    value: u8,
) -> Result<(), Error>
    requires within { slot < 2 ^ map.old.lg_k }
    requires least { 1 ≤ value }
    requires most { value ≤ 63 }
    requires none { exception_in (Some map.old) slot ≡ None }
    ensures map { OnOk result (IsMapFor map.old.lg_k (Some map.new)) }
    ensures values { OnOk result ((s : ℕ) → exception_in (Some map.new) s ≡ (if s == slot then Some value else exception_in (Some map.old) s)) }
    ensures unchanged { OnErr result (map.new ≡ map.old) }
    ensures err { IfErr result (λ e. e ≡ Memory) }
{
    map.insert(slot, value)
}

/// Adds a value for a slot that has none in the map.
fn add_value<A: Allocator + Clone>(map: &mut AuxMap<A>, slot: u32, value: u8) -> Result<(), Error>
    requires within { slot < 2 ^ map.old.lg_k }
    requires least { 1 ≤ value }
    requires most { value ≤ 63 }
    requires none { exception_in (Some map.old) slot ≡ None }
    ensures map { OnOk result (IsMapFor map.old.lg_k (Some map.new)) }
    ensures values { OnOk result ((s : ℕ) → exception_in (Some map.new) s ≡ (if s == slot then Some value else exception_in (Some map.old) s)) }
    ensures unchanged { OnErr result (map.new ≡ map.old) }
    ensures err { IfErr result (λ e. e ≡ Memory) }
{
    map.insert(slot, value)
}

/// Returns whether each exception is at least 15 above a minimum.
fn are_all_above<A: Allocator>(map: &AuxMap<A>, minimum: u8) -> bool
    requires minimum { minimum ≤ 63 }
    requires map { IsMap map.now }
    ensures all { result ≡ true → (s v : ℕ) → value_in map.now s ≡ Some v → minimum + 15 ≤ v }
    ensures some { result ≡ false → (s : ℕ) × (v : ℕ) × (value_in map.now s ≡ Some v) × (v < minimum + 15) }
{
    for (_, value) in map.iter() {
        if value < minimum + MARK {
            return false;
        }
    }
    true
}

/// Returns the exceptions that are still exceptions above a greater minimum, in a new map allocated by `alloc`.
///
/// Fails with `Memory` if an allocation fails, which can't happen if none is left.
fn kept_entries<A: Allocator + Clone>(
    map: &AuxMap<A>,
    alloc: &A,
    minimum: u8,
) -> Result<Exceptions<A>, Error>
    requires minimum { minimum ≤ 63 }
    requires map { IsMap map.now }
    ensures map { IfOk result (λ kept. IsMapFor map.now.lg_k (unboxed kept)) }
    ensures values { IfOk result (λ kept. (s : ℕ) → exception_in (unboxed kept) s ≡ kept_above minimum (value_in map.now s)) }
    ensures err { IfErr result (λ e. e ≡ Memory) }
    ensures needed { OnErr result ((s : ℕ) × (v : ℕ) × (value_in map.now s ≡ Some v) × (minimum + 15 ≤ v)) }
{
    let mut kept = None;
    for (slot, value) in map.iter() {
        if value >= minimum + MARK {
            keep_exception(&mut kept, alloc, map.lg_config_k(), slot, value)?;
        }
    }
    built(kept, alloc)
}

/// Sets the nibbles of the registers that are no longer exceptions above a greater minimum.
///
/// No exception is below the minimum, and there are two slots for each byte.
fn put_fallen_entries<A: Allocator>(bytes: &mut [u8], map: &AuxMap<A>, minimum: u8)
    requires minimum { minimum ≤ 63 }
    requires map { IsMap map.now }
    requires size { 2 * length bytes.old ≡ 2 ^ map.now.lg_k }
    requires above { (s v : ℕ) → value_in map.now s ≡ Some v → minimum ≤ v }
    ensures nibbles { (s : ℕ) → nibble_at bytes.new s ≡ fallen minimum (value_in map.now s) (nibble_at bytes.old s) }
    ensures len { length bytes.new ≡ length bytes.old }
    ensures fits { All (λ b. b < 256) bytes.old → All (λ b. b < 256) bytes.new }
{
    for (slot, value) in map.iter() {
        if value < minimum + MARK {
            put_nibble(bytes, slot as usize, value - minimum);
        }
    }
}

/// Does what `kept_entries` does, if there is a map.
fn kept_exceptions<A: Allocator + Clone>(
    map: &Exceptions<A>,
    alloc: &A,
    lg_k: u8,
    minimum: u8,
) -> Result<Exceptions<A>, Error>
    requires minimum { minimum ≤ 63 }
    requires map { IsMapFor lg_k (unboxed map.now) }
    ensures map { IfOk result (λ kept. IsMapFor lg_k (unboxed kept)) }
    ensures values { IfOk result (λ kept. (s : ℕ) → exception_in (unboxed kept) s ≡ kept_above minimum (exception_in (unboxed map.now) s)) }
    ensures err { IfErr result (λ e. e ≡ Memory) }
    ensures needed { OnErr result ((s : ℕ) × (v : ℕ) × (exception_in (unboxed map.now) s ≡ Some v) × (minimum + 15 ≤ v)) }
{
    match map {
        Some(map) => kept_entries(map, alloc, minimum),
        None => Ok(None),
    }
}

// ---- the minimum rises

/// A rise of the minimum: the only slot at the minimum gets a greater value.
#[derive(Clone, Copy)]
pub(crate) struct Rise {
    pub(crate) from: u8,
    pub(crate) to: u8,
    pub(crate) slot: u32,
    pub(crate) value: u8,
}

/// Returns the exceptions after a rise: `None` if they stay the same, else a map allocated by `alloc`.
///
/// Fails with `Memory` if the exceptions change, some are left, and an allocation fails.
pub(crate) fn exceptions_after<A: Allocator + Clone>(
    map: &Exceptions<A>,
    alloc: &A,
    lg_k: u8,
    rise: Rise,
) -> Result<Option<Exceptions<A>>, Error>
    requires low { 4 ≤ lg_k }
    requires high { lg_k ≤ 21 }
    requires minimum { rise.to ≤ 63 }
    requires within { rise.slot < 2 ^ lg_k }
    requires most { rise.value ≤ 63 }
    requires map { IsMapFor lg_k (unboxed map.now) }
    requires none { exception_in (unboxed map.now) rise.slot ≡ None }
    ensures map { IfOk result (λ above. IsMapFor lg_k (unboxed (unwrap_or above map.now))) }
    ensures values { IfOk result (λ above. (s : ℕ) → exception_in (unboxed (unwrap_or above map.now)) s ≡ (if s == rise.slot then exception_of rise.to rise.value else kept_above rise.to (exception_in (unboxed map.now) s))) }
    ensures err { IfErr result (λ e. e ≡ Memory) }
    ensures moved { OnErr result ((rise.to + 15 ≤ rise.value) ⊎ ((s : ℕ) × (v : ℕ) × (exception_in (unboxed map.now) s ≡ Some v) × (v < rise.to + 15))) }
    ensures needed { OnErr result ((rise.to + 15 ≤ rise.value) ⊎ ((s : ℕ) × (v : ℕ) × (exception_in (unboxed map.now) s ≡ Some v) × (rise.to + 15 ≤ v))) }
{
    if keeps_all_exceptions(map, rise.to, rise.value) {
        return Ok(None);
    }
    let mut above = kept_exceptions(map, alloc, lg_k, rise.to)?;
    if rise.value >= rise.to + MARK {
        put_exception(&mut above, alloc, lg_k, rise.slot, rise.value)?;
    }
    Ok(Some(above))
}

/// Replaces the exceptions by those after a rise, if they changed.
pub(crate) fn replace_by<A: Allocator>(map: &mut Exceptions<A>, above: Option<Exceptions<A>>)
    ensures { map.new ≡ unwrap_or above map.old }
{
    if let Some(above) = above {
        *map = above;
    }
}

/// Returns whether the exceptions stay the same when the minimum rises and a slot that has no exception gets this
/// value.
fn keeps_all_exceptions<A: Allocator>(map: &Exceptions<A>, minimum: u8, value: u8) -> bool
    requires minimum { minimum ≤ 63 }
    requires map { (t : ExceptionMap) → (unboxed map.now) ≡ Some t → IsMap t }
    ensures all { result ≡ true → (s v : ℕ) → exception_in (unboxed map.now) s ≡ Some v → minimum + 15 ≤ v }
    ensures value { result ≡ true → value < minimum + 15 }
    ensures some { result ≡ false → (minimum + 15 ≤ value) ⊎ ((s : ℕ) × (v : ℕ) × (exception_in (unboxed map.now) s ≡ Some v) × (v < minimum + 15)) }
{
    if value >= minimum + MARK {
        return false;
    }
    match map {
        Some(map) => are_all_above(map, minimum),
        None => true,
    }
}

/// Rewrites the nibbles after a rise.
///
/// Each nibble of another slot is 15, or at least the difference of the minimums. No exception is below the new
/// minimum.
pub(crate) fn repack<A: Allocator>(bytes: &mut [u8], map: &Exceptions<A>, lg_k: u8, rise: Rise)
    requires few { length bytes.old ≤ 2 ^ 20 }
    requires size { 2 * length bytes.old ≡ 2 ^ lg_k }
    requires fits { All (λ b. b < 256) bytes.old }
    requires map { IsMapFor lg_k (unboxed map.now) }
    requires within { rise.slot < 2 ^ lg_k }
    requires from { rise.from ≤ rise.to }
    requires to { rise.to ≤ rise.value }
    requires most { rise.value ≤ 63 }
    requires high { (s : ℕ) → s < 2 * length bytes.old → s ≢ rise.slot → (nibble_at bytes.old s ≡ 15) ⊎ (rise.to - rise.from ≤ nibble_at bytes.old s) }
    requires above { (s v : ℕ) → exception_in (unboxed map.now) s ≡ Some v → rise.to ≤ v }
    ensures nibbles { (s : ℕ) → s < 2 * length bytes.old → nibble_at bytes.new s ≡ (if s == rise.slot then nibble rise.to rise.value else fallen rise.to (exception_in (unboxed map.now) s) (lowered_by (rise.to - rise.from) (nibble_at bytes.old s))) }
    ensures len { length bytes.new ≡ length bytes.old }
    ensures fits { All (λ b. b < 256) bytes.new }
{
    put_nibble(bytes, rise.slot as usize, MARK);
    lower_by(bytes, rise.to - rise.from);
    put_fallen(bytes, map, lg_k, rise.to);
    put_nibble(bytes, rise.slot as usize, (rise.value - rise.to).min(MARK));
}

/// Does what `put_fallen_entries` does, if there is a map.
fn put_fallen<A: Allocator>(bytes: &mut [u8], map: &Exceptions<A>, lg_k: u8, minimum: u8)
    requires minimum { minimum ≤ 63 }
    requires size { 2 * length bytes.old ≡ 2 ^ lg_k }
    requires map { IsMapFor lg_k (unboxed map.now) }
    requires above { (s v : ℕ) → exception_in (unboxed map.now) s ≡ Some v → minimum ≤ v }
    ensures nibbles { (s : ℕ) → nibble_at bytes.new s ≡ fallen minimum (exception_in (unboxed map.now) s) (nibble_at bytes.old s) }
    ensures len { length bytes.new ≡ length bytes.old }
    ensures fits { All (λ b. b < 256) bytes.old → All (λ b. b < 256) bytes.new }
{
    if let Some(map) = map {
        put_fallen_entries(bytes, map, minimum);
    }
}

// ---- exceptions of values

/// Registers, and a minimum for their nibbles and exceptions.
#[derive(Clone, Copy)]
struct Above<'a> {
    lg_k: u8,
    minimum: u8,
    values: &'a [u8],
}

/// Returns the exceptions of registers above a minimum: a map allocated by `alloc`, or `None` if there are none.
///
/// Fails with `Memory` if an allocation fails.
pub(crate) fn exceptions_of<A: Allocator + Clone>(
    alloc: &A,
    lg_k: u8,
    values: &[u8],
    minimum: u8,
) -> Result<Exceptions<A>, Error>
    requires low { 4 ≤ lg_k }
    requires high { lg_k ≤ 21 }
    requires minimum { minimum ≤ 63 }
    requires registers { AreRegisters lg_k values.now }
    ensures map { IfOk result (λ map. IsMapFor lg_k (unboxed map)) }
    ensures exceptions { IfOk result (λ map. (s : ℕ) → s < 2 ^ lg_k → exception_in (unboxed map) s ≡ exception_of minimum (slice_index values.now s)) }
    ensures err { IfErr result (λ e. e ≡ Memory) }
{
    let registers = Above {
        lg_k,
        minimum,
        values,
    };
    let mut map = None;
    let (blocks, _) = values.as_chunks::<64>();
    for index in 0..blocks.len() {
        if !are_below(&blocks[index], minimum + MARK) {
            put_exceptions_of(&mut map, alloc, &registers, 64 * index, 64 * index + 64)?;
        }
    }
    put_exceptions_of(&mut map, alloc, &registers, 64 * blocks.len(), values.len())?;
    built(map, alloc)
}

/// Puts the exceptions of the registers with slots from `from` up to `to`, exclusive, into the map, which has none from
/// `from` on.
///
/// Fails with `Memory` if an allocation fails.
fn put_exceptions_of<A: Allocator + Clone>(
    map: &mut ExceptionsBuilder<A>,
    alloc: &A,
    registers: &Above<'_>,
    from: usize,
    to: usize,
) -> Result<(), Error>
    requires low { 4 ≤ registers.now.lg_k }
    requires high { registers.now.lg_k ≤ 21 }
    requires minimum { registers.now.minimum ≤ 63 }
    requires registers { AreRegisters registers.now.lg_k registers.now.values.now }
    requires order { from ≤ to }
    requires to { to ≤ length registers.now.values.now }
    requires map { IsMapFor registers.now.lg_k map.old }
    requires none { (s : ℕ) → from ≤ s → exception_in map.old s ≡ None }
    ensures map { OnOk result (IsMapFor registers.now.lg_k map.new) }
    ensures put { OnOk result ((s : ℕ) → from ≤ s → s < to → exception_in map.new s ≡ exception_of registers.now.minimum (slice_index registers.now.values.now s)) }
    ensures before { OnOk result ((s : ℕ) → s < from → exception_in map.new s ≡ exception_in map.old s) }
    ensures after { OnOk result ((s : ℕ) → to ≤ s → exception_in map.new s ≡ None) }
    ensures err { IfErr result (λ e. e ≡ Memory) }
{
    for slot in from..to {
        let value = registers.values[slot];
        if value >= registers.minimum + MARK {
            add_exception(map, alloc, registers.lg_k, slot as u32, value)?;
        }
    }
    Ok(())
}

// ---- registers of nibbles and exceptions

/// Returns the register of a slot: the minimum plus its nibble, or its exception.
pub(crate) fn register_at<A: Allocator>(
    nibbles: &[u8],
    map: &Exceptions<A>,
    minimum: u8,
    slot: u32,
) -> u8
    requires within { slot < 2 * length nibbles.now }
    requires slot { IsSlotOf (unboxed map.now) slot }
    requires agree { Agrees minimum (nibble_at nibbles.now slot) (exception_in (unboxed map.now) slot) }
    ensures { result ≡ register_of minimum (nibble_at nibbles.now slot) (exception_in (unboxed map.now) slot) }
{
    let nibble = nibble_of(nibbles, slot as usize);
    if nibble < MARK {
        return minimum + nibble;
    }
    match exception_at(map, slot) {
        Some(value) => value,
        None => unreachable!(),
    }
}

/// Sets value i to the maximum of itself and register `first + i`. The registers are nibbles above a minimum, and
/// exceptions that agree with them. One pass and a search for each exception, or one pass through the map if a search
/// is long.
pub(crate) fn max_with_registers<A: Allocator>(
    values: &mut [u8],
    first: u32,
    nibbles: &[u8],
    map: &Exceptions<A>,
    lg_k: u8,
    minimum: u8,
)
    requires within { first + length values.old ≤ 2 ^ lg_k }
    requires aligned { first % 4 ≡ 0 }
    requires groups { length values.old % 4 ≡ 0 }
    requires size { 2 * length nibbles.now ≡ 2 ^ lg_k }
    requires map { IsMapFor lg_k (unboxed map.now) }
    requires agree { (s : ℕ) → s < 2 ^ lg_k → Agrees minimum (nibble_at nibbles.now s) (exception_in (unboxed map.now) s) }
    ensures { values.new ≡ join values.old (take (length values.old) (drop first (unpacked lg_k minimum nibbles.now (unboxed map.now)))) }
{
    let start = first as usize / 2;
    let nibbles = &nibbles[start..start + values.len() / 2];
    max_with_nibbles(values, nibbles, minimum);
    if let Some(map) = map {
        max_with_exceptions(values, nibbles, map, first);
    }
}
