// SPDX-License-Identifier: Apache-2.0
//! Registers as nibbles above the least register, with a map of exceptions (docs/MODEL.md, "4-bit registers").
ghost use Rattle.std.specs.Prelude.{◌≡◌, ◌≢◌, ◌+◌, ◌*◌, ◌^◌, ◌<◌, ◌≤◌, ◌==◌, ◌%◌, ◌++◌, ◌⊎◌, ℕ, take, drop, min, length, count_by, nat_eq, slice_index, slice_set, IfOk, IfErr, OnOk, OnErr, Some, None};
ghost use Rattle.std.specs.Cmp.Lexicographic.{pointwise};
ghost use Rattle.std.specs.FinSet.{len};
ghost use Rattle.hll_base.specs.Join.{join};
ghost use Rattle.hll_base.specs.declared.error.Reason.TheVariants.{Memory};
ghost use Rattle.hll_base.specs.declared.hll_type.HllType.TheVariants.{Hll4};
ghost use Rattle.hll_coupons.specs.Coupons.{coupon_bytes, WritesAscending};
ghost use Rattle.hll_coupons.specs.Pair.{set_of};
ghost use Rattle.hll_kernels.specs.Packed.{minimum, count_at_minimum, nibble, nibble_at, nibble_bytes, zero_nibbles, zeros, AreRegisters};
ghost use Rattle.hll_kernels.specs.WeightSums.{AreSumsOf};
ghost use Rattle.hll_registers.specs.Exceptions.{exceptions};
ghost use Rattle.hll_registers.specs.FourBits.{exception_in, exception_of, unboxed, unpacked, ExceptionsMove, IsMapFor, IsSlotOf};
ghost use Rattle.hll_registers.specs.Payload.{Agrees};
ghost use Rattle.hll_registers.specs.Store.{size_in_registers, zero_registers};

use crate::exception_map::{
    Exceptions, Rise, bytes_of_buckets, copied, count_exceptions, exception_at, exceptions_after,
    exceptions_of, has_many_buckets, have_same_exceptions, max_with_registers, put_exception,
    register_at, repack, replace_by, with_exceptions,
};
use crate::nibble_sums::sums_of_few;
use crate::registers::two_to;
use hll_base::codec::SketchBytes;
use hll_base::error::Error;
use hll_kernels::kernels::{WeightSums, least_of};
use hll_kernels::nibbles::{MARK, count_zero_nibbles, nibble_of, packed_nibbles, put_nibble};
use std::alloc::Allocator;
use std::marker::Model;

/// 2^`lg_k` registers of 0 to 63, two in a byte. A nibble is the height of the register above the least register.
/// Registers 15 or more above it are in a map. Contracts see the `lg_k`, the list of registers, and the buckets of the
/// map.
///
/// Reading allocates nothing.
#[derive_where(Debug)]
pub struct NibbleRegisters<A: Allocator> {
    lg_k: u8,
    /// The least register.
    minimum: u8,
    /// The number of registers at the minimum.
    count_at_minimum: u32,
    nibbles: Vec<u8, A>,
    exceptions: Exceptions<A>,
}

/// Written out instead of derived. The proof of code that drops registers then uses this contract instead of
/// considering their parts.
impl<A: Allocator> Drop for NibbleRegisters<A> {
    fn drop(self) {
        let NibbleRegisters {
            lg_k: _,
            minimum: _,
            count_at_minimum: _,
            nibbles,
            exceptions,
        } = self;
        drop(nibbles);
        drop(exceptions);
    }
}

impl<A: Allocator> Model for NibbleRegisters<A> {
    ghost use Rattle.std.specs.Prelude.{◌≤◌};
    ghost use Rattle.hll_registers.specs.FourBits.{NibbleRegisters, IsPacked, unboxed, unpacked};

    ghost Value = { NibbleRegisters };

    ghost view = { λ a. record { lg_k = a.lg_k; registers = unpacked a.lg_k a.minimum a.nibbles.items (unboxed a.exceptions); exceptions = unboxed a.exceptions } };

    ghost invariant = { λ a. (4 ≤ a.lg_k) × (a.lg_k ≤ 21) × IsPacked a.lg_k a.minimum a.count_at_minimum a.nibbles.items (unboxed a.exceptions) (unpacked a.lg_k a.minimum a.nibbles.items (unboxed a.exceptions)) };
}

// ---- reading

impl<A: Allocator> NibbleRegisters<A> {
    /// Returns 2^`lg_k` registers of 0. Fails with `Memory` if the allocation fails.
    pub fn new(alloc: A, lg_k: u8) -> Result<NibbleRegisters<A>, Error>
        requires least { 4 ≤ lg_k }
        requires most { lg_k ≤ 21 }
        ensures ok { IfOk result (λ r. r ≡ record { lg_k = lg_k; registers = (zero_registers lg_k).registers; exceptions = None }) }
        ensures err { IfErr result (λ e. e ≡ Memory) }
    {
        Ok(NibbleRegisters {
            lg_k,
            minimum: 0,
            count_at_minimum: two_to(lg_k) as u32,
            nibbles: vec![in alloc; 0; two_to(lg_k - 1)]?,
            exceptions: None,
        })
    }

    /// Returns the `lg_k`, 4 to 21.
    pub fn lg_k(&self) -> u8
        ensures lg_k { result ≡ self.now.lg_k }
        ensures least { 4 ≤ self.now.lg_k }
        ensures most { self.now.lg_k ≤ 21 }
        ensures registers { AreRegisters self.now.lg_k self.now.registers }
    {
        self.lg_k
    }

    /// Returns the least register.
    pub fn minimum(&self) -> u8
        ensures { result ≡ minimum self.now.registers }
    {
        self.minimum
    }

    /// Returns the number of registers at the minimum.
    pub fn count_at_minimum(&self) -> u32
        ensures { result ≡ count_at_minimum self.now.registers }
    {
        self.count_at_minimum
    }

    /// Returns the nibble of a slot.
    pub fn nibble(&self, slot: u32) -> u8
        requires { slot < 2 ^ self.now.lg_k }
        ensures { result ≡ nibble (minimum self.now.registers) (slice_index self.now.registers slot) }
    {
        nibble_of(&self.nibbles, slot as usize)
    }

    /// Returns the exception of a slot, or `None` if it has none.
    pub fn exception(&self, slot: u32) -> Option<u8>
        requires { slot < 2 ^ self.now.lg_k }
        ensures { result ≡ exception_of (minimum self.now.registers) (slice_index self.now.registers slot) }
    {
        exception_at(&self.exceptions, slot)
    }

    /// Returns the register of a slot.
    pub fn get(&self, slot: u32) -> u8
        requires { slot < 2 ^ self.now.lg_k }
        ensures register { result ≡ slice_index self.now.registers slot }
        ensures small { result ≤ 63 }
    {
        register_at(&self.nibbles, &self.exceptions, self.minimum, slot)
    }

    /// Returns the number of registers that are 0.
    pub fn num_zeros(&self) -> u32
        ensures { result ≡ zeros self.now.registers }
    {
        if self.minimum == 0 {
            self.count_at_minimum
        } else {
            0
        }
    }

    /// Returns the number of exceptions.
    pub fn exception_count(&self) -> usize
        ensures count { result ≡ len (set_of (exceptions self.now.registers)) }
        ensures bound { result ≤ 2 ^ 21 }
    {
        count_exceptions(&self.exceptions)
    }

    /// Returns the size of the nibbles and of the map's buckets in bytes.
    pub fn estimated_size(&self) -> usize
        ensures { result ≡ size_in_registers self.now.lg_k Hll4 self.now.registers }
    {
        self.nibbles.len() + bytes_of_buckets(&self.exceptions)
    }

    /// Returns whether the registers are the same as those of `other`, which has the same `lg_k`.
    pub fn is_same(&self, other: &NibbleRegisters<A>) -> bool
        requires { self.now.lg_k ≡ other.now.lg_k }
        ensures { result ≡ pointwise nat_eq self.now.registers other.now.registers }
    {
        self.minimum == other.minimum
            && self.nibbles.as_slice() == other.nibbles.as_slice()
            && have_same_exceptions(&self.exceptions, &other.exceptions)
    }

    /// Returns whether `max_into` is expensive for few values.
    pub fn is_slow_in_small_blocks(&self) -> bool {
        has_many_buckets(&self.exceptions)
    }

    /// Returns the sums of 2^-v over at most 128 registers v from `first` on.
    ///
    /// These registers exist, and `first` and their number are multiples of four.
    pub fn weight_sums_of_few(&self, first: usize, size: usize) -> WeightSums
        requires within { first + size ≤ 2 ^ self.now.lg_k }
        requires aligned { first % 4 ≡ 0 }
        requires groups { size % 4 ≡ 0 }
        requires few { size ≤ 128 }
        ensures { AreSumsOf result (take size (drop first self.now.registers)) }
    {
        sums_of_few(
            first,
            size,
            &self.nibbles,
            &self.exceptions,
            self.lg_k,
            self.minimum,
        )
    }

    /// Sets value i to the maximum of itself and register `first + i`. One pass and a search for each exception, or one
    /// pass through the map if a search is long.
    pub fn max_into(&self, first: u32, values: &mut [u8])
        requires within { first + length values.old ≤ 2 ^ self.now.lg_k }
        requires aligned { first % 4 ≡ 0 }
        requires groups { length values.old % 4 ≡ 0 }
        ensures { values.new ≡ join values.old (take (length values.old) (drop first self.now.registers)) }
    {
        max_with_registers(
            values,
            first,
            &self.nibbles,
            &self.exceptions,
            self.lg_k,
            self.minimum,
        );
    }

    /// Returns the allocator of the registers.
    pub fn allocator(&self) -> &A {
        self.nibbles.allocator()
    }
}

// ---- making and writing

impl<A: Allocator + Clone> NibbleRegisters<A> {
    /// Returns the registers with these values. Two passes over the values, two over their nibbles, and an insertion
    /// for each exception. Fails with `Memory` if an allocation fails.
    pub fn from_values(alloc: A, lg_k: u8, values: &[u8]) -> Result<NibbleRegisters<A>, Error>
        requires least { 4 ≤ lg_k }
        requires most { lg_k ≤ 21 }
        requires registers { AreRegisters lg_k values.now }
        ensures ok { IfOk result (λ r. (r.lg_k ≡ lg_k) × (r.registers ≡ values.now)) }
        ensures err { IfErr result (λ e. e ≡ Memory) }
    {
        let minimum = least_of(values);
        let nibbles = packed_nibbles(alloc, values, minimum)?;
        let exceptions = exceptions_of(nibbles.allocator(), lg_k, values, minimum)?;
        Ok(NibbleRegisters {
            lg_k,
            minimum,
            count_at_minimum: count_zero_nibbles(&nibbles),
            nibbles,
            exceptions,
        })
    }

    /// Returns the registers of these nibbles above a minimum and these exceptions, which agree. `zeros` is the number
    /// of nibbles that are 0, and the exceptions have the same allocator. Copies the nibbles; if the minimum is below
    /// the least register, packs the registers again. Fails with `Memory` if an allocation fails.
    pub(crate) fn from_parts(
        alloc: A,
        lg_k: u8,
        minimum: u8,
        nibbles: &[u8],
        zeros: u32,
        exceptions: Exceptions<A>,
    ) -> Result<NibbleRegisters<A>, Error>
        requires least { 4 ≤ lg_k }
        requires most { lg_k ≤ 21 }
        requires size { 2 * length nibbles.now ≡ 2 ^ lg_k }
        requires zeros { zeros ≡ zero_nibbles nibbles.now }
        requires map { IsMapFor lg_k (unboxed exceptions) }
        requires agree { (s : ℕ) → s < 2 ^ lg_k → Agrees minimum (nibble_at nibbles.now s) (exception_in (unboxed exceptions) s) }
        ensures ok { IfOk result (λ r. (r.lg_k ≡ lg_k) × (r.registers ≡ unpacked lg_k minimum nibbles.now (unboxed exceptions))) }
        ensures err { IfErr result (λ e. e ≡ Memory) }
    {
        if zeros == 0 {
            let values = values_of(&alloc, nibbles, &exceptions, lg_k, minimum)?;
            return NibbleRegisters::from_values(alloc, lg_k, &values);
        }
        Ok(NibbleRegisters {
            lg_k,
            minimum,
            count_at_minimum: zeros,
            nibbles: Vec::from_slice(alloc, nibbles)?,
            exceptions,
        })
    }

    /// Returns a copy with the same buckets of the map. Fails with `Memory` if an allocation fails.
    pub fn clone(&self) -> Result<NibbleRegisters<A>, Error>
        ensures ok { IfOk result (λ r. r ≡ self.now) }
        ensures err { IfErr result (λ e. e ≡ Memory) }
    {
        Ok(NibbleRegisters {
            lg_k: self.lg_k,
            minimum: self.minimum,
            count_at_minimum: self.count_at_minimum,
            nibbles: Vec::from_slice(self.nibbles.allocator().clone()?, &self.nibbles)?,
            exceptions: copied(&self.exceptions, self.nibbles.allocator())?,
        })
    }

    /// Returns `bytes` with the nibbles appended, and then the exceptions as coupons in ascending order. Allocates a
    /// sorted copy of the exceptions, if there are any. Fails with `Memory` if an allocation fails.
    pub fn with_written(&self, mut bytes: SketchBytes<A>) -> Result<SketchBytes<A>, Error>
        ensures ok { IfOk result (WritesAscending (λ order. (bytes ++ nibble_bytes self.now.registers) ++ coupon_bytes order) (set_of (exceptions self.now.registers))) }
        ensures err { IfErr result (λ e. e ≡ Memory) }
    {
        bytes.write(&self.nibbles)?;
        with_exceptions(bytes, &self.exceptions, self.nibbles.allocator())
    }
}

// ---- changing

impl<A: Allocator + Clone> NibbleRegisters<A> {
    /// Sets the register of a slot to a greater value.
    ///
    /// Fails with `Memory` if an allocation fails; then the registers are unchanged. That can happen only if the set of
    /// slots with an exception changes and isn't empty afterwards.
    pub fn max_slot(&mut self, slot: u32, value: u8) -> Result<(), Error>
        requires within { slot < 2 ^ self.old.lg_k }
        requires more { slice_index self.old.registers slot < value }
        requires most { value ≤ 63 }
        ensures lg_k { OnOk result (self.new.lg_k ≡ self.old.lg_k) }
        ensures ok { OnOk result (self.new.registers ≡ slice_set self.old.registers slot value) }
        ensures unchanged { OnErr result (self.new ≡ self.old) }
        ensures err { IfErr result (λ e. e ≡ Memory) }
        ensures needed { OnErr result (ExceptionsMove self.old.lg_k self.old.registers (slice_set self.old.registers slot value)) }
    {
        let at_minimum = self.get(slot) == self.minimum;
        if self.count_at_minimum == 1 && at_minimum {
            return self.rise(slot, value);
        }
        let left = self.count_at_minimum - u32::from(at_minimum);
        if value >= self.minimum + MARK {
            return self.put_high(slot, value, left);
        }
        self.put_low(slot, value, left);
        Ok(())
    }

    /// Sets the register of a slot to a greater value that is no exception. The minimum stays, with `left` registers at
    /// it.
    fn put_low(&mut self, slot: u32, value: u8, left: u32)
        requires within { slot < 2 ^ self.old.lg_k }
        requires more { slice_index self.old.registers slot < value }
        requires most { value ≤ 63 }
        requires low { value < minimum self.old.registers + 15 }
        requires left { left ≡ count_by (λ r. r == minimum self.old.registers) (slice_set self.old.registers slot value) }
        requires some { 0 < left }
        ensures lg_k { self.new.lg_k ≡ self.old.lg_k }
        ensures registers { self.new.registers ≡ slice_set self.old.registers slot value }
    {
        put_nibble(&mut self.nibbles, slot as usize, value - self.minimum);
        self.count_at_minimum = left;
    }

    /// Sets the register of a slot to a greater value that is an exception. The minimum stays, with `left` registers at
    /// it.
    #[inline(never)]
    fn put_high(&mut self, slot: u32, value: u8, left: u32) -> Result<(), Error>
        requires within { slot < 2 ^ self.old.lg_k }
        requires more { slice_index self.old.registers slot < value }
        requires most { value ≤ 63 }
        requires high { minimum self.old.registers + 15 ≤ value }
        requires left { left ≡ count_by (λ r. r == minimum self.old.registers) (slice_set self.old.registers slot value) }
        requires some { 0 < left }
        ensures lg_k { OnOk result (self.new.lg_k ≡ self.old.lg_k) }
        ensures ok { OnOk result (self.new.registers ≡ slice_set self.old.registers slot value) }
        ensures unchanged { OnErr result (self.new ≡ self.old) }
        ensures err { IfErr result (λ e. e ≡ Memory) }
        ensures needed { OnErr result (ExceptionsMove self.old.lg_k self.old.registers (slice_set self.old.registers slot value)) }
    {
        put_exception(
            &mut self.exceptions,
            self.nibbles.allocator(),
            self.lg_k,
            slot,
            value,
        )?;
        put_nibble(&mut self.nibbles, slot as usize, MARK);
        self.count_at_minimum = left;
        Ok(())
    }

    /// Sets the register of the only slot at the minimum to a greater value, so the minimum rises. The exceptions above
    /// the new minimum are made before the first nibble is written, because an allocation may fail.
    #[inline(never)]
    fn rise(&mut self, slot: u32, value: u8) -> Result<(), Error>
        requires within { slot < 2 ^ self.old.lg_k }
        requires more { slice_index self.old.registers slot < value }
        requires most { value ≤ 63 }
        requires at { slice_index self.old.registers slot ≡ minimum self.old.registers }
        requires only { count_at_minimum self.old.registers ≡ 1 }
        ensures lg_k { OnOk result (self.new.lg_k ≡ self.old.lg_k) }
        ensures ok { OnOk result (self.new.registers ≡ slice_set self.old.registers slot value) }
        ensures unchanged { OnErr result (self.new ≡ self.old) }
        ensures err { IfErr result (λ e. e ≡ Memory) }
        ensures needed { OnErr result (ExceptionsMove self.old.lg_k self.old.registers (slice_set self.old.registers slot value)) }
    {
        let rise = Rise {
            from: self.minimum,
            to: self.minimum_with(slot, value),
            slot,
            value,
        };
        let above = exceptions_after(&self.exceptions, self.nibbles.allocator(), self.lg_k, rise)?;
        repack(&mut self.nibbles, &self.exceptions, self.lg_k, rise);
        replace_by(&mut self.exceptions, above);
        self.minimum = rise.to;
        self.count_at_minimum = count_zero_nibbles(&self.nibbles);
        Ok(())
    }

    /// Returns the least register after one slot gets a greater value, if no register is left at the minimum.
    fn minimum_with(&self, slot: u32, value: u8) -> u8
        requires within { slot < 2 ^ self.now.lg_k }
        requires more { slice_index self.now.registers slot < value }
        requires most { value ≤ 63 }
        requires none { count_by (λ r. r == minimum self.now.registers) (slice_set self.now.registers slot value) ≡ 0 }
        ensures { result ≡ minimum (slice_set self.now.registers slot value) }
    {
        let least = self.minimum_of_nibbles_with(slot, value);
        if least < self.minimum + MARK {
            return least;
        }
        self.minimum_of_exceptions_with(slot, value)
    }

    /// Returns the least register after one slot gets a greater value, if no register is left at the minimum, but at
    /// most 15 more than the minimum. Stops at the first register that is one above the minimum.
    fn minimum_of_nibbles_with(&self, slot: u32, value: u8) -> u8
        requires within { slot < 2 ^ self.now.lg_k }
        requires more { slice_index self.now.registers slot < value }
        requires most { value ≤ 63 }
        requires none { count_by (λ r. r == minimum self.now.registers) (slice_set self.now.registers slot value) ≡ 0 }
        ensures { result ≡ min (minimum (slice_set self.now.registers slot value)) (minimum self.now.registers + 15) }
    {
        let mut least = 63u8.min(self.minimum + MARK);
        for other in 0..two_to(self.lg_k) as u32 {
            let register = if other == slot {
                value
            } else {
                self.minimum + self.nibble(other)
            };
            least = least.min(register);
            if least == self.minimum + 1 {
                return least;
            }
        }
        least
    }

    /// Returns the least register after one slot gets another value, if all other registers are exceptions. Their table
    /// then has more buckets than there are slots, so each search ends where it starts.
    fn minimum_of_exceptions_with(&self, slot: u32, value: u8) -> u8
        requires within { slot < 2 ^ self.now.lg_k }
        ensures { result ≡ minimum (slice_set self.now.registers slot value) }
    {
        let mut least = 63u8;
        for other in 0..two_to(self.lg_k) as u32 {
            let register = if other == slot {
                value
            } else {
                self.get(other)
            };
            least = least.min(register);
        }
        least
    }
}

/// Returns the registers of these nibbles above a minimum and these exceptions, one byte each. Fails with `Memory` if
/// the allocation fails.
fn values_of<A: Allocator + Clone>(
    alloc: &A,
    nibbles: &[u8],
    map: &Exceptions<A>,
    lg_k: u8,
    minimum: u8,
) -> Result<Vec<u8, A>, Error>
    requires least { 4 ≤ lg_k }
    requires most { lg_k ≤ 21 }
    requires size { 2 * length nibbles.now ≡ 2 ^ lg_k }
    requires map { IsMapFor lg_k (unboxed map.now) }
    requires agree { (s : ℕ) → s < 2 ^ lg_k → Agrees minimum (nibble_at nibbles.now s) (exception_in (unboxed map.now) s) }
    ensures ok { IfOk result (λ values. values.items ≡ unpacked lg_k minimum nibbles.now (unboxed map.now)) }
    ensures err { IfErr result (λ e. e ≡ Memory) }
{
    let mut values = vec![in alloc.clone()?; 0; two_to(lg_k)]?;
    max_with_registers(&mut values, 0, nibbles, map, lg_k, minimum);
    Ok(values)
}
