// SPDX-License-Identifier: Apache-2.0
//! The coupons of a compact image, borrowed from its bytes: coupons that ascend, as this library writes them, or few coupons in
//! any order. One pass over them shows that they are distinct, without a table or a copy.
ghost use Rattle.std.specs.Prelude.{◌≡◌, ◌*◌, ◌^◌, ◌-◌, ◌<◌, ◌≤◌, ◌↔◌, [], ◌∷◌, true, false, None, Some, nat_eq, IsTrue, IfSome, IfNone, OnSome, length, map};
ghost use Rattle.std.specs.FinSet.{contains};
ghost use Rattle.std.specs.Int.{w32, from_le_bytes};
ghost use Rattle.std.specs.List.{list_any};
ghost use Rattle.std.specs.List.Sorted.{IsStrictlyIncreasing};
ghost use Rattle.hll_base.specs.Join.{join};
ghost use Rattle.hll_coupons.specs.Coupons.{coupon_bytes, raw_coupons, AreCoupons};
ghost use Rattle.hll_coupons.specs.Fold.{fold_to};
ghost use Rattle.hll_coupons.specs.Pair.{set_of};
ghost use Rattle.hll_sketch.specs.Borrowed.{AreMarked, AreEvidentlyCoupons};
ghost use Rattle.hll_sketch.specs.MergedIn.{IsOfCoupons, raw_coupons_in, HasCompactCoupons};
ghost use Rattle.hll_base.specs.declared.error.Reason.TheVariants as reasons;
ghost use Rattle.hll_sketch.specs.Checks.{first_fault, size_fault};
ghost use Rattle.hll_sketch.specs.Header.{header_of};
ghost use Rattle.hll_sketch.specs.Image.{HasHeader, stage_bits, is_flagged};

use crate::header::{HEADER_SIZE, Header, Stage, is_set_table};
use hll_arrays::array8::Array8;
use hll_arrays::registers::two_to;
use hll_base::bounds::SLOT_BITS;
use hll_base::cursor::SketchSlice;
use hll_coupons::coupon::Coupon;
use hll_coupons::raw_coupons::{
    RawCouponIter, ascends, bytes_of_raw_coupons, elements_of_raw_coupons, raw_coupon_at,
};
use hll_coupons::serialization::{COUPON_SIZE_BYTES, LG_LIST_BUCKETS};
use std::alloc::Allocator;

/// The greatest raw coupon with the value 0.
const LAST_WITHOUT_VALUE: u32 = (1 << SLOT_BITS) - 1;

/// Up to this number, coupons are checked with marks to be distinct.
pub const FEW: usize = 128;

/// A table of at most 2 to the power of this number of buckets takes no longer to make than marks do.
const LG_SMALL_TABLE: u8 = 8;

/// The number of marks, so large that few of `FEW` coupons share one.
const MARKS: usize = 1024;

/// The first raw coupons of some bytes.
#[derive(Clone, Copy)]
pub struct RawCoupons<'a> {
    pub bytes: &'a [u8],
    pub count: usize,
    ghost there: { 4 * count ≤ length bytes.now },
}

impl<'a> RawCoupons<'a> {
    /// Returns the first `count` raw coupons, or `None` if the bytes are too few.
    pub(crate) fn front(bytes: &'a [u8], count: usize) -> Option<RawCoupons<'a>>
        ensures some { IfSome result (λ w. (w.bytes.now ≡ bytes.now) × (w.count ≡ count) × (4 * count ≤ length bytes.now)) }
        ensures none { IfNone result (length bytes.now < 4 * count) }
    {
        if bytes.len() / COUPON_SIZE_BYTES < count {
            return None;
        }
        Some(RawCoupons { bytes, count })
    }

    /// Returns an iterator over these raw coupons.
    pub fn all(&self) -> RawCouponIter<'a>
        ensures { result ≡ raw_coupons self.now.count self.now.bytes.now }
    {
        RawCouponIter::new(self.bytes, self.count)
    }

    /// Returns their bytes.
    pub fn as_bytes(&self) -> &'a [u8]
        ensures { result.now ≡ coupon_bytes (raw_coupons self.now.count self.now.bytes.now) }
    {
        bytes_of_raw_coupons(self.bytes, self.count)
    }

    /// Returns the raw coupons, as elements of four bytes.
    pub(crate) fn elements(&self) -> &'a [[u8; 4]]
        ensures { map (from_le_bytes w32) result.now ≡ raw_coupons self.now.count self.now.bytes.now }
    {
        elements_of_raw_coupons(self.bytes, self.count)
    }

    /// Returns whether each coupon has a value above 0, and is greater than the one before it.
    pub fn ascend(&self) -> bool
        ensures { IsTrue result ↔ IsStrictlyIncreasing ((2 ^ 26 - 1) ∷ raw_coupons self.now.count self.now.bytes.now) }
    {
        if self.count == 0 {
            return true;
        }
        let elements = self.elements();
        if raw_coupon_at(elements, 0) <= LAST_WITHOUT_VALUE {
            return false;
        }
        ascends(elements)
    }

    /// Returns whether each coupon has a value above 0, and no two are equal. A raw coupon is compared with the ones before it
    /// only if one of these has its mark.
    // (not inlined: a caller would have to clear the marks at each of its own calls)
    #[inline(never)]
    pub(crate) fn differ(&self) -> bool
        ensures { IsTrue result ↔ AreCoupons (raw_coupons self.now.count self.now.bytes.now) }
    {
        let mut marks = [false; MARKS];
        let mut cursor = SketchSlice::new(self.bytes);
        for index in 0..self.count {
            let Ok(raw_coupon) = cursor.read_u32_le() else {
                return false;
            };
            if raw_coupon <= LAST_WITHOUT_VALUE || !self.is_new(&marks, index, raw_coupon) {
                return false;
            }
            marks[raw_coupon as usize % MARKS] = true;
        }
        true
    }

    /// Returns whether none of the first raw coupons equals this one. Each of them has its mark.
    fn is_new(&self, marks: &[bool; MARKS], index: usize, raw_coupon: u32) -> bool
        requires within { index ≤ self.now.count }
        requires marked { AreMarked 1024 (raw_coupons index self.now.bytes.now) marks.now }
        ensures { IsTrue result ↔ (contains (set_of (raw_coupons index self.now.bytes.now)) raw_coupon ≡ false) }
    {
        !marks[raw_coupon as usize % MARKS] || !self.stands_before(index, raw_coupon)
    }

    /// Returns whether one of the first raw coupons equals this one.
    fn stands_before(&self, index: usize, raw_coupon: u32) -> bool
        requires { index ≤ self.now.count }
        ensures { result ≡ list_any (λ w. nat_eq w raw_coupon) (raw_coupons index self.now.bytes.now) }
    {
        let before = RawCoupons {
            bytes: self.bytes,
            count: index,
        };
        // (without an exit from the loop, so that the compiler compares several at once)
        let mut found = false;
        for element in before.elements() {
            found |= u32::from_le_bytes(*element) == raw_coupon;
        }
        found
    }

    /// Returns true if these are coupons that ascend or are few. Returns false for others, even if they are coupons.
    fn are_evidently_coupons(&self) -> bool
        ensures { IsTrue result ↔ AreEvidentlyCoupons (raw_coupons self.now.count self.now.bytes.now) }
    {
        if self.ascend() {
            return true;
        }
        if FEW < self.count {
            return false;
        }
        self.differ()
    }

    /// Adds these coupons in turn to 2^`lg_k` registers of one byte each.
    pub fn max_into(&self, registers: &mut [u8], lg_k: u8)
        requires most { lg_k ≤ 21 }
        requires size { length registers.old ≡ 2 ^ lg_k }
        ensures { registers.new ≡ join registers.old (fold_to (set_of (raw_coupons self.now.count self.now.bytes.now)) lg_k) }
    {
        let mut cursor = SketchSlice::new(self.bytes);
        for _ in 0..self.count {
            if let Ok(raw_coupon) = cursor.read_u32_le() {
                max_coupon(
                    registers,
                    lg_k,
                    Coupon::pack(raw_coupon, (raw_coupon >> SLOT_BITS) as u8),
                );
            }
        }
    }
}

/// Raises the register of the coupon's slot modulo 2^`lg_k` to the coupon's value, if that is greater.
pub fn max_coupon(registers: &mut [u8], lg_k: u8, coupon: Coupon)
    requires most { lg_k ≤ 21 }
    requires size { length registers.old ≡ 2 ^ lg_k }
    ensures { registers.new ≡ join registers.old (fold_to (set_of (coupon ∷ [])) lg_k) }
{
    let slot = coupon.slot() as usize % two_to(lg_k);
    let register = registers[slot];
    if register < coupon.value() {
        registers[slot] = coupon.value();
    }
}

/// Returns the coupons after the header of a list or a set, if the image is compact, and they ascend or are few. There may be
/// none.
// (inlined, so that its result isn't written to memory)
#[inline(always)]
pub fn compact_coupons(bytes: &[u8], header: Header) -> Option<RawCoupons<'_>>
    requires has { HasHeader bytes.now (stage_bits bytes.now) }
    requires stage { stage_bits bytes.now < 3 }
    requires header { header ≡ header_of bytes.now }
    ensures some { IfSome result (λ w. IsOfCoupons bytes.now (raw_coupons w.count w.bytes.now)) }
    ensures are { IfSome result (λ w. AreCoupons (raw_coupons w.count w.bytes.now)) }
    ensures evident { IfSome result (λ w. AreEvidentlyCoupons (raw_coupons w.count w.bytes.now)) }
    ensures none { IfNone result (HasCompactCoupons bytes.now → ⊥) }
{
    let coupons = counted_coupons(bytes, header)?;
    if coupons.are_evidently_coupons() {
        Some(coupons)
    } else {
        None
    }
}

/// Returns the raw coupons of a compact list or set, in the number that the image says, which may be 0, or none of an empty list.
/// Returns `None` if a check other than that of coupons fails.
// (inlined, as `compact_coupons` is)
#[inline(always)]
pub fn counted_coupons(bytes: &[u8], header: Header) -> Option<RawCoupons<'_>>
    requires has { HasHeader bytes.now (stage_bits bytes.now) }
    requires stage { stage_bits bytes.now < 3 }
    requires header { header ≡ header_of bytes.now }
    ensures raw_coupons { IfSome result (λ w. raw_coupons w.count w.bytes.now ≡ raw_coupons_in bytes.now) }
    ensures coupons { IfSome result (λ w. AreCoupons (raw_coupons w.count w.bytes.now) → IsOfCoupons bytes.now (raw_coupons w.count w.bytes.now)) }
    ensures compact { IfSome result (λ w. 1 ≤ w.count → is_flagged 8 bytes.now ≡ true) }
    ensures none { IfNone result (HasCompactCoupons bytes.now → ⊥) }
{
    match header.stage {
        Stage::List => list_coupons(bytes, header),
        Stage::Set => set_coupons(bytes, header),
        Stage::Hll => None,
    }
}

/// Returns the raw coupons after the header of a compact list, in the number that it says, or none of an empty list, which may
/// lack the compact flag. Returns `None` if a check other than that of coupons fails.
fn list_coupons(bytes: &[u8], header: Header) -> Option<RawCoupons<'_>>
    requires has { HasHeader bytes.now 0 }
    requires header { header ≡ header_of bytes.now }
    ensures raw_coupons { IfSome result (λ w. raw_coupons w.count w.bytes.now ≡ raw_coupons_in bytes.now) }
    ensures coupons { IfSome result (λ w. AreCoupons (raw_coupons w.count w.bytes.now) → IsOfCoupons bytes.now (raw_coupons w.count w.bytes.now)) }
    ensures compact { IfSome result (λ w. 1 ≤ w.count → is_flagged 8 bytes.now ≡ true) }
    ensures none { IfNone result (HasCompactCoupons bytes.now → ⊥) }
{
    if header.lg_arr != LG_LIST_BUCKETS {
        return None;
    }
    let count = usize::from(header.state_byte);
    if !(header.compact | (count == 0)) {
        return None;
    }
    if header.empty != (count == 0) || two_to(LG_LIST_BUCKETS) < count {
        return None;
    }
    RawCoupons::front(&bytes[HEADER_SIZE..], count)
}

/// Returns true if an image of a compact set says that it has few coupons in a large table, and one of them has the value 0 or
/// two are equal. Then no table is made to find that out.
pub(crate) fn few_are_faulty(bytes: &[u8], header: Header) -> bool
    requires has { HasHeader bytes.now 1 }
    requires header { header ≡ header_of bytes.now }
    ensures { result ≡ true → first_fault bytes.now ≡ Some reasons.Coupon }
{
    if header.lg_arr <= LG_SMALL_TABLE {
        return false;
    }
    match set_coupons(bytes, header) {
        Some(coupons) => coupons.count <= FEW && !coupons.differ(),
        None => false,
    }
}

/// Returns the raw coupons after the count of a compact set, in that number. Returns `None` if a check other than that of
/// coupons fails.
fn set_coupons(bytes: &[u8], header: Header) -> Option<RawCoupons<'_>>
    requires has { HasHeader bytes.now 1 }
    requires header { header ≡ header_of bytes.now }
    ensures raw_coupons { IfSome result (λ w. raw_coupons w.count w.bytes.now ≡ raw_coupons_in bytes.now) }
    ensures coupons { IfSome result (λ w. AreCoupons (raw_coupons w.count w.bytes.now) → IsOfCoupons bytes.now (raw_coupons w.count w.bytes.now)) }
    ensures compact { OnSome result (is_flagged 8 bytes.now ≡ true) }
    ensures sized { OnSome result (size_fault bytes.now ≡ None) }
    ensures none { IfNone result (HasCompactCoupons bytes.now → ⊥) }
{
    if !header.compact || !is_set_table(header) {
        return None;
    }
    let mut cursor = SketchSlice::new(&bytes[HEADER_SIZE..]);
    let Ok(count) = cursor.read_u32_le() else {
        return None;
    };
    let count = count as usize;
    if two_to(header.lg_arr) <= count {
        return None;
    }
    RawCoupons::front(cursor.remaining(), count)
}
