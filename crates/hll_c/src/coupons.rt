// SPDX-License-Identifier: Apache-2.0
//! Coupons that are passed to one call: as raw coupons, or as byte strings that they are of.
ghost use Rattle.std.specs.Prelude.{◌≡◌, ◌↔◌, ◌+◌, ◌^◌, ◌<◌, ◌≤◌, ℕ, List, length, take, drop, map, get_or, IsTrue};
ghost use Rattle.hll_coupons.specs.Hashed.{coupon_of_bytes};
ghost use Rattle.hll_c.specs.ByteRegisters.{HaveValues};
ghost use Rattle.hll_c.specs.Calls.{PutsCoupons};

use crate::answer::{BUFFER, OK};
use crate::strings::Strings;
use hll_base::bounds::SLOT_BITS;
use hll_base::error::Reason;
use hll_coupons::coupon::Coupon;

/// Coupons that are numbered from 0 on.
pub(crate) trait Coupons {
    /// What contracts see: the raw coupons.
    ghost raw_coupons: { Self → List ℕ };

    /// Whether each coupon can be asked for and has a value above 0.
    ghost are: { Self → Type 0 };

    /// Returns whether each coupon can be asked for and has a value above 0.
    fn are_valid(&self) -> bool
        ensures { IsTrue result ↔ are self.now };

    /// Returns the number of coupons.
    fn count(&self) -> usize
        requires { are self.now }
        ensures { result ≡ length (raw_coupons self.now) };

    /// Returns the coupon with this number.
    fn coupon(&self, number: usize) -> Coupon
        requires are { are self.now }
        requires within { number < length (raw_coupons self.now) }
        ensures { result ≡ get_or (raw_coupons self.now) number 0 };
}

/// The coupons of byte strings.
#[derive(Drop)]
pub(crate) struct CouponsOf<'a, S: Strings> {
    /// The strings.
    pub strings: &'a S,
}

impl<'a, S: Strings> Coupons for CouponsOf<'a, S> {
    ghost raw_coupons = { λ c. map coupon_of_bytes (S.Strings.strings c.strings.now) };

    ghost are = { λ c. S.Strings.are c.strings.now };

    fn are_valid(&self) -> bool {
        self.strings.are_delimited()
    }

    fn count(&self) -> usize {
        self.strings.count()
    }

    #[inline(always)]
    fn coupon(&self, number: usize) -> Coupon {
        Coupon::from_bytes(self.strings.string(number))
    }
}

/// Raw coupons.
#[derive(Clone, Copy)]
pub(crate) struct CouponSlice<'a> {
    /// The raw coupons.
    pub raw_coupons: &'a [u32],
}

impl<'a> Coupons for CouponSlice<'a> {
    ghost raw_coupons = { λ c. c.raw_coupons.now };

    ghost are = { λ c. HaveValues c.raw_coupons.now };

    fn are_valid(&self) -> bool {
        have_values(self.raw_coupons)
    }

    fn count(&self) -> usize {
        self.raw_coupons.len()
    }

    #[inline(always)]
    fn coupon(&self, number: usize) -> Coupon {
        let raw = self.raw_coupons[number];
        Coupon::pack(raw, (raw >> SLOT_BITS) as u8)
    }
}

/// Returns whether no coupon has the value 0.
fn have_values(raw_coupons: &[u32]) -> bool
    ensures { IsTrue result ↔ HaveValues raw_coupons.now }
{
    for raw in raw_coupons {
        if *raw < 1 << SLOT_BITS {
            return false;
        }
    }
    true
}

/// Writes coupons into the first elements of a buffer.
pub(crate) fn put_coupons<C: Coupons>(coupons: &C, out: &mut [u32]) -> u8
    ensures { PutsCoupons (C.Coupons.are coupons.now) (C.Coupons.raw_coupons coupons.now) out.old out.new result }
{
    if !coupons.are_valid() {
        return Reason::Argument.number();
    }
    let count = coupons.count();
    if count > out.len() {
        return BUFFER;
    }
    put_each(coupons, 0, &mut out[..count]);
    OK
}

/// Fills `out` with the coupons from number `first` on.
// (inlined: a caller knows what the batch is made of, and keeps its slices in processor registers)
#[inline(always)]
pub(crate) fn put_each<C: Coupons>(coupons: &C, first: usize, out: &mut [u32])
    requires are { C.Coupons.are coupons.now }
    requires within { first + length out.old ≤ length (C.Coupons.raw_coupons coupons.now) }
    requires small { first + length out.old < 2 ^ 64 }
    ensures { out.new ≡ take (length out.old) (drop first (C.Coupons.raw_coupons coupons.now)) }
{
    for number in 0..out.len() {
        out[number] = coupons.coupon(first + number).raw();
    }
}
