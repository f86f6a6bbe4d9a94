// SPDX-License-Identifier: Apache-2.0
//! Coupons (docs/MODEL.md, "Pairs").
ghost use Rattle.std.specs.Prelude.{◌≡◌, ◌↔◌, ◌≤◌, ◌<◌, ◌^◌, IsTrue};
ghost use Rattle.std.specs.Prelude.{fold};
ghost use Rattle.hll_base.specs.Hash.{hash_of, initial_state, after_piece, default_seed};
ghost use Rattle.hll_coupons.specs.Pair.{slot_of, value_of, pair, IsPair};
ghost use Rattle.hll_coupons.specs.Hashed.{coupon_of_words, coupon_of_halves, coupon_of_bytes};

use hll_base::bounds::{MAX_VALUE, SLOT_BITS};
use hll_base::hash::{DEFAULT_SEED, MurmurHash3X64128, hash_of_bytes, hash_of_eight_bytes};
use std::hash::Hash;
use std::marker::Model;

/// The slot in a raw coupon.
pub(crate) const SLOT_MASK: u32 = 0x03ff_ffff;

/// Further leading zeros in the second half of a hash don't make the value greater.
const MOST_ZEROS: u32 = MAX_VALUE as u32 - 1;

/// A slot below 2^26 and a value up to 63, as one 32-bit code, the raw coupon: `value * 2^26 + slot`. Contracts see the
/// raw coupon.
///
/// A coupon of value 0 is no pair. Raw coupon 0 marks an empty bucket.
#[derive(Clone, Copy, Debug, PartialEq, Eq, PartialOrd, Ord, Hash)]
pub struct Coupon {
    raw: u32,
}

impl Model for Coupon {
    ghost use Rattle.std.specs.Prelude.{ℕ};

    ghost Value = { ℕ };

    ghost view = { λ c. c.raw };

    ghost inverse = { λ n. record { raw = n } };
}

impl Coupon {
    /// The content of an empty bucket.
    pub const EMPTY: Coupon = Coupon { raw: 0 };

    /// Returns the coupon of a value at `slot` modulo 2^26.
    ///
    /// The value is at most 63.
    pub fn pack(slot: u32, value: u8) -> Coupon
        requires { value ≤ 63 }
        ensures { result ≡ pair (slot_of slot) value }
    {
        Coupon {
            raw: u32::from(value) << SLOT_BITS | slot & SLOT_MASK,
        }
    }

    /// Returns the coupon of the two halves of a hash (docs/MODEL.md, "Coupons of values").
    pub fn from_words(lo: u64, hi: u64) -> Coupon
        ensures words { result ≡ coupon_of_words lo hi }
        ensures pair { IsPair result }
    {
        let slot = (lo & u64::from(SLOT_MASK)) as u32;
        let value = hi.leading_zeros().min(MOST_ZEROS) as u8 + 1;
        Coupon::pack(slot, value)
    }

    /// Returns the coupon of bytes: that of their hash with the default seed.
    // (inlined into the loops of callers, for values of eight bytes)
    #[inline(always)]
    pub fn from_bytes(bytes: &[u8]) -> Coupon
        ensures bytes { result ≡ coupon_of_bytes bytes.now }
        ensures pair { IsPair result }
    {
        match bytes.as_array::<8>() {
            Some(eight) => Coupon::from_eight_bytes(eight),
            None => Coupon::from_any_bytes(bytes),
        }
    }

    /// Returns the coupon of eight bytes. Same result as `from_bytes`.
    #[inline(always)]
    fn from_eight_bytes(bytes: &[u8; 8]) -> Coupon
        ensures bytes { result ≡ coupon_of_bytes bytes.now }
        ensures pair { IsPair result }
    {
        let (lo, hi) = hash_of_eight_bytes(DEFAULT_SEED, bytes);
        Coupon::from_words(lo, hi)
    }

    /// Returns the coupon of any number of bytes. Same result as `from_bytes`.
    // (not inlined, because each caller would then contain it)
    #[inline(never)]
    fn from_any_bytes(bytes: &[u8]) -> Coupon
        ensures bytes { result ≡ coupon_of_bytes bytes.now }
        ensures pair { IsPair result }
    {
        let (lo, hi) = hash_of_bytes(DEFAULT_SEED, bytes);
        Coupon::from_words(lo, hi)
    }

    /// Returns the coupon of a value: that of the bytes that the value's `hash` writes.
    ///
    /// If `hash` writes the bytes in one piece, this is the coupon that `from_bytes` returns for them.
    pub fn from_value<T: Hash + Drop>(value: T) -> Coupon
        ensures pieces { result ≡ coupon_of_halves (hash_of (fold after_piece (initial_state default_seed) (T.hash_input value))) }
        ensures pair { IsPair result }
    {
        let mut hash = MurmurHash3X64128::default();
        value.hash(&mut hash);
        Coupon::from_hash(&hash)
    }

    /// Returns the coupon of the bytes that were hashed.
    fn from_hash(hash: &MurmurHash3X64128) -> Coupon
        ensures hash { result ≡ coupon_of_halves (hash_of hash.now) }
        ensures pair { IsPair result }
    {
        let (lo, hi) = hash.finish128();
        Coupon::from_words(lo, hi)
    }

    /// Returns the coupon of a raw coupon.
    pub fn from_raw(raw: u32) -> Coupon
        ensures { result ≡ raw }
    {
        Coupon { raw }
    }

    /// Returns whether the raw coupon is 0.
    pub fn is_empty(self) -> bool
        ensures { IsTrue result ↔ (self ≡ 0) }
    {
        self.raw == 0
    }

    /// Returns the raw coupon: the 32-bit code.
    pub fn raw(self) -> u32
        ensures { result ≡ self }
    {
        self.raw
    }

    /// Returns the slot, below 2^26.
    pub fn slot(self) -> u32
        ensures slot { result ≡ slot_of self }
        ensures small { result < 2 ^ 26 }
    {
        self.raw & SLOT_MASK
    }

    /// Returns the value, from 0 to 63.
    pub fn value(self) -> u8
        ensures value { result ≡ value_of self }
        ensures small { result ≤ 63 }
    {
        (self.raw >> SLOT_BITS) as u8
    }
}
