// SPDX-License-Identifier: Apache-2.0
//! The coupons of an image, with what its header says.
ghost use Rattle.std.specs.FinSet.{len};
ghost use Rattle.std.specs.Int.{w32, from_le_bytes};
ghost use Rattle.std.specs.Prelude.{◌≡◌, ◌≢◌, ◌+◌, ◌^◌, ◌<◌, ◌≤◌, length, map};
ghost use Rattle.hll_coupons.specs.Pair.{set_of};
ghost use Rattle.hll_sketch.specs.Value.{IsLgK};

use hll_base::hll_type::HllType;

/// The coupons of an image, borrowed from its bytes or from room that they were copied into. No two are equal.
#[derive(Clone, Copy)]
pub struct CouponsOfImage<'a> {
    /// The logarithm of the number of registers, 4 to 21.
    pub lg_k: u8,

    /// The width that its registers will have.
    pub hll_type: HllType,

    /// The logarithm of the number of buckets of their table: 3, or 5 to `lg_k` - 3.
    pub lg_size: u8,

    /// The raw coupons, four bytes each, the lowest byte first.
    pub elements: &'a [[u8; 4]],

    ghost legal: { IsLgK lg_k },
    ghost list: { lg_size ≡ 3 → length elements.now ≤ 8 },
    ghost least: { lg_size ≢ 3 → 5 ≤ lg_size },
    ghost most: { lg_size ≢ 3 → lg_size + 3 ≤ lg_k },
    ghost set: { lg_size ≢ 3 → length elements.now < 2 ^ lg_size },
    ghost once: { len (set_of (map (from_le_bytes w32) elements.now)) ≡ length elements.now },
}
