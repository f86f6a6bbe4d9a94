// SPDX-License-Identifier: Apache-2.0
//! Room that a caller lends for coupons that can't be used in the bytes of their image.

use crate::raw_coupons::FEW;
use hll_coupons::serialization::COUPON_SIZE_BYTES;

/// The number of bytes of `FEW` coupons.
pub const ROOM: usize = COUPON_SIZE_BYTES * FEW;

/// Room for few coupons that are collected from the buckets of an updatable image, or sorted: 512 bytes. A caller lends it for
/// each image, which takes about 10 ns.
#[derive(Drop)]
pub struct CouponRoom {
    bytes: Option<[u8; ROOM]>,
}

impl CouponRoom {
    /// Returns room whose bytes are not cleared yet.
    pub fn new() -> CouponRoom {
        CouponRoom { bytes: None }
    }

    /// Clears the bytes and returns them.
    pub fn cleared(&mut self) -> &mut [u8; ROOM] {
        self.bytes.insert([0; ROOM])
    }
}
