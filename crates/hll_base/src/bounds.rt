// SPDX-License-Identifier: Apache-2.0
//! The bounds of a sketch's `lg_k`, and of the slots and values of its coupons (docs/MODEL.md, "Pairs").

/// The smallest `lg_k` of a sketch.
pub const MIN_LG_K: u8 = 4;

/// The largest `lg_k` of a sketch.
pub const MAX_LG_K: u8 = 21;

/// The number of bits of a coupon's slot.
pub const SLOT_BITS: u32 = 26;

/// The greatest value of a coupon or a register.
pub const MAX_VALUE: u8 = 63;
