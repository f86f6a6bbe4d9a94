// SPDX-License-Identifier: Apache-2.0
//! 4-bit registers as they are stored (docs/MODEL.md, "4-bit registers").

use hll_coupons::aux_map::AuxMapRefIter;

/// 4-bit registers: nibbles above a minimum, two in a byte, and the slots and values of the exceptions, if there is a map of
/// them. A nibble of 15 marks an exception.
#[derive(Debug, Drop)]
pub struct NibbleParts<'a> {
    /// The minimum, 0 to 63.
    pub minimum: u8,
    /// The nibbles, the lower half of a byte first.
    pub nibbles: &'a [u8],
    /// The exceptions, in the order of their buckets.
    pub exceptions: Option<AuxMapRefIter<'a>>,
}
