// SPDX-License-Identifier: Apache-2.0
//! How many bits each register has (docs/MODEL.md, "Registers").

/// The width of the registers of a sketch.
#[derive(Clone, Copy, Debug, PartialEq, Eq)]
pub enum HllType {
    /// HLL_4: a 4-bit height above the least register. Registers 15 or more above it are kept separately, as
    /// exceptions.
    Hll4,
    /// HLL_6: the value itself, in 6 bits.
    Hll6,
    /// HLL_8: the value itself, in a byte.
    Hll8,
}
