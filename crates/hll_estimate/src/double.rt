// SPDX-License-Identifier: Apache-2.0
//! An estimate as a binary64 number.
ghost use Rattle.std.specs.Prelude.{◌≡◌, ◌+◌, ◌-◌, ◌*◌, ◌^◌, ◌<◌, ◌≤◌, false, IsTrue};
ghost use Rattle.hll_estimate.specs.Double.{IsDoubleOf, IsNearest};

use crate::estimate::Estimate;

/// The bits of infinity.
const INFINITY: u64 = 0x7ff0_0000_0000_0000;

/// Returns the bits of the binary64 number nearest to an estimate. If two are equally near, the one whose last bit is
/// 0. Infinity is 0x7ff0000000000000.
pub fn nearest_double(estimate: Estimate) -> u64
    ensures { IsDoubleOf result estimate }
{
    match estimate {
        Estimate::Finite(units) => nearest_to(units),
        Estimate::Infinite => INFINITY,
    }
}

/// Returns the bits of the binary64 number nearest to n / 2^32.
fn nearest_to(n: u128) -> u64
    ensures { IsNearest result n }
{
    if n == 0 {
        return 0;
    }
    let bits = 128 - n.leading_zeros();
    if bits <= 53 {
        // move the highest bit of n to bit 52
        return bits_of(bits, (n << (53 - bits)) as u64);
    }
    rounded(n, bits)
}

/// Returns the bits of the binary64 number nearest to n / 2^32, for n of more than 53 bits.
fn rounded(n: u128, bits: u32) -> u64
    requires more { 53 < bits }
    requires most { bits ≤ 128 }
    requires low { 2 ^ (bits - 1) ≤ n }
    requires high { n < 2 ^ bits }
    ensures { IsNearest result n }
{
    let dropped = bits - 53;
    let kept = (n >> dropped) as u64;
    let rest = n - (u128::from(kept) << dropped);
    let below = bits_of(bits, kept);
    if rounds_up(rest, 1 << (dropped - 1), kept % 2 == 1) {
        below + 1
    } else {
        below
    }
}

/// Returns whether to round a number up: if more than half a unit is dropped, or exactly half a unit of an odd number.
fn rounds_up(rest: u128, half: u128, is_odd: bool) -> bool
    ensures up { IsTrue result → half ≤ rest }
    ensures down { result ≡ false → rest ≤ half }
    ensures tie { rest ≡ half → result ≡ is_odd }
{
    if rest == half { is_odd } else { rest > half }
}

/// Returns the bits of the binary64 number for n / 2^32 with only the 53 highest bits of n. These are `kept`, and n has
/// `bits` bits.
fn bits_of(bits: u32, kept: u64) -> u64
    requires most { bits ≤ 128 }
    requires low { 2 ^ 52 ≤ kept }
    requires high { kept < 2 ^ 53 }
    ensures value { result ≡ (bits + 990) * 2 ^ 52 + (kept - 2 ^ 52) }
    ensures small { result < 2 ^ 63 }
{
    (u64::from(bits + 990) << 52) + (kept - (1 << 52))
}
