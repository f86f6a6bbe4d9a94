// SPDX-License-Identifier: Apache-2.0
//! Long division, for targets whose runtime library can't divide 128-bit integers.
ghost use Rattle.std.specs.Prelude.{◌≡◌, ◌*◌, ◌/◌, ◌%◌, ◌<◌, ◌≤◌};

/// Returns the quotient and the remainder of `dividend` by `divisor`, which is not 0.
///
/// Does a division of 64-bit integers for each 31 bits of the quotient, and a step for each bit that is left after
/// these.
pub fn divide(dividend: u128, divisor: u128) -> (u128, u128)
    requires { 0 < divisor }
    ensures quotient { result.0 ≡ dividend / divisor }
    ensures remainder { result.1 ≡ dividend % divisor }
{
    let mut quotient = 0;
    let mut remainder = dividend;
    for _ in 0..digits(dividend, divisor) {
        let part = trial_quotient(remainder, divisor);
        quotient += part;
        remainder -= part * divisor;
    }
    let (last, remainder) = divide_by_bits(remainder, divisor);
    (quotient + last, remainder)
}

/// Returns about how many digits of 31 bits a quotient has. It changes only speed, no result.
fn digits(dividend: u128, divisor: u128) -> u32 {
    let bits = divisor
        .leading_zeros()
        .saturating_sub(dividend.leading_zeros());
    bits / 31 + 1
}

/// Returns a number that is at most the quotient and near it: the highest 64 bits of the dividend divided by the
/// highest 32 bits of the divisor.
fn trial_quotient(dividend: u128, divisor: u128) -> u128
    requires { 0 < divisor }
    ensures { result * divisor ≤ dividend }
{
    let dropped = 64u32.saturating_sub(dividend.leading_zeros());
    let divisor_dropped = 96u32.saturating_sub(divisor.leading_zeros());
    let high = (dividend >> dropped) as u64;
    // rounded up, because the quotient must not be too high
    let divisor_high = ((divisor - 1) >> divisor_dropped) as u64 + 1;
    let digit = u128::from(high / divisor_high);
    if divisor_dropped <= dropped {
        digit << (dropped - divisor_dropped)
    } else {
        digit >> (divisor_dropped - dropped)
    }
}

/// Returns the quotient and the remainder, by a comparison and a subtraction for each bit of the quotient.
fn divide_by_bits(dividend: u128, divisor: u128) -> (u128, u128)
    requires { 0 < divisor }
    ensures quotient { result.0 ≡ dividend / divisor }
    ensures remainder { result.1 ≡ dividend % divisor }
{
    if dividend < divisor {
        return (0, dividend);
    }
    // align the highest bits of both
    let shift = divisor.leading_zeros() - dividend.leading_zeros();
    let mut quotient = 0;
    let mut remainder = dividend;
    for step in 0..shift + 1 {
        let part = divisor << (shift - step);
        quotient *= 2;
        if part <= remainder {
            remainder -= part;
            quotient += 1;
        }
    }
    (quotient, remainder)
}
