// SPDX-License-Identifier: Apache-2.0
//! The sum of weights that the estimate is computed from, in fixed point (docs/NUMBERS.md, "Estimates").
ghost use Rattle.std.specs.Prelude.{◌≡◌, ◌^◌, ◌<◌, ◌≤◌};
ghost use Rattle.hll_estimate.specs.FixedPoint.{AreBounded, rho_of, square_of, twice_weight_of};

/// Returns the square of a number below 1, both in units of 2^-96. The result is less than two units too low.
fn square(part: u128) -> u128
    requires { part < 2 ^ 96 }
    ensures value { result ≡ square_of part }
    ensures small { result < 2 ^ 96 }
{
    let high = part >> 48;
    let low = part % (1 << 48);
    high * high + ((2 * high * low) >> 48)
}

/// Returns the sum of the first `terms` terms of x + 2 x^2 + 4 x^4 + 8 x^8 + .., in units of 2^-96.
fn rho(part: u128, terms: u8) -> u128
    requires part { part < 2 ^ 96 }
    requires terms { terms ≤ 28 }
    ensures value { result ≡ rho_of terms part }
    ensures small { result < 2 ^ 124 }
{
    let mut sum = 0;
    let mut power = part;
    for j in 0..terms {
        // (then all terms that are left are 0)
        if power == 0 {
            return sum;
        }
        sum += power << j;
        power = square(power);
    }
    sum
}

/// Returns twice the sum of weights, in units of 2^-63, with the registers of 0 weighted by the series.
///
/// `zeros` is the number of registers that are 0, and `units` the sum of the weights 2^-v in units of 2^-63. The result
/// is at most three parts in 2^42 too low.
pub(crate) fn twice_weight(lg_k: u8, zeros: u32, units: u128) -> u128
    requires { AreBounded lg_k zeros units }
    ensures value { result ≡ twice_weight_of lg_k zeros units }
    ensures some { 2 ^ lg_k ≤ result }
    ensures small { result < 2 ^ 113 }
{
    let part = u128::from(zeros) << (96 - lg_k);
    (2 * units - (u128::from(zeros) << 63)) + (rho(part, lg_k + 7) >> (33 - lg_k))
}
