// SPDX-License-Identifier: Apache-2.0
//! The estimate from registers, or from the number of zeros and the sum of weights, which `hll_image_info` of C also
//! reports.
ghost use Rattle.std.specs.Prelude.{◌≡◌, ◌↔◌, ◌^◌, ◌<◌, ◌≤◌, All};
ghost use Rattle.hll_kernels.specs.Packed as packed;
ghost use Rattle.hll_kernels.specs.Packed.{AreRegisters};
ghost use Rattle.hll_estimate.specs.declared.estimate.Estimate.TheVariants.{Finite, Infinite};
ghost use Rattle.hll_estimate.specs.Estimate.{AreOfRegisters, IsEstimate};
ghost use Rattle.hll_estimate.specs.FixedPoint.{AreBounded, fixed_point_estimate, raw_estimate_of, twice_alpha_of};
ghost use Rattle.hll_estimate.specs.Monotone.{fixed_point_estimate_of};

use crate::division::divide;
use crate::series::twice_weight;
use hll_kernels::kernels::{count_zeros, units};

/// 50 / ln 2, in units of 2^-48.
const FIFTY_OVER_LN_2: u128 = 20304127651739994;

/// An estimate of the number of distinct values.
#[derive(Clone, Copy, Debug, PartialEq, Eq)]
pub enum Estimate {
    /// The estimate in units of 2^-32.
    Finite(u128),
    /// All registers are 63, so there may have been any number of values.
    Infinite,
}

/// Returns the estimate of 2^`lg_k` registers from the number of zeros and the sum of weights (docs/NUMBERS.md,
/// "Estimates"; docs/MODEL.md).
///
/// `lg_k` is 4 to 21. `zeros` is the number of registers that are 0, and `units` is the sum of 2^(63 - v) over the
/// registers v. The estimate is 0 if all registers are 0, and infinite if all are 63. Otherwise it is the number of
/// registers above 0, if that is greater, or differs from the exact estimate by at most a part in 2^40 and a unit of
/// 2^-32. The correction τ for registers of 63 is left out. The result is the same on every processor. Allocates
/// nothing.
pub fn estimate_of(lg_k: u8, zeros: u32, units: u128) -> Estimate
    requires { AreOfRegisters lg_k zeros units }
    ensures near { IsEstimate lg_k zeros units result }
    ensures value { result ≡ fixed_point_estimate lg_k zeros units }
{
    let registers = registers_of(lg_k);
    if zeros == registers {
        return Estimate::Finite(0);
    }
    if units == u128::from(registers) {
        return Estimate::Infinite;
    }
    let least = u128::from(registers - zeros) << 32;
    Estimate::Finite(raw_estimate(lg_k, zeros, units).max(least))
}

/// Returns the estimate of 2^`lg_k` registers, one byte each (docs/NUMBERS.md, "Estimates").
///
/// `lg_k` is 4 to 21, and each register at most 63. Makes two passes, by blocks, and allocates nothing.
pub fn estimate_of_registers(lg_k: u8, registers: &[u8]) -> Estimate
    requires least { 4 ≤ lg_k }
    requires most { lg_k ≤ 21 }
    requires registers { AreRegisters lg_k registers.now }
    ensures zero { result ≡ Finite 0 ↔ All (λ v. v ≡ 0) registers.now }
    ensures infinite { result ≡ Infinite ↔ All (λ v. v ≡ 63) registers.now }
    ensures near { IsEstimate lg_k (packed.zeros registers.now) (packed.units registers.now) result }
    ensures value { result ≡ fixed_point_estimate_of lg_k registers.now }
{
    estimate_of(lg_k, count_zeros(registers) as u32, units(registers))
}

/// Returns 2^`lg_k`.
fn registers_of(lg_k: u8) -> u32
    requires { lg_k ≤ 21 }
    ensures value { result ≡ 2 ^ lg_k }
    ensures small { result ≤ 2 ^ 21 }
{
    1 << lg_k
}

/// Returns 1 / ln 2 divided by 1 + e / m, in units of 2^-48. The divisor removes the bias (docs/NUMBERS.md,
/// "Estimates").
fn twice_alpha(lg_k: u8, zeros: u32) -> u128
    requires most { lg_k ≤ 21 }
    requires some { zeros < 2 ^ lg_k }
    ensures value { result ≡ twice_alpha_of lg_k zeros }
    ensures small { result < 2 ^ 49 }
{
    let registers = u64::from(registers_of(lg_k));
    let others = registers - u64::from(zeros);
    let cube = u128::from(registers * registers * registers);
    let bias = 50 * cube
        + u128::from(25 * (registers * registers))
        + u128::from(29 * (others * others));
    divide(FIFTY_OVER_LN_2 * cube, bias).0
}

/// Returns the estimate in units of 2^-32. It may be a little below the number of registers above 0.
fn raw_estimate(lg_k: u8, zeros: u32, units: u128) -> u128
    requires { AreBounded lg_k zeros units }
    ensures value { result ≡ raw_estimate_of lg_k zeros units }
    ensures small { result < 2 ^ 118 }
{
    let weight = twice_weight(lg_k, zeros, units);
    let dividend = twice_alpha(lg_k, zeros) << (2 * lg_k + 37);
    let (quotient, remainder) = divide(dividend, weight);
    // ten more bits of the quotient, which would not fit in the dividend
    (quotient << 10) + divide(remainder << 10, weight).0
}
