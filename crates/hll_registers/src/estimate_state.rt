// SPDX-License-Identifier: Apache-2.0
//! The state that estimators of other implementations keep with the registers.
ghost use Rattle.std.specs.Prelude.{◌≡◌, ℕ, ◌^◌, ◌<◌, ◌≤◌, List};
ghost use Rattle.hll_kernels.specs.WeightSums.{AreSumsOf};
ghost use Rattle.hll_registers.specs.EstimatorFields.{AreEstimatorFields, IsBinary64};

use hll_kernels::kernels::WeightSums;

/// Three raw 64-bit fields and a flag. They are stored, and never interpreted.
#[derive(Clone, Copy, Debug, PartialEq, Eq)]
pub struct EstimateState {
    /// The fields in the order of the image: hipAccum, kxq0, kxq1.
    pub words: [u64; 3],
    /// Whether the fields no longer follow from the updates.
    pub out_of_order: bool,
}

impl EstimateState {
    /// The state of new and of changed registers: three zeros, and the flag set.
    pub const CLEARED: EstimateState = EstimateState {
        words: [0; 3],
        out_of_order: true,
    };

    /// Returns the state that a composite estimator computes from, for registers with these sums (docs/FORMAT.md,
    /// "Estimator fields"): 0 and the two sums as binary64 numbers, and the flag set.
    ///
    /// Each sum is below 2^53, so no number is rounded.
    pub fn of_sums(sums: WeightSums) -> EstimateState
        requires low { sums.low < 2 ^ 53 }
        requires high { sums.high < 2 ^ 53 }
        ensures { (R : List ℕ) → AreSumsOf sums R → AreEstimatorFields R result }
    {
        EstimateState {
            words: [0, binary64_of(sums.low, 31), binary64_of(sums.high, 63)],
            out_of_order: true,
        }
    }
}

/// Returns the 64 bits of the binary64 number n / 2^`shift`. It is exact.
fn binary64_of(n: u64, shift: u32) -> u64
    requires small { n < 2 ^ 53 }
    requires shift { shift ≤ 63 }
    ensures { IsBinary64 result n shift }
{
    if n == 0 {
        return 0;
    }
    // the highest bit of n goes to bit 52
    let up = n.leading_zeros() - 11;
    let fraction = (n << up) - (1 << 52);
    (u64::from(1075 - up - shift) << 52) + fraction
}
