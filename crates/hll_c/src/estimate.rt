// SPDX-License-Identifier: Apache-2.0
//! Estimates of the number of distinct values (docs/NUMBERS.md, "Estimates").
ghost use Rattle.std.specs.Prelude.{◌≡◌, ◌^◌, ◌<◌, List, ℕ, sum, IfSome, IfNone, IfOk, IfErr};
ghost use Rattle.hll_kernels.specs.Packed as packed;
ghost use Rattle.hll_kernels.specs.Packed.{AreRegisters};
ghost use Rattle.hll_sketch.specs.Value.{IsLgK};
ghost use Rattle.hll_estimate.specs.Estimate.{AreOfRegisters};
ghost use Rattle.hll_c.specs.Answers.{RefusesInfo};
ghost use Rattle.hll_c.specs.ByteRegisters.{RefusesRegisters};
ghost use Rattle.hll_c.specs.Estimates.{SaysEstimate, SaysEstimateOfBytes, SaysEstimateOfCounts, RefusesCounts, AreTotalsOfCounts, IsEstimateOfRegisters, IsEstimateOfCoupons};

use crate::byte_registers::{checked_lg_k, lg_k_of_count};
use crate::info::HllHistogram;
use hll_arrays::kernels::{count_zeros, units};
use hll_base::error::{Error, Reason};
use hll_estimate::double::nearest_double;
use hll_estimate::estimate::estimate_of;
use hll_registers::registers::Use;
use hll_sketch::Totals;
use hll_sketch::borrowed_image::BorrowedImage;
use hll_sketch::coupon_room::CouponRoom;
use std::alloc::Global;

/// The greatest number of registers.
const MOST_REGISTERS: u64 = 1 << 21;

/// An estimate, and the numbers from which its bounds are computed.
#[repr(C)]
#[derive(Clone, Copy)]
pub struct HllEstimate {
    /// From registers: the estimate as the bits of a binary64 number. From coupons: 0.
    pub bits: u64,
    /// From registers: their number. From coupons: 0.
    pub registers: u64,
    /// The number of registers above 0, or the number of coupons.
    pub seen: u64,
}

/// Returns the estimate of 2^`lg_k` registers. `zeros` is the number of registers that are 0, `units` the sum of 2^(63 - value)
/// over all registers.
fn estimate_of_totals(lg_k: u8, zeros: u32, units: u128) -> HllEstimate
    requires { AreOfRegisters lg_k zeros units }
    ensures { (R : List ℕ) → zeros ≡ packed.zeros R → units ≡ packed.units R → IsEstimateOfRegisters lg_k R result }
{
    let registers = 1u64 << lg_k;
    HllEstimate {
        bits: nearest_double(estimate_of(lg_k, zeros, units)),
        registers,
        seen: registers - u64::from(zeros),
    }
}

/// Returns what `hll_estimate` writes for `count` coupons.
pub(crate) fn estimate_of_coupons(count: usize) -> HllEstimate
    ensures { IsEstimateOfCoupons count result }
{
    HllEstimate {
        bits: 0,
        registers: 0,
        seen: count as u64,
    }
}

/// Returns the estimate of an image.
pub(crate) fn estimate_of_image(alloc: Global, image: &[u8]) -> Result<HllEstimate, Error>
    ensures ok { IfOk result (SaysEstimate image.now) }
    ensures err { IfErr result (RefusesInfo (Unit {0}) image.now) }
{
    let mut room = CouponRoom::new();
    let image = BorrowedImage::read(alloc, image, &mut room, Use::Count)?;
    match image.totals() {
        Totals::Coupons { count, .. } => Ok(estimate_of_coupons(count)),
        Totals::Registers(totals) => Ok(estimate_of_totals(
            image.lg_k(),
            totals.zeros,
            totals.units,
        )),
    }
}

/// Returns the estimate of 2^`lg_k` registers.
pub(crate) fn estimate_of_registers(lg_k: u8, registers: &[u8]) -> HllEstimate
    requires lg_k { IsLgK lg_k }
    requires registers { AreRegisters lg_k registers.now }
    ensures { IsEstimateOfRegisters lg_k registers.now result }
{
    estimate_of_totals(lg_k, count_zeros(registers) as u32, units(registers))
}

/// Returns the sum of the counts, and the sum of 2^(63 - value) over the registers that they count. Returns `None` if there are
/// more than 2^21 registers.
fn totals_of_counts(counts: &[u64; 64]) -> Option<(u64, u128)>
    ensures some { IfSome result (λ totals. AreTotalsOfCounts counts.now totals.0 totals.1) }
    ensures none { IfNone result (2 ^ 21 < sum counts.now) }
{
    let mut total = 0u64;
    let mut units = 0u128;
    let mut weight = 1u128 << 63;
    for count in counts {
        if MOST_REGISTERS - total < *count {
            return None;
        }
        total += *count;
        units += u128::from(*count) * weight;
        weight /= 2;
    }
    Some((total, units))
}

/// Returns the estimate of registers, of which `histogram` has the number with each value.
pub(crate) fn estimate_of_counts(histogram: &HllHistogram) -> Result<HllEstimate, Error>
    ensures ok { IfOk result (SaysEstimateOfCounts histogram.now.counts) }
    ensures err { IfErr result (RefusesCounts histogram.now.counts) }
{
    let Some((total, units)) = totals_of_counts(&histogram.counts) else {
        return Err(Error::new(Reason::Argument));
    };
    let lg_k = lg_k_of_count(total as usize)?;
    Ok(estimate_of_totals(lg_k, histogram.counts[0] as u32, units))
}

/// Returns the estimate of caller-owned registers.
pub(crate) fn estimate_of_bytes(registers: &[u8]) -> Result<HllEstimate, Error>
    ensures ok { IfOk result (SaysEstimateOfBytes registers.now) }
    ensures err { IfErr result (RefusesRegisters registers.now) }
{
    let lg_k = checked_lg_k(registers)?;
    Ok(estimate_of_registers(lg_k, registers))
}
