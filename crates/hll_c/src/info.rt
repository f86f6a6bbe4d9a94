// SPDX-License-Identifier: Apache-2.0
//! What an image says.
ghost use Rattle.std.specs.Prelude.{◌≡◌, ◌≤◌, ◌^◌, ◌<◌, ℕ, List, length, map, IfOk, IfErr};
ghost use Rattle.hll_coupons.specs.Fold.{raw_coupons_from};
ghost use Rattle.hll_coupons.specs.Pair.{value_of};
ghost use Rattle.hll_sketch.specs.BorrowedImage.{sketch_of_borrowed, HasCouponsInTable};
ghost use Rattle.hll_c.specs.Answers.{RefusesImage, RefusesInfo};
ghost use Rattle.hll_c.specs.Calls as calls;
ghost use Rattle.hll_c.specs.Info as spec;
ghost use Rattle.hll_c.specs.Info.{IsInfoOf, SaysInfo, AreCountsOf, SaysHistogram};

use hll_arrays::registers::two_to;
use hll_base::bounds::SLOT_BITS;
use hll_base::error::{Error, Reason};
use hll_base::hll_type::HllType;
use hll_coupons::serialization::LG_LIST_BUCKETS;
use hll_images::borrowed_registers::BorrowedRegisters;
use hll_registers::estimate_state::EstimateState;
use hll_registers::registers::Use;
use hll_sketch::Totals;
use hll_sketch::borrowed_image::BorrowedImage;
use hll_sketch::coupon_room::CouponRoom;
use std::alloc::Global;

/// The size of `HllInfo` in bytes.
const INFO_SIZE: usize = 64;

/// The bits of binary64's infinity. Those of a finite number above 0 are fewer.
const INFINITY: u64 = 0x7ff0_0000_0000_0000;

/// The stage of a list.
pub(crate) const LIST: u8 = 0;
/// The stage of a set.
pub(crate) const SET: u8 = 1;
/// The stage of registers.
pub(crate) const REGISTERS: u8 = 2;

/// What an image says. Fields that its stage doesn't have are 0.
#[repr(C)]
#[derive(Clone, Copy)]
pub struct HllInfo {
    /// Of a list or a set: the number of coupons.
    pub coupons: u64,
    /// Of registers: the number of registers that are 0.
    pub zeros: u64,
    /// Of registers: the upper half of the sum of 2^(63 - value), which has 128 bits.
    pub units_high: u64,
    /// The lower half of that sum.
    pub units_low: u64,
    /// Of registers: the three estimator fields (hipAccum, kxq0, kxq1), as the bits of binary64.
    pub hip: u64,
    pub kxq0: u64,
    pub kxq1: u64,
    /// The logarithm of the number of registers, 4 to 21.
    pub lg_k: u8,
    /// The width of a register: 4, 6 or 8 bits.
    pub width: u8,
    /// 0 for a list, 1 for a set, 2 for registers.
    pub stage: u8,
    /// 1 if there is no coupon and no register above 0, else 0.
    pub is_empty: u8,
    /// Of registers: 1 if they have the out-of-order flag, else 0.
    pub out_of_order: u8,
    /// Of registers: 1 if they have a HIP estimate, else 0. They have one if they don't have the out-of-order flag, and hipAccum
    /// is a finite number above 0.
    pub has_hip: u8,
}

/// The number of registers with each value.
#[repr(C)]
#[derive(Clone, Copy)]
pub struct HllHistogram {
    /// By value, 0 to 63. The sum of all counts is 2^`lg_k`.
    pub counts: [u64; 64],
}

/// Returns a width as a number of bits.
pub(crate) fn bits_of(width: HllType) -> u8
    ensures { result ≡ calls.bits_of width }
{
    match width {
        HllType::Hll4 => 4,
        HllType::Hll6 => 6,
        HllType::Hll8 => 8,
    }
}

/// Returns whether registers with this estimate state have a HIP estimate.
fn has_hip(state: &EstimateState) -> bool
    ensures { result ≡ spec.has_hip state.now }
{
    let bits = state.words[0];
    !state.out_of_order && 0 < bits && bits < INFINITY
}

/// Returns what an image says that has been read.
fn info_of_read(image: &BorrowedImage<'_>) -> HllInfo
    requires { HasCouponsInTable image.now }
    ensures { IsInfoOf (sketch_of_borrowed image.now) result }
{
    let info = HllInfo {
        coupons: 0,
        zeros: 0,
        units_high: 0,
        units_low: 0,
        hip: 0,
        kxq0: 0,
        kxq1: 0,
        lg_k: image.lg_k(),
        width: bits_of(image.hll_type()),
        stage: REGISTERS,
        is_empty: u8::from(image.is_empty()),
        out_of_order: 0,
        has_hip: 0,
    };
    match image.totals() {
        Totals::Coupons { lg_size, count } => HllInfo {
            coupons: count as u64,
            stage: if lg_size == LG_LIST_BUCKETS {
                LIST
            } else {
                SET
            },
            ..info
        },
        Totals::Registers(totals) => HllInfo {
            zeros: u64::from(totals.zeros),
            units_high: (totals.units >> 64) as u64,
            units_low: (totals.units & 0xffff_ffff_ffff_ffff) as u64,
            hip: totals.state.words[0],
            kxq0: totals.state.words[1],
            kxq1: totals.state.words[2],
            out_of_order: u8::from(totals.state.out_of_order),
            has_hip: u8::from(has_hip(&totals.state)),
            ..info
        },
    }
}

/// Returns what an image says. Fails with `Argument` if `size` is not the size of `HllInfo`.
pub(crate) fn info_of(alloc: Global, image: &[u8], size: usize) -> Result<HllInfo, Error>
    ensures ok { IfOk result (λ i. SaysInfo image.now i) }
    ensures err { IfErr result (λ e. RefusesInfo (size ≡ 64) image.now e) }
{
    if size != INFO_SIZE {
        return Err(Error::new(Reason::Argument));
    }
    let mut room = CouponRoom::new();
    let image = BorrowedImage::read(alloc, image, &mut room, Use::Count)?;
    Ok(info_of_read(&image))
}

/// Counts the registers with each value from 0 to 63.
pub(crate) fn counts_of(registers: &[u8]) -> [u64; 64]
    requires { length registers.now < 2 ^ 64 }
    ensures { AreCountsOf registers.now result }
{
    let mut counts = [0u64; 64];
    for value in registers {
        if *value < 64 {
            counts[usize::from(*value)] += 1;
        }
    }
    counts
}

/// Counts the registers with each value from 0 to 63, of 2^`lg_k` registers of which those above 0 are given as raw coupons.
fn counts_of_nonzero(lg_k: u8, nonzero: &[u32]) -> [u64; 64]
    requires lg_k { lg_k ≤ 21 }
    requires registers { (R : List ℕ) × (length R ≡ 2 ^ lg_k) × (nonzero.now ≡ raw_coupons_from 0 R) }
    ensures { (R : List ℕ) → length R ≡ 2 ^ lg_k → nonzero.now ≡ raw_coupons_from 0 R → AreCountsOf R result }
{
    let mut counts = counts_of_values(nonzero);
    counts[0] = (two_to(lg_k) - nonzero.len()) as u64;
    counts
}

/// Counts raw coupons with each value from 0 to 63.
fn counts_of_values(raw_coupons: &[u32]) -> [u64; 64]
    requires { length raw_coupons.now < 2 ^ 64 }
    ensures counts { AreCountsOf (map value_of raw_coupons.now) result }
    ensures size { length result ≡ 64 }
{
    let mut counts = [0u64; 64];
    for raw in raw_coupons {
        counts[(*raw >> SLOT_BITS) as usize] += 1;
    }
    counts
}

/// Counts the registers of an image with each value. Registers of 0 that coupons leave are not looked at one by one.
pub(crate) fn histogram_of(alloc: Global, image: &[u8]) -> Result<HllHistogram, Error>
    ensures ok { IfOk result (λ h. SaysHistogram image.now h) }
    ensures err { IfErr result (λ e. RefusesImage image.now e) }
{
    let registers = BorrowedRegisters::read(alloc, image)?;
    let lg_k = registers.lg_k();
    let counts = match registers.coupons() {
        Some(coupons) => counts_of_nonzero(lg_k, &coupons.nonzero_registers(&alloc, lg_k)?),
        None => counts_of(&registers.folded_values(&alloc, lg_k)?),
    };
    Ok(HllHistogram { counts })
}
