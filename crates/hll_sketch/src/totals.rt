// SPDX-License-Identifier: Apache-2.0
//! What the coupons or the registers of an image add up to: what `hll_image_info` of C reports and estimates are computed from.
ghost use Rattle.std.specs.Prelude.{◌≡◌, false};
ghost use Rattle.hll_kernels.specs.Packed as packed;
ghost use Rattle.hll_sketch.specs.BorrowedImage.{sketch_of_borrowed, HasCouponsInTable};
ghost use Rattle.hll_sketch.specs.Layout.{sketch_of};
ghost use Rattle.hll_sketch.specs.Totals.{AreTotalsOf};
ghost use Rattle.hll_sketch.specs.Value.{in_registers};

use crate::borrowed_image::BorrowedImage;
use crate::sketch::HllSketch;
use hll_arrays::registers::Registers;
use hll_registers::estimate_state::EstimateState;
use hll_registers::group_slice::GroupSlice;
use hll_registers::registers::units_of;
use std::alloc::Allocator;

/// Totals of registers.
#[derive(Clone, Copy, Debug)]
pub struct RegisterTotals {
    /// The number of registers that are 0.
    pub zeros: u32,
    /// The sum of 2^(63 - v) over the registers v.
    pub units: u128,
    /// Their estimate state.
    pub state: EstimateState,
}

/// Totals of an image.
#[derive(Clone, Copy, Debug)]
pub enum Totals {
    /// Of coupons.
    Coupons {
        /// The logarithm of the number of buckets of their table: 3, or 5 to `lg_k` - 3.
        lg_size: u8,
        /// Their number.
        count: usize,
    },
    /// Of registers.
    Registers(RegisterTotals),
}

impl<'a, A: Allocator> BorrowedImage<'a, A> {
    /// Returns totals of the coupons or of the registers. Allocates nothing.
    pub fn totals(&self) -> Totals
        requires { HasCouponsInTable self.now }
        ensures { AreTotalsOf (sketch_of_borrowed self.now) result }
    {
        match self {
            BorrowedImage::Coupons(coupons) => Totals::Coupons {
                lg_size: coupons.lg_size,
                count: coupons.elements.len(),
            },
            BorrowedImage::Table(sketch) => totals_of_table(sketch),
            BorrowedImage::Nibbles(registers) => {
                Totals::Registers(totals_of(registers, registers.num_zeros()))
            }
            BorrowedImage::Groups(registers) => Totals::Registers(totals_of_groups(registers)),
            BorrowedImage::Bytes(registers) => {
                Totals::Registers(totals_of(registers, registers.num_zeros()))
            }
        }
    }
}

/// Returns totals of the coupons of a sketch.
fn totals_of_table<A: Allocator>(sketch: &HllSketch<A>) -> Totals
    requires { in_registers (sketch_of sketch.now).content ≡ false }
    ensures { AreTotalsOf (sketch_of sketch.now) result }
{
    match sketch.table() {
        Some(table) => Totals::Coupons {
            lg_size: table.lg_size() as u8,
            count: table.len(),
        },
        None => unreachable!(),
    }
}

/// Returns totals of registers, of which `zeros` are 0.
fn totals_of<R: Registers>(source: &R, zeros: u32) -> RegisterTotals
    requires { zeros ≡ packed.zeros (R.stored source.now).registers }
    ensures zeros { result.zeros ≡ zeros }
    ensures sum { result.units ≡ packed.units (R.stored source.now).registers }
    ensures state { result.state ≡ (R.stored source.now).state }
    ensures legal { packed.AreRegisters (R.stored source.now).lg_k (R.stored source.now).registers }
{
    let _lg_k = source.lg_k();
    RegisterTotals {
        zeros,
        units: units_of(source),
        state: source.estimate_state(),
    }
}

/// Returns totals of 6-bit registers. One pass.
fn totals_of_groups(source: &GroupSlice<'_>) -> RegisterTotals
    ensures zeros { result.zeros ≡ packed.zeros source.now.registers }
    ensures sum { result.units ≡ packed.units source.now.registers }
    ensures state { result.state ≡ source.now.state }
    ensures legal { packed.AreRegisters source.now.lg_k source.now.registers }
{
    let _lg_k = source.lg_k();
    let (zeros, sums) = source.zeros_and_sums();
    RegisterTotals {
        zeros,
        units: sums.units(),
        state: source.estimate_state(),
    }
}
