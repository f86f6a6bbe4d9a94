// SPDX-License-Identifier: Apache-2.0
//! The coupons of an image, copied, and the registers that they fold to at an `lg_k`.
ghost use Rattle.std.specs.Prelude.{◌≡◌, ◌≤◌, ◌<◌, ◌^◌, false, length, IfOk, IfErr};
ghost use Rattle.hll_base.specs.Join.{join};
ghost use Rattle.hll_base.specs.declared.error.Reason.TheVariants.{Memory};
ghost use Rattle.hll_coupons.specs.Coupons.{raw_coupons};
ghost use Rattle.hll_coupons.specs.Fold.{fold_to, raw_coupons_from};
ghost use Rattle.hll_coupons.specs.Pair.{set_of};
ghost use Rattle.hll_coupons.specs.Table.{coupons_in};
ghost use Rattle.hll_sketch.specs.ByteRegisters.{AreRegistersOf};
ghost use Rattle.hll_sketch.specs.Header.{header_of};
ghost use Rattle.hll_sketch.specs.Image.{HasHeader, IsReadAs, stage_bits};
ghost use Rattle.hll_sketch.specs.Layout.{sketch_of};
ghost use Rattle.hll_sketch.specs.Refusal.{IsRefusal};
ghost use Rattle.hll_sketch.specs.Value.{Sketch, IsLgK, in_registers, pairs_of};

use crate::nonzero_registers::nonzero_registers;
use hll_arrays::registers::two_to;
use hll_base::bounds::SLOT_BITS;
use hll_base::error::Error;
use hll_coupons::container::Container;
use hll_coupons::coupon::Coupon;
use hll_coupons::raw_coupons::elements_of_raw_coupons;
use hll_sketch::coupon_room::CouponRoom;
use hll_sketch::header::Header;
use hll_sketch::mode::Mode;
use hll_sketch::raw_coupons::{RawCoupons, compact_coupons, max_coupon};
use hll_sketch::read_image::read_sketch;
use hll_sketch::sketch::HllSketch;
use hll_sketch::updatable::updatable_coupons;
use std::alloc::{Allocator, Global};

/// The coupons of an image of a list or a set.
#[derive(Drop)]
pub struct ImageCoupons<A: Allocator = Global> {
    /// The logarithm of the number of registers, 4 to 21.
    pub lg_k: u8,
    /// The raw coupons, in any order.
    pub raw_coupons: Vec<u32, A>,
}

impl<A: Allocator + Clone> ImageCoupons<A> {
    /// Returns the coupons after the header of an image of a list or a set.
    ///
    /// Fails with the reason of the first check that the image fails, or else with `Memory`. Allocates only once all bytes that
    /// the image needs are there: four bytes for each coupon; and a table, except for at most 128 or ascending coupons in a
    /// compact image and for 1 to 128 in an updatable one.
    // (not inlined: a caller would hold the room for coupons too)
    #[inline(never)]
    pub fn read(alloc: &A, image: &[u8], header: Header) -> Result<ImageCoupons<A>, Error>
        requires has { HasHeader image.now (stage_bits image.now) }
        requires stage { stage_bits image.now < 2 }
        requires header { header ≡ header_of image.now }
        ensures ok { IfOk result (λ c. AreRegistersOf image.now c.lg_k (fold_to (set_of c.raw_coupons.items) c.lg_k)) }
        ensures legal { IfOk result (λ c. IsLgK c.lg_k) }
        ensures err { IfErr result (IsRefusal image.now) }
    {
        let lg_k = header.lg_k;
        if let Some(coupons) = compact_coupons(image, header) {
            let raw_coupons = copied(alloc, &coupons)?;
            return Ok(ImageCoupons { lg_k, raw_coupons });
        }
        let mut room = CouponRoom::new();
        if let Some(coupons) = updatable_coupons(image, header, &mut room) {
            let raw_coupons = copied(alloc, &coupons)?;
            return Ok(ImageCoupons { lg_k, raw_coupons });
        }
        let sketch = read_sketch(alloc, image, header)?;
        let raw_coupons = coupons_of_sketch(alloc, &sketch)?;
        Ok(ImageCoupons {
            lg_k: sketch.lg_config_k(),
            raw_coupons,
        })
    }

    /// Returns the registers that the coupons fold to at an `lg_k`.
    ///
    /// Allocates one byte for each register. Fails with `Memory`.
    pub fn registers(&self, alloc: &A, lg_k: u8) -> Result<Vec<u8, A>, Error>
        requires { IsLgK lg_k }
        ensures ok { IfOk result (λ v. v.items ≡ fold_to (set_of self.now.raw_coupons.items) lg_k) }
        ensures err { IfErr result (λ e. e ≡ Memory) }
    {
        let mut values = vec![in alloc.clone()?; 0; two_to(lg_k)]?;
        max_coupons(&mut values, lg_k, &self.raw_coupons);
        Ok(values)
    }

    /// Returns the registers above 0 that the coupons fold to at an `lg_k`, as `nonzero_registers` does.
    pub fn nonzero_registers(&self, alloc: &A, lg_k: u8) -> Result<Vec<u32, A>, Error>
        requires { IsLgK lg_k }
        ensures ok { IfOk result (λ v. v.items ≡ raw_coupons_from 0 (fold_to (set_of self.now.raw_coupons.items) lg_k)) }
        ensures err { IfErr result (λ e. e ≡ Memory) }
    {
        nonzero_registers(alloc, lg_k, &self.raw_coupons)
    }
}

/// Adds raw coupons to 2^`lg_k` registers of one byte each. None of them has the value 0.
fn max_coupons(registers: &mut [u8], lg_k: u8, raw_coupons: &[u32])
    requires most { lg_k ≤ 21 }
    requires size { length registers.old ≡ 2 ^ lg_k }
    ensures { registers.new ≡ join registers.old (fold_to (set_of raw_coupons.now) lg_k) }
{
    for raw in raw_coupons {
        max_coupon(
            registers,
            lg_k,
            Coupon::pack(*raw, (*raw >> SLOT_BITS) as u8),
        );
    }
}

/// Returns a copy of raw coupons. Fails with `Memory`.
fn copied<A: Allocator + Clone>(alloc: &A, coupons: &RawCoupons<'_>) -> Result<Vec<u32, A>, Error>
    ensures ok { IfOk result (λ v. v.items ≡ raw_coupons coupons.now.count coupons.now.bytes.now) }
    ensures err { IfErr result (λ e. e ≡ Memory) }
{
    let elements = elements_of_raw_coupons(coupons.bytes, coupons.count);
    let mut copy = Vec::with_capacity(alloc.clone()?, elements.len())?;
    for element in elements {
        copy.push(u32::from_le_bytes(*element))?;
    }
    Ok(copy)
}

/// Returns the coupons of a sketch of a list or a set. Fails with `Memory`.
fn coupons_of_sketch<A: Allocator + Clone>(
    alloc: &A,
    sketch: &HllSketch<A>,
) -> Result<Vec<u32, A>, Error>
    requires { in_registers (sketch_of sketch.now).content ≡ false }
    ensures ok { IfOk result (λ v. set_of v.items ≡ pairs_of (sketch_of sketch.now)) }
    ensures err { IfErr result (λ e. e ≡ Memory) }
{
    match sketch.mode() {
        Mode::List { list, .. } => coupons_of_table(alloc, list.container()),
        Mode::Set { set, .. } => coupons_of_table(alloc, set.container()),
        Mode::Array4(_) | Mode::Array6(_) | Mode::Array8(_) => unreachable!(),
    }
}

/// Returns the coupons of a table. Fails with `Memory`.
fn coupons_of_table<A: Allocator + Clone>(
    alloc: &A,
    table: &Container<A>,
) -> Result<Vec<u32, A>, Error>
    ensures ok { IfOk result (λ v. v.items ≡ coupons_in table.now.buckets) }
    ensures err { IfErr result (λ e. e ≡ Memory) }
{
    let mut copy = Vec::with_capacity(alloc.clone()?, table.len())?;
    for coupon in table.iter() {
        copy.push(coupon.raw())?;
    }
    Ok(copy)
}
