// SPDX-License-Identifier: Apache-2.0
//! The sketch of an image. Coupons or registers that can be used in the bytes of the image are not copied, and few coupons with
//! gaps between them are copied into room that the caller lends.
ghost use Rattle.std.specs.Prelude.{◌≡◌, ◌<◌, IfSome, IfNone, IfOk, IfErr};
ghost use Rattle.hll_base.specs.declared.error.Reason.TheVariants.{Memory};
ghost use Rattle.hll_coupons.specs.Coupons.{raw_coupons, AreCoupons};
ghost use Rattle.hll_sketch.specs.BorrowedImage.{sketch_of_borrowed, sketch_of_coupons, HasCouponsInTable};
ghost use Rattle.hll_sketch.specs.ByteRegisters.{ReadNeedsMemory};
ghost use Rattle.hll_sketch.specs.Header.{header_of};
ghost use Rattle.hll_sketch.specs.Image.{HasHeader, IsReadAs, stage_bits};
ghost use Rattle.hll_sketch.specs.Layout.{count_in};
ghost use Rattle.hll_sketch.specs.MergedIn.{IsOfCoupons, HasCompactCoupons};
ghost use Rattle.hll_sketch.specs.Refusal.{IsRefusal};
ghost use Rattle.hll_sketch.specs.Value.{is_empty, IsLgK};

use crate::coupon_room::CouponRoom;
use crate::coupons_of_image::CouponsOfImage;
use crate::header::{Header, Stage, says_registers};
use crate::raw_coupons::{RawCoupons, compact_coupons};
use crate::raw_registers::{eight_bit_registers, four_bit_registers, six_bit_registers};
use crate::read_image::read_sketch;
use crate::sketch::HllSketch;
use crate::updatable::updatable_coupons;
use hll_base::error::Error;
use hll_base::hll_type::HllType;
use hll_registers::group_slice::GroupSlice;
use hll_registers::nibble_slice::NibbleSlice;
use hll_registers::register_slice::RegisterSlice;
use hll_registers::registers::{Registers, Use};
use std::alloc::{Allocator, Global};

/// The sketch of an image. Only a table, or a map for the exceptions of 4-bit registers, is allocated for it.
// More methods are in the module totals.
pub enum BorrowedImage<'a, A: Allocator = Global> {
    /// Coupons of a compact image that ascend or are at most 128, or 1 to 128 coupons of an updatable image.
    Coupons(CouponsOfImage<'a>),
    /// Any other list or set of coupons.
    Table(HllSketch<A>),
    /// 4-bit registers.
    Nibbles(NibbleSlice<'a, A>),
    /// 6-bit registers.
    Groups(GroupSlice<'a>),
    /// 8-bit registers.
    Bytes(RegisterSlice<'a>),
}

/// Written out, not derived: so the proof of a function that drops an image calls this, and doesn't go through its kinds.
impl<'a, A: Allocator> Drop for BorrowedImage<'a, A> {
    fn drop(self) {
        match self {
            BorrowedImage::Coupons(_) => {}
            BorrowedImage::Table(sketch) => drop(sketch),
            BorrowedImage::Nibbles(registers) => drop(registers),
            BorrowedImage::Groups(registers) => drop(registers),
            BorrowedImage::Bytes(registers) => drop(registers),
        }
    }
}

impl<'a, A: Allocator + Clone> BorrowedImage<'a, A> {
    /// Reads an image of any stage and width. Bytes after the image are ignored. Up to 128 coupons of an updatable image are
    /// copied into `room`. The pass that checks registers of 8 or 4 bits also counts what a later `Use` needs.
    ///
    /// Fails with the reason of the first check that the image fails, or else with `Memory`. Allocates only once all bytes that
    /// the image needs are there: a table for coupons, except for at most 128 or ascending ones in a compact image and for 1 to
    /// 128 in an updatable one; and a map for the exceptions of 4-bit registers, if there are any.
    pub fn read(
        alloc: A,
        image: &'a [u8],
        room: &'a mut CouponRoom,
        later: Use,
    ) -> Result<BorrowedImage<'a, A>, Error>
        ensures ok { IfOk result (λ r. IsReadAs image.now (sketch_of_borrowed r)) }
        ensures table { IfOk result HasCouponsInTable }
        ensures err { IfErr result (IsRefusal image.now) }
        ensures needed { IfErr result (λ e. e ≡ Memory → ReadNeedsMemory image.now) }
    {
        let header = Header::read(image)?;
        match header.stage {
            Stage::List | Stage::Set => read_coupons(&alloc, image, header, room),
            Stage::Hll => read_registers(&alloc, image, header, later),
        }
    }
}

impl<'a, A: Allocator> BorrowedImage<'a, A> {
    /// Returns whether there are no coupons, or the registers are all 0.
    pub fn is_empty(&self) -> bool
        ensures { result ≡ is_empty (sketch_of_borrowed self.now) }
    {
        match self {
            BorrowedImage::Coupons(coupons) => coupons.elements.len() == 0,
            BorrowedImage::Table(sketch) => sketch.is_empty(),
            BorrowedImage::Nibbles(registers) => registers.are_all_zero(),
            BorrowedImage::Groups(registers) => registers.are_all_zero(),
            BorrowedImage::Bytes(registers) => registers.are_all_zero(),
        }
    }

    /// Returns the logarithm of the number of registers, 4 to 21.
    pub fn lg_k(&self) -> u8
        ensures lg_k { result ≡ (sketch_of_borrowed self.now).lg_k }
        ensures legal { IsLgK result }
    {
        match self {
            BorrowedImage::Coupons(coupons) => coupons.lg_k,
            BorrowedImage::Table(sketch) => sketch.lg_config_k(),
            BorrowedImage::Nibbles(registers) => registers.lg_k(),
            BorrowedImage::Groups(registers) => registers.lg_k(),
            BorrowedImage::Bytes(registers) => registers.lg_k(),
        }
    }

    /// Returns the number of coupons of a list or a set, or `None` for registers.
    pub fn num_coupons(&self) -> Option<usize>
        ensures { result ≡ count_in (sketch_of_borrowed self.now).content }
    {
        match self {
            BorrowedImage::Coupons(coupons) => Some(coupons.elements.len()),
            BorrowedImage::Table(sketch) => sketch.num_coupons(),
            BorrowedImage::Nibbles(_) | BorrowedImage::Groups(_) | BorrowedImage::Bytes(_) => None,
        }
    }

    /// Returns the width of registers.
    pub fn hll_type(&self) -> HllType
        ensures { result ≡ (sketch_of_borrowed self.now).width }
    {
        match self {
            BorrowedImage::Coupons(coupons) => coupons.hll_type,
            BorrowedImage::Table(sketch) => sketch.target_type(),
            BorrowedImage::Nibbles(_) => HllType::Hll4,
            BorrowedImage::Groups(_) => HllType::Hll6,
            BorrowedImage::Bytes(_) => HllType::Hll8,
        }
    }
}

/// Returns the coupons of a compact image if they ascend or are at most 128. Returns `None` for other bytes.
///
/// It needs no room: `BorrowedImage::read` does, and clearing it takes about 10 ns.
pub fn compact_image(image: &[u8]) -> Option<CouponsOfImage<'_>>
    ensures some { IfSome result (λ c. IsReadAs image.now (sketch_of_coupons c)) }
    ensures none { IfNone result (HasCompactCoupons image.now → ⊥) }
{
    if says_registers(image) {
        return None;
    }
    let Ok(header) = Header::read(image) else {
        return None;
    };
    let coupons = compact_coupons(image, header)?;
    Some(coupons_of_image(image, header, coupons))
}

/// Returns the coupons after the header of an image of a list or a set, as `BorrowedImage::read` returns them.
fn read_coupons<'a, A: Allocator + Clone>(
    alloc: &A,
    image: &'a [u8],
    header: Header,
    room: &'a mut CouponRoom,
) -> Result<BorrowedImage<'a, A>, Error>
    requires has { HasHeader image.now (stage_bits image.now) }
    requires stage { stage_bits image.now < 2 }
    requires header { header ≡ header_of image.now }
    ensures ok { IfOk result (λ r. IsReadAs image.now (sketch_of_borrowed r)) }
    ensures table { IfOk result HasCouponsInTable }
    ensures err { IfErr result (IsRefusal image.now) }
    ensures needed { IfErr result (λ e. e ≡ Memory → ReadNeedsMemory image.now) }
{
    if let Some(coupons) = compact_coupons(image, header) {
        let coupons = coupons_of_image(image, header, coupons);
        return Ok(BorrowedImage::Coupons(coupons));
    }
    if let Some(coupons) = updatable_coupons(image, header, room) {
        let coupons = coupons_of_image(image, header, coupons);
        return Ok(BorrowedImage::Coupons(coupons));
    }
    let sketch = read_sketch(alloc, image, header)?;
    Ok(BorrowedImage::Table(sketch))
}

/// Returns the coupons of an image, with what its header says.
fn coupons_of_image<'a>(
    image: &'a [u8],
    header: Header,
    coupons: RawCoupons<'a>,
) -> CouponsOfImage<'a>
    requires header { header ≡ header_of image.now }
    requires of { IsOfCoupons image.now (raw_coupons coupons.count coupons.bytes.now) }
    requires are { AreCoupons (raw_coupons coupons.count coupons.bytes.now) }
    ensures { IsReadAs image.now (sketch_of_coupons result) }
{
    CouponsOfImage {
        lg_k: header.lg_k,
        hll_type: header.hll_type,
        lg_size: header.lg_arr,
        elements: coupons.elements(),
    }
}

/// Returns the registers after the header of an image, as `BorrowedImage::read` returns them.
fn read_registers<'a, A: Allocator + Clone>(
    alloc: &A,
    image: &'a [u8],
    header: Header,
    later: Use,
) -> Result<BorrowedImage<'a, A>, Error>
    requires has { HasHeader image.now 2 }
    requires header { header ≡ header_of image.now }
    ensures ok { IfOk result (λ r. IsReadAs image.now (sketch_of_borrowed r)) }
    ensures table { IfOk result HasCouponsInTable }
    ensures err { IfErr result (IsRefusal image.now) }
    ensures needed { IfErr result (λ e. e ≡ Memory → ReadNeedsMemory image.now) }
{
    match header.hll_type {
        HllType::Hll4 => {
            let registers = four_bit_registers(alloc, image, header, later)?;
            Ok(BorrowedImage::Nibbles(registers))
        }
        HllType::Hll6 => {
            let registers = six_bit_registers(image, header)?;
            Ok(BorrowedImage::Groups(registers))
        }
        HllType::Hll8 => {
            let registers = eight_bit_registers(image, header, later)?;
            Ok(BorrowedImage::Bytes(registers))
        }
    }
}
