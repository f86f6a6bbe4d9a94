// SPDX-License-Identifier: Apache-2.0
//! The registers of an image, without a copy if they can be used in its bytes, and whether those of two images agree.
ghost use Rattle.std.specs.Prelude.{◌≡◌, ◌≤◌, ◌<◌, ◌↔◌, ◌^◌, length, min, IsTrue, IfSome, IfNone, IfOk, IfErr, OnErr, Some};
ghost use Rattle.hll_base.specs.declared.error.Reason.TheVariants.{Memory};
ghost use Rattle.hll_coupons.specs.Fold.{fold_to, pairs};
ghost use Rattle.hll_coupons.specs.Pair.{set_of};
ghost use Rattle.hll_images.specs.BorrowedRegisters.{lg_k_of, values_of, width_of, width_in, AreWhole, LieAlike};
ghost use Rattle.hll_sketch.specs.ByteRegisters.{AreRegistersOf};
ghost use Rattle.hll_sketch.specs.Header.{header_of};
ghost use Rattle.hll_sketch.specs.Image.{HasHeader, width_bits, width_of_bits};
ghost use Rattle.hll_sketch.specs.MergedIn.{HasPlainRegisters};
ghost use Rattle.hll_sketch.specs.Refusal.{IsRefusal};
ghost use Rattle.hll_sketch.specs.Value.{IsLgK};

use crate::image_coupons::ImageCoupons;
use hll_arrays::registers::Registers;
use hll_base::error::Error;
use hll_base::hll_type::HllType;
use hll_registers::group_slice::GroupSlice;
use hll_registers::nibble_slice::NibbleSlice;
use hll_registers::register_slice::RegisterSlice;
use hll_registers::registers::Use;
use hll_sketch::header::{Header, Stage};
use hll_sketch::raw_registers::{eight_bit_registers, four_bit_registers, six_bit_registers};
use hll_sketch::register_folds::fold_of_registers;
use std::alloc::{Allocator, Global};

/// The registers of an image: borrowed from its bytes, or those that its coupons fold to at its `lg_k`.
pub enum BorrowedRegisters<'a, A: Allocator = Global> {
    /// 4-bit registers.
    Nibbles(NibbleSlice<'a, A>),
    /// 6-bit registers.
    Groups(GroupSlice<'a>),
    /// 8-bit registers.
    Bytes(RegisterSlice<'a>),
    /// The coupons, of which the registers can be computed.
    OfCoupons(ImageCoupons<A>),
}

/// Written out, not derived: so the proof of a function that drops registers calls this, and doesn't go through their kinds.
impl<'a, A: Allocator> Drop for BorrowedRegisters<'a, A> {
    fn drop(self) {
        match self {
            BorrowedRegisters::Nibbles(registers) => drop(registers),
            BorrowedRegisters::Groups(registers) => drop(registers),
            BorrowedRegisters::Bytes(registers) => drop(registers),
            BorrowedRegisters::OfCoupons(coupons) => drop(coupons),
        }
    }
}

impl<'a, A: Allocator + Clone> BorrowedRegisters<'a, A> {
    /// Returns the registers of an image of any stage and width.
    ///
    /// Fails with the reason of the first check that the image fails, or else with `Memory`. Allocates only once all bytes that
    /// the image needs are there: a map for the exceptions of 4-bit registers, if there are any; and for coupons what
    /// `ImageCoupons::read` does.
    pub fn read(alloc: A, image: &'a [u8]) -> Result<BorrowedRegisters<'a, A>, Error>
        ensures ok { IfOk result (λ r. AreRegistersOf image.now (lg_k_of r) (values_of r)) }
        ensures whole { IfOk result AreWhole }
        ensures width { IfOk result (λ r. width_of r ≡ width_in image.now) }
        ensures err { IfErr result (IsRefusal image.now) }
        ensures plain { IfErr result (λ e. e ≡ Memory → HasPlainRegisters image.now → ⊥) }
    {
        let header = Header::read(image)?;
        match header.stage {
            Stage::List | Stage::Set => {
                let coupons = ImageCoupons::read(&alloc, image, header)?;
                Ok(BorrowedRegisters::OfCoupons(coupons))
            }
            Stage::Hll => lying_registers(&alloc, image, header),
        }
    }

    /// Returns whether the registers agree with others: whether both fold to the same registers at the smaller `lg_k`. Borrowed
    /// registers of the same `lg_k` and width are compared in their images. If both are of coupons, the registers above 0 are
    /// compared. Others are copied by this allocator: two bytes for each register at the smaller `lg_k`.
    ///
    /// Fails with `Memory`, but never if both are borrowed from images and have the same `lg_k` and width.
    pub fn agrees_with(self, alloc: &A, other: BorrowedRegisters<'_, A>) -> Result<bool, Error>
        requires left { AreWhole self }
        requires right { AreWhole other }
        ensures ok { IfOk result (λ same. let e = min (lg_k_of self.entry) (lg_k_of other.entry) in IsTrue same ↔ (fold_to (pairs (values_of self.entry)) e ≡ fold_to (pairs (values_of other.entry)) e)) }
        ensures err { IfErr result (λ e. e ≡ Memory) }
        ensures never { OnErr result (LieAlike self.entry other.entry → ⊥) }
    {
        if let Some(same) = self.is_same_in_place(&other) {
            return Ok(same);
        }
        let lg_k = self.lg_k().min(other.lg_k());
        if let Some(left) = self.coupons()
            && let Some(right) = other.coupons()
        {
            return coupons_agree(alloc, lg_k, left, right);
        }
        let values = self.folded_values(alloc, lg_k)?;
        let others = other.folded_values(alloc, lg_k)?;
        Ok(values.as_slice() == others.as_slice())
    }

    /// Returns the values of the registers, folded to an `lg_k` of at most their own.
    ///
    /// Allocates one byte for each register. Fails with `Memory`.
    pub fn folded_values(&self, alloc: &A, lg_k: u8) -> Result<Vec<u8, A>, Error>
        requires whole { AreWhole self.now }
        requires lg_k { IsLgK lg_k }
        requires within { lg_k ≤ lg_k_of self.now }
        ensures ok { IfOk result (λ values. values.items ≡ fold_to (pairs (values_of self.now)) lg_k) }
        ensures err { IfErr result (λ e. e ≡ Memory) }
    {
        match self {
            BorrowedRegisters::Nibbles(source) => folded_values(alloc, source, lg_k),
            BorrowedRegisters::Groups(source) => folded_values(alloc, source, lg_k),
            BorrowedRegisters::Bytes(source) => folded_values(alloc, source, lg_k),
            BorrowedRegisters::OfCoupons(source) => source.registers(alloc, lg_k),
        }
    }
}

impl<'a, A: Allocator> BorrowedRegisters<'a, A> {
    /// Returns the `lg_k`.
    pub fn lg_k(&self) -> u8
        ensures { result ≡ lg_k_of self.now }
    {
        match self {
            BorrowedRegisters::Nibbles(registers) => registers.lg_k(),
            BorrowedRegisters::Groups(registers) => registers.lg_k(),
            BorrowedRegisters::Bytes(registers) => registers.lg_k(),
            BorrowedRegisters::OfCoupons(coupons) => coupons.lg_k,
        }
    }

    /// Returns the coupons, or `None` for borrowed registers.
    pub fn coupons(&self) -> Option<&ImageCoupons<A>>
        ensures lg_k { IfSome result (λ coupons. coupons.now.lg_k ≡ lg_k_of self.now) }
        ensures values { IfSome result (λ coupons. values_of self.now ≡ fold_to (set_of coupons.now.raw_coupons.items) (lg_k_of self.now)) }
    {
        match self {
            BorrowedRegisters::OfCoupons(coupons) => Some(coupons),
            _ => None,
        }
    }

    /// Returns whether borrowed registers of the same `lg_k` and width are equal. Returns `None` for others.
    fn is_same_in_place(&self, other: &BorrowedRegisters<'_, A>) -> Option<bool>
        ensures some { IfSome result (λ same. (lg_k_of self.now ≡ lg_k_of other.now) × (IsTrue same ↔ (values_of self.now ≡ values_of other.now))) }
        ensures none { IfNone result (LieAlike self.now other.now → ⊥) }
    {
        if self.lg_k() != other.lg_k() {
            return None;
        }
        match (self, other) {
            (BorrowedRegisters::Nibbles(left), BorrowedRegisters::Nibbles(right)) => {
                Some(left.has_same_registers(right))
            }
            (BorrowedRegisters::Groups(left), BorrowedRegisters::Groups(right)) => {
                Some(left.has_same_registers(right))
            }
            (BorrowedRegisters::Bytes(left), BorrowedRegisters::Bytes(right)) => {
                Some(left.has_same_registers(right))
            }
            _ => None,
        }
    }
}

/// Returns the registers after the header of an image, borrowed from its bytes.
///
/// Fails with the reason of the first check that they fail, or else with `Memory`. Allocates a map for the exceptions of 4-bit
/// registers, if there are any.
fn lying_registers<'a, A: Allocator + Clone>(
    alloc: &A,
    image: &'a [u8],
    header: Header,
) -> Result<BorrowedRegisters<'a, A>, Error>
    requires has { HasHeader image.now 2 }
    requires header { header ≡ header_of image.now }
    ensures ok { IfOk result (λ r. AreRegistersOf image.now (lg_k_of r) (values_of r)) }
    ensures whole { IfOk result AreWhole }
    ensures width { IfOk result (λ r. width_of r ≡ Some (width_of_bits (width_bits image.now))) }
    ensures err { IfErr result (IsRefusal image.now) }
    ensures plain { IfErr result (λ e. e ≡ Memory → HasPlainRegisters image.now → ⊥) }
{
    match header.hll_type {
        HllType::Hll4 => {
            let registers = four_bit_registers(alloc, image, header, Use::Join)?;
            // makes known that the registers are legal
            let _lg_k = registers.lg_k();
            Ok(BorrowedRegisters::Nibbles(registers))
        }
        HllType::Hll6 => {
            let registers = six_bit_registers(image, header)?;
            // makes known that the registers are legal
            let _lg_k = registers.lg_k();
            Ok(BorrowedRegisters::Groups(registers))
        }
        HllType::Hll8 => {
            let registers = eight_bit_registers(image, header, Use::Join)?;
            // makes known that the registers are legal
            let _lg_k = registers.lg_k();
            Ok(BorrowedRegisters::Bytes(registers))
        }
    }
}

/// Returns a copy of registers, folded to an `lg_k` of at most their own.
///
/// Fails with `Memory`.
fn folded_values<R: Registers, A: Allocator + Clone>(
    alloc: &A,
    source: &R,
    lg_k: u8,
) -> Result<Vec<u8, A>, Error>
    requires lg_k { IsLgK lg_k }
    requires within { lg_k ≤ (R.stored source.now).lg_k }
    ensures ok { IfOk result (λ values. values.items ≡ fold_to (pairs (R.stored source.now).registers) lg_k) }
    ensures err { IfErr result (λ e. e ≡ Memory) }
{
    Ok(fold_of_registers(alloc.clone()?, lg_k, source)?.into_values())
}

/// Returns whether coupons fold to the same registers at an `lg_k`. Fails with `Memory`.
fn coupons_agree<A: Allocator + Clone>(
    alloc: &A,
    lg_k: u8,
    left: &ImageCoupons<A>,
    right: &ImageCoupons<A>,
) -> Result<bool, Error>
    requires { IsLgK lg_k }
    ensures ok { IfOk result (λ same. IsTrue same ↔ (fold_to (set_of left.now.raw_coupons.items) lg_k ≡ fold_to (set_of right.now.raw_coupons.items) lg_k)) }
    ensures err { IfErr result (λ e. e ≡ Memory) }
{
    let registers = left.nonzero_registers(alloc, lg_k)?;
    let others = right.nonzero_registers(alloc, lg_k)?;
    Ok(registers.as_slice() == others.as_slice())
}
