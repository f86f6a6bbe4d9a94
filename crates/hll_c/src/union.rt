// SPDX-License-Identifier: Apache-2.0
//! Unions of several images. One or two images of few coupons are merged from bytes to bytes. All others are merged into a state of a
//! counter, which grows as they need it.
ghost use Rattle.std.specs.Prelude.{◌≡◌, ◌≢◌, ℕ, ◌+◌, ◌-◌, ◌^◌, ◌≤◌, nat_le, true, false, List, [], ◌∷◌, length, map, IfSome, IfNone, IfOk, IfErr, OnOk, OnErr};
ghost use Rattle.std.specs.List.{list_all};
ghost use Rattle.hll_base.specs.declared.error.Reason.TheVariants.{Memory};
ghost use Rattle.hll_registers.specs.declared.estimate_state.EstimateState.{EstimateState};
ghost use Rattle.hll_sketch.specs.BorrowedImage.{sketch_of_borrowed};
ghost use Rattle.hll_sketch.specs.EstimatorFields.{FillsFields};
ghost use Rattle.hll_sketch.specs.Merging.{merge, empty_union};
ghost use Rattle.hll_sketch.specs.Refusal.{IsRefusal};
ghost use Rattle.hll_sketch.specs.Value.{Sketch, IsLgK, IsLegal, registers};
ghost use Rattle.hll_state.specs.Merged.{HasRoomToMerge};
ghost use Rattle.hll_state.specs.declared.join.Joined.TheVariants as joins;
ghost use Rattle.hll_c.specs.Answers.{IsImageOf, WithFields, RefusesImages};
ghost use Rattle.hll_c.specs.Batches.{AreEnds, strings};
ghost use Rattle.hll_c.specs.Calls.{bits_of, AreUnionArguments, IsUnionOf, AreBatchArguments, IsUnionOfBatch};
ghost use Rattle.hll_c.specs.Steps.{IsUnionInBytes, AreAllRead, union_so_far, IsMergedInPlace, MergesInto, MergesInAll, IsRefusedAt, FailsToMergeIn};

use crate::arguments::{lg_k_of_number, width_of};
use crate::image::refused_at;
use crate::state::image_of_legal;
use crate::strings::{Ended, Parts, Strings};
use hll_base::bounds::MAX_VALUE;
use hll_base::error::{Error, Reason};
use hll_base::hll_type::HllType;
use hll_images::register_bytes::register_bytes;
use hll_images::{union_of_coupon_images, union_of_one_coupon_image};
use hll_registers::registers::Use;
use hll_sketch::borrowed_image::{BorrowedImage, compact_image};
use hll_sketch::coupon_room::CouponRoom;
use hll_sketch::few_exceptions::few_exceptions;
use hll_state::header::{HEADER_LEN, Header};
use hll_state::join::Joined;
use std::alloc::Global;
use std::marker::Model;

/// The least number of elements that a union gets, so that small unions grow once.
const LEAST_LEN: usize = 256;

/// The most bytes of two images of which the union is made from bytes to bytes, whatever the bound is.
const MOST_IN_LISTS: usize = 64;

/// A union that images are merged into: a state of a counter whose memory grows. Contracts see the bound, the header and the
/// elements after it; `union_so_far` is the sketch that they mean.
///
/// A union is thrown away if an image is rejected, so nothing is said of it then.
#[derive(Drop)]
struct GrowingUnion {
    /// The bound of its `lg_k`.
    lg_max_k: u8,
    /// What the elements hold.
    header: Header,
    /// Coupons or registers.
    elements: Vec<[u8; 4]>,
}

impl Model for GrowingUnion {
    ghost use Rattle.hll_c.specs.Steps.{Union, IsUnder};

    ghost Value = { Union };

    ghost view = { λ u. record { lg_max_k = u.lg_max_k; header = u.header; elements = u.elements.items } };

    ghost invariant = { λ u. IsUnder u.lg_max_k u.header u.elements.items };
}

impl GrowingUnion {
    /// Returns the union of no images, with this bound. Allocates nothing.
    fn new(alloc: Global, lg_max_k: u8) -> GrowingUnion
        requires { IsLgK lg_max_k }
        ensures bound { result.lg_max_k ≡ lg_max_k }
        ensures empty { union_so_far result ≡ empty_union lg_max_k }
    {
        GrowingUnion {
            lg_max_k,
            header: Header::new(lg_max_k),
            elements: Vec::new(alloc),
        }
    }

    /// Merges the image with this number. If it fails a check, `failed` becomes its number.
    fn merge_in(
        &mut self,
        alloc: Global,
        image: &[u8],
        number: usize,
        failed: &mut usize,
    ) -> Result<(), Error>
        ensures ok { OnOk result (MergesInto self.old self.new image.now × (failed.new ≡ failed.old)) }
        ensures err { IfErr result (λ e. IsRefusedAt image.now number failed.old failed.new e) }
    {
        match self.update_with_image(alloc, image) {
            Ok(()) => Ok(()),
            Err(e) => Err(refused_at(e, number, failed)),
        }
    }

    /// Merges an image.
    ///
    /// Fails with the reason of the first check that the bytes fail, or with `Memory`, once the bytes that the image asks for
    /// are there.
    fn update_with_image(&mut self, alloc: Global, image: &[u8]) -> Result<(), Error>
        ensures ok { OnOk result (MergesInto self.old self.new image.now) }
        ensures err { IfErr result (IsRefusal image.now) }
    {
        if self.max_with_image(image)? {
            return Ok(());
        }
        self.update_with_checked(alloc, image)
    }

    /// Merges an image, which is checked first.
    ///
    /// Fails as `update_with_image` does.
    fn update_with_checked(&mut self, alloc: Global, image: &[u8]) -> Result<(), Error>
        ensures ok { OnOk result (MergesInto self.old self.new image.now) }
        ensures err { IfErr result (IsRefusal image.now) }
    {
        if let Some(coupons) = compact_image(image) {
            return self.update(&BorrowedImage::Coupons(coupons));
        }
        // (after the return: room is cleared)
        let mut room = CouponRoom::new();
        let image = BorrowedImage::read(alloc, image, &mut room, Use::Join)?;
        self.update(&image)
    }

    /// Merges an image of 8-bit registers, or of 4-bit registers with few exceptions, if the union has registers at its `lg_k`.
    /// One pass checks 8-bit registers and merges them. Returns whether it did. If it did not, the union is unchanged, and
    /// nothing is said of the image.
    ///
    /// Fails with `Register`, if this is the first check that the image fails. The union is empty then.
    fn max_with_image(&mut self, image: &[u8]) -> Result<bool, Error>
        ensures ok { IfOk result (λ did. did ≡ true → MergesInto self.old self.new image.now) }
        ensures unchanged { IfOk result (λ did. did ≡ false → self.new ≡ self.old) }
        ensures err { IfErr result (IsRefusal image.now) }
    {
        if !self.header.has_registers() {
            return Ok(false);
        }
        let Some(registers) = register_bytes(image) else {
            return Ok(self.max_with_few_exceptions(image));
        };
        match self.max_with_bytes(registers.lg_k, registers.bytes) {
            None => Ok(false),
            Some(greatest) if greatest > MAX_VALUE => Err(Error::new(Reason::Register)),
            Some(_) => Ok(true),
        }
    }

    /// Takes the maximum with 2^`lg_k` bytes, if the union has registers at this `lg_k`. Returns the greatest byte, or `None`
    /// if nothing was done. A byte above 63 leaves an empty union.
    fn max_with_bytes(&mut self, lg_k: u8, bytes: &[u8]) -> Option<u8>
        requires lg_k { IsLgK lg_k }
        requires size { length bytes.now ≡ 2 ^ lg_k }
        ensures merged { IfSome result (λ greatest. greatest ≤ 63 → (y : Sketch) (state : EstimateState) → y.lg_k ≡ lg_k → y.content ≡ registers bytes.now state → IsLegal y
            → union_so_far self.new ≡ merge self.old.lg_max_k (union_so_far self.old) y) }
        ensures bound { self.new.lg_max_k ≡ self.old.lg_max_k }
        ensures greatest { IfSome result (λ greatest. (bound : ℕ) → list_all (λ b. nat_le b bound) bytes.now ≡ nat_le greatest bound) }
        ensures none { IfNone result (self.new ≡ self.old) }
    {
        let greatest = self.header.max_with_bytes(&mut self.elements, lg_k, bytes)?;
        if greatest > MAX_VALUE {
            self.header = Header::new(self.lg_max_k);
        }
        Some(greatest)
    }

    /// Merges an image of 4-bit registers with few exceptions, if the union has registers at its `lg_k`. Returns whether it did.
    /// If it did not, the union is unchanged.
    fn max_with_few_exceptions(&mut self, image: &[u8]) -> bool
        ensures merged { result ≡ true → MergesInto self.old self.new image.now }
        ensures unchanged { result ≡ false → self.new ≡ self.old }
    {
        let Some(few) = few_exceptions(image) else {
            return false;
        };
        self.header
            .max_with_few_exceptions(&mut self.elements, &few)
    }

    /// Merges a sketch. Fails with `Memory`.
    fn update(&mut self, image: &BorrowedImage<'_, Global>) -> Result<(), Error>
        requires { IsLegal (sketch_of_borrowed image.now) }
        ensures ok { OnOk result (union_so_far self.new ≡ merge self.old.lg_max_k (union_so_far self.old) (sketch_of_borrowed image.now)) }
        ensures bound { OnOk result (self.new.lg_max_k ≡ self.old.lg_max_k) }
        ensures err { IfErr result (λ e. e ≡ Memory) }
    {
        if let Joined::NoRoom(len) = self.update_in_place(image) {
            self.grow(len - HEADER_LEN)?;
            self.update_in_place(image);
        }
        Ok(())
    }

    /// Merges a sketch if there is room for it.
    fn update_in_place(&mut self, image: &BorrowedImage<'_, Global>) -> Joined
        requires { IsLegal (sketch_of_borrowed image.now) }
        ensures merged { IsMergedInPlace (sketch_of_borrowed image.now) self.old self.new result }
        ensures bound { self.new.lg_max_k ≡ self.old.lg_max_k }
    {
        self.header.join(&mut self.elements, true, 0, image)
    }

    /// Makes room for at least this number of elements. Fails with `Memory`.
    fn grow(&mut self, len: usize) -> Result<(), Error>
        ensures room { OnOk result (len ≤ length self.new.elements) }
        ensures header { OnOk result (self.new.header ≡ self.old.header) }
        ensures bound { OnOk result (self.new.lg_max_k ≡ self.old.lg_max_k) }
        ensures same { OnOk result (union_so_far self.new ≡ union_so_far self.old) }
        ensures err { IfErr result (λ e. e ≡ Memory) }
    {
        let len = len.max(LEAST_LEN);
        if self.elements.len() < len {
            self.elements.resize(len, [0; 4])?;
        }
        Ok(())
    }

    /// Returns the image of the union at a width, with its estimator fields set if its estimate state is cleared.
    ///
    /// Fails with `Memory`.
    fn into_image(mut self, alloc: Global, hll_type: HllType) -> Result<Vec<u8>, Error>
        ensures ok { IfOk result (λ image. IsImageOf (FillsFields (record (union_so_far self) { width = hll_type })) image.items) }
        ensures err { IfErr result (λ e. e ≡ Memory) }
    {
        self.header.resolve(&mut self.elements);
        image_of_legal(alloc, self.header, &self.elements, hll_type)
    }
}

/// Returns the image of the union of two images.
pub(crate) fn union_of_two(
    alloc: Global,
    lg_max_k: u32,
    width: u32,
    left: &[u8],
    right: &[u8],
    failed: &mut usize,
) -> Result<Vec<u8>, Error>
    ensures ok { IfOk result (λ image. IsImageOf (WithFields (IsUnionOf lg_max_k width (left.now ∷ right.now ∷ []) failed.old failed.new)) image.items) }
    ensures err { IfErr result (λ e. RefusesImages (AreUnionArguments lg_max_k width) (left.now ∷ right.now ∷ []) failed.old failed.new e) }
{
    union_of_parts(alloc, lg_max_k, width, &[left, right], failed)
}

/// Returns the image of the union of images that need not be contiguous.
pub(crate) fn union_of_parts(
    alloc: Global,
    lg_max_k: u32,
    width: u32,
    parts: &[&[u8]],
    failed: &mut usize,
) -> Result<Vec<u8>, Error>
    ensures ok { IfOk result (λ image. IsImageOf (WithFields (IsUnionOf lg_max_k width (map (λ part. part.now) parts.now) failed.old failed.new)) image.items) }
    ensures err { IfErr result (λ e. RefusesImages (AreUnionArguments lg_max_k width) (map (λ part. part.now) parts.now) failed.old failed.new e) }
{
    union_of(alloc, lg_max_k, width, &Parts { parts }, failed)
}

/// Returns the image of the union of the images that are delimited by `ends`.
pub(crate) fn union_of_batch(
    alloc: Global,
    lg_max_k: u32,
    width: u32,
    images: &[u8],
    ends: &[usize],
    failed: &mut usize,
) -> Result<Vec<u8>, Error>
    ensures ok { IfOk result (λ image. IsImageOf (WithFields (IsUnionOfBatch lg_max_k width images.now ends.now failed.old failed.new)) image.items) }
    ensures err { IfErr result (λ e. RefusesImages (AreBatchArguments lg_max_k width (length images.now) ends.now) (strings images.now ends.now) failed.old failed.new e) }
{
    let images = Ended {
        bytes: images,
        ends,
    };
    if !images.are_delimited() {
        return Err(Error::new(Reason::Argument));
    }
    union_of(alloc, lg_max_k, width, &images, failed)
}

/// Returns the image of the union of images at a width, with its estimator fields set if its estimate state is cleared.
fn union_of<S: Strings>(
    alloc: Global,
    lg_max_k: u32,
    width: u32,
    images: &S,
    failed: &mut usize,
) -> Result<Vec<u8>, Error>
    requires { S.Strings.are images.now }
    ensures ok { IfOk result (λ image. IsImageOf (WithFields (IsUnionOf lg_max_k width (S.Strings.strings images.now) failed.old failed.new)) image.items) }
    ensures err { IfErr result (λ e. RefusesImages (AreUnionArguments lg_max_k width) (S.Strings.strings images.now) failed.old failed.new e) }
{
    let lg_max_k = lg_k_of_number(lg_max_k)?;
    let hll_type = width_of(width)?;
    if let Some(image) = union_of_few(alloc, lg_max_k, hll_type, images)? {
        return Ok(image);
    }
    let mut union = GrowingUnion::new(alloc, lg_max_k);
    merge_in_all(&mut union, alloc, images, failed)?;
    union.into_image(alloc, hll_type)
}

/// Returns the image of the union of one or two images of few coupons, which is made from bytes to bytes. Returns `None` for
/// others.
///
/// Fails with `Memory`.
fn union_of_few<S: Strings>(
    alloc: Global,
    lg_max_k: u8,
    hll_type: HllType,
    images: &S,
) -> Result<Option<Vec<u8>>, Error>
    requires are { S.Strings.are images.now }
    requires lg_k { IsLgK lg_max_k }
    ensures some { IfOk result (λ found. IfSome found (λ image. IsUnionInBytes lg_max_k (bits_of hll_type) (S.Strings.strings images.now) image.items)) }
    ensures err { IfErr result (λ e. (e ≡ Memory) × AreAllRead (S.Strings.strings images.now)) }
{
    let count = images.count();
    if count == 1 {
        return union_of_one_coupon_image(alloc, lg_max_k, hll_type, images.string(0));
    }
    if count == 2 && are_small(lg_max_k, images.string(0), images.string(1)) {
        return union_of_coupon_images(
            alloc,
            lg_max_k,
            hll_type,
            images.string(0),
            images.string(1),
        );
    }
    Ok(None)
}

/// Returns whether the coupons of two images of these sizes are few enough for the largest table, if none is in both.
fn are_small(lg_max_k: u8, left: &[u8], right: &[u8]) -> bool
    requires { IsLgK lg_max_k }
{
    let most = MOST_IN_LISTS.max(3 << (lg_max_k - 3));
    left.len() <= most && right.len() <= most - left.len()
}

/// Merges images into a union in turn.
fn merge_in_all<S: Strings>(
    union: &mut GrowingUnion,
    alloc: Global,
    images: &S,
    failed: &mut usize,
) -> Result<(), Error>
    requires { S.Strings.are images.now }
    ensures ok { OnOk result (MergesInAll union.old union.new (S.Strings.strings images.now) × (failed.new ≡ failed.old)) }
    ensures err { IfErr result (λ e. FailsToMergeIn (S.Strings.strings images.now) failed.old failed.new e) }
{
    for number in 0..images.count() {
        union.merge_in(alloc, images.string(number), number, failed)?;
    }
    Ok(())
}
