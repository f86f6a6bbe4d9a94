// SPDX-License-Identifier: Apache-2.0
//! The library for C: calls over images, caller-owned registers and states. It keeps nothing between calls. bindings/c/hll.h
//! says what each call does and what its caller must ensure; docs/MODEL.md, "Calls over images", says what the contracts say.
//!
//! Each call but `hll_coupon` returns 0, the number of a reason (docs/FORMAT.md, "Reasons"), 14 if a buffer is too small, 15 if
//! the sketch to be merged has fewer registers than the caller, or 16 if sketches to be merged have different `lg_k` and no
//! bound was given. With 14, `size` is the size needed; with 15, `coarser` is the other `lg_k`. On every code but 0 everything
//! else is unchanged, with two exceptions: `failed` is then the number of the image that failed a check, counted from 0, and
//! the bytes of a state may change, but not its sketch.
//!
//! An `lg_k` is 4 to 21, a width 4, 6 or 8 bits. An argument out of range is `Argument`, before any image is read, except for a
//! fold above the image's `lg_k`. A register image whose estimate state is cleared is written with its estimator fields set;
//! any other estimate state that was read from an image is kept. A call allocates with `malloc`, for the sketches of its images
//! and for its result, and frees all of it before it returns. If an allocation fails, the reason is `Memory`.
#![tactic(auto)]

ghost use Rattle.std.specs.Prelude.{◌≡◌, ◌≤◌, ◌∷◌, [], ℕ, false, length, map};
ghost use Rattle.hll_coupons.specs.Hashed.{coupon_of_bytes};
ghost use Rattle.hll_sketch.specs.EstimatorFields.{SetsFields};
ghost use Rattle.hll_sketch.specs.Image.{IsReadAs, IsSizeOfImage};
ghost use Rattle.hll_sketch.specs.Value.{Sketch, IsLgK};
ghost use Rattle.hll_c.specs.Answers.{Answers, IsImageOf, PutsBytes, Reports, Tests, RefusesArguments, RefusesImage, RefusesInfo, RefusesInPlace, RefusesTested, RefusesImages, RefusesAgreement};
ghost use Rattle.hll_c.specs.Batches.{AreEnds, strings, AreOfLength, strings_of_length, AreOffsets, strings_between};
ghost use Rattle.hll_c.specs.ByteRegisters.{HaveValues, MergesImageInto, MergesRegistersInto, AddsCoupons, FoldsInPlace, RefusesRegisters, SaysCounts, IsOfBytes, RefusesBytes};
ghost use Rattle.hll_c.specs.Calls.{AreNewArguments, IsEmptyAt, IsMadeOf, IsFoldOf, RefusesFold, AsksWidth, AsksOwnWidth, IsWidth, IsAtWidth, IsCleared, AreOfCoupon, HasCoupon, HasValues, AreUnionArguments, IsUnionOf, AreBatchArguments, IsUnionOfBatch, SaysAgreement, PutsCoupons};
ghost use Rattle.hll_c.specs.Estimates.{SaysEstimate, SaysEstimateOfBytes, SaysEstimateOfCounts, RefusesCounts};
ghost use Rattle.hll_c.specs.Head.{SaysHead, RefusesHead};
ghost use Rattle.hll_c.specs.Info.{SaysInfo, SaysHistogram};
ghost use Rattle.hll_c.specs.StateInfo.{SaysStateInfo, RefusesStateInfo};
ghost use Rattle.hll_c.specs.States.{MakesState, TakesValues, AddsToState, IsOfState, SaysEstimateOfState, RefusesEstimateOfState, RefusesEstimateOfSettled, RefusesState, JoinsImage, JoinsState};
ghost use Rattle.hll_state.specs.Memory.{OfState, IsOnlyRead, IsSettled, GrowsBy, is_open};
ghost use Rattle.hll_state.specs.Whole.{IsWhole, LeavesWhole};
ghost use Rattle.hll_c.specs.Unions.{IsStateOfUnion, ExtendsUnionByImage, ExtendsUnionByState};
ghost use Rattle.hll_c.specs.declared.estimate.HllEstimate.{HllEstimate};
ghost use Rattle.hll_c.specs.declared.head.HllHead.{HllHead};
ghost use Rattle.hll_c.specs.declared.info.HllInfo.{HllInfo};
ghost use Rattle.hll_c.specs.declared.info.HllHistogram.{HllHistogram};
ghost use Rattle.hll_c.specs.declared.state_info.HllStateInfo.{HllStateInfo};

mod answer;
mod arguments;
mod byte_registers;
mod coupons;
mod estimate;
mod head;
mod image;
mod info;
mod join;
mod state;
mod state_info;
mod strings;
mod union;

use crate::answer::{code_of, put_bytes, put_bytes_or_parts, put_image, report};
use crate::coupons::{CouponSlice, CouponsOf, put_coupons};
use crate::estimate::HllEstimate;
use crate::head::HllHead;
use crate::info::{HllHistogram, HllInfo};
use crate::state_info::HllStateInfo;
use crate::strings::{Between, Ended, OfLength};
use hll_coupons::coupon::Coupon;
use std::alloc::Global;

/// Writes what the header of an image and the counts after it say into `head`: its `lg_k`, width, stage, flags, count and size, or
/// which check of them fails. Reads at most the first 40 bytes: 8 of a list, 12 of a set. The bytes after these need not be there,
/// and are not checked. `size` is the size of the caller's structure in bytes.
///
/// Returns `Argument` if `size` is not 24.
#[unsafe(no_mangle)]
pub extern "C" fn hll_image_head(image: &[u8], head: &mut HllHead, size: usize) -> u8
    ensures { Reports HllHead (SaysHead image.now) (RefusesHead (size ≡ 24)) head.old head.new result }
{
    report(head::head_of(image, size), head)
}

/// Writes what an image says into `info`: its `lg_k`, width and stage, the number of its coupons, or the sums and estimator
/// fields of its registers. `size` is the size of the caller's structure in bytes.
///
/// Returns `Argument` if `size` is not 64, the reason of the first check that the bytes fail, or `Memory`. Allocates as
/// `hll_image_check` does.
#[unsafe(no_mangle)]
pub extern "C" fn hll_image_info(alloc: Global, image: &[u8], info: &mut HllInfo, size: usize) -> u8
    ensures { Reports HllInfo (SaysInfo image.now) (RefusesInfo (size ≡ 64) image.now) info.old info.new result }
{
    report(info::info_of(alloc, image, size), info)
}

/// Writes the estimate of an image into `estimate`. For registers it is the bits of the nearest binary64 number, with the
/// number of registers and how many of them are above 0. For coupons it is their number.
///
/// Returns the reason of the first check that the bytes fail, or `Memory`. Allocates as `hll_image_info` does.
#[unsafe(no_mangle)]
pub extern "C" fn hll_estimate(alloc: Global, image: &[u8], estimate: &mut HllEstimate) -> u8
    ensures { Reports HllEstimate (SaysEstimate image.now) (RefusesInfo (Unit {0}) image.now) estimate.old estimate.new result }
{
    report(estimate::estimate_of_image(alloc, image), estimate)
}

/// Checks whether the bytes begin with an image.
///
/// Returns the reason of the first check that they fail (docs/FORMAT.md, "Order of checks"), or `Memory`. Allocates a table for
/// coupons, except for at most 128 or ascending ones in a compact image and for 1 to 128 in an updatable one. May allocate a map
/// for the exceptions of 4-bit registers, if there are any.
#[unsafe(no_mangle)]
pub extern "C" fn hll_image_check(alloc: Global, image: &[u8]) -> u8
    ensures { Tests ((x : Sketch) × IsReadAs image.now x) (RefusesTested image.now) result }
{
    code_of(image::check(alloc, image))
}

/// Writes the size in bytes of the image that the bytes begin with into `size`.
///
/// Returns the reason of the first check that the bytes fail, or `Memory`. Allocates as `hll_image_check` does.
#[unsafe(no_mangle)]
pub extern "C" fn hll_image_size(alloc: Global, image: &[u8], size: &mut usize) -> u8
    ensures { Reports ℕ (IsSizeOfImage image.now) (RefusesTested image.now) size.old size.new result }
{
    report(image::size(alloc, image), size)
}

/// Counts the registers of an image with each value from 0 to 63, at the image's `lg_k`. Coupons count as the registers that
/// they fold to.
///
/// Returns the reason of the first check that the bytes fail, or `Memory`. Allocates one byte for each register, and a map for the
/// exceptions of 4-bit registers; or twelve bytes for each coupon, and a table, except for at most 128 or ascending coupons in a
/// compact image and for 1 to 128 in an updatable one.
#[unsafe(no_mangle)]
pub extern "C" fn hll_image_histogram(
    alloc: Global,
    image: &[u8],
    histogram: &mut HllHistogram,
) -> u8
    ensures { Reports HllHistogram (SaysHistogram image.now) (RefusesImage image.now) histogram.old histogram.new result }
{
    report(info::histogram_of(alloc, image), histogram)
}

/// Writes the image of an empty sketch into `out`. `width` is the width that its registers will have.
///
/// Returns `Argument` if `lg_k` or `width` is out of range, or `Memory`.
#[unsafe(no_mangle)]
pub extern "C" fn hll_image_new(
    alloc: Global,
    lg_k: u32,
    width: u32,
    out: &mut [u8],
    size: &mut usize,
) -> u8
    ensures { Answers (IsEmptyAt lg_k width) (RefusesArguments (AreNewArguments lg_k width)) out.old out.new size.old size.new result }
{
    put_image(image::empty(alloc, lg_k, width), out, size)
}

/// Writes the image with more values into `out`: byte strings that are concatenated in `values` and delimited by `ends`. The
/// empty string is a value like any other.
///
/// Returns `Argument` if ends descend or an end is after the last byte of `values`, the reason of the first check that the
/// image fails, or `Memory`. Allocates its sketch and the written image; nothing if an image of 8-bit or 6-bit registers gets
/// one value, or up to 16 that change no register. An image of 4-bit registers that this library wrote then needs at most a map
/// for its exceptions, if there are at most 128, unless the value becomes an exception or raises the last register at the minimum.
#[unsafe(no_mangle)]
pub extern "C" fn hll_image_add(
    alloc: Global,
    image: &[u8],
    values: &[u8],
    ends: &[usize],
    out: &mut [u8],
    size: &mut usize,
) -> u8
    ensures { Answers (IsMadeOf image.now (HasValues (AreEnds (length values.now) ends.now) (strings values.now ends.now))) (RefusesInPlace (AreEnds (length values.now) ends.now) (length ends.now ≤ 1) image.now) out.old out.new size.old size.new result }
{
    let strings = Ended {
        bytes: values,
        ends,
    };
    put_bytes_or_parts(image::with_values(alloc, image, &strings), out, size)
}

/// Writes the image with one more coupon into `out`: a slot below 2^26, and a value from 1 to 63.
///
/// Returns `Argument` if the slot or the value is out of range, the reason of the first check that the image fails, or
/// `Memory`. Allocates its sketch and the written image; nothing for an image of 8-bit or 6-bit registers. An image of 4-bit
/// registers that this library wrote needs at most a map for its exceptions, if there are at most 128, unless the coupon becomes
/// an exception or raises the last register at the minimum.
#[unsafe(no_mangle)]
pub extern "C" fn hll_image_add_coupon(
    alloc: Global,
    image: &[u8],
    slot: u32,
    value: u32,
    out: &mut [u8],
    size: &mut usize,
) -> u8
    ensures { Answers (IsMadeOf image.now (HasCoupon slot value)) (RefusesInPlace (AreOfCoupon slot value) (Unit {0}) image.now) out.old out.new size.old size.new result }
{
    put_bytes_or_parts(image::with_coupon(alloc, image, slot, value), out, size)
}

/// Writes the image of the union of two images into `out`, at a width. `lg_max_k` is the bound of its `lg_k`.
///
/// Returns `Argument` if `lg_max_k` or `width` is out of range (a width of 0 is out of range here and in the unions below), the
/// reason of the first check that the first faulty image fails, with the number of that image in `failed`, or `Memory`.
/// Allocates what reading one of them at a time takes, the union and the written image.
#[unsafe(no_mangle)]
pub extern "C" fn hll_image_merge(
    alloc: Global,
    lg_max_k: u32,
    width: u32,
    left: &[u8],
    right: &[u8],
    out: &mut [u8],
    size: &mut usize,
    failed: &mut usize,
) -> u8
    ensures { Answers (IsUnionOf lg_max_k width (left.now ∷ right.now ∷ []) failed.old failed.new) (RefusesImages (AreUnionArguments lg_max_k width) (left.now ∷ right.now ∷ []) failed.old failed.new) out.old out.new size.old size.new result }
{
    put_bytes(
        union::union_of_two(alloc, lg_max_k, width, left, right, failed),
        out,
        size,
    )
}

/// Writes the image of the union of any number of images into `out`, at a width. The images are concatenated in `images` and
/// delimited by `ends`. `lg_max_k` is the bound of the union's `lg_k`. The union of no images is the empty sketch.
///
/// Returns what `hll_image_merge` does, and `Argument` also if ends descend or an end is after the last byte of `images`.
/// Allocates what reading one image at a time takes, the union and the written image.
#[unsafe(no_mangle)]
pub extern "C" fn hll_images_union(
    alloc: Global,
    lg_max_k: u32,
    width: u32,
    images: &[u8],
    ends: &[usize],
    out: &mut [u8],
    size: &mut usize,
    failed: &mut usize,
) -> u8
    ensures { Answers (IsUnionOfBatch lg_max_k width images.now ends.now failed.old failed.new) (RefusesImages (AreBatchArguments lg_max_k width (length images.now) ends.now) (strings images.now ends.now) failed.old failed.new) out.old out.new size.old size.new result }
{
    put_bytes(
        union::union_of_batch(alloc, lg_max_k, width, images, ends, failed),
        out,
        size,
    )
}

/// Writes the image of the union of any number of images into `out`, at a width. The images need not be contiguous. `lg_max_k`
/// is the bound of the union's `lg_k`. The union of no images is the empty sketch.
///
/// Returns what `hll_image_merge` does, and allocates what `hll_images_union` does.
#[unsafe(no_mangle)]
pub extern "C" fn hll_images_unionv(
    alloc: Global,
    lg_max_k: u32,
    width: u32,
    parts: &[&[u8]],
    out: &mut [u8],
    size: &mut usize,
    failed: &mut usize,
) -> u8
    ensures { Answers (IsUnionOf lg_max_k width (map (λ part. part.now) parts.now) failed.old failed.new) (RefusesImages (AreUnionArguments lg_max_k width) (map (λ part. part.now) parts.now) failed.old failed.new) out.old out.new size.old size.new result }
{
    put_bytes(
        union::union_of_parts(alloc, lg_max_k, width, parts, failed),
        out,
        size,
    )
}

/// Writes the image folded to an `lg_k` from 4 to its own into `out` (docs/MODEL.md, "Folding").
///
/// Returns `Argument` if `lg_k` is out of that range, the reason of the first check that the image fails, or `Memory`.
/// Allocates the folded registers and the written image; for registers, and for coupons that need a table to be read
/// (`hll_image_histogram`), also the sketch.
#[unsafe(no_mangle)]
pub extern "C" fn hll_image_fold(
    alloc: Global,
    image: &[u8],
    lg_k: u32,
    out: &mut [u8],
    size: &mut usize,
) -> u8
    ensures { Answers (IsMadeOf image.now (IsFoldOf lg_k)) (RefusesFold lg_k image.now) out.old out.new size.old size.new result }
{
    put_bytes(image::folded(alloc, image, lg_k), out, size)
}

/// Writes the image at another width into `out`, and keeps the estimate state of its registers. A width of 0 is the image's
/// own.
///
/// Returns `Argument` if `width` is not 0, 4, 6 or 8, the reason of the first check that the image fails, or `Memory`.
/// Allocates its sketch, for another width also a sketch of that width, and the written image; nothing for an image of 8-bit or
/// 6-bit registers at its own width, and at most a map of exceptions for one of 4-bit registers that this library wrote, if there
/// are at most 128.
#[unsafe(no_mangle)]
pub extern "C" fn hll_image_convert(
    alloc: Global,
    image: &[u8],
    width: u32,
    out: &mut [u8],
    size: &mut usize,
) -> u8
    ensures { Answers (IsMadeOf image.now (IsAtWidth width)) (RefusesInPlace (AsksWidth width) (AsksOwnWidth width image.now) image.now) out.old out.new size.old size.new result }
{
    put_bytes_or_parts(image::converted(alloc, image, width), out, size)
}

/// Writes the image with its estimator fields set into `out` (docs/FORMAT.md, "Estimator fields"). The sketch of a list or a
/// set is unchanged.
///
/// Returns the reason of the first check that the image fails, or `Memory`. Allocates its sketch and the written image.
#[unsafe(no_mangle)]
pub extern "C" fn hll_image_set_estimator_fields(
    alloc: Global,
    image: &[u8],
    out: &mut [u8],
    size: &mut usize,
) -> u8
    ensures { Answers (IsMadeOf image.now SetsFields) (RefusesImage image.now) out.old out.new size.old size.new result }
{
    put_bytes(image::with_estimator_fields(alloc, image), out, size)
}

/// Writes the image with its estimate state cleared into `out`: with estimator fields of 0 and the out-of-order flag. The
/// sketch of a list or a set is unchanged.
///
/// Returns the reason of the first check that the image fails, or `Memory`. Allocates its sketch and the written image.
#[unsafe(no_mangle)]
pub extern "C" fn hll_image_clear_estimator_fields(
    alloc: Global,
    image: &[u8],
    out: &mut [u8],
    size: &mut usize,
) -> u8
    ensures { PutsBytes (IsImageOf (IsMadeOf image.now IsCleared)) (RefusesImage image.now) out.old out.new size.old size.new result }
{
    put_bytes(image::without_estimator_fields(alloc, image), out, size)
}

/// Compares the registers of two images, once both are folded to the smaller `lg_k`: `same` is 1 if they are equal, else 0.
///
/// Returns the reason of the first check that the first faulty image fails, with the number of that image in `failed`, or
/// `Memory`. Coupons of both images are compared by the registers above 0 that they fold to, and allocate what
/// `hll_image_histogram` does. Registers of the same `lg_k` and width are compared in the images themselves: with 6 and 8 bits
/// nothing is allocated, with 4 bits a map for the exceptions of each image. For other pairs one byte is allocated for each
/// register at the smaller `lg_k`, for each image.
#[unsafe(no_mangle)]
pub extern "C" fn hll_images_agree(
    alloc: Global,
    left: &[u8],
    right: &[u8],
    same: &mut u8,
    failed: &mut usize,
) -> u8
    ensures { Reports ℕ (SaysAgreement left.now right.now failed.old failed.new) (RefusesAgreement left.now right.now failed.old failed.new) same.old same.new result }
{
    report(image::agree(alloc, left, right, failed), same)
}

/// Adds values to caller-owned registers: byte strings that are concatenated in `values` and delimited by `ends`.
///
/// Returns `Argument` if ends descend or an end is after the last byte of `values`, or if the number of registers is not
/// 2^`lg_k`. Allocates nothing.
#[unsafe(no_mangle)]
pub extern "C" fn hll_registers_add(registers: &mut [u8], values: &[u8], ends: &[usize]) -> u8
    ensures { AddsCoupons (AreEnds (length values.now) ends.now) (map coupon_of_bytes (strings values.now ends.now)) registers.old registers.new result }
{
    let strings = &Ended {
        bytes: values,
        ends,
    };
    byte_registers::add(registers, &CouponsOf { strings })
}

/// Adds values of `value_len` bytes each, concatenated in `values`, to caller-owned registers.
///
/// Returns `Argument` if `value_len` is 0 or does not divide the number of bytes, or if the number of registers is not
/// 2^`lg_k`. Allocates nothing.
#[unsafe(no_mangle)]
pub extern "C" fn hll_registers_add_fixed(
    registers: &mut [u8],
    values: &[u8],
    value_len: usize,
) -> u8
    ensures { AddsCoupons (AreOfLength (length values.now) value_len) (map coupon_of_bytes (strings_of_length value_len values.now)) registers.old registers.new result }
{
    let strings = &OfLength {
        bytes: values,
        len: value_len,
    };
    byte_registers::add(registers, &CouponsOf { strings })
}

/// Adds raw coupons to caller-owned registers.
///
/// Returns `Argument` if a coupon has the value 0, or if the number of registers is not 2^`lg_k`.
#[unsafe(no_mangle)]
pub extern "C" fn hll_registers_add_coupons(registers: &mut [u8], coupons: &[u32]) -> u8
    ensures { AddsCoupons (HaveValues coupons.now) coupons.now registers.old registers.new result }
{
    let coupons = CouponSlice {
        raw_coupons: coupons,
    };
    byte_registers::add(registers, &coupons)
}

/// Merges an image of any stage and width into caller-owned registers. If the image has more registers, they are folded.
///
/// Returns 15, and sets `coarser` to the image's `lg_k`, if the image has registers that are not all 0, and fewer of them
/// than the caller. Returns `Argument` if the number of the caller's registers is not 2^`lg_k`, the reason of the first check
/// that the image fails, or `Memory`. Allocates a map for the exceptions of 4-bit registers, and a table for coupons, except
/// for at most 128 or ascending ones in a compact image and for 1 to 128 in an updatable one.
#[unsafe(no_mangle)]
pub extern "C" fn hll_registers_merge(
    alloc: Global,
    registers: &mut [u8],
    image: &[u8],
    coarser: &mut u8,
) -> u8
    ensures { MergesImageInto image.now registers.old registers.new coarser.old coarser.new result }
{
    byte_registers::merge(alloc, registers, image, coarser)
}

/// Merges other registers into caller-owned registers. If the others are more, they are folded.
///
/// Returns 15, and sets `coarser` to the `lg_k` of the others, if the others are fewer and not all 0. Returns `Argument` if the
/// number of registers or of the others is not 2^`lg_k`, or `Register` if one of the others is above 63.
#[unsafe(no_mangle)]
pub extern "C" fn hll_registers_merge_registers(
    registers: &mut [u8],
    others: &[u8],
    coarser: &mut u8,
) -> u8
    ensures { MergesRegistersInto others.now registers.old registers.new coarser.old coarser.new result }
{
    byte_registers::merge_others(registers, others, coarser)
}

/// Folds caller-owned registers to an `lg_k` from 4 to their own. The result is the first 2^`to` bytes; the bytes after these
/// are unchanged.
///
/// Returns `Argument` if `to` is out of that range or the number of registers is not 2^`lg_k`, or `Register` if a register is
/// above 63. Allocates nothing.
#[unsafe(no_mangle)]
pub extern "C" fn hll_registers_fold(registers: &mut [u8], to: u32) -> u8
    ensures { FoldsInPlace to registers.old registers.new result }
{
    byte_registers::fold(registers, to)
}

/// Writes the estimate of caller-owned registers into `estimate`, as `hll_estimate` does for the registers of an image.
///
/// Returns `Argument` if the number of registers is not 2^`lg_k`, or `Register` if a register is above 63. Allocates nothing.
#[unsafe(no_mangle)]
pub extern "C" fn hll_registers_estimate(registers: &[u8], estimate: &mut HllEstimate) -> u8
    ensures { Reports HllEstimate (SaysEstimateOfBytes registers.now) (RefusesRegisters registers.now) estimate.old estimate.new result }
{
    report(estimate::estimate_of_bytes(registers), estimate)
}

/// Writes the estimate of registers into `estimate`, as `hll_estimate` does for an image. `histogram` has the number of
/// registers with each value from 0 to 63.
///
/// Returns `Argument` if the sum of the counts is not a power of two from 2^4 to 2^21. Allocates nothing.
#[unsafe(no_mangle)]
pub extern "C" fn hll_histogram_estimate(histogram: &HllHistogram, estimate: &mut HllEstimate) -> u8
    ensures { Reports HllEstimate (SaysEstimateOfCounts histogram.now.counts) (RefusesCounts histogram.now.counts) estimate.old estimate.new result }
{
    report(estimate::estimate_of_counts(histogram), estimate)
}

/// Counts the caller-owned registers with each value from 0 to 63.
///
/// Returns `Argument` if the number of registers is not 2^`lg_k`, or `Register` if a register is above 63.
#[unsafe(no_mangle)]
pub extern "C" fn hll_registers_histogram(registers: &[u8], histogram: &mut HllHistogram) -> u8
    ensures { Reports HllHistogram (SaysCounts registers.now) (RefusesRegisters registers.now) histogram.old histogram.new result }
{
    report(byte_registers::histogram(registers), histogram)
}

/// Writes the image of caller-owned registers into `out`, at a width, with its estimator fields set.
///
/// Returns `Argument` if `width` is not 4, 6 or 8 or the number of registers is not 2^`lg_k`, `Register` if a register is above
/// 63, or `Memory`. Allocates a copy of the registers, for 4 and 6 bits also the packed registers, and the written image.
#[unsafe(no_mangle)]
pub extern "C" fn hll_registers_image(
    alloc: Global,
    registers: &[u8],
    width: u32,
    out: &mut [u8],
    size: &mut usize,
) -> u8
    ensures { Answers (IsOfBytes width registers.now) (RefusesBytes width registers.now) out.old out.new size.old size.new result }
{
    put_image(byte_registers::sketch(alloc, registers, width), out, size)
}

/// Returns the raw coupon of a value: value * 2^26 + slot (docs/FORMAT.md, "Coupons").
#[unsafe(no_mangle)]
pub extern "C" fn hll_coupon(value: &[u8]) -> u32
    ensures { result ≡ coupon_of_bytes value.now }
{
    Coupon::from_bytes(value).raw()
}

/// Writes the raw coupons of values into the first elements of `coupons`. The values are byte strings that are concatenated in
/// `values` and delimited by `ends`.
///
/// Returns `Argument` if ends descend or an end is after the last byte of `values`, or 14 if there are more values than
/// `coupons` has elements.
#[unsafe(no_mangle)]
pub extern "C" fn hll_coupons(values: &[u8], ends: &[usize], coupons: &mut [u32]) -> u8
    ensures { PutsCoupons (AreEnds (length values.now) ends.now) (map coupon_of_bytes (strings values.now ends.now)) coupons.old coupons.new result }
{
    let strings = &Ended {
        bytes: values,
        ends,
    };
    put_coupons(&CouponsOf { strings }, coupons)
}

/// Writes the raw coupons of values of `value_len` bytes each, concatenated in `values`, into the first elements of `coupons`.
///
/// Returns `Argument` if `value_len` is 0 or does not divide the number of bytes, or 14 if there are more values than `coupons`
/// has elements. Allocates nothing.
#[unsafe(no_mangle)]
pub extern "C" fn hll_coupons_fixed(values: &[u8], value_len: usize, coupons: &mut [u32]) -> u8
    ensures { PutsCoupons (AreOfLength (length values.now) value_len) (map coupon_of_bytes (strings_of_length value_len values.now)) coupons.old coupons.new result }
{
    let strings = &OfLength {
        bytes: values,
        len: value_len,
    };
    put_coupons(&CouponsOf { strings }, coupons)
}

/// Writes the raw coupons of the byte strings in `values` between one offset and the next into the first elements of `coupons`.
///
/// The offsets are signed 32-bit numbers, passed as unsigned ones, so a negative offset is above 2^31 - 1.
///
/// Returns `Argument` if there is no offset, or if an offset descends, is negative or is after the last byte of `values`.
/// Returns 14 if there are more values than `coupons` has elements. Allocates nothing.
#[unsafe(no_mangle)]
pub extern "C" fn hll_coupons_ends32(values: &[u8], offsets: &[u32], coupons: &mut [u32]) -> u8
    ensures { PutsCoupons (AreOffsets (length values.now) offsets.now) (map coupon_of_bytes (strings_between offsets.now values.now)) coupons.old coupons.new result }
{
    let strings = &Between {
        bytes: values,
        offsets,
    };
    put_coupons(&CouponsOf { strings }, coupons)
}

/// Makes the state of an empty sketch. A state is a slice of elements of four bytes each.
///
/// If `lg_k` is 0, the `lg_k` of the state is open: the first sketch that is merged and isn't empty decides it, or the first
/// bound. Until then no value can be added, and it is 4, or the greatest of the empty sketches that were merged.
///
/// Returns `Argument` if `lg_k` is out of range, or 14 if there are fewer than ten elements. Allocates nothing.
#[unsafe(no_mangle)]
pub extern "C" fn hll_state_new(lg_k: u32, state: &mut [[u8; 4]]) -> u8
    ensures made { MakesState lg_k state.old state.new result }
    ensures left { result ≡ 0 → OfState state.new IsWhole }
    ensures union { result ≡ 0 → IsLgK lg_k → IsStateOfUnion lg_k [] state.new }
{
    state::new(lg_k, state)
}

/// Adds values to a state: byte strings that are concatenated in `values` and delimited by `ends`.
///
/// Returns 14 if there is not enough room for them, and sets `size` to a number of bytes that is enough. Returns `Argument` if
/// ends descend, an end is after the last byte of `values`, the elements are not a state, or its `lg_k` is open. On these codes the sketch of the
/// state is unchanged. Allocates nothing.
#[unsafe(no_mangle)]
pub extern "C" fn hll_state_add(
    state: &mut [[u8; 4]],
    size: &mut usize,
    values: &[u8],
    ends: &[usize],
) -> u8
    ensures added { AddsToState (AreEnds (length values.now) ends.now × TakesValues state.old) (map coupon_of_bytes (strings values.now ends.now)) state.old state.new size.old size.new result }
    ensures grows { GrowsBy (length ends.now) state.old state.new }
    ensures lg_k_open { is_open state.new ≡ is_open state.old }
    ensures left { LeavesWhole state.old state.new }
{
    let strings = &Ended {
        bytes: values,
        ends,
    };
    state::add(state, &CouponsOf { strings }, size)
}

/// Adds one value to a state, as `hll_state_add` does.
#[unsafe(no_mangle)]
pub extern "C" fn hll_state_add_value(state: &mut [[u8; 4]], size: &mut usize, value: &[u8]) -> u8
    ensures added { AddsToState (TakesValues state.old) (coupon_of_bytes value.now ∷ []) state.old state.new size.old size.new result }
    ensures grows { GrowsBy 1 state.old state.new }
    ensures lg_k_open { is_open state.new ≡ is_open state.old }
    ensures left { LeavesWhole state.old state.new }
{
    state::add_value(state, value, size)
}

/// Adds raw coupons to a state.
///
/// Returns what `hll_state_add` does, and `Argument` if a coupon has the value 0. Allocates nothing.
#[unsafe(no_mangle)]
pub extern "C" fn hll_state_add_coupons(
    state: &mut [[u8; 4]],
    size: &mut usize,
    coupons: &[u32],
) -> u8
    ensures added { AddsToState (HaveValues coupons.now × TakesValues state.old) coupons.now state.old state.new size.old size.new result }
    ensures grows { GrowsBy (length coupons.now) state.old state.new }
    ensures lg_k_open { is_open state.new ≡ is_open state.old }
    ensures left { LeavesWhole state.old state.new }
{
    let coupons = CouponSlice {
        raw_coupons: coupons,
    };
    state::add(state, &coupons, size)
}

/// Merges the sketch of an image into a state. The result is their union, with the state's `lg_k` as its bound.
///
/// `lg_max_k` is 0 for no bound, or an `lg_k` of at least the state's. Without a bound, an empty state takes the `lg_k` of an
/// image that isn't empty, or of an empty image if that is greater. If the `lg_k` of the state is open, a bound may be any
/// `lg_k`: then the state is a new one of that `lg_k`. Without a bound, an image that isn't empty decides it.
///
/// Returns 16 if there is no bound, neither the state nor the image is empty, and their `lg_k` differ. Returns 14 if there is
/// not enough room, and sets `size` to a number of bytes that is enough. Returns `Argument` if `lg_max_k` is out of range or the
/// elements are not a state, the reason of the first check that the image fails, or `Memory`. On these codes the sketch of the
/// state is unchanged. Allocates as `hll_image_check` does.
#[unsafe(no_mangle)]
pub extern "C" fn hll_state_join(
    alloc: Global,
    lg_max_k: u32,
    state: &mut [[u8; 4]],
    size: &mut usize,
    image: &[u8],
) -> u8
    ensures joined { JoinsImage lg_max_k image.now state.old state.new size.old size.new result }
    ensures left { LeavesWhole state.old state.new }
    ensures union { result ≡ 0 → is_open state.old ≡ false → ExtendsUnionByImage lg_max_k image.now state.old state.new }
{
    join::join_image(alloc, lg_max_k, state, size, image)
}

/// Merges the sketch of another state into a state, as `hll_state_join` merges an image.
///
/// Returns `Register` if a register of the other state is above 63, which no call leaves there. The bytes of the other state
/// may change if it has coupons, but not its sketch. Allocates nothing.
#[unsafe(no_mangle)]
pub extern "C" fn hll_state_join_state(
    lg_max_k: u32,
    state: &mut [[u8; 4]],
    size: &mut usize,
    other: &mut [[u8; 4]],
) -> u8
    ensures joined { JoinsState lg_max_k other.old state.old state.new size.old size.new result }
    ensures left { OfState other.old IsWhole → LeavesWhole state.old state.new }
    ensures union { result ≡ 0 → is_open state.old ≡ false → ExtendsUnionByState lg_max_k other.old state.old state.new }
    ensures kept { IsOnlyRead other.old other.new }
{
    join::join_state(lg_max_k, state, size, other)
}

/// Writes what a state says into `info`: how many bytes it takes, its `lg_k` and whether that is open, the width of the images
/// that were merged, whether it has coupons or registers, and whether it is empty. `size` is the size of the caller's structure
/// in bytes.
///
/// Returns `Argument` if `size` is not 16 or the elements are not a state. The state is only read: no byte of it changes.
/// Allocates nothing.
#[unsafe(no_mangle)]
pub extern "C" fn hll_state_info(state: &[[u8; 4]], info: &mut HllStateInfo, size: usize) -> u8
    ensures { Reports HllStateInfo (SaysStateInfo state.now) (RefusesStateInfo (size ≡ 16) state.now) info.old info.new result }
{
    report(state_info::info_of(state, size), info)
}

/// Writes the image of the sketch of a state into `out`, at a width. Its estimator fields are set if its estimate state is
/// cleared.
///
/// Returns `Argument` if `width` is not 4, 6 or 8 or the elements are not a state, `Register` if a register is above 63, which
/// no call leaves there, or `Memory`. The bytes of the state may change if it has coupons, but not its sketch. Allocates the
/// written image, and for 4-bit registers with exceptions also a map and two copies of them.
#[unsafe(no_mangle)]
pub extern "C" fn hll_state_image(
    alloc: Global,
    state: &mut [[u8; 4]],
    width: u32,
    out: &mut [u8],
    size: &mut usize,
) -> u8
    ensures image { Answers (IsOfState width state.old) (RefusesState (IsWidth width) state.old) out.old out.new size.old size.new result }
    ensures kept { IsOnlyRead state.old state.new }
    ensures settled { result ≡ 0 → IsSettled state.new }
{
    state::put_image(alloc, state, width, out, size)
}

/// Writes the estimate of the sketch of a state into `estimate`, as `hll_estimate` does for an image.
///
/// Returns `Argument` if the elements are not a state, or `Register` if a register is above 63. The bytes of the state may
/// change if it has coupons, but not its sketch. Allocates nothing.
#[unsafe(no_mangle)]
pub extern "C" fn hll_state_estimate(state: &mut [[u8; 4]], estimate: &mut HllEstimate) -> u8
    ensures estimate { Reports HllEstimate (SaysEstimateOfState state.old) (RefusesEstimateOfState state.old) estimate.old estimate.new result }
    ensures kept { IsOnlyRead state.old state.new }
    ensures settled { result ≡ 0 → IsSettled state.new }
{
    report(state::estimate_of(state), estimate)
}

/// Writes the image of the sketch of a settled state into `out`, as `hll_state_image` does. A state is settled after a call that
/// read it returned 0, until something is added or merged. The state is only read: no byte of it is written.
///
/// Returns `Argument` if `width` is not 4, 6 or 8 or the elements are not a settled state, `Register` if a register is above 63,
/// or `Memory`. Allocates as `hll_state_image` does.
#[unsafe(no_mangle)]
pub extern "C" fn hll_state_settled_image(
    alloc: Global,
    state: &[[u8; 4]],
    width: u32,
    out: &mut [u8],
    size: &mut usize,
) -> u8
    ensures { Answers (IsOfState width state.now) (RefusesState (IsWidth width × IsSettled state.now) state.now) out.old out.new size.old size.new result }
{
    put_bytes(state::image_of_settled(alloc, state, width), out, size)
}

/// Writes the estimate of the sketch of a settled state into `estimate`, as `hll_state_estimate` does. The state is only read: no
/// byte of it is written.
///
/// Returns `Argument` if the elements are not a settled state, or `Register` if a register is above 63. Allocates nothing.
#[unsafe(no_mangle)]
pub extern "C" fn hll_state_settled_estimate(state: &[[u8; 4]], estimate: &mut HllEstimate) -> u8
    ensures { Reports HllEstimate (SaysEstimateOfState state.now) (RefusesEstimateOfSettled state.now) estimate.old estimate.new result }
{
    report(state::estimate_of_settled(state), estimate)
}
