// SPDX-License-Identifier: Apache-2.0
//! The codes that calls return, and how an image is written into a buffer.
ghost use Rattle.std.specs.Prelude.{◌≡◌, MatchResult, IfOk, IfErr};
ghost use Rattle.hll_base.specs.declared.error.Reason.TheVariants.{Memory};
ghost use Rattle.hll_sketch.specs.Layout.{sketch_of};
ghost use Rattle.hll_sketch.specs.EstimatorFields.{FillsFields};
ghost use Rattle.hll_c.specs.Answers.{Answers, IsImageOf, PutsBytes, Reports, Tests};
ghost use Rattle.hll_c.specs.BytesOrParts.{bytes_of};

use hll_base::error::Error;
use hll_registers::image_parts::ImageParts;
use hll_sketch::HllSketch;

/// The call did what was asked.
pub(crate) const OK: u8 = 0;

/// The buffer is smaller than what is to be written.
pub(crate) const BUFFER: u8 = 14;

/// Returns the code of a call that returns nothing else.
pub(crate) fn code_of(answer: Result<(), Error>) -> u8
    ensures { Tests (MatchResult answer (λ _. Unit {0}) (λ _. ⊥)) (λ r. MatchResult answer (λ _. ⊥) (λ e. e ≡ r)) result }
{
    match answer {
        Ok(()) => OK,
        Err(e) => e.reason().number(),
    }
}

/// Writes what was found into `place`.
pub(crate) fn report<T: Copy>(found: Result<T, Error>, place: &mut T) -> u8
    ensures { Reports T (λ x. MatchResult found (λ y. x ≡ y) (λ _. ⊥)) (λ r. MatchResult found (λ _. ⊥) (λ e. e ≡ r)) place.old place.new result }
{
    match found {
        Ok(value) => {
            *place = value;
            OK
        }
        Err(e) => e.reason().number(),
    }
}

/// Writes the image of a sketch, with its estimator fields set if its estimate state is cleared, into the first bytes of `out`,
/// if there is room for it. Sets `size` to the size of the image.
pub(crate) fn put_image(made: Result<HllSketch, Error>, out: &mut [u8], size: &mut usize) -> u8
    ensures { Answers (λ y. MatchResult made (λ s. y ≡ sketch_of s) (λ _. ⊥)) (λ r. MatchResult made (λ _. r ≡ Memory) (λ e. r ≡ e)) out.old out.new size.old size.new result }
{
    put_bytes(image_of(made), out, size)
}

/// What a call writes: the bytes of an image, or its parts.
pub(crate) enum BytesOrParts<'a> {
    /// All its bytes.
    Bytes(Vec<u8>),
    /// Its parts, borrowed from another image.
    Parts(ImageParts<'a>),
}

/// Writes an image into the first bytes of `out`, if there is room for it. Sets `size` to the size of the image.
pub(crate) fn put_bytes_or_parts(
    image: Result<BytesOrParts<'_>, Error>,
    out: &mut [u8],
    size: &mut usize,
) -> u8
    ensures { PutsBytes (λ b. MatchResult image.entry (λ w. b ≡ bytes_of w) (λ _. ⊥)) (λ r. MatchResult image.entry (λ _. ⊥) (λ e. r ≡ e)) out.old out.new size.old size.new result }
{
    match image {
        Ok(BytesOrParts::Bytes(bytes)) => put_slice(&bytes, out, size),
        Ok(BytesOrParts::Parts(parts)) => put_parts(&parts, out, size),
        Err(e) => e.reason().number(),
    }
}

/// Writes an image into the first bytes of `out`, if there is room for it. Sets `size` to the size of the image.
pub(crate) fn put_bytes(image: Result<Vec<u8>, Error>, out: &mut [u8], size: &mut usize) -> u8
    ensures { PutsBytes (λ b. MatchResult image (λ v. b ≡ v.items) (λ _. ⊥)) (λ r. MatchResult image (λ _. ⊥) (λ e. r ≡ e)) out.old out.new size.old size.new result }
{
    match image {
        Ok(image) => put_slice(&image, out, size),
        Err(e) => e.reason().number(),
    }
}

/// Writes the parts of an image into the first bytes of `out`, if there is room for them. Sets `size` to the size of the image.
fn put_parts(parts: &ImageParts<'_>, out: &mut [u8], size: &mut usize) -> u8
    ensures { PutsBytes (λ b. b ≡ parts.now) (λ _. ⊥) out.old out.new size.old size.new result }
{
    *size = parts.len();
    if *size > out.len() {
        return BUFFER;
    }
    parts.put(out);
    OK
}

/// Writes bytes into the first bytes of `out`, if there is room for them. Sets `size` to their number.
fn put_slice(bytes: &[u8], out: &mut [u8], size: &mut usize) -> u8
    ensures { PutsBytes (λ b. b ≡ bytes.now) (λ _. ⊥) out.old out.new size.old size.new result }
{
    *size = bytes.len();
    if bytes.len() > out.len() {
        return BUFFER;
    }
    out[..bytes.len()].copy_from_slice(bytes);
    OK
}

/// Returns the image of the sketch that was made.
fn image_of(made: Result<HllSketch, Error>) -> Result<Vec<u8>, Error>
    ensures ok { IfOk result (λ image. MatchResult made (λ s. IsImageOf (FillsFields (sketch_of s)) image.items) (λ _. ⊥)) }
    ensures err { IfErr result (λ e. MatchResult made (λ _. e ≡ Memory) (λ f. e ≡ f)) }
{
    image_with_fields(made?)
}

/// Returns the image of a sketch, with its estimator fields set if its estimate state is cleared.
pub(crate) fn image_with_fields(mut sketch: HllSketch) -> Result<Vec<u8>, Error>
    ensures ok { IfOk result (λ image. IsImageOf (FillsFields (sketch_of sketch)) image.items) }
    ensures err { IfErr result (λ e. e ≡ Memory) }
{
    sketch.fill_estimator_fields();
    sketch.serialize()
}
