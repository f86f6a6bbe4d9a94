// SPDX-License-Identifier: Apache-2.0
//! Passes lines of images on, with their estimator fields set.
ghost use Rattle.std.specs.Prelude.{◌≡◌, ◌⊎◌, ◌+◌, ◌^◌, ◌<◌, ◌==◌, ◌++◌, ◌∷◌, [], ℕ, List, length, take, drop, position, false, Ok, Err, Some, None, MatchOption, MatchResult, IfOk, IfErr, IfSome};
ghost use Rattle.std.specs.Io.KnownBytes.{Appends};
ghost use Rattle.std.specs.Str.Lines.{strip_carriage_return};
ghost use Rattle.hll_base.specs.declared.error.Reason.TheVariants as reasons;
ghost use Rattle.hll_sketch.specs.Checks.{first_fault, size_fault};
ghost use Rattle.hll_text.specs.Cuts.{IsOpen};
ghost use Rattle.hll_text.specs.Text.{ended_lines, open_line, line_of_rest, image, image_step};
ghost use Rattle.hll_text.specs.declared.fault.Fault.TheVariants as faults;
ghost use Rattle.hll_estimator_fields.specs.Passing.{IsWithFields, IsPassed, Passes, Stops, StopsLine};

use hll_base::error::Error;
use hll_sketch::sketch::HllSketch;
use hll_text::fault::{Fault, MergeError};
use hll_text::lines::{line_end, without_return};
use hll_text::reading::decode_into;
use hll_text::streams::write_hex_line;
use hll_text::watched::Watched;
use std::alloc::{AllocError, Allocator};
use std::{io, mem};

/// Returns the image with its estimator fields set.
///
/// Fails with the reason of the first check that the bytes fail, and with `Memory` if an allocation fails. Allocates
/// the sketch and its image, but only after checking that the bytes the image needs are there.
fn with_fields<A: Allocator + Clone>(alloc: A, bytes: &[u8]) -> Result<Vec<u8, A>, Error>
    ensures ok { IfOk result (λ new. IsWithFields bytes.now new.items) }
    ensures err { IfErr result (λ e. (e ≡ reasons.Memory) ⊎ (first_fault bytes.now ≡ Some e)) }
    ensures asked { IfErr result (λ e. e ≡ reasons.Memory → size_fault bytes.now ≡ None) }
{
    let mut sketch = HllSketch::deserialize(alloc, bytes)?;
    sketch.set_estimator_fields();
    sketch.serialize()
}

/// Returns the bytes that the hexadecimal digits of a line stand for, in `buffer`, which is taken and left empty.
///
/// Fails with `Hex` if the line isn't an even number of hexadecimal digits, and with `Memory` if an allocation fails.
fn decode<A: Allocator + Clone>(buffer: &mut Vec<u8, A>, digits: &[u8]) -> Result<Vec<u8, A>, Fault>
    ensures ok { IfOk result (λ bytes. image_step digits.now ≡ Ok (image bytes.items)) }
    ensures err { IfErr result (λ e. (e ≡ faults.Memory) ⊎ ((e ≡ faults.Hex) × (image_step digits.now ≡ Err faults.Hex))) }
{
    let emptied = Vec::new(buffer.allocator().clone()?);
    decode_into(mem::replace(buffer, emptied), digits)
}

/// Passes a line on, with the estimator fields set. `buffer` is for the bytes of the image, and keeps its size.
///
/// Fails with `Hex`, with `Image` and the reason of the first check that the bytes fail, or with `Memory` if an
/// allocation fails; then nothing of the line is written. Fails with `Write` if the writer fails.
fn pass_line<A: Allocator + Clone, W: io::Write>(
    buffer: &mut Vec<u8, A>,
    line: &[u8],
    writer: &mut Watched<W>,
) -> Result<(), Fault>
    requires { writer.old.failed ≡ false }
    ensures { MatchResult result
        (λ _. (writer.new.failed ≡ false) × (printed : List ℕ) × IsPassed line.now printed × Appends (W.contents writer.old.inner) (W.contents writer.new.inner) printed)
        (λ e. StopsLine line.now (W.contents writer.old.inner) (W.contents writer.new.inner) writer.new.failed e) }
{
    let bytes = decode(buffer, line)?;
    let alloc = bytes.allocator().clone()?;
    let image = with_fields(alloc, &bytes)?;
    *buffer = bytes;
    write_hex_line(writer, &image)
}

/// Returns the part of a text before its first LF, and the part after it, or `None` if there is no LF.
fn split_line(text: &[u8]) -> Option<(&[u8], &[u8])>
    ensures cut { MatchOption result (position (λ b. b == 10) text.now ≡ None)
        (λ r. (at : ℕ) × (position (λ b. b == 10) text.now ≡ Some at) × (r.0.now ≡ take at text.now) × (r.1.now ≡ drop (at + 1) text.now)) }
    ensures shorter { IfSome result (λ r. length r.1.now < length text.now) }
{
    match line_end(text) {
        None => None,
        Some(at) => Some((&text[..at], &text[at + 1..])),
    }
}

/// A filter of lines. `pending` has the bytes of the line that has not ended, and `count` is the number of lines that
/// have ended.
#[derive(Drop)]
pub(crate) struct Filter<A: Allocator> {
    pub(crate) pending: Vec<u8, A>,
    pub(crate) count: u64,
    /// A buffer for the bytes of an image.
    buffer: Vec<u8, A>,
    ghost small: { count < 2 ^ 64 },
}

impl<A: Allocator + Clone> Filter<A> {
    /// Returns a filter that has read nothing. Fails if the allocator can't be cloned.
    pub(crate) fn new(alloc: A) -> Result<Filter<A>, AllocError>
        ensures { IfOk result (λ f. (f.pending.items ≡ []) × (f.count ≡ 0)) }
    {
        let for_pending = alloc.clone()?;
        Ok(Filter {
            pending: Vec::new(for_pending),
            count: 0,
            buffer: Vec::new(alloc),
        })
    }

    /// Passes on each line that ends in the pending bytes followed by `piece`, until one is rejected. The bytes after
    /// the last LF are then pending.
    pub(crate) fn pass_piece<W: io::Write>(
        &mut self,
        piece: &[u8],
        writer: &mut Watched<W>,
    ) -> Result<(), MergeError>
        requires open { IsOpen self.old.pending.items }
        requires works { writer.old.failed ≡ false }
        ensures { let ls : List (List ℕ) = ended_lines (self.old.pending.items ++ piece.now) in MatchResult result
            (λ _. (self.new.pending.items ≡ open_line (self.old.pending.items ++ piece.now))
            × Passes self.old.count ls self.new.count (W.contents writer.old.inner) (W.contents writer.new.inner) writer.new.failed)
            (λ e. Stops self.old.count ls (W.contents writer.old.inner) (W.contents writer.new.inner) writer.new.failed e) }
    {
        let mut rest = piece;
        'lines: loop {
            match split_line(rest) {
                None => {
                    return match self.pending.extend_from_slice(rest) {
                        Ok(()) => Ok(()),
                        Err(e) => Err(Fault::from(e).at(self.count)),
                    };
                }
                Some((bytes, more)) => {
                    if let Err(e) = self.end_line(bytes, writer) {
                        return Err(e);
                    }
                    rest = more;
                }
            }
        }
    }

    /// Passes on the pending line, with these bytes before its LF. Nothing is pending then.
    fn end_line<W: io::Write>(
        &mut self,
        bytes: &[u8],
        writer: &mut Watched<W>,
    ) -> Result<(), MergeError>
        requires { writer.old.failed ≡ false }
        ensures { let ls : List (List ℕ) = strip_carriage_return (self.old.pending.items ++ bytes.now) ∷ [] in MatchResult result
            (λ _. (self.new.pending.items ≡ [])
            × Passes self.old.count ls self.new.count (W.contents writer.old.inner) (W.contents writer.new.inner) writer.new.failed)
            (λ e. Stops self.old.count ls (W.contents writer.old.inner) (W.contents writer.new.inner) writer.new.failed e) }
    {
        if let Err(e) = self.pending.extend_from_slice(bytes) {
            return Err(Fault::from(e).at(self.count));
        }
        self.count = self.count.saturating_add(1);
        let line = without_return(self.pending.as_slice());
        match pass_line(&mut self.buffer, line, writer) {
            Ok(()) => {
                self.pending.clear();
                Ok(())
            }
            Err(fault) => Err(fault.at(self.count)),
        }
    }

    /// Passes on the last line, if it lacks its LF.
    pub(crate) fn pass_rest<W: io::Write>(self, writer: &mut Watched<W>) -> Result<(), MergeError>
        requires { writer.old.failed ≡ false }
        ensures { let ls : List (List ℕ) = line_of_rest self.pending.items in MatchResult result
            (λ _. (after : ℕ) × Passes self.count ls after (W.contents writer.old.inner) (W.contents writer.new.inner) writer.new.failed)
            (λ e. Stops self.count ls (W.contents writer.old.inner) (W.contents writer.new.inner) writer.new.failed e) }
    {
        let Filter {
            pending,
            count,
            mut buffer,
            ..
        } = self;
        let last = pending.as_slice();
        if last.is_empty() {
            return Ok(());
        }
        let number = count.saturating_add(1);
        match pass_line(&mut buffer, last, writer) {
            Ok(()) => Ok(()),
            Err(fault) => Err(fault.at(number)),
        }
    }
}
