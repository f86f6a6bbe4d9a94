// SPDX-License-Identifier: Apache-2.0
//! Runs the filter: reads lines, and writes their images with the estimator fields set.
ghost use Rattle.std.specs.Prelude.{◌≡◌, ℕ, List, [], false, MatchResult};
ghost use Rattle.std.specs.Io.KnownBytes.{Consumes, IsAtEnd};
ghost use Rattle.hll_text.specs.Text.{ended_lines, open_line};
ghost use Rattle.hll_estimator_fields.specs.Passing.{Passes, Stops};
ghost use Rattle.hll_estimator_fields.specs.Run.{Streams, Succeeds, IsRefused};

use crate::filter::Filter;
use hll_text::fault::{Fault, MergeError};
use hll_text::watched::Watched;
use std::alloc::Allocator;
use std::io;

/// The greatest number of bytes that one read may return.
const READ_SIZE: usize = 65536;

/// Reads lines to the end, and writes each as the same image with its estimator fields set (docs/PLAN.md, "Estimator
/// fields"), in lower-case hexadecimal digits and LF.
///
/// Neither stream may have failed before. Clauses about bytes assume streams whose bytes are known.
///
/// Holds one line at a time. Passes lines on until one is rejected, and writes nothing of that line. Fails with `Hex`,
/// with `Image` and the reason of the first check that the bytes fail, with `Memory` if an allocation fails (the
/// contract leaves its line open), with `Read` if the reader fails, or with `Write` if the writer fails. After `Write`,
/// a prefix of a line may have been written.
pub fn run<A: Allocator + Clone, R: io::Read, W: io::Write>(
    alloc: A,
    reader: &mut Watched<R>,
    writer: &mut Watched<W>,
) -> Result<(), MergeError>
    requires reader_works { reader.old.failed ≡ false }
    requires writer_works { writer.old.failed ≡ false }
    ensures { let streams : Streams = record {
      before = R.remaining reader.old.inner;
      after = R.remaining reader.new.inner;
      reader_failed = reader.new.failed;
      old = W.contents writer.old.inner;
      new = W.contents writer.new.inner;
      writer_failed = writer.new.failed;
    }
        in MatchResult result (λ _. Succeeds streams) (λ e. IsRefused streams e) }
{
    let mut filter = match Filter::new(alloc) {
        Ok(filter) => filter,
        Err(e) => return Err(Fault::from(e).at(0)),
    };
    pass_all(&mut filter, reader, writer)?;
    if reader.failed() {
        return Err(Fault::Read.at(filter.count));
    }
    filter.pass_rest(writer)
}

/// Passes on the lines that end in what the reader returns, until the reader ends or fails, or a line is rejected.
fn pass_all<A: Allocator + Clone, R: io::Read, W: io::Write>(
    filter: &mut Filter<A>,
    reader: &mut Watched<R>,
    writer: &mut Watched<W>,
) -> Result<(), MergeError>
    requires reader_works { reader.old.failed ≡ false }
    requires writer_works { writer.old.failed ≡ false }
    requires pending { filter.old.pending.items ≡ [] }
    requires count { filter.old.count ≡ 0 }
    ensures { (text : List ℕ) × Consumes (R.remaining reader.old.inner) (R.remaining reader.new.inner) text × MatchResult result
        (λ _. (filter.new.pending.items ≡ open_line text)
        × Passes 0 (ended_lines text) filter.new.count (W.contents writer.old.inner) (W.contents writer.new.inner) writer.new.failed
        × (reader.new.failed ≡ false → IsAtEnd (R.remaining reader.new.inner)))
        (λ e. (reader.new.failed ≡ false) × Stops 0 (ended_lines text) (W.contents writer.old.inner) (W.contents writer.new.inner) writer.new.failed e) }
{
    let mut buffer = [0u8; READ_SIZE];
    'pieces: loop {
        match reader.read(&mut buffer) {
            Err(_) => return Ok(()),
            Ok(count) => {
                if count == 0 {
                    return Ok(());
                }
                if let Err(e) = filter.pass_piece(&buffer[..count], writer) {
                    return Err(e);
                }
            }
        }
    }
}
