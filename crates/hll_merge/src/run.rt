// SPDX-License-Identifier: Apache-2.0
//! Runs a plan: reads its text, and writes the image of its sketch.
ghost use Rattle.std.specs.Prelude.{◌≡◌, ℕ, List, None, Some, length, false, MatchResult, IfErr, OnOk};
ghost use Rattle.std.specs.Io.KnownBytes.{Consumes, IsAtEnd};
ghost use Rattle.std.specs.Str.Lines.{lines};
ghost use Rattle.hll_text.specs.Text.{line_number, printed_line};
ghost use Rattle.hll_merge.specs.Feeding as feeding;
ghost use Rattle.hll_merge.specs.Feeding.{IsFedBy, StopsText};
ghost use Rattle.hll_merge.specs.Run.{IsAnswer, Streams, Succeeds, IsRefused};

use crate::feed::PlanFeed;
use hll_text::fault::{Fault, MergeError};
use hll_text::streams::write_hex_line;
use hll_text::watched::Watched;
use std::alloc::Allocator;
use std::io;

/// The greatest number of bytes that one read may return.
const READ_SIZE: usize = 65536;

/// Reads a plan to its end, and writes the image of its sketch as lower-case hexadecimal and LF (docs/PLAN.md, "A run").
///
/// Neither stream may have failed before. What the contract says of bytes holds for streams whose bytes are known.
///
/// Each piece that the reader returns is carried out at once. Allocates the stack of sketches, a line that is not whole in a
/// piece, and the bytes of an image that is read or written. Fails with `Memory` if an allocation fails (the contract says
/// nothing of its line), with the first fault of the text and its line, with `Read` if the reader failed, or with `Write` if
/// the writer failed. On an error nothing is written, except that with `Write` a prefix of the output may be.
pub fn run<A: Allocator + Clone, R: io::Read, W: io::Write>(
    alloc: A,
    reader: &mut Watched<R>,
    writer: &mut Watched<W>,
) -> Result<(), MergeError>
    requires reader_works { reader.old.failed ≡ false }
    requires writer_works { writer.old.failed ≡ false }
    ensures { let streams : Streams = record {
      before = R.remaining reader.old.inner;
      after = R.remaining reader.new.inner;
      reader_failed = reader.new.failed;
      writer_failed = writer.new.failed;
      old = W.contents writer.old.inner;
      new = W.contents writer.new.inner;
    }
        in MatchResult result (λ _. Succeeds streams) (λ e. IsRefused streams e) }
{
    let mut feed = PlanFeed::new(alloc)?;
    feed_all(&mut feed, reader)?;
    if reader.failed() {
        return Err(Fault::Read.at(feed.count()));
    }
    let (image, line) = image_of(feed)?;
    match write_hex_line(writer, &image) {
        Ok(()) => Ok(()),
        Err(fault) => Err(fault.at(line)),
    }
}

/// Feeds what a stream returns, piece by piece, until it ends or fails, or until a line that ended is at fault.
fn feed_all<A: Allocator + Clone, R: io::Read>(
    feed: &mut PlanFeed<A>,
    reader: &mut Watched<R>,
) -> Result<(), MergeError>
    requires works { reader.old.failed ≡ false }
    requires unfed { feed.old ≡ feeding.unfed }
    ensures fed { (text : List ℕ) × Consumes (R.remaining reader.old.inner) (R.remaining reader.new.inner) text × IsFedBy text feed.new }
    ensures ok { OnOk result ((feed.new.fault ≡ None) × (reader.new.failed ≡ false → IsAtEnd (R.remaining reader.new.inner))) }
    ensures err { IfErr result (λ e. (feed.new.fault ≡ Some e) × (reader.new.failed ≡ false)) }
{
    let mut buffer = [0u8; READ_SIZE];
    'pieces: loop {
        match reader.read(&mut buffer) {
            Err(_) => return Ok(()),
            Ok(count) => {
                if count == 0 {
                    return Ok(());
                }
                if let Err(e) = feed.feed(&buffer[..count]) {
                    return Err(e);
                }
            }
        }
    }
}

/// The image of the plan of a text that was fed, and the number of its lines.
fn image_of<A: Allocator + Clone>(feed: PlanFeed<A>) -> Result<(Vec<u8, A>, u64), MergeError>
    ensures { feed.fault ≡ None → (text : List ℕ) → IsFedBy text feed → MatchResult result
        (λ r. IsAnswer text (printed_line r.0.items) × (r.1 ≡ line_number (length (lines text)))) (StopsText text) }
{
    let (sketch, line) = match feed.finished() {
        Ok(found) => found,
        Err(e) => return Err(e),
    };
    match sketch.serialize() {
        Ok(image) => Ok((image, line)),
        Err(e) => Err(Fault::from(e).at(line)),
    }
}
