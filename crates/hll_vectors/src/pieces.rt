// SPDX-License-Identifier: Apache-2.0
//! Plans that are run as a whole, and fed in pieces.
use crate::row::{Answer, Row};
use crate::wrong::Wrong;
use hll_caller::run_in_memory;
use hll_merge::feed::PlanFeed;
use hll_sketch::HllSketch;
use hll_text::fault::{Fault, MergeError};
use hll_text::lines::without_return;
use hll_text::refusal::write_refusal;
use std::alloc::Global;

/// The line that a plan prints, or its fault.
pub(crate) type Printed = Result<Vec<u8>, MergeError>;

/// Runs the plan of a test vector, and checks that it has the test vector's result.
pub(crate) fn run_whole(alloc: Global, row: &Row) -> Result<Printed, Wrong> {
    let printed = run_in_memory(alloc, &row.plan);
    let line = line_of(alloc, &printed)?;
    let (is_kind, wanted) = match row.answer {
        Answer::Prints(line) | Answer::PrintsBefore(line) => (printed.is_ok(), line),
        Answer::Refused(line) => (printed.is_err(), line),
    };
    if is_kind && line.strip_suffix(b"\n") == Some(wanted.as_bytes()) {
        return Ok(printed);
    }
    match std::str::from_utf8(&line) {
        Ok(line) => Err(Wrong::Gives(String::from_str(alloc, line.trim_end())?)),
        Err(_) => Err(Wrong::Gives(String::new(alloc))),
    }
}

/// Returns the line that the program prints, on either stream.
fn line_of(alloc: Global, printed: &Printed) -> Result<Vec<u8>, Wrong> {
    match printed {
        Ok(bytes) => Ok(bytes.clone()?),
        Err(refusal) => {
            let mut line = Vec::new(alloc);
            match write_refusal(&mut line, refusal) {
                Ok(()) => Ok(line),
                Err(_) => Err(Wrong::Memory),
            }
        }
    }
}

/// Checks that a plan has one result, however it is cut: byte by byte, into pieces of seven bytes, not at all, and
/// between CR and LF.
pub(crate) fn check(alloc: Global, plan: &[u8], printed: &Printed) -> Result<(), Wrong> {
    for size in [1, 7, plan.len()] {
        if printed_by(alloc, in_pieces(alloc, plan, size)) != *printed {
            return Err(Wrong::InPieces(size));
        }
    }
    if printed_by(alloc, between_ends(alloc, plan)) != *printed {
        return Err(Wrong::BetweenEnds);
    }
    Ok(())
}

/// Feeds a plan in pieces of this number of bytes, or of one byte if it is 0.
fn in_pieces(alloc: Global, plan: &[u8], size: usize) -> Result<HllSketch, MergeError> {
    let mut feed = PlanFeed::new(alloc)?;
    for piece in plan.chunks(size.max(1)) {
        feed.feed(piece)?;
    }
    feed.finish()
}

/// Feeds a plan with CR and LF at the ends of its lines, cut between the two.
fn between_ends(alloc: Global, plan: &[u8]) -> Result<HllSketch, MergeError> {
    let mut feed = PlanFeed::new(alloc)?;
    for piece in plan.split_inclusive(|byte| *byte == b'\n') {
        match piece.strip_suffix(b"\n") {
            Some(line) => {
                feed.feed(without_return(line))?;
                feed.feed(b"\r")?;
                feed.feed(b"\n")?;
            }
            None => feed.feed(piece)?,
        }
    }
    feed.finish()
}

/// Returns the line for the sketch that a feed makes.
fn printed_by(alloc: Global, fed: Result<HllSketch, MergeError>) -> Printed {
    let sketch = fed?;
    match digits_of(alloc, &sketch) {
        Ok(line) => Ok(line),
        Err(fault) => Err(fault.at(0)),
    }
}

/// Returns the image of a sketch as lower-case hexadecimal digits, and LF.
fn digits_of(alloc: Global, sketch: &HllSketch) -> Result<Vec<u8>, Fault> {
    let digits = hex::encode(alloc, sketch.serialize()?)?;
    let mut line = digits.into_bytes();
    line.push(b'\n')?;
    Ok(line)
}
