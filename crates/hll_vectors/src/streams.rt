// SPDX-License-Identifier: Apache-2.0
//! Plans over streams that fail, and that move one byte at a time.
use crate::pieces::Printed;
use crate::wrong::Wrong;
use hll_fakes::{Failing, Narrow};
use hll_merge::feed::PlanFeed;
use hll_merge::run::run;
use hll_text::fault::{Fault, MergeError};
use hll_text::watched::Watched;
use std::alloc::Global;

/// Checks a reader that returns a byte at a time and fails at each of its calls in turn.
pub(crate) fn check_reads(alloc: Global, plan: &[u8]) -> Result<(), Wrong> {
    for calls in 0..plan.len().saturating_add(1) {
        if !fails_at(alloc, plan, calls) {
            return Err(Wrong::AtRead(calls));
        }
    }
    Ok(())
}

/// Checks writers that accept a byte at a time and stop or fail after each byte of the line, or at once if a plan has a
/// fault.
pub(crate) fn check_writes(alloc: Global, plan: &[u8], printed: &Printed) -> Result<(), Wrong> {
    let size = match printed {
        Ok(line) => line.len(),
        Err(_) => 0,
    };
    for room in 0..size.saturating_add(1) {
        if !fits(alloc, plan, printed, room, false) || !fits(alloc, plan, printed, room, true) {
            return Err(Wrong::WithRoom(room));
        }
    }
    Ok(())
}

/// Returns whether a plan fails, and nothing is written, if the reader returns a byte at a time and fails at this call.
fn fails_at(alloc: Global, plan: &[u8], calls: usize) -> bool {
    let mut reader = Watched::new(Failing {
        text: plan,
        calls: u32::try_from(calls).unwrap_or(u32::MAX),
    });
    let mut writer = Watched::new(Vec::new(alloc));
    let result = run(alloc, &mut reader, &mut writer);
    let front = plan.get(..calls).unwrap_or(plan);
    let refusal = fault_of_front(alloc, front);
    result == Err(refusal)
        && reader.failed() == (refusal.fault == Fault::Read)
        && writer.into_inner().is_empty()
}

/// Returns the fault of the lines that end in a text, or else the read that failed after them.
fn fault_of_front(alloc: Global, text: &[u8]) -> MergeError {
    match fed(alloc, text) {
        Ok(()) => Fault::Read.at(lines_ended(text)),
        Err(fault) => fault,
    }
}

/// Feeds a text.
fn fed(alloc: Global, text: &[u8]) -> Result<(), MergeError> {
    let mut feed = PlanFeed::new(alloc)?;
    feed.feed(text)
}

/// Returns the number of lines that end in a text.
fn lines_ended(text: &[u8]) -> u64 {
    text.iter().filter(|byte| **byte == b'\n').count() as u64
}

/// Returns whether a plan, read byte by byte, has its result with a writer that accepts `room` bytes, one at a time,
/// and then accepts none or fails. The writer then has a prefix of the line, of `room` bytes at most.
fn fits(alloc: Global, plan: &[u8], printed: &Printed, room: usize, fails: bool) -> bool {
    let mut taken = Vec::new(alloc);
    let mut reader = Watched::new(Failing {
        text: plan,
        calls: u32::MAX,
    });
    let mut writer = Watched::new(Narrow {
        taken: &mut taken,
        room,
        fails,
    });
    let result = run(alloc, &mut reader, &mut writer);
    drop(writer);
    match printed {
        Ok(line) if room < line.len() => result == Err(Fault::Write.at(lines_in(plan)))
            && line.get(..room) == Some(&taken),
        Ok(line) => result == Ok(()) && taken == *line,
        Err(refusal) => result == Err(*refusal) && taken.is_empty(),
    }
}

/// Returns the number of lines of a text.
fn lines_in(text: &[u8]) -> u64 {
    let last = match text.last() {
        None | Some(b'\n') => 0,
        Some(_) => 1,
    };
    lines_ended(text).saturating_add(last)
}
