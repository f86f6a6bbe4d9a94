// SPDX-License-Identifier: Apache-2.0
//! Prefixes of images: each one that lacks something is rejected as `Truncated`.
use crate::row::{Answer, Row};
use crate::wrong::Wrong;
use hll_base::error::Reason;
use hll_sketch::HllSketch;
use hll_text::lines::without_return;
use std::alloc::Global;

/// Returns the image of a line that is printed is read, and no shorter prefix of it is.
pub(crate) fn check_line(alloc: Global, line: &[u8]) -> Result<(), Wrong> {
    if ends_with(alloc, line.strip_suffix(b"\n").unwrap_or(line))? {
        Ok(())
    } else {
        Err(Wrong::After)
    }
}

/// Returns the images of a plan are read, and no shorter prefixes of them are. With `+`, one of them has bytes after
/// it.
pub(crate) fn check_plan(alloc: Global, row: &Row) -> Result<(), Wrong> {
    let mut has_more = false;
    for line in row.plan.split(|byte| *byte == b'\n') {
        if let Some(digits) = without_return(line).strip_prefix(b"image ") {
            has_more |= !ends_with(alloc, digits)?;
        }
    }
    if has_more == matches!(row.answer, Answer::PrintsBefore(_)) {
        Ok(())
    } else {
        Err(Wrong::After)
    }
}

/// Returns whether an image ends with these digits, and not before: shorter prefixes are rejected.
fn ends_with(alloc: Global, digits: &[u8]) -> Result<bool, Wrong> {
    let Ok(image) = hex::decode(alloc, digits) else {
        return Err(Wrong::AtFront(0));
    };
    let front = first_whole(alloc, &image);
    if HllSketch::deserialize(alloc, front).is_err() {
        return Err(Wrong::AtFront(front.len()));
    }
    Ok(front.len() == image.len())
}

/// Returns the shortest prefix that isn't rejected as `Truncated`, or all bytes.
fn first_whole(alloc: Global, bytes: &[u8]) -> &[u8] {
    for end in 0..bytes.len() {
        let front = &bytes[..end];
        let read = HllSketch::deserialize(alloc, front);
        if read.err().map(|e| e.reason()) != Some(Reason::Truncated) {
            return front;
        }
    }
    bytes
}
