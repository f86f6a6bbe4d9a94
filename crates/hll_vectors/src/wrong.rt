// SPDX-License-Identifier: Apache-2.0
//! What is wrong with a test vector.
use std::alloc::{AllocError, AllocFailed};

/// Why a test vector is wrong.
#[derive(Debug, Drop)]
pub(crate) enum Wrong {
    /// A `\` is not followed by two hexadecimal digits.
    Escape,
    /// The last line is no result, or another line begins like one.
    NoAnswer,
    /// The plan, run as a whole, has this result.
    Gives(String),
    /// Fed in pieces of this number of bytes, it has another result than run as a whole.
    InPieces(usize),
    /// Cut between the CR and the LF of its lines, it has another result.
    BetweenEnds,
    /// If this read fails, counted from 0, it has another result than the lines that ended before.
    AtRead(usize),
    /// If the writer has room for this number of bytes, it has another result, or what was written is no prefix of its
    /// line.
    WithRoom(usize),
    /// This number of bytes of an image, a prefix, is neither read nor rejected as `Truncated`.
    AtFront(usize),
    /// Bytes follow an image, and the result says `=`, or none do, and it says `+`.
    After,
    /// An allocation failed.
    Memory,
}

impl From<AllocError> for Wrong {
    fn from(_error: AllocError) -> Wrong {
        Wrong::Memory
    }
}

impl<T: Drop> From<AllocFailed<T>> for Wrong {
    fn from(_error: AllocFailed<T>) -> Wrong {
        Wrong::Memory
    }
}
