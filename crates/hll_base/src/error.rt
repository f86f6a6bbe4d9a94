// SPDX-License-Identifier: Apache-2.0
//! Errors and their numbered reasons (docs/FORMAT.md, "Reasons").
ghost use Rattle.std.specs.Prelude.{◌≡◌};
ghost use Rattle.hll_base.specs.Reason.{number_of, word_of, kind_of};
ghost use Rattle.hll_base.specs.declared.error.Reason.TheVariants.{Memory};

use std::alloc::{AllocError, AllocFailed};
use std::marker::Model;

/// The kind of an error.
#[derive(Clone, Copy, Debug, PartialEq, Eq)]
pub enum ErrorKind {
    /// An argument is out of range.
    InvalidArgument,
    /// The bytes are not a valid image.
    InvalidData,
    /// An allocation failed.
    OutOfMemory,
}

/// Why a call failed. The reasons are numbered from 1 in this order.
#[derive(Clone, Copy, Debug, PartialEq, Eq)]
pub enum Reason {
    /// The bytes end before the image that the header announces.
    Truncated,
    /// The family byte is not 7.
    Family,
    /// The serial version is not 1.
    Version,
    /// The `lg_k` byte is not in 4 to 21.
    LgK,
    /// The width bits are 3.
    Width,
    /// The stage bits are 3.
    Stage,
    /// The number of preamble ints is wrong for the stage.
    Preamble,
    /// The table size is out of range.
    LgArr,
    /// A count is above its bound, or is not the number of filled buckets.
    Count,
    /// A coupon has value 0, or occurs twice.
    Coupon,
    /// A register is above 63, or nibbles and exceptions disagree.
    Register,
    /// An argument is out of range.
    Argument,
    /// An allocation failed.
    Memory,
}

impl Reason {
    ghost use Rattle.std.specs.Prelude.{◌≡◌};
    ghost use Rattle.hll_base.specs.Reason.{number_of, word_of};

    /// Returns the reason's number, from 1 to 13.
    pub fn number(self) -> u8
        ensures { result ≡ number_of self }
    {
        match self {
            Reason::Truncated => 1,
            Reason::Family => 2,
            Reason::Version => 3,
            Reason::LgK => 4,
            Reason::Width => 5,
            Reason::Stage => 6,
            Reason::Preamble => 7,
            Reason::LgArr => 8,
            Reason::Count => 9,
            Reason::Coupon => 10,
            Reason::Register => 11,
            Reason::Argument => 12,
            Reason::Memory => 13,
        }
    }

    /// Returns the word that is printed for the reason.
    pub fn word(self) -> &'static str
        ensures { result.now ≡ word_of self }
    {
        match self {
            Reason::Truncated => "truncated",
            Reason::Family => "family",
            Reason::Version => "version",
            Reason::LgK => "lgk",
            Reason::Width => "width",
            Reason::Stage => "stage",
            Reason::Preamble => "preamble",
            Reason::LgArr => "lgarr",
            Reason::Count => "count",
            Reason::Coupon => "coupon",
            Reason::Register => "register",
            Reason::Argument => "argument",
            Reason::Memory => "memory",
        }
    }
}

/// An error. Contracts see its reason.
#[derive(Clone, Copy, Debug, PartialEq, Eq)]
pub struct Error {
    reason: Reason,
}

impl Model for Error {
    ghost use Rattle.hll_base.specs.declared.error.Reason.{Reason};

    ghost Value = { Reason };

    ghost view = { λ e. e.reason };

    ghost inverse = { λ r. record { reason = r } };
}

impl Error {
    /// Returns the error with this reason.
    pub fn new(reason: Reason) -> Error
        ensures { result ≡ reason }
    {
        Error { reason }
    }

    /// Returns the reason.
    pub fn reason(&self) -> Reason
        ensures { result ≡ self.now }
    {
        self.reason
    }

    /// Returns the kind of the error: `InvalidArgument` for the reason `Argument`, `OutOfMemory` for `Memory`, and
    /// `InvalidData` for all others.
    pub fn kind(&self) -> ErrorKind
        ensures { result ≡ kind_of self.now }
    {
        match self.reason {
            Reason::Argument => ErrorKind::InvalidArgument,
            Reason::Memory => ErrorKind::OutOfMemory,
            _ => ErrorKind::InvalidData,
        }
    }
}

/// Lets `?` turn a failed allocation into `Memory`.
impl From<AllocError> for Error {
    ghost from_gives = { λ _ e. e ≡ Memory };

    fn from(_refused: AllocError) -> Error {
        Error::new(Reason::Memory)
    }
}

/// Lets `?` turn a failed allocation into `Memory`. The value that should have been stored is dropped.
impl<T: Drop> From<AllocFailed<T>> for Error {
    ghost from_gives = { λ _ e. e ≡ Memory };

    fn from(_refused: AllocFailed<T>) -> Error {
        Error::new(Reason::Memory)
    }
}
