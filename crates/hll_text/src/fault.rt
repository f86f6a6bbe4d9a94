// SPDX-License-Identifier: Apache-2.0
//! Why a plan is rejected, and at which line.
ghost use Rattle.std.specs.Prelude.{◌≡◌};
ghost use Rattle.hll_text.specs.declared.fault.Fault.TheVariants.{Memory};

use hll_base::error::{Error, Reason};
use std::alloc::{AllocError, AllocFailed};

/// Why a plan is rejected (docs/PLAN.md, "Faults"). Each fault has a number and a printed form.
#[derive(Clone, Copy, Debug, PartialEq, Eq)]
pub enum Fault {
    /// 1, `syntax`: the line has none of the forms of a line.
    Syntax,
    /// 2, `range`: a number is out of its range.
    Range,
    /// 3, `hex`: the word of an `image` line is not an even number of hexadecimal digits.
    Hex,
    /// 4, `image` and the reason's word: no prefix of the bytes is an image.
    Image(Reason),
    /// 5, `stack`: a step finds too few sketches, or not exactly one is left at the end.
    Stack,
    /// 6, `memory`: an allocation failed.
    Memory,
    /// 7, `read`: the reader failed.
    Read,
    /// 8, `write`: the writer failed.
    Write,
    /// 10, `fold`: a sketch is to be folded to an `lg_k` above its own.
    Fold,
}

/// A fault, and the line where it was found (docs/PLAN.md, "Numbers of lines").
#[derive(Clone, Copy, Debug, PartialEq, Eq)]
pub struct MergeError {
    /// The number of the line, from 1; 0 if the text is empty or no line of it ended.
    pub line: u64,
    /// Why the plan is rejected.
    pub fault: Fault,
}

impl Fault {
    /// Returns the error for this fault at this line.
    pub fn at(self, line: u64) -> MergeError
        ensures { result ≡ record { line = line; fault = self } }
    {
        MergeError { line, fault: self }
    }
}

/// The fault for an error of the crates below: `Memory`, or else `Image` with the error's reason.
impl From<Error> for Fault {
    ghost use Rattle.std.specs.Prelude.{◌≡◌};
    ghost use Rattle.hll_text.specs.Step.{fault_of};

    ghost from_gives = { λ reason fault. fault ≡ fault_of reason };

    fn from(error: Error) -> Fault {
        match error.reason() {
            Reason::Memory => Fault::Memory,
            reason => Fault::Image(reason),
        }
    }
}

/// A failed allocation is the fault `Memory`.
impl From<AllocError> for Fault {
    ghost from_gives = { λ _ e. e ≡ Memory };

    fn from(_error: AllocError) -> Fault {
        Fault::Memory
    }
}

/// A failed allocation is the fault `Memory`; the value that was not stored is dropped.
impl<T: Drop> From<AllocFailed<T>> for Fault {
    ghost from_gives = { λ _ e. e ≡ Memory };

    fn from(_error: AllocFailed<T>) -> Fault {
        Fault::Memory
    }
}
