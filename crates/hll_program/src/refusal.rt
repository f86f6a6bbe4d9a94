// SPDX-License-Identifier: Apache-2.0
//! The line that the program prints for an error.
ghost use Rattle.hll_text.specs.Refusal.{Sends, refusal_line};

use hll_text::fault::{Fault, MergeError};
use hll_text::refusal;
use std::io::Write;

/// Writes `line L: `, the words of the fault and LF (docs/PLAN.md, "Faults").
///
/// Fails with `Write` if the writer returns an error, or accepts no byte although there are some. Then it accepted only a
/// prefix of the line, which may be empty. Allocates nothing, apart from what the stream's own writes allocate.
pub fn write_refusal<W: Write>(writer: &mut W, refusal: &MergeError) -> Result<(), Fault>
    ensures { Sends (W.contents writer.old) (W.contents writer.new) result (refusal_line refusal.now) }
{
    refusal::write_refusal(writer, refusal)
}
