// SPDX-License-Identifier: Apache-2.0
//! The lines of a text, whole or in pieces.
ghost use Rattle.std.specs.Prelude.{◌≡◌, ◌<◌, ◌∷◌, [], length, position, ◌==◌, MatchOption};
ghost use Rattle.std.specs.Str.Lines.{strip_carriage_return};
ghost use Rattle.hll_text.specs.Text.{ended_lines, open_line};
ghost use Rattle.hll_text.specs.Cuts.{LinesOfCuts};

use crate::bytes::first_of;

/// Returns the index of the first LF.
pub fn line_end(text: &[u8]) -> Option<usize>
    ensures { result ≡ position (λ b. b == 10) text.now }
{
    first_of(b'\n', text)
}

/// Returns a line without the CR at its end, if it has one.
pub fn without_return(line: &[u8]) -> &[u8]
    ensures { result.now ≡ strip_carriage_return line.now }
{
    match line.split_last() {
        Some((b'\r', front)) => front,
        _ => line,
    }
}

/// Returns the first line of a text that has an LF, without its end, and the text after it. Returns `None` if no line has one.
///
/// A line ends in an LF, and one CR directly before that LF belongs to its end.
pub fn next_ended(text: &[u8]) -> Option<(&[u8], &[u8])>
    ensures lines { MatchOption result (ended_lines text.now ≡ [])
        (λ r. (ended_lines text.now ≡ r.0.now ∷ ended_lines r.1.now) × (length r.1.now < length text.now)) }
    ensures rest { MatchOption result (open_line text.now ≡ text.now) (λ r. open_line text.now ≡ open_line r.1.now) }
{
    match line_end(text) {
        None => None,
        Some(at) => Some((without_return(&text[..at]), &text[at + 1..])),
    }
}

/// The law of texts that are cut: the lines that end in two pieces are those that end in the first piece, and then those that
/// end in its open line followed by the second piece (docs/PLAN.md, "In pieces"). Does nothing at run time.
pub fn lines_of_cuts()
    ensures { LinesOfCuts }
{}
