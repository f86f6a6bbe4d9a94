// SPDX-License-Identifier: Apache-2.0
//! The line that is printed for an error.
ghost use Rattle.std.specs.Prelude.{◌++◌, ◌∷◌, [], codes, decimal};
ghost use Rattle.hll_text.specs.Refusal.{Sends, refusal_line, words_of};

use crate::fault::{Fault, MergeError};
use std::io;

/// Writes `line L: `, the words of the fault and LF (docs/PLAN.md, "Faults").
///
/// Fails with `Write` if the writer returns an error, or accepts no byte although there are some. Then it accepted only a
/// prefix of the line, which may be empty. Allocates nothing, apart from what the stream's own writes allocate.
pub fn write_refusal<W: io::Write>(writer: &mut W, refusal: &MergeError) -> Result<(), Fault>
    ensures { Sends (W.contents writer.old) (W.contents writer.new) result (refusal_line refusal.now) }
{
    write_start(writer, refusal.line)?;
    write_end(writer, refusal.fault)
}

/// Writes `line L: `.
fn write_start<W: io::Write>(writer: &mut W, line: u64) -> Result<(), Fault>
    ensures { Sends (W.contents writer.old) (W.contents writer.new) result (codes "line " ++ (decimal line ++ codes ": ")) }
{
    write_piece(writer, b"line ")?;
    write_number(writer, line)?;
    write_piece(writer, b": ")
}

/// Writes the words of a fault, and LF.
fn write_end<W: io::Write>(writer: &mut W, fault: Fault) -> Result<(), Fault>
    ensures { Sends (W.contents writer.old) (W.contents writer.new) result (words_of fault ++ 10 ∷ []) }
{
    write_words(writer, fault)?;
    write_piece(writer, b"\n")
}

/// Writes the words of a fault.
fn write_words<W: io::Write>(writer: &mut W, fault: Fault) -> Result<(), Fault>
    ensures { Sends (W.contents writer.old) (W.contents writer.new) result (words_of fault) }
{
    match fault {
        Fault::Syntax => write_piece(writer, b"syntax"),
        Fault::Range => write_piece(writer, b"range"),
        Fault::Hex => write_piece(writer, b"hex"),
        Fault::Image(reason) => {
            write_piece(writer, b"image ")?;
            write_piece(writer, reason.word().as_bytes())
        }
        Fault::Stack => write_piece(writer, b"stack"),
        Fault::Memory => write_piece(writer, b"memory"),
        Fault::Read => write_piece(writer, b"read"),
        Fault::Write => write_piece(writer, b"write"),
        Fault::Fold => write_piece(writer, b"fold"),
    }
}

/// Writes the decimal digits of a number.
fn write_number<W: io::Write>(writer: &mut W, number: u64) -> Result<(), Fault>
    ensures { Sends (W.contents writer.old) (W.contents writer.new) result (decimal number) }
{
    let digit = [b'0' + (number % 10) as u8];
    if number < 10 {
        return write_piece(writer, &digit);
    }
    write_number(writer, number / 10)?;
    write_piece(writer, &digit)
}

/// Writes all the bytes.
fn write_piece<W: io::Write>(writer: &mut W, piece: &[u8]) -> Result<(), Fault>
    ensures { Sends (W.contents writer.old) (W.contents writer.new) result piece.now }
{
    let mut sent = 0;
    while sent < piece.len() {
        match writer.write(&piece[sent..]) {
            Ok(0) => return Err(Fault::Write),
            Ok(count) => sent += count,
            Err(_) => return Err(Fault::Write),
        }
    }
    Ok(())
}
