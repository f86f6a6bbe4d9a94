// SPDX-License-Identifier: Apache-2.0
//! Writes all of some bytes, or what is printed for them.
ghost use Rattle.std.specs.Prelude.{◌≡◌, ◌≤◌, ◌<◌, ℕ, length, true, take, OnOk, IfErr};
ghost use Rattle.std.specs.Io.KnownBytes.{Appends};
ghost use Rattle.hex.specs.Hex.{encode_lower};
ghost use Rattle.hll_text.specs.Text.{printed_line};
ghost use Rattle.hll_text.specs.declared.fault.Fault.TheVariants.{Write};

use crate::fault::Fault;
use crate::watched::Watched;
use std::io;

/// Writes all the bytes.
///
/// Fails with `Write` if the writer fails. Then it accepted only a prefix of the bytes, which may be empty. Allocates nothing,
/// apart from what the stream's own writes allocate.
pub fn write_all<W: io::Write>(writer: &mut Watched<W>, bytes: &[u8]) -> Result<(), Fault>
    ensures ok { OnOk result (Appends (W.contents writer.old.inner) (W.contents writer.new.inner) bytes.now × (writer.new.failed ≡ writer.old.failed)) }
    ensures err { IfErr result (λ e. (e ≡ Write) × (writer.new.failed ≡ true)
        × (n : ℕ) × (n < length bytes.now) × Appends (W.contents writer.old.inner) (W.contents writer.new.inner) (take n bytes.now)) }
{
    let mut sent = 0;
    while sent < bytes.len() {
        sent += writer.write(&bytes[sent..])?;
    }
    Ok(())
}

/// The number of bytes that are written as digits at once.
const PIECE: usize = 16384;

/// Writes bytes as lower-case hexadecimal and LF, piece by piece through a buffer of its own.
///
/// Fails with `Write` if the writer fails. Then it accepted only a prefix of the line, which may be empty. Allocates nothing,
/// apart from what the stream's own writes allocate.
pub fn write_hex_line<W: io::Write>(writer: &mut Watched<W>, bytes: &[u8]) -> Result<(), Fault>
    ensures ok { OnOk result (Appends (W.contents writer.old.inner) (W.contents writer.new.inner) (printed_line bytes.now) × (writer.new.failed ≡ writer.old.failed)) }
    ensures err { IfErr result (λ e. (e ≡ Write) × (writer.new.failed ≡ true)
        × (n : ℕ) × (n < length (printed_line bytes.now)) × Appends (W.contents writer.old.inner) (W.contents writer.new.inner) (take n (printed_line bytes.now))) }
{
    let mut buffer = [0u8; 2 * PIECE];
    let mut shown = 0;
    while shown < bytes.len() {
        let size = PIECE.min(bytes.len() - shown);
        write_digits(writer, &mut buffer, &bytes[shown..shown + size])?;
        shown += size;
    }
    write_all(writer, b"\n")
}

/// Writes bytes, at most `PIECE`, as digits, through a buffer whose old content is lost.
fn write_digits<W: io::Write>(
    writer: &mut Watched<W>,
    buffer: &mut [u8; 2 * PIECE],
    bytes: &[u8],
) -> Result<(), Fault>
    requires { length bytes.now ≤ 16384 }
    ensures ok { OnOk result (Appends (W.contents writer.old.inner) (W.contents writer.new.inner) (encode_lower bytes.now) × (writer.new.failed ≡ writer.old.failed)) }
    ensures err { IfErr result (λ e. (e ≡ Write) × (writer.new.failed ≡ true)
        × (n : ℕ) × (n < length (encode_lower bytes.now)) × Appends (W.contents writer.old.inner) (W.contents writer.new.inner) (take n (encode_lower bytes.now))) }
{
    let digits = &mut buffer[..2 * bytes.len()];
    match hex::encode_to_slice(bytes, digits) {
        Ok(()) => write_all(writer, digits),
        Err(_) => unreachable!(),
    }
}
