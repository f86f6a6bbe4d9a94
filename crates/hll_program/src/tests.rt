// SPDX-License-Identifier: Apache-2.0
//! Tests the lines that are printed for errors.
use crate::refusal::write_refusal;
use hll_base::error::Reason;
use hll_text::fault::{Fault, MergeError};
use std::test::Fail;

/// Errors, and the lines that are printed for them.
const LINES: [(u64, Fault, &[u8]); 10] = [
    (1, Fault::Syntax, b"line 1: syntax\n"),
    (2, Fault::Range, b"line 2: range\n"),
    (10, Fault::Hex, b"line 10: hex\n"),
    (
        1,
        Fault::Image(Reason::Truncated),
        b"line 1: image truncated\n",
    ),
    (1, Fault::Image(Reason::LgK), b"line 1: image lgk\n"),
    (0, Fault::Stack, b"line 0: stack\n"),
    (305, Fault::Memory, b"line 305: memory\n"),
    (99, Fault::Read, b"line 99: read\n"),
    (
        18446744073709551615,
        Fault::Write,
        b"line 18446744073709551615: write\n",
    ),
    (9, Fault::Fold, b"line 9: fold\n"),
];

#[test]
fn lines_of_refusals(rt: HostRuntime) -> Result<(), Fail> {
    for (line, fault, printed) in LINES {
        let mut writer = Vec::new(rt.alloc());
        let refusal = MergeError { line, fault };
        assert_eq!(rt; write_refusal(&mut writer, &refusal), Ok(()));
        assert_eq!(rt; writer.as_slice(), printed);
    }
    Ok(())
}

/// If the writer has no room for all of a line, a prefix of it is written.
#[test]
fn lines_to_a_writer_that_is_full(rt: HostRuntime) -> Result<(), Fail> {
    let refusal = MergeError {
        line: 12,
        fault: Fault::Image(Reason::Count),
    };
    let printed: &[u8] = b"line 12: image count\n";
    for room in 0..=printed.len() {
        let mut taken = vec![in rt.alloc(); 0u8; room]?;
        let mut writer = taken.as_mut_slice();
        let sent = write_refusal(&mut writer, &refusal);
        assert_eq!(rt; sent.is_ok(), room == printed.len());
        assert_eq!(rt; taken.as_slice(), &printed[..room]);
    }
    Ok(())
}
