// SPDX-License-Identifier: Apache-2.0
//! Lines and what is printed for them, from whole texts and over streams that move one byte at a time and fail.
use hll_base::error::Reason;
use hll_estimator_fields::run::run;
use hll_fakes::{Failing, Narrow};
use hll_text::fault::{Fault, MergeError};
use hll_text::watched::Watched;
use std::alloc::{AllocError, Global};
use std::process::Abort;
use std::test::Fail;

/// Sixteen 8-bit registers, of which one is 5: with estimator fields from elsewhere, and with the fields that follow from the
/// registers.
const GIVEN: &str =
    "0a0107040000000a0100000000000000020000000000000003000000000000000f0000000000000005000000000000000000000000000000";

const SET: &str =
    "0a0107040010000a00000000000000000000000000102e4000000000000000000f0000000000000005000000000000000000000000000000";

/// A text, what is printed for it, and why it is rejected, if it is.
struct Row {
    text: &'static str,
    printed: &'static str,
    refusal: Option<(u64, Fault)>,
}

const ROWS: [Row; 13] = [
    Row {
        text: "",
        printed: "",
        refusal: None,
    },
    // a list, of which the digits come in either case; the last line has no LF
    Row {
        text: "0201070A0308010805\r\n",
        printed: "",
        refusal: Some((1, Fault::Image(Reason::Truncated))),
    },
    Row {
        text: "02010704030801080500000C\r\n02010704030801080500000c",
        printed: "02010704030801080500000c\n02010704030801080500000c\n",
        refusal: None,
    },
    // what follows an image is not printed
    Row {
        text: "02010704030801080500000cffff\n",
        printed: "02010704030801080500000c\n",
        refusal: None,
    },
    // a set
    Row {
        text: "0301070a05080009010000000500000c\n",
        printed: "0301070a05080009010000000500000c\n",
        refusal: None,
    },
    // no line is skipped
    Row {
        text: "\n",
        printed: "",
        refusal: Some((1, Fault::Image(Reason::Truncated))),
    },
    Row {
        text: "# words\n",
        printed: "",
        refusal: Some((1, Fault::Hex)),
    },
    Row {
        text: "image 02010704030801080500000c\n",
        printed: "",
        refusal: Some((1, Fault::Hex)),
    },
    Row {
        text: "0201070\n",
        printed: "",
        refusal: Some((1, Fault::Hex)),
    },
    // a CR that isn't directly before the LF
    Row {
        text: "02010704030801080500000c\r\r\n",
        printed: "",
        refusal: Some((1, Fault::Hex)),
    },
    Row {
        text: "02010704030801080500000c\r",
        printed: "",
        refusal: Some((1, Fault::Hex)),
    },
    // the lines before one that is rejected are printed
    Row {
        text: "02010704030801080500000c\n0202\n02010704030801080500000c\n",
        printed: "02010704030801080500000c\n",
        refusal: Some((2, Fault::Image(Reason::Truncated))),
    },
    Row {
        text: "02010704030801080500000c\n02020704030801080500000c",
        printed: "02010704030801080500000c\n",
        refusal: Some((2, Fault::Image(Reason::Version))),
    },
];

/// What the filter returned, and what it printed.
#[derive(Drop)]
struct Outcome {
    answer: Result<(), MergeError>,
    printed: Vec<u8>,
}

/// Runs the filter on a whole text.
fn filtered(alloc: Global, text: &str) -> Outcome {
    let mut reader = Watched::new(text.as_bytes());
    let mut writer = Watched::new(Vec::new(alloc));
    let answer = run(alloc, &mut reader, &mut writer);
    Outcome {
        answer,
        printed: writer.into_inner(),
    }
}

/// Runs the filter on a text that comes one byte at a time, from a reader that fails after some reads, to a writer that accepts
/// one byte at a time and fails after some.
fn filtered_narrowly(alloc: Global, text: &str, calls: u32, room: usize) -> Outcome {
    let mut printed = Vec::new(alloc);
    let mut reader = Watched::new(Failing {
        text: text.as_bytes(),
        calls,
    });
    let answer = {
        let mut writer = Watched::new(Narrow {
            taken: &mut printed,
            room,
            fails: true,
        });
        run(alloc, &mut reader, &mut writer)
    };
    Outcome { answer, printed }
}

/// Returns the expected result of a row.
fn answer_of(row: &Row) -> Result<(), MergeError> {
    match row.refusal {
        None => Ok(()),
        Some((line, fault)) => Err(fault.at(line)),
    }
}

/// Checks that a run gives what its row expects.
fn assert_gives(rt: &impl Abort, outcome: Outcome, row: &Row) {
    assert_eq!(rt; outcome.answer, answer_of(row), "{}", row.text);
    assert_eq!(rt;
        outcome.printed.as_slice(),
        row.printed.as_bytes(),
        "{}",
        row.text
    );
}

#[test]
fn rows(rt: HostRuntime) {
    for row in &ROWS {
        assert_gives(&rt, filtered(rt.alloc(), row.text), row);
        assert_gives(
            &rt,
            filtered_narrowly(rt.alloc(), row.text, u32::MAX, usize::MAX),
            row,
        );
    }
}

/// Returns a text of lines, each with its LF.
fn text_of(alloc: Global, lines: &[&str]) -> Result<String, AllocError> {
    let mut text = String::new(alloc);
    for line in lines {
        text.push_str(line)?;
        text.push('\n')?;
    }
    Ok(text)
}

/// Registers are printed with their estimator fields set, and printed the same if they go through the filter again.
#[test]
fn words(rt: HostRuntime) -> Result<(), Fail> {
    let wanted = text_of(rt.alloc(), &[SET, SET])?;
    for line in [GIVEN, SET] {
        let text = text_of(rt.alloc(), &[line, line])?;
        let outcome = filtered(rt.alloc(), &text);
        assert_eq!(rt; outcome.answer, Ok(()));
        assert_eq!(rt; outcome.printed.as_slice(), wanted.as_bytes());
    }
    Ok(())
}

/// A reader that fails at any of its calls: the lines that ended before are printed, and the error has their number.
#[test]
fn reads_that_fail(rt: HostRuntime) {
    let text = "02010704030801080500000c\n02010704030801080500000c\n";
    for calls in 0..51u32 {
        let outcome = filtered_narrowly(rt.alloc(), text, calls, usize::MAX);
        let ended = u64::from(calls) / 25;
        assert_eq!(rt; outcome.answer, Err(Fault::Read.at(ended)), "{calls}");
        assert_eq!(rt; outcome.printed.len() as u64, 25 * ended, "{calls}");
    }
}

/// A writer that fails after any byte: the bytes before were written, and the error has the line that was cut off.
#[test]
fn writes_that_fail(rt: HostRuntime) {
    let text = "02010704030801080500000c\n02010704030801080500000c\n";
    for room in 0..50usize {
        let outcome = filtered_narrowly(rt.alloc(), text, u32::MAX, room);
        assert_eq!(rt;
            outcome.answer,
            Err(Fault::Write.at(room as u64 / 25 + 1)),
            "{room}"
        );
        assert_eq!(rt;
            outcome.printed.as_slice(),
            &text.as_bytes()[..room],
            "{room}"
        );
    }
}
