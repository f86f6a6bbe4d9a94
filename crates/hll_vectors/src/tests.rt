// SPDX-License-Identifier: Apache-2.0
//! Test vectors that are right, and what is reported about wrong ones.
use crate::run_row;
use std::test::Fail;

/// The lines of a test vector, and what is wrong with it.
const ROWS: [(&[&str], &str); 14] = [
    (&["new 10 8", "= 0201070a030c0008"], "nothing"),
    (&["! line 0: stack"], "nothing"),
    (&["new 10 8\\0d", "! line 1: syntax"], "nothing"),
    (
        &["new 10 8", "= 0201070a030c0009"],
        "Gives(\"0201070a030c0008\")",
    ),
    (
        &["new 10 8", "! 0201070a030c0008"],
        "Gives(\"0201070a030c0008\")",
    ),
    (
        &["new 10 9", "! line 1: syntax"],
        "Gives(\"line 1: range\")",
    ),
    (&["new 10 9", "! line 2: range"], "Gives(\"line 1: range\")"),
    (&["new 10 9", "= line 1: range"], "Gives(\"line 1: range\")"),
    (&["new\\2g10 8", "! line 1: syntax"], "Escape"),
    (&["new 10 8\\0", "! line 1: syntax"], "Escape"),
    (&["new 10 8"], "NoAnswer"),
    (
        &["x", "!line 1: syntax", "x", "! line 1: syntax"],
        "NoAnswer",
    ),
    (&["image 0201070a030c00080f", "= 0201070a030c0008"], "After"),
    (&["image 0201070a030c0008", "+ 0201070a030c0008"], "After"),
];

#[test]
fn rows(rt: HostRuntime) -> Result<(), Fail> {
    for (lines, wanted) in ROWS {
        let said = match run_row(rt.alloc(), lines) {
            Ok(()) => String::from_str(rt.alloc(), "nothing")?,
            Err(reason) => format!(in rt.alloc(); "{reason:?}")?,
        };
        assert_eq!(rt; said.as_str(), wanted, "{lines:?}");
    }
    Ok(())
}
