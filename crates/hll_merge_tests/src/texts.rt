// SPDX-License-Identifier: Apache-2.0
//! Texts of plans in memory: long lines, and readers that fail.
use crate::fixtures::run_over;
use hll_fakes::Failing;
use hll_merge::run::run;
use hll_text::fault::{Fault, MergeError};
use hll_text::watched::Watched;
use std::test::Fail;

/// A line of ten million bytes is read like any other.
#[test]
fn long_lines(rt: HostRuntime) -> Result<(), Fail> {
    let mut text = vec![in rt.alloc(); b'7'; 10_000_000]?;
    let (result, _) = run_over(&rt, &text);
    let fault = Fault::Syntax;
    assert_eq!(rt; result, Err(MergeError { line: 1, fault }));
    if let Some(first) = text.first_mut() {
        *first = b'#';
    }
    text.extend_from_slice(b"\nnew 10 8\n")?;
    let (result, written) = run_over(&rt, &text);
    assert_eq!(rt; result, Ok(()));
    assert_eq!(rt; written.as_slice(), b"0201070a030c0008\n".as_slice());
    Ok(())
}

/// A reader that fails at each call: the error is the first fault of the lines that ended, or else the failed read.
#[test]
fn failing_reads(rt: HostRuntime) {
    let rows: [(&[u8], u32, u64, Fault); 7] = [
        (b"new 10 8", 0, 0, Fault::Read),
        (b"new 10 8", 1, 0, Fault::Read),
        (b"new 10 8", 8, 0, Fault::Read),
        (b"new 10 8\n", 9, 1, Fault::Read),
        (b"x\nnew 10 8", 2, 1, Fault::Syntax),
        (b"new 10 8\nx", 10, 1, Fault::Read),
        (b"coupon 1 1\n", 11, 1, Fault::Stack),
    ];
    for (text, calls, line, fault) in rows {
        let mut reader = Watched::new(Failing { text, calls });
        let mut writer = Watched::new(Vec::new(rt.alloc()));
        let result = run(rt.alloc(), &mut reader, &mut writer);
        assert_eq!(rt; result, Err(MergeError { line, fault }));
        assert_eq!(rt; reader.failed(), fault == Fault::Read);
        assert!(rt; writer.into_inner().is_empty());
    }
}
