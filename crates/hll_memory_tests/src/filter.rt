// SPDX-License-Identifier: Apache-2.0
//! The filter, with each of its allocations failing in turn.
use crate::harness::Heap;
use hll_estimator_fields::run::run;
use hll_text::fault::{Fault, MergeError};
use hll_text::watched::Watched;
use std::process::Abort;
use std::test::Fail;

/// A number of requests that none of these runs reaches.
const MOST: u64 = 1000;

/// Texts, and the requests of a run: for the text of a line and for its bytes, if the line is longer than each line
/// before it; for the sketch of each line, and for its image.
const TEXTS: [(&str, u64); 6] = [
    ("", 0),
    ("0201070a030801080500000c\n", 4),
    ("0201070a030801080500000c", 4),
    ("0201070a030801080500000c\n0201070a030801080500000c\n", 6),
    // 8-bit registers, whose fields are set, after a list
    (
        "02010704030801080500000c\n0a0107040000000a0100000000000000020000000000000003000000000000000f0000000000000005000000000000000000000000000000\n",
        8,
    ),
    // a set, whose coupons are sorted in a copy, and a line that is shorter
    (
        "0301070a05080009010000000500000c\n0201070a030801080500000c\n",
        7,
    ),
];

/// What the filter returned, and what it printed.
#[derive(Drop)]
struct Outcome {
    answer: Result<(), MergeError>,
    printed: Vec<u8>,
}

/// Runs the filter, with streams in memory of another allocator.
fn filtered(heap: &Heap, text: &str) -> Outcome {
    let mut reader = Watched::new(text.as_bytes());
    let mut writer = Watched::new(Vec::new(heap.inner()));
    let answer = run(heap, &mut reader, &mut writer);
    Outcome {
        answer,
        printed: writer.into_inner(),
    }
}

/// Returns whether these bytes are lines, and the last one ends in LF, too.
fn are_lines(bytes: &[u8]) -> bool {
    match bytes.last() {
        None => true,
        Some(last) => *last == b'\n',
    }
}

/// Makes each request of a run fail in turn, and returns the number of requests. The lines before the one that lacks
/// memory are printed completely.
fn filter_asks(rt: &impl Abort, heap: &Heap, text: &str) -> u64 {
    let given = filtered(heap, text);
    for nth in 1..MOST {
        heap.refuse(nth);
        let outcome = filtered(heap, text);
        let asked = heap.asked();
        heap.admit();
        let (printed, all) = (outcome.printed.as_slice(), given.printed.as_slice());
        if outcome.answer == given.answer {
            assert!(rt; asked < nth, "{nth} was refused");
            assert_eq!(rt; printed, all);
            return asked;
        }
        assert!(rt; nth <= asked, "{nth} of {asked}");
        let fault = outcome.answer.err().map(|e| e.fault);
        assert_eq!(rt; fault, Some(Fault::Memory));
        assert!(rt; all.starts_with(printed) && are_lines(printed), "{nth}");
        assert!(rt; printed.len() < all.len(), "{nth}");
    }
    MOST
}

#[test]
fn refused_lines(rt: HostRuntime) -> Result<(), Fail> {
    let heap = Heap::new(rt.alloc());
    for (text, requests) in TEXTS {
        let asked = filter_asks(&rt, &heap, text);
        assert_eq!(rt; asked, requests, "{text}");
    }
    Ok(())
}
