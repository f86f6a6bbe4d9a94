// SPDX-License-Identifier: Apache-2.0
//! Errors: their numbers and kinds.
use hll_base::error::{Error, ErrorKind, Reason};

/// A reason of each kind, and its number.
#[test]
fn kinds(rt: HostRuntime) {
    for (reason, number, kind) in [
        (Reason::Truncated, 1, ErrorKind::InvalidData),
        (Reason::Register, 11, ErrorKind::InvalidData),
        (Reason::Argument, 12, ErrorKind::InvalidArgument),
        (Reason::Memory, 13, ErrorKind::OutOfMemory),
    ] {
        assert_eq!(rt; reason.number(), number);
        assert_eq!(rt; Error::new(reason).kind(), kind);
    }
}
