// SPDX-License-Identifier: Apache-2.0
//! Watched streams that work and that fail, what is printed over them, and the lines of errors.
use hll_base::error::Reason;
use hll_fakes::{Failing, Narrow};
use hll_text::fault::{Fault, MergeError};
use hll_text::refusal::write_refusal;
use hll_text::streams::{write_all, write_hex_line};
use hll_text::watched::Watched;
use std::test::Fail;

/// Each read calls the stream once, and fails only if the stream fails.
#[test]
fn watched_reads(rt: HostRuntime) -> Result<(), Fail> {
    let mut reader = Watched::new(Failing {
        text: b"ab",
        calls: 3,
    });
    let mut buffer = [0u8; 4];
    assert_eq!(rt; reader.read(&mut buffer), Ok(1));
    assert_eq!(rt; reader.read(&mut buffer), Ok(1));
    assert_eq!(rt; buffer[0], b'b');
    assert_eq!(rt; reader.read(&mut buffer), Ok(0));
    assert!(rt; !reader.failed());
    assert_eq!(rt; reader.read(&mut buffer), Err(Fault::Read));
    assert!(rt; reader.failed());
    let mut inner = reader.into_inner();
    assert_eq!(rt; inner.calls, 0);
    inner.calls = 1;
    let mut again = Watched::new(inner);
    assert_eq!(rt; again.read(&mut buffer), Ok(0));
    assert!(rt; !again.failed());
    Ok(())
}

/// Writes digits and LF, in pieces if they are many. A stream without enough room gets a prefix of them.
#[test]
fn hex_lines(rt: HostRuntime) -> Result<(), Fail> {
    for count in [0usize, 1, 16383, 16384, 16385, 40000] {
        let bytes = vec![in rt.alloc(); 0xa5u8; count]?;
        for room in [0, 1, 2 * count, 2 * count + 1, 2 * count + 9] {
            let mut taken = Vec::new(rt.alloc());
            let mut writer = Watched::new(Narrow {
                taken: &mut taken,
                room,
                fails: true,
            });
            let result = write_hex_line(&mut writer, &bytes);
            drop(writer);
            let (digits, end) = taken.split_at(taken.len().min(2 * count));
            assert_eq!(rt;
                result,
                if room <= 2 * count {
                    Err(Fault::Write)
                } else {
                    Ok(())
                }
            );
            assert_eq!(rt; taken.len(), room.min(2 * count + 1));
            assert!(rt;
                digits
                    .iter()
                    .enumerate()
                    .all(|(place, digit)| *digit == b"a5"[place % 2])
            );
            assert!(rt; b"\n".starts_with(end));
        }
    }
    Ok(())
}

/// All bytes are written if the stream has room, and otherwise the bytes that fit. An empty piece is passed on, and it is not
/// a failure if nothing of it is accepted.
#[test]
fn watched_writes(rt: HostRuntime) -> Result<(), Fail> {
    let line: &[u8] = b"0201\n";
    for room in 0..7usize {
        for fails in [false, true] {
            let mut taken = Vec::new(rt.alloc());
            let mut writer = Watched::new(Narrow {
                taken: &mut taken,
                room,
                fails,
            });
            let result = write_all(&mut writer, line);
            let failed = writer.failed();
            drop(writer);
            assert_eq!(rt; failed, room < 5);
            assert_eq!(rt; result.is_err(), failed);
            assert!(rt; line.starts_with(taken.as_slice()));
            assert_eq!(rt; taken.len(), room.min(5));
        }
    }
    let mut taken = Vec::new(rt.alloc());
    let mut writer = Watched::new(Narrow {
        taken: &mut taken,
        room: 1,
        fails: false,
    });
    assert_eq!(rt; writer.write(b""), Ok(0));
    assert!(rt; !writer.failed());
    assert_eq!(rt; writer.write(b"a"), Ok(1));
    assert_eq!(rt; writer.write(b"b"), Err(Fault::Write));
    assert!(rt; writer.failed());
    Ok(())
}

/// If the writer fails, a prefix of the line was written.
#[test]
fn refusals_to_writers_that_fail(rt: HostRuntime) -> Result<(), Fail> {
    let refusal = MergeError {
        line: 12,
        fault: Fault::Image(Reason::Count),
    };
    let printed: &[u8] = b"line 12: image count\n";
    for room in 0..23usize {
        for fails in [false, true] {
            let mut taken = Vec::new(rt.alloc());
            let mut writer = Narrow {
                taken: &mut taken,
                room,
                fails,
            };
            let result = write_refusal(&mut writer, &refusal);
            drop(writer);
            if room < 21 {
                assert_eq!(rt; result, Err(Fault::Write));
                assert_eq!(rt; taken.as_slice(), &printed[..room]);
            } else {
                assert_eq!(rt; result, Ok(()));
                assert_eq!(rt; taken.as_slice(), printed);
            }
        }
    }
    Ok(())
}
