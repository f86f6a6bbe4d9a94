// SPDX-License-Identifier: Apache-2.0
//! Lines of plans and of texts, and the bytes of images.
use hll_base::hll_type::HllType;
use hll_text::fault::{Fault, MergeError};
use hll_text::lines::{line_end, lines_of_cuts, next_ended, without_return};
use hll_text::reading::{decode_into, faults_of_lines, read_step};
use hll_text::step::Step;
use std::test::Fail;

/// Lines that are not a step, and their faults.
const REFUSED: [(&[u8], Fault); 12] = [
    (b"new  10 8", Fault::Syntax),
    (b"new 123456789 8", Fault::Syntax),
    (b"new 10 8\r", Fault::Syntax),
    (b"new 3 8", Fault::Range),
    (b"new 10 5", Fault::Range),
    (b"coupon 67108864 1", Fault::Range),
    (b"image", Fault::Syntax),
    (b"union 0 12", Fault::Syntax),
    (b"fold", Fault::Syntax),
    (b"fold 4 4", Fault::Syntax),
    (b"fold 3", Fault::Range),
    (b"fold 22", Fault::Range),
];

#[test]
fn steps(rt: HostRuntime) -> Result<(), Fail> {
    let image: Step = Step::Image(vec![in rt.alloc(); 2, 10]?);
    let other: Step = Step::Image(vec![in rt.alloc(); 2, 11]?);
    assert!(rt; image != other);
    let rows: [(&[u8], Option<Step>); 7] = [
        (b"new 10 8", Some(Step::New(10, HllType::Hll8))),
        (b"coupon 5 03", Some(Step::Coupon(5, 3))),
        (b"image 020A", Some(image)),
        (b"union 3 12 6", Some(Step::Union(3, 12, HllType::Hll6))),
        (b"fold 04", Some(Step::Fold(4))),
        (b"# new 10 8", None),
        (b"", None),
    ];
    for (line, step) in &rows {
        assert_eq!(rt; read_step(rt.alloc(), line)?, *step);
    }
    for (line, fault) in REFUSED {
        assert_eq!(rt; read_step(rt.alloc(), line), Err(fault));
    }
    faults_of_lines();
    let fault = Fault::Range;
    assert_eq!(rt; fault.at(3), MergeError { line: 3, fault });
    Ok(())
}

/// The first line of a text that has an LF, and what follows it. The CR before the LF belongs to the line's end.
#[test]
fn first_lines(rt: HostRuntime) {
    let rows: [(&[u8], Option<(&[u8], &[u8])>); 6] = [
        (b"", None),
        (b"\n", Some((b"", b""))),
        (b"\r\n\n", Some((b"", b"\n"))),
        (b"a\r\r\nb", Some((b"a\r", b"b"))),
        (b"a\nb\n", Some((b"a", b"b\n"))),
        (b"b\r", None),
    ];
    for (text, first) in rows {
        assert_eq!(rt; next_ended(text), first);
        assert_eq!(rt; line_end(text).is_some(), first.is_some());
    }
    assert_eq!(rt; line_end(b"ab\ncd\n"), Some(2));
    assert_eq!(rt; without_return(b"a\r\r"), b"a\r".as_slice());
    lines_of_cuts();
}

/// An LF at each index of texts of about two blocks, with others after it, and a text that lacks it.
#[test]
fn first_ends(rt: HostRuntime) {
    for len in 0..150usize {
        let mut text = [b'a'; 150];
        let text = &mut text[..len];
        assert_eq!(rt; line_end(text), None);
        for at in (0..len).rev() {
            text[at] = b'\n';
            assert_eq!(rt; line_end(text), Some(at));
        }
    }
}

/// One buffer is used for digits after digits, also for fewer digits.
#[test]
fn decoded_images(rt: HostRuntime) -> Result<(), Fail> {
    let rows: [(&[u8], Result<&[u8], Fault>); 6] = [
        (b"02", Ok(b"\x02")),
        (b"0a0B0c", Ok(b"\x0a\x0b\x0c")),
        (b"ff", Ok(b"\xff")),
        (b"", Ok(b"")),
        (b"123", Err(Fault::Hex)),
        (b"0g", Err(Fault::Hex)),
    ];
    let mut buffer = Vec::new(rt.alloc());
    for (digits, bytes) in rows {
        match decode_into(buffer, digits) {
            Ok(decoded) => {
                assert_eq!(rt; Ok(decoded.as_slice()), bytes);
                buffer = decoded;
            }
            Err(fault) => {
                assert_eq!(rt; Err(fault), bytes);
                buffer = Vec::new(rt.alloc());
            }
        }
    }
    Ok(())
}
