// SPDX-License-Identifier: Apache-2.0
//! Plans that come in pieces: what is pending, a fault that is kept, and many lines.
use hll_merge::feed::{PlanFeed, cuts_agree};
use hll_text::fault::Fault;
use std::test::Fail;

/// Bytes without an LF are pending, and a fault is kept.
#[test]
fn pending_and_faults(rt: HostRuntime) -> Result<(), Fail> {
    let mut feed = PlanFeed::new(rt.alloc())?;
    assert_eq!(rt; feed.pending(), b"".as_slice());
    assert_eq!(rt; feed.feed(b"new 10 8"), Ok(()));
    assert_eq!(rt; feed.pending(), b"new 10 8".as_slice());
    assert_eq!(rt; feed.feed(b"\nnew 4"), Ok(()));
    assert_eq!(rt; feed.pending(), b"new 4".as_slice());
    let refusal = Fault::Syntax.at(2);
    assert_eq!(rt; feed.feed(b"x 8\nnew 10"), Err(refusal));
    assert_eq!(rt; feed.pending(), b"".as_slice());
    assert_eq!(rt; feed.feed(b"new 10 8\n"), Err(refusal));
    assert_eq!(rt; feed.finish().err(), Some(refusal));
    cuts_agree();
    Ok(())
}

/// A hundred thousand lines of coupons, in pieces of a thousand lines: the image of sixteen registers of 7.
#[test]
fn many_coupons(rt: HostRuntime) -> Result<(), Fail> {
    let mut lines = String::new(rt.alloc());
    for slot in 0..1000u32 {
        let line = format!(in rt.alloc(); "coupon {slot} 7\n")?;
        lines.push_str(&line)?;
    }
    let mut feed = PlanFeed::new(rt.alloc())?;
    feed.feed(b"new 4 8\n")?;
    for _ in 0..100u32 {
        feed.feed(lines.as_bytes())?;
    }
    let digits = hex::encode(rt.alloc(), feed.finish()?.serialize()?)?;
    let wanted = "0a0107040010000a0000000000000000000000000000000000000000000000000000000000000000\
        07070707070707070707070707070707";
    assert_eq!(rt; digits.as_str(), wanted);
    Ok(())
}

/// A hundred thousand sketches in one union.
#[test]
fn many_children(rt: HostRuntime) -> Result<(), Fail> {
    let mut feed = PlanFeed::new(rt.alloc())?;
    for _ in 0..100_000u32 {
        feed.feed(b"new 10 8\ncoupon 5 3\n")?;
    }
    feed.feed(b"union 100000 10 8")?;
    let image = feed.finish()?.serialize()?;
    assert_eq!(rt;
        image.as_slice(),
        [2, 1, 7, 10, 3, 8, 1, 8, 5, 0, 0, 12].as_slice()
    );
    Ok(())
}
