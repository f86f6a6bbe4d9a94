// SPDX-License-Identifier: Apache-2.0
//! Unions of a thousand 8-bit sketches in memory.
use crate::fixtures::prints;
use std::test::Fail;

/// What a thousand sketches print. Sketch n has one coupon, with slot n and value n modulo 63, plus one.
const THOUSAND: &str =
    "0a0107070010000a00000000000000000000000000000000000000000000000000000000000000000f101112131415161718191a1b1c1d1e1f202122232425262728292a2b2c2d2e2f303132333435363738393a3b3c3d3e3f3e3f3e3f3e3f3e3f3e3f3e3f3e3f0f101112131415161718191a1b1c1d1e1f202122232425262728292a2b2c2d2e2f3031323334353637363738393a3b3c3d3e3f3e3f3e3f3e3f3e3f3e3f3e3f0d0e\n";

/// Returns the lines of a thousand sketches of one coupon each, with the lines `after` following each.
fn thousand(rt: &HostRuntime, after: &str) -> Result<String, Fail> {
    let mut text = String::new(rt.alloc());
    for number in 0..1000u32 {
        let value = (number % 63).saturating_add(1);
        let sketch = format!(in rt.alloc(); "new 7 8\ncoupon {number} {value}\n{after}")?;
        text.push_str(&sketch)?;
    }
    Ok(text)
}

/// Merges a thousand sketches at once, and one after the other; and a thousand equal sketches.
#[test]
fn many_sketches(rt: HostRuntime) -> Result<(), Fail> {
    let mut at_once = thousand(&rt, "")?;
    at_once.push_str("union 1000 7 8")?;
    assert!(rt; prints(&rt, &at_once, THOUSAND));
    let mut in_turn = String::from_str(rt.alloc(), "new 7 8\n")?;
    let sketches = thousand(&rt, "union 2 7 8\n")?;
    in_turn.push_str(&sketches)?;
    assert!(rt; prints(&rt, &in_turn, THOUSAND));
    let mut same = String::new(rt.alloc());
    for _ in 0..1000u32 {
        same.push_str("new 4 8\ncoupon 5 3\n")?;
    }
    same.push_str("union 1000 4 8")?;
    assert!(rt; prints(&rt, &same, "02010704030801080500000c\n"));
    Ok(())
}
