// SPDX-License-Identifier: Apache-2.0
//! The loops over bytes of registers, at values worked out by hand.
use hll_arrays::kernels::{lower_nibbles, pack_group, units};

#[test]
fn kernels(rt: HostRuntime) {
    let mut nibbles = [0x1fu8, 0x21];
    assert_eq!(rt; lower_nibbles(&mut nibbles), 2);
    assert_eq!(rt; nibbles, [0x0f, 0x10]);
    assert_eq!(rt; units(&[0, 63]), 9223372036854775809);
    assert_eq!(rt; pack_group([0, 63, 42, 51]), [0xc0, 0xaf, 0xce]);
}
