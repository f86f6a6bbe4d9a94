// SPDX-License-Identifier: Apache-2.0
//! Sketches folded to a smaller `lg_k`.
ghost use Rattle.std.specs.Prelude.{◌≤◌};

use crate::fixtures::{WIDTHS, filled};
use hll_base::error::Error;
use hll_base::hll_type::HllType;
use hll_coupons::coupon::Coupon;
use hll_sketch::HllSketch;
use std::alloc::Global;
use std::process::Abort;
use std::test::Fail;

/// Returns the registers at an `lg_k` of a sketch of `lg_k` 8.
fn registers_of(alloc: Global, hll_type: HllType, count: u32, lg_k: u8) -> Result<Vec<u8>, Error> {
    let sketch = filled(alloc, 8, hll_type, count, 63)?;
    let lg_k = lg_k.max(4).min(sketch.lg_config_k());
    sketch.registers_at(lg_k)
}

/// The registers are the same for every width.
#[test]
fn registers(rt: HostRuntime) -> Result<(), Fail> {
    for count in [0u32, 7, 8, 20, 40, 200] {
        for lg_k in 4..9u8 {
            let wanted = registers_of(rt.alloc(), HllType::Hll8, count, lg_k)?;
            for hll_type in WIDTHS {
                let values = registers_of(rt.alloc(), hll_type, count, lg_k)?;
                assert_eq!(rt; values.as_slice(), wanted.as_slice());
            }
        }
    }
    Ok(())
}

#[test]
fn values(rt: HostRuntime) -> Result<(), Fail> {
    let values = filled(rt.alloc(), 10, HllType::Hll6, 18, 63)?.registers_at(4)?;
    let wanted = [17u8, 18, 3, 4, 5, 6, 7, 8, 9, 10, 11, 12, 13, 14, 15, 16];
    assert_eq!(rt; values.as_slice(), wanted.as_slice());
    Ok(())
}
