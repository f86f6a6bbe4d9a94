// SPDX-License-Identifier: Apache-2.0
//! Checks by their order whether coupons are distinct.
ghost use Rattle.std.specs.Prelude.{◌≡◌, ◌↔◌, length, IsTrue, IfOk, IfErr};
ghost use Rattle.std.specs.FinSet.{len};
ghost use Rattle.std.specs.List.Sorted.{IsStrictlyIncreasing};
ghost use Rattle.hll_base.specs.declared.error.Reason.TheVariants.{Memory};
ghost use Rattle.hll_coupons.specs.Pair.{set_of};

use crate::coupon::Coupon;
use hll_base::error::Error;
use std::alloc::Allocator;

/// Returns whether no coupon occurs twice.
///
/// One pass if the coupons ascend. Otherwise they are copied and sorted, with one allocation. Fails with `Memory` if it
/// fails.
pub(crate) fn are_distinct<A: Allocator>(alloc: A, coupons: &[Coupon]) -> Result<bool, Error>
    ensures ok { IfOk result (λ distinct. IsTrue distinct ↔ (len (set_of coupons.now) ≡ length coupons.now)) }
    ensures err { IfErr result (λ e. e ≡ Memory) }
{
    if ascend(coupons) {
        return Ok(true);
    }
    let mut sorted = Vec::from_slice(alloc, coupons)?;
    sorted.sort_unstable();
    Ok(ascend(&sorted))
}

/// Returns whether each coupon is less than the next.
fn ascend(coupons: &[Coupon]) -> bool
    ensures { IsTrue result ↔ IsStrictlyIncreasing coupons.now }
{
    for i in 1..coupons.len() {
        if coupons[i - 1] >= coupons[i] {
            return false;
        }
    }
    true
}
