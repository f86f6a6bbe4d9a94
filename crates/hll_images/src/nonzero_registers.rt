// SPDX-License-Identifier: Apache-2.0
//! The registers above 0 that coupons fold to, without the others. There is at most one for each coupon.
ghost use Rattle.std.specs.Prelude.{◌≡◌, ◌≤◌, ℕ, All, IfOk, IfErr};
ghost use Rattle.std.specs.List.Sorted.{IsNonDecreasing};
ghost use Rattle.hll_base.specs.declared.error.Reason.TheVariants.{Memory};
ghost use Rattle.hll_coupons.specs.Fold.{fold_to, value_at, raw_coupons_from};
ghost use Rattle.hll_coupons.specs.Pair.{set_of, value_of};
ghost use Rattle.hll_images.specs.Keys.{value_in_key, IsKey, registers_of_keys};

use hll_base::bounds::{MAX_VALUE, SLOT_BITS};
use hll_base::error::Error;
use hll_coupons::coupon::Coupon;
use std::alloc::Allocator;

/// The number of values that a key may have.
const VALUES: u32 = MAX_VALUE as u32 + 1;

/// Returns the registers above 0 that raw coupons fold to at an `lg_k`, as raw coupons whose slots ascend.
///
/// It takes no longer than sorting the coupons, at any `lg_k`. Allocates eight bytes for each coupon. Fails with `Memory`.
pub fn nonzero_registers<A: Allocator + Clone>(
    alloc: &A,
    lg_k: u8,
    raw_coupons: &[u32],
) -> Result<Vec<u32, A>, Error>
    requires { lg_k ≤ 21 }
    ensures ok { IfOk result (λ v. v.items ≡ raw_coupons_from 0 (fold_to (set_of raw_coupons.now) lg_k)) }
    ensures err { IfErr result (λ e. e ≡ Memory) }
{
    let mut keys = keys_of(alloc.clone()?, lg_k, raw_coupons)?;
    keys.sort_unstable();
    first_of_each_slot(alloc.clone()?, &keys)
}

/// Returns the keys of the raw coupons with a value above 0, in their order.
///
/// Fails with `Memory`.
fn keys_of<A: Allocator>(alloc: A, lg_k: u8, raw_coupons: &[u32]) -> Result<Vec<u32, A>, Error>
    requires { lg_k ≤ 21 }
    ensures registers { IfOk result (λ v. registers_of_keys lg_k v.items ≡ fold_to (set_of raw_coupons.now) lg_k) }
    ensures keys { IfOk result (λ v. All (IsKey lg_k) v.items) }
    ensures err { IfErr result (λ e. e ≡ Memory) }
{
    let mut keys = Vec::with_capacity(alloc, raw_coupons.len())?;
    for raw in raw_coupons {
        if *raw >> SLOT_BITS > 0 {
            keys.push(key_of(lg_k, *raw))?;
        }
    }
    Ok(keys)
}

/// Returns the key of a raw coupon at an `lg_k`: its slot there, and the lower, the greater its value is.
fn key_of(lg_k: u8, raw: u32) -> u32
    requires { lg_k ≤ 21 }
    ensures value { (s : ℕ) → value_at lg_k s raw ≡ value_in_key s result }
    ensures key { 1 ≤ value_of raw → IsKey lg_k result }
{
    let slot = raw % (1 << SLOT_BITS) % (1 << lg_k);
    slot * VALUES + (VALUES - 1 - (raw >> SLOT_BITS))
}

/// Returns the registers above 0 of sorted keys, as raw coupons: the first key of each slot has its greatest value.
///
/// Fails with `Memory`.
fn first_of_each_slot<A: Allocator>(alloc: A, keys: &[u32]) -> Result<Vec<u32, A>, Error>
    requires { IsNonDecreasing keys.now }
    ensures ok { IfOk result (λ v. (k : ℕ) → All (IsKey k) keys.now → v.items ≡ raw_coupons_from 0 (registers_of_keys k keys.now)) }
    ensures err { IfErr result (λ e. e ≡ Memory) }
{
    let mut found = Vec::with_capacity(alloc, keys.len())?;
    let mut next = 0;
    for key in keys {
        let slot = *key / VALUES;
        if next <= slot {
            found.push(Coupon::pack(slot, (VALUES - 1 - *key % VALUES) as u8).raw())?;
            next = slot + 1;
        }
    }
    Ok(found)
}
