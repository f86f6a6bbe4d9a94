// SPDX-License-Identifier: Apache-2.0
//! The stages of a sketch: the sizes of tables, and then registers (docs/MODEL.md, "Stages").
ghost use Rattle.std.specs.Prelude.{◌≡◌, ℕ, ◌^◌, ◌<◌, ◌≤◌, nat_le};
ghost use Rattle.hll_sketch.specs.Stage as stages;

use hll_coupons::serialization::{LG_LEAST_SET_BUCKETS, LG_LIST_BUCKETS, LG_SET_BELOW_LG_K};

/// Returns the greatest number of coupons in a table of 2^`size` buckets before the next stage: seven at size 3, else three
/// quarters of its buckets. `size` is at most 26.
pub fn most_kept(size: u8) -> usize
    requires { size ≤ 26 }
    ensures most { (n : ℕ) → stages.can_hold size n ≡ nat_le n result }
    ensures within { result < 2 ^ size }
{
    if size == LG_LIST_BUCKETS {
        7
    } else {
        3 * (1usize << size) / 4
    }
}

/// Returns whether a table of 2^`size` buckets, with `size` at most 26, can hold this number of coupons.
pub fn can_hold(size: u8, count: usize) -> bool
    requires { size ≤ 26 }
    ensures { result ≡ stages.can_hold size count }
{
    count <= most_kept(size)
}

/// Returns the smallest size, from `from` on, that holds this number of coupons, or `None` if the coupons become registers
/// (docs/MODEL.md, "Stages"). `lg_k` is at most 21.
pub fn stage(lg_k: u8, from: u8, count: usize) -> Option<u8>
    requires { lg_k ≤ 21 }
    ensures { result ≡ stages.stage lg_k from count }
{
    if from <= LG_LIST_BUCKETS && can_hold(LG_LIST_BUCKETS, count) {
        return Some(LG_LIST_BUCKETS);
    }
    let end = (lg_k + 1).saturating_sub(LG_SET_BELOW_LG_K);
    for size in LG_LEAST_SET_BUCKETS..end.max(LG_LEAST_SET_BUCKETS) {
        if from <= size && can_hold(size, count) {
            return Some(size);
        }
    }
    None
}
