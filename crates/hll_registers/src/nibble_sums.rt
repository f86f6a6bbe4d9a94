// SPDX-License-Identifier: Apache-2.0
//! Sums of the weights of 4-bit registers: from their nibbles if none is 15, otherwise from their values.
ghost use Rattle.std.specs.Prelude.{◌≡◌, ◌+◌, ◌*◌, ◌/◌, ◌%◌, ◌^◌, ◌<◌, ◌≤◌, ℕ, length, take, drop, All, IfSome, IsSome};
ghost use Rattle.hll_kernels.specs.Lanes.{nibble_values};
ghost use Rattle.hll_kernels.specs.Packed.{nibble_at};
ghost use Rattle.hll_kernels.specs.WeightSums.{AreSumsOf};
ghost use Rattle.hll_registers.specs.FourBits.{exception_in, unboxed, unpacked, IsMapFor};
ghost use Rattle.hll_registers.specs.Payload.{Agrees};

use crate::exception_map::{Exceptions, max_with_registers};
use hll_kernels::kernels::{WeightSums, weight_sums};
use hll_kernels::nibbles::unmarked_sums;
use std::alloc::Allocator;

/// Returns the sums of 2^-v over at most 128 registers v from `first` on. The registers are nibbles above a minimum,
/// and exceptions that agree with them.
pub(crate) fn sums_of_few<A: Allocator>(
    first: usize,
    size: usize,
    nibbles: &[u8],
    map: &Exceptions<A>,
    lg_k: u8,
    minimum: u8,
) -> WeightSums
    requires within { first + size ≤ 2 ^ lg_k }
    requires aligned { first % 4 ≡ 0 }
    requires groups { size % 4 ≡ 0 }
    requires few { size ≤ 128 }
    requires most { lg_k ≤ 21 }
    requires size { 2 * length nibbles.now ≡ 2 ^ lg_k }
    requires map { IsMapFor lg_k (unboxed map.now) }
    requires agree { (s : ℕ) → s < 2 ^ lg_k → Agrees minimum (nibble_at nibbles.now s) (exception_in (unboxed map.now) s) }
    ensures { AreSumsOf result (take size (drop first (unpacked lg_k minimum nibbles.now (unboxed map.now)))) }
{
    let start = first / 2;
    if let Some(sums) = sums_of_nibbles(&nibbles[start..start + size / 2], minimum) {
        return sums;
    }
    let mut registers = [0; 128];
    max_with_registers(
        &mut registers[..size],
        first as u32,
        nibbles,
        map,
        lg_k,
        minimum,
    );
    weight_sums(&registers[..size])
}

/// Returns the sums of 2^-(minimum + n) over the 128 nibbles n of 64 bytes. Returns `None` if a nibble is 15, if the
/// minimum is above 16, or if there aren't 64 bytes.
fn sums_of_nibbles(bytes: &[u8], minimum: u8) -> Option<WeightSums>
    ensures unmarked { IsSome result → All (λ n. n < 15) (nibble_values 0 bytes.now) }
    ensures sums { IfSome result (λ s. AreSumsOf s (nibble_values minimum bytes.now)) }
{
    if bytes.len() != 64 || minimum > 16 {
        return None;
    }
    let (blocks, _) = bytes.as_chunks::<64>();
    unmarked_sums(&blocks[0], minimum)
}
