// SPDX-License-Identifier: Apache-2.0
//! Images of 8-bit and 6-bit registers (docs/FORMAT.md, "What is written"): header, preamble, and the registers as they
//! are stored.
ghost use Rattle.std.specs.Prelude.{◌≡◌, IfOk, IfErr};
ghost use Rattle.hll_base.specs.declared.error.Reason.TheVariants.{Memory};
ghost use Rattle.hll_kernels.specs.Groups.{registers_in, AreGroups};
ghost use Rattle.hll_kernels.specs.Packed.{zeros};
ghost use Rattle.hll_registers.specs.Payload.{hll6_bytes, hll8_bytes};

use crate::estimate_state::EstimateState;
use crate::preamble::{HllHeader, Preamble};
use hll_base::error::Error;
use hll_base::hll_type::HllType;
use hll_coupons::serialization::HLL_PREAMBLE_SIZE;
use std::alloc::Allocator;

/// Returns the image of 8-bit registers, given their state and the number of registers that are 0: 40 bytes, and one
/// for each register. Allocated in one request.
///
/// Fails with `Memory` if the allocation fails.
pub fn eight_bit_image<A: Allocator>(
    alloc: A,
    lg_k: u8,
    registers: &[u8],
    zero_count: u32,
    state: EstimateState,
) -> Result<Vec<u8, A>, Error>
    requires { zero_count ≡ zeros registers.now }
    ensures ok { IfOk result (λ image. image.items ≡ hll8_bytes lg_k registers.now state) }
    ensures err { IfErr result (λ e. e ≡ Memory) }
{
    let preamble = Preamble {
        state,
        num_at_cur_min: zero_count,
        exception_count: 0,
    };
    let header = HllHeader::plain(lg_k, HllType::Hll8);
    let mut bytes = preamble.start_image(alloc, header, HLL_PREAMBLE_SIZE + registers.len())?;
    bytes.write(registers)?;
    Ok(bytes.into_bytes())
}

/// Returns the image of 6-bit registers, given their state and the number of registers that are 0: 40 bytes, three for
/// each four registers, and a zero byte. Allocated in one request.
///
/// Fails with `Memory` if the allocation fails.
pub fn six_bit_image<A: Allocator>(
    alloc: A,
    lg_k: u8,
    groups: &[[u8; 3]],
    zero_count: u32,
    state: EstimateState,
) -> Result<Vec<u8, A>, Error>
    requires groups { AreGroups lg_k groups.now }
    requires zeros { zero_count ≡ zeros (registers_in groups.now) }
    ensures ok { IfOk result (λ image. image.items ≡ hll6_bytes lg_k (registers_in groups.now) state) }
    ensures err { IfErr result (λ e. e ≡ Memory) }
{
    let preamble = Preamble {
        state,
        num_at_cur_min: zero_count,
        exception_count: 0,
    };
    let packed = groups.as_flattened();
    let header = HllHeader::plain(lg_k, HllType::Hll6);
    let mut bytes = preamble.start_image(alloc, header, HLL_PREAMBLE_SIZE + packed.len() + 1)?;
    bytes.write(packed)?;
    bytes.write(&[0])?;
    Ok(bytes.into_bytes())
}
