// SPDX-License-Identifier: Apache-2.0
//! The registers of an image, with their estimate state, borrowed from its bytes (docs/FORMAT.md, "HLL"): one pass checks them,
//! without a copy.
ghost use Rattle.std.specs.Prelude.{◌≡◌, ◌≢◌, Some, IfOk, IfErr};
ghost use Rattle.hll_base.specs.declared.error.Reason.TheVariants.{Memory};
ghost use Rattle.hll_sketch.specs.Checks.{first_fault};
ghost use Rattle.hll_sketch.specs.Header.{header_of};
ghost use Rattle.hll_sketch.specs.Image.{HasHeader, width_bits};
ghost use Rattle.hll_sketch.specs.Refusal.{IsRefusal};
ghost use Rattle.hll_sketch.specs.MergedIn.{IsOfRegisters, HasPlainRegisters};

use crate::header::{HEADER_SIZE, Header};
use hll_arrays::array4::read_nibbles;
use hll_arrays::array6::read_groups;
use hll_arrays::array8::read_registers;
use hll_arrays::aux_format::AuxFormat;
use hll_base::cursor::SketchSlice;
use hll_base::error::Error;
use hll_registers::group_slice::GroupSlice;
use hll_registers::nibble_slice::NibbleSlice;
use hll_registers::register_slice::RegisterSlice;
use hll_registers::registers::Use;
use std::alloc::Allocator;

/// Evaluates an expression with the registers of an image of any width, whose header has been read. `source` is a
/// `RegisterSlice`, a `GroupSlice` or a `NibbleSlice`, each a `Registers`, and `alloc` a reference to the allocator for a map
/// of exceptions of 4-bit registers. If the registers fail a check, `?` returns from the function that uses the macro.
// (a macro, not an enum, so that a caller keeps no copy of the registers' description: that took a tenth of a merge)
macro_rules! with_registers {
    ($alloc:expr, $bytes:expr, $header:expr, $source:ident => $result:expr) => {
        match $header.hll_type {
            hll_base::hll_type::HllType::Hll4 => {
                let $source = $crate::raw_registers::four_bit_registers(
                    $alloc,
                    $bytes,
                    $header,
                    hll_registers::registers::Use::Join,
                )?;
                $result
            }
            hll_base::hll_type::HllType::Hll6 => {
                let $source = $crate::raw_registers::six_bit_registers($bytes, $header)?;
                $result
            }
            hll_base::hll_type::HllType::Hll8 => {
                let $source = $crate::raw_registers::eight_bit_registers(
                    $bytes,
                    $header,
                    hll_registers::registers::Use::Join,
                )?;
                $result
            }
        }
    };
}

pub(crate) use with_registers;

/// Returns the registers of an image of 4-bit registers, with a map for their exceptions from this allocator. Allocates nothing
/// else, and nothing at all if there are no exceptions.
///
/// Fails with the reason of the first check that they fail, or else with `Memory`.
pub fn four_bit_registers<'a, A: Allocator + Clone>(
    alloc: &A,
    bytes: &'a [u8],
    header: Header,
    later: Use,
) -> Result<NibbleSlice<'a, A>, Error>
    requires has { HasHeader bytes.now 2 }
    requires width { width_bits bytes.now ≡ 0 }
    requires header { header ≡ header_of bytes.now }
    ensures ok { IfOk result (IsOfRegisters bytes.now) }
    ensures err { IfErr result (IsRefusal bytes.now) }
    ensures needed { IfErr result (λ e. e ≡ Memory → HasPlainRegisters bytes.now → ⊥) }
{
    read_nibbles(
        alloc,
        SketchSlice::new(&bytes[HEADER_SIZE..]),
        header.state_byte,
        header.lg_k,
        AuxFormat::from_header(header.compact, header.lg_arr),
        header.out_of_order,
        later,
    )
}

/// Returns the registers of an image of 8-bit registers.
///
/// Fails with the reason of the first check that they fail.
pub fn eight_bit_registers(
    bytes: &[u8],
    header: Header,
    later: Use,
) -> Result<RegisterSlice<'_>, Error>
    requires has { HasHeader bytes.now 2 }
    requires width { width_bits bytes.now ≡ 2 }
    requires header { header ≡ header_of bytes.now }
    ensures ok { IfOk result (IsOfRegisters bytes.now) }
    ensures err { IfErr result (λ e. (e ≢ Memory) × (first_fault bytes.now ≡ Some e)) }
{
    let payload = SketchSlice::new(&bytes[HEADER_SIZE..]);
    read_registers(payload, header.lg_k, header.out_of_order, later)
}

/// Returns the registers of an image of 6-bit registers.
///
/// Fails with the reason of the first check that they fail.
pub fn six_bit_registers(bytes: &[u8], header: Header) -> Result<GroupSlice<'_>, Error>
    requires has { HasHeader bytes.now 2 }
    requires width { width_bits bytes.now ≡ 1 }
    requires header { header ≡ header_of bytes.now }
    ensures ok { IfOk result (IsOfRegisters bytes.now) }
    ensures err { IfErr result (λ e. (e ≢ Memory) × (first_fault bytes.now ≡ Some e)) }
{
    let payload = SketchSlice::new(&bytes[HEADER_SIZE..]);
    let (groups, state) = read_groups(payload, header.lg_k, header.out_of_order)?;
    Ok(GroupSlice::new(header.lg_k, groups).with_state(state))
}
