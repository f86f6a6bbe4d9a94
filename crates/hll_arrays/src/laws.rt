// SPDX-License-Identifier: Apache-2.0
//! Laws of packed registers (docs/MODEL.md, "Packed forms"). Each is a clause of a function that does nothing. A caller
//! whose proof needs the law calls the function.
ghost use Rattle.hll_registers.specs.EstimatorFields.{OneEstimatorState};
ghost use Rattle.hll_registers.specs.FourBits.{MinimumNeverFalls, PackedIsOfRegisters};
ghost use Rattle.hll_kernels.specs.Packed.{NibblesReadBack, FieldsReadBack};
ghost use Rattle.hll_registers.specs.Payload.{ExceptionsReadBack};
ghost use Rattle.hll_arrays.specs.ReadBack.{Hll8ReadBack, Hll6ReadBack, Hll4ReadBack};
ghost use Rattle.hll_registers.specs.Store.{PackedIsWritten};

/// A law of the fields that a composite estimator reads:
///
/// - `one_state`: registers have one state that a composite estimator computes from.
pub fn estimator_fields()
    ensures one_state { OneEstimatorState }
{}

/// Laws of packed registers:
///
/// - `nibbles_read_back`: each nibble is read back as it was written.
/// - `fields_read_back`: 6-bit registers are read back as they were written.
/// - `exceptions_read_back`: nibbles and exceptions give each register back, whatever the order of the exceptions.
/// - `packed_is_of_registers`: what 4-bit registers store are the minimum of their registers, the count at it, the
///   nibbles and the exceptions.
/// - `minimum_never_falls`: over any run of updates of new registers, the minimum rises by at most 63 in all, and never
///   falls.
pub fn packed_forms()
    ensures nibbles_read_back { NibblesReadBack }
    ensures fields_read_back { FieldsReadBack }
    ensures exceptions_read_back { ExceptionsReadBack }
    ensures packed_is_of_registers { PackedIsOfRegisters }
    ensures minimum_never_falls { MinimumNeverFalls }
{}

/// Laws of what is written for registers:
///
/// - `hll8_read_back`: what is written for 8-bit registers is a payload after its header, and gives registers and state
///   back.
/// - `hll6_read_back`: what is written for 6-bit registers is a payload after its header, and gives registers and state
///   back.
/// - `hll4_read_back`: what is written for 4-bit registers is a payload after its header, and gives registers and state
///   back.
/// - `packed_is_written`: what is written ends in the packed bytes and the exceptions in ascending order. Both are
///   functions of the width and the registers alone.
pub fn payloads()
    ensures hll8_read_back { Hll8ReadBack }
    ensures hll6_read_back { Hll6ReadBack }
    ensures hll4_read_back { Hll4ReadBack }
    ensures packed_is_written { PackedIsWritten }
{}
