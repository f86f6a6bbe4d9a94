// SPDX-License-Identifier: Apache-2.0
//! Registers of each width that own their memory, merges, conversions, and laws of packed forms (docs/ARCHITECTURE.md,
//! "Registers").
#![tactic(auto)]

pub mod array4;
pub mod array6;
pub mod array8;
pub mod convert;
pub mod few_exceptions;
mod four_bit_payload;
pub mod kernels;
pub mod laws;
pub mod merge;

pub use array4::Array4;
pub use array6::Array6;
pub use array8::Array8;
pub use hll_registers::aux_format::{self, AuxFormat};
pub use hll_registers::estimate_state::{self, EstimateState};
pub use hll_registers::register_store::{self, RegisterStore};
pub use hll_registers::registers::{self, Registers};
