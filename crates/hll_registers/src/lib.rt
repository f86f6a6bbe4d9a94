// SPDX-License-Identifier: Apache-2.0
//! Traits for registers that can be read and made, and 4-bit registers (docs/ARCHITECTURE.md, "Registers").
#![tactic(auto)]

pub mod agreement;
pub mod aux_format;
pub mod estimate_state;
pub mod exception_map;
mod exception_maxima;
pub mod folds;
pub mod group_slice;
pub mod image_parts;
pub mod nibble_parts;
pub mod nibble_registers;
pub mod nibble_slice;
mod nibble_sums;
pub mod packed_images;
pub mod plain_images;
pub mod preamble;
pub mod register_slice;
pub mod register_store;
pub mod registers;
mod same_registers;
