// SPDX-License-Identifier: Apache-2.0
//! Loops over the bytes of 8-bit, 6-bit and 4-bit registers (docs/ARCHITECTURE.md, "Registers").
#![tactic(auto)]

pub mod groups;
pub mod kernels;
pub mod nibbles;
