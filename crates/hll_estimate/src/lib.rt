// SPDX-License-Identifier: Apache-2.0
//! The estimate of the number of distinct values from registers, in whole numbers (docs/NUMBERS.md, "Estimates").
#![tactic(auto)]

pub mod division;
pub mod double;
pub mod estimate;
pub mod laws;
mod series;
