// SPDX-License-Identifier: Apache-2.0
//! A filter that sets the estimator fields in images, one image for each line (docs/PLAN.md, "Estimator fields").
#![tactic(auto)]

mod filter;
pub mod run;
