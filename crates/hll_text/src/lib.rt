// SPDX-License-Identifier: Apache-2.0
//! The text of plans: its lines and their tokens, the steps in its lines, faults, and streams that remember whether they failed
//! (docs/ARCHITECTURE.md, "The crates").
#![tactic(auto)]

mod bytes;
pub mod fault;
pub mod lines;
pub mod reading;
pub mod refusal;
pub mod step;
pub mod streams;
mod tokens;
pub mod watched;

pub use fault::{Fault, MergeError};
pub use step::{Line, Step};
pub use watched::Watched;
