// SPDX-License-Identifier: Apache-2.0
//! Plans of sketches: reads a text, and prints the image of one sketch.
#![tactic(auto)]

pub mod evaluate;
pub mod feed;
pub mod laws;
pub mod run;
mod stack;

pub use hll_text::{Fault, MergeError, Step, Watched, fault, reading, step, watched};
