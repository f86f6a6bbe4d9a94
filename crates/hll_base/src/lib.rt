// SPDX-License-Identifier: Apache-2.0
//! What the sketches are built on: errors, the hash, and readers and writers of image bytes
//! (docs/ARCHITECTURE.md, "The crates").
#![tactic(auto)]

pub mod bounds;
pub mod codec;
pub mod cursor;
pub mod error;
pub mod family;
mod halves;
pub mod hash;
pub mod hll_type;
pub mod laws;

pub use codec::SketchBytes;
pub use cursor::SketchSlice;
pub use error::{Error, ErrorKind, Reason};
pub use family::Family;
pub use hash::MurmurHash3X64128;
pub use hll_type::HllType;
