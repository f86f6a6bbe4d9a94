// SPDX-License-Identifier: Apache-2.0
//! Sketches, their values and images, and the laws of adding and merging (docs/ARCHITECTURE.md, "Sketches").
#![tactic(auto)]

mod additions;
pub mod borrowed_image;
mod conversion;
pub mod coupon_room;
pub mod coupons_of_image;
pub mod few_exceptions;
mod folding;
pub mod header;
mod image_check;
pub mod image_head;
pub mod laws;
pub mod max_registers;
pub mod merge;
pub mod mode;
mod promotion;
pub mod raw_coupons;
pub mod raw_registers;
pub mod read_image;
pub mod register_folds;
pub mod sketch;
pub mod stage;
pub mod totals;
pub mod union;
pub mod unions;
pub mod updatable;

pub use header::{Header, Stage};
pub use mode::Mode;
pub use raw_coupons::max_coupon;
pub use sketch::HllSketch;
pub use totals::{RegisterTotals, Totals};
pub use union::{HllUnion, agree};
pub use unions::union_of;
