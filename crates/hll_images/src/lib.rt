// SPDX-License-Identifier: Apache-2.0
//! Images without a sketch: they are converted, added to, folded, merged and compared as bytes (docs/ARCHITECTURE.md,
//! "Sketches").
#![tactic(auto)]

pub mod borrowed_registers;
pub mod coupon_images;
mod image_coupons;
pub mod laws;
mod nonzero_registers;
pub mod register_bytes;
pub mod register_images;
mod sorted;

pub use coupon_images::{
    coupon_image_at, folded_coupon_image, folded_coupon_registers, union_of_coupon_images,
    union_of_one_coupon_image,
};
pub use register_images::{register_image_at, register_image_with};
