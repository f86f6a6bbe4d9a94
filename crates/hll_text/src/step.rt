// SPDX-License-Identifier: Apache-2.0
//! The steps of a plan.
use hll_base::hll_type::HllType;
use std::alloc::{Allocator, Global};

/// What one line of a plan does (docs/PLAN.md, "The text").
#[derive(Drop)]
#[derive_where(Debug, PartialEq, Eq)]
pub enum Step<A: Allocator = Global> {
    /// Pushes an empty sketch: its `lg_k`, 4 to 21, and its width.
    New(u8, HllType),
    /// Pushes the sketch of an image.
    Image(Vec<u8, A>),
    /// Updates the last sketch with a coupon: its slot, below 2^26, and its value, 1 to 63.
    Coupon(u32, u8),
    /// Replaces the last sketches by their union: their number, the bound on the union's `lg_k`, 4 to 21, and the width of the
    /// result.
    Union(u32, u8, HllType),
    /// Replaces the last sketch by its fold to an `lg_k`, 4 to 21.
    Fold(u8),
}

/// What a line of a plan says. The image of an `image` line is still in digits (docs/PLAN.md, "The text").
#[derive(Drop)]
pub enum Line<'l, A: Allocator = Global> {
    /// Nothing: the line is skipped.
    Skipped,
    /// The step `image`, with these digits, which need not be hexadecimal.
    Image(&'l [u8]),
    /// Any other step.
    Step(Step<A>),
}
