// SPDX-License-Identifier: Apache-2.0
//! Tests through public calls of `hll_sketch`: sketches, unions and images.
#![tactic(auto)]

#[cfg(test)]
mod coupon_images;
#[cfg(test)]
mod fixtures;
#[cfg(test)]
mod folds;
#[cfg(test)]
mod images;
#[cfg(test)]
mod register_images;
#[cfg(test)]
mod sketches;
#[cfg(test)]
mod unions;
