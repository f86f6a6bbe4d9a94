// SPDX-License-Identifier: Apache-2.0
//! Tests of `hll_base` and `hll_coupons` through public calls: bytes, hashes, lists, sets and exceptions.
#![tactic(auto)]

#[cfg(test)]
mod aux_map;
#[cfg(test)]
mod bytes;
#[cfg(test)]
mod errors;
#[cfg(test)]
mod hash;
#[cfg(test)]
mod lists;
#[cfg(test)]
mod paths;
#[cfg(test)]
mod sets;
