// SPDX-License-Identifier: Apache-2.0
//! Tests of calls whose requests for memory fail, one after the other.
#![tactic(auto)]

#[cfg(test)]
mod arrays;
#[cfg(test)]
mod base;
#[cfg(test)]
mod callers;
#[cfg(test)]
mod coupons;
#[cfg(test)]
mod filter;
#[cfg(test)]
mod harness;
#[cfg(test)]
mod heaps;
#[cfg(test)]
mod plans;
#[cfg(test)]
mod refusing;
#[cfg(test)]
mod sketches;
#[cfg(test)]
mod unions;
