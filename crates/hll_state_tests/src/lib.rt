// SPDX-License-Identifier: Apache-2.0
//! Tests of `hll_state` through public calls: runs of coupons, registers and states.
#![tactic(auto)]

#[cfg(test)]
mod runs;
#[cfg(test)]
mod states;
