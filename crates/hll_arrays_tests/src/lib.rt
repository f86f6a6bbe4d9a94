// SPDX-License-Identifier: Apache-2.0
//! Tests of `hll_kernels`, `hll_estimate`, `hll_registers` and `hll_arrays` through public calls: loops over bytes,
//! estimates, and registers of each width.
#![tactic(auto)]

#[cfg(test)]
mod array16;
#[cfg(test)]
mod copies;
#[cfg(test)]
mod eight_bits;
#[cfg(test)]
mod estimates;
#[cfg(test)]
mod four_bit_images;
#[cfg(test)]
mod four_bit_paths;
#[cfg(test)]
mod four_bit_stores;
#[cfg(test)]
mod four_bits;
#[cfg(test)]
mod kernels;
#[cfg(test)]
mod register_fixtures;
#[cfg(test)]
mod register_images;
#[cfg(test)]
mod six_bits;
#[cfg(test)]
mod stores;
