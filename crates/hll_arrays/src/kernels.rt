// SPDX-License-Identifier: Apache-2.0
//! Loops over the bytes of registers, at one path: those of 8-bit registers, the rise of 4-bit ones, and the packing of 6-bit
//! ones. They allocate nothing.
pub use hll_kernels::groups::{pack_group, unpack_group};
pub use hll_kernels::kernels::{count_zeros, max_into, units};
pub use hll_kernels::nibbles::lower_nibbles;
