// SPDX-License-Identifier: Apache-2.0
//! A counter in caller-owned memory. It holds coupons, an ascending run and a tail that is sorted into it, or registers.
#![tactic(auto)]

pub mod as_image;
mod counter;
mod elements;
pub mod header;
pub mod join;
pub mod laws;
pub mod memory;
mod merge;
pub mod merge_coupons;
pub mod merge_image;
pub mod merge_registers;
mod merge_table;
pub mod registers;
pub mod run;
mod settle;
