// SPDX-License-Identifier: Apache-2.0
//! Coupons, the containers that hold them, and their bytes in an image (docs/ARCHITECTURE.md,
//! "The crates").
#![tactic(auto)]

mod additions;
pub mod aux_map;
pub mod aux_map_builder;
pub mod batch;
mod blocks;
pub mod container;
pub mod coupon;
mod cycle;
mod distinct;
mod filling;
pub mod hash_set;
mod inverse;
pub mod laws;
pub mod list;
mod long_searches;
pub mod raw_coupons;
mod search;
pub mod serialization;
mod storage;

pub use aux_map::{AuxMap, AuxMapIter, AuxMapRefIter};
pub use batch::CouponBatch;
pub use container::{Container, ContainerIter, Insertion};
pub use coupon::Coupon;
pub use hash_set::HashSet;
pub use hll_base::hll_type::{self, HllType};
pub use list::List;
