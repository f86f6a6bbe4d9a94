// SPDX-License-Identifier: Apache-2.0
//! Tests through public calls of `hll_text`, `hll_merge` and `hll_estimator_fields`: lines, streams, plans, and the filter of images.
#![tactic(auto)]

#[cfg(test)]
mod filter;
#[cfg(test)]
mod fixtures;
#[cfg(test)]
mod images;
#[cfg(test)]
mod lines;
#[cfg(test)]
mod pieces;
#[cfg(test)]
mod streams;
#[cfg(test)]
mod texts;
#[cfg(test)]
mod unions;
