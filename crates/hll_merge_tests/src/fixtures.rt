// SPDX-License-Identifier: Apache-2.0
//! Runs plans in memory.
use hll_merge::run::run;
use hll_text::fault::MergeError;
use hll_text::watched::Watched;
use std::test::Fail;

/// Runs a plan in memory. Returns its result, and what it wrote.
pub(crate) fn run_over(rt: &HostRuntime, text: &[u8]) -> (Result<(), MergeError>, Vec<u8>) {
    let mut reader = Watched::new(text);
    let mut writer = Watched::new(Vec::new(rt.alloc()));
    let result = run(rt.alloc(), &mut reader, &mut writer);
    (result, writer.into_inner())
}

/// Returns whether a text prints this.
pub(crate) fn prints(rt: &HostRuntime, text: &str, printed: &str) -> bool {
    let (result, written) = run_over(rt, text.as_bytes());
    result == Ok(()) && written.as_slice() == printed.as_bytes()
}

/// Returns the line of an image.
pub(crate) fn line_of(rt: &HostRuntime, image: &[u8]) -> Result<String, Fail> {
    let digits = hex::encode(rt.alloc(), image)?;
    Ok(format!(in rt.alloc(); "image {digits}")?)
}
