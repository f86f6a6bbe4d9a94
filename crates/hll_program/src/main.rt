// SPDX-License-Identifier: Apache-2.0
//! Reads a plan on standard input, and prints the image of its sketch (docs/PLAN.md, "The program").
#![tactic(auto)]

mod refusal;
#[cfg(test)]
mod tests;

use crate::refusal::write_refusal;
use hll_merge::run::run;
use hll_merge::watched::Watched;
use std::process::ExitCode;

fn main(rt: HostRuntime) -> ExitCode {
    let mut reader = Watched::new(rt.stdin());
    let mut writer = Watched::new(rt.stdout());
    match run(rt.alloc(), &mut reader, &mut writer) {
        Ok(()) => ExitCode::SUCCESS,
        Err(refusal) => {
            // if standard error fails too, only the exit status is left
            let _ = write_refusal(&mut rt.stderr(), &refusal);
            ExitCode::FAILURE
        }
    }
}
