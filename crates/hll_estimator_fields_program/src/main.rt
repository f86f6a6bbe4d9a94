// SPDX-License-Identifier: Apache-2.0
//! Reads lines of images from standard input, and prints each with its estimator fields set (docs/PLAN.md, "Estimator
//! fields").
#![tactic(auto)]

use hll_estimator_fields::run::run;
use hll_text::refusal::write_refusal;
use hll_text::watched::Watched;
use std::process::ExitCode;

fn main(rt: HostRuntime) -> ExitCode {
    let mut reader = Watched::new(rt.stdin());
    let mut writer = Watched::new(rt.stdout());
    match run(rt.alloc(), &mut reader, &mut writer) {
        Ok(()) => ExitCode::SUCCESS,
        Err(refusal) => {
            // If standard error fails as well, the exit status is all that is left.
            let _ = write_refusal(&mut rt.stderr(), &refusal);
            ExitCode::FAILURE
        }
    }
}
