// SPDX-License-Identifier: Apache-2.0
//! Runs the test vectors of standard input, each a plan with its result (docs/PLAN.md, "Rows"). Prints the wrong ones,
//! and then the number of test vectors and the number of wrong ones.
#![tactic(auto)]

#[cfg(test)]
mod coupons;
mod fronts;
#[cfg(test)]
mod hash;
#[cfg(test)]
mod kernels;
mod pieces;
#[cfg(test)]
mod registers;
mod row;
#[cfg(test)]
mod sketches;
mod streams;
#[cfg(test)]
mod tests;
#[cfg(test)]
mod trees;
#[cfg(test)]
mod unions;
mod wrong;

use row::{Row, lines_of};
use std::alloc::Global;
use std::io;
use std::process::ExitCode;
use wrong::Wrong;

fn main(rt: HostRuntime) -> ExitCode {
    match run_rows(&rt) {
        Ok(0) => ExitCode::SUCCESS,
        _ => ExitCode::FAILURE,
    }
}

/// Runs every test vector, and prints what is wrong. Returns the number of wrong test vectors.
fn run_rows(rt: &HostRuntime) -> io::Result<u64> {
    let text = io::read_to_string(rt.alloc(), rt.stdin())?;
    let mut rows = 0u64;
    let mut wrong = 0u64;
    for block in text.split("\n\n") {
        let lines = lines_of(rt.alloc(), block)?;
        if !lines.is_empty() {
            rows = rows.saturating_add(1);
            if let Err(reason) = run_row(rt.alloc(), &lines) {
                wrong = wrong.saturating_add(1);
                println!(rt; "{reason:?} in the row\n{}\n", block.trim())?;
            }
        }
    }
    println!(rt; "{rows} rows, {wrong} wrong")?;
    Ok(wrong)
}

/// Runs the plan of a test vector in every way.
fn run_row(alloc: Global, lines: &[&str]) -> Result<(), Wrong> {
    let row = Row::read(alloc, lines)?;
    let printed = pieces::run_whole(alloc, &row)?;
    pieces::check(alloc, &row.plan, &printed)?;
    streams::check_reads(alloc, &row.plan)?;
    streams::check_writes(alloc, &row.plan, &printed)?;
    if let Ok(line) = &printed {
        fronts::check_line(alloc, line)?;
        fronts::check_plan(alloc, &row)?;
    }
    Ok(())
}
