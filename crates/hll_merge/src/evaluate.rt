// SPDX-License-Identifier: Apache-2.0
//! Carries out a list of steps, and compares two lists (docs/MODEL.md, "Plan texts").
ghost use Rattle.std.specs.Prelude.{◌≡◌, ◌<◌, ◌⊎◌, length, map, IfErr, MatchResult};
ghost use Rattle.std.specs.List.{All};
ghost use Rattle.hll_text.specs.Step.{step_of, IsInRange};
ghost use Rattle.hll_text.specs.declared.fault.Fault.TheVariants.{Memory};
ghost use Rattle.hll_merge.specs.Accepting.{itself, FaultsAtLine, IsFirstFaultOfSteps};
ghost use Rattle.hll_merge.specs.Evaluate.{IsOutcomeOfSteps, RunsSteps, Compared, Incomparable};

use crate::stack::Stack;
use hll_sketch::sketch::HllSketch;
use hll_sketch::union::agree;
use hll_text::fault::{Fault, MergeError};
use hll_text::step::Step;
use std::alloc::Allocator;

/// Returns the sketch of a list of steps: the outcome of its plan.
///
/// The numbers of the steps are in their ranges (docs/PLAN.md, "The text"). Fails with `Memory`, or with the first fault of the
/// steps: `Image`, `Stack` or `Fold` with the number of the step, counted from 1, or `Stack` with the number of steps if not
/// exactly one sketch is left. Allocates the stack of sketches, and nothing if there are no steps.
pub fn evaluate<A: Allocator + Clone>(
    alloc: A,
    steps: &[Step<A>],
) -> Result<HllSketch<A>, MergeError>
    requires { All (λ step. IsInRange (step_of step)) steps.now }
    ensures outcome { MatchResult result (IsOutcomeOfSteps (map step_of steps.now))
        (λ e. (e.fault ≡ Memory) ⊎ IsFirstFaultOfSteps (map step_of steps.now) e) }
    ensures needed { IfErr result (λ e. e.fault ≡ Memory → 0 < length steps.now) }
{
    if steps.is_empty() {
        return Err(Fault::Stack.at(0));
    }
    let (stack, number) = carry_steps(alloc, steps)?;
    match stack.into_only() {
        Some(sketch) => Ok(sketch),
        None => Err(Fault::Stack.at(number)),
    }
}

/// Carries out steps in turn on an empty stack, and counts them.
fn carry_steps<A: Allocator + Clone>(
    alloc: A,
    steps: &[Step<A>],
) -> Result<(Stack<A>, u64), MergeError>
    requires { All (λ step. IsInRange (step_of step)) steps.now }
    ensures { MatchResult result (λ r. RunsSteps (map step_of steps.now) r.0 r.1)
        (λ e. (e.fault ≡ Memory) ⊎ FaultsAtLine itself (map step_of steps.now) e) }
{
    let mut stack = match Stack::new(alloc) {
        Ok(stack) => stack,
        Err(e) => return Err(Fault::from(e).at(0)),
    };
    let mut number = 0u64;
    for step in steps {
        number = number.saturating_add(1);
        if let Err(fault) = stack.carry_out(step) {
            return Err(fault.at(number));
        }
    }
    Ok((stack, number))
}

/// Returns whether the sketches of two lists of steps fold to the same registers at the smaller `lg_k` of both.
///
/// The numbers of the steps are in their ranges. The left list is carried out first. Fails with `Memory`, or with the first
/// fault of the left list, or else of the right one. Allocates both sketches, and two bytes for each register at the smaller
/// `lg_k`.
pub fn compare<A: Allocator + Clone>(
    alloc: A,
    left: &[Step<A>],
    right: &[Step<A>],
) -> Result<bool, MergeError>
    requires left { All (λ step. IsInRange (step_of step)) left.now }
    requires right { All (λ step. IsInRange (step_of step)) right.now }
    ensures { MatchResult result (Compared (map step_of left.now) (map step_of right.now))
        (λ e. (e.fault ≡ Memory) ⊎ Incomparable (map step_of left.now) (map step_of right.now) e) }
{
    let for_right = match alloc.clone() {
        Ok(for_right) => for_right,
        Err(e) => return Err(Fault::from(e).at(0)),
    };
    let one = evaluate(alloc, left)?;
    let two = evaluate(for_right, right)?;
    match agree(&one, &two) {
        Ok(same) => Ok(same),
        Err(e) => Err(Fault::from(e).at(0)),
    }
}
