// SPDX-License-Identifier: Apache-2.0
//! The laws of merge plans. Each law is a clause of a function that does nothing (docs/MODEL.md, "The meaning of a plan",
//! "Convergence" and "Plan texts").
ghost use Rattle.hll_merge.specs.Meaning.{PlansHaveMeaning, SameInputsAgree};
ghost use Rattle.hll_merge.specs.Headline.{OutcomeIsLegal, AcceptedPlansHold};
ghost use Rattle.hll_merge.specs.Canonical.{CanonicalPlansConverge};
ghost use Rattle.hll_merge.specs.Rearrangement.{RearrangedPlansAgree};
ghost use Rattle.hll_merge.specs.Texts.{OnePlan, OneFirstFault, AcceptedIsFaultless, FirstFaultsAreOwn};

/// Laws of plans:
///
/// - `plans_have_meaning`: the outcome of a legal plan has the effective `lg_k`, and no register image of the plan has a
///   smaller one. At each slot it has the greatest value among the inputs.
/// - `same_inputs_agree`: two plans over the same inputs agree once both are folded to the smaller effective `lg_k`.
/// - `canonical_plans_converge`: plans over canonical images give canonical sketches, and the outcome of a union is the
///   `join_value` of its children's outcomes.
/// - `rearranged_plans_agree`: over canonical images children may be reordered, repeated and grouped under the same bound,
///   anywhere in a plan.
/// - `outcome_is_legal`: the outcome of a legal plan is a legal sketch.
pub fn plans()
    ensures plans_have_meaning { PlansHaveMeaning }
    ensures same_inputs_agree { SameInputsAgree }
    ensures canonical_plans_converge { CanonicalPlansConverge }
    ensures rearranged_plans_agree { RearrangedPlansAgree }
    ensures outcome_is_legal { OutcomeIsLegal }
{}

/// Laws of texts, and of lists of steps:
///
/// - `one_plan`: a text has at most one plan, and so has a list of steps.
/// - `one_first_fault`: a text has at most one first fault, and so has a list of steps.
/// - `accepted_is_faultless`: an accepted text has no first fault, and neither has an accepted list of steps.
/// - `first_faults_are_own`: a first fault of a text or of a list of steps is never `Memory`, `Read` or `Write`, and an image
///   is rejected only for its data.
/// - `accepted_plans_hold`: the plan of an accepted text or list of steps is legal and has its meaning, and what is written for
///   its outcome is an image of it.
pub fn texts()
    ensures one_plan { OnePlan }
    ensures one_first_fault { OneFirstFault }
    ensures accepted_is_faultless { AcceptedIsFaultless }
    ensures first_faults_are_own { FirstFaultsAreOwn }
    ensures accepted_plans_hold { AcceptedPlansHold }
{}
