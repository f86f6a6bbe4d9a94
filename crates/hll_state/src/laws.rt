// SPDX-License-Identifier: Apache-2.0
//! The laws of states. Each law is a clause of a function that does nothing (docs/MODEL.md, "States of a counter").
ghost use Rattle.hll_state.specs.Prefixes.{PrefixIsState, LongerIsState, MovedIsState, AskedIsEnough, AskedIsEnoughToJoin};
ghost use Rattle.hll_state.specs.Whole.{EmptyIsWhole, AddingLeavesWhole, JoiningLeavesWhole, JoiningIsMerging, JoiningAllIsMergingAll};

/// Laws of the memory of a state:
///
/// - `prefix`: a prefix of a state is the same state, if it has the elements that the state takes. So a copy of these elements
///   is a copy of the sketch.
/// - `longer`: a state is the same state in longer memory, whatever the elements after it hold.
/// - `moved`: a state is the same state wherever the elements that it takes are copied.
/// - `asked`, `asked_to_join`: if there are as many elements as a call asked for, the state has room for the coupons that the call
///   was to add, or for the sketch that it was to merge.
pub fn memory()
    ensures prefix { PrefixIsState }
    ensures longer { LongerIsState }
    ensures moved { MovedIsState }
    ensures asked { AskedIsEnough }
    ensures asked_to_join { AskedIsEnoughToJoin }
{}

/// Laws of the sketches of states that calls leave: legal, and with registers, if they have registers, that are not all 0.
///
/// - `empty`, `adding`, `joining`: an empty sketch is such a sketch, and such a sketch stays one when coupons are added or a
///   legal sketch is merged.
/// - `joining_is_merging`: under a bound, a sketch is merged as into a union of that bound.
/// - `joining_all_is_merging_all`: sketches that are merged in turn under a bound into the empty sketch at that bound give
///   their union.
pub fn sketches()
    ensures empty { EmptyIsWhole }
    ensures adding { AddingLeavesWhole }
    ensures joining { JoiningLeavesWhole }
    ensures joining_is_merging { JoiningIsMerging }
    ensures joining_all_is_merging_all { JoiningAllIsMergingAll }
{}
