// SPDX-License-Identifier: Apache-2.0
//! Laws of estimates (docs/NUMBERS.md, "Estimates"). Each is a clause of a function with an empty body. A caller whose
//! proof needs the law calls the function.
ghost use Rattle.hll_estimate.specs.Monotone.{RaisingNeverLowers, UnionNeverBelowParts, DoublesNeverFall};

/// Laws of estimates of registers with the same `lg_k`:
///
/// - `raising`: if each register is at least another's, so is the estimate.
/// - `union`: the estimate of a union is at least that of each part.
/// - `double`: if an estimate is at least another, so is its nearest binary64 number.
pub fn estimates()
    ensures raising { RaisingNeverLowers }
    ensures union { UnionNeverBelowParts }
    ensures double { DoublesNeverFall }
{}
