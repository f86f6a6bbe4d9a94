// SPDX-License-Identifier: Apache-2.0
//! Laws of folding, registers and probing (docs/MODEL.md, "Laws of folding and probing"). Each is a clause of a
//! function that does nothing. A caller whose proof needs the law calls the function.
ghost use Rattle.hll_coupons.specs.Laws.{OneAscendingOrder, FoldOfFold, FoldOfUnion, JoinLaws, FoldOfRegisters, MeetsEachBucketOnce, FoundAfterInsert, AbsentAtEmpty, AbsentFromFull, KeysAreDistinct};

/// Laws of sets, folds and registers:
///
/// - `one_ascending_order`: a set has one ascending order, so what is written in this order is a function of the set.
/// - `fold_of_fold`: folding to k and then to a smaller e is folding to e.
/// - `fold_of_union`: the fold of a union is the maximum of both folds.
/// - `join_laws`: the maximum of registers doesn't depend on order, grouping or repetition.
/// - `fold_of_registers`: registers are the fold of their pairs.
pub fn folding()
    ensures one_ascending_order { OneAscendingOrder }
    ensures fold_of_fold { FoldOfFold }
    ensures fold_of_union { FoldOfUnion }
    ensures join_laws { JoinLaws }
    ensures fold_of_registers { FoldOfRegisters }
{}

/// Laws of paths and searches:
///
/// - `meets_each_bucket_once`: a path with an odd stride visits each bucket of a table at exactly one index.
/// - `found_after_insert`: after an entry is put into the empty bucket where its search ended, all entries are still
///   found.
/// - `absent_at_empty`: if a search comes to an empty bucket, its key is absent.
/// - `absent_from_full`: if a search goes through a whole table, its key is absent.
/// - `keys_are_distinct`: in a table whose entries are all found, no key occurs twice.
pub fn probing()
    ensures meets_each_bucket_once { MeetsEachBucketOnce }
    ensures found_after_insert { FoundAfterInsert }
    ensures absent_at_empty { AbsentAtEmpty }
    ensures absent_from_full { AbsentFromFull }
    ensures keys_are_distinct { KeysAreDistinct }
{}
