// SPDX-License-Identifier: Apache-2.0
//! The laws of adding, merging and images. Each law is a clause of a function that does nothing
//! (docs/MODEL.md, "Laws of adding and merging" and "Images").
ghost use Rattle.hll_sketch.specs.Laws.{AddOfAdd, AddEach, MergeOfEmpty, UnionLgK, AddIsLegal, MergeIsLegal, WrittenIsReadBack};
ghost use Rattle.hll_sketch.specs.Layout.{OneStepSuffices};
ghost use Rattle.hll_sketch.specs.ByteRegisters.{MaxIsUnion};
ghost use Rattle.hll_sketch.specs.Joined.{MergeOfCanonical, UnionOfSame, UnionOfUnion, MergesOfSame, MergeOfMerge};
ghost use Rattle.hll_sketch.specs.EstimatorFields.{FieldsKeep, FieldsTwice, SameRegistersSameBytes};
ghost use Rattle.hll_sketch.specs.PlainStates.{UnionOfPlain, FilledIsPlain};
ghost use Rattle.hll_sketch.specs.Folding.{FoldedIsLegal, FoldedIsCanonical, FoldedHasSameFolds};
ghost use Rattle.hll_sketch.specs.Same.{SameIsEqual};
ghost use Rattle.hll_sketch.specs.SameUnions.{UnionsInAnyOrder, UnionsInGroups, UnionsAreCanonical};
ghost use Rattle.hll_sketch.specs.Image.{OneImage, ImageIsLegal};
ghost use Rattle.hll_sketch.specs.Checks.{FirstFaultStands, FaultlessIsImage};
ghost use Rattle.hll_sketch.specs.Fault.{FaultExcludesHeader, FaultExcludesImage, FaultsAreOfData};
ghost use Rattle.hll_sketch.specs.Written.{WrittenIsImage, SameBytes, ListIsReadBack};

/// Laws of adding, and of equality:
///
/// - `add_of_add`: adding pairs and then others is adding their union.
/// - `add_each`: after a list of updates a sketch depends only on the set of their coupons: its content, table size and
///   estimate state do.
/// - `one_step_suffices`: when one coupon is added, a table keeps its size, the next size holds its coupons, or the coupons
///   become registers.
/// - `same_is_equal`: sketches are equal exactly if their values are.
/// - `add_is_legal`: a legal sketch is still legal after pairs are added.
pub fn adding()
    ensures add_of_add { AddOfAdd }
    ensures add_each { AddEach }
    ensures one_step_suffices { OneStepSuffices }
    ensures same_is_equal { SameIsEqual }
    ensures add_is_legal { AddIsLegal }
{}

/// Laws of merging:
///
/// - `merge_of_empty`: merging an empty sketch changes nothing.
/// - `union_lg_k`: the lg_k of a union is the smallest of its bound and of the lg_k of the merged sketches in registers that
///   are not all 0.
/// - `merge_of_canonical`: canonical sketches with cleared fields, merged in turn into the empty union, give their union.
/// - `union_of_same`: the union does not depend on order or repetition.
/// - `union_of_union`: some sketches may be merged first, under the same bound and at any width.
/// - `merges_of_same`: unions of the same bound and the same canonical sketches with cleared fields have equal gadgets, in any
///   order and however often each sketch was merged.
/// - `merge_of_merge`: merging the result of a union of the same bound, at any width, is merging the canonical sketches with
///   cleared fields that were merged into it.
/// - `merge_is_legal`: a legal gadget is still legal after a legal sketch is merged.
pub fn merging()
    ensures merge_of_empty { MergeOfEmpty }
    ensures union_lg_k { UnionLgK }
    ensures merge_of_canonical { MergeOfCanonical }
    ensures union_of_same { UnionOfSame }
    ensures union_of_union { UnionOfUnion }
    ensures merges_of_same { MergesOfSame }
    ensures merge_of_merge { MergeOfMerge }
    ensures merge_is_legal { MergeIsLegal }
{}

/// A law of caller-owned registers:
///
/// - `max_is_union`: registers into which an image was merged, written with their estimator fields set, are the union of a
///   sketch of the registers with the image's sketch.
pub fn registers_of_caller()
    ensures max_is_union { MaxIsUnion }
{}

/// Laws of folding:
///
/// - `folded_is_legal`: a legal sketch folded to an lg_k from 4 to its own is still legal.
/// - `folded_is_canonical`: the fold of a canonical sketch with cleared fields is canonical with cleared fields.
/// - `folded_has_same_folds`: at each lg_k up to the one that a sketch is folded to, the sketch and its fold have the same
///   registers.
pub fn folding()
    ensures folded_is_legal { FoldedIsLegal }
    ensures folded_is_canonical { FoldedIsCanonical }
    ensures folded_has_same_folds { FoldedHasSameFolds }
{}

/// Laws of images and their faults:
///
/// - `one_image`: no image is a proper prefix of another, and the bytes of an image have one meaning.
/// - `fault_excludes_header`: if a header has a fault, the bytes have the header of no stage.
/// - `fault_excludes_image`: if bytes have a fault, no prefix of them is an image.
/// - `first_fault_stands`: the first check that an image fails is a fault of it.
/// - `faultless_is_image`: bytes begin with an image exactly if they pass every check.
/// - `faults_are_of_data`: a fault of an image is a fault of its data, never of an argument or of memory.
/// - `image_is_legal`: the sketch of an image is legal.
pub fn images()
    ensures one_image { OneImage }
    ensures fault_excludes_header { FaultExcludesHeader }
    ensures fault_excludes_image { FaultExcludesImage }
    ensures first_fault_stands { FirstFaultStands }
    ensures faultless_is_image { FaultlessIsImage }
    ensures faults_are_of_data { FaultsAreOfData }
    ensures image_is_legal { ImageIsLegal }
{}

/// Laws of what is written:
///
/// - `written_is_read_back`: what is written for a legal sketch is read as that sketch and no other, and has no fault, whatever
///   bytes come after it.
/// - `written_is_image`: what is written for a legal sketch is an image of it.
/// - `same_bytes`: the bytes written for two legal sketches are the same exactly if the sketches are equal, as long as their
///   tables have the same size.
/// - `list_is_read_back`: an image of a list, followed by any bytes, is read as a list with the coupons in their order.
pub fn writing()
    ensures written_is_read_back { WrittenIsReadBack }
    ensures written_is_image { WrittenIsImage }
    ensures same_bytes { SameBytes }
    ensures list_is_read_back { ListIsReadBack }
{}

/// Laws of the estimator fields:
///
/// - `fields_keep`: setting them keeps pairs and size, and a legal sketch is still legal.
/// - `fields_twice`: setting them twice is setting them once.
/// - `same_registers_same_bytes`: sketches of the same `lg_k` and width with the same registers, whatever their estimate states
///   are, have the same bytes once their fields are set.
/// - `union_of_plain`: sketches whose estimate states are cleared, or have their fields set, give the same union when merged in
///   turn as they give with their states cleared, once the fields of both unions are set. So the laws of canonical sketches
///   hold for them too.
/// - `filled_is_plain`: a sketch whose estimate state is cleared, or has its fields set, has such a state once its fields are
///   set.
pub fn estimator_fields()
    ensures fields_keep { FieldsKeep }
    ensures fields_twice { FieldsTwice }
    ensures same_registers_same_bytes { SameRegistersSameBytes }
    ensures union_of_plain { UnionOfPlain }
    ensures filled_is_plain { FilledIsPlain }
{}

/// Laws of the bytes of unions. The sketches are legal and canonical: their coupons have the smallest table that holds them, and
/// their estimator fields are cleared or set. The estimator fields of the unions are set.
///
/// - `unions_in_any_order`: unions under one bound of the same sketches have the same bytes at each width. Neither the order of
///   the sketches matters, nor how often each was merged, nor whether its estimator fields are set.
/// - `unions_in_groups`: some sketches may be merged first, under the same bound and at any width: the bytes are the same.
/// - `unions_are_canonical`: the union is legal and canonical too, so that it can be merged again.
pub fn bytes_of_unions()
    ensures unions_in_any_order { UnionsInAnyOrder }
    ensures unions_in_groups { UnionsInGroups }
    ensures unions_are_canonical { UnionsAreCanonical }
{}
