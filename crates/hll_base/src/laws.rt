// SPDX-License-Identifier: Apache-2.0
//! Laws of the hash (docs/FORMAT.md, "The hash"). Each is the contract of a function with an empty body. A caller whose
//! proof needs the law calls the function.
ghost use Rattle.hll_base.specs.Hash.{PiecesAreOne, HashOfPiece};

/// Writing two pieces one after the other is the same as writing their concatenation.
pub fn pieces_are_one()
    ensures { PiecesAreOne }
{}

/// Writing all bytes at once gives their hash.
pub fn hash_of_piece()
    ensures { HashOfPiece }
{}
