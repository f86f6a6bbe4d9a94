// SPDX-License-Identifier: Apache-2.0
//! The hash: known test vectors, and the same bytes cut differently.
use hll_base::hash::MurmurHash3X64128;
use std::hash::Hasher;

/// A text of two full blocks and eleven bytes, and its hash at seed 0.
pub(crate) const TEXT: [u8; 43] = *b"The quick brown fox jumps over the lazy dog";

const TEXT_WORDS: (u64, u64) = (0xe34b_bc7b_bc07_1b6c, 0x7a43_3ca9_c49a_9347);

/// Returns the hash at seed 0 of pieces of bytes.
fn words_of(pieces: &[&[u8]]) -> (u64, u64) {
    let mut hash = MurmurHash3X64128::with_seed(0);
    for piece in pieces {
        hash.write(piece);
    }
    hash.finish128()
}

#[test]
fn pieces(rt: HostRuntime) {
    assert_eq!(rt; words_of(&[]), (0, 0));
    assert_eq!(rt; words_of(&[&TEXT]), TEXT_WORDS);
    assert_eq!(rt; words_of(&[&TEXT[..15], &TEXT[15..]]), TEXT_WORDS);
    assert_eq!(rt;
        words_of(&[&TEXT[..16], &TEXT[16..32], &TEXT[32..]]),
        TEXT_WORDS
    );
    let mut single = MurmurHash3X64128::with_seed(0);
    for byte in TEXT {
        single.write(&[byte]);
    }
    assert_eq!(rt; single.finish128(), TEXT_WORDS);
    assert_eq!(rt; Hasher::finish(&single), TEXT_WORDS.0);
}
