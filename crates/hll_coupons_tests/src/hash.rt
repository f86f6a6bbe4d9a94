// SPDX-License-Identifier: Apache-2.0
//! The hash: test vectors at several seeds, and the same bytes cut differently.
use hll_base::hash::{DEFAULT_SEED, MurmurHash3X64128, hash_of_bytes};

/// The bytes 0 to 69.
const BYTES: [u8; 70] = [
    0, 1, 2, 3, 4, 5, 6, 7, 8, 9, 10, 11, 12, 13, 14, 15, 16, 17, 18, 19, 20, 21, 22, 23, 24, 25,
    26, 27, 28, 29, 30, 31, 32, 33, 34, 35, 36, 37, 38, 39, 40, 41, 42, 43, 44, 45, 46, 47, 48, 49,
    50, 51, 52, 53, 54, 55, 56, 57, 58, 59, 60, 61, 62, 63, 64, 65, 66, 67, 68, 69,
];

/// A seed, the length of a prefix of `BYTES`, and the hash of this prefix. Made by another implementation: `SeedSum128`
/// of the Go package `murmur3` of twmb, with the seed given twice.
const VECTORS: [(u64, usize, u64, u64); 34] = [
    (9001, 0, 0x1e70_a322_6649_1bb9, 0x6097_36b2_5240_6b94),
    (9001, 1, 0x0803_ae26_67d0_86a8, 0x0327_64c2_3ca3_5ca8),
    (9001, 7, 0x5be7_8806_33ae_99e3, 0x0291_7730_daf8_87b5),
    (9001, 8, 0xe3a0_0427_2cc0_11e7, 0x5dd8_ffe5_96da_c6b1),
    (9001, 9, 0x46d2_2c0d_3ab3_e96c, 0x7222_05be_1ac3_bff0),
    (9001, 15, 0x403d_80e2_5810_0419, 0xaa0c_ab09_a62c_6760),
    (9001, 16, 0x1191_c3da_933a_429e, 0xfd98_4b42_1d27_b17b),
    (9001, 17, 0xa4b0_d83e_e82f_2b12, 0xb0d7_3aa7_7d22_ae45),
    (9001, 31, 0xff68_016b_f097_cb5b, 0x7b9a_9608_ff04_2bd8),
    (9001, 32, 0x9a2e_7e53_1416_cffe, 0x0889_b407_aba6_81c3),
    (9001, 33, 0x6fd1_5534_95ee_b7ff, 0x0db4_c4ce_d494_74e5),
    (9001, 47, 0x2527_09d3_7322_3b58, 0x8144_c3c1_b1cf_ecd8),
    (9001, 48, 0x20fe_8f7e_d268_88d1, 0xa92a_75fa_1a3e_9247),
    (9001, 63, 0x21aa_4b56_222a_fffa, 0xdd03_14c6_2f2a_9ad3),
    (9001, 64, 0xf4d6_93d2_5498_3636, 0xd1d7_d3b2_39ab_0d6e),
    (9001, 65, 0x726c_611b_688d_cdf8, 0x62c1_b043_ba28_7bbc),
    (
        0x8000_0000_0000_0000,
        0,
        0x8f78_0810_af31_a493,
        0x1ef0_1021_5e63_4926,
    ),
    (
        0x8000_0000_0000_0000,
        8,
        0x6f7f_ac37_25cc_1c56,
        0xb096_82f5_8aad_b5e3,
    ),
    (
        0x8000_0000_0000_0000,
        15,
        0x25f3_6b60_2f8a_f47b,
        0x8b25_197c_ed4a_1b0d,
    ),
    (
        0x8000_0000_0000_0000,
        17,
        0x3344_68ff_44ab_eb27,
        0x8692_b814_7572_dffb,
    ),
    (
        0x8000_0000_0000_0000,
        33,
        0xb684_45cb_84e9_8028,
        0x1d37_1c6b_0258_26d2,
    ),
    (
        0x8000_0000_0000_0000,
        64,
        0xa868_4b5f_769b_050a,
        0x0aa3_6670_5007_2764,
    ),
    (u64::MAX, 0, 0xe4c1_8f38_c65b_d6ed, 0x8efd_8ae9_2062_0daf),
    (u64::MAX, 8, 0xbc1b_026e_5df3_113f, 0xbb75_d46f_2854_8c59),
    (u64::MAX, 15, 0x3752_e21f_9a60_3055, 0x24ef_a06c_42c4_98a9),
    (u64::MAX, 17, 0xfe37_7780_fd75_c28b, 0x241f_af50_2f75_031f),
    (u64::MAX, 33, 0x4340_edfc_214d_d8c6, 0xb651_95b2_e5a1_3972),
    (u64::MAX, 64, 0x96c5_6e79_9714_3eb4, 0xd103_efb4_d1e5_d76a),
    (
        0x0123_4567_89ab_cdef,
        0,
        0x4b8f_c375_ee6d_1ca7,
        0x666f_9bfd_aaa2_2b49,
    ),
    (
        0x0123_4567_89ab_cdef,
        8,
        0x9c54_f31c_45c0_ba51,
        0xaa00_9e5b_c680_3874,
    ),
    (
        0x0123_4567_89ab_cdef,
        15,
        0xd0f9_45dc_66ef_1edf,
        0x73b8_0f19_2598_175e,
    ),
    (
        0x0123_4567_89ab_cdef,
        17,
        0x5fd6_5ee3_3ec5_a4c0,
        0x91a6_419a_7d6d_2659,
    ),
    (
        0x0123_4567_89ab_cdef,
        33,
        0x10d1_4e27_e03f_5a1b,
        0xe06a_4869_1fe5_daaf,
    ),
    (
        0x0123_4567_89ab_cdef,
        64,
        0x5ac0_6af8_4230_a5b5,
        0x33f0_cdbc_539c_0043,
    ),
];

/// Returns the hash of bytes written in one call.
fn words_of(seed: u64, bytes: &[u8]) -> (u64, u64) {
    let mut hash = MurmurHash3X64128::with_seed(seed);
    hash.write(bytes);
    hash.finish128()
}

/// Returns the hash of bytes written in two calls.
fn words_of_two(seed: u64, first: &[u8], second: &[u8]) -> (u64, u64) {
    let mut hash = MurmurHash3X64128::with_seed(seed);
    hash.write(first);
    hash.write(second);
    hash.finish128()
}

#[test]
fn vectors(rt: HostRuntime) {
    for (seed, end, first, second) in VECTORS {
        assert_eq!(rt;
            words_of(seed, &BYTES[..end.min(70)]),
            (first, second),
            "{end} bytes at seed {seed}"
        );
    }
}

/// The bytes of each vector, hashed in one call.
#[test]
fn vectors_at_once(rt: HostRuntime) {
    for (seed, end, first, second) in VECTORS {
        assert_eq!(rt;
            hash_of_bytes(seed, &BYTES[..end.min(70)]),
            (first, second),
            "{end} bytes at seed {seed}"
        );
    }
}

#[test]
fn default_seed(rt: HostRuntime) {
    let mut hash = MurmurHash3X64128::default();
    hash.write(&BYTES);
    assert_eq!(rt; hash.finish128(), words_of(9001, &BYTES));
}

/// Up to seventy bytes, cut in two at each index, compared with the hash of all of them in one call.
#[test]
fn cuts(rt: HostRuntime) {
    for end in 0..71usize {
        let whole = hash_of_bytes(DEFAULT_SEED, &BYTES[..end]);
        for at in 0..end {
            assert_eq!(rt;
                words_of_two(9001, &BYTES[..at], &BYTES[at..end]),
                whole,
                "{end} cut at {at}"
            );
        }
    }
}
