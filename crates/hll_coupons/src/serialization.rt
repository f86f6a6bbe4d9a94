// SPDX-License-Identifier: Apache-2.0
//! The constants of tables and of an image, its mode byte, and the headers of a list and of a set (docs/FORMAT.md, "The
//! image"). Names that begin with `LG` are logarithms of numbers of buckets, those that end in `PREINTS` count integers of
//! four bytes, and those that end in `SIZE` or `BYTES` count bytes.
ghost use Rattle.std.specs.Prelude.{◌≡◌, ◌+◌, ◌*◌, ◌/◌, ◌%◌, ◌++◌, ◌≤◌};
ghost use Rattle.std.specs.Int.{w32, to_le_bytes};
ghost use Rattle.hll_coupons.specs.Coupons as header;

use hll_base::family::Family;
use hll_base::hll_type::HllType;

/// The logarithm of the number of buckets of a list: eight buckets.
pub const LG_LIST_BUCKETS: u8 = 3;

/// The logarithm of the number of buckets of the smallest set: 32 buckets.
pub const LG_LEAST_SET_BUCKETS: u8 = 5;

/// The difference between `lg_k` and the logarithm of the number of buckets of the largest set.
pub const LG_SET_BELOW_LG_K: u8 = 3;

/// The version of the format: the second byte of an image.
pub const SERIAL_VERSION: u8 = 1;

/// The flag of an image without coupons.
pub const EMPTY_FLAG_MASK: u8 = 4;

/// The flag of an image that has coupons, or exceptions, without empty buckets between them.
pub const COMPACT_FLAG_MASK: u8 = 8;

/// The flag that says that the estimate state doesn't reflect the order of arrival.
pub const OUT_OF_ORDER_FLAG_MASK: u8 = 16;

/// The preamble of a list, in integers of four bytes.
pub const LIST_PREINTS: u8 = 2;

/// The preamble of a set, in integers of four bytes.
pub const HASH_SET_PREINTS: u8 = 3;

/// The preamble of registers, in integers of four bytes.
pub const HLL_PREINTS: u8 = 10;

/// The bytes before the coupons of a list.
pub const LIST_PREAMBLE_SIZE: usize = 8;

/// The bytes before the coupons of a set.
pub const SET_PREAMBLE_SIZE: usize = 12;

/// The bytes before the registers.
pub const HLL_PREAMBLE_SIZE: usize = 40;

/// The stage of a list in the mode byte.
pub const CUR_MODE_LIST: u8 = 0;

/// The stage of a set in the mode byte.
pub const CUR_MODE_SET: u8 = 1;

/// The stage of registers in the mode byte.
pub const CUR_MODE_HLL: u8 = 2;

/// The code of 4-bit registers in the mode byte.
pub const TGT_HLL4: u8 = 0;

/// The code of 6-bit registers in the mode byte.
pub const TGT_HLL6: u8 = 1;

/// The code of 8-bit registers in the mode byte.
pub const TGT_HLL8: u8 = 2;

/// The size of a coupon in bytes.
pub const COUPON_SIZE_BYTES: usize = 4;

/// Returns the stage in a mode byte, from 0 to 3.
pub fn extract_cur_mode(mode_byte: u8) -> u8
    ensures { result ≡ mode_byte % 4 }
{
    mode_byte & 3
}

/// Returns the width in a mode byte, from 0 to 3.
pub fn extract_tgt_hll_type(mode_byte: u8) -> u8
    ensures { result ≡ mode_byte / 4 % 4 }
{
    mode_byte >> 2 & 3
}

/// Returns the mode byte of a stage and a width, each modulo 4.
pub fn encode_mode_byte(cur_mode: u8, tgt_hll_type: u8) -> u8
    ensures { result ≡ cur_mode % 4 + 4 * (tgt_hll_type % 4) }
{
    (tgt_hll_type & 3) << 2 | cur_mode & 3
}

/// Returns the eight bytes before the coupons of a list.
pub(crate) fn list_header(
    lg_config_k: u8,
    hll_type: HllType,
    count: usize,
) -> [u8; LIST_PREAMBLE_SIZE]
    requires { count ≤ 8 }
    ensures { result ≡ header.list_header lg_config_k hll_type count }
{
    let flags = if count == 0 {
        COMPACT_FLAG_MASK | EMPTY_FLAG_MASK
    } else {
        COMPACT_FLAG_MASK
    };
    [
        LIST_PREINTS,
        SERIAL_VERSION,
        Family::HLL.id,
        lg_config_k,
        LG_LIST_BUCKETS,
        flags,
        count as u8,
        encode_mode_byte(CUR_MODE_LIST, hll_type as u8),
    ]
}

/// Returns the twelve bytes before the coupons of a set. The last four are the count.
pub(crate) fn set_header(
    lg_config_k: u8,
    hll_type: HllType,
    lg_size: u8,
    count: u32,
) -> [u8; SET_PREAMBLE_SIZE]
    ensures { result ≡ header.set_header lg_config_k hll_type lg_size ++ to_le_bytes w32 count }
{
    let [first, second, third, fourth] = u32::to_le_bytes(count);
    [
        HASH_SET_PREINTS,
        SERIAL_VERSION,
        Family::HLL.id,
        lg_config_k,
        lg_size,
        COMPACT_FLAG_MASK,
        0,
        encode_mode_byte(CUR_MODE_SET, hll_type as u8),
        first,
        second,
        third,
        fourth,
    ]
}
