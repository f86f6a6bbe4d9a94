// SPDX-License-Identifier: Apache-2.0
//! What the counts after the header of an image say, and the size of the image (docs/FORMAT.md, "The image"). The bytes after the
//! counts are not read.
ghost use Rattle.std.specs.Prelude.{◌≡◌, ◌+◌, ◌*◌, ◌^◌, ◌<◌, ◌≤◌, ◌↔◌, IsTrue, None, Some, List, ℕ, length, drop, IfOk, IfErr};
ghost use Rattle.std.specs.Int.{w32, from_le_bytes};
ghost use Rattle.hll_coupons.specs.Payload.{HasListCount, list_buckets, set_count, set_buckets};
ghost use Rattle.hll_registers.specs.Payload.{exception_count, exception_buckets, hll4_size};
ghost use Rattle.hll_base.specs.declared.error.Reason.TheVariants as reasons;
ghost use Rattle.hll_sketch.specs.Checks.{first_failing, list_checks, set_checks, plain_checks, hll4_checks, before_last, checks_of_counts, count_fault};
ghost use Rattle.hll_sketch.specs.Header.{header_of};
ghost use Rattle.hll_sketch.specs.Image.{HasHeader, HasLgK, HasExceptionTable, IsReadAs, IsSizeOfImage, asked_size, asked_count, state_byte, list_shape, set_shape, hll4_shape, stage_bits};
ghost use Rattle.hll_sketch.specs.Value.{Sketch};

use crate::header::{HEADER_SIZE, Header, Stage, is_set_table};
use hll_arrays::registers::two_to;
use hll_base::cursor::SketchSlice;
use hll_base::error::{Error, Reason};
use hll_base::hll_type::HllType;
use hll_coupons::serialization::{
    COUPON_SIZE_BYTES, HLL_PREAMBLE_SIZE, LG_LIST_BUCKETS, SET_PREAMBLE_SIZE,
};

/// What the counts after a header say, after their checks.
#[derive(Clone, Copy)]
pub struct Counts {
    /// The number of coupons of a list or a set, or of the exceptions of registers: 0 for 6-bit and 8-bit registers.
    pub count: u32,
    /// The size of the image in bytes.
    pub size: usize,
}

/// The greatest logarithm of the number of buckets for the exceptions of 4-bit registers.
const MOST_LG_TABLE: u8 = 26;

/// Returns what the counts after the header of an image say. Reads at most the first 40 bytes: 8 for a list, 12 for a set. Whether
/// the image has all its bytes is not checked.
///
/// Fails with the reason of the first check of the counts that fails (docs/FORMAT.md, "Order of checks"): `LgArr`, `Truncated` if
/// the counts are not there, or `Count`.
pub fn read_counts(bytes: &[u8], header: Header) -> Result<Counts, Error>
    requires has { HasHeader bytes.now (stage_bits bytes.now) }
    requires stage { stage_bits bytes.now < 3 }
    requires header { header ≡ header_of bytes.now }
    ensures ok { IfOk result (λ c. (count_fault bytes.now ≡ None) × (c.size ≡ asked_size bytes.now) × (c.count ≡ asked_count bytes.now)) }
    ensures err { IfErr result (λ e. count_fault bytes.now ≡ Some e) }
{
    match (header.stage, header.hll_type) {
        (Stage::List, _) => counts_of_list(bytes, header),
        (Stage::Set, _) => counts_of_set(bytes, header),
        (Stage::Hll, HllType::Hll4) => counts_of_four(bytes, header),
        (Stage::Hll, HllType::Hll6) => {
            counts_of_plain(bytes, header, 3 * two_to(header.lg_k) / 4 + 1)
        }
        (Stage::Hll, HllType::Hll8) => counts_of_plain(bytes, header, two_to(header.lg_k)),
    }
}

/// Returns the size in bytes of the image that the bytes begin with. Reads only its header and counts.
pub fn size_of_image(bytes: &[u8]) -> usize
    requires { (x : Sketch) × IsReadAs bytes.now x }
    ensures { IsSizeOfImage bytes.now result }
{
    let Ok(header) = Header::read(bytes) else {
        unreachable!()
    };
    match read_counts(bytes, header) {
        Ok(counts) => counts.size,
        Err(_) => unreachable!(),
    }
}

/// Returns the number in the four bytes from an index on.
fn number_at(bytes: &[u8], index: usize) -> u32
    requires { index + 4 ≤ length bytes.now }
    ensures number { result ≡ from_le_bytes w32 (drop index bytes.now) }
{
    let mut cursor = SketchSlice::new(&bytes[index..]);
    match cursor.read_u32_le() {
        Ok(number) => number,
        Err(_) => unreachable!(),
    }
}

/// Returns whether the count of a list is one that a list may have, and the empty flag agrees with it.
fn is_list_count(header: Header) -> bool
    ensures { (b : List ℕ) → header ≡ header_of b → IsTrue result ↔ HasListCount (list_shape b) }
{
    header.state_byte <= 8 && header.empty == (header.state_byte == 0)
}

/// Returns the number of buckets of a list.
fn buckets_of_list(header: Header) -> usize
    ensures buckets { (b : List ℕ) → header ≡ header_of b → result ≡ list_buckets (list_shape b) }
    ensures small { result < 2 ^ 8 }
{
    if header.empty {
        0
    } else if header.compact {
        usize::from(header.state_byte)
    } else {
        two_to(LG_LIST_BUCKETS)
    }
}

/// Returns what the counts of a list say. They are in its header.
fn counts_of_list(bytes: &[u8], header: Header) -> Result<Counts, Error>
    requires header { header ≡ header_of bytes.now }
    ensures ok { IfOk result (λ c. (first_failing (checks_of_counts (list_checks bytes.now)) ≡ None) × (c.size ≡ 8 + 4 * list_buckets (list_shape bytes.now)) × (c.count ≡ state_byte bytes.now)) }
    ensures err { IfErr result (λ e. first_failing (checks_of_counts (list_checks bytes.now)) ≡ Some e) }
{
    if header.lg_arr != LG_LIST_BUCKETS {
        return Err(Error::new(Reason::LgArr));
    }
    if !is_list_count(header) {
        return Err(Error::new(Reason::Count));
    }
    Ok(Counts {
        count: u32::from(header.state_byte),
        size: HEADER_SIZE + COUPON_SIZE_BYTES * buckets_of_list(header),
    })
}

/// Returns what the count of a set says.
fn counts_of_set(bytes: &[u8], header: Header) -> Result<Counts, Error>
    requires lg_k { HasLgK bytes.now }
    requires header { header ≡ header_of bytes.now }
    ensures ok { IfOk result (λ c. (first_failing (checks_of_counts (set_checks bytes.now)) ≡ None) × (c.size ≡ 12 + 4 * set_buckets (set_shape bytes.now) (drop 8 bytes.now)) × (c.count ≡ set_count (drop 8 bytes.now))) }
    ensures err { IfErr result (λ e. first_failing (checks_of_counts (set_checks bytes.now)) ≡ Some e) }
{
    if !is_set_table(header) {
        return Err(Error::new(Reason::LgArr));
    }
    if bytes.len() < SET_PREAMBLE_SIZE {
        return Err(Error::new(Reason::Truncated));
    }
    let count = number_at(bytes, HEADER_SIZE);
    let buckets = two_to(header.lg_arr);
    if count as usize >= buckets {
        return Err(Error::new(Reason::Count));
    }
    let listed = if header.compact {
        count as usize
    } else {
        buckets
    };
    Ok(Counts {
        count,
        size: SET_PREAMBLE_SIZE + COUPON_SIZE_BYTES * listed,
    })
}

/// Returns what the counts of 6-bit or 8-bit registers say, which take `size` bytes.
fn counts_of_plain(bytes: &[u8], header: Header, size: usize) -> Result<Counts, Error>
    requires lg_k { HasLgK bytes.now }
    requires header { header ≡ header_of bytes.now }
    requires small { size ≤ 2 ^ 21 }
    ensures ok { IfOk result (λ c. (first_failing (before_last (plain_checks size bytes.now)) ≡ None) × (c.size ≡ 40 + size) × (c.count ≡ exception_count (drop 8 bytes.now))) }
    ensures err { IfErr result (λ e. first_failing (before_last (plain_checks size bytes.now)) ≡ Some e) }
{
    if bytes.len() < HLL_PREAMBLE_SIZE {
        return Err(Error::new(Reason::Truncated));
    }
    let zeros = number_at(bytes, HLL_PREAMBLE_SIZE - 8);
    let count = number_at(bytes, HLL_PREAMBLE_SIZE - 4);
    if zeros as usize > two_to(header.lg_k) || count != 0 {
        return Err(Error::new(Reason::Count));
    }
    Ok(Counts {
        count,
        size: HLL_PREAMBLE_SIZE + size,
    })
}

/// Returns the number of buckets of the exceptions of 4-bit registers.
///
/// Fails with `LgArr` if there are exceptions in a table of more than 2^26 buckets.
fn buckets_of_exceptions(header: Header, count: u32) -> Result<usize, Error>
    ensures buckets { (b : List ℕ) → header ≡ header_of b → count ≡ exception_count (drop 8 b) → IfOk result (λ n. n ≡ exception_buckets (hll4_shape b) (drop 8 b)) }
    ensures table { (b : List ℕ) → header ≡ header_of b → count ≡ exception_count (drop 8 b) → IfOk result (λ _. HasExceptionTable b) }
    ensures small { IfOk result (λ n. n < 2 ^ 32) }
    ensures err { IfErr result (λ e. e ≡ reasons.LgArr) }
    ensures other { (b : List ℕ) → header ≡ header_of b → count ≡ exception_count (drop 8 b) → IfErr result (λ _. HasExceptionTable b → ⊥) }
{
    if header.compact || count == 0 {
        return Ok(count as usize);
    }
    if header.lg_arr > MOST_LG_TABLE {
        return Err(Error::new(Reason::LgArr));
    }
    Ok(1 << header.lg_arr)
}

/// Returns what the counts of 4-bit registers say.
fn counts_of_four(bytes: &[u8], header: Header) -> Result<Counts, Error>
    requires lg_k { HasLgK bytes.now }
    requires header { header ≡ header_of bytes.now }
    ensures ok { IfOk result (λ c. (first_failing (checks_of_counts (hll4_checks bytes.now)) ≡ None) × (c.size ≡ 8 + hll4_size (hll4_shape bytes.now) (drop 8 bytes.now)) × (c.count ≡ exception_count (drop 8 bytes.now))) }
    ensures err { IfErr result (λ e. first_failing (checks_of_counts (hll4_checks bytes.now)) ≡ Some e) }
{
    if bytes.len() < HLL_PREAMBLE_SIZE {
        return Err(Error::new(Reason::Truncated));
    }
    let least = number_at(bytes, HLL_PREAMBLE_SIZE - 8);
    let count = number_at(bytes, HLL_PREAMBLE_SIZE - 4);
    let registers = two_to(header.lg_k);
    if least as usize > registers || count as usize > registers {
        return Err(Error::new(Reason::Count));
    }
    let buckets = buckets_of_exceptions(header, count)?;
    Ok(Counts {
        count,
        size: HLL_PREAMBLE_SIZE + two_to(header.lg_k - 1) + COUPON_SIZE_BYTES * buckets,
    })
}
