// SPDX-License-Identifier: Apache-2.0
//! The tokens of a line, and the numbers among them.
ghost use Rattle.std.specs.Prelude.{◌≡◌, ◌<◌, ◌≤◌, ◌∷◌, ◌==◌, [], ℕ, List, length, map, slice_index, take, true, false, not, position, MatchResult, Ok, Err};
ghost use Rattle.std.specs.List.{list_all};
ghost use Rattle.std.specs.Simd.Lanes.{chunk, mask_l};
ghost use Rattle.std.specs.Option.{option_copied};
ghost use Rattle.std.specs.Char.{is_ascii_digit};
ghost use Rattle.hll_text.specs.Text as plan;
ghost use Rattle.hll_text.specs.Text.{tokens, tokens_after, decimal_value, number, first_number};
ghost use Rattle.hll_text.specs.Step.{token_of};
ghost use Rattle.hll_text.specs.declared.fault.Fault.TheVariants.{Syntax};

use crate::bytes::{first_of, first_one_by_one};
use crate::fault::Fault;
use std::simd::prelude::*;

/// Returns the first token of a line, which is short, and what follows the space after it.
pub(crate) fn split_token(line: &[u8]) -> (&[u8], Option<&[u8]>)
    ensures { tokens line.now ≡ result.0.now ∷ tokens_after (option_copied result.1) }
{
    match first_one_by_one(b' ', line) {
        None => (line, None),
        Some(at) => (&line[..at], Some(&line[at + 1..])),
    }
}

/// Returns the number after a space, which ends at the next space or with the line, and what follows that space. Fails with
/// `Syntax` if there is no space, or no number after it.
fn next_number(rest: Option<&[u8]>) -> Result<(u32, Option<&[u8]>), Fault>
    ensures { MatchResult result
        (λ r. (token : List ℕ) × (tokens_after (option_copied rest.entry) ≡ token ∷ tokens_after (option_copied r.1)) × (number token ≡ Ok r.0))
        (λ e. (first_number (tokens_after (option_copied rest.entry)) ≡ Err Syntax) × (e ≡ Syntax)) }
{
    let Some(text) = rest else {
        return Err(Fault::Syntax);
    };
    let (value, digits) = leading_number(text);
    if digits == 0 {
        Err(Fault::Syntax)
    } else if digits == text.len() {
        Ok((value, None))
    } else if text[digits] == b' ' {
        Ok((value, Some(&text[digits + 1..])))
    } else {
        Err(Fault::Syntax)
    }
}

/// Returns the value of the digits that a text begins with, at most eight, and their number. Eight bytes are examined at a
/// time; if there are fewer, digit by digit.
fn leading_number(text: &[u8]) -> (u32, usize)
    ensures digits { list_all is_ascii_digit (take result.1 text.now) ≡ true }
    ensures value { result.0 ≡ decimal_value (take result.1 text.now) }
    ensures few { result.1 ≤ 8 }
    ensures within { result.1 ≤ length text.now }
    ensures ends { result.1 < 8 → result.1 < length text.now → is_ascii_digit (slice_index text.now result.1) ≡ false }
{
    if text.len() < 8 {
        return short_number(text);
    }
    let count = digits_of_eight(text);
    (value_of_eight(text, count), count)
}

/// Returns how many of the first eight bytes of a text are digits, before the first that is not one.
fn digits_of_eight(text: &[u8]) -> usize
    requires { 8 ≤ length text.now }
    ensures digits { list_all is_ascii_digit (take result text.now) ≡ true }
    ensures few { result ≤ 8 }
    ensures ends { result < 8 → is_ascii_digit (slice_index text.now result) ≡ false }
{
    let marks = other_marks(text);
    if marks == 0 {
        8
    } else {
        marks.trailing_zeros() as usize
    }
}

/// Returns a bit for each of the first eight bytes of a text, set if it is not a digit.
fn other_marks(text: &[u8]) -> u64
    requires { 8 ≤ length text.now }
    ensures { result ≡ mask_l (map (λ b. not (is_ascii_digit b)) (chunk 0 8 text.now)) }
{
    let from_zero = u8x8::from_slice(text) - u8x8::splat(b'0');
    from_zero.simd_gt(u8x8::splat(9)).to_bitmask()
}

/// The powers of ten for up to eight digits, and zeros for the bytes after them.
const POWERS: [u32; 16] = [
    10_000_000, 1_000_000, 100_000, 10_000, 1000, 100, 10, 1, 0, 0, 0, 0, 0, 0, 0, 0,
];

/// Returns the value of the first bytes of a text, at most eight, as digits: all eight at a time, each multiplied by its power
/// of ten or by zero.
fn value_of_eight(text: &[u8], count: usize) -> u32
    requires long { 8 ≤ length text.now }
    requires few { count ≤ 8 }
    ensures { result ≡ decimal_value (take count text.now) }
{
    let digits = u8x8::from_slice(text).saturating_sub(u8x8::splat(b'0'));
    let powers = u32x8::from_slice(&POWERS[8 - count..]);
    digits.cast::<u32>().strict_mul(powers).strict_reduce_sum()
}

/// Returns the value of the digits that a text of fewer than eight bytes begins with, and their number.
fn short_number(text: &[u8]) -> (u32, usize)
    requires { length text.now < 8 }
    ensures digits { list_all is_ascii_digit (take result.1 text.now) ≡ true }
    ensures value { result.0 ≡ decimal_value (take result.1 text.now) }
    ensures within { result.1 ≤ length text.now }
    ensures ends { result.1 < length text.now → is_ascii_digit (slice_index text.now result.1) ≡ false }
{
    let mut value: u32 = 0;
    let mut count = 0;
    while count < text.len() {
        let byte = text[count];
        if !byte.is_ascii_digit() {
            return (value, count);
        }
        value = 10 * value + u32::from(byte - b'0');
        count += 1;
    }
    (value, count)
}

/// Returns the number after a space. Fails with `Syntax` if there is not exactly one token, or it is not a number.
pub(crate) fn one_number(rest: Option<&[u8]>) -> Result<u32, Fault>
    ensures { result ≡ plan.one_number (tokens_after (option_copied rest.entry)) }
{
    let (number, rest) = next_number(rest)?;
    match rest {
        None => Ok(number),
        Some(_) => Err(Fault::Syntax),
    }
}

/// Returns the two numbers after a space. Fails with `Syntax` if there are not exactly two tokens, both of them numbers.
pub(crate) fn two_numbers(rest: Option<&[u8]>) -> Result<(u32, u32), Fault>
    ensures { result ≡ plan.two_numbers (tokens_after (option_copied rest.entry)) }
{
    let (first, rest) = next_number(rest)?;
    let (second, rest) = next_number(rest)?;
    match rest {
        None => Ok((first, second)),
        Some(_) => Err(Fault::Syntax),
    }
}

/// Returns the three numbers after a space. Fails with `Syntax` if there are not exactly three tokens, all of them numbers.
pub(crate) fn three_numbers(rest: Option<&[u8]>) -> Result<(u32, u32, u32), Fault>
    ensures { result ≡ plan.three_numbers (tokens_after (option_copied rest.entry)) }
{
    let (first, rest) = next_number(rest)?;
    let (second, third) = two_numbers(rest)?;
    Ok((first, second, third))
}

/// Returns the token after a space. Searches for its end in blocks, since it may be long. Fails with `Syntax` if there is not
/// exactly one token, or it is empty.
pub(crate) fn one_token(rest: Option<&[u8]>) -> Result<&[u8], Fault>
    ensures { token_of result ≡ plan.one_token (tokens_after (option_copied rest.entry)) }
{
    let Some(token) = rest else {
        return Err(Fault::Syntax);
    };
    if token.is_empty() {
        return Err(Fault::Syntax);
    }
    match first_of(b' ', token) {
        None => Ok(token),
        Some(_) => Err(Fault::Syntax),
    }
}
