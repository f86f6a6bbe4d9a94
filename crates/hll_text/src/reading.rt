// SPDX-License-Identifier: Apache-2.0
//! Reads one line of a plan.
ghost use Rattle.std.specs.Prelude.{◌/◌, ◌<◌, ◌≤◌, ◌≡◌, ◌⊎◌, [], ◌∷◌, length, take, true, codes, Ok, Err, OnOk, IfOk, IfErr, IfSome};
ghost use Rattle.std.specs.Option.{option_copied};
ghost use Rattle.hll_text.specs.declared.fault.Fault.TheVariants.{Hex, Memory};
ghost use Rattle.hll_text.specs.Step.{step_reading_of, line_reading_of, step_of, ReadsAs, IsInRange, IfImage, IfStep};
ghost use Rattle.hll_text.specs.Text as plan;
ghost use Rattle.hll_text.specs.Text.{as_reading, tokens, tokens_after, reading, names_image, width, lg_k, FaultsOfLines};

use crate::fault::Fault;
use crate::step::{Line, Step};
use crate::tokens::{one_number, one_token, split_token, three_numbers, two_numbers};
use hex::FromHexError;
use hll_base::bounds::{MAX_LG_K, MAX_VALUE, MIN_LG_K, SLOT_BITS};
use hll_base::hll_type::HllType;
use std::alloc::Allocator;

/// Returns what a line of a plan, without its end, says: `None` if it is skipped, else a step (docs/PLAN.md, "The text").
///
/// Fails with `Syntax` if the line has none of the forms of a line, else with `Range` if a number is out of its range, or `Hex`
/// if the token of an `image` line is not an even number of hexadecimal digits. Only an `image` line allocates, for its bytes;
/// it fails with `Memory` if that fails.
pub fn read_step<A: Allocator>(alloc: A, line: &[u8]) -> Result<Option<Step<A>>, Fault>
    ensures reading { ReadsAs (tokens line.now) (reading line.now) result }
    ensures in_range { IfOk result (λ found. IfSome found (λ step. IsInRange (step_of step))) }
{
    match read_line(line)? {
        Line::Skipped => Ok(None),
        Line::Image(digits) => Ok(Some(image_step(alloc, digits)?)),
        Line::Step(step) => Ok(Some(step)),
    }
}

/// Returns what a line of a plan, without its end, says. The digits of an image are left as they are. Fails with `Syntax` and
/// `Range` as `read_step` does.
pub fn read_line<A: Allocator>(line: &[u8]) -> Result<Line<'_, A>, Fault>
    ensures reading { line_reading_of result ≡ reading line.now }
    ensures image { IfOk result (λ said. IfImage said (names_image (tokens line.now) ≡ true)) }
    ensures in_range { IfOk result (λ said. IfStep said (λ step. IsInRange (step_of step))) }
{
    if line.is_empty() || line[0] == b'#' {
        return Ok(Line::Skipped);
    }
    if let Some(numbers) = line.strip_prefix(b"coupon ".as_slice()) {
        return coupon_line(Some(numbers));
    }
    if let Some(token) = line.strip_prefix(b"image ".as_slice()) {
        return image_line(Some(token));
    }
    let (first, rest) = split_token(line);
    read_tokens(first, rest)
}

/// Returns what a line that is not skipped says. Gets its first token and what follows the space after it.
fn read_tokens<'l, A: Allocator>(first: &[u8], rest: Option<&'l [u8]>) -> Result<Line<'l, A>, Fault>
    ensures reading { line_reading_of result ≡ as_reading (plan.read_tokens (first.now ∷ tokens_after (option_copied rest.entry))) }
    ensures image { IfOk result (λ said. IfImage said (names_image (first.now ∷ tokens_after (option_copied rest.entry)) ≡ true)) }
    ensures in_range { IfOk result (λ said. IfStep said (λ step. IsInRange (step_of step))) }
{
    if first == b"new".as_slice() {
        let (lg_k, bits) = two_numbers(rest)?;
        Ok(Line::Step(new_step(lg_k, bits)?))
    } else if first == b"image".as_slice() {
        image_line(rest)
    } else if first == b"coupon".as_slice() {
        coupon_line(rest)
    } else if first == b"union".as_slice() {
        let (count, lg_max_k, bits) = three_numbers(rest)?;
        Ok(Line::Step(union_step(count, lg_max_k, bits)?))
    } else if first == b"fold".as_slice() {
        Ok(Line::Step(fold_step(one_number(rest)?)?))
    } else {
        Err(Fault::Syntax)
    }
}

/// Returns what a line says whose first token is `image`. Gets what follows the space after it.
fn image_line<'l, A: Allocator>(rest: Option<&'l [u8]>) -> Result<Line<'l, A>, Fault>
    ensures reading { line_reading_of result ≡ as_reading (plan.read_tokens (codes "image" ∷ tokens_after (option_copied rest.entry))) }
    ensures in_range { IfOk result (λ said. IfStep said (λ step. IsInRange (step_of step))) }
{
    Ok(Line::Image(one_token(rest)?))
}

/// Returns what a line says whose first token is `coupon`. Gets what follows the space after it.
fn coupon_line<'l, A: Allocator>(rest: Option<&[u8]>) -> Result<Line<'l, A>, Fault>
    ensures reading { line_reading_of result ≡ as_reading (plan.read_tokens (codes "coupon" ∷ tokens_after (option_copied rest.entry))) }
    ensures image { IfOk result (λ said. IfImage said ⊥) }
    ensures in_range { IfOk result (λ said. IfStep said (λ step. IsInRange (step_of step))) }
{
    let (slot, value) = two_numbers(rest)?;
    Ok(Line::Step(coupon_step(slot, value)?))
}

/// Returns the bytes that the digits of an image stand for, in the memory of a buffer, whatever that held. So one buffer can be
/// used for one line after the other.
///
/// Fails with `Hex` if the token is not an even number of hexadecimal digits. Allocates only if there are more bytes than the
/// buffer has room for, and fails with `Memory` if that fails.
pub fn decode_into<A: Allocator>(mut buffer: Vec<u8, A>, digits: &[u8]) -> Result<Vec<u8, A>, Fault>
    ensures ok { IfOk result (λ bytes. plan.image_step digits.now ≡ Ok (plan.image bytes.items)) }
    ensures err { IfErr result (λ e. (e ≡ Memory) ⊎ ((e ≡ Hex) × (plan.image_step digits.now ≡ Err Hex))) }
    ensures needed { IfErr result (λ e. e ≡ Memory → length buffer.items < length digits.now / 2) }
{
    let size = digits.len() / 2;
    buffer.truncate(size);
    if buffer.len() < size {
        buffer.resize(size, 0)?;
    }
    match hex::decode_to_slice(digits, buffer.as_mut_slice()) {
        Ok(()) => Ok(buffer),
        Err(_) => Err(Fault::Hex),
    }
}

/// Returns the step `new K W`.
fn new_step<A: Allocator>(lg_k: u32, bits: u32) -> Result<Step<A>, Fault>
    ensures reading { step_reading_of result ≡ plan.new_step lg_k bits }
    ensures in_range { IfOk result (λ step. IsInRange (step_of step)) }
{
    Ok(Step::New(lg_k_of(lg_k)?, width_of(bits)?))
}

/// Returns the step `image HEX`.
fn image_step<A: Allocator>(alloc: A, digits: &[u8]) -> Result<Step<A>, Fault>
    ensures reading { (step_reading_of result ≡ plan.image_step digits.now) ⊎ (result ≡ Err Memory) }
    ensures in_range { IfOk result (λ step. IsInRange (step_of step)) }
{
    match hex::decode(alloc, digits) {
        Ok(bytes) => Ok(Step::Image(bytes)),
        Err(FromHexError::OutOfMemory) => Err(Fault::Memory),
        Err(_) => Err(Fault::Hex),
    }
}

/// Returns the step `coupon S V`.
fn coupon_step<A: Allocator>(slot: u32, value: u32) -> Result<Step<A>, Fault>
    ensures reading { step_reading_of result ≡ plan.coupon_step slot value }
    ensures in_range { IfOk result (λ step. IsInRange (step_of step)) }
{
    if slot < 1 << SLOT_BITS && 1 <= value && value <= u32::from(MAX_VALUE) {
        Ok(Step::Coupon(slot, value as u8))
    } else {
        Err(Fault::Range)
    }
}

/// Returns the step `union N M W`.
fn union_step<A: Allocator>(count: u32, lg_max_k: u32, bits: u32) -> Result<Step<A>, Fault>
    ensures reading { step_reading_of result ≡ plan.union_step count lg_max_k bits }
    ensures in_range { IfOk result (λ step. IsInRange (step_of step)) }
{
    Ok(Step::Union(count, lg_k_of(lg_max_k)?, width_of(bits)?))
}

/// Returns the step `fold E`.
fn fold_step<A: Allocator>(lg_k: u32) -> Result<Step<A>, Fault>
    ensures reading { step_reading_of result ≡ plan.fold_step lg_k }
    ensures in_range { IfOk result (λ step. IsInRange (step_of step)) }
{
    Ok(Step::Fold(lg_k_of(lg_k)?))
}

/// Returns an `lg_k`, which is 4 to 21. Fails with `Range` for any other number.
fn lg_k_of(number: u32) -> Result<u8, Fault>
    ensures { result ≡ lg_k number }
{
    if u32::from(MIN_LG_K) <= number && number <= u32::from(MAX_LG_K) {
        Ok(number as u8)
    } else {
        Err(Fault::Range)
    }
}

/// Returns the width of 4, 6 or 8 bits. Fails with `Range` for any other number.
fn width_of(bits: u32) -> Result<HllType, Fault>
    ensures { result ≡ width bits }
{
    match bits {
        4 => Ok(HllType::Hll4),
        6 => Ok(HllType::Hll6),
        8 => Ok(HllType::Hll8),
        _ => Err(Fault::Range),
    }
}

/// The law of the faults of a line: they are `Syntax`, `Range` and `Hex` (docs/PLAN.md, "Faults"). So `Memory`, `Read`,
/// `Write`, `Image`, `Stack` and `Fold` come from elsewhere. Does nothing at run time.
pub fn faults_of_lines()
    ensures { FaultsOfLines }
{}
