// SPDX-License-Identifier: Apache-2.0
//! The head of an image: its header and its counts.
ghost use Rattle.std.specs.Prelude.{◌≡◌, ◌<◌, IfOk, IfErr, List, None, ℕ};
ghost use Rattle.hll_sketch.specs.Checks.{count_fault};
ghost use Rattle.hll_sketch.specs.Header.{header_of, number_of_stage};
ghost use Rattle.hll_sketch.specs.Image.{HasHeader, stage_bits, width_bits};
ghost use Rattle.hll_c.specs.Head as spec;
ghost use Rattle.hll_c.specs.Head.{SaysHead, RefusesHead};

use crate::info::{LIST, REGISTERS, SET, bits_of};
use hll_base::error::{Error, Reason};
use hll_base::hll_type::HllType;
use hll_sketch::image_head::read_counts;
use hll_sketch::{Header, Stage};

/// The size of `HllHead` in bytes.
const HEAD_SIZE: usize = 24;

/// What the header of an image and the counts after it say.
#[repr(C)]
#[derive(Clone, Copy)]
pub struct HllHead {
    /// The size of the image in bytes. 0 if a check of the header or of the counts fails.
    pub size: u64,
    /// The number of coupons of a list or a set, or of the exceptions of 4-bit registers. 0 for other registers.
    pub count: u32,
    /// The logarithm of the number of registers, 4 to 21. 0 if a check of the header fails, as are the next four.
    pub lg_k: u8,
    /// The width of a register: 4, 6 or 8 bits.
    pub width: u8,
    /// 0 for a list, 1 for a set, 2 for registers.
    pub stage: u8,
    /// The flags that are set: 4 empty, 8 compact, 16 out of order.
    pub flags: u8,
    /// Of 4-bit registers: what is added to each nibble.
    pub minimum: u8,
    /// The number of the first of these checks that fails, or 0.
    pub fault: u8,
}

/// Returns what the header of an image and the counts after it say. Fails with `Argument` if `size` is not the size of `HllHead`.
pub(crate) fn head_of(image: &[u8], size: usize) -> Result<HllHead, Error>
    ensures ok { IfOk result (SaysHead image.now) }
    ensures err { IfErr result (RefusesHead (size ≡ 24)) }
{
    if size != HEAD_SIZE {
        return Err(Error::new(Reason::Argument));
    }
    Ok(found_in(image))
}

/// Returns the head of an image.
fn found_in(image: &[u8]) -> HllHead
    ensures { result ≡ spec.head_of image.now }
{
    match Header::read(image) {
        Ok(header) => with_counts_of(image, header),
        Err(e) => HllHead {
            size: 0,
            count: 0,
            lg_k: 0,
            width: 0,
            stage: 0,
            flags: 0,
            minimum: 0,
            fault: e.reason().number(),
        },
    }
}

/// Returns the head of an image whose header passes its checks.
fn with_counts_of(image: &[u8], header: Header) -> HllHead
    requires has { HasHeader image.now (stage_bits image.now) }
    requires stage { stage_bits image.now < 3 }
    requires header { header ≡ header_of image.now }
    ensures { result ≡ spec.head_by image.now None (count_fault image.now) }
{
    match read_counts(image, header) {
        Ok(counts) => head_with(header, counts.size as u64, counts.count, 0),
        Err(e) => head_with(header, 0, 0, e.reason().number()),
    }
}

/// Returns what a header says, with what its counts say.
fn head_with(header: Header, size: u64, count: u32, fault: u8) -> HllHead
    ensures { (b : List ℕ) → header ≡ header_of b → stage_bits b < 3 → width_bits b < 3 → result ≡ spec.head_with b size count fault }
{
    HllHead {
        size,
        count,
        lg_k: header.lg_k,
        width: bits_of(header.hll_type),
        stage: stage_number(header.stage),
        flags: 4 * u8::from(header.empty)
            + 8 * u8::from(header.compact)
            + 16 * u8::from(header.out_of_order),
        minimum: minimum_in(header),
        fault,
    }
}

/// Returns the number of a stage.
fn stage_number(stage: Stage) -> u8
    ensures { result ≡ number_of_stage stage }
{
    match stage {
        Stage::List => LIST,
        Stage::Set => SET,
        Stage::Hll => REGISTERS,
    }
}

/// Returns what is added to each nibble of 4-bit registers, and 0 if there are none.
fn minimum_in(header: Header) -> u8
    ensures { (b : List ℕ) → header ≡ header_of b → stage_bits b < 3 → width_bits b < 3 → result ≡ spec.minimum_of b }
{
    match (header.stage, header.hll_type) {
        (Stage::Hll, HllType::Hll4) => header.state_byte,
        _ => 0,
    }
}
