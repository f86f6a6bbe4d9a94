// SPDX-License-Identifier: Apache-2.0
//! Reads sketches from images (docs/FORMAT.md, "The image"): the header first, then one reader for each stage and width. Each
//! reader looks only at a prefix of the bytes, fails with the first check that they fail, or else with `Memory`, and allocates
//! only once the bytes are known to be there.
ghost use Rattle.std.specs.Prelude.{◌≡◌, ◌<◌, ◌⊎◌, None, Some, IfOk, IfErr};
ghost use Rattle.hll_base.specs.declared.error.Reason.TheVariants.{Memory};
ghost use Rattle.hll_sketch.specs.Checks.{first_fault, size_fault};
ghost use Rattle.hll_sketch.specs.Fault.{IsFault};
ghost use Rattle.hll_sketch.specs.Header.{header_of};
ghost use Rattle.hll_sketch.specs.Image.{HasHeader, IsReadAs, stage_bits, width_bits};
ghost use Rattle.hll_sketch.specs.Layout.{sketch_of};
ghost use Rattle.hll_sketch.specs.Refusal.{IsRefusal};

use crate::header::{HEADER_SIZE, Header, Stage, is_set_table};
use crate::mode::Mode;
use crate::raw_coupons::few_are_faulty;
use crate::sketch::HllSketch;
use hll_arrays::array4::Array4;
use hll_arrays::array6::Array6;
use hll_arrays::array8::Array8;
use hll_arrays::aux_format::AuxFormat;
use hll_base::cursor::SketchSlice;
use hll_base::error::{Error, Reason};
use hll_base::hll_type::HllType;
use hll_coupons::hash_set::HashSet;
use hll_coupons::list::List;
use hll_coupons::serialization::LG_LIST_BUCKETS;
use std::alloc::Allocator;

impl<A: Allocator + Clone> HllSketch<A> {
    /// Returns the sketch of an image of any stage and width (docs/FORMAT.md, "The image"). Bytes after the image are not read.
    ///
    /// Fails with the reason of the first check that the bytes fail, in the order of docs/FORMAT.md, or else with `Memory`.
    /// Allocates only once the counts pass their checks and all bytes that they ask for are there.
    pub fn deserialize(alloc: A, bytes: &[u8]) -> Result<HllSketch<A>, Error>
        ensures ok { IfOk result (λ s. IsReadAs bytes.now (sketch_of s)) }
        ensures err { IfErr result (λ e. (e ≡ Memory) ⊎ IsFault bytes.now e) }
        ensures order { IfErr result (λ e. (e ≡ Memory) ⊎ (first_fault bytes.now ≡ Some e)) }
        ensures asked { IfErr result (λ e. e ≡ Memory → size_fault bytes.now ≡ None) }
    {
        let header = Header::read(bytes)?;
        read_payload(alloc, bytes, header)
    }
}

/// Returns the sketch of an image whose header has been read, in memory of a clone of this allocator.
///
/// Fails with the reason of the first check that the bytes fail, or else with `Memory`, also if cloning the allocator fails.
pub fn read_sketch<A: Allocator + Clone>(
    alloc: &A,
    bytes: &[u8],
    header: Header,
) -> Result<HllSketch<A>, Error>
    requires has { HasHeader bytes.now (stage_bits bytes.now) }
    requires stage { stage_bits bytes.now < 3 }
    requires header { header ≡ header_of bytes.now }
    ensures ok { IfOk result (λ s. IsReadAs bytes.now (sketch_of s)) }
    ensures err { IfErr result (IsRefusal bytes.now) }
{
    match alloc.clone() {
        Ok(own) => read_payload(own, bytes, header),
        Err(_) => Err(fault_or_memory(alloc, bytes, header)),
    }
}

/// Returns the reason of the first check that an image fails, or else `Memory`.
fn fault_or_memory<A: Allocator + Clone>(alloc: A, bytes: &[u8], header: Header) -> Error
    requires has { HasHeader bytes.now (stage_bits bytes.now) }
    requires stage { stage_bits bytes.now < 3 }
    requires header { header ≡ header_of bytes.now }
    ensures { IsRefusal bytes.now result }
{
    match read_payload(alloc, bytes, header) {
        Ok(_) => Error::new(Reason::Memory),
        Err(e) => e,
    }
}

/// Returns the sketch of an image whose header has been read.
fn read_payload<A: Allocator + Clone>(
    alloc: A,
    bytes: &[u8],
    header: Header,
) -> Result<HllSketch<A>, Error>
    requires has { HasHeader bytes.now (stage_bits bytes.now) }
    requires stage { stage_bits bytes.now < 3 }
    requires header { header ≡ header_of bytes.now }
    ensures ok { IfOk result (λ s. IsReadAs bytes.now (sketch_of s)) }
    ensures err { IfErr result (IsRefusal bytes.now) }
{
    match (header.stage, header.hll_type) {
        (Stage::List, _) => read_list(alloc, bytes, header),
        (Stage::Set, _) => read_set(alloc, bytes, header),
        (Stage::Hll, HllType::Hll4) => read_four(alloc, bytes, header),
        (Stage::Hll, HllType::Hll6) => read_six(alloc, bytes, header),
        (Stage::Hll, HllType::Hll8) => read_eight(alloc, bytes, header),
    }
}

/// Returns the sketch of an image of a list.
fn read_list<A: Allocator>(alloc: A, bytes: &[u8], header: Header) -> Result<HllSketch<A>, Error>
    requires has { HasHeader bytes.now 0 }
    requires header { header ≡ header_of bytes.now }
    ensures ok { IfOk result (λ s. IsReadAs bytes.now (sketch_of s)) }
    ensures err { IfErr result (IsRefusal bytes.now) }
{
    if header.lg_arr != LG_LIST_BUCKETS {
        return Err(Error::new(Reason::LgArr));
    }
    let list = List::deserialize(
        alloc,
        SketchSlice::new(&bytes[HEADER_SIZE..]),
        usize::from(LG_LIST_BUCKETS),
        usize::from(header.state_byte),
        header.empty,
        header.compact,
    )?;
    let mode = Mode::List {
        list,
        hll_type: header.hll_type,
    };
    Ok(HllSketch {
        lg_config_k: header.lg_k,
        mode,
    })
}

/// Returns the sketch of an image of a set.
fn read_set<A: Allocator + Clone>(
    alloc: A,
    bytes: &[u8],
    header: Header,
) -> Result<HllSketch<A>, Error>
    requires has { HasHeader bytes.now 1 }
    requires header { header ≡ header_of bytes.now }
    ensures ok { IfOk result (λ s. IsReadAs bytes.now (sketch_of s)) }
    ensures err { IfErr result (IsRefusal bytes.now) }
{
    if !is_set_table(header) {
        return Err(Error::new(Reason::LgArr));
    }
    if few_are_faulty(bytes, header) {
        return Err(Error::new(Reason::Coupon));
    }
    let set = HashSet::deserialize(
        alloc,
        SketchSlice::new(&bytes[HEADER_SIZE..]),
        usize::from(header.lg_arr),
        header.compact,
    )?;
    let mode = Mode::Set {
        set,
        hll_type: header.hll_type,
    };
    Ok(HllSketch {
        lg_config_k: header.lg_k,
        mode,
    })
}

/// Returns the sketch of an image of 4-bit registers.
fn read_four<A: Allocator + Clone>(
    alloc: A,
    bytes: &[u8],
    header: Header,
) -> Result<HllSketch<A>, Error>
    requires has { HasHeader bytes.now 2 }
    requires width { width_bits bytes.now ≡ 0 }
    requires header { header ≡ header_of bytes.now }
    ensures ok { IfOk result (λ s. IsReadAs bytes.now (sketch_of s)) }
    ensures err { IfErr result (IsRefusal bytes.now) }
{
    let array = Array4::deserialize(
        alloc,
        SketchSlice::new(&bytes[HEADER_SIZE..]),
        header.state_byte,
        header.lg_k,
        AuxFormat::from_header(header.compact, header.lg_arr),
        header.out_of_order,
    )?;
    Ok(HllSketch {
        lg_config_k: header.lg_k,
        mode: Mode::Array4(array),
    })
}

/// Returns the sketch of an image of 6-bit registers.
fn read_six<A: Allocator>(alloc: A, bytes: &[u8], header: Header) -> Result<HllSketch<A>, Error>
    requires has { HasHeader bytes.now 2 }
    requires width { width_bits bytes.now ≡ 1 }
    requires header { header ≡ header_of bytes.now }
    ensures ok { IfOk result (λ s. IsReadAs bytes.now (sketch_of s)) }
    ensures err { IfErr result (IsRefusal bytes.now) }
{
    let payload = SketchSlice::new(&bytes[HEADER_SIZE..]);
    let array = Array6::deserialize_registers(alloc, payload, header.lg_k, header.out_of_order)?;
    Ok(HllSketch {
        lg_config_k: header.lg_k,
        mode: Mode::Array6(array),
    })
}

/// Returns the sketch of an image of 8-bit registers.
fn read_eight<A: Allocator>(alloc: A, bytes: &[u8], header: Header) -> Result<HllSketch<A>, Error>
    requires has { HasHeader bytes.now 2 }
    requires width { width_bits bytes.now ≡ 2 }
    requires header { header ≡ header_of bytes.now }
    ensures ok { IfOk result (λ s. IsReadAs bytes.now (sketch_of s)) }
    ensures err { IfErr result (IsRefusal bytes.now) }
{
    let payload = SketchSlice::new(&bytes[HEADER_SIZE..]);
    let array = Array8::deserialize_registers(alloc, payload, header.lg_k, header.out_of_order)?;
    Ok(HllSketch {
        lg_config_k: header.lg_k,
        mode: Mode::Array8(array),
    })
}
