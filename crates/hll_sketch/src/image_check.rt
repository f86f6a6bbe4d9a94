// SPDX-License-Identifier: Apache-2.0
//! Checks whether bytes begin with an image (docs/FORMAT.md, "Order of checks").
ghost use Rattle.std.specs.Prelude.{◌≡◌, ◌<◌, OnOk, IfErr};
ghost use Rattle.hll_base.specs.declared.error.Reason.TheVariants.{Memory};
ghost use Rattle.hll_sketch.specs.Header.{header_of};
ghost use Rattle.hll_sketch.specs.Image.{HasHeader, IsReadAs, stage_bits};
ghost use Rattle.hll_sketch.specs.Refusal.{IsRefusal};
ghost use Rattle.hll_sketch.specs.MergedIn.{HasCompactCoupons, HasPlainRegisters};
ghost use Rattle.hll_sketch.specs.Updatable.{HasUpdatableCoupons};
ghost use Rattle.hll_sketch.specs.Value.{Sketch};

use crate::coupon_room::CouponRoom;
use crate::few_exceptions::few_exceptions;
use crate::header::{Header, Stage};
use crate::raw_coupons::compact_coupons;
use crate::raw_registers::with_registers;
use crate::read_image::read_sketch;
use crate::sketch::HllSketch;
use crate::updatable::updatable_coupons;
use hll_base::error::Error;
use hll_base::hll_type::HllType;
use std::alloc::Allocator;

impl<A: Allocator + Clone> HllSketch<A> {
    /// Checks whether bytes begin with an image. Bytes after the image are not read.
    ///
    /// Fails as `deserialize` does, with the reason of the first check that the bytes fail, or else with `Memory`. Allocates
    /// only once all bytes that the image needs are there: a table for coupons, except for at most 128 or ascending ones in a
    /// compact image and for 1 to 128 in an updatable one; and a map for the exceptions of 4-bit registers, unless
    /// `few_exceptions` returns them.
    pub fn check(alloc: A, bytes: &[u8]) -> Result<(), Error>
        ensures ok { OnOk result ((x : Sketch) × IsReadAs bytes.now x) }
        ensures err { IfErr result (IsRefusal bytes.now) }
        ensures compact { IfErr result (λ e. e ≡ Memory → HasCompactCoupons bytes.now → ⊥) }
        ensures updatable { IfErr result (λ e. e ≡ Memory → HasUpdatableCoupons bytes.now → ⊥) }
        ensures registers { IfErr result (λ e. e ≡ Memory → HasPlainRegisters bytes.now → ⊥) }
    {
        let header = Header::read(bytes)?;
        match header.stage {
            Stage::List | Stage::Set => match compact_coupons(bytes, header) {
                Some(_) => Ok(()),
                None => check_other_coupons(&alloc, bytes, header),
            },
            Stage::Hll => check_registers(&alloc, bytes, header),
        }
    }
}

/// Checks whether the bytes after the header of a list or a set are coupons, if one pass over a compact image has not shown it.
///
/// Fails with the reason of the first check that they fail, or else with `Memory`. Allocates a table, except for 1 to 128
/// coupons of an updatable image.
// (not inlined: compact coupons need none of it)
#[inline(never)]
fn check_other_coupons<A: Allocator + Clone>(
    alloc: &A,
    bytes: &[u8],
    header: Header,
) -> Result<(), Error>
    requires has { HasHeader bytes.now (stage_bits bytes.now) }
    requires stage { stage_bits bytes.now < 2 }
    requires header { header ≡ header_of bytes.now }
    ensures ok { OnOk result ((x : Sketch) × IsReadAs bytes.now x) }
    ensures err { IfErr result (IsRefusal bytes.now) }
    ensures updatable { IfErr result (λ e. e ≡ Memory → HasUpdatableCoupons bytes.now → ⊥) }
{
    let mut room = CouponRoom::new();
    match updatable_coupons(bytes, header, &mut room) {
        Some(_) => Ok(()),
        None => {
            read_sketch(alloc, bytes, header)?;
            Ok(())
        }
    }
}

/// Checks whether the bytes after the header of an image are registers, without a copy of them.
///
/// Fails with the reason of the first check that they fail, or else with `Memory`. Allocates a map for the exceptions of 4-bit
/// registers, unless `few_exceptions` returns them.
// (not inlined: a caller would have to clear its values for compact coupons too)
#[inline(never)]
fn check_registers<A: Allocator + Clone>(
    alloc: &A,
    bytes: &[u8],
    header: Header,
) -> Result<(), Error>
    requires has { HasHeader bytes.now 2 }
    requires header { header ≡ header_of bytes.now }
    ensures ok { OnOk result ((x : Sketch) × IsReadAs bytes.now x) }
    ensures err { IfErr result (IsRefusal bytes.now) }
    ensures plain { IfErr result (λ e. e ≡ Memory → HasPlainRegisters bytes.now → ⊥) }
{
    if header.hll_type == HllType::Hll4 && few_exceptions(bytes).is_some() {
        return Ok(());
    }
    with_registers!(alloc, bytes, header, _source => Ok(()))
}
