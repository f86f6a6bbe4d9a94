// SPDX-License-Identifier: Apache-2.0
//! Arguments that may be any number.
ghost use Rattle.std.specs.Prelude.{◌≡◌, IfOk, IfErr};
ghost use Rattle.hll_base.specs.declared.error.Reason.TheVariants as reasons;
ghost use Rattle.hll_sketch.specs.Value.{IsLgK};
ghost use Rattle.hll_c.specs.Calls.{bits_of, IsWidth, AsksWidth, IsAskedWidth};

use hll_base::bounds::{MAX_LG_K, MIN_LG_K};
use hll_base::error::{Error, Reason};
use hll_base::hll_type::HllType;

/// The number that asks for a width that is already known.
const OWN: u32 = 0;

/// Returns a number as an `lg_k`.
///
/// Fails with `Argument` if the number is not 4 to 21.
pub(crate) fn lg_k_of_number(number: u32) -> Result<u8, Error>
    ensures ok { IfOk result (λ k. (k ≡ number) × IsLgK number) }
    ensures outside { IfErr result (λ e. (e ≡ reasons.Argument) × (IsLgK number → ⊥)) }
{
    if number < u32::from(MIN_LG_K) || u32::from(MAX_LG_K) < number {
        return Err(Error::new(Reason::Argument));
    }
    Ok(number as u8)
}

/// Returns the width of a number of bits.
///
/// Fails with `Argument` if the number is not 4, 6 or 8.
pub(crate) fn width_of(bits: u32) -> Result<HllType, Error>
    ensures ok { IfOk result (λ w. bits_of w ≡ bits) }
    ensures outside { IfErr result (λ e. (e ≡ reasons.Argument) × (IsWidth bits → ⊥)) }
{
    match bits {
        4 => Ok(HllType::Hll4),
        6 => Ok(HllType::Hll6),
        8 => Ok(HllType::Hll8),
        _ => Err(Error::new(Reason::Argument)),
    }
}

/// Returns the width that a number asks for: the width of this number of bits, or for 0 the width `given`.
///
/// Fails with `Argument` if the number is not 0, 4, 6 or 8.
pub(crate) fn asked_width(bits: u32, given: HllType) -> Result<HllType, Error>
    ensures ok { IfOk result (λ w. IsAskedWidth bits given w) }
    ensures outside { IfErr result (λ e. (e ≡ reasons.Argument) × (AsksWidth bits → ⊥)) }
{
    if bits == OWN {
        return Ok(given);
    }
    width_of(bits)
}
