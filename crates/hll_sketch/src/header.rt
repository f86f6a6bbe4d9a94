// SPDX-License-Identifier: Apache-2.0
//! The first eight bytes of an image (docs/FORMAT.md, "The image").
ghost use Rattle.std.specs.Prelude.{◌≡◌, ℕ, List, IsTrue, ◌<◌, ◌≤◌, ◌/◌, ◌%◌, ◌==◌, ◌↔◌, Some, IsOk, IfOk, IfErr, ◌*◌};
ghost use Rattle.hll_base.specs.declared.error.Reason.TheVariants as reasons;
ghost use Rattle.hll_sketch.specs.Value.{IsLgK};
ghost use Rattle.hll_sketch.specs.Image.{HasHeader, HasSetTable, stage_bits, width_of_bits, preamble_words};
ghost use Rattle.hll_sketch.specs.Header.{stage_of_bits, number_of_stage, header_of};
ghost use Rattle.hll_sketch.specs.Checks.{first_failing, header_checks};
ghost use Rattle.hll_sketch.specs.Fault.{HeaderFault};

use hll_base::bounds::{MAX_LG_K, MIN_LG_K};
use hll_base::error::{Error, Reason};
use hll_base::family::Family;
use hll_base::hll_type::HllType;
use hll_coupons::serialization::{
    COMPACT_FLAG_MASK, CUR_MODE_HLL, CUR_MODE_LIST, CUR_MODE_SET, EMPTY_FLAG_MASK,
    HASH_SET_PREINTS, HLL_PREINTS, LG_LEAST_SET_BUCKETS, LG_SET_BELOW_LG_K, LIST_PREINTS,
    OUT_OF_ORDER_FLAG_MASK, SERIAL_VERSION, TGT_HLL4, TGT_HLL6, TGT_HLL8, extract_cur_mode,
    extract_tgt_hll_type,
};

/// The number of bytes of the header.
pub const HEADER_SIZE: usize = 8;

/// The stage of an image.
#[derive(Clone, Copy, Debug, PartialEq, Eq)]
pub enum Stage {
    /// A list of coupons.
    List,
    /// A set of coupons.
    Set,
    /// Registers.
    Hll,
}

/// What the header of an image says, after its checks.
#[derive(Clone, Copy)]
pub struct Header {
    /// The logarithm of the number of registers, 4 to 21.
    pub lg_k: u8,
    /// The width of registers.
    pub hll_type: HllType,
    /// The stage. It determines what comes after the header.
    pub stage: Stage,
    /// The logarithm of the number of buckets of a table, as the byte says it: it is not checked here.
    pub lg_arr: u8,
    /// Whether the empty flag is set.
    pub empty: bool,
    /// Whether the compact flag is set.
    pub compact: bool,
    /// Whether the out-of-order flag is set.
    pub out_of_order: bool,
    /// The byte whose meaning depends on the stage: the count of a list, or the minimum of 4-bit registers.
    pub state_byte: u8,
}

impl Header {
    /// Reads the header of an image.
    ///
    /// Fails, in this order, with `Truncated` if there are fewer than eight bytes, `Family`, `Version`, `LgK`, `Width`,
    /// `Stage`, or with `Preamble` if the preamble words don't fit the stage.
    pub fn read(bytes: &[u8]) -> Result<Header, Error>
        ensures ok { IfOk result (λ h. HasHeader bytes.now (stage_bits bytes.now) × (stage_bits bytes.now < 3) × (h ≡ header_of bytes.now)) }
        ensures err { IfErr result (λ e. HeaderFault bytes.now e) }
        ensures order { IfErr result (λ e. first_failing (header_checks bytes.now) ≡ Some e) }
    {
        let [
            preamble,
            version,
            family,
            lg_k,
            lg_arr,
            flags,
            state_byte,
            mode,
            ..
        ] = bytes
        else {
            return Err(Error::new(Reason::Truncated));
        };
        Family::HLL.validate_id(*family)?;
        check_version(*version)?;
        check_lg_k(*lg_k)?;
        let hll_type = width_of(*mode)?;
        let stage = stage_of(*mode)?;
        check_preamble(stage, *preamble)?;
        Ok(Header {
            lg_k: *lg_k,
            hll_type,
            stage,
            lg_arr: *lg_arr,
            empty: is_flagged(*flags, EMPTY_FLAG_MASK),
            compact: is_flagged(*flags, COMPACT_FLAG_MASK),
            out_of_order: is_flagged(*flags, OUT_OF_ORDER_FLAG_MASK),
            state_byte: *state_byte,
        })
    }
}

/// Checks the serial version.
fn check_version(version: u8) -> Result<(), Error>
    ensures ok { IsOk result ↔ (version ≡ 1) }
    ensures err { IfErr result (λ e. e ≡ reasons.Version) }
{
    if version == SERIAL_VERSION {
        Ok(())
    } else {
        Err(Error::new(Reason::Version))
    }
}

/// Checks the `lg_k`.
fn check_lg_k(lg_k: u8) -> Result<(), Error>
    ensures ok { IsOk result ↔ IsLgK lg_k }
    ensures err { IfErr result (λ e. e ≡ reasons.LgK) }
{
    if MIN_LG_K <= lg_k && lg_k <= MAX_LG_K {
        Ok(())
    } else {
        Err(Error::new(Reason::LgK))
    }
}

/// Returns the width in the mode byte.
fn width_of(mode: u8) -> Result<HllType, Error>
    ensures ok { IfOk result (λ w. (mode / 4 % 4 < 3) × (w ≡ width_of_bits (mode / 4 % 4))) }
    ensures err { IfErr result (λ e. (mode / 4 % 4 ≡ 3) × (e ≡ reasons.Width)) }
{
    match extract_tgt_hll_type(mode) {
        TGT_HLL4 => Ok(HllType::Hll4),
        TGT_HLL6 => Ok(HllType::Hll6),
        TGT_HLL8 => Ok(HllType::Hll8),
        _ => Err(Error::new(Reason::Width)),
    }
}

/// Returns the stage in the mode byte.
fn stage_of(mode: u8) -> Result<Stage, Error>
    ensures ok { IfOk result (λ s. (mode % 4 < 3) × (s ≡ stage_of_bits (mode % 4))) }
    ensures err { IfErr result (λ e. (mode % 4 ≡ 3) × (e ≡ reasons.Stage)) }
{
    match extract_cur_mode(mode) {
        CUR_MODE_LIST => Ok(Stage::List),
        CUR_MODE_SET => Ok(Stage::Set),
        CUR_MODE_HLL => Ok(Stage::Hll),
        _ => Err(Error::new(Reason::Stage)),
    }
}

/// Checks the number of preamble words, which depends on the stage.
fn check_preamble(stage: Stage, preamble: u8) -> Result<(), Error>
    ensures ok { IsOk result ↔ (preamble ≡ preamble_words (number_of_stage stage)) }
    ensures err { IfErr result (λ e. e ≡ reasons.Preamble) }
{
    let wanted = match stage {
        Stage::List => LIST_PREINTS,
        Stage::Set => HASH_SET_PREINTS,
        Stage::Hll => HLL_PREINTS,
    };
    if preamble == wanted {
        Ok(())
    } else {
        Err(Error::new(Reason::Preamble))
    }
}

/// Returns whether the size of the table of a set fits its `lg_k`.
pub(crate) fn is_set_table(header: Header) -> bool
    requires { 4 ≤ header.lg_k }
    ensures { (b : List ℕ) → header ≡ header_of b → IsTrue result ↔ HasSetTable b }
{
    LG_LEAST_SET_BUCKETS <= header.lg_arr && header.lg_arr <= header.lg_k - LG_SET_BELOW_LG_K
}

/// Returns whether a flag is set. `mask` is a power of two.
fn is_flagged(flags: u8, mask: u8) -> bool
    requires { 1 ≤ mask }
    ensures { result ≡ (flags / mask % 2 == 1) }
{
    flags / mask % 2 == 1
}

/// Returns whether the mode byte of an image says that it has registers. Bytes that are too short for one say nothing.
pub fn says_registers(bytes: &[u8]) -> bool
    ensures { result ≡ stage_bits bytes.now == 2 }
{
    match bytes {
        [_, _, _, _, _, _, _, mode, ..] => mode % 4 == 2,
        _ => false,
    }
}
