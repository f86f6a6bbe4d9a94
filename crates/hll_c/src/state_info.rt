// SPDX-License-Identifier: Apache-2.0
//! What a state says.
ghost use Rattle.std.specs.Prelude.{◌≡◌, ℕ, List, length, IfOk, IfErr};
ghost use Rattle.hll_sketch.specs.Value.{IsLgK};
ghost use Rattle.hll_state.specs.Header.{IsWithin};
ghost use Rattle.hll_c.specs.Calls.{bit};
ghost use Rattle.hll_c.specs.StateInfo as spec;
ghost use Rattle.hll_c.specs.StateInfo.{IsInfoOfState, SaysStateInfo, RefusesStateInfo};

use crate::info::{REGISTERS, SET};
use hll_base::error::{Error, Reason};
use hll_state::header::{HEADER_LEN, Header};
use hll_state::memory::{is_open, open};

/// The size of `HllStateInfo` in bytes.
const STATE_INFO_SIZE: usize = 16;

/// What a state says.
#[repr(C)]
#[derive(Clone, Copy)]
pub struct HllStateInfo {
    /// The number of bytes that the state takes. A copy of these bytes is a copy of the state.
    pub size: u64,
    /// The logarithm of the number of registers, 4 to 21. If it is open: the greatest of the empty sketches that were merged, or 4.
    pub lg_k: u8,
    /// The width of the images that were merged: 4, 6 or 8 bits. 8 if there are none, or if their widths differ.
    pub width: u8,
    /// 1 for coupons, which may be repeated, 2 for registers.
    pub stage: u8,
    /// 1 if there is no coupon and no register, else 0.
    pub is_empty: u8,
    /// 1 if the `lg_k` is open, else 0.
    pub is_open: u8,
}

/// Returns what a state says. Fails with `Argument` if the elements are not a state, or if `size` is not the size of
/// `HllStateInfo`.
pub(crate) fn info_of(state: &[[u8; 4]], size: usize) -> Result<HllStateInfo, Error>
    ensures ok { IfOk result (SaysStateInfo state.now) }
    ensures err { IfErr result (RefusesStateInfo (size ≡ 16) state.now) }
{
    if size != STATE_INFO_SIZE {
        return Err(Error::new(Reason::Argument));
    }
    let Some(header) = open(state) else {
        return Err(Error::new(Reason::Argument));
    };
    Ok(info_of_header(header, is_open(state)))
}

/// Returns what a state says, by its header and whether its `lg_k` is open.
fn info_of_header(header: Header, is_lg_k_open: bool) -> HllStateInfo
    requires { IsLgK header.lg_k }
    ensures says { (body : List (List ℕ)) → IsWithin header (length body) → IsInfoOfState header body result }
    ensures lg_k_open { result.is_open ≡ bit is_lg_k_open }
{
    HllStateInfo {
        size: bytes_of(header) as u64,
        lg_k: header.lg_k,
        width: width_of_widths(header.widths),
        stage: if header.has_registers() {
            REGISTERS
        } else {
            SET
        },
        is_empty: u8::from(header.is_empty()),
        is_open: u8::from(is_lg_k_open),
    }
}

/// Returns the number of bytes that a state takes.
fn bytes_of(header: Header) -> usize
    requires { IsLgK header.lg_k }
    ensures { result ≡ spec.bytes_of header }
{
    4 * (HEADER_LEN + header.needed())
}

/// Returns the width that stands for the widths of merged images: their own, if it is one, else 8.
fn width_of_widths(widths: u8) -> u8
    ensures { result ≡ spec.width_of_widths widths }
{
    match widths {
        1 => 4,
        2 => 6,
        _ => 8,
    }
}
