// SPDX-License-Identifier: Apache-2.0
//! The bytes of the 8-bit registers of an image, before they are checked, for a caller that checks them while it uses them.
ghost use Rattle.std.specs.Prelude.{◌≡◌, ◌≢◌, IfSome, IfNone, None};
ghost use Rattle.hll_sketch.specs.Checks.{first_fault};
ghost use Rattle.hll_sketch.specs.Header.{header_of};
ghost use Rattle.hll_sketch.specs.Image.{HasHeader, stage_bits, width_bits};
ghost use Rattle.hll_sketch.specs.MergedIn.{HasRegisterBytes};

use hll_arrays::array8::read_register_bytes;
use hll_base::cursor::SketchSlice;
use hll_base::hll_type::HllType;
use hll_sketch::header::{HEADER_SIZE, Header, Stage, says_registers};

/// The bytes of 2^`lg_k` 8-bit registers of an image. Whether each is at most 63 has not been checked; all else has.
#[derive(Clone, Copy, Debug)]
pub struct RegisterBytes<'a> {
    /// The logarithm of the number of registers, 4 to 21.
    pub lg_k: u8,
    /// 2^`lg_k` bytes.
    pub bytes: &'a [u8],
}

/// Returns the bytes of the registers of an image of 8-bit registers that passes all checks but the last: whether each register
/// is at most 63. Returns `None` for other bytes. Reads 40 bytes; allocates nothing.
pub fn register_bytes(image: &[u8]) -> Option<RegisterBytes<'_>>
    ensures some { IfSome result (λ r. HasRegisterBytes image.now r.lg_k r.bytes.now) }
    ensures none { IfNone result (first_fault image.now ≡ None → stage_bits image.now ≡ 2 → width_bits image.now ≡ 2 → ⊥) }
{
    if !says_registers(image) {
        return None;
    }
    let Ok(header) = Header::read(image) else {
        return None;
    };
    match (header.stage, header.hll_type) {
        (Stage::Hll, HllType::Hll8) => register_bytes_after(image, header),
        _ => None,
    }
}

/// Returns the bytes of the registers after the header of an image of 8-bit registers, as `register_bytes` does.
fn register_bytes_after(image: &[u8], header: Header) -> Option<RegisterBytes<'_>>
    requires has { HasHeader image.now 2 }
    requires width { width_bits image.now ≡ 2 }
    requires header { header ≡ header_of image.now }
    ensures some { IfSome result (λ r. HasRegisterBytes image.now r.lg_k r.bytes.now) }
    ensures none { IfNone result (first_fault image.now ≢ None) }
{
    let payload = SketchSlice::new(&image[HEADER_SIZE..]);
    match read_register_bytes(payload, header.lg_k, header.out_of_order) {
        Ok((bytes, _)) => Some(RegisterBytes {
            lg_k: header.lg_k,
            bytes,
        }),
        Err(_) => None,
    }
}
