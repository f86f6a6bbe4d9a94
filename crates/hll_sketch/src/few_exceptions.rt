// SPDX-License-Identifier: Apache-2.0
//! Images of 4-bit registers with few exceptions: their exceptions are compared each with each, so they need no map and no
//! allocation.
ghost use Rattle.std.specs.Prelude.{◌≡◌, map, IfSome};
ghost use Rattle.std.specs.Int.{w32, from_le_bytes};
ghost use Rattle.hll_sketch.specs.Header.{header_of};
ghost use Rattle.hll_sketch.specs.Image.{HasHeader, width_bits};
ghost use Rattle.hll_sketch.specs.MergedIn.{IsOfNibbles};

use crate::header::{HEADER_SIZE, Header, Stage};
use hll_arrays::few_exceptions::{FewExceptions, read_few_exceptions};
use hll_base::cursor::SketchSlice;
use hll_base::hll_type::HllType;

/// The mode byte of an image of 4-bit registers.
const MODE: u8 = 2;

/// Returns the registers of an image of 4-bit registers that passes all checks and has 1 to 8 exceptions without gaps between
/// them. Returns `None` for other bytes. One pass over the nibbles; allocates nothing.
pub fn few_exceptions(image: &[u8]) -> Option<FewExceptions<'_>>
    ensures { IfSome result (λ r. IsOfNibbles image.now r.lg_k r.minimum r.nibbles.now (map (from_le_bytes w32) r.entries.now)) }
{
    if !may_have_few(image) {
        return None;
    }
    let Ok(header) = Header::read(image) else {
        return None;
    };
    match (header.stage, header.hll_type) {
        (Stage::Hll, HllType::Hll4) => few_exceptions_after(image, header),
        _ => None,
    }
}

/// Returns whether bytes say that they are 4-bit registers with 1 to 255 exceptions. It saves most images the checks.
fn may_have_few(image: &[u8]) -> bool {
    image.len() > 40 && image[7] == MODE && image[36] > 0
}

/// Returns the registers after the header of an image of 4-bit registers, as `few_exceptions` does.
pub(crate) fn few_exceptions_after(image: &[u8], header: Header) -> Option<FewExceptions<'_>>
    requires has { HasHeader image.now 2 }
    requires width { width_bits image.now ≡ 0 }
    requires header { header ≡ header_of image.now }
    ensures { IfSome result (λ r. IsOfNibbles image.now r.lg_k r.minimum r.nibbles.now (map (from_le_bytes w32) r.entries.now)) }
{
    if !header.compact {
        return None;
    }
    read_few_exceptions(
        SketchSlice::new(&image[HEADER_SIZE..]),
        header.state_byte,
        header.lg_k,
    )
}
