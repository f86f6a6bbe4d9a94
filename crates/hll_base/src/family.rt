// SPDX-License-Identifier: Apache-2.0
//! The family byte of an image (docs/FORMAT.md, "The image").
ghost use Rattle.std.specs.Prelude.{◌≡◌, ◌↔◌, IsOk, IfErr};
ghost use Rattle.hll_base.specs.declared.error.Reason.TheVariants as reasons;

use crate::error::{Error, Reason};

/// A family of sketches, identified by a number in its images.
#[derive(Clone, Copy, Debug, PartialEq, Eq)]
pub struct Family {
    /// The family's number, the third byte of an image.
    pub id: u8,
}

impl Family {
    /// HyperLogLog sketches.
    pub const HLL: Family = Family { id: 7 };

    /// Checks that the number in an image is the number of this family.
    ///
    /// Fails with `Family` if it is another number.
    pub fn validate_id(self, id: u8) -> Result<(), Error>
        ensures ok { IsOk result ↔ (id ≡ self.id) }
        ensures err { IfErr result (λ e. e ≡ reasons.Family) }
    {
        if id == self.id {
            Ok(())
        } else {
            Err(Error::new(Reason::Family))
        }
    }
}

const _: () = prove!(Family::HLL.id == 7);
