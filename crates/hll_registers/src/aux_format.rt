// SPDX-License-Identifier: Apache-2.0
//! How an image stores the exceptions of 4-bit registers (docs/FORMAT.md, "HLL").
ghost use Rattle.std.specs.Prelude.{◌≡◌, if◌then◌else◌};
ghost use Rattle.hll_registers.specs.declared.aux_format.AuxFormat.TheVariants.{Compact, Updatable};

/// How an image stores the exceptions of 4-bit registers.
#[derive(Clone, Copy)]
pub enum AuxFormat {
    /// The exceptions, without gaps.
    Compact,
    /// The buckets of a table, some of which are empty.
    Updatable {
        /// The table has 2^`lg_arr` buckets.
        lg_arr: u8,
    },
}

impl AuxFormat {
    /// Returns the format that a header gives by its compact flag and its table size.
    pub fn from_header(compact: bool, lg_arr: u8) -> AuxFormat
        ensures { result ≡ (if compact then Compact else Updatable lg_arr) }
    {
        if compact {
            AuxFormat::Compact
        } else {
            AuxFormat::Updatable { lg_arr }
        }
    }
}
