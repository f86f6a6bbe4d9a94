// SPDX-License-Identifier: Apache-2.0
//! A cursor over the bytes of an image.
ghost use Rattle.std.specs.Prelude.{◌≡◌, ℕ, ◌≤◌, ◌<◌, ◌++◌, ◌∷◌, [], List, length, drop, IfOk, OnOk, IfErr};
ghost use Rattle.std.specs.Int.{from_le_bytes, w32, w64};
ghost use Rattle.hll_base.specs.declared.error.Reason.TheVariants.{Truncated};

use crate::error::{Error, Reason};
use std::marker::Model;

/// A cursor over the bytes of an image. Contracts see the list of the bytes not yet read.
///
/// If fewer bytes are left than a read needs, it returns `Truncated` and does not advance. No call allocates.
#[derive(Debug, Drop)]
pub struct SketchSlice<'a> {
    bytes: &'a [u8],
}

impl<'a> Model for SketchSlice<'a> {
    ghost Value = { List ℕ };

    ghost view = { λ s. s.bytes.now };
}

impl<'a> SketchSlice<'a> {
    /// Returns a cursor at the first of these bytes.
    pub fn new(bytes: &'a [u8]) -> Self
        ensures { result ≡ bytes.now }
    {
        SketchSlice { bytes }
    }

    /// Returns the bytes not yet read.
    pub fn remaining(&self) -> &'a [u8]
        ensures { result.now ≡ self.now }
    {
        self.bytes
    }

    /// Reads a byte.
    pub fn read_u8(&mut self) -> Result<u8, Error>
        ensures ok { IfOk result (λ number. self.old ≡ number ∷ self.new) }
        ensures err { IfErr result (λ e. (e ≡ Truncated) × (self.old ≡ []) × (self.new ≡ self.old)) }
    {
        match self.bytes.split_first() {
            Some((first, rest)) => {
                self.bytes = rest;
                Ok(*first)
            }
            None => Err(Error::new(Reason::Truncated)),
        }
    }

    /// Reads a 32-bit number in little-endian order.
    pub fn read_u32_le(&mut self) -> Result<u32, Error>
        ensures ok { IfOk result (λ number. (4 ≤ length self.old) × (number ≡ from_le_bytes w32 self.old) × (self.new ≡ drop 4 self.old)) }
        ensures err { IfErr result (λ e. (e ≡ Truncated) × (length self.old < 4) × (self.new ≡ self.old)) }
    {
        match self.bytes.split_first_chunk::<4>() {
            Some((first, rest)) => {
                self.bytes = rest;
                Ok(u32::from_le_bytes(*first))
            }
            None => Err(Error::new(Reason::Truncated)),
        }
    }

    /// Reads a 64-bit number in little-endian order.
    pub fn read_u64_le(&mut self) -> Result<u64, Error>
        ensures ok { IfOk result (λ number. (8 ≤ length self.old) × (number ≡ from_le_bytes w64 self.old) × (self.new ≡ drop 8 self.old)) }
        ensures err { IfErr result (λ e. (e ≡ Truncated) × (length self.old < 8) × (self.new ≡ self.old)) }
    {
        match self.bytes.split_first_chunk::<8>() {
            Some((first, rest)) => {
                self.bytes = rest;
                Ok(u64::from_le_bytes(*first))
            }
            None => Err(Error::new(Reason::Truncated)),
        }
    }

    /// Fills `buffer` with the next bytes. On `Truncated` the buffer is unchanged.
    pub fn read_exact(&mut self, buffer: &mut [u8]) -> Result<(), Error>
        ensures ok { OnOk result (self.old ≡ buffer.new ++ self.new) }
        ensures err { IfErr result (λ e. (e ≡ Truncated) × (length self.old < length buffer.old) × (self.new ≡ self.old) × (buffer.new ≡ buffer.old)) }
    {
        match self.bytes.split_at_checked(buffer.len()) {
            Some((first, rest)) => {
                buffer.copy_from_slice(first);
                self.bytes = rest;
                Ok(())
            }
            None => Err(Error::new(Reason::Truncated)),
        }
    }
}
