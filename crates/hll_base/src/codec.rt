// SPDX-License-Identifier: Apache-2.0
//! A growing buffer that image fields are appended to.
ghost use Rattle.std.specs.Prelude.{◌≡◌, ◌≢◌, ℕ, ◌++◌, ◌∷◌, [], List, IfOk, OnOk, OnErr, IfErr};
ghost use Rattle.std.specs.Int.{to_le_bytes, w32, w64};
ghost use Rattle.hll_base.specs.declared.error.Reason.TheVariants.{Memory};

use crate::error::Error;
use std::alloc::{Allocator, Global};
use std::marker::Model;

/// A growing buffer that image fields are appended to. Contracts see the list of the bytes written so far.
///
/// If an allocation fails, a write returns `Memory` and leaves the buffer unchanged.
#[derive(Debug, Drop)]
pub struct SketchBytes<A: Allocator = Global> {
    bytes: Vec<u8, A>,
}

impl<A: Allocator> Model for SketchBytes<A> {
    ghost Value = { List ℕ };

    ghost view = { λ b. b.bytes.items };
}

impl<A: Allocator> SketchBytes<A> {
    /// Returns an empty buffer with room for `capacity` bytes, allocated in one request. A capacity of 0 allocates
    /// nothing.
    ///
    /// Fails with `Memory` if the allocation fails.
    pub fn with_capacity(alloc: A, capacity: usize) -> Result<SketchBytes<A>, Error>
        ensures ok { IfOk result (λ bytes. bytes ≡ []) }
        ensures needed { OnErr result (capacity ≢ 0) }
        ensures err { IfErr result (λ e. e ≡ Memory) }
    {
        Ok(SketchBytes {
            bytes: Vec::with_capacity(alloc, capacity)?,
        })
    }

    /// Appends a byte.
    pub fn write_u8(&mut self, number: u8) -> Result<(), Error>
        ensures ok { OnOk result (self.new ≡ self.old ++ number ∷ []) }
        ensures err { IfErr result (λ e. e ≡ Memory) }
        ensures unchanged { OnErr result (self.new ≡ self.old) }
    {
        self.bytes.push(number)?;
        Ok(())
    }

    /// Appends a 32-bit number in little-endian order.
    pub fn write_u32_le(&mut self, number: u32) -> Result<(), Error>
        ensures ok { OnOk result (self.new ≡ self.old ++ to_le_bytes w32 number) }
        ensures err { IfErr result (λ e. e ≡ Memory) }
        ensures unchanged { OnErr result (self.new ≡ self.old) }
    {
        self.write(&u32::to_le_bytes(number))
    }

    /// Appends a 64-bit number in little-endian order.
    pub fn write_u64_le(&mut self, number: u64) -> Result<(), Error>
        ensures ok { OnOk result (self.new ≡ self.old ++ to_le_bytes w64 number) }
        ensures err { IfErr result (λ e. e ≡ Memory) }
        ensures unchanged { OnErr result (self.new ≡ self.old) }
    {
        self.write(&u64::to_le_bytes(number))
    }

    /// Appends a slice of bytes.
    pub fn write(&mut self, bytes: &[u8]) -> Result<(), Error>
        ensures ok { OnOk result (self.new ≡ self.old ++ bytes.now) }
        ensures err { IfErr result (λ e. e ≡ Memory) }
        ensures unchanged { OnErr result (self.new ≡ self.old) }
    {
        self.bytes.extend_from_slice(bytes)?;
        Ok(())
    }

    /// Returns the bytes written so far.
    pub fn into_bytes(self) -> Vec<u8, A>
        ensures { result.items ≡ self }
    {
        self.bytes
    }
}
