// SPDX-License-Identifier: Apache-2.0
//! A stream that remembers whether it has failed.
ghost use Rattle.std.specs.Prelude.{◌≡◌, ◌+◌, ◌-◌, ◌^◌, ◌<◌, ◌≤◌, true, false, if◌then◌else◌, is_ok, length, OnOk, OnErr, IfOk, IfErr};
ghost use Rattle.std.specs.Io.KnownBytes.{ReadConsumes, WriteAppends};
ghost use Rattle.hll_text.specs.Watching.{Watching, more_reads};

use crate::fault::Fault;
use std::io::{Read, Write};
use std::marker::Model;

/// A reader or a writer that remembers whether it has failed (docs/PLAN.md, "Streams").
///
/// Contracts see the stream inside, whether it has failed, and the number of reads. No call allocates, apart from what the
/// stream's own call allocates.
#[derive(Drop)]
pub struct Watched<S> {
    inner: S,
    failed: bool,
    reads: u64,
}

impl<S> Model for Watched<S> {
    ghost Value = { Watching S };

    ghost view = { λ w. record { inner = w.inner; failed = w.failed; reads = w.reads } };
}

impl<S> Watched<S> {
    /// Wraps a stream: it has not failed, and no read was made.
    pub fn new(inner: S) -> Self
        ensures { result ≡ record { inner = inner; failed = false; reads = 0 } }
    {
        Watched {
            inner,
            failed: false,
            reads: 0,
        }
    }

    /// Returns the stream inside.
    pub fn into_inner(self) -> S
        ensures { result ≡ self.inner }
    {
        let Watched {
            inner,
            failed: _,
            reads: _,
        } = self;
        inner
    }

    /// Returns whether a read or a write has failed.
    pub fn failed(&self) -> bool
        ensures { result ≡ self.now.failed }
    {
        self.failed
    }
}

impl<R: Read> Watched<R> {
    /// Reads from the stream once, into the first bytes of the buffer, and returns the number of bytes; 0 at the end.
    ///
    /// Fails with `Read` if the stream returns an error, or, without a call of the stream, once 2^64 - 1 reads were made. Then
    /// the stream counts as failed, and the buffer may hold any bytes.
    pub fn read(&mut self, buffer: &mut [u8]) -> Result<usize, Fault>
        ensures bound { IfOk result (λ n. n ≤ length buffer.new) }
        ensures bytes { ReadConsumes (R.remaining self.old.inner) (R.remaining self.new.inner) result buffer.new }
        ensures fault { IfErr result (λ e. e ≡ Fault.Read) }
        ensures failed { self.new.failed ≡ (if is_ok result then self.old.failed else true) }
        ensures reads { OnOk result ((self.old.reads < 2 ^ 64 - 1) × (self.new.reads ≡ self.old.reads + 1)) }
        ensures failed_reads { OnErr result (self.new.reads ≡ more_reads self.old.reads) }
        ensures limit { 2 ^ 64 - 1 ≤ self.old.reads → (self.new.inner ≡ self.old.inner) × (buffer.new ≡ buffer.old) }
    {
        if self.reads == u64::MAX {
            self.failed = true;
            return Err(Fault::Read);
        }
        self.reads += 1;
        match self.inner.read(buffer) {
            Ok(count) => Ok(count),
            Err(_) => {
                self.failed = true;
                Err(Fault::Read)
            }
        }
    }
}

impl<W: Write> Watched<W> {
    /// Writes to the stream once, and returns how many of the bytes it accepted, from the first on.
    ///
    /// Fails with `Write` if the stream returns an error, or accepts no byte although there are some. Then the stream counts as
    /// failed, and it accepted none of these bytes.
    pub fn write(&mut self, bytes: &[u8]) -> Result<usize, Fault>
        ensures bound { IfOk result (λ n. n ≤ length bytes.now) }
        ensures progress { IfOk result (λ n. 0 < length bytes.now → 0 < n) }
        ensures bytes { WriteAppends (W.contents self.old.inner) (W.contents self.new.inner) result bytes.now }
        ensures fault { IfErr result (λ e. e ≡ Fault.Write) }
        ensures failed { self.new.failed ≡ (if is_ok result then self.old.failed else true) }
        ensures reads { self.new.reads ≡ self.old.reads }
    {
        match self.inner.write(bytes) {
            Ok(0) if !bytes.is_empty() => {
                self.failed = true;
                Err(Fault::Write)
            }
            Ok(count) => Ok(count),
            Err(_) => {
                self.failed = true;
                Err(Fault::Write)
            }
        }
    }
}
