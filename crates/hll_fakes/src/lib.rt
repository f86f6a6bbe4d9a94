// SPDX-License-Identifier: Apache-2.0
//! Streams for tests: a reader and a writer that fail at a given call.
#![tactic(auto)]

use std::io;
use std::io::{Read, Write};

/// A reader that returns a byte at a time, then nothing. It fails after `calls` successful reads.
#[derive(Drop)]
pub struct Failing<'a> {
    /// The bytes that are left to return.
    pub text: &'a [u8],
    /// The number of reads that will still succeed.
    pub calls: u32,
}

impl<'a> Read for Failing<'a> {
    fn read(&mut self, buf: &mut [u8]) -> io::Result<usize> {
        if self.calls == 0 {
            return Err(io::Error::from(io::ErrorKind::Other));
        }
        self.calls -= 1;
        match (self.text.split_first(), buf.first_mut()) {
            (Some((first, others)), Some(place)) => {
                *place = *first;
                self.text = others;
                Ok(1)
            }
            _ => Ok(0),
        }
    }
}

/// A writer that accepts a byte at a time, up to `room` bytes.
#[derive(Drop)]
pub struct Narrow<'a> {
    /// The bytes that were written.
    pub taken: &'a mut Vec<u8>,
    /// The number of bytes that it accepts in all.
    pub room: usize,
    /// Whether a write after that fails. Otherwise it accepts nothing.
    pub fails: bool,
}

impl<'a> Write for Narrow<'a> {
    fn write(&mut self, buf: &[u8]) -> io::Result<usize> {
        match buf.first() {
            Some(first) if self.taken.len() < self.room => {
                self.taken.push(*first)?;
                Ok(1)
            }
            _ if self.fails => Err(io::Error::from(io::ErrorKind::Other)),
            _ => Ok(0),
        }
    }

    fn flush(&mut self) -> io::Result<()> {
        Ok(())
    }
}
