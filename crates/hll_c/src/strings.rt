// SPDX-License-Identifier: Apache-2.0
//! Byte strings that are passed to one call: images or values.
ghost use Rattle.std.specs.Prelude.{◌≡◌, ◌↔◌, ◌+◌, ◌<◌, ◌≤◌, ℕ, List, [], length, map, get_or, IsTrue};
ghost use Rattle.hll_c.specs.Batches.{AreEnds, AreOfLength, AreOffsets, strings, strings_of_length, strings_between, start_at};

/// The greatest signed 32-bit number.
const MOST: usize = 0x7fff_ffff;

/// Byte strings that are numbered from 0 on.
pub(crate) trait Strings {
    /// What contracts see: the bytes of each string.
    ghost strings: { Self → List (List ℕ) };

    /// Whether each string can be asked for.
    ghost are: { Self → Type 0 };

    /// Returns whether each string can be asked for.
    fn are_delimited(&self) -> bool
        ensures { IsTrue result ↔ are self.now };

    /// Returns the number of strings.
    fn count(&self) -> usize
        requires { are self.now }
        ensures { result ≡ length (strings self.now) };

    /// Returns the bytes of the string with this number.
    fn string(&self, number: usize) -> &[u8]
        requires are { are self.now }
        requires within { number < length (strings self.now) }
        ensures { result.now ≡ get_or (strings self.now) number [] };
}

/// Strings that need not be contiguous.
#[derive(Clone, Copy)]
pub(crate) struct Parts<'a> {
    /// The bytes of each string.
    pub parts: &'a [&'a [u8]],
}

impl<'a> Strings for Parts<'a> {
    ghost strings = { λ p. map (λ part. part.now) p.parts.now };

    ghost are = { λ p. Unit {0} };

    fn are_delimited(&self) -> bool {
        true
    }

    fn count(&self) -> usize {
        self.parts.len()
    }

    fn string(&self, number: usize) -> &[u8] {
        self.parts[number]
    }
}

/// Concatenated strings that are delimited by their ends.
#[derive(Clone, Copy)]
pub(crate) struct Ended<'a> {
    /// The bytes of all strings.
    pub bytes: &'a [u8],
    /// Where each string ends.
    pub ends: &'a [usize],
}

impl<'a> Ended<'a> {
    /// Returns where the string with this number begins, and where it ends.
    #[inline(always)]
    fn bounds_of(&self, number: usize) -> (usize, usize)
        requires are { AreEnds (length self.now.bytes.now) self.now.ends.now }
        requires within { number < length self.now.ends.now }
        ensures start { result.0 ≡ start_at 0 self.now.ends.now number }
        ensures end { result.1 ≡ get_or self.now.ends.now number 0 }
        ensures order { (result.0 ≤ result.1) × (result.1 ≤ length self.now.bytes.now) }
    {
        let start = if number == 0 {
            0
        } else {
            self.ends[number - 1]
        };
        (start, self.ends[number])
    }
}

impl<'a> Strings for Ended<'a> {
    ghost strings = { λ s. strings s.bytes.now s.ends.now };

    ghost are = { λ s. AreEnds (length s.bytes.now) s.ends.now };

    fn are_delimited(&self) -> bool {
        are_ends(self.ends, self.bytes.len())
    }

    fn count(&self) -> usize {
        self.ends.len()
    }

    #[inline(always)]
    fn string(&self, number: usize) -> &[u8] {
        let (start, end) = self.bounds_of(number);
        &self.bytes[start..end]
    }
}

/// Returns whether ends ascend from 0 on, and none is above `size`. Two ends may be equal: the string between them is empty.
fn are_ends(ends: &[usize], size: usize) -> bool
    ensures { IsTrue result ↔ AreEnds size ends.now }
{
    let mut start = 0;
    for end in ends {
        if *end < start {
            return false;
        }
        start = *end;
    }
    start <= size
}

/// Concatenated strings of one length: each begins at a multiple of that length.
#[derive(Clone, Copy)]
pub(crate) struct OfLength<'a> {
    /// The bytes of all strings.
    pub bytes: &'a [u8],
    /// The bytes of one string.
    pub len: usize,
}

impl<'a> Strings for OfLength<'a> {
    ghost strings = { λ s. strings_of_length s.len s.bytes.now };

    ghost are = { λ s. AreOfLength (length s.bytes.now) s.len };

    fn are_delimited(&self) -> bool {
        self.len != 0 && self.bytes.len() % self.len == 0
    }

    fn count(&self) -> usize {
        self.bytes.len() / self.len
    }

    #[inline(always)]
    fn string(&self, number: usize) -> &[u8] {
        let start = number * self.len;
        &self.bytes[start..start + self.len]
    }
}

/// Strings between offsets, as Apache Arrow has them: signed 32-bit offsets, one more than there are strings.
///
/// The offsets are passed as unsigned numbers with the same bits, so a negative offset is above `MOST`.
#[derive(Clone, Copy)]
pub(crate) struct Between<'a> {
    /// The bytes of all strings.
    pub bytes: &'a [u8],
    /// Where each string begins, and where the last one ends.
    pub offsets: &'a [u32],
}

impl<'a> Between<'a> {
    /// Returns where the string with this number begins, and where it ends.
    #[inline(always)]
    fn bounds_of(&self, number: usize) -> (usize, usize)
        requires are { AreOffsets (length self.now.bytes.now) self.now.offsets.now }
        requires within { number + 1 < length self.now.offsets.now }
        ensures start { result.0 ≡ get_or self.now.offsets.now number 0 }
        ensures end { result.1 ≡ get_or self.now.offsets.now (number + 1) 0 }
        ensures order { (result.0 ≤ result.1) × (result.1 ≤ length self.now.bytes.now) }
    {
        (
            self.offsets[number] as usize,
            self.offsets[number + 1] as usize,
        )
    }
}

impl<'a> Strings for Between<'a> {
    ghost strings = { λ s. strings_between s.offsets.now s.bytes.now };

    ghost are = { λ s. AreOffsets (length s.bytes.now) s.offsets.now };

    fn are_delimited(&self) -> bool {
        are_offsets(self.offsets, self.bytes.len())
    }

    fn count(&self) -> usize {
        self.offsets.len() - 1
    }

    #[inline(always)]
    fn string(&self, number: usize) -> &[u8] {
        let (start, end) = self.bounds_of(number);
        &self.bytes[start..end]
    }
}

/// Returns whether there is an offset, offsets ascend, and none is negative or above `size`. Two offsets may be equal: the
/// string between them is empty.
fn are_offsets(offsets: &[u32], size: usize) -> bool
    ensures { IsTrue result ↔ AreOffsets size offsets.now }
{
    if offsets.is_empty() {
        return false;
    }
    let most = size.min(MOST);
    let mut before = 0;
    for offset in offsets {
        let offset = *offset as usize;
        if offset < before {
            return false;
        }
        before = offset;
    }
    before <= most
}
