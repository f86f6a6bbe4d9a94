// SPDX-License-Identifier: Apache-2.0
//! Merges images and states into a state, checks first whether there is room, and handles a bound of `lg_k`.
ghost use Rattle.std.specs.Prelude.{◌≡◌, ℕ, ◌+◌, ◌-◌, ◌^◌, ◌<◌, ◌≤◌, ◌↔◌, IsTrue, false, List, length, min};
ghost use Rattle.hll_sketch.specs.BorrowedImage.{sketch_of_borrowed};
ghost use Rattle.hll_sketch.specs.Value.{is_empty, IsLgK};
ghost use Rattle.hll_state.specs.Counter.{sketch_in};
ghost use Rattle.hll_state.specs.Header as spec;
ghost use Rattle.hll_state.specs.Header.{IsWithin};
ghost use Rattle.hll_state.specs.Joined as joined;
ghost use Rattle.hll_state.specs.Joined.{IsJoined, JoinsEmpty, MergesInto, Restarts};
ghost use Rattle.hll_state.specs.Merged as merged;
ghost use Rattle.hll_state.specs.Merged.{HasRoomToMerge, is_unused};

use crate::header::{HEADER_LEN, Header, Held};
use hll_base::hll_type::HllType;
use hll_registers::registers::two_to;
use hll_sketch::borrowed_image::BorrowedImage;
use std::alloc::Allocator;

/// The result of `Header::join`.
#[derive(Clone, Copy, Debug, PartialEq, Eq)]
pub enum Joined {
    /// The sketch of the state is the union of both.
    Done,
    /// There is not enough room. This number of elements, header included, is enough.
    NoRoom(usize),
    /// The other sketch has another `lg_k`, and no bound was given.
    OtherLgK,
}

impl Header {
    /// Merges a sketch, as a union does whose bound is the `lg_k` of the state, and records the widths that are given for it.
    ///
    /// If no bound was given, a sketch that is not empty and has another `lg_k` is not merged into a state that is not empty:
    /// the result is `OtherLgK`. An empty state takes the sketch's `lg_k` first. An empty sketch changes nothing in a state
    /// that is not empty; without a bound, an empty state takes its `lg_k` if that is greater. If there is not enough room, the
    /// sketch of the state is unchanged.
    #[inline(always)]
    pub fn join<A: Allocator>(
        &mut self,
        body: &mut [[u8; 4]],
        bounded: bool,
        widths: u8,
        image: &BorrowedImage<'_, A>,
    ) -> Joined
        requires within { IsWithin self.old (length body.old) }
        requires widths { widths < 8 }
        ensures within { IsWithin self.new (length body.old) }
        ensures joined { IsJoined bounded widths (sketch_of_borrowed image.now) self.old body.old self.new body.new result }
    {
        let is_empty = image.is_empty();
        let widths = self.widths_after(widths, is_empty);
        if is_empty {
            self.join_empty(bounded, widths, image.lg_k());
            return Joined::Done;
        }
        if bounded || self.lg_k == image.lg_k() {
            return self.merge_with_room(body, widths, image);
        }
        if !self.is_empty() {
            return Joined::OtherLgK;
        }
        self.restart(body, widths, image)
    }

    /// Returns the widths of a state after another sketch is merged into it. The widths of empty sketches count only if all
    /// sketches are empty.
    fn widths_after(&self, widths: u8, other_is_empty: bool) -> u8
        requires ours { self.now.widths < 8 }
        requires widths { widths < 8 }
        ensures is { result ≡ joined.widths_after self.now.widths widths (is_unused self.now.held) other_is_empty }
        ensures within { result < 8 }
    {
        match (self.is_empty(), other_is_empty) {
            (true, false) => widths,
            (false, true) => self.widths,
            _ => self.widths | widths,
        }
    }

    /// Merges an empty sketch: an empty state without a bound takes its `lg_k` if that is greater.
    fn join_empty(&mut self, bounded: bool, widths: u8, lg_k: u8)
        requires widths { widths < 8 }
        requires lg_k { IsLgK lg_k }
        ensures { (body : List (List ℕ)) → JoinsEmpty bounded widths lg_k self.old self.new body }
    {
        if !bounded && self.lg_k < lg_k && self.is_empty() {
            *self = Header::new(lg_k);
        }
        self.widths = widths;
    }

    /// Merges a sketch that is not empty into an empty state, which takes its `lg_k` first.
    fn restart<A: Allocator>(
        &mut self,
        body: &mut [[u8; 4]],
        widths: u8,
        image: &BorrowedImage<'_, A>,
    ) -> Joined
        requires within { IsWithin self.old (length body.old) }
        requires widths { widths < 8 }
        requires some { is_empty (sketch_of_borrowed image.now) ≡ false }
        ensures within { IsWithin self.new (length body.old) }
        ensures restarted { Restarts widths (sketch_of_borrowed image.now) self.old body.old self.new body.new result }
    {
        let mut started = Header {
            widths,
            ..Header::new(image.lg_k())
        };
        let len = started.len_to_merge(image);
        if !started.merge_image(body, image) {
            return Joined::NoRoom(len);
        }
        *self = started;
        Joined::Done
    }

    /// Merges a sketch that is not empty and sets the widths, or returns how many elements are enough.
    fn merge_with_room<A: Allocator>(
        &mut self,
        body: &mut [[u8; 4]],
        widths: u8,
        image: &BorrowedImage<'_, A>,
    ) -> Joined
        requires within { IsWithin self.old (length body.old) }
        requires widths { widths < 8 }
        requires some { is_empty (sketch_of_borrowed image.now) ≡ false }
        ensures within { IsWithin self.new (length body.old) }
        ensures merged { MergesInto widths (sketch_of_borrowed image.now) self.old body.old self.new body.new result }
    {
        if !self.merge_image(body, image) {
            return Joined::NoRoom(self.len_to_merge(image));
        }
        self.widths = widths;
        Joined::Done
    }

    /// Returns whether `room` elements after the header are enough to merge a sketch.
    pub fn has_room_to_merge<A: Allocator>(&self, room: usize, image: &BorrowedImage<'_, A>) -> bool
        requires within { IsWithin self.now room }
        ensures { IsTrue result ↔ HasRoomToMerge self.now (sketch_of_borrowed image.now) room }
    {
        if image.is_empty() {
            return true;
        }
        match image.num_coupons() {
            Some(count) => self.has_room(count, room),
            None => self.len_for_registers(image.lg_k()) - HEADER_LEN <= room,
        }
    }

    /// Returns a number of elements, header included, in which there is room to merge a sketch.
    pub fn len_to_merge<A: Allocator>(&self, image: &BorrowedImage<'_, A>) -> usize
        requires { (room : ℕ) × IsWithin self.now room }
        ensures asked { result ≡ merged.len_asked_for self.now (sketch_of_borrowed image.now) }
        ensures room { HasRoomToMerge self.now (sketch_of_borrowed image.now) (result - 10) }
        ensures least { 10 ≤ result }
        ensures most { result ≤ 10 + spec.most_elements self.now.lg_k }
    {
        match image.num_coupons() {
            Some(count) => self.len_for(count),
            None => self.len_for_registers(image.lg_k()),
        }
    }

    /// Returns the number of elements, header included, that is enough for registers of the smaller `lg_k` in addition to the
    /// elements in use.
    fn len_for_registers(&self, lg_k: u8) -> usize
        requires within { (room : ℕ) × IsWithin self.now room }
        requires lg_k { IsLgK lg_k }
        ensures { result ≡ 10 + (2 ^ (min self.now.lg_k lg_k - 2) + merged.used_in self.now.held) }
    {
        let used = match self.held {
            Held::Coupons(coupons) => coupons.run.used,
            Held::Registers(_) => 0,
        };
        HEADER_LEN + two_to(self.lg_k.min(lg_k) - 2) + used
    }
}

/// Returns the number that stands for a width among the widths that a state has seen: 1 for 4 bits, 2 for 6 bits, 4 for 8 bits.
pub fn bit_of(hll_type: HllType) -> u8
    ensures is { result ≡ merged.bit_of hll_type }
    ensures within { result < 8 }
{
    match hll_type {
        HllType::Hll4 => 1,
        HllType::Hll6 => 2,
        HllType::Hll8 => 4,
    }
}
