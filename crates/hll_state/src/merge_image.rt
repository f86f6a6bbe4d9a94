// SPDX-License-Identifier: Apache-2.0
//! Merges sketches of images into a state.
ghost use Rattle.std.specs.Prelude.{◌≡◌, ℕ, ◌≤◌, true, false, length};
ghost use Rattle.hll_sketch.specs.BorrowedImage.{sketch_of_borrowed};
ghost use Rattle.hll_sketch.specs.Layout.{sketch_of};
ghost use Rattle.hll_sketch.specs.Merging as merging;
ghost use Rattle.hll_sketch.specs.Value.{is_empty};
ghost use Rattle.hll_state.specs.Counter.{sketch_in};
ghost use Rattle.hll_state.specs.Header.{IsWithin, HasRoom, HasShortTail};
ghost use Rattle.hll_state.specs.Merged.{HasSomeRegister, HasRoomForContent, HasRoomToMerge};

use crate::header::Header;
use hll_sketch::borrowed_image::BorrowedImage;
use hll_sketch::mode::Mode;
use hll_sketch::sketch::HllSketch;
use std::alloc::Allocator;

impl Header {
    /// Merges the sketch of an image that is not empty, as a union does whose bound is the `lg_k` of the state. Returns whether
    /// there was room. If there was none, the sketch of the state is unchanged. Records no width.
    pub fn merge_image<A: Allocator>(
        &mut self,
        body: &mut [[u8; 4]],
        image: &BorrowedImage<'_, A>,
    ) -> bool
        requires within { IsWithin self.old (length body.old) }
        requires some { is_empty (sketch_of_borrowed image.now) ≡ false }
        ensures within { IsWithin self.new (length body.old) }
        ensures merged { HasSomeRegister (sketch_in self.old body.old) → result ≡ true → sketch_in self.new body.new ≡ merging.merge self.old.lg_k (sketch_in self.old body.old) (sketch_of_borrowed image.now) }
        ensures same { result ≡ false → sketch_in self.new body.new ≡ sketch_in self.old body.old }
        ensures widths { self.new.widths ≡ self.old.widths }
        ensures none { result ≡ false → HasRoomToMerge self.old (sketch_of_borrowed image.now) (length body.old) → ⊥ }
        ensures takes { result ≡ true → (room : ℕ) → HasRoomToMerge self.old (sketch_of_borrowed image.now) room → HasRoom self.new 0 room }
        ensures keeps { result ≡ false → (n room : ℕ) → HasRoom self.old n room → HasRoom self.new n room }
        ensures short { result ≡ false → HasShortTail self.new.held }
    {
        match image {
            BorrowedImage::Coupons(coupons) => {
                self.merge_coupons(body, coupons.lg_k, coupons.lg_size, coupons.elements)
            }
            BorrowedImage::Table(sketch) => self.merge_sketch(body, sketch),
            BorrowedImage::Nibbles(registers) => self.merge_registers(body, registers),
            BorrowedImage::Groups(registers) => self.merge_registers(body, registers),
            BorrowedImage::Bytes(registers) => self.merge_bytes(body, registers),
        }
    }

    /// Merges a sketch that is not empty, as `merge_image` does.
    fn merge_sketch<A: Allocator>(&mut self, body: &mut [[u8; 4]], sketch: &HllSketch<A>) -> bool
        requires within { IsWithin self.old (length body.old) }
        requires some { is_empty (sketch_of sketch.now) ≡ false }
        ensures within { IsWithin self.new (length body.old) }
        ensures merged { let x = sketch_of sketch.now in
            HasSomeRegister (sketch_in self.old body.old) → result ≡ true → sketch_in self.new body.new ≡ merging.merge_content self.old.lg_k (sketch_in self.old body.old) x x.content }
        ensures same { result ≡ false → sketch_in self.new body.new ≡ sketch_in self.old body.old }
        ensures widths { self.new.widths ≡ self.old.widths }
        ensures none { let x = sketch_of sketch.now in
            result ≡ false → HasRoomForContent self.old x.lg_k x.content (length body.old) → ⊥ }
        ensures takes { let x = sketch_of sketch.now in
            result ≡ true → (room : ℕ) → HasRoomForContent self.old x.lg_k x.content room → HasRoom self.new 0 room }
        ensures keeps { result ≡ false → (n room : ℕ) → HasRoom self.old n room → HasRoom self.new n room }
        ensures short { result ≡ false → HasShortTail self.new.held }
    {
        sketch.layout_is_legal();
        let lg_k = sketch.lg_config_k();
        match sketch.mode() {
            Mode::List { list, .. } => {
                let table = list.container();
                table.table_is_legal();
                self.merge_table(body, lg_k, table)
            }
            Mode::Set { set, .. } => {
                let table = set.container();
                table.table_is_legal();
                self.merge_table(body, lg_k, table)
            }
            Mode::Array4(array) => self.merge_registers(body, array),
            Mode::Array6(array) => self.merge_registers(body, array),
            Mode::Array8(array) => self.merge_registers(body, array),
        }
    }
}
