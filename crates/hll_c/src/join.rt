// SPDX-License-Identifier: Apache-2.0
//! Merges images and states into states of counters.
ghost use Rattle.std.specs.Prelude.{◌≡◌, ◌*◌, ◌≤◌, ◌<◌, ◌^◌, ◌↔◌, ◌==◌, ◌&&◌, not, IsTrue, IfSome, IfNone, length, drop, true};
ghost use Rattle.hll_sketch.specs.BorrowedImage.{sketch_of_borrowed};
ghost use Rattle.hll_sketch.specs.Value.{is_empty, IsLgK};
ghost use Rattle.hll_state.specs.CouponRun.{raws};
ghost use Rattle.hll_state.specs.Header.{header_of};
ghost use Rattle.hll_state.specs.Memory.{HasHeader, IsOnlyRead};
ghost use Rattle.hll_state.specs.Memory.{is_open as is_lg_k_open};
ghost use Rattle.hll_c.specs.States.{IsBoundFor, least_bound, IsStateUnder, is_decided, JoinsSketch, JoinsUnder, JoinsImage, JoinsState};

use crate::answer::{BUFFER, OK};
use crate::state::{make, too_small};
use hll_base::bounds::{MAX_LG_K, MIN_LG_K};
use hll_base::error::Reason;
use hll_registers::registers::Use;
use hll_sketch::borrowed_image::{BorrowedImage, compact_image};
use hll_sketch::coupon_room::CouponRoom;
use hll_state::header::{HEADER_LEN, Header};
use hll_state::join::{Joined, bit_of};
use hll_state::memory::{close, close_if_changed, is_open, open, resolve, set_open};
use std::alloc::Global;

/// The code of a call if the sketch has another `lg_k` than the state, and no bound was given.
const OTHER_LG_K: u8 = 16;

/// Merges the sketch of an image into a state.
pub(crate) fn join_image(
    alloc: Global,
    lg_max_k: u32,
    state: &mut [[u8; 4]],
    size: &mut usize,
    image: &[u8],
) -> u8
    ensures { JoinsImage lg_max_k image.now state.old state.new size.old size.new result }
{
    let Some(header) = open_under(state, lg_max_k) else {
        return Reason::Argument.number();
    };
    if let Some(coupons) = compact_image(image) {
        let widths = bit_of(coupons.hll_type);
        let image = BorrowedImage::Coupons(coupons);
        return join(header, lg_max_k, state, size, widths, &image);
    }
    // (after the return: room is cleared)
    let mut room = CouponRoom::new();
    match BorrowedImage::read(alloc, image, &mut room, Use::Join) {
        Ok(image) => {
            let widths = bit_of(image.hll_type());
            join(header, lg_max_k, state, size, widths, &image)
        }
        Err(e) => e.reason().number(),
    }
}

/// Merges the sketch of another state into a state. The sketch of the other state is unchanged.
pub(crate) fn join_state(
    lg_max_k: u32,
    state: &mut [[u8; 4]],
    size: &mut usize,
    other: &mut [[u8; 4]],
) -> u8
    ensures joined { JoinsState lg_max_k other.old state.old state.new size.old size.new result }
    ensures kept { IsOnlyRead other.old other.new }
{
    let Some(header) = open_under(state, lg_max_k) else {
        return Reason::Argument.number();
    };
    let Some(other_header) = resolve(other) else {
        return Reason::Argument.number();
    };
    match other_header.as_image::<Global>(&other[HEADER_LEN..]) {
        Ok(image) => join(header, lg_max_k, state, size, other_header.widths, &image),
        Err(e) => e.reason().number(),
    }
}

/// Merges a sketch into a state whose header was read, and writes its header. If the `lg_k` of the state is open, the bound
/// decides it first, or else a sketch that isn't empty.
fn join(
    header: Header,
    lg_max_k: u32,
    state: &mut [[u8; 4]],
    size: &mut usize,
    widths: u8,
    image: &BorrowedImage<'_, Global>,
) -> u8
    requires has { HasHeader state.old header }
    requires bound { IsBoundFor lg_max_k (least_bound state.old header.lg_k) }
    requires widths { widths < 8 }
    ensures { JoinsUnder lg_max_k widths (sketch_of_borrowed image.now) state.old state.new size.old size.new result }
{
    if lg_max_k != 0 && is_open(state) {
        return join_at_bound(lg_max_k, state, size, widths, image);
    }
    join_begun(header, lg_max_k, state, size, widths, image)
}

/// Merges a sketch into an empty state whose open `lg_k` the bound decides. The state is as it was if it has too little room.
#[inline(never)]
fn join_at_bound(
    lg_max_k: u32,
    state: &mut [[u8; 4]],
    size: &mut usize,
    widths: u8,
    image: &BorrowedImage<'_, Global>,
) -> u8
    requires there { 10 ≤ length state.old }
    requires bound { IsLgK lg_max_k }
    requires decided { is_decided lg_max_k state.old ≡ true }
    requires widths { widths < 8 }
    ensures { JoinsUnder lg_max_k widths (sketch_of_borrowed image.now) state.old state.new size.old size.new result }
{
    let header = Header::new(lg_max_k as u8);
    if !header.has_room_to_merge(state.len() - HEADER_LEN, image) {
        return too_small(header.len_to_merge(image), size);
    }
    let begun = make(lg_max_k as u8, false, state);
    join_begun(begun, lg_max_k, state, size, widths, image)
}

/// Merges a sketch into a state whose header was read, and writes its header. The bound has decided an open `lg_k`.
#[inline(always)]
fn join_begun(
    mut header: Header,
    lg_max_k: u32,
    state: &mut [[u8; 4]],
    size: &mut usize,
    widths: u8,
    image: &BorrowedImage<'_, Global>,
) -> u8
    requires has { HasHeader state.old header }
    requires bound { IsBoundFor lg_max_k (least_bound state.old header.lg_k) }
    requires widths { widths < 8 }
    ensures { JoinsSketch lg_max_k widths (sketch_of_borrowed image.now) state.old state.new size.old size.new result }
{
    let before = header;
    match header.join(&mut state[HEADER_LEN..], lg_max_k != 0, widths, image) {
        Joined::Done => {
            close_if_changed(state, before, header);
            decide(state, image);
            OK
        }
        Joined::NoRoom(len) => {
            close(state, header);
            too_small(len, size)
        }
        Joined::OtherLgK => OTHER_LG_K,
    }
}

/// A sketch that isn't empty decides an open `lg_k`.
#[inline(always)]
fn decide(state: &mut [[u8; 4]], image: &BorrowedImage<'_, Global>)
    requires there { 10 ≤ length state.old }
    ensures lg_k_open { is_lg_k_open state.new ≡ (is_lg_k_open state.old && is_empty (sketch_of_borrowed image.now)) }
    ensures header { header_of (raws state.new) ≡ header_of (raws state.old) }
    ensures rest { drop 10 state.new ≡ drop 10 state.old }
{
    if is_open(state) && !image.is_empty() {
        set_open(state, false);
    }
}

/// Reads the header of a state. Returns `None` if the elements are not a state, or if `lg_max_k` is neither 0 nor a bound for
/// it.
#[inline(always)]
fn open_under(state: &[[u8; 4]], lg_max_k: u32) -> Option<Header>
    ensures some { IfSome result (λ h. HasHeader state.now h × IsBoundFor lg_max_k (least_bound state.now h.lg_k)) }
    ensures none { IfNone result (IsStateUnder lg_max_k state.now → ⊥) }
{
    let header = open(state)?;
    let least = if is_open(state) {
        MIN_LG_K
    } else {
        header.lg_k
    };
    if is_bound(lg_max_k, least) {
        Some(header)
    } else {
        None
    }
}

/// Returns whether `lg_max_k` is 0, or an `lg_k` of at least this one.
fn is_bound(lg_max_k: u32, lg_k: u8) -> bool
    ensures { IsTrue result ↔ IsBoundFor lg_max_k lg_k }
{
    lg_max_k == 0 || (u32::from(lg_k) <= lg_max_k && lg_max_k <= u32::from(MAX_LG_K))
}
