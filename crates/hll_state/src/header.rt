// SPDX-License-Identifier: Apache-2.0
//! What the first elements of a state say, and whether the elements after them are enough for it.
ghost use Rattle.std.specs.Prelude.{◌≡◌, ◌↔◌, ◌+◌, ◌%◌, ◌/◌, ℕ, ◌^◌, ◌<◌, ◌≤◌, ◌++◌, if◌then◌else◌, Some, IsTrue, true, length, drop};
ghost use Rattle.hll_registers.specs.State.{IsState, cleared_state};
ghost use Rattle.hll_sketch.specs.Layout.{IsSize};
ghost use Rattle.hll_sketch.specs.Value.{IsLgK};
ghost use Rattle.hll_state.specs.CouponRun.{raws};
ghost use Rattle.hll_state.specs.Header as spec;
ghost use Rattle.hll_state.specs.Prefixes.{needed};
ghost use Rattle.hll_state.specs.Header.{header_of, held_in_header, coupons_in_header, state_in_header, wide, AreWithin, IsHeldWithin, IsWithin, HasElementLeft, HasRoomFor, HasRoom};

use crate::elements::{get, set};
use crate::run::CouponRun;
use hll_base::bounds::{MAX_LG_K, MIN_LG_K};
use hll_registers::estimate_state::EstimateState;
use hll_registers::registers::two_to;
use hll_sketch::stage::can_hold;

/// The number of elements of a header.
pub const HEADER_LEN: usize = 10;

/// The first number of a state that holds coupons. The highest byte, 2, is the version of states: another version has other first
/// numbers, and its bytes are not a state.
pub(crate) const COUPONS: u32 = 0x0248_4c41;
/// The first number of a state that holds registers.
const REGISTERS: u32 = 0x0248_4c42;

/// What a state says before its coupons or registers.
// More methods are in the modules as_image, counter, join, memory, merge_coupons, merge_image, merge_registers and merge_table.
#[derive(Clone, Copy, Debug, PartialEq, Eq)]
pub struct Header {
    /// The logarithm of the number of registers, 4 to 21.
    pub lg_k: u8,

    /// The widths of the images that were merged, as a sum: 1 for 4 bits, 2 for 6 bits, 4 for 8 bits.
    pub widths: u8,

    /// What the elements after the header hold.
    pub held: Held,
}

/// What the elements after a header hold.
#[derive(Clone, Copy, Debug, PartialEq, Eq)]
pub enum Held {
    /// Coupons, which become registers once they are too many.
    Coupons(CouponTable),
    /// Registers, with the estimate state of a merged sketch until a register changes.
    Registers(EstimateState),
}

/// What a header says of coupons.
// More methods are in the modules as_image and counter.
#[derive(Clone, Copy, Debug, PartialEq, Eq)]
pub struct CouponTable {
    /// The logarithm of the number of buckets of the table that the coupons began in: 3, or 5 to `lg_k` - 3.
    pub lg_size: u8,

    /// Whether coupons were added since then. Coupons that were copied from an image keep its table until then.
    pub added: bool,

    /// Which elements are in use.
    pub run: CouponRun,
}

impl Header {
    /// Returns the header of an empty sketch.
    pub fn new(lg_k: u8) -> Header
        ensures { result ≡ spec.new_header lg_k }
    {
        Header {
            lg_k,
            widths: 0,
            held: Held::Coupons(CouponTable {
                lg_size: 3,
                added: false,
                run: CouponRun { run: 0, used: 0 },
            }),
        }
    }

    /// Reads a header from the first elements. Returns `None` if they are not the header of a state.
    #[inline(always)]
    pub fn read(elements: &[[u8; 4]]) -> Option<Header>
        requires { 10 ≤ length elements.now }
        ensures { result ≡ header_of (raws elements.now) }
    {
        let held = held_in(elements)?;
        Some(Header {
            lg_k: (get(elements, 1) % 32) as u8,
            widths: (get(elements, 2) % 8) as u8,
            held,
        })
    }

    /// Writes the header over the first elements. The header is valid for some number of elements after it; `elements` may have
    /// any number of them.
    pub fn write(&self, elements: &mut [[u8; 4]])
        requires there { 10 ≤ length elements.old }
        requires within { (room : ℕ) × IsWithin self.now room }
        ensures written { header_of (raws elements.new) ≡ Some self.now }
        ensures rest { drop 10 elements.new ≡ drop 10 elements.old }
    {
        let written = match self.held {
            Held::Coupons(coupons) => self.elements_of_coupons(coupons),
            Held::Registers(state) => self.elements_of_registers(state),
        };
        elements[..HEADER_LEN].copy_from_slice(&written);
    }

    /// Returns the elements of a header of coupons.
    fn elements_of_coupons(&self, coupons: CouponTable) -> [[u8; 4]; HEADER_LEN]
        requires held { self.now.held ≡ spec.of_coupons coupons }
        requires within { (room : ℕ) × IsWithin self.now room }
        ensures { header_of (raws result) ≡ Some self.now }
    {
        [
            COUPONS.to_le_bytes(),
            u32::from(self.lg_k).to_le_bytes(),
            u32::from(self.widths).to_le_bytes(),
            u32::from(coupons.lg_size).to_le_bytes(),
            bit(coupons.added).to_le_bytes(),
            (coupons.run.run as u32).to_le_bytes(),
            (coupons.run.used as u32).to_le_bytes(),
            [0; 4],
            [0; 4],
            [0; 4],
        ]
    }

    /// Returns the elements of a header of registers.
    fn elements_of_registers(&self, state: EstimateState) -> [[u8; 4]; HEADER_LEN]
        requires held { self.now.held ≡ spec.of_registers state }
        requires within { (room : ℕ) × IsWithin self.now room }
        ensures { header_of (raws result) ≡ Some self.now }
    {
        let [first, second, third] = state.words;
        [
            REGISTERS.to_le_bytes(),
            u32::from(self.lg_k).to_le_bytes(),
            u32::from(self.widths).to_le_bytes(),
            bit(state.out_of_order).to_le_bytes(),
            low_half(first).to_le_bytes(),
            high_half(first).to_le_bytes(),
            low_half(second).to_le_bytes(),
            high_half(second).to_le_bytes(),
            low_half(third).to_le_bytes(),
            high_half(third).to_le_bytes(),
        ]
    }

    /// Returns whether `room` elements after the header are enough for what the header says.
    #[inline(always)]
    pub fn is_within(&self, room: usize) -> bool
        ensures { IsTrue result ↔ IsWithin self.now room }
    {
        MIN_LG_K <= self.lg_k
            && self.lg_k <= MAX_LG_K
            && self.widths < 8
            && self.held.is_within(self.lg_k, room)
    }

    /// Returns whether the elements after the header hold registers.
    #[inline(always)]
    pub fn has_registers(&self) -> bool
        ensures { result ≡ spec.has_registers self.now.held }
    {
        match self.held {
            Held::Coupons(_) => false,
            Held::Registers(_) => true,
        }
    }

    /// Returns whether the state holds registers with the cleared estimate state, which stays whatever is added.
    #[inline(always)]
    pub(crate) fn has_cleared_registers(&self) -> bool
        ensures { result ≡ true → self.now.held ≡ spec.of_registers cleared_state }
    {
        match self.held {
            Held::Coupons(_) => false,
            Held::Registers(state) => state == EstimateState::CLEARED,
        }
    }

    /// Returns the number of elements after the header that the state takes.
    pub fn needed(&self) -> usize
        requires { IsLgK self.now.lg_k }
        ensures { result ≡ needed self.now.lg_k self.now.held }
    {
        match self.held {
            Held::Coupons(coupons) => elements_for(self.lg_k, coupons.run.used),
            Held::Registers(_) => two_to(self.lg_k - 2),
        }
    }

    /// Returns whether `room` elements after the header are enough for `count` more coupons.
    #[inline(always)]
    pub fn has_room(&self, count: usize, room: usize) -> bool
        requires lg_k { IsLgK self.now.lg_k }
        requires within { IsWithin self.now room }
        ensures { IsTrue result ↔ HasRoom self.now count room }
    {
        match self.held {
            Held::Coupons(coupons) => {
                room >= elements_for(self.lg_k, coupons.run.used.saturating_add(count))
            }
            Held::Registers(_) => true,
        }
    }
}

impl Held {
    /// Returns whether `room` elements after the header are enough for it.
    #[inline(always)]
    fn is_within(&self, lg_k: u8, room: usize) -> bool
        requires { IsLgK lg_k }
        ensures { IsTrue result ↔ IsHeldWithin lg_k self.now room }
    {
        match self {
            Held::Coupons(coupons) => coupons.are_within(lg_k, room),
            Held::Registers(_) => two_to(lg_k - 2) <= room,
        }
    }
}

impl CouponTable {
    /// Returns whether `room` elements after the header are enough for the coupons.
    #[inline(always)]
    fn are_within(&self, lg_k: u8, room: usize) -> bool
        requires { IsLgK lg_k }
        ensures { IsTrue result ↔ AreWithin lg_k self.now room }
    {
        is_size(lg_k, self.lg_size)
            && (self.added || fits(self.run.used, self.lg_size))
            && self.run.run <= self.run.used
            && self.run.used <= most_used(lg_k)
            && elements_for(lg_k, self.run.used) <= room
    }

    /// Returns whether `room` elements after the header are enough for the coupons and one more.
    #[inline(always)]
    pub(crate) fn have_room_for_one(&self, lg_k: u8, room: usize) -> bool
        requires { IsLgK lg_k }
        ensures within { result ≡ true → AreWithin lg_k self.now room }
        ensures room { result ≡ true → HasRoomFor lg_k (spec.of_coupons self.now) 1 room }
        ensures left { result ≡ true → HasElementLeft lg_k (spec.of_coupons self.now) }
    {
        is_size(lg_k, self.lg_size)
            && (self.added || fits(self.run.used, self.lg_size))
            && self.run.run <= self.run.used
            && self.run.used < most_used(lg_k)
            && elements_for(lg_k, self.run.used + 1) <= room
    }
}

/// Returns whether a table at this `lg_k` may have 2^`lg_size` buckets.
#[inline(always)]
fn is_size(lg_k: u8, lg_size: u8) -> bool
    requires { IsLgK lg_k }
    ensures { IsTrue result ↔ IsSize lg_k lg_size }
{
    lg_size == 3 || (5 <= lg_size && lg_size <= lg_k - 3)
}

/// Returns whether a list or a set of this size may have `count` coupons.
#[inline(always)]
fn fits(count: usize, lg_size: u8) -> bool
    requires { lg_size ≤ 21 }
    ensures three { lg_size ≡ 3 → IsTrue result ↔ (count ≤ 8) }
    ensures other { 5 ≤ lg_size → IsTrue result ↔ (count < 2 ^ lg_size) }
{
    if lg_size == 3 {
        count <= 8
    } else {
        count < two_to(lg_size)
    }
}

/// Returns the greatest number of coupons in use, including repeated ones, before the distinct coupons are counted. `lg_k` is 4
/// to 21.
#[inline(always)]
pub(crate) fn most_used(lg_k: u8) -> usize
    requires { IsLgK lg_k }
    ensures { result ≡ spec.most_used lg_k }
{
    two_to((lg_k - 3).max(4))
}

/// Returns the number of elements after a header that is enough for every state of this `lg_k`, 4 to 21: for registers, and
/// next to them for the coupons that become registers.
pub(crate) fn most_elements(lg_k: u8) -> usize
    requires { IsLgK lg_k }
    ensures { result ≡ spec.most_elements lg_k }
{
    two_to(lg_k - 2) + most_used(lg_k)
}

/// Returns whether this number of coupons never becomes registers. `lg_k` is 4 to 21.
#[inline(always)]
pub(crate) fn are_few(lg_k: u8, count: usize) -> bool
    requires { IsLgK lg_k }
    ensures { result ≡ spec.are_few lg_k count }
{
    let greatest_size = if lg_k <= 7 { 3 } else { lg_k - 3 };
    can_hold(greatest_size, count)
}

/// Returns the greatest number of coupons that never become registers. `lg_k` is 4 to 21.
pub(crate) fn most_few(lg_k: u8) -> usize
    requires { IsLgK lg_k }
    ensures { result ≡ spec.most_few lg_k }
{
    if lg_k <= 7 { 7 } else { 3 * two_to(lg_k - 5) }
}

/// Returns the number of elements after a header that is enough for `count` coupons. `lg_k` is 4 to 21.
#[inline(always)]
pub(crate) fn elements_for(lg_k: u8, count: usize) -> usize
    requires { IsLgK lg_k }
    ensures { result ≡ spec.elements_for lg_k count }
{
    if are_few(lg_k, count) {
        count
    } else {
        most_elements(lg_k)
    }
}

/// Returns 1 for true, 0 for false.
fn bit(flag: bool) -> u32
    ensures { result ≡ (if flag then 1 else 0) }
{
    if flag { 1 } else { 0 }
}

/// Returns the lower 32 bits of a number.
fn low_half(number: u64) -> u32
    ensures { result ≡ number % 2 ^ 32 }
{
    (number & 0xffff_ffff) as u32
}

/// Returns the upper 32 bits of a number.
fn high_half(number: u64) -> u32
    ensures { result ≡ number / 2 ^ 32 }
{
    (number >> 32) as u32
}

/// Reads what a state holds.
#[inline(always)]
fn held_in(elements: &[[u8; 4]]) -> Option<Held>
    requires { 10 ≤ length elements.now }
    ensures { result ≡ held_in_header (raws elements.now) }
{
    match get(elements, 0) {
        COUPONS => Some(Held::Coupons(coupons_in(elements))),
        REGISTERS => Some(Held::Registers(state_in(elements))),
        _ => None,
    }
}

/// Reads what a header says of coupons.
#[inline(always)]
pub(crate) fn coupons_in(elements: &[[u8; 4]]) -> CouponTable
    requires { 10 ≤ length elements.now }
    ensures { result ≡ coupons_in_header (raws elements.now) }
{
    CouponTable {
        lg_size: (get(elements, 3) % 32) as u8,
        added: get(elements, 4) == 1,
        run: CouponRun {
            run: get(elements, 5) as usize,
            used: get(elements, 6) as usize,
        },
    }
}

/// Reads an estimate state.
#[inline(always)]
fn state_in(elements: &[[u8; 4]]) -> EstimateState
    requires { 10 ≤ length elements.now }
    ensures { result ≡ state_in_header (raws elements.now) }
{
    EstimateState {
        words: [
            get_wide(elements, 4),
            get_wide(elements, 6),
            get_wide(elements, 8),
        ],
        out_of_order: get(elements, 3) == 1,
    }
}

/// Reads a 64-bit number from two elements, the lower half first.
#[inline(always)]
fn get_wide(elements: &[[u8; 4]], at: usize) -> u64
    requires { at + 1 < length elements.now }
    ensures { result ≡ wide (raws elements.now) at }
{
    u64::from(get(elements, at)) + (u64::from(get(elements, at + 1)) << 32)
}
