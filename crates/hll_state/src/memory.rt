// SPDX-License-Identifier: Apache-2.0
//! States in caller-owned memory: reading and writing their headers, and making room for more coupons.
ghost use Rattle.std.specs.Prelude.{◌≡◌, ℕ, ◌+◌, ◌-◌, ◌^◌, ◌<◌, ◌≤◌, true, false, [], ◌∷◌, length, drop, Some, slice_set, IfSome, IfNone, IfOk, IfErr};
ghost use Rattle.hll_sketch.specs.Laws.{add_in_turn};
ghost use Rattle.hll_sketch.specs.Value.{IsLgK};
ghost use Rattle.hll_state.specs.Counter.{sketch_in, IsResolved};
ghost use Rattle.hll_state.specs.CouponRun.{raws};
ghost use Rattle.hll_state.specs.Header as headers;
ghost use Rattle.hll_state.specs.Header.{header_of, IsWithin, HasElementLeft, HasRoom, HasShortTail};
ghost use Rattle.hll_state.specs.Memory as spec;
ghost use Rattle.hll_state.specs.declared.header.CouponTable.{CouponTable};
ghost use Rattle.hll_state.specs.declared.header.Header.{Header};
ghost use Rattle.hll_state.specs.Memory.{HasHeader, IsState, IsStateOf, OfState, GrowsBy, IsOnlyRead, IsSettled, IsBegun, IsReady, LacksRoom};

use crate::elements::get;
use crate::header::{
    COUPONS, CouponTable, HEADER_LEN, Header, Held, are_few, coupons_in, most_elements, most_few,
};
use hll_base::bounds::{MAX_LG_K, MIN_LG_K};
use hll_registers::registers::two_to;

/// Reads the header of a state. Returns `None` if the elements are not a state: too few, or not written by calls of this
/// library.
///
/// Coupons and registers are not checked: elements that other code wrote after a header may hold anything.
#[inline(always)]
pub fn open(elements: &[[u8; 4]]) -> Option<Header>
    ensures some { IfSome result (HasHeader elements.now) }
    ensures none { IfNone result (IsState elements.now → ⊥) }
{
    if elements.len() < HEADER_LEN {
        return None;
    }
    let header = Header::read(elements)?;
    if header.is_within(elements.len() - HEADER_LEN) {
        Some(header)
    } else {
        None
    }
}

/// Writes the header of a state. The elements after it are enough for what the header says. An `lg_k` that is open stays open.
#[inline(always)]
pub fn close(elements: &mut [[u8; 4]], header: Header)
    requires there { 10 ≤ length elements.old }
    requires within { IsWithin header (length elements.old - 10) }
    ensures header { HasHeader elements.new header }
    ensures lg_k_open { spec.is_open elements.new ≡ spec.is_open elements.old }
    ensures rest { drop 10 elements.new ≡ drop 10 elements.old }
{
    let is_open = is_open(elements);
    header.write(elements);
    set_open(elements, is_open);
}

/// Writes the header of a state as `close` does, unless it is the one that was read.
pub fn close_if_changed(elements: &mut [[u8; 4]], before: Header, header: Header)
    requires read { HasHeader elements.old before }
    requires within { IsWithin header (length elements.old - 10) }
    ensures header { HasHeader elements.new header }
    ensures lg_k_open { spec.is_open elements.new ≡ spec.is_open elements.old }
    ensures rest { drop 10 elements.new ≡ drop 10 elements.old }
{
    if header != before {
        close(elements, header);
    }
}

/// Returns whether the `lg_k` of a state is open: until a sketch that isn't empty is merged, no coupon can be added.
#[inline(always)]
pub fn is_open(elements: &[[u8; 4]]) -> bool
    ensures { result ≡ spec.is_open elements.now }
{
    elements.len() > 1 && get(elements, 1) / 32 % 2 == 1
}

/// Says whether the `lg_k` of a state is open. Nothing else of the state changes.
#[inline(always)]
pub fn set_open(elements: &mut [[u8; 4]], is_open: bool)
    requires there { 10 ≤ length elements.old }
    ensures lg_k_open { spec.is_open elements.new ≡ is_open }
    ensures header { header_of (raws elements.new) ≡ header_of (raws elements.old) }
    ensures rest { drop 10 elements.new ≡ drop 10 elements.old }
{
    let lg_k = get(elements, 1) % 32;
    let number = if is_open { lg_k + 32 } else { lg_k };
    elements[1] = number.to_le_bytes();
}

/// Returns whether the elements are a state with registers of which the coupon's is at least the coupon's value, and whose `lg_k`
/// is not open: then adding the coupon changes nothing.
#[inline(always)]
pub fn has_raised(elements: &[[u8; 4]], raw: u32) -> bool
    ensures held { result ≡ true → OfState elements.now (λ x. add_in_turn x (raw ∷ []) ≡ x) }
    ensures decided { result ≡ true → spec.is_open elements.now ≡ false }
{
    match open(elements) {
        Some(header) => !is_open(elements) && header.has_raised(&elements[HEADER_LEN..], raw),
        None => false,
    }
}

/// Adds a raw coupon to a state, whose header was read, if the header stays as it is: if it has registers with the cleared
/// estimate state. Returns whether it has; if not, nothing changed.
#[inline(always)]
pub fn add_in_place(elements: &mut [[u8; 4]], header: Header, raw: u32) -> bool
    requires header { HasHeader elements.old header }
    ensures added { result ≡ true → OfState elements.old (λ x. IsStateOf elements.new (add_in_turn x (raw ∷ []))) }
    ensures grows { GrowsBy 1 elements.old elements.new }
    ensures lg_k_open { spec.is_open elements.new ≡ spec.is_open elements.old }
    ensures none { result ≡ false → elements.new ≡ elements.old }
{
    header.push_in_place(&mut elements[HEADER_LEN..], raw)
}

/// Appends a raw coupon to a state of coupons whose `lg_k` is not open, if an element is left for it. Returns whether one was; if
/// not, nothing changed.
#[inline(always)]
pub fn append(elements: &mut [[u8; 4]], raw: u32) -> bool
    ensures decided { result ≡ true → spec.is_open elements.old ≡ false }
    ensures added { result ≡ true → OfState elements.old (λ x. IsStateOf elements.new (add_in_turn x (raw ∷ []))) }
    ensures grows { GrowsBy 1 elements.old elements.new }
    ensures lg_k_open { spec.is_open elements.new ≡ spec.is_open elements.old }
    ensures none { result ≡ false → elements.new ≡ elements.old }
{
    let Some(header) = open_for_one(elements) else {
        return false;
    };
    let Held::Coupons(coupons) = header.held else {
        return false;
    };
    let more = coupons.with(&mut elements[HEADER_LEN..], header.lg_k, raw);
    write_used(elements, header, coupons, more);
    true
}

/// Reads the header of a state of coupons whose `lg_k` is not open, with an element left for one more. Returns `None` for all other
/// elements.
///
/// It is `open` for the calls that are made most, and looks at each number once.
#[inline(always)]
fn open_for_one(elements: &[[u8; 4]]) -> Option<Header>
    ensures some { IfSome result (HasHeader elements.now) }
    ensures decided { IfSome result (λ h. spec.is_open elements.now ≡ false) }
    ensures room { IfSome result (λ h. HasRoom h 1 (length elements.now - 10)) }
    ensures left { IfSome result (λ h. HasElementLeft h.lg_k h.held) }
{
    if elements.len() < HEADER_LEN || get(elements, 0) != COUPONS {
        return None;
    }
    // (above MAX_LG_K, too, if the bit is set that says that it is open)
    let lg_k = get(elements, 1);
    if lg_k < u32::from(MIN_LG_K) || u32::from(MAX_LG_K) < lg_k {
        return None;
    }
    let coupons = coupons_in(elements);
    if !coupons.have_room_for_one(lg_k as u8, elements.len() - HEADER_LEN) {
        return None;
    }
    Some(Header {
        lg_k: lg_k as u8,
        widths: (get(elements, 2) % 8) as u8,
        held: Held::Coupons(coupons),
    })
}

/// Writes what has changed in a header once a coupon was added to coupons.
#[inline(always)]
fn write_used(elements: &mut [[u8; 4]], header: Header, coupons: CouponTable, more: CouponTable)
    requires header { HasHeader elements.old header }
    requires coupons { header.held ≡ headers.of_coupons coupons }
    requires size { more.lg_size ≡ coupons.lg_size }
    requires added { more.added ≡ true }
    requires run { more.run.run < 2 ^ 32 }
    requires used { more.run.used < 2 ^ 32 }
    ensures header { header_of (raws elements.new) ≡ Some (record header { held = headers.of_coupons more }) }
    ensures lg_k_open { spec.is_open elements.new ≡ spec.is_open elements.old }
    ensures rest { drop 10 elements.new ≡ drop 10 elements.old }
{
    set_number(elements, 4, 1);
    set_number(elements, 5, more.run.run as u32);
    set_number(elements, 6, more.run.used as u32);
}

/// Writes a number of a header.
#[inline(always)]
fn set_number(elements: &mut [[u8; 4]], at: usize, number: u32)
    requires at { at < 10 }
    requires there { 10 ≤ length elements.old }
    ensures numbers { raws elements.new ≡ slice_set (raws elements.old) at number }
    ensures rest { drop 10 elements.new ≡ drop 10 elements.old }
{
    elements[at] = number.to_le_bytes();
}

/// The result of `begin`.
#[derive(Clone, Copy, Debug, PartialEq, Eq)]
pub enum Begun {
    /// The elements are not a state.
    NoState,
    /// There is not enough room. This number of elements is enough.
    NoRoom(usize),
    /// There is room in the elements after this header. Write the header with `close` once coupons were added.
    Room(Header),
}

/// Checks whether a state has room for `count` more coupons. Its bytes may change, but not its sketch.
#[inline(always)]
pub fn begin(elements: &mut [[u8; 4]], count: usize) -> Begun
    ensures { IsBegun count elements.old elements.new result }
{
    let Some(header) = open(elements) else {
        return Begun::NoState;
    };
    match begin_with(elements, header, count) {
        Ok(header) => Begun::Room(header),
        Err(len) => Begun::NoRoom(len),
    }
}

/// Checks whether a state, whose header was read, has room for `count` more coupons, as `begin` does. Returns the header that
/// describes the elements afterwards, or a number of elements that is enough.
#[inline(always)]
pub fn begin_with(
    elements: &mut [[u8; 4]],
    mut header: Header,
    count: usize,
) -> Result<Header, usize>
    requires header { HasHeader elements.old header }
    ensures ok { IfOk result (IsReady count elements.old elements.new) }
    ensures err { IfErr result (LacksRoom count elements.old elements.new) }
{
    if header.make_room(&mut elements[HEADER_LEN..], count) {
        return Ok(header);
    }
    close(elements, header);
    Err(header.len_for(count))
}

/// Makes the sketch of a state ready to be read (see `Header::resolve`), and returns its header. Returns `None` if the elements
/// are not a state. The bytes may change if the state is not ready, but not the sketch.
pub fn resolve(elements: &mut [[u8; 4]]) -> Option<Header>
    ensures within { IfSome result (λ h. IsWithin h (length elements.old - 10)) }
    ensures resolved { IfSome result (λ h. IsResolved h (drop 10 elements.new)) }
    ensures settled { IfSome result (λ h. IsSettled elements.new) }
    ensures some { IfSome result (λ h. OfState elements.old (λ x. x ≡ sketch_in h (drop 10 elements.new))) }
    ensures widths { IfSome result (λ h. (g : Header) → HasHeader elements.old g → h.widths ≡ g.widths) }
    ensures none { IfNone result (IsState elements.old → ⊥) }
    ensures read { IsOnlyRead elements.old elements.new }
{
    let mut header = open(elements)?;
    if header.is_resolved(&elements[HEADER_LEN..]) {
        return Some(header);
    }
    header.resolve(&mut elements[HEADER_LEN..]);
    close(elements, header);
    Some(header)
}

impl Header {
    /// Returns whether there is room for `count` more coupons. Repeated coupons are dropped first, if there may be many.
    #[inline(always)]
    pub(crate) fn make_room(&mut self, body: &mut [[u8; 4]], count: usize) -> bool
        requires { IsWithin self.old (length body.old) }
        ensures within { IsWithin self.new (length body.old) }
        ensures same { sketch_in self.new body.new ≡ sketch_in self.old body.old }
        ensures widths { self.new.widths ≡ self.old.widths }
        ensures room { result ≡ true → HasRoom self.new count (length body.old) }
        ensures none { result ≡ false → HasRoom self.old count (length body.old) → ⊥ }
        ensures keeps { (n room : ℕ) → HasRoom self.old n room → HasRoom self.new n room }
        ensures short { result ≡ false → HasShortTail self.new.held }
    {
        let room = body.len();
        if self.has_room(count, room) {
            return true;
        }
        if !self.has_long_tail(count) {
            return false;
        }
        self.resolve(body);
        self.has_room(count, room)
    }

    /// Returns whether the tail is long enough to be sorted before the state grows by `count` coupons: if it has more than half of
    /// the elements in use, or more than a sixteenth where the state would need room for registers.
    fn has_long_tail(&self, count: usize) -> bool
        requires { IsLgK self.now.lg_k }
        ensures { result ≡ false → HasShortTail self.now.held }
    {
        let Held::Coupons(coupons) = self.held else {
            return false;
        };
        let used = coupons.run.used;
        let short = if are_few(self.lg_k, used.saturating_add(count)) {
            used / 2
        } else {
            used / 16
        };
        coupons.run.run.saturating_add(short) < used
    }

    /// Returns a number of elements, header included, in which the state has room for `count` more coupons, and for half as
    /// many again and eight; or as much room as any state of this `lg_k` needs.
    pub(crate) fn len_for(&self, count: usize) -> usize
        requires lg_k { IsLgK self.now.lg_k }
        ensures asked { result ≡ headers.len_asked self.now.lg_k self.now.held count }
        ensures room { HasRoom self.now count (result - 10) }
        ensures least { 10 ≤ result }
        ensures most { result ≤ 10 + headers.most_elements self.now.lg_k }
    {
        match self.held {
            Held::Coupons(coupons) => {
                HEADER_LEN + grown_len(self.lg_k, coupons.run.used.saturating_add(count))
            }
            Held::Registers(_) => HEADER_LEN + two_to(self.lg_k - 2),
        }
    }
}

/// Returns a number of elements that is enough for `count` coupons, and for half as many again and eight, unless that is more than
/// never become registers.
fn grown_len(lg_k: u8, count: usize) -> usize
    requires { IsLgK lg_k }
    ensures asked { result ≡ headers.asked_for lg_k count }
    ensures enough { headers.elements_for lg_k count ≤ result }
    ensures most { result ≤ headers.most_elements lg_k }
{
    if !are_few(lg_k, count) {
        return most_elements(lg_k);
    }
    let grown = count.saturating_add(count / 2 + 8);
    grown.min(most_few(lg_k))
}
