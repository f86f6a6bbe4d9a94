// SPDX-License-Identifier: Apache-2.0
//! Coupons in the buckets of a table, as an updatable image has them, where 0 stands for an empty bucket. If they are few, they
//! are copied to a list as in a compact image, and handled as such: no table is made.
ghost use Rattle.std.specs.Prelude.{◌≡◌, ◌+◌, ◌*◌, ◌^◌, ◌<◌, ◌≤◌, ◌↔◌, ◌++◌, [], ◌∷◌, true, IsTrue, IfSome, IfNone, length};
ghost use Rattle.hll_coupons.specs.Coupons.{raw_coupons, AreCoupons};
ghost use Rattle.hll_coupons.specs.Table.{coupons_in};
ghost use Rattle.hll_sketch.specs.Header.{header_of};
ghost use Rattle.hll_sketch.specs.Image.{HasHeader, stage_bits};
ghost use Rattle.hll_sketch.specs.MergedIn.{IsOfCoupons};
ghost use Rattle.hll_sketch.specs.Updatable.{HoldCoupons, HasUpdatableCoupons};

use crate::coupon_room::{CouponRoom, ROOM};
use crate::header::{HEADER_SIZE, Header, Stage, is_set_table};
use crate::raw_coupons::{FEW, RawCoupons};
use hll_arrays::registers::two_to;
use hll_base::cursor::SketchSlice;
use hll_coupons::serialization::{COUPON_SIZE_BYTES, LG_LIST_BUCKETS};

/// The buckets of a table, and the number of filled buckets that an image says: 1 to `FEW`.
#[derive(Clone, Copy)]
struct Buckets<'a> {
    raw_coupons: RawCoupons<'a>,
    filled: usize,
    ghost some: { 1 ≤ filled },
    ghost few: { filled ≤ 128 },
}

impl<'a> Buckets<'a> {
    /// Returns the first buckets of some bytes, as a table of 2^`lg_size`, of which `filled` are said to be filled. Returns
    /// `None` if `filled` is not 1 to `FEW`, or the bytes are too few.
    fn front(bytes: &'a [u8], lg_size: u8, filled: usize) -> Option<Buckets<'a>>
        requires { lg_size ≤ 21 }
        ensures some { IfSome result (λ p. (p.raw_coupons.bytes.now ≡ bytes.now) × (p.raw_coupons.count ≡ 2 ^ lg_size) × (p.filled ≡ filled)) }
        ensures none { IfNone result (1 ≤ filled → filled ≤ 128 → 4 * 2 ^ lg_size ≤ length bytes.now → ⊥) }
    {
        if filled == 0 || FEW < filled {
            return None;
        }
        let raw_coupons = RawCoupons::front(bytes, two_to(lg_size))?;
        Some(Buckets {
            raw_coupons,
            filled,
        })
    }

    /// Returns whether the number of filled buckets is the one that is said. If it is, their raw coupons are in the first bytes
    /// of `room`.
    fn gather_filled(&self, room: &mut [u8; ROOM]) -> bool
        ensures number { IsTrue result ↔ (length (coupons_in (raw_coupons self.now.raw_coupons.count self.now.raw_coupons.bytes.now)) ≡ self.now.filled) }
        ensures gathered { result ≡ true → raw_coupons self.now.filled room.new ≡ coupons_in (raw_coupons self.now.raw_coupons.count self.now.raw_coupons.bytes.now) }
    {
        self.gather(room) == self.filled
    }

    /// Writes the raw coupons that are not 0 into the first bytes of `room` in turn, as far as there is room, and returns how
    /// many there are.
    fn gather(&self, room: &mut [u8; ROOM]) -> usize
        ensures number { result ≡ length (coupons_in (raw_coupons self.now.raw_coupons.count self.now.raw_coupons.bytes.now)) }
        ensures gathered { result ≤ 128 → raw_coupons result room.new ≡ coupons_in (raw_coupons self.now.raw_coupons.count self.now.raw_coupons.bytes.now) }
    {
        let mut cursor = SketchSlice::new(self.raw_coupons.bytes);
        let mut count = 0;
        for _ in 0..self.raw_coupons.count {
            let Ok(raw_coupon) = cursor.read_u32_le() else {
                return count;
            };
            // (written even if it is 0, which avoids a branch that the processor would have to predict)
            if count < FEW {
                put(room, count, raw_coupon);
            }
            count += usize::from(raw_coupon != 0);
        }
        count
    }
}

/// Writes a raw coupon after the first `count` of them.
pub fn put(room: &mut [u8; ROOM], count: usize, raw_coupon: u32)
    requires { count < 128 }
    ensures kept { raw_coupons count room.new ≡ raw_coupons count room.old }
    ensures put { raw_coupons (count + 1) room.new ≡ raw_coupons count room.old ++ raw_coupon ∷ [] }
{
    let start = COUPON_SIZE_BYTES * count;
    room[start..start + COUPON_SIZE_BYTES].copy_from_slice(&raw_coupon.to_le_bytes());
}

/// Returns the coupons of an updatable image of a list or a set, gathered in `room` in the order of their
/// buckets. Returns `None` unless there are 1 to `FEW`.
// (not inlined: compact images don't need it)
#[inline(never)]
pub fn updatable_coupons<'a>(
    bytes: &[u8],
    header: Header,
    room: &'a mut CouponRoom,
) -> Option<RawCoupons<'a>>
    requires has { HasHeader bytes.now (stage_bits bytes.now) }
    requires stage { stage_bits bytes.now < 3 }
    requires header { header ≡ header_of bytes.now }
    ensures some { IfSome result (λ w. IsOfCoupons bytes.now (raw_coupons w.count w.bytes.now)) }
    ensures are { IfSome result (λ w. AreCoupons (raw_coupons w.count w.bytes.now)) }
    ensures few { IfSome result (λ w. w.count ≤ 128) }
    ensures none { IfNone result (HasUpdatableCoupons bytes.now → ⊥) }
{
    let coupons = gathered_coupons(bytes, header, room)?;
    if !coupons.differ() {
        return None;
    }
    Some(coupons)
}

/// Returns the raw coupons in the buckets of an updatable image of a list or a set, gathered in `room` in
/// the order of their buckets. Returns `None` if a check other than that of coupons fails, or if they are not 1 to `FEW`.
pub fn gathered_coupons<'a>(
    bytes: &[u8],
    header: Header,
    room: &'a mut CouponRoom,
) -> Option<RawCoupons<'a>>
    requires has { HasHeader bytes.now (stage_bits bytes.now) }
    requires stage { stage_bits bytes.now < 3 }
    requires header { header ≡ header_of bytes.now }
    ensures some { IfSome result (λ w. AreCoupons (raw_coupons w.count w.bytes.now) → IsOfCoupons bytes.now (raw_coupons w.count w.bytes.now)) }
    ensures coupons { IfSome result (λ w. HasUpdatableCoupons bytes.now → AreCoupons (raw_coupons w.count w.bytes.now)) }
    ensures few { IfSome result (λ w. w.count ≤ 128) }
    ensures none { IfNone result (HasUpdatableCoupons bytes.now → ⊥) }
{
    let buckets = match header.stage {
        Stage::List => list_buckets(bytes, header)?,
        Stage::Set => set_buckets(bytes, header)?,
        Stage::Hll => return None,
    };
    let bytes = room.cleared();
    if !buckets.gather_filled(bytes) {
        return None;
    }
    Some(RawCoupons {
        bytes,
        count: buckets.filled,
    })
}

/// Returns the buckets after the header of an updatable list. Returns `None` if a check other than those of coupons fails, or
/// if no bucket is filled.
fn list_buckets(bytes: &[u8], header: Header) -> Option<Buckets<'_>>
    requires has { HasHeader bytes.now 0 }
    requires header { header ≡ header_of bytes.now }
    ensures coupons { IfSome result (λ p. HoldCoupons p.filled (raw_coupons p.raw_coupons.count p.raw_coupons.bytes.now) → IsOfCoupons bytes.now (coupons_in (raw_coupons p.raw_coupons.count p.raw_coupons.bytes.now))) }
    ensures hold { IfSome result (λ p. HasUpdatableCoupons bytes.now → HoldCoupons p.filled (raw_coupons p.raw_coupons.count p.raw_coupons.bytes.now)) }
    ensures none { IfNone result (HasUpdatableCoupons bytes.now → ⊥) }
{
    if header.compact || header.empty || header.lg_arr != LG_LIST_BUCKETS {
        return None;
    }
    let filled = usize::from(header.state_byte);
    if two_to(LG_LIST_BUCKETS) < filled {
        return None;
    }
    Buckets::front(&bytes[HEADER_SIZE..], LG_LIST_BUCKETS, filled)
}

/// Returns the buckets after the count of an updatable set. Returns `None` if a check other than those of coupons fails, or if
/// no bucket or more than `FEW` are filled.
fn set_buckets(bytes: &[u8], header: Header) -> Option<Buckets<'_>>
    requires has { HasHeader bytes.now 1 }
    requires header { header ≡ header_of bytes.now }
    ensures coupons { IfSome result (λ p. HoldCoupons p.filled (raw_coupons p.raw_coupons.count p.raw_coupons.bytes.now) → IsOfCoupons bytes.now (coupons_in (raw_coupons p.raw_coupons.count p.raw_coupons.bytes.now))) }
    ensures hold { IfSome result (λ p. HasUpdatableCoupons bytes.now → HoldCoupons p.filled (raw_coupons p.raw_coupons.count p.raw_coupons.bytes.now)) }
    ensures none { IfNone result (HasUpdatableCoupons bytes.now → ⊥) }
{
    if header.compact || !is_set_table(header) {
        return None;
    }
    let mut cursor = SketchSlice::new(&bytes[HEADER_SIZE..]);
    let Ok(filled) = cursor.read_u32_le() else {
        return None;
    };
    let filled = filled as usize;
    if two_to(header.lg_arr) <= filled {
        return None;
    }
    Buckets::front(cursor.remaining(), header.lg_arr, filled)
}
