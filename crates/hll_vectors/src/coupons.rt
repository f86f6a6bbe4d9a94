// SPDX-License-Identifier: Apache-2.0
//! Coupons of hash halves, of bytes and of values.
ghost use Rattle.std.specs.Prelude.{◌≡◌, ◌^◌, ◌<◌, ◌≤◌, OnOk};

use crate::hash::TEXT;
use hll_base::error::Error;
use hll_base::hash::MurmurHash3X64128;
use hll_coupons::aux_map::AuxMap;
use hll_coupons::coupon::Coupon;
use std::alloc::Global;
use std::hash::{Hash, Hasher};
use std::test::Fail;

/// The two halves of a hash, and the slot and value of their coupon.
const WORDS: [(u64, u64, u32, u8); 8] = [
    (0, 0, 0, 63),
    (0, 1 << 63, 0, 1),
    (0, 4, 0, 62),
    (0, 2, 0, 63),
    (0, 1, 0, 63),
    (67_108_869, 1 << 63, 5, 1),
    (u64::MAX, u64::MAX, 67_108_863, 1),
    (1 << 26, 1 << 40, 0, 24),
];

/// Bytes whose `hash` writes them in one piece.
#[derive(PartialEq, Eq, Drop)]
pub(crate) struct Piece<'a> {
    pub(crate) bytes: &'a [u8],
}

impl<'a> Hash for Piece<'a> {
    ghost use Rattle.std.specs.Prelude.{[], ◌∷◌};
    ghost use Rattle.std.proofs.Common.{rules};
    ghost use Rattle.std.specs.Cmp.Rules.{comparing, hashing};

    ghost hash_input = { λ t. t.bytes.now ∷ [] };

    ghost respects_eq = { Prim.search (hashing, rules) };

    fn hash<H: Hasher>(&self, state: &mut H) {
        state.write(self.bytes);
    }
}

#[test]
fn of_words(rt: HostRuntime) {
    for (lo, hi, slot, value) in WORDS {
        let coupon = Coupon::from_words(lo, hi);
        assert_eq!(rt;
            (coupon.slot(), coupon.value()),
            (slot, value),
            "{lo} and {hi}"
        );
    }
    assert_eq!(rt; Coupon::from_words(0, 0).raw(), 0xfc00_0000);
    let packed = Coupon::pack(12345, 42);
    assert_eq!(rt; (packed.slot(), packed.value()), (12345, 42));
}

#[test]
fn of_bytes(rt: HostRuntime) {
    for end in 0..44usize {
        let mut hash = MurmurHash3X64128::default();
        hash.write(&TEXT[..end]);
        let (lo, hi) = hash.finish128();
        assert_eq!(rt;
            Coupon::from_bytes(&TEXT[..end]),
            Coupon::from_words(lo, hi),
            "{end} bytes"
        );
    }
}

/// A value of one piece has the coupon of its bytes; a value of two pieces has that of both, concatenated.
#[test]
fn of_values(rt: HostRuntime) {
    for piece in [&TEXT[..0], &TEXT[..15], &TEXT[15..], TEXT.as_slice()] {
        assert_eq!(rt;
            Coupon::from_value(Piece { bytes: piece }),
            Coupon::from_bytes(piece)
        );
    }
    let both = (Piece { bytes: &TEXT[..15] }, Piece { bytes: &TEXT[15..] });
    assert_eq!(rt;
        Coupon::from_value(both),
        Coupon::from_bytes(TEXT.as_slice())
    );
    assert!(rt;
        Coupon::from_value(Piece { bytes: &TEXT[..15] })
            != Coupon::from_value(Piece { bytes: &TEXT[15..] })
    );
}

/// Sets the value of a slot, whether or not the slot has one.
fn set(map: &mut AuxMap, slot: u32, value: u8) -> Result<(), Error>
    requires within { slot < 2 ^ map.old.lg_k }
    requires least { 1 ≤ value }
    requires most { value ≤ 63 }
    ensures { OnOk result (map.new.lg_k ≡ map.old.lg_k) }
{
    if map.get(slot).is_some() {
        map.replace(slot, value);
        return Ok(());
    }
    map.insert(slot, value)
}

/// The values of some slots, and the size in bytes.
type Seen = ([Option<u8>; 4], usize);

/// Returns the values of three slots, one of which was set twice, and of a slot without a value, with the size of their
/// map.
fn three_at_10(alloc: Global, last: u8) -> Result<Seen, Error>
    requires least { 1 ≤ last }
    requires most { last ≤ 63 }
{
    let mut map = AuxMap::new(alloc, 10)?;
    set(&mut map, 10, 20)?;
    set(&mut map, 50, 30)?;
    set(&mut map, 100, 40)?;
    set(&mut map, 50, last)?;
    let values = [map.get(10), map.get(50), map.get(100), map.get(999)];
    Ok((values, map.estimated_size()))
}

/// Returns the values of four slots, with the size of their map.
fn four_at_8(alloc: Global) -> Result<Seen, Error> {
    let mut map = AuxMap::new(alloc, 8)?;
    set(&mut map, 1, 15)?;
    set(&mut map, 2, 16)?;
    set(&mut map, 3, 17)?;
    set(&mut map, 4, 18)?;
    let values = [map.get(1), map.get(2), map.get(3), map.get(4)];
    Ok((values, map.estimated_size()))
}

#[test]
fn exceptions(rt: HostRuntime) {
    let seen = ([Some(20), Some(30), Some(40), None], 64);
    assert_eq!(rt; three_at_10(rt.alloc(), 30), Ok(seen));
    let seen = ([Some(20), Some(35), Some(40), None], 64);
    assert_eq!(rt; three_at_10(rt.alloc(), 35), Ok(seen));
    let seen = ([Some(15), Some(16), Some(17), Some(18)], 32);
    assert_eq!(rt; four_at_8(rt.alloc()), Ok(seen));
}

/// The size in bytes of a map without entries, by `lg_k` from 4 on.
const START_SIZES: [usize; 18] = [
    16, 16, 16, 32, 32, 32, 64, 64, 128, 128, 256, 512, 1024, 2048, 4096, 8192, 16384, 32768,
];

#[test]
fn start_sizes(rt: HostRuntime) -> Result<(), Fail> {
    for lg_k in 4..22u8 {
        let map = AuxMap::new(rt.alloc(), lg_k)?;
        assert_eq!(rt;
            map.estimated_size(),
            START_SIZES[usize::from(lg_k) - 4],
            "{lg_k}"
        );
    }
    Ok(())
}
