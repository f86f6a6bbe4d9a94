// SPDX-License-Identifier: Apache-2.0
//! Maps of exceptions: their entries, and the buckets of these.
ghost use Rattle.std.specs.Prelude.{◌≡◌, ◌^◌, ◌<◌, ◌≤◌, IfOk, OnOk};

use hll_base::error::Error;
use hll_coupons::aux_map::AuxMap;
use std::alloc::{Allocator, Global};

/// Returns the number of slots.
fn slots(lg_k: u8) -> u32
    requires { lg_k ≤ 21 }
    ensures { result ≡ 2 ^ lg_k }
{
    1 << lg_k
}

/// Sets the value of a slot, whether or not the slot has one.
fn set<A: Allocator + Clone>(map: &mut AuxMap<A>, slot: u32, value: u8) -> Result<(), Error>
    requires within { slot < 2 ^ map.old.lg_k }
    requires least { 1 ≤ value }
    requires most { value ≤ 63 }
    ensures lg_k { OnOk result (map.new.lg_k ≡ map.old.lg_k) }
{
    if map.get(slot).is_some() {
        map.replace(slot, value);
        return Ok(());
    }
    map.insert(slot, value)
}

/// Returns a map after these entries, in turn. Entries out of range are left out.
fn map_of<A: Allocator + Clone>(
    alloc: A,
    lg_k: u8,
    entries: &[(u32, u8)],
) -> Result<AuxMap<A>, Error>
    requires least { 4 ≤ lg_k }
    requires most { lg_k ≤ 21 }
    ensures { IfOk result (λ m. m.lg_k ≡ lg_k) }
{
    let mut map = AuxMap::new(alloc, lg_k)?;
    for (slot, value) in entries {
        if *slot < slots(lg_k) && 1 <= *value && *value <= 63 {
            set(&mut map, *slot, *value)?;
        }
    }
    Ok(map)
}

/// The entries in the order of their buckets, and the bytes of all buckets.
type Buckets = ([Option<(u32, u8)>; 5], usize);

fn buckets_of<A: Allocator>(map: &AuxMap<A>) -> Buckets {
    let mut entries = map.iter();
    let buckets = [
        entries.next(),
        entries.next(),
        entries.next(),
        entries.next(),
        entries.next(),
    ];
    (buckets, map.estimated_size())
}

/// Two entries that start at bucket 1, and one that starts at the bucket that the second entry went to.
const THREE: [(u32, u8); 3] = [(1, 15), (5, 16), (2, 17)];

const THREE_BUCKETS: Buckets = (
    [Some((1, 15)), Some((5, 16)), Some((2, 17)), None, None],
    16,
);

/// A fourth entry makes the table grow to eight buckets.
const FOUR: [(u32, u8); 4] = [(1, 15), (5, 16), (2, 17), (3, 63)];

const FOUR_BUCKETS: Buckets = (
    [
        Some((1, 15)),
        Some((2, 17)),
        Some((3, 63)),
        Some((5, 16)),
        None,
    ],
    32,
);

/// Returns the buckets of a map after these entries, and the buckets of its copy.
fn placed(alloc: Global, entries: &[(u32, u8)]) -> Result<(Buckets, Buckets), Error> {
    let map = map_of(alloc, 4, entries)?;
    let buckets = buckets_of(&map);
    Ok((buckets, buckets_of(&map.clone()?)))
}

/// Returns the first five entries that a map's owning iterator returns.
fn given(alloc: Global, entries: &[(u32, u8)]) -> Result<[Option<(u32, u8)>; 5], Error> {
    let mut entries = map_of(alloc, 4, entries)?.into_iter();
    Ok([
        entries.next(),
        entries.next(),
        entries.next(),
        entries.next(),
        entries.next(),
    ])
}

#[test]
fn buckets(rt: HostRuntime) {
    for (entries, buckets) in [(THREE.as_slice(), THREE_BUCKETS), (&FOUR, FOUR_BUCKETS)] {
        assert_eq!(rt; placed(rt.alloc(), entries), Ok((buckets, buckets)));
        assert_eq!(rt; given(rt.alloc(), entries), Ok(buckets.0));
    }
}

/// Entries at `lg_k` 4, and whether their map is equal to the map of three entries.
const COMPARED: [(&[(u32, u8)], bool); 5] = [
    (&[], false),
    (&[(2, 17), (5, 16)], false),
    (&[(2, 17), (5, 16), (1, 14)], false),
    (&[(2, 17), (5, 16), (1, 14), (1, 15)], true),
    (&FOUR, false),
];

/// Returns whether a map of three entries at `lg_k` 4 is equal to the map of these entries at another `lg_k`, and the
/// other way round.
fn equals_three(alloc: Global, lg_k: u8, entries: &[(u32, u8)]) -> Result<(bool, bool), Error>
    requires least { 4 ≤ lg_k }
    requires most { lg_k ≤ 21 }
{
    let three = map_of(alloc, 4, &THREE)?;
    let map = map_of(alloc, lg_k, entries)?;
    Ok((three == map, map == three))
}

/// Buckets don't matter; `lg_k`, slots and values do.
#[test]
fn equal_by_entries(rt: HostRuntime) {
    for (entries, same) in COMPARED {
        assert_eq!(rt;
            equals_three(rt.alloc(), 4, entries),
            Ok((same, same)),
            "{entries:?}"
        );
    }
    assert_eq!(rt; equals_three(rt.alloc(), 5, &THREE), Ok((false, false)));
}
