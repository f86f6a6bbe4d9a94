// SPDX-License-Identifier: Apache-2.0
//! Tables of coupons, and maps of exceptions.
ghost use Rattle.std.specs.Prelude.{◌≤◌};

use crate::harness::{Heap, Trial, requests_of, shown, text};
use hll_base::codec::SketchBytes;
use hll_base::cursor::SketchSlice;
use hll_base::error::Error;
use hll_base::hll_type::HllType;
use hll_coupons::aux_map::AuxMap;
use hll_coupons::container::{Container, with_coupons};
use hll_coupons::coupon::Coupon;
use hll_coupons::hash_set::HashSet;
use hll_coupons::list::List;
use hll_text::fault::Fault;
use std::test::Fail;

/// The part after the header of images of a list and of a set: three coupons, those of the set after their count.
const LISTED: [u8; 12] = [5, 0, 0, 12, 6, 0, 0, 12, 7, 0, 0, 4];

const COUNTED: [u8; 16] = [3, 0, 0, 0, 5, 0, 0, 12, 6, 0, 0, 12, 7, 0, 0, 4];

#[derive(Clone, Copy, Debug)]
enum TableCall {
    NewContainer,
    NewList,
    NewSet,
    DefaultSet,
    CloneContainer,
    CloneList,
    CloneSet,
    CloneContainerIn,
    CloneListIn,
    CloneSetIn,
    WithCoupons,
    FromContainer,
    SerializeList,
    SerializeSet,
    DeserializeList,
    DeserializeSet,
}

/// A call on a list and a set of some size, with coupons at the slots from 0 on.
#[derive(Drop)]
struct TableTrial<'h> {
    heap: &'h Heap,
    lg_size: usize,
    count: u32,
    call: TableCall,
}

/// Returns a set of 64 buckets with the coupons of a list, which has no more than that.
fn set_of<'h>(heap: &'h Heap, list: &List<&'h Heap>) -> Result<HashSet<&'h Heap>, Fault> {
    if list.container().len() > 64 {
        return Err(Fault::Range);
    }
    Ok(HashSet::from_container(heap, 6, list.container())?)
}

/// Returns the image of a list of eight buckets.
fn list_image<'h>(list: &List<&'h Heap>) -> Result<Vec<u8, &'h Heap>, Fault> {
    if list.container().lg_size() != 3 {
        return Err(Fault::Range);
    }
    Ok(list.serialize(10, HllType::Hll8)?)
}

/// Returns the image of a set of 32 buckets that is not full.
fn set_image<'h>(set: &HashSet<&'h Heap>) -> Result<Vec<u8, &'h Heap>, Fault> {
    if set.container().lg_size() != 5 || set.container().is_full() {
        return Err(Fault::Range);
    }
    Ok(set.serialize(10, HllType::Hll8)?)
}

/// Returns a buffer made without room, to which three coupons are appended.
fn three_coupons(heap: &Heap) -> Result<SketchBytes<&Heap>, Error> {
    let coupons = [Coupon::pack(5, 3), Coupon::pack(6, 3), Coupon::pack(7, 1)];
    with_coupons(SketchBytes::with_capacity(heap, 0)?, &coupons)
}

impl<'h> TableTrial<'h> {
    /// Returns the size, at most that of the largest table.
    fn size(&self) -> usize
        ensures { result ≤ 26 }
    {
        self.lg_size.min(26)
    }
}

impl<'h> Trial for TableTrial<'h> {
    type Subject = (List<&'h Heap>, HashSet<&'h Heap>);

    fn make(&self) -> Result<(List<&'h Heap>, HashSet<&'h Heap>), Fault> {
        let mut list = List::new(self.heap, self.size())?;
        let mut set = HashSet::new(self.heap, self.size())?;
        for slot in 0..self.count {
            if !list.container().is_full() {
                list.update(Coupon::pack(slot, 1));
            }
            if !set.container().is_full() {
                set.update(Coupon::pack(slot, 1));
            }
        }
        Ok((list, set))
    }

    fn call(&self, tables: &mut (List<&'h Heap>, HashSet<&'h Heap>)) -> Result<String, Fault> {
        let (heap, lg_size) = (self.heap, self.size());
        let (list, set) = tables;
        let (listed, counted) = (SketchSlice::new(&LISTED), SketchSlice::new(&COUNTED));
        match self.call {
            TableCall::NewContainer => shown(heap, Container::new(heap, lg_size)),
            TableCall::NewList => shown(heap, List::new(heap, lg_size)),
            TableCall::NewSet => shown(heap, HashSet::new(heap, lg_size)),
            TableCall::DefaultSet => shown(heap, HashSet::default_in(heap)),
            TableCall::CloneContainer => shown(heap, list.container().clone()),
            TableCall::CloneList => shown(heap, list.clone()),
            TableCall::CloneSet => shown(heap, set.clone()),
            TableCall::CloneContainerIn => shown(heap, set.container().clone_in(heap)),
            TableCall::CloneListIn => shown(heap, list.clone_in(heap)),
            TableCall::CloneSetIn => shown(heap, set.clone_in(heap)),
            TableCall::WithCoupons => shown(heap, three_coupons(heap)),
            TableCall::FromContainer => text(heap, &set_of(heap, list)?),
            TableCall::SerializeList => text(heap, &list_image(list)?),
            TableCall::SerializeSet => text(heap, &set_image(set)?),
            TableCall::DeserializeList => {
                shown(
                    heap,
                    List::deserialize(heap, listed, lg_size, 3, false, true),
                )
            }
            TableCall::DeserializeSet => {
                shown(heap, HashSet::deserialize(heap, counted, lg_size, true))
            }
        }
    }

    fn show(&self, tables: &(List<&'h Heap>, HashSet<&'h Heap>)) -> Result<String, Fault> {
        text(self.heap, tables)
    }
}

/// Sizes and numbers of coupons. Eight buckets allocate nothing.
const TABLES: [(usize, u32); 5] = [(2, 3), (3, 0), (3, 8), (4, 8), (5, 31)];

/// The calls, and the requests of each on tables of these sizes. The image of a list has eight buckets, that of a set
/// 32; each allocates a sorted copy and the bytes.
const TABLE_CALLS: [(TableCall, [u64; 5]); 16] = [
    (TableCall::NewContainer, [1, 0, 0, 1, 1]),
    (TableCall::NewList, [1, 0, 0, 1, 1]),
    (TableCall::NewSet, [1, 0, 0, 1, 1]),
    (TableCall::DefaultSet, [1, 1, 1, 1, 1]),
    (TableCall::CloneContainer, [1, 0, 0, 1, 1]),
    (TableCall::CloneList, [1, 0, 0, 1, 1]),
    (TableCall::CloneSet, [1, 0, 0, 1, 1]),
    (TableCall::CloneContainerIn, [1, 0, 0, 1, 1]),
    (TableCall::CloneListIn, [1, 0, 0, 1, 1]),
    (TableCall::CloneSetIn, [1, 0, 0, 1, 1]),
    (TableCall::WithCoupons, [2; 5]),
    (TableCall::FromContainer, [1, 1, 1, 1, 1]),
    (TableCall::SerializeList, [0, 1, 2, 0, 0]),
    (TableCall::SerializeSet, [0, 0, 0, 0, 2]),
    (TableCall::DeserializeList, [1, 0, 0, 1, 1]),
    (TableCall::DeserializeSet, [1, 0, 0, 1, 1]),
];

#[test]
fn refused_tables(rt: HostRuntime) -> Result<(), Fail> {
    let heap = Heap::new(rt.alloc());
    for (call, requests) in TABLE_CALLS {
        for ((lg_size, count), requests) in TABLES.into_iter().zip(requests) {
            let trial = TableTrial {
                heap: &heap,
                lg_size,
                count,
                call,
            };
            let asked = requests_of(&rt, &heap, &trial);
            assert_eq!(rt; asked, Ok(requests), "{call:?} {lg_size} {count}");
        }
    }
    Ok(())
}

#[derive(Clone, Copy, Debug)]
enum PathCall {
    Read,
    PutAgain,
}

/// A call on a set of 128 buckets with 127 coupons, all but one of which begin at one bucket and have one stride.
#[derive(Drop)]
struct PathTrial<'h> {
    heap: &'h Heap,
    call: PathCall,
}

/// Returns the count and the coupons, as they are after the header of an image.
fn path_image(heap: &Heap) -> Result<Vec<u8>, Fault> {
    let mut bytes = Vec::new(heap.inner());
    bytes.extend_from_slice(&u32::to_le_bytes(127))?;
    for index in 0..127u32 {
        let slot = (15 - index / 63 % 2) * 128 + index / 126;
        let coupon = Coupon::pack(slot, (index % 63) as u8 + 1);
        bytes.extend_from_slice(&u32::to_le_bytes(coupon.raw()))?;
    }
    Ok(bytes)
}

/// Returns the set of that image.
fn path_set<'h>(heap: &'h Heap) -> Result<HashSet<&'h Heap>, Fault> {
    let image = path_image(heap)?;
    Ok(HashSet::deserialize(heap, SketchSlice::new(&image), 7, true)?)
}

/// Returns the coupons of a set in another table of the same size, inserted in the order of their buckets.
fn put_again<'h>(heap: &'h Heap, set: &HashSet<&'h Heap>) -> Result<HashSet<&'h Heap>, Fault> {
    if set.container().len() > 128 {
        return Err(Fault::Range);
    }
    Ok(HashSet::from_container(heap, 7, set.container())?)
}

impl<'h> Trial for PathTrial<'h> {
    type Subject = HashSet<&'h Heap>;

    fn make(&self) -> Result<HashSet<&'h Heap>, Fault> {
        path_set(self.heap)
    }

    fn call(&self, set: &mut HashSet<&'h Heap>) -> Result<String, Fault> {
        match self.call {
            PathCall::Read => text(self.heap, &path_set(self.heap)?),
            PathCall::PutAgain => text(self.heap, &put_again(self.heap, set)?),
        }
    }

    fn show(&self, set: &HashSet<&'h Heap>) -> Result<String, Fault> {
        text(self.heap, set)
    }
}

/// The calls, and the requests of each: the buckets, and three for the cycle of the stride. Reading also allocates the
/// buckets of a first try, a copy of the coupons, and a sorted copy.
const PATH_CALLS: [(PathCall, u64); 2] = [(PathCall::Read, 7), (PathCall::PutAgain, 4)];

#[test]
fn refused_paths(rt: HostRuntime) -> Result<(), Fail> {
    let heap = Heap::new(rt.alloc());
    for (call, requests) in PATH_CALLS {
        let trial = PathTrial { heap: &heap, call };
        let asked = requests_of(&rt, &heap, &trial);
        assert_eq!(rt; asked, Ok(requests), "{call:?}");
    }
    Ok(())
}

#[derive(Clone, Copy, Debug)]
enum MapCall {
    New,
    Insert,
    Clone,
    Ascending,
}

/// A call on a map of sixteen slots, with values at the slots from 0 on.
#[derive(Drop)]
struct MapTrial<'h> {
    heap: &'h Heap,
    count: u32,
    call: MapCall,
}

/// Sets the value of one of sixteen slots, unless it has one.
fn put(map: &mut AuxMap<&Heap>, slot: u32) -> Result<(), Fault> {
    if map.lg_config_k() == 4 && slot < 16 && map.get(slot).is_none() {
        map.insert(slot, 20)?;
    }
    Ok(())
}

impl<'h> Trial for MapTrial<'h> {
    type Subject = AuxMap<&'h Heap>;

    fn make(&self) -> Result<AuxMap<&'h Heap>, Fault> {
        let mut map = AuxMap::new(self.heap, 4)?;
        for slot in 0..self.count {
            put(&mut map, slot)?;
        }
        Ok(map)
    }

    fn call(&self, map: &mut AuxMap<&'h Heap>) -> Result<String, Fault> {
        match self.call {
            MapCall::New => shown(self.heap, AuxMap::new(self.heap, 4)),
            MapCall::Clone => shown(self.heap, map.clone()),
            MapCall::Ascending => shown(self.heap, map.ascending(self.heap)),
            MapCall::Insert => {
                put(map, self.count)?;
                Ok(String::new(self.heap.inner()))
            }
        }
    }

    fn show(&self, map: &AuxMap<&'h Heap>) -> Result<String, Fault> {
        text(self.heap, map)
    }
}

/// Numbers of entries. Tables have 4, 8, 16 and 32 buckets, of which eight need no allocation. The fourth, the seventh
/// and the thirteenth entry make them grow.
const MAPS: [u32; 7] = [0, 2, 3, 5, 6, 7, 12];

/// The calls, and the requests of each on maps of these numbers.
const MAP_CALLS: [(MapCall, [u64; 7]); 4] = [
    (MapCall::New, [1, 1, 1, 1, 1, 1, 1]),
    (MapCall::Insert, [0, 0, 0, 0, 1, 0, 1]),
    (MapCall::Clone, [1, 1, 1, 0, 0, 1, 1]),
    (MapCall::Ascending, [0, 1, 1, 1, 1, 1, 1]),
];

#[test]
fn refused_maps(rt: HostRuntime) -> Result<(), Fail> {
    let heap = Heap::new(rt.alloc());
    for (call, requests) in MAP_CALLS {
        for (count, requests) in MAPS.into_iter().zip(requests) {
            let trial = MapTrial {
                heap: &heap,
                count,
                call,
            };
            let asked = requests_of(&rt, &heap, &trial);
            assert_eq!(rt; asked, Ok(requests), "{call:?} {count}");
        }
    }
    Ok(())
}
