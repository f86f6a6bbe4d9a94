// SPDX-License-Identifier: Apache-2.0
//! Sets: buckets along the paths of searches, what is written and read, and allocations only after bytes were checked.
ghost use Rattle.std.specs.Prelude.{◌≡◌, ◌≤◌};

use hll_base::cursor::SketchSlice;
use hll_base::error::{Error, Reason};
use hll_base::hll_type::HllType;
use hll_coupons::container::Insertion;
use hll_coupons::coupon::Coupon;
use hll_coupons::hash_set::HashSet;
use linked_list_allocator::LocalHeap;
use std::alloc::{Allocator, Global};
use std::test::Fail;

/// Adds a coupon, if it has a value, and a bucket is free or the set has it.
fn add<A: Allocator>(set: &mut HashSet<A>, coupon: Coupon) {
    let is_free = set.contains(coupon) || !set.container().is_full();
    if coupon.value() > 0 && is_free {
        set.update(coupon);
    }
}

/// Returns a set of 2^`lg_size` buckets with these coupons.
fn set_of<A: Allocator>(alloc: A, lg_size: usize, coupons: &[Coupon]) -> Result<HashSet<A>, Error>
    requires { lg_size ≤ 26 }
{
    let mut set = HashSet::new(alloc, lg_size)?;
    for coupon in coupons {
        add(&mut set, *coupon);
    }
    Ok(set)
}

/// In four buckets: slots 5 and 1 start at bucket 1, and the second goes on by 1 to bucket 2. Slot 13 starts there too,
/// and goes on by 3 to bucket 0. Slot 9 goes on by 3 through buckets 0 and 3.
fn four() -> [Coupon; 4] {
    [
        Coupon::pack(5, 3),
        Coupon::pack(1, 2),
        Coupon::pack(13, 1),
        Coupon::pack(9, 5),
    ]
}

#[test]
fn buckets(rt: HostRuntime) -> Result<(), Fail> {
    let [first, second, third, fourth] = four();
    let set = set_of(rt.alloc(), 2, &four())?;
    let mut coupons = set.container().iter();
    for coupon in [third, first, second, fourth] {
        assert_eq!(rt; coupons.next(), Some(coupon));
    }
    assert_eq!(rt; coupons.next(), None);
    assert!(rt; set.container().is_full());
    for coupon in four() {
        assert!(rt; set.contains(coupon), "{coupon:?}");
    }
    for coupon in [
        Coupon::EMPTY,
        Coupon::pack(5, 4),
        Coupon::pack(6, 3),
        Coupon::pack(17, 1),
    ] {
        assert!(rt; !set.contains(coupon), "{coupon:?}");
    }
    Ok(())
}

/// Returns whether the set of `four` is equal to the set of these coupons in 2^`lg_size` buckets, and the other way
/// round.
fn equals_four(alloc: Global, lg_size: usize, coupons: &[Coupon]) -> Result<(bool, bool), Error>
    requires { lg_size ≤ 26 }
{
    let set = set_of(alloc, 2, &four())?;
    let other = set_of(alloc, lg_size, coupons)?;
    Ok((set == other, other == set))
}

/// Returns whether a set is equal to its copy.
fn is_copied(alloc: Global) -> Result<bool, Error> {
    let set = set_of(alloc, 2, &four())?;
    Ok(set == set.clone()?)
}

/// Returns whether a new set is equal to a set of one bucket.
fn new_sets_are_equal(alloc: Global) -> Result<bool, Error> {
    let set = HashSet::default_in(alloc)?;
    Ok(set == HashSet::new(alloc, 0)?)
}

#[test]
fn sizes_and_buckets_do_not_count(rt: HostRuntime) {
    let [first, second, third, fourth] = four();
    let turned = [fourth, third, second, first, fourth];
    assert_eq!(rt; equals_four(rt.alloc(), 2, &turned), Ok((true, true)));
    assert_eq!(rt; equals_four(rt.alloc(), 5, &turned), Ok((true, true)));
    assert_eq!(rt;
        equals_four(rt.alloc(), 2, &turned[..3]),
        Ok((false, false))
    );
    let other = [first, second, third, Coupon::pack(9, 6)];
    assert_eq!(rt; equals_four(rt.alloc(), 2, &other), Ok((false, false)));
    assert_eq!(rt; is_copied(rt.alloc()), Ok(true));
    assert_eq!(rt; new_sets_are_equal(rt.alloc()), Ok(true));
}

/// The image of a set of `lg_k` 12 and HLL_8 with slots 16 to 23 and values 1 to 8, in 32 buckets.
const EIGHT_IMAGE: [u8; 44] = [
    3, 1, 7, 12, 5, 8, 0, 9, 8, 0, 0, 0, 16, 0, 0, 4, 17, 0, 0, 8, 18, 0, 0, 12, 19, 0, 0, 16, 20,
    0, 0, 20, 21, 0, 0, 24, 22, 0, 0, 28, 23, 0, 0, 32,
];

/// Returns the set of this image, made with its coupons in another order.
fn eight_in(alloc: Global) -> Result<HashSet, Error> {
    let mut set = HashSet::default_in(alloc)?;
    for value in [3, 1, 2, 8, 7, 6, 5, 4] {
        add(&mut set, Coupon::pack(15 + value as u32, value));
    }
    Ok(set)
}

/// Returns the image of a set of 32 buckets, or `None` if the set has another size or no empty bucket.
fn image_of(set: &HashSet) -> Result<Option<Vec<u8>>, Error> {
    if set.container().lg_size() != 5 || set.container().is_full() {
        return Ok(None);
    }
    Ok(Some(set.serialize(12, HllType::Hll8)?))
}

/// Returns whether the image of a set is this one, in an allocation of exactly its size.
fn is_written(set: &HashSet, image: &[u8]) -> Result<bool, Error> {
    match image_of(set)? {
        Some(written) => Ok(written.as_slice() == image && written.capacity() == image.len()),
        None => Ok(false),
    }
}

/// Returns whether a set is read from an image.
fn is_read(set: &HashSet, alloc: Global, image: &[u8; 44]) -> Result<bool, Error> {
    let cursor = SketchSlice::new(&image[8..]);
    Ok(HashSet::deserialize(alloc, cursor, 5, true)? == *set)
}

#[test]
fn images(rt: HostRuntime) -> Result<(), Fail> {
    let set = eight_in(rt.alloc())?;
    assert_eq!(rt; is_written(&set, &EIGHT_IMAGE), Ok(true));
    assert_eq!(rt; is_read(&set, rt.alloc(), &EIGHT_IMAGE), Ok(true));
    Ok(())
}

/// The count 2, a bucket, and two coupons.
const BUCKETS: [u8; 20] = [2, 0, 0, 0, 0, 0, 0, 0, 5, 0, 0, 12, 0, 0, 0, 0, 1, 0, 0, 8];

/// Four coupons after the count 3.
const CROWDED: [u8; 20] = [
    3, 0, 0, 0, 5, 0, 0, 12, 1, 0, 0, 8, 13, 0, 0, 4, 9, 0, 0, 20,
];

/// Returns the number of coupons in these bytes after the header of a set with four buckets, or what is wrong with
/// them.
fn read_in<A: Allocator + Clone>(alloc: A, bytes: &[u8], compact: bool) -> Result<usize, Reason> {
    match HashSet::deserialize(alloc, SketchSlice::new(bytes), 2, compact) {
        Ok(set) => Ok(set.container().len()),
        Err(e) => Err(e.reason()),
    }
}

/// Bytes after a header, the compact flag, and the result: the number of coupons, or what is wrong.
const READINGS: [(&[u8], bool, Result<usize, Reason>); 15] = [
    (&[0; 4], true, Ok(0)),
    (&[0; 20], false, Ok(0)),
    (&[0; 3], true, Err(Reason::Truncated)),
    (&[4, 0, 0, 0], true, Err(Reason::Count)),
    (&[255; 4], false, Err(Reason::Count)),
    (&[1, 0, 0, 0, 5, 0, 0], true, Err(Reason::Truncated)),
    (&[0; 19], false, Err(Reason::Truncated)),
    (&[1, 0, 0, 0, 5, 0, 0, 12, 9], true, Ok(1)),
    (&[1, 0, 0, 0, 5, 0, 0, 0], true, Err(Reason::Coupon)),
    (&BUCKETS, false, Ok(2)),
    (&BUCKETS, true, Err(Reason::Coupon)),
    (&CROWDED, true, Ok(3)),
    (&CROWDED, false, Err(Reason::Count)),
    (
        &[2, 0, 0, 0, 5, 0, 0, 12, 5, 0, 0, 12],
        true,
        Err(Reason::Coupon),
    ),
    (
        &[1, 0, 0, 0, 5, 0, 0, 12, 5, 0, 0, 12, 0, 0, 0, 0, 0, 0, 0, 0],
        false,
        Err(Reason::Coupon),
    ),
];

#[test]
fn sets_are_read(rt: HostRuntime) -> Result<(), Fail> {
    for (bytes, compact, wanted) in READINGS {
        assert_eq!(rt;
            read_in(rt.alloc(), bytes, compact),
            wanted,
            "{bytes:?} {compact}"
        );
    }
    let cursor = SketchSlice::new(&BUCKETS);
    let set = HashSet::deserialize(rt.alloc(), cursor, 2, false)?;
    assert!(rt; set.contains(Coupon::pack(5, 3)) && set.contains(Coupon::pack(1, 2)));
    Ok(())
}

/// The count 31, and slots 0 to 30 with value 1: they are inserted into 32 buckets, and none is left out.
#[test]
fn one_bucket_is_left(rt: HostRuntime) -> Result<(), Fail> {
    let mut bytes = vec![in rt.alloc(); 0u8; 128]?;
    bytes[0] = 31;
    for slot in 0..31usize {
        bytes[4 + 4 * slot] = slot as u8;
        bytes[7 + 4 * slot] = 4;
    }
    let cursor = SketchSlice::new(&bytes);
    let set = HashSet::deserialize(rt.alloc(), cursor, 5, true)?;
    assert_eq!(rt;
        (set.container().len(), set.container().is_full()),
        (31, false)
    );
    for slot in 0..31u32 {
        assert!(rt; set.contains(Coupon::pack(slot, 1)), "{slot}");
    }
    assert!(rt; !set.contains(Coupon::pack(31, 1)));
    Ok(())
}

/// Buckets for 2^26 coupons are allocated only after the bytes were checked.
#[test]
fn bytes_come_before_memory(rt: HostRuntime) -> Result<(), Fail> {
    let heap = LocalHeap::new(rt.alloc(), 64)?;
    for compact in [true, false] {
        let cursor = SketchSlice::new(&[255, 255, 255, 3, 5, 0, 0, 12]);
        let read = HashSet::deserialize(&heap, cursor, 26, compact);
        assert_eq!(rt; read.err().map(|e| e.reason()), Some(Reason::Truncated));
    }
    Ok(())
}

/// Returns what a set does with a coupon of value 3, with a limit on the number of coupons.
fn insertion(set: &mut HashSet, slot: u32, most: usize) -> Option<Insertion> {
    let coupon = Coupon::pack(slot, 3);
    let most = most.min(set.container().capacity());
    if coupon.value() == 0 {
        return None;
    }
    Some(set.update_within(coupon, most))
}

/// Slots, limits on the number of coupons, and what a set of two buckets does with the coupon.
const INSERTIONS: [(u32, usize, Insertion); 7] = [
    (5, 0, Insertion::Refused),
    (5, 2, Insertion::Added),
    (6, 1, Insertion::Refused),
    (6, 2, Insertion::Added),
    (5, 2, Insertion::Held),
    (7, 2, Insertion::Refused),
    (5, 1, Insertion::Refused),
];

/// A full set accepts no new coupon. It returns `Held` for a coupon that it has, or `Refused` if the limit is lower
/// than its count.
#[test]
fn insertions(rt: HostRuntime) -> Result<(), Fail> {
    let mut set = HashSet::new(rt.alloc(), 1)?;
    for (slot, most, wanted) in INSERTIONS {
        assert_eq!(rt;
            insertion(&mut set, slot, most),
            Some(wanted),
            "{slot} {most}"
        );
    }
    assert_eq!(rt; set.container().len(), 2);
    Ok(())
}
