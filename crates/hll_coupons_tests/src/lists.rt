// SPDX-License-Identifier: Apache-2.0
//! Containers and lists: their coupons, what is written and what is read.
ghost use Rattle.std.specs.Prelude.{◌≡◌, IfOk};

use hll_base::cursor::SketchSlice;
use hll_base::error::{Error, Reason};
use hll_base::hll_type::HllType;
use hll_coupons::container::{Container, Insertion};
use hll_coupons::coupon::Coupon;
use hll_coupons::list::List;
use std::alloc::{Allocator, Global};
use std::test::Fail;

/// The images of a list of `lg_k` 10 and HLL_8 without coupons, and with slot 5 and value 3.
const EMPTY_IMAGE: [u8; 8] = [2, 1, 7, 10, 3, 12, 0, 8];

const IMAGE: [u8; 12] = [2, 1, 7, 10, 3, 8, 1, 8, 5, 0, 0, 12];

/// Adds slot 5 and value 3, if a bucket is free or the list has the coupon.
fn add<A: Allocator>(list: &mut List<A>)
    ensures { list.new.lg_size ≡ list.old.lg_size }
{
    let coupon = Coupon::pack(5, 3);
    if list.contains(coupon) || !list.container().is_full() {
        list.update(coupon);
    }
}

/// Returns a list with slot 5 and value 3, which came twice.
fn list_in(alloc: Global) -> List
    ensures { result.lg_size ≡ 3 }
{
    let mut list = List::default_in(alloc);
    add(&mut list);
    add(&mut list);
    list
}

/// Returns whether the image of a list at `lg_k` 10 and HLL_8 is these bytes, in an allocation of exactly their size.
fn is_written(list: List, image: &[u8]) -> Result<bool, Error>
    requires { list.lg_size ≡ 3 }
{
    let written = list.serialize(10, HllType::Hll8)?;
    Ok(written.as_slice() == image && written.capacity() == image.len())
}

#[test]
fn images(rt: HostRuntime) {
    assert_eq!(rt;
        is_written(List::default_in(rt.alloc()), &EMPTY_IMAGE),
        Ok(true)
    );
    assert_eq!(rt; is_written(list_in(rt.alloc()), &IMAGE), Ok(true));
}

/// A list of two coupons in descending order and a list of the same coupons in ascending order have one image. Their
/// buckets don't change.
const TWO_IMAGE: [u8; 16] = [2, 1, 7, 10, 3, 8, 2, 8, 5, 0, 0, 4, 7, 0, 0, 8];

/// Returns the first coupon of a list of two, if its image is `TWO_IMAGE`.
fn first_of_two(alloc: Global, bytes: &[u8]) -> Result<Option<Coupon>, Error> {
    let list = List::deserialize(alloc, SketchSlice::new(bytes), 3, 2, false, true)?;
    let first = list.container().iter().next();
    Ok(if is_written(list, &TWO_IMAGE)? {
        first
    } else {
        None
    })
}

#[test]
fn written_in_ascending_order(rt: HostRuntime) {
    let descending = [7, 0, 0, 8, 5, 0, 0, 4];
    for (bytes, first) in [
        (descending.as_slice(), Coupon::pack(7, 2)),
        (&TWO_IMAGE[8..], Coupon::pack(5, 1)),
    ] {
        assert_eq!(rt; first_of_two(rt.alloc(), bytes), Ok(Some(first)));
    }
}

/// A container of one empty bucket.
#[test]
fn containers(rt: HostRuntime) -> Result<(), Fail> {
    let buckets = vec![in rt.alloc(); Coupon::EMPTY; 1]?;
    let container = Container::from_coupons(0, buckets, 0);
    assert_eq!(rt; (container.lg_size(), container.capacity()), (0, 1));
    assert!(rt; container.is_empty() && !container.contains(Coupon::pack(5, 3)));
    Ok(())
}

/// Returns whether a list is equal to what a call made, and the other way round.
fn equals(list: &List, made: Result<List, Error>) -> Result<(bool, bool), Error> {
    let other = made?;
    Ok((*list == other, other == *list))
}

/// Returns a list with sixteen buckets, to which the coupon of `add` was added `times` times.
fn larger(alloc: Global, times: u8) -> Result<List, Error> {
    let mut list = List::new(alloc, 4)?;
    for _ in 0..times {
        add(&mut list);
    }
    Ok(list)
}

/// Returns whether the container of a list is equal to its copy.
fn is_copied(list: &List) -> Result<bool, Error> {
    Ok(*list.container() == list.container().clone()?)
}

#[test]
fn sizes_do_not_count(rt: HostRuntime) {
    let list = list_in(rt.alloc());
    assert_eq!(rt; equals(&list, larger(rt.alloc(), 0)), Ok((false, false)));
    assert_eq!(rt; equals(&list, larger(rt.alloc(), 1)), Ok((true, true)));
    assert_eq!(rt; equals(&list, list.clone()), Ok((true, true)));
    assert_eq!(rt; is_copied(&list), Ok(true));
}

/// Two coupons, an empty bucket, and the bytes of the second coupon again.
const BUCKETS: [u8; 16] = [5, 0, 0, 12, 6, 0, 0, 12, 0, 0, 0, 0, 6, 0, 0, 12];

/// Two coupons in descending order, and the second again.
const DESCENDING: [u8; 12] = [6, 0, 0, 12, 5, 0, 0, 12, 5, 0, 0, 12];

/// Returns the number of coupons in these buckets of a list with four buckets, or what is wrong with them.
fn read_in<A: Allocator>(
    alloc: A,
    bytes: &[u8],
    count: usize,
    empty: bool,
    compact: bool,
) -> Result<usize, Reason> {
    match List::deserialize(alloc, SketchSlice::new(bytes), 2, count, empty, compact) {
        Ok(list) => Ok(list.container().len()),
        Err(e) => Err(e.reason()),
    }
}

/// Bytes after a header, the count, the empty flag and the compact flag, and the result: the number of coupons, or what
/// is wrong.
const READINGS: [(&[u8], usize, bool, bool, Result<usize, Reason>); 12] = [
    (&[], 0, true, false, Ok(0)),
    (&[0; 16], 0, false, false, Err(Reason::Count)),
    (&BUCKETS, 5, false, true, Err(Reason::Count)),
    (&BUCKETS, 3, true, true, Err(Reason::Count)),
    (&BUCKETS, 2, false, true, Ok(2)),
    (&BUCKETS, 3, false, true, Err(Reason::Coupon)),
    (&BUCKETS, 3, false, false, Err(Reason::Coupon)),
    (&DESCENDING, 2, false, true, Ok(2)),
    (&DESCENDING, 3, false, true, Err(Reason::Coupon)),
    (&[5; 15], 4, false, true, Err(Reason::Truncated)),
    (&[0; 16], 1, false, false, Err(Reason::Count)),
    (&[255; 4], 1, false, true, Ok(1)),
];

#[test]
fn lists_are_read(rt: HostRuntime) -> Result<(), Fail> {
    let cursor = SketchSlice::new(&BUCKETS);
    let list = List::deserialize(rt.alloc(), cursor, 3, 2, false, true)?;
    let mut coupons = list.container().iter();
    assert_eq!(rt; coupons.next(), Some(Coupon::pack(5, 3)));
    assert_eq!(rt; coupons.next(), Some(Coupon::pack(6, 3)));
    assert_eq!(rt; coupons.next(), None);
    for (bytes, count, empty, compact, wanted) in READINGS {
        assert_eq!(rt;
            read_in(rt.alloc(), bytes, count, empty, compact),
            wanted,
            "{count} {empty} {compact}"
        );
    }
    Ok(())
}

/// Returns what a list does with a coupon of value 3, with a limit on the number of coupons.
fn insertion(list: &mut List, slot: u32, most: usize) -> Option<Insertion> {
    let coupon = Coupon::pack(slot, 3);
    let most = most.min(list.container().capacity());
    if coupon.value() == 0 {
        return None;
    }
    Some(list.update_within(coupon, most))
}

/// Slots, limits on the number of coupons, and what a list does with the coupon.
const INSERTIONS: [(u32, usize, Insertion); 6] = [
    (5, 0, Insertion::Refused),
    (5, 1, Insertion::Added),
    (5, 1, Insertion::Held),
    (6, 1, Insertion::Refused),
    (6, 8, Insertion::Added),
    (5, 1, Insertion::Refused),
];

/// A list accepts a coupon up to the limit, and a coupon that it has unless it has more than the limit already.
#[test]
fn insertions(rt: HostRuntime) {
    let mut list = List::default_in(rt.alloc());
    for (slot, most, wanted) in INSERTIONS {
        assert_eq!(rt;
            insertion(&mut list, slot, most),
            Some(wanted),
            "{slot} {most}"
        );
    }
    assert_eq!(rt; list.container().len(), 2);
}
