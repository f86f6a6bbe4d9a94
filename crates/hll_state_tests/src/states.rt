// SPDX-License-Identifier: Apache-2.0
//! Compares states with sketches of the same coupons, and tries headers with extreme fields and elements that no call wrote.
ghost use Rattle.hll_coupons.specs.Pair.{IsPair};

use hll_base::error::Error;
use hll_base::hll_type::HllType;
use hll_coupons::coupon::Coupon;
use hll_registers::estimate_state::EstimateState;
use hll_sketch::HllSketch;
use hll_state::header::{CouponTable, HEADER_LEN, Header, Held};
use hll_state::memory::{Begun, begin, close, open, resolve};
use hll_state::run::CouponRun;
use std::alloc::{AllocError, Global};
use std::test::Fail;

/// Which coupons are pushed: the coupons of the hashes of 0, 1, .., of seven of these again and again, or coupons that all fall
/// into one bucket of tables.
#[derive(Clone, Copy, Debug)]
enum Source {
    Distinct,
    Repeated,
    OneBucket,
}

/// Returns the coupon that is pushed at an index.
fn coupon_at(source: Source, index: u32) -> Coupon
    ensures { IsPair result }
{
    match source {
        Source::Distinct => Coupon::from_value(index),
        Source::Repeated => Coupon::from_value(index % 7),
        Source::OneBucket => Coupon::from_words(u64::from(index) << 15 | 77, 1),
    }
}

/// Returns a state of no coupons, with as many elements as a header has.
fn new_state(alloc: Global, lg_k: u8) -> Result<Vec<[u8; 4]>, AllocError> {
    let mut elements = vec![in alloc; [0xff; 4]; HEADER_LEN]?;
    let header = Header::new(lg_k);
    if header.is_within(0) {
        close(&mut elements, header);
    }
    Ok(elements)
}

/// Checks whether a state has room for a coupon, and adds the coupon if it has.
fn push_one(elements: &mut [[u8; 4]], raw: u32) -> Begun {
    let begun = begin(elements, 1);
    if let Begun::Room(mut header) = begun {
        header.push(&mut elements[HEADER_LEN..], raw);
        close(elements, header);
    }
    begun
}

/// Returns a copy of elements, followed by others up to `len` elements.
fn grown(alloc: Global, elements: &[[u8; 4]], len: usize) -> Result<Vec<[u8; 4]>, AllocError> {
    let mut larger = vec![in alloc; [0xff; 4]; len.max(elements.len())]?;
    larger[..elements.len()].copy_from_slice(elements);
    Ok(larger)
}

/// Adds a coupon to a state, and gives it the number of elements that it needs. Returns how many times it asked for more: 2 if
/// even these were too few, and the coupon was not added.
fn add(alloc: Global, elements: &mut Vec<[u8; 4]>, raw: u32) -> Result<u32, AllocError> {
    let Begun::NoRoom(len) = push_one(elements, raw) else {
        return Ok(0);
    };
    *elements = grown(alloc, elements, len)?;
    match push_one(elements, raw) {
        Begun::Room(_) => Ok(1),
        Begun::NoState | Begun::NoRoom(_) => Ok(2),
    }
}

/// Returns the bytes of the first `count` elements after a header, or of all if there are fewer.
fn body_bytes(elements: &[[u8; 4]], count: usize) -> &[u8] {
    let body = &elements[HEADER_LEN.min(elements.len())..];
    body[..count.min(body.len())].as_flattened()
}

/// Returns whether a state, once resolved, holds what a sketch holds: the same coupons in the same order, or the same
/// registers.
fn is_same(elements: &mut [[u8; 4]], sketch: &HllSketch) -> Result<bool, Error> {
    let image = sketch.serialize()?;
    let Some(header) = resolve(elements) else {
        return Ok(false);
    };
    Ok(match header.held {
        Held::Coupons(coupons) => {
            sketch.num_coupons() == Some(coupons.run.used)
                && image.ends_with(body_bytes(elements, coupons.run.used))
        }
        Held::Registers(state) => {
            let count = image.len().saturating_sub(40) / 4;
            sketch.num_coupons().is_none()
                && state == EstimateState::CLEARED
                && image.get(40..) == Some(body_bytes(elements, count))
        }
    })
}

/// Adds `count` coupons to a state and to a sketch, and returns how many times the state asked for room. Returns `None` if the
/// two differ at the end. With `each`, they are also compared after each coupon, for which the state is resolved.
fn count_requests(
    alloc: Global,
    lg_k: u8,
    source: Source,
    count: u32,
    each: bool,
) -> Result<Option<u32>, Error> {
    let mut elements = new_state(alloc, lg_k)?;
    let mut sketch = HllSketch::new(alloc, lg_k, HllType::Hll8)?;
    let mut requests = 0u32;
    for index in 0..count {
        let coupon = coupon_at(source, index);
        sketch.update_with_coupon(coupon)?;
        requests = requests.wrapping_add(add(alloc, &mut elements, coupon.raw())?);
        if each && !is_same(&mut elements, &sketch)? {
            return Ok(None);
        }
    }
    let same = is_same(&mut elements, &sketch)?;
    Ok(same.then_some(requests))
}

/// Counts around the numbers of coupons at which tables become registers: more than 24 at `lg_k` 8, more than 96 at `lg_k` 10,
/// else more than 7.
#[test]
fn like_sketches(rt: HostRuntime) -> Result<(), Fail> {
    for lg_k in [4, 7, 8, 10] {
        for source in [Source::Distinct, Source::Repeated, Source::OneBucket] {
            for count in [
                0, 1, 7, 8, 9, 16, 17, 24, 25, 32, 33, 96, 97, 128, 129, 1000,
            ] {
                let requests = count_requests(rt.alloc(), lg_k, source, count, false)?;
                assert!(rt;
                    requests.is_some_and(|it| it <= 6),
                    "{lg_k} {source:?} {count}: {requests:?}"
                );
            }
        }
    }
    Ok(())
}

/// Resolves the state after each coupon.
#[test]
fn like_sketches_after_each_coupon(rt: HostRuntime) -> Result<(), Fail> {
    for lg_k in [4, 7, 8, 10] {
        for source in [Source::Distinct, Source::Repeated, Source::OneBucket] {
            let requests = count_requests(rt.alloc(), lg_k, source, 300, true)?;
            assert!(rt;
                requests.is_some_and(|it| it <= 6),
                "{lg_k} {source:?}: {requests:?}"
            );
        }
    }
    Ok(())
}

/// Returns a table of coupons.
fn table(lg_size: u8, added: bool, run: usize, used: usize) -> Held {
    Held::Coupons(CouponTable {
        lg_size,
        added,
        run: CouponRun { run, used },
    })
}

/// Returns what headers of 2^`lg_k` registers hold, with fields at their limits.
fn extremes(lg_k: u8) -> [Held; 7] {
    let most = 1usize << lg_k.clamp(7, 21) >> 3;
    let greatest = if lg_k < 8 { 3 } else { lg_k - 3 };
    [
        table(3, false, 0, 0),
        table(3, false, 8, 8),
        table(3, true, 0, most),
        table(greatest, true, most, most),
        Held::Registers(EstimateState::CLEARED),
        Held::Registers(EstimateState {
            words: [u64::MAX; 3],
            out_of_order: true,
        }),
        Held::Registers(EstimateState {
            words: [0xffff_ffff, 1 << 63, 1 << 32],
            out_of_order: false,
        }),
    ]
}

/// Returns whether a header is read as it was written, and the element after it is unchanged.
fn is_read_back(header: Header) -> bool {
    let mut elements = [[0xff; 4]; 11];
    if !header.is_within(1 << 20) {
        return false;
    }
    header.write(&mut elements);
    Header::read(&elements) == Some(header) && elements[10] == [0xff; 4]
}

#[test]
fn headers_are_read_back(rt: HostRuntime) -> Result<(), Fail> {
    for lg_k in [4, 7, 8, 21] {
        for widths in [0, 7] {
            for held in extremes(lg_k) {
                let header = Header { lg_k, widths, held };
                assert!(rt; is_read_back(header), "{header:?}");
            }
        }
    }
    Ok(())
}

/// Returns whether `open` reads no header, or one whose fields are within bounds.
fn is_bounded(elements: &[[u8; 4]]) -> bool {
    let Some(header) = open(elements) else {
        return true;
    };
    let room = elements.len().saturating_sub(HEADER_LEN);
    let is_held = match header.held {
        Held::Coupons(coupons) => {
            coupons.lg_size <= 18 && coupons.run.run <= coupons.run.used && coupons.run.used <= room
        }
        Held::Registers(_) => 1usize << header.lg_k.min(21) <= room.saturating_mul(4),
    };
    4 <= header.lg_k && header.lg_k <= 21 && header.widths <= 7 && is_held
}

/// Returns whether 300 coupons are added if the elements are a state, which they remain, and none if they are not.
fn is_still_state(alloc: Global, elements: &mut Vec<[u8; 4]>) -> Result<bool, AllocError> {
    let was_state = open(elements).is_some();
    for index in 0..300 {
        let requests = add(alloc, elements, coupon_at(Source::Distinct, index).raw())?;
        if requests > 1 {
            return Ok(false);
        }
    }
    Ok(is_bounded(elements) && open(elements).is_some() == was_state)
}

/// Returns a number that depends on a seed and an index, small or large.
fn noise(seed: u32, index: u32) -> u32 {
    let mixed = seed.wrapping_mul(0x9e37_79b9) ^ index.wrapping_mul(0x85eb_ca6b);
    let mixed = (mixed ^ (mixed >> 15)).wrapping_mul(0x2c1b_3c6d);
    mixed >> (mixed % 32)
}

/// Returns elements that hold noise, except for the first number, which is that of a state of coupons or of registers.
fn noisy_state(
    alloc: Global,
    held: Held,
    seed: u32,
    room: usize,
) -> Result<Vec<[u8; 4]>, AllocError> {
    let mut elements = vec![in alloc; [0; 4]; room.max(HEADER_LEN)]?;
    let header = Header {
        lg_k: 8,
        widths: 0,
        held,
    };
    if header.is_within(64) {
        header.write(&mut elements);
    }
    let mut index = 0u32;
    for element in elements.iter_mut().skip(1) {
        index = index.wrapping_add(1);
        *element = noise(seed, index).to_le_bytes();
    }
    Ok(elements)
}

/// Some of the elements are a state, at least 20 of 4000.
#[test]
fn noise_after_the_first_number(rt: HostRuntime) -> Result<(), Fail> {
    for held in [
        table(3, false, 0, 0),
        Held::Registers(EstimateState::CLEARED),
    ] {
        let mut states = 0u32;
        for seed in 0..4000 {
            let room = 10 + (noise(seed, 0) % 300) as usize;
            let mut elements = noisy_state(rt.alloc(), held, seed, room)?;
            states = states.wrapping_add(u32::from(open(&elements).is_some()));
            assert!(rt; is_bounded(&elements), "{held:?} {seed}");
            assert!(rt;
                is_still_state(rt.alloc(), &mut elements)?,
                "{held:?} {seed}"
            );
        }
        assert!(rt; states >= 20, "{held:?}: {states}");
    }
    Ok(())
}

/// Numbers that a field of a header may hold, and some that it may not.
const LIMITS: [u32; 15] = [
    0,
    1,
    3,
    4,
    5,
    8,
    18,
    21,
    22,
    32,
    54,
    64,
    74,
    0x8000_0000,
    0xffff_ffff,
];

/// Returns a state of `lg_k` 8 in 74 elements, with one field of its header changed.
fn state_with(
    alloc: Global,
    held: Held,
    field: usize,
    number: u32,
) -> Result<Vec<[u8; 4]>, AllocError> {
    let mut elements = vec![in alloc; [0xa5; 4]; 74]?;
    let header = Header {
        lg_k: 8,
        widths: 7,
        held,
    };
    if header.is_within(64) {
        close(&mut elements, header);
    }
    elements[field.min(73)] = number.to_le_bytes();
    Ok(elements)
}

/// Each field of a header in turn holds each limit. The elements are a state or not, and 300 pushes don't change that.
#[test]
fn limits_of_fields(rt: HostRuntime) -> Result<(), Fail> {
    for held in extremes(8) {
        for field in 0..10 {
            for number in LIMITS {
                let mut elements = state_with(rt.alloc(), held, field, number)?;
                assert!(rt; is_bounded(&elements), "{held:?} {field} {number}");
                assert!(rt;
                    is_still_state(rt.alloc(), &mut elements)?,
                    "{held:?} {field} {number}"
                );
            }
        }
    }
    Ok(())
}

/// Tries no elements, fewer than a header has, and zeros.
#[test]
fn no_states(rt: HostRuntime) -> Result<(), Fail> {
    for len in [0, 1, 9, 10, 500] {
        let mut elements = vec![in rt.alloc(); [0; 4]; len]?;
        assert!(rt; open(&elements).is_none(), "{len}");
        assert_eq!(rt; begin(&mut elements, 1), Begun::NoState);
        assert!(rt; resolve(&mut elements).is_none(), "{len}");
    }
    Ok(())
}
