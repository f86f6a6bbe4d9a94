// SPDX-License-Identifier: Apache-2.0
//! Registers of each width.
use crate::harness::{Heap, Trial, requests_of, shown, text};
use hll_arrays::array4::Array4;
use hll_arrays::array6::Array6;
use hll_arrays::array8::Array8;
use hll_arrays::aux_format::AuxFormat;
use hll_arrays::convert::convert;
use hll_arrays::estimate_state::EstimateState;
use hll_arrays::merge::merge_from;
use hll_arrays::register_store::RegisterStore;
use hll_base::cursor::SketchSlice;
use hll_coupons::coupon::Coupon;
use hll_text::fault::Fault;
use std::fmt::Debug;
use std::marker::PhantomData;
use std::process::Abort;
use std::test::Fail;

/// Registers that have three exceptions as 4-bit registers, above a minimum of 0 and of 1.
const LOW: [u8; 16] = [0, 0, 1, 2, 63, 0, 15, 0, 40, 0, 0, 0, 14, 0, 0, 0];

const RAISED: [u8; 16] = [1, 1, 1, 2, 63, 1, 16, 1, 40, 1, 1, 1, 14, 1, 1, 1];

/// Returns registers with these values, made by updates.
fn store_in<'h, S: RegisterStore<&'h Heap>>(heap: &'h Heap, values: &[u8; 16]) -> Result<S, Fault> {
    let mut store = S::make(heap, 4)?;
    for (slot, value) in (0u32..).zip(values) {
        store.put_coupon(Coupon::pack(slot, (*value).min(63)))?;
    }
    Ok(store)
}

#[derive(Clone, Copy, Debug)]
enum StoreCall {
    Make,
    WriteImage,
    Convert,
    PutCoupon,
    Restore,
}

/// A call on registers of any width, with the same registers at 8 bits as another argument.
#[derive(Drop)]
struct StoreTrial<'h, S> {
    heap: &'h Heap,
    values: [u8; 16],
    coupon: Coupon,
    call: StoreCall,
    store: PhantomData<S>,
}

impl<'h, S: RegisterStore<&'h Heap> + Debug> Trial for StoreTrial<'h, S> {
    type Subject = (S, Array8<&'h Heap>);

    fn make(&self) -> Result<(S, Array8<&'h Heap>), Fault> {
        let store = store_in(self.heap, &self.values)?;
        Ok((store, store_in(self.heap, &self.values)?))
    }

    fn call(&self, stores: &mut (S, Array8<&'h Heap>)) -> Result<String, Fault> {
        let heap = self.heap;
        let (store, eight) = stores;
        match self.call {
            StoreCall::Make => shown(heap, S::make(heap, 4)),
            StoreCall::WriteImage => shown(heap, store.write_image()),
            StoreCall::Convert => shown(heap, convert::<S, _>(eight)),
            StoreCall::PutCoupon => shown(heap, store.put_coupon(self.coupon)),
            StoreCall::Restore => {
                store.restore(EstimateState {
                    words: [1, 2, 3],
                    out_of_order: false,
                });
                Ok(String::new(heap.inner()))
            }
        }
    }

    fn show(&self, stores: &(S, Array8<&'h Heap>)) -> Result<String, Fault> {
        text(self.heap, stores)
    }
}

/// Returns the requests of a call on registers of one width.
fn store_asks<'h, S: RegisterStore<&'h Heap> + Debug>(
    rt: &impl Abort,
    heap: &'h Heap,
    values: [u8; 16],
    coupon: Coupon,
    call: StoreCall,
) -> Result<u64, Fault> {
    let trial: StoreTrial<'h, S> = StoreTrial {
        heap,
        values,
        coupon,
        call,
        store: PhantomData,
    };
    requests_of(rt, heap, &trial)
}

/// The calls, and the requests of each on 4-bit registers: empty ones, and the two above. Registers with exceptions
/// allocate a map and its table, and a sorted copy for their image. At other widths, new registers and an image need
/// one request each.
const STORE_CALLS: [(StoreCall, [u64; 3], u64); 5] = [
    (StoreCall::Make, [1, 1, 1], 1),
    (StoreCall::WriteImage, [1, 2, 2], 1),
    (StoreCall::Convert, [1, 3, 3], 1),
    (StoreCall::PutCoupon, [0, 0, 0], 0),
    (StoreCall::Restore, [0, 0, 0], 0),
];

#[test]
fn refused_stores(rt: HostRuntime) -> Result<(), Fail> {
    let heap = Heap::new(rt.alloc());
    let coupon = Coupon::pack(1, 9);
    for (call, four_bits, others) in STORE_CALLS {
        for (values, requests) in [[0; 16], LOW, RAISED].into_iter().zip(four_bits) {
            let asked = [
                store_asks::<Array4<&Heap>>(&rt, &heap, values, coupon, call),
                store_asks::<Array6<&Heap>>(&rt, &heap, values, coupon, call),
                store_asks::<Array8<&Heap>>(&rt, &heap, values, coupon, call),
            ];
            assert_eq!(rt; asked, [Ok(requests), Ok(others), Ok(others)], "{call:?}");
        }
    }
    Ok(())
}

/// 4-bit registers, an update, and the requests that it makes.
const UPDATES: [([u8; 16], u32, u8, u64); 12] = [
    // a first exception, in a map with a table of four buckets, and a value below it that is no exception
    ([0; 16], 0, 20, 2),
    ([0; 16], 0, 14, 0),
    // another value for a slot that has an exception, and a value that is not greater
    ([20, 0, 0, 0, 0, 0, 0, 0, 0, 0, 0, 0, 0, 0, 0, 0], 0, 21, 0),
    ([20, 0, 0, 0, 0, 0, 0, 0, 0, 0, 0, 0, 0, 0, 0, 0], 0, 20, 0),
    // a rise of the minimum after which no exception is left, one of two is left, and both are left
    ([15, 1, 1, 1, 1, 1, 1, 1, 1, 1, 1, 1, 1, 1, 1, 0], 15, 1, 0),
    ([15, 63, 1, 1, 1, 1, 1, 1, 1, 1, 1, 1, 1, 1, 1, 0], 15, 1, 2),
    ([20, 63, 1, 1, 1, 1, 1, 1, 1, 1, 1, 1, 1, 1, 1, 0], 15, 1, 0),
    // a rise whose own slot becomes an exception, alone and with another one
    ([1, 1, 1, 1, 1, 1, 1, 1, 1, 1, 1, 1, 1, 1, 1, 0], 15, 63, 2),
    ([20, 1, 1, 1, 1, 1, 1, 1, 1, 1, 1, 1, 1, 1, 1, 0], 15, 63, 2),
    // fifteen exceptions, and a rise after which none is left, one is left, and all are left
    (
        [
            20, 20, 20, 20, 20, 20, 20, 20, 20, 20, 20, 20, 20, 20, 20, 0,
        ],
        15,
        20,
        0,
    ),
    (
        [
            63, 20, 20, 20, 20, 20, 20, 20, 20, 20, 20, 20, 20, 20, 20, 0,
        ],
        15,
        20,
        2,
    ),
    (
        [
            20, 20, 20, 20, 20, 20, 20, 20, 20, 20, 20, 20, 20, 20, 20, 0,
        ],
        15,
        1,
        0,
    ),
];

/// The requests of each further exception, from the first to the thirteenth: for tables of 4, 16 and 32 buckets. Eight
/// buckets need no allocation.
const EXCEPTIONS: [u64; 13] = [2, 0, 0, 0, 0, 0, 1, 0, 0, 0, 0, 0, 1];

#[test]
fn refused_updates(rt: HostRuntime) -> Result<(), Fail> {
    let heap = Heap::new(rt.alloc());
    let put = StoreCall::PutCoupon;
    for (values, slot, value, requests) in UPDATES {
        let coupon = Coupon::pack(slot, value.min(63));
        let asked = store_asks::<Array4<&Heap>>(&rt, &heap, values, coupon, put);
        assert_eq!(rt; asked, Ok(requests), "{values:?} {slot} {value}");
    }
    let mut values = [0; 16];
    for (slot, requests) in EXCEPTIONS.into_iter().enumerate() {
        let coupon = Coupon::pack(slot as u32, 20);
        let asked = store_asks::<Array4<&Heap>>(&rt, &heap, values, coupon, put);
        assert_eq!(rt; asked, Ok(requests), "{slot}");
        values[slot] = 20;
    }
    Ok(())
}

#[derive(Clone, Copy, Debug)]
enum ArrayCall {
    Clone4,
    Clone6,
    Clone8,
    CloneIn8,
    Deserialize4,
    Deserialize4InPlaces,
    Deserialize4Low,
    Deserialize4LowWithException,
    Deserialize4OnAPath,
    Deserialize6,
    Deserialize8,
    MergeFrom,
}

/// A call on registers of each width. At 4 bits they have three exceptions.
#[derive(Drop)]
struct ArrayTrial<'h> {
    heap: &'h Heap,
    call: ArrayCall,
}

/// Registers of each width.
type Arrays<'h> = (Array4<&'h Heap>, Array6<&'h Heap>, Array8<&'h Heap>);

/// The part of an image of 4-bit registers after the header: the fields, the counts, nibbles, and a table of eight
/// buckets.
const PAYLOAD: [u8; 72] = [
    0, 0, 0, 0, 0, 0, 0, 0, 0, 0, 0, 0, 0, 0, 0, 0, 0, 0, 0, 0, 0, 0, 0, 0, 13, 0, 0, 0, 2, 0, 0,
    0, 0xff, 1, 0, 0, 0, 0, 0, 0, 0, 0, 0, 80, 1, 0, 0, 64, 0, 0, 0, 0, 0, 0, 0, 0, 0, 0, 0, 0, 0,
    0, 0, 0, 0, 0, 0, 0, 0, 0, 0, 0,
];

/// A payload of 4-bit registers with a minimum of 0, all of which are above it, without an exception. Reading raises
/// the minimum to 1.
const LOW_PAYLOAD: [u8; 40] = [
    0, 0, 0, 0, 0, 0, 0, 0, 0, 0, 0, 0, 0, 0, 0, 0, 0, 0, 0, 0, 0, 0, 0, 0, 0, 0, 0, 0, 0, 0, 0, 0,
    0x11, 0x11, 0x11, 0x11, 0x11, 0x11, 0x11, 0x21,
];

/// A payload of 4-bit registers with a minimum of 0, all of which are above it, with an exception of 40, which stays
/// one, and an exception of 15, which doesn't.
const LOW_PAYLOAD_WITH_EXCEPTIONS: [u8; 48] = [
    0, 0, 0, 0, 0, 0, 0, 0, 0, 0, 0, 0, 0, 0, 0, 0, 0, 0, 0, 0, 0, 0, 0, 0, 0, 0, 0, 0, 2, 0, 0, 0,
    0xff, 0x11, 0x11, 0x11, 0x11, 0x11, 0x11, 0x21, 0, 0, 0, 160, 1, 0, 0, 60,
];

/// The part after the header of images of 6-bit and 8-bit registers that are 0.
const ZEROS: [u8; 48] = [
    0, 0, 0, 0, 0, 0, 0, 0, 0, 0, 0, 0, 0, 0, 0, 0, 0, 0, 0, 0, 0, 0, 0, 0, 16, 0, 0, 0, 0, 0, 0,
    0, 0, 0, 0, 0, 0, 0, 0, 0, 0, 0, 0, 0, 0, 0, 0, 0,
];

/// Returns a payload of 2^11 4-bit registers and 768 exceptions in 1,024 buckets. Two start at each of the first 384
/// buckets, so searches are long.
fn path_payload(heap: &Heap) -> Result<Vec<u8>, Fault> {
    let mut bytes = Vec::new(heap.inner());
    bytes.extend_from_slice(&[0; 28])?;
    bytes.extend_from_slice(&u32::to_le_bytes(768))?;
    for _ in 0..2u8 {
        bytes.extend_from_slice(&[0xff; 192])?;
        bytes.extend_from_slice(&[0; 320])?;
    }
    for index in 0..768u32 {
        let coupon = Coupon::pack(index % 384 + index / 384 * 1024, 20);
        bytes.extend_from_slice(&u32::to_le_bytes(coupon.raw()))?;
    }
    Ok(bytes)
}

impl<'h> Trial for ArrayTrial<'h> {
    type Subject = Arrays<'h>;

    fn make(&self) -> Result<Arrays<'h>, Fault> {
        let four = store_in(self.heap, &LOW)?;
        let six = store_in(self.heap, &LOW)?;
        Ok((four, six, store_in(self.heap, &RAISED)?))
    }

    fn call(&self, arrays: &mut Arrays<'h>) -> Result<String, Fault> {
        let heap = self.heap;
        let (four, six, eight) = arrays;
        let (bytes, zeros) = (SketchSlice::new(&PAYLOAD), SketchSlice::new(&ZEROS));
        match self.call {
            ArrayCall::Clone4 => shown(heap, four.clone()),
            ArrayCall::Clone6 => shown(heap, six.clone()),
            ArrayCall::Clone8 => shown(heap, eight.clone()),
            ArrayCall::CloneIn8 => shown(heap, eight.clone_in(heap)),
            ArrayCall::Deserialize4Low => {
                let (low, compact) = (SketchSlice::new(&LOW_PAYLOAD), AuxFormat::Compact);
                shown(heap, Array4::deserialize(heap, low, 0, 4, compact, false))
            }
            ArrayCall::Deserialize4LowWithException => {
                let low = SketchSlice::new(&LOW_PAYLOAD_WITH_EXCEPTIONS);
                let compact = AuxFormat::Compact;
                shown(heap, Array4::deserialize(heap, low, 0, 4, compact, false))
            }
            ArrayCall::Deserialize4 => {
                let compact = AuxFormat::Compact;
                shown(heap, Array4::deserialize(heap, bytes, 0, 4, compact, false))
            }
            ArrayCall::Deserialize4InPlaces => {
                let buckets = AuxFormat::Updatable { lg_arr: 3 };
                shown(heap, Array4::deserialize(heap, bytes, 0, 4, buckets, false))
            }
            ArrayCall::Deserialize4OnAPath => {
                let payload = path_payload(heap)?;
                let (bytes, compact) = (SketchSlice::new(&payload), AuxFormat::Compact);
                shown(
                    heap,
                    Array4::deserialize(heap, bytes, 0, 11, compact, false),
                )
            }
            ArrayCall::Deserialize6 => {
                shown(heap, Array6::deserialize_registers(heap, zeros, 4, false))
            }
            ArrayCall::Deserialize8 => {
                shown(heap, Array8::deserialize_registers(heap, zeros, 4, false))
            }
            ArrayCall::MergeFrom => {
                if eight.lg_k() <= four.lg_k() {
                    merge_from(eight, four);
                }
                Ok(String::new(heap.inner()))
            }
        }
    }

    fn show(&self, arrays: &Arrays<'h>) -> Result<String, Fault> {
        text(self.heap, arrays)
    }
}

/// The calls, and the requests of each. For exceptions on a path these are seven tables, the bits of the slots, three
/// for the cycle of the stride, the map and the nibbles.
const ARRAY_CALLS: [(ArrayCall, u64); 12] = [
    (ArrayCall::Clone4, 3),
    (ArrayCall::Clone6, 1),
    (ArrayCall::Clone8, 1),
    (ArrayCall::CloneIn8, 1),
    (ArrayCall::Deserialize4, 3),
    (ArrayCall::Deserialize4InPlaces, 3),
    (ArrayCall::Deserialize4Low, 2),
    (ArrayCall::Deserialize4LowWithException, 6),
    (ArrayCall::Deserialize4OnAPath, 13),
    (ArrayCall::Deserialize6, 1),
    (ArrayCall::Deserialize8, 1),
    (ArrayCall::MergeFrom, 0),
];

#[test]
fn refused_arrays(rt: HostRuntime) -> Result<(), Fail> {
    let heap = Heap::new(rt.alloc());
    for (call, requests) in ARRAY_CALLS {
        let trial = ArrayTrial { heap: &heap, call };
        let asked = requests_of(&rt, &heap, &trial);
        assert_eq!(rt; asked, Ok(requests), "{call:?}");
    }
    Ok(())
}
