// SPDX-License-Identifier: Apache-2.0
//! Buffers of image fields, and the preamble of registers.
use crate::harness::{Heap, Trial, requests_of, shown, text};
use hll_base::codec::SketchBytes;
use hll_base::hll_type::HllType;
use hll_registers::estimate_state::EstimateState;
use hll_registers::preamble::{HllHeader, Preamble};
use hll_text::fault::Fault;
use std::test::Fail;

#[derive(Clone, Copy, Debug)]
enum BufferCall {
    WithCapacity,
    WriteU8,
    WriteU32,
    WriteU64,
    Write,
    StartImage,
}

/// The preamble of an image of registers.
const PREAMBLE: Preamble = Preamble {
    state: EstimateState::CLEARED,
    num_at_cur_min: 16,
    exception_count: 0,
};

/// A call on a buffer with room for some bytes, one of which is written.
#[derive(Drop)]
struct BufferTrial<'h> {
    heap: &'h Heap,
    capacity: usize,
    call: BufferCall,
}

impl<'h> Trial for BufferTrial<'h> {
    type Subject = SketchBytes<&'h Heap>;

    fn make(&self) -> Result<SketchBytes<&'h Heap>, Fault> {
        let mut bytes = SketchBytes::with_capacity(self.heap, self.capacity)?;
        bytes.write_u8(1)?;
        Ok(bytes)
    }

    fn call(&self, bytes: &mut SketchBytes<&'h Heap>) -> Result<String, Fault> {
        let heap = self.heap;
        match self.call {
            BufferCall::WithCapacity => {
                shown(heap, SketchBytes::with_capacity(heap, self.capacity))
            }
            BufferCall::WriteU8 => shown(heap, bytes.write_u8(2)),
            BufferCall::WriteU32 => shown(heap, bytes.write_u32_le(0x0504_0302)),
            BufferCall::WriteU64 => shown(heap, bytes.write_u64_le(0x0908_0706_0504_0302)),
            BufferCall::Write => shown(heap, bytes.write(&[2, 3, 4])),
            BufferCall::StartImage => {
                let header = HllHeader::plain(4, HllType::Hll8);
                shown(heap, PREAMBLE.start_image(heap, header, self.capacity))
            }
        }
    }

    fn show(&self, bytes: &SketchBytes<&'h Heap>) -> Result<String, Fault> {
        text(self.heap, bytes)
    }
}

/// The calls, and the requests of each on a full buffer, and on a buffer with room.
const BUFFERS: [(BufferCall, [u64; 2]); 6] = [
    (BufferCall::WithCapacity, [1, 1]),
    (BufferCall::WriteU8, [1, 0]),
    (BufferCall::WriteU32, [1, 0]),
    (BufferCall::WriteU64, [1, 0]),
    (BufferCall::Write, [1, 0]),
    // a buffer of one byte grows to 40
    (BufferCall::StartImage, [2, 1]),
];

#[test]
fn refused_buffers(rt: HostRuntime) -> Result<(), Fail> {
    let heap = Heap::new(rt.alloc());
    for (call, requests) in BUFFERS {
        for (capacity, requests) in [1, 48].into_iter().zip(requests) {
            let trial = BufferTrial {
                heap: &heap,
                capacity,
                call,
            };
            let asked = requests_of(&rt, &heap, &trial);
            assert_eq!(rt; asked, Ok(requests), "{call:?} {capacity}");
        }
    }
    Ok(())
}
