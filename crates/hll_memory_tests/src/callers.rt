// SPDX-License-Identifier: Apache-2.0
//! The calls of the example caller of the library, on two shards.
use crate::harness::{Heap, Trial, requests_of, shown};
use crate::sketches::{Shape, coupon_at, sketch_in, sketch_text};
use crate::unions::union_text;
use hll_base::hll_type::HllType;
use hll_caller::{max_of_shards, registers_of, union_of_shards};
use hll_sketch::HllSketch;
use hll_text::fault::Fault;
use std::test::Fail;

#[derive(Clone, Copy, Debug)]
enum ShardsCall {
    RegistersOf,
    MaxOfShards,
    UnionOfShards(HllType),
}

/// A call on the sketches of two shards, one of which sends its union at some width, or on the coupons of one shard or
/// of both.
#[derive(Drop)]
struct ShardsTrial<'h> {
    heap: &'h Heap,
    call: ShardsCall,
}

/// The coupons of a sketch of each shard: a set, and registers.
const SHARDS: [Shape; 2] = [(12, 0, 20), (8, 40, 200)];

impl<'h> Trial for ShardsTrial<'h> {
    type Subject = [HllSketch<&'h Heap>; 2];

    fn make(&self) -> Result<[HllSketch<&'h Heap>; 2], Fault> {
        let [here, there] = SHARDS;
        let one = sketch_in(self.heap, HllType::Hll8, here)?;
        Ok([one, sketch_in(self.heap, HllType::Hll6, there)?])
    }

    fn call(&self, shards: &mut [HllSketch<&'h Heap>; 2]) -> Result<String, Fault> {
        let heap = self.heap;
        let coupons = [coupon_at(0), coupon_at(5), coupon_at(70)];
        match self.call {
            ShardsCall::RegistersOf => shown(heap, registers_of(heap, 4, &coupons)),
            ShardsCall::MaxOfShards => shown(heap, max_of_shards(heap, 4, &coupons, &coupons)),
            ShardsCall::UnionOfShards(hll_type) => {
                let (here, there) = shards.split_at(1);
                union_text(heap, union_of_shards(heap, 12, hll_type, here, there)?)
            }
        }
    }

    fn show(&self, shards: &[HllSketch<&'h Heap>; 2]) -> Result<String, Fault> {
        let [here, there] = shards;
        let mut all = sketch_text(self.heap, here)?;
        all.push_str(sketch_text(self.heap, there)?.as_str())?;
        Ok(all)
    }
}

/// The calls, and their requests: one for the registers of each shard. A union allocates the registers of one shard,
/// its sketch at the width that is sent, the set of the other shard, and the registers of both.
const SHARDS_CALLS: [(ShardsCall, u64); 5] = [
    (ShardsCall::RegistersOf, 1),
    (ShardsCall::MaxOfShards, 2),
    (ShardsCall::UnionOfShards(HllType::Hll4), 10),
    (ShardsCall::UnionOfShards(HllType::Hll6), 4),
    (ShardsCall::UnionOfShards(HllType::Hll8), 4),
];

#[test]
fn refused_shards(rt: HostRuntime) -> Result<(), Fail> {
    let heap = Heap::new(rt.alloc());
    for (call, requests) in SHARDS_CALLS {
        let trial = ShardsTrial { heap: &heap, call };
        let asked = requests_of(&rt, &heap, &trial);
        assert_eq!(rt; asked, Ok(requests), "{call:?}");
    }
    Ok(())
}
