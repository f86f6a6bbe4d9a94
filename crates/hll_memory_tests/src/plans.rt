// SPDX-License-Identifier: Apache-2.0
//! Lines, plans in pieces, lists of steps, and whole runs.
ghost use Rattle.std.specs.Prelude.{All};
ghost use Rattle.hll_text.specs.Step.{step_of, IsInRange};

use crate::harness::{Heap, Trial, requests_of, text};
use crate::sketches::sketch_text;
use hll_base::hll_type::HllType;
use hll_caller::run_in_memory;
use hll_merge::evaluate::{compare, evaluate};
use hll_merge::feed::PlanFeed;
use hll_merge::run::run;
use hll_sketch::HllSketch;
use hll_text::fault::{Fault, MergeError};
use hll_text::reading::{decode_into, read_step};
use hll_text::step::Step;
use hll_text::watched::Watched;
use std::mem;
use std::process::Abort;
use std::test::Fail;

#[derive(Clone, Copy, Debug)]
enum TextCall {
    ReadStep,
    DecodeInto,
    NewFeed,
    Finish,
    Run,
    RunInMemory,
}

/// A call on a text, with a feed that was fed the text, and a buffer of some bytes.
#[derive(Drop)]
struct TextTrial<'h> {
    heap: &'h Heap,
    text: &'h str,
    call: TextCall,
}

/// Runs a plan in memory, with memory for the line in this heap, too.
fn run_within<'h>(heap: &'h Heap, plan: &str) -> Result<Vec<u8, &'h Heap>, Fault> {
    match run_in_memory(heap, plan.as_bytes()) {
        Ok(line) => Ok(line),
        Err(e) => Err(e.fault),
    }
}

/// Runs a plan, with streams in memory of another allocator.
fn run_in_other_memory(heap: &Heap, plan: &str) -> Result<Vec<u8>, Fault> {
    let mut reader = Watched::new(plan.as_bytes());
    let mut writer = Watched::new(Vec::new(heap.inner()));
    match run(heap, &mut reader, &mut writer) {
        Ok(()) => Ok(writer.into_inner()),
        Err(e) => Err(e.fault),
    }
}

/// Returns the sketch that is the outcome of a plan, as text.
fn outcome_text(
    heap: &Heap,
    outcome: Result<HllSketch<&Heap>, MergeError>,
) -> Result<String, Fault> {
    match outcome {
        Ok(sketch) => sketch_text(heap, &sketch),
        Err(e) => Err(e.fault),
    }
}

/// Returns an empty feed.
fn feed_in(heap: &Heap) -> Result<PlanFeed<&Heap>, Fault> {
    match PlanFeed::new(heap) {
        Ok(feed) => Ok(feed),
        Err(e) => Err(e.fault),
    }
}

impl<'h> Trial for TextTrial<'h> {
    type Subject = (PlanFeed<&'h Heap>, Vec<u8, &'h Heap>);

    fn make(&self) -> Result<(PlanFeed<&'h Heap>, Vec<u8, &'h Heap>), Fault> {
        let mut feed = feed_in(self.heap)?;
        if matches!(self.call, TextCall::Finish) {
            let _taken = feed.feed(self.text.as_bytes());
        }
        Ok((feed, vec![in self.heap; 1u8; 3]?))
    }

    fn call(&self, subject: &mut (PlanFeed<&'h Heap>, Vec<u8, &'h Heap>)) -> Result<String, Fault> {
        let (heap, bytes) = (self.heap, self.text.as_bytes());
        let (feed, buffer) = subject;
        match self.call {
            TextCall::ReadStep => text(heap, &read_step(heap, bytes)?),
            TextCall::DecodeInto => {
                let taken = mem::replace(buffer, Vec::new(heap));
                text(heap, &decode_into(taken, bytes)?)
            }
            TextCall::NewFeed => text(heap, &feed_in(heap)?.pending()),
            TextCall::Finish => outcome_text(heap, mem::replace(feed, feed_in(heap)?).finish()),
            TextCall::Run => text(heap, &run_in_other_memory(heap, self.text)?),
            TextCall::RunInMemory => text(heap, &run_within(heap, self.text)?),
        }
    }

    fn show(&self, subject: &(PlanFeed<&'h Heap>, Vec<u8, &'h Heap>)) -> Result<String, Fault> {
        text(self.heap, &(subject.0.pending(), subject.1.as_slice()))
    }

    fn spends(&self) -> bool {
        matches!(self.call, TextCall::Finish | TextCall::DecodeInto)
    }
}

/// Calls on texts that are no plans, and the requests: one for the bytes of an image, and one for a buffer that is too
/// small. For a wrong word, the call returns its fault.
const TEXTS: [(TextCall, &str, u64); 12] = [
    (TextCall::ReadStep, "", 0),
    (TextCall::ReadStep, "# a comment", 0),
    (TextCall::ReadStep, "new 10 8", 0),
    (TextCall::ReadStep, "coupon 67108864 1", 0),
    (TextCall::ReadStep, "union 2 10 8", 0),
    (TextCall::ReadStep, "fold 4", 0),
    (TextCall::ReadStep, "image", 0),
    (TextCall::ReadStep, "image 0201070a030801080500000c", 1),
    (TextCall::DecodeInto, "020107", 0),
    (TextCall::DecodeInto, "0201070a", 1),
    (TextCall::NewFeed, "", 0),
    (TextCall::Finish, "", 0),
];

/// Plans, and the requests of a run, of a run in memory, of the end of a feed that was fed them, and of a feed in two
/// pieces.
const PLANS: [(&str, [u64; 4]); 7] = [
    ("new 10 8\ncoupon 5 3\n", [3, 5, 0, 3]),
    // the eighth coupon makes registers, 8-bit and 4-bit
    (
        "new 4 8\ncoupon 0 1\ncoupon 1 2\ncoupon 2 3\ncoupon 3 4\ncoupon 4 5\ncoupon 5 6\ncoupon 6 7\ncoupon 7 8",
        [4, 6, 1, 3],
    ),
    (
        "new 4 4\ncoupon 0 20\ncoupon 1 16\ncoupon 2 1\ncoupon 3 1\ncoupon 4 1\ncoupon 5 1\ncoupon 6 1\ncoupon 7 1\n",
        [7, 9, 0, 7],
    ),
    // the eighth coupon makes a set
    (
        "new 12 8\ncoupon 16 1\ncoupon 17 2\ncoupon 18 3\ncoupon 19 4\ncoupon 20 5\ncoupon 21 6\ncoupon 22 7\ncoupon 23 8\nunion 1 12 8\n",
        [5, 7, 0, 5],
    ),
    // images, a fold, and a union inside another
    (
        "image 0201070a030808080000000401000004020000040300000404000004050000040600000407000004\ncoupon 8 1\nfold 4",
        [6, 8, 1, 5],
    ),
    (
        "image 0201070a030801080500000c\nimage 0201070a030801080600000c\nnew 12 6\nunion 2 12 4\nunion 2 10 6",
        [5, 7, 0, 4],
    ),
    (
        "image 0a01070400100006000000000000000000000000000000000000000000000000100000000000000000000000000000000000000000\nunion 1 12 4\nfold 4\n",
        [4, 6, 0, 5],
    ),
];

/// Returns the requests of a call on a text.
fn text_asks(rt: &impl Abort, heap: &Heap, text: &str, call: TextCall) -> Result<u64, Fault> {
    requests_of(rt, heap, &TextTrial { heap, text, call })
}

/// Makes each request of a feed in two pieces fail in turn. The fault stays: later calls return it again, and nothing
/// is pending.
fn feed_asks(rt: &impl Abort, heap: &Heap, plan: &str) -> Result<u64, Fault> {
    let (front, rest) = plan.as_bytes().split_at(plan.len() / 2);
    for nth in 1..1000 {
        let mut feed = feed_in(heap)?;
        heap.refuse(nth);
        let answer = match feed.feed(front) {
            Ok(()) => feed.feed(rest),
            Err(e) => Err(e),
        };
        let asked = heap.asked();
        heap.admit();
        let Err(e) = answer else {
            assert!(rt; asked < nth, "{nth} was refused");
            return Ok(asked);
        };
        assert_eq!(rt; e.fault, Fault::Memory);
        assert!(rt; nth <= asked && feed.pending().is_empty());
        assert_eq!(rt; feed.feed(b"new 10 8\n"), Err(e));
        assert!(rt; feed.pending().is_empty());
        assert_eq!(rt; feed.finish().err(), Some(e));
    }
    Ok(0)
}

#[test]
fn refused_texts(rt: HostRuntime) -> Result<(), Fail> {
    let heap = Heap::new(rt.alloc());
    for (call, text, requests) in TEXTS {
        let asked = text_asks(&rt, &heap, text, call);
        assert_eq!(rt; asked, Ok(requests), "{call:?} {text}");
    }
    for (plan, requests) in PLANS {
        let asked = [
            text_asks(&rt, &heap, plan, TextCall::Run),
            text_asks(&rt, &heap, plan, TextCall::RunInMemory),
            text_asks(&rt, &heap, plan, TextCall::Finish),
            feed_asks(&rt, &heap, plan),
        ];
        assert_eq!(rt; asked, requests.map(Ok), "{plan}");
    }
    Ok(())
}

/// Lists of steps: none, some with a union, with a fold, and with a union inside another.
#[derive(Clone, Copy, Debug)]
enum Steps {
    None,
    Joined,
    Folded,
    Nested,
}

/// Whether lists of steps are evaluated, or compared with the one that has a union.
#[derive(Drop)]
struct StepsTrial<'h> {
    heap: &'h Heap,
    steps: Steps,
    compared: bool,
}

impl<'h> StepsTrial<'h> {
    /// Carries out a list of steps, and compares its outcome with that of the list with a union.
    fn carried_out(&self, steps: &[Step<&'h Heap>]) -> Result<String, Fault>
        requires { All (λ step. IsInRange (step_of step)) steps.now }
    {
        if !self.compared {
            return outcome_text(self.heap, evaluate(self.heap, steps));
        }
        let joined = [
            Step::New(12, HllType::Hll8),
            Step::Coupon(16, 1),
            Step::Coupon(17, 2),
            Step::Union(1, 12, HllType::Hll8),
        ];
        match compare(self.heap, &joined, steps) {
            Ok(same) => text(self.heap, &same),
            Err(e) => Err(e.fault),
        }
    }
}

impl<'h> Trial for StepsTrial<'h> {
    type Subject = ();

    fn make(&self) -> Result<(), Fault> {
        Ok(())
    }

    fn call(&self, _subject: &mut ()) -> Result<String, Fault> {
        match self.steps {
            Steps::None => self.carried_out(&[]),
            Steps::Joined => self.carried_out(&[
                Step::New(12, HllType::Hll8),
                Step::Coupon(16, 1),
                Step::Coupon(17, 2),
                Step::Coupon(18, 3),
                Step::Coupon(19, 4),
                Step::Coupon(20, 5),
                Step::Coupon(21, 6),
                Step::Coupon(22, 7),
                Step::Coupon(23, 8),
                Step::Union(1, 12, HllType::Hll8),
            ]),
            Steps::Folded => self.carried_out(&[
                Step::New(12, HllType::Hll4),
                Step::Coupon(16, 20),
                Step::Coupon(17, 30),
                Step::Fold(4),
            ]),
            Steps::Nested => self.carried_out(&[
                Step::New(4, HllType::Hll4),
                Step::New(8, HllType::Hll6),
                Step::Coupon(2, 30),
                Step::Union(2, 12, HllType::Hll4),
                Step::New(10, HllType::Hll8),
                Step::Coupon(3, 40),
                Step::Union(2, 11, HllType::Hll6),
            ]),
        }
    }

    fn show(&self, _subject: &()) -> Result<String, Fault> {
        Ok(String::new(self.heap.inner()))
    }
}

/// Lists, and the requests of their evaluation and of their comparison. An empty list allocates nothing.
const STEPS: [(Steps, [u64; 2]); 4] = [
    (Steps::None, [0, 1]),
    (Steps::Joined, [3, 6]),
    (Steps::Folded, [1, 4]),
    (Steps::Nested, [1, 4]),
];

#[test]
fn refused_steps(rt: HostRuntime) -> Result<(), Fail> {
    let heap = Heap::new(rt.alloc());
    for (steps, requests) in STEPS {
        for (compared, requests) in [false, true].into_iter().zip(requests) {
            let trial = StepsTrial {
                heap: &heap,
                steps,
                compared,
            };
            let asked = requests_of(&rt, &heap, &trial);
            assert_eq!(rt; asked, Ok(requests), "{steps:?} {compared}");
        }
    }
    Ok(())
}
