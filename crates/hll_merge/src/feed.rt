// SPDX-License-Identifier: Apache-2.0
//! A plan that comes in pieces (docs/PLAN.md, "In pieces").
ghost use Rattle.std.specs.Prelude.{◌≡◌, ◌≢◌, ◌+◌, ◌++◌, List, ℕ, length, Ok, None, MatchResult, MatchOption, IfOk, IfErr, IfSome};
ghost use Rattle.hll_text.specs.declared.fault.Fault.TheVariants.{Memory};
ghost use Rattle.hll_text.specs.Cuts.{IsOpen, Closes};
ghost use Rattle.hll_text.specs.Text.{ended_lines, open_line, line_of_rest, line_number, reading};
ghost use Rattle.hll_merge.specs.Feeding.{CutsAgree, TakesPiece, RefusesPiece, Finishes, RefusesEnd, IsFedBy, IsOutcomeOf, StopsText, unfed};
ghost use Rattle.hll_merge.specs.Stack.{StackRuns, StackStops};

use crate::stack::Stack;
use hll_sketch::sketch::HllSketch;
use hll_text::fault::{Fault, MergeError};
use hll_text::lines::{line_end, next_ended, without_return};
use std::alloc::{AllocError, Allocator, Global};
use std::marker::Model;

/// Carries out the pending line, if the piece has its LF, after `count` other lines. Returns what is left of the piece, and the
/// number of lines so far.
fn close_line<'p, A: Allocator + Clone>(
    stack: &mut Stack<A>,
    pending: &mut Vec<u8, A>,
    count: u64,
    piece: &'p [u8],
) -> Result<(&'p [u8], u64), MergeError>
    requires { IsOpen pending.old.items }
    ensures { MatchResult result
        (λ r. (ended : List (List ℕ)) × Closes pending.old.items piece.now pending.new.items r.0.now ended
        × (r.1 ≡ line_number (count + length ended)) × StackRuns stack.old ended stack.new)
        (λ e. StackStops stack.old count (ended_lines (pending.old.items ++ piece.now)) e) }
{
    if pending.is_empty() {
        return Ok((piece, count));
    }
    let Some(at) = line_end(piece) else {
        return Ok((piece, count));
    };
    if let Err(e) = pending.extend_from_slice(&piece[..at]) {
        return Err(Fault::from(e).at(count));
    }
    let number = count.saturating_add(1);
    match stack.carry_line(without_return(pending.as_slice())) {
        Ok(()) => {
            pending.clear();
            Ok((&piece[at + 1..], number))
        }
        Err(fault) => Err(fault.at(number)),
    }
}

/// Carries out the lines that end in the pending bytes and a piece, after `count` other lines. Returns the number of lines so
/// far. The bytes after the last LF are then pending.
fn take_piece<A: Allocator + Clone>(
    stack: &mut Stack<A>,
    pending: &mut Vec<u8, A>,
    count: u64,
    piece: &[u8],
) -> Result<u64, MergeError>
    requires { IsOpen pending.old.items }
    ensures { MatchResult result
        (λ n. (pending.new.items ≡ open_line (pending.old.items ++ piece.now))
        × (n ≡ line_number (count + length (ended_lines (pending.old.items ++ piece.now))))
        × StackRuns stack.old (ended_lines (pending.old.items ++ piece.now)) stack.new)
        (λ e. StackStops stack.old count (ended_lines (pending.old.items ++ piece.now)) e) }
{
    let (left, closed) = close_line(stack, pending, count, piece)?;
    let mut number = closed;
    let mut rest = left;
    'lines: loop {
        match next_ended(rest) {
            None => {
                return match pending.extend_from_slice(rest) {
                    Ok(()) => Ok(number),
                    Err(e) => Err(Fault::from(e).at(number)),
                };
            }
            Some((line, more)) => {
                number = number.saturating_add(1);
                if let Err(fault) = stack.carry_line(line) {
                    return Err(fault.at(number));
                }
                rest = more;
            }
        }
    }
}

/// A plan that comes in pieces: the sketches that its lines made so far, and the bytes of the line that has not ended.
/// Contracts see these, the number of lines that ended, and the fault that was found.
#[derive(Drop)]
pub struct PlanFeed<A: Allocator = Global> {
    stack: Stack<A>,
    pending: Vec<u8, A>,
    count: u64,
    fault: Option<MergeError>,
}

impl<A: Allocator> Model for PlanFeed<A> {
    ghost use Rattle.std.specs.Prelude.{◌<◌, ◌^◌};
    ghost use Rattle.hll_text.specs.Cuts.{IsOpen};
    ghost use Rattle.hll_merge.specs.Feeding.{Feed};

    ghost Value = { Feed };

    ghost view = { λ f. record { stack = f.stack; pending = f.pending.items; count = f.count; fault = f.fault } };

    ghost invariant = { λ f. IsOpen f.pending.items × (f.count < 2 ^ 64) };
}

impl<A: Allocator> PlanFeed<A> {
    /// Returns the bytes of the line that has not ended: the bytes after the last LF, or none after a fault.
    pub fn pending(&self) -> &[u8]
        ensures { result.now ≡ self.now.pending }
    {
        self.pending.as_slice()
    }

    /// Returns how many lines ended so far.
    pub(crate) fn count(&self) -> u64
        ensures { result ≡ self.now.count }
    {
        self.count
    }
}

impl<A: Allocator + Clone> PlanFeed<A> {
    /// Returns a feed without text or sketches. Fails with `Memory` if cloning the allocator fails.
    pub fn new(alloc: A) -> Result<PlanFeed<A>, MergeError>
        ensures ok { IfOk result (λ f. f ≡ unfed) }
        ensures err { IfErr result (λ e. e.fault ≡ Memory) }
    {
        match Self::unfed(alloc) {
            Ok(feed) => Ok(feed),
            Err(e) => Err(Fault::from(e).at(0)),
        }
    }

    /// Returns a feed without text or sketches. Fails if cloning the allocator fails.
    fn unfed(alloc: A) -> Result<PlanFeed<A>, AllocError>
        ensures { IfOk result (λ f. f ≡ unfed) }
    {
        let for_pending = alloc.clone()?;
        Ok(PlanFeed {
            stack: Stack::new(alloc)?,
            pending: Vec::new(for_pending),
            count: 0,
            fault: None,
        })
    }

    /// Carries out every line that ended so far. A line that is whole in the piece is read there, without a copy.
    ///
    /// Fails with `Memory`, or with the first fault of the text so far, with its line. Each later call then fails with the same
    /// error and does nothing, and no bytes are pending. How the text is cut into pieces makes no difference.
    pub fn feed(&mut self, piece: &[u8]) -> Result<(), MergeError>
        ensures piece { MatchOption self.old.fault
            (MatchResult result (λ _. TakesPiece self.old piece.now self.new) (λ e. RefusesPiece self.old piece.now self.new e))
            (λ e. (result ≡ Err e) × (self.new ≡ self.old)) }
        ensures stream { (text : List ℕ) → IsFedBy text self.old → IsFedBy (text ++ piece.now) self.new }
    {
        if let Some(fault) = self.fault {
            return Err(fault);
        }
        match take_piece(&mut self.stack, &mut self.pending, self.count, piece) {
            Ok(count) => {
                self.count = count;
                Ok(())
            }
            Err(fault) => {
                self.pending.clear();
                self.fault = Some(fault);
                Err(fault)
            }
        }
    }

    /// Carries out the last line if it lacks an LF, and returns the one sketch that is left.
    ///
    /// Fails with the error of an earlier call, with `Memory`, or with the first fault of the text: that of its last line, or
    /// `Stack` if not exactly one sketch is left. Allocates nothing if nothing is pending, or only a line that is skipped.
    pub fn finish(self) -> Result<HllSketch<A>, MergeError>
        ensures stopped { IfSome self.fault (λ e. result ≡ Err e) }
        ensures end { self.fault ≡ None → MatchResult result (Finishes self) (RefusesEnd self) }
        ensures stream { self.fault ≡ None → (text : List ℕ) → IsFedBy text self → MatchResult result (IsOutcomeOf text) (StopsText text) }
        ensures needed { self.fault ≡ None → IfErr result (λ e. e.fault ≡ Memory → reading self.pending ≢ Ok None) }
    {
        match self.finished() {
            Ok((sketch, _)) => Ok(sketch),
            Err(e) => Err(e),
        }
    }

    /// Returns what `finish` does, and the number of lines of the text.
    pub(crate) fn finished(self) -> Result<(HllSketch<A>, u64), MergeError>
        ensures stopped { IfSome self.fault (λ e. result ≡ Err e) }
        ensures end { self.fault ≡ None → MatchResult result
            (λ r. Finishes self r.0 × (r.1 ≡ line_number (self.count + length (line_of_rest self.pending)))) (RefusesEnd self) }
        ensures needed { self.fault ≡ None → IfErr result (λ e. e.fault ≡ Memory → reading self.pending ≢ Ok None) }
    {
        match self.ended() {
            Ok((stack, line)) => match stack.into_only() {
                Some(sketch) => Ok((sketch, line)),
                None => Err(Fault::Stack.at(line)),
            },
            Err(e) => Err(e),
        }
    }

    /// Carries out the last line if it lacks an LF. Returns the sketches that are left, and the number of lines.
    fn ended(self) -> Result<(Stack<A>, u64), MergeError>
        ensures stopped { IfSome self.fault (λ e. result ≡ Err e) }
        ensures end { self.fault ≡ None → MatchResult result
            (λ r. StackRuns self.stack (line_of_rest self.pending) r.0 × (r.1 ≡ line_number (self.count + length (line_of_rest self.pending))))
            (StackStops self.stack self.count (line_of_rest self.pending)) }
        ensures needed { self.fault ≡ None → IfErr result (λ e. e.fault ≡ Memory → reading self.pending ≢ Ok None) }
    {
        let PlanFeed {
            mut stack,
            pending,
            count,
            fault,
        } = self;
        if let Some(fault) = fault {
            return Err(fault);
        }
        let last = pending.as_slice();
        if last.is_empty() {
            return Ok((stack, count));
        }
        let number = count.saturating_add(1);
        match stack.carry_line(last) {
            Ok(()) => Ok((stack, number)),
            Err(fault) => Err(fault.at(number)),
        }
    }
}

/// The law of cuts: two feeds of one text agree, however it was cut. Does nothing at run time.
pub fn cuts_agree()
    ensures { CutsAgree }
{}
