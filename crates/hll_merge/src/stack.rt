// SPDX-License-Identifier: Apache-2.0
//! The sketches of a plan while its lines are carried out; the last one is the top of the stack.
ghost use Rattle.std.specs.Prelude.{◌≡◌, ◌≢◌, ◌+◌, ◌≤◌, ◌<◌, ◌⊎◌, ◌++◌, ◌∷◌, [], length, map, take, drop, true, false, Ok, Err, None, OnOk, OnErr, IfOk, IfErr, IfSome, IfNone};
ghost use Rattle.hll_coupons.specs.Pair.{value_of, set_of};
ghost use Rattle.hll_sketch.specs.Adding.{add};
ghost use Rattle.hll_sketch.specs.Folding as folding;
ghost use Rattle.hll_sketch.specs.Layout.{SketchLayout, sketch_of};
ghost use Rattle.hll_sketch.specs.Merging.{merge_all, empty_union};
ghost use Rattle.hll_sketch.specs.Value.{IsLgK};
ghost use Rattle.hll_text.specs.Step.{step_of, IsInRange, HasBytes};
ghost use Rattle.hll_text.specs.Text.{new, image, union, reading, image_reading, image_step};
ghost use Rattle.hll_merge.specs.Stack.{ReplacesLast, MergesTail, LastIsBelow, StackCarries, StackRefuses, StackGives, StackFaults};
ghost use Rattle.hll_text.specs.declared.fault.Fault.TheVariants.{Memory};
ghost use Rattle.hll_text.specs.declared.fault.Fault.TheVariants as faults;

use hll_base::hll_type::HllType;
use hll_coupons::coupon::Coupon;
use hll_sketch::merge::union_in_place;
use hll_sketch::sketch::HllSketch;
use hll_sketch::union_of;
use hll_text::fault::Fault;
use hll_text::reading::{decode_into, read_line};
use hll_text::step::{Line, Step};
use std::alloc::{AllocError, Allocator};
use std::marker::Model;
use std::mem;

/// The sketches of a plan, of which the last one is on top, and a buffer for the bytes of their images. Contracts see the list
/// of sketches.
#[derive(Drop)]
pub(crate) struct Stack<A: Allocator> {
    sketches: Vec<HllSketch<A>, A>,
    image: Vec<u8, A>,
}

impl<A: Allocator> Model for Stack<A> {
    ghost use Rattle.std.specs.Prelude.{List};
    ghost use Rattle.hll_sketch.specs.Layout.{SketchLayout};

    ghost Value = { List SketchLayout };

    ghost view = { λ s. s.sketches.items };
}

impl<A: Allocator> Stack<A> {
    /// Returns the sketch if there is exactly one, else `None`.
    pub(crate) fn into_only(self) -> Option<HllSketch<A>>
        ensures one { IfSome result (λ x. self ≡ x ∷ []) }
        ensures other { IfNone result (length self ≡ 1 → ⊥) }
    {
        let Stack { mut sketches, .. } = self;
        if sketches.len() == 1 {
            sketches.pop()
        } else {
            None
        }
    }
}

impl<A: Allocator + Clone> Stack<A> {
    /// Returns an empty stack. Fails if cloning the allocator fails.
    pub(crate) fn new(alloc: A) -> Result<Self, AllocError>
        ensures { IfOk result (λ s. s ≡ []) }
    {
        let for_sketches = alloc.clone()?;
        Ok(Stack {
            sketches: Vec::new(for_sketches),
            image: Vec::new(alloc),
        })
    }

    /// Returns a clone of the allocator. Fails if cloning it fails.
    fn cloned_allocator(&self) -> Result<A, AllocError> {
        self.sketches.allocator().clone()
    }

    /// Pushes an empty sketch. Fails with `Memory` if the stack can't grow or the sketch can't be made.
    fn push_new(&mut self, lg_k: u8, hll_type: HllType) -> Result<(), Fault>
        requires { IsLgK lg_k }
        ensures ok { OnOk result (StackCarries self.old (new lg_k hll_type) self.new) }
        ensures err { IfErr result (λ e. e ≡ Memory) }
        ensures unchanged { OnErr result (self.new ≡ self.old) }
    {
        let sketch = HllSketch::new(self.cloned_allocator()?, lg_k, hll_type)?;
        self.sketches.push(sketch)?;
        Ok(())
    }

    /// Pushes the sketch of an image. Fails with `Image` and the reason of the first check that it fails, or with `Memory`,
    /// also if the stack can't grow.
    fn push_image(&mut self, bytes: &[u8]) -> Result<(), Fault>
        ensures ok { OnOk result (StackCarries self.old (image bytes.now) self.new) }
        ensures err { IfErr result (λ e. StackRefuses self.old (image bytes.now) e) }
        ensures unchanged { OnErr result (self.new ≡ self.old) }
        ensures bytes { HasBytes (image bytes.now) }
    {
        let sketch = HllSketch::deserialize(self.cloned_allocator()?, bytes)?;
        self.sketches.push(sketch)?;
        Ok(())
    }

    /// Replaces the last `count` sketches by their union. Fails with `Stack` if there are fewer, or with `Memory`, also if the
    /// stack can't grow.
    fn push_union(&mut self, count: u32, lg_max_k: u8, hll_type: HllType) -> Result<(), Fault>
        requires { IsLgK lg_max_k }
        ensures ok { OnOk result (StackCarries self.old (union count lg_max_k hll_type) self.new) }
        ensures err { IfErr result (λ e. StackRefuses self.old (union count lg_max_k hll_type) e) }
        ensures unchanged { OnErr result (self.new ≡ self.old) }
    {
        let Some(at) = self.sketches.len().checked_sub(count as usize) else {
            return Err(Fault::Stack);
        };
        if self.merge_in_place(at, lg_max_k, hll_type) {
            return Ok(());
        }
        self.merge_aside(at, lg_max_k, hll_type)
    }

    /// Replaces the sketches from an index on by their union, if the others can be merged into the first of them without an
    /// allocation, and returns whether it did. Otherwise nothing changes.
    fn merge_in_place(&mut self, at: usize, lg_max_k: u8, hll_type: HllType) -> bool
        requires bound { IsLgK lg_max_k }
        requires within { at ≤ length self.old }
        ensures union_of_batch { result ≡ true → MergesTail at lg_max_k hll_type self.old self.new }
        ensures unchanged { result ≡ false → self.new ≡ self.old }
    {
        match hll_type {
            HllType::Hll8 => {}
            HllType::Hll4 | HllType::Hll6 => return false,
        }
        if !merge_tail(&mut self.sketches, at, lg_max_k) {
            return false;
        }
        self.sketches.truncate(at + 1);
        true
    }

    /// Replaces the sketches from an index on by their union. Fails with `Memory` if the union can't be made or the stack can't
    /// grow.
    fn merge_aside(&mut self, at: usize, lg_max_k: u8, hll_type: HllType) -> Result<(), Fault>
        requires bound { IsLgK lg_max_k }
        requires within { at ≤ length self.old }
        ensures ok { OnOk result (MergesTail at lg_max_k hll_type self.old self.new) }
        ensures err { IfErr result (λ e. e ≡ Memory) }
        ensures unchanged { OnErr result (self.new ≡ self.old) }
    {
        let union = union_of(self.cloned_allocator()?, lg_max_k, &self.sketches[at..])?;
        let sketch = union.into_sketch(hll_type)?;
        self.replace_from(at, sketch)
    }

    /// Replaces the sketches from an index on by one sketch. Fails with `Memory` if the stack can't grow.
    fn replace_from(&mut self, at: usize, sketch: HllSketch<A>) -> Result<(), Fault>
        requires { at ≤ length self.old }
        ensures ok { OnOk result (self.new ≡ take at self.old ++ sketch ∷ []) }
        ensures err { IfErr result (λ e. e ≡ Memory) }
        ensures unchanged { OnErr result (self.new ≡ self.old) }
    {
        let last = self.sketches.len();
        self.sketches.push(sketch)?;
        self.sketches.swap(at, last);
        self.sketches.truncate(at + 1);
        Ok(())
    }

    /// Adds a coupon to the last sketch. Fails with `Stack` if there is none, or with `Memory` as the sketch does.
    fn add_coupon(&mut self, coupon: Coupon) -> Result<(), Fault>
        requires { 1 ≤ value_of coupon }
        ensures ok { OnOk result (ReplacesLast self.old (λ x y. y ≡ add x (set_of (coupon ∷ []))) self.new) }
        ensures err { IfErr result (λ e. (e ≡ Memory) ⊎ ((self.old ≡ []) × (e ≡ faults.Stack))) }
        ensures unchanged { OnErr result (self.new ≡ self.old) }
    {
        let Some(last) = self.sketches.last_mut() else {
            return Err(Fault::Stack);
        };
        last.update_with_coupon(coupon)?;
        Ok(())
    }

    /// Folds the last sketch to an `lg_k`. A sketch that is its own fold is left as it is. Fails with `Stack` if there is no
    /// sketch, `Fold` if its own `lg_k` is smaller, or `Memory`.
    fn fold_last(&mut self, lg_k: u8) -> Result<(), Fault>
        requires { IsLgK lg_k }
        ensures ok { OnOk result (ReplacesLast self.old (λ x y. (lg_k ≤ x.lg_k) × (y ≡ folding.folded x lg_k)) self.new) }
        ensures err { IfErr result (λ e. (e ≡ Memory) ⊎ (((self.old ≡ []) × (e ≡ faults.Stack)) ⊎ (LastIsBelow self.old lg_k × (e ≡ faults.Fold)))) }
        ensures unchanged { OnErr result (self.new ≡ self.old) }
    {
        let Some(last) = self.sketches.last_mut() else {
            return Err(Fault::Stack);
        };
        if last.lg_config_k() < lg_k {
            return Err(Fault::Fold);
        }
        if last.is_own_fold(lg_k) {
            return Ok(());
        }
        *last = last.folded(lg_k)?;
        Ok(())
    }

    /// Carries out a step.
    ///
    /// Fails with `Memory` if a sketch can't be made or the stack can't grow, or with `Image`, `Stack` or `Fold` as the plan
    /// says. On an error the stack is unchanged.
    pub(crate) fn carry_out(&mut self, step: &Step<A>) -> Result<(), Fault>
        requires { IsInRange (step_of step.now) }
        ensures ok { OnOk result (StackCarries self.old (step_of step.now) self.new) }
        ensures err { IfErr result (λ e. StackRefuses self.old (step_of step.now) e) }
        ensures unchanged { OnErr result (self.new ≡ self.old) }
        ensures bytes { HasBytes (step_of step.now) }
    {
        match step {
            Step::New(lg_k, hll_type) => self.push_new(*lg_k, *hll_type),
            Step::Image(bytes) => self.push_image(bytes.as_slice()),
            Step::Coupon(slot, value) => self.add_coupon(Coupon::pack(*slot, *value)),
            Step::Union(count, lg_max_k, hll_type) => {
                self.push_union(*count, *lg_max_k, *hll_type)
            }
            Step::Fold(lg_k) => self.fold_last(*lg_k),
        }
    }

    /// Returns the bytes that the digits of an image stand for, in the buffer, which is moved out. Fails with `Hex` if they are
    /// not an even number of hexadecimal digits, or with `Memory` if the buffer can't grow.
    fn decode(&mut self, digits: &[u8]) -> Result<Vec<u8, A>, Fault>
        ensures ok { IfOk result (λ bytes. image_step digits.now ≡ Ok (image bytes.items)) }
        ensures err { IfErr result (λ e. (e ≡ Memory) ⊎ ((e ≡ faults.Hex) × (image_step digits.now ≡ Err faults.Hex))) }
        ensures unchanged { self.new ≡ self.old }
    {
        let emptied = Vec::new(self.cloned_allocator()?);
        decode_into(mem::replace(&mut self.image, emptied), digits)
    }

    /// Pushes the sketch of an image from its digits, which are decoded into the buffer. Fails with `Hex` if they are not an
    /// even number of hexadecimal digits, else as `push_image` does, or with `Memory` if the buffer can't grow.
    fn push_digits(&mut self, digits: &[u8]) -> Result<(), Fault>
        ensures ok { OnOk result (StackGives image_reading self.old digits.now self.new) }
        ensures err { IfErr result (λ e. StackFaults image_reading self.old digits.now e) }
        ensures unchanged { OnErr result (self.new ≡ self.old) }
    {
        let alloc = self.cloned_allocator()?;
        let bytes = self.decode(digits)?;
        let read = HllSketch::deserialize(alloc, &bytes);
        self.image = bytes;
        self.sketches.push(read?)?;
        Ok(())
    }

    /// Reads a line and carries it out. On an error the stack is unchanged. A line that is skipped never fails.
    pub(crate) fn carry_line(&mut self, line: &[u8]) -> Result<(), Fault>
        ensures ok { OnOk result (StackGives reading self.old line.now self.new) }
        ensures err { IfErr result (λ e. StackFaults reading self.old line.now e) }
        ensures unchanged { OnErr result (self.new ≡ self.old) }
        ensures skipped { OnErr result (reading line.now ≢ Ok None) }
    {
        match read_line(line)? {
            Line::Skipped => Ok(()),
            Line::Image(digits) => self.push_digits(digits),
            Line::Step(step) => self.carry_out(&step),
        }
    }
}

/// Replaces the sketch at an index by the union of the sketches from there on, at a width of 8 bits, if that allocates nothing,
/// and returns whether it did. The other sketches are unchanged. If it returns false, this sketch is unchanged too.
fn merge_tail<A: Allocator + Clone>(sketches: &mut [HllSketch<A>], at: usize, lg_max_k: u8) -> bool
    requires bound { IsLgK lg_max_k }
    requires within { at ≤ length sketches.old }
    ensures union_of_batch { result ≡ true → (x : SketchLayout) × (take (at + 1) sketches.new ≡ take at sketches.old ++ x ∷ []) × (sketch_of x ≡ merge_all lg_max_k (empty_union lg_max_k) (map sketch_of (drop at sketches.old))) }
    ensures unchanged { result ≡ false → sketches.new ≡ sketches.old }
    ensures len { length sketches.new ≡ length sketches.old }
{
    let (_, last) = sketches.split_at_mut(at);
    let Some((first, others)) = last.split_first_mut() else {
        return false;
    };
    union_in_place(lg_max_k, first, others)
}
