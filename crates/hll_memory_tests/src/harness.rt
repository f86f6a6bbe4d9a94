// SPDX-License-Identifier: Apache-2.0
//! Makes a call again and again, with another request for memory failing each time.
use crate::refusing::Refusing;
use hll_base::error::Error;
use hll_text::fault::Fault;
use std::alloc::Global;
use std::fmt::Debug;
use std::process::Abort;

/// The allocator of what is tried.
pub(crate) type Heap = Refusing<Global>;

/// A number of requests that no call reaches.
const MOST: u64 = 1000;

/// A call that is tried, and the subject that it is made on.
pub(crate) trait Trial {
    type Subject: Drop;

    /// Makes the subject of the call, the same each time.
    fn make(&self) -> Result<Self::Subject, Fault>;

    /// Makes the call. Its result is shown as text, in memory whose requests don't fail.
    fn call(&self, subject: &mut Self::Subject) -> Result<String, Fault>;

    /// Returns the whole subject as text, to the last bucket of a table.
    fn show(&self, subject: &Self::Subject) -> Result<String, Fault>;

    /// Returns whether the call uses its subject up.
    fn spends(&self) -> bool {
        false
    }
}

/// Returns a value as text. For tables, registers and modes that is all of it: each bucket, each register, the state.
pub(crate) fn text<T: Debug>(heap: &Heap, value: &T) -> Result<String, Fault> {
    match format!(in heap.inner(); "{value:?}") {
        Ok(text) => Ok(text),
        Err(_) => Err(Fault::Write),
    }
}

/// Returns what a call made as text, or why it made nothing.
pub(crate) fn shown<T: Debug + Drop>(heap: &Heap, made: Result<T, Error>) -> Result<String, Fault> {
    text(heap, &made?)
}

/// Makes each request of a call fail in turn, and returns the number of requests. A call whose request fails returns
/// `Memory` and leaves the subject unchanged. Made again on this subject, with memory, it has the same result and the
/// same effect as a call without failures.
pub(crate) fn requests_of<T: Trial>(rt: &impl Abort, heap: &Heap, trial: &T) -> Result<u64, Fault> {
    let mut twin = trial.make()?;
    let before = trial.show(&twin)?;
    let given = trial.call(&mut twin);
    let after = trial.show(&twin)?;
    for nth in 1..MOST {
        let mut subject = trial.make()?;
        heap.refuse(nth);
        let answer = trial.call(&mut subject);
        let asked = heap.asked();
        heap.admit();
        if answer == given {
            assert!(rt; asked < nth, "{nth} was refused");
            assert_eq!(rt; trial.show(&subject)?, after);
            return Ok(asked);
        }
        assert!(rt; nth <= asked, "{nth} of {asked}");
        assert_eq!(rt; answer.err(), Some(Fault::Memory));
        if trial.spends() {
            subject = trial.make()?;
        }
        assert_eq!(rt; trial.show(&subject)?, before, "changed by {nth}");
        assert!(rt; trial.call(&mut subject) == given, "again after {nth}");
        assert_eq!(rt; trial.show(&subject)?, after, "again after {nth}");
    }
    Ok(MOST)
}
