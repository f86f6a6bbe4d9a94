// SPDX-License-Identifier: Apache-2.0
//! An allocator that counts requests for memory, and makes some of them fail.
use std::alloc::{AllocError, Allocator};
use std::cell::Cell;
use std::fmt;

/// The number of requests so far, and the first and the last request that fail.
#[derive(Drop)]
struct Tally {
    asked: Cell<u64>,
    first: Cell<u64>,
    last: Cell<u64>,
}

impl Tally {
    /// Counts a request. Returns whether to pass it on.
    fn admits(&self) -> bool {
        let asked = self.asked.get().wrapping_add(1);
        self.asked.set(asked);
        asked < self.first.get() || self.last.get() < asked
    }
}

/// Passes requests on to another allocator, except those that are to fail. Values that allocate from it have a `&` to
/// it.
pub(crate) struct Refusing<B: Allocator> {
    inner: B,
    tally: Tally,
}

impl<B: Allocator> Drop for Refusing<B> {
    fn drop(self) {
        let Self { inner: _, tally: _ } = self;
    }
}

impl<B: Allocator> fmt::Debug for Refusing<B> {
    fn fmt<W: fmt::Write>(&self, f: &mut fmt::Formatter<W>) -> fmt::Result {
        f.write_str("Refusing")
    }
}

impl<B: Allocator> Refusing<B> {
    /// Returns an allocator that lets no request fail.
    pub(crate) fn new(inner: B) -> Refusing<B> {
        let tally = Tally {
            asked: Cell::new(0),
            first: Cell::new(1),
            last: Cell::new(0),
        };
        Refusing { inner, tally }
    }

    /// Returns the allocator that requests are passed on to.
    pub(crate) fn inner(&self) -> B
    where
        B: Copy,
    {
        self.inner
    }

    /// Counts from 0 again, and lets the requests from the first to the last of these fail.
    fn refuse_between(&self, first: u64, last: u64) {
        self.tally.asked.set(0);
        self.tally.first.set(first);
        self.tally.last.set(last);
    }

    /// Counts from 0 again, and lets the nth request fail, counted from 1.
    pub(crate) fn refuse(&self, nth: u64) {
        self.refuse_between(nth, nth);
    }

    /// Counts from 0 again, and lets each request fail.
    pub(crate) fn refuse_all(&self) {
        self.refuse_between(1, u64::MAX);
    }

    /// Counts from 0 again, and lets no request fail.
    pub(crate) fn admit(&self) {
        self.refuse_between(1, 0);
    }

    /// Returns the number of requests since the count began.
    pub(crate) fn asked(&self) -> u64 {
        self.tally.asked.get()
    }
}

unsafe impl<B: Allocator> Allocator for Refusing<B> {
    ghost dealloc_token = { λ heap ty ptr. B.dealloc_token heap.inner ty ptr };

    fn allocate(&self, size: usize, align: usize) -> Result<*mut u8, AllocError> {
        if self.tally.admits() {
            return self.inner.allocate(size, align);
        }
        Err(AllocError)
    }

    unsafe fn deallocate(&self, ptr: *mut u8, size: usize, align: usize) {
        self.inner.deallocate(ptr, size, align);
    }
}
