//! An allocator for tests, which grants so many requests for memory and refuses the others.
#![tactic(auto)]

use std::alloc::{AllocError, Allocator};
use std::cell::Cell;

/// An allocator that grants so many requests for memory and refuses the others.
pub struct Rationed<B: Allocator> {
    inner: B,
    granted: Cell<u64>,
}

impl<B: Allocator> Rationed<B> {
    /// An allocator over another one, which it asks so many times.
    pub fn new(inner: B, granted: u64) -> Rationed<B> {
        Rationed {
            inner,
            granted: Cell::new(granted),
        }
    }
}

impl<B: Allocator> Drop for Rationed<B> {
    fn drop(self) {
        let Self {
            inner: _,
            granted: _,
        } = self;
    }
}

/// Takes one request from those that are granted. Says whether none was left.
fn is_spent(granted: &Cell<u64>) -> bool {
    let left = granted.get();
    granted.set(left.saturating_sub(1));
    left == 0
}

unsafe impl<B: Allocator> Allocator for Rationed<B> {
    ghost dealloc_token = { λ heap ty ptr. B.dealloc_token heap.inner ty ptr };

    fn allocate(&self, size: usize, align: usize) -> Result<*mut u8, AllocError> {
        if is_spent(&self.granted) {
            return Err(AllocError);
        }
        self.inner.allocate(size, align)
    }

    unsafe fn deallocate(&self, ptr: *mut u8, size: usize, align: usize) {
        self.inner.deallocate(ptr, size, align);
    }
}
