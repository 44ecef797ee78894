//! Free blocks in a list: the first bytes of each hold a pointer to the next.

ghost use Rattle.std.specs.Prelude.{◌≡◌, ℕ, ◌+◌, ◌<◌};
ghost use Rattle.slot_space.specs.Limits.{slot_size};
ghost use Rattle.raw_slots.specs.Chained.{chain};

use crate::memory::{Lease, Memory};
use slot_space::SLOT_SIZE;
use std::alloc::Allocator;
use std::marker::{Model, PhantomData};
use std::ptr::null_mut;

/// The bytes of one block, which are those of a slot.
pub(crate) const SIZE: usize = SLOT_SIZE as usize;

/// Owns `count` free blocks of `alloc`.
pub(crate) struct Chain<A: Allocator> {
    first: *mut u8,
    marker: PhantomData<A>,
    pub(crate) ghost alloc: { A },
    pub(crate) ghost count: { ℕ },
}

impl<A: Allocator> Model for Chain<A> {
    ghost also_owns = { λ c. chain (A.dealloc_token c.alloc) c.count c.first };
}

impl<A: Allocator> Chain<A> {
    /// No block.
    pub(crate) fn empty(_alloc: &A) -> Chain<A>
        ensures { (result.count ≡ 0) × (result.alloc ≡ _alloc.now) }
    {
        let marker = PhantomData;
        Chain {
            first: null_mut(),
            marker,
        }
    }

    /// Gives up a chain that has no block left.
    pub(crate) fn end(self)
        requires { self.count ≡ 0 }
    {
        let Chain {
            first: _,
            marker: _,
        } = self;
    }

    /// Writes a link into the free block, which is then the first.
    pub(crate) fn push(self, memory: Memory, lease: Lease<A>) -> Chain<A>
        requires { (memory.size ≡ slot_size) × (lease.ptr ≡ memory.ptr) × (lease.size ≡ slot_size) × (lease.alloc ≡ self.alloc) }
        ensures { (result.count ≡ self.count + 1) × (result.alloc ≡ self.alloc) }
    {
        let Chain { first, marker } = self;
        let Memory { ptr, size: _ } = memory;
        let Lease { marker: _ } = lease;
        unsafe {
            let at = ptr as *mut *mut u8;
            *at = first;
        }
        Chain { first: ptr, marker }
    }

    /// Reads the link of the first block, and takes that block out.
    pub(crate) fn pop(self, size: usize) -> ((Memory, Lease<A>), Chain<A>)
        requires { (0 < self.count) × (size ≡ slot_size) }
        ensures block { (result.0.0.size ≡ slot_size) × (result.0.1.ptr ≡ result.0.0.ptr) × (result.0.1.size ≡ slot_size) × (result.0.1.alloc ≡ self.alloc) }
        ensures rest { (result.1.count + 1 ≡ self.count) × (result.1.alloc ≡ self.alloc) }
    {
        let Chain { first, marker } = self;
        let next = unsafe {
            let at = first as *mut *mut u8;
            *at
        };
        (
            (Memory { ptr: first, size }, Lease { marker }),
            Chain {
                first: next,
                marker,
            },
        )
    }
}

unsafe impl<A: Allocator + Send> Send for Chain<A> {}
