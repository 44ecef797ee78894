//! One block of raw memory: to make it, and to give it up.

ghost use Rattle.std.specs.Prelude.{◌≡◌, ℕ, IfSome};
ghost use denote.RawPtr.{Ptr};
ghost use Rattle.linked_list_allocator.specs.Region.{IsRegionSize};
ghost use Rattle.linked_list_allocator.specs.Ownership.{bytes_at, units_of};

use std::alloc::Allocator;
use std::marker::{Model, PhantomData, Send};

/// Each block is aligned to this many bytes.
const UNIT: usize = 16;

/// Owns `size` bytes in which nothing lies.
pub(crate) struct Memory {
    pub(crate) ptr: *mut u8,
    pub(crate) size: usize,
    ghost fits: { IsRegionSize size },
}

impl Model for Memory {
    ghost also_owns = { λ m. bytes_at m.ptr m.size };
}

/// Owns the right to give a block back to the allocator that made it.
pub(crate) struct Lease<A: Allocator> {
    pub(crate) marker: PhantomData<A>,
    ghost alloc: { A },
    ghost ptr: { Ptr },
    ghost size: { ℕ },
}

impl<A: Allocator> Model for Lease<A> {
    ghost also_owns = { λ l. A.dealloc_token l.alloc (units_of l.size) l.ptr };
}

impl Memory {
    /// Makes a block.
    pub(crate) fn new<A: Allocator>(alloc: &A, size: usize) -> Option<(Memory, Lease<A>)>
        requires { IsRegionSize size }
        ensures { IfSome result (λ m. (m.0.size ≡ size) × (m.1.alloc ≡ alloc.now) × (m.1.ptr ≡ m.0.ptr) × (m.1.size ≡ size)) }
    {
        match alloc.allocate(size, UNIT) {
            Ok(ptr) => {
                let marker = PhantomData;
                Some((Memory { ptr, size }, Lease { marker }))
            }
            Err(_) => None,
        }
    }

    /// Gives the block up.
    pub(crate) fn free<A: Allocator>(self, lease: Lease<A>, alloc: &A)
        requires { (lease.alloc ≡ alloc.now) × (lease.ptr ≡ self.ptr) × (lease.size ≡ self.size) }
    {
        let Memory { ptr, size } = self;
        let Lease { marker: _ } = lease;
        unsafe { alloc.deallocate(ptr, size, UNIT) }
    }
}

unsafe impl Send for Memory {}

unsafe impl<A: Allocator + Send> Send for Lease<A> {}
