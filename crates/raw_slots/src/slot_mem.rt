//! One block, of the bytes of a slot.

ghost use Rattle.std.specs.Prelude.{◌≡◌, [], length, IfOk, vec_len, vec_capacity};
ghost use Rattle.std.specs.Vec.{vec_ptr};
ghost use Rattle.std.specs.Borrow.{sem};
ghost use Rattle.slot_space.specs.Limits.{slot_size};
ghost use Rattle.raw_slots.specs.Lending.{LendsBytes};
ghost use Rattle.raw_slots.specs.Zeros.{zeros};

use crate::chain::SIZE;
use crate::memory::{Lease, Memory};
use crate::shell::{Shell, close, open};
use basics::NoMemory;
use std::alloc::Global;
use std::marker::Model;
use std_alloc::vec::Lodged;

/// Owns one raw block, of a slot's bytes. Contracts see its bytes.
pub struct SlotMem {
    bytes: Vec<u8, Lodged>,
    shell: Shell,
    lease: Lease<Global>,
    alloc: Global,
}

impl Model for SlotMem {
    ghost use Rattle.std.specs.Prelude.{◌≡◌, ℕ, List, vec_len, vec_capacity};
    ghost use Rattle.std.specs.Vec.{vec_ptr};
    ghost use Rattle.slot_space.specs.Limits.{slot_size};

    ghost Value = { List ℕ };

    ghost view = { λ s. s.bytes.items };

    ghost invariant = { λ s. (vec_len s.bytes ≡ slot_size) × (vec_ptr s.bytes ≡ s.shell.ptr) × (vec_capacity s.bytes ≡ s.shell.size) × (s.shell.size ≡ slot_size) × (s.lease.ptr ≡ s.shell.ptr) × (s.lease.size ≡ slot_size) × (s.lease.alloc ≡ s.alloc) };
}

impl SlotMem {
    /// A new block of zeros.
    pub(crate) fn new(alloc: Global) -> Result<SlotMem, NoMemory>
        ensures { IfOk result (λ block. block ≡ zeros slot_size) }
    {
        match Memory::new(&alloc, SIZE) {
            Some((memory, lease)) => Ok(SlotMem::zeroed(memory, lease, alloc)),
            None => Err(NoMemory),
        }
    }

    /// A block over this memory, whose bytes are overwritten by zeros.
    pub(crate) fn zeroed(memory: Memory, lease: Lease<Global>, alloc: Global) -> SlotMem
        requires { (memory.size ≡ slot_size) × (lease.ptr ≡ memory.ptr) × (lease.size ≡ slot_size) × (lease.alloc ≡ alloc) }
        ensures { result ≡ zeros slot_size }
    {
        let (mut bytes, shell) = open(memory);
        push_zeros(&mut bytes, SIZE);
        SlotMem {
            bytes,
            shell,
            lease,
            alloc,
        }
    }

    /// Its bytes.
    pub fn bytes(&self) -> &[u8]
        ensures value { result.now ≡ self.now }
        ensures len { length self.now ≡ slot_size }
    {
        self.bytes.as_slice()
    }

    /// Its bytes, for writing.
    pub fn bytes_mut(&mut self) -> &mut [u8]
        ensures* writes_back { sem 𝓛 (LendsBytes self.entry result) }
        ensures value { result.now ≡ self.old }
        ensures len { length self.old ≡ slot_size }
    {
        self.bytes.as_mut_slice()
    }

    /// The raw block, apart from its bytes.
    pub(crate) fn into_block(self, to: Global) -> (Memory, Lease<Global>)
        ensures { (result.0.size ≡ slot_size) × (result.1.ptr ≡ result.0.ptr) × (result.1.size ≡ slot_size) × (result.1.alloc ≡ to) }
    {
        let SlotMem {
            bytes,
            shell,
            lease,
            alloc: _,
        } = self;
        (close(bytes, shell), lease)
    }
}

/// Fills an empty vector's room with zeros.
fn push_zeros(bytes: &mut Vec<u8, Lodged>, count: usize)
    requires { (vec_len bytes.old ≡ 0) × (vec_capacity bytes.old ≡ count) × (bytes.old.items ≡ []) }
    ensures items { bytes.new.items ≡ zeros count }
    ensures len { vec_len bytes.new ≡ count }
    ensures in_place { (vec_ptr bytes.new ≡ vec_ptr bytes.old) × (vec_capacity bytes.new ≡ vec_capacity bytes.old) }
{
    for _n in 0..count {
        bytes.push_reserved(0);
    }
}

/// Gives the memory up.
impl Drop for SlotMem {
    fn drop(self) {
        let SlotMem {
            bytes,
            shell,
            lease,
            alloc,
        } = self;
        close(bytes, shell).free(lease, &alloc);
    }
}
