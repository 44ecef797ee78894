//! The bytes of a raw block, as a `Vec` that lies in it.

ghost use Rattle.std.specs.Prelude.{◌≡◌, [], length, vec_len, vec_capacity};
ghost use Rattle.std.specs.Vec.{vec_ptr};
ghost use Rattle.linked_list_allocator.specs.Region.{IsRegionSize};
ghost use Rattle.raw_slots.specs.Bytes.{way_back};

use crate::memory::Memory;
use std::marker::Model;
use std_alloc::vec::{Lodged, lodge};

/// Owns the right to have the block again for the room of its bytes.
pub(crate) struct Shell {
    pub(crate) ptr: *mut u8,
    pub(crate) size: usize,
    ghost fits: { IsRegionSize size },
}

impl Model for Shell {
    ghost also_owns = { λ s. way_back s.ptr s.size };
}

/// The block's bytes: an empty `Vec` in it, which neither grows nor frees it.
pub(crate) fn open(memory: Memory) -> (Vec<u8, Lodged>, Shell)
    ensures vec { (result.0.items ≡ []) × (vec_len result.0 ≡ 0) × (vec_capacity result.0 ≡ memory.size) × (vec_ptr result.0 ≡ memory.ptr) }
    ensures shell { (result.1.ptr ≡ memory.ptr) × (result.1.size ≡ memory.size) }
{
    let Memory { ptr, size } = memory;
    let vec = unsafe { lodge(ptr, 0, size) };
    (vec, Shell { ptr, size })
}

/// The block again, whatever the `Vec` holds.
pub(crate) fn close(vec: Vec<u8, Lodged>, shell: Shell) -> Memory
    requires { (vec_ptr vec ≡ shell.ptr) × (vec_capacity vec ≡ shell.size) }
    ensures { (result.ptr ≡ shell.ptr) × (result.size ≡ shell.size) }
{
    let Shell { ptr, size } = shell;
    let _len = vec.dislodge();
    Memory { ptr, size }
}

unsafe impl Send for Shell {}
