//! A pool of spare blocks.

ghost use Rattle.std.specs.Prelude.{◌≡◌, ◌+◌, ◌-◌, ◌^◌, ◌<◌, ◌≤◌, max, min, IfOk, IsOk, OnOk, OnErr};
ghost use Rattle.slot_space.specs.Limits.{slot_size};
ghost use Rattle.raw_slots.specs.Zeros.{zeros};

use crate::chain::{Chain, SIZE};
use crate::memory::{Lease, Memory};
use crate::slot_mem::SlotMem;
use basics::NoMemory;
use std::alloc::Global;
use std::marker::Model;
use std::mem::replace;

/// Spare blocks, each of which points to the next. Contracts see how many they are.
pub struct Pool {
    chain: Chain<Global>,
    spare: u32,
    alloc: Global,
}

impl Model for Pool {
    ghost use Rattle.std.specs.Prelude.{◌≡◌, ℕ};

    ghost Value = { ℕ };

    ghost view = { λ p. p.spare };

    ghost invariant = { λ p. (p.chain.count ≡ p.spare) × (p.chain.alloc ≡ p.alloc) };
}

impl Pool {
    /// No spare block. Later calls use this allocator.
    pub fn new(alloc: Global) -> Pool
        ensures { result ≡ 0 }
    {
        Pool {
            chain: Chain::empty(&alloc),
            spare: 0,
            alloc,
        }
    }

    /// How many blocks are spare.
    pub fn spare(&self) -> u32
        ensures value { result ≡ self.now }
        ensures range { self.now < 2 ^ 32 }
    {
        self.spare
    }

    /// Makes blocks until at least `n` are spare. Where there is no memory for all, those that were made stay.
    pub fn reserve(&mut self, n: u32) -> Result<(), NoMemory>
        ensures ok { OnOk result (self.new ≡ max self.old n) }
        ensures err { OnErr result ((self.old ≤ self.new) × (self.new < n)) }
    {
        while self.spare < n {
            let Some((memory, lease)) = Memory::new(&self.alloc, SIZE) else {
                return Err(NoMemory);
            };
            self.add(memory, lease);
        }
        Ok(())
    }

    /// A block of zeros. It can't fail where a block is spare; where none is, it asks for memory.
    pub fn take(&mut self) -> Result<SlotMem, NoMemory>
        ensures zeroed { IfOk result (λ block. block ≡ zeros slot_size) }
        ensures spare { 0 < self.old → IsOk result × (self.new + 1 ≡ self.old) }
        ensures none { self.old ≡ 0 → self.new ≡ 0 }
    {
        if self.spare == 0 {
            return SlotMem::new(self.alloc);
        }
        let (memory, lease) = self.unlink();
        Ok(SlotMem::zeroed(memory, lease, self.alloc))
    }

    /// Takes a block as a spare one, without memory, whichever pool made it. A pool of `u32::MAX` spare blocks gives it up
    /// instead.
    pub fn put(&mut self, block: SlotMem)
        ensures { self.new ≡ min (self.old + 1) (2 ^ 32 - 1) }
    {
        if self.spare == u32::MAX {
            return;
        }
        let (memory, lease) = block.into_block(self.alloc);
        self.add(memory, lease);
    }

    /// Gives spare blocks up until at most `n` are spare. It takes no memory.
    pub fn trim(&mut self, n: u32)
        ensures { self.new ≡ min self.old n }
    {
        while n < self.spare {
            let (memory, lease) = self.unlink();
            memory.free(lease, &self.alloc);
        }
    }

    /// Takes a spare block out.
    fn unlink(&mut self) -> (Memory, Lease<Global>)
        requires { 0 < self.old }
        ensures block { (result.0.size ≡ slot_size) × (result.1.ptr ≡ result.0.ptr) × (result.1.size ≡ slot_size) }
        ensures spare { self.new + 1 ≡ self.old }
    {
        let empty = Chain::empty(&self.alloc);
        let chain = replace(&mut self.chain, empty);
        let (block, rest) = chain.pop(SIZE);
        replace(&mut self.chain, rest).end();
        self.spare -= 1;
        block
    }

    /// Links one more block in.
    fn add(&mut self, memory: Memory, lease: Lease<Global>)
        requires room { self.old + 1 < 2 ^ 32 }
        requires block { (memory.size ≡ slot_size) × (lease.ptr ≡ memory.ptr) × (lease.size ≡ slot_size) }
        ensures { self.new ≡ self.old + 1 }
    {
        let empty = Chain::empty(&self.alloc);
        let chain = replace(&mut self.chain, empty);
        let longer = chain.push(memory, lease);
        replace(&mut self.chain, longer).end();
        self.spare += 1;
    }
}

/// Gives the memory of each spare block up.
impl Drop for Pool {
    fn drop(self) {
        let Pool {
            chain,
            spare,
            alloc,
        } = self;
        let mut chain = chain;
        for _n in 0..spare {
            let ((memory, lease), rest) = chain.pop(SIZE);
            chain = rest;
            memory.free(lease, &alloc);
        }
        chain.end();
    }
}
