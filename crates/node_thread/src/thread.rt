//! A thread that is on a node.

ghost use Rattle.std.specs.Prelude.{◌≡◌, ◌<◌, ◌≤◌, ◌+◌, ◌%◌, ◌∷◌, [], length, max, min, true, IfOk, OnOk, OnErr, IsTrue, Option, None};
ghost use Rattle.std.specs.Option.{SomeIff};
ghost use Rattle.slot_space.specs.Limits.{slot_limit, node_limit};
ghost use Rattle.slot_space.specs.Sets.{insert, run};
ghost use Rattle.iso_blocks.specs.Heap.{rounded, place, starts_at, emptied};
ghost use Rattle.rv_step.specs.Access.{read};
ghost use Rattle.run_trace.specs.declared.node.Wait.TheVariants as wait_of;
ghost use Rattle.run_trace.specs.Guests.{waits, is_unwaiting, newborn, told, packed, unpacked, guest_slots, heap_of, with_placed, without_block, takes_slots, gives_slots};
ghost use Rattle.run_trace.specs.Calls.{call_of};
ghost use Rattle.node_thread.specs.Limits.{print_limit, block_limit, spare_limit};
ghost use Rattle.node_thread.specs.Runs.{run_at, after_run};
ghost use Rattle.node_thread.specs.Views.{IsNew};
ghost use Rattle.pack_thread.specs.Threads.{thread_of as traveller, IsThread, IsTyped};

use crate::blocks::{put_all, spare_block};
use crate::heap_slots::{give_slots, take_run};
use basics::{Items, NoMemory};
use iso_blocks::Blocks;
use lrpc::Duty;
use pack_thread::{Baggage, Packed};
use raw_slots::Pool;
use run_trace::{Call, Wait};
use rv_inst::Image;
use rv_step::{Hart, Ran};
use slot_space::{SlotNo, SlotSet, Tid};
use std::alloc::Global;
use std::marker::Model;

/// The most bytes of a line that a thread prints.
pub const PRINT_LIMIT: usize = 256;

/// A thread: what it waits for, its hart with the bytes of its slots, which slots they are, and its blocks.
#[derive(Drop)]
pub struct Thread {
    wait: Wait,
    priority: u8,
    stack: SlotNo,
    hart: Hart,
    slots: SlotSet,
    blocks: Blocks,
}

impl Model for Thread {
    ghost use Rattle.run_trace.specs.Guests.{Thread as TheThread};
    ghost use Rattle.node_thread.specs.Views.{thread_of, IsOwn, CanTravel};

    ghost Value = { TheThread };

    ghost view = { λ t. thread_of t.wait t.priority t.stack t.hart t.blocks.live };

    // The slots and blocks beside the hart are those that it holds, and it can be packed at any time.
    ghost invariant = { λ t. IsOwn t.stack t.hart t.slots t.blocks × CanTravel t.priority t.hart };
}

/// The set of this slot alone.
#[tactic(auto, unfolding(slot_space::specs::Sets::insert))]
fn only(slot: SlotNo) -> SlotSet
    requires { slot < slot_limit }
    ensures { result ≡ slot ∷ [] }
{
    let mut slots = SlotSet::empty();
    slots.insert(slot);
    slots
}

/// There are 32 registers.
fn are_all(regs: &[u64; 32])
    ensures { length regs.now ≡ 32 }
{}

impl Thread {
    /// A new thread, whose only slot is its stack: room and a spare block come first, and what follows can't fail.
    pub fn newborn(
        alloc: Global,
        pool: &mut Pool,
        entry: u64,
        a0: u64,
        sp: u64,
        slot: SlotNo,
        priority: u8,
    ) -> Result<Thread, NoMemory>
        requires slot { slot < slot_limit }
        requires aligned { entry % 4 ≡ 0 }
        requires low { priority ≤ 7 }
        ensures thread { IfOk result (λ x. x ≡ waits wait_of.No (newborn entry a0 0 sp slot priority)) }
        ensures spare { OnOk result (pool.new + 1 ≡ max pool.old 1) }
        ensures refused { OnErr result (pool.old ≤ pool.new) }
    {
        let mut hart = Hart::birth(alloc, entry, a0, 0, sp);
        pool.reserve(1)?;
        hart.mem.make_room(1)?;
        hart.mem.grant(slot, spare_block(pool));
        Ok(Thread {
            wait: Wait::No,
            priority,
            stack: slot,
            hart,
            slots: only(slot),
            blocks: Blocks::new(alloc),
        })
    }

    /// It has ended, and its blocks are spare.
    pub fn end(self, pool: &mut Pool)
        ensures { pool.new ≡ min (pool.old + length (guest_slots self.guest)) spare_limit }
    {
        let Thread {
            wait: _,
            priority: _,
            stack: _,
            hart,
            slots: _,
            blocks: _,
        } = self;
        let Hart {
            regs: _,
            pc: _,
            mem,
        } = hart;
        put_all(pool, mem);
    }

    /// As it travels, with its blocks.
    pub fn pack(self, alloc: Global, t: &Tid) -> Result<Packed, NoMemory>
        requires { t.now.home < node_limit }
        ensures { IfOk result (λ x. x ≡ packed t.now self.guest) }
    {
        // Its slots ascend, and there are 32 registers.
        let _stack = self.slots.contains(self.stack);
        are_all(&self.hart.regs);
        let Thread {
            wait: _,
            priority,
            stack,
            hart,
            slots: _,
            blocks,
        } = self;
        let _sound = blocks.heap_slots();
        let baggage = Baggage {
            tid: *t,
            priority,
            calls: 0,
            duty: Duty::None,
            hart,
            stack,
            blocks,
        };
        match Packed::of(alloc, baggage) {
            Ok(packed) => Ok(packed),
            Err(_) => Err(NoMemory),
        }
    }

    /// The thread that has come with all this.
    pub(crate) fn unpack(baggage: Baggage) -> Thread
        requires rules { IsThread (traveller baggage) }
        requires typed { IsTyped (traveller baggage) }
        ensures { result ≡ waits wait_of.No (unpacked (traveller baggage)) }
    {
        let Baggage {
            tid: _,
            priority,
            calls: _,
            duty: _,
            hart,
            stack,
            blocks,
        } = baggage;
        let mut slots = blocks.heap_slots();
        slots.insert(stack);
        Thread {
            wait: Wait::No,
            priority,
            stack,
            hart,
            slots,
            blocks,
        }
    }

    /// Its priority.
    pub fn priority(&self) -> u8
        ensures { result ≡ self.now.guest.priority }
    {
        self.priority
    }

    /// Where it stands.
    pub fn pc(&self) -> u64
        ensures { result ≡ self.now.guest.solo.state.pc }
    {
        self.hart.pc
    }

    /// The slots that it holds.
    pub fn slots(&self) -> SlotSet
        ensures { result ≡ guest_slots self.now.guest }
    {
        self.slots
    }

    /// What it waits for.
    pub fn wait(&self) -> Wait
        ensures { result ≡ self.now.wait }
    {
        self.wait
    }

    /// It waits for nothing.
    pub fn is_unwaiting(&self) -> bool
        ensures { result ≡ is_unwaiting self.now }
    {
        match self.wait {
            Wait::No => true,
            _ => false,
        }
    }

    /// It waits from now on.
    pub fn wait_for(&mut self, wait: Wait)
        ensures { self.new ≡ waits wait self.old.guest }
    {
        self.wait = wait;
    }

    /// It has its reply, and goes on.
    #[tactic(auto, using(crate::proofs::Aligned::told_so))]
    pub fn tell(&mut self, code: u64, second: Option<u64>)
        ensures { self.new ≡ waits wait_of.No (told code second self.old.guest) }
    {
        self.hart.tell(code, second);
        self.wait = Wait::No;
    }

    /// It runs for at most so many instructions.
    #[tactic(auto, using(crate::proofs::Runs::run_is))]
    pub fn run(&mut self, image: &Image, quantum: u32) -> Ran
        ensures thread { self.new ≡ after_run (run_at image.now.bytes quantum self.old) self.old }
        ensures count { result.count ≡ (run_at image.now.bytes quantum self.old).count }
        ensures stop { result.stop ≡ (run_at image.now.bytes quantum self.old).stop }
    {
        self.hart.run(image, quantum)
    }

    /// What it asks at its ECALL.
    pub fn call(&self) -> Call
        ensures { result ≡ call_of self.now.guest.solo.state }
    {
        let regs = &self.hart.regs;
        Call::of(regs[17], regs[10], regs[11], regs[12], regs[13])
    }

    /// At most a line's bytes from an address on, None where one of them isn't readable.
    pub fn bytes(
        &self,
        alloc: Global,
        image: &Image,
        address: u64,
        len: usize,
    ) -> Result<Option<Items<u8>>, NoMemory>
        requires { len ≤ print_limit }
        ensures { IfOk result (λ bytes. bytes ≡ read image.now.bytes self.now.guest.solo.state.memory address len) }
    {
        let mut buffer = [0; PRINT_LIMIT];
        let part = &mut buffer[..len];
        if !self.hart.mem.read_bytes(image, address, part) {
            return Ok(None);
        }
        let mut bytes = Vec::new(alloc);
        bytes.extend_from_slice(&buffer[..len])?;
        Ok(Some(Items::new(bytes)))
    }

    /// A live block of it starts at the address.
    pub fn has_block(&self, address: u64) -> bool
        ensures { result ≡ starts_at self.now.guest.solo.live address }
    {
        self.blocks.empties(address).is_some()
    }

    /// Where a block of at least so many bytes would be placed.
    pub fn place_of(&self, len: u64) -> Option<u64>
        requires some { 1 ≤ len }
        requires few { len ≤ block_limit }
        ensures { result ≡ place (heap_of self.now.guest.solo) (rounded len) }
    {
        self.blocks.place_of(len)
    }

    /// A block of at least so many bytes is placed, where it has a place, and the thread waits no more.
    pub fn place(&mut self, len: u64) -> Result<Option<u64>, NoMemory>
        requires some { 1 ≤ len }
        requires few { len ≤ block_limit }
        ensures address { IfOk result (λ address. address ≡ place (heap_of self.old.guest.solo) (rounded len)) }
        ensures thread { IfOk result (λ address. self.new ≡ waits wait_of.No (with_placed (rounded len) address self.old.guest)) }
    {
        let address = self.blocks.place(len)?;
        self.wait = Wait::No;
        Ok(address)
    }

    /// It gets a run of slots for its heap, none of which is its own yet.
    pub fn take(&mut self, pool: &mut Pool, first: SlotNo, count: u16) -> Result<(), NoMemory>
        requires within { first + count ≤ slot_limit }
        requires new { IsNew first count self.old.guest }
        ensures thread { IfOk result (λ _. self.new ≡ waits wait_of.No (takes_slots (run first count) self.old.guest)) }
        ensures spare { OnOk result (pool.new + count ≡ max pool.old count) }
    {
        // Its slots ascend.
        let _stack = self.slots.contains(self.stack);
        pool.reserve(count as u32)?;
        self.hart.mem.make_room(count)?;
        self.blocks.add_slots(first, count)?;
        take_run(pool, &mut self.hart.mem, first.0, count);
        self.slots.insert_run(first, count);
        self.wait = Wait::No;
        Ok(())
    }

    /// The heap slots that no other block meets, where a live block starts at the address.
    pub fn empties(&self, address: u64) -> Option<SlotSet>
        ensures slots { SomeIff result (IsTrue (starts_at self.now.guest.solo.live address)) (emptied (heap_of self.now.guest.solo) address) }
    {
        self.blocks.empties(address)
    }

    /// Its block at the address is gone, and so are the slots that no other block meets; it waits no more.
    pub fn free(&mut self, pool: &mut Pool, address: u64)
        requires { starts_at self.old.guest.solo.live address ≡ true }
        ensures thread { self.new ≡ waits wait_of.No (without_block address (gives_slots (emptied (heap_of self.old.guest.solo) address) self.old.guest)) }
        ensures spare { min (pool.new + length (guest_slots self.new.guest)) spare_limit ≡ min (pool.old + length (guest_slots self.old.guest)) spare_limit }
    {
        let Some(slots) = self.blocks.free(address) else {
            return;
        };
        give_slots(pool, &mut self.hart.mem, &slots);
        self.slots.remove_all(&slots);
        self.wait = Wait::No;
    }
}
