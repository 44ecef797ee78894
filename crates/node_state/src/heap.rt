//! isomalloc and isofree: blocks of a thread, and the slots that it takes and gives for them.

ghost use Rattle.std.specs.Prelude.{◌≡◌, ◌<◌, ◌≤◌, ◌+◌, ℕ, true, false, IfOk, IfSome};
ghost use Rattle.slot_space.specs.Limits.{slot_limit};
ghost use Rattle.slot_space.specs.Sets.{has, minus, run};
ghost use Rattle.iso_blocks.specs.Heap.{rounded, place};
ghost use Rattle.run_trace.specs.Steps.{at_thread, thread_at};
ghost use Rattle.run_trace.specs.Machine.{free_run, places, allocates, allocates_at, frees};
ghost use Rattle.run_trace.specs.Calls.{place_code};
ghost use Rattle.run_trace.specs.Guests.{slots_for, heap_of};
ghost use Rattle.node_thread.specs.Limits.{block_limit};
ghost use Rattle.node_state.specs.Asking.{HasBlock};
ghost use Rattle.node_state.specs.Heaps.{CanBeTaken, takes_at, drops_at, gives_back};

use crate::event_so_far::EventSoFar;
use crate::here::Here;
use basics::{Items, NoMemory};
use run_trace::{Call, Label};
use slot_space::{Reply, SLOT_SIZE, SlotNo, SlotSet, Tid};

/// How many slots a block of at least so many bytes takes.
pub(crate) fn slots_for(len: u64) -> u16
    requires some { 1 ≤ len }
    requires few { len ≤ block_limit }
    ensures count { result ≡ slots_for (rounded len) }
    ensures some { 1 ≤ result }
    ensures few { result ≤ slot_limit }
{
    let size = (len + 15) / 16 * 16;
    ((size + (SLOT_SIZE - 1)) / SLOT_SIZE) as u16
}

/// The reply of a block that has this place or none.
fn place_code(address: Option<u64>) -> u64
    ensures { result ≡ place_code address }
{
    match address {
        None => Reply::Full.code(),
        Some(address) => address,
    }
}

/// The lowest run of so many slots of the node, of those that aren't the thread's.
fn new_run(own: &SlotSet, held: &SlotSet, count: u16) -> Option<SlotNo>
    requires { 1 ≤ count }
    ensures run { result ≡ free_run (minus own.now held.now) count }
    ensures within { IfSome result (λ first. first + count ≤ slot_limit) }
    ensures new { IfSome result (λ first. (s : ℕ) → has s (run first count) ≡ true → has s held.now ≡ false) }
{
    let mut free = *own;
    free.remove_all(held);
    // Its slots are below the limit.
    let _some = free.contains(SlotNo(0));
    free.lowest_run(count)
}

impl EventSoFar {
    /// The thread takes a run of the node's slots for its heap.
    #[tactic(auto, unfolding(run_trace::specs::Steps::takes_run, run_trace::specs::Steps::keep, run_trace::specs::Steps::slots_out))]
    fn takes_run(&mut self, t: &Tid, first: SlotNo, count: u16) -> Result<(), NoMemory>
        requires { CanBeTaken (thread_at t.now self.old) count first }
        ensures { IfOk result (λ _. self.new ≡ at_thread t.now (takes_at t.now first count) self.old) }
    {
        let node = &mut self.node;
        let pool = &mut self.pool;
        let Some(thread) = node.threads.get_mut(t) else {
            return Ok(());
        };
        thread.take(pool, first, count)?;
        node.free.remove_run(first, count);
        self.say(Label::Took {
            t: *t,
            first,
            count,
        })
    }

    /// The thread's block is placed where it has a place, else the reply is Full.
    #[tactic(auto, unfolding(run_trace::specs::Steps::judge_as, run_trace::specs::Steps::judge, run_trace::specs::Steps::keep))]
    fn places(&mut self, t: &Tid, len: u64) -> Result<(), NoMemory>
        requires some { 1 ≤ len }
        requires few { len ≤ block_limit }
        ensures { IfOk result (λ _. self.new ≡ at_thread t.now (places t.now (rounded len)) self.old) }
    {
        let node = &mut self.node;
        let Some(thread) = node.threads.get_mut(t) else {
            return Ok(());
        };
        let address = thread.place(len)?;
        self.answer(t, place_code(address))
    }

    /// The thread takes slots for its block, which is placed, or claims them where the node has no such run.
    pub(crate) fn allocates(&mut self, t: &Tid, len: u64) -> Result<(), NoMemory>
        requires some { 0 < len }
        requires few { len ≤ block_limit }
        ensures { IfOk result (λ _. self.new ≡ at_thread t.now (allocates t.now (rounded len)) self.old) }
    {
        let count = slots_for(len);
        let node = &self.node;
        let Some(thread) = node.threads.get(t) else {
            return Ok(());
        };
        match new_run(&node.free, &thread.slots(), count) {
            None => self.claims(t),
            Some(first) => {
                self.takes_run(t, first, count)?;
                self.places(t, len)
            }
        }
    }

    /// isomalloc, past its checks: a block that has no place takes slots first.
    pub(crate) fn isomallocs(&mut self, here: &Here<'_>, t: &Tid, len: u64) -> Result<(), NoMemory>
        requires some { 0 < len }
        requires few { len ≤ block_limit }
        ensures { IfOk result (λ _. self.new ≡ at_thread t.now (λ x. allocates_at here.now.me t.now len (place (heap_of x.guest.solo) (rounded len)) x) self.old) }
    {
        let call = Call::Isomalloc(len);
        let node = &self.node;
        let Some(thread) = node.threads.get(t) else {
            return Ok(());
        };
        match thread.place_of(len) {
            None => {
                self.asks_slots(t, call)?;
                self.serves(here, t)
            }
            Some(_) => {
                self.asks(t, call)?;
                self.places(t, len)
            }
        }
    }

    /// The node gets these slots of the thread, where there are any.
    #[tactic(auto, unfolding(crate::specs::Heaps::gives_back))]
    fn gives_back(&mut self, t: &Tid, slots: &SlotSet) -> Result<(), NoMemory>
        ensures { IfOk result (λ _. self.new ≡ gives_back t.now slots.now self.old) }
    {
        if slots.is_empty() {
            return Ok(());
        }
        let members = slots.members(self.alloc)?;
        self.say(Label::Gave {
            t: *t,
            slots: Items::new(members),
        })?;
        self.slots_in(slots);
        Ok(())
    }

    /// The thread's block at the address is gone, and with it the slots that no other block meets.
    #[tactic(auto, unfolding(run_trace::specs::Steps::keep))]
    fn drop_block(&mut self, t: &Tid, address: u64)
        requires { HasBlock address (thread_at t.now self.old) }
        ensures { self.new ≡ at_thread t.now (drops_at t.now address) self.old }
    {
        let node = &mut self.node;
        let pool = &mut self.pool;
        let Some(thread) = node.threads.get_mut(t) else {
            return;
        };
        thread.free(pool, address);
    }

    /// isofree, past its checks.
    pub(crate) fn frees(&mut self, t: &Tid, address: u64) -> Result<(), NoMemory>
        requires { HasBlock address (thread_at t.now self.old) }
        ensures { IfOk result (λ _. self.new ≡ at_thread t.now (frees t.now address) self.old) }
    {
        let node = &self.node;
        let Some(thread) = node.threads.get(t) else {
            return Ok(());
        };
        let Some(slots) = thread.empties(address) else {
            return Ok(());
        };
        self.gives_back(t, &slots)?;
        self.drop_block(t, address);
        self.judge(t, 0, None)?;
        self.tell(t, 0, None)
    }
}
