//! Births of threads.

ghost use Rattle.std.specs.Prelude.{◌≡◌, ◌<◌, ◌≤◌, ◌%◌, IfOk, IfSome};
ghost use Rattle.slot_space.specs.Limits.{slot_limit};
ghost use Rattle.run_trace.specs.Guests.{stack_end};
ghost use Rattle.run_trace.specs.Bubbles.{bubble_for};
ghost use Rattle.run_trace.specs.Steps.{next_name, enter, birth};
ghost use Rattle.run_trace.specs.Machine.{free_slot};

use crate::event_so_far::EventSoFar;
use crate::here::Here;
use basics::NoMemory;
use node_thread::Thread;
use run_trace::{Label, Setup, Why};
use slot_space::{SLOT_SIZE, SlotNo, Tid};

/// Where the stack of a slot ends.
fn stack_end(setup: &Setup, slot: SlotNo) -> u64
    ensures { result ≡ stack_end slot }
{
    setup.geometry.base(slot) + SLOT_SIZE
}

/// The bubble for which a thread is born.
fn bubble_for(why: &Why) -> Option<u32>
    ensures { result ≡ bubble_for why.now }
{
    match why {
        Why::Inside(_, bubble) => Some(*bubble),
        _ => None,
    }
}

impl EventSoFar {
    /// The name of the next thread that is born here.
    pub(crate) fn next_name(&self, here: &Here<'_>) -> Tid
        ensures { result ≡ next_name here.now.me self.now }
    {
        let node = &self.node;
        Tid {
            home: here.me,
            seq: node.homes.births().len() as u32,
        }
    }

    /// The least slot that no thread holds.
    #[tactic(auto, using(crate::proofs::Lowest::lowest_below))]
    pub(crate) fn free_slot(&self) -> Option<SlotNo>
        ensures slot { result ≡ free_slot self.now.node.slots.free }
        ensures small { IfSome result (λ slot. slot < slot_limit) }
    {
        let node = &self.node;
        node.free.lowest_run(1)
    }

    /// A new thread becomes a member of the bubble for which it is born, where that takes members, else it is on the root list.
    fn enter_for(&mut self, t: &Tid, priority: u8, why: &Why) -> Result<(), NoMemory>
        ensures { IfOk result (λ _. self.new ≡ enter t.now priority (bubble_for why.now) self.old) }
    {
        self.enter(t, priority, bubble_for(why))
    }

    /// A thread is born, with this slot as its stack.
    #[tactic(auto, unfolding(run_trace::specs::Steps::birth))]
    pub(crate) fn birth(
        &mut self,
        here: &Here<'_>,
        why: Why,
        entry: u64,
        a0: u64,
        priority: u8,
        slot: SlotNo,
    ) -> Result<(), NoMemory>
        requires slot { slot < slot_limit }
        requires aligned { entry % 4 ≡ 0 }
        requires low { priority ≤ 7 }
        ensures { IfOk result (λ _. self.new ≡ birth here.now.me why entry a0 priority slot self.old) }
    {
        let t = self.next_name(here);
        let sp = stack_end(here.program.setup(), slot);
        self.say(Label::Born {
            t,
            why,
            entry,
            a0,
            a1: 0,
            sp,
            slot,
        })?;
        self.slot_out(slot);
        self.birth_in()?;
        let pool = &mut self.pool;
        let thread = Thread::newborn(self.alloc, pool, entry, a0, sp, slot, priority)?;
        self.thread_in(&t, thread)?;
        self.enter_for(&t, priority, &why)
    }
}
