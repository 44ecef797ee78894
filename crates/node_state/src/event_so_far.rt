//! An event in its midst, and the parts of the node that its steps change, each with the word that the definition has for it.

ghost use Rattle.std.specs.Prelude.{◌≡◌, ◌∷◌, [], IfOk};
ghost use Rattle.run_trace.specs.Local.{nothing, with_booted};
ghost use Rattle.bubbles.specs.Picking.{step};
ghost use Rattle.run_trace.specs.Steps.{say, put, print, enter, arrive, depart, choose, thread_in, thread_out, slots_out, slots_in, birth_in};
ghost use Rattle.node_state.specs.Events.{fresh_in};

use crate::output::EventOutput;
use crate::state::LocalState;
use crate::talk::Talk;
use basics::{Items, NoMemory};
use bubbles::{Forest, Step};
use marcel_core::{BIRTH_LIMIT, Homes};
use marcel_sync::Sems;
use node_thread::Thread;
use raw_slots::Pool;
use run_trace::{Body, Label, Send, Setup};
use slot_space::{NodeNo, SlotNo, SlotSet, Tid};
use std::alloc::Global;
use std::collections::BTreeMap;
use std::marker::Model;
use std::mem;

/// The state of a node, and what the event has come to so far.
#[derive(Drop)]
pub(crate) struct EventSoFar {
    pub(crate) alloc: Global,
    pub(crate) node: LocalState,
    /// Blocks for the slots of threads to come.
    pub(crate) pool: Pool,
    labels: Vec<Label>,
    sends: Vec<Send>,
    prints: Vec<u8>,
}

impl Model for EventSoFar {
    ghost use Rattle.run_trace.specs.Local.{EventSoFar as TheDoing};
    ghost use Rattle.node_state.specs.Views.{doing_of};

    ghost Value = { TheDoing };

    ghost view = { λ d. doing_of d.node d.labels.items d.sends.items d.prints.items };
}

impl EventSoFar {
    /// A node before its first event, and nothing has happened.
    pub(crate) fn fresh(alloc: Global, setup: &Setup, me: NodeNo) -> EventSoFar
        ensures { result ≡ nothing (fresh_in setup.now me) }
    {
        EventSoFar {
            alloc,
            node: LocalState {
                booted: false,
                free: SlotSet::starting(&setup.geometry, me),
                threads: BTreeMap::new(alloc),
                forest: Forest::new(alloc, setup.tree),
                homes: Homes::new(alloc, me),
                sems: Sems::new(alloc, me, setup.geometry.nodes()),
                halted: false,
                talk: Talk::new(alloc),
            },
            pool: Pool::new(alloc),
            labels: Vec::new(alloc),
            sends: Vec::new(alloc),
            prints: Vec::new(alloc),
        }
    }

    /// Has these spare blocks, and gives those that it had.
    pub(crate) fn exchange_pool(&mut self, pool: &mut Pool)
        ensures { self.new ≡ self.old }
    {
        mem::swap(&mut self.pool, pool);
    }

    /// What the event has come to, taken out.
    pub(crate) fn take_done(&mut self) -> EventOutput
        ensures labels { result.labels ≡ self.old.labels }
        ensures sends { result.sends ≡ self.old.sends }
        ensures prints { result.prints ≡ self.old.prints }
        ensures rest { self.new ≡ nothing self.old.node }
    {
        let alloc = self.alloc;
        EventOutput {
            labels: Items::new(mem::replace(&mut self.labels, Vec::new(alloc))),
            sends: Items::new(mem::replace(&mut self.sends, Vec::new(alloc))),
            prints: Items::new(mem::replace(&mut self.prints, Vec::new(alloc))),
        }
    }

    /// Adds a label.
    #[tactic(auto, unfolding(run_trace::specs::Steps::say))]
    pub(crate) fn say(&mut self, label: Label) -> Result<(), NoMemory>
        ensures { IfOk result (λ _. self.new ≡ say label self.old) }
    {
        self.labels.push(label)?;
        Ok(())
    }

    /// Adds a packet to send.
    #[tactic(auto, unfolding(run_trace::specs::Steps::put))]
    pub(crate) fn put(&mut self, to: NodeNo, body: Body) -> Result<(), NoMemory>
        ensures { IfOk result (λ _. self.new ≡ put to body self.old) }
    {
        self.sends.push(Send { to, body })?;
        Ok(())
    }

    /// These bytes go to the console.
    #[tactic(auto, unfolding(run_trace::specs::Steps::print))]
    pub(crate) fn print(&mut self, bytes: &[u8]) -> Result<(), NoMemory>
        ensures { IfOk result (λ _. self.new ≡ print bytes.now self.old) }
    {
        self.prints.extend_from_slice(bytes)?;
        Ok(())
    }

    /// A new thread of the node becomes a member of the bubble, where that takes members, else it is on the root list.
    #[tactic(auto, unfolding(run_trace::specs::Steps::enter))]
    pub(crate) fn enter(
        &mut self,
        t: &Tid,
        priority: u8,
        bubble: Option<u32>,
    ) -> Result<(), NoMemory>
        ensures { IfOk result (λ _. self.new ≡ enter t.now priority bubble self.old) }
    {
        let node = &mut self.node;
        node.forest.add_thread(*t, priority, bubble)
    }

    /// A thread that goes on is on the list from which it ran last.
    #[tactic(auto, unfolding(run_trace::specs::Steps::arrive))]
    pub(crate) fn arrive(&mut self, t: &Tid) -> Result<(), NoMemory>
        ensures { IfOk result (λ _. self.new ≡ arrive t.now self.old) }
    {
        let node = &mut self.node;
        node.forest.again(*t)
    }

    /// The thread is on no list and in no bubble of the node.
    #[tactic(auto, unfolding(run_trace::specs::Steps::depart))]
    pub(crate) fn depart(&mut self, t: &Tid)
        ensures { self.new ≡ depart t.now self.old }
    {
        let node = &mut self.node;
        node.forest.leave(*t);
    }

    /// A processor chooses: nothing, a thread, or a bubble, which is moved. Want of memory is also where the lists haven't the processor.
    #[tactic(auto, unfolding(run_trace::specs::Steps::choose))]
    pub(crate) fn choose(&mut self, vp: u8) -> Result<Step, NoMemory>
        ensures what { IfOk result (λ what. what ≡ (step vp self.old.node.forest).what) }
        ensures after { IfOk result (λ _. self.new ≡ choose vp self.old) }
    {
        let node = &mut self.node;
        if vp >= node.forest.tree().processors() {
            return Err(NoMemory);
        }
        node.forest.step(vp)
    }

    /// Adds a thread.
    #[tactic(auto, unfolding(run_trace::specs::Steps::thread_in))]
    pub(crate) fn thread_in(&mut self, t: &Tid, thread: Thread) -> Result<(), NoMemory>
        ensures { IfOk result (λ _. self.new ≡ thread_in t.now thread self.old) }
    {
        let node = &mut self.node;
        node.threads.insert(*t, thread)?;
        Ok(())
    }

    /// The thread is here no more, and its blocks are spare.
    #[tactic(auto, unfolding(run_trace::specs::Steps::thread_out))]
    pub(crate) fn thread_out(&mut self, t: &Tid)
        ensures { self.new ≡ thread_out t.now self.old }
    {
        let node = &mut self.node;
        if let Some(thread) = node.threads.remove(t) {
            thread.end(&mut self.pool);
        }
    }

    /// A thread gets this slot.
    #[tactic(auto, unfolding(run_trace::specs::Steps::slots_out))]
    pub(crate) fn slot_out(&mut self, slot: SlotNo)
        ensures { self.new ≡ slots_out (slot ∷ []) self.old }
    {
        let node = &mut self.node;
        node.free.remove(slot);
    }

    /// The node gets these slots.
    #[tactic(auto, unfolding(run_trace::specs::Steps::slots_in))]
    pub(crate) fn slots_in(&mut self, slots: &SlotSet)
        ensures { self.new ≡ slots_in slots.now self.old }
    {
        let node = &mut self.node;
        node.free.union_with(slots);
    }

    /// Adds a birth of this home. Want of memory is also where no more can be counted.
    #[tactic(auto, unfolding(run_trace::specs::Steps::birth_in))]
    pub(crate) fn birth_in(&mut self) -> Result<(), NoMemory>
        ensures { IfOk result (λ _. self.new ≡ birth_in self.old) }
    {
        let node = &mut self.node;
        if node.homes.births().len() >= BIRTH_LIMIT {
            return Err(NoMemory);
        }
        node.homes.born()?;
        Ok(())
    }

    /// The node has begun.
    pub(crate) fn begin(&mut self)
        ensures { self.new ≡ with_booted self.old }
    {
        let node = &mut self.node;
        node.booted = true;
    }
}
