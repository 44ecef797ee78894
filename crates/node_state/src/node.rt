//! A node.

ghost use Rattle.std.specs.Prelude.{◌≡◌, ◌≤◌, IfOk, length, slice_get};
ghost use Rattle.run_trace.specs.Machine.{local_event};
ghost use Rattle.levels.specs.Choice.{has_ready};
ghost use Rattle.node_state.specs.Views.{AreInOrder};
ghost use Rattle.node_state.specs.Listed.{listed};
ghost use Rattle.node_state.specs.Spare.{spare_kept};
ghost use Rattle.node_state.specs.Events.{StartsAligned, fresh_in, can_act, Answers};

use crate::event_so_far::EventSoFar;
use crate::here::Here;
use crate::output::EventOutput;
use basics::NoMemory;
use raw_slots::Pool;
use run_trace::{Act, Packet, Program, Setup};
use slot_space::{NodeNo, Tid};
use std::alloc::Global;
use std::marker::Model;

/// The most blocks that stay spare behind an event: else those that come with threads would gather where threads end.
const SPARE_KEPT: u32 = 64;

/// The state of one node. Contracts see it as the definition's.
#[derive(Drop)]
pub struct NodeState {
    doing: EventSoFar,
    /// Blocks for the slots of threads to come. An event has them while it lasts.
    pool: Pool,
}

impl Model for NodeState {
    ghost use Rattle.std.specs.Prelude.{◌≡◌, ◌≤◌};
    ghost use Rattle.run_trace.specs.Local.{Local, nothing};
    ghost use Rattle.node_state.specs.Spare.{spare_kept};

    ghost Value = { Local };

    ghost view = { λ n. n.doing.node };

    // Between events nothing has happened, and few blocks are spare.
    ghost invariant = { λ n. (n.doing ≡ nothing n.doing.node) × (n.pool ≤ spare_kept) };
}

impl NodeState {
    /// A node before its first event.
    pub fn fresh(alloc: Global, setup: &Setup, me: NodeNo) -> NodeState
        ensures { result ≡ fresh_in setup.now me }
    {
        NodeState {
            doing: EventSoFar::fresh(alloc, setup, me),
            pool: Pool::new(alloc),
        }
    }

    /// How many blocks of memory are spare, for the slots of threads to come.
    pub fn spare(&self) -> u32
        ensures { result ≤ spare_kept }
    {
        self.pool.spare()
    }

    /// One event: what it has come to, or None where the act isn't possible, and then nothing has changed. Want of memory is
    /// also where a home can't count another birth or another semaphore, the run lists another arrival or bubble, or a bubble its members;
    /// and where slots are claimed for a call that its checks refuse, the run lists have other processors than the program says, or a
    /// processor that has a pick doesn't come to a thread of the node, as none does.
    pub fn event(
        &mut self,
        program: &Program,
        me: NodeNo,
        act: Act,
        took: Option<Packet>,
    ) -> Result<Option<EventOutput>, NoMemory>
        requires image { StartsAligned program.now.image }
        ensures { IfOk result (λ done. Answers (local_event program.now me self.old act took) self.old self.new done) }
    {
        let here = Here { program, me };
        self.doing.exchange_pool(&mut self.pool);
        let result = self.doing.event(&here, &act, took);
        let done = self.doing.take_done();
        self.doing.exchange_pool(&mut self.pool);
        self.pool.trim(SPARE_KEPT);
        if result? { Ok(Some(done)) } else { Ok(None) }
    }

    /// Whether the processor has a pick, or the thread that is to move is on a run list. An event asks the same.
    pub fn can(&self, act: &Act) -> bool
        ensures { result ≡ can_act self.now act.now }
    {
        self.doing.node.can(act)
    }

    /// Whether the processor has a pick.
    pub fn has_pick(&self, vp: u8) -> bool
        ensures { result ≡ has_ready self.now.forest.lists.tree vp self.now.forest.lists.rows }
    {
        self.doing.node.forest.has_pick(vp)
    }

    /// How many threads and bubbles are on run lists.
    pub fn entities(&self) -> u32
        ensures { result ≡ length self.now.forest.lists.rows }
    {
        self.doing.node.forest.count()
    }

    /// How many threads are on run lists.
    pub fn ready(&self) -> usize
        ensures { result ≡ length (listed self.now) }
    {
        self.doing.node.ready()
    }

    /// The name at this place among those of the threads that are on run lists, in the order of names.
    pub fn ready_at(&self, place: usize) -> Option<Tid>
        ensures { result ≡ slice_get (listed self.now) place }
    {
        self.doing.node.ready_at(place)
    }

    /// The names of the threads that are here and on run lists, ascending.
    pub fn ready_names(&self, alloc: Global) -> Result<Vec<Tid>, NoMemory>
        ensures { IfOk result (λ names. names.items ≡ listed self.now) }
    {
        self.doing.node.ready_names(alloc)
    }

    /// How many threads are here and live. They stand in the order of their names.
    pub fn threads(&self) -> usize
        ensures count { result ≡ length self.now.threads }
        ensures ordered { AreInOrder self.now.threads }
    {
        self.doing.node.threads.len()
    }

    /// Whether the node has begun.
    pub fn begun(&self) -> bool
        ensures { result ≡ self.now.booted }
    {
        self.doing.node.booted
    }

    /// Whether a thread has called halt here.
    pub fn halted(&self) -> bool
        ensures { result ≡ self.now.halted }
    {
        self.doing.node.halted
    }
}
