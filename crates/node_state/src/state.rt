//! The state of a node.

ghost use Rattle.std.specs.Prelude.{◌≡◌, IfOk, length, slice_get};
ghost use Rattle.node_state.specs.Events.{can_act};
ghost use Rattle.node_state.specs.Listed.{listed_among, listed};

use crate::talk::Talk;
use basics::NoMemory;
use bubbles::Forest;
use marcel_core::Homes;
use marcel_sync::Sems;
use node_thread::Thread;
use run_trace::Act;
use slot_space::{SlotSet, Tid};
use std::alloc::Global;
use std::collections::BTreeMap;
use std::marker::Model;

/// The state of a node.
#[derive(Drop)]
pub(crate) struct LocalState {
    pub(crate) booted: bool,
    /// The slots that no thread holds.
    pub(crate) free: SlotSet,
    /// The threads that are here and live.
    pub(crate) threads: BTreeMap<Tid, Thread>,
    /// Its run lists and bubbles.
    pub(crate) forest: Forest,
    /// The threads that were born here.
    pub(crate) homes: Homes,
    /// The semaphores that were made here.
    pub(crate) sems: Sems,
    pub(crate) halted: bool,
    /// What it keeps of the negotiation of slots.
    pub(crate) talk: Talk,
}

impl Model for LocalState {
    ghost use Rattle.run_trace.specs.Local.{Local};
    ghost use Rattle.node_state.specs.Views.{local_of};

    ghost Value = { Local };

    ghost view = { λ s. local_of s.booted s.free s.threads.entries s.forest s.homes.births s.sems.sems s.halted s.talk };
}

impl LocalState {
    /// The processor has a pick, or the thread that is to move is on a run list. The other acts need neither.
    pub(crate) fn can(&self, act: &Act) -> bool
        ensures { result ≡ can_act self.now act.now }
    {
        match act {
            Act::Run(vp, _) => self.forest.has_pick(*vp),
            Act::Move(t, _) => self.forest.on_list(*t),
            Act::Boot => true,
            Act::Take(_) => true,
        }
    }

    /// The names of the threads that are on run lists, ascending.
    pub(crate) fn ready_names(&self, alloc: Global) -> Result<Vec<Tid>, NoMemory>
        ensures { IfOk result (λ names. names.items ≡ listed self.now) }
    {
        let mut names = Vec::new(alloc);
        for (t, _) in &self.threads {
            if !self.forest.on_list(*t) {
                continue;
            }
            names.push(*t)?;
        }
        Ok(names)
    }

    /// How many threads are on run lists.
    pub(crate) fn ready(&self) -> usize
        ensures { result ≡ length (listed self.now) }
    {
        let mut count = self.threads.len();
        for (t, _) in &self.threads {
            if self.forest.on_list(*t) {
                continue;
            }
            count -= 1;
        }
        count
    }

    /// The name at this place among those of the threads that are on run lists.
    pub(crate) fn ready_at(&self, place: usize) -> Option<Tid>
        ensures { result ≡ slice_get (listed self.now) place }
    {
        let mut left = place;
        for (t, _) in &self.threads {
            if !self.forest.on_list(*t) {
                continue;
            }
            if left == 0 {
                return Some(*t);
            }
            left -= 1;
        }
        None
    }
}
