//! Moves of threads between nodes.

ghost use Rattle.std.specs.Prelude.{◌≡◌, ◌<◌, ◌==◌, not, true, IfOk};
ghost use Rattle.std.specs.List.{list_all};
ghost use Rattle.run_trace.specs.Guests.{guest_slots};
ghost use Rattle.run_trace.specs.Local.{nothing};
ghost use Rattle.run_trace.specs.Names.{tid_of};
ghost use Rattle.run_trace.specs.Steps.{at_thread, leaves};
ghost use Rattle.run_trace.specs.Machine.{goes, migrates, sends_away, sends, moves_listed, lives_yet, are_away};
ghost use Rattle.run_trace.specs.Bubbles.{is_listed};
ghost use Rattle.slot_space.specs.Limits.{node_limit};
ghost use Rattle.slot_space.specs.Replies.{tid_value};
ghost use Rattle.slot_space.specs.Sets.{meets};
ghost use Rattle.node_state.specs.Events.{Becomes};
ghost use Rattle.node_state.specs.Moves.{may_enter, enters};

use crate::event_so_far::EventSoFar;
use crate::here::Here;
use crate::names::{NAMES, home_of, tid_of};
use crate::state::LocalState;
use basics::NoMemory;
use node_thread::Newcomer;
use run_trace::{Body, Label, Program};
use slot_space::{NodeNo, Reply, SlotSet, Tid};

impl LocalState {
    /// No thread that is here has one of these slots.
    fn are_nobodys(&self, slots: &SlotSet) -> bool
        ensures { result ≡ list_all (λ e. not (meets slots.now (guest_slots e.1.guest))) self.now.threads }
    {
        for (_, thread) in &self.threads {
            if slots.meets(&thread.slots()) {
                return false;
            }
        }
        true
    }

    /// None of these slots is the node's or of a thread that is here.
    fn are_away(&self, slots: &SlotSet) -> bool
        ensures { result ≡ are_away slots.now self.now }
    {
        if slots.meets(&self.free) {
            return false;
        }
        self.are_nobodys(slots)
    }
}

impl EventSoFar {
    /// The thread, which is on a run list, goes to another node with all that it has.
    #[tactic(auto, unfolding(run_trace::specs::Steps::leaves, run_trace::specs::Steps::thread_out, run_trace::specs::Steps::depart))]
    fn leaves(&mut self, t: &Tid, to: NodeNo) -> Result<(), NoMemory>
        requires { t.now.home < node_limit }
        ensures { IfOk result (λ _. self.new ≡ at_thread t.now (leaves t.now to) self.old) }
    {
        let node = &mut self.node;
        let Some(thread) = node.threads.remove(t) else {
            return Ok(());
        };
        let packed = thread.pack(self.alloc, t)?;
        self.depart(t);
        self.say(Label::Left { t: *t, to })?;
        self.put(to, Body::Mover(packed))
    }

    /// The thread goes to another node, as each does whose home is a node of the cluster.
    fn goes(&mut self, program: &Program, t: &Tid, to: NodeNo) -> Result<(), NoMemory>
        ensures { IfOk result (λ _. self.new ≡ at_thread t.now (goes program.now t.now to) self.old) }
    {
        if t.home.0 < program.nodes() {
            self.leaves(t, to)
        } else {
            Ok(())
        }
    }

    /// A thread that asks for its own node stays.
    pub(crate) fn migrates(&mut self, here: &Here<'_>, to: NodeNo, t: &Tid) -> Result<(), NoMemory>
        ensures { IfOk result (λ _. self.new ≡ migrates here.now.program.now here.now.me to t.now self.old) }
    {
        if to.0 == here.me.0 {
            return Ok(());
        }
        self.goes(here.program, t, to)
    }

    /// The thread of that name is on a run list.
    fn is_listed(&self, name: u64) -> bool
        ensures { result ≡ is_listed (tid_of name) self.now.node.forest }
    {
        let node = &self.node;
        node.forest.on_list_by(home_of(name), (name % NAMES) as u32)
    }

    /// The thread of that name goes to another node, as each does whose home is a node of the cluster.
    fn migrates_named(&mut self, here: &Here<'_>, to: NodeNo, name: u64) -> Result<(), NoMemory>
        ensures { IfOk result (λ _. self.new ≡ migrates here.now.program.now here.now.me to (tid_of name) self.old) }
    {
        if home_of(name) >= here.program.nodes() as u64 {
            return Ok(());
        }
        self.migrates(here, to, &tid_of(name))
    }

    /// The thread sends the one of that name to another node. One that sends itself has its reply before it leaves.
    pub(crate) fn sends(
        &mut self,
        here: &Here<'_>,
        t: &Tid,
        name: u64,
        to: NodeNo,
    ) -> Result<(), NoMemory>
        ensures { IfOk result (λ _. self.new ≡ sends here.now.program.now here.now.me (tid_of name) to t.now (name == tid_value t.now) self.old) }
    {
        if name == t.value() {
            self.answer(t, 0)?;
            return self.migrates(here, to, t);
        }
        self.sends_away(here, t, name, to)
    }

    /// The thread sends another one away, which has to be on a run list.
    fn sends_away(
        &mut self,
        here: &Here<'_>,
        t: &Tid,
        name: u64,
        to: NodeNo,
    ) -> Result<(), NoMemory>
        ensures { IfOk result (λ _. self.new ≡ sends_away here.now.program.now here.now.me (tid_of name) to t.now (is_listed (tid_of name) self.old.node.forest) self.old) }
    {
        if !self.is_listed(name) {
            return self.answer(t, Reply::NotHere.code());
        }
        self.migrates_named(here, to, name)?;
        self.answer(t, 0)
    }

    /// A thread that is on a run list is sent away, false where it isn't here.
    pub(crate) fn moves_listed(
        &mut self,
        program: &Program,
        t: &Tid,
        to: NodeNo,
    ) -> Result<bool, NoMemory>
        requires node { self.old ≡ nothing self.old.node }
        requires listed { is_listed t.now self.old.node.forest ≡ true }
        ensures { IfOk result (λ did. Becomes (moves_listed program.now t.now to self.old.node) self.old self.new did) }
    {
        let node = &self.node;
        let Some(_) = node.threads.get(t) else {
            return Ok(false);
        };
        self.goes(program, t, to)?;
        Ok(true)
    }

    /// A thread that was born here hasn't ended.
    fn lives_yet(&self, here: &Here<'_>, t: &Tid) -> bool
        ensures { result ≡ lives_yet here.now.me self.now.node t.now }
    {
        if t.home.0 == here.me.0 {
            self.node.homes.lives(t.seq)
        } else {
            true
        }
    }

    /// This node expects the thread.
    pub(crate) fn may_enter(&self, here: &Here<'_>, newcomer: &Newcomer) -> bool
        ensures { result ≡ may_enter here.now.program.now here.now.me self.now.node newcomer.now }
    {
        let node = &self.node;
        let t = &newcomer.tid;
        if t.home.0 >= here.program.nodes() {
            return false;
        }
        if !newcomer.unserving {
            return false;
        }
        if node.threads.contains_key(t) {
            return false;
        }
        if !self.lives_yet(here, t) {
            return false;
        }
        node.are_away(&newcomer.thread.slots())
    }

    /// The thread comes, and is on the root list, the last to arrive.
    pub(crate) fn enters(&mut self, newcomer: Newcomer) -> Result<(), NoMemory>
        ensures { IfOk result (λ _. self.new ≡ enters newcomer self.old) }
    {
        let Newcomer {
            tid,
            unserving: _,
            thread,
        } = newcomer;
        let t = &tid;
        let priority = thread.priority();
        self.say(Label::Came(*t))?;
        self.thread_in(t, thread)?;
        self.enter(t, priority, None)
    }
}
