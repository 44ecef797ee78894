//! Calls on bubbles of this node.

ghost use Rattle.std.specs.Prelude.{◌≡◌, ◌≤◌, None, IfOk};
ghost use Rattle.marcel_sync.specs.Semaphores.{number_in};
ghost use Rattle.run_trace.specs.declared.call.Call.TheVariants as call_of;
ghost use Rattle.run_trace.specs.Bubbles.{no_bubble, not_filling, did_code, bubble_outcome, gathering_by};
ghost use Rattle.run_trace.specs.Steps.{asks_bubbles};
ghost use Rattle.node_state.specs.Asking.{AnswersGather};
ghost use Rattle.run_trace.specs.Machine.{gathers_found, does_bubbles, creates_inside};

use crate::event_so_far::EventSoFar;
use crate::here::Here;
use crate::names::{NAMES, home_of};
use basics::NoMemory;
use bubbles::{BubbleState, Did};
use run_trace::{Call, Label};
use slot_space::{Reply, Tid};

/// The most bubbles of a node, as of their names.
const BUBBLE_LIMIT: u32 = 0xffff_ffff;

/// The number of the bubble of that name.
pub(crate) fn number_in(name: u64) -> u32
    ensures { result ≡ number_in name }
{
    (name % NAMES) as u32
}

/// The reply of what the forest has answered.
fn did_code(did: Did) -> u64
    ensures { result ≡ did_code did }
{
    match did {
        Did::Done(count) => count as u64,
        Did::BadArgument => Reply::BadArgument.code(),
        Did::NoSuch => Reply::NoSuch.code(),
        Did::Taken => Reply::Taken.code(),
    }
}

impl EventSoFar {
    /// What is wrong with a bubble's name: it is no bubble of the cluster, or another node's, or there is none of that number.
    fn no_bubble(&self, here: &Here<'_>, name: u64) -> Option<Reply>
        ensures { result ≡ no_bubble here.now.program.now here.now.me name self.now.node.forest }
    {
        let node = &self.node;
        let home = home_of(name);
        if home >= here.program.nodes() as u64 {
            return Some(Reply::NoSuch);
        }
        if home != here.me.0 as u64 {
            return Some(Reply::NotHere);
        }
        match node.forest.state_of(number_in(name)) {
            None => Some(Reply::NoSuch),
            Some(_) => None,
        }
    }

    /// Or it takes no members.
    fn not_filling(&self, here: &Here<'_>, name: u64) -> Option<Reply>
        ensures { result ≡ not_filling here.now.program.now here.now.me name self.now.node.forest }
    {
        match self.no_bubble(here, name) {
            Some(reply) => Some(reply),
            None => {
                let node = &self.node;
                match node.forest.state_of(number_in(name)) {
                    Some(BubbleState::Filling) => None,
                    _ => Some(Reply::Taken),
                }
            }
        }
    }

    /// The thread asks for a bubble, which is made: its name. Want of memory is also where no more can be counted.
    #[tactic(auto, unfolding(run_trace::specs::Steps::asks_bubbles, run_trace::specs::Steps::asks, run_trace::specs::Steps::say))]
    fn asks_new_bubble(
        &mut self,
        here: &Here<'_>,
        t: &Tid,
        priority: u64,
        depth: u64,
    ) -> Result<u64, NoMemory>
        requires low { priority ≤ 7 }
        requires shallow { depth ≤ 2 }
        ensures name { IfOk result (λ name. name ≡ (bubble_outcome here.now.program.now here.now.me (call_of.BubbleNew priority depth) self.old.node.forest).code) }
        ensures after { IfOk result (λ _. self.new ≡ asks_bubbles t.now (call_of.BubbleNew priority depth) (bubble_outcome here.now.program.now here.now.me (call_of.BubbleNew priority depth) self.old.node.forest).after self.old) }
    {
        self.asks(t, Call::BubbleNew { priority, depth })?;
        let node = &mut self.node;
        if node.forest.bubbles() >= BUBBLE_LIMIT {
            return Err(NoMemory);
        }
        let b = node.forest.new_bubble(priority as u8, depth as u8)?;
        Ok(here.me.0 as u64 * NAMES + b as u64)
    }

    /// The thread makes a bubble, and has its name at once.
    pub(crate) fn makes_bubble(
        &mut self,
        here: &Here<'_>,
        t: &Tid,
        priority: u64,
        depth: u64,
    ) -> Result<(), NoMemory>
        requires low { priority ≤ 7 }
        requires shallow { depth ≤ 2 }
        ensures { IfOk result (λ _. self.new ≡ does_bubbles here.now.program.now here.now.me t.now (call_of.BubbleNew priority depth) self.old) }
    {
        let name = self.asks_new_bubble(here, t, priority, depth)?;
        self.answer(t, name)
    }

    /// The thread asks that a bubble be a member of another: what it is answered.
    #[tactic(auto, unfolding(run_trace::specs::Steps::asks_bubbles, run_trace::specs::Steps::asks, run_trace::specs::Steps::say))]
    fn asks_insert(
        &mut self,
        here: &Here<'_>,
        t: &Tid,
        bubble: u64,
        member: u64,
    ) -> Result<u64, NoMemory>
        ensures code { IfOk result (λ code. code ≡ (bubble_outcome here.now.program.now here.now.me (call_of.BubbleInsert bubble member) self.old.node.forest).code) }
        ensures after { IfOk result (λ _. self.new ≡ asks_bubbles t.now (call_of.BubbleInsert bubble member) (bubble_outcome here.now.program.now here.now.me (call_of.BubbleInsert bubble member) self.old.node.forest).after self.old) }
    {
        self.asks(t, Call::BubbleInsert { bubble, member })?;
        if let Some(reply) = self.no_bubble(here, bubble) {
            return Ok(reply.code());
        }
        if let Some(reply) = self.no_bubble(here, member) {
            return Ok(reply.code());
        }
        let node = &mut self.node;
        let did = node.forest.insert(number_in(bubble), number_in(member))?;
        Ok(did_code(did))
    }

    /// The thread puts a bubble into another.
    pub(crate) fn inserts_bubble(
        &mut self,
        here: &Here<'_>,
        t: &Tid,
        bubble: u64,
        member: u64,
    ) -> Result<(), NoMemory>
        ensures { IfOk result (λ _. self.new ≡ does_bubbles here.now.program.now here.now.me t.now (call_of.BubbleInsert bubble member) self.old) }
    {
        let code = self.asks_insert(here, t, bubble, member)?;
        self.answer(t, code)
    }

    /// The thread asks that a bubble wake: what it is answered.
    #[tactic(auto, unfolding(run_trace::specs::Steps::asks_bubbles, run_trace::specs::Steps::asks, run_trace::specs::Steps::say))]
    fn asks_wake(&mut self, here: &Here<'_>, t: &Tid, bubble: u64) -> Result<u64, NoMemory>
        ensures code { IfOk result (λ code. code ≡ (bubble_outcome here.now.program.now here.now.me (call_of.BubbleWake bubble) self.old.node.forest).code) }
        ensures after { IfOk result (λ _. self.new ≡ asks_bubbles t.now (call_of.BubbleWake bubble) (bubble_outcome here.now.program.now here.now.me (call_of.BubbleWake bubble) self.old.node.forest).after self.old) }
    {
        self.asks(t, Call::BubbleWake(bubble))?;
        if let Some(reply) = self.no_bubble(here, bubble) {
            return Ok(reply.code());
        }
        let node = &mut self.node;
        let did = node.forest.wake(number_in(bubble))?;
        Ok(did_code(did))
    }

    /// The thread wakes a bubble.
    pub(crate) fn wakes_bubble(
        &mut self,
        here: &Here<'_>,
        t: &Tid,
        bubble: u64,
    ) -> Result<(), NoMemory>
        ensures { IfOk result (λ _. self.new ≡ does_bubbles here.now.program.now here.now.me t.now (call_of.BubbleWake bubble) self.old) }
    {
        let code = self.asks_wake(here, t, bubble)?;
        self.answer(t, code)
    }

    /// The thread asks that a bubble gather its members: what the forest answers, or why it isn't asked.
    #[tactic(auto, unfolding(run_trace::specs::Steps::asks_bubbles, run_trace::specs::Steps::asks, run_trace::specs::Steps::say))]
    fn asks_gather(
        &mut self,
        here: &Here<'_>,
        t: &Tid,
        bubble: u64,
    ) -> Result<Result<Did, Reply>, NoMemory>
        ensures answer { IfOk result (AnswersGather here.now.program.now here.now.me bubble self.old.node.forest) }
        ensures after { IfOk result (λ _. self.new ≡ asks_bubbles t.now (call_of.BubbleGather bubble) (bubble_outcome here.now.program.now here.now.me (call_of.BubbleGather bubble) self.old.node.forest).after self.old) }
    {
        self.asks(t, Call::BubbleGather(bubble))?;
        if let Some(reply) = self.no_bubble(here, bubble) {
            return Ok(Err(reply));
        }
        let node = &mut self.node;
        let did = node.forest.gather(number_in(bubble))?;
        Ok(Ok(did))
    }

    /// It is said how many members the bubble holds again, where it has gathered them.
    #[tactic(auto, unfolding(run_trace::specs::Steps::gathered))]
    fn says_gathered(&mut self, bubble: u64, did: Did) -> Result<(), NoMemory>
        ensures { IfOk result (λ _. self.new ≡ gathers_found (gathering_by (number_in bubble) None did) self.old) }
    {
        match did {
            Did::Done(count) => self.say(Label::Gathered {
                bubble: number_in(bubble),
                count,
            }),
            Did::BadArgument | Did::NoSuch | Did::Taken => Ok(()),
        }
    }

    /// The thread gathers the members of a bubble.
    pub(crate) fn gathers_bubble(
        &mut self,
        here: &Here<'_>,
        t: &Tid,
        bubble: u64,
    ) -> Result<(), NoMemory>
        ensures { IfOk result (λ _. self.new ≡ does_bubbles here.now.program.now here.now.me t.now (call_of.BubbleGather bubble) self.old) }
    {
        match self.asks_gather(here, t, bubble)? {
            Err(reply) => self.answer(t, reply.code()),
            Ok(did) => {
                self.says_gathered(bubble, did)?;
                self.answer(t, did_code(did))
            }
        }
    }

    /// The thread creates another one in a bubble, for which it seeks a slot where the bubble takes members.
    pub(crate) fn creates_inside(
        &mut self,
        here: &Here<'_>,
        t: &Tid,
        call: Call,
        bubble: u64,
    ) -> Result<(), NoMemory>
        ensures { IfOk result (λ _. self.new ≡ creates_inside here.now.me t.now call (not_filling here.now.program.now here.now.me bubble self.old.node.forest) self.old) }
    {
        match self.not_filling(here, bubble) {
            Some(reply) => self.asks_and_hears(t, call, reply.code()),
            None => self.asks_slot(here, t, call),
        }
    }
}
