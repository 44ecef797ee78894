//! Slots for a thread that seeks them: at once where the node has them, else at the node's turn.

ghost use Rattle.std.specs.Prelude.{◌≡◌, ◌<◌, ◌≤◌, ◌-◌, ◌%◌, [], length, false, true, take, drop, IfOk};
ghost use Rattle.slot_space.specs.Limits.{node_limit};
ghost use Rattle.run_trace.specs.Calls.{call_of, slots_wanted};
ghost use Rattle.run_trace.specs.Talks.{want_sends, wanting_turn, listing_sends, listing, next_turn, turn_to, without_first, is_wanting, is_first};
ghost use Rattle.run_trace.specs.Steps.{at_thread, thread_at, speaks, decides};
ghost use Rattle.run_trace.specs.Machine.{claims, creates, serves_call, serves, has_run_for, refuses, ends_turn, wants_again, leaves_claims, grants};
ghost use Rattle.node_state.specs.Asking.{IsSmall, IsHere};
ghost use Rattle.node_state.specs.Turns.{turn_for, Grants};

use crate::bubble_calls::number_in;
use crate::event_so_far::EventSoFar;
use crate::heap::slots_for;
use crate::here::Here;
use basics::NoMemory;
use node_thread::Thread;
use run_trace::{Body, Call, Label, Wait, Why};
use slot_space::{NodeNo, Reply, SLOT_LIMIT, SLOT_SIZE, Tid};

/// How many slots in a row a call wants of its node. Want of memory is also where it wants none, or is refused by its checks: no thread
/// that seeks slots has such a call.
fn slots_wanted(call: &Call) -> Result<u16, NoMemory>
    ensures count { IfOk result (λ count. count ≡ slots_wanted call.now) }
    ensures some { IfOk result (λ count. 0 < count) }
    ensures small { IfOk result (λ _. IsSmall call.now) }
{
    match call {
        Call::Create {
            entry,
            priority,
            ..
        }
        | Call::CreateIn {
            entry,
            priority,
            ..
        } => {
            if *entry % 4 == 0 && *priority <= 7 {
                return Ok(1);
            }
            Err(NoMemory)
        }
        Call::Isomalloc(len) => {
            if 0 < *len && *len <= SLOT_SIZE * SLOT_LIMIT as u64 {
                return Ok(slots_for(*len));
            }
            Err(NoMemory)
        }
        _ => Err(NoMemory),
    }
}

/// How many slots in a row a thread seeks.
fn slots_sought(thread: &Thread) -> Result<u16, NoMemory>
    ensures count { IfOk result (λ count. count ≡ slots_wanted (call_of thread.now.guest.solo.state)) }
    ensures some { IfOk result (λ count. 0 < count) }
{
    slots_wanted(&thread.call())
}

impl EventSoFar {
    /// The node asks node 0 for a turn, unless it has.
    #[tactic(auto, unfolding(run_trace::specs::Steps::speaks, run_trace::specs::Steps::put), using(crate::proofs::InTurn::wants_yet))]
    fn wants(&mut self) -> Result<(), NoMemory>
        ensures { IfOk result (λ _. self.new ≡ speaks (want_sends self.old.node.talk) (wanting_turn self.old.node.talk) self.old) }
    {
        let node = &mut self.node;
        if node.talk.want() {
            self.put(NodeNo(0), Body::Want)
        } else {
            Ok(())
        }
    }

    /// A thread for which the node has no slots claims them.
    #[tactic(auto, unfolding(run_trace::specs::Steps::speaks))]
    pub(crate) fn claims(&mut self, t: &Tid) -> Result<(), NoMemory>
        ensures { IfOk result (λ _. self.new ≡ claims t.now self.old) }
    {
        let node = &mut self.node;
        node.talk.claim(t)?;
        self.wants()
    }

    /// The thread creates another one, where there is a slot for it.
    fn creates(
        &mut self,
        here: &Here<'_>,
        t: &Tid,
        reason: Why,
        entry: u64,
        argument: u64,
        priority: u8,
    ) -> Result<(), NoMemory>
        requires aligned { entry % 4 ≡ 0 }
        requires low { priority ≤ 7 }
        ensures { IfOk result (λ _. self.new ≡ creates here.now.me t.now reason entry argument priority self.old) }
    {
        match self.free_slot() {
            None => self.claims(t),
            Some(slot) => {
                let child = self.next_name(here);
                self.birth(here, reason, entry, argument, priority, slot)?;
                self.answer(t, child.value())
            }
        }
    }

    /// The thread's call is done where the node has slots for it, else it claims them.
    fn serves_call(&mut self, here: &Here<'_>, t: &Tid, call: Call) -> Result<(), NoMemory>
        requires small { IsSmall call }
        requires here { IsHere (thread_at t.now self.old) }
        ensures { IfOk result (λ _. self.new ≡ at_thread t.now (serves_call here.now.me t.now call) self.old) }
    {
        match call {
            Call::Create {
                entry,
                argument,
                priority,
            } => self.creates(here, t, Why::Create(*t), entry, argument, priority as u8),
            Call::CreateIn {
                bubble,
                entry,
                argument,
                priority,
            } => self.creates(
                here,
                t,
                Why::Inside(*t, number_in(bubble)),
                entry,
                argument,
                priority as u8,
            ),
            Call::Isomalloc(len) => self.allocates(t, len),
            _ => Ok(()),
        }
    }

    /// The thread seeks slots: its call is done where the node has them, else it claims them.
    pub(crate) fn serves(&mut self, here: &Here<'_>, t: &Tid) -> Result<(), NoMemory>
        ensures { IfOk result (λ _. self.new ≡ serves here.now.me t.now self.old) }
    {
        let node = &self.node;
        let Some(thread) = node.threads.get(t) else {
            return Ok(());
        };
        let call = thread.call();
        slots_wanted(&call)?;
        self.serves_call(here, t, call)
    }

    /// The node has a run of as many slots as the thread's call wants.
    fn has_run_for(&self, t: &Tid) -> Result<bool, NoMemory>
        ensures { IfOk result (λ has. has ≡ has_run_for (thread_at t.now self.now) self.now.node.slots.free) }
    {
        let node = &self.node;
        let Some(thread) = node.threads.get(t) else {
            return Ok(false);
        };
        let count = slots_sought(thread)?;
        Ok(node.free.lowest_run(count).is_some())
    }

    /// It is decided that there is no run of so many slots for the thread.
    #[tactic(auto, unfolding(run_trace::specs::Steps::decides, run_trace::specs::Steps::keep))]
    fn decides(&mut self, t: &Tid, count: u16) -> Result<(), NoMemory>
        ensures { IfOk result (λ _. self.new ≡ at_thread t.now (decides t.now count) self.old) }
    {
        let node = &mut self.node;
        let Some(thread) = node.threads.get_mut(t) else {
            return Ok(());
        };
        thread.wait_for(Wait::No);
        self.say(Label::Decided {
            t: *t,
            count,
            first: None,
        })
    }

    /// The thread's call is answered Full.
    fn refuses(&mut self, t: &Tid) -> Result<(), NoMemory>
        ensures { IfOk result (λ _. self.new ≡ at_thread t.now (refuses t.now) self.old) }
    {
        let node = &self.node;
        let Some(thread) = node.threads.get(t) else {
            return Ok(());
        };
        let count = slots_sought(thread)?;
        self.decides(t, count)?;
        self.answer(t, Reply::Full.code())
    }

    /// The node's turn is over.
    #[tactic(auto, unfolding(run_trace::specs::Steps::speaks, run_trace::specs::Steps::put))]
    fn ends_turn(&mut self) -> Result<(), NoMemory>
        ensures { IfOk result (λ _. self.new ≡ ends_turn self.old) }
    {
        let node = &mut self.node;
        node.talk.end_turn();
        self.put(NodeNo(0), Body::Over)
    }

    /// The node wants another turn for the claims that are left.
    #[tactic(auto, using(crate::proofs::InTurn::none_left, crate::proofs::InTurn::some_left))]
    fn wants_again(&mut self) -> Result<(), NoMemory>
        ensures { IfOk result (λ _. self.new ≡ wants_again self.old) }
    {
        let node = &self.node;
        if node.talk.claims() == 0 {
            return Ok(());
        }
        self.wants()
    }

    /// The first claim leaves, and no more than so many stay behind it.
    #[tactic(auto, unfolding(run_trace::specs::Steps::speaks), using(crate::proofs::InTurn::claims_left))]
    fn drops_claim(&mut self, left: usize)
        ensures { self.new ≡ leaves_claims (take left (drop 1 self.old.node.talk.claims)) self.old }
    {
        let node = &mut self.node;
        node.talk.drop_claim(left);
    }

    /// The first of so many claims is served, where there are slots for it; else it is decided about it, and the turn is over: false.
    fn grants_first(&mut self, here: &Here<'_>, left: usize) -> Result<bool, NoMemory>
        requires some { 0 < left }
        requires few { left ≤ length self.old.node.talk.claims }
        ensures { IfOk result (Grants here.now.me left self.old self.new) }
    {
        let node = &self.node;
        let Some(t) = node.talk.first_claim() else {
            return Ok(false);
        };
        let has_slots = self.has_run_for(&t)?;
        self.drops_claim(left - 1);
        if has_slots {
            self.serves(here, &t)?;
            return Ok(true);
        }
        self.refuses(&t)?;
        self.ends_turn()?;
        self.wants_again()?;
        Ok(false)
    }

    /// The node has the turn: its claims are served from the front, while it has slots for the first.
    pub(crate) fn grants(&mut self, here: &Here<'_>) -> Result<(), NoMemory>
        ensures { IfOk result (λ _. self.new ≡ grants here.now.me self.old.node.talk.claims self.old) }
    {
        let node = &self.node;
        let mut left = node.talk.claims();
        while 0 < left {
            if !self.grants_first(here, left)? {
                return Ok(());
            }
            left -= 1;
        }
        self.ends_turn()
    }

    /// That node has the turn from now on.
    #[tactic(auto, unfolding(run_trace::specs::Steps::speaks, run_trace::specs::Steps::put), using(crate::proofs::InTurn::says_nothing))]
    fn gives_turn(&mut self, to: Option<NodeNo>) -> Result<(), NoMemory>
        ensures { IfOk result (λ _. self.new ≡ speaks (turn_for to) self.old.node.talk self.old) }
    {
        match to {
            None => Ok(()),
            Some(m) => self.put(m, Body::Turn),
        }
    }

    /// Another node wants a turn.
    #[tactic(auto, unfolding(run_trace::specs::Steps::speaks))]
    pub(crate) fn lists(&mut self, from: NodeNo) -> Result<(), NoMemory>
        requires small { from < node_limit }
        requires other { is_wanting from self.old.node.talk.wanting ≡ false }
        ensures { IfOk result (λ _. self.new ≡ speaks (listing_sends from self.old.node.talk.wanting) (listing from self.old.node.talk) self.old) }
    {
        let node = &mut self.node;
        let to = node.talk.list(from);
        self.gives_turn(to)
    }

    /// The turn of that node is over.
    #[tactic(auto, unfolding(run_trace::specs::Steps::speaks))]
    pub(crate) fn passes_turn(&mut self, from: NodeNo) -> Result<(), NoMemory>
        requires { is_first from self.old.node.talk.wanting ≡ true }
        ensures { IfOk result (λ _. self.new ≡ speaks (turn_to (without_first self.old.node.talk.wanting)) (next_turn self.old.node.talk) self.old) }
    {
        let node = &mut self.node;
        let to = node.talk.over(from);
        self.gives_turn(to)
    }
}
