//! Semaphores: what a thread of this node asks of one, and what the node does with its own.

ghost use Rattle.std.specs.Prelude.{◌≡◌, ◌<◌, ◌^◌, ◌-◌, length, Bool, IfOk};
ghost use Rattle.marcel_sync.specs.Semaphores.{node_in, number_in, name_on, lowered_answer, lowered, raised_answer, raised, with_one_more};
ghost use Rattle.run_trace.specs.declared.packet.Body.TheVariants as body_of;
ghost use Rattle.run_trace.specs.Steps.{at_thread, thread_at, asks_signal, asks_here, hears_signal};
ghost use Rattle.run_trace.specs.Machine.{answer, replies_to, answers_p, answers_v, lowers, raises, signals, hears_call};
ghost use Rattle.node_state.specs.Asking.{IsHere, waits_here};

use crate::event_so_far::EventSoFar;
use crate::here::Here;
use crate::names::{NAMES, home_of};
use basics::NoMemory;
use marcel_sync::{Pgot, SEM_LIMIT, Vgot};
use run_trace::{Body, Call, Label, Wait};
use slot_space::{NodeNo, Reply, Tid};

impl EventSoFar {
    /// The name of the next semaphore that is made here. Want of memory is where no more can be counted.
    fn next_semaphore(&self, here: &Here<'_>) -> Result<u64, NoMemory>
        ensures name { IfOk result (λ name. name ≡ name_on here.now.me (length self.now.node.sems)) }
        ensures room { IfOk result (λ _. length self.now.node.sems < 2 ^ 32 - 1) }
    {
        let node = &self.node;
        let count = node.sems.count();
        if count >= SEM_LIMIT {
            return Err(NoMemory);
        }
        Ok(here.me.0 as u64 * NAMES + count as u64)
    }

    /// The thread asks for a semaphore of this value, which is made: its name.
    #[tactic(auto, unfolding(run_trace::specs::Steps::asks_here, run_trace::specs::Steps::asks, run_trace::specs::Steps::say))]
    fn asks_new(
        &mut self,
        here: &Here<'_>,
        t: &Tid,
        call: Call,
        value: u64,
    ) -> Result<u64, NoMemory>
        requires { value < 2 ^ 31 }
        ensures name { IfOk result (λ name. name ≡ name_on here.now.me (length self.old.node.sems)) }
        ensures after { IfOk result (λ _. self.new ≡ asks_here t.now call (with_one_more value self.old.node.sems) self.old) }
    {
        let name = self.next_semaphore(here)?;
        self.asks(t, call)?;
        let node = &mut self.node;
        node.sems.make(value)?;
        Ok(name)
    }

    /// The thread makes a semaphore of this value, and has its name at once.
    pub(crate) fn makes(
        &mut self,
        here: &Here<'_>,
        t: &Tid,
        call: Call,
        value: u64,
    ) -> Result<(), NoMemory>
        requires { value < 2 ^ 31 }
        ensures { IfOk result (λ _. self.new ≡ answer t.now (name_on here.now.me (length self.old.node.sems)) (asks_here t.now call (with_one_more value self.old.node.sems) self.old)) }
    {
        let name = self.asks_new(here, t, call, value)?;
        self.answer(t, name)
    }

    /// A thread that is here has its reply at once, and that of another node by the link.
    fn replies_to(
        &mut self,
        here: &Here<'_>,
        at: NodeNo,
        t: &Tid,
        reply: Reply,
    ) -> Result<(), NoMemory>
        ensures { IfOk result (λ _. self.new ≡ replies_to here.now.me at t.now reply self.old) }
    {
        if here.me.0 == at.0 {
            self.answer(t, reply.code())
        } else {
            self.reply_by_link(t, at, reply, None)
        }
    }

    /// What a thread is answered that lowers a semaphore.
    fn answers_p(&mut self, here: &Here<'_>, at: NodeNo, t: &Tid, got: Pgot) -> Result<(), NoMemory>
        ensures { IfOk result (λ _. self.new ≡ answers_p here.now.me at t.now got self.old) }
    {
        match got {
            Pgot::Got => self.replies_to(here, at, t, Reply::Value(0)),
            Pgot::Later => Ok(()),
            Pgot::NoSuch => self.replies_to(here, at, t, Reply::NoSuch),
        }
    }

    /// What a thread is answered that raises a semaphore, after the thread that is woken.
    fn answers_v(&mut self, here: &Here<'_>, at: NodeNo, t: &Tid, got: Vgot) -> Result<(), NoMemory>
        ensures { IfOk result (λ _. self.new ≡ answers_v here.now.me at t.now got self.old) }
    {
        match got {
            Vgot::Woke(other, there) => {
                self.replies_to(here, there, &other, Reply::Value(0))?;
                self.replies_to(here, at, t, Reply::Value(0))
            }
            Vgot::Stored => self.replies_to(here, at, t, Reply::Value(0)),
            Vgot::AtLimit => self.replies_to(here, at, t, Reply::BadArgument),
            Vgot::NoSuch => self.replies_to(here, at, t, Reply::NoSuch),
        }
    }

    /// The thread asks to lower a semaphore of this node.
    #[tactic(auto, unfolding(run_trace::specs::Steps::asks_here, run_trace::specs::Steps::asks, run_trace::specs::Steps::say))]
    fn asks_lower(
        &mut self,
        here: &Here<'_>,
        t: &Tid,
        call: Call,
        id: u64,
    ) -> Result<Pgot, NoMemory>
        ensures got { IfOk result (λ got. got ≡ lowered_answer (number_in id) self.old.node.sems) }
        ensures after { IfOk result (λ _. self.new ≡ asks_here t.now call (lowered (number_in id) (t.now, here.now.me) self.old.node.sems) self.old) }
    {
        self.asks(t, call)?;
        let node = &mut self.node;
        node.sems.p(id, *t, here.me)
    }

    /// The thread asks to raise a semaphore of this node.
    #[tactic(auto, unfolding(run_trace::specs::Steps::asks_here, run_trace::specs::Steps::asks, run_trace::specs::Steps::say))]
    fn asks_raise(&mut self, t: &Tid, call: Call, id: u64) -> Result<Vgot, NoMemory>
        ensures got { IfOk result (λ got. got ≡ raised_answer (number_in id) self.old.node.sems) }
        ensures after { IfOk result (λ _. self.new ≡ asks_here t.now call (raised (number_in id) self.old.node.sems) self.old) }
    {
        self.asks(t, call)?;
        let node = &mut self.node;
        Ok(node.sems.v(id))
    }

    /// The thread waits for a semaphore of this node.
    #[tactic(auto, unfolding(crate::specs::Asking::waits_here, run_trace::specs::Steps::keep))]
    fn waits_here(&mut self, t: &Tid)
        ensures { self.new ≡ at_thread t.now (waits_here t.now) self.old }
    {
        let node = &mut self.node;
        if let Some(thread) = node.threads.get_mut(t) {
            thread.wait_for(Wait::ForSemaphore);
        }
    }

    /// The thread lowers a semaphore of this node, or waits for it.
    fn lowers(&mut self, here: &Here<'_>, t: &Tid, call: Call, id: u64) -> Result<(), NoMemory>
        requires { IsHere (thread_at t.now self.old) }
        ensures { IfOk result (λ _. self.new ≡ lowers here.now.me t.now call id (lowered_answer (number_in id) self.old.node.sems) self.old) }
    {
        match self.asks_lower(here, t, call, id)? {
            Pgot::Later => {
                self.waits_here(t);
                Ok(())
            }
            got => self.answers_p(here, here.me, t, got),
        }
    }

    /// The thread raises a semaphore of this node, or wakes the first that waits for it.
    fn raises(&mut self, here: &Here<'_>, t: &Tid, call: Call, id: u64) -> Result<(), NoMemory>
        ensures { IfOk result (λ _. self.new ≡ raises here.now.me t.now call id (raised_answer (number_in id) self.old.node.sems) self.old) }
    {
        let got = self.asks_raise(t, call, id)?;
        self.answers_v(here, here.me, t, got)
    }

    /// The thread asks the semaphore's node, which is another, to lower it, or to raise it.
    #[tactic(auto, unfolding(run_trace::specs::Steps::asks_signal, crate::specs::Asking::asks_by_link))]
    fn asks_signal(&mut self, t: &Tid, call: Call, id: u64, up: bool) -> Result<(), NoMemory>
        requires { node_in id < 256 }
        ensures { IfOk result (λ _. self.new ≡ at_thread t.now (asks_signal t.now call id up) self.old) }
    {
        let to = NodeNo(home_of(id) as u8);
        self.asks_by_link(t, call, to, Body::SemAsk { by: *t, id, up })
    }

    /// The thread lowers a semaphore of any node, or raises it.
    pub(crate) fn signals(
        &mut self,
        here: &Here<'_>,
        t: &Tid,
        call: Call,
        id: u64,
        up: bool,
    ) -> Result<(), NoMemory>
        requires small { node_in id < 256 }
        requires here { IsHere (thread_at t.now self.old) }
        ensures { IfOk result (λ _. self.new ≡ signals here.now.me t.now call id up self.old) }
    {
        if home_of(id) != here.me.0 as u64 {
            return self.asks_signal(t, call, id, up);
        }
        if up {
            self.raises(here, t, call, id)
        } else {
            self.lowers(here, t, call, id)
        }
    }

    /// The node takes up that a thread of another lowers a semaphore.
    #[tactic(auto, unfolding(run_trace::specs::Steps::hears_signal, run_trace::specs::Steps::say))]
    fn hears_lower(&mut self, by: &Tid, from: NodeNo, id: u64) -> Result<Pgot, NoMemory>
        ensures got { IfOk result (λ got. got ≡ lowered_answer (number_in id) self.old.node.sems) }
        ensures after { IfOk result (λ _. self.new ≡ hears_signal by.now (lowered (number_in id) (by.now, from) self.old.node.sems) self.old) }
    {
        self.say(Label::Heard(*by))?;
        let node = &mut self.node;
        node.sems.p(id, *by, from)
    }

    /// The node takes up that a thread of another raises a semaphore.
    #[tactic(auto, unfolding(run_trace::specs::Steps::hears_signal, run_trace::specs::Steps::say))]
    fn hears_raise(&mut self, by: &Tid, id: u64) -> Result<Vgot, NoMemory>
        ensures got { IfOk result (λ got. got ≡ raised_answer (number_in id) self.old.node.sems) }
        ensures after { IfOk result (λ _. self.new ≡ hears_signal by.now (raised (number_in id) self.old.node.sems) self.old) }
    {
        self.say(Label::Heard(*by))?;
        let node = &mut self.node;
        Ok(node.sems.v(id))
    }

    /// A thread of another node lowers a semaphore of this one, or raises it.
    pub(crate) fn hears_call(
        &mut self,
        here: &Here<'_>,
        from: NodeNo,
        by: &Tid,
        id: u64,
        up: bool,
    ) -> Result<(), NoMemory>
        ensures { IfOk result (λ _. self.new ≡ hears_call here.now.me from by.now id up self.old) }
    {
        if up {
            let got = self.hears_raise(by, id)?;
            self.answers_v(here, from, by, got)
        } else {
            let got = self.hears_lower(by, from, id)?;
            self.answers_p(here, from, by, got)
        }
    }
}
