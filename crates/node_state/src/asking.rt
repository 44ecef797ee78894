//! What a thread asks, and what it is told.

ghost use Rattle.std.specs.Prelude.{◌≡◌, IfOk};
ghost use Rattle.run_trace.specs.Steps.{say, at_thread, asks, asks_show, asks_join, asks_detach, asks_slots, halts, judge, tell, reply_by_link};
ghost use Rattle.run_trace.specs.Calls.{args_of, extra_of, number_of};
ghost use Rattle.run_trace.specs.declared.label.Label.TheVariants as label_of;
ghost use Rattle.node_state.specs.Asking.{asks_by_link};

use crate::event_so_far::EventSoFar;
use basics::{Items, NoMemory};
use run_trace::{Body, Call, Extra, Label, Wait};
use slot_space::{NodeNo, Reply, Tid};

/// What a reply has beside its number.
fn extra_of(second: Option<u64>) -> Extra
    ensures { result ≡ extra_of second }
{
    match second {
        None => Extra::Nothing,
        Some(value) => Extra::Second(value),
    }
}

impl EventSoFar {
    /// The thread asks, and names these bytes.
    fn asks_with(&mut self, t: &Tid, call: Call, bytes: Items<u8>) -> Result<(), NoMemory>
        ensures { IfOk result (λ _. self.new ≡ say (label_of.Asked t.now (number_of call) (args_of call) bytes) self.old) }
    {
        let args = call.args(self.alloc)?;
        self.say(Label::Asked {
            t: *t,
            call: call.number(),
            args,
            bytes,
        })
    }

    /// The thread asks, and names no bytes.
    #[tactic(auto, unfolding(run_trace::specs::Steps::asks))]
    pub(crate) fn asks(&mut self, t: &Tid, call: Call) -> Result<(), NoMemory>
        ensures { IfOk result (λ _. self.new ≡ asks t.now call self.old) }
    {
        self.asks_with(t, call, Items::new(Vec::new(self.alloc)))
    }

    /// The thread asks that its line be shown: it goes to node 0.
    #[tactic(auto, unfolding(run_trace::specs::Steps::asks_show, run_trace::specs::Steps::keep))]
    pub(crate) fn asks_show(
        &mut self,
        t: &Tid,
        call: Call,
        bytes: Items<u8>,
    ) -> Result<(), NoMemory>
        ensures { IfOk result (λ _. self.new ≡ at_thread t.now (asks_show t.now call bytes) self.old) }
    {
        let line = bytes.try_clone(self.alloc)?;
        let node = &mut self.node;
        let Some(thread) = node.threads.get_mut(t) else {
            return Ok(());
        };
        thread.wait_for(Wait::ForShow);
        self.asks_with(t, call, bytes)?;
        self.put(NodeNo(0), Body::Show { t: *t, bytes: line })
    }

    /// The thread asks another node, by this packet, and waits for the answer.
    #[tactic(auto, unfolding(crate::specs::Asking::asks_by_link, run_trace::specs::Steps::keep))]
    pub(crate) fn asks_by_link(
        &mut self,
        t: &Tid,
        call: Call,
        to: NodeNo,
        body: Body,
    ) -> Result<(), NoMemory>
        ensures { IfOk result (λ _. self.new ≡ at_thread t.now (asks_by_link t.now call to body) self.old) }
    {
        let node = &mut self.node;
        let Some(thread) = node.threads.get_mut(t) else {
            return Ok(());
        };
        thread.wait_for(Wait::ForAnswer);
        self.asks(t, call)?;
        self.put(to, body)
    }

    /// The thread asks, and seeks slots for its call.
    #[tactic(auto, unfolding(run_trace::specs::Steps::asks_slots, run_trace::specs::Steps::keep))]
    pub(crate) fn asks_slots(&mut self, t: &Tid, call: Call) -> Result<(), NoMemory>
        ensures { IfOk result (λ _. self.new ≡ at_thread t.now (asks_slots t.now call) self.old) }
    {
        let node = &mut self.node;
        let Some(thread) = node.threads.get_mut(t) else {
            return Ok(());
        };
        thread.wait_for(Wait::ForSlots);
        self.asks(t, call)
    }

    /// The thread asks to join that one: the join goes to its home.
    #[tactic(auto, unfolding(run_trace::specs::Steps::asks_join, crate::specs::Asking::asks_by_link))]
    pub(crate) fn asks_join(&mut self, t: &Tid, call: Call, other: &Tid) -> Result<(), NoMemory>
        ensures { IfOk result (λ _. self.new ≡ at_thread t.now (asks_join t.now call other.now) self.old) }
    {
        let body = Body::JoinAsk {
            by: *t,
            seq: other.seq,
        };
        self.asks_by_link(t, call, other.home, body)
    }

    /// The thread asks to detach that one: the detach goes to its home.
    #[tactic(auto, unfolding(run_trace::specs::Steps::asks_detach, crate::specs::Asking::asks_by_link))]
    pub(crate) fn asks_detach(&mut self, t: &Tid, call: Call, other: &Tid) -> Result<(), NoMemory>
        ensures { IfOk result (λ _. self.new ≡ at_thread t.now (asks_detach t.now call other.now) self.old) }
    {
        let body = Body::DetachAsk {
            by: *t,
            seq: other.seq,
        };
        self.asks_by_link(t, call, other.home, body)
    }

    /// The thread has called halt.
    #[tactic(auto, unfolding(run_trace::specs::Steps::halts, run_trace::specs::Steps::halt, run_trace::specs::Steps::keep))]
    pub(crate) fn halts(&mut self, t: &Tid) -> Result<(), NoMemory>
        ensures { IfOk result (λ _. self.new ≡ at_thread t.now (halts t.now) self.old) }
    {
        let node = &mut self.node;
        let Some(thread) = node.threads.get_mut(t) else {
            return Ok(());
        };
        thread.wait_for(Wait::Halted);
        self.say(Label::Halted(*t))?;
        let node = &mut self.node;
        node.halted = true;
        Ok(())
    }

    /// The reply of the thread's call is settled.
    #[tactic(auto, unfolding(run_trace::specs::Steps::judge))]
    pub(crate) fn judge(&mut self, t: &Tid, code: u64, second: Option<u64>) -> Result<(), NoMemory>
        ensures { IfOk result (λ _. self.new ≡ judge t.now code second self.old) }
    {
        self.say(Label::Judged {
            t: *t,
            reply: code,
            extra: extra_of(second),
        })
    }

    /// The thread has its reply, and can run.
    #[tactic(auto, unfolding(run_trace::specs::Steps::tell, run_trace::specs::Steps::keep))]
    pub(crate) fn tell(&mut self, t: &Tid, code: u64, second: Option<u64>) -> Result<(), NoMemory>
        ensures { IfOk result (λ _. self.new ≡ tell t.now code second self.old) }
    {
        let node = &mut self.node;
        let Some(thread) = node.threads.get_mut(t) else {
            return Ok(());
        };
        thread.tell(code, second);
        self.say(Label::Told(*t))?;
        self.arrive(t)
    }

    /// The reply of the thread's call is settled, and goes to its node.
    #[tactic(auto, unfolding(run_trace::specs::Steps::reply_by_link))]
    pub(crate) fn reply_by_link(
        &mut self,
        t: &Tid,
        at: NodeNo,
        reply: Reply,
        second: Option<u64>,
    ) -> Result<(), NoMemory>
        ensures { IfOk result (λ _. self.new ≡ reply_by_link t.now at reply second self.old) }
    {
        self.say(Label::Judged {
            t: *t,
            reply: reply.code(),
            extra: extra_of(second),
        })?;
        self.put(
            at,
            Body::Answer {
                t: *t,
                reply,
                second,
            },
        )
    }
}
