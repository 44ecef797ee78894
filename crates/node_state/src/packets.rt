//! What a node does with a packet. One that it doesn't expect comes to nothing.

ghost use Rattle.std.specs.Prelude.{◌≡◌, ◌<◌, IfOk, true, slice_get};
ghost use Rattle.slot_space.specs.Limits.{node_limit};
ghost use Rattle.marcel_core.specs.Homes.{verdict, detach_verdict, joiner, is_open};
ghost use Rattle.run_trace.specs.declared.packet.Body.TheVariants as body_of;
ghost use Rattle.run_trace.specs.Local.{nothing};
ghost use Rattle.run_trace.specs.Steps.{thread_at, line_of, shows, acknowledges, hears, hears_detach, knows};
ghost use Rattle.run_trace.specs.Machine.{is_waiting, judges_join, tells_joiner, takes};

use crate::event_so_far::EventSoFar;
use crate::here::Here;
use crate::names::home_of;
use basics::NoMemory;
use marcel_core::{Detached, End, Verdict};
use node_thread::Newcomer;
use pack_thread::Packed;
use run_trace::{Body, Extra, Label, Wait};
use slot_space::{NodeNo, Reply, Tid};
use std::alloc::Global;

/// The line of a thread on the console.
fn line_of(alloc: Global, t: &Tid, bytes: &[u8]) -> Result<Vec<u8>, NoMemory>
    ensures { IfOk result (λ line. line.items ≡ line_of t.now bytes.now) }
{
    let home = t.home.0;
    let seq = t.seq;
    let mut line = format!(in alloc; "{home}.{seq}| ")?.into_bytes();
    line.extend_from_slice(bytes)?;
    line.push(b'\n')?;
    Ok(line)
}

impl EventSoFar {
    /// The thread's line is on the console.
    #[tactic(auto, unfolding(run_trace::specs::Steps::shows))]
    pub(crate) fn shows(&mut self, t: &Tid, bytes: &[u8]) -> Result<(), NoMemory>
        ensures { IfOk result (λ _. self.new ≡ shows t.now bytes.now self.old) }
    {
        let line = line_of(self.alloc, t, bytes)?;
        self.say(Label::Shown(*t))?;
        self.print(&line)
    }

    /// The thread's node is told that its line is shown.
    #[tactic(auto, unfolding(run_trace::specs::Steps::acknowledges))]
    pub(crate) fn acknowledges(&mut self, t: &Tid, at: NodeNo) -> Result<(), NoMemory>
        ensures { IfOk result (λ _. self.new ≡ acknowledges t.now at self.old) }
    {
        self.say(Label::Judged {
            t: *t,
            reply: 0,
            extra: Extra::Nothing,
        })?;
        self.put(at, Body::ShowDone { t: *t })
    }

    /// The home takes a join up, and what it is answered.
    #[tactic(auto, unfolding(run_trace::specs::Steps::hears, run_trace::specs::Steps::change_birth, run_trace::specs::Steps::say))]
    pub(crate) fn hears(&mut self, by: &Tid, seq: u32, at: NodeNo) -> Result<Verdict, NoMemory>
        ensures after { IfOk result (λ _. self.new ≡ hears by.now seq at self.old) }
        ensures verdict { IfOk result (λ v. v ≡ verdict (slice_get self.old.node.births seq)) }
    {
        self.say(Label::Heard(*by))?;
        let node = &mut self.node;
        Ok(node.homes.join_asked(seq, *by, at))
    }

    /// The home takes a detach up, and what it is answered.
    #[tactic(auto, unfolding(run_trace::specs::Steps::hears_detach, run_trace::specs::Steps::change_birth, run_trace::specs::Steps::say))]
    pub(crate) fn hears_detach(&mut self, by: &Tid, seq: u32) -> Result<Detached, NoMemory>
        ensures after { IfOk result (λ _. self.new ≡ hears_detach by.now seq self.old) }
        ensures verdict { IfOk result (λ v. v ≡ detach_verdict (slice_get self.old.node.births seq)) }
    {
        self.say(Label::Heard(*by))?;
        let node = &mut self.node;
        Ok(node.homes.detach(seq))
    }

    /// The home knows of an end, and who waits for it.
    #[tactic(auto, unfolding(run_trace::specs::Steps::knows, run_trace::specs::Steps::change_birth, run_trace::specs::Steps::say))]
    pub(crate) fn knows(
        &mut self,
        here: &Here<'_>,
        seq: u32,
        end: End,
    ) -> Result<Option<(Tid, NodeNo)>, NoMemory>
        requires { is_open (slice_get self.old.node.births seq) ≡ true }
        ensures after { IfOk result (λ _. self.new ≡ knows here.now.me seq end self.old) }
        ensures joiner { IfOk result (λ j. j ≡ joiner (slice_get self.old.node.births seq)) }
    {
        self.say(Label::Known(Tid { home: here.me, seq }))?;
        let node = &mut self.node;
        Ok(node.homes.ended(seq, end))
    }

    /// The thread is here, and waits for this: that its line is shown, or the answer of another node.
    fn waits(&self, t: &Tid, wait: Wait) -> bool
        ensures { result ≡ is_waiting (thread_at t.now self.now) wait }
    {
        let node = &self.node;
        let Some(thread) = node.threads.get(t) else {
            return false;
        };
        match (thread.wait(), wait) {
            (Wait::ForShow, Wait::ForShow) => true,
            (Wait::ForAnswer, Wait::ForAnswer) => true,
            _ => false,
        }
    }

    /// What the home says of a join.
    fn judges_join(&mut self, by: &Tid, at: NodeNo, verdict: Verdict) -> Result<(), NoMemory>
        ensures { IfOk result (λ _. self.new ≡ judges_join by.now at verdict self.old) }
    {
        match verdict {
            Verdict::Now(end) => self.reply_by_link(by, at, end.reply(), Some(end.value())),
            Verdict::Later => Ok(()),
            Verdict::NoSuch => self.reply_by_link(by, at, Reply::NoSuch, None),
            Verdict::Taken => self.reply_by_link(by, at, Reply::Taken, None),
        }
    }

    /// The thread that waits for an end is told of it.
    fn tells_joiner(&mut self, end: End, joiner: Option<(Tid, NodeNo)>) -> Result<(), NoMemory>
        ensures { IfOk result (λ _. self.new ≡ tells_joiner end joiner self.old) }
    {
        match joiner {
            None => Ok(()),
            Some((by, at)) => self.reply_by_link(&by, at, end.reply(), Some(end.value())),
        }
    }

    /// A thread comes with its blocks. Those of one that this node doesn't expect are spare.
    fn takes_thread(
        &mut self,
        here: &Here<'_>,
        from: NodeNo,
        packed: Packed,
    ) -> Result<(), NoMemory>
        requires { self.old ≡ nothing self.old.node }
        ensures { IfOk result (λ _. self.new ≡ takes here.now.program.now here.now.me from (body_of.Mover packed) self.old.node) }
    {
        let newcomer = Newcomer::open(self.alloc, packed)?;
        if self.may_enter(here, &newcomer) {
            self.enters(newcomer)
        } else {
            newcomer.thread.end(&mut self.pool);
            Ok(())
        }
    }

    /// A line is shown.
    fn takes_line(
        &mut self,
        here: &Here<'_>,
        from: NodeNo,
        t: &Tid,
        bytes: &[u8],
    ) -> Result<(), NoMemory>
        requires { self.old ≡ nothing self.old.node }
        ensures { IfOk result (λ _. self.new ≡ takes here.now.program.now here.now.me from (body_of.Show t.now bytes.now) self.old.node) }
    {
        if !(here.me.0 == 0 && t.home.0 < here.program.nodes()) {
            return Ok(());
        }
        self.shows(t, bytes)?;
        self.acknowledges(t, from)
    }

    /// The thread's line was shown.
    fn takes_shown(&mut self, here: &Here<'_>, from: NodeNo, t: &Tid) -> Result<(), NoMemory>
        requires { self.old ≡ nothing self.old.node }
        ensures { IfOk result (λ _. self.new ≡ takes here.now.program.now here.now.me from (body_of.ShowDone t.now) self.old.node) }
    {
        if !(t.home.0 < here.program.nodes() && self.waits(t, Wait::ForShow)) {
            return Ok(());
        }
        self.tell(t, 0, None)
    }

    /// A thread joins one that was born here.
    fn takes_join(
        &mut self,
        here: &Here<'_>,
        from: NodeNo,
        by: &Tid,
        seq: u32,
    ) -> Result<(), NoMemory>
        requires { self.old ≡ nothing self.old.node }
        ensures { IfOk result (λ _. self.new ≡ takes here.now.program.now here.now.me from (body_of.JoinAsk by.now seq) self.old.node) }
    {
        if !(by.home.0 < here.program.nodes()) {
            return Ok(());
        }
        let verdict = self.hears(by, seq, from)?;
        self.judges_join(by, from, verdict)
    }

    /// A thread detaches one that was born here.
    fn takes_detach(
        &mut self,
        here: &Here<'_>,
        from: NodeNo,
        by: &Tid,
        seq: u32,
    ) -> Result<(), NoMemory>
        requires { self.old ≡ nothing self.old.node }
        ensures { IfOk result (λ _. self.new ≡ takes here.now.program.now here.now.me from (body_of.DetachAsk by.now seq) self.old.node) }
    {
        if !(by.home.0 < here.program.nodes()) {
            return Ok(());
        }
        let verdict = self.hears_detach(by, seq)?;
        self.reply_by_link(by, from, verdict.reply(), None)
    }

    /// A thread of another node lowers a semaphore of this one, or raises it.
    fn takes_signal(
        &mut self,
        here: &Here<'_>,
        from: NodeNo,
        by: &Tid,
        id: u64,
        up: bool,
    ) -> Result<(), NoMemory>
        requires { self.old ≡ nothing self.old.node }
        ensures { IfOk result (λ _. self.new ≡ takes here.now.program.now here.now.me from (body_of.SemAsk by.now id up) self.old.node) }
    {
        let me = here.me.0;
        if !(by.home.0 < here.program.nodes() && (from.0 != me && home_of(id) == me as u64)) {
            return Ok(());
        }
        self.hears_call(here, from, by, id, up)
    }

    /// The thread's answer has come.
    fn takes_answer(
        &mut self,
        here: &Here<'_>,
        from: NodeNo,
        t: &Tid,
        reply: Reply,
        second: Option<u64>,
    ) -> Result<(), NoMemory>
        requires { self.old ≡ nothing self.old.node }
        ensures { IfOk result (λ _. self.new ≡ takes here.now.program.now here.now.me from (body_of.Answer t.now reply second) self.old.node) }
    {
        if !(t.home.0 < here.program.nodes() && self.waits(t, Wait::ForAnswer)) {
            return Ok(());
        }
        self.tell(t, reply.code(), second)
    }

    /// A thread that was born here has ended.
    fn takes_end(
        &mut self,
        here: &Here<'_>,
        from: NodeNo,
        seq: u32,
        end: End,
    ) -> Result<(), NoMemory>
        requires { self.old ≡ nothing self.old.node }
        ensures { IfOk result (λ _. self.new ≡ takes here.now.program.now here.now.me from (body_of.EndNote seq end) self.old.node) }
    {
        if !self.node.homes.lives(seq) {
            return Ok(());
        }
        let joiner = self.knows(here, seq, end)?;
        self.tells_joiner(end, joiner)
    }

    /// Another node wants a turn.
    fn takes_want(&mut self, here: &Here<'_>, from: NodeNo) -> Result<(), NoMemory>
        requires node { self.old ≡ nothing self.old.node }
        requires from { from < node_limit }
        ensures { IfOk result (λ _. self.new ≡ takes here.now.program.now here.now.me from body_of.Want self.old.node) }
    {
        let node = &self.node;
        if !(here.me.0 == 0 && !node.talk.lists(from)) {
            return Ok(());
        }
        self.lists(from)
    }

    /// This node has the turn.
    fn takes_turn(&mut self, here: &Here<'_>, from: NodeNo) -> Result<(), NoMemory>
        requires { self.old ≡ nothing self.old.node }
        ensures { IfOk result (λ _. self.new ≡ takes here.now.program.now here.now.me from body_of.Turn self.old.node) }
    {
        let node = &self.node;
        if !node.talk.wants() {
            return Ok(());
        }
        self.grants(here)
    }

    /// The turn of another node is over.
    fn takes_over(&mut self, here: &Here<'_>, from: NodeNo) -> Result<(), NoMemory>
        requires { self.old ≡ nothing self.old.node }
        ensures { IfOk result (λ _. self.new ≡ takes here.now.program.now here.now.me from body_of.Over self.old.node) }
    {
        let node = &self.node;
        if !(here.me.0 == 0 && node.talk.has_turn(from)) {
            return Ok(());
        }
        self.passes_turn(from)
    }

    /// A packet is taken.
    pub(crate) fn takes(
        &mut self,
        here: &Here<'_>,
        from: NodeNo,
        body: Body,
    ) -> Result<(), NoMemory>
        requires node { self.old ≡ nothing self.old.node }
        requires from { from < node_limit }
        ensures { IfOk result (λ _. self.new ≡ takes here.now.program.now here.now.me from body self.old.node) }
    {
        match body {
            Body::Mover(packed) => self.takes_thread(here, from, packed),
            Body::Show { t, bytes } => self.takes_line(here, from, &t, bytes.as_slice()),
            Body::ShowDone { t } => self.takes_shown(here, from, &t),
            Body::JoinAsk { by, seq } => self.takes_join(here, from, &by, seq),
            Body::DetachAsk { by, seq } => self.takes_detach(here, from, &by, seq),
            Body::SemAsk { by, id, up } => self.takes_signal(here, from, &by, id, up),
            Body::Answer { t, reply, second } => {
                self.takes_answer(here, from, &t, reply, second)
            }
            Body::EndNote { seq, end } => self.takes_end(here, from, seq, end),
            Body::Want => self.takes_want(here, from),
            Body::Turn => self.takes_turn(here, from),
            Body::Over => self.takes_over(here, from),
        }
    }
}
