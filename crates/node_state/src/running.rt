//! A thread runs, and a thread ends.

ghost use Rattle.std.specs.Prelude.{◌≡◌, IfOk};
ghost use Rattle.run_trace.specs.Steps.{thread_at, at_thread, ends};
ghost use Rattle.run_trace.specs.Machine.{end_thread};
ghost use Rattle.node_state.specs.Runs.{ran_at, stop_found};

use crate::event_so_far::EventSoFar;
use basics::{Items, NoMemory};
use marcel_core::End;
use run_trace::{Body, Label};
use rv_inst::Image;
use rv_step::Stop;
use slot_space::Tid;

impl EventSoFar {
    /// The thread, which is chosen, runs, and why it stops, None where it isn't here.
    #[tactic(auto, unfolding(run_trace::specs::Steps::keep))]
    pub(crate) fn runs(
        &mut self,
        image: &Image,
        t: &Tid,
        vp: u8,
        quantum: u32,
    ) -> Result<Option<Stop>, NoMemory>
        ensures after { IfOk result (λ stop. self.new ≡ at_thread t.now (ran_at image.now.bytes t.now vp quantum) self.old) }
        ensures stop { IfOk result (λ stop. stop ≡ stop_found image.now.bytes quantum (thread_at t.now self.old)) }
    {
        let node = &mut self.node;
        let Some(thread) = node.threads.get_mut(t) else {
            return Ok(None);
        };
        let ran = thread.run(image, quantum);
        self.say(Label::Ran {
            t: *t,
            vp,
            count: ran.count,
            stop: ran.stop,
        })?;
        Ok(Some(ran.stop))
    }

    /// The thread gives all its slots back, and is here no more; it has ended, and its home gets a note.
    #[tactic(auto, unfolding(run_trace::specs::Steps::gives))]
    pub(crate) fn end_thread(&mut self, t: &Tid, end: End) -> Result<(), NoMemory>
        ensures { IfOk result (λ _. self.new ≡ at_thread t.now (λ x. end_thread t.now x end) self.old) }
    {
        let node = &self.node;
        let Some(thread) = node.threads.get(t) else {
            return Ok(());
        };
        let slots = thread.slots();
        let members = slots.members(self.alloc)?;
        self.say(Label::Gave {
            t: *t,
            slots: Items::new(members),
        })?;
        self.slots_in(&slots);
        self.thread_out(t);
        self.ends(t, end)
    }

    /// The thread has ended, and its home gets a note.
    #[tactic(auto, unfolding(run_trace::specs::Steps::ends))]
    fn ends(&mut self, t: &Tid, end: End) -> Result<(), NoMemory>
        ensures { IfOk result (λ _. self.new ≡ ends t.now end self.old) }
    {
        self.depart(t);
        self.say(Label::Ended { t: *t, end })?;
        self.put(t.home, Body::EndNote { seq: t.seq, end })
    }
}
