//! How a processor comes to a thread, by one choice after another, and runs it.

ghost use Rattle.std.specs.Prelude.{◌≡◌, ◌<◌, Some, IfOk};
ghost use Rattle.run_trace.specs.Steps.{thread_at, shift_label};
ghost use Rattle.run_trace.specs.Machine.{chooses, choice_limit};
ghost use Rattle.node_state.specs.Runs.{run_chosen, Chooses};

use crate::event_so_far::EventSoFar;
use crate::here::Here;
use basics::NoMemory;
use bubbles::{Shift, Step};
use run_trace::Label;
use slot_space::Tid;

/// The label of a bubble that is moved.
fn shift_label(shift: Shift) -> Label
    ensures { result ≡ shift_label shift }
{
    match shift {
        Shift::Down(bubble, list) => Label::Down { bubble, list },
        Shift::Burst(bubble, list) => Label::Burst { bubble, list },
    }
}

impl EventSoFar {
    /// The thread that is chosen runs. Want of memory is also where it isn't here.
    fn run_chosen(&mut self, here: &Here<'_>, vp: u8, quantum: u32, t: &Tid) -> Result<(), NoMemory>
        ensures { IfOk result (λ _. Some self.new ≡ run_chosen here.now.program.now here.now.me vp quantum t.now (thread_at t.now self.old) self.old) }
    {
        let Some(stop) = self.runs(here.program.image(), t, vp, quantum)? else {
            return Err(NoMemory);
        };
        self.stops(here, t, stop)?;
        Ok(())
    }

    /// One choice of at most so many: whether another is to follow, since a bubble was moved. Want of memory is also where it finds nothing.
    fn chooses_once(
        &mut self,
        here: &Here<'_>,
        vp: u8,
        quantum: u32,
        left: u64,
    ) -> Result<bool, NoMemory>
        requires { 0 < left }
        ensures { IfOk result (Chooses here.now.program.now here.now.me vp quantum left self.old self.new) }
    {
        match self.choose(vp)? {
            Step::Empty => Err(NoMemory),
            Step::Takes(t) => {
                self.run_chosen(here, vp, quantum, &t)?;
                Ok(false)
            }
            Step::Shifts(shift) => {
                self.say(shift_label(shift))?;
                Ok(true)
            }
        }
    }

    /// How many choices a pick has at most.
    fn choice_limit(&self) -> u64
        ensures { result ≡ choice_limit self.now.node.forest }
    {
        let node = &self.node;
        3 * node.forest.bubbles() as u64 + 1
    }

    /// The processor, which has a pick, chooses until it comes to a thread, which runs. Want of memory is also where it comes to none.
    pub(crate) fn chooses(&mut self, here: &Here<'_>, vp: u8, quantum: u32) -> Result<(), NoMemory>
        ensures { IfOk result (λ _. Some self.new ≡ chooses here.now.program.now here.now.me vp quantum (choice_limit self.old.node.forest) self.old) }
    {
        let mut left = self.choice_limit();
        while 0 < left {
            if !self.chooses_once(here, vp, quantum, left)? {
                return Ok(());
            }
            left -= 1;
        }
        Err(NoMemory)
    }
}
