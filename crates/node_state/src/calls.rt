//! The calls, the acts and the packets, composed of the small steps.

ghost use Rattle.std.specs.Prelude.{◌≡◌, [], IfOk};
ghost use Rattle.run_trace.specs.Steps.{at_thread, thread_at, asks, asks_slots};
ghost use Rattle.run_trace.specs.Machine.{answer, serves, does, calls, stopped};
ghost use Rattle.node_state.specs.Asking.{IsSmall, NamesBlockAt, IsHere, CanBeDone, refused_by, named_by};

use crate::call::Checked;
use crate::checks::check;
use crate::event_so_far::EventSoFar;
use crate::here::Here;
use crate::names::tid_of;
use basics::{Items, NoMemory};
use marcel_core::End;
use run_trace::Call;
use rv_step::Stop;
use slot_space::{NodeNo, Reply, Tid};

impl EventSoFar {
    /// A thread that is here has its reply at once.
    pub(crate) fn answer(&mut self, t: &Tid, code: u64) -> Result<(), NoMemory>
        ensures { IfOk result (λ _. self.new ≡ answer t.now code self.old) }
    {
        self.judge(t, code, None)?;
        self.tell(t, code, None)
    }

    /// The thread asks, and has its reply at once.
    pub(crate) fn asks_and_hears(&mut self, t: &Tid, call: Call, code: u64) -> Result<(), NoMemory>
        ensures { IfOk result (λ _. self.new ≡ answer t.now code (asks t.now call self.old)) }
    {
        self.asks(t, call)?;
        self.answer(t, code)
    }

    /// The thread creates another one, for which it seeks a slot.
    pub(crate) fn asks_slot(&mut self, here: &Here<'_>, t: &Tid, call: Call) -> Result<(), NoMemory>
        ensures { IfOk result (λ _. self.new ≡ serves here.now.me t.now (at_thread t.now (asks_slots t.now call) self.old)) }
    {
        self.asks_slots(t, call)?;
        self.serves(here, t)
    }

    /// A call past its checks, which names no bytes.
    #[tactic(auto, using(crate::proofs::Told::asked))]
    fn does(&mut self, here: &Here<'_>, t: &Tid, call: Call) -> Result<(), NoMemory>
        requires small { IsSmall call }
        requires block { NamesBlockAt call (thread_at t.now self.old) }
        requires here { IsHere (thread_at t.now self.old) }
        ensures { IfOk result (λ _. self.new ≡ does here.now.program.now here.now.me t.now call [] self.old) }
    {
        match call {
            Call::Exit(value) => {
                self.asks(t, call)?;
                self.end_thread(t, End::Exit(value))
            }
            Call::Name => self.asks_and_hears(t, call, t.value()),
            Call::Node => self.asks_and_hears(t, call, here.me.0 as u64),
            Call::Nodes => self.asks_and_hears(t, call, here.program.nodes() as u64),
            Call::Yield => self.asks_and_hears(t, call, 0),
            Call::Create { .. } => self.asks_slot(here, t, call),
            Call::Join(name) => self.asks_join(t, call, &tid_of(name)),
            Call::Detach(name) => self.asks_detach(t, call, &tid_of(name)),
            Call::SemNew(value) => self.makes(here, t, call, value),
            Call::SemP(id) => self.signals(here, t, call, id, false),
            Call::SemV(id) => self.signals(here, t, call, id, true),
            Call::Isomalloc(len) => self.isomallocs(here, t, len),
            Call::Isofree(address) => {
                self.asks(t, call)?;
                self.frees(t, address)
            }
            Call::MigrateSelf(to) => {
                self.asks(t, call)?;
                self.answer(t, 0)?;
                self.migrates(here, NodeNo(to as u8), t)
            }
            Call::Migrate { name, to } => {
                self.asks(t, call)?;
                self.sends(here, t, name, NodeNo(to as u8))
            }
            Call::Print { .. } => self.asks_show(t, call, Items::new(Vec::new(self.alloc))),
            Call::BubbleNew { priority, depth } => self.makes_bubble(here, t, priority, depth),
            Call::BubbleInsert { bubble, member } => self.inserts_bubble(here, t, bubble, member),
            Call::BubbleWake(bubble) => self.wakes_bubble(here, t, bubble),
            Call::BubbleGather(bubble) => self.gathers_bubble(here, t, bubble),
            Call::CreateIn { bubble, .. } => self.creates_inside(here, t, call, bubble),
            Call::Halt => {
                self.asks(t, call)?;
                self.halts(t)
            }
            Call::Unknown(_) => self.asks_and_hears(t, call, Reply::BadArgument.code()),
        }
    }

    /// A call after its checks.
    #[tactic(auto, using(crate::proofs::Told::shown))]
    fn calls(
        &mut self,
        here: &Here<'_>,
        t: &Tid,
        call: Call,
        checked: Checked,
    ) -> Result<(), NoMemory>
        requires { CanBeDone call (thread_at t.now self.old) checked }
        ensures { IfOk result (λ _. self.new ≡ calls here.now.program.now here.now.me t.now call (refused_by checked) (named_by checked) self.old) }
    {
        match checked {
            Checked::Refused(reply) => self.asks_and_hears(t, call, reply.code()),
            Checked::Shows(bytes) => self.asks_show(t, call, bytes),
            Checked::Passed => self.does(here, t, call),
        }
    }

    /// What the end of the thread's run leads to.
    #[tactic(auto, using(crate::proofs::Told::stop_is))]
    pub(crate) fn stops(&mut self, here: &Here<'_>, t: &Tid, stop: Stop) -> Result<(), NoMemory>
        ensures { IfOk result (λ _. self.new ≡ at_thread t.now (stopped here.now.program.now here.now.me t.now stop) self.old) }
    {
        let alloc = self.alloc;
        let node = &self.node;
        let Some(thread) = node.threads.get(t) else {
            return Ok(());
        };
        match stop {
            Stop::Quantum => self.arrive(t),
            Stop::Call => {
                let call = thread.call();
                let checked = check(alloc, here.program, t, thread, call)?;
                self.calls(here, t, call, checked)
            }
            Stop::Fault(kind) => {
                let pc = thread.pc();
                self.end_thread(t, End::Fault { kind, pc })
            }
        }
    }
}
