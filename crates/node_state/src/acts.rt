//! The acts of a node: to begin, to run the thread to which a processor comes, to take a packet, and to send a thread away.

ghost use Rattle.std.specs.Prelude.{◌≡◌, IfOk, true};
ghost use Rattle.run_trace.specs.Machine.{boots, is_range, acts, local_event};
ghost use Rattle.run_trace.specs.Local.{nothing};
ghost use Rattle.node_state.specs.Events.{StartsAligned, Becomes, IsFromNode, can_act};

use crate::event_so_far::EventSoFar;
use crate::here::Here;
use basics::NoMemory;
use run_trace::{Act, Packet, Why};

/// The most instructions that an act may let a thread run.
const QUANTUM_LIMIT: u32 = 65536;

/// The priority of the main thread.
const MAIN_PRIORITY: u8 = 3;

impl EventSoFar {
    /// Node 0 begins with the main thread.
    fn boots(&mut self, here: &Here<'_>) -> Result<(), NoMemory>
        requires { StartsAligned here.now.program.now.image }
        ensures { IfOk result (λ _. self.new ≡ boots here.now.program.now here.now.me self.old) }
    {
        let slot = self.free_slot();
        self.begin();
        if here.me.0 != 0 {
            return Ok(());
        }
        match slot {
            None => Ok(()),
            Some(slot) => self.birth(
                here,
                Why::Main,
                here.program.image().main,
                0,
                MAIN_PRIORITY,
                slot,
            ),
        }
    }

    /// The act's numbers are such as the node can do.
    #[tactic(auto, unfolding(run_trace::specs::Machine::is_range))]
    fn is_range(&self, here: &Here<'_>, act: &Act) -> bool
        ensures range { result ≡ is_range here.now.program.now here.now.me self.now.node act.now }
        ensures from { result ≡ true → IsFromNode act.now }
    {
        let nodes = here.program.nodes();
        let me = here.me;
        let node = &self.node;
        match act {
            Act::Boot => me.0 < nodes && !node.booted,
            Act::Run(vp, quantum) => {
                me.0 < nodes
                    && (node.booted
                        && (*vp < here.program.processors()
                            && (0 < *quantum && *quantum <= QUANTUM_LIMIT)))
            }
            Act::Take(from) => me.0 < nodes && (node.booted && from.0 < nodes),
            Act::Move(_, to) => { me.0 < nodes && (node.booted && (to.0 < nodes && to.0 != me.0)) }
        }
    }

    /// The act, whose numbers are such as the node can do, and which has a thread where it needs one; false where it isn't possible.
    fn acts(&mut self, here: &Here<'_>, act: &Act, took: Option<Packet>) -> Result<bool, NoMemory>
        requires node { self.old ≡ nothing self.old.node }
        requires image { StartsAligned here.now.program.now.image }
        requires can { can_act self.old.node act.now ≡ true }
        requires from { IsFromNode act.now }
        ensures { IfOk result (λ did. Becomes (acts here.now.program.now here.now.me self.old.node act.now took) self.old self.new did) }
    {
        match took {
            None => match act {
                Act::Boot => {
                    self.boots(here)?;
                    Ok(true)
                }
                Act::Run(vp, quantum) => {
                    self.chooses(here, *vp, *quantum)?;
                    Ok(true)
                }
                Act::Move(t, to) => self.moves_listed(here.program, t, *to),
                Act::Take(_) => Ok(false),
            },
            Some(packet) => match act {
                Act::Take(from) => {
                    let Packet { stamp: _, body } = packet;
                    self.takes(here, *from, body)?;
                    Ok(true)
                }
                _ => Ok(false),
            },
        }
    }

    /// One event, from a node where nothing has happened; false where the act isn't possible.
    #[tactic(auto, unfolding(run_trace::specs::Machine::local_event), using(crate::proofs::Possible::none_done))]
    pub(crate) fn event(
        &mut self,
        here: &Here<'_>,
        act: &Act,
        took: Option<Packet>,
    ) -> Result<bool, NoMemory>
        requires node { self.old ≡ nothing self.old.node }
        requires image { StartsAligned here.now.program.now.image }
        ensures { IfOk result (λ did. Becomes (local_event here.now.program.now here.now.me self.old.node act.now took) self.old self.new did) }
    {
        if !self.is_range(here, act) {
            return Ok(false);
        }
        let node = &self.node;
        if !node.can(act) {
            return Ok(false);
        }
        self.acts(here, act, took)
    }
}
