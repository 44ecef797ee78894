//! What a turn does with the node's ends.

ghost use Rattle.std.specs.Prelude.{◌<◌, ◌≤◌, ◌∷◌, [], length, OnOk};
ghost use Rattle.wires.specs.Ends.{width, spare_to};
ghost use Rattle.node_loop.specs.Links.{Took, IsTakenWithin, Reserved, HasRoom, Sent};

use basics::NoMemory;
use run_trace::{Act, Packet, Send};
use slot_space::NodeNo;
use wires::Ends;

/// Takes what this act takes.
pub(crate) fn take(ends: &mut Ends<Packet>, act: &Act) -> Option<Packet>
    requires { IsTakenWithin (width ends.old) act.now }
    ensures { Took act.now result ends.old ends.new }
{
    match act {
        Act::Take(from) => ends.take(*from),
        Act::Boot => None,
        Act::Run(_, _) => None,
        Act::Move(_, _) => None,
    }
}

/// Makes room for all that is sent.
pub(crate) fn reserve_all(ends: &mut Ends<Packet>, sends: &[Send]) -> Result<(), NoMemory>
    ensures kept { Reserved ends.old ends.new }
    ensures ok { OnOk result (HasRoom (length sends.now) ends.new sends.now) }
{
    let Ok(count) = u32::try_from(sends.len()) else {
        return Err(NoMemory);
    };
    for send in sends {
        reserve_one(ends, send.to, count)?;
    }
    Ok(())
}

// Makes room for so many packets to a node, if it is among the ends.
fn reserve_one(ends: &mut Ends<Packet>, to: NodeNo, count: u32) -> Result<(), NoMemory>
    ensures kept { Reserved ends.old ends.new }
    ensures ok { OnOk result (to < width ends.new → count ≤ spare_to ends.new to) }
{
    if (to.0 as usize) < ends.width() {
        ends.reserve(to, count)?;
    }
    Ok(())
}

/// Sends the packets of an entry with this stamp. It takes no memory.
pub(crate) fn send_all(ends: &mut Ends<Packet>, stamp: u64, sends: Vec<Send>)
    requires { HasRoom (length sends.items) ends.old sends.items }
    ensures { Sent stamp sends.items ends.old ends.new }
{
    for send in sends {
        send_one(ends, stamp, send);
    }
}

// Sends a packet; what goes to a node that isn't among the ends is dropped.
fn send_one(ends: &mut Ends<Packet>, stamp: u64, send: Send)
    requires { send.to < width ends.old → 0 < spare_to ends.old send.to }
    ensures { Sent stamp (send ∷ []) ends.old ends.new }
{
    let Send { to, body } = send;
    if (to.0 as usize) < ends.width() {
        ends.send(to, Packet { stamp, body });
    }
}
