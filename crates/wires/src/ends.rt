//! One node's ends of its links.

ghost use Rattle.std.specs.Prelude.{◌≡◌, ◌<◌, ◌≤◌, ◌↔◌, length, IsTrue, IsOk, OnOk};
ghost use Rattle.wires.specs.Link.{HasSent, HasTaken, SameLink, HasFlushed, IsInOrder, IsSettled, BothBecome, OwnBecomes};
ghost use Rattle.wires.specs.Ends.{node_of, width, known_from, spare_to, LinkChanged, AreFlushed, ArePaired, BothChanged};
ghost use Rattle.wires.specs.Wires.{StaysWired};

use crate::link::Link;
use basics::NoMemory;
use slot_space::NodeNo;

/// A node's ends of its links with all nodes, itself included. They may move to another thread.
#[derive(Drop)]
pub struct Ends<P> {
    pub(crate) me: NodeNo,
    // links[k] is the side of the links with node k.
    pub(crate) links: Vec<Link<P>>,
}

impl<P: Drop> Ends<P> {
    /// The node whose ends these are.
    pub fn me(&self) -> NodeNo
        ensures { result ≡ node_of self.now }
    {
        self.me
    }

    /// The number of nodes.
    pub fn width(&self) -> usize
        ensures { result ≡ width self.now }
    {
        self.links.len()
    }

    /// Makes room for `count` packets more in the outbox to a node. After an error all is as before.
    pub fn reserve(&mut self, to: NodeNo, count: u32) -> Result<(), NoMemory>
        requires { to < width self.old }
        ensures same { LinkChanged to SameLink self.old self.new }
        ensures ok { OnOk result (count ≤ spare_to self.new to) }
        ensures wired { StaysWired self.old self.new }
    {
        self.links[to.0 as usize].reserve(count as usize)?;
        Ok(())
    }

    /// Sends a packet: it goes to the end of the outbox to a node. This takes no memory.
    pub fn send(&mut self, to: NodeNo, packet: P)
        requires { (to < width self.old) × (0 < spare_to self.old to) }
        ensures sent { LinkChanged to (HasSent packet) self.old self.new }
        ensures wired { StaysWired self.old self.new }
    {
        self.links[to.0 as usize].send(packet);
    }

    /// Moves packets from the outboxes into the rings while the rings take them.
    pub fn flush(&mut self)
        ensures flushed { AreFlushed self.old self.new }
        ensures wired { StaysWired self.old self.new }
    {
        for k in 0..self.links.len() {
            self.flush_link(k);
        }
    }

    fn flush_link(&mut self, at: usize)
        requires { at < width self.old }
        ensures flushed { LinkChanged at HasFlushed self.old self.new }
        ensures wired { StaysWired self.old self.new }
    {
        self.links[at].flush();
    }

    /// Whether a packet of the sender is known to be there: a settle, a look or a take has shown it, and it isn't taken.
    pub fn known(&self, sender: NodeNo) -> bool
        requires { sender < width self.now }
        ensures { IsTrue result ↔ (0 < length (known_from self.now sender)) }
    {
        self.links[sender.0 as usize].from.cached_slots() > 0
    }

    /// Takes the first packet of the sender that its ring shows. It is the first one not yet received where one is known.
    pub fn take(&mut self, sender: NodeNo) -> Option<P>
        requires { sender < width self.old }
        ensures taken { LinkChanged sender (HasTaken result) self.old self.new }
        ensures wired { StaysWired self.old self.new }
    {
        self.links[sender.0 as usize].take()
    }

    /// Settles the node's link with itself, as `settle` does. It always succeeds.
    pub fn settle_own(&mut self) -> Result<(), NoMemory>
        requires { ArePaired self.old self.old }
        ensures ok { IsOk result }
        ensures settled { LinkChanged (node_of self.old) (OwnBecomes IsSettled) self.old self.new }
        ensures paired { ArePaired self.new self.new }
        ensures wired { StaysWired self.old self.new }
    {
        let me = self.me;
        self.links[me.0 as usize].settle_own();
        Ok(())
    }

    /// Looks at the node's link with itself, as `look` does.
    pub fn look_own(&mut self)
        requires { ArePaired self.old self.old }
        ensures looked { LinkChanged (node_of self.old) (OwnBecomes IsInOrder) self.old self.new }
        ensures paired { ArePaired self.new self.new }
        ensures wired { StaysWired self.old self.new }
    {
        let me = self.me;
        self.links[me.0 as usize].look_own();
    }
}

/// Settles both links between two nodes: moves packets from the outboxes into the rings until the rings are full,
/// and makes all that the rings hold known. It takes no memory and always succeeds.
pub fn settle<P: Drop>(a: &mut Ends<P>, b: &mut Ends<P>) -> Result<(), NoMemory>
    requires { ArePaired a.old b.old }
    ensures ok { IsOk result }
    ensures settled { BothChanged (BothBecome IsSettled) a.old b.old a.new b.new }
    ensures paired { ArePaired a.new b.new }
    ensures wired { StaysWired a.old a.new × StaysWired b.old b.new }
{
    let ours = a.me;
    let theirs = b.me;
    a.links[theirs.0 as usize].settle_with(&mut b.links[ours.0 as usize]);
    Ok(())
}

/// Looks at both ends of both links between two nodes, which tells that what was received is a prefix of what was sent.
pub fn look<P: Drop>(a: &mut Ends<P>, b: &mut Ends<P>)
    requires { ArePaired a.old b.old }
    ensures looked { BothChanged (BothBecome IsInOrder) a.old b.old a.new b.new }
    ensures paired { ArePaired a.new b.new }
    ensures wired { StaysWired a.old a.new × StaysWired b.old b.new }
{
    let ours = a.me;
    let theirs = b.me;
    a.links[theirs.0 as usize].look_with(&mut b.links[ours.0 as usize]);
}
