//! The links of all nodes.

ghost use Rattle.std.specs.Prelude.{◌≡◌, ◌+◌, [], vec_len, IfOk, IsOkAnd};
ghost use Rattle.rtrb.specs.Ring.{IsPair, sent, received, known_items, producer_capacity};
ghost use Rattle.wires.specs.Built.{IsFresh, Gains, IsBuilt};
ghost use Rattle.wires.specs.Wires.{AreWired, AreFreshFor};

use crate::ends::Ends;
use crate::link::Link;
use basics::NoMemory;
use rtrb::{Consumer, Producer, RingBuffer};
use slot_space::NodeNo;
use std::alloc::Global;
use std::collections::VecDeque;
use std::marker::Model;

/// A link for each ordered pair of nodes. Contracts see each node's ends, in the order of nodes.
#[derive(Drop)]
pub struct Wires<P> {
    ends: Vec<Ends<P>>,
}

impl<P> Model for Wires<P> {
    ghost use Rattle.std.specs.Prelude.{List};
    ghost use Rattle.wires.specs.declared.ends.Ends.{Ends};

    ghost Value = { List (Ends P) };

    ghost view = { λ w. w.ends.items };
}

impl<P: Drop> Wires<P> {
    /// Links that have carried nothing, each with a ring of 64 packets and an empty outbox.
    pub fn new(alloc: Global, nodes: u8) -> Result<Wires<P>, NoMemory>
        ensures { IfOk result (λ wires. AreFreshFor nodes wires) }
    {
        let mut ends = Vec::new(alloc);
        for n in 0..nodes {
            ends = add_node(alloc, ends, NodeNo(n))?;
        }
        Ok(Wires { ends })
    }

    /// Wires of no nodes, which have no links.
    pub fn none(alloc: Global) -> Wires<P>
        ensures { result ≡ [] }
    {
        Wires {
            ends: Vec::new(alloc),
        }
    }

    /// Each node's ends, in the order of nodes. This takes no memory and always succeeds.
    pub fn ends(self) -> Result<Vec<Ends<P>>, NoMemory>
        ensures { IsOkAnd result (λ ends. ends.items ≡ self) }
    {
        Ok(self.ends)
    }

    /// The wires of all nodes' ends, which stand in the order of nodes. This takes no memory.
    pub fn of_ends(ends: Vec<Ends<P>>) -> Wires<P>
        requires { AreWired ends.items }
        ensures { result ≡ ends.items }
    {
        Wires { ends }
    }
}

// Adds node n, with its links with the nodes before it and with itself.
fn add_node<P: Drop>(alloc: Global, ends: Vec<Ends<P>>, n: NodeNo) -> Result<Vec<Ends<P>>, NoMemory>
    requires { (vec_len ends ≡ n) × IsBuilt n ends.items }
    ensures { IfOk result (λ es. (vec_len es ≡ n + 1) × IsBuilt (n + 1) es.items) }
{
    let mut ends = ends;
    let mut mine = Vec::new(alloc);
    for k in 0..ends.len() {
        let (to_me, from_them) = ring(alloc)?;
        let (to_them, from_me) = ring(alloc)?;
        gain(&mut ends[k], link(alloc, to_me, from_me))?;
        mine.push(link(alloc, to_them, from_them))?;
    }
    let (to, from) = ring(alloc)?;
    mine.push(link(alloc, to, from))?;
    ends.push(Ends { me: n, links: mine })?;
    Ok(ends)
}

fn gain<P: Drop>(ends: &mut Ends<P>, link: Link<P>) -> Result<(), NoMemory>
    ensures { IfOk result (λ _. Gains link ends.old ends.new) }
{
    ends.links.push(link)?;
    Ok(())
}

fn ring<P: Drop>(alloc: Global) -> Result<(Producer<P>, Consumer<P>), NoMemory>
    ensures pair { IfOk result (λ r. IsPair r.0 r.1) }
    ensures size { IfOk result (λ r. producer_capacity r.0 ≡ 64) }
    ensures empty { IfOk result (λ r. (sent r.0 ≡ []) × (received r.1 ≡ []) × (known_items r.1 ≡ [])) }
{
    let ends = RingBuffer::new(alloc, 64)?;
    Ok(ends)
}

fn link<P>(alloc: Global, to: Producer<P>, from: Consumer<P>) -> Link<P>
    requires size { producer_capacity to ≡ 64 }
    requires empty { (sent to ≡ []) × (received from ≡ []) × (known_items from ≡ []) }
    ensures ends { (result.to ≡ to) × (result.from ≡ from) }
    ensures fresh { IsFresh result }
{
    Link {
        to,
        outbox: VecDeque::new(alloc),
        from,
    }
}
