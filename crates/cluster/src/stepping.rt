//! The parts of a step.

ghost use Rattle.std.specs.Prelude.{◌≡◌, ◌<◌, ◌≤◌, Some, IfOk, IsOk, OnErr, length, map, min, slice_get};
ghost use Rattle.wires.specs.Link.{IsSettled, BothBecome, OwnBecomes};
ghost use Rattle.wires.specs.Pairs.{PairChanged, SelfChanged};
ghost use Rattle.wires.specs.Wires.{AreWired};
ghost use Rattle.node_loop.specs.View.{NodeView, raised};
ghost use Rattle.cluster.specs.Between.{AreNumbered, HasActed, HasFailed, IsReady, KeepNodes, SettlesAll, SettlesOf, wires_in};
ghost use Rattle.cluster.specs.View.{greatest_clock, last_clock};

use basics::NoMemory;
use node_loop::{Node, Turned};
use run_trace::{Act, Packet};
use wires::Ends;

/// The greatest clock to which clocks are raised; above it come the stamps of strays.
const LAST_CLOCK: u64 = (1 << 62) - 1;

// The clock to which all are raised: the greatest.
pub(crate) fn next_clock(nodes: &[Node]) -> u64
    ensures value { result ≡ min (greatest_clock nodes.now) last_clock }
    ensures below { result ≤ last_clock }
{
    let mut greatest = 0;
    for node in nodes {
        greatest = greatest.max(node.clock());
    }
    greatest.min(LAST_CLOCK)
}

// An act of a node, which is ready for it: the clocks are raised before it, and the node's links are settled after it.
pub(crate) fn carry_out(
    nodes: &mut [Node],
    rest: &[Ends<Packet>],
    clock: u64,
    at: usize,
    act: Act,
) -> Result<Turned, NoMemory>
    requires place { at < length nodes.old }
    requires clock { clock ≤ last_clock }
    requires ready { (v : NodeView) → slice_get nodes.old at ≡ Some v → IsReady v act }
    requires numbered { AreNumbered nodes.old }
    requires wired { AreWired (wires_in nodes.old rest.now) }
    ensures acted { IfOk result (λ turned. HasActed clock at act rest.now nodes.old nodes.new turned) }
    ensures err { OnErr result (HasFailed clock at nodes.old nodes.new) }
{
    raise_all(nodes, clock);
    let turned = nodes[at].turn(act)?;
    settle_links(nodes, rest, at)?;
    Ok(turned)
}

// Each node's clock is at least this, and its next round begins.
pub(crate) fn raise_all(nodes: &mut [Node], clock: u64)
    requires { clock ≤ last_clock }
    ensures { nodes.new ≡ map (raised clock) nodes.old }
{
    for node in nodes.iter_mut() {
        node.raise(clock);
    }
}

// Settles the links of all nodes. It takes no memory and always succeeds.
pub(crate) fn settle_all(nodes: &mut [Node], rest: &[Ends<Packet>]) -> Result<(), NoMemory>
    requires numbered { AreNumbered nodes.old }
    requires wired { AreWired (wires_in nodes.old rest.now) }
    ensures ok { IsOk result }
    ensures settled { SettlesAll rest.now nodes.old nodes.new }
{
    for at in 0..nodes.len() {
        settle_links(nodes, rest, at)?;
    }
    Ok(())
}

// Settles the links of a node with all nodes. It takes no memory and always succeeds.
fn settle_links(nodes: &mut [Node], rest: &[Ends<Packet>], at: usize) -> Result<(), NoMemory>
    requires place { at < length nodes.old }
    requires numbered { AreNumbered nodes.old }
    requires wired { AreWired (wires_in nodes.old rest.now) }
    ensures ok { IsOk result }
    ensures settled { SettlesOf at rest.now nodes.old nodes.new }
{
    for other in 0..nodes.len() {
        if other < at {
            settle_pair(nodes, rest, other, at)?;
            continue;
        }
        if at < other {
            settle_pair(nodes, rest, at, other)?;
            continue;
        }
        settle_self(nodes, rest, at)?;
    }
    Ok(())
}

fn settle_pair(
    nodes: &mut [Node],
    rest: &[Ends<Packet>],
    i: usize,
    j: usize,
) -> Result<(), NoMemory>
    requires places { (i < j) × (j < length nodes.old) }
    requires numbered { AreNumbered nodes.old }
    requires wired { AreWired (wires_in nodes.old rest.now) }
    ensures ok { IsOk result }
    ensures settled { KeepNodes nodes.old nodes.new × PairChanged i j (BothBecome IsSettled) (wires_in nodes.old rest.now) (wires_in nodes.new rest.now) }
{
    let (front, back) = nodes.split_at_mut(j);
    front[i].settle_with(&mut back[0])
}

fn settle_self(nodes: &mut [Node], rest: &[Ends<Packet>], i: usize) -> Result<(), NoMemory>
    requires place { i < length nodes.old }
    requires numbered { AreNumbered nodes.old }
    requires wired { AreWired (wires_in nodes.old rest.now) }
    ensures ok { IsOk result }
    ensures settled { KeepNodes nodes.old nodes.new × SelfChanged i (OwnBecomes IsSettled) (wires_in nodes.old rest.now) (wires_in nodes.new rest.now) }
{
    nodes[i].settle_own()
}
