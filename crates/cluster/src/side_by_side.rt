//! A round of all nodes, which run side by side.

ghost use Rattle.std.specs.Prelude.{◌≡◌, ◌<◌, ◌≤◌, ◌^◌, All, IfOk, OnErr, OnOk, map};
ghost use Rattle.wires.specs.Wires.{AreWired};
ghost use Rattle.node_loop.specs.View.{raised};
ghost use Rattle.cluster.specs.Between.{AreNumbered, wires_in};
ghost use Rattle.cluster.specs.SideBySide.{EachHasRun, HasRun, HaveRounded, HaveStopped, MayRound, all_stand, entries_together};
ghost use Rattle.cluster.specs.View.{last_clock};

use crate::stepping::{raise_all, settle_all};
use basics::NoMemory;
use node_loop::{Gate, Node};
use run_trace::Packet;
use std::thread;
use std::thread::Threads;
use wires::Ends;

/// How many entries a node may make in one round.
const ACTS_IN_ROUND: u32 = 64;

/// In how many threads the nodes run at most.
const THREADS: usize = 8;

// The nodes are raised and make a round; then all links are settled.
pub(crate) fn round_all<R: Threads + Sync, G: Gate>(
    rt: &R,
    nodes: &mut [Node],
    rest: &[Ends<Packet>],
    clock: u64,
    gate: &G,
) -> Result<(), NoMemory>
    requires clock { clock ≤ last_clock }
    requires ready { All MayRound (map (raised clock) nodes.old) }
    requires numbered { AreNumbered nodes.old }
    requires wired { AreWired (wires_in nodes.old rest.now) }
    ensures rounded { OnOk result (HaveRounded clock rest.now nodes.old nodes.new) }
    ensures err { OnErr result (HaveStopped clock nodes.old nodes.new) }
{
    raise_all(nodes, clock);
    run_all(rt, nodes, gate);
    if !all_stand(nodes) {
        return Err(NoMemory);
    }
    settle_all(nodes, rest)
}

// Each node makes a round, side by side where threads can be made.
fn run_all<R: Threads + Sync, G: Gate>(rt: &R, nodes: &mut [Node], gate: &G)
    requires { All MayRound nodes.old }
    ensures { EachHasRun nodes.old nodes.new }
{
    let each = |_: usize, node: &mut Node|
        requires { MayRound node.now }
        ensures { HasRun node.entry.now node.exit.now }
    {
        node.round(gate, ACTS_IN_ROUND);
    };
    thread::for_each_mut(rt, nodes, THREADS, &each);
}

// Whether no node is lost.
fn all_stand(nodes: &[Node]) -> bool
    ensures { result ≡ all_stand nodes.now }
{
    for node in nodes {
        if !node.stands() {
            return false;
        }
    }
    true
}

// How many entries the nodes keep together.
pub(crate) fn entries_together(nodes: &[Node]) -> u64
    requires { entries_together nodes.now < 2 ^ 64 }
    ensures { result ≡ entries_together nodes.now }
{
    let mut together = 0;
    for node in nodes {
        together += node.entries().len() as u64;
    }
    together
}
