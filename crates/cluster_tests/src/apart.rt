//! Two nodes that are driven by hand apart from their cluster, and put together again: the main thread goes to the other node, which
//! takes it in the same round.

ghost use Rattle.std.specs.Prelude.{◌≡◌, ◌<◌, length, map, OnOk};
ghost use Rattle.node_loop.specs.Turns.{IsActInRange};
ghost use Rattle.node_loop.specs.View.{raised};
ghost use Rattle.cluster.specs.View.{greatest_clock};
ghost use Rattle.cluster_tests.specs.Apart.{AreDriven, AreTaken};

use crate::booting::booted;
use crate::traces::HI;
use cluster::{Cluster, Shell, State, nodes_go_on};
use node_loop::{Node, Turned};
use run_trace::{Act, Entry};
use slot_space::{NodeNo, Tid};
use std::alloc::Global;
use std::test::Fail;

const MAIN: Tid = Tid {
    home: NodeNo(0),
    seq: 0,
};

// The next round begins at both nodes, with the greater of their clocks.
fn start(nodes: &mut [Node]) -> Result<(), Fail>
    requires { length nodes.old ≡ 2 }
    ensures { OnOk result (nodes.new ≡ map (raised (greatest_clock nodes.old)) nodes.old) }
{
    let clock = nodes[0].clock().max(nodes[1].clock());
    if clock >= 1000 {
        return Err(Fail::from("low clocks"));
    }
    nodes[0].raise(clock);
    nodes[1].raise(clock);
    Ok(())
}

// A turn of one of them.
fn turn(shell: &Shell, nodes: &mut [Node], at: usize, act: Act) -> Result<Turned, Fail>
    requires driven { AreDriven shell.now nodes.old }
    requires place { at < 2 }
    requires range { IsActInRange shell.now.program at act }
    ensures { OnOk result (AreDriven shell.now nodes.new) }
{
    nodes_go_on();
    if nodes[at].entries().len() >= 1000 {
        return Err(Fail::from("few entries"));
    }
    Ok(nodes[at].turn(act)?)
}

// The round begins, the main thread leaves node 0, and node 1 takes it.
fn driven(shell: &Shell, nodes: &mut [Node]) -> Result<bool, Fail>
    requires { AreTaken shell.now nodes.old }
    ensures { OnOk result (AreDriven shell.now nodes.new) }
{
    nodes_go_on();
    start(nodes)?;
    let left = turn(shell, nodes, 0, Act::Move(MAIN, NodeNo(1)))?;
    let came = turn(shell, nodes, 1, Act::Take(NodeNo(0)))?;
    Ok(left == Turned::Did && came == Turned::Did)
}

// Whether the cluster that is put together has both entries, and goes on.
fn go_apart(alloc: Global) -> Result<bool, Fail> {
    let cluster = booted(alloc, &HI)?;
    let (shell, mut nodes) = cluster.apart();
    let both = driven(&shell, &mut nodes)?;
    let mut cluster = Cluster::gather(shell, nodes);
    cluster.settle()?;
    let goes_on = cluster.verdict() == State::Going && cluster.turns() == 2;
    let (entries, _wires) = cluster.finish()?;
    Ok(both && goes_on && are_last(entries.as_slice()))
}

// Whether the two beginnings come first, then the move and then the take, one stamp after the other.
fn are_last(entries: &[Entry]) -> bool {
    entries.len() == 4
        && entries[2].act == Act::Move(MAIN, NodeNo(1))
        && entries[2].stamp == 2
        && entries[3].act == Act::Take(NodeNo(0))
        && entries[3].stamp == 3
        && entries[3].round == 1
}

#[test]
fn nodes_go_on_apart_and_are_put_together(rt: HostRuntime) -> Result<(), Fail> {
    assert!(rt; go_apart(rt.alloc())?);
    Ok(())
}
