//! Acts of a program that prints hi and returns, moved to the other of two nodes before it runs, by hand after what the scheduler,
//! the calls and the packets are said to do.

ghost use Rattle.std.specs.Prelude.{◌≡◌, ◌<◌, true, OnOk};
ghost use Rattle.run_trace.specs.Program.{Program, nodes_of};
ghost use Rattle.node_loop.specs.Turns.{IsActInRange};
ghost use Rattle.cluster_tests.specs.Walks.{IsWalked};

use crate::booting::booted;
use crate::traces::HI;
use basics::NoMemory;
use cluster::{Cluster, State};
use node_loop::Turned;
use run_trace::Act;
use slot_space::{NodeNo, Tid};
use std::alloc::Global;
use std::test::Fail;

/// An act, what is answered, and then the possible acts, moves among them.
struct Row {
    node: NodeNo,
    act: Act,
    turned: Turned,
    state: State,
    after: Possible,
}

/// What can be done.
#[derive(Clone, Copy)]
enum Possible {
    /// To run the main thread on this node, or to move it to that one.
    Ready(NodeNo, NodeNo),
    /// To take the packet, here of that node.
    Packet(NodeNo, NodeNo),
    Nothing,
}

const MAIN: Tid = Tid {
    home: NodeNo(0),
    seq: 0,
};

/// One row: a node's act, what is answered, whether the program goes on, and what is possible then.
macro_rules! row {
    ($node:literal, $act:expr, $turned:ident, $state:ident, $after:expr) => {
        Row {
            node: NodeNo($node),
            act: $act,
            turned: Turned::$turned,
            state: State::$state,
            after: $after,
        }
    };
}

/// The main thread can run on node 0, or on node 1.
const ON_0: Possible = Possible::Ready(NodeNo(0), NodeNo(1));

const ON_1: Possible = Possible::Ready(NodeNo(1), NodeNo(0));

/// Node 0 can take a packet of node 1, or node 1 one of node 0.
const TO_0: Possible = Possible::Packet(NodeNo(0), NodeNo(1));

const TO_1: Possible = Possible::Packet(NodeNo(1), NodeNo(0));

/// A run of the pick, and a take of a node's first packet.
const RUN: Act = Act::Run(0, 1000);

const TAKE_0: Act = Act::Take(NodeNo(0));

const TAKE_1: Act = Act::Take(NodeNo(1));

const ROWS: [Row; 13] = [
    row!(0, TAKE_0, Idle, Going, ON_0),
    row!(1, RUN, Idle, Going, ON_0),
    row!(1, Act::Move(MAIN, NodeNo(0)), Idle, Going, ON_0),
    row!(0, Act::Move(MAIN, NodeNo(1)), Did, Going, TO_1),
    row!(0, RUN, Idle, Going, TO_1),
    row!(1, TAKE_1, Idle, Going, TO_1),
    row!(1, TAKE_0, Did, Going, ON_1),
    row!(1, RUN, Did, Going, TO_0),
    row!(0, TAKE_1, Did, Going, TO_1),
    row!(1, TAKE_0, Did, Going, ON_1),
    row!(1, RUN, Did, Going, TO_0),
    row!(0, TAKE_1, Did, Done, Possible::Nothing),
    row!(0, TAKE_1, Idle, Done, Possible::Nothing),
];

// Whether the numbers of an act are in range on two nodes.
fn is_in_range(node: NodeNo, act: &Act) -> bool
    ensures { result ≡ true → (p : Program) → nodes_of p ≡ 2 → (node < 2) × IsActInRange p node act.now }
{
    if node.0 >= 2 {
        return false;
    }
    match act {
        Act::Boot => false,
        Act::Run(processor, quantum) => *processor == 0 && *quantum == 1000,
        Act::Take(from) => from.0 < 2,
        Act::Move(_, to) => to.0 < 2 && to.0 != node.0,
    }
}

/// Whether these are the acts.
fn are(acts: &[(NodeNo, Act)], possible: Possible) -> bool {
    match possible {
        Possible::Ready(here, there) => {
            acts.len() == 2
                && acts[0] == (here, Act::Run(0, 1000))
                && acts[1] == (here, Act::Move(MAIN, there))
        }
        Possible::Packet(here, there) => acts.len() == 1 && acts[0] == (here, Act::Take(there)),
        Possible::Nothing => acts.is_empty(),
    }
}

/// Whether the row holds of the cluster.
fn holds(cluster: &mut Cluster, row: &Row) -> Result<bool, NoMemory>
    requires { IsWalked cluster.old }
    ensures { OnOk result (IsWalked cluster.new) }
{
    if cluster.turns() >= 1000 || !is_in_range(row.node, &row.act) {
        return Ok(false);
    }
    let turned = cluster.step(row.node, row.act)?;
    if turned != row.turned || cluster.verdict() != row.state {
        return Ok(false);
    }
    let acts = cluster.acts(true)?;
    Ok(are(acts.as_slice(), row.after))
}

fn all_hold(alloc: Global) -> Result<bool, Fail> {
    let mut cluster = booted(alloc, &HI)?;
    for row in &ROWS {
        if !holds(&mut cluster, row)? {
            return Ok(false);
        }
    }
    cluster.settle()?;
    Ok(cluster.turns() == 7 && cluster.console() == b"0.0| hi\n".as_slice())
}

#[test]
fn acts_are_possible_and_idle_as_worked_by_hand(rt: HostRuntime) -> Result<(), Fail> {
    assert!(rt; all_hold(rt.alloc())?);
    Ok(())
}
