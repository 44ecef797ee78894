//! Which acts are possible.

ghost use Rattle.std.specs.Prelude.{◌≡◌, ◌++◌, OnOk};
ghost use Rattle.slot_space.specs.Sets.{run};
ghost use Rattle.run_trace.specs.Program.{nodes_of};
ghost use Rattle.cluster.specs.Between.{acts_by, moves_by, moves_among, runs_by, takes_from};

use basics::NoMemory;
use node_loop::Node;
use run_trace::{Act, Program};
use slot_space::{NodeNo, Tid};

// The acts of a node; moves only where they are asked for.
pub(crate) fn push_acts(
    acts: &mut Vec<(NodeNo, Act)>,
    program: &Program,
    moves: bool,
    node: &Node,
) -> Result<(), NoMemory>
    requires { node.now.program ≡ program.now }
    ensures { OnOk result (acts.new.items ≡ acts.old.items ++ acts_by moves node.now) }
{
    push_runs(acts, program, node)?;
    let count = program.nodes();
    push_takes(acts, count, node)?;
    if moves {
        push_moves(acts, count, node)?;
    }
    Ok(())
}

// A run of each processor that has a pick.
fn push_runs(acts: &mut Vec<(NodeNo, Act)>, program: &Program, node: &Node) -> Result<(), NoMemory>
    requires { node.now.program ≡ program.now }
    ensures { OnOk result (acts.new.items ≡ acts.old.items ++ runs_by node.now) }
{
    let quantum = program.setup().quantum;
    for vp in 0..program.processors() {
        if !node.has_pick(vp) {
            continue;
        }
        acts.push((node.me(), Act::Run(vp, quantum)))?;
    }
    Ok(())
}

// A take from each node of which a packet is known.
fn push_takes(acts: &mut Vec<(NodeNo, Act)>, count: u8, node: &Node) -> Result<(), NoMemory>
    requires { nodes_of node.now.program ≡ count }
    ensures { OnOk result (acts.new.items ≡ acts.old.items ++ takes_from node.now (run 0 (nodes_of node.now.program))) }
{
    for sender in 0..count {
        if !node.has_packet(NodeNo(sender)) {
            continue;
        }
        acts.push((node.me(), Act::Take(NodeNo(sender))))?;
    }
    Ok(())
}

// A move of each thread that can run to each other node.
fn push_moves(acts: &mut Vec<(NodeNo, Act)>, count: u8, node: &Node) -> Result<(), NoMemory>
    requires { nodes_of node.now.program ≡ count }
    ensures { OnOk result (acts.new.items ≡ acts.old.items ++ moves_by node.now) }
{
    let own = node.me();
    let threads = node.ready_threads()?;
    for t in &threads {
        push_moves_of(acts, count, own.0, t)?;
    }
    Ok(())
}

// A move of a thread of a node to each other node.
fn push_moves_of(acts: &mut Vec<(NodeNo, Act)>, count: u8, own: u8, t: &Tid) -> Result<(), NoMemory>
    ensures { OnOk result (acts.new.items ≡ acts.old.items ++ moves_among own t.now (run 0 count)) }
{
    for to in 0..count {
        if to == own {
            continue;
        }
        acts.push((NodeNo(own), Act::Move(*t, NodeNo(to))))?;
    }
    Ok(())
}
