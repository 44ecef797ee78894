//! The beginning of all nodes.

ghost use Rattle.std.specs.Prelude.{◌≡◌, ◌<◌, ◌≤◌, IfOk, length};
ghost use Rattle.node_state.specs.Events.{StartsAligned};
ghost use Rattle.run_trace.specs.Program.{nodes_of, quantum_limit};
ghost use Rattle.wires.specs.Wires.{AreFreshFor, AreWired};
ghost use Rattle.cluster.specs.Between.{HaveBegun, HaveBooted};

use crate::stepping::settle_all;
use basics::NoMemory;
use node_loop::Node;
use run_trace::{Packet, Program};
use slot_space::NodeNo;
use std::alloc::Global;
use wires::Ends;

// Each node begins with its ends, and their links are settled; the ends of further nodes are left.
pub(crate) fn begun(
    alloc: Global,
    program: &Program,
    wires: Vec<Ends<Packet>>,
) -> Result<(Vec<Node>, Vec<Ends<Packet>>), NoMemory>
    requires quantum { (0 < program.now.setup.quantum) × (program.now.setup.quantum ≤ quantum_limit) }
    requires image { StartsAligned program.now.image }
    requires fresh { AreFreshFor (length wires.items) wires.items }
    requires wide { nodes_of program.now ≤ length wires.items }
    ensures { IfOk result (λ made. HaveBooted program.now wires.items made.0.items made.1.items) }
{
    let (mut nodes, rest) = each_begun(alloc, program, wires)?;
    settle_all(&mut nodes, &rest)?;
    Ok((nodes, rest))
}

// Each node begins with its ends; those of further nodes are left.
fn each_begun(
    alloc: Global,
    program: &Program,
    wires: Vec<Ends<Packet>>,
) -> Result<(Vec<Node>, Vec<Ends<Packet>>), NoMemory>
    requires image { StartsAligned program.now.image }
    requires wired { AreWired wires.items }
    requires wide { nodes_of program.now ≤ length wires.items }
    ensures { IfOk result (λ made. HaveBegun program.now (nodes_of program.now) wires.items made.0.items made.1.items) }
{
    let count = program.nodes();
    let mut nodes = Vec::new(alloc);
    let mut rest = Vec::new(alloc);
    for ends in wires {
        if nodes.len() < usize::from(count) {
            let n = NodeNo(nodes.len() as u8);
            nodes.push(Node::boot(alloc, program.setup(), program.image(), n, ends)?)?;
        } else {
            rest.push(ends)?;
        }
    }
    Ok((nodes, rest))
}
