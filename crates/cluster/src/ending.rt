//! What is left of the nodes.

ghost use Rattle.std.specs.Prelude.{◌≡◌, ◌++◌, IfOk, map};
ghost use Rattle.cluster.specs.Between.{entries_of, wires_in};

use basics::{Items, NoMemory};
use node_loop::Node;
use run_trace::{Entry, Packet};
use std::alloc::Global;
use wires::Ends;

// Each node's entries, and all ends.
pub(crate) fn taken_apart(
    alloc: Global,
    nodes: Vec<Node>,
    rest: Vec<Ends<Packet>>,
) -> Result<(Vec<Items<Entry>>, Vec<Ends<Packet>>), NoMemory>
    ensures { IfOk result (λ left. (left.0.items ≡ map entries_of nodes.items) × (left.1.items ≡ wires_in nodes.items rest.items)) }
{
    let mut rest = rest;
    let mut parts = Vec::new(alloc);
    let mut all = Vec::new(alloc);
    for node in nodes {
        let (entries, ends) = node.end();
        parts.push(Items::new(entries))?;
        all.push(ends)?;
    }
    all.append(&mut rest)?;
    Ok((parts, all))
}
