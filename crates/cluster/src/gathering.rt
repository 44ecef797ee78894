//! What is counted where nodes are put together: none of them tells what the others did.

ghost use Rattle.std.specs.Prelude.{◌≡◌};
ghost use Rattle.cluster.specs.Apart.{turns_together};
ghost use Rattle.cluster.specs.Choosing.{IsCapped};
ghost use Rattle.cluster.specs.Standing.{turn_in, turns_in};

use node_loop::Node;
use run_trace::{Act, Entry};

// How many of the nodes' entries are no beginnings.
pub(crate) fn turns_together(nodes: &[Node]) -> u64
    ensures { IsCapped result (turns_together nodes.now) }
{
    let mut together: u64 = 0;
    for node in nodes {
        together = together.saturating_add(turns_in(node.entries()));
    }
    together
}

// How many of these entries are no beginnings.
fn turns_in(entries: &[Entry]) -> u64
    ensures { result ≡ turns_in entries.now }
{
    let mut turns: u64 = 0;
    for entry in entries {
        turns += turn_in(&entry.act);
    }
    turns
}

// One, but for a beginning none.
fn turn_in(act: &Act) -> u64
    ensures { result ≡ turn_in act.now }
{
    match act {
        Act::Boot => 0,
        Act::Run(_, _) => 1,
        Act::Take(_) => 1,
        Act::Move(_, _) => 1,
    }
}
