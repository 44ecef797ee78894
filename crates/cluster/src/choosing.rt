//! The possible act at a place, found without a list of them.

ghost use Rattle.std.specs.Prelude.{◌≡◌, ℕ, ◌<◌, ◌^◌, Some, length, flat_map, slice_get};
ghost use Rattle.slot_space.specs.Sets.{run};
ghost use Rattle.run_trace.specs.Program.{nodes_of};
ghost use Rattle.node_loop.specs.View.{NodeView};
ghost use Rattle.cluster.specs.Between.{acts_by, runs_by, takes_from};
ghost use Rattle.cluster.specs.Choosing.{IsCapped, listed_moves, later_acts, other_at};

use node_loop::Node;
use run_trace::{Act, Program};
use slot_space::NodeNo;

// How many acts the nodes have together.
pub(crate) fn count_all(nodes: &[Node], program: &Program, moves: bool) -> usize
    requires { (n : ℕ) (v : NodeView) → slice_get nodes.now n ≡ Some v → v.program ≡ program.now }
    ensures { IsCapped result (length (flat_map (acts_by moves) nodes.now)) }
{
    let mut total: usize = 0;
    for node in nodes {
        total = total.saturating_add(count_of(node, program, moves));
    }
    total
}

// How many acts a node has.
fn count_of(node: &Node, program: &Program, moves: bool) -> usize
    requires { node.now.program ≡ program.now }
    ensures { IsCapped result (length (acts_by moves node.now)) }
{
    let count = program.nodes();
    let runs = ready_processors(node, program);
    let takes = known_senders(node, count);
    (runs + takes).saturating_add(count_moves(node, count, moves))
}

// How many moves a node has.
fn count_moves(node: &Node, count: u8, moves: bool) -> usize
    requires { nodes_of node.now.program ≡ count }
    ensures { IsCapped result (length (listed_moves moves node.now)) }
{
    if !moves {
        return 0;
    }
    let _own = node.me();
    node.listed().saturating_mul(usize::from(count - 1))
}

// How many processors of a node have a pick.
fn ready_processors(node: &Node, program: &Program) -> usize
    requires { node.now.program ≡ program.now }
    ensures ready { result ≡ length (runs_by node.now) }
    ensures small { result < 256 }
{
    let mut ready = 0;
    for vp in 0..program.processors() {
        if !node.has_pick(vp) {
            continue;
        }
        ready += 1;
    }
    ready
}

// Of how many nodes a packet is known.
fn known_senders(node: &Node, count: u8) -> usize
    requires { nodes_of node.now.program ≡ count }
    ensures known { result ≡ length (takes_from node.now (run 0 (nodes_of node.now.program))) }
    ensures small { result < 256 }
{
    let mut known = 0;
    for sender in 0..count {
        if !node.has_packet(NodeNo(sender)) {
            continue;
        }
        known += 1;
    }
    known
}

// The act at this place, counted through all nodes.
pub(crate) fn act_at(
    nodes: &[Node],
    program: &Program,
    moves: bool,
    place: usize,
) -> Option<(NodeNo, Act)>
    requires programs { (n : ℕ) (v : NodeView) → slice_get nodes.now n ≡ Some v → v.program ≡ program.now }
    requires place { place < 2 ^ 32 }
    ensures { result ≡ slice_get (flat_map (acts_by moves) nodes.now) place }
{
    let mut left = place;
    for node in nodes {
        let count = count_of(node, program, moves);
        if left < count {
            return act_of(node, program, moves, left);
        }
        left -= count;
    }
    None
}

// The act of a node at this place.
fn act_of(node: &Node, program: &Program, moves: bool, place: usize) -> Option<(NodeNo, Act)>
    requires { node.now.program ≡ program.now }
    ensures { result ≡ slice_get (acts_by moves node.now) place }
{
    let quantum = program.setup().quantum;
    let mut left = place;
    for vp in 0..program.processors() {
        if !node.has_pick(vp) {
            continue;
        }
        if left == 0 {
            return Some((node.me(), Act::Run(vp, quantum)));
        }
        left -= 1;
    }
    later_act(node, program.nodes(), moves, left)
}

// The act at this place among a node's takes and its moves.
fn later_act(node: &Node, count: u8, moves: bool, place: usize) -> Option<(NodeNo, Act)>
    requires { nodes_of node.now.program ≡ count }
    ensures { result ≡ slice_get (later_acts moves node.now) place }
{
    let mut left = place;
    for sender in 0..count {
        if !node.has_packet(NodeNo(sender)) {
            continue;
        }
        if left == 0 {
            return Some((node.me(), Act::Take(NodeNo(sender))));
        }
        left -= 1;
    }
    move_at(node, count, moves, left)
}

// The move of a node at this place: all of one thread stand together.
fn move_at(node: &Node, count: u8, moves: bool, place: usize) -> Option<(NodeNo, Act)>
    requires { nodes_of node.now.program ≡ count }
    ensures { result ≡ slice_get (listed_moves moves node.now) place }
{
    if !moves {
        return None;
    }
    let own = node.me();
    let others = usize::from(count - 1);
    if others == 0 {
        return None;
    }
    match node.ready_at(place / others) {
        None => None,
        Some(t) => Some((own, Act::Move(t, other(own, place % others)))),
    }
}

// The node at this place among all but one.
fn other(own: NodeNo, place: usize) -> NodeNo
    requires { place < 255 }
    ensures { result ≡ other_at own place }
{
    let to = place as u8;
    NodeNo(if to < own.0 { to } else { to + 1 })
}
