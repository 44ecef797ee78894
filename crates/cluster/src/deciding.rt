//! Whether a program goes on.

ghost use Rattle.std.specs.Prelude.{◌≡◌, ℕ, Some, slice_get};
ghost use Rattle.run_trace.specs.Program.{nodes_of};
ghost use Rattle.node_loop.specs.View.{NodeView};
ghost use Rattle.cluster.specs.Between.{any_of, decided, has_halted, has_row, has_thread, knows_packet};

use node_loop::Node;
use slot_space::NodeNo;

/// Whether a program goes on.
#[derive(Clone, Copy, PartialEq, Eq)]
pub enum State {
    /// An act is possible.
    Going,
    /// A thread has called halt, or no thread lives and nothing is under way.
    Done,
    /// Threads live, and each waits for what doesn't come.
    Stalled,
}

// By what all nodes say together.
pub(crate) fn decided(halted: bool, packet: bool, thread: bool, ready: bool) -> State
    ensures { result ≡ decided halted packet thread ready }
{
    if halted {
        return State::Done;
    }
    if packet {
        return State::Going;
    }
    if !thread {
        return State::Done;
    }
    if !ready {
        return State::Stalled;
    }
    State::Going
}

// Whether a thread has called halt.
pub(crate) fn any_halted(nodes: &[Node]) -> bool
    ensures { result ≡ any_of has_halted nodes.now }
{
    for node in nodes {
        if node.halted() {
            return true;
        }
    }
    false
}

// Whether a packet is under way.
pub(crate) fn any_packet(nodes: &[Node], count: u8) -> bool
    requires { (n : ℕ) (v : NodeView) → slice_get nodes.now n ≡ Some v → nodes_of v.program ≡ count }
    ensures { result ≡ any_of knows_packet nodes.now }
{
    for node in nodes {
        if knows_packet(node, count) {
            return true;
        }
    }
    false
}

// Whether the node knows a packet of some sender.
fn knows_packet(node: &Node, count: u8) -> bool
    requires { count ≡ nodes_of node.now.program }
    ensures { result ≡ knows_packet node.now }
{
    for sender in 0..count {
        if node.has_packet(NodeNo(sender)) {
            return true;
        }
    }
    false
}

// Whether a thread is on a node.
pub(crate) fn any_thread(nodes: &[Node]) -> bool
    ensures { result ≡ any_of has_thread nodes.now }
{
    for node in nodes {
        if node.threads() > 0 {
            return true;
        }
    }
    false
}

// Whether a thread can run.
pub(crate) fn any_ready(nodes: &[Node]) -> bool
    ensures { result ≡ any_of has_row nodes.now }
{
    for node in nodes {
        if node.ready() > 0 {
            return true;
        }
    }
    false
}
