//! Whose turn it is to buy.

ghost use Rattle.std.specs.Prelude.{◌≡◌, ◌<◌, ◌++◌, [], ◌∷◌, false, length, drop, slice_get, ◌==◌, if◌then◌else◌};
ghost use Rattle.std.specs.List.{list_any};
ghost use Rattle.slot_space.specs.Limits.{node_limit};
ghost use Rattle.negotiate.specs.Turns.{AreOnceEach};

use arrayvec::ArrayVec;
use slot_space::NodeNo;
use std::marker::Model;

/// The nodes that want a turn to buy, in the order in which they asked. The first has it. Contracts see the list.
#[derive(Drop)]
pub struct Arbiter {
    nodes: ArrayVec<u8, 8>,
}

impl Model for Arbiter {
    ghost use Rattle.std.specs.Prelude.{List, ℕ};
    ghost use Rattle.negotiate.specs.Turns.{AreOnceEach};

    ghost Value = { List ℕ };

    ghost view = { λ a. a.nodes.items };

    ghost invariant = { λ a. AreOnceEach a.nodes.items };
}

impl Arbiter {
    /// No node wants a turn.
    pub fn new() -> Arbiter
        ensures { result ≡ [] }
    {
        Arbiter {
            nodes: ArrayVec::new(),
        }
    }

    /// Whether the node is in the list.
    pub fn lists(&self, node: NodeNo) -> bool
        ensures listed { result ≡ list_any (λ n. n == node) self.now }
        ensures proper { AreOnceEach self.now }
    {
        self.nodes.as_slice().contains(&node.0)
    }

    /// The node whose turn it is.
    pub fn first(&self) -> Option<NodeNo>
        ensures { result ≡ slice_get self.now 0 }
    {
        match self.nodes.as_slice().first() {
            Some(n) => Some(NodeNo(*n)),
            None => None,
        }
    }

    /// The node wants a turn. It is answered where the turn is its own at once.
    pub fn want(&mut self, node: NodeNo) -> Option<NodeNo>
        requires small { node < node_limit }
        requires other { list_any (λ n. n == node) self.old ≡ false }
        ensures list { self.new ≡ self.old ++ node ∷ [] }
        ensures turn { result ≡ (if length self.old == 0 then Some node else None) }
    {
        let free = self.nodes.is_empty();
        self.nodes.push(node.0);
        if free { Some(node) } else { None }
    }

    /// The turn of the first is over. The next node whose turn it is.
    pub fn over(&mut self) -> Option<NodeNo>
        requires { 0 < length self.old }
        ensures list { self.new ≡ drop 1 self.old }
        ensures next { result ≡ slice_get self.new 0 }
    {
        self.nodes.remove(0);
        self.first()
    }
}
