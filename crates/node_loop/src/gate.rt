//! Where a node that runs beside others may be held up.

use slot_space::NodeNo;

/// What each node passes at the start of a round and between its events. It is one for all nodes.
pub trait Gate: Sync {
    /// Node `node` is at the start of this round, or between two of its events.
    fn pass(&self, node: NodeNo, round: u64);
}

/// The gate that holds nobody up.
#[derive(Clone, Copy)]
pub struct Open;

impl Gate for Open {
    fn pass(&self, _node: NodeNo, _round: u64) {}
}
