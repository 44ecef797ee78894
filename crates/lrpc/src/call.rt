//! The name of a remote call.

use slot_space::{NodeNo, Tid};

/// A remote call: the thread that asks, how many remote calls it asked before, and the node where it asks. The answer
/// goes to that node, wherever the service has moved.
#[derive(Clone, Copy, PartialEq, Eq)]
pub struct CallNo {
    pub by: Tid,
    pub count: u32,
    pub at: NodeNo,
}
