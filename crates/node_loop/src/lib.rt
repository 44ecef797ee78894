//! One node: turns, each with its entry and its packets.
//! A layer above uses that a turn is exactly the machine's step on what the node had, the act and the packet that it took, and
//! what the node's links have carried by it.
#![tactic(auto)]

mod gate;
mod laws;
mod links;
mod node;

pub use gate::{Gate, Open};
pub use laws::{turns_are_a_history, turns_are_local};
pub use node::{Node, RoundEnd, Turned};
