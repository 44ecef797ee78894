//! Links between nodes that carry packets in order, each a ring with an outbox before it, whose ends may stand in different threads.
//! A layer above uses that contracts see what was sent and what was received on each link.
#![tactic(auto)]

mod all;
mod ends;
mod link;
mod ring;
mod wires;

pub use all::{look_all, settle_all};
pub use ends::{Ends, look, settle};
pub use wires::Wires;
