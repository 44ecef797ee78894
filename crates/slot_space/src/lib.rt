//! Names of nodes, slots and threads, the geometry of the slots with its limits, and sets of slots.
//! A layer above uses that a set of slots means the ascending list of its members.
#![tactic(auto)]

mod bits;
mod geometry;
mod names;
mod slot_set;
mod word;

pub use geometry::{Geometry, NODE_LIMIT, SLOT_LIMIT, SLOT_SIZE, SLOTS_END, SLOTS_START};
pub use names::{NodeNo, Reply, SlotNo, Tid, names_in_order};
pub use slot_set::SlotSet;
