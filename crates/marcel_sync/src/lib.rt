//! Semaphores of one node, which threads of any node may use.
//! A layer above uses that a semaphore is a value and a queue of waiters with their nodes.
#![tactic(auto)]

mod sem;
mod sems;

pub use sem::{Pgot, SemRow, VALUE_LIMIT, Vgot};
pub use sems::{SEM_LIMIT, Sems};
