//! What every crate here speaks of: want of memory, and vectors that contracts see as lists.
#![tactic(auto)]

mod items;
mod no_memory;

pub use items::Items;
pub use no_memory::NoMemory;
