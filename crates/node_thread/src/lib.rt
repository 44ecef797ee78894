//! A thread that is on a node, with its memory and its blocks.
//! A layer above uses that a thread in code is the thread of the definition, and how many blocks of memory are spare after a step.
#![tactic(auto)]

mod blocks;
mod heap_slots;
mod newcomer;
mod thread;

pub use newcomer::Newcomer;
pub use thread::{PRINT_LIMIT, Thread};
