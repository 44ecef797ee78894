//! The state of one node, and every event of the machine on it, exact.
//! A layer above uses that an event in code is the event of the definition.
#![tactic(auto)]

mod acts;
mod asking;
mod births;
mod bubble_calls;
mod call;
mod calls;
mod checks;
mod choosing;
mod event_so_far;
mod heap;
mod here;
mod moves;
mod names;
mod node;
mod output;
mod packets;
mod running;
mod semaphores;
mod state;
mod talk;
mod turns;

pub use node::NodeState;
pub use output::EventOutput;
