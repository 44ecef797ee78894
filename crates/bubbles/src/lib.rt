//! Bubbles on the run lists of a node: threads that are held together until a processor's choice bursts their bubble.
//! A layer above uses that a pick goes by the choices of its processor, and ends with a thread exactly where its lists have an entity.
#![tactic(auto)]

mod bubble;
mod forest;
mod laws;

pub use bubble::{BubbleRow, BubbleState, Did, KnownThread, Picked, Shift, Step};
pub use forest::Forest;
pub use laws::{calls_keep_forests, no_bubble_is_inside_itself};
