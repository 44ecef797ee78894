//! What a trace draws: for each thread its runs as bars and its waits between them, arrows for what goes between entries, and marks.
//! A layer above uses that a picture is the shapes that the labels of the trace give, and no other.
#![tactic(auto)]

mod draws;
mod laws;
mod moment;
mod picture;
mod shape;
mod thread;
mod window;

pub use laws::{bars_are_runs, marks_are_signs, pieces_follow};
pub use moment::{Moment, following};
pub use picture::picture_of;
pub use shape::{Message, Reason, Shape, Sign};
pub use window::Window;
