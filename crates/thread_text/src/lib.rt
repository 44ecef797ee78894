//! The fields of a thread's text: what they are by their grammar, and what those of a text have, read and checked without memory.
//! A layer above uses that `open_text` is the reading of the grammar, or refuses the text at the place where that does.
#![tactic(auto)]

mod opening;

pub use opening::{MAGIC, Opened, Place, Who, open_head, open_text};
