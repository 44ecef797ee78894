//! The listing of an image: where it starts, its services, and each word with its address and the instruction's name.
#![tactic(auto)]

mod lines;
mod listing;
mod names;

pub use listing::list;
