//! One trace of what all nodes have written.
//! A layer above uses `merge`, which gives all entries in the order of stamp and node.
#![tactic(auto)]

mod parts;

pub use parts::merge;
