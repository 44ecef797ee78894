//! The run lists of a node: a tree of lists over its processors, and the entities on them.
//! A layer above uses that the lists are one list of rows in the order of arrival, and that `best` is a processor's choice among them.
#![tactic(auto)]

mod entity;
mod lists;
mod tree;

pub use entity::{Entity, Place};
pub use lists::Lists;
pub use tree::Tree;
