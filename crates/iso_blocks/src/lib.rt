//! The blocks that a thread allocates in its heap slots, each placed at the lowest free address.
//! A layer above sees the live blocks and the heap slots, and what a call places or gives back.
#![tactic(auto)]

mod blocks;
mod check;
mod holes;
mod layout;
mod live;
mod space;

pub use blocks::Blocks;
pub use check::is_block;
