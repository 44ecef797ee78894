//! Whether a trace is legal, decided entry by entry.
//! A layer above uses `judge`, which says of a trace at which entry it isn't legal.
#![tactic(auto)]

mod cluster;
mod flights;
mod judging;
mod labels;

pub use judging::judge;
