//! All nodes: acts one after another, which acts are possible, and whether the program is done or stuck.
//! A layer above uses that the cluster stands for a legal trace after every step, whatever came before the entries that it keeps, and
//! that its answers are those of the trace.
#![tactic(auto)]

mod beginning;
mod choosing;
mod cluster;
mod deciding;
mod ending;
mod gathering;
mod laws;
mod listing;
mod shell;
mod side_by_side;
mod stepping;

pub use cluster::Cluster;
pub use deciding::State;
pub use laws::{nodes_go_on, nodes_have_histories, rounds_gather, runs_join};
pub use shell::Shell;
