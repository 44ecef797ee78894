//! The laws of legal traces. They are named by the contracts of functions that do nothing.
//! A layer above uses that local histories merge into one run, that a run in order is legal, and what nodes and links stand for.
#![tactic(auto)]

mod laws;

pub use laws::{
    alone, begun, expected, gathered, ignored, inside, joined, judged, legal, levels, merged,
    one_holder, one_trace, picked, quiet, ran, ready, rules_and_machine, same_wherever, seated,
    started, told, unforged, whole,
};
