//! Tests of the commands' lowest layer: what no contract says, and no run of the built program shows.
#![tactic(auto)]

#[cfg(test)]
mod outside_tests;
