//! Tests of what no clause of a node says: its blocks of memory are used again.
#![tactic(auto)]

#[cfg(test)]
mod blocks;
