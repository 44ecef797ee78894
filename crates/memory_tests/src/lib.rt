//! Tests of the crates that keep memory: sets of slots, raw blocks, the blocks of a heap, and threads as texts and on their way.
#![tactic(auto)]

#[cfg(test)]
mod blocks;
#[cfg(test)]
mod drawn;
#[cfg(test)]
mod moves;
#[cfg(test)]
mod texts;
