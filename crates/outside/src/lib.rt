//! The outside of the program as two traits, a shelf of files and a sink of bytes, each with a meaning and counts of faults.
//! A layer above uses that a refusal has its cause: a file that isn't there, a count of faults that rose, or want of memory.
#![tactic(auto)]

mod memory;
mod outside;
mod piece;
mod plan;
mod real;

pub use memory::{FailingShelf, FailingSink, MapShelf, VecSink};
pub use outside::{ReadRefusal, Shelf, Sink, WriteRefusal};
pub use piece::write_piece;
pub use real::{RealShelf, RealSink};
