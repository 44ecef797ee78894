//! What `clap` reads of a list of words is a definition that doesn't name it.
//! A layer above uses that the words are refused exactly where they give nothing, and else has the values of each name.
#![tactic(auto)]

mod error;
mod given;
mod grammar;
mod laws;
mod parser;
mod reading;

pub use error::WordsError;
pub use given::Given;
pub use grammar::Grammar;
pub use reading::read;
