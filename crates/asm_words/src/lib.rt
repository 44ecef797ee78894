//! What a line of assembly is made of: tokens, and the words among them that are names, numbers or registers.
//! A layer above uses `tokens`, and what a word is.
#![tactic(auto)]

mod lexing;
mod words;

pub use lexing::{Token, tokens};
pub use words::{Number, bits_of, in_range, is_name, number_of, register_of};
