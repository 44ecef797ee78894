//! The text of a trace, written and read.
//! A layer above uses that a text is read exactly where it is the text of a trace, and that what was written is read again.
#![tactic(auto)]

mod error;
mod labels;
mod lines;
mod one_word;
mod rows;
mod several;
mod writing;

pub use error::TextError;
pub use lines::read_trace;
pub use writing::{Word, push_number, push_words, trace_text};
