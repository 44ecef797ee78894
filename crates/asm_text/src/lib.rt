//! The lines of an assembly source: what each of them says, by a table of statements, or what is wrong with it.
//! A layer above uses `read_source` or `read_line`, and lays out what they give.
#![tactic(auto)]

mod reading;
mod rows;
mod slots;
mod source;
mod statements;

pub use reading::{Line, Reading, read_line};
pub use slots::What;
pub use source::read_source;
pub use statements::{Statement, Value, Width};
