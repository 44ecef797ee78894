//! The top call: the words, the source, the run of the program, its status, what is told of it on the output and in files, and
//! what is told on the error output.
#![tactic(auto)]

mod delivery;
mod inputs;
mod report;
mod status;
mod texts;
mod top;

pub use report::Report;
pub use status::Status;
pub use texts::{err_text, no_memory_told};
pub use top::pm2_main;
