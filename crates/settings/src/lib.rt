//! The settings of the commands, as a function of the words of the command line.
//! A layer above uses that there are settings exactly where the definition has them.
#![tactic(auto)]

mod asked;
mod command;
mod command_line;
mod laws;
mod name;
mod number;
mod table;
mod tree;
mod verb;

pub use asked::Settings;
pub use command::Command;
pub use command_line::settings;
pub use name::Name;
pub use words::WordsError;
