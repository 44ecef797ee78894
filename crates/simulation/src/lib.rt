//! The commands `sim`, `replay` and `run`: each act is drawn from the possible ones, until the program is done, is stuck or is out of
//! turns; or the acts are those of a schedule; or the nodes run side by side, round after round.
//! A layer above uses that the trace is legal, that its acts are the drawn ones, the schedule's or those of rounds, and what has
//! ended it.
#![tactic(auto)]

mod rounds;
mod schedule;
mod simulation;

pub use rounds::run_in_rounds;
pub use schedule::replay;
pub use simulation::{RunEnd, Simulated, simulate};
