//! The texts that stand beside a run: a schedule, read and written, the summary, and the source of `stress`.
//! A layer above uses that each of them is exactly its definition, and that a schedule that was written is read again.
#![tactic(auto)]

mod act;
mod laws;
mod number;
mod parts;
mod schedule;
mod stress;
mod summaries;
mod writing;

pub use laws::schedules_fit;
pub use schedule::{Scheduled, read_schedule};
pub use stress::stress_source;
pub use summaries::summary;
pub use writing::schedule_text;
