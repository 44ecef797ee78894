//! How threads end, and what a home keeps of the threads that were born there.
//! A layer above uses `Homes`: what a join and a detach are answered, who waits for an end, and the names of births.
#![tactic(auto)]

mod birth;
mod end;
mod homes;

pub use birth::{Birth, Detached, Verdict};
pub use end::End;
pub use homes::{BIRTH_LIMIT, Homes};
