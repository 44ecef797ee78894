//! Remote calls: the name of a call, and what a thread that serves one still has to do.
//! A layer above uses that of one call at most one result is sent.
#![tactic(auto)]

mod call;
mod duty;

pub use call::CallNo;
pub use duty::{Duty, Given};
