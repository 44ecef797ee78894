//! How nodes come to slots of one another: whose turn it is, what is lent, and what a buyer decides.
//! A layer above uses that each of the three machines does exactly its moves, and that no slot is lost at a decision.
#![tactic(auto)]

mod arbiter;
mod buyer;
mod lender;
mod runs;

pub use arbiter::Arbiter;
pub use buyer::{Buyer, nothing_lost};
pub use lender::{Grant, Kept, Lender, Phase};
