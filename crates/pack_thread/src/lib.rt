//! A thread as bytes, to move to another node.
//! A layer above uses that each thread has one text, that a text gives its thread again, and where other bytes are refused.
#![tactic(auto)]

mod baggage;
mod error;
mod held;
mod laws;
mod moving;
mod opened;
mod packed;
mod packing;
mod rejoining;
mod splitting;
mod unpacking;

pub use baggage::Baggage;
pub use error::UnpackError;
pub use laws::{one_moving, one_text, rules};
pub use moving::{Moving, Rejoin};
pub use packed::Packed;
pub use packing::pack;
pub use rejoining::rejoin;
pub use splitting::split;
pub use unpacking::{check_packed, unpack};
