//! The instructions of RV64IM and their words, as a table that reads both ways, and the image that holds a program.
//! A layer above uses that `decode` and `encode` undo each other on the table, and what an `Image` has at an address.
#![tactic(auto)]

mod decoding;
mod encoding;
mod fields;
mod formats;
mod image;
mod inst;
mod rows;
mod table;

pub use decoding::decode;
pub use encoding::encode;
pub use fields::low_twelve;
pub use image::{IMAGE_LIMIT, IMAGE_START, Image};
pub use inst::{BranchOp, ImmOp, Inst, LoadOp, Reg, RegOp, ShiftOp, StoreOp};
