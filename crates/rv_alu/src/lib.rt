//! What the operations of RV64IM compute, on 64-bit numbers as the registers hold them.
//! A layer above uses that each is its definition.
#![tactic(auto)]

mod alu;
mod products;

pub use alu::{extended, imm_value, reg_value, shift_value, taken};
