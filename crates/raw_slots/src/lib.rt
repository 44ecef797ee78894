//! Raw blocks, each the memory of one slot, and a pool of spare ones.
//! A layer above uses that a block is its bytes, and that a pool with a spare block can't fail to give one, of zeros.
#![tactic(auto)]

mod chain;
mod memory;
mod pool;
mod shell;
mod slot_mem;

pub use pool::Pool;
pub use slot_mem::SlotMem;
