//! What a thread takes along when it moves.

use iso_blocks::Blocks;
use lrpc::Duty;
use rv_step::Hart;
use slot_space::{SlotNo, Tid};

/// A thread with all that it has.
#[derive(Drop)]
pub struct Baggage {
    pub tid: Tid,
    pub priority: u8,
    /// How many remote calls it has asked.
    pub calls: u32,
    pub duty: Duty,
    pub hart: Hart,
    pub stack: SlotNo,
    pub blocks: Blocks,
}
