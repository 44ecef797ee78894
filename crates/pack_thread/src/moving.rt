//! A thread that moves without a copy of its slots' bytes.

use crate::error::UnpackError;
use raw_slots::SlotMem;

/// A thread on its way: its fields, up to the slots' bytes in its text, and the blocks of its slots, ascending by slot.
#[derive(Drop)]
pub struct Moving {
    pub head: Vec<u8>,
    pub blocks: Vec<SlotMem>,
}

/// Why what came gives no thread, and what came.
#[derive(Drop)]
pub struct Rejoin {
    pub cause: UnpackError,
    pub moving: Moving,
}
