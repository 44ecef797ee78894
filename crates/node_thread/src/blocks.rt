//! Blocks of memory between the node's pool and its threads.

ghost use Rattle.std.specs.Prelude.{◌≡◌, ◌+◌, ◌<◌, length, min};
ghost use Rattle.slot_space.specs.Limits.{slot_size};
ghost use Rattle.run_trace.specs.Guests.{zeros_of};
ghost use Rattle.node_thread.specs.Limits.{spare_limit};

use raw_slots::{Pool, SlotMem};
use rv_step::GuestMem;

/// A spare block, whose bytes are 0.
#[tactic(auto, using(crate::proofs::Zeros::zeros_are))]
pub(crate) fn spare_block(pool: &mut Pool) -> SlotMem
    requires { 0 < pool.old }
    ensures zeros { result ≡ zeros_of slot_size }
    ensures spare { pool.new + 1 ≡ pool.old }
{
    match pool.take() {
        Ok(block) => block,
        Err(_) => unreachable!(),
    }
}

/// All blocks of a thread's memory are spare from now on.
pub(crate) fn put_all(pool: &mut Pool, mem: GuestMem)
    ensures { pool.new ≡ min (pool.old + length mem.0) spare_limit }
{
    // The count is one of 32 bits.
    let _spare = pool.spare();
    let mut mem = mem;
    while let Some(slot) = mem.last_slot() {
        let block = mem.give_back(slot);
        pool.put(block);
    }
}
