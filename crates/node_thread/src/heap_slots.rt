//! Slots of a thread's memory, as they come and go.

ghost use Rattle.std.specs.Prelude.{◌≡◌, ◌+◌, ◌≤◌, ℕ, true, false, min, length};
ghost use Rattle.slot_space.specs.Limits.{slot_limit};
ghost use Rattle.slot_space.specs.Sets.{has, run};
ghost use Rattle.rv_step.specs.Memory.{slots_of};
ghost use Rattle.run_trace.specs.Guests.{with_zero_slots, without_slots};
ghost use Rattle.node_thread.specs.Limits.{spare_limit};

use crate::blocks::spare_block;
use raw_slots::Pool;
use rv_step::GuestMem;
use slot_space::{SLOT_LIMIT, SlotNo, SlotSet};

/// A run of slots that aren't held, each with a spare block: there are blocks and room for all of them.
pub(crate) fn take_run(pool: &mut Pool, mem: &mut GuestMem, first: u16, count: u16)
    requires within { first + count ≤ slot_limit }
    requires new { (s : ℕ) → has s (run first count) ≡ true → has s (slots_of mem.old.0) ≡ false }
    requires spare { count ≤ pool.old }
    requires room { count ≤ mem.old.1 }
    ensures slots { mem.new.0 ≡ with_zero_slots (run first count) mem.old.0 }
    ensures spare { pool.new + count ≡ pool.old }
{
    for n in 0..count {
        let block = spare_block(pool);
        mem.grant(SlotNo(first + n), block);
    }
}

/// These slots are held no more, and their blocks are spare.
pub(crate) fn give_slots(pool: &mut Pool, mem: &mut GuestMem, slots: &SlotSet)
    requires held { (s : ℕ) → has s slots.now ≡ true → has s (slots_of mem.old.0) ≡ true }
    ensures slots { mem.new.0 ≡ without_slots slots.now mem.old.0 }
    ensures spare { min (pool.new + length mem.new.0) spare_limit ≡ min (pool.old + length mem.old.0) spare_limit }
{
    // The count is one of 32 bits.
    let _spare = pool.spare();
    // Its slots are below the limit.
    let _first = slots.next_from(0);
    for n in 0..SLOT_LIMIT {
        if !slots.contains(SlotNo(n)) {
            continue;
        }
        let block = mem.give_back(SlotNo(n));
        pool.put(block);
    }
}
