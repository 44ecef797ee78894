//! The slots that a thread holds.

ghost use Rattle.std.specs.Prelude.{◌≡◌, ◌+◌, ◌<◌, ◌≤◌, false, IfOk, length};
ghost use Rattle.slot_space.specs.Limits.{slot_limit};
ghost use Rattle.slot_space.specs.Sets.{has, insert, IsAscending, IsSlotSet};

use basics::NoMemory;
use slot_space::{SlotNo, SlotSet};
use std::alloc::Global;

/// The heap slots and the stack slot, ascending.
pub(crate) fn held_slots(
    alloc: Global,
    heap: &SlotSet,
    stack: SlotNo,
) -> Result<Vec<SlotNo>, NoMemory>
    requires proper { IsSlotSet heap.now }
    requires small { stack < slot_limit }
    ensures slots { IfOk result (λ held. held.items ≡ insert stack heap.now) }
    ensures ascending { IfOk result (λ held. IsAscending held.items) }
    ensures few { IfOk result (λ held. length held.items ≤ slot_limit) }
    ensures count { IfOk result (λ held. has stack heap.now ≡ false → length held.items ≡ length heap.now + 1) }
{
    let mut held = *heap;
    held.insert(stack);
    let held = held.members(alloc)?;
    Ok(held)
}
