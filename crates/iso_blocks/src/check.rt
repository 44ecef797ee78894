//! Whether blocks can stand in slots.

ghost use Rattle.std.specs.Prelude.{◌≡◌, ℕ, ◌<◌, ◌≤◌, ◌↔◌, IsTrue, true, false, MatchOption};
ghost use Rattle.slot_space.specs.Sets.{has, IsSlotSet};
ghost use Rattle.iso_blocks.specs.Heap.{Heap, IsBlock, IsSound};

use crate::space;
use slot_space::{SLOTS_END, SLOTS_START, SlotNo, SlotSet};

/// A slot from `first` to before `end` that isn't in the set.
pub fn missing(slots: &SlotSet, first: u16, end: u16) -> Option<u16>
    ensures { MatchOption result ((s : ℕ) → first ≤ s → s < end → has s slots.now ≡ true) (λ s. (first ≤ s) × (s < end) × (has s slots.now ≡ false)) }
{
    for slot in first..end {
        if !slots.contains(SlotNo(slot)) {
            return Some(slot);
        }
    }
    None
}

/// Whether a block can stand in the slots: its address and its size are multiples of 16, it has some bytes, and each of
/// them lies in one of the slots.
pub fn is_block(slots: &SlotSet, address: u64, size: u64) -> bool
    requires { IsSlotSet slots.now }
    ensures { IsTrue result ↔ IsBlock slots.now (address, size) }
{
    if address % 16 != 0 || size % 16 != 0 || size < 16 {
        return false;
    }
    if address < SLOTS_START || address >= SLOTS_END || size > SLOTS_END - address {
        return false;
    }
    let (first, count) = space::slots_of(address, size);
    missing(slots, first, first + count).is_none()
}

/// Whether the blocks stand in the slots, each at or after the end of the one before.
pub fn are_sound(slots: &SlotSet, live: &[(u64, u64)]) -> bool
    requires { IsSlotSet slots.now }
    ensures { IsTrue result ↔ IsSound (record { live = live.now; slots = slots.now }) }
{
    let mut end = 0;
    for block in live {
        let (address, size) = *block;
        if address < end || !is_block(slots, address, size) {
            return false;
        }
        end = address + size;
    }
    true
}
