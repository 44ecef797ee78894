//! Where slots stand in the guest's memory, and the size of a block.

ghost use Rattle.std.specs.Prelude.{◌≡◌, ℕ, ◌+◌, ◌-◌, ◌<◌, ◌≤◌, ◌^◌};
ghost use Rattle.slot_space.specs.Limits.{slots_start, slots_end, slots_len, slot_limit};
ghost use Rattle.slot_space.specs.Addresses.{slot_base, HoldsAddress};
ghost use Rattle.iso_blocks.specs.Heap.{rounded as rounded_size};
ghost use Rattle.iso_blocks.specs.Neighbours.{Owns};

use slot_space::{SLOT_SIZE, SLOTS_START};

/// The first address of a slot.
pub fn base(slot: u16) -> u64
    ensures { result ≡ slot_base slot }
{
    SLOTS_START + SLOT_SIZE * slot as u64
}

/// The slot that holds the address.
pub fn slot_at(address: u64) -> u16
    requires low { slots_start ≤ address }
    requires high { address < slots_end }
    ensures { HoldsAddress result address }
{
    ((address - SLOTS_START) / SLOT_SIZE) as u16
}

/// The first of the slots that some bytes lie in, and how many there are.
pub fn slots_of(address: u64, size: u64) -> (u16, u16)
    requires low { slots_start ≤ address }
    requires high { address + size ≤ slots_end }
    requires some { 0 < size }
    ensures first { HoldsAddress result.0 address }
    ensures last { HoldsAddress (result.0 + result.1 - 1) (address + size - 1) }
    ensures some { 0 < result.1 }
    ensures within { result.0 + result.1 ≤ slot_limit }
{
    let first = slot_at(address);
    let last = slot_at(address + size - 1);
    (first, last + 1 - first)
}

/// Of the slots of a block, from the first of `count`, those that no neighbour shares: the first of them, and the one after the last.
/// The block before ends at `before`, and the one after starts at `after`.
pub fn own_slots(first: u16, count: u16, before: u64, after: u64) -> (u16, u16)
    requires some { 0 < count }
    requires within { first + count ≤ slot_limit }
    ensures { Owns before after first count result.0 result.1 }
{
    let from = if base(first) < before {
        first + 1
    } else {
        first
    };
    let end = first + count;
    let end = if after < base(end) { end - 1 } else { end };
    (from, end)
}

/// The size rounded up to a multiple of 16.
pub fn rounded(size: u64) -> u64
    requires { size ≤ slots_len }
    ensures { result ≡ rounded_size size }
{
    (size + 15) / 16 * 16
}
