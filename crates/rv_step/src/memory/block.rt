//! Bytes at a place of a slot's block.

ghost use Rattle.std.specs.Prelude.{◌≡◌, ◌+◌, ◌≤◌, length, slice_get, slice_set, Some};
ghost use Rattle.std.specs.List.{splice};
ghost use Rattle.slot_space.specs.Limits.{slot_size};

use raw_slots::SlotMem;

/// The byte at a place of the slot.
#[inline(always)]
pub(super) fn slot_byte(block: &SlotMem, at: u16) -> u8
    ensures { slice_get block.now at ≡ Some result }
{
    block.bytes()[at as usize]
}

/// Changes the byte at a place of the slot.
#[inline(always)]
pub(super) fn set_slot_byte(block: &mut SlotMem, at: u16, byte: u8)
    ensures { block.new ≡ slice_set block.old at byte }
{
    block.bytes_mut()[at as usize] = byte;
}

/// Writes over the bytes from a place of the slot on.
#[inline(always)]
pub(super) fn set_slot_bytes(block: &mut SlotMem, at: usize, from: &[u8])
    requires { at + length from.now ≤ slot_size }
    ensures bytes { block.new ≡ splice block.old at (at + length from.now) from.now }
    ensures len { length block.old ≡ slot_size }
{
    block.bytes_mut()[at..at + from.len()].copy_from_slice(from);
}
