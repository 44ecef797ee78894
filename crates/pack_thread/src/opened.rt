//! A thread of fields that have been read and checked.

ghost use Rattle.std.specs.Prelude.{◌≡◌, ◌+◌, ◌*◌, ◌≤◌, IfOk, length};
ghost use Rattle.thread_text.specs.Opened.{slots_at, live_of, IsOpen};
ghost use Rattle.thread_text.specs.Reading.{blocks_at};
ghost use Rattle.pack_thread.specs.Threads.{thread_of};
ghost use Rattle.pack_thread.specs.Moving.{thread_opened};

use crate::baggage::Baggage;
use basics::NoMemory;
use byteorder::{ByteOrder, LittleEndian};
use iso_blocks::Blocks;
use rv_step::{GuestMem, Hart};
use std::alloc::Global;
use thread_text::{Opened, Place, Who};

/// Its heap slots, with the live blocks that stand in the bytes.
pub(crate) fn heap_of(alloc: Global, bytes: &[u8], opened: &Opened) -> Result<Blocks, NoMemory>
    requires rules { IsOpen bytes.now opened.now }
    requires there { slots_at opened.now ≤ length bytes.now }
    ensures { IfOk result (λ blocks. blocks ≡ record { live = live_of bytes.now opened.now; slots = opened.now.slots }) }
{
    let live = live_at(alloc, bytes, opened.live_at(), opened.live)?;
    match Blocks::rebuild(alloc, &opened.slots, &live)? {
        Some(made) => Ok(made),
        None => unreachable!(),
    }
}

/// `count` blocks, from a place of the bytes on.
fn live_at(alloc: Global, bytes: &[u8], at: usize, count: u32) -> Result<Vec<(u64, u64)>, NoMemory>
    requires { at + 16 * count ≤ length bytes.now }
    ensures { IfOk result (λ live. live.items ≡ blocks_at bytes.now at count) }
{
    let mut live = Vec::new(alloc);
    live.reserve(count as usize)?;
    for k in 0..count {
        let place = at + 16 * k as usize;
        let address = LittleEndian::read_u64(&bytes[place..]);
        let size = LittleEndian::read_u64(&bytes[place + 8..]);
        live.push((address, size))?;
    }
    Ok(live)
}

/// The thread, with this heap and this memory.
pub(crate) fn assembled(opened: Opened, blocks: Blocks, mem: GuestMem) -> Baggage
    ensures { thread_of result ≡ thread_opened opened blocks mem.0 }
{
    let Opened {
        who,
        duty,
        regs,
        place,
        slots: _,
        live: _,
    } = opened;
    let Who {
        tid,
        priority,
        calls,
    } = who;
    let Place { pc, stack, heap: _ } = place;
    Baggage {
        tid,
        priority,
        calls,
        duty,
        hart: Hart { regs, pc, mem },
        stack,
        blocks,
    }
}
