//! A thread is packed, its text unpacked, or the text copied, or it is split and rejoined: KIND is pack, unpack, copy or move, COUNT the
//! slots that the thread holds.
//! The number is how many bytes that were.

use anyhow::{Result, bail};
use pack_thread::{Baggage, pack, rejoin, split, unpack};
use raw_slots::Pool;
use slot_space::SlotNo;
use std::alloc::{AllocError, Global};

/// The bytes of one slot.
const SIZE: usize = 65536;

/// The text of a thread with stack slot 0, the heap slots behind it, and no live block.
fn text_of(alloc: Global, slots: u16) -> Result<Vec<u8>, AllocError> {
    let mut text = Vec::new(alloc);
    text.extend_from_slice(b"PM2T")?;
    for _ in 0..279 {
        text.push(0)?;
    }
    text.extend_from_slice(&slots.saturating_sub(1).to_le_bytes())?;
    for slot in 1..slots {
        text.extend_from_slice(&slot.to_le_bytes())?;
    }
    text.extend_from_slice(&[0; 4])?;
    for _ in 0..slots {
        for place in 0..SIZE {
            text.push((place % 251) as u8)?;
        }
    }
    Ok(text)
}

/// Gives the thread's blocks back, as a node does.
fn give_back(mut thread: Baggage, slots: u16, pool: &mut Pool) {
    for slot in 0..slots {
        if thread.hart.mem.slot_bytes(SlotNo(slot)).is_some() {
            pool.put(thread.hart.mem.give_back(SlotNo(slot)));
        }
    }
}

fn packed(alloc: Global, text: &[u8], rounds: u32) -> Result<u64> {
    let mut pool = Pool::new(alloc);
    let thread = unpack(alloc, text, &mut pool)?;
    let mut sum = 0u64;
    for _ in 0..rounds {
        sum = sum.wrapping_add(pack(alloc, &thread)?.len() as u64);
    }
    Ok(sum)
}

fn unpacked(alloc: Global, text: &[u8], slots: u16, rounds: u32) -> Result<u64> {
    let mut pool = Pool::new(alloc);
    let mut sum = 0u64;
    for _ in 0..rounds {
        let thread = unpack(alloc, text, &mut pool)?;
        give_back(thread, slots, &mut pool);
        sum = sum.wrapping_add(text.len() as u64);
    }
    Ok(sum)
}

fn moved(alloc: Global, text: &[u8], rounds: u32) -> Result<u64> {
    let mut pool = Pool::new(alloc);
    let mut thread = unpack(alloc, text, &mut pool)?;
    let mut sum = 0u64;
    for _n in 0..rounds {
        let Ok(moving) = split(alloc, thread) else {
            bail!("out of memory");
        };
        sum = sum.wrapping_add(moving.head.len() as u64);
        let Ok(again) = rejoin(alloc, moving) else {
            bail!("out of memory");
        };
        thread = again;
    }
    Ok(sum)
}

fn copied(alloc: Global, text: &[u8], rounds: u32) -> Result<u64> {
    let mut sum = 0u64;
    for _ in 0..rounds {
        let copy = Vec::from_slice(alloc, text)?;
        sum = sum.wrapping_add(copy.len() as u64);
    }
    Ok(sum)
}

pub fn measured(alloc: Global, kind: &str, count: u32, rounds: u32) -> Result<u64> {
    let slots = count.clamp(1, 4096) as u16;
    let text = text_of(alloc, slots)?;
    match kind {
        "pack" => packed(alloc, &text, rounds),
        "unpack" => unpacked(alloc, &text, slots, rounds),
        "copy" => copied(alloc, &text, rounds),
        "move" => moved(alloc, &text, rounds),
        _ => bail!("KIND is pack, unpack, copy or move"),
    }
}
