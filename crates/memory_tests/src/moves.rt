//! Threads that move without a copy: their fields, and beside them the blocks of their slots.

use crate::texts::{byte_of, front, whole_text};
use pack_thread::{Moving, Packed, Rejoin, UnpackError, pack, rejoin, split, unpack};
use raw_slots::Pool;
use slot_space::SLOT_SIZE;
use std::alloc::Global;
use std::test::Fail;

/// The pc, stack slot 2, and heap slots 5 and 6.
const PLACE: [u8; 16] = [0x10, 0, 1, 0, 0, 0, 0, 0, 2, 0, 2, 0, 5, 0, 6, 0];

/// Three live blocks of 16 bytes: at the start of slot 5, and at its end and behind that.
const LIVE: [u64; 3] = [0x1_0005_0000, 0x1_0005_fff0, 0x1_0006_0000];

/// The text of a thread with stack slot 2, heap slots 5 and 6, and so many live blocks.
fn text_with(alloc: Global, live: u32) -> Result<Vec<u8>, Fail> {
    let mut text = front(alloc)?;
    text.extend_from_slice(&PLACE)?;
    text.extend_from_slice(&live.to_le_bytes())?;
    for address in LIVE.iter().take(live as usize) {
        text.extend_from_slice(&address.to_le_bytes())?;
        text.extend_from_slice(&[16, 0, 0, 0, 0, 0, 0, 0])?;
    }
    for slot in [2, 5, 6] {
        for place in 0..SLOT_SIZE as u32 {
            text.push(byte_of(slot, place))?;
        }
    }
    Ok(text)
}

/// What the text's thread is split into.
fn parts_of(alloc: Global, text: &[u8]) -> Result<Moving, Fail> {
    let mut pool = Pool::new(alloc);
    let thread = unpack(alloc, text, &mut pool)?;
    let moving = split(alloc, thread).ok().ok_or("no memory")?;
    Ok(moving)
}

/// The head, and behind it the bytes of the blocks.
fn text_of(alloc: Global, moving: &Moving) -> Result<Vec<u8>, Fail> {
    let mut text = Vec::new(alloc);
    text.extend_from_slice(&moving.head)?;
    for block in &moving.blocks {
        text.extend_from_slice(block.bytes())?;
    }
    Ok(text)
}

#[test]
fn the_head_ends_before_the_bytes_of_the_slots(rt: HostRuntime) -> Result<(), Fail> {
    for live in 0..4u32 {
        let text = text_with(rt.alloc(), live)?;
        let moving = parts_of(rt.alloc(), &text)?;
        assert_eq!(rt; moving.head.len(), 285 + 4 + 4 + 16 * live as usize);
        assert_eq!(rt; moving.blocks.len(), 3);
        assert!(rt; text_of(rt.alloc(), &moving)?.as_slice() == text.as_slice());
    }
    Ok(())
}

/// Where it is refused, and what is handed back then.
fn refused(alloc: Global, moving: Moving) -> Result<(u64, Moving), Fail> {
    match rejoin(alloc, moving) {
        Ok(_) => Err("it was taken")?,
        Err(Rejoin { cause, moving }) => match cause {
            UnpackError::BadImage { offset } => Ok((offset, moving)),
            UnpackError::NoMemory => Err("no memory")?,
        },
    }
}

/// The text of the thread that it is.
fn rejoined(alloc: Global, moving: Moving) -> Result<Vec<u8>, Fail> {
    let thread = rejoin(alloc, moving).ok().ok_or("it was refused")?;
    Ok(pack(alloc, &thread)?)
}

#[test]
fn a_head_with_a_block_too_few_is_refused_at_its_length(rt: HostRuntime) -> Result<(), Fail> {
    let text = text_with(rt.alloc(), 2)?;
    let mut moving = parts_of(rt.alloc(), &text)?;
    let block = moving.blocks.pop().ok_or("no block")?;
    let (offset, mut back) = refused(rt.alloc(), moving)?;
    assert_eq!(rt; offset, 285 + 4 + 4 + 32);
    assert_eq!(rt; back.blocks.len(), 2);
    back.blocks.push(block)?;
    assert!(rt; rejoined(rt.alloc(), back)?.as_slice() == text.as_slice());
    Ok(())
}

/// Where the head is refused behind which these bytes follow, with one block more than it says.
fn refused_with(alloc: Global, more: &[u8]) -> Result<u64, Fail> {
    let mut moving = parts_of(alloc, &text_with(alloc, 1)?)?;
    moving.head.extend_from_slice(more)?;
    let block = Pool::new(alloc).take()?;
    moving.blocks.push(block)?;
    let (offset, _) = refused(alloc, moving)?;
    Ok(offset)
}

/// Where the head is refused of which so many bytes are left.
fn refused_short(alloc: Global, left: usize) -> Result<u64, Fail> {
    let mut moving = parts_of(alloc, &text_with(alloc, 1)?)?;
    moving.head.truncate(left);
    let (offset, _) = refused(alloc, moving)?;
    Ok(offset)
}

#[test]
fn other_heads_are_refused_at_their_places(rt: HostRuntime) -> Result<(), Fail> {
    assert_eq!(rt; refused_with(rt.alloc(), &[])?, 309);
    assert_eq!(rt; refused_with(rt.alloc(), &[7])?, 309);
    for left in [0, 3, 4, 284, 285, 292, 308] {
        assert_eq!(rt; refused_short(rt.alloc(), left)?, left as u64);
    }
    Ok(())
}

#[test]
fn a_thread_that_travels_has_its_text_still(rt: HostRuntime) -> Result<(), Fail> {
    let text = whole_text(rt.alloc())?;
    let mut pool = Pool::new(rt.alloc());
    let thread = unpack(rt.alloc(), &text, &mut pool)?;
    let packed = Packed::of(rt.alloc(), thread).ok().ok_or("no memory")?;
    let again = packed.open(rt.alloc())?;
    assert!(rt; pack(rt.alloc(), &again)?.as_slice() == text.as_slice());
    Ok(())
}
