//! Texts of packed threads, by the table of their fields.

use lrpc::{CallNo, Duty};
use pack_thread::{Baggage, UnpackError, check_packed, pack, unpack};
use raw_slots::Pool;
use slot_space::{NodeNo, SLOT_SIZE, SlotNo, SlotSet, Tid};
use std::alloc::Global;
use std::test::Fail;

/// The fields up to the duty's.
const FRONT: [u8; 25] = [
    b'P', b'M', b'2', b'T', // the first four bytes
    3, // home
    0x04, 0x03, 0x02, 0x01, // seq
    5, // priority
    0x0d, 0x0c, 0x0b, 0x0a, // calls
    2, // the duty: Owes
    6, 0x44, 0x33, 0x22, 0x11, 0x88, 0x77, 0x66, 0x55, 1, // the call: home, seq, count, node
];

/// The fields behind the registers, from 273 on: three heap slots and three live blocks.
const BACK: [u8; 70] = [
    0x10, 0, 1, 0, 0, 0, 0, 0, // pc
    6, 0, // the stack slot
    3, 0, 5, 0, 7, 0, 8, 0, // three heap slots
    3, 0, 0, 0, // three blocks
    0, 0, 5, 0, 1, 0, 0, 0, 16, 0, 0, 0, 0, 0, 0, 0, // at the start of slot 5
    0xf0, 0xff, 7, 0, 1, 0, 0, 0, 32, 0, 0, 0, 0, 0, 0, 0, // over the end of slot 7
    0x10, 0, 8, 0, 1, 0, 0, 0, 0xf0, 0xff, 0, 0, 0, 0, 0, 0, // from there to the end of slot 8
];

/// The byte at a place of a slot.
pub(crate) fn byte_of(slot: u32, place: u32) -> u8 {
    (place.wrapping_add((place / 256).wrapping_mul(slot)) % 256) as u8
}

/// The fields up to the registers, and the registers: the r-th has r in its lowest and in its highest byte.
pub(crate) fn front(alloc: Global) -> Result<Vec<u8>, Fail> {
    let mut text = Vec::new(alloc);
    text.extend_from_slice(&FRONT)?;
    for r in 1..32 {
        text.extend_from_slice(&[r, 0, 0, 0, 0, 0, 0, r])?;
    }
    Ok(text)
}

/// A text with the bytes of slots 5, 6, 7 and 8.
pub(crate) fn whole_text(alloc: Global) -> Result<Vec<u8>, Fail> {
    let mut text = front(alloc)?;
    text.extend_from_slice(&BACK)?;
    for slot in 5..9 {
        for place in 0..SLOT_SIZE as u32 {
            text.push(byte_of(slot, place))?;
        }
    }
    Ok(text)
}

/// A text with the stack slot alone.
pub(crate) fn small_text(alloc: Global) -> Result<Vec<u8>, Fail> {
    let mut text = front(alloc)?;
    text.extend_from_slice(&[0x10, 0, 1, 0, 0, 0, 0, 0, 6, 0, 0, 0, 0, 0, 0, 0])?;
    for place in 0..SLOT_SIZE as u32 {
        text.push(byte_of(6, place))?;
    }
    Ok(text)
}

/// The text with other bytes from a place on.
fn patched(alloc: Global, text: &[u8], at: usize, new: &[u8]) -> Result<Vec<u8>, Fail> {
    let before = text.get(..at).ok_or("past the end")?;
    let after = text
        .get(at.saturating_add(new.len())..)
        .ok_or("past the end")?;
    let mut other = Vec::new(alloc);
    other.extend_from_slice(before)?;
    other.extend_from_slice(new)?;
    other.extend_from_slice(after)?;
    Ok(other)
}

/// Where the text is refused, with and without memory; none where it isn't refused as no thread, or at two places.
fn refused_at(alloc: Global, text: &[u8], pool: &mut Pool) -> Option<u64> {
    match unpack(alloc, text, pool) {
        Err(UnpackError::BadImage { offset }) if check_packed(text) == Some(offset) => Some(offset),
        _ => None,
    }
}

fn has_bytes(thread: &Baggage, held: u16, slot: u32) -> bool {
    match thread.hart.mem.slot_bytes(SlotNo(held)) {
        Some(bytes) => (0..SLOT_SIZE as u32)
            .zip(bytes)
            .all(|(place, byte)| *byte == byte_of(slot, place)),
        None => false,
    }
}

/// The call of the duty's fields.
fn call() -> CallNo {
    CallNo {
        by: Tid {
            home: NodeNo(6),
            seq: 0x11223344,
        },
        count: 0x55667788,
        at: NodeNo(1),
    }
}

/// Whether it is the thread of the fields up to the duty's.
fn has_its_name(thread: &Baggage) -> bool {
    let home = NodeNo(3);
    let seq = 0x01020304;
    thread.tid == Tid { home, seq }
        && thread.priority == 5
        && thread.calls == 0x0a0b0c0d
        && thread.duty == Duty::Owes(call())
}

/// Whether it is the thread of the other fields, but for the slots' bytes.
fn has_its_place(thread: &Baggage) -> bool {
    for r in 0..32 {
        if thread.hart.regs[r] != r as u64 * 0x0100_0000_0000_0001 {
            return false;
        }
    }
    let live = [
        (0x1_0005_0000, 16),
        (0x1_0007_fff0, 32),
        (0x1_0008_0010, 0xfff0),
    ];
    thread.hart.pc == 0x10010
        && thread.stack == SlotNo(6)
        && thread.blocks.heap_slots() == SlotSet::of(&[SlotNo(5), SlotNo(7), SlotNo(8)])
        && thread.blocks.live() == live.as_slice()
}

/// Whether it has the bytes of slots 5, 6, 7 and 8.
fn has_its_bytes(thread: &Baggage) -> bool {
    (5..9).all(|slot| has_bytes(thread, slot, slot as u32))
}

/// Whether the text's thread is that of its fields, and has that text.
fn gives_its_thread(alloc: Global, text: &[u8]) -> Result<bool, UnpackError> {
    let mut pool = Pool::new(alloc);
    let thread = unpack(alloc, text, &mut pool)?;
    let again = pack(alloc, &thread)?;
    Ok(
        check_packed(text).is_none()
            && again.as_slice() == text
            && has_its_name(&thread)
            && has_its_place(&thread)
            && has_its_bytes(&thread),
    )
}

#[test]
fn a_text_gives_its_thread_and_the_thread_its_text(rt: HostRuntime) -> Result<(), Fail> {
    let text = whole_text(rt.alloc())?;
    assert!(rt; gives_its_thread(rt.alloc(), &text)?);
    Ok(())
}

/// Whether the text's thread has the duty.
fn gives_duty(alloc: Global, text: &[u8], duty: &Duty) -> Result<bool, UnpackError> {
    let mut pool = Pool::new(alloc);
    Ok(unpack(alloc, text, &mut pool)?.duty == *duty)
}

#[test]
fn each_number_of_a_duty_gives_it(rt: HostRuntime) -> Result<(), Fail> {
    let text = small_text(rt.alloc())?;
    let duties: [(&[u8], Duty); 4] = [
        (&[0, 0, 0, 0, 0, 0, 0, 0, 0, 0, 0], Duty::None),
        (&[1], Duty::Cast(call())),
        (&[2], Duty::Owes(call())),
        (&[3], Duty::Paid(call())),
    ];
    for (new, duty) in &duties {
        let other = patched(rt.alloc(), &text, 14, new)?;
        assert!(rt; gives_duty(rt.alloc(), &other, duty)?);
    }
    Ok(())
}

/// The first length to which the text is cut and not refused there.
fn first_cut_that_stands(alloc: Global, text: &[u8], pool: &mut Pool) -> Option<usize> {
    for k in 0..text.len() {
        if refused_at(alloc, &text[..k], pool) != Some(k as u64) {
            return Some(k);
        }
    }
    None
}

#[test]
fn a_text_cut_short_is_refused_at_its_length(rt: HostRuntime) -> Result<(), Fail> {
    let text = small_text(rt.alloc())?;
    let mut pool = Pool::new(rt.alloc());
    assert_eq!(rt; first_cut_that_stands(rt.alloc(), &text, &mut pool), None);
    Ok(())
}

/// Where a small text is refused behind which one byte follows.
fn refused_with_more(alloc: Global, pool: &mut Pool) -> Result<Option<u64>, Fail> {
    let mut text = small_text(alloc)?;
    text.push(0)?;
    Ok(refused_at(alloc, &text, pool))
}

/// Broken texts: where other bytes stand, those bytes, and where the text is refused.
const BROKEN: [(usize, &[u8], u64); 55] = [
    (0, b"X", 0),
    (1, b"X", 0),
    (2, b"3", 0),
    (3, b"t", 0),
    (4, &[8], 4),
    (4, &[255], 4),
    (9, &[8], 9),
    (9, &[255], 9),
    (14, &[4], 14),
    (14, &[255], 14),
    (14, &[0], 15),
    (14, &[0, 0], 16),
    (14, &[0, 0, 0, 0, 0, 0], 20),
    (14, &[0, 0, 0, 0, 0, 0, 0, 0, 0, 0], 24),
    (15, &[8], 15),
    (24, &[8], 24),
    (24, &[255], 24),
    (273, &[0x12], 273),
    (273, &[0x11], 273),
    (273, &[0x13], 273),
    (281, &[0, 0x10], 281),
    (282, &[255], 281),
    (283, &[0, 0x10], 283),
    (284, &[255], 283),
    (285, &[0, 0x10], 285),
    (287, &[5], 287),
    (287, &[4], 287),
    (289, &[7], 289),
    (289, &[5], 289),
    (285, &[6], 285),
    (287, &[6], 287),
    (290, &[0x10], 289),
    (281, &[7], 287),
    (295, &[8], 295),
    (297, &[4], 295),
    (297, &[6], 295),
    (299, &[0], 295),
    (302, &[255], 295),
    (303, &[0], 303),
    (303, &[8], 303),
    (303, &[24], 303),
    (303, &[0x10, 0, 1], 303),
    (303, &[0, 0, 3], 303),
    (310, &[0x80], 303),
    (311, &[0, 0, 5], 311),
    (311, &[0xf0, 0xff, 4], 311),
    (313, &[9], 311),
    (319, &[0x30], 327),
    (327, &[0], 327),
    (335, &[0, 0, 1], 335),
    (291, &[4], 343),
    (291, &[2], 262471),
    (283, &[2], 293),
    (283, &[4], 291),
    (283, &[0], 289),
];

/// The first row of the table whose text isn't refused at its place.
fn first_row_that_fails(
    alloc: Global,
    text: &[u8],
    pool: &mut Pool,
) -> Result<Option<usize>, Fail> {
    for (row, broken) in BROKEN.iter().enumerate() {
        let (at, new, offset) = *broken;
        let other = patched(alloc, text, at, new)?;
        if refused_at(alloc, &other, pool) != Some(offset) {
            return Ok(Some(row));
        }
    }
    Ok(None)
}

#[test]
fn each_broken_field_is_refused_at_its_place(rt: HostRuntime) -> Result<(), Fail> {
    let text = whole_text(rt.alloc())?;
    let mut pool = Pool::new(rt.alloc());
    assert_eq!(rt; first_row_that_fails(rt.alloc(), &text, &mut pool)?, None);
    assert_eq!(rt; refused_with_more(rt.alloc(), &mut pool)?, Some(65825));
    Ok(())
}
