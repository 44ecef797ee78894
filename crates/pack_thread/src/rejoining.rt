//! A thread from its fields and the blocks of its slots.

ghost use Rattle.std.specs.Prelude.{◌≡◌, ℕ, ◌+◌, ◌<◌, ◌≤◌, [], Err, ◌↔◌, IfOk, IfErr, OnOk, length, slice_index, vec_len, vec_capacity};
ghost use Rattle.slot_space.specs.Sets.{insert, IsAscending};
ghost use Rattle.rv_step.specs.Memory.{slots_of};
ghost use Rattle.thread_text.specs.Opened.{slots_at, live_of, IsOpen};
ghost use Rattle.pack_thread.specs.Threads.{PackedThread, thread_of, text_of, AreWhole};
ghost use Rattle.pack_thread.specs.Moving.{text_of_moving, blocks_of, read_moving, thread_opened, IsMovingOf, Rejoins};

use crate::baggage::Baggage;
use crate::error::UnpackError;
use crate::held::held_slots;
use crate::moving::{Moving, Rejoin};
use crate::opened::{assembled, heap_of};
use basics::NoMemory;
use iso_blocks::Blocks;
use raw_slots::SlotMem;
use rv_step::{GuestMem, Held};
use slot_space::SlotNo;
use std::alloc::Global;
use thread_text::{Opened, open_head};

/// What a thread takes memory for when it comes: its live blocks, its slots, and the room for them.
#[derive(Drop)]
struct Lists {
    blocks: Blocks,
    held: Vec<SlotNo>,
    room: Vec<Held>,
}

/// The thread of these fields, whose slots' blocks stay as they are. On each refusal what came is handed back.
pub fn rejoin(alloc: Global, m: Moving) -> Result<Baggage, Rejoin>
    ensures found { IfOk result (λ b. IsMovingOf m (thread_of b)) }
    ensures text { IfOk result (λ b. text_of_moving m ≡ text_of (thread_of b)) }
    ensures back { IfErr result (λ r. r.moving ≡ m) }
    // A head outside the grammar, or a wrong number of blocks, is refused at its place, whatever memory there is.
    ensures refused { (offset : ℕ) → (result ≡ Err (record { cause = UnpackError.BadImage offset; moving = m })) ↔ (read_moving m ≡ Err offset) }
    // What a thread was split into gives that thread, unless memory runs out.
    ensures again { (t : PackedThread) → IsMovingOf m t → Rejoins t result }
{
    let opened = match open_head(&m.head, m.blocks.len()) {
        Ok(opened) => opened,
        Err(offset) => {
            return Err(Rejoin {
                cause: UnpackError::BadImage { offset },
                moving: m,
            });
        }
    };
    match lists_of(alloc, &m.head, &opened) {
        Ok(lists) => Ok(joined(opened, lists, m)),
        Err(NoMemory) => Err(Rejoin {
            cause: UnpackError::NoMemory,
            moving: m,
        }),
    }
}

/// All for which a thread with these fields takes memory.
fn lists_of(alloc: Global, head: &[u8], opened: &Opened) -> Result<Lists, NoMemory>
    requires rules { IsOpen head.now opened.now }
    requires there { slots_at opened.now ≤ length head.now }
    ensures blocks { IfOk result (λ l. l.blocks ≡ record { live = live_of head.now opened.now; slots = opened.now.slots }) }
    ensures held { IfOk result (λ l. (l.held.items ≡ insert opened.now.place.stack opened.now.slots) × IsAscending l.held.items) }
    ensures count { IfOk result (λ l. length l.held.items ≡ length opened.now.slots + 1) }
    ensures bytes { OnOk result ((i : ℕ) → slice_index head.now i < 256) }
    ensures room { IfOk result (λ l. (l.room.items ≡ []) × (vec_len l.room + length l.held.items ≤ vec_capacity l.room)) }
{
    let blocks = heap_of(alloc, head, opened)?;
    let held = held_slots(alloc, &opened.slots, opened.place.stack)?;
    let mut room = Vec::new(alloc);
    room.reserve(held.len())?;
    Ok(Lists { blocks, held, room })
}

/// The thread of these fields, with the blocks that came.
fn joined(opened: Opened, lists: Lists, m: Moving) -> Baggage
    requires ascending { IsAscending lists.held.items }
    requires count { length m.blocks.items ≡ length lists.held.items }
    requires room { (lists.room.items ≡ []) × (vec_len lists.room + length lists.held.items ≤ vec_capacity lists.room) }
    ensures thread { thread_of result ≡ thread_opened opened lists.blocks result.hart.mem.0 }
    ensures slots { slots_of result.hart.mem.0 ≡ lists.held.items }
    ensures blocks { (blocks_of result.hart.mem.0 ≡ m.blocks.items) × AreWhole result.hart.mem.0 }
{
    let Moving {
        head: _,
        blocks: came,
    } = m;
    let Lists { blocks, held, room } = lists;
    assembled(opened, blocks, memory_with(&held, came, room))
}

/// The memory of these slots, each with its block, in the room for them.
fn memory_with(held: &[SlotNo], blocks: Vec<SlotMem>, room: Vec<Held>) -> GuestMem
    requires ascending { IsAscending held.now }
    requires count { length blocks.items ≡ length held.now }
    requires room { (room.items ≡ []) × (vec_len room + length held.now ≤ vec_capacity room) }
    ensures slots { slots_of result.0 ≡ held.now }
    ensures blocks { (blocks_of result.0 ≡ blocks.items) × AreWhole result.0 }
{
    let mut all = room;
    let mut at = 0;
    for block in blocks {
        // They are a slot's bytes.
        let _bytes = block.bytes();
        let slot = held[at];
        all.push_reserved(Held {
            slot: slot.0,
            block,
        });
        at += 1;
    }
    GuestMem::of(all)
}
