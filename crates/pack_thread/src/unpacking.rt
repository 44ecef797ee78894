//! A thread from its text.

ghost use Rattle.std.specs.Prelude.{◌≡◌, ℕ, ◌+◌, ◌*◌, ◌<◌, ◌≤◌, max, OnOk, OnErr, Err, IfOk, IsOk, ◌↔◌, length, drop, slice_index};
ghost use Rattle.slot_space.specs.Limits.{slot_limit, slot_size};
ghost use Rattle.slot_space.specs.Sets.{insert, IsAscending};
ghost use Rattle.rv_step.specs.Memory.{slots_of};
ghost use Rattle.thread_text.specs.Grammar.{read_text};
ghost use Rattle.thread_text.specs.Opened.{slots_at, opened_numbers, IsOpen};
ghost use Rattle.pack_thread.specs.Threads.{PackedThread, thread_of, bytes_of, numbers_of, AreWhole, text_of, IsThread, IsTyped, Gives};

use crate::baggage::Baggage;
use crate::error::UnpackError;
use crate::held::held_slots;
use crate::opened::{assembled, heap_of};
use basics::NoMemory;
use raw_slots::{Pool, SlotMem};
use rv_step::GuestMem;
use slot_space::{SLOT_SIZE, SlotNo};
use std::alloc::Global;
use thread_text::{Opened, open_text};

/// Where bytes are refused as no packed thread's text; none where they are one. It takes no memory.
pub fn check_packed(bytes: &[u8]) -> Option<u64>
    ensures refused { (offset : ℕ) → (result ≡ Some offset) ↔ (read_text bytes.now ≡ Err offset) }
    ensures good { (result ≡ None) ↔ IsOk (read_text bytes.now) }
{
    match open_text(bytes) {
        Ok(_) => None,
        Err(offset) => Some(offset),
    }
}

/// The thread of a text. Its slots' blocks are taken from the pool; where no thread is given, the pool has at least what
/// it had.
pub fn unpack(alloc: Global, bytes: &[u8], pool: &mut Pool) -> Result<Baggage, UnpackError>
    ensures found { IfOk result (λ b. IsThread (thread_of b) × IsTyped (thread_of b)) }
    ensures text { IfOk result (λ b. bytes.now ≡ text_of (thread_of b)) }
    // Bytes outside the grammar are refused at the place where their reading is, whatever memory there is.
    ensures refused { (offset : ℕ) → (result ≡ Err (UnpackError.BadImage offset)) ↔ (read_text bytes.now ≡ Err offset) }
    // The text of a thread gives that thread, unless memory runs out.
    ensures again { (t : PackedThread) → IsThread t → IsTyped t → bytes.now ≡ text_of t → Gives t result }
    ensures taken { IfOk result (λ b. pool.new + (length b.blocks.slots + 1) ≡ max pool.old (length b.blocks.slots + 1)) }
    ensures kept { OnErr result (pool.old ≤ pool.new) }
{
    if let Some(offset) = check_packed(bytes) {
        return Err(UnpackError::BadImage { offset });
    }
    let opened = match open_text(bytes) {
        Ok(opened) => opened,
        Err(_) => unreachable!(),
    };
    let thread = build(alloc, bytes, opened, pool)?;
    Ok(thread)
}

/// The thread whose fields have been read and checked.
fn build(alloc: Global, bytes: &[u8], opened: Opened, pool: &mut Pool) -> Result<Baggage, NoMemory>
    requires rules { IsOpen bytes.now opened }
    requires whole { slots_at opened + slot_size * (length opened.slots + 1) ≡ length bytes.now }
    ensures numbers { IfOk result (λ b. numbers_of (thread_of b) ≡ opened_numbers bytes.now opened) }
    ensures regs { IfOk result (λ b. (slice_index b.hart.regs 0 ≡ 0) × (length b.hart.regs ≡ 32)) }
    ensures holds { IfOk result (λ b. slots_of b.hart.mem.0 ≡ insert b.stack b.blocks.slots) }
    ensures memory { IfOk result (λ b. (bytes_of b.hart.mem.0 ≡ drop (slots_at opened) bytes.now) × AreWhole b.hart.mem.0) }
    ensures taken { IfOk result (λ b. pool.new + (length b.blocks.slots + 1) ≡ max pool.old (length b.blocks.slots + 1)) }
    ensures err { OnErr result (pool.old ≤ pool.new) }
{
    let from = opened.slots_at();
    let blocks = heap_of(alloc, bytes, &opened)?;
    let held = held_slots(alloc, &opened.slots, opened.place.stack)?;
    let mem = memory_of(alloc, pool, &held, &bytes[from..])?;
    Ok(assembled(opened, blocks, mem))
}

/// The memory of these slots, whose bytes stand one after another. The blocks are taken from the pool, which has at least
/// what it had where there is no memory.
fn memory_of(
    alloc: Global,
    pool: &mut Pool,
    held: &[SlotNo],
    bytes: &[u8],
) -> Result<GuestMem, NoMemory>
    requires ascending { IsAscending held.now }
    requires few { length held.now ≤ slot_limit }
    requires whole { length bytes.now ≡ slot_size * length held.now }
    ensures slots { IfOk result (λ memory. slots_of memory.0 ≡ held.now) }
    ensures bytes { IfOk result (λ memory. bytes_of memory.0 ≡ bytes.now) }
    ensures blocks { IfOk result (λ memory. AreWhole memory.0) }
    ensures taken { OnOk result (pool.new + length held.now ≡ max pool.old (length held.now)) }
    ensures err { OnErr result (pool.old ≤ pool.new) }
{
    let mut memory = GuestMem::new(alloc);
    memory.make_room(held.len() as u16)?;
    pool.reserve(held.len() as u32)?;
    let mut at = 0;
    for slot in held {
        match pool.take() {
            Ok(mut block) => {
                fill(&mut block, &bytes[at..at + SLOT_SIZE as usize]);
                memory.grant(*slot, block);
            }
            Err(_) => unreachable!(),
        }
        at += SLOT_SIZE as usize;
    }
    Ok(memory)
}

/// Writes all bytes of a block.
fn fill(block: &mut SlotMem, from: &[u8])
    requires { length from.now ≡ slot_size }
    ensures { block.new ≡ from.now }
{
    block.bytes_mut().copy_from_slice(from);
}
