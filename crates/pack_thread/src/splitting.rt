//! A thread parted into its fields and the blocks of its slots.

ghost use Rattle.std.specs.Prelude.{◌≡◌, ◌+◌, ◌≤◌, [], IfOk, IfErr, length, vec_len, vec_capacity};
ghost use Rattle.thread_text.specs.Fields.{Fit};
ghost use Rattle.thread_text.specs.Grammar.{thread_fields};
ghost use Rattle.pack_thread.specs.Threads.{thread_of, numbers_of, head_of, text_of, AreWhole, IsThread};
ghost use Rattle.pack_thread.specs.Moving.{text_of_moving, blocks_of, IsMovingOf};

use crate::baggage::Baggage;
use crate::moving::Moving;
use crate::packing::put_head;
use basics::NoMemory;
use raw_slots::SlotMem;
use rv_step::{GuestMem, Hart};
use std::alloc::Global;

/// The thread's fields, and the blocks of its slots as they are. Where there is no memory for the lists, the thread is handed
/// back.
pub fn split(alloc: Global, b: Baggage) -> Result<Moving, Baggage>
    requires { IsThread (thread_of b) }
    ensures text { IfOk result (λ m. text_of_moving m ≡ text_of (thread_of b)) }
    ensures moving { IfOk result (λ m. IsMovingOf m (thread_of b)) }
    ensures back { IfErr result (λ same. same ≡ b) }
{
    match head_and_room(alloc, &b) {
        Ok(moving) => Ok(parted(moving, b)),
        Err(NoMemory) => Err(b),
    }
}

/// The thread's fields, and room for the blocks of its slots.
fn head_and_room(alloc: Global, b: &Baggage) -> Result<Moving, NoMemory>
    requires { IsThread (thread_of b.now) }
    ensures head { IfOk result (λ m. m.head.items ≡ head_of (thread_of b.now)) }
    ensures fit { IfOk result (λ m. Fit thread_fields (numbers_of (thread_of b.now)) × (length b.now.hart.regs ≡ 32)) }
    ensures room { IfOk result (λ m. (m.blocks.items ≡ []) × (vec_len m.blocks + length b.now.hart.mem.0 ≤ vec_capacity m.blocks)) }
{
    let slots = b.blocks.heap_slots().members(alloc)?;
    let mut head = Vec::new(alloc);
    put_head(&mut head, b, &slots)?;
    let mut blocks = Vec::new(alloc);
    blocks.reserve(slots.len() + 1)?;
    Ok(Moving { head, blocks })
}

/// The thread whose fields these are, with its blocks in the room for them.
fn parted(moving: Moving, b: Baggage) -> Moving
    requires room { (moving.blocks.items ≡ []) × (vec_len moving.blocks + length b.hart.mem.0 ≤ vec_capacity moving.blocks) }
    ensures head { result.head.items ≡ moving.head.items }
    ensures blocks { (result.blocks.items ≡ blocks_of b.hart.mem.0) × AreWhole b.hart.mem.0 }
{
    let Moving { head, mut blocks } = moving;
    let Baggage {
        tid: _,
        priority: _,
        calls: _,
        duty: _,
        hart,
        stack: _,
        blocks: _,
    } = b;
    let Hart {
        regs: _,
        pc: _,
        mem,
    } = hart;
    push_blocks(&mut blocks, mem);
    Moving { head, blocks }
}

/// Adds the blocks of a memory, in the order of its slots.
fn push_blocks(blocks: &mut Vec<SlotMem>, mem: GuestMem)
    requires none { blocks.old.items ≡ [] }
    requires room { vec_len blocks.old + length mem.0 ≤ vec_capacity blocks.old }
    ensures blocks { blocks.new.items ≡ blocks_of mem.0 }
    ensures whole { AreWhole mem.0 }
{
    for held in mem.into_held() {
        // They are a slot's bytes.
        let _bytes = held.block.bytes();
        blocks.push_reserved(held.block);
    }
}
