//! A thread's text.

ghost use Rattle.std.specs.Prelude.{◌≡◌, ℕ, ◌+◌, ◌*◌, ◌^◌, ◌<◌, ◌≤◌, List, [], ◌∷◌, ◌++◌, OnOk, IfOk, length, drop};
ghost use Rattle.byteorder.specs.Endian.{little_bytes};
ghost use Rattle.slot_space.specs.Sets.{IsSlotSet};
ghost use Rattle.rv_step.specs.Memory.{slots_of, IsAscending};
ghost use Rattle.thread_text.specs.Fields.{Blocks, Fit};
ghost use Rattle.thread_text.specs.Grammar.{thread_fields, duty_fields, register_fields, place_fields, slot_fields, live_fields, magic};
ghost use Rattle.thread_text.specs.Numbers.{duty_numbers, call_numbers, block_numbers};
ghost use Rattle.pack_thread.specs.Threads.{thread_of, bytes_of, AreWhole, numbers_of, head_of, text_of, IsThread, IsTyped};
ghost use Rattle.pack_thread.specs.Writing.{Writes};

use crate::baggage::Baggage;
use crate::held::held_slots;
use basics::NoMemory;
use byteorder::{ByteOrder, LittleEndian};
use lrpc::{CallNo, Duty};
use rv_step::GuestMem;
use slot_space::{NodeNo, SLOT_SIZE, SlotNo, SlotSet, Tid};
use std::alloc::Global;
use thread_text::MAGIC;

/// The text of a thread.
pub fn pack(alloc: Global, b: &Baggage) -> Result<Vec<u8>, NoMemory>
    requires { IsThread (thread_of b.now) }
    ensures text { IfOk result (λ bytes. bytes.items ≡ text_of (thread_of b.now)) }
    ensures typed { OnOk result (IsTyped (thread_of b.now)) }
{
    let heap = b.blocks.heap_slots();
    let slots = heap.members(alloc)?;
    let mut bytes = Vec::new(alloc);
    put_head(&mut bytes, b, &slots)?;
    let held = held_slots(alloc, &heap, b.stack)?;
    bytes.reserve(SLOT_SIZE as usize * held.len())?;
    put_memory(&mut bytes, &b.hart.mem, &held)?;
    Ok(bytes)
}

/// Adds all fields up to the slots' bytes.
pub(crate) fn put_head(bytes: &mut Vec<u8>, b: &Baggage, slots: &[SlotNo]) -> Result<(), NoMemory>
    requires heap { slots.now ≡ b.now.blocks.slots }
    requires proper { IsSlotSet slots.now }
    ensures text { OnOk result (bytes.new.items ≡ bytes.old.items ++ head_of (thread_of b.now)) }
    ensures fit { OnOk result (Fit thread_fields (numbers_of (thread_of b.now))) }
    ensures regs { OnOk result (length b.now.hart.regs ≡ 32) }
{
    let live = b.blocks.live();
    let heap = b.blocks.heap_slots();
    put_who(bytes, &b.tid, b.priority, b.calls)?;
    put_duty(bytes, &b.duty)?;
    put_registers(bytes, &b.hart.regs)?;
    put_place(bytes, b.hart.pc, b.stack, slots.len() as u16)?;
    put_slots(bytes, slots)?;
    put_live(bytes, live, &heap)?;
    Ok(())
}

/// Adds which thread it is.
fn put_who(bytes: &mut Vec<u8>, tid: &Tid, priority: u8, calls: u32) -> Result<(), NoMemory>
    ensures { OnOk result (Writes bytes.old.items bytes.new.items thread_fields (magic ∷ tid.now.home ∷ tid.now.seq ∷ priority ∷ calls ∷ []) duty_fields) }
{
    put_number(bytes, MAGIC, 4)?;
    put_number(bytes, node_number(tid.home) as u64, 1)?;
    put_number(bytes, tid.seq as u64, 4)?;
    put_number(bytes, priority as u64, 1)?;
    put_number(bytes, calls as u64, 4)?;
    Ok(())
}

/// Adds what the thread owes to a call.
fn put_duty(bytes: &mut Vec<u8>, duty: &Duty) -> Result<(), NoMemory>
    ensures { OnOk result (Writes bytes.old.items bytes.new.items duty_fields (duty_numbers duty.now) (register_fields 31)) }
{
    match duty {
        Duty::None => put_call(bytes, 0, &no_call()),
        Duty::Cast(call) => put_call(bytes, 1, call),
        Duty::Owes(call) => put_call(bytes, 2, call),
        Duty::Paid(call) => put_call(bytes, 3, call),
    }
}

/// Adds the call that a thread serves, whose duty has a number.
fn put_call(bytes: &mut Vec<u8>, duty: u8, call: &CallNo) -> Result<(), NoMemory>
    ensures { OnOk result (Writes bytes.old.items bytes.new.items duty_fields (duty ∷ call_numbers call.now) (register_fields 31)) }
{
    put_number(bytes, duty as u64, 1)?;
    put_number(bytes, node_number(call.by.home) as u64, 1)?;
    put_number(bytes, call.by.seq as u64, 4)?;
    put_number(bytes, call.count as u64, 4)?;
    put_number(bytes, node_number(call.at) as u64, 1)?;
    Ok(())
}

/// The numbers of a thread that serves no call: all 0.
fn no_call() -> CallNo
    ensures { call_numbers result ≡ 0 ∷ 0 ∷ 0 ∷ 0 ∷ [] }
{
    CallNo {
        by: Tid {
            home: NodeNo(0),
            seq: 0,
        },
        count: 0,
        at: NodeNo(0),
    }
}

/// Adds registers 1 to 31.
fn put_registers(bytes: &mut Vec<u8>, regs: &[u64; 32]) -> Result<(), NoMemory>
    ensures numbers { OnOk result (Writes bytes.old.items bytes.new.items (register_fields 31) (drop 1 regs.now) place_fields) }
    ensures all { OnOk result (length regs.now ≡ 32) }
{
    for r in 1..32 {
        put_number(bytes, regs[r], 8)?;
    }
    Ok(())
}

/// Adds where the thread stands: its pc, its stack slot, and how many heap slots it has.
fn put_place(bytes: &mut Vec<u8>, pc: u64, stack: SlotNo, heap: u16) -> Result<(), NoMemory>
    ensures { OnOk result (Writes bytes.old.items bytes.new.items place_fields (pc ∷ stack ∷ heap ∷ []) (slot_fields heap 0 stack [])) }
{
    put_number(bytes, pc, 8)?;
    put_number(bytes, slot_number(stack) as u64, 2)?;
    put_number(bytes, heap as u64, 2)?;
    Ok(())
}

/// Adds the heap slots.
fn put_slots(bytes: &mut Vec<u8>, slots: &[SlotNo]) -> Result<(), NoMemory>
    ensures { (stack : ℕ) → OnOk result (Writes bytes.old.items bytes.new.items (slot_fields (length slots.now) 0 stack []) slots.now (live_fields slots.now)) }
{
    for slot in slots {
        put_number(bytes, slot_number(*slot) as u64, 2)?;
    }
    Ok(())
}

/// Adds the live blocks behind their number.
fn put_live(bytes: &mut Vec<u8>, live: &[(u64, u64)], slots: &SlotSet) -> Result<(), NoMemory>
    requires { length live.now < 2 ^ 32 }
    ensures { OnOk result (Writes bytes.old.items bytes.new.items (live_fields slots.now) (length live.now ∷ block_numbers live.now) (Blocks (length slots.now + 1))) }
{
    put_number(bytes, live.len() as u64, 4)?;
    for block in live {
        let (address, size) = *block;
        put_number(bytes, address, 8)?;
        put_number(bytes, size, 8)?;
    }
    Ok(())
}

/// Adds the bytes of the held slots.
fn put_memory(bytes: &mut Vec<u8>, memory: &GuestMem, held: &[SlotNo]) -> Result<(), NoMemory>
    requires holds { slots_of memory.now.0 ≡ held.now }
    requires ascending { IsAscending memory.now.0 }
    ensures text { OnOk result (bytes.new.items ≡ bytes.old.items ++ bytes_of memory.now.0) }
    ensures blocks { OnOk result (AreWhole memory.now.0) }
{
    for slot in held {
        match memory.slot_bytes(*slot) {
            Some(block) => bytes.extend_from_slice(block)?,
            None => unreachable!(),
        }
    }
    Ok(())
}

/// Adds a number in `width` bytes.
fn put_number(bytes: &mut Vec<u8>, n: u64, width: usize) -> Result<(), NoMemory>
    requires some { 1 ≤ width }
    requires few { width ≤ 8 }
    requires fits { n < 256 ^ width }
    ensures { OnOk result (bytes.new.items ≡ bytes.old.items ++ little_bytes width n) }
{
    let mut buffer = [0; 8];
    LittleEndian::write_uint(&mut buffer, n, width);
    bytes.extend_from_slice(&buffer[..width])?;
    Ok(())
}

/// A node's number.
fn node_number(node: NodeNo) -> u8
    ensures { result ≡ node }
{
    node.0
}

/// A slot's number.
fn slot_number(slot: SlotNo) -> u16
    ensures { result ≡ slot }
{
    slot.0
}
