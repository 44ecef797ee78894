//! The fields of a thread's text, read and checked without memory.

ghost use Rattle.std.specs.Prelude.{◌≡◌, ℕ, suc, ◌+◌, ◌^◌, ◌<◌, ◌≤◌, List, [], ◌∷◌, ◌*◌, ◌%◌, true, false, Ok, IfOk, OnOk, MatchResult, length, drop, slice_index};
ghost use Rattle.slot_space.specs.Limits.{slot_limit, slot_size};
ghost use Rattle.slot_space.specs.Sets.{has, IsSlotSet};
ghost use Rattle.iso_blocks.specs.Heap.{IsBlock, StandFrom};
ghost use Rattle.thread_text.specs.Fields.{number_at as number_from, read};
ghost use Rattle.thread_text.specs.Grammar.{read_text, read_head, thread_fields, duty_fields, register_fields, place_fields, slot_fields, live_fields, block_fields, is_call_node as may_be_call_node, is_call_number as may_be_call_number, is_heap_slot as may_be_heap_slot, is_start as may_be_start, is_size as may_be_size};
ghost use Rattle.thread_text.specs.Reading.{GoesOn, block_at, blocks_at};
ghost use Rattle.thread_text.specs.Opened.{who_numbers, place_numbers, live_at, slots_at, opened_numbers, reading_of, IsOpen};
ghost use Rattle.thread_text.specs.Numbers.{call_numbers, duty_numbers, block_numbers};

use byteorder::{ByteOrder, LittleEndian};
use iso_blocks::is_block;
use lrpc::{CallNo, Duty};
use slot_space::{NODE_LIMIT, NodeNo, SLOT_LIMIT, SLOT_SIZE, SlotNo, SlotSet, Tid};

/// The bytes PM2T, as a number.
pub const MAGIC: u64 = 0x5432_4d50;

/// What the fields of a text have. The live blocks stay in the bytes.
#[derive(Drop)]
pub struct Opened {
    pub who: Who,
    pub duty: Duty,
    pub regs: [u64; 32],
    pub place: Place,
    pub slots: SlotSet,
    pub live: u32,
}

/// Which thread it is.
#[derive(Drop)]
pub struct Who {
    pub tid: Tid,
    pub priority: u8,
    pub calls: u32,
}

/// Where it stands: its pc, its stack slot, and how many heap slots it has.
#[derive(Drop)]
pub struct Place {
    pub pc: u64,
    pub stack: SlotNo,
    pub heap: u16,
}

impl Opened {
    /// Where the live blocks stand.
    pub fn live_at(&self) -> usize
        ensures { result ≡ live_at self.now }
    {
        289 + 2 * self.place.heap as usize
    }

    /// Where the slots' bytes stand.
    pub fn slots_at(&self) -> usize
        ensures { result ≡ slots_at self.now }
    {
        289 + 2 * self.place.heap as usize + 16 * self.live as usize
    }
}

/// What a whole text has, or the place at which it is refused. It takes no memory.
#[tactic(auto, using(crate::proofs::Steps::finished))]
pub fn open_text(bytes: &[u8]) -> Result<Opened, u64>
    ensures reading { MatchResult result (λ o. read_text bytes.now ≡ Ok (reading_of bytes.now o)) (λ offset. read_text bytes.now ≡ Err offset) }
    ensures rules { IfOk result (IsOpen bytes.now) }
    ensures whole { IfOk result (λ o. slots_at o + slot_size * (length o.slots + 1) ≡ length bytes.now) }
{
    let opened = open(bytes)?;
    let end = opened.slots_at() + SLOT_SIZE as usize * (opened.place.heap as usize + 1);
    if bytes.len() < end {
        return Err(bytes.len() as u64);
    }
    if end < bytes.len() {
        return Err(end as u64);
    }
    Ok(opened)
}

/// What a head has, beside which so many blocks stand, or the place at which it is refused. It takes no memory.
#[tactic(auto, using(crate::proofs::Steps::finished))]
pub fn open_head(bytes: &[u8], blocks: usize) -> Result<Opened, u64>
    ensures reading { MatchResult result (λ o. read_head bytes.now blocks ≡ Ok (reading_of bytes.now o)) (λ offset. read_head bytes.now blocks ≡ Err offset) }
    ensures rules { IfOk result (IsOpen bytes.now) }
    ensures whole { IfOk result (λ o. (slots_at o ≡ length bytes.now) × (length o.slots + 1 ≡ blocks)) }
{
    let opened = open(bytes)?;
    let behind = opened.slots_at();
    if behind < bytes.len() {
        return Err(behind as u64);
    }
    if blocks != opened.place.heap as usize + 1 {
        return Err(behind as u64);
    }
    Ok(opened)
}

/// All fields, each by its rule.
#[tactic(auto, using(crate::proofs::Steps::chained))]
fn open(bytes: &[u8]) -> Result<Opened, u64>
    ensures numbers { GoesOn (opened_numbers bytes.now) result (read thread_fields bytes.now 0) (λ o. Ok (record { numbers = []; at = slots_at o; blocks = length o.slots + 1 })) }
    ensures rules { IfOk result (IsOpen bytes.now) }
    ensures there { IfOk result (λ o. slots_at o ≤ length bytes.now) }
{
    let who = read_who(bytes)?;
    let duty = read_duty(bytes)?;
    let regs = read_registers(bytes)?;
    let place = read_place(bytes)?;
    let slots = read_slots(bytes, place.heap, place.stack)?;
    let at = 285 + 2 * place.heap as usize;
    let live = read_live(bytes, at, &slots)?;
    Ok(Opened {
        who,
        duty,
        regs,
        place,
        slots,
        live,
    })
}

/// The fields from 0 on.
#[tactic(auto, unfolding(crate::specs::Grammar::thread_fields, crate::specs::Fields::read))]
fn read_who(bytes: &[u8]) -> Result<Who, u64>
    ensures { GoesOn who_numbers result (read thread_fields bytes.now 0) (λ w. read duty_fields bytes.now 14) }
{
    require(number_at(bytes, 0, 4)? == MAGIC, 0)?;
    let home = number_at(bytes, 4, 1)?;
    require(home < NODE_LIMIT as u64, 4)?;
    let seq = number_at(bytes, 5, 4)?;
    let priority = number_at(bytes, 9, 1)?;
    require(priority <= 7, 9)?;
    let calls = number_at(bytes, 10, 4)?;
    Ok(Who {
        tid: Tid {
            home: NodeNo(home as u8),
            seq: seq as u32,
        },
        priority: priority as u8,
        calls: calls as u32,
    })
}

/// The fields from 14 on: the duty, and the call that the thread serves.
fn read_duty(bytes: &[u8]) -> Result<Duty, u64>
    ensures { GoesOn duty_numbers result (read duty_fields bytes.now 14) (λ d. read (register_fields 31) bytes.now 25) }
{
    let duty = number_at(bytes, 14, 1)?;
    require(duty <= 3, 14)?;
    let home = number_at(bytes, 15, 1)?;
    require(is_call_node(duty, home), 15)?;
    let seq = number_at(bytes, 16, 4)?;
    require(is_call_number(duty, seq), 16)?;
    let count = number_at(bytes, 20, 4)?;
    require(is_call_number(duty, count), 20)?;
    let at = number_at(bytes, 24, 1)?;
    require(is_call_node(duty, at), 24)?;
    let call = CallNo {
        by: Tid {
            home: NodeNo(home as u8),
            seq: seq as u32,
        },
        count: count as u32,
        at: NodeNo(at as u8),
    };
    Ok(duty_of(duty, call))
}

/// The duty of a number from 0 to 3.
fn duty_of(duty: u64, call: CallNo) -> Duty
    requires { duty ≤ 3 }
    ensures { (duty ≡ 0 → call_numbers call ≡ 0 ∷ 0 ∷ 0 ∷ 0 ∷ []) → duty_numbers result ≡ duty ∷ call_numbers call }
{
    match duty {
        0 => Duty::None,
        1 => Duty::Cast(call),
        2 => Duty::Owes(call),
        _ => Duty::Paid(call),
    }
}

/// Whether the number may be a node of the call that a thread serves, by the number of its duty.
fn is_call_node(duty: u64, node: u64) -> bool
    ensures { result ≡ may_be_call_node duty node }
{
    if duty == 0 {
        node == 0
    } else {
        node < NODE_LIMIT as u64
    }
}

/// Whether the number may be one of the call that a thread serves, by the number of its duty.
fn is_call_number(duty: u64, number: u64) -> bool
    ensures { result ≡ may_be_call_number duty number }
{
    duty != 0 || number == 0
}

/// The fields from 25 on: registers 1 to 31.
fn read_registers(bytes: &[u8]) -> Result<[u64; 32], u64>
    ensures numbers { GoesOn (λ regs. drop 1 regs) result (read (register_fields 31) bytes.now 25) (λ regs. read place_fields bytes.now 273) }
    ensures zero { IfOk result (λ regs. (slice_index regs 0 ≡ 0) × (length regs ≡ 32)) }
{
    let mut regs = [0; 32];
    for r in 1..32 {
        regs[r] = number_at(bytes, 17 + 8 * r, 8)?;
    }
    Ok(regs)
}

/// The fields from 273 on.
fn read_place(bytes: &[u8]) -> Result<Place, u64>
    ensures numbers { GoesOn place_numbers result (read place_fields bytes.now 273) (λ p. read (slot_fields p.heap 0 p.stack []) bytes.now 285) }
    ensures small { IfOk result (λ p. (p.stack < slot_limit) × (p.heap < slot_limit)) }
{
    let pc = number_at(bytes, 273, 8)?;
    require(pc % 4 == 0, 273)?;
    let stack = number_at(bytes, 281, 2)?;
    require(stack < SLOT_LIMIT as u64, 281)?;
    let heap = number_at(bytes, 283, 2)?;
    require(heap < SLOT_LIMIT as u64, 283)?;
    Ok(Place {
        pc,
        stack: SlotNo(stack as u16),
        heap: heap as u16,
    })
}

/// The fields from 285 on: `count` heap slots.
fn read_slots(bytes: &[u8], count: u16, stack: SlotNo) -> Result<SlotSet, u64>
    ensures numbers { GoesOn (λ slots. slots) result (read (slot_fields count 0 stack []) bytes.now 285) (λ slots. read (live_fields slots) bytes.now (285 + 2 * count)) }
    ensures slots { IfOk result (λ slots. IsSlotSet slots × (has stack slots ≡ false) × (length slots ≡ count)) }
{
    let mut slots = SlotSet::empty();
    let mut low = 0;
    for k in 0..count {
        let at = 285 + 2 * k as usize;
        let slot = number_at(bytes, at, 2)?;
        require(is_heap_slot(low, stack, slot), at as u64)?;
        slots.insert(SlotNo(slot as u16));
        low = slot + 1;
    }
    Ok(slots)
}

/// Whether the number may be a heap slot behind those below `low`.
fn is_heap_slot(low: u64, stack: SlotNo, slot: u64) -> bool
    ensures { result ≡ may_be_heap_slot low stack slot }
{
    slot < SLOT_LIMIT as u64 && low <= slot && slot != stack.0 as u64
}

/// The number of live blocks, which stand behind it.
#[tactic(auto, using(crate::proofs::Steps::chained), unfolding(crate::specs::Grammar::live_fields, crate::specs::Fields::read))]
fn read_live(bytes: &[u8], at: usize, slots: &SlotSet) -> Result<u32, u64>
    requires proper { IsSlotSet slots.now }
    requires small { at < 2 ^ 32 }
    ensures numbers { GoesOn (λ live. live ∷ block_numbers (blocks_at bytes.now (at + 4) live)) result (read (live_fields slots.now) bytes.now at) (λ live. Ok (record { numbers = []; at = at + 4 + 16 * live; blocks = length slots.now + 1 })) }
    ensures sound { IfOk result (λ live. StandFrom 0 slots.now (blocks_at bytes.now (at + 4) live)) }
    ensures there { IfOk result (λ live. at + 4 + 16 * live ≤ length bytes.now) }
{
    let live = number_at(bytes, at, 4)?;
    check_blocks(bytes, at + 4, live as u32, slots)?;
    Ok(live as u32)
}

/// Checks `count` blocks from a place on.
fn check_blocks(bytes: &[u8], at: usize, count: u32, slots: &SlotSet) -> Result<(), u64>
    requires proper { IsSlotSet slots.now }
    requires inside { at ≤ length bytes.now }
    ensures numbers { GoesOn (λ _. block_numbers (blocks_at bytes.now at count)) result (read (block_fields count 0 slots.now) bytes.now at) (λ _. Ok (record { numbers = []; at = at + 16 * count; blocks = length slots.now + 1 })) }
    ensures sound { OnOk result (StandFrom 0 slots.now (blocks_at bytes.now at count)) }
    ensures there { OnOk result (at + 16 * count ≤ length bytes.now) }
{
    let mut low = 0;
    for k in 0..count {
        let (address, size) = read_block(bytes, at + 16 * k as usize, low, slots)?;
        low = address + size;
    }
    Ok(())
}

/// The block whose address and size stand at a place: one in the slots, at or after the end of the block before.
#[tactic(auto, unfolding(crate::specs::Grammar::block_fields, crate::specs::Fields::read))]
fn read_block(bytes: &[u8], at: usize, low: u64, slots: &SlotSet) -> Result<(u64, u64), u64>
    requires proper { IsSlotSet slots.now }
    requires inside { at ≤ length bytes.now }
    ensures numbers { (left : ℕ) → GoesOn (λ b. b.0 ∷ b.1 ∷ []) result (read (block_fields (suc left) low slots.now) bytes.now at) (λ b. read (block_fields left (b.0 + b.1) slots.now) bytes.now (at + 16)) }
    ensures block { IfOk result (λ b. IsBlock slots.now b × (low ≤ b.0)) }
    ensures there { IfOk result (λ b. (b ≡ block_at bytes.now at) × (at + 16 ≤ length bytes.now)) }
{
    let address = number_at(bytes, at, 8)?;
    require(is_start(slots, low, address), at as u64)?;
    let size = number_at(bytes, at + 8, 8)?;
    require(is_size(slots, address, size), at as u64 + 8)?;
    Ok((address, size))
}

/// Whether a block may start at the address, at or after the end of the block before.
fn is_start(slots: &SlotSet, low: u64, address: u64) -> bool
    requires { IsSlotSet slots.now }
    ensures { result ≡ may_be_start slots.now low address }
{
    let stands = is_block(slots, address, 16);
    stands && low <= address
}

/// Whether a block at the address may have this size.
fn is_size(slots: &SlotSet, address: u64, size: u64) -> bool
    requires proper { IsSlotSet slots.now }
    requires aligned { address % 16 ≡ 0 }
    ensures size { result ≡ may_be_size slots.now address size }
    ensures block { result ≡ true → IsBlock slots.now (address, size) }
{
    is_block(slots, address, size)
}

/// The number in the bytes from a place on, or the bytes' length where they end before it does.
fn number_at(bytes: &[u8], at: usize, width: usize) -> Result<u64, u64>
    requires some { 1 ≤ width }
    requires few { width ≤ 8 }
    ensures number { result ≡ number_from bytes.now at width }
    ensures fits { IfOk result (λ n. n < 256 ^ width) }
{
    if at > bytes.len() || width > bytes.len() - at {
        return Err(bytes.len() as u64);
    }
    Ok(LittleEndian::read_uint(&bytes[at..], width))
}

/// Refuses the field at a place where its rule doesn't hold.
fn require(holds: bool, at: u64) -> Result<(), u64>
    ensures { MatchResult result (λ _. holds ≡ true) (λ offset. (holds ≡ false) × (offset ≡ at)) }
{
    if holds { Ok(()) } else { Err(at) }
}
