//! The parts of the block layer, and what each step does to all of them.

ghost use Rattle.std.specs.Prelude.{◌≡◌, ℕ, ◌+◌, ◌-◌, ◌*◌, ◌%◌, ◌<◌, ◌≤◌, ◌^◌, true, false, List, [], ◌∷◌, Some, None, OnOk, OnErr, IfOk, IfNone, OnSome, MatchOption, length, slice_index_or, vec_len, vec_capacity};
ghost use Rattle.slot_space.specs.Limits.{slot_limit};
ghost use Rattle.slot_space.specs.Sets.{has, insert, union, minus, run};
ghost use Rattle.iso_blocks.specs.Bytes.{is_met};
ghost use Rattle.iso_blocks.specs.Heap.{Heap, Fits, IsLowestFit, placed, with_slots, without, starts_at, emptied, freed, IsSound};
ghost use Rattle.iso_blocks.specs.Kept.{heap_of, holes_to_be, IsKept};

use crate::{holes, live, space};
use basics::NoMemory;
use slot_space::{SLOT_SIZE, SlotNo, SlotSet};
use std::alloc::Global;

/// The live blocks, the holes between them, the heap slots, those of them that a block meets, and how many heap slots there are.
#[derive(Drop)]
pub struct Layout {
    pub live: Vec<(u64, u64)>,
    pub holes: Vec<(u64, u64)>,
    pub heap: SlotSet,
    pub met: SlotSet,
    pub slots: usize,
}

impl Layout {
    /// No slot and no block.
    pub fn new(alloc: Global) -> Layout
        ensures kept { IsKept result }
        ensures empty { heap_of result ≡ record { live = []; slots = [] } }
    {
        Layout {
            live: Vec::new(alloc),
            holes: Vec::new(alloc),
            heap: SlotSet::empty(),
            met: SlotSet::empty(),
            slots: 0,
        }
    }

    /// Makes room for `more` holes beyond those that frees can make.
    fn reserve(&mut self, more: usize) -> Result<(), NoMemory>
        requires kept { IsKept self.old }
        requires few { more ≤ 2 ^ 14 }
        ensures kept { IsKept self.new }
        ensures same { heap_of self.new ≡ heap_of self.old }
        ensures room { OnOk result (holes_to_be self.new + more ≤ vec_capacity self.new.holes) }
    {
        self.holes.reserve(self.live.len() + self.slots + more)?;
        Ok(())
    }

    /// Makes the free bytes from `address` on a live block.
    pub fn occupy(&mut self, address: u64, size: u64) -> Result<(), NoMemory>
        requires kept { IsKept self.old }
        requires some { 16 ≤ size }
        requires whole { size % 16 ≡ 0 }
        requires fits { Fits (heap_of self.old) size address }
        ensures kept { IsKept self.new }
        ensures ok { OnOk result (heap_of self.new ≡ placed (heap_of self.old) size (Some address)) }
        ensures err { OnErr result (heap_of self.new ≡ heap_of self.old) }
    {
        self.reserve(2)?;
        let k = live::starting_before(&self.live, address);
        self.live.insert(k, (address, size))?;
        let end = address + size;
        holes::occupy(&mut self.holes, address, end);
        let (first, count) = space::slots_of(address, size);
        self.met.insert_run(SlotNo(first), count);
        Ok(())
    }

    /// The lowest address at which a block fits.
    pub fn lowest(&self, size: u64) -> Option<u64>
        requires kept { IsKept self.now }
        requires some { 16 ≤ size }
        ensures { IsLowestFit (heap_of self.now) size result }
    {
        match holes::first_fit(&self.holes, size) {
            None => None,
            Some(k) => Some(self.holes[k].0),
        }
    }

    /// Places a block at the lowest address at which it fits.
    pub fn place(&mut self, size: u64) -> Result<Option<u64>, NoMemory>
        requires kept { IsKept self.old }
        requires some { 16 ≤ size }
        requires whole { size % 16 ≡ 0 }
        ensures kept { IsKept self.new }
        ensures lowest { IfOk result (IsLowestFit (heap_of self.old) size) }
        ensures ok { IfOk result (λ place. heap_of self.new ≡ placed (heap_of self.old) size place) }
        ensures err { OnErr result (heap_of self.new ≡ heap_of self.old) }
    {
        match self.lowest(size) {
            None => Ok(None),
            Some(address) => {
                self.occupy(address, size)?;
                Ok(Some(address))
            }
        }
    }

    /// Takes the slot into the heap, where it isn't there yet. There is room for two more holes.
    fn add_slot(&mut self, slot: u16)
        requires kept { IsKept self.old }
        requires small { slot < slot_limit }
        requires room { holes_to_be self.old + 2 ≤ vec_capacity self.old.holes }
        ensures kept { IsKept self.new }
        ensures heap { heap_of self.new ≡ record { live = self.old.live.items; slots = insert slot self.old.heap } }
        ensures added { holes_to_be self.new ≤ holes_to_be self.old + 2 }
        ensures capacity { vec_capacity self.old.holes ≤ vec_capacity self.new.holes }
    {
        if self.heap.contains(SlotNo(slot)) {
            return;
        }
        let start = space::base(slot);
        holes::release(&mut self.holes, start, start + SLOT_SIZE);
        self.heap.insert(SlotNo(slot));
        self.slots += 1;
    }

    /// Gives up a heap slot that no block meets.
    fn drop_slot(&mut self, slot: u16)
        requires kept { IsKept self.old }
        requires there { has slot self.old.heap ≡ true }
        requires unmet { is_met self.old.live.items slot ≡ false }
        ensures kept { IsKept self.new }
        ensures heap { heap_of self.new ≡ record { live = self.old.live.items; slots = minus self.old.heap (slot ∷ []) } }
    {
        let start = space::base(slot);
        holes::occupy(&mut self.holes, start, start + SLOT_SIZE);
        self.heap.remove(SlotNo(slot));
        self.slots -= 1;
    }

    /// Takes the slots from `first` to `first + count - 1` into the heap.
    pub fn add_slots(&mut self, first: u16, count: u16) -> Result<(), NoMemory>
        requires kept { IsKept self.old }
        requires within { first + count ≤ slot_limit }
        ensures kept { IsKept self.new }
        ensures ok { OnOk result (heap_of self.new ≡ with_slots (heap_of self.old) first count) }
        ensures err { OnErr result (heap_of self.new ≡ heap_of self.old) }
    {
        self.reserve(2 * count as usize)?;
        for slot in first..first + count {
            self.add_slot(slot);
        }
        Ok(())
    }

    /// Gives up heap slots that no block meets.
    fn drop_slots(&mut self, slots: &SlotSet)
        requires kept { IsKept self.old }
        requires there { (s : ℕ) → has s slots.now ≡ true → has s self.old.heap ≡ true }
        requires unmet { (s : ℕ) → has s slots.now ≡ true → is_met self.old.live.items s ≡ false }
        ensures kept { IsKept self.new }
        ensures heap { heap_of self.new ≡ record { live = self.old.live.items; slots = minus self.old.heap slots.now } }
    {
        let mut from = 0;
        while let Some(slot) = slots.next_from(from) {
            self.drop_slot(slot.0);
            from = slot.0 + 1;
        }
    }

    /// The slots that some block meets other than the one at `k`.
    fn met_without(&self, k: usize) -> SlotSet
        requires kept { IsKept self.now }
        requires within { k < length self.now.live.items }
        ensures { (b : ℕ × ℕ) → b ≡ slice_index_or self.now.live.items k b → (s : ℕ) → has s result ≡ is_met (without self.now.live.items b.0) s }
    {
        let (address, size) = self.live[k];
        let (first, count) = space::slots_of(address, size);
        let (from, end) = space::own_slots(
            first,
            count,
            live::end_before(&self.live, k),
            live::start_after(&self.live, k),
        );
        let mut met = self.met;
        if from < end {
            met.remove_run(SlotNo(from), end - from);
        }
        met
    }

    /// Makes the bytes of the block at `k` free.
    fn lift(&mut self, k: usize)
        requires kept { IsKept self.old }
        requires within { k < length self.old.live.items }
        ensures kept { IsKept self.new }
        ensures heap { (b : ℕ × ℕ) → b ≡ slice_index_or self.old.live.items k b → heap_of self.new ≡ record { live = without self.old.live.items b.0; slots = self.old.heap } }
    {
        let met = self.met_without(k);
        let (address, size) = self.live.remove(k);
        holes::release(&mut self.holes, address, address + size);
        self.met = met;
    }

    /// The slots that a free of the block at the address would give back.
    pub fn empties(&self, address: u64) -> Option<SlotSet>
        requires { IsKept self.now }
        ensures { MatchOption result (starts_at self.now.live.items address ≡ false)
            (λ slots. (starts_at self.now.live.items address ≡ true) × (slots ≡ emptied (heap_of self.now) address)) }
    {
        let k = live::find(&self.live, address)?;
        let mut slots = self.heap;
        slots.remove_all(&self.met_without(k));
        Some(slots)
    }

    /// Frees the block at the address, and gives back the slots that no block meets then.
    pub fn free(&mut self, address: u64) -> Option<SlotSet>
        requires { IsKept self.old }
        ensures kept { IsKept self.new }
        ensures given { MatchOption result (starts_at self.old.live.items address ≡ false)
            (λ slots. (starts_at self.old.live.items address ≡ true) × (slots ≡ emptied (heap_of self.old) address)) }
        ensures none { IfNone result (heap_of self.new ≡ heap_of self.old) }
        ensures some { OnSome result (heap_of self.new ≡ freed (heap_of self.old) address) }
    {
        let k = live::find(&self.live, address)?;
        self.lift(k);
        let mut slots = self.heap;
        slots.remove_all(&self.met);
        self.drop_slots(&slots);
        Some(slots)
    }

    /// Takes the slots into the heap, which has none yet.
    pub fn take_slots(&mut self, slots: &SlotSet) -> Result<(), NoMemory>
        requires kept { IsKept self.old }
        requires empty { heap_of self.old ≡ record { live = []; slots = [] } }
        ensures kept { IsKept self.new }
        ensures ok { OnOk result (heap_of self.new ≡ record { live = []; slots = slots.now }) }
    {
        let mut from = 0;
        while let Some(slot) = slots.next_from(from) {
            self.add_slots(slot.0, 1)?;
            from = slot.0 + 1;
        }
        Ok(())
    }

    /// Makes blocks that can stand in the heap slots live, where none is live yet.
    pub fn occupy_all(&mut self, live: &[(u64, u64)]) -> Result<(), NoMemory>
        requires kept { IsKept self.old }
        requires empty { self.old.live.items ≡ [] }
        requires sound { IsSound (record { live = live.now; slots = self.old.heap }) }
        ensures kept { IsKept self.new }
        ensures ok { OnOk result (heap_of self.new ≡ record { live = live.now; slots = self.old.heap }) }
    {
        for block in live {
            let (address, size) = *block;
            self.occupy(address, size)?;
        }
        Ok(())
    }
}
