//! The block layer of one thread.

ghost use Rattle.std.specs.Prelude.{◌≡◌, ℕ, ◌+◌, ◌≤◌, ◌^◌, [], OnOk, OnErr, IfOk, OnSome, IfNone, IsTrue};
ghost use Rattle.std.specs.Option.{SomeIff};
ghost use Rattle.slot_space.specs.Limits.{slot_limit, slots_len};
ghost use Rattle.slot_space.specs.Sets.{IsSlotSet};
ghost use Rattle.iso_blocks.specs.Heap.{Heap, rounded, IsLowestFit, place, placed, with_slots, starts_at, emptied, freed, IsSound};

use crate::layout::Layout;
use crate::{check, space};
use basics::NoMemory;
use slot_space::{SlotNo, SlotSet};
use std::alloc::Global;
use std::marker::Model;

/// The blocks of a thread. Contracts see the live blocks and the heap slots, both ascending.
#[derive(Drop)]
pub struct Blocks {
    layout: Layout,
}

impl Model for Blocks {
    ghost use Rattle.iso_blocks.specs.Heap.{Heap};
    ghost use Rattle.iso_blocks.specs.Kept.{heap_of, IsKept};

    ghost Value = { Heap };

    ghost view = { λ b. heap_of b.layout };

    ghost invariant = { λ b. IsKept b.layout };
}

impl Blocks {
    /// No slot and no block.
    pub fn new(alloc: Global) -> Blocks
        ensures { result ≡ record { live = []; slots = [] } }
    {
        Blocks {
            layout: Layout::new(alloc),
        }
    }

    /// The lowest address at which a block of at least `n` bytes fits. None exactly where there is none.
    #[tactic(auto, using(crate::proofs::Place::place_is))]
    pub fn place_of(&self, n: u64) -> Option<u64>
        requires some { 1 ≤ n }
        requires few { n ≤ slots_len }
        ensures { result ≡ place self.now (rounded n) }
    {
        self.layout.lowest(space::rounded(n))
    }

    /// Places a block of at least `n` bytes at the lowest address at which it fits. None exactly where there is none.
    #[tactic(auto, using(crate::proofs::Place::place_result))]
    pub fn place(&mut self, n: u64) -> Result<Option<u64>, NoMemory>
        requires some { 1 ≤ n }
        requires few { n ≤ slots_len }
        ensures lowest { IfOk result (IsLowestFit self.old (rounded n)) }
        ensures place { IfOk result (λ address. address ≡ place self.old (rounded n)) }
        ensures ok { IfOk result (λ address. self.new ≡ placed self.old (rounded n) address) }
        ensures err { OnErr result (self.new ≡ self.old) }
        ensures sound { IsSound self.new }
    {
        self.layout.place(space::rounded(n))
    }

    /// Takes `count` slots from `first` on into the heap.
    pub fn add_slots(&mut self, first: SlotNo, count: u16) -> Result<(), NoMemory>
        requires { first + count ≤ slot_limit }
        ensures ok { OnOk result (self.new ≡ with_slots self.old first count) }
        ensures err { OnErr result (self.new ≡ self.old) }
        ensures sound { IsSound self.new }
    {
        self.layout.add_slots(first.0, count)
    }

    /// The slots that a free of the block at the address would give back. None exactly where no live block starts there.
    pub fn empties(&self, address: u64) -> Option<SlotSet>
        ensures { SomeIff result (IsTrue (starts_at self.now.live address)) (emptied self.now address) }
    {
        self.layout.empties(address)
    }

    /// Frees the block at the address, and gives back the heap slots that no live block meets then. None exactly where no live block starts there.
    pub fn free(&mut self, address: u64) -> Option<SlotSet>
        ensures given { SomeIff result (IsTrue (starts_at self.old.live address)) (emptied self.old address) }
        ensures some { OnSome result (self.new ≡ freed self.old address) }
        ensures none { IfNone result (self.new ≡ self.old) }
        ensures sound { IsSound self.new }
    {
        self.layout.free(address)
    }

    /// The heap slots.
    pub fn heap_slots(&self) -> SlotSet
        ensures slots { result ≡ self.now.slots }
        ensures proper { IsSlotSet result }
        ensures sound { IsSound self.now }
    {
        self.layout.heap
    }

    /// The live blocks, ascending by address, each its address and its size.
    pub fn live(&self) -> &[(u64, u64)]
        ensures blocks { result.now ≡ self.now.live }
        ensures sound { IsSound self.now }
    {
        &self.layout.live
    }

    /// These blocks in these heap slots. None exactly where a block isn't one in the slots, or begins before the end of the one before.
    pub fn rebuild(
        alloc: Global,
        slots: &SlotSet,
        live: &[(u64, u64)],
    ) -> Result<Option<Blocks>, NoMemory>
        ensures { let heap : Heap = record { live = live.now; slots = slots.now } in IfOk result (λ made. SomeIff made (IsSound heap) heap) }
    {
        let mut layout = Layout::new(alloc);
        layout.take_slots(slots)?;
        if !check::are_sound(&layout.heap, live) {
            return Ok(None);
        }
        layout.occupy_all(live)?;
        Ok(Some(Blocks { layout }))
    }
}
