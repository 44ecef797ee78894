//! Sets of slots.

ghost use Rattle.std.specs.Prelude.{◌≡◌, ℕ, ◌+◌, ◌<◌, ◌≤◌, List, [], ◌∷◌, IfOk, IsTrue, ◌↔◌, All, nat_eq};
ghost use Rattle.std.specs.Cmp.Lexicographic.{pointwise, nat_list_eq_equiv};
ghost use Rattle.std.specs.Cmp.{partial_equiv_from_equiv};
ghost use Rattle.slot_space.specs.Sets.{has, insert, union, minus, meets, run, least_from, lowest_run, IsSlotSet};
ghost use Rattle.slot_space.specs.Limits.{slot_limit};
ghost use Rattle.slot_space.specs.Addresses.{starting_slots};

use crate::bits;
use crate::geometry::{Geometry, SLOT_LIMIT};
use crate::names::{NodeNo, SlotNo};
use basics::NoMemory;
use std::alloc::Global;
use std::marker::Model;
use std::mem;

/// A set of slots, one bit for each that there can be. Contracts see the ascending list of its members.
#[derive(Clone, Copy, Debug)]
pub struct SlotSet {
    words: [u64; 64],
}

impl Model for SlotSet {
    ghost use Rattle.std.specs.Prelude.{ℕ, List};
    ghost use Rattle.slot_space.specs.Words.{members, words_of, AreSlotWords};
    ghost use Rattle.slot_space.specs.WordsBack.{words_back};

    ghost Value = { List ℕ };

    ghost view = { λ s. members s.words };

    ghost invariant = { λ s. AreSlotWords s.words };

    ghost inverse = { λ xs. record { words = words_of 64 xs } };

    ghost inverse_ok = { λ s h. words_back s.words h (λ words. record { words = words }) };
}

impl SlotSet {
    /// No slot.
    pub fn empty() -> SlotSet
        ensures { result ≡ [] }
    {
        SlotSet { words: [0; 64] }
    }

    /// The slots that start with this node.
    pub fn starting(geometry: &Geometry, node: NodeNo) -> SlotSet
        ensures slots { result ≡ starting_slots geometry.now.nodes geometry.now.slots node }
        ensures proper { IsSlotSet result }
    {
        let mut set = SlotSet::empty();
        for s in 0..geometry.slots {
            if s % geometry.nodes as u16 == node.0 as u16 {
                set.insert(SlotNo(s));
            }
        }
        set
    }

    /// The set of these slots.
    pub fn of(slots: &[SlotNo]) -> SlotSet
        requires { All (λ s. s < slot_limit) slots.now }
        ensures members { result ≡ union slots.now [] }
        ensures proper { IsSlotSet result }
    {
        let mut set = SlotSet::empty();
        for s in slots {
            set.insert(*s);
        }
        set
    }

    /// Whether the slot is a member.
    pub fn contains(&self, s: SlotNo) -> bool
        ensures member { result ≡ has s self.now }
        ensures proper { IsSlotSet self.now }
    {
        let place = s.0 as usize;
        place < SLOT_LIMIT as usize && bits::is_set(&self.words, place)
    }

    /// Whether no slot is a member.
    pub fn is_empty(&self) -> bool
        ensures { IsTrue result ↔ (self.now ≡ []) }
    {
        self.next_from(0).is_none()
    }

    /// Adds the slot.
    pub fn insert(&mut self, s: SlotNo)
        requires { s < slot_limit }
        ensures { self.new ≡ insert s self.old }
    {
        bits::set_bit(&mut self.words, s.0 as usize);
    }

    /// Takes the slot out, where it is a member.
    pub fn remove(&mut self, s: SlotNo)
        ensures { self.new ≡ minus self.old (s ∷ []) }
    {
        let place = s.0 as usize;
        if place < SLOT_LIMIT as usize {
            bits::clear_bit(&mut self.words, place);
        }
    }

    /// Adds the slots from `first` to `first + count - 1`.
    pub fn insert_run(&mut self, first: SlotNo, count: u16)
        requires { first + count ≤ slot_limit }
        ensures { self.new ≡ union self.old (run first count) }
    {
        bits::write_run(&mut self.words, first.0 as usize, count as usize, true);
    }

    /// Takes the slots from `first` to `first + count - 1` out.
    pub fn remove_run(&mut self, first: SlotNo, count: u16)
        requires { first + count ≤ slot_limit }
        ensures { self.new ≡ minus self.old (run first count) }
    {
        bits::write_run(&mut self.words, first.0 as usize, count as usize, false);
    }

    /// Gives all members out, and is empty then.
    pub fn take_all(&mut self) -> SlotSet
        ensures taken { result ≡ self.old }
        ensures left { self.new ≡ [] }
    {
        mem::replace(self, SlotSet::empty())
    }

    /// Adds the members of the other set.
    pub fn union_with(&mut self, other: &SlotSet)
        ensures { self.new ≡ union self.old other.now }
    {
        bits::set_all(&mut self.words, &other.words);
    }

    /// Takes the members of the other set out.
    pub fn remove_all(&mut self, other: &SlotSet)
        ensures { self.new ≡ minus self.old other.now }
    {
        bits::clear_all(&mut self.words, &other.words);
    }

    /// Whether some slot is a member of both.
    pub fn meets(&self, other: &SlotSet) -> bool
        ensures { result ≡ meets self.now other.now }
    {
        bits::have_common(&self.words, &other.words)
    }

    /// The least slot that starts `count` consecutive members. None exactly where there is none.
    pub fn lowest_run(&self, count: u16) -> Option<SlotNo>
        requires { 0 < count }
        ensures { result ≡ lowest_run (λ s. has s self.now) count slot_limit }
    {
        match bits::lowest_run(&self.words, count as usize) {
            Some(place) => Some(SlotNo(place as u16)),
            None => None,
        }
    }

    /// The least member from this slot on.
    pub fn next_from(&self, from: u16) -> Option<SlotNo>
        ensures least { result ≡ least_from from self.now }
        ensures proper { IsSlotSet self.now }
    {
        match bits::first_from(&self.words, from as usize) {
            Some(place) => Some(SlotNo(place as u16)),
            None => None,
        }
    }

    /// The members, ascending.
    pub fn members(&self, alloc: Global) -> Result<Vec<SlotNo>, NoMemory>
        ensures { IfOk result (λ slots. slots.items ≡ self.now) }
    {
        let mut slots = Vec::new(alloc);
        let mut from = 0;
        while let Some(s) = self.next_from(from) {
            slots.push(s)?;
            from = s.0 + 1;
        }
        Ok(slots)
    }
}

impl PartialEq for SlotSet {
    ghost eq = { pointwise nat_eq };

    ghost laws = { partial_equiv_from_equiv nat_list_eq_equiv };

    fn eq(&self, other: &SlotSet) -> bool {
        self.words == other.words
    }
}

impl Eq for SlotSet {
    ghost laws = { nat_list_eq_equiv };
}
