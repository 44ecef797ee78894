//! Reads and writes of a thread: the bytes of the image and of the slots that it holds.
//!
//! An access inside one held slot takes one look-up, every other goes byte by byte; both are the same definition.

ghost use Rattle.std.specs.Prelude.{◌≡◌, ◌≤◌, ◌<◌, ◌+◌, ◌^◌, ℕ, List, length, Some, None, IsTrue, IfSome, MatchBool};
ghost use Rattle.std.specs.Option.{option_map};
ghost use Rattle.std.specs.Int.{from_le_bytes, w64};
ghost use Rattle.rv_step.specs.Memory.{slots_of, place_of, held_byte};
ghost use Rattle.rv_step.specs.Access.{byte_at, readable, read, with_byte, writable, written};

use super::block::{set_slot_byte, set_slot_bytes, slot_byte};
use super::{GuestMem, place_in};
use rv_inst::Image;
use slot_space::{SLOT_SIZE, SLOTS_END, SLOTS_START};

impl GuestMem {
    /// Where the slot of an address stands.
    #[inline(always)]
    fn place(&self, address: u64) -> Option<usize>
        ensures value { result ≡ place_of self.now.0 address }
    {
        if address < SLOTS_START || address >= SLOTS_END {
            return None;
        }
        let slot = (address - SLOTS_START) / SLOT_SIZE;
        place_in(&self.held, slot)
    }

    /// The byte at an address of a held slot.
    #[tactic(auto, unfolding(crate::specs::Memory::held_byte))]
    fn held_byte(&self, address: u64) -> Option<u8>
        ensures { result ≡ held_byte self.now.0 address }
    {
        let place = self.place(address)?;
        Some(slot_byte(&self.held[place].block, (address % SLOT_SIZE) as u16))
    }

    /// The byte that a thread reads at an address: a held slot's, else the image's.
    fn byte(&self, image: &Image, address: u64) -> Option<u8>
        ensures { result ≡ byte_at image.now.bytes self.now.0 address }
    {
        match self.held_byte(address) {
            Some(byte) => Some(byte),
            None => image.byte(address),
        }
    }

    /// Whether each of `len` bytes from an address on is readable.
    #[tactic(auto, using(crate::proofs::AccessLemmas::access_steps))]
    fn readable(&self, image: &Image, address: u64, len: usize) -> bool
        ensures exact { result ≡ readable image.now.bytes self.now.0 address len }
        ensures fits { IsTrue result → address + len ≤ 2 ^ 64 }
    {
        for at in 0..len {
            if at as u64 > u64::MAX - address {
                return false;
            }
            if self.byte(image, address + at as u64).is_none() {
                return false;
            }
        }
        true
    }

    /// The bytes from an address on, where one held slot has all of them.
    #[inline(always)]
    fn inside(&self, address: u64, len: usize) -> Option<&[u8]>
        ensures bytes { IfSome result (λ bytes. (image : List ℕ) → read image self.now.0 address len ≡ Some bytes.now) }
        ensures len { IfSome result (λ bytes. length bytes.now ≡ len) }
    {
        let place = self.place(address)?;
        let at = (address % SLOT_SIZE) as usize;
        if len > SLOT_SIZE as usize - at {
            return None;
        }
        Some(&self.held[place].block.bytes()[at..at + len])
    }

    /// Reads bytes from an address on, one after another: false where one isn't readable.
    #[inline(never)]
    #[tactic(auto, using(crate::proofs::AccessLemmas::access_steps))]
    fn read_across(&self, image: &Image, address: u64, into: &mut [u8]) -> bool
        ensures { MatchBool result (read image.now.bytes self.now.0 address (length into.old) ≡ Some into.new)
            ((read image.now.bytes self.now.0 address (length into.old) ≡ None) × (into.new ≡ into.old)) }
    {
        if !self.readable(image, address, into.len()) {
            return false;
        }
        for at in 0..into.len() {
            into[at] = self.byte(image, address + at as u64).unwrap_or(0);
        }
        true
    }

    /// Reads bytes from an address on. False where one of them isn't readable; then nothing has changed.
    #[inline(always)]
    pub fn read_bytes(&self, image: &Image, address: u64, into: &mut [u8]) -> bool
        ensures { MatchBool result (read image.now.bytes self.now.0 address (length into.old) ≡ Some into.new)
            ((read image.now.bytes self.now.0 address (length into.old) ≡ None) × (into.new ≡ into.old)) }
    {
        if let Some(bytes) = self.inside(address, into.len()) {
            into.copy_from_slice(bytes);
            return true;
        }
        self.read_across(image, address, into)
    }

    /// The number of `len` bytes from an address on, the lowest first. None where one of them isn't readable.
    #[inline(always)]
    pub fn read_number(&self, image: &Image, address: u64, len: usize) -> Option<u64>
        requires { len ≤ 8 }
        ensures { result ≡ option_map (from_le_bytes w64) (read image.now.bytes self.now.0 address len) }
    {
        let mut bytes = [0; 8];
        if !self.read_bytes(image, address, &mut bytes[..len]) {
            return None;
        }
        Some(u64::from_le_bytes(bytes))
    }

    #[tactic(auto, unfolding(crate::specs::Access::with_byte))]
    fn set_byte(&mut self, address: u64, byte: u8)
        ensures byte { self.new ≡ (with_byte self.old.0 address byte, self.old.1) }
        ensures slots { slots_of self.new.0 ≡ slots_of self.old.0 }
    {
        if let Some(place) = self.place(address) {
            set_slot_byte(
                &mut self.held[place].block,
                (address % SLOT_SIZE) as u16,
                byte,
            );
        }
    }

    /// Whether each of `len` bytes from an address on is writable.
    #[tactic(auto, using(crate::proofs::AccessLemmas::access_steps))]
    fn writable(&self, address: u64, len: usize) -> bool
        ensures exact { result ≡ writable self.now.0 address len }
        ensures fits { IsTrue result → address + len ≤ 2 ^ 64 }
    {
        for at in 0..len {
            if at as u64 > u64::MAX - address {
                return false;
            }
            if self.held_byte(address + at as u64).is_none() {
                return false;
            }
        }
        true
    }

    /// Writes bytes from an address on, where one held slot has all of those places: false where none has.
    #[inline(always)]
    fn write_inside(&mut self, address: u64, from: &[u8]) -> bool
        ensures written { MatchBool result ((written self.old.0 address from.now ≡ Some self.new.0) × (self.new.1 ≡ self.old.1))
            (self.new ≡ self.old) }
        ensures slots { slots_of self.new.0 ≡ slots_of self.old.0 }
    {
        let Some(place) = self.place(address) else {
            return false;
        };
        let at = (address % SLOT_SIZE) as usize;
        if from.len() > SLOT_SIZE as usize - at {
            return false;
        }
        set_slot_bytes(&mut self.held[place].block, at, from);
        true
    }

    /// Writes bytes from an address on, one after another: false where one isn't writable, and then none is written.
    #[inline(never)]
    #[tactic(auto, using(crate::proofs::AccessLemmas::access_steps))]
    fn write_across(&mut self, address: u64, from: &[u8]) -> bool
        ensures written { MatchBool result ((written self.old.0 address from.now ≡ Some self.new.0) × (self.new.1 ≡ self.old.1))
            ((written self.old.0 address from.now ≡ None) × (self.new ≡ self.old)) }
        ensures slots { slots_of self.new.0 ≡ slots_of self.old.0 }
    {
        if !self.writable(address, from.len()) {
            return false;
        }
        for at in 0..from.len() {
            self.set_byte(address + at as u64, from[at]);
        }
        true
    }

    /// Writes bytes from an address on. False where one of them isn't writable; then none is written.
    #[inline(always)]
    pub fn write_bytes(&mut self, address: u64, from: &[u8]) -> bool
        ensures written { MatchBool result ((written self.old.0 address from.now ≡ Some self.new.0) × (self.new.1 ≡ self.old.1))
            ((written self.old.0 address from.now ≡ None) × (self.new ≡ self.old)) }
        ensures slots { slots_of self.new.0 ≡ slots_of self.old.0 }
    {
        if self.write_inside(address, from) {
            return true;
        }
        self.write_across(address, from)
    }
}
