//! How many nodes and slots there are, and where each slot stands.

ghost use Rattle.std.specs.Prelude.{◌≡◌, ℕ, ◌+◌, ◌*◌, ◌<◌, ◌≤◌, ◌↔◌, ◌⊎◌, None, IfSome, MatchOption};
ghost use Rattle.slot_space.specs.Limits.{node_limit, slot_limit};
ghost use Rattle.slot_space.specs.Addresses.{slot_base, HoldsAddress};

use crate::names::SlotNo;

/// The first address of slot 0.
pub const SLOTS_START: u64 = 0x1_0000_0000;

/// The bytes of one slot.
pub const SLOT_SIZE: u64 = 65536;

/// The most slots that there are.
pub const SLOT_LIMIT: u16 = 4096;

/// The address after the last of the most slots.
pub const SLOTS_END: u64 = SLOTS_START + SLOT_SIZE * SLOT_LIMIT as u64;

/// The most nodes that there are.
pub const NODE_LIMIT: u8 = 8;

/// How many nodes there are, and how many slots, which all nodes have together: at least one of each, and no more than the limits.
#[derive(Clone, Copy, Debug, PartialEq, Eq)]
pub struct Geometry {
    pub nodes: u8,
    pub slots: u16,
    pub ghost some_node: { 0 < nodes },
    pub ghost few_nodes: { nodes ≤ node_limit },
    pub ghost some_slot: { 0 < slots },
    pub ghost few_slots: { slots ≤ slot_limit },
}

impl Geometry {
    /// None exactly outside the limits.
    pub fn new(nodes: u8, slots: u16) -> Option<Geometry>
        ensures outside { (result ≡ None) ↔ ((nodes ≡ 0) ⊎ (node_limit < nodes) ⊎ (slots ≡ 0) ⊎ (slot_limit < slots)) }
        ensures inside { IfSome result (λ g. (g.nodes ≡ nodes) × (g.slots ≡ slots)) }
    {
        if nodes == 0 || nodes > NODE_LIMIT || slots == 0 || slots > SLOT_LIMIT {
            return None;
        }
        Some(Geometry { nodes, slots })
    }

    /// How many nodes.
    pub fn nodes(&self) -> u8
        ensures { result ≡ self.now.nodes }
    {
        self.nodes
    }

    /// How many slots.
    pub fn slots(&self) -> u16
        ensures { result ≡ self.now.slots }
    {
        self.slots
    }

    /// The first address of the slot.
    pub fn base(&self, s: SlotNo) -> u64
        ensures { result ≡ slot_base s }
    {
        SLOTS_START + SLOT_SIZE * s.0 as u64
    }

    /// The slot that holds the address. None exactly where there is none.
    pub fn slot_of(&self, address: u64) -> Option<SlotNo>
        ensures { MatchOption result ((s : ℕ) → s < self.now.slots → HoldsAddress s address → ⊥)
            (λ s. (s < self.now.slots) × HoldsAddress s address) }
    {
        if address < SLOTS_START {
            return None;
        }
        let s = (address - SLOTS_START) / SLOT_SIZE;
        if s >= self.slots as u64 {
            return None;
        }
        Some(SlotNo(s as u16))
    }
}
