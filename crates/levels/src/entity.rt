//! What stands on a run list, and where.

ghost use Rattle.std.specs.Prelude.{◌≡◌};
ghost use Rattle.levels.specs.Rows.{is_entity};

use slot_space::Tid;

/// What stands on a run list: a thread, or the bubble of that number.
#[derive(Clone, Copy, Debug, PartialEq, Eq)]
pub enum Entity {
    Thread(Tid),
    Bubble(u32),
}

/// Where an entity stands: its list, its priority, and how many arrived before it.
#[derive(Clone, Copy, Debug, PartialEq, Eq)]
pub struct Place {
    pub list: u8,
    pub priority: u8,
    pub arrival: u64,
}

impl Entity {
    /// They are one.
    pub fn is(&self, other: &Entity) -> bool
        ensures { result ≡ is_entity self.now other.now }
    {
        match (self, other) {
            (Entity::Thread(a), Entity::Thread(b)) => a.home.0 == b.home.0 && a.seq == b.seq,
            (Entity::Bubble(a), Entity::Bubble(b)) => *a == *b,
            (Entity::Thread(_), Entity::Bubble(_)) => false,
            (Entity::Bubble(_), Entity::Thread(_)) => false,
        }
    }
}
