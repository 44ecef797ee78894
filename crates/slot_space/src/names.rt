//! The names by which nodes, slots and threads are told apart, and the replies of the library.

ghost use Rattle.std.specs.Prelude.{◌≡◌};
ghost use Rattle.std.specs.Ordering.{nat_cmp, ordering_then};
ghost use Rattle.slot_space.specs.Replies.{reply_code, tid_value};

use std::marker::Model;

/// A node's number, below the limit of nodes. Contracts see the number.
#[derive(Clone, Copy, Debug, PartialEq, Eq, PartialOrd, Ord)]
pub struct NodeNo(pub u8);

impl Model for NodeNo {
    ghost use Rattle.std.specs.Prelude.{ℕ};
    ghost use Rattle.std.specs.Coded.{coded_ℕ};

    ghost Value = { ℕ };

    ghost coded = { coded_ℕ };

    ghost view = { λ n. n.0 };

    ghost inverse = { λ n. record { 0 = n } };
}

/// A slot's number, below the limit of slots. Contracts see the number.
#[derive(Clone, Copy, Debug, PartialEq, Eq, PartialOrd, Ord)]
pub struct SlotNo(pub u16);

impl Model for SlotNo {
    ghost use Rattle.std.specs.Prelude.{ℕ};
    ghost use Rattle.std.specs.Coded.{coded_ℕ};

    ghost Value = { ℕ };

    ghost coded = { coded_ℕ };

    ghost view = { λ s. s.0 };

    ghost inverse = { λ n. record { 0 = n } };
}

/// A thread's name: the node where it was born, and how many were born there before it.
#[derive(Clone, Copy, Debug, PartialEq, Eq, PartialOrd, Ord)]
pub struct Tid {
    pub home: NodeNo,
    pub seq: u32,
}

impl Tid {
    /// The name as a guest has it: home * 2^32 + seq.
    pub fn value(self) -> u64
        ensures { result ≡ tid_value self }
    {
        self.home.0 as u64 * 0x1_0000_0000 + self.seq as u64
    }
}

/// Threads' names are ordered by their home, and then by how many were born there before.
pub fn names_in_order()
    ensures { (a b : Tid) → ⟦<Tid as Ord>⟧.cmp a b ≡ ordering_then (nat_cmp a.home b.home) (nat_cmp a.seq b.seq) }
{}

/// What the library answers to a call.
#[derive(Clone, Copy, Debug, PartialEq, Eq)]
pub enum Reply {
    Value(u64),
    BadArgument,
    NoSuch,
    NotHere,
    Full,
    Taken,
    NoService,
    TooLong,
}

impl Reply {
    /// The reply as a0 has it: the value, or the two's complement of -1 for `BadArgument` to -7 for `TooLong`.
    pub fn code(&self) -> u64
        ensures { result ≡ reply_code self.now }
    {
        match self {
            Reply::Value(value) => *value,
            Reply::BadArgument => u64::MAX,
            Reply::NoSuch => u64::MAX - 1,
            Reply::NotHere => u64::MAX - 2,
            Reply::Full => u64::MAX - 3,
            Reply::Taken => u64::MAX - 4,
            Reply::NoService => u64::MAX - 5,
            Reply::TooLong => u64::MAX - 6,
        }
    }
}
