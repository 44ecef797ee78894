//! Names of threads, as guests have them: each is one number.

ghost use Rattle.std.specs.Prelude.{◌≡◌, ◌<◌, ◌/◌, ◌^◌};
ghost use Rattle.run_trace.specs.Names.{tid_of};

use slot_space::{NodeNo, Tid};

/// How many numbers stand for names of one home, and of one node's semaphores.
pub(crate) const NAMES: u64 = 0x1_0000_0000;

/// The home of the name that a number stands for, or the node of a semaphore's name.
pub(crate) fn home_of(name: u64) -> u64
    ensures { result ≡ name / 2 ^ 32 }
{
    name / NAMES
}

/// The name that a number stands for.
pub(crate) fn tid_of(name: u64) -> Tid
    requires { name / 2 ^ 32 < 256 }
    ensures { result ≡ tid_of name }
{
    Tid {
        home: NodeNo(home_of(name) as u8),
        seq: (name % NAMES) as u32,
    }
}
