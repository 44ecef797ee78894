//! How a thread ends.

ghost use Rattle.std.specs.Prelude.{◌≡◌};
ghost use Rattle.marcel_core.specs.Homes.{end_reply, end_value};

use rv_step::FaultKind;
use slot_space::Reply;

/// The end of a thread.
#[derive(Clone, Copy, PartialEq, Eq)]
pub enum End {
    /// It called exit, or returned from its first function, with this value.
    Exit(u64),
    /// The instruction at the pc couldn't be done.
    Fault { kind: FaultKind, pc: u64 },
}

impl End {
    /// What a joiner is told first: whether the thread has ended by a fault.
    pub fn reply(self) -> Reply
        ensures { result ≡ end_reply self }
    {
        match self {
            End::Exit(_) => Reply::Value(0),
            End::Fault { .. } => Reply::Value(1),
        }
    }

    /// What a joiner is told second: the value of the exit, or the number of the fault.
    pub fn value(self) -> u64
        ensures { result ≡ end_value self }
    {
        match self {
            End::Exit(value) => value,
            End::Fault { kind, pc: _ } => kind.number(),
        }
    }
}
