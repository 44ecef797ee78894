//! What a home keeps of a birth, and what it answers to a join and to a detach.

ghost use Rattle.std.specs.Prelude.{◌≡◌};
ghost use Rattle.marcel_core.specs.Homes.{detached_reply};

use crate::end::End;
use slot_space::{NodeNo, Reply, Tid};

/// A birth, as its home knows it.
#[derive(Clone, Copy)]
pub enum Birth {
    /// Its end isn't known here, and no thread waits for it.
    Lives,
    /// Its end isn't known here, and this thread on that node waits for it.
    Awaited(Tid, NodeNo),
    /// No thread may join it.
    Detached,
    /// It has ended, and nobody was told.
    Ended(End),
    /// It was joined to its end, or nobody will be told of its end.
    Over,
}

/// What a join is answered.
#[derive(Clone, Copy)]
pub enum Verdict {
    /// The end is known.
    Now(End),
    /// It waits for the end.
    Later,
    /// There is nothing to join.
    NoSuch,
    /// Another thread waits.
    Taken,
}

/// What a detach is answered.
#[derive(Clone, Copy)]
pub enum Detached {
    /// From now on no thread may join it.
    Done,
    /// There is nothing to detach.
    NoSuch,
    /// Another thread waits.
    Taken,
}

impl Detached {
    /// Its reply: 0 where it is done.
    pub fn reply(self) -> Reply
        ensures { result ≡ detached_reply self }
    {
        match self {
            Detached::Done => Reply::Value(0),
            Detached::NoSuch => Reply::NoSuch,
            Detached::Taken => Reply::Taken,
        }
    }
}
