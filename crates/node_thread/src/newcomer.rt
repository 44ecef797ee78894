//! A thread that comes from another node.

ghost use Rattle.std.specs.Prelude.{◌≡◌, IfOk};
ghost use Rattle.pack_thread.specs.Threads.{thread_of};
ghost use Rattle.run_trace.specs.Machine.{is_unserving};
ghost use Rattle.node_thread.specs.Newcomers.{newcomer_of};

use crate::thread::Thread;
use basics::NoMemory;
use lrpc::Duty;
use pack_thread::{Baggage, Packed};
use slot_space::Tid;
use std::alloc::Global;

/// A thread that comes: its name, whether it has made no remote call and serves none, and what it will be here.
#[derive(Drop)]
pub struct Newcomer {
    pub tid: Tid,
    pub unserving: bool,
    pub thread: Thread,
}

/// It has made no remote call, and serves none.
fn is_unserving(baggage: &Baggage) -> bool
    ensures { result ≡ is_unserving (thread_of baggage.now) }
{
    if baggage.calls != 0 {
        return false;
    }
    match baggage.duty {
        Duty::None => true,
        _ => false,
    }
}

impl Newcomer {
    /// The thread of a packet, with the blocks that came.
    pub fn open(alloc: Global, packed: Packed) -> Result<Newcomer, NoMemory>
        ensures { IfOk result (λ n. n ≡ newcomer_of packed) }
    {
        let baggage = packed.open(alloc)?;
        let tid = baggage.tid;
        let unserving = is_unserving(&baggage);
        let thread = Thread::unpack(baggage);
        Ok(Newcomer {
            tid,
            unserving,
            thread,
        })
    }
}
