//! A thread on its way.

ghost use Rattle.std.specs.Prelude.{◌≡◌, IfOk, IfErr};
ghost use Rattle.pack_thread.specs.Threads.{thread_of, IsThread, IsTyped};

use crate::baggage::Baggage;
use crate::error::UnpackError;
use crate::moving::{Moving, Rejoin};
use crate::rejoining::rejoin;
use crate::splitting::split;
use basics::NoMemory;
use std::alloc::Global;
use std::marker::Model;

/// A thread on its way: its fields and the blocks of its slots. Contracts see the thread.
#[derive(Drop)]
pub struct Packed {
    moving: Moving,
}

impl Model for Packed {
    ghost use Rattle.pack_thread.specs.Packed.{thread_in};
    ghost use Rattle.pack_thread.specs.Threads.{PackedThread};
    ghost use Rattle.pack_thread.specs.Moving.{text_of_moving, IsMovingOf};

    ghost Value = { PackedThread };

    ghost view = { λ p. thread_in (text_of_moving p.moving) };

    // Its text is that thread's, and its head ends before the slots' bytes.
    ghost invariant = { λ p. IsMovingOf p.moving (thread_in (text_of_moving p.moving)) };
}

impl Packed {
    /// A thread as it travels. Where there is no memory for it, the thread is handed back.
    pub fn of(alloc: Global, b: Baggage) -> Result<Packed, Baggage>
        requires { IsThread (thread_of b) }
        ensures thread { IfOk result (λ p. p ≡ thread_of b) }
        ensures back { IfErr result (λ same. same ≡ b) }
    {
        match split(alloc, b) {
            Ok(moving) => Ok(Packed { moving }),
            Err(same) => Err(same),
        }
    }

    /// The thread. The blocks of its slots are those that came.
    pub fn open(self, alloc: Global) -> Result<Baggage, NoMemory>
        ensures thread { IfOk result (λ b. thread_of b ≡ self) }
        ensures rules { IfOk result (λ b. IsThread (thread_of b) × IsTyped (thread_of b)) }
    {
        let Packed { moving } = self;
        match rejoin(alloc, moving) {
            Ok(thread) => Ok(thread),
            Err(Rejoin { cause, moving: _ }) => match cause {
                UnpackError::NoMemory => Err(NoMemory),
                UnpackError::BadImage { .. } => unreachable!(),
            },
        }
    }
}
