//! One semaphore.

ghost use Rattle.std.specs.Prelude.{◌≡◌, ◌<◌, ◌^◌, [], IfOk, OnErr};
ghost use Rattle.marcel_sync.specs.Semaphores.{p_answer, after_p, v_answer, after_v};
ghost use Rattle.marcel_sync.specs.Rows.{row_of};

use basics::{Items, NoMemory};
use slot_space::{NodeNo, Tid};
use std::alloc::Global;
use std::collections::VecDeque;
use std::marker::Model;

/// The greatest value of a semaphore.
pub const VALUE_LIMIT: u32 = 0x7fff_ffff;

/// What P, which lowers, is answered.
#[derive(Drop)]
pub enum Pgot {
    /// The value was above 0 and has fallen by one.
    Got,
    /// The thread waits.
    Later,
    /// There is no such semaphore.
    NoSuch,
}

/// What V, which raises, is answered.
#[derive(Drop)]
pub enum Vgot {
    /// This thread waited longest, on that node, and waits no more.
    Woke(Tid, NodeNo),
    /// No thread waited, and the value has risen by one.
    Stored,
    /// No thread waited, and the value is the greatest.
    AtLimit,
    /// There is no such semaphore.
    NoSuch,
}

/// A semaphore: its value, and the threads that wait with their nodes, the first to come first.
#[derive(Drop)]
pub struct SemRow {
    pub value: u32,
    pub waiters: Items<(Tid, NodeNo)>,
}

/// A semaphore that is in use. Contracts see its row.
#[derive(Drop)]
pub(crate) struct Sem {
    value: u32,
    waiters: VecDeque<(Tid, NodeNo)>,
}

impl Model for Sem {
    ghost use Rattle.marcel_sync.specs.declared.sem.SemRow.{SemRow};
    ghost use Rattle.marcel_sync.specs.Rows.{row_of};

    ghost Value = { SemRow };

    ghost view = { λ s. row_of s.value s.waiters.items };
}

impl Sem {
    /// A semaphore for which no thread waits.
    pub(crate) fn new(alloc: Global, value: u32) -> Sem
        ensures { result ≡ row_of value [] }
    {
        Sem {
            value,
            waiters: VecDeque::new(alloc),
        }
    }

    /// The semaphore of this row. It takes no memory.
    pub(crate) fn of(row: SemRow) -> Sem
        ensures { result ≡ row }
    {
        Sem {
            value: row.value,
            waiters: VecDeque::from_vec(row.waiters.into_vec()),
        }
    }

    /// Its row.
    pub(crate) fn row(&self, alloc: Global) -> Result<SemRow, NoMemory>
        ensures { IfOk result (λ row. row ≡ self.now) }
    {
        let (front, back) = self.waiters.as_slices();
        let mut waiters = Vec::new(alloc);
        waiters.extend_from_slice(front)?;
        waiters.extend_from_slice(back)?;
        Ok(SemRow {
            value: self.value,
            waiters: Items::new(waiters),
        })
    }

    /// The thread lowers the value, or waits.
    pub(crate) fn p(&mut self, by: Tid, at: NodeNo) -> Result<Pgot, NoMemory>
        ensures ok { IfOk result (λ got. (got ≡ p_answer self.old) × (self.new ≡ after_p (by, at) self.old)) }
        ensures err { OnErr result (self.new ≡ self.old) }
    {
        if self.value > 0 {
            self.value -= 1;
            return Ok(Pgot::Got);
        }
        self.waiters.push_back((by, at))?;
        Ok(Pgot::Later)
    }

    /// The first waiter is woken, or the value rises.
    pub(crate) fn v(&mut self) -> Vgot
        requires { self.old.value < 2 ^ 31 }
        ensures answer { result ≡ v_answer self.old }
        ensures after { self.new ≡ after_v self.old }
    {
        match self.waiters.pop_front() {
            Some((by, at)) => Vgot::Woke(by, at),
            None => self.raise(),
        }
    }

    /// The value rises, where it isn't the greatest.
    fn raise(&mut self) -> Vgot
        requires small { self.old.value < 2 ^ 31 }
        requires nobody { self.old.waiters ≡ [] }
        ensures answer { result ≡ v_answer self.old }
        ensures after { self.new ≡ after_v self.old }
    {
        if self.value == VALUE_LIMIT {
            return Vgot::AtLimit;
        }
        self.value += 1;
        Vgot::Stored
    }
}
