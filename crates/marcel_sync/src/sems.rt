//! All semaphores of a node, under their names.

ghost use Rattle.std.specs.Prelude.{◌≡◌, ◌<◌, ◌-◌, ◌^◌, [], length, nat_lt, IfOk, OnErr, if◌then◌else◌};
ghost use Rattle.marcel_sync.specs.Semaphores.{AreSemaphores, new_name, after_make, node_in, p_told, after_p_of, v_told, after_v_of, semaphores};

use crate::sem::{Pgot, Sem, SemRow, VALUE_LIMIT, Vgot};
use basics::NoMemory;
use slot_space::{NodeNo, Tid};
use std::alloc::Global;
use std::marker::Model;

/// The most semaphores that a node makes.
pub const SEM_LIMIT: usize = 0xffff_ffff;

/// The names that each node has for its semaphores.
const NAMES: u64 = 0x1_0000_0000;

/// The semaphores that a node has made, one of so many nodes. A semaphore's name is node * 2^32 + number, counted from 0. Contracts see a row
/// for each.
#[derive(Drop)]
pub struct Sems {
    node: NodeNo,
    nodes: u8,
    sems: Vec<Sem>,
    alloc: Global,
}

impl Model for Sems {
    ghost use Rattle.marcel_sync.specs.Semaphores.{SemsView, semaphores, AreSemaphores};

    ghost Value = { SemsView };

    ghost view = { λ s. semaphores s.node s.nodes s.sems.items };

    ghost invariant = { λ s. AreSemaphores s.sems.items };
}

impl Sems {
    /// A node that has made no semaphore. The allocator is what later calls grow with.
    pub fn new(alloc: Global, node: NodeNo, nodes: u8) -> Sems
        ensures { result ≡ semaphores node nodes [] }
    {
        Sems {
            node,
            nodes,
            sems: Vec::new(alloc),
            alloc,
        }
    }

    /// The node whose semaphore has this name. None exactly where that is no node.
    pub fn node_of(&self, id: u64) -> Option<NodeNo>
        ensures { result ≡ (if nat_lt (node_in id) self.now.nodes then Some (node_in id) else None) }
    {
        let node = id / NAMES;
        if node < self.nodes as u64 {
            Some(NodeNo(node as u8))
        } else {
            None
        }
    }

    /// Makes a semaphore of this value and answers its name. None exactly above 2^31 - 1.
    pub fn make(&mut self, v: u64) -> Result<Option<u64>, NoMemory>
        requires { length self.old.sems < 2 ^ 32 - 1 }
        ensures ok { IfOk result (λ name. (name ≡ new_name v self.old) × (self.new ≡ after_make v self.old)) }
        ensures err { OnErr result (self.new ≡ self.old) }
    {
        if v > VALUE_LIMIT as u64 {
            return Ok(None);
        }
        let name = self.node.0 as u64 * NAMES + self.sems.len() as u64;
        self.sems.push(Sem::new(self.alloc, v as u32))?;
        Ok(Some(name))
    }

    /// How many semaphores the node has made.
    pub fn count(&self) -> usize
        ensures { result ≡ length self.now.sems }
    {
        self.sems.len()
    }

    /// The thread on that node lowers the semaphore of the name's number, or waits for it.
    pub fn p(&mut self, id: u64, by: Tid, at: NodeNo) -> Result<Pgot, NoMemory>
        ensures ok { IfOk result (λ got. (got ≡ p_told id self.old) × (self.new ≡ after_p_of id (by, at) self.old)) }
        ensures err { OnErr result (self.new ≡ self.old) }
    {
        let k = (id % NAMES) as usize;
        if k >= self.sems.len() {
            return Ok(Pgot::NoSuch);
        }
        self.sems[k].p(by, at)
    }

    /// Wakes the thread that waits longest for the semaphore of the name's number, or raises it. It takes no memory.
    pub fn v(&mut self, id: u64) -> Vgot
        ensures answer { result ≡ v_told id self.old }
        ensures after { self.new ≡ after_v_of id self.old }
    {
        let k = (id % NAMES) as usize;
        if k >= self.sems.len() {
            return Vgot::NoSuch;
        }
        self.sems[k].v()
    }

    /// All semaphores, in the order of their numbers.
    pub fn rows(&self, alloc: Global) -> Result<Vec<SemRow>, NoMemory>
        ensures rows { IfOk result (λ rows. rows.items ≡ self.now.sems) }
        ensures proper { AreSemaphores self.now.sems }
    {
        let mut rows = Vec::new(alloc);
        for sem in &self.sems {
            rows.push(sem.row(alloc)?)?;
        }
        Ok(rows)
    }

    /// A node with these semaphores.
    pub fn from_rows(
        alloc: Global,
        node: NodeNo,
        nodes: u8,
        rows: Vec<SemRow>,
    ) -> Result<Sems, NoMemory>
        requires { AreSemaphores rows.items }
        ensures { IfOk result (λ sems. sems ≡ semaphores node nodes rows.items) }
    {
        let mut sems = Vec::new(alloc);
        for row in rows {
            sems.push(Sem::of(row))?;
        }
        Ok(Sems {
            node,
            nodes,
            sems,
            alloc,
        })
    }
}
