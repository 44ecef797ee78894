//! Two nodes that make rounds side by side, at gates that hold a node up until the other is as far as is told.

ghost use Rattle.std.specs.Prelude.{OnOk};
ghost use Rattle.cluster_tests.specs.Rounds.{IsInRounds};

use crate::booting::booted;
use basics::Items;
use cluster::Cluster;
use node_loop::Gate;
use run_trace::{Act, Entry};
use slot_space::NodeNo;
use std::alloc::Global;
use std::sync::atomic::{AtomicU64, Ordering};
use std::test::Fail;
use std::thread::Threads;

/// How often a node looks before it gives up.
const LOOKS: u64 = 1_000_000_000;

/// A jump to itself.
const ENDLESS: [u32; 1] = [0x0000_006f];

/// The main thread goes to node 1 and returns there.
const GOES: [u32; 4] = [0x0010_0513, 0x00e0_0893, 0x0000_0073, 0x0000_8067];

/// Each node sets its mark at its first pass of the rounds 1 to 3, and then looks for the other's.
#[derive(Drop)]
struct Meeting {
    node_0: AtomicU64,
    node_1: AtomicU64,
    missed: AtomicU64,
}

impl Gate for Meeting {
    fn pass(&self, node: NodeNo, round: u64) {
        let (own, other) = if node == NodeNo(0) {
            (&self.node_0, &self.node_1)
        } else {
            (&self.node_1, &self.node_0)
        };
        if round > 3 || own.load(Ordering::SeqCst) >= round {
            return;
        }
        own.store(round, Ordering::SeqCst);
        if !reaches(other, round) {
            self.missed.store(1, Ordering::SeqCst);
        }
    }
}

/// Node 1 looks at its first pass of round 1 until node 0 has passed twice in it.
#[derive(Drop)]
struct Following {
    passes: AtomicU64,
    held_up: AtomicU64,
    missed: AtomicU64,
}

impl Gate for Following {
    fn pass(&self, node: NodeNo, round: u64) {
        if round != 1 {
            return;
        }
        if node == NodeNo(0) {
            self.passes.fetch_add(1, Ordering::SeqCst);
            return;
        }
        if self.held_up.load(Ordering::SeqCst) == 1 {
            return;
        }
        self.held_up.store(1, Ordering::SeqCst);
        if !reaches(&self.passes, 2) {
            self.missed.store(1, Ordering::SeqCst);
        }
    }
}

/// Whether the word becomes at least this while it is looked at.
fn reaches(word: &AtomicU64, least: u64) -> bool {
    for _look in 0..LOOKS {
        if word.load(Ordering::SeqCst) >= least {
            return true;
        }
    }
    false
}

/// A round at this gate.
fn round<R: Threads + Sync, G: Gate>(rt: &R, cluster: &mut Cluster, gate: &G) -> Result<(), Fail>
    requires { IsInRounds cluster.old }
    ensures { OnOk result (IsInRounds cluster.new) }
{
    if cluster.turns() >= 1000 {
        return Err(Fail::from("few turns"));
    }
    cluster.round_threads(rt, gate)?;
    Ok(())
}

/// Whether each node sees the other's mark in the round in which it looks for it.
fn meets<R: Threads + Sync>(rt: &R, alloc: Global) -> Result<bool, Fail> {
    let gate = Meeting {
        node_0: AtomicU64::new(0),
        node_1: AtomicU64::new(0),
        missed: AtomicU64::new(0),
    };
    let mut cluster = booted(alloc, &ENDLESS)?;
    for _n in 0..5 {
        round(rt, &mut cluster, &gate)?;
    }
    let marks = gate.node_0.load(Ordering::SeqCst) == 3 && gate.node_1.load(Ordering::SeqCst) == 3;
    Ok(marks && gate.missed.load(Ordering::SeqCst) == 0)
}

/// Whether node 1 takes a packet of node 0 in the round in which it was sent.
fn takes_at_once<R: Threads + Sync>(rt: &R, alloc: Global) -> Result<bool, Fail> {
    let gate = Following {
        passes: AtomicU64::new(0),
        held_up: AtomicU64::new(0),
        missed: AtomicU64::new(0),
    };
    let mut cluster = booted(alloc, &GOES)?;
    round(rt, &mut cluster, &gate)?;
    let (entries, _wires) = cluster.finish()?;
    Ok(takes_in_round_1(&entries) && gate.missed.load(Ordering::SeqCst) == 0)
}

/// Whether node 1 takes of node 0 in round 1.
fn takes_in_round_1(entries: &Items<Entry>) -> bool {
    for entry in entries.as_slice() {
        if entry.node == NodeNo(1) && entry.round == 1 && entry.act == Act::Take(NodeNo(0)) {
            return true;
        }
    }
    false
}

#[test]
fn two_nodes_meet_in_each_round(rt: HostRuntime) -> Result<(), Fail> {
    assert!(rt; meets(&rt, rt.alloc())?);
    Ok(())
}

#[test]
fn a_packet_is_taken_in_the_round_in_which_it_was_sent(rt: HostRuntime) -> Result<(), Fail> {
    assert!(rt; takes_at_once(&rt, rt.alloc())?);
    Ok(())
}
