//! Runs of all nodes side by side.

ghost use Rattle.std.specs.Prelude.{◌≡◌, ◌≢◌, ◌<◌, ◌≤◌, [], IfOk, OnErr, length};
ghost use Rattle.outside.specs.Outside.{Rose};
ghost use Rattle.run_trace.specs.Legality.{boot_entries};
ghost use Rattle.run_trace.specs.Program.{nodes_of, quantum_limit};
ghost use Rattle.node_state.specs.Events.{program, StartsAligned};
ghost use Rattle.wires.specs.Wires.{AreFreshFor};
ghost use Rattle.cluster.specs.Standing.{StandsFor};
ghost use Rattle.cluster.specs.View.{greatest_clock, round_in};
ghost use Rattle.simulation.specs.Ends.{Shows, CarriesAt};
ghost use Rattle.simulation.specs.Rounds.{GoesInRounds, HasGone};

use crate::simulation::{RunEnd, Simulated, ended, none, show};
use basics::NoMemory;
use cluster::{Cluster, State};
use node_loop::Gate;
use outside::{Sink, WriteRefusal};
use run_trace::{Packet, Setup};
use rv_inst::Image;
use std::alloc::Global;
use std::thread::Threads;
use wires::Wires;

/// Runs a program from its beginning, all nodes side by side, and writes the lines after each round. It ends after the first round
/// with which the program is done or stuck, or has so many entries beside the nodes' beginnings.
pub fn run_in_rounds<R: Threads + Sync, K: Sink, G: Gate>(
    rt: &R,
    alloc: Global,
    setup: &Setup,
    image: Image,
    turns: u64,
    wires: Wires<Packet>,
    out: &mut K,
    gate: &G,
) -> Simulated
    requires quantum { (0 < setup.now.quantum) × (setup.now.quantum ≤ quantum_limit) }
    requires image { StartsAligned image }
    requires turns { (0 < turns) × (turns ≤ 1000000) }
    requires fresh { AreFreshFor (length wires) wires }
    requires wide { setup.now.geometry.nodes ≤ length wires }
    ensures ran { GoesInRounds (program setup.now image) turns result }
    ensures shown { Shows (program setup.now image) (K.written out.old) (K.written out.new) result }
    ensures carried { CarriesAt (program setup.now image) wires result }
    ensures failed { result.end ≡ RunEnd.WriteFault → Rose (K.faults out.old) (K.faults out.new) }
    ensures uncounted { result.trace ≢ [] → result.end ≢ RunEnd.WriteFault → K.faults out.new ≡ K.faults out.old }
    ensures later { K.faults out.old ≤ K.faults out.new }
{
    let mut cluster = match Cluster::boot(alloc, setup, image, wires) {
        Err(NoMemory) => return none(alloc),
        Ok(cluster) => cluster,
    };
    let end = match do_rounds(rt, &mut cluster, turns, out, gate) {
        Err(NoMemory) => return none(alloc),
        Ok(end) => end,
    };
    ended(alloc, cluster, end)
}

// Does round after round. Each has an entry, so there are no more rounds than turns.
fn do_rounds<R: Threads + Sync, K: Sink, G: Gate>(
    rt: &R,
    cluster: &mut Cluster,
    turns: u64,
    out: &mut K,
    gate: &G,
) -> Result<RunEnd, NoMemory>
    requires begun { StandsFor cluster.old [] (boot_entries cluster.old.program (nodes_of cluster.old.program)) }
    requires first { (greatest_clock cluster.old.nodes ≡ 1) × (round_in cluster.old ≡ 0) }
    requires turns { (0 < turns) × (turns ≤ 1000000) }
    ensures ran { IfOk result (λ end. HasGone turns cluster.old cluster.new (K.written out.old) (K.written out.new) end) }
    ensures failed { IfOk result (λ end. end ≡ RunEnd.WriteFault → Rose (K.faults out.old) (K.faults out.new)) }
    ensures uncounted { IfOk result (λ end. end ≢ RunEnd.WriteFault → K.faults out.new ≡ K.faults out.old) }
    ensures uncounted_memory { OnErr result (K.faults out.new ≡ K.faults out.old) }
    ensures later { K.faults out.old ≤ K.faults out.new }
{
    for done in 0..turns {
        let shown = cluster.console().len();
        cluster.round_threads(rt, gate)?;
        match show(cluster, shown, out) {
            Ok(()) => {}
            Err(WriteRefusal::Failed) => return Ok(RunEnd::WriteFault),
            Err(WriteRefusal::NoMemory) => return Err(NoMemory),
        }
        match cluster.verdict() {
            State::Done => return Ok(RunEnd::Done),
            State::Stalled => return Ok(RunEnd::Stalled),
            State::Going => {}
        }
        if cluster.turns() >= turns {
            return Ok(RunEnd::OutOfTurns);
        }
    }
    unreachable!()
}
