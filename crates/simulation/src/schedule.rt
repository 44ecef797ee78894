//! Runs by a schedule.

ghost use Rattle.std.specs.Prelude.{◌≡◌, ◌≢◌, ◌<◌, ◌≤◌, [], length};
ghost use Rattle.outside.specs.Outside.{Rose};
ghost use Rattle.run_trace.specs.Legality.{boot_entries};
ghost use Rattle.run_trace.specs.Program.{nodes_of, quantum_limit};
ghost use Rattle.node_state.specs.Events.{program, StartsAligned};
ghost use Rattle.wires.specs.Wires.{AreFreshFor};
ghost use Rattle.cluster.specs.Standing.{StandsFor};
ghost use Rattle.cluster.specs.View.{greatest_clock, round_in};
ghost use Rattle.simulation.specs.Ends.{Shows, CarriesAt};
ghost use Rattle.simulation.specs.Schedules.{AreInRange, Follows};
ghost use Rattle.simulation.specs.Replayed.{HasReplayed};

use crate::simulation::{RunEnd, Simulated, ended, none, show};
use basics::NoMemory;
use cluster::{Cluster, State};
use node_loop::Turned;
use outside::Sink;
use run_texts::Scheduled;
use run_trace::{Packet, Setup};
use rv_inst::Image;
use std::alloc::Global;
use wires::Wires;

/// Runs a program from its beginning by the acts of a schedule, one after another, and writes the lines after each. It ends at
/// the first act that isn't possible, or after the last one, and says then whether the program is done, is stuck or goes on.
pub fn replay<K: Sink>(
    alloc: Global,
    setup: &Setup,
    image: Image,
    schedule: &[Scheduled],
    wires: Wires<Packet>,
    out: &mut K,
) -> Simulated
    requires quantum { (0 < setup.now.quantum) × (setup.now.quantum ≤ quantum_limit) }
    requires image { StartsAligned image }
    requires few { length schedule.now ≤ 1000000 }
    requires range { AreInRange (program setup.now image) schedule.now }
    requires fresh { AreFreshFor (length wires) wires }
    requires wide { setup.now.geometry.nodes ≤ length wires }
    ensures replayed { Follows (program setup.now image) schedule.now result }
    ensures shown { Shows (program setup.now image) (K.written out.old) (K.written out.new) result }
    ensures carried { CarriesAt (program setup.now image) wires result }
    ensures failed { result.end ≡ RunEnd.WriteFault → Rose (K.faults out.old) (K.faults out.new) }
    ensures uncounted { result.trace ≢ [] → result.end ≢ RunEnd.WriteFault → K.faults out.new ≡ K.faults out.old }
    ensures later { K.faults out.old ≤ K.faults out.new }
{
    let mut cluster = match Cluster::boot(alloc, setup, image, wires) {
        Err(NoMemory) => return none(alloc),
        Ok(cluster) => cluster,
    };
    let end = do_acts(&mut cluster, schedule, out);
    ended(alloc, cluster, end)
}

// Does act after act.
fn do_acts<K: Sink>(cluster: &mut Cluster, schedule: &[Scheduled], out: &mut K) -> RunEnd
    requires begun { StandsFor cluster.old [] (boot_entries cluster.old.program (nodes_of cluster.old.program)) }
    requires first { (greatest_clock cluster.old.nodes ≡ 1) × (round_in cluster.old ≡ 0) }
    requires few { length schedule.now ≤ 1000000 }
    requires range { AreInRange cluster.old.program schedule.now }
    ensures ran { HasReplayed schedule.now cluster.old cluster.new (K.written out.old) (K.written out.new) result }
    ensures failed { result ≡ RunEnd.WriteFault → Rose (K.faults out.old) (K.faults out.new) }
    ensures uncounted { result ≢ RunEnd.WriteFault → K.faults out.new ≡ K.faults out.old }
    ensures later { K.faults out.old ≤ K.faults out.new }
{
    for next in schedule {
        let shown = cluster.console().len();
        match cluster.step(next.node, next.act) {
            Ok(Turned::Did) => {}
            Ok(Turned::Idle) => return RunEnd::NotPossible(next.line),
            Err(NoMemory) => return RunEnd::NoMemory,
        }
        match show(cluster, shown, out) {
            Ok(()) => {}
            Err(refusal) => return RunEnd::from(refusal),
        }
    }
    match cluster.verdict() {
        State::Done => RunEnd::Done,
        State::Stalled => RunEnd::Stalled,
        State::Going => RunEnd::OutOfTurns,
    }
}
