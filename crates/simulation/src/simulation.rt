//! Runs by drawn acts.

ghost use Rattle.std.specs.Prelude.{◌≡◌, ◌≢◌, ◌<◌, ◌≤◌, ◌+◌, ◌++◌, [], List, drop, length, OnOk, OnErr, IsErrOf};
ghost use Rattle.outside.specs.Outside.{Rose, Appends, AppendsPrefix};
ghost use Rattle.run_trace.specs.declared.entry.Entry.{Entry};
ghost use Rattle.run_trace.specs.Legality.{boot_entries};
ghost use Rattle.run_trace.specs.Program.{nodes_of, quantum_limit};
ghost use Rattle.node_state.specs.Events.{program, StartsAligned};
ghost use Rattle.wires.specs.Wires.{AreFreshFor};
ghost use Rattle.cluster.specs.Standing.{StandsFor, HasTrace, Loses};
ghost use Rattle.cluster.specs.View.{console_in, greatest_clock, round_in, wires_of};
ghost use Rattle.node_loop.specs.Turns.{entry_limit};
ghost use Rattle.simulation.specs.Course.{HandsOut};
ghost use Rattle.simulation.specs.Drawn.{generator, possible_after};
ghost use Rattle.simulation.specs.Ends.{Simulates, Shows, CarriesAt};
ghost use Rattle.simulation.specs.Underway.{Draws, HasRun};

use basics::{Items, NoMemory};
use cluster::{Cluster, State};
use outside::{Sink, WriteRefusal, write_piece};
use rand_core::utils::NextWord;
use rand_pcg::Lcg64Xsh32;
use run_trace::{Act, Entry, Packet, Setup};
use rv_inst::Image;
use slot_space::NodeNo;
use std::alloc::Global;
use wires::Wires;

/// The stream of the generator.
const STREAM: u64 = 54;

/// What has ended a run.
#[derive(Clone, Copy, PartialEq, Eq)]
pub enum RunEnd {
    /// A thread has called halt, or no thread lives and nothing is under way.
    Done,
    /// Threads live, and each waits for what doesn't come.
    Stalled,
    /// All turns are done, or all acts of the schedule, and the program goes on.
    OutOfTurns,
    /// The act of this line of the schedule isn't possible.
    NotPossible(u32),
    /// The output was refused.
    WriteFault,
    /// There was not enough memory.
    NoMemory,
}

impl From<WriteRefusal> for RunEnd {
    ghost use Rattle.simulation.specs.Course.{refusal_end};

    ghost from_gives = { λ refusal end. end ≡ refusal_end refusal };

    fn from(refusal: WriteRefusal) -> RunEnd {
        match refusal {
            WriteRefusal::Failed => RunEnd::WriteFault,
            WriteRefusal::NoMemory => RunEnd::NoMemory,
        }
    }
}

/// A run that has ended.
#[derive(Drop)]
pub struct Simulated {
    pub end: RunEnd,
    /// Its entries, oldest first.
    pub trace: Items<Entry>,
    /// The links of its nodes, which have carried its packets; at want of memory maybe none.
    pub wires: Wires<Packet>,
}

/// Runs a program from its beginning: each act is drawn by the seed, and the lines are written after it. It ends where the
/// program is done or stuck, or after so many acts. Threads are moved only where moves are asked for.
pub fn simulate<K: Sink>(
    alloc: Global,
    setup: &Setup,
    image: Image,
    turns: u64,
    seed: u64,
    moves: bool,
    wires: Wires<Packet>,
    out: &mut K,
) -> Simulated
    requires quantum { (0 < setup.now.quantum) × (setup.now.quantum ≤ quantum_limit) }
    requires image { StartsAligned image }
    requires turns { (0 < turns) × (turns ≤ 1000000) }
    requires fresh { AreFreshFor (length wires) wires }
    requires wide { setup.now.geometry.nodes ≤ length wires }
    ensures simulated { Simulates moves (program setup.now image) turns seed result }
    ensures shown { Shows (program setup.now image) (K.written out.old) (K.written out.new) result }
    ensures carried { CarriesAt (program setup.now image) wires result }
    ensures failed { result.end ≡ RunEnd.WriteFault → Rose (K.faults out.old) (K.faults out.new) }
    ensures uncounted { result.trace ≢ [] → result.end ≢ RunEnd.WriteFault → K.faults out.new ≡ K.faults out.old }
    ensures later { K.faults out.old ≤ K.faults out.new }
{
    let mut cluster = match Cluster::boot(alloc, setup, image, wires) {
        Err(NoMemory) => return none(alloc),
        Ok(cluster) => cluster,
    };
    let end = run(&mut cluster, turns, seed, moves, out);
    ended(alloc, cluster, end)
}

// A run that has come to this end is handed out.
pub(crate) fn ended(alloc: Global, cluster: Cluster, end: RunEnd) -> Simulated
    requires { (kept : List Entry) × HasTrace cluster kept }
    ensures { (kept : List Entry) → HasTrace cluster kept → HandsOut kept (wires_of cluster) end result }
{
    match cluster.finish() {
        Err(NoMemory) => none(alloc),
        Ok((trace, wires)) => Simulated { end, trace, wires },
    }
}

// A run of which there is nothing, for want of memory.
pub(crate) fn none(alloc: Global) -> Simulated
    ensures { (result.trace ≡ []) × (result.end ≡ RunEnd.NoMemory) }
{
    Simulated {
        end: RunEnd::NoMemory,
        trace: Items::new(Vec::new(alloc)),
        wires: Wires::none(alloc),
    }
}

// Draws act after act.
fn run<K: Sink>(cluster: &mut Cluster, turns: u64, seed: u64, moves: bool, out: &mut K) -> RunEnd
    requires begun { StandsFor cluster.old [] (boot_entries cluster.old.program (nodes_of cluster.old.program)) }
    requires first { (greatest_clock cluster.old.nodes ≡ 1) × (round_in cluster.old ≡ 0) }
    requires turns { (0 < turns) × (turns ≤ 1000000) }
    ensures ran { HasRun moves turns seed cluster.old cluster.new (K.written out.old) (K.written out.new) result }
    ensures failed { result ≡ RunEnd.WriteFault → Rose (K.faults out.old) (K.faults out.new) }
    ensures uncounted { result ≢ RunEnd.WriteFault → K.faults out.new ≡ K.faults out.old }
    ensures later { K.faults out.old ≤ K.faults out.new }
{
    let mut words = generator(seed);
    for done in 0..turns {
        let shown = cluster.console().len();
        match draw(cluster, words.next_word(), moves) {
            Ok(()) => {}
            Err(NoMemory) => return RunEnd::NoMemory,
        }
        match show(cluster, shown, out) {
            Ok(()) => {}
            Err(refusal) => return RunEnd::from(refusal),
        }
        match cluster.verdict() {
            State::Done => return RunEnd::Done,
            State::Stalled => return RunEnd::Stalled,
            State::Going => {}
        }
    }
    RunEnd::OutOfTurns
}

// The generator of a seed.
#[tactic(auto, unfolding(crate::specs::Drawn::generator))]
fn generator(seed: u64) -> Lcg64Xsh32
    ensures { result ≡ generator seed }
{
    Lcg64Xsh32::new(seed, STREAM)
}

// Does the possible act that the word chooses.
fn draw(cluster: &mut Cluster, word: u32, moves: bool) -> Result<(), NoMemory>
    requires some { (kept : List Entry) × StandsFor cluster.old [] kept × (possible_after moves cluster.old.program kept ≢ []) }
    requires few { greatest_clock cluster.old.nodes + 1 < entry_limit }
    ensures ok { (kept : List Entry) → StandsFor cluster.old [] kept → OnOk result (Draws moves word kept cluster.old cluster.new) }
    ensures err { (kept : List Entry) → StandsFor cluster.old [] kept → OnErr result (Loses cluster.old cluster.new kept) }
{
    match cluster.choose(moves, word) {
        None => unreachable!(),
        Some(choice) => {
            cluster.step(choice.0, choice.1)?;
            Ok(())
        }
    }
}

// Writes the lines that came after the first so many bytes.
pub(crate) fn show<K: Sink>(
    cluster: &Cluster,
    shown: usize,
    out: &mut K,
) -> Result<(), WriteRefusal>
    requires { shown ≤ length (console_in cluster.now) }
    ensures ok { OnOk result (Appends (K.written out.old) (drop shown (console_in cluster.now)) (K.written out.new)) }
    ensures err { OnErr result (AppendsPrefix (K.written out.old) (drop shown (console_in cluster.now)) (K.written out.new)) }
    ensures failed { IsErrOf result WriteRefusal.Failed → Rose (K.faults out.old) (K.faults out.new) }
    ensures uncounted { OnOk result (K.faults out.new ≡ K.faults out.old) }
    ensures uncounted_memory { IsErrOf result WriteRefusal.NoMemory → K.faults out.new ≡ K.faults out.old }
    ensures later { K.faults out.old ≤ K.faults out.new }
{
    write_piece(out, &cluster.console()[shown..])
}
