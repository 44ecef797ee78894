//! The judge.

ghost use Rattle.std.specs.Prelude.{◌≡◌, ◌≤◌, ◌<◌, ◌+◌, ◌↔◌, ◌⊎◌, None, IfOk, IfSome, MatchOption, IsTrue, length, reverse, take};
ghost use Rattle.run_trace.specs.Program.{nodes_of};
ghost use Rattle.run_trace.specs.Legality.{Legal, boot_entry, first_labels};
ghost use Rattle.node_state.specs.Events.{program, StartsAligned};
ghost use Rattle.run_judge.specs.Judged.{IsFirstFault, IsSound, Follows, BeginsAt};

use crate::cluster::JudgedCluster;
use crate::labels::same_labels;
use basics::NoMemory;
use run_trace::{Act, Entry, Label, Program, Setup, Why};
use rv_inst::Image;
use slot_space::{NodeNo, SLOT_SIZE, SLOTS_START, SlotNo, Tid};
use std::alloc::Global;
use trace_laws::{judged, whole};

/// The end of slot 0.
const STACK_END: u64 = SLOTS_START + SLOT_SIZE;

/// The number of the first entry at which a trace isn't legal, or of its entries where a node's beginning is missing.
/// None exactly where the trace is legal. It asks for an image whose main thread can start, as each image of a source is.
pub fn judge(
    alloc: Global,
    setup: &Setup,
    image: &Image,
    entries: &[Entry],
) -> Result<Option<usize>, NoMemory>
    requires { StartsAligned image.now }
    ensures legal { IfOk result (λ fault. (fault ≡ None) ↔ Legal (program setup.now image.now) (reverse entries.now)) }
    ensures first { IfOk result (λ fault. IfSome fault (λ number. IsFirstFault (program setup.now image.now) entries.now number)) }
{
    let program = Program::of(alloc, setup, image)?;
    fault_in(alloc, &program, entries)
}

// The same of a program.
fn fault_in(alloc: Global, program: &Program, entries: &[Entry]) -> Result<Option<usize>, NoMemory>
    requires { StartsAligned program.now.image }
    ensures legal { IfOk result (λ fault. (fault ≡ None) ↔ Legal program.now (reverse entries.now)) }
    ensures first { IfOk result (λ fault. IfSome fault (λ number. IsFirstFault program.now entries.now number)) }
{
    whole();
    match first_fault(alloc, program, entries)? {
        Some(number) => Ok(Some(number)),
        None => Ok(missing(program, entries)),
    }
}

// The number of entries, where a node's beginning is missing.
fn missing(program: &Program, entries: &[Entry]) -> Option<usize>
    ensures { MatchOption result ((length entries.now ≡ 0) ⊎ (nodes_of program.now ≤ length entries.now))
        (λ number. (number ≡ length entries.now) × (0 < length entries.now) × (length entries.now < nodes_of program.now)) }
{
    if entries.is_empty() || program.nodes() as usize <= entries.len() {
        return None;
    }
    Some(entries.len())
}

// The number of the first entry at which something is wrong.
fn first_fault(
    alloc: Global,
    program: &Program,
    entries: &[Entry],
) -> Result<Option<usize>, NoMemory>
    requires { StartsAligned program.now.image }
    ensures { IfOk result (λ fault. let p = program.now in MatchOption fault (IsSound p (reverse entries.now))
        (λ number. (number < length entries.now) × IsSound p (reverse (take number entries.now)) × (IsSound p (reverse (take (number + 1) entries.now)) → ⊥))) }
{
    judged();
    let mut cluster = JudgedCluster::fresh(alloc, program.setup())?;
    for (number, entry) in entries.iter().enumerate() {
        if !stands(program, entries, number, entry) {
            return Ok(Some(number));
        }
        if !cluster.does(program, entry)? {
            return Ok(Some(number));
        }
    }
    Ok(None)
}

// Whether the entry of this number may stand there by its order, its round and, if it is to be one, as a beginning.
fn stands(program: &Program, entries: &[Entry], number: usize, entry: &Entry) -> bool
    requires { number ≤ length entries.now }
    ensures { IsTrue result ↔ (Follows entry.now (reverse (take number entries.now)) × BeginsAt program.now number entry.now) }
{
    if !follows(entries, number, entry) {
        return false;
    }
    if number >= program.nodes() as usize {
        return true;
    }
    is_beginning(program, number, entry)
}

// Whether the entry comes after the first so many.
fn follows(entries: &[Entry], number: usize, entry: &Entry) -> bool
    requires { number ≤ length entries.now }
    ensures { IsTrue result ↔ Follows entry.now (reverse (take number entries.now)) }
{
    if number == 0 {
        return true;
    }
    comes_after(&entries[number - 1], entry)
}

// Whether the entry comes after this one.
fn comes_after(before: &Entry, entry: &Entry) -> bool
    ensures { IsTrue result ↔ (((before.now.stamp < entry.now.stamp) ⊎ ((before.now.stamp ≡ entry.now.stamp) × (before.now.node < entry.now.node))) × (before.now.round ≤ entry.now.round)) }
{
    let later = before.stamp < entry.stamp
        || (before.stamp == entry.stamp && before.node.0 < entry.node.0);
    later && before.round <= entry.round
}

// Whether the entry is the beginning of the node of this number.
fn is_beginning(program: &Program, number: usize, entry: &Entry) -> bool
    ensures { IsTrue result ↔ (entry.now ≡ boot_entry program.now number) }
{
    if entry.stamp != 1 {
        return false;
    }
    let node = entry.node;
    if node.0 as usize != number {
        return false;
    }
    if entry.round != 0 {
        return false;
    }
    let mut room = None;
    match entry.act {
        Act::Boot => are_first_labels(program, number, entry.labels.as_slice(&mut room)),
        _ => false,
    }
}

// Whether these are the labels of the beginning of the node of this number.
fn are_first_labels(program: &Program, number: usize, labels: &[Label]) -> bool
    ensures { IsTrue result ↔ (labels.now ≡ first_labels program.now number) }
{
    if number > 0 {
        return labels.is_empty();
    }
    let main = Label::Born {
        t: Tid {
            home: NodeNo(0),
            seq: 0,
        },
        why: Why::Main,
        entry: program.image().main,
        a0: 0,
        a1: 0,
        sp: STACK_END,
        slot: SlotNo(0),
    };
    same_labels(labels, &[main])
}
