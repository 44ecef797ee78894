//! What is told at the end of a run: the summary, the trace and its acts.

ghost use Rattle.std.specs.Prelude.{◌≡◌, ◌≢◌, ◌≤◌, ◌⊎◌, true, None, Some, List, ℕ, IfOk, IfSome, OnOk, OnErr, IsErrOf};
ghost use Rattle.outside.specs.Outside.{Rose, Appends, AppendsPrefix, file_at};
ghost use Rattle.settings.specs.Numbers.{are_apart};
ghost use Rattle.settings.specs.Seen.{chosen};
ghost use Rattle.pm2_top.specs.Delivery.{is_told, summary_for, text_of, HasText, IsLeft, HasFiles, LeavesFiles, Tells};

use crate::report::Report;
use crate::status::Status;
use basics::NoMemory;
use outside::{Shelf, Sink, WriteRefusal, write_piece};
use run_texts::{schedule_text, summary};
use run_trace::Entry;
use settings::{Name, Settings};
use std::alloc::Global;
use trace_text::trace_text;

/// Writes the summary, where it is asked for.
fn tell_summary<K: Sink>(
    alloc: Global,
    asked: &Settings,
    trace: &[Entry],
    out: &mut K,
) -> Result<(), WriteRefusal>
    ensures ok { OnOk result (Appends (K.written out.old) (summary_for (chosen asked.now) trace.now) (K.written out.new)) }
    ensures err { OnErr result (AppendsPrefix (K.written out.old) (summary_for (chosen asked.now) trace.now) (K.written out.new)) }
    ensures failed { IsErrOf result WriteRefusal.Failed → Rose (K.faults out.old) (K.faults out.new) }
    ensures uncounted { OnOk result (K.faults out.new ≡ K.faults out.old) }
    ensures uncounted_memory { IsErrOf result WriteRefusal.NoMemory → K.faults out.new ≡ K.faults out.old }
    ensures later { K.faults out.old ≤ K.faults out.new }
{
    if !asked.summary {
        return write_piece(out, &[]);
    }
    match summary(alloc, trace) {
        Ok(text) => write_piece(out, &text),
        Err(NoMemory) => Err(WriteRefusal::NoMemory),
    }
}

/// What is saved of a run.
#[derive(Clone, Copy)]
enum Saved {
    /// Its trace.
    Trace,
    /// The acts of its trace.
    Schedule,
}

/// The text that is saved.
fn text_of(alloc: Global, saved: Saved, trace: &[Entry]) -> Result<Vec<u8>, NoMemory>
    ensures { IfOk result (λ text. text.items ≡ text_of saved trace.now) }
{
    match saved {
        Saved::Trace => trace_text(alloc, trace),
        Saved::Schedule => schedule_text(alloc, trace),
    }
}

/// Saves it in the file of this name, where there is one.
fn put_file<S: Shelf>(
    alloc: Global,
    name: &Option<Name>,
    saved: Saved,
    trace: &[Entry],
    shelf: &mut S,
) -> Result<(), WriteRefusal>
    ensures ok { OnOk result (IfSome name.now (λ n. HasText n (text_of saved trace.now) (S.content shelf.old) (S.content shelf.new))) }
    ensures left { IfSome name.now (λ n. IsLeft n (text_of saved trace.now) (Rose (S.write_faults shelf.old) (S.write_faults shelf.new)) (S.content shelf.old) (S.content shelf.new)) }
    ensures others { (other : List ℕ) → name.now ≢ Some other → file_at (S.content shelf.new) other ≡ file_at (S.content shelf.old) other }
    ensures failed { IsErrOf result WriteRefusal.Failed → Rose (S.write_faults shelf.old) (S.write_faults shelf.new) }
    ensures uncounted { OnOk result (S.write_faults shelf.new ≡ S.write_faults shelf.old) }
    ensures uncounted_memory { IsErrOf result WriteRefusal.NoMemory → S.write_faults shelf.new ≡ S.write_faults shelf.old }
    ensures writes { S.write_faults shelf.old ≤ S.write_faults shelf.new }
    ensures unasked { name.now ≡ None → S.write_faults shelf.new ≡ S.write_faults shelf.old }
    ensures reads { S.read_faults shelf.new ≡ S.read_faults shelf.old }
{
    match name {
        None => Ok(()),
        Some(name) => match text_of(alloc, saved, trace) {
            Ok(text) => shelf.write_file(name.as_str(), &text),
            Err(NoMemory) => Err(WriteRefusal::NoMemory),
        },
    }
}

/// Writes the trace and its acts, where they are asked for.
fn put_files<S: Shelf>(
    alloc: Global,
    asked: &Settings,
    trace: &[Entry],
    shelf: &mut S,
) -> Result<(), WriteRefusal>
    requires apart { are_apart asked.now.trace asked.now.schedule ≡ true }
    ensures ok { OnOk result (HasFiles (chosen asked.now) trace.now (S.content shelf.old) (S.content shelf.new)) }
    ensures left { LeavesFiles (chosen asked.now) trace.now (Rose (S.write_faults shelf.old) (S.write_faults shelf.new)) (S.content shelf.old) (S.content shelf.new) }
    ensures failed { IsErrOf result WriteRefusal.Failed → Rose (S.write_faults shelf.old) (S.write_faults shelf.new) }
    ensures uncounted { OnOk result (S.write_faults shelf.new ≡ S.write_faults shelf.old) }
    ensures uncounted_memory { IsErrOf result WriteRefusal.NoMemory → S.write_faults shelf.new ≡ S.write_faults shelf.old }
    ensures writes { S.write_faults shelf.old ≤ S.write_faults shelf.new }
    ensures unasked { asked.now.trace ≡ None → asked.now.schedule ≡ None → S.write_faults shelf.new ≡ S.write_faults shelf.old }
    ensures reads { S.read_faults shelf.new ≡ S.read_faults shelf.old }
{
    put_file(alloc, &asked.trace, Saved::Trace, trace, shelf)?;
    put_file(alloc, &asked.schedule, Saved::Schedule, trace, shelf)
}

/// Writes the summary and then the files, each where it is asked for.
fn deliver<S: Shelf, K: Sink>(
    alloc: Global,
    asked: &Settings,
    trace: &[Entry],
    shelf: &mut S,
    out: &mut K,
) -> Result<(), WriteRefusal>
    requires apart { are_apart asked.now.trace asked.now.schedule ≡ true }
    ensures ok { OnOk result (Appends (K.written out.old) (summary_for (chosen asked.now) trace.now) (K.written out.new)) }
    ensures err { OnErr result (AppendsPrefix (K.written out.old) (summary_for (chosen asked.now) trace.now) (K.written out.new)) }
    ensures put { OnOk result (HasFiles (chosen asked.now) trace.now (S.content shelf.old) (S.content shelf.new)) }
    ensures left { LeavesFiles (chosen asked.now) trace.now (Rose (S.write_faults shelf.old) (S.write_faults shelf.new)) (S.content shelf.old) (S.content shelf.new) }
    ensures failed { IsErrOf result WriteRefusal.Failed → Rose (K.faults out.old) (K.faults out.new) ⊎ Rose (S.write_faults shelf.old) (S.write_faults shelf.new) }
    ensures uncounted { OnOk result ((K.faults out.new ≡ K.faults out.old) × (S.write_faults shelf.new ≡ S.write_faults shelf.old)) }
    ensures uncounted_memory { IsErrOf result WriteRefusal.NoMemory → (K.faults out.new ≡ K.faults out.old) × (S.write_faults shelf.new ≡ S.write_faults shelf.old) }
    ensures later { K.faults out.old ≤ K.faults out.new }
    ensures unasked { asked.now.trace ≡ None → asked.now.schedule ≡ None → S.write_faults shelf.new ≡ S.write_faults shelf.old }
    ensures reads { S.read_faults shelf.new ≡ S.read_faults shelf.old }
{
    tell_summary(alloc, asked, trace, out)?;
    put_files(alloc, asked, trace, shelf)
}

/// Tells what is asked for of a command that has come to its end. A refused write is its status.
pub(crate) fn tell_all<S: Shelf, K: Sink>(
    alloc: Global,
    asked: &Settings,
    ran: Report,
    shelf: &mut S,
    out: &mut K,
) -> Report
    requires apart { are_apart asked.now.trace asked.now.schedule ≡ true }
    ensures tells { Tells (chosen asked.now) ran (K.written out.old) (K.written out.new) result }
    ensures put { is_told result.status ≡ true → HasFiles (chosen asked.now) ran.trace (S.content shelf.old) (S.content shelf.new) }
    ensures left { LeavesFiles (chosen asked.now) ran.trace (Rose (S.write_faults shelf.old) (S.write_faults shelf.new)) (S.content shelf.old) (S.content shelf.new) }
    ensures failed { result.status ≡ Status.WriteFault → (ran.status ≡ Status.WriteFault) ⊎ (Rose (K.faults out.old) (K.faults out.new) ⊎ Rose (S.write_faults shelf.old) (S.write_faults shelf.new)) }
    ensures uncounted { result.status ≢ Status.WriteFault → (K.faults out.new ≡ K.faults out.old) × (S.write_faults shelf.new ≡ S.write_faults shelf.old) }
    ensures later { K.faults out.old ≤ K.faults out.new }
    ensures unasked { asked.now.trace ≡ None → asked.now.schedule ≡ None → S.write_faults shelf.new ≡ S.write_faults shelf.old }
    ensures reads { S.read_faults shelf.new ≡ S.read_faults shelf.old }
{
    if !ran.status.is_told() {
        return ran;
    }
    match deliver(alloc, asked, ran.trace.as_slice(), shelf, out) {
        Ok(()) => ran,
        Err(refusal) => Report {
            status: Status::from(refusal),
            trace: ran.trace,
            wires: ran.wires,
        },
    }
}
