//! The summary of a trace.

ghost use Rattle.std.specs.Prelude.{◌≡◌, ◌++◌, ◌∷◌, [], count_by, IfOk, OnOk};
ghost use Rattle.std.specs.Option.{option_map};
ghost use Rattle.run_texts.specs.Summaries.{count_line, end_in, end_text, is_birth_by_call, is_counted, is_end_by_fault, is_for_service, is_fault, is_main, labels_of, main_end, summary_of};

use basics::NoMemory;
use itoa::Buffer;
use marcel_core::End;
use run_trace::{Entry, Label, Why};
use slot_space::Tid;
use std::alloc::{AllocError, Global};

/// What is counted.
#[derive(Clone, Copy)]
pub(crate) enum Counted {
    /// Births.
    Threads,
    /// Ends by a fault.
    Faults,
    /// Lines that are shown.
    Lines,
    /// Births by a call of a service.
    Services,
    /// Departures of threads.
    Moves,
}

/// Whether a label is one of those that are counted here.
fn is_counted(what: Counted, label: &Label) -> bool
    ensures { result ≡ is_counted what label.now }
{
    match what {
        Counted::Threads => matches!(label, Label::Born { .. }),
        Counted::Faults => matches!(
            label,
            Label::Ended {
                end: End::Fault { .. },
                ..
            }
        ),
        Counted::Lines => matches!(label, Label::Shown(_)),
        Counted::Services => matches!(
            label,
            Label::Born {
                why: Why::Service(..),
                ..
            }
        ),
        Counted::Moves => matches!(label, Label::Left { .. }),
    }
}

/// How many such labels an entry has.
fn count_in(what: Counted, labels: &[Label]) -> usize
    ensures { result ≡ count_by (is_counted what) labels.now }
{
    labels
        .iter()
        .filter(|label| is_counted(what, label))
        .count()
}

/// How many such labels a trace has. Each entry has fewer than 2^64, and so have the entries.
fn count(what: Counted, trace: &[Entry]) -> u128
    ensures { result ≡ count_by (is_counted what) (labels_of trace.now) }
{
    let mut total = 0;
    for entry in trace {
        let mut room = None;
        total += count_in(what, entry.labels.as_slice(&mut room)) as u128;
    }
    total
}

/// Appends a word, and how many such labels there are.
fn push_count(
    out: &mut Vec<u8>,
    word: &[u8],
    what: Counted,
    trace: &[Entry],
) -> Result<(), AllocError>
    ensures { OnOk result (out.new.items ≡ out.old.items ++ count_line word.now what trace.now) }
{
    out.extend_from_slice(word)?;
    out.extend_from_slice(Buffer::new().format(count(what, trace)).as_bytes())?;
    out.extend_from_slice(b"\n")
}

fn is_main(t: &Tid) -> bool
    ensures { result ≡ is_main t.now }
{
    t.home.0 == 0 && t.seq == 0
}

/// How the main thread has ended, where a label says that.
fn end_in(label: &Label) -> Option<End>
    ensures { result ≡ end_in label.now }
{
    match label {
        Label::Ended { t, end } if is_main(t) => Some(*end),
        _ => None,
    }
}

/// How the main thread has ended in an entry, at the first label that says so.
fn main_end(labels: &[Label]) -> Option<End>
    ensures { result ≡ main_end labels.now }
{
    for label in labels {
        if let Some(end) = end_in(label) {
            return Some(end);
        }
    }
    None
}

/// How the main thread has ended.
fn end_of_main(trace: &[Entry]) -> Option<End>
    ensures { result ≡ main_end (labels_of trace.now) }
{
    for entry in trace {
        let mut room = None;
        match main_end(entry.labels.as_slice(&mut room)) {
            Some(end) => return Some(end),
            None => {}
        }
    }
    None
}

/// Appends how a thread has ended.
fn push_end(out: &mut Vec<u8>, end: Option<End>) -> Result<(), AllocError>
    ensures { OnOk result (out.new.items ≡ out.old.items ++ end_text end) }
{
    match end {
        None => out.extend_from_slice(b"lives"),
        Some(End::Exit(value)) => out.extend_from_slice(Buffer::new().format(value).as_bytes()),
        Some(End::Fault { .. }) => out.extend_from_slice(b"fault"),
    }
}

/// How many threads, faults, lines, calls of services and moves there were, and how the main thread has ended.
pub fn summary(alloc: Global, trace: &[Entry]) -> Result<Vec<u8>, NoMemory>
    ensures { IfOk result (λ text. text.items ≡ summary_of trace.now) }
{
    let mut out = Vec::new(alloc);
    push_count(&mut out, b"threads ", Counted::Threads, trace)?;
    push_count(&mut out, b"faults ", Counted::Faults, trace)?;
    push_count(&mut out, b"lines ", Counted::Lines, trace)?;
    push_count(&mut out, b"services ", Counted::Services, trace)?;
    push_count(&mut out, b"moves ", Counted::Moves, trace)?;
    out.extend_from_slice(b"main ")?;
    push_end(&mut out, end_of_main(trace))?;
    out.extend_from_slice(b"\n")?;
    Ok(out)
}
