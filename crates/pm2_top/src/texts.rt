//! What is told on the error output.

ghost use Rattle.std.specs.Prelude.{◌≡◌, ◌++◌, ◌≤◌, IfOk, OnOk};
ghost use Rattle.std.specs.List.{flat_map};
ghost use Rattle.std.specs.String.{string_bytes};
ghost use Rattle.pm2_top.specs.Texts.{kind_word, what_words, at_line, error_line, fault_line, label_text, faults_text, status_line, err_text, IsMemoryTold, StatusTold, Reports};

use crate::report::Report;
use crate::status::Status;
use basics::NoMemory;
use marcel_core::End;
use outside::{Sink, WriteRefusal, write_piece};
use run_trace::{Entry, Label};
use rv_asm::{AsmError, What};
use rv_step::FaultKind;
use slot_space::Tid;
use std::alloc::Global;

/// The word of a fault.
fn kind_word(kind: FaultKind) -> &'static str
    ensures { result.now ≡ kind_word kind }
{
    match kind {
        FaultKind::Illegal => "illegal",
        FaultKind::Break => "break",
        FaultKind::Misaligned => "misaligned",
        FaultKind::Fetch => "fetch",
        FaultKind::Load => "load",
        FaultKind::Store => "store",
    }
}

/// What is wrong on a line.
fn what_words(what: What) -> &'static str
    ensures { result.now ≡ what_words what }
{
    match what {
        What::Form => "bad form",
        What::Name => "bad name",
        What::Range => "out of range",
        What::Place => "bad place",
    }
}

/// The text on a line of the source.
fn at_line(alloc: Global, line: u32, words: &str) -> Result<String, NoMemory>
    ensures { IfOk result (λ text. string_bytes text ≡ at_line line words.now) }
{
    let text = format!(in alloc; "pm2: line {line}: {words}\n")?;
    Ok(text)
}

/// Why a source has no image.
fn error_line(alloc: Global, error: AsmError) -> Result<String, NoMemory>
    ensures { IfOk result (λ text. string_bytes text ≡ error_line error) }
{
    match error {
        AsmError::BadLine { line, what } => at_line(alloc, line, what_words(what)),
        AsmError::Twice { line } => at_line(alloc, line, "defined twice"),
        AsmError::Unknown { line } => at_line(alloc, line, "unknown label"),
        AsmError::FarTarget { line } => at_line(alloc, line, "target out of reach"),
        AsmError::NoMain => Ok("pm2: no main\n".to_string(alloc)?),
        AsmError::TooLong => Ok("pm2: image too long\n".to_string(alloc)?),
        AsmError::NoMemory => Ok("pm2: out of memory\n".to_string(alloc)?),
    }
}

/// The line of a thread that has ended by fault.
fn fault_line(alloc: Global, t: &Tid, kind: FaultKind, pc: u64) -> Result<String, NoMemory>
    ensures { IfOk result (λ text. string_bytes text ≡ fault_line t.now kind pc) }
{
    let home = t.home.0;
    let seq = t.seq;
    let kind = kind_word(kind);
    let text = format!(in alloc; "fault {home}.{seq} {kind} at 0x{pc:x}\n")?;
    Ok(text)
}

/// The line of an end by fault; of all else there is none.
fn label_text(alloc: Global, label: &Label) -> Result<String, NoMemory>
    ensures { IfOk result (λ text. string_bytes text ≡ label_text label.now) }
{
    match label {
        Label::Ended { t, end } => match end {
            End::Fault { kind, pc } => fault_line(alloc, t, *kind, *pc),
            End::Exit(_) => Ok(String::new(alloc)),
        },
        _ => Ok(String::new(alloc)),
    }
}

/// Puts the lines of these labels behind the text.
fn push_labels(alloc: Global, labels: &[Label], text: &mut String) -> Result<(), NoMemory>
    ensures { OnOk result (string_bytes text.new ≡ string_bytes text.old ++ flat_map label_text labels.now) }
{
    for label in labels {
        text.push_str(label_text(alloc, label)?.as_str())?;
    }
    Ok(())
}

/// The lines of the faults of a trace.
fn faults_text(alloc: Global, trace: &[Entry]) -> Result<String, NoMemory>
    ensures { IfOk result (λ text. string_bytes text ≡ faults_text trace.now) }
{
    let mut text = String::new(alloc);
    for entry in trace {
        let mut room = None;
        push_labels(alloc, entry.labels.as_slice(&mut room), &mut text)?;
    }
    Ok(text)
}

/// The line of an act that isn't possible.
fn impossible_line(alloc: Global, line: u32) -> Result<String, NoMemory>
    ensures { IfOk result (λ text. string_bytes text ≡ status_line (Status.NotPossible line)) }
{
    let text = format!(in alloc; "pm2: act at line {line} not possible\n")?;
    Ok(text)
}

/// The line of a schedule that isn't of the grammar.
fn bad_line(alloc: Global, line: u32) -> Result<String, NoMemory>
    ensures { IfOk result (λ text. string_bytes text ≡ status_line (Status.BadScheduleText line)) }
{
    let text = format!(in alloc; "pm2: bad schedule at line {line}\n")?;
    Ok(text)
}

/// The line of a status.
fn status_line(alloc: Global, status: Status) -> Result<String, NoMemory>
    ensures { IfOk result (λ text. string_bytes text ≡ status_line status) }
{
    let text = match status {
        Status::Done => "",
        Status::Usage => {
            "usage: pm2 asm FILE / run FILE / sim FILE / replay FILE SCHEDULE / stress N\n"
        }
        Status::BadSource(error) => return error_line(alloc, error),
        Status::Stalled => "pm2: stalled\n",
        Status::OutOfTurns => "pm2: out of turns\n",
        Status::ReadFault => "pm2: cannot read\n",
        Status::WriteFault => "pm2: cannot write\n",
        Status::NoMemory => "pm2: out of memory\n",
        Status::NotPossible(line) => return impossible_line(alloc, line),
        Status::BadScheduleText(line) => return bad_line(alloc, line),
    };
    Ok(text.to_string(alloc)?)
}

/// What is told of a command that has come to this status with this trace, oldest entry first: a line for each end by fault,
/// in the order of the trace, and then the line of the status.
#[tactic(auto, unfolding(crate::specs::Texts::err_text))]
pub fn err_text(alloc: Global, status: &Status, trace: &[Entry]) -> Result<String, NoMemory>
    ensures { IfOk result (λ text. string_bytes text ≡ err_text status.now trace.now) }
{
    let mut text = faults_text(alloc, trace)?;
    text.push_str(status_line(alloc, *status)?.as_str())?;
    Ok(text)
}

/// Tells want of memory where no text can be made: this takes no memory but what the output takes.
pub fn no_memory_told<E: Sink>(err: &mut E) -> Status
    ensures status { result ≡ Status.NoMemory }
    ensures told { IsMemoryTold E.takes_memory (E.written err.old) (E.written err.new) (E.faults err.old) (E.faults err.new) }
    ensures later { E.faults err.old ≤ E.faults err.new }
{
    match write_piece(err, "pm2: out of memory\n".as_bytes()) {
        Ok(()) => Status::NoMemory,
        Err(WriteRefusal::Failed) => Status::NoMemory,
        Err(WriteRefusal::NoMemory) => Status::NoMemory,
    }
}

/// Writes what is told of a command. Its status stays, but for want of memory.
fn status_told<E: Sink>(alloc: Global, ended: &Report, err: &mut E) -> Status
    ensures told { StatusTold E.takes_memory ended.now result (E.written err.old) (E.written err.new) (E.faults err.old) (E.faults err.new) }
    ensures later { E.faults err.old ≤ E.faults err.new }
{
    let text = match err_text(alloc, &ended.status, ended.trace.as_slice()) {
        Ok(text) => text,
        Err(NoMemory) => return no_memory_told(err),
    };
    match write_piece(err, text.as_bytes()) {
        Ok(()) => ended.status,
        Err(WriteRefusal::Failed) => ended.status,
        Err(WriteRefusal::NoMemory) => Status::NoMemory,
    }
}

/// Tells what a command has come to.
pub(crate) fn tell<E: Sink>(alloc: Global, ended: Report, err: &mut E) -> Report
    ensures told { Reports E.takes_memory ended result (E.written err.old) (E.written err.new) (E.faults err.old) (E.faults err.new) }
    ensures later { E.faults err.old ≤ E.faults err.new }
{
    let status = status_told(alloc, &ended, err);
    Report {
        status,
        trace: ended.trace,
        wires: ended.wires,
    }
}
