//! Writes a trace.

ghost use Rattle.std.specs.Prelude.{◌≡◌, ◌++◌, ◌∷◌, [], ◌<◌, ℕ, map, decimal, OnOk, IfOk};
ghost use Rattle.std.specs.List.{flat_map};
ghost use Rattle.std.specs.Option.{option_map};
ghost use Rattle.trace_text.specs.Calls.{row_of};
ghost use Rattle.trace_text.specs.Words.{tid_text, slots_text, glyph, byte_text, bytes_text, reply_text, kind_text, stop_text, first_text, act_words, why_words, end_words, extra_words, word_text};
ghost use Rattle.trace_text.specs.Lines.{spaced, words_text, head_words, said_words, asked_words, label_words, line_text, entry_lines, trace_lines, trace_text};

use crate::rows::{Row, call_numbered};
use basics::NoMemory;
use itoa::Buffer;
use marcel_core::End;
use run_trace::{Act, Entry, Extra, Label, Why};
use rv_step::{FaultKind, Stop};
use slot_space::{SlotNo, Tid};
use std::alloc::{AllocError, Global};

/// A word of a line.
#[derive(Clone, Copy)]
pub enum Word<'a> {
    /// These letters.
    Text(&'a [u8]),
    Number(u64),
    /// A thread's name.
    Thread(&'a Tid),
    Slots(&'a [SlotNo]),
    /// A slot, or none.
    First(Option<SlotNo>),
    /// What a thread has in a0, which is signed.
    Reply(u64),
}

/// Appends a number in decimal digits.
pub fn push_number(out: &mut Vec<u8>, n: u64) -> Result<(), AllocError>
    ensures { OnOk result (out.new.items ≡ out.old.items ++ decimal n) }
{
    out.extend_from_slice(Buffer::new().format(n).as_bytes())
}

/// Appends a thread's name.
fn push_tid(out: &mut Vec<u8>, t: &Tid) -> Result<(), AllocError>
    ensures { OnOk result (out.new.items ≡ out.old.items ++ tid_text t.now) }
{
    push_number(out, t.home.0 as u64)?;
    out.push(b'.')?;
    push_number(out, t.seq as u64)
}

fn push_slots(out: &mut Vec<u8>, slots: &[SlotNo]) -> Result<(), AllocError>
    ensures { OnOk result (out.new.items ≡ out.old.items ++ slots_text slots.now) }
{
    let Some((first, others)) = slots.split_first() else {
        return out.extend_from_slice(b"-")
    };
    push_number(out, first.0 as u64)?;
    for slot in others {
        out.push(b',')?;
        push_number(out, slot.0 as u64)?;
    }
    Ok(())
}

fn glyph(digit: u8) -> u8
    requires { digit < 16 }
    ensures { result ≡ glyph digit }
{
    if digit < 10 { b'0' + digit } else { 87 + digit }
}

fn push_bytes(out: &mut Vec<u8>, bytes: &[u8]) -> Result<(), AllocError>
    ensures { OnOk result (out.new.items ≡ out.old.items ++ bytes_text bytes.now) }
{
    if bytes.is_empty() {
        return out.extend_from_slice(b"-");
    }
    for byte in bytes {
        out.extend_from_slice(&[glyph(byte / 16), glyph(byte % 16)])?;
    }
    Ok(())
}

fn push_reply(out: &mut Vec<u8>, reply: u64) -> Result<(), AllocError>
    ensures { OnOk result (out.new.items ≡ out.old.items ++ reply_text reply) }
{
    if reply < 1 << 63 {
        return push_number(out, reply);
    }
    out.push(b'-')?;
    push_number(out, u64::MAX - reply + 1)
}

fn push_word(out: &mut Vec<u8>, word: &Word) -> Result<(), AllocError>
    ensures { OnOk result (out.new.items ≡ out.old.items ++ word_text word.now) }
{
    match word {
        Word::Text(letters) => out.extend_from_slice(letters),
        Word::Number(n) => push_number(out, *n),
        Word::Thread(t) => push_tid(out, t),
        Word::Slots(slots) => push_slots(out, slots),
        Word::First(None) => out.extend_from_slice(b"-"),
        Word::First(Some(slot)) => push_number(out, slot.0 as u64),
        Word::Reply(reply) => push_reply(out, *reply),
    }
}

/// Appends words, each behind a blank.
pub fn push_words(out: &mut Vec<u8>, words: &[Word]) -> Result<(), AllocError>
    ensures { OnOk result (out.new.items ≡ out.old.items ++ spaced (map word_text words.now)) }
{
    for word in words {
        out.push(b' ')?;
        push_word(out, word)?;
    }
    Ok(())
}

fn kind_text(kind: FaultKind) -> &'static [u8]
    ensures { result.now ≡ kind_text kind }
{
    match kind {
        FaultKind::Illegal => b"illegal",
        FaultKind::Break => b"break",
        FaultKind::Misaligned => b"misaligned",
        FaultKind::Fetch => b"fetch",
        FaultKind::Load => b"load",
        FaultKind::Store => b"store",
    }
}

fn stop_text(stop: Stop) -> &'static [u8]
    ensures { result.now ≡ stop_text stop }
{
    match stop {
        Stop::Quantum => b"quantum",
        Stop::Call => b"call",
        Stop::Fault(kind) => kind_text(kind),
    }
}

fn push_act(out: &mut Vec<u8>, act: &Act) -> Result<(), AllocError>
    ensures { OnOk result (out.new.items ≡ out.old.items ++ spaced (act_words act.now)) }
{
    match act {
        Act::Boot => push_words(out, &[Word::Text(b"boot")]),
        Act::Run(vp, quantum) => push_words(
            out,
            &[
                Word::Text(b"run"),
                Word::Number(*vp as u64),
                Word::Number(*quantum as u64),
            ],
        ),
        Act::Take(from) => push_words(out, &[Word::Text(b"take"), Word::Number(from.0 as u64)]),
        Act::Move(t, to) => push_words(
            out,
            &[
                Word::Text(b"move"),
                Word::Thread(t),
                Word::Number(to.0 as u64),
            ],
        ),
    }
}

fn push_why(out: &mut Vec<u8>, why: &Why) -> Result<(), AllocError>
    ensures { OnOk result (out.new.items ≡ out.old.items ++ spaced (why_words why.now)) }
{
    match why {
        Why::Main => push_words(out, &[Word::Text(b"main")]),
        Why::Create(by) => push_words(out, &[Word::Text(b"create"), Word::Thread(by)]),
        Why::Inside(by, bubble) => push_words(
            out,
            &[
                Word::Text(b"in"),
                Word::Thread(by),
                Word::Number(*bubble as u64),
            ],
        ),
        Why::Service(by, count) => push_words(
            out,
            &[
                Word::Text(b"service"),
                Word::Thread(by),
                Word::Number(*count as u64),
            ],
        ),
    }
}

fn push_end(out: &mut Vec<u8>, end: &End) -> Result<(), AllocError>
    ensures { OnOk result (out.new.items ≡ out.old.items ++ spaced (end_words end.now)) }
{
    match end {
        End::Exit(value) => push_words(out, &[Word::Text(b"exit"), Word::Number(*value)]),
        End::Fault { kind, pc } => push_words(
            out,
            &[Word::Text(kind_text(*kind)), Word::Number(*pc)],
        ),
    }
}

fn push_extra(out: &mut Vec<u8>, extra: &Extra) -> Result<(), AllocError>
    ensures { OnOk result (out.new.items ≡ out.old.items ++ spaced (extra_words extra.now)) }
{
    match extra {
        Extra::Nothing => Ok(()),
        Extra::Second(second) => push_words(out, &[Word::Number(*second)]),
        Extra::Bytes(bytes) => {
            out.extend_from_slice(b" x")?;
            push_bytes(out, bytes.as_slice())
        }
    }
}

fn push_numbers(out: &mut Vec<u8>, numbers: &[u64]) -> Result<(), AllocError>
    ensures { OnOk result (out.new.items ≡ out.old.items ++ spaced (map decimal numbers.now)) }
{
    for number in numbers {
        out.push(b' ')?;
        push_number(out, *number)?;
    }
    Ok(())
}

fn push_asked(
    out: &mut Vec<u8>,
    row: Option<Row>,
    call: u64,
    args: &[u64],
    bytes: &[u8],
) -> Result<(), AllocError>
    ensures { OnOk result (out.new.items ≡ out.old.items ++ spaced (asked_words (option_map row_of row) call args.now bytes.now)) }
{
    let Some(row) = row else {
        push_words(out, &[Word::Text(b"unknown"), Word::Number(call)])?;
        return push_numbers(out, args)
    };
    push_words(out, &[Word::Text(row.name)])?;
    push_numbers(out, args)?;
    if !row.says {
        return Ok(());
    }
    out.push(b' ')?;
    push_bytes(out, bytes)
}

/// Appends a label's name and words behind it.
fn push_named(out: &mut Vec<u8>, name: &[u8], words: &[Word]) -> Result<(), AllocError>
    ensures { OnOk result (out.new.items ≡ out.old.items ++ (name.now ++ spaced (map word_text words.now))) }
{
    out.extend_from_slice(name)?;
    push_words(out, words)
}

fn push_label(out: &mut Vec<u8>, label: &Label) -> Result<(), AllocError>
    ensures { OnOk result (out.new.items ≡ out.old.items ++ words_text (label_words label.now)) }
{
    match label {
        Label::Born {
            t,
            why,
            entry,
            a0,
            a1,
            sp,
            slot,
        } => {
            push_named(out, b"born", &[Word::Thread(t)])?;
            push_why(out, why)?;
            push_numbers(out, &[*entry, *a0, *a1, *sp, slot.0 as u64])
        }
        Label::Ran { t, vp, count, stop } => push_named(
            out,
            b"ran",
            &[
                Word::Thread(t),
                Word::Number(*vp as u64),
                Word::Number(*count as u64),
                Word::Text(stop_text(*stop)),
            ],
        ),
        Label::Asked {
            t,
            call,
            args,
            bytes,
        } => {
            push_named(out, b"asked", &[Word::Thread(t)])?;
            push_asked(
                out,
                call_numbered(*call),
                *call,
                args.as_slice(),
                bytes.as_slice(),
            )
        }
        Label::Heard(t) => push_named(out, b"heard", &[Word::Thread(t)]),
        Label::Judged { t, reply, extra } => {
            push_named(out, b"judged", &[Word::Thread(t), Word::Reply(*reply)])?;
            push_extra(out, extra)
        }
        Label::Told(t) => push_named(out, b"told", &[Word::Thread(t)]),
        Label::Took { t, first, count } => push_named(
            out,
            b"took",
            &[
                Word::Thread(t),
                Word::Number(first.0 as u64),
                Word::Number(*count as u64),
            ],
        ),
        Label::Gave { t, slots } => push_named(
            out,
            b"gave",
            &[Word::Thread(t), Word::Slots(slots.as_slice())],
        ),
        Label::Ended { t, end } => {
            push_named(out, b"ended", &[Word::Thread(t)])?;
            push_end(out, end)
        }
        Label::Known(t) => push_named(out, b"known", &[Word::Thread(t)]),
        Label::Left { t, to } => push_named(
            out,
            b"left",
            &[Word::Thread(t), Word::Number(to.0 as u64)],
        ),
        Label::Came(t) => push_named(out, b"came", &[Word::Thread(t)]),
        Label::Lent { to, slots } => push_named(
            out,
            b"lent",
            &[Word::Number(to.0 as u64), Word::Slots(slots.as_slice())],
        ),
        Label::InHand { lender, slots } => push_named(
            out,
            b"inhand",
            &[Word::Number(lender.0 as u64), Word::Slots(slots.as_slice())],
        ),
        Label::Decided { t, count, first } => push_named(
            out,
            b"decided",
            &[
                Word::Thread(t),
                Word::Number(*count as u64),
                Word::First(*first),
            ],
        ),
        Label::Returned { to, slots } => push_named(
            out,
            b"returned",
            &[Word::Number(to.0 as u64), Word::Slots(slots.as_slice())],
        ),
        Label::Home { slots } => push_named(out, b"home", &[Word::Slots(slots.as_slice())]),
        Label::Down { bubble, list } => push_named(
            out,
            b"down",
            &[Word::Number(*bubble as u64), Word::Number(*list as u64)],
        ),
        Label::Burst { bubble, list } => push_named(
            out,
            b"burst",
            &[Word::Number(*bubble as u64), Word::Number(*list as u64)],
        ),
        Label::Gathered { bubble, count } => push_named(
            out,
            b"gathered",
            &[Word::Number(*bubble as u64), Word::Number(*count as u64)],
        ),
        Label::Shown(t) => push_named(out, b"shown", &[Word::Thread(t)]),
        Label::Halted(t) => push_named(out, b"halted", &[Word::Thread(t)]),
        Label::Dropped { t, count, reply } => push_named(
            out,
            b"dropped",
            &[
                Word::Thread(t),
                Word::Number(*count as u64),
                Word::Reply(*reply),
            ],
        ),
    }
}

fn push_head(out: &mut Vec<u8>, entry: &Entry) -> Result<(), AllocError>
    ensures { OnOk result (out.new.items ≡ out.old.items ++ line_text (head_words entry.now)) }
{
    push_named(
        out,
        b"@",
        &[
            Word::Number(entry.stamp),
            Word::Number(entry.node.0 as u64),
            Word::Number(entry.round),
        ],
    )?;
    push_act(out, &entry.act)?;
    out.extend_from_slice(b"\n")
}

fn push_entry(out: &mut Vec<u8>, entry: &Entry) -> Result<(), AllocError>
    ensures { OnOk result (out.new.items ≡ out.old.items ++ flat_map line_text (entry_lines entry.now)) }
{
    push_head(out, entry)?;
    let mut room = None;
    for label in entry.labels.as_slice(&mut room) {
        push_label(out, label)?;
        out.push(b'\n')?;
    }
    Ok(())
}

/// The text of a trace: a line for each entry, and behind it one for each of its labels.
pub fn trace_text(alloc: Global, trace: &[Entry]) -> Result<Vec<u8>, NoMemory>
    ensures { IfOk result (λ v. v.items ≡ trace_text trace.now) }
{
    let mut out = Vec::new(alloc);
    for entry in trace {
        push_entry(&mut out, entry)?;
    }
    Ok(out)
}
