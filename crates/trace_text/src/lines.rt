//! Reads a trace, line by line.

ghost use Rattle.std.specs.Prelude.{◌≡◌, ◌<◌, ◌^◌, ◌++◌, ◌∷◌, [], ℕ, List, None, Ok, length, IfOk, IfSome};
ghost use Rattle.std.specs.Option.{option_map};
ghost use Rattle.trace_text.specs.Reading.{left, given, parts, head};
ghost use Rattle.trace_text.specs.Fits.{FitsTrace};
ghost use Rattle.trace_text.specs.Lines.{trace_text};
ghost use Rattle.trace_text.specs.Texts.{head_line, label_line, line_at, at_line, shut, with_rest, read_trace, Reads, Goes};

use crate::error::TextError;
use crate::labels::label_named;
use crate::one_word::cut;
use crate::several::{act, long, small};
use basics::Items;
use run_trace::{Entry, Label, Labels};
use slot_space::NodeNo;
use std::alloc::{AllocError, Global};

/// A line of a trace's text.
#[derive(Drop)]
pub(crate) enum Line {
    /// The head of an entry that has no labels yet.
    Head(Entry),
    /// A label of the entry whose head was the last one.
    Said(Label),
}

/// What was read: entries that are done, and the last one with its labels so far.
#[derive(Drop)]
pub(crate) struct Reading {
    pub(crate) done: Vec<Entry>,
    pub(crate) last: Option<Entry>,
    pub(crate) labels: Vec<Label>,
}

fn head(alloc: Global, rest: &[u8]) -> Option<(Entry, &[u8])>
    ensures { head (left 32 rest.now) ≡ option_map given result }
{
    let Some((stamp, rest)) = long(rest) else {
        return None
    };
    let Some((node, rest)) = small(rest) else {
        return None
    };
    let Some((round, rest)) = long(rest) else {
        return None
    };
    let Some((act, rest)) = act(rest) else {
        return None
    };
    let entry = Entry {
        stamp,
        node: NodeNo(node),
        round,
        act,
        labels: Labels::none(alloc),
    };
    Some((entry, rest))
}

#[tactic(auto, using(crate::proofs::LineFacts::not_ended))]
fn head_line(alloc: Global, rest: &[u8]) -> Option<Line>
    ensures { head_line (left 32 rest.now) ≡ result }
{
    let Some((entry, rest)) = head(alloc, rest) else {
        return None
    };
    if !rest.is_empty() {
        return None;
    }
    Some(Line::Head(entry))
}

#[tactic(auto, using(crate::proofs::LineFacts::not_ended))]
fn label_line(alloc: Global, name: &[u8], rest: &[u8]) -> Result<Option<Line>, AllocError>
    ensures { IfOk result (λ o. label_line name.now (left 32 rest.now) ≡ o) }
{
    let (label, rest) = match label_named(alloc, name, rest) {
        Ok(Some(read)) => read,
        Ok(None) => return Ok(None),
        Err(error) => return Err(error),
    };
    if !rest.is_empty() {
        return Ok(None);
    }
    Ok(Some(Line::Said(label)))
}

/// What a line says, without its newline.
#[tactic(auto, unfolding(crate::specs::Texts::line_at))]
fn line_at(alloc: Global, line: &[u8]) -> Result<Option<Line>, AllocError>
    ensures { IfOk result (λ o. o ≡ line_at line.now) }
{
    let (name, rest) = cut(b' ', line);
    if name == b"@".as_slice() {
        return Ok(head_line(alloc, rest));
    }
    label_line(alloc, name, rest)
}

fn shut(alloc: Global, reading: Reading) -> Result<Vec<Entry>, AllocError>
    ensures { IfOk result (λ v. v.items ≡ shut reading.done.items reading.last reading.labels.items) }
{
    let Reading { done, last, labels } = reading;
    let mut done = done;
    if let Some(last) = last {
        done.push(Entry {
            stamp: last.stamp,
            node: last.node,
            round: last.round,
            act: last.act,
            labels: Labels::new(alloc, Items::new(labels))?,
        })?;
    }
    Ok(done)
}

fn add_line(alloc: Global, line: u32, reading: Reading, bytes: &[u8]) -> Result<Reading, TextError>
    ensures { Goes line (line_at bytes.now) reading result }
{
    match line_at(alloc, bytes)? {
        None => Err(TextError::BadLine { line }),
        Some(Line::Head(entry)) => Ok(Reading {
            done: shut(alloc, reading)?,
            last: Some(entry),
            labels: Vec::new(alloc),
        }),
        Some(Line::Said(label)) => {
            if line == 1 {
                return Err(TextError::BadLine { line });
            }
            Ok(add_label(reading, label)?)
        }
    }
}

fn add_label(reading: Reading, label: Label) -> Result<Reading, AllocError>
    ensures { IfOk result (λ x. (x.done.items ≡ reading.done.items) × (x.last ≡ reading.last) × (x.labels.items ≡ reading.labels.items ++ label ∷ [])) }
{
    let mut reading = reading;
    reading.labels.push(label)?;
    Ok(reading)
}

/// A line without its newline, and what is behind it; none where no newline stands.
fn next_line(text: &[u8]) -> Option<(&[u8], &[u8])>
    ensures line { IfSome result (λ p. (parts 10 text.now ≡ p.0.now ∷ parts 10 p.1.now) × (length p.1.now < length text.now)) }
    ensures last { result ≡ None → parts 10 text.now ≡ text.now ∷ [] }
{
    let (line, behind) = cut(b'\n', text);
    let Some((_, behind)) = behind.split_first() else {
        return None
    };
    Some((line, behind))
}

#[tactic(auto, unfolding(crate::specs::Texts::read_trace))]
fn read_lines(alloc: Global, text: &[u8]) -> Result<Vec<Entry>, TextError>
    requires { length (parts 10 text.now) < 2 ^ 32 }
    ensures { Reads (λ v. v.items) result (read_trace text.now) }
{
    let mut reading = Reading {
        done: Vec::new(alloc),
        last: None,
        labels: Vec::new(alloc),
    };
    let mut line = 1;
    let mut rest = text;
    while !rest.is_empty() {
        let Some((bytes, behind)) = next_line(rest) else {
            return Err(TextError::BadLine { line })
        };
        match add_line(alloc, line, reading, bytes) {
            Err(error) => return Err(error),
            Ok(next) => reading = next,
        }
        line += 1;
        rest = behind;
    }
    Ok(shut(alloc, reading)?)
}

/// The trace of a text, or the first line that isn't of the grammar.
pub fn read_trace(alloc: Global, text: &[u8]) -> Result<Items<Entry>, TextError>
    requires { length (parts 10 text.now) < 2 ^ 32 }
    ensures exact { Reads (λ v. v) result (read_trace text.now) }

    // What is read fits, and the text is its own.
    ensures found { IfOk result (λ v. FitsTrace v × (text.now ≡ trace_text v)) }

    // What was written is read again.
    ensures again { (xs : List Entry) → FitsTrace xs → text.now ≡ trace_text xs → Reads (λ v. v) result (Ok xs) }
{
    read_items(alloc, text)
}

fn read_items(alloc: Global, text: &[u8]) -> Result<Items<Entry>, TextError>
    requires { length (parts 10 text.now) < 2 ^ 32 }
    ensures { Reads (λ v. v) result (read_trace text.now) }
{
    Ok(Items::new(read_lines(alloc, text)?))
}
