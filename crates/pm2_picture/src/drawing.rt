//! The top call: reads a trace, draws it, and writes the picture.

ghost use Rattle.std.specs.Prelude.{◌≡◌, ◌<◌, length, IfOk, Ok, MatchResult, map};
ghost use Rattle.std.specs.String.{string_bytes};
ghost use Rattle.outside.specs.Outside.{MayHold};
ghost use Rattle.trace_text.specs.Texts.{read_trace};
ghost use Rattle.pm2_picture.specs.Drawn.{is_in, is_one_too_many, IsText, IsPictureOf, IsRefused, IsUnread, IsUndrawn, IsDrawnFrom, IsNoPicture, HasDrawn, HasNotDrawn, Ends, KeepsOthers, KeepsUnasked};

use crate::asked::{Asked, Form, picture_asked};
use crate::status::Status;
use crate::telling::tell;
use basics::NoMemory;
use outside::{ReadRefusal, Shelf, Sink, WriteRefusal};
use picture_texts::{paje_text, svg_text};
use pictures::{Shape, Window, picture_of};
use run_trace::Entry;
use std::alloc::Global;
use trace_text::{TextError, read_trace};

/// The longest trace in bytes: its lines are counted below 2^32.
const TRACE_LIMIT: u64 = 4_294_967_294;

/// The most entries that a picture has.
const MOST_ENTRIES: usize = 200_000;

/// Reads the trace's text.
fn read_text<S: Shelf>(alloc: Global, name: &str, shelf: &mut S) -> Result<Vec<u8>, Status>
    ensures read { MatchResult result (λ bytes. MayHold (S.content shelf.old) name.now bytes.items) (λ status. IsRefused status) }
    ensures files { S.content shelf.new ≡ S.content shelf.old }
    ensures short { IfOk result (λ bytes. length bytes.items < 4294967295) }
{
    match shelf.read_file(alloc, name, TRACE_LIMIT) {
        Ok(bytes) => Ok(bytes),
        Err(ReadRefusal::NoMemory) => Err(Status::NoMemory),
        Err(_) => Err(Status::ReadFault),
    }
}

/// The entries of a text.
fn entries_of(alloc: Global, text: &[u8]) -> Result<Vec<Entry>, Status>
    requires short { length text.now < 4294967295 }
    ensures { MatchResult result (λ entries. read_trace text.now ≡ Ok entries.items) (λ status. IsUnread status text.now) }
{
    match read_trace(alloc, text) {
        Ok(entries) => Ok(entries.into_vec()),
        Err(TextError::BadLine { line }) => Err(Status::BadTrace(line)),
        Err(TextError::NoMemory) => Err(Status::NoMemory),
    }
}

fn is_in(window: &Window, entry: &Entry) -> bool
    ensures { result ≡ is_in window.now entry.now }
{
    window.from <= entry.stamp && entry.stamp <= window.to
}

/// Whether the window has too many entries.
fn is_one_too_many(window: &Window, trace: &[Entry]) -> bool
    ensures { result ≡ is_one_too_many window.now trace.now }
{
    trace.iter().filter(|entry| is_in(window, entry)).count() > MOST_ENTRIES
}

/// The text of a picture.
fn text_of(alloc: Global, asked: &Asked, name: &str, shapes: &[Shape]) -> Result<Vec<u8>, NoMemory>
    ensures { IfOk result (λ text. IsText asked.now.form name.now asked.now.window shapes.now text.items) }
{
    match asked.form {
        Form::Svg => svg_text(alloc, name.as_bytes(), &asked.window, shapes),
        Form::Paje => paje_text(alloc, &asked.window, shapes),
    }
}

/// The picture of a trace.
fn draw(alloc: Global, asked: &Asked, name: &str, trace: &[Entry]) -> Result<Vec<u8>, Status>
    ensures { MatchResult result (λ text. IsPictureOf asked.now name.now trace.now text.items) (λ status. IsUndrawn asked.now trace.now status) }
{
    if is_one_too_many(&asked.window, trace) {
        return Err(Status::TooMany);
    }
    let shapes = match picture_of(alloc, &asked.window, trace) {
        Ok(shapes) => shapes,
        Err(NoMemory) => return Err(Status::NoMemory),
    };
    match text_of(alloc, asked, name, &shapes) {
        Ok(text) => Ok(text),
        Err(NoMemory) => Err(Status::NoMemory),
    }
}

/// The picture of a text.
#[tactic(auto, using(crate::proofs::Endings::unread, crate::proofs::Endings::undrawn))]
fn picture_text(alloc: Global, asked: &Asked, name: &str, text: &[u8]) -> Result<Vec<u8>, Status>
    requires short { length text.now < 4294967295 }
    ensures { MatchResult result (λ picture. IsDrawnFrom asked.now name.now text.now picture.items) (λ status. IsNoPicture asked.now text.now status) }
{
    let trace = match entries_of(alloc, text) {
        Ok(trace) => trace,
        Err(status) => return Err(status),
    };
    match draw(alloc, asked, name, &trace) {
        Ok(picture) => Ok(picture),
        Err(status) => Err(status),
    }
}

/// Reads a trace and writes its picture.
#[tactic(auto, using(crate::proofs::Endings::no_file, crate::proofs::Endings::no_picture, crate::proofs::Endings::has_drawn, crate::proofs::Endings::kept, crate::proofs::Endings::others_kept))]
fn draw_file<S: Shelf>(
    alloc: Global,
    asked: &Asked,
    trace: &str,
    out: &str,
    shelf: &mut S,
) -> Result<(), Status>
    ensures ends { MatchResult result (λ _. HasDrawn asked.now trace.now out.now (S.content shelf.old) (S.content shelf.new)) (λ status. HasNotDrawn asked.now trace.now (S.content shelf.old) status) }
    ensures others { KeepsOthers out.now (S.content shelf.old) (S.content shelf.new) }
{
    let text = match read_text(alloc, trace, shelf) {
        Ok(text) => text,
        Err(status) => return Err(status),
    };
    let picture = match picture_text(alloc, asked, trace, &text) {
        Ok(picture) => picture,
        Err(status) => return Err(status),
    };
    match shelf.write_file(out, &picture) {
        Ok(()) => Ok(()),
        Err(WriteRefusal::Failed) => Err(Status::WriteFault),
        Err(WriteRefusal::NoMemory) => Err(Status::NoMemory),
    }
}

/// Draws what the words ask for.
#[tactic(auto, using(crate::proofs::Endings::not_drawn))]
fn status_of<S: Shelf>(alloc: Global, words: &[String], shelf: &mut S) -> Status
    ensures ends { Ends (map string_bytes words.now) (S.content shelf.old) (S.content shelf.new) result }
    ensures others { KeepsUnasked (map string_bytes words.now) (S.content shelf.old) (S.content shelf.new) }
{
    let [trace, out, options @ ..] = words else {
        return Status::Usage
    };
    let Some(asked) = picture_asked(out.as_str(), options) else {
        return Status::Usage
    };
    match draw_file(alloc, &asked, trace.as_str(), out.as_str(), shelf) {
        Ok(()) => Status::Done,
        Err(status) => status,
    }
}

/// Draws what the words ask for, and tells how that ended.
pub(crate) fn picture_main<S: Shelf, E: Sink>(
    alloc: Global,
    words: &[String],
    shelf: &mut S,
    err: &mut E,
) -> Status
    ensures ends { Ends (map string_bytes words.now) (S.content shelf.old) (S.content shelf.new) result }
    ensures others { KeepsUnasked (map string_bytes words.now) (S.content shelf.old) (S.content shelf.new) }
{
    let status = status_of(alloc, words, shelf);
    tell(alloc, &status, err);
    status
}
