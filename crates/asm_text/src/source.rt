//! The lines of a source, and what each of them says.

ghost use Rattle.std.specs.Prelude.{◌≡◌, ℕ, ◌+◌, ◌<◌, ◌≤◌, ◌==◌, ◌∷◌, length, map, IfOk};
ghost use Rattle.std.specs.List.{position_or_len, AllByRecursion};
ghost use Rattle.std.specs.Str.Lines.{lines, strip_carriage_return};
ghost use Rattle.asm_text.specs.Slots.{seen};
ghost use Rattle.asm_text.specs.Lines.{line_seen, said, HasSound};

use crate::reading::{Reading, read_line};
use basics::NoMemory;
use std::alloc::Global;

/// Where the first newline stands, or the end.
fn newline(bytes: &[u8]) -> usize
    ensures { result ≡ position_or_len (λ b. b == 10) bytes.now }
{
    bytes.iter().take_while(|b| **b != b'\n').count()
}

fn without_carriage_return(line: &[u8]) -> &[u8]
    ensures { result.now ≡ strip_carriage_return line.now }
{
    if !line.is_empty() && line[line.len() - 1] == b'\r' {
        &line[..line.len() - 1]
    } else {
        line
    }
}

/// The first line, and the bytes behind it.
fn first_line(bytes: &[u8]) -> (&[u8], &[u8])
    requires { 0 < length bytes.now }
    ensures first { lines bytes.now ≡ result.0.now ∷ lines result.1.now }
    ensures shorter { length result.0.now + length result.1.now ≤ length bytes.now }
    ensures falls { length result.1.now < length bytes.now }
{
    let end = newline(bytes);
    if end < bytes.len() {
        (without_carriage_return(&bytes[..end]), &bytes[end + 1..])
    } else {
        (bytes, &[])
    }
}

/// What each line of a source says, or what is wrong with it.
pub fn read_source(alloc: Global, source: &[u8]) -> Result<Vec<Reading<'_>>, NoMemory>
    ensures exact { IfOk result (λ v. map (seen line_seen) v.items ≡ said source.now) }

    // Each instruction fits a word, and no statement's data is longer than the source.
    ensures sound { IfOk result (λ v. AllByRecursion (HasSound (length source.now)) (map (seen line_seen) v.items)) }
{
    let mut readings = Vec::new(alloc);
    let mut rest = source;
    while !rest.is_empty() {
        let (line, after) = first_line(rest);
        readings.push(read_line(alloc, line)?)?;
        rest = after;
    }
    Ok(readings)
}
