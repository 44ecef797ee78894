//! What is told on the error output.

ghost use Rattle.std.specs.Prelude.{◌≡◌, IfOk};
ghost use Rattle.std.specs.String.{string_bytes};
ghost use Rattle.pm2_picture.specs.Statuses.{status_line};

use crate::status::Status;
use basics::NoMemory;
use outside::{Sink, write_piece};
use std::alloc::Global;

/// The line of a bad trace.
fn bad_line(alloc: Global, line: u32) -> Result<String, NoMemory>
    ensures { IfOk result (λ text. string_bytes text ≡ status_line (Status.BadTrace line)) }
{
    let text = format!(in alloc; "pm2_picture: bad trace at line {line}\n")?;
    Ok(text)
}

/// The line of a status.
fn status_line(alloc: Global, status: &Status) -> Result<String, NoMemory>
    ensures { IfOk result (λ text. string_bytes text ≡ status_line status.now) }
{
    let text = match status {
        Status::Done => "",
        Status::Usage => {
            "usage: pm2_picture TRACE OUT.svg / TRACE OUT.paje, with --from S and --to S for some of the stamps\n"
        }
        Status::BadTrace(line) => return bad_line(alloc, *line),
        Status::TooMany => {
            "pm2_picture: more than 200000 entries: choose some of the stamps by --from S and --to S\n"
        }
        Status::ReadFault => "pm2_picture: cannot read\n",
        Status::WriteFault => "pm2_picture: cannot write\n",
        Status::NoMemory => "pm2_picture: out of memory\n",
    };
    Ok(text.to_string(alloc)?)
}

/// Tells a status. What can't be told is lost.
pub(crate) fn tell<E: Sink>(alloc: Global, status: &Status, err: &mut E) {
    if let Ok(text) = status_line(alloc, status) {
        let _ = write_piece(err, text.as_bytes());
    }
}
