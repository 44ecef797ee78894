//! The program `pm2_picture`: a trace text drawn as SVG or as a Pajé trace.
#![tactic(auto)]

mod asked;
mod drawing;
mod number;
mod status;
mod telling;

use crate::drawing::picture_main;
use crate::status::{Status, status_number};
use outside::{RealShelf, RealSink};
use std::env;
use std::io::{self, ErrorKind};
use std::process::ExitCode;

/// The words of the command line behind the program's name.
fn words(rt: &HostRuntime) -> io::Result<Vec<String>> {
    let mut words = Vec::new(rt.alloc());
    for word in env::args(rt)?.skip(1) {
        words.push(word)?;
    }
    Ok(words)
}

fn main(rt: HostRuntime) -> ExitCode {
    let words = match words(&rt) {
        Ok(words) => words,
        Err(error) if error.kind() == ErrorKind::OutOfMemory => {
            return ExitCode::from(status_number(&Status::NoMemory));
        }
        // A word that isn't text is none of ours, and what it stands with asks for nothing.
        Err(_) => Vec::new(rt.alloc()),
    };
    let mut shelf = RealShelf::new(&rt);
    let mut err = RealSink::new(rt.stderr());
    let alloc = rt.alloc();
    let status = picture_main(alloc, &words, &mut shelf, &mut err);
    ExitCode::from(status_number(&status))
}
