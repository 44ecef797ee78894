//! The program `pm2`: the real files and outputs round the top call.
#![tactic(auto)]

use basics::NoMemory;
use node_loop::Open;
use outside::{RealShelf, RealSink};
use pm2_top::{no_memory_told, pm2_main};
use std::env;
use std::io::{self, ErrorKind};
use std::process::ExitCode;
use wires::Wires;

/// The words of the command line behind the program's name.
fn words(rt: &HostRuntime) -> io::Result<Vec<String>> {
    let mut words = Vec::new(rt.alloc());
    for word in env::args(rt)?.skip(1) {
        words.push(word)?;
    }
    Ok(words)
}

fn main(rt: HostRuntime) -> ExitCode {
    let mut err = RealSink::new(rt.stderr());
    let words = match words(&rt) {
        Ok(words) => words,
        Err(error) if error.kind() == ErrorKind::OutOfMemory => {
            return ExitCode::from(no_memory_told(&mut err).number());
        }
        // A word that isn't text is none of ours, and what it stands with asks for nothing.
        Err(_) => Vec::new(rt.alloc()),
    };
    let mut shelf = RealShelf::new(&rt);
    let mut out = RealSink::new(rt.stdout());
    let wires = match Wires::new(rt.alloc(), 8) {
        Ok(wires) => wires,
        Err(NoMemory) => return ExitCode::from(no_memory_told(&mut err).number()),
    };
    let alloc = rt.alloc();
    let report = pm2_main(
        &rt, alloc, &words, &mut shelf, &mut out, &mut err, wires, &Open,
    );
    ExitCode::from(report.status.number())
}
