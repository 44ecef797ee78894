//! What a command has come to.

ghost use Rattle.std.specs.Prelude.{◌≡◌};
ghost use Rattle.pm2_top.specs.Outcome.{plainly, run_report};

use crate::status::Status;
use basics::Items;
use run_trace::{Entry, Packet};
use simulation::Simulated;
use std::alloc::Global;
use wires::Wires;

/// What a command has come to.
#[derive(Drop)]
pub struct Report {
    pub status: Status,
    /// The trace of its run, oldest entry first; empty where nothing has run.
    pub trace: Items<Entry>,
    /// The links that were given, which have carried the packets of its run; at want of memory maybe none.
    pub wires: Wires<Packet>,
}

impl Report {
    /// Of a command that has run nothing.
    pub(crate) fn plain(alloc: Global, status: Status, wires: Wires<Packet>) -> Report
        ensures { result ≡ plainly status wires }
    {
        Report {
            status,
            trace: Items::new(Vec::new(alloc)),
            wires,
        }
    }

    /// Of a run that has ended.
    pub(crate) fn of_run(run: Simulated) -> Report
        ensures { result ≡ run_report run }
    {
        Report {
            status: Status::from(run.end),
            trace: run.trace,
            wires: run.wires,
        }
    }
}
