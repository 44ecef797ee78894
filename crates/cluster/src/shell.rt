//! A cluster without its nodes.

ghost use Rattle.std.specs.Prelude.{◌≡◌};

use run_trace::{Packet, Program, Setup};
use std::alloc::Global;
use std::marker::Model;
use wires::Ends;

/// What is left of a cluster while its nodes are driven apart from it.
#[derive(Drop)]
pub struct Shell {
    pub(crate) alloc: Global,
    pub(crate) program: Program,
    // The ends of the wires' further nodes.
    pub(crate) rest: Vec<Ends<Packet>>,
}

impl Model for Shell {
    ghost use Rattle.cluster.specs.Apart.{IsShell};
    ghost use Rattle.cluster.specs.View.{ShellView};

    ghost Value = { ShellView };

    ghost view = { λ s. record { program = s.program; rest = s.rest.items } };

    // A cluster can stand with the program, and the ends were never used.
    ghost invariant = { λ s. IsShell (record { program = s.program; rest = s.rest.items }) };
}

impl Shell {
    /// The setup that its nodes must have.
    pub fn setup(&self) -> &Setup
        ensures { result.now ≡ self.now.program.setup }
    {
        self.program.setup()
    }
}
