//! What doesn't change while a program runs.

ghost use Rattle.std.specs.Prelude.{◌≡◌, IfOk};
ghost use Rattle.run_trace.specs.Program.{nodes_of, processors_of};

use crate::entry::Setup;
use basics::NoMemory;
use rv_inst::Image;
use std::alloc::Global;
use std::marker::Model;

/// The setup and the image. Contracts see it as the definition's.
#[derive(Drop)]
pub struct Program {
    setup: Setup,
    image: Image,
}

impl Model for Program {
    ghost use Rattle.run_trace.specs.Program.{Program as TheProgram};

    ghost Value = { TheProgram };

    ghost view = { λ p. record { setup = p.setup; image = p.image } };
}

impl Program {
    /// The program of this setup, with a copy of the image.
    pub fn of(alloc: Global, setup: &Setup, image: &Image) -> Result<Program, NoMemory>
        ensures { IfOk result (λ p. p ≡ record { setup = setup.now; image = image.now }) }
    {
        Ok(Program {
            setup: *setup,
            image: image.try_clone(alloc)?,
        })
    }

    /// Its setup.
    pub fn setup(&self) -> &Setup
        ensures { result.now ≡ self.now.setup }
    {
        &self.setup
    }

    /// Its image.
    pub fn image(&self) -> &Image
        ensures { result.now ≡ self.now.image }
    {
        &self.image
    }

    /// How many nodes it runs on.
    pub fn nodes(&self) -> u8
        ensures { result ≡ nodes_of self.now }
    {
        self.setup.geometry.nodes()
    }

    /// How many processors each node has.
    pub fn processors(&self) -> u8
        ensures { result ≡ processors_of self.now }
    {
        self.setup.tree.processors()
    }
}
