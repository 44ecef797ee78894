//! A schedule, read.

ghost use Rattle.std.specs.Prelude.{◌≡◌, ℕ, ◌^◌, ◌<◌, length, OnOk, IsErrOf, Err};
ghost use Rattle.levels.specs.Trees.{processors};
ghost use Rattle.run_texts.specs.Parts.{lines_of};
ghost use Rattle.run_texts.specs.Schedules.{Reading, Reads, behind, goes_on, schedule_of};

use crate::act::{Said, said_in};
use crate::parts::first_part;
use basics::Items;
use run_trace::{Act, Setup};
use slot_space::NodeNo;
use std::alloc::Global;
use trace_text::TextError;

/// No schedule has more acts.
const MOST_ACTS: usize = 1_000_000;

/// An act of a schedule, with the number of its line, counted from 1.
#[derive(Clone, Copy)]
pub struct Scheduled {
    pub line: u32,
    pub node: NodeNo,
    pub act: Act,
}

/// Takes in what the next line says.
fn take_line(acts: &mut Vec<Scheduled>, line: u32, said: Said) -> Result<(), TextError>
    ensures good { OnOk result ((rest : ℕ → Reading) → behind acts.new.items (rest (length acts.new.items)) ≡ behind acts.old.items (goes_on line (length acts.old.items) said rest)) }
    ensures bad { (bad : ℕ) → IsErrOf result (TextError.BadLine bad) → (bad ≡ line) × ((rest : ℕ → Reading) → goes_on line (length acts.old.items) said rest ≡ Err line) }
{
    match said {
        Said::Nothing => Ok(()),
        Said::Bad => Err(TextError::BadLine { line }),
        Said::Act(node, act) => {
            if acts.len() >= MOST_ACTS {
                return Err(TextError::BadLine { line });
            }
            match acts.push(Scheduled { line, node, act }) {
                Ok(()) => Ok(()),
                Err(_) => Err(TextError::NoMemory),
            }
        }
    }
}

/// The acts of a schedule for this cluster, in order.
pub fn read_schedule(
    alloc: Global,
    text: &[u8],
    setup: &Setup,
) -> Result<Items<Scheduled>, TextError>
    requires { length (lines_of text.now) < 2 ^ 32 }
    ensures { Reads result (schedule_of setup.now.geometry.nodes (processors setup.now.tree) text.now) }
{
    read_within(alloc, text, setup.geometry.nodes, setup.tree.processors())
}

/// The acts of a schedule for so many nodes, each with so many processors, in order.
#[tactic(auto, unfolding(crate::specs::Schedules::schedule_of))]
fn read_within(
    alloc: Global,
    text: &[u8],
    nodes: u8,
    processors: u8,
) -> Result<Items<Scheduled>, TextError>
    requires { length (lines_of text.now) < 2 ^ 32 }
    ensures { Reads result (schedule_of nodes processors text.now) }
{
    let mut acts = Vec::new(alloc);
    let mut rest = text;
    let mut line = 0;
    while !rest.is_empty() {
        let (first, after) = first_part(b'\n', rest);
        line += 1;
        if let Err(error) = take_line(&mut acts, line, said_in(nodes, processors, first)) {
            return Err(error);
        }
        rest = after;
    }
    Ok(Items::new(acts))
}
