//! What a command line asks for.

ghost use Rattle.std.specs.Prelude.{◌≡◌, true, Some, None, IfOk, IfSome, IsErrOf};
ghost use Rattle.std.specs.Option.{option_map};
ghost use Rattle.words.specs.Seen.{values_given};
ghost use Rattle.settings.specs.Numbers.{are_apart, quantum, turns};
ghost use Rattle.settings.specs.Settings.{always_sums, chosen_with, turns_of};
ghost use Rattle.settings.specs.Seen.{chosen, chosen_in, option_seen, IsBetween, IsWithinLimits};

use crate::command::Command;
use crate::name::Name;
use crate::number::{NumberOption, at_most_one};
use crate::table::{
    LONG_TURNS, MOVES, NODES, QUANTUM, SCHEDULE, SEED, SLOTS, SUMMARY, TRACE, TURNS, flag_at,
    number_at, tree_at,
};
use run_trace::Setup;
use slot_space::Geometry;
use std::alloc::{AllocError, Global};
use words::{Given, WordsError};

/// What a command line asks for.
#[derive(Drop)]
pub struct Settings {
    pub command: Command,
    /// The cluster. `replay` has the usual quantum, since each act has its own.
    pub setup: Setup,
    /// The run ends after this many entries other than the nodes' beginnings. `replay` ends with its schedule.
    pub turns: u64,
    /// What the order of events is drawn from.
    pub seed: u64,
    /// Whether the flag `--moves` is given.
    pub moves: bool,
    /// Whether the summary is shown: `stress` always does.
    pub summary: bool,
    /// The file to write the trace to.
    pub trace: Option<Name>,
    /// The file to write the acts to. It isn't the trace's.
    pub schedule: Option<Name>,
}

/// The turns that a command has.
fn turns_of(command: &Command) -> NumberOption
    ensures { option_seen result ≡ turns_of command.now }
{
    match command {
        Command::Stress(_) => LONG_TURNS,
        _ => TURNS,
    }
}

/// Whether a command shows the summary without being asked.
fn always_sums(command: &Command) -> bool
    ensures { result ≡ always_sums command.now }
{
    matches!(command, Command::Stress(_))
}

/// Whether not both are given with one name.
fn are_apart(trace: Option<&str>, schedule: Option<&str>) -> bool
    ensures { result ≡ are_apart (option_map (λ s. s.now) trace.entry) (option_map (λ s. s.now) schedule.entry) }
{
    match (trace, schedule) {
        (Some(trace), Some(schedule)) => trace != schedule,
        _ => true,
    }
}

/// What the options and flags ask for, by names that aren't owned.
#[derive(Drop)]
struct Asked<'a> {
    setup: Setup,
    turns: u64,
    seed: u64,
    moves: bool,
    summary: bool,
    trace: Option<&'a str>,
    schedule: Option<&'a str>,
}

/// The numbers, the tree, the flags and the names of a command.
fn asked_with<'a>(command: &Command, given: &Given<'a>) -> Option<Asked<'a>>
    ensures value { option_map (chosen_in command.now) result ≡ chosen_with command.now (values_given given.now) }
    ensures limits { IfSome result (λ a. IsBetween quantum.low quantum.high a.setup.quantum × IsBetween turns.low turns.high a.turns) }
    ensures apart { IfSome result (λ a. are_apart (option_map (λ s. s.now) a.trace) (option_map (λ s. s.now) a.schedule) ≡ true) }
{
    let nodes = number_at(given, NODES)?;
    let slots = number_at(given, SLOTS)?;
    let quantum = number_at(given, QUANTUM)?;
    let turns = number_at(given, turns_of(command))?;
    let seed = number_at(given, SEED)?;
    let moves = flag_at(given, MOVES)?;
    let summary = flag_at(given, SUMMARY)?;
    let trace = at_most_one(given.values(TRACE))?;
    let schedule = at_most_one(given.values(SCHEDULE))?;
    let tree = tree_at(given)?;
    if !are_apart(trace, schedule) {
        return None;
    }
    Some(Asked {
        setup: Setup {
            geometry: Geometry {
                nodes: nodes as u8,
                slots: slots as u16,
            },
            tree,
            quantum: quantum as u32,
        },
        turns,
        seed,
        moves,
        summary: always_sums(command) || summary,
        trace,
        schedule,
    })
}

/// A name of its own, if there is one.
fn owned(alloc: Global, name: Option<&str>) -> Result<Option<Name>, AllocError>
    ensures { IfOk result (λ o. o ≡ option_map (λ s. s.now) name.entry) }
{
    match name {
        None => Ok(None),
        Some(name) => Ok(Some(Name::of(alloc, name)?)),
    }
}

/// A command with its numbers, its tree, its flags and its names.
pub(crate) fn settings_with(
    alloc: Global,
    command: Command,
    given: &Given,
) -> Result<Settings, WordsError>
    ensures ok { IfOk result (λ s. chosen_with command (values_given given.now) ≡ Some (chosen s)) }
    ensures usage { IsErrOf result WordsError.Usage → chosen_with command (values_given given.now) ≡ None }
    ensures limits { IfOk result IsWithinLimits }
{
    let Some(asked) = asked_with(&command, given) else {
        return Err(WordsError::Usage);
    };
    let trace = owned(alloc, asked.trace)?;
    let schedule = owned(alloc, asked.schedule)?;
    Ok(Settings {
        command,
        setup: asked.setup,
        turns: asked.turns,
        seed: asked.seed,
        moves: asked.moves,
        summary: asked.summary,
        trace,
        schedule,
    })
}
