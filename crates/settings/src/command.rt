//! The commands with the names of their files.

ghost use Rattle.std.specs.Prelude.{◌≡◌, [], ◌∷◌, Some, None, IfOk, IsErrOf, map};
ghost use Rattle.std.specs.List.{list_all};
ghost use Rattle.words.specs.Words.{is_name};
ghost use Rattle.settings.specs.Settings.{command_of, command_with};
ghost use Rattle.settings.specs.declared.verb.Verb.TheVariants as verb;

use crate::name::Name;
use crate::number::{is_name, number_of};
use crate::verb::Verb;
use std::alloc::Global;
use words::WordsError;

/// What is asked for.
#[derive(Drop)]
pub enum Command {
    /// To assemble this file, and list its image.
    Asm(Name),
    /// To assemble this file, and run its nodes side by side.
    Run(Name),
    /// To assemble this file, and run it under a simulated order of events.
    Sim(Name),
    /// To assemble the first file, and do the acts of the second one in their order.
    Replay(Name, Name),
    /// To run a program of this many jobs, 1 to 1000.
    Stress(u32),
}

fn are_names(words: &[&str]) -> bool
    ensures { result ≡ list_all (λ s. is_name s.now) words.now }
{
    words.iter().all(|word| is_name(word))
}

/// The command `stress` with its number.
fn stress_of(number: &str) -> Result<Command, WordsError>
    ensures ok { IfOk result (λ c. command_with verb.Stress (number.now ∷ []) ≡ Some c) }
    ensures usage { IsErrOf result WordsError.Usage → command_with verb.Stress (number.now ∷ []) ≡ None }
{
    match number_of(number, 1, 1000) {
        Some(jobs) => Ok(Command::Stress(jobs as u32)),
        None => Err(WordsError::Usage),
    }
}

/// The command with its positional words.
pub(crate) fn command_of(alloc: Global, verb: Verb, names: &[&str]) -> Result<Command, WordsError>
    ensures ok { IfOk result (λ c. command_of verb (map (λ s. s.now) names.now) ≡ Some c) }
    ensures usage { IsErrOf result WordsError.Usage → command_of verb (map (λ s. s.now) names.now) ≡ None }
{
    if !are_names(names) {
        return Err(WordsError::Usage);
    }
    match (verb, names) {
        (Verb::Asm, [file]) => Ok(Command::Asm(Name::of(alloc, file)?)),
        (Verb::Run, [file]) => Ok(Command::Run(Name::of(alloc, file)?)),
        (Verb::Sim, [file]) => Ok(Command::Sim(Name::of(alloc, file)?)),
        (Verb::Replay, [file, schedule]) => {
            let file = Name::of(alloc, file)?;
            Ok(Command::Replay(file, Name::of(alloc, schedule)?))
        }
        (Verb::Stress, [number]) => stress_of(number),
        _ => Err(WordsError::Usage),
    }
}
