//! The words of a command line.

ghost use Rattle.std.specs.Prelude.{◌≡◌, Some, None, IfOk, IsErrOf, map};
ghost use Rattle.std.specs.String.{string_bytes};
ghost use Rattle.words.specs.Seen.{values_given};
ghost use Rattle.settings.specs.Settings.{chosen_by, settings_by, settings_of};
ghost use Rattle.settings.specs.Seen.{chosen, IsWithinLimits};

use crate::asked::{Settings, settings_with};
use crate::command::command_of;
use crate::verb::Verb;
use std::alloc::Global;
use words::{Given, WordsError, read};

/// The settings of a command by the values that are given.
fn chosen_by(alloc: Global, verb: Verb, given: &Given) -> Result<Settings, WordsError>
    ensures ok { IfOk result (λ s. chosen_by verb (values_given given.now) ≡ Some (chosen s)) }
    ensures usage { IsErrOf result WordsError.Usage → chosen_by verb (values_given given.now) ≡ None }
    ensures limits { IfOk result IsWithinLimits }
{
    let command = command_of(alloc, verb, given.values("FILE"))?;
    settings_with(alloc, command, given)
}

/// The settings of a command by the words behind it.
fn settings_by(alloc: Global, verb: Verb, words: &[String]) -> Result<Settings, WordsError>
    ensures ok { IfOk result (λ s. settings_by verb (map string_bytes words.now) ≡ Some (chosen s)) }
    ensures usage { IsErrOf result WordsError.Usage → settings_by verb (map string_bytes words.now) ≡ None }
    ensures limits { IfOk result IsWithinLimits }
{
    let given = read(alloc, verb.grammar(), words)?;
    chosen_by(alloc, verb, &given)
}

/// The settings of the words of a command line, of which the first is the command.
pub fn settings(alloc: Global, words: &[String]) -> Result<Settings, WordsError>
    ensures ok { IfOk result (λ s. settings_of (map string_bytes words.now) ≡ Some (chosen s)) }
    ensures usage { IsErrOf result WordsError.Usage → settings_of (map string_bytes words.now) ≡ None }
    ensures limits { IfOk result IsWithinLimits }
{
    match words {
        [] => Err(WordsError::Usage),
        [word, rest @ ..] => {
            let verb = Verb::of(word.as_str()).ok_or(WordsError::Usage)?;
            settings_by(alloc, verb, rest)
        }
    }
}
