//! The words, read by `clap`.

ghost use Rattle.std.specs.Prelude.{◌≡◌, ℕ, List, Some, None, IfOk, IsErrOf, map, true, false};
ghost use Rattle.std.specs.String.{string_bytes};
ghost use Rattle.std.specs.List.{list_all};
ghost use Rattle.words.specs.Words.{Item, is_clean, items_of, values};
ghost use Rattle.words.specs.Seen.{values_given, grammar_seen};

use crate::error::WordsError;
use crate::given::Given;
use crate::grammar::Grammar;
use crate::parser::parser;
use clap::error::ErrorKind;
use std::alloc::Global;

/// Whether a word isn't empty and doesn't begin with one hyphen alone.
fn is_clean(word: &str) -> bool
    ensures { result ≡ is_clean word.now }
{
    match word.as_bytes() {
        [] => false,
        [b'-'] => false,
        [b'-', second, ..] => *second == b'-',
        _ => true,
    }
}

fn are_clean(words: &[String]) -> bool
    ensures { result ≡ list_all (λ s. is_clean (string_bytes s)) words.now }
{
    words.iter().all(|word| is_clean(word.as_str()))
}

/// What the words give: a value for each use of an option or a flag, and the positional words under FILE.
pub fn read<'a>(
    alloc: Global,
    grammar: Grammar<'a>,
    words: &'a [String],
) -> Result<Given<'a>, WordsError>
    ensures ok { IfOk result (λ g. (items : List Item) × (items_of (grammar_seen grammar.entry) (map string_bytes words.now) ≡ Some items)
        × ((name : List ℕ) → values_given g name ≡ values name items)) }
    ensures usage { IsErrOf result WordsError.Usage → items_of (grammar_seen grammar.entry) (map string_bytes words.now) ≡ None }
{
    if !are_clean(words) {
        return Err(WordsError::Usage);
    }
    let command = parser(alloc, grammar)?;
    match command.try_get_matches_from(words) {
        Ok(matches) => Ok(Given { matches }),
        Err(error) => match error.kind() {
            ErrorKind::OutOfMemory => Err(WordsError::NoMemory),
            _ => Err(WordsError::Usage),
        },
    }
}
