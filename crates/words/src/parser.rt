//! A grammar as an argument parser of `clap`.

ghost use Rattle.std.specs.Prelude.{◌≡◌, [], IfOk, false, map};
ghost use Rattle.clap.specs.Words.{app_of, rule_of};
ghost use Rattle.words.specs.Parser.{parser_of, flag_rule, option_rule};
ghost use Rattle.words.specs.Seen.{grammar_seen};

use crate::grammar::Grammar;
use clap::{Arg, ArgAction, Command};
use std::alloc::{AllocError, Global};

/// Each use of an option is one more value.
fn option_argument<'a>(alloc: Global, name: &'a str) -> Arg<'a>
    ensures rule { rule_of result ≡ option_rule name.entry.now }
    ensures local { result.global ≡ false }
{
    Arg::new(alloc, name).long(name).action(ArgAction::Append)
}

/// Each use of a flag is one more `true`.
fn flag_argument<'a>(alloc: Global, name: &'a str) -> Arg<'a>
    ensures rule { rule_of result ≡ flag_rule name.entry.now }
    ensures local { result.global ≡ false }
{
    Arg::new(alloc, name)
        .long(name)
        .action(ArgAction::Append)
        .num_args(0)
        .default_missing_value("true")
}

/// The parser of positional words alone.
fn plain_parser<'a>(alloc: Global) -> Result<Command<'a>, AllocError>
    ensures { IfOk result (λ c. app_of c ≡ parser_of (record { options = []; flags = [] })) }
{
    let names = Arg::new(alloc, "FILE").action(ArgAction::Append);
    Command::new(alloc, "pm2")
        .no_binary_name(true)
        .disable_help_flag(true)
        .arg(names)
}

/// The parser of positional words and of these options.
fn options_parser<'a>(alloc: Global, options: &[&'a str]) -> Result<Command<'a>, AllocError>
    ensures { IfOk result (λ c. app_of c ≡ parser_of (record { options = map (λ s. s.now) options.now; flags = [] })) }
{
    let mut command = plain_parser(alloc)?;
    for option in options {
        command = command.arg(option_argument(alloc, option))?;
    }
    Ok(command)
}

/// The parser of a grammar.
pub(crate) fn parser<'a>(alloc: Global, grammar: Grammar<'a>) -> Result<Command<'a>, AllocError>
    ensures { IfOk result (λ c. app_of c ≡ parser_of (grammar_seen grammar.entry)) }
{
    let mut command = options_parser(alloc, grammar.options)?;
    for flag in grammar.flags {
        command = command.arg(flag_argument(alloc, flag))?;
    }
    Ok(command)
}
