//! The commands by their words.

ghost use Rattle.std.specs.Prelude.{◌≡◌};
ghost use Rattle.words.specs.Seen.{grammar_seen};
ghost use Rattle.settings.specs.Settings.{verb_of, grammar_of};

use words::Grammar;

/// What is done.
#[derive(Clone, Copy, PartialEq, Eq)]
pub(crate) enum Verb {
    Asm,
    Run,
    Sim,
    Replay,
    Stress,
}

static RUN_OPTIONS: [&str; 7] = [
    "nodes", "slots", "quantum", "turns", "tree", "trace", "schedule",
];

static SIM_OPTIONS: [&str; 8] = [
    "nodes", "slots", "quantum", "turns", "seed", "tree", "trace", "schedule",
];

static SIM_FLAGS: [&str; 2] = ["moves", "summary"];

static REPLAY_OPTIONS: [&str; 4] = ["nodes", "slots", "tree", "trace"];

static SUMMARY_ALONE: [&str; 1] = ["summary"];

impl Verb {
    /// The command of a word.
    pub(crate) fn of(word: &str) -> Option<Verb>
        ensures { result ≡ verb_of word.now }
    {
        if word == "asm" {
            Some(Verb::Asm)
        } else if word == "run" {
            Some(Verb::Run)
        } else if word == "sim" {
            Some(Verb::Sim)
        } else if word == "replay" {
            Some(Verb::Replay)
        } else if word == "stress" {
            Some(Verb::Stress)
        } else {
            None
        }
    }

    /// What the command takes beside its positional words.
    pub(crate) fn grammar(self) -> Grammar<'static>
        ensures { grammar_seen result ≡ grammar_of self }
    {
        match self {
            Verb::Asm => Grammar {
                options: &[],
                flags: &[],
            },
            Verb::Run => Grammar {
                options: &RUN_OPTIONS,
                flags: &SUMMARY_ALONE,
            },
            Verb::Sim => Grammar {
                options: &SIM_OPTIONS,
                flags: &SIM_FLAGS,
            },
            Verb::Replay => Grammar {
                options: &REPLAY_OPTIONS,
                flags: &SUMMARY_ALONE,
            },
            Verb::Stress => Grammar {
                options: &RUN_OPTIONS,
                flags: &[],
            },
        }
    }
}
