//! The table of options and flags.

ghost use Rattle.std.specs.Prelude.{◌≡◌, ◌≤◌, IfSome};
ghost use Rattle.words.specs.Seen.{values_given};
ghost use Rattle.settings.specs.Numbers.{flag_at, number_at, tree_at};
ghost use Rattle.settings.specs.Seen.{option_seen};

use crate::number::{NumberOption, at_most_one, number_of};
use crate::tree::tree_of;
use levels::Tree;
use slot_space::{NODE_LIMIT, SLOT_LIMIT};
use words::Given;

pub(crate) const NODES: NumberOption = NumberOption {
    name: "nodes",
    low: 1,
    high: NODE_LIMIT as u64,
    usual: 1,
};

pub(crate) const SLOTS: NumberOption = NumberOption {
    name: "slots",
    low: 1,
    high: SLOT_LIMIT as u64,
    usual: 256,
};

pub(crate) const QUANTUM: NumberOption = NumberOption {
    name: "quantum",
    low: 1,
    high: 65536,
    usual: 1000,
};

pub(crate) const TURNS: NumberOption = NumberOption {
    name: "turns",
    low: 1,
    high: 1_000_000,
    usual: 100_000,
};

/// The turns of `stress`.
pub(crate) const LONG_TURNS: NumberOption = NumberOption {
    name: "turns",
    low: 1,
    high: 1_000_000,
    usual: 1_000_000,
};

pub(crate) const SEED: NumberOption = NumberOption {
    name: "seed",
    low: 0,
    high: u64::MAX,
    usual: 0,
};

/// The name of the option whose value is a tree of run lists.
pub(crate) const TREE: &str = "tree";

/// The name of a flag.
pub(crate) const MOVES: &str = "moves";

/// The name of a flag.
pub(crate) const SUMMARY: &str = "summary";

/// The name of an option whose value is a file's name.
pub(crate) const TRACE: &str = "trace";

/// The name of an option whose value is a file's name.
pub(crate) const SCHEDULE: &str = "schedule";

/// The option's number.
pub(crate) fn number_at(given: &Given, option: NumberOption) -> Option<u64>
    ensures value { result ≡ number_at (values_given given.now) (option_seen option) }
    ensures bounds { IfSome result (λ n. (option.low ≤ n) × (n ≤ option.high)) }
{
    match at_most_one(given.values(option.name))? {
        None => Some(option.usual),
        Some(text) => number_of(text, option.low, option.high),
    }
}

/// The option's tree.
pub(crate) fn tree_at(given: &Given) -> Option<Tree>
    ensures { result ≡ tree_at (values_given given.now) }
{
    match at_most_one(given.values(TREE))? {
        None => Tree::new(1, None),
        Some(text) => tree_of(text),
    }
}

/// Whether the flag is given. None where it stands twice.
pub(crate) fn flag_at(given: &Given, name: &str) -> Option<bool>
    ensures { result ≡ flag_at (values_given given.now) name.now }
{
    match given.values(name) {
        [] => Some(false),
        [_] => Some(true),
        _ => None,
    }
}
