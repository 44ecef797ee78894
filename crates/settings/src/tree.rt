//! The option whose value is a tree of run lists.

ghost use Rattle.std.specs.Prelude.{◌≡◌, ◌≤◌, IfSome};
ghost use Rattle.levels.specs.Trees.{processor_limit};
ghost use Rattle.settings.specs.Numbers.{one_level, tree_in, two_levels, width_of};

use crate::number::number_of;
use levels::Tree;

/// The most processors of a node.
const PROCESSOR_LIMIT: u64 = 16;

/// How many lists or processors a text tells, at most as many as a node may have processors.
fn width_of(text: &str) -> Option<u8>
    ensures value { result ≡ width_of text.now }
    ensures bounds { IfSome result (λ n. n ≤ processor_limit) }
{
    match number_of(text, 1, PROCESSOR_LIMIT) {
        Some(n) => Some(n as u8),
        None => None,
    }
}

/// The tree that a text writes: one number, or two with an `x` between them.
pub(crate) fn tree_of(text: &str) -> Option<Tree>
    ensures { result ≡ tree_in text.now }
{
    match text.split_once('x') {
        None => one_level(text),
        Some((first, second)) => two_levels(first, second),
    }
}

// The tree with a list for each of so many processors.
fn one_level(text: &str) -> Option<Tree>
    ensures { result ≡ one_level text.now }
{
    match width_of(text) {
        None => None,
        Some(first) => Tree::new(first, None),
    }
}

// The tree with so many groups of so many processors.
fn two_levels(first: &str, second: &str) -> Option<Tree>
    ensures { result ≡ two_levels first.now second.now }
{
    match (width_of(first), width_of(second)) {
        (Some(first), Some(second)) => Tree::new(first, Some(second)),
        _ => None,
    }
}
