//! The tree of run lists.

ghost use Rattle.std.specs.Prelude.{◌≡◌, ◌<◌, ◌≤◌, true, false};
ghost use Rattle.levels.specs.Trees.{processors, depth_of, covers, is_leaf, next_towards, tree_within, processor_limit};

use std::marker::Model;

/// The most processors that a node has.
pub const PROCESSOR_LIMIT: u8 = 16;

/// The shape of a node's run lists: how many are right below the root, and how many are below each of these, where they are groups of
/// processors. Each processor has a leaf of its own, and at most 16 are there.
#[derive(Clone, Copy, Debug, PartialEq, Eq)]
pub struct Tree {
    first: u8,
    second: Option<u8>,
}

impl Model for Tree {
    ghost use Rattle.std.specs.Prelude.{◌≡◌, true};
    ghost use Rattle.levels.specs.Trees.{Tree, IsTree, tree_of};

    ghost Value = { Tree };

    ghost view = { λ t. tree_of t.first t.second };

    ghost inverse = { λ t. record { first = t.first; second = t.second } };

    ghost invariant = { λ t. IsTree (tree_of t.first t.second) };
}

impl Tree {
    /// The tree of these numbers. None exactly where one of them is 0 or there would be more than 16 processors.
    pub fn new(first: u8, second: Option<u8>) -> Option<Tree>
        ensures { result ≡ tree_within first second }
    {
        let processors = match second {
            None => first as u16,
            Some(second) => first as u16 * second as u16,
        };
        if processors == 0 || processors > PROCESSOR_LIMIT as u16 {
            return None;
        }
        Some(Tree { first, second })
    }

    /// How many processors there are.
    pub fn processors(&self) -> u8
        ensures count { result ≡ processors self.now }
        ensures few { result ≤ processor_limit }
        ensures some { 0 < result }
    {
        match self.second {
            None => self.first,
            Some(second) => self.first * second,
        }
    }

    /// How deep the list is below the root.
    pub fn depth(&self, list: u8) -> u8
        ensures { result ≡ depth_of self.now list }
    {
        if list == 0 {
            0
        } else if list <= self.first {
            1
        } else {
            2
        }
    }

    /// Nothing is below the list.
    pub fn is_leaf(&self, list: u8) -> bool
        ensures { result ≡ is_leaf self.now list }
    {
        match self.second {
            None => self.depth(list) == 1,
            Some(_) => self.depth(list) == 2,
        }
    }

    /// The list covers the processor.
    pub fn covers(&self, vp: u8, list: u8) -> bool
        ensures { result ≡ covers self.now vp list }
    {
        if list == 0 {
            return true;
        }
        let (list, first, vp) = (list as u16, self.first as u16, vp as u16);
        match self.second {
            None => list == 1 + vp,
            Some(second) => list == 1 + vp / second as u16 || list == 1 + first + vp,
        }
    }

    /// The list below this one towards the processor, where this one covers it and is no leaf.
    pub fn next(&self, list: u8, vp: u8) -> u8
        requires processor { vp < processors self.now }
        requires covered { covers self.now vp list ≡ true }
        requires inner { is_leaf self.now list ≡ false }
        ensures { result ≡ next_towards self.now list vp }
    {
        match self.second {
            None => 1 + vp,
            Some(second) => {
                if list == 0 {
                    1 + vp / second
                } else {
                    1 + self.first + vp
                }
            }
        }
    }
}
