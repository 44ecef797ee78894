//! The run lists.

ghost use Rattle.std.specs.Prelude.{◌≡◌, IfOk, OnErr, Some, None, is_some, length, MatchOption, false};
ghost use Rattle.std.specs.List.{position};
ghost use Rattle.levels.specs.Rows.{lists_of, empty_lists, is_entity, place_of, place_at, arrived, taken_off, AreInOrder};
ghost use Rattle.levels.specs.declared.entity.Entity.TheVariants as entities;
ghost use Rattle.levels.specs.Choice.{chosen_of, choice, has_ready, IsChosen};

use crate::entity::{Entity, Place};
use crate::tree::Tree;
use basics::NoMemory;
use std::alloc::Global;
use std::marker::Model;

/// The most entities that stand on a node's lists.
const MOST: usize = 0xffff_ffff;

/// The run lists of a node. Contracts see the tree, a row for each entity in the order of arrival, and how many have arrived.
#[derive(Drop)]
pub struct Lists {
    tree: Tree,
    rows: Vec<(Entity, Place)>,
    next: u64,
}

impl Model for Lists {
    ghost use Rattle.levels.specs.Rows.{RunLists, lists_of, AreInOrder};

    ghost Value = { RunLists };

    ghost view = { λ s. lists_of s.tree s.rows.items s.next };

    ghost invariant = { λ s. AreInOrder (lists_of s.tree s.rows.items s.next) };
}

// Where the first row of the entity is.
fn row_of(rows: &[(Entity, Place)], e: &Entity) -> Option<usize>
    ensures { result ≡ position (λ row. is_entity row.0 e.now) rows.now }
{
    rows.iter().position(|row| row.0.is(e))
}

// It is the thread of this home and number.
fn is_named(e: &Entity, home: u64, seq: u32) -> bool
    ensures { result ≡ is_entity e.now (entities.Thread (record { home = home; seq = seq })) }
{
    match e {
        Entity::Thread(t) => t.home.0 as u64 == home && t.seq == seq,
        Entity::Bubble(_) => false,
    }
}

// Of two the one that came first, but where the later one outranks it.
fn chosen_of(tree: &Tree, first: (Place, Entity), later: Option<(Place, Entity)>) -> (Place, Entity)
    ensures { Some result ≡ chosen_of tree.now first later }
{
    match later {
        None => first,
        Some(later) => {
            if later.0.priority > first.0.priority
                || later.0.priority == first.0.priority
                    && tree.depth(later.0.list) > tree.depth(first.0.list)
            {
                later
            } else {
                first
            }
        }
    }
}

impl Lists {
    /// Lists of this tree with nothing on them.
    pub fn new(alloc: Global, tree: Tree) -> Lists
        ensures { result ≡ empty_lists tree }
    {
        Lists {
            tree,
            rows: Vec::new(alloc),
            next: 0,
        }
    }

    /// The tree.
    pub fn tree(&self) -> Tree
        ensures { result ≡ self.now.tree }
    {
        self.tree
    }

    /// The entity arrives on the list: its place. Want of memory is also where no more rows or arrivals can be counted.
    pub fn put(&mut self, e: Entity, list: u8, priority: u8) -> Result<Place, NoMemory>
        ensures ok { IfOk result (λ place. (place ≡ place_at list priority self.old.next) × (self.new ≡ arrived e list priority self.old)) }
        ensures err { OnErr result (self.new ≡ self.old) }
    {
        if self.rows.len() >= MOST {
            return Err(NoMemory);
        }
        let Some(next) = self.next.checked_add(1) else {
            return Err(NoMemory);
        };
        let place = Place {
            list,
            priority,
            arrival: self.next,
        };
        self.rows.push((e, place))?;
        self.next = next;
        Ok(place)
    }

    /// The entity is taken off its list. False exactly where it is on none.
    pub fn remove(&mut self, e: Entity) -> bool
        ensures after { self.new ≡ taken_off e self.old }
        ensures found { result ≡ is_some (place_of e self.old.rows) }
    {
        match row_of(&self.rows, &e) {
            None => false,
            Some(at) => {
                self.rows.remove(at);
                true
            }
        }
    }

    /// The entity that the processor takes, and where it stands: the one of the greatest priority on the lists that cover the processor,
    /// among equals the one on the deepest list, among these the one that came first. None exactly where these lists are empty.
    pub fn best(&self, vp: u8) -> Option<(Place, Entity)>
        ensures choice { result ≡ choice self.now.tree vp self.now.rows }
        ensures words { MatchOption result (has_ready self.now.tree vp self.now.rows ≡ false) (λ chosen. IsChosen self.now.tree vp chosen self.now.rows) }
    {
        match self.chosen(vp) {
            None => None,
            Some(chosen) => Some(chosen),
        }
    }

    // The rows are looked at from the last, and each becomes the choice that a later one doesn't outrank.
    #[tactic(auto, using(crate::proofs::Choosing::choice_whole, crate::proofs::Choosing::choice_last))]
    fn chosen(&self, vp: u8) -> Option<(Place, Entity)>
        ensures choice { result ≡ choice self.now.tree vp self.now.rows }
        ensures order { AreInOrder self.now }
    {
        let mut best = None;
        for row in self.rows.iter().rev() {
            if self.tree.covers(vp, row.1.list) {
                best = Some(chosen_of(&self.tree, (row.1, row.0), best));
            }
        }
        best
    }

    /// Where the entity stands. None exactly where it is on no list.
    pub fn place_of(&self, e: Entity) -> Option<Place>
        ensures { result ≡ place_of e self.now.rows }
    {
        for row in &self.rows {
            if row.0.is(&e) {
                return Some(row.1);
            }
        }
        None
    }

    /// A thread of this home and number is on a list, whatever number the home is.
    pub fn has_thread(&self, home: u64, seq: u32) -> bool
        ensures { result ≡ is_some (place_of (entities.Thread (record { home = home; seq = seq })) self.now.rows) }
    {
        for row in &self.rows {
            if is_named(&row.0, home, seq) {
                return true;
            }
        }
        false
    }

    /// How many entities are on lists.
    pub fn count(&self) -> u32
        ensures { result ≡ length self.now.rows }
    {
        self.rows.len() as u32
    }

    /// How many have arrived.
    pub fn next_arrival(&self) -> u64
        ensures { result ≡ self.now.next }
    {
        self.next
    }

    /// Some entity stands on a list that covers the processor.
    pub fn has_ready(&self, vp: u8) -> bool
        ensures { result ≡ has_ready self.now.tree vp self.now.rows }
    {
        for row in &self.rows {
            if self.tree.covers(vp, row.1.list) {
                return true;
            }
        }
        false
    }

    /// The rows, in the order of arrival.
    pub fn rows(&self, alloc: Global) -> Result<Vec<(Entity, Place)>, NoMemory>
        ensures rows { IfOk result (λ rows. rows.items ≡ self.now.rows) }
        ensures order { AreInOrder self.now }
    {
        let mut rows = Vec::new(alloc);
        rows.extend_from_slice(&self.rows)?;
        Ok(rows)
    }

    /// Lists of this tree with these rows, of which so many have arrived. It takes no memory.
    pub fn from_rows(tree: Tree, rows: Vec<(Entity, Place)>, next: u64) -> Lists
        requires { AreInOrder (lists_of tree rows.items next) }
        ensures { result ≡ lists_of tree rows.items next }
    {
        Lists { tree, rows, next }
    }
}
