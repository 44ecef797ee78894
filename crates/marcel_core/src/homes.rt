//! The births of one node: their names, joins of them, and their ends.

ghost use Rattle.std.specs.Prelude.{◌≡◌, ◌<◌, ◌≤◌, [], length, true, slice_get, IfOk, OnErr};
ghost use Rattle.marcel_core.specs.Homes.{verdict, joined, detach_verdict, detached, ended, joiner, is_open};
ghost use Rattle.marcel_core.specs.Births.{birth_limit, next_name, with_birth_more, changed};

use crate::birth::{Birth, Detached, Verdict};
use crate::end::End;
use basics::NoMemory;
use slot_space::{NodeNo, Tid};
use std::alloc::Global;
use std::marker::Model;

/// The most births that a home numbers.
pub const BIRTH_LIMIT: usize = 0xffff_ffff;

/// The threads that were born on one node, by their numbers. Contracts see the node and the births.
#[derive(Drop)]
pub struct Homes {
    node: NodeNo,
    known: Vec<Birth>,
}

impl Model for Homes {
    ghost use Rattle.std.specs.Prelude.{◌≤◌, length};
    ghost use Rattle.marcel_core.specs.Births.{Births, birth_limit};

    ghost Value = { Births };

    ghost view = { λ h. record { node = h.node; births = h.known.items } };

    // Each of them has a number.
    ghost invariant = { λ h. length h.known.items ≤ birth_limit };
}

// What a join of this birth is answered.
fn verdict(birth: Option<Birth>) -> Verdict
    ensures { result ≡ verdict birth }
{
    match birth {
        None => Verdict::NoSuch,
        Some(Birth::Lives) => Verdict::Later,
        Some(Birth::Awaited(_, _)) => Verdict::Taken,
        Some(Birth::Detached) => Verdict::NoSuch,
        Some(Birth::Ended(end)) => Verdict::Now(end),
        Some(Birth::Over) => Verdict::NoSuch,
    }
}

// The birth after a join by this thread on that node.
fn joined(by: Tid, at: NodeNo, birth: Birth) -> Birth
    ensures { result ≡ joined by at birth }
{
    match birth {
        Birth::Lives => Birth::Awaited(by, at),
        Birth::Awaited(other, there) => Birth::Awaited(other, there),
        Birth::Detached => Birth::Detached,
        Birth::Ended(_) => Birth::Over,
        Birth::Over => Birth::Over,
    }
}

// What a detach of this birth is answered.
fn detach_verdict(birth: Option<Birth>) -> Detached
    ensures { result ≡ detach_verdict birth }
{
    match birth {
        None => Detached::NoSuch,
        Some(Birth::Lives) => Detached::Done,
        Some(Birth::Awaited(_, _)) => Detached::Taken,
        Some(Birth::Detached) => Detached::NoSuch,
        Some(Birth::Ended(_)) => Detached::Done,
        Some(Birth::Over) => Detached::NoSuch,
    }
}

// The birth after a detach.
fn detached(birth: Birth) -> Birth
    ensures { result ≡ detached birth }
{
    match birth {
        Birth::Lives => Birth::Detached,
        Birth::Awaited(by, at) => Birth::Awaited(by, at),
        Birth::Detached => Birth::Detached,
        Birth::Ended(_) => Birth::Over,
        Birth::Over => Birth::Over,
    }
}

// The birth after its end has become known.
fn ended(end: End, birth: Birth) -> Birth
    ensures { result ≡ ended end birth }
{
    match birth {
        Birth::Lives => Birth::Ended(end),
        Birth::Awaited(_, _) => Birth::Over,
        Birth::Detached => Birth::Over,
        Birth::Ended(other) => Birth::Ended(other),
        Birth::Over => Birth::Over,
    }
}

// The thread that waits for the end, and its node.
fn joiner(birth: Option<Birth>) -> Option<(Tid, NodeNo)>
    ensures { result ≡ joiner birth }
{
    match birth {
        Some(Birth::Awaited(by, at)) => Some((by, at)),
        _ => None,
    }
}

impl Homes {
    /// No thread was born on the node yet.
    pub fn new(alloc: Global, node: NodeNo) -> Homes
        ensures { result ≡ record { node = node; births = [] } }
    {
        Homes {
            node,
            known: Vec::new(alloc),
        }
    }

    /// The home of these births.
    pub fn from_births(node: NodeNo, births: Vec<Birth>) -> Homes
        requires { length births.items ≤ birth_limit }
        ensures { result ≡ record { node = node; births = births.items } }
    {
        Homes {
            node,
            known: births,
        }
    }

    /// The births, by their numbers.
    pub fn births(&self) -> &[Birth]
        ensures births { result.now ≡ self.now.births }
        ensures few { length self.now.births ≤ birth_limit }
    {
        &self.known
    }

    // The birth of this number.
    fn birth_of(&self, seq: u32) -> Option<Birth>
        ensures { result ≡ slice_get self.now.births seq }
    {
        match self.known.get(seq as usize) {
            None => None,
            Some(birth) => Some(*birth),
        }
    }

    /// The name of the thread that is born next.
    pub fn next_name(&self) -> Tid
        ensures { result ≡ next_name self.now }
    {
        Tid {
            home: self.node,
            seq: self.known.len() as u32,
        }
    }

    /// A thread is born here, and this is its name. Want of memory changes nothing.
    pub fn born(&mut self) -> Result<Tid, NoMemory>
        requires { length self.old.births < birth_limit }
        ensures name { IfOk result (λ t. t ≡ next_name self.old) }
        ensures more { IfOk result (λ _. self.new ≡ with_birth_more self.old) }
        ensures refused { OnErr result (self.new ≡ self.old) }
    {
        let name = self.next_name();
        self.known.push(Birth::Lives)?;
        Ok(name)
    }

    /// The thread on that node joins the birth of this number: what it is answered.
    pub fn join_asked(&mut self, seq: u32, by: Tid, at: NodeNo) -> Verdict
        ensures verdict { result ≡ verdict (slice_get self.old.births seq) }
        ensures after { self.new ≡ changed seq (joined by at) self.old }
    {
        let verdict = verdict(self.birth_of(seq));
        if let Some(birth) = self.known.get_mut(seq as usize) {
            *birth = joined(by, at, *birth);
        }
        verdict
    }

    /// The birth of this number is detached: what that is answered. It takes no memory.
    pub fn detach(&mut self, seq: u32) -> Detached
        ensures verdict { result ≡ detach_verdict (slice_get self.old.births seq) }
        ensures after { self.new ≡ changed seq detached self.old }
    {
        let verdict = detach_verdict(self.birth_of(seq));
        if let Some(birth) = self.known.get_mut(seq as usize) {
            *birth = detached(*birth);
        }
        verdict
    }

    /// Whether the birth of this number is here and its end isn't known.
    pub fn lives(&self, seq: u32) -> bool
        ensures { result ≡ is_open (slice_get self.now.births seq) }
    {
        match self.birth_of(seq) {
            Some(Birth::Lives) | Some(Birth::Awaited(_, _)) | Some(Birth::Detached) => true,
            _ => false,
        }
    }

    /// The end of the birth of this number becomes known: the thread that waits for it, and its node.
    pub fn ended(&mut self, seq: u32, end: End) -> Option<(Tid, NodeNo)>
        requires { is_open (slice_get self.old.births seq) ≡ true }
        ensures joiner { result ≡ joiner (slice_get self.old.births seq) }
        ensures after { self.new ≡ changed seq (ended end) self.old }
    {
        let joiner = joiner(self.birth_of(seq));
        if let Some(birth) = self.known.get_mut(seq as usize) {
            *birth = ended(end, *birth);
        }
        joiner
    }
}
