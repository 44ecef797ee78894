//! The loans of a node that buys, and its decision.

ghost use Rattle.std.specs.Prelude.{◌≡◌, ℕ, List, Option, ◌<◌, ◌≤◌, ◌↔◌, true, IsTrue, IsSome, IfSome, is_some, slice_set, slice_index_or};
ghost use Rattle.slot_space.specs.Limits.{slot_limit, node_limit};
ghost use Rattle.slot_space.specs.Sets.{has, lowest_run};
ghost use Rattle.negotiate.specs.Buying.{begun, loan_from, awaits, AllAreIn, hand, is_in_one, times, parts};
ghost use Rattle.negotiate.specs.Runs.{without};

use crate::runs::take_run;
use slot_space::{NODE_LIMIT, NodeNo, SlotNo, SlotSet};
use std::marker::Model;

/// A place for each node that there can be.
const NODES: usize = NODE_LIMIT as usize;

/// The loans of the other nodes that are in, at a node that buys.
#[derive(Drop)]
pub struct Buyer {
    me: NodeNo,
    nodes: u8,
    loans: [Option<SlotSet>; NODES],
}

impl Model for Buyer {
    ghost use Rattle.std.specs.Prelude.{◌≤◌};
    ghost use Rattle.slot_space.specs.Limits.{node_limit};
    ghost use Rattle.negotiate.specs.Buying.{BuyerView, view_of};

    ghost Value = { BuyerView };

    ghost view = { λ b. view_of b.me b.nodes b.loans };

    ghost invariant = { λ b. b.nodes ≤ node_limit };
}

/// Whether there is a loan under this number.
fn is_in(loans: &[Option<SlotSet>; NODES], n: usize) -> bool
    requires { n < node_limit }
    ensures { result ≡ is_some (slice_index_or loans.now n None) }
{
    loans[n].is_some()
}

/// The own slots and all loans that are in, as one set.
fn together(own: &SlotSet, loans: &[Option<SlotSet>]) -> SlotSet
    ensures { (s : ℕ) → has s result ≡ is_in_one (hand own.now loans.now) s }
{
    let mut all = *own;
    for loan in loans {
        match loan {
            Some(set) => all.union_with(set),
            None => {}
        }
    }
    all
}

impl Buyer {
    /// One of so many nodes begins to buy: no loan is in.
    pub fn begin(me: NodeNo, nodes: u8) -> Buyer
        requires few { nodes ≤ node_limit }
        requires me { me < nodes }
        ensures { result ≡ begun me nodes }
    {
        Buyer {
            me,
            nodes,
            loans: [None; NODES],
        }
    }

    /// Whether this is another node whose loan isn't in yet.
    pub fn awaits(&self, lender: NodeNo) -> bool
        ensures { result ≡ awaits self.now lender }
    {
        let n = lender.0;
        if n >= self.nodes || n == self.me.0 {
            return false;
        }
        !is_in(&self.loans, n as usize)
    }

    /// A loan comes in. It is true exactly where all loans are in now.
    pub fn loan(&mut self, lender: NodeNo, set: SlotSet) -> bool
        requires { awaits self.old lender ≡ true }
        ensures after { self.new ≡ record self.old { loans = slice_set self.old.loans lender (Some set) } }
        ensures all { IsTrue result ↔ AllAreIn self.new }
    {
        self.loans[lender.0 as usize] = Some(set);
        self.has_all()
    }

    /// Whether all loans are in.
    fn has_all(&self) -> bool
        ensures { IsTrue result ↔ AllAreIn self.now }
    {
        for n in 0..self.nodes {
            if self.awaits(NodeNo(n)) {
                return false;
            }
        }
        true
    }

    /// The start of the lowest run of so many slots among the own ones and all loans together. None exactly where there is none.
    pub fn decide(&self, own: &SlotSet, count: u16) -> Option<SlotNo>
        requires all { AllAreIn self.now }
        requires some { 0 < count }
        ensures { result ≡ lowest_run (is_in_one (hand own.now self.now.loans)) count slot_limit }
    {
        together(own, &self.loans).lowest_run(count)
    }

    /// The loan of this node without the run that was decided.
    pub fn returns(&self, lender: NodeNo, first: Option<SlotNo>, count: u16) -> SlotSet
        requires { IsSome (loan_from self.now lender) }
        ensures { IfSome (loan_from self.now lender) (λ set. result ≡ without first count set) }
    {
        let mut rest = self.loans[lender.0 as usize].unwrap();
        if let Some(first) = first {
            take_run(&mut rest, first, count);
        }
        rest
    }
}

/// At a decision no slot is lost, and none is at two places: where each slot was at hand at most once, it is as often in the run, in what the
/// buyer keeps, and in what the lenders get back, taken together, as it was at hand.
pub fn nothing_lost()
    ensures { (own : List ℕ) (loans : List (Option (List ℕ))) (first : Option ℕ) (count : ℕ)
        → ((s : ℕ) → times s (hand own loans) ≤ 1) → lowest_run (is_in_one (hand own loans)) count slot_limit ≡ first
        → (s : ℕ) → times s (parts own loans first count) ≡ times s (hand own loans) }
{}
