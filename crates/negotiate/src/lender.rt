//! The slots that a node has of its own, and whether it may give them away now.

ghost use Rattle.std.specs.Prelude.{◌≡◌, ◌≢◌, ◌<◌};
ghost use Rattle.negotiate.specs.Lending.{lowest_own, granted, after_grant, is_free, loan_for, after_asked, after_turn, after_give, is_kept, unlocked};
ghost use Rattle.negotiate.specs.declared.lender.Phase.TheVariants as phases;
ghost use Rattle.negotiate.specs.declared.lender.Kept.TheVariants as keeps;

use crate::runs::take_run;
use slot_space::{NodeNo, SlotNo, SlotSet};
use std::marker::Model;

/// Whether a node may give and take slots of its own.
#[derive(Clone, Copy)]
pub enum Phase {
    /// It may.
    Free,
    /// It has asked the others for their slots and not yet decided.
    Buying,
    /// Its slots are with a node that buys.
    Away,
}

/// What came while the slots were away and waits until they are back.
#[derive(Clone, Copy)]
pub enum Kept {
    Nothing,
    /// This node asked for the slots.
    Ask(NodeNo),
    /// The turn to buy.
    Turn,
}

/// What a claim of slots in a row is answered.
#[derive(Clone, Copy)]
pub enum Grant {
    /// The run that starts here.
    Run(SlotNo),
    /// The own slots have no such run.
    NoRun,
    /// Nothing is given now.
    Locked,
}

/// A node's own slots, its phase and what it keeps.
#[derive(Drop)]
pub struct Lender {
    own: SlotSet,
    phase: Phase,
    kept: Kept,
}

impl Model for Lender {
    ghost use Rattle.negotiate.specs.Lending.{LenderView, view_of};

    ghost Value = { LenderView };

    ghost view = { λ l. view_of l.own l.phase l.kept };
}

impl Lender {
    /// A node with these slots.
    pub fn new(own: SlotSet) -> Lender
        ensures { result ≡ unlocked own }
    {
        Lender {
            own,
            phase: Phase::Free,
            kept: Kept::Nothing,
        }
    }

    /// The phase.
    pub fn phase(&self) -> Phase
        ensures { result ≡ self.now.phase }
    {
        self.phase
    }

    /// Whether something is kept.
    pub fn keeps(&self) -> bool
        ensures { result ≡ is_kept self.now.kept }
    {
        match self.kept {
            Kept::Nothing => false,
            Kept::Ask(_) | Kept::Turn => true,
        }
    }

    /// The own slots.
    pub fn own(&self) -> &SlotSet
        ensures { result.now ≡ self.now.own }
    {
        &self.own
    }

    /// Gives the lowest run of so many own slots out.
    pub fn grant(&mut self, count: u16) -> Grant
        requires { 0 < count }
        ensures answer { result ≡ granted self.old.phase (lowest_own self.old count) }
        ensures after { self.new ≡ after_grant count self.old }
    {
        match self.phase {
            Phase::Free => self.take_lowest(count),
            Phase::Buying | Phase::Away => Grant::Locked,
        }
    }

    /// Takes these slots in. It changes nothing, and is false, exactly where the phase isn't Free.
    pub fn give(&mut self, set: &SlotSet) -> bool
        ensures done { result ≡ is_free self.old.phase }
        ensures after { self.new ≡ after_give set.now self.old }
    {
        match self.phase {
            Phase::Free => {
                self.own.union_with(set);
                true
            }
            Phase::Buying | Phase::Away => false,
        }
    }

    /// A node that buys asks for the own slots: all of them are the loan, or the ask is kept.
    pub fn asked(&mut self, by: NodeNo) -> Option<SlotSet>
        requires phase { self.old.phase ≢ phases.Buying }
        requires kept { self.old.kept ≡ keeps.Nothing }
        ensures loan { result ≡ loan_for self.old }
        ensures after { self.new ≡ after_asked by self.old }
    {
        match self.phase {
            Phase::Free => {
                self.phase = Phase::Away;
                Some(self.own.take_all())
            }
            Phase::Buying => None,
            Phase::Away => {
                self.kept = Kept::Ask(by);
                None
            }
        }
    }

    /// The turn to buy comes: it is taken, or kept.
    pub fn turn(&mut self) -> bool
        requires phase { self.old.phase ≢ phases.Buying }
        requires kept { self.old.kept ≡ keeps.Nothing }
        ensures taken { result ≡ is_free self.old.phase }
        ensures after { self.new ≡ after_turn self.old }
    {
        match self.phase {
            Phase::Free => {
                self.phase = Phase::Buying;
                true
            }
            Phase::Buying => false,
            Phase::Away => {
                self.kept = Kept::Turn;
                false
            }
        }
    }

    /// The loan comes back. What was kept is given out.
    pub fn back(&mut self, set: SlotSet) -> Kept
        requires { self.old.phase ≡ phases.Away }
        ensures kept { result ≡ self.old.kept }
        ensures after { self.new ≡ unlocked set }
    {
        let kept = self.kept;
        *self = Lender::new(set);
        kept
    }

    /// The node has bought, and these are its own slots.
    pub fn close(&mut self, own: SlotSet)
        requires { self.old.phase ≡ phases.Buying }
        ensures { self.new ≡ record self.old { own = own; phase = phases.Free } }
    {
        self.own = own;
        self.phase = Phase::Free;
    }

    /// Gives the lowest run of so many own slots out, on a node that isn't locked.
    fn take_lowest(&mut self, count: u16) -> Grant
        requires some { 0 < count }
        requires free { self.old.phase ≡ phases.Free }
        ensures answer { result ≡ granted self.old.phase (lowest_own self.old count) }
        ensures after { self.new ≡ after_grant count self.old }
    {
        match self.own.lowest_run(count) {
            Some(first) => {
                take_run(&mut self.own, first, count);
                Grant::Run(first)
            }
            None => Grant::NoRun,
        }
    }
}
