//! What a node keeps of the negotiation of slots.

ghost use Rattle.std.specs.Prelude.{◌≡◌, ◌<◌, ◌++◌, ◌∷◌, [], false, true, not, take, drop, slice_get, length, IfOk};
ghost use Rattle.slot_space.specs.Limits.{node_limit};
ghost use Rattle.run_trace.specs.Talks.{silent, wanting_turn, with_claims, after_turn, listing, listing_sends, next_turn, without_first, turn_to, is_wanting, is_first};
ghost use Rattle.node_state.specs.Turns.{turn_for};

use basics::NoMemory;
use negotiate::Arbiter;
use slot_space::{NodeNo, Tid};
use std::alloc::Global;
use std::collections::VecDeque;
use std::marker::Model;

/// The threads that wait for slots of a turn, the first to come first, whether the node has asked for a turn that isn't over, and on node 0
/// the nodes that have.
#[derive(Drop)]
pub(crate) struct Talk {
    claims: VecDeque<Tid>,
    wants: bool,
    arbiter: Arbiter,
}

impl Model for Talk {
    ghost use Rattle.run_trace.specs.Talks.{Talk as TheTalk};
    ghost use Rattle.node_state.specs.Views.{talk_of};

    ghost Value = { TheTalk };

    ghost view = { λ k. talk_of k.claims.items k.wants k.arbiter };
}

impl Talk {
    /// Before the first event.
    pub(crate) fn new(alloc: Global) -> Talk
        ensures { result ≡ silent }
    {
        Talk {
            claims: VecDeque::new(alloc),
            wants: false,
            arbiter: Arbiter::new(),
        }
    }

    /// How many threads wait.
    pub(crate) fn claims(&self) -> usize
        ensures { result ≡ length self.now.claims }
    {
        self.claims.len()
    }

    /// The thread that waits longest.
    pub(crate) fn first_claim(&self) -> Option<Tid>
        ensures { result ≡ slice_get self.now.claims 0 }
    {
        match self.claims.front() {
            Some(t) => Some(*t),
            None => None,
        }
    }

    /// One thread more waits.
    pub(crate) fn claim(&mut self, t: &Tid) -> Result<(), NoMemory>
        ensures { IfOk result (λ _. self.new ≡ with_claims (self.old.claims ++ t.now ∷ []) self.old) }
    {
        self.claims.push_back(*t)?;
        Ok(())
    }

    /// The thread that waits longest doesn't wait any more, and no more than so many of those behind it.
    pub(crate) fn drop_claim(&mut self, left: usize)
        ensures { self.new ≡ with_claims (take left (drop 1 self.old.claims)) self.old }
    {
        self.claims.pop_front();
        self.claims.truncate(left);
    }

    /// The node wants a turn: whether it has to ask for one.
    pub(crate) fn want(&mut self) -> bool
        ensures asks { result ≡ not self.old.wants }
        ensures talk { self.new ≡ wanting_turn self.old }
    {
        let asks = !self.wants;
        self.wants = true;
        asks
    }

    /// Whether it has asked for a turn that isn't over.
    pub(crate) fn wants(&self) -> bool
        ensures { result ≡ self.now.wants }
    {
        self.wants
    }

    /// Its turn is over.
    pub(crate) fn end_turn(&mut self)
        ensures { self.new ≡ after_turn self.old }
    {
        self.wants = false;
    }

    /// Whether that node wants a turn.
    pub(crate) fn lists(&self, node: NodeNo) -> bool
        ensures { result ≡ is_wanting node self.now.wanting }
    {
        self.arbiter.lists(node)
    }

    /// Whether that node has the turn.
    #[tactic(auto, using(crate::proofs::InTurn::none_first, crate::proofs::InTurn::is_the_first))]
    pub(crate) fn has_turn(&self, node: NodeNo) -> bool
        ensures { result ≡ is_first node self.now.wanting }
    {
        match self.arbiter.first() {
            None => false,
            Some(first) => first.0 == node.0,
        }
    }

    /// That node wants a turn, too. It is answered where it has the turn at once.
    #[tactic(auto, using(crate::proofs::InTurn::listed_turn))]
    pub(crate) fn list(&mut self, node: NodeNo) -> Option<NodeNo>
        requires small { node < node_limit }
        requires other { is_wanting node self.old.wanting ≡ false }
        ensures turn { turn_for result ≡ listing_sends node self.old.wanting }
        ensures talk { self.new ≡ listing node self.old }
    {
        self.arbiter.want(node)
    }

    /// The turn of the first is over. The next node that has it.
    #[tactic(auto, using(crate::proofs::InTurn::some_first, crate::proofs::InTurn::rest, crate::proofs::InTurn::next_first))]
    pub(crate) fn over(&mut self, node: NodeNo) -> Option<NodeNo>
        requires { is_first node self.old.wanting ≡ true }
        ensures turn { turn_for result ≡ turn_to (without_first self.old.wanting) }
        ensures talk { self.new ≡ next_turn self.old }
    {
        self.arbiter.over()
    }
}
