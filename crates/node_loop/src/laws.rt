//! What a layer above uses of turns, as contracts of functions that do nothing.

ghost use Rattle.std.specs.Prelude.{◌≤◌, ℕ, List};
ghost use Rattle.run_trace.specs.declared.entry.Act.{Act};
ghost use Rattle.run_trace.specs.Histories.{IsTurn, Turn};
ghost use Rattle.node_loop.specs.Histories.{HasHistory, TakesTurns};
ghost use Rattle.node_loop.specs.View.{NodeView};
ghost use Rattle.node_loop.specs.Turns.{Does, IsInRange, turn_of};

/// What a node does is a turn of its own history, whatever packet came: nothing of another node is in it.
pub fn turns_are_local()
    ensures { (v new : NodeView) (act : Act) (last : ℕ) (does : Does v act new) → IsInRange v act → last ≤ v.clock → IsTurn v.program v.me last v.state (turn_of v act does.took does.done) }
{}

/// Any number of turns of a node, in whatever order of acts, are a history of it, and its state, its entries and its links are what
/// they leave. Between them its clock may rise, its rounds may pass, and its links may be looked at and settled.
pub fn turns_are_a_history()
    ensures { (v : NodeView) (turns : List Turn) (new : NodeView) → TakesTurns v turns new → HasHistory v turns new }
{}
