//! What a layer above uses of nodes that are driven side by side, as contracts of functions that do nothing.

ghost use Rattle.std.specs.Prelude.{◌≡◌, ◌<◌, ◌≤◌, ◌++◌, ℕ, List, [], Some, length, map, set, slice_get, true};
ghost use Rattle.run_trace.specs.declared.entry.Act.{Act};
ghost use Rattle.run_trace.specs.declared.entry.Entry.{Entry};
ghost use Rattle.run_trace.specs.Cluster.{Event};
ghost use Rattle.run_trace.specs.Histories.{IsHistory, Turn};
ghost use Rattle.run_trace.specs.Program.{Program};
ghost use Rattle.node_loop.specs.Histories.{TakesTurns};
ghost use Rattle.node_loop.specs.Turns.{IsInRange, Turns, entry_limit};
ghost use Rattle.node_loop.specs.declared.node.Turned.{Turned};
ghost use Rattle.node_loop.specs.View.{NodeView, next_round, raised};
ghost use Rattle.cluster.specs.Apart.{Fits, HaveGoneOn};
ghost use Rattle.cluster.specs.Gathering.{AreGathered, AreJoined, GathersAfter, JoinsAfter};
ghost use Rattle.cluster.specs.Standing.{AgreesWith, net_after};
ghost use Rattle.cluster.specs.View.{ClusterView, ShellView, greatest_clock, round_in, shell_of};

use node_loop::turns_are_a_history;
use trace_laws::{gathered, joined, merged};

/// Whatever a node of a cluster does is a history from what the trace leaves of it.
pub fn nodes_have_histories()
    ensures { (c : ClusterView) (before kept : List Entry) → AgreesWith c before kept → (n : ℕ) (v new : NodeView) → slice_get c.nodes n ≡ Some v → (turns : List Turn) → TakesTurns v turns new → IsHistory c.program n v.clock ((net_after c.program (kept ++ before)).nodes n) turns }
{
    turns_are_a_history();
}

/// Nodes that go on apart from their cluster: all raised to the greatest clock they stand for the trace with nothing more, and
/// after a turn of one of them, whatever packet came, they stand for that too.
pub fn nodes_go_on()
    ensures starts { (c : ClusterView) (before kept : List Entry) → AgreesWith c before kept → Fits (shell_of c) (map (raised (greatest_clock c.nodes)) c.nodes) × HaveGoneOn (shell_of c) (map (raised (greatest_clock c.nodes)) c.nodes) before kept (greatest_clock c.nodes) (next_round (round_in c)) (λ n. []) }
    ensures goes_on { (shell : ShellView) (nodes : List NodeView) → Fits shell nodes → (before kept : List Entry) (began round : ℕ) (turns : ℕ → List Turn) → HaveGoneOn shell nodes before kept began round turns → (n : ℕ) (v : NodeView) → slice_get nodes n ≡ Some v → began ≤ v.clock → length v.entries < entry_limit → (act : Act) → IsInRange v act → (new : NodeView) (turned : Turned) → Turns v act new turned → new.state.booted ≡ true → Fits shell (set nodes n new) × (further : ℕ → List Turn) × HaveGoneOn shell (set nodes n new) before kept began round further }
{}

/// What nodes have done side by side in one round after a legal trace, in the order of stamps and nodes, goes on with it.
pub fn rounds_gather()
    ensures { (p : Program) (old : List Entry) (clock round : ℕ) (clocks : ℕ → ℕ) (turns : List Turn) → GathersAfter p old clock round clocks turns → AreGathered p old turns }
{
    gathered();
    merged();
}

/// Local runs that fit on the links go on with a legal trace.
pub fn runs_join()
    ensures { (p : Program) (old trace : List Entry) (histories : ℕ → List Event) → JoinsAfter p old trace histories → AreJoined p old trace histories }
{
    joined();
}
