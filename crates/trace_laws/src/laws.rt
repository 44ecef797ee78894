//! The laws, each as a contract.

ghost use Rattle.levels.specs.Trees.{Tree, processors, covers, depth_of, is_leaf, next_towards};
ghost use Rattle.levels.specs.declared.entity.Entity.{Entity};
ghost use Rattle.levels.specs.declared.entity.Place.{Place};
ghost use Rattle.levels.specs.Choice.{choice, has_ready, IsChosen};
ghost use Rattle.bubbles.specs.declared.bubble.Shift.{Shift};
ghost use Rattle.bubbles.specs.Forests.{ForestView};
ghost use Rattle.bubbles.specs.Picking.{Picks};
ghost use Rattle.bubbles.specs.Standing.{IsForest, seats};
ghost use Rattle.std.specs.Prelude.{suc, ◌≡◌, ◌<◌, ◌≤◌, ◌⊎◌, ℕ, List, map, ◌++◌, ◌∷◌, ◌↔◌, Some, [], false, true, if◌then◌else◌};
ghost use Rattle.rv_step.specs.Run.{after, StopsBy};
ghost use Rattle.rv_step.specs.Step.{HartState};
ghost use Rattle.rv_step.specs.declared.hart.Stop.{Stop};
ghost use Rattle.slot_space.specs.declared.names.Tid.{Tid};
ghost use Rattle.marcel_core.specs.declared.end.End.{End};
ghost use Rattle.run_trace.specs.declared.entry.Act.{Act};
ghost use Rattle.run_trace.specs.declared.entry.Entry.{Entry};
ghost use Rattle.run_trace.specs.declared.label.Label.{Label};
ghost use Rattle.run_trace.specs.Program.{Program, code_of, nodes_of, tree_of, processors_of};
ghost use Rattle.trace_laws.specs.Beginnings.{BeginsSo};
ghost use Rattle.trace_laws.specs.Gathers.{events_in, Gathers};
ghost use Rattle.trace_laws.specs.Strays.{AllExpected, IsHeldOnce};
ghost use Rattle.run_trace.specs.Alone.{EachRunsAlone};
ghost use Rattle.run_trace.specs.Cluster.{Event, Net, Merges, Runs, fresh_net, state};
ghost use Rattle.run_trace.specs.Console.{console_of, printed};
ghost use Rattle.run_trace.specs.Guests.{Guest, Run, Thread, is_unwaiting, run_of};
ghost use Rattle.run_trace.specs.Histories.{IsInOrder, Joins, taken_from, sent_to, Turn};
ghost use Rattle.run_trace.specs.Holding.{EachHeldOnce, IsAt, IsOn, Location};
ghost use Rattle.trace_laws.specs.Obeys.{ObeysFrom};
ghost use Rattle.run_trace.specs.Legality.{AreRising, Begins, boot_entries, IsTold, Legal};
ghost use Rattle.run_trace.specs.Local.{Local, fresh, nothing};
ghost use Rattle.run_trace.specs.Machine.{is_range, is_stray, local_event, stamp_limit, takes, turn_event};
ghost use Rattle.run_trace.specs.declared.packet.Packet.{Packet};
ghost use Rattle.run_trace.specs.declared.packet.Body.{Body};
ghost use Rattle.run_trace.specs.declared.entry.Act.TheVariants.{Take};
ghost use Rattle.run_trace.specs.Outcome.{AllLinksEmpty, IsStuck, Lives};
ghost use Rattle.run_trace.specs.Bubbles.{is_listed};
ghost use Rattle.run_trace.specs.Rules.{spots_of};
ghost use Rattle.run_trace.specs.Same.{HasEnded, HasLivedLike, HasWritten, lived};
ghost use Rattle.run_trace.specs.Spots.{On, Ready, Spots, Stage, after_labels, at_first};
ghost use Rattle.run_trace.specs.Obeying.{IsEntry, KeepsRules, may_act, Starts};
ghost use Rattle.run_trace.specs.Stands.{AreSeated, Stands};
ghost use Rattle.run_trace.specs.Trace.{IsRun, entry_of, events_of, Fits, net_after_trace};
ghost use Rattle.run_trace.specs.World.{World};
ghost use Rattle.trace_laws.specs.Headings.{heading};
ghost use Rattle.trace_laws.specs.Obeys.{world_at};
ghost use Rattle.run_trace.specs.Telling.{first_world, world_of};
ghost use Rattle.run_trace.specs.Items.{Progress};

/// Whatever local runs are merged: in the order of stamps they are one run of the cluster.
pub fn merged()
    ensures runs { (p : Program) (base : Net) (events : List Event) → Merges p base events → Runs p base events }
    ensures entries { (p : Program) (base : Net) (events : List Event) → Merges p base events → IsRun p base (map entry_of events) }
{}

/// Turns of nodes that saw whatever packets came, put together: no stamp reaches the limit, no packet is a stray by its
/// stamp, and they are one run of the cluster.
pub fn gathered()
    ensures { (p : Program) (base : Net) (c : ℕ) (clocks : ℕ → ℕ) (turns : List Turn) → Gathers p base c clocks turns → Runs p base (events_in turns) }
{}

/// Local runs that fit on the links are together one run, and it comes to their states and to what is under way.
pub fn joined()
    ensures run { (p : Program) (base : Net) (trace : List Entry) (histories : ℕ → List Event) → Joins p base trace histories → IsRun p base trace }
    ensures nodes { (p : Program) (base : Net) (trace : List Entry) (histories : ℕ → List Event) → Joins p base trace histories → (n : ℕ) → (net_after_trace p base trace).nodes n ≡ state p n (base.nodes n) (histories n) }
    ensures links { (p : Program) (base : Net) (trace : List Entry) (histories : ℕ → List Event) → Joins p base trace histories → (i j : ℕ) → taken_from i (histories j) ++ (net_after_trace p base trace).links i j ≡ base.links i j ++ sent_to j (histories i) }
{}

/// What a judge has to test: a trace is a run exactly where the trace before its newest entry is, and that entry fits.
pub fn judged()
    ensures { (p : Program) (base : Net) (x : Entry) (xs : List Entry) → IsRun p base (x ∷ xs) ↔ (IsRun p base xs × Fits p (net_after_trace p base xs) x) }
{}

/// Before the first event the nodes and links stand for nothing told.
pub fn started()
    ensures { (p : Program) → Stands p (at_first p) (fresh_net p) }
{}

/// Each event of a run obeys the rules and keeps that nodes and links are exactly their parts of what the labels tell;
/// what it puts on the console are the lines that its labels show.
pub fn legal()
    ensures obeys { (p : Program) (old : Spots) (base : Net) → Stands p old base → (trace : List Entry) → IsRun p base trace → ObeysFrom p old base trace }
    ensures stands { (p : Program) (old : Spots) (base : Net) → Stands p old base → (trace : List Entry) → IsRun p base trace → Stands p (spots_of p old trace) (net_after_trace p base trace) }
    ensures console { (p : Program) (old : Spots) (base : Net) → Stands p old base → (trace : List Entry) → IsRun p base trace → printed (events_of p base trace) ≡ console_of p old trace }
{}

/// The rules leave nothing free: two traces that keep them, after the same past, and that have the same stamps, nodes, rounds and
/// acts, are one trace.
pub fn one_trace()
    ensures { (p : Program) (old : World) (xs ys : List Entry) → map heading xs ≡ map heading ys → KeepsRules p old xs → KeepsRules p old ys → xs ≡ ys }
{}

/// The rules and the machine are two definitions of one thing: of a trace, and of one entry after a trace, so the first entry that
/// the machine can't make is the first that the rules refuse. And a trace that keeps the rules goes on with each act that may be.
pub fn rules_and_machine()
    ensures same { (p : Program) (old : Spots) (base : Net) → Stands p old base → (trace : List Entry) → KeepsRules p (world_at old base) trace ↔ IsRun p base trace }
    ensures entry { (p : Program) (old : Spots) (base : Net) → Stands p old base → (x : Entry) (xs : List Entry) → IsRun p base xs → IsEntry p (world_of p (world_at old base) xs) x ↔ Fits p (net_after_trace p base xs) x }
    ensures goes_on { (p : Program) (old : Spots) (base : Net) → Stands p old base → (trace : List Entry) → KeepsRules p (world_at old base) trace → (stamp n round : ℕ) (a : Act) (first : Progress) → may_act p n ((world_of p (world_at old base) trace).begun n) a ≡ true → Starts p stamp n a (world_of p (world_at old base) trace) first → (ls : List Label) × KeepsRules p (world_at old base) ((record { stamp = stamp; node = n; round = round; act = a; labels = ls }) ∷ trace) }
{}

/// After a run nodes and links are exactly what the labels tell.
pub fn told()
    ensures { (p : Program) (old : Spots) (base : Net) → Stands p old base → (trace : List Entry) → IsRun p base trace → IsTold p (world_of p (world_at old base) trace) (net_after_trace p base trace) }
{}

/// Order, beginnings and rounds, with the run or with the rules, give the whole of legality: for one sequence of events, and for nodes side by side.
pub fn whole()
    ensures sequential { (p : Program) (trace : List Entry) → IsInOrder trace → Begins p trace → AreRising trace → IsRun p (fresh_net p) trace → Legal p trace }
    ensures by_rules { (p : Program) (trace : List Entry) → IsInOrder trace → Begins p trace → AreRising trace → KeepsRules p (first_world p) trace → Legal p trace }
    ensures side_by_side { (p : Program) (trace : List Entry) (histories : ℕ → List Event) → Begins p trace → AreRising trace → Joins p (fresh_net p) trace histories → Legal p trace }
{}

/// After a legal trace no slot has two holders, and no thread is at two places.
pub fn one_holder()
    ensures slots { (p : Program) (trace : List Entry) → Legal p trace → EachHeldOnce (net_after_trace p (fresh_net p) trace) }
    ensures places { (p : Program) (trace : List Entry) → Legal p trace → (t : Tid) (a b : Location) (g h : Guest) → IsAt (net_after_trace p (fresh_net p) trace) a t g → IsAt (net_after_trace p (fresh_net p) trace) b t h → (a ≡ b) × (g ≡ h) }
{}

/// After a legal trace a thread's registers, memory and blocks are, wherever it is, those of its code run alone with the
/// replies that it was told.
pub fn alone()
    ensures { (p : Program) (trace : List Entry) → Legal p trace → EachRunsAlone p (net_after_trace p (fresh_net p) trace) trace }
{}

/// No thread can tell where it is, who it is or what has moved, but by asking: in two legal traces of one image, whatever their
/// nodes, slots, order, preemptions and moves, two threads that were born the same, were given the same slots and the same
/// replies, and have done as many instructions have the same registers, bytes and blocks, wherever they are, and have written
/// the same lines; and if both have ended, they have ended the same way.
pub fn same_wherever()
    ensures guest { (p q : Program) (xs ys : List Entry) → Legal p xs → Legal q ys → code_of p ≡ code_of q → (t u : Tid) → HasLivedLike (lived t xs) (lived u ys) → (a b : Location) (g h : Guest) → IsAt (net_after_trace p (fresh_net p) xs) a t g → IsAt (net_after_trace q (fresh_net q) ys) b u h → g.solo ≡ h.solo }
    ensures trace { (p q : Program) (xs ys : List Entry) → Legal p xs → Legal q ys → code_of p ≡ code_of q → (t u : Tid) → HasLivedLike (lived t xs) (lived u ys) → (before : List (List ℕ)) × (next : List ℕ) × HasWritten p xs t before next × HasWritten q ys u before next }
    ensures ends { (p q : Program) (xs ys : List Entry) → Legal p xs → Legal q ys → code_of p ≡ code_of q → (t u : Tid) → HasLivedLike (lived t xs) (lived u ys) → (e f : End) → HasEnded ((spots_of p (at_first p) xs).threads t).life e → HasEnded ((spots_of q (at_first q) ys).threads u).life f → e ≡ f }
{}

/// What does a run's steps and stops by a run's reason is the run that the machine makes.
pub fn ran()
    ensures { (image : List ℕ) (quantum count : ℕ) (s new : HartState) (stop : Stop) → after image s count ≡ Some new → StopsBy image new quantum count stop → run_of image quantum s ≡ record { count = count; stop = stop; state = new } }
{}

/// A fresh node, asked to begin, does exactly what a legal trace begins with; and the beginnings of all nodes are a legal trace.
pub fn begun()
    ensures node { (p : Program) (n : ℕ) → n < nodes_of p → BeginsSo p n }
    ensures legal { (p : Program) → Legal p (boot_entries p (nodes_of p)) }
{}

/// No packet that a run takes is a stray.
pub fn expected()
    ensures { (p : Program) (old : Spots) (base : Net) → Stands p old base → (trace : List Entry) → IsRun p base trace → AllExpected p base trace }
{}

/// A packet that a node doesn't expect, or whose stamp no trace reaches, changes nothing, says nothing and sends nothing.
pub fn ignored()
    ensures stray { (p : Program) (me from : ℕ) (s : Local) (packet : Packet) → is_range p me s (Take from) ≡ true → is_stray p me from s packet.body ≡ true → local_event p me s (Take from) (Some packet) ≡ Some (nothing s) }
    ensures beyond { (p : Program) (me : ℕ) (s : Local) (act : Act) (packet : Packet) → stamp_limit ≤ packet.stamp → turn_event p me s act (Some packet) ≡ Some (nothing s) }
{}

/// No packet, whatever it says and whoever sent it, gives a node a slot twice: where none was the node's and a thread's, or of two
/// threads, none is so after it is taken.
pub fn unforged()
    ensures { (p : Program) (me from : ℕ) (s : Local) (body : Body) → IsHeldOnce s → IsHeldOnce (takes p me from body s).node }
{}

/// Where no thread and no bubble is on a run list, nothing is under way and no node has halted, a thread that lives makes the trace
/// stuck: each that lives is held back in a bubble, joins one that hasn't ended, or waits for a semaphore of value 0. A thread that is on a node lives, and where
/// nothing is under way each that lives is on one. And where nothing is under way no thread waits for slots, and no node wants a turn
/// or has one.
pub fn quiet()
    ensures stuck { (p : Program) (w : Spots) (net : Net) → Stands p w net → ((n : ℕ) → (net.nodes n).forest.lists.rows ≡ []) → AllLinksEmpty net → ((n : ℕ) → (net.nodes n).halted ≡ false) → (t : Tid) → Lives (w.threads t).life → IsStuck w net }
    ensures somewhere { (p : Program) (w : Spots) (net : Net) → Stands p w net → AllLinksEmpty net → (t : Tid) → Lives (w.threads t).life → (n : ℕ) × (x : Thread) × IsOn net n t x }
    ensures lives { (p : Program) (w : Spots) (net : Net) → Stands p w net → (t : Tid) (n : ℕ) (x : Thread) → IsOn net n t x → Lives (w.threads t).life }
    ensures no_claims { (p : Program) (w : Spots) (net : Net) → Stands p w net → AllLinksEmpty net → (n : ℕ) → ((net.nodes n).talk.claims ≡ []) × ((net.nodes n).talk.wants ≡ false) × ((net.nodes 0).talk.wanting ≡ []) }
{}

/// In a run from the beginning, whatever is no node of the cluster is as before the first event: nothing is there, and no link
/// leads there or from there. Each thread that is on a node is on a node of the cluster.
pub fn inside()
    ensures nodes { (p : Program) (trace : List Entry) → IsRun p (fresh_net p) trace → (n : ℕ) → nodes_of p ≤ n → (net_after_trace p (fresh_net p) trace).nodes n ≡ fresh p n }
    ensures links { (p : Program) (trace : List Entry) → IsRun p (fresh_net p) trace → (i j : ℕ) → (nodes_of p ≤ i) ⊎ (nodes_of p ≤ j) → (net_after_trace p (fresh_net p) trace).links i j ≡ [] }
    ensures lives { (p : Program) (trace : List Entry) → IsRun p (fresh_net p) trace → (t : Tid) (n : ℕ) (stage : Stage) → ((spots_of p (at_first p) trace).threads t).life ≡ On n stage → n < nodes_of p }
{}

/// Of the lists that cover a processor each but a leaf has the next one below it, and a leaf covers no other processor.
pub fn levels()
    ensures next { (tree : Tree) (vp list : ℕ) → vp < processors tree → covers tree vp list ≡ true → is_leaf tree list ≡ false → (covers tree vp (next_towards tree list vp) ≡ true) × (depth_of tree (next_towards tree list vp) ≡ suc (depth_of tree list)) }
    ensures leaf { (tree : Tree) (vp other list : ℕ) → vp < processors tree → other < processors tree → covers tree vp list ≡ true → covers tree other list ≡ true → is_leaf tree list ≡ true → vp ≡ other }
{}

/// Wherever a list that covers a processor has a thread or a bubble, the processor's choices end with a thread; and each list that has one
/// covers some processor. The thread that they take is on the node, and waits for nothing. After any labels, what a processor chooses has the
/// greatest priority of all on lists that cover it, of those it is on the deepest list, and of those it came first.
pub fn picked()
    ensures all { (p : Program) (w : Spots) (net : Net) → Stands p w net → (n : ℕ) → ((net.nodes n).forest.lists.rows ≡ [] → ⊥) → (vp : ℕ) × (vp < processors_of p) × (has_ready (tree_of p) vp (net.nodes n).forest.lists.rows ≡ true) }
    ensures some { (p : Program) (w : Spots) (net : Net) → Stands p w net → (n vp : ℕ) → vp < processors_of p → has_ready (tree_of p) vp (net.nodes n).forest.lists.rows ≡ true → (moves : List Shift) × (t : Tid) × (after : ForestView) × Picks vp (net.nodes n).forest moves (Some t) after }
    ensures there { (p : Program) (w : Spots) (net : Net) → Stands p w net → (n vp : ℕ) (moves : List Shift) (t : Tid) (after : ForestView) → Picks vp (net.nodes n).forest moves (Some t) after → (x : Thread) × IsOn net n t x × (is_unwaiting x ≡ true) }
    ensures best { (p : Program) (trace : List Entry) (n : ℕ) (ls : List Label) (k vp : ℕ) (r : Place × Entity) → let f : ForestView = (after_labels p n ls (spots_of p (at_first p) trace)).forests k in choice f.lists.tree vp f.lists.rows ≡ Some r → IsChosen f.lists.tree vp r f.lists.rows }
{}

/// A thread that is on a node and waits for nothing has one place there: on a run list, or in a bubble that isn't burst. One that waits
/// has none. Each on a run list is on the node and waits for nothing. By the labels alone: a thread has its place on a node exactly
/// where it is ready there, and each on a run list of the node is.
pub fn ready()
    ensures unwaiting { (p : Program) (w : Spots) (net : Net) → Stands p w net → (n : ℕ) (t : Tid) (x : Thread) → IsOn net n t x → seats t (net.nodes n).forest ≡ (if is_unwaiting x then 1 else 0) }
    ensures there { (p : Program) (w : Spots) (net : Net) → Stands p w net → (n : ℕ) (t : Tid) → is_listed t (net.nodes n).forest ≡ true → (x : Thread) × IsOn net n t x × (is_unwaiting x ≡ true) }
    ensures told { (p : Program) (old : Spots) (base : Net) → Stands p old base → (trace : List Entry) → KeepsRules p (world_at old base) trace → (n : ℕ) (t : Tid) → (seats t ((world_of p (world_at old base) trace).spots.forests n) ≡ 1) ↔ (((world_of p (world_at old base) trace).spots.threads t).life ≡ On n Ready) }
    ensures listed { (p : Program) (old : Spots) (base : Net) → Stands p old base → (trace : List Entry) → KeepsRules p (world_at old base) trace → (n : ℕ) (t : Tid) → is_listed t ((world_of p (world_at old base) trace).spots.forests n) ≡ true → ((world_of p (world_at old base) trace).spots.threads t).life ≡ On n Ready }
{}

/// After a legal trace each node's run lists and bubbles are a forest: a bubble on a list has members, and each that is held is in one
/// other bubble. A thread that is on the node and waits for nothing has exactly one place in it, and no other thread has one. The forest
/// that the labels tell knows exactly the threads of its node, with their priorities.
pub fn seated()
    ensures forest { (p : Program) (trace : List Entry) → Legal p trace → (n : ℕ) → IsForest ((net_after_trace p (fresh_net p) trace).nodes n).forest }
    ensures once { (p : Program) (trace : List Entry) → Legal p trace → (n : ℕ) (t : Tid) (x : Thread) → IsOn (net_after_trace p (fresh_net p) trace) n t x → is_unwaiting x ≡ true → seats t ((net_after_trace p (fresh_net p) trace).nodes n).forest ≡ 1 }
    ensures others { (p : Program) (trace : List Entry) → Legal p trace → (n : ℕ) (t : Tid) → ((x : Thread) → IsOn (net_after_trace p (fresh_net p) trace) n t x → is_unwaiting x ≡ false) → seats t ((net_after_trace p (fresh_net p) trace).nodes n).forest ≡ 0 }
    ensures told { (p : Program) (trace : List Entry) → Legal p trace → (n : ℕ) → AreSeated p n (spots_of p (at_first p) trace) }
{}
