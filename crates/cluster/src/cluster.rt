//! The cluster.

ghost use Rattle.std.specs.Prelude.{◌≡◌, ◌<◌, ◌≤◌, ◌↔◌, ◌%◌, ◌++◌, ℕ, [], List, length, reverse, Bool, false, IfOk, IsOk, OnErr, OnOk, slice_get};
ghost use Rattle.run_trace.specs.declared.entry.Entry.{Entry};
ghost use Rattle.run_trace.specs.Console.{console_of};
ghost use Rattle.run_trace.specs.Histories.{Turn};
ghost use Rattle.run_trace.specs.Legality.{boot_entries};
ghost use Rattle.run_trace.specs.Program.{nodes_of, quantum_limit};
ghost use Rattle.run_trace.specs.Spots.{at_first};
ghost use Rattle.node_state.specs.Events.{program, StartsAligned};
ghost use Rattle.node_loop.specs.Turns.{IsActInRange};
ghost use Rattle.wires.specs.Wires.{AreFreshFor};
ghost use Rattle.cluster.specs.Acts.{possible_acts, is_possible};
ghost use Rattle.cluster.specs.Apart.{FitAfterTurns, Fits, HaveGoneOn, StandsForMerge};
ghost use Rattle.cluster.specs.Between.{KeepNodes};
ghost use Rattle.cluster.specs.Outcomes.{IsAt};
ghost use Rattle.cluster.specs.Rounds.{AddsRound, HasRoomForRound, LosesRound};
ghost use Rattle.cluster.specs.Standing.{StandsFor, AgreesWith, IsStanding, HasRoom, HasTrace, Steps, Loses, net_after, turns_in};
ghost use Rattle.cluster.specs.View.{console_in, greatest_clock, round_in, shell_of, wires_of};

use crate::beginning::begun;
use crate::choosing::{act_at, count_all};
use crate::deciding::{State, any_halted, any_packet, any_ready, any_thread, decided};
use crate::ending::taken_apart;
use crate::gathering::turns_together;
use crate::laws::rounds_gather;
use crate::listing::push_acts;
use crate::shell::Shell;
use crate::side_by_side::{entries_together, round_all};
use crate::stepping::{carry_out, next_clock, settle_all};
use basics::{Items, NoMemory};
use node_loop::{Gate, Node, Turned};
use run_trace::{Act, Entry, Packet, Program, Setup};
use rv_inst::Image;
use slot_space::NodeNo;
use std::alloc::Global;
use std::marker::Model;
use std::thread::Threads;
use trace_merge::merge;
use wires::{Ends, Wires};

/// All nodes with what is under way between them. After want of memory it can only be finished.
#[derive(Drop)]
pub struct Cluster {
    alloc: Global,
    program: Program,
    turns: u64,
    nodes: Vec<Node>,
    // The ends of the wires' further nodes.
    rest: Vec<Ends<Packet>>,
}

impl Model for Cluster {
    ghost use Rattle.cluster.specs.View.{ClusterView, view_of};
    ghost use Rattle.cluster.specs.Between.{AllOf};

    ghost Value = { ClusterView };

    ghost view = { λ c. view_of c.program c.turns c.nodes.items c.rest.items };

    // Each node is of the cluster's program.
    ghost invariant = { λ c. AllOf c.program c.nodes.items };
}

impl Cluster {
    /// Nodes that have begun, on wires that have carried nothing.
    pub fn boot(
        alloc: Global,
        setup: &Setup,
        image: Image,
        wires: Wires<Packet>,
    ) -> Result<Cluster, NoMemory>
        requires quantum { (0 < setup.now.quantum) × (setup.now.quantum ≤ quantum_limit) }
        requires image { StartsAligned image }
        requires fresh { AreFreshFor (length wires) wires }
        requires wide { setup.now.geometry.nodes ≤ length wires }
        ensures stands { IfOk result (λ c. StandsFor c [] (boot_entries (program setup.now image) setup.now.geometry.nodes)) }
        ensures first { IfOk result (λ c. (greatest_clock c.nodes ≡ 1) × (round_in c ≡ 0)) }
        ensures program { IfOk result (λ c. c.program ≡ program setup.now image) }
        ensures wires { IfOk result (λ c. length (wires_of c) ≡ length wires) }
    {
        let program = Program::of(alloc, setup, &image)?;
        let (nodes, rest) = begun(alloc, &program, wires.ends()?)?;
        Ok(Cluster {
            alloc,
            program,
            turns: 0,
            nodes,
            rest,
        })
    }

    /// An act of a node, in the next round: all clocks are raised to the greatest, and its entry is one stamp above it. Idle
    /// exactly where the act isn't possible, and then nothing changes, the round included.
    pub fn step(&mut self, node: NodeNo, act: Act) -> Result<Turned, NoMemory>
        requires stands { IsStanding self.old }
        requires node { node < nodes_of self.old.program }
        requires range { IsActInRange self.old.program node act }
        requires room { HasRoom self.old node }
        ensures steps { (before kept : List Entry) → StandsFor self.old before kept → IfOk result (λ turned. Steps self.old before kept node act self.new turned) }
        ensures idle { (before kept : List Entry) → StandsFor self.old before kept → IfOk result (λ turned. (turned ≡ Turned.Idle) ↔ (is_possible self.old.program (net_after self.old.program (kept ++ before)) node act ≡ false)) }
        ensures err { (before kept : List Entry) → StandsFor self.old before kept → OnErr result (Loses self.old self.new kept) }
    {
        let at = usize::from(node.0);
        if !self.nodes[at].possible(&act) {
            return Ok(Turned::Idle);
        }
        let clock = next_clock(&self.nodes);
        let turned = carry_out(&mut self.nodes, &self.rest, clock, at, act)?;
        self.turns += 1;
        Ok(turned)
    }

    /// A round of all nodes side by side, in the next round: all clocks are raised to the greatest, each node makes at most 64
    /// entries, and then all links are settled. After want of memory the cluster can only be finished.
    pub fn round_threads<R: Threads + Sync, G: Gate>(
        &mut self,
        rt: &R,
        gate: &G,
    ) -> Result<(), NoMemory>
        requires stands { IsStanding self.old }
        requires room { HasRoomForRound self.old }
        ensures round { (before kept : List Entry) → StandsFor self.old before kept → OnOk result (AddsRound self.old before kept self.new) }
        ensures err { (before kept : List Entry) → StandsFor self.old before kept → OnErr result (LosesRound self.old self.new kept) }
    {
        rounds_gather();
        let clock = next_clock(&self.nodes);
        let before = entries_together(&self.nodes);
        round_all(rt, &mut self.nodes, &self.rest, clock, gate)?;
        self.turns += entries_together(&self.nodes) - before;
        Ok(())
    }

    /// Settles all links: what is under way is known to those to whom it goes. It takes no memory and always succeeds.
    pub fn settle(&mut self) -> Result<(), NoMemory>
        requires agrees { (before kept : List Entry) × AgreesWith self.old before kept }
        ensures ok { IsOk result }
        ensures stands { (before kept : List Entry) → AgreesWith self.old before kept → StandsFor self.new before kept }
        ensures same { (self.new.program ≡ self.old.program) × (self.new.turns ≡ self.old.turns) × KeepNodes self.old.nodes self.new.nodes }
    {
        settle_all(&mut self.nodes, &self.rest)
    }

    /// The possible acts, in their order; moves only where they are asked for.
    pub fn acts(&self, moves: bool) -> Result<Vec<(NodeNo, Act)>, NoMemory>
        ensures { (before kept : List Entry) → StandsFor self.now before kept → IfOk result (λ acts. acts.items ≡ possible_acts moves self.now.program (net_after self.now.program (kept ++ before))) }
    {
        let mut acts = Vec::new(self.alloc);
        for node in &self.nodes {
            push_acts(&mut acts, &self.program, moves, node)?;
        }
        Ok(acts)
    }

    /// The possible act at the word's place, counted round and round, or None where no act is possible; moves only where they
    /// are asked for.
    pub fn choose(&self, moves: bool, word: u32) -> Option<(NodeNo, Act)>
        ensures { (before kept : List Entry) → StandsFor self.now before kept → (let acts = possible_acts moves self.now.program (net_after self.now.program (kept ++ before)) in result ≡ slice_get acts (word % length acts)) }
    {
        let total = count_all(&self.nodes, &self.program, moves);
        if total == 0 {
            return None;
        }
        act_at(&self.nodes, &self.program, moves, word as usize % total)
    }

    /// Whether the program goes on.
    pub fn verdict(&self) -> State
        ensures { (before kept : List Entry) → StandsFor self.now before kept → IsAt self.now.program (kept ++ before) result }
    {
        let count = self.program.nodes();
        decided(
            any_halted(&self.nodes),
            any_packet(&self.nodes, count),
            any_thread(&self.nodes),
            any_ready(&self.nodes),
        )
    }

    /// How many acts were done: its entries that are no beginnings.
    pub fn turns(&self) -> u64
        ensures value { result ≡ self.now.turns }
        ensures counts { (before kept : List Entry) → StandsFor self.now before kept → result ≡ turns_in kept }
    {
        self.turns
    }

    /// The lines that its entries have shown: what the part of the trace before them has shown comes first on the console.
    pub fn console(&self) -> &[u8]
        ensures value { result.now ≡ console_in self.now }
        ensures shows { (before kept : List Entry) → StandsFor self.now before kept → console_of self.now.program (at_first self.now.program) (kept ++ before) ≡ console_of self.now.program (at_first self.now.program) before ++ result.now }
    {
        match self.nodes.first() {
            None => &[],
            Some(node) => node.console(),
        }
    }

    /// Its nodes, to be driven apart from it, and what is left of it. Whatever turns they take, they can be put into it again.
    pub fn apart(self) -> (Shell, Vec<Node>)
        requires agrees { (before kept : List Entry) × AgreesWith self before kept }
        ensures parts { (result.0 ≡ shell_of self) × (result.1.items ≡ self.nodes) }
        ensures fit { FitAfterTurns result.0 result.1.items }
    {
        let shell = Shell {
            alloc: self.alloc,
            program: self.program,
            rest: self.rest,
        };
        (shell, self.nodes)
    }

    /// The nodes are put into the shell, and their links are settled. Whatever histories they have that begin with their parts of
    /// one legal trace, and go on in one round: the merge of the histories is legal, and the cluster stands for it.
    pub fn gather(shell: Shell, nodes: Vec<Node>) -> Cluster
        requires fits { Fits shell nodes.items }
        ensures same { (result.program ≡ shell.program) × (result.rest ≡ shell.rest) × KeepNodes nodes.items result.nodes }
        ensures stands { (before kept : List Entry) (began round : ℕ) (histories : ℕ → List Turn) → HaveGoneOn shell nodes.items before kept began round histories → StandsForMerge result before kept histories }
    {
        rounds_gather();
        let mut nodes = nodes;
        let turns = turns_together(&nodes);
        // It always succeeds.
        let _settled = settle_all(&mut nodes, &shell.rest);
        Cluster {
            alloc: shell.alloc,
            program: shell.program,
            turns,
            nodes,
            rest: shell.rest,
        }
    }

    /// The entries that it has kept, oldest first, and its wires, when it is done with.
    pub fn finish(self) -> Result<(Items<Entry>, Wires<Packet>), NoMemory>
        requires { (kept : List Entry) × HasTrace self kept }
        ensures trace { (kept : List Entry) → HasTrace self kept → IfOk result (λ done. done.0 ≡ reverse kept) }
        ensures wires { IfOk result (λ done. done.1 ≡ wires_of self) }
    {
        let (parts, ends) = taken_apart(self.alloc, self.nodes, self.rest)?;
        let entries = merge(self.alloc, parts)?;
        Ok((Items::new(entries), Wires::of_ends(ends)))
    }
}
