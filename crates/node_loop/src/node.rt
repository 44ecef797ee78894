//! The node.

ghost use Rattle.std.specs.Prelude.{◌≡◌, ℕ, ◌+◌, ◌^◌, ◌<◌, ◌≤◌, length, max, suc, true, IfOk, OnOk, OnErr, IsOk, slice_get};
ghost use Rattle.run_trace.specs.Histories.{seen};
ghost use Rattle.run_trace.specs.Machine.{turn_event, is_beyond};
ghost use Rattle.run_trace.specs.Program.{quantum_limit};
ghost use Rattle.wires.specs.Ends.{node_of, width, ArePaired, BothChanged, LinkChanged};
ghost use Rattle.wires.specs.Link.{IsInOrder, IsSettled, BothBecome, OwnBecomes};
ghost use Rattle.wires.specs.Wires.{StaysWired};
ghost use Rattle.node_state.specs.Listed.{listed};
ghost use Rattle.node_state.specs.Spare.{spare_kept};
ghost use Rattle.node_state.specs.Views.{AreInOrder};
ghost use Rattle.node_state.specs.Events.{program, Answers, StartsAligned};
ghost use Rattle.node_loop.specs.View.{clock_limit, unbooted, raised, with_ends};
ghost use Rattle.node_loop.specs.Links.{Records, Rests};
ghost use Rattle.node_loop.specs.Rounds.{DoesPass, DoesPasses, DoesRuns, DoesTakes, FailsLater, Rounds};
ghost use Rattle.node_loop.specs.Turns.{Turns, IsInRange, IsLost, can, entry_limit};

use crate::gate::Gate;
use crate::links;
use basics::{Items, NoMemory};
use node_state::{EventOutput, NodeState};
use run_trace::{Act, Entry, Labels, Packet, Program, Setup};
use rv_inst::Image;
use slot_space::{NodeNo, Tid};
use std::alloc::Global;
use std::marker::Model;
use wires::Ends;

/// Stamps from here on make a packet a stray.
const STAMP_LIMIT: u64 = 1 << 62;

/// What has come of a turn.
#[derive(Clone, Copy, PartialEq, Eq)]
pub enum Turned {
    /// The act is done, and its entry is the newest.
    Did,
    /// The act isn't possible, and nothing has changed.
    Idle,
}

/// How a round has ended.
#[derive(Clone, Copy, PartialEq, Eq)]
pub enum RoundEnd {
    /// The node has nothing more to do, or has done as much as it may.
    Through,
    /// A turn found no memory, and the node is lost.
    Lost,
}

/// One node with its entries, its console and its ends of its links. After want of memory it is used no more.
#[derive(Drop)]
pub struct Node {
    alloc: Global,
    program: Program,
    me: NodeNo,
    state: NodeState,
    clock: u64,
    round: u64,
    entries: Vec<Entry>,
    console: Vec<u8>,
    ends: Ends<Packet>,
}

impl Model for Node {
    ghost use Rattle.std.specs.Prelude.{◌≡◌, ◌<◌, ◌≤◌, ◌+◌, ◌^◌, length};
    ghost use Rattle.wires.specs.Ends.{node_of, width};
    ghost use Rattle.node_state.specs.Events.{StartsAligned};
    ghost use Rattle.node_loop.specs.View.{NodeView, clock_limit, view_of};

    ghost Value = { NodeView };

    ghost view = { λ n. view_of n.program n.me n.state n.clock n.round n.entries.items n.console.items n.ends };

    // It is one of the cluster's nodes, the ends are its own and lead to all nodes, and no stamp reaches the end of its type.
    ghost invariant = { λ n. (n.clock ≤ clock_limit + length n.entries.items) × (n.me < n.program.setup.geometry.nodes) × (n.round < 2 ^ 64)
        × (node_of n.ends ≡ n.me) × (n.program.setup.geometry.nodes ≤ width n.ends) × StartsAligned n.program.image };
}

impl Node {
    /// A node that has begun: its first entry has stamp 1 and round 0. It keeps a copy of the image.
    pub fn boot(
        alloc: Global,
        setup: &Setup,
        image: &Image,
        me: NodeNo,
        ends: Ends<Packet>,
    ) -> Result<Node, NoMemory>
        requires me { me < setup.now.geometry.nodes }
        requires image { StartsAligned image.now }
        requires ends { (node_of ends ≡ me) × (setup.now.geometry.nodes ≤ width ends) }
        ensures booted { IfOk result (λ node. Turns (unbooted (program setup.now image.now) me ends) Act.Boot node Turned.Did) }
        ensures begun { IfOk result (λ node. node.state.booted ≡ true) }
    {
        let program = Program::of(alloc, setup, image)?;
        Node::begun(alloc, program, me, ends)
    }

    // A node that has begun with this program.
    fn begun(
        alloc: Global,
        program: Program,
        me: NodeNo,
        ends: Ends<Packet>,
    ) -> Result<Node, NoMemory>
        requires me { me < program.setup.geometry.nodes }
        requires image { StartsAligned program.image }
        requires ends { (node_of ends ≡ me) × (program.setup.geometry.nodes ≤ width ends) }
        ensures booted { IfOk result (λ node. Turns (unbooted program me ends) Act.Boot node Turned.Did) }
        ensures begun { IfOk result (λ node. node.state.booted ≡ true) }
    {
        let mut state = NodeState::fresh(alloc, program.setup(), me);
        let Some(done) = state.event(&program, me, Act::Boot, None)? else {
            unreachable!();
        };
        let mut node = Node::without_entries(alloc, program, me, state, ends);
        node.record(1, &Act::Boot, done)?;
        Ok(node)
    }

    // A node in this state, before its first entry.
    fn without_entries(
        alloc: Global,
        program: Program,
        me: NodeNo,
        state: NodeState,
        ends: Ends<Packet>,
    ) -> Node
        requires me { me < program.setup.geometry.nodes }
        requires image { StartsAligned program.image }
        requires ends { (node_of ends ≡ me) × (program.setup.geometry.nodes ≤ width ends) }
        ensures { result ≡ record (unbooted program me ends) { state = state } }
    {
        Node {
            alloc,
            program,
            me,
            state,
            clock: 0,
            round: 0,
            entries: Vec::new(alloc),
            console: Vec::new(alloc),
            ends,
        }
    }

    /// One event: the act is done, and its entry stands last, or it isn't possible and nothing has changed.
    pub fn turn(&mut self, act: Act) -> Result<Turned, NoMemory>
        requires entries { length self.old.entries < entry_limit }
        requires booted { self.old.state.booted ≡ true }
        requires range { IsInRange self.old act }
        ensures turned { IfOk result (λ turned. Turns self.old act self.new turned) }
        ensures still { OnOk result (self.new.state.booted ≡ true) }
        ensures err { OnErr result (IsLost self.old self.new) }
    {
        self.step(act)
    }

    // The event and its entry.
    fn step(&mut self, act: Act) -> Result<Turned, NoMemory>
        requires booted { self.old.state.booted ≡ true }
        requires range { IsInRange self.old act }
        ensures turned { IfOk result (λ turned. Turns self.old act self.new turned) }
        ensures err { OnErr result (IsLost self.old self.new) }
    {
        let took = links::take(&mut self.ends, &act);
        let stamp = next_stamp(self.clock, &took);
        let done = event(
            self.alloc,
            &mut self.state,
            &self.program,
            self.me,
            &act,
            took,
        )?;
        match done {
            None => Ok(Turned::Idle),
            Some(done) => {
                self.record(stamp, &act, done)?;
                Ok(Turned::Did)
            }
        }
    }

    // Adds the entry and sends its packets, which go into the rings as far as these take them. Where there is no memory, neither is done.
    fn record(&mut self, stamp: u64, act: &Act, done: EventOutput) -> Result<(), NoMemory>
        requires { stamp ≤ clock_limit + length self.old.entries + 1 }
        ensures ok { OnOk result (Records stamp act.now done self.old self.new) }
        ensures err { OnErr result (Rests self.old self.new) }
    {
        let EventOutput {
            labels,
            sends,
            prints,
        } = done;
        links::reserve_all(&mut self.ends, sends.as_slice())?;
        let labels = Labels::new(self.alloc, labels)?;
        self.entries.reserve(1)?;
        self.console.extend_from_slice(prints.as_slice())?;
        links::send_all(&mut self.ends, stamp, sends.into_vec());
        self.ends.flush();
        self.entries.push_reserved(Entry {
            stamp,
            node: self.me,
            round: self.round,
            act: *act,
            labels,
        });
        self.clock = stamp;
        Ok(())
    }

    /// A round: passes over all links and the run list, until `events` events are done or a pass finds nothing to do. Each pass
    /// takes one packet from each link that shows one, in the order of senders, and then runs each processor that has a pick when
    /// its turn comes. The gate is passed at the start and between events.
    pub fn round<G: Gate>(&mut self, gate: &G, events: u32) -> RoundEnd
        requires entries { length self.old.entries + events ≤ entry_limit }
        requires quantum { (0 < self.old.program.setup.quantum) × (self.old.program.setup.quantum ≤ quantum_limit) }
        requires booted { self.old.state.booted ≡ true }
        ensures { Rounds self.old events self.new result }
    {
        gate.pass(self.me, self.round);
        match self.passes(gate, events) {
            Ok(()) => RoundEnd::Through,
            Err(NoMemory) => {
                self.state = NodeState::fresh(self.alloc, self.program.setup(), self.me);
                RoundEnd::Lost
            }
        }
    }

    // Passes, until so many events are done or one finds nothing to do.
    fn passes<G: Gate>(&mut self, gate: &G, events: u32) -> Result<(), NoMemory>
        requires entries { length self.old.entries + events ≤ entry_limit }
        requires quantum { (0 < self.old.program.setup.quantum) × (self.old.program.setup.quantum ≤ quantum_limit) }
        requires booted { self.old.state.booted ≡ true }
        ensures ok { OnOk result (DoesPasses events self.old self.new) }
        ensures err { OnErr result (FailsLater self.old self.new) }
    {
        let mut left = events;
        for _n in 0..events {
            let done = self.pass(gate, left)?;
            if done == 0 {
                return Ok(());
            }
            left -= done;
            if left == 0 {
                return Ok(());
            }
        }
        Ok(())
    }

    // A pass of at most so many events.
    fn pass<G: Gate>(&mut self, gate: &G, room: u32) -> Result<u32, NoMemory>
        requires entries { length self.old.entries + room ≤ entry_limit }
        requires quantum { (0 < self.old.program.setup.quantum) × (self.old.program.setup.quantum ≤ quantum_limit) }
        requires booted { self.old.state.booted ≡ true }
        ensures ok { IfOk result (λ count. DoesPass room count self.old self.new) }
        ensures err { OnErr result (FailsLater self.old self.new) }
    {
        let takes = self.take_each(gate, room)?;
        let runs = self.run_each(gate, room - takes)?;
        Ok(takes + runs)
    }

    // The most instructions of a run.
    fn quantum(&self) -> u32
        ensures { result ≡ self.now.program.setup.quantum }
    {
        self.program.setup().quantum
    }

    // Takes a packet of each sender of whom one shows, at most so many.
    fn take_each<G: Gate>(&mut self, gate: &G, room: u32) -> Result<u32, NoMemory>
        requires entries { length self.old.entries + room ≤ entry_limit }
        requires booted { self.old.state.booted ≡ true }
        ensures ok { IfOk result (λ count. DoesTakes room count self.old self.new) }
        ensures err { OnErr result (FailsLater self.old self.new) }
    {
        let mut taken = 0;
        for sender in 0..self.program.nodes() {
            if taken == room {
                return Ok(taken);
            }
            match self.event(gate, Act::Take(NodeNo(sender)))? {
                Turned::Did => taken += 1,
                Turned::Idle => continue,
            }
        }
        Ok(taken)
    }

    // Runs each processor that has a pick when its turn comes, at most so many.
    fn run_each<G: Gate>(&mut self, gate: &G, room: u32) -> Result<u32, NoMemory>
        requires entries { length self.old.entries + room ≤ entry_limit }
        requires quantum { (0 < self.old.program.setup.quantum) × (self.old.program.setup.quantum ≤ quantum_limit) }
        requires booted { self.old.state.booted ≡ true }
        ensures ok { IfOk result (λ count. DoesRuns room count self.old self.new) }
        ensures err { OnErr result (FailsLater self.old self.new) }
    {
        let limit = self.quantum();
        let mut ran = 0;
        for vp in 0..self.program.processors() {
            if ran == room {
                return Ok(ran);
            }
            match self.event(gate, Act::Run(vp, limit))? {
                Turned::Did => ran += 1,
                Turned::Idle => continue,
            }
        }
        Ok(ran)
    }

    // An event, after which the gate is passed.
    fn event<G: Gate>(&mut self, gate: &G, act: Act) -> Result<Turned, NoMemory>
        requires entries { length self.old.entries < entry_limit }
        requires booted { self.old.state.booted ≡ true }
        requires range { IsInRange self.old act }
        ensures turned { IfOk result (λ turned. Turns self.old act self.new turned) }
        ensures still { OnOk result (self.new.state.booted ≡ true) }
        ensures err { OnErr result (IsLost self.old self.new) }
    {
        let turned = self.turn(act)?;
        if turned == Turned::Did {
            gate.pass(self.me, self.round);
        }
        Ok(turned)
    }

    /// Whether it goes on: a turn in a round that found no memory has lost it.
    pub fn stands(&self) -> bool
        ensures { result ≡ self.now.state.booted }
    {
        self.state.begun()
    }

    /// The node's clock is at least this from now on, and its next round begins.
    pub fn raise(&mut self, clock: u64)
        requires { clock < clock_limit }
        ensures { self.new ≡ raised clock self.old }
    {
        self.clock = self.clock.max(clock);
        if self.round < u64::MAX {
            self.round += 1;
        }
    }

    /// Whether the processor has a pick, the packet of the link is known, or the thread is on a run list.
    pub fn possible(&self, act: &Act) -> bool
        requires { IsInRange self.now act.now }
        ensures { result ≡ can self.now act.now }
    {
        match act {
            Act::Boot => false,
            Act::Take(from) => self.has_packet(*from),
            Act::Run(_, _) => self.state.can(act),
            Act::Move(_, _) => self.state.can(act),
        }
    }

    /// Whether the processor has a pick.
    pub fn has_pick(&self, vp: u8) -> bool
        ensures { (quantum : ℕ) → result ≡ can self.now (Act.Run vp quantum) }
    {
        self.state.can(&Act::Run(vp, 1))
    }

    /// Whether a packet of this sender is known.
    pub fn has_packet(&self, sender: NodeNo) -> bool
        requires { sender < self.now.program.setup.geometry.nodes }
        ensures { result ≡ can self.now (Act.Take sender) }
    {
        self.ends.known(sender)
    }

    /// Its number.
    pub fn me(&self) -> NodeNo
        ensures value { result ≡ self.now.me }
        ensures inside { self.now.me < self.now.program.setup.geometry.nodes }
    {
        self.me
    }

    /// Its entries, oldest first.
    pub fn entries(&self) -> &[Entry]
        ensures { result.now ≡ self.now.entries }
    {
        &self.entries
    }

    /// The lines that it has shown.
    pub fn console(&self) -> &[u8]
        ensures { result.now ≡ self.now.console }
    {
        &self.console
    }

    /// Whether a thread has called halt here.
    pub fn halted(&self) -> bool
        ensures { result ≡ self.now.state.halted }
    {
        self.state.halted()
    }

    /// How many threads and bubbles are on run lists.
    pub fn ready(&self) -> u32
        ensures { result ≡ length self.now.state.forest.lists.rows }
    {
        self.state.entities()
    }

    /// How many threads are on run lists.
    pub fn listed(&self) -> usize
        ensures { result ≡ length (listed self.now.state) }
    {
        self.state.ready()
    }

    /// The name at this place among those of the threads on run lists, in the order of names.
    pub fn ready_at(&self, place: usize) -> Option<Tid>
        ensures { result ≡ slice_get (listed self.now.state) place }
    {
        self.state.ready_at(place)
    }

    /// The names of the threads that are here and on run lists, ascending.
    pub fn ready_threads(&self) -> Result<Vec<Tid>, NoMemory>
        ensures { IfOk result (λ names. names.items ≡ listed self.now.state) }
    {
        self.state.ready_names(self.alloc)
    }

    /// How many threads are here and live. They stand in the order of their names.
    pub fn threads(&self) -> usize
        ensures count { result ≡ length self.now.state.threads }
        ensures ordered { AreInOrder self.now.state.threads }
    {
        self.state.threads()
    }

    /// How many blocks of memory are spare, for the slots of threads to come.
    pub fn spare(&self) -> u32
        ensures { result ≤ spare_kept }
    {
        self.state.spare()
    }

    /// The node's clock.
    pub fn clock(&self) -> u64
        ensures { result ≡ self.now.clock }
    {
        self.clock
    }

    /// The number of the node's round.
    pub fn round_now(&self) -> u64
        ensures { result ≡ self.now.round }
    {
        self.round
    }

    /// Settles both links with another node, as `settle` of the wires does. It takes no memory and always succeeds.
    pub fn settle_with(&mut self, other: &mut Node) -> Result<(), NoMemory>
        requires { ArePaired self.old.ends other.old.ends }
        ensures ok { IsOk result }
        ensures settled { BothChanged (BothBecome IsSettled) self.old.ends other.old.ends self.new.ends other.new.ends }
        ensures paired { ArePaired self.new.ends other.new.ends }
        ensures wired { StaysWired self.old.ends self.new.ends × StaysWired other.old.ends other.new.ends }
        ensures same { (self.new ≡ with_ends self.new.ends self.old) × (other.new ≡ with_ends other.new.ends other.old) }
    {
        wires::settle(&mut self.ends, &mut other.ends)
    }

    /// Settles the link with itself. It takes no memory and always succeeds.
    pub fn settle_own(&mut self) -> Result<(), NoMemory>
        requires { ArePaired self.old.ends self.old.ends }
        ensures ok { IsOk result }
        ensures settled { LinkChanged self.old.me (OwnBecomes IsSettled) self.old.ends self.new.ends }
        ensures paired { ArePaired self.new.ends self.new.ends }
        ensures wired { StaysWired self.old.ends self.new.ends }
        ensures same { self.new ≡ with_ends self.new.ends self.old }
    {
        self.ends.settle_own()
    }

    /// Looks at both links with another node, as `look` of the wires does.
    pub fn look_with(&mut self, other: &mut Node)
        requires { ArePaired self.old.ends other.old.ends }
        ensures looked { BothChanged (BothBecome IsInOrder) self.old.ends other.old.ends self.new.ends other.new.ends }
        ensures paired { ArePaired self.new.ends other.new.ends }
        ensures wired { StaysWired self.old.ends self.new.ends × StaysWired other.old.ends other.new.ends }
        ensures same { (self.new ≡ with_ends self.new.ends self.old) × (other.new ≡ with_ends other.new.ends other.old) }
    {
        wires::look(&mut self.ends, &mut other.ends);
    }

    /// Looks at the link with itself, as `look_own` of the wires does.
    pub fn look_own(&mut self)
        requires { ArePaired self.old.ends self.old.ends }
        ensures looked { LinkChanged self.old.me (OwnBecomes IsInOrder) self.old.ends self.new.ends }
        ensures paired { ArePaired self.new.ends self.new.ends }
        ensures wired { StaysWired self.old.ends self.new.ends }
        ensures same { self.new ≡ with_ends self.new.ends self.old }
    {
        self.ends.look_own();
    }

    /// Its entries and its ends, when it is done with.
    pub fn end(self) -> (Vec<Entry>, Ends<Packet>)
        ensures { (result.0.items ≡ self.entries) × (result.1 ≡ self.ends) }
    {
        (self.entries, self.ends)
    }
}

// The stamp of the next entry, which takes this packet.
#[tactic(auto, unfolding(run_trace::specs::Machine::stamp_limit))]
fn next_stamp(clock: u64, took: &Option<Packet>) -> u64
    requires { clock < 2 ^ 63 }
    ensures { result ≡ suc (max clock (seen took.now)) }
{
    match took {
        Some(packet) => {
            if packet.stamp < STAMP_LIMIT {
                clock.max(packet.stamp) + 1
            } else {
                clock + 1
            }
        }
        None => clock + 1,
    }
}

// Whether the packet's stamp is too great.
#[tactic(auto, unfolding(run_trace::specs::Machine::stamp_limit))]
fn comes_too_late(took: &Option<Packet>) -> bool
    ensures { result ≡ is_beyond took.now }
{
    match took {
        Some(packet) => packet.stamp >= STAMP_LIMIT,
        None => false,
    }
}

// The machine's event; a packet whose stamp is too great is a stray, and changes nothing.
fn event(
    alloc: Global,
    state: &mut NodeState,
    program: &Program,
    me: NodeNo,
    act: &Act,
    took: Option<Packet>,
) -> Result<Option<EventOutput>, NoMemory>
    requires { StartsAligned program.now.image }
    ensures { IfOk result (λ done. Answers (turn_event program.now me state.old act.now took) state.old state.new done) }
{
    if comes_too_late(&took) {
        return Ok(Some(EventOutput {
            labels: Items::new(Vec::new(alloc)),
            sends: Items::new(Vec::new(alloc)),
            prints: Items::new(Vec::new(alloc)),
        }));
    }
    state.event(program, me, *act, took)
}
