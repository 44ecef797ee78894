//! All nodes, and what is under way between them.

ghost use Rattle.std.specs.Prelude.{◌≡◌, ℕ, ◌↔◌, [], IfOk, IsTrue, length, slice_index_or};
ghost use Rattle.run_trace.specs.Cluster.{IsTaken, net_after};
ghost use Rattle.run_trace.specs.Program.{nodes_of};
ghost use Rattle.run_trace.specs.Trace.{Fits, event_of};
ghost use Rattle.node_state.specs.Events.{fresh_in, StartsAligned};
ghost use Rattle.run_judge.specs.Nets.{net_in, NodeDoes};

use crate::flights::Flights;
use crate::labels::same_labels;
use basics::NoMemory;
use node_state::{EventOutput, NodeState};
use run_trace::{Act, Entry, Packet, Program, Setup};
use slot_space::NodeNo;
use std::alloc::Global;

/// All nodes, and what is under way between them.
#[derive(Drop)]
pub(crate) struct JudgedCluster {
    pub(crate) nodes: Vec<NodeState>,
    pub(crate) flights: Flights,
}

impl JudgedCluster {
    /// Before the first event.
    pub(crate) fn fresh(alloc: Global, setup: &Setup) -> Result<JudgedCluster, NoMemory>
        ensures count { IfOk result (λ cluster. length cluster.nodes.items ≡ setup.now.geometry.nodes) }
        ensures nodes { IfOk result (λ cluster. (n : ℕ) → slice_index_or cluster.nodes.items n (fresh_in setup.now n) ≡ fresh_in setup.now n) }
        ensures links { IfOk result (λ cluster. cluster.flights.all.items ≡ []) }
    {
        let mut nodes = Vec::new(alloc);
        for node in 0..setup.geometry.nodes {
            nodes.push(NodeState::fresh(alloc, setup, NodeNo(node)))?;
        }
        Ok(JudgedCluster {
            nodes,
            flights: Flights::none(alloc),
        })
    }

    /// Whether the machine does exactly this entry. Where it does, it has done so.
    pub(crate) fn does(&mut self, program: &Program, entry: &Entry) -> Result<bool, NoMemory>
        requires nodes { length self.old.nodes.items ≡ nodes_of program.now }
        requires image { StartsAligned program.now.image }
        ensures fits { IfOk result (λ fits. let p = program.now in
            IsTrue fits ↔ Fits p (net_in p self.old.nodes.items self.old.flights.all.items) entry.now) }
        ensures after { IfOk result (λ fits. IsTrue fits → (let p = program.now in
            let net = net_in p self.old.nodes.items self.old.flights.all.items in
            net_in p self.new.nodes.items self.new.flights.all.items ≡ net_after p net (event_of p net entry.now))) }
        ensures count { IfOk result (λ fits. IsTrue fits → length self.new.nodes.items ≡ length self.old.nodes.items) }
    {
        let took = self.flights.take(entry.node, entry.act);
        if !comes_in_time(entry.stamp, entry.act, &took) {
            return Ok(false);
        }
        let Some(done) = do_event(&mut self.nodes, program, entry.node, entry.act, took)? else {
            return Ok(false);
        };
        let mut room = None;
        if !same_labels(entry.labels.as_slice(&mut room), done.labels.as_slice()) {
            return Ok(false);
        }
        self.flights.send(entry.node, entry.stamp, done.sends)?;
        Ok(true)
    }
}

// Whether what an act takes was sent before it, and is there.
fn comes_in_time(stamp: u64, act: Act, took: &Option<Packet>) -> bool
    ensures { IsTrue result ↔ IsTaken stamp act took.now }
{
    match (act, took) {
        (Act::Take(_), Some(packet)) => packet.stamp < stamp,
        (Act::Take(_), None) => false,
        (_, Some(_)) => false,
        (_, None) => true,
    }
}

// The event of one node.
fn do_event(
    nodes: &mut Vec<NodeState>,
    program: &Program,
    me: NodeNo,
    act: Act,
    took: Option<Packet>,
) -> Result<Option<EventOutput>, NoMemory>
    requires nodes { length nodes.old.items ≡ nodes_of program.now }
    requires image { StartsAligned program.now.image }
    ensures { IfOk result (λ done. NodeDoes program.now me act took nodes.old.items nodes.new.items done) }
{
    match nodes.get_mut(me.0 as usize) {
        None => Ok(None),
        Some(node) => node.event(program, me, act, took),
    }
}
