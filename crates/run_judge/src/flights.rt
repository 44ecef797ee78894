//! What is under way between the nodes.

ghost use Rattle.std.specs.Prelude.{◌≡◌, [], ◌++◌, OnOk};
ghost use Rattle.std.specs.List.{position};
ghost use Rattle.run_judge.specs.Links.{is_on, next_on, flights_of};
ghost use Rattle.run_judge.specs.Nets.{LeftBy};

use basics::{Items, NoMemory};
use run_trace::{Act, Packet, Send};
use slot_space::NodeNo;
use std::alloc::Global;

/// A packet under way.
#[derive(Drop)]
pub(crate) struct Flight {
    pub(crate) from: NodeNo,
    pub(crate) to: NodeNo,
    pub(crate) packet: Packet,
}

/// All packets under way, oldest first.
#[derive(Drop)]
pub(crate) struct Flights {
    pub(crate) all: Vec<Flight>,
}

impl Flights {
    /// Before anything was sent.
    pub(crate) fn none(alloc: Global) -> Flights
        ensures { result.all.items ≡ [] }
    {
        Flights {
            all: Vec::new(alloc),
        }
    }

    /// Takes what this act of the node takes off the links.
    pub(crate) fn take(&mut self, node: NodeNo, act: Act) -> Option<Packet>
        ensures first { result ≡ next_on self.old.all.items node act }
        ensures rest { LeftBy node act self.old.all.items self.new.all.items }
    {
        match act {
            Act::Take(from) => self.take_from(from, node),
            _ => None,
        }
    }

    // Takes the first packet of the link.
    fn take_from(&mut self, from: NodeNo, to: NodeNo) -> Option<Packet>
        ensures first { result ≡ next_on self.old.all.items to (Act.Take from) }
        ensures rest { LeftBy to (Act.Take from) self.old.all.items self.new.all.items }
    {
        let Some(place) = place_of(&self.all, from, to) else {
            return None;
        };
        let Flight { packet, .. } = self.all.remove(place);
        Some(packet)
    }

    /// Sends these packets.
    pub(crate) fn send(
        &mut self,
        from: NodeNo,
        stamp: u64,
        sends: Items<Send>,
    ) -> Result<(), NoMemory>
        ensures { OnOk result (self.new.all.items ≡ self.old.all.items ++ flights_of from stamp sends) }
    {
        for send in sends.into_vec() {
            let Send { to, body } = send;
            self.all.push(Flight {
                from,
                to,
                packet: Packet { stamp, body },
            })?;
        }
        Ok(())
    }
}

// Where the first packet of the link stands.
fn place_of(flights: &[Flight], from: NodeNo, to: NodeNo) -> Option<usize>
    ensures { result ≡ position (is_on from to) flights.now }
{
    flights
        .iter()
        .position(|flight| flight.from == from && flight.to == to)
}
