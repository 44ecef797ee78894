//! One node's side of the two links between it and another node.

ghost use Rattle.std.specs.Prelude.{◌≡◌};
ghost use Rattle.rtrb.specs.Ring.{producer_capacity};

use crate::ring;
use rtrb::{Consumer, Producer};
use std::alloc::AllocError;
use std::collections::VecDeque;

/// Packets go by the outbox and then by `to`, and come by `from`. Both rings hold 64 packets.
#[derive(Drop)]
pub struct Link<P> {
    pub(crate) to: Producer<P>,
    pub(crate) outbox: VecDeque<P>,
    pub(crate) from: Consumer<P>,
    ghost room: { producer_capacity to ≡ 64 },
}

impl<P: Drop> Link<P> {
    ghost use Rattle.std.specs.Prelude.{◌<◌, ◌≤◌, OnOk};
    ghost use Rattle.rtrb.specs.Ring.{IsPair};
    ghost use Rattle.wires.specs.Link.{link_spare, SameRings, HasSent, HasTaken, SameLink, HasFlushed, IsInOrder, IsSettled, BothBecome, OwnBecomes};

    pub(crate) fn reserve(&mut self, count: usize) -> Result<(), AllocError>
        ensures same { SameLink self.old self.new }
        ensures ok { OnOk result (count ≤ link_spare self.new) }
        ensures rings { SameRings self.old self.new }
    {
        self.outbox.reserve(count)
    }

    pub(crate) fn send(&mut self, packet: P)
        requires { 0 < link_spare self.old }
        ensures sent { HasSent packet self.old self.new }
        ensures rings { SameRings self.old self.new }
    {
        self.outbox.push_back_reserved(packet);
    }

    pub(crate) fn flush(&mut self)
        ensures flushed { HasFlushed self.old self.new }
        ensures rings { SameRings self.old self.new }
    {
        ring::flush(&mut self.to, &mut self.outbox);
    }

    pub(crate) fn take(&mut self) -> Option<P>
        ensures taken { HasTaken result self.old self.new }
        ensures rings { SameRings self.old self.new }
    {
        match self.from.pop() {
            Ok(packet) => Some(packet),
            Err(_) => None,
        }
    }

    pub(crate) fn settle_own(&mut self)
        requires { IsPair self.old.to self.old.from }
        ensures settled { OwnBecomes IsSettled self.old self.new }
        ensures rings { SameRings self.old self.new }
    {
        ring::settle(&mut self.to, &mut self.outbox, &mut self.from);
    }

    pub(crate) fn look_own(&mut self)
        requires { IsPair self.old.to self.old.from }
        ensures looked { OwnBecomes IsInOrder self.old self.new }
        ensures rings { SameRings self.old self.new }
    {
        ring::look(&mut self.to, &mut self.from);
    }

    pub(crate) fn settle_with(&mut self, other: &mut Link<P>)
        requires there { IsPair self.old.to other.old.from }
        requires back { IsPair other.old.to self.old.from }
        ensures settled { BothBecome IsSettled self.old other.old self.new other.new }
        ensures rings { SameRings self.old self.new × SameRings other.old other.new }
    {
        ring::settle(&mut self.to, &mut self.outbox, &mut other.from);
        ring::settle(&mut other.to, &mut other.outbox, &mut self.from);
    }

    pub(crate) fn look_with(&mut self, other: &mut Link<P>)
        requires there { IsPair self.old.to other.old.from }
        requires back { IsPair other.old.to self.old.from }
        ensures looked { BothBecome IsInOrder self.old other.old self.new other.new }
        ensures rings { SameRings self.old self.new × SameRings other.old other.new }
    {
        ring::look(&mut self.to, &mut other.from);
        ring::look(&mut other.to, &mut self.from);
    }
}
