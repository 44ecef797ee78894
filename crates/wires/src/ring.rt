//! What is done with the ends of one ring and the outbox before it.

ghost use Rattle.std.specs.Prelude.{◌<◌};
ghost use Rattle.rtrb.specs.Ring.{IsPair, producer_capacity};
ghost use Rattle.wires.specs.Ring.{Flushed, Seen, Settled};

use rtrb::{Consumer, Producer};
use std::collections::VecDeque;

// Moves packets from the outbox into the ring while the ring takes them.
pub(crate) fn flush<P: Drop>(to: &mut Producer<P>, outbox: &mut VecDeque<P>)
    ensures { Flushed to.old outbox.old to.new outbox.new }
{
    for _n in 0..outbox.len() {
        if to.is_full() {
            return;
        }
        let Some(packet) = outbox.pop_front() else {
            return;
        };
        to.push_reserved(packet);
    }
}

// Looks at a ring from both ends.
pub(crate) fn look<P: Drop>(to: &mut Producer<P>, from: &mut Consumer<P>)
    requires { IsPair to.old from.old }
    ensures { Seen to.old from.old to.new from.new }
{
    from.slots_beside(to);
}

// Moves packets into the ring until it is full, and makes all that it holds known.
// The producer looks first: then all free slots are known to it, 64 where the ring is empty, so an empty ring never refuses.
pub(crate) fn settle<P: Drop>(
    to: &mut Producer<P>,
    outbox: &mut VecDeque<P>,
    from: &mut Consumer<P>,
)
    requires paired { IsPair to.old from.old }
    requires room { 0 < producer_capacity to.old }
    ensures { Settled to.old outbox.old from.old to.new outbox.new from.new }
{
    to.slots_beside(from);
    flush(to, outbox);
    from.slots_beside(to);
}
