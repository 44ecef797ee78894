//! What is drawn.

use crate::moment::Moment;
use marcel_core::End;
use rv_step::Stop;
use slot_space::Tid;

/// What a thread waits for.
#[derive(Clone, Copy)]
pub enum Reason {
    /// A processor.
    Ready,
    /// The reply to the call of this number, with this first argument; 0 where it has none.
    Call(u64, u64),
    /// To come to the node of this number.
    Coming(u8),
    /// Nothing: it has ended, or no label has told of it yet.
    Gone,
}

/// What an arrow carries.
#[derive(Clone, Copy)]
pub enum Message {
    /// The thread itself.
    Thread,
    /// Its join or detach, to the home of the other thread, or its call of another node's semaphore.
    Join,
    /// Its line, to the console.
    Line,
    /// The reply of its call.
    Answer,
    /// That it has ended, to its home.
    EndNote,
    /// Its remote call of this number, to the thread that serves it.
    Call(u32),
}

/// What a mark says. Nodes and slots stand by their numbers, and of a list of slots stands how many they are.
#[derive(Clone, Copy)]
pub enum Sign {
    BornMain,
    /// By a call of this thread, by its home and number.
    Created(u8, u32),
    /// The same, in this bubble.
    BornInside(u8, u32, u32),
    /// The same, for this remote call.
    BornFor(u8, u32, u32),
    Ended(End),
    Line,
    Halted,
    Took { first: u16, count: u16 },
    Gave { slots: u64 },
    Lent { to: u8, slots: u64 },
    InHand { lender: u8, slots: u64 },
    Decided { count: u16, first: u16 },
    Undecided { count: u16 },
    Returned { to: u8, slots: u64 },
    Home { slots: u64 },
    Down { bubble: u32, list: u8 },
    Burst { bubble: u32, list: u8 },
    Gathered { bubble: u32, count: u32 },
    Dropped { count: u32 },
}

/// Something that is drawn.
#[derive(Clone, Copy)]
pub enum Shape {
    /// The thread runs from here up to a stamp, on this processor.
    Bar {
        t: Tid,
        vp: u8,
        count: u32,
        stop: Stop,
        at: Moment,
        to: u64,
    },
    /// The thread waits from here up to a stamp.
    Wait {
        t: Tid,
        reason: Reason,
        at: Moment,
        to: u64,
    },
    /// Something of the thread goes from one entry to another.
    Arrow {
        t: Tid,
        carries: Message,
        at: Moment,
        to: Moment,
    },
    /// Something happens to this thread at once.
    Mark {
        t: Tid,
        sign: Sign,
        at: Moment,
    },
    /// Something happens to the node at once.
    NodeMark {
        sign: Sign,
        at: Moment,
    },
}
