//! The numbers of a shape, by the letters that stand for them in the forms.

ghost use Rattle.std.specs.Prelude.{◌≡◌};
ghost use Rattle.picture_texts.specs.Frames.{frame_of};
ghost use Rattle.picture_texts.specs.Numbers.{three, of_reason, of_end, of_sign, details, named, level, numbers};

use crate::axis::across;
use crate::lanes::lane_of;
use crate::layout::{Layout, lane_down, row_down};
use crate::parts::{finish, processor, start, subject};
use marcel_core::End;
use pictures::{Message, Reason, Shape, Sign};
use slot_space::{NodeNo, Tid};

/// Up to three numbers of what a shape says.
#[derive(Clone, Copy)]
pub(crate) struct Details {
    pub(crate) first: u64,
    pub(crate) second: u64,
    pub(crate) third: u64,
}

/// These numbers.
fn three(first: u64, second: u64, third: u64) -> Details
    ensures { result ≡ three first second third }
{
    Details {
        first,
        second,
        third,
    }
}

/// Of a call its number, and its first argument as a name of a thread.
fn of_reason(reason: &Reason) -> Details
    ensures { result ≡ of_reason reason.now }
{
    match reason {
        Reason::Ready => three(0, 0, 0),
        Reason::Call(number, argument) => three(
            *number,
            *argument / 0x1_0000_0000,
            *argument % 0x1_0000_0000,
        ),
        Reason::Coming(to) => three(*to as u64, 0, 0),
        Reason::Gone => three(0, 0, 0),
    }
}

/// Of an end the exit's value, or the pc of the fault.
fn of_end(end: &End) -> Details
    ensures { result ≡ of_end end.now }
{
    match end {
        End::Exit(value) => three(*value, 0, 0),
        End::Fault { kind: _, pc } => three(*pc, 0, 0),
    }
}

fn of_sign(sign: &Sign) -> Details
    ensures { result ≡ of_sign sign.now }
{
    match sign {
        Sign::BornMain => three(0, 0, 0),
        Sign::Created(home, seq) => three(*home as u64, *seq as u64, 0),
        Sign::BornInside(home, seq, bubble) => three(*home as u64, *seq as u64, *bubble as u64),
        Sign::BornFor(home, seq, count) => three(*home as u64, *seq as u64, *count as u64),
        Sign::Ended(end) => of_end(end),
        Sign::Line => three(0, 0, 0),
        Sign::Halted => three(0, 0, 0),
        Sign::Took { first, count } => three(*first as u64, *count as u64, 0),
        Sign::Gave { slots } => three(*slots, 0, 0),
        Sign::Lent { to, slots } => three(*to as u64, *slots, 0),
        Sign::InHand { lender, slots } => three(*lender as u64, *slots, 0),
        Sign::Decided { count, first } => three(*count as u64, *first as u64, 0),
        Sign::Undecided { count } => three(*count as u64, 0, 0),
        Sign::Returned { to, slots } => three(*to as u64, *slots, 0),
        Sign::Home { slots } => three(*slots, 0, 0),
        Sign::Down { bubble, list } => three(*bubble as u64, *list as u64, 0),
        Sign::Burst { bubble, list } => three(*bubble as u64, *list as u64, 0),
        Sign::Gathered { bubble, count } => three(*bubble as u64, *count as u64, 0),
        Sign::Dropped { count } => three(*count as u64, 0, 0),
    }
}

/// What a shape says in numbers beside its thread and its moments.
fn details_of(shape: &Shape) -> Details
    ensures { result ≡ details shape.now }
{
    match shape {
        Shape::Bar { vp, count, .. } => three(*vp as u64, *count as u64, 0),
        Shape::Wait { reason, .. } => of_reason(reason),
        Shape::Arrow {
            carries: Message::Call(count),
            ..
        } => three(*count as u64, 0, 0),
        Shape::Arrow { .. } => three(0, 0, 0),
        Shape::Mark { sign, .. } => of_sign(sign),
        Shape::NodeMark { sign, .. } => of_sign(sign),
    }
}

/// The name of a shape's thread; 0.0 where it has none.
fn named(t: &Option<Tid>) -> Tid
    ensures { result ≡ named t.now }
{
    match t {
        Some(t) => *t,
        None => Tid {
            home: NodeNo(0),
            seq: 0,
        },
    }
}

/// How far down a shape stands: in its thread's lane, or else in its node's row.
fn level(layout: &Layout, t: &Option<Tid>, row: u64) -> u64
    ensures { result ≡ level (frame_of layout.now) t.now row }
{
    match t {
        Some(t) => lane_down(layout.nodes, layout.processors, lane_of(&layout.lanes, t)),
        None => row,
    }
}

/// A home, B number of the thread; C node, D stamp of the start; E node, F stamp of the end; G, H, P what it says; I, J where its
/// start and K, L where its end stands among the rows; M its width; N how far down its lane is; O the colour of its node.
pub(crate) fn numbers(layout: &Layout, shape: &Shape) -> [u64; 16]
    ensures { result ≡ numbers (frame_of layout.now) shape.now }
{
    let t = subject(shape);
    let name = named(&t);
    let from = start(shape);
    let to = finish(shape);
    let says = details_of(shape);
    let left = across(&layout.axis, from.stamp);
    let right = across(&layout.axis, to.stamp);
    let row = row_down(layout.processors, from.node as u16, processor(shape));
    [
        name.home.0 as u64,
        name.seq as u64,
        from.node as u64,
        from.stamp,
        to.node as u64,
        to.stamp,
        says.first,
        says.second,
        left,
        row,
        right,
        row_down(layout.processors, to.node as u16, processor(shape)),
        right.saturating_sub(left),
        level(layout, &t, row),
        (from.node % 8) as u64,
        says.third,
    ]
}
