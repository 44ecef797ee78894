//! What is known of a thread while a trace is drawn.

ghost use Rattle.std.specs.Prelude.{◌≡◌};
ghost use Rattle.pictures.specs.Threads.{first_or_zero, known, next_reason, piece_end, resting, about, turn, after};

use crate::moment::{Moment, following};
use crate::shape::Reason;
use run_trace::Label;
use slot_space::Tid;
use std::collections::BTreeMap;

/// Since when a thread waits and for what, and where it last asked, was answered, ended and left.
#[derive(Clone, Copy)]
pub(crate) struct Thread {
    pub(crate) since: Moment,
    pub(crate) reason: Reason,
    pub(crate) asked: Option<Moment>,
    pub(crate) judged: Option<Moment>,
    pub(crate) ended: Option<Moment>,
    pub(crate) left: Option<Moment>,
}

/// The thread of this name, as it is known here.
pub(crate) fn known(threads: &BTreeMap<Tid, Thread>, t: &Tid, here: &Moment) -> Thread
    ensures { result ≡ known threads.now.entries t.now here.now }
{
    match threads.get(t) {
        Some(thread) => *thread,
        None => Thread {
            since: *here,
            reason: Reason::Gone,
            asked: None,
            judged: None,
            ended: None,
            left: None,
        },
    }
}

/// The thread that a label is about.
pub(crate) fn about(label: &Label) -> Option<Tid>
    ensures { result ≡ about label.now }
{
    match label {
        Label::Born { t, .. } => Some(*t),
        Label::Ran { t, .. } => Some(*t),
        Label::Asked { t, .. } => Some(*t),
        Label::Heard(t) => Some(*t),
        Label::Judged { t, .. } => Some(*t),
        Label::Told(t) => Some(*t),
        Label::Ended { t, .. } => Some(*t),
        Label::Known(t) => Some(*t),
        Label::Left { t, .. } => Some(*t),
        Label::Came(t) => Some(*t),
        Label::Shown(t) => Some(*t),
        _ => None,
    }
}

/// What a thread waits for after this label, where that may be another thing than before.
pub(crate) fn next_reason(label: &Label) -> Option<Reason>
    ensures { result ≡ next_reason label.now }
{
    match label {
        Label::Born { .. } => Some(Reason::Ready),
        Label::Ran { .. } => Some(Reason::Ready),
        Label::Asked { call, args, .. } => {
            Some(Reason::Call(*call, first_or_zero(args.as_slice())))
        }
        Label::Told(_) => Some(Reason::Ready),
        Label::Ended { .. } => Some(Reason::Gone),
        Label::Left { to, .. } => Some(Reason::Coming(to.0)),
        Label::Came(_) => Some(Reason::Ready),
        _ => None,
    }
}

/// When the next piece of a thread begins: not before the last one has ended.
pub(crate) fn turn(here: &Moment, thread: &Thread) -> u64
    ensures { result ≡ turn here.now thread.now }
{
    thread.since.stamp.max(here.stamp)
}

/// Where the piece of a label ends: a run takes a stamp, all else none.
fn piece_end(label: &Label, begin: u64) -> u64
    ensures { result ≡ piece_end label.now begin }
{
    match label {
        Label::Ran { .. } => following(begin),
        _ => begin,
    }
}

/// The thread after the label's piece.
fn resting(here: &Moment, label: &Label, thread: &Thread) -> Thread
    ensures { result ≡ resting here.now label.now thread.now }
{
    match next_reason(label) {
        None => *thread,
        Some(reason) => Thread {
            since: Moment {
                node: here.node,
                stamp: piece_end(label, turn(here, thread)),
            },
            reason,
            asked: thread.asked,
            judged: thread.judged,
            ended: thread.ended,
            left: thread.left,
        },
    }
}

/// The thread after a label.
pub(crate) fn after(here: &Moment, label: &Label, thread: &Thread) -> Thread
    ensures { result ≡ after here.now label.now thread.now }
{
    let mut next = resting(here, label, thread);
    match label {
        Label::Asked { .. } => next.asked = Some(*here),
        Label::Judged { .. } => next.judged = Some(*here),
        Label::Ended { .. } => next.ended = Some(*here),
        Label::Left { .. } => next.left = Some(*here),
        Label::Came(_) => next.left = None,
        _ => {}
    }
    next
}

/// The first of these numbers.
fn first_or_zero(numbers: &[u64]) -> u64
    ensures { result ≡ first_or_zero numbers.now }
{
    match numbers.first() {
        Some(number) => *number,
        None => 0,
    }
}
