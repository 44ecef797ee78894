//! What each label draws.

ghost use Rattle.std.specs.Prelude.{◌≡◌, ◌++◌, length, OnOk};
ghost use Rattle.pictures.specs.Windows.{if_within, kept};
ghost use Rattle.pictures.specs.Drawing.{as_list, birth, of_thread, of_node, node_marks, waited, bars, pieces, arrow, earlier, arrows, call, marks, own, left_over};

use crate::moment::{Moment, following, is_same};
use crate::shape::{Message, Reason, Shape, Sign};
use crate::thread::{Thread, known, next_reason, turn};
use crate::window::{Window, is_within};
use basics::Items;
use run_trace::{Label, Why};
use slot_space::{SlotNo, Tid};
use std::alloc::AllocError;
use std::collections::BTreeMap;

/// Appends the shape, where it is to be drawn.
fn put(window: &Window, shapes: &mut Vec<Shape>, shape: &Shape) -> Result<(), AllocError>
    ensures { OnOk result (shapes.new.items ≡ shapes.old.items ++ if_within window.now shape.now) }
{
    if is_within(window, shape) {
        shapes.push(*shape)?;
    }
    Ok(())
}

/// The wait up to a stamp, where it takes any time.
fn put_wait(
    window: &Window,
    shapes: &mut Vec<Shape>,
    t: &Tid,
    until: u64,
    thread: &Thread,
) -> Result<(), AllocError>
    ensures { OnOk result (shapes.new.items ≡ shapes.old.items ++ kept window.now (waited t.now until thread.now)) }
{
    if thread.since.stamp < until {
        return put(
            window,
            shapes,
            &Shape::Wait {
                t: *t,
                reason: thread.reason,
                at: thread.since,
                to: until,
            },
        );
    }
    Ok(())
}

/// The bar of a run that begins at this stamp.
fn put_bar(
    window: &Window,
    shapes: &mut Vec<Shape>,
    t: &Tid,
    here: &Moment,
    label: &Label,
    begin: u64,
) -> Result<(), AllocError>
    ensures { OnOk result (shapes.new.items ≡ shapes.old.items ++ kept window.now (bars t.now here.now label.now begin)) }
{
    match label {
        Label::Ran {
            t: _,
            vp,
            count,
            stop,
        } => put(
            window,
            shapes,
            &Shape::Bar {
                t: *t,
                vp: *vp,
                count: *count,
                stop: *stop,
                at: Moment {
                    node: here.node,
                    stamp: begin,
                },
                to: following(begin),
            },
        ),
        _ => Ok(()),
    }
}

/// The wait that a label ends, and the run that it is.
fn put_pieces(
    window: &Window,
    shapes: &mut Vec<Shape>,
    t: &Tid,
    here: &Moment,
    label: &Label,
    thread: &Thread,
) -> Result<(), AllocError>
    ensures { OnOk result (shapes.new.items ≡ shapes.old.items ++ kept window.now (pieces t.now here.now label.now thread.now)) }
{
    match next_reason(label) {
        None => Ok(()),
        Some(_) => {
            let begin = turn(here, thread);
            put_wait(window, shapes, t, begin, thread)?;
            put_bar(window, shapes, t, here, label, begin)
        }
    }
}

/// Where an arrow begins: nowhere, where it would end in the same entry.
fn earlier(from: &Option<Moment>, here: &Moment) -> Option<Moment>
    ensures { result ≡ earlier from.now here.now }
{
    match from {
        None => None,
        Some(at) if is_same(at, here) => None,
        Some(at) => Some(*at),
    }
}

/// The arrow from there.
fn put_arrow(
    window: &Window,
    shapes: &mut Vec<Shape>,
    t: &Tid,
    carries: Message,
    from: Option<Moment>,
    here: &Moment,
) -> Result<(), AllocError>
    ensures { OnOk result (shapes.new.items ≡ shapes.old.items ++ kept window.now (arrow t.now carries from here.now)) }
{
    match from {
        None => Ok(()),
        Some(at) => put(
            window,
            shapes,
            &Shape::Arrow {
                t: *t,
                carries,
                at,
                to: *here,
            },
        ),
    }
}

/// The arrow that ends with a label. A thread that came begins where it left, be it in the same entry.
fn put_arrows(
    window: &Window,
    shapes: &mut Vec<Shape>,
    t: &Tid,
    here: &Moment,
    label: &Label,
    thread: &Thread,
) -> Result<(), AllocError>
    ensures { OnOk result (shapes.new.items ≡ shapes.old.items ++ kept window.now (arrows t.now here.now label.now thread.now)) }
{
    let asked = earlier(&thread.asked, here);
    let judged = earlier(&thread.judged, here);
    let ended = earlier(&thread.ended, here);
    match label {
        Label::Came(_) => put_arrow(window, shapes, t, Message::Thread, thread.left, here),
        Label::Heard(_) => put_arrow(window, shapes, t, Message::Join, asked, here),
        Label::Shown(_) => put_arrow(window, shapes, t, Message::Line, asked, here),
        Label::Told(_) => put_arrow(window, shapes, t, Message::Answer, judged, here),
        Label::Known(_) => put_arrow(window, shapes, t, Message::EndNote, ended, here),
        _ => Ok(()),
    }
}

/// What a label draws of its thread.
pub(crate) fn put_own(
    window: &Window,
    shapes: &mut Vec<Shape>,
    t: &Tid,
    here: &Moment,
    label: &Label,
    thread: &Thread,
) -> Result<(), AllocError>
    ensures { OnOk result (shapes.new.items ≡ shapes.old.items ++ kept window.now (own t.now here.now label.now thread.now)) }
{
    put_pieces(window, shapes, t, here, label, thread)?;
    put_arrows(window, shapes, t, here, label, thread)
}

/// The arrow of a remote call, where the label is the birth of the thread that serves it.
pub(crate) fn put_call(
    window: &Window,
    shapes: &mut Vec<Shape>,
    here: &Moment,
    label: &Label,
    threads: &BTreeMap<Tid, Thread>,
) -> Result<(), AllocError>
    ensures { OnOk result (shapes.new.items ≡ shapes.old.items ++ kept window.now (call here.now label.now threads.now.entries)) }
{
    match label {
        Label::Born {
            why: Why::Service(by, count),
            ..
        } => {
            let caller = known(threads, by, here);
            put_arrow(
                window,
                shapes,
                by,
                Message::Call(*count),
                earlier(&caller.asked, here),
                here,
            )
        }
        _ => Ok(()),
    }
}

/// The sign of a birth.
fn birth(why: &Why) -> Sign
    ensures { result ≡ birth why.now }
{
    match why {
        Why::Main => Sign::BornMain,
        Why::Create(by) => Sign::Created(by.home.0, by.seq),
        Why::Inside(by, bubble) => Sign::BornInside(by.home.0, by.seq, *bubble),
        Why::Service(by, count) => Sign::BornFor(by.home.0, by.seq, *count),
    }
}

/// How many slots there are.
fn count_of(slots: &Items<SlotNo>) -> u64
    ensures { result ≡ length slots.now }
{
    slots.as_slice().len() as u64
}

/// The mark of a thread.
fn mark(t: &Tid, here: &Moment, sign: Sign) -> Option<Shape>
    ensures { as_list result ≡ of_thread t.now here.now sign }
{
    Some(Shape::Mark {
        t: *t,
        sign,
        at: *here,
    })
}

/// The mark of a node.
fn node_mark(here: &Moment, sign: Sign) -> Option<Shape>
    ensures { as_list result ≡ of_node here.now sign }
{
    Some(Shape::NodeMark { sign, at: *here })
}

/// The mark of a label; none where it has no mark.
fn mark_of(here: &Moment, label: &Label) -> Option<Shape>
    ensures { as_list result ≡ marks here.now label.now }
{
    match label {
        Label::Born { t, why, .. } => mark(t, here, birth(why)),
        Label::Ended { t, end } => mark(t, here, Sign::Ended(*end)),
        Label::Shown(t) => mark(t, here, Sign::Line),
        Label::Halted(t) => mark(t, here, Sign::Halted),
        Label::Took { t, first, count } => mark(
            t,
            here,
            Sign::Took {
                first: first.0,
                count: *count,
            },
        ),
        Label::Gave { t, slots } => mark(
            t,
            here,
            Sign::Gave {
                slots: count_of(slots),
            },
        ),
        Label::Decided {
            t,
            count,
            first: None,
        } => mark(t, here, Sign::Undecided { count: *count }),
        Label::Decided {
            t,
            count,
            first: Some(first),
        } => mark(
            t,
            here,
            Sign::Decided {
                count: *count,
                first: first.0,
            },
        ),
        Label::Dropped { t, count, .. } => mark(t, here, Sign::Dropped { count: *count }),
        _ => node_mark_of(here, label),
    }
}

/// The mark of a label of a node; none where it has no mark.
fn node_mark_of(here: &Moment, label: &Label) -> Option<Shape>
    ensures { as_list result ≡ node_marks here.now label.now }
{
    match label {
        Label::Lent { to, slots } => node_mark(
            here,
            Sign::Lent {
                to: to.0,
                slots: count_of(slots),
            },
        ),
        Label::InHand { lender, slots } => node_mark(
            here,
            Sign::InHand {
                lender: lender.0,
                slots: count_of(slots),
            },
        ),
        Label::Returned { to, slots } => node_mark(
            here,
            Sign::Returned {
                to: to.0,
                slots: count_of(slots),
            },
        ),
        Label::Home { slots } => node_mark(
            here,
            Sign::Home {
                slots: count_of(slots),
            },
        ),
        Label::Down { bubble, list } => node_mark(
            here,
            Sign::Down {
                bubble: *bubble,
                list: *list,
            },
        ),
        Label::Burst { bubble, list } => node_mark(
            here,
            Sign::Burst {
                bubble: *bubble,
                list: *list,
            },
        ),
        Label::Gathered { bubble, count } => node_mark(
            here,
            Sign::Gathered {
                bubble: *bubble,
                count: *count,
            },
        ),
        _ => None,
    }
}

/// The mark of a label.
pub(crate) fn put_mark(
    window: &Window,
    shapes: &mut Vec<Shape>,
    here: &Moment,
    label: &Label,
) -> Result<(), AllocError>
    ensures { OnOk result (shapes.new.items ≡ shapes.old.items ++ kept window.now (marks here.now label.now)) }
{
    match mark_of(here, label) {
        None => Ok(()),
        Some(mark) => put(window, shapes, &mark),
    }
}

/// The wait of a thread that lasts up to the end.
pub(crate) fn put_left_over(
    window: &Window,
    shapes: &mut Vec<Shape>,
    end: u64,
    t: &Tid,
    thread: &Thread,
) -> Result<(), AllocError>
    ensures { OnOk result (shapes.new.items ≡ shapes.old.items ++ kept window.now (left_over end (t.now, thread.now))) }
{
    match thread.reason {
        Reason::Gone => Ok(()),
        _ => put_wait(window, shapes, t, thread.since.stamp.max(end), thread),
    }
}
