//! What the shapes say. In these forms letters stand for numbers, as `numbers` has them.

ghost use Rattle.std.specs.Prelude.{◌≡◌};
ghost use Rattle.picture_texts.specs.Sayings.{of_run, of_message, of_end, of_sign, of_call, of_wait, says};

use marcel_core::End;
use pictures::{Message, Reason, Shape, Sign};
use rv_step::{FaultKind, Stop};

/// What a run says.
fn of_run(stop: &Stop) -> &'static [u8]
    ensures { result.now ≡ of_run stop.now }
{
    match stop {
        Stop::Quantum => b"ran A.B G H quantum",
        Stop::Call => b"ran A.B G H call",
        Stop::Fault(FaultKind::Illegal) => b"ran A.B G H illegal",
        Stop::Fault(FaultKind::Break) => b"ran A.B G H break",
        Stop::Fault(FaultKind::Misaligned) => b"ran A.B G H misaligned",
        Stop::Fault(FaultKind::Fetch) => b"ran A.B G H fetch",
        Stop::Fault(FaultKind::Load) => b"ran A.B G H load",
        Stop::Fault(FaultKind::Store) => b"ran A.B G H store",
    }
}

/// What an arrow says.
fn of_message(message: &Message) -> &'static [u8]
    ensures { result.now ≡ of_message message.now }
{
    match message {
        Message::Thread => b"left A.B E, came A.B",
        Message::Join => b"asked A.B, heard A.B",
        Message::Line => b"asked A.B print, shown A.B",
        Message::Answer => b"judged A.B, told A.B",
        Message::EndNote => b"ended A.B, known A.B",
        Message::Call(_) => b"asked A.B, born for its remote call G",
    }
}

/// What an end says.
fn of_end(end: &End) -> &'static [u8]
    ensures { result.now ≡ of_end end.now }
{
    match end {
        End::Exit(_) => b"ended A.B exit G",
        End::Fault {
            kind: FaultKind::Illegal,
            ..
        } => b"ended A.B illegal G",
        End::Fault {
            kind: FaultKind::Break,
            ..
        } => b"ended A.B break G",
        End::Fault {
            kind: FaultKind::Misaligned,
            ..
        } => b"ended A.B misaligned G",
        End::Fault {
            kind: FaultKind::Fetch,
            ..
        } => b"ended A.B fetch G",
        End::Fault {
            kind: FaultKind::Load,
            ..
        } => b"ended A.B load G",
        End::Fault {
            kind: FaultKind::Store,
            ..
        } => b"ended A.B store G",
    }
}

/// What a mark says.
fn of_sign(sign: &Sign) -> &'static [u8]
    ensures { result.now ≡ of_sign sign.now }
{
    match sign {
        Sign::BornMain => b"born A.B main",
        Sign::Created(..) => b"born A.B create G.H",
        Sign::BornInside(..) => b"born A.B in G.H P",
        Sign::BornFor(..) => b"born A.B service G.H P",
        Sign::Ended(end) => of_end(end),
        Sign::Line => b"shown A.B",
        Sign::Halted => b"halted A.B",
        Sign::Took { .. } => b"took A.B G H",
        Sign::Gave { .. } => b"gave A.B, G slots",
        Sign::Lent { .. } => b"lent G, H slots",
        Sign::InHand { .. } => b"inhand G, H slots",
        Sign::Decided { .. } => b"decided A.B G H",
        Sign::Undecided { .. } => b"decided A.B G -",
        Sign::Returned { .. } => b"returned G, H slots",
        Sign::Home { .. } => b"home, G slots",
        Sign::Down { .. } => b"down G H",
        Sign::Burst { .. } => b"burst G H",
        Sign::Gathered { .. } => b"gathered G H",
        Sign::Dropped { .. } => b"dropped A.B G",
    }
}

/// What a call says that is waited for.
fn of_call(number: u64) -> &'static [u8]
    ensures { result.now ≡ of_call number }
{
    if number == 7 {
        return b"A.B waits, asked join H.P";
    }
    if number == 8 {
        return b"A.B waits, asked detach H.P";
    }
    if number == 10 {
        return b"A.B waits, asked sem_p H.P";
    }
    if number == 11 {
        return b"A.B waits, asked sem_v H.P";
    }
    if number == 16 {
        return b"A.B waits, asked print";
    }
    b"A.B waits, asked call G"
}

/// What a wait says.
fn of_wait(reason: &Reason) -> &'static [u8]
    ensures { result.now ≡ of_wait reason.now }
{
    match reason {
        Reason::Ready => b"A.B is ready",
        Reason::Call(number, _) => of_call(*number),
        Reason::Coming(_) => b"A.B goes to node G",
        Reason::Gone => b"A.B is gone",
    }
}

/// What a shape says: its labels, in their own words where it is one label's.
pub(crate) fn says(shape: &Shape) -> &'static [u8]
    ensures { result.now ≡ says shape.now }
{
    match shape {
        Shape::Bar { stop, .. } => of_run(stop),
        Shape::Wait { reason, .. } => of_wait(reason),
        Shape::Arrow { carries, .. } => of_message(carries),
        Shape::Mark { sign, .. } => of_sign(sign),
        Shape::NodeMark { sign, .. } => of_sign(sign),
    }
}
