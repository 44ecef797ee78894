//! The lines of a shape in a Pajé trace. In these forms letters stand for numbers, as `numbers` has them.

ghost use Rattle.std.specs.Prelude.{◌≡◌, ◌++◌, OnOk};
ghost use Rattle.picture_texts.specs.Filling.{filled};
ghost use Rattle.picture_texts.specs.Frames.{frame_of};
ghost use Rattle.picture_texts.specs.Numbers.{numbers};
ghost use Rattle.picture_texts.specs.PajeLines.{call_state, wait_state, link_start, link_end, starts, name_starts, name_ends, ends, start_text, end_text};

use crate::filling::push_filled;
use crate::layout::Layout;
use crate::numbers::numbers;
use crate::words::says;
use pictures::{Message, Reason, Shape, Sign};
use std::alloc::AllocError;

/// The state of a thread that waits for a call.
fn call_state(number: u64) -> &'static [u8]
    ensures { result.now ≡ call_state number }
{
    if number == 7 {
        return b"8 D st tA.B join\n";
    }
    if number == 16 {
        return b"8 D st tA.B print\n";
    }
    b"8 D st tA.B call\n"
}

/// The state of a thread that waits.
fn wait_state(reason: &Reason) -> &'static [u8]
    ensures { result.now ≡ wait_state reason.now }
{
    match reason {
        Reason::Ready => b"8 D st tA.B ready\n",
        Reason::Call(number, _) => call_state(*number),
        Reason::Coming(_) => b"8 D st tA.B coming\n",
        Reason::Gone => b"8 D st tA.B gone\n",
    }
}

/// The start of a link; its key is its kind, its thread and its stamps.
fn link_start(carries: &Message) -> &'static [u8]
    ensures { result.now ≡ link_start carries.now }
{
    match carries {
        Message::Thread => b"10 D ln c nC move moveA.B.D.F\n",
        Message::Join => b"10 D ln c nC ask askA.B.D.F\n",
        Message::Line => b"10 D ln c nC say sayA.B.D.F\n",
        Message::Answer => b"10 D ln c nC answer answerA.B.D.F\n",
        Message::EndNote => b"10 D ln c nC end endA.B.D.F\n",
        Message::Call(_) => b"10 D ln c nC remote remoteA.B.D.F\n",
    }
}

/// The end of a link.
fn link_end(carries: &Message) -> &'static [u8]
    ensures { result.now ≡ link_end carries.now }
{
    match carries {
        Message::Thread => b"11 F ln c nE move moveA.B.D.F\n",
        Message::Join => b"11 F ln c nE ask askA.B.D.F\n",
        Message::Line => b"11 F ln c nE say sayA.B.D.F\n",
        Message::Answer => b"11 F ln c nE answer answerA.B.D.F\n",
        Message::EndNote => b"11 F ln c nE end endA.B.D.F\n",
        Message::Call(_) => b"11 F ln c nE remote remoteA.B.D.F\n",
    }
}

/// The line of a shape's start.
fn starts(shape: &Shape) -> &'static [u8]
    ensures { result.now ≡ starts shape.now }
{
    match shape {
        Shape::Bar { .. } => b"8 D sp pC.G busy\n8 D st tA.B run\n",
        Shape::Wait { reason, .. } => wait_state(reason),
        Shape::Arrow { carries, .. } => link_start(carries),
        Shape::Mark { .. } => b"9 D et tA.B \"",
        Shape::NodeMark { .. } => b"9 D en nC \"",
    }
}

/// What stands there of a mark: its label.
fn name_starts(shape: &Shape) -> &'static [u8]
    ensures { result.now ≡ name_starts shape.now }
{
    match shape {
        Shape::Mark { .. } => says(shape),
        Shape::NodeMark { .. } => says(shape),
        _ => b"",
    }
}

/// What stands behind it.
fn name_ends(shape: &Shape) -> &'static [u8]
    ensures { result.now ≡ name_ends shape.now }
{
    match shape {
        Shape::Mark { .. } => b"\"\n",
        Shape::NodeMark { .. } => b"\"\n",
        _ => b"",
    }
}

/// The line of a shape's end: a processor is idle, a link comes, a thread is gone.
fn ends(shape: &Shape) -> &'static [u8]
    ensures { result.now ≡ ends shape.now }
{
    match shape {
        Shape::Bar { .. } => b"8 F sp pC.G idle\n",
        Shape::Arrow { carries, .. } => link_end(carries),
        Shape::Mark {
            sign: Sign::Ended(_),
            ..
        } => b"8 F st tA.B gone\n",
        _ => b"",
    }
}

/// Appends the line of a shape's start.
fn push_line(out: &mut Vec<u8>, layout: &Layout, shape: &Shape) -> Result<(), AllocError>
    ensures { OnOk result (out.new.items ≡ out.old.items ++ filled (numbers (frame_of layout.now) shape.now) (starts shape.now)) }
{
    push_filled(out, starts(shape), &numbers(layout, shape))
}

/// Appends the label of a mark.
fn push_name(out: &mut Vec<u8>, layout: &Layout, shape: &Shape) -> Result<(), AllocError>
    ensures { OnOk result (out.new.items ≡ out.old.items ++ filled (numbers (frame_of layout.now) shape.now) (name_starts shape.now)) }
{
    push_filled(out, name_starts(shape), &numbers(layout, shape))
}

/// Appends what stands at a shape's start.
#[tactic(auto, unfolding(crate::specs::PajeLines::start_text))]
pub(crate) fn push_start(
    out: &mut Vec<u8>,
    layout: &Layout,
    shape: &Shape,
) -> Result<(), AllocError>
    ensures { OnOk result (out.new.items ≡ out.old.items ++ start_text (frame_of layout.now) shape.now) }
{
    push_line(out, layout, shape)?;
    push_name(out, layout, shape)?;
    out.extend_from_slice(name_ends(shape))
}

/// Appends what stands at a shape's end.
#[tactic(auto, unfolding(crate::specs::PajeLines::end_text))]
pub(crate) fn push_end(out: &mut Vec<u8>, layout: &Layout, shape: &Shape) -> Result<(), AllocError>
    ensures { OnOk result (out.new.items ≡ out.old.items ++ end_text (frame_of layout.now) shape.now) }
{
    push_filled(out, ends(shape), &numbers(layout, shape))
}
