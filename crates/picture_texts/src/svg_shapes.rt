//! The shapes of a picture as elements of SVG.

ghost use Rattle.std.specs.Prelude.{◌≡◌, ◌++◌, OnOk};
ghost use Rattle.picture_texts.specs.Filling.{filled};
ghost use Rattle.picture_texts.specs.Frames.{frame_of};
ghost use Rattle.picture_texts.specs.Numbers.{numbers};
ghost use Rattle.picture_texts.specs.Sayings.{says};
ghost use Rattle.picture_texts.specs.SvgShapes.{call_form, wait_form, arrow_form, sign_form, shape_form, place_form, title_text, drawing_text, shape_text};

use crate::filling::push_filled;
use crate::layout::Layout;
use crate::numbers::numbers;
use crate::words::says;
use marcel_core::End;
use pictures::{Message, Reason, Shape, Sign};
use std::alloc::AllocError;

/// How a wait for a call is drawn.
fn call_form(number: u64) -> &'static [u8]
    ensures { result.now ≡ call_form number }
{
    if number == 7 {
        return b"<rect class='join' x='I' y='N' width='M' height='12'/>";
    }
    if number == 16 {
        return b"<rect class='print' x='I' y='N' width='M' height='12'/>";
    }
    b"<rect class='call' x='I' y='N' width='M' height='12'/>"
}

/// How a wait is drawn.
fn wait_form(reason: &Reason) -> &'static [u8]
    ensures { result.now ≡ wait_form reason.now }
{
    match reason {
        Reason::Ready => b"<rect class='ready' x='I' y='N' width='M' height='12'/>",
        Reason::Call(number, _) => call_form(*number),
        Reason::Coming(_) => b"<rect class='coming' x='I' y='N' width='M' height='12'/>",
        Reason::Gone => b"<rect class='gone' x='I' y='N' width='M' height='12'/>",
    }
}

/// How an arrow is drawn.
fn arrow_form(message: &Message) -> &'static [u8]
    ensures { result.now ≡ arrow_form message.now }
{
    match message {
        Message::Thread =>
            b"<line class='move' x1='I' y1='J' x2='K' y2='L' transform='translate(0 8)' marker-end='url(#a)'/>",
        Message::Join =>
            b"<line class='ask' x1='I' y1='J' x2='K' y2='L' transform='translate(0 8)' marker-end='url(#a)'/>",
        Message::Line =>
            b"<line class='say' x1='I' y1='J' x2='K' y2='L' transform='translate(0 8)' marker-end='url(#a)'/>",
        Message::Answer =>
            b"<line class='answer' x1='I' y1='J' x2='K' y2='L' transform='translate(0 8)' marker-end='url(#a)'/>",
        Message::EndNote =>
            b"<line class='end' x1='I' y1='J' x2='K' y2='L' transform='translate(0 8)' marker-end='url(#a)'/>",
        Message::Call(_) =>
            b"<line class='remote' x1='I' y1='J' x2='K' y2='L' transform='translate(0 8)' marker-end='url(#a)'/>",
    }
}

/// How a mark is drawn.
fn sign_form(sign: &Sign) -> &'static [u8]
    ensures { result.now ≡ sign_form sign.now }
{
    match sign {
        Sign::BornMain => b"<text class='sign' x='I' y='N' dy='10'>b</text>",
        Sign::Created(..) => b"<text class='sign' x='I' y='N' dy='10'>b</text>",
        Sign::BornInside(..) => b"<text class='sign' x='I' y='N' dy='10'>b</text>",
        Sign::BornFor(..) => b"<text class='sign' x='I' y='N' dy='10'>b</text>",
        Sign::Ended(End::Exit(_)) => b"<text class='sign' x='I' y='N' dy='10'>e</text>",
        Sign::Ended(End::Fault { .. }) => b"<text class='fault' x='I' y='N' dy='10'>f</text>",
        Sign::Line => b"<text class='sign' x='I' y='N' dy='10'>l</text>",
        Sign::Halted => b"<text class='sign' x='I' y='N' dy='10'>h</text>",
        Sign::Took { .. } => b"<text class='slots' x='I' y='N' dx='9' dy='10'>t</text>",
        Sign::Gave { .. } => b"<text class='slots' x='I' y='N' dx='9' dy='10'>g</text>",
        Sign::Lent { .. } => b"<text class='slots' x='I' y='N' dx='9' dy='10'>n</text>",
        Sign::InHand { .. } => b"<text class='slots' x='I' y='N' dx='9' dy='10'>i</text>",
        Sign::Decided { .. } => b"<text class='slots' x='I' y='N' dx='9' dy='10'>d</text>",
        Sign::Undecided { .. } => b"<text class='slots' x='I' y='N' dx='9' dy='10'>d</text>",
        Sign::Returned { .. } => b"<text class='slots' x='I' y='N' dx='9' dy='10'>r</text>",
        Sign::Home { .. } => b"<text class='slots' x='I' y='N' dx='9' dy='10'>o</text>",
        Sign::Down { .. } => b"<text class='sign' x='I' y='N' dy='10'>v</text>",
        Sign::Burst { .. } => b"<text class='sign' x='I' y='N' dy='10'>u</text>",
        Sign::Gathered { .. } => b"<text class='sign' x='I' y='N' dy='10'>m</text>",
        Sign::Dropped { .. } => b"<text class='sign' x='I' y='N' dy='10'>k</text>",
    }
}

/// How a shape is drawn: a bar in its processor's row and in its thread's lane, a wait in the lane, an arrow between rows, a mark as a letter.
fn shape_form(shape: &Shape) -> &'static [u8]
    ensures { result.now ≡ shape_form shape.now }
{
    match shape {
        Shape::Bar { .. } => {
            b"<rect class='nO' x='I' y='J' width='M' height='16'/><rect class='nO' x='I' y='N' width='M' height='12'/>"
        }
        Shape::Wait { reason, .. } => wait_form(reason),
        Shape::Arrow { carries, .. } => arrow_form(carries),
        Shape::Mark { sign, .. } => sign_form(sign),
        Shape::NodeMark { sign, .. } => sign_form(sign),
    }
}

/// Where a shape stands, in words.
fn place_form(shape: &Shape) -> &'static [u8]
    ensures { result.now ≡ place_form shape.now }
{
    match shape {
        Shape::Bar { .. } => b" at D on node C</title>",
        Shape::Wait { .. } => b" from D to F on node C</title>",
        Shape::Arrow { .. } => b" from D on node C to F on node E</title>",
        Shape::Mark { .. } => b" at D on node C</title>",
        Shape::NodeMark { .. } => b" at D on node C</title>",
    }
}

/// Appends what a shape says.
fn push_saying(out: &mut Vec<u8>, layout: &Layout, shape: &Shape) -> Result<(), AllocError>
    ensures { OnOk result (out.new.items ≡ out.old.items ++ filled (numbers (frame_of layout.now) shape.now) (says shape.now)) }
{
    push_filled(out, says(shape), &numbers(layout, shape))
}

/// Appends where it stands.
fn push_place(out: &mut Vec<u8>, layout: &Layout, shape: &Shape) -> Result<(), AllocError>
    ensures { OnOk result (out.new.items ≡ out.old.items ++ filled (numbers (frame_of layout.now) shape.now) (place_form shape.now)) }
{
    push_filled(out, place_form(shape), &numbers(layout, shape))
}

/// Appends how it is drawn.
fn push_form(out: &mut Vec<u8>, layout: &Layout, shape: &Shape) -> Result<(), AllocError>
    ensures { OnOk result (out.new.items ≡ out.old.items ++ filled (numbers (frame_of layout.now) shape.now) (shape_form shape.now)) }
{
    push_filled(out, shape_form(shape), &numbers(layout, shape))
}

/// Appends a shape's title.
#[tactic(auto, unfolding(crate::specs::SvgShapes::title_text))]
fn push_title(out: &mut Vec<u8>, layout: &Layout, shape: &Shape) -> Result<(), AllocError>
    ensures { OnOk result (out.new.items ≡ out.old.items ++ title_text (frame_of layout.now) shape.now) }
{
    push_saying(out, layout, shape)?;
    push_place(out, layout, shape)
}

/// Appends a shape's drawing.
#[tactic(auto, unfolding(crate::specs::SvgShapes::drawing_text))]
fn push_drawing(out: &mut Vec<u8>, layout: &Layout, shape: &Shape) -> Result<(), AllocError>
    ensures { OnOk result (out.new.items ≡ out.old.items ++ drawing_text (frame_of layout.now) shape.now) }
{
    push_form(out, layout, shape)?;
    out.extend_from_slice(b"</g>\n")
}

/// Appends a shape with its title.
#[tactic(auto, unfolding(crate::specs::SvgShapes::shape_text))]
pub(crate) fn push_shape(
    out: &mut Vec<u8>,
    layout: &Layout,
    shape: &Shape,
) -> Result<(), AllocError>
    ensures { OnOk result (out.new.items ≡ out.old.items ++ shape_text (frame_of layout.now) shape.now) }
{
    out.extend_from_slice(b"<g><title>")?;
    push_title(out, layout, shape)?;
    push_drawing(out, layout, shape)
}
