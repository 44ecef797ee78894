//! A picture as a Pajé trace: its events in the order of their times.

ghost use Rattle.std.specs.Prelude.{◌≡◌, ◌++◌, OnOk, IfOk};
ghost use Rattle.std.specs.List.{flat_map};
ghost use Rattle.std.specs.List.Sorted.{IsPermutation};
ghost use Rattle.picture_texts.specs.Frames.{frame_of};
ghost use Rattle.picture_texts.specs.Paje.{events_of, event_text, paje_in, IsPaje};

use crate::layout::{Layout, lay_out};
use crate::paje_head::push_head;
use crate::paje_lines::{push_end, push_start};
use crate::parts::{finish, start};
use basics::NoMemory;
use pictures::{Shape, Window};
use std::alloc::{AllocError, Global};

/// The start or the end of a shape.
#[derive(Clone, Copy)]
pub struct Event {
    pub time: u64,
    pub is_end: bool,
    pub shape: Shape,
}

/// The start and the end of each shape.
fn events_of(alloc: Global, shapes: &[Shape]) -> Result<Vec<Event>, AllocError>
    ensures { IfOk result (λ events. events.items ≡ events_of shapes.now) }
{
    let mut events = Vec::new(alloc);
    for shape in shapes {
        events.push(Event {
            time: start(shape).stamp,
            is_end: false,
            shape: *shape,
        })?;
        events.push(Event {
            time: finish(shape).stamp,
            is_end: true,
            shape: *shape,
        })?;
    }
    Ok(events)
}

/// The same in the order of their times.
fn in_order(events: Vec<Event>) -> Result<Vec<Event>, AllocError>
    ensures { IfOk result (λ sorted. IsPermutation events.items sorted.items) }
{
    let mut sorted = events;
    sorted.sort_by_key(|event| event.time)?;
    Ok(sorted)
}

/// Appends an event.
fn push_event(out: &mut Vec<u8>, layout: &Layout, event: &Event) -> Result<(), AllocError>
    ensures { OnOk result (out.new.items ≡ out.old.items ++ event_text (frame_of layout.now) event.now) }
{
    if event.is_end {
        return push_end(out, layout, &event.shape);
    }
    push_start(out, layout, &event.shape)
}

/// The Pajé trace of these events, laid out so.
fn paje_in(alloc: Global, layout: &Layout, events: &[Event]) -> Result<Vec<u8>, AllocError>
    ensures { IfOk result (λ text. text.items ≡ paje_in (frame_of layout.now) events.now) }
{
    let mut out = Vec::new(alloc);
    push_head(&mut out, layout)?;
    for event in events {
        push_event(&mut out, layout, event)?;
    }
    Ok(out)
}

/// The shapes of a picture in this window as a Pajé trace.
pub fn paje_text(alloc: Global, window: &Window, shapes: &[Shape]) -> Result<Vec<u8>, NoMemory>
    ensures { IfOk result (λ text. IsPaje window.now shapes.now text.items) }
{
    let layout = lay_out(alloc, window, shapes)?;
    let events = in_order(events_of(alloc, shapes)?)?;
    Ok(paje_in(alloc, &layout, &events)?)
}
