//! The picture of a trace.

ghost use Rattle.std.specs.Prelude.{◌≡◌, ◌++◌, OnOk, IfOk};
ghost use Rattle.std.specs.List.{flat_map};
ghost use Rattle.pictures.specs.Windows.{kept};
ghost use Rattle.pictures.specs.Drawing.{shapes_at, threads_at, labels_at, said, drawn, threads_after, end_of, left_over, moment_of, picture};

use crate::draws::{put_call, put_left_over, put_mark, put_own};
use crate::moment::{Moment, following};
use crate::shape::Shape;
use crate::thread::{Thread, about, after, known};
use crate::window::Window;
use basics::NoMemory;
use run_trace::{Entry, Label};
use slot_space::Tid;
use std::alloc::Global;
use std::collections::BTreeMap;

/// What the labels so far have drawn in the window, and the threads after them.
#[derive(Drop)]
struct Drawing {
    threads: BTreeMap<Tid, Thread>,
    shapes: Vec<Shape>,
}

/// Draws a label.
fn draw(
    window: &Window,
    drawing: &mut Drawing,
    here: &Moment,
    label: &Label,
) -> Result<(), NoMemory>
    ensures shapes { OnOk result (drawing.new.shapes.items ≡ drawing.old.shapes.items ++ kept window.now (shapes_at here.now label.now drawing.old.threads.entries)) }
    ensures threads { OnOk result (drawing.new.threads.entries ≡ threads_at here.now label.now drawing.old.threads.entries) }
{
    let Drawing { threads, shapes } = drawing;
    match about(label) {
        None => {
            put_call(window, shapes, here, label, threads)?;
            put_mark(window, shapes, here, label)?;
        }
        Some(t) => {
            let thread = known(threads, &t, here);
            put_own(window, shapes, &t, here, label, &thread)?;
            put_call(window, shapes, here, label, threads)?;
            put_mark(window, shapes, here, label)?;
            threads.insert(t, after(here, label, &thread))?;
        }
    }
    Ok(())
}

/// Draws the labels of an entry.
fn draw_labels(
    window: &Window,
    drawing: &mut Drawing,
    here: &Moment,
    labels: &[Label],
) -> Result<(), NoMemory>
    ensures shapes { OnOk result (drawing.new.shapes.items ≡ drawing.old.shapes.items ++ kept window.now (drawn drawing.old.threads.entries (labels_at here.now labels.now))) }
    ensures threads { OnOk result (drawing.new.threads.entries ≡ threads_after drawing.old.threads.entries (labels_at here.now labels.now)) }
{
    for label in labels {
        draw(window, drawing, here, label)?;
    }
    Ok(())
}

/// Where and when an entry stands.
fn moment_of(entry: &Entry) -> Moment
    ensures { result ≡ moment_of entry.now }
{
    Moment {
        node: entry.node.0,
        stamp: entry.stamp,
    }
}

/// Draws all labels of a trace.
fn draw_entries(window: &Window, drawing: &mut Drawing, trace: &[Entry]) -> Result<(), NoMemory>
    ensures shapes { OnOk result (drawing.new.shapes.items ≡ drawing.old.shapes.items ++ kept window.now (drawn drawing.old.threads.entries (said trace.now))) }
    ensures threads { OnOk result (drawing.new.threads.entries ≡ threads_after drawing.old.threads.entries (said trace.now)) }
{
    for entry in trace {
        let here = moment_of(entry);
        let mut room = None;
        draw_labels(window, drawing, &here, entry.labels.as_slice(&mut room))?;
    }
    Ok(())
}

/// The stamp behind the last entry.
fn end_of(trace: &[Entry]) -> u64
    ensures { result ≡ end_of trace.now }
{
    let mut end = 0u64;
    for entry in trace {
        end = end.max(following(entry.stamp));
    }
    end
}

/// Draws the waits that last.
fn draw_left_over(
    window: &Window,
    shapes: &mut Vec<Shape>,
    end: u64,
    threads: &BTreeMap<Tid, Thread>,
) -> Result<(), NoMemory>
    ensures { OnOk result (shapes.new.items ≡ shapes.old.items ++ kept window.now (flat_map (left_over end) threads.now.entries)) }
{
    for (t, thread) in threads {
        put_left_over(window, shapes, end, t, thread)?;
    }
    Ok(())
}

/// What a trace draws in this window.
pub fn picture_of(alloc: Global, window: &Window, trace: &[Entry]) -> Result<Vec<Shape>, NoMemory>
    ensures { IfOk result (λ shapes. shapes.items ≡ picture window.now trace.now) }
{
    let mut drawing = Drawing {
        threads: BTreeMap::new(alloc),
        shapes: Vec::new(alloc),
    };
    draw_entries(window, &mut drawing, trace)?;
    let Drawing { threads, shapes } = drawing;
    let mut shapes = shapes;
    draw_left_over(window, &mut shapes, end_of(trace), &threads)?;
    Ok(shapes)
}
