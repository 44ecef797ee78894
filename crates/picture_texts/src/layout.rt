//! Where the rows and lanes of a picture stand.

ghost use Rattle.std.specs.Prelude.{◌≡◌, IfOk};
ghost use Rattle.picture_texts.specs.Frames.{frame_of, laid_out};
ghost use Rattle.picture_texts.specs.Layouts.{row_down, lanes_top, lane_down};

use crate::axis::{Axis, axis_of};
use crate::extent::extent_of;
use crate::lanes::{Lanes, lanes_of};
use basics::NoMemory;
use pictures::{Shape, Window};
use slot_space::Tid;
use std::alloc::Global;
use std::collections::BTreeMap;

/// Where everything stands.
#[derive(Drop)]
pub(crate) struct Layout {
    pub(crate) axis: Axis,
    pub(crate) nodes: u16,
    pub(crate) processors: u16,
    pub(crate) lanes: BTreeMap<Tid, u32>,
    /// How many lanes there are.
    pub(crate) count: u32,
}

/// How far down the row of a processor stands; the rows of a node stand together.
pub(crate) fn row_down(processors: u16, node: u16, vp: u8) -> u64
    ensures { result ≡ row_down processors node vp }
{
    84 + (node as u64 * processors as u64 + vp as u64) * 36
}

/// How far down the first lane stands: below all rows.
pub(crate) fn lanes_top(nodes: u16, processors: u16) -> u64
    ensures { result ≡ lanes_top nodes processors }
{
    94 + nodes as u64 * processors as u64 * 36
}

/// How far down a lane stands.
pub(crate) fn lane_down(nodes: u16, processors: u16, lane: u32) -> u64
    ensures { result ≡ lane_down nodes processors lane }
{
    lanes_top(nodes, processors) + lane as u64 * 18
}

/// Where everything stands for these shapes in this window.
pub(crate) fn lay_out(alloc: Global, window: &Window, shapes: &[Shape]) -> Result<Layout, NoMemory>
    ensures { IfOk result (λ layout. frame_of layout ≡ laid_out window.now shapes.now) }
{
    let reach = extent_of(shapes);
    let Lanes { of, count } = lanes_of(alloc, shapes)?;
    Ok(Layout {
        axis: axis_of(window, &reach),
        nodes: reach.nodes,
        processors: reach.processors,
        lanes: of,
        count,
    })
}
