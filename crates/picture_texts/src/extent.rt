//! How far a picture reaches.

ghost use Rattle.std.specs.Prelude.{◌≡◌};
ghost use Rattle.picture_texts.specs.Layouts.{wider, extent};

use crate::parts::{finish, processor, row_after, start};
use pictures::{Shape, following};

/// The first stamp and the one behind the last, and how many nodes and processors of a node there are.
#[derive(Clone, Copy)]
pub(crate) struct Extent {
    pub(crate) first: u64,
    pub(crate) last: u64,
    pub(crate) nodes: u16,
    pub(crate) processors: u16,
}

/// With a shape more.
fn wider(extent: &Extent, shape: &Shape) -> Extent
    ensures { result ≡ wider extent.now shape.now }
{
    let from = start(shape);
    let to = finish(shape);
    Extent {
        first: extent.first.min(from.stamp),
        last: extent.last.max(following(to.stamp)),
        nodes: extent
            .nodes
            .max(row_after(from.node))
            .max(row_after(to.node)),
        processors: extent.processors.max(row_after(processor(shape))),
    }
}

/// How far these shapes reach.
pub(crate) fn extent_of(shapes: &[Shape]) -> Extent
    ensures { result ≡ extent shapes.now }
{
    let mut reach = Extent {
        first: u64::MAX,
        last: 0,
        nodes: 1,
        processors: 1,
    };
    for shape in shapes {
        reach = wider(&reach, shape);
    }
    reach
}
