//! The parts of a shape.

ghost use Rattle.std.specs.Prelude.{◌≡◌};
ghost use Rattle.picture_texts.specs.Parts.{behind, start, finish, subject, processor, row_after};

use pictures::{Moment, Shape, following};
use slot_space::Tid;

/// The moment behind this one on its node.
fn behind(at: &Moment) -> Moment
    ensures { result ≡ behind at.now }
{
    Moment {
        node: at.node,
        stamp: following(at.stamp),
    }
}

/// Where a shape begins.
pub(crate) fn start(shape: &Shape) -> Moment
    ensures { result ≡ start shape.now }
{
    match shape {
        Shape::Bar { at, .. } => *at,
        Shape::Wait { at, .. } => *at,
        Shape::Arrow { at, .. } => *at,
        Shape::Mark { at, .. } => *at,
        Shape::NodeMark { at, .. } => *at,
    }
}

/// Where it ends: a mark behind its stamp.
pub(crate) fn finish(shape: &Shape) -> Moment
    ensures { result ≡ finish shape.now }
{
    match shape {
        Shape::Bar { at, to, .. } => Moment {
            node: at.node,
            stamp: *to,
        },
        Shape::Wait { at, to, .. } => Moment {
            node: at.node,
            stamp: *to,
        },
        Shape::Arrow { to, .. } => *to,
        Shape::Mark { at, .. } => behind(at),
        Shape::NodeMark { at, .. } => behind(at),
    }
}

/// Whose it is, where it is a thread's.
pub(crate) fn subject(shape: &Shape) -> Option<Tid>
    ensures { result ≡ subject shape.now }
{
    match shape {
        Shape::Bar { t, .. } => Some(*t),
        Shape::Wait { t, .. } => Some(*t),
        Shape::Arrow { t, .. } => Some(*t),
        Shape::Mark { t, .. } => Some(*t),
        Shape::NodeMark { .. } => None,
    }
}

/// On which processor of its node it is.
pub(crate) fn processor(shape: &Shape) -> u8
    ensures { result ≡ processor shape.now }
{
    match shape {
        Shape::Bar { vp, .. } => *vp,
        _ => 0,
    }
}

/// How many rows there are up to this one, counted from 0.
pub(crate) fn row_after(row: u8) -> u16
    ensures { result ≡ row_after row }
{
    row as u16 + 1
}
