//! The part of the axis that is drawn.

ghost use Rattle.std.specs.Prelude.{◌≡◌};
ghost use Rattle.pictures.specs.Windows.{begins, ends, is_within};

use crate::moment::following;
use crate::shape::Shape;

/// The stamps from one to another, both among them.
#[derive(Clone, Copy)]
pub struct Window {
    pub from: u64,
    pub to: u64,
}

/// Where a shape begins.
fn begins(shape: &Shape) -> u64
    ensures { result ≡ begins shape.now }
{
    match shape {
        Shape::Bar { at, .. } => at.stamp,
        Shape::Wait { at, .. } => at.stamp,
        Shape::Arrow { at, .. } => at.stamp,
        Shape::Mark { at, .. } => at.stamp,
        Shape::NodeMark { at, .. } => at.stamp,
    }
}

/// Where a shape ends: at the first stamp behind it.
fn ends(shape: &Shape) -> u64
    ensures { result ≡ ends shape.now }
{
    match shape {
        Shape::Bar { to, .. } => *to,
        Shape::Wait { to, .. } => *to,
        Shape::Arrow { to, .. } => following(to.stamp),
        Shape::Mark { at, .. } => following(at.stamp),
        Shape::NodeMark { at, .. } => following(at.stamp),
    }
}

/// Whether some of the shape is in the window.
pub(crate) fn is_within(window: &Window, shape: &Shape) -> bool
    ensures { result ≡ is_within window.now shape.now }
{
    begins(shape) <= window.to && window.from < ends(shape)
}
