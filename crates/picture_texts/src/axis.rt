//! The axis of stamps.

ghost use Rattle.std.specs.Prelude.{◌≡◌};
ghost use Rattle.picture_texts.specs.Layouts.{unit_of, axis_of, across};

use crate::extent::Extent;
use pictures::{Window, following};

/// The first stamp and the one behind the last, and how wide one is.
#[derive(Clone, Copy)]
pub(crate) struct Axis {
    pub(crate) first: u64,
    pub(crate) last: u64,
    pub(crate) unit: u8,
}

/// How wide a stamp is where there are so many.
fn unit_of(stamps: u64) -> u8
    ensures { result ≡ unit_of stamps }
{
    if stamps <= 80 {
        return 20;
    }
    if stamps <= 400 {
        return 10;
    }
    if stamps <= 2000 {
        return 5;
    }
    2
}

/// The axis of a picture in a window.
pub(crate) fn axis_of(window: &Window, extent: &Extent) -> Axis
    ensures { result ≡ axis_of window.now extent.now }
{
    let first = window.from.max(extent.first);
    let last = extent.last.min(following(window.to));
    Axis {
        first,
        last,
        unit: unit_of(last.saturating_sub(first)),
    }
}

/// Where a stamp stands from the left; stamps outside stand at the ends, and the four millionth is the last to have its own place.
pub(crate) fn across(axis: &Axis, stamp: u64) -> u64
    ensures { result ≡ across axis.now stamp }
{
    let stamps = stamp.min(axis.last).saturating_sub(axis.first);
    90 + stamps.min(4_000_000) * axis.unit as u64
}
