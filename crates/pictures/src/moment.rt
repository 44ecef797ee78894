//! Where and when an entry stands.

ghost use Rattle.std.specs.Prelude.{◌≡◌};
ghost use Rattle.pictures.specs.Moments.{is_same, following};

/// A node, by its number, and a stamp.
#[derive(Clone, Copy)]
pub struct Moment {
    pub node: u8,
    pub stamp: u64,
}

/// Whether they are one entry's.
pub(crate) fn is_same(a: &Moment, b: &Moment) -> bool
    ensures { result ≡ is_same a.now b.now }
{
    a.node == b.node && a.stamp == b.stamp
}

/// The stamp behind this one; the last one has none.
pub fn following(stamp: u64) -> u64
    ensures { result ≡ following stamp }
{
    stamp.saturating_add(1)
}
