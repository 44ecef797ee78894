//! What the checks of a call come to.

use basics::Items;
use slot_space::Reply;

/// What the checks of a call have come to.
#[derive(Drop)]
pub(crate) enum Checked {
    Refused(Reply),
    /// It prints, and these are the bytes of its line.
    Shows(Items<u8>),
    /// It names no bytes.
    Passed,
}
