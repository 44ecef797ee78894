//! Where an event happens.

use run_trace::Program;
use slot_space::NodeNo;

/// The program, and the number of the node that does the event.
#[derive(Drop)]
pub(crate) struct Here<'a> {
    pub(crate) program: &'a Program,
    pub(crate) me: NodeNo,
}
