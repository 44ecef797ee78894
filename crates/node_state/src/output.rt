//! What an event comes to.

use basics::Items;
use run_trace::{Label, Send};

/// What an event has come to, beside the node.
#[derive(Drop)]
pub struct EventOutput {
    /// What has happened, in order.
    pub labels: Items<Label>,
    /// What is sent, in order.
    pub sends: Items<Send>,
    /// Bytes for the console.
    pub prints: Items<u8>,
}
