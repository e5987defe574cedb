//! One event, with what it is told of.

use hub_base::Event;

/// An event, the entry that it answers or whose call it ends, and the entry by whose step it came. Entries are named by
/// their places in the journal, counted from 0.
#[derive(Clone, Copy)]
pub struct Told {
    /// The place of the entry that the event answers, or whose call it ends.
    pub asked: u32,
    /// The place of the entry by whose step it came.
    pub by: u32,
    /// The event.
    pub event: Event,
}
