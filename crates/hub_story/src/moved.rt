//! Values on their way through a port.

use crate::Told;
use hub_base::Value;

/// A value that was sent or received, with what tells so.
#[derive(Clone, Copy)]
pub struct Moved {
    /// The end of the call that sent or received it.
    pub told: Told,
    /// The value.
    pub value: Value,
}

/// The passage of one value through a port.
#[derive(Clone, Copy)]
pub struct Passage {
    /// The send.
    pub sent: Moved,
    /// The receive.
    pub received: Moved,
}
