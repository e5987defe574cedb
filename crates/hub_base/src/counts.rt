//! What a look at a port tells.

/// The counts of a port.
#[derive(Clone, Copy, Debug, Default, PartialEq, Eq)]
pub struct Counts {
    /// How many values were sent and not yet received: `sent - received`.
    pub len: u32,
    /// How many sends completed.
    pub sent: u32,
    /// How many values were received.
    pub received: u32,
    /// Whether the port is closed.
    pub closed: bool,
}

/// The capacity of a port, and its counts.
#[derive(Clone, Copy, Debug, Default, PartialEq, Eq)]
pub struct Look {
    /// The capacity, 0 to `MOST_CAP`.
    pub cap: u32,
    /// The counts.
    pub counts: Counts,
}
