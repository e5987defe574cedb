//! What a hub is opened with.

use hub_base::Head;

/// What a hub was opened with.
#[derive(Clone, Copy, Debug, PartialEq, Eq)]
pub struct Terms {
    /// What its journal's head lines say: the number of processes, 1 to `MOST_PROCS`.
    pub head: Head,
    /// How many entries that are no exits the journal may hold, 1 to `MOST_STEPS`.
    pub limit: u32,
}
