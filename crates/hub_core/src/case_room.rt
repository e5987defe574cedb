//! Where the cases of an entry are put that is kept short.

use hub_base::{CASE_PLACES, Case};

/// Room for the cases of one entry. To make it takes longer than to read an entry, so a loop over entries has one.
#[derive(Drop)]
pub struct CaseRoom {
    /// The first are the entry's.
    pub(crate) places: [Case; CASE_PLACES],
}

impl CaseRoom {
    /// Room, in which no entry's cases are yet.
    pub fn new() -> CaseRoom {
        CaseRoom {
            places: [Case::default(); CASE_PLACES],
        }
    }
}
