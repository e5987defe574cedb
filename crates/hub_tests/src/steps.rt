//! Tests through the public calls. Expected values are worked out by hand from the rules.

mod cuts;
pub(crate) mod entries;
mod hubs;
mod machines;
mod openings;
mod refusals;
mod rows;
mod short_journals;
