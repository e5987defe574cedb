//! The step function of a hub: a machine, the hub with its journal, and runs of steps.
#![tactic(auto)]

mod admitted;
mod brief;
mod case_list;
mod case_room;
mod closing;
mod copies;
mod exited;
mod firing;
mod form;
mod hub;
mod log;
mod looking;
mod machine;
mod opening;
mod ready_cases;
mod refusals;
mod runs;
mod select;
mod short_entries;
mod short_journal;
mod stalling;
mod stepping;
mod tally;
mod terms;
mod touching;

pub use case_room::CaseRoom;
pub use form::{Form, Short, Whole};
pub use hub::{Hub, HubOf, ShortHub};
pub use machine::Machine;
pub use opening::OpenFault;
pub use runs::{ListFault, run};
pub use short_entries::ShortEntries;
pub use short_journal::{ShortJournal, read_short_journal, write_short_journal};
pub use tally::Tally;
pub use terms::Terms;
pub use touching::{port_changed, port_touched};
