//! The words of a hub of channels: values, steps and events, what they mean, and their texts.
//!
//! What a hub does is defined in `specs/`: `State` (what a hub is), `Ready` (which cases can
//! proceed), `Steps` (what one step does), `Runs` (lists of steps) and `Values` (what was sent and
//! received), with worked rows in `Rows`. What a journal's text says is defined in `Lines` (the
//! line of an entry), `Text` (what a text is, and where it is faulty) and `Reading` (how it is
//! read), with worked texts in `TextRows`. An event's text is defined in `EventText`.
#![tactic(auto)]

mod case;
mod counts;
mod entry;
mod event;
mod fault;
mod has_pid;
mod head;
mod journal;
mod limits;
mod read_fault;
mod value;

pub use case::{Case, CaseSlice, Cases, CasesExt};
pub use counts::{Counts, Look};
pub use entry::{Entry, EntryRef, Step, StepRef, cases_from, copy_cases};
pub use event::{Event, Events, Hears, Outcome, What};
pub use fault::Fault;
pub use has_pid::HasPid;
pub use head::{Edition, Head};
pub use journal::Journal;
pub use limits::{
    CASE_PLACES, GREATEST_CAP, GREATEST_CASE, GREATEST_PID, GREATEST_PORT, GREATEST_VALUE,
    GREATEST_WORD, MOST_BYTES, MOST_CAP, MOST_CASES, MOST_EVENTS, MOST_PORTS, MOST_PROCS,
    MOST_STEPS, MOST_VALUE_BYTES,
};
pub use read_fault::{Kind, NoMemory, ReadFault, TextFault};
pub use value::{Pid, Port, Value};
