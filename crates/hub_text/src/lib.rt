//! Texts of journals and of events: how they are read and written.
//!
//! What they are is defined in `hub_base`: a journal's text in `Lines`, `Text` and `Reading`, an event's in
//! `EventText`. A line is read in one pass where it is spelled as writers spell it, and else from its end to its
//! fields and their numbers. Writing goes in one pass.
#![tactic(auto)]

mod entry_fields;
mod event_lines;
mod event_text;
mod fields;
mod limits;
mod lines;
mod numbers;
mod place;
mod quick;
mod reader;
mod selects;
mod standing;
mod steps;
mod values;
mod writer;

pub use event_text::EventText;
pub use fields::Fields;
pub use numbers::number;
pub use place::EntryPlace;
pub use reader::{Reader, one_event_spelling, one_reading, one_spelling, read_journal};
pub use selects::read_case;
pub use steps::same_text;
pub use values::read_value;
pub use writer::{
    undo_if_refused, write_entry, write_event, write_head, write_journal, write_number, write_value,
};
