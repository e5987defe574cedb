//! Laws of a hub of channels: what holds of every run, whatever its processes and entries.
//!
//! A run is a hub's head and a list of entries, admitted or not. Each law is the `ensures` of
//! a function without a body. What it says stands in `specs/`, over the definitions of `hub_base`; its
//! proof is for all numbers of processes and all lists of entries. The crates above import the lemmas.
#![tactic(auto)]

mod bounded_counts;
mod closed_ports;
mod first_answers;
mod kept_values;
mod last_replies;
mod legal_journals;
mod one_ending;
mod one_port;
mod own_entries;
mod received_values;
mod sound_states;

pub use bounded_counts::counts_are_bounded;
pub use closed_ports::closed_ports_drain;
pub use first_answers::{entries_are_answered, events_fit};
pub use kept_values::values_are_kept;
pub use last_replies::{replies_come, replies_stay};
pub use legal_journals::{journals_are_legal, journals_are_short, journals_begin, journals_grow};
pub use one_ending::calls_end_once;
pub use one_port::one_port_moves;
pub use own_entries::own_entries_are_asked;
pub use received_values::received_values_are_told;
pub use sound_states::states_are_sound;
