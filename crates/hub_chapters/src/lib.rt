//! Laws of hubs that are cut: how a short journal stands for a long one, as often as one likes.
//!
//! A hub's journal holds at most so many steps. A cut hands it out as a chapter, and begins the next with
//! a *checkpoint*, a short journal that leads to a state alike. These laws say that whoever uses the hub
//! cannot tell: answers, replies and counts are those of the whole history. As in `hub_laws`, each law is
//! the `ensures` of a function without a body, over definitions in `specs/`, and the crates above import
//! the lemmas.
#![tactic(auto)]

mod alike_states;
mod carried_counts;
mod joined_chapters;
mod owed_replies;
mod short_checkpoints;

pub use alike_states::alike_states_go_on;
pub use carried_counts::counts_go_on;
pub use joined_chapters::chapters_are_one_history;
pub use owed_replies::owed_replies_come;
pub use short_checkpoints::{checkpoints_are_one, checkpoints_stand_in};
