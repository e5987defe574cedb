//! Hubs that threads share under a lock, and the answers that wait there to be picked up: one that never ends, and one
//! that follows a journal.
//!
//! `EndlessHub` cuts itself as a `hub_cut::Recorder` does. Nobody can tell when: each answer, also one that waits across a
//! cut, is the one that the whole history gives.
//!
//! `Follower` makes the steps of a given journal, in that journal's order, whatever the threads' schedule. A step whose
//! turn comes later is not made yet, and one that the process does not make there is a divergence. A call is the journal's
//! if its cases and its default are: the choice word is always the journal's. As long as nothing has diverged, the hub's
//! journal is a beginning of the one that it follows, so each answer is the recorded one.
#![tactic(auto)]

mod endless_hub;
mod follower;
mod given;
mod not_made;

pub use endless_hub::EndlessHub;
pub use follower::{AfterDivergence, Follower};
pub use not_made::NotMade;
