//! A hub as C holds it, and the structs that C has too: what the functions of `hub_c` do, which C calls by name.
//!
//! A crate of its own, since a static library is proved wherever it is built, and a library once.
#![tactic(auto)]

mod asking;
mod cutting;
mod following;
mod hold;
mod loose;
mod opening;
mod reading;
mod session;
mod stepping;
mod structs;
mod telling;
mod text;

pub use asking::is_true;
pub use hold::HubC;
pub use opening::{open_box, open_endless_box, open_following_box};
pub use session::{Opened, Session};
pub use structs::{CaseC, CountsC, CutC, FollowC, NO_CLOCK, NextC, PieceC, ToldC, ValueC};
pub use telling::{counts_told, next_told, tell_bad_call};
pub use text::{Text, no_piece};
