//! A hub of channels that threads share: steps under a lock, and looks without it.
#![tactic(auto)]

mod answer;
mod answers;
mod blank;
mod desk;
mod ends;
mod held;
mod live_hub;
mod locked;
mod mark;
mod name;
mod parker;
mod rule;
mod seat;
pub mod under_lock;
mod values;
mod words;

pub use answer::Answer;
pub use blank::Blank;
pub use ends::{Chan, RecvPort, SendPort};
pub use held::{Held, hold_all};
pub use hub_core::Terms;
pub use live_hub::LiveHub;
pub use mark::mark_of;
pub use name::HubName;
pub use seat::Seat;
pub use values::Ended;
