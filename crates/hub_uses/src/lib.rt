//! Uses of a live hub, each proved from the public contracts alone: a hand-over between threads, a pool
//! of workers, a select that does not wait, and a meeting.
#![tactic(auto)]

mod handing_over;
mod meeting;
mod polling;
mod pool;

pub use handing_over::hand_over;
pub use meeting::share;
pub use polling::{poll, waiting};
pub use pool::{Pool, Work};
