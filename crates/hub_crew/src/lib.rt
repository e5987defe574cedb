//! A crew of threads: one for each of some seats, as those of a live hub, all doing the same task.
//!
//! None begins before all are started, and where a thread or memory is refused none begins at all.
#![tactic(auto)]

mod crew;
mod start;
mod task;

pub use crew::run_crew;
pub use task::{Member, Task};
