//! The steps of a call that holds the lock, and the values that they take. None of it takes the lock.
//! Public so that its contracts can be read; but for a locked hub, only this crate makes these values.

pub use crate::answers::{Answers, Pids};
pub use crate::desk::Desk;
pub use crate::locked::Locked;
pub use crate::seat::InnerSeat;
pub use crate::words::Words;
