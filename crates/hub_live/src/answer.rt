//! What a step gives of a hub that threads share.

use hub_base::{Event, Fault};

/// The event that answers a step, or why the step was refused.
pub type Answer = Result<Event, Fault>;
