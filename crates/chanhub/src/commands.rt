//! The three commands. Each answers what came of it, with all of its text on standard output, or why it
//! did not do what it was asked for.

mod replays;
mod runs;
mod verifies;

pub(crate) use replays::replay_input;
pub(crate) use runs::run_from;
pub(crate) use verifies::verify_files;
