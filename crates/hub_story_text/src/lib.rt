//! The story of a journal as text: a line for each step, told from its end; what everyone waited for where all stalled,
//! and in the end; and what each port carried.
#![tactic(auto)]

mod answers;
mod cells;
mod closers;
mod ends;
mod explained;
mod fullest;
mod known;
mod laws;
mod lines;
mod numbers;
mod outside;
mod paint;
mod ports;
mod seen;
mod steps;
mod text;
mod waiters;
mod waits;

pub use explained::Explained;
pub use hub_story::Window;
pub use known::Known;
pub use laws::one_story_spelling;
pub use paint::Paint;
pub use seen::Seen;
pub use steps::stalled_of;
pub use text::{HEADING, write_story};
