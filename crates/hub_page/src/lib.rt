//! The page of a journal for a browser. Its data tell all that a hub does, so that the page has only to draw and to count.
#![tactic(auto)]

mod block;
mod data;
mod ends;
mod entries;
mod excerpt;
mod known;
mod lanes;
mod laws;
mod limits;
mod line;
mod number;
mod page;
mod parked_calls;
mod past;
mod ports;
mod sketch;
mod stalls;
mod step_lines;
mod viewer;

pub use laws::page_is_read_back;
pub use page::write_page;
