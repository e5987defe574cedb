//! A journal for viewers that others made: a sequence diagram for Mermaid, and a trace in Chrome's format.
//!
//! Both are written step by step, as a walk along the journal makes the steps.
#![tactic(auto)]

mod diagram;
mod pieces;
mod ports;
mod trace;
mod traffic;
mod writing;

pub use diagram::write_diagram;
pub use hub_story::Window;
pub use trace::write_trace;
