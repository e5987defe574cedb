//! Runs a scenario, with one thread for each process, over one live hub; and reports what its journal tells of each port.
//!
//! `specs/Asked` says what a process asked in a journal and what it was told, `specs/Scripts` what it is that it follows
//! its script. A report is a function of a journal, which is replayed once for it by a machine that keeps none.
#![tactic(auto)]

mod counting;
mod fault;
mod following;
mod gate;
mod replayed;
mod report;
mod runner;
mod worker;
mod writer;

pub use fault::RunFault;
pub use gate::{Gate, NoGate};
pub use report::{PortReport, Report};
pub use runner::run_scenario;
pub use worker::repeats;
pub use writer::write_report;
