//! `chanhub`: what happens in a hub of channels, from the steps of its processes.
#![tactic(auto)]

mod commands;
mod fault_lines;
mod files;
mod outcome;
mod program;
mod refusal;
mod words;

use hub_replay::{Counted, arguments, tell_fault};
use program::run_words;
use std::process::ExitCode;

fn main(rt: HostRuntime) -> ExitCode {
    let mut input = Counted::new(rt.stdin());
    let mut output = Counted::new(rt.stdout());
    let mut errors = Counted::new(rt.stderr());
    let status = match arguments(&rt) {
        Ok(words) => run_words(&rt, &words, &mut input, &mut output, &mut errors),
        Err(fault) => tell_fault(fault, &mut errors),
    };
    ExitCode::from(status)
}
