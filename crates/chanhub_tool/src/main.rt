//! `chanhub_tool`: tells and draws journals, answers the steps of one as its lines come, and goes through all runs of a
//! scenario.
#![tactic(auto)]

mod asked;
mod commands;
mod explain;
mod explanation;
mod fault;
mod files;
mod given;
mod limits;
mod progress;
mod request;

use commands::carry_out;
use hub_base::NoMemory;
use hub_replay::{Counted, ReplayFault, Sink, arguments, tell_fault, write_pieces};
use request::{Request, read_request};
use std::process::ExitCode;

/// Prints a text that was asked for, as help, and answers the status: 1 where it can't be written.
fn print(rt: &HostRuntime, text: &str) -> u8 {
    match write_pieces(&mut Counted::new(rt.stdout()), &[text]) {
        Ok(()) => 0,
        Err(_) => 1,
    }
}

/// What is wrong with the arguments: the beginning of what `clap` says. It does not read steps and numbers.
fn wrong_word<'a>(words: &[String], said: Option<&'a String>) -> &'a str {
    if words.is_empty() {
        return "an argument is not UTF-8";
    }
    let Some(said) = said else {
        return "FROM, TO and N are numbers from 1, and FILE stands behind FROM and TO";
    };
    let first = match said.as_str().split_once("\n\n") {
        Some((first, _)) => first,
        None => said.as_str(),
    };
    first.strip_prefix("error: ").unwrap_or(first)
}

/// Does what the arguments ask for, of which the first stands for the program's name, and answers the status.
fn run<X: Sink>(rt: &HostRuntime, words: &[String], errors: &mut X) -> u8 {
    match read_request(rt.alloc(), words) {
        Ok(Request::Do(command)) => carry_out(rt, command, errors),
        Ok(Request::Tell(text)) => print(rt, text.as_str()),
        Ok(Request::Unknown(said)) => {
            let wrong = wrong_word(words, said.as_ref());
            let _ = write_pieces(
                errors,
                &["chanhub: bad arguments\n", "chanhub_tool: ", wrong, "\n"],
            );
            2
        }
        Err(NoMemory) => tell_fault(ReplayFault::NoMemory, errors),
    }
}

fn main(rt: HostRuntime) -> ExitCode {
    let mut errors = Counted::new(rt.stderr());
    let status = match arguments(&rt) {
        Ok(words) => run(&rt, &words, &mut errors),
        Err(fault) => tell_fault(fault, &mut errors),
    };
    ExitCode::from(status)
}
