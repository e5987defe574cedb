//! What the arguments ask for, read by `clap`.

use crate::commands::{Command, command_of, grammar};
use clap::Error;
use clap::error::ErrorKind;
use hub_base::NoMemory;
use std::alloc::Global;

/// What the arguments ask for.
#[derive(Drop)]
pub(crate) enum Request<'a> {
    /// To do something.
    Do(Command<'a>),
    /// To be told this, as by `--help` and `--version`.
    Tell(String),
    /// Nothing that the program knows, and what `clap` says of that, where it found it.
    Unknown(Option<String>),
}

/// What is asked for where `clap` found no command.
fn request_of<'a>(alloc: Global, error: &Error) -> Result<Request<'a>, NoMemory> {
    match error.kind() {
        ErrorKind::DisplayHelp | ErrorKind::DisplayVersion => {
            Ok(Request::Tell(format!(in alloc; "{error}")?))
        }
        ErrorKind::OutOfMemory => Err(NoMemory),
        _ => Ok(Request::Unknown(Some(format!(in alloc; "{error}")?))),
    }
}

/// What the arguments ask for. The first stands for the program's name, whatever it is.
pub(crate) fn read_request<'a>(
    alloc: Global,
    words: &'a [String],
) -> Result<Request<'a>, NoMemory> {
    match grammar(alloc)?.try_get_matches_from(words) {
        Ok(found) => match command_of(alloc, &found)? {
            Some(command) => Ok(Request::Do(command)),
            None => Ok(Request::Unknown(None)),
        },
        Err(error) => request_of(alloc, &error),
    }
}
