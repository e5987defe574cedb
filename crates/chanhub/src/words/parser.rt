//! From the arguments to what they ask for.

ghost use Rattle.std.specs.Prelude.{◌≡◌, ◌↔◌, map, IsOk, IfOk, IfSome, IsErrOf};
ghost use Rattle.chanhub.specs.Words.{AsksFor, AsksForReplay, HasUnknownOption, IsReplay, IsRun, IsVerify, command_of};

use crate::words::grammar::{run_command, verify_command};
use crate::words::options::{asks_for_replay, command, has_unknown_option};
use crate::words::{ArgumentsFault, Request};
use clap::error::ErrorKind;
use clap::{ArgMatches, Command, Error};
use std::alloc::{AllocError, Global};
use std::convert::AsStr;

fn fault_of(error: &Error) -> ArgumentsFault {
    match error.kind() {
        ErrorKind::OutOfMemory => ArgumentsFault::NoMemory,
        _ => ArgumentsFault::BadArguments,
    }
}

/// What `clap` reads of a command, of which the first word is the name.
fn matches_of<'a, S: AsStr>(
    command: Result<Command<'a>, AllocError>,
    words: &'a [S],
) -> Result<ArgMatches<'a>, ArgumentsFault> {
    command?
        .try_get_matches_from(words)
        .map_err(|error| fault_of(&error))
}

fn run_of<'a>(found: &ArgMatches<'a>) -> Request<'a>
    ensures { IsRun result }
{
    Request::Run {
        file: found.get_str("file"),
        journal: found.get_flag("journal"),
    }
}

fn read_run<'a, S: AsStr>(alloc: Global, words: &'a [S]) -> Result<Request<'a>, ArgumentsFault>
    ensures { IfOk result IsRun }
{
    let found = matches_of(run_command(alloc), words)?;
    Ok(run_of(&found))
}

fn verify_of<'a>(found: &ArgMatches<'a>) -> Option<Request<'a>>
    ensures { IfSome result IsVerify }
{
    Some(Request::Verify {
        journal: found.get_str("journal")?,
        events: found.get_str("events")?,
    })
}

fn read_verify<'a, S: AsStr>(alloc: Global, words: &'a [S]) -> Result<Request<'a>, ArgumentsFault>
    ensures { IfOk result IsVerify }
{
    let found = matches_of(verify_command(alloc), words)?;
    verify_of(&found).ok_or(ArgumentsFault::BadArguments)
}

/// What `clap` reads.
fn parse<'a, S: AsStr>(alloc: Global, words: &'a [S]) -> Result<Request<'a>, ArgumentsFault>
    ensures command { IfOk result (λ request.
        AsksFor (command_of request) (map S.text words.entry.now)) }
    ensures other { IfOk result (λ request. ¬ IsReplay request) }
{
    let [_, arguments @ ..] = words else {
        return Err(ArgumentsFault::BadArguments);
    };
    // No option stands before a command, so the command is what follows the program's name.
    match command(words) {
        Some("run") => read_run(alloc, arguments),
        Some("verify") => read_verify(alloc, arguments),
        _ => Err(ArgumentsFault::BadArguments),
    }
}

/// What the arguments ask for. The first is the program's name, whatever it is.
pub fn read_words<'a, S: AsStr>(
    alloc: Global,
    words: &'a [S],
) -> Result<Request<'a>, ArgumentsFault>
    ensures replay { AsksForReplay (map S.text words.entry.now) → IsOk result }
    ensures only { IfOk result (λ request.
        IsReplay request ↔ AsksForReplay (map S.text words.entry.now)) }
    ensures command { IfOk result (λ request.
        AsksFor (command_of request) (map S.text words.entry.now)) }
    ensures option { HasUnknownOption (map S.text words.entry.now)
        → IsErrOf result ArgumentsFault.BadArguments }
{
    if asks_for_replay(words) {
        return Ok(Request::Replay);
    }
    // `clap` takes `-` for the name of a file, and so whatever follows `--`.
    if has_unknown_option(words) {
        return Err(ArgumentsFault::BadArguments);
    }
    parse(alloc, words)
}
