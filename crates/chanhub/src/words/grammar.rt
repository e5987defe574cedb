//! The commands with arguments of their own, in `clap`'s words. `replay` takes none, and needs no parse.

use clap::{Arg, ArgAction, Command};
use std::alloc::{AllocError, Global};

/// A command of these two arguments, which knows no help and no version.
fn command<'a>(
    alloc: Global,
    name: &'a str,
    first: Arg<'a>,
    second: Arg<'a>,
) -> Result<Command<'a>, AllocError> {
    Command::new(alloc, name)
        .disable_help_flag(true)
        .disable_version_flag(true)
        .arg(first)?
        .arg(second)
}

/// An argument that may stand.
fn optional<'a>(alloc: Global, name: &'a str) -> Arg<'a> {
    Arg::new(alloc, name).action(ArgAction::Set)
}

/// An option of this name, without a value.
fn option<'a>(alloc: Global, name: &'a str) -> Arg<'a> {
    Arg::new(alloc, name).long(name).action(ArgAction::SetTrue)
}

pub(crate) fn run_command<'a>(alloc: Global) -> Result<Command<'a>, AllocError> {
    command(
        alloc,
        "run",
        optional(alloc, "file"),
        option(alloc, "journal"),
    )
}

/// An argument that has to stand.
fn required<'a>(alloc: Global, name: &'a str) -> Arg<'a> {
    optional(alloc, name).required(true)
}

pub(crate) fn verify_command<'a>(alloc: Global) -> Result<Command<'a>, AllocError> {
    command(
        alloc,
        "verify",
        required(alloc, "journal"),
        required(alloc, "events"),
    )
}
