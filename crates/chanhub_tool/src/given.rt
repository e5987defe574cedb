//! What a command over a journal is given: `[FROM [TO]] [FILE] [-o OUT]`.

use crate::asked::Shown;
use crate::files::file_of;
use clap::{Arg, ArgAction, ArgMatches, Command};
use hub_text::number;
use std::alloc::{AllocError, Global};

/// What a command over a journal is given.
#[derive(Clone, Copy)]
pub(crate) struct Given<'a> {
    /// The steps.
    pub(crate) shown: Shown,
    /// The file that holds the journal; standard input where there is none.
    pub(crate) file: Option<&'a str>,
    /// The file that is written; standard output where there is none.
    pub(crate) output: Option<&'a str>,
}

/// An argument with one value, which may be left out.
pub(crate) fn optional<'a>(alloc: Global, id: &'a str, name: &'a str, help: &'a str) -> Arg<'a> {
    Arg::new(alloc, id)
        .action(ArgAction::Set)
        .value_name(name)
        .help(help)
}

/// The argument that is a file with a journal.
fn file_argument<'a>(alloc: Global, help: &'a str) -> Arg<'a> {
    optional(alloc, "file", "FILE", help)
}

/// The first step that is shown.
fn from_argument<'a>(alloc: Global) -> Arg<'a> {
    optional(
        alloc,
        "from",
        "FROM",
        "The first step shown, counted from 1: step K is line K + 2 of the journal",
    )
}

/// The last.
fn to_argument<'a>(alloc: Global) -> Arg<'a> {
    optional(
        alloc,
        "to",
        "TO",
        "The last step shown; without it FROM alone is shown",
    )
}

/// The option that is a file to write.
fn output_option<'a>(alloc: Global) -> Arg<'a> {
    optional(
        alloc,
        "output",
        "OUT",
        "The file that is written, once the journal is read; without it, or as -, standard output",
    )
    .short('o')
    .long("output")
}

/// The command, which is over a whole journal.
pub(crate) fn over_whole_journal<'a>(
    alloc: Global,
    command: Command<'a>,
) -> Result<Command<'a>, AllocError> {
    command
        .arg(file_argument(alloc, "The journal; without it, or as -, standard input"))?
        .arg(output_option(alloc))
}

/// The command, which is over a journal's steps.
pub(crate) fn over_journal<'a>(
    alloc: Global,
    command: Command<'a>,
) -> Result<Command<'a>, AllocError> {
    command
        .arg(from_argument(alloc))?
        .arg(to_argument(alloc))?
        .arg(file_argument(
            alloc,
            "The journal; without it, or as -, standard input. A word of digits alone is a step: ./7 is a file",
        ))?
        .arg(output_option(alloc))
}

/// Whether a word can only be a step: it has digits, and nothing else.
fn is_step(word: &str) -> bool {
    !word.is_empty() && word.as_bytes().iter().all(|byte| byte.is_ascii_digit())
}

/// A step, counted from 1.
fn read_step(word: &str) -> Option<u32> {
    match number(word.as_bytes(), u64::from(u32::MAX)) {
        Some(step) => u32::try_from(step).ok(),
        None => None,
    }
}

/// The steps from one to another; one alone where there is no other.
fn read_shown(from: Option<&str>, to: Option<&str>) -> Option<Shown> {
    match (from, to) {
        (Some(from), to) => Some(Shown::Steps {
            from: read_step(from)?,
            to: read_step(to.unwrap_or(from))?,
        }),
        (None, None) => Some(Shown::All),
        (None, Some(_)) => None,
    }
}

/// What `clap` found. Steps stand before the file, and it finds them in the places of one another where some are left out.
pub(crate) fn read_given<'a>(found: &ArgMatches<'a>) -> Option<Given<'a>> {
    let words = (
        found.get_str("from"),
        found.get_str("to"),
        found.get_str("file"),
    );
    let (from, to, file) = match words {
        (Some(word), None, None) if !is_step(word) => (None, None, Some(word)),
        (Some(from), Some(word), None) if !is_step(word) => (Some(from), None, Some(word)),
        (_, _, Some(word)) if is_step(word) => return None,
        _ => words,
    };
    Some(Given {
        shown: read_shown(from, to)?,
        file: file_of(file),
        output: file_of(found.get_str("output")),
    })
}

/// What `clap` found of a command over a whole journal.
pub(crate) fn read_whole<'a>(found: &ArgMatches<'a>) -> Given<'a> {
    Given {
        shown: Shown::All,
        file: file_of(found.get_str("file")),
        output: file_of(found.get_str("output")),
    }
}
