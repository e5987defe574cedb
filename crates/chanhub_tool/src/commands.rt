//! The commands. Each has a file, which says what `clap` reads of it and what it does.

mod chain;
mod explore;
mod mermaid;
mod page;
mod picture;
mod serve;
mod story;
mod trace;

use crate::asked::Form;
use crate::explain::explain_given;
use crate::given::{Given, read_given, read_whole};
use chain::{check_files, read_files};
use clap::ArgMatches;
use explore::{Exploring, explore_given, read_exploring};
use hub_replay::Sink;
use serve::serve_streams;
use std::alloc::{AllocError, Global};
use story::{Telling, read_telling, tell_story};

/// What the program is asked to do.
#[derive(Drop)]
pub(crate) enum Command<'a> {
    /// `story`: to tell a journal as text.
    Story(Telling<'a>),
    /// `picture`: to draw it.
    Picture(Given<'a>),
    /// `mermaid`: to write it as a sequence diagram.
    Mermaid(Given<'a>),
    /// `trace`: to write it as a trace.
    Trace(Given<'a>),
    /// `page`: to write it as a page for a browser.
    Page(Given<'a>),
    /// `serve`: to answer a journal's lines as they come.
    Serve,
    /// `chain`: to check that these files are the chapters of one journal.
    Chain(Vec<&'a str>),
    /// `explore`: to go through all runs of a scenario.
    Explore(Exploring<'a>),
}

/// The program's name, whatever its file is called.
const NAME: &str = "chanhub_tool";

/// The program's version, which is that of the library for C.
const VERSION: &str = "1.0.0";

const ABOUT: &str =
    "Tells, draws and checks journals of a hub of channels, answers the steps of one as its lines come, and goes through all runs of a scenario.";

const STATUSES: &str = "\
Status 0: done. 1: a device or memory failed. 2: a malformed journal or scenario, steps that a journal does not have,\n\
or bad arguments. Standard error says which. 3: the chapters are no chain. 4: some run of the scenario stalls, or does\n\
what is asked for. 5: it has too many states. The program needs 256 KB of stack.";

/// Adds the first commands. They are added some at a time, since the proof of a function takes ever longer the
/// more errors it may return with commands in its hands.
fn with_story_to_trace<'a>(
    alloc: Global,
    all: clap::Command<'a>,
) -> Result<clap::Command<'a>, AllocError> {
    all.subcommand(story::grammar(alloc)?)?
        .subcommand(picture::grammar(alloc)?)?
        .subcommand(mermaid::grammar(alloc)?)?
        .subcommand(trace::grammar(alloc)?)
}

/// Adds the last.
fn with_page_to_explore<'a>(
    alloc: Global,
    all: clap::Command<'a>,
) -> Result<clap::Command<'a>, AllocError> {
    all.subcommand(page::grammar(alloc)?)?
        .subcommand(serve::grammar(alloc))?
        .subcommand(chain::grammar(alloc)?)?
        .subcommand(explore::grammar(alloc)?)
}

/// All commands, in `clap`'s words.
pub(crate) fn grammar<'a>(alloc: Global) -> Result<clap::Command<'a>, AllocError> {
    let named = clap::Command::new(alloc, NAME)
        .bin_name(NAME)?
        .version(VERSION)
        .about(ABOUT)
        .after_help(STATUSES)
        .subcommand_required(true);
    with_page_to_explore(alloc, with_story_to_trace(alloc, named)?)
}

/// The command that `clap` found.
pub(crate) fn command_of<'a>(
    alloc: Global,
    found: &ArgMatches<'a>,
) -> Result<Option<Command<'a>>, AllocError> {
    let Some((name, found)) = found.subcommand() else {
        return Ok(None);
    };
    match name {
        "story" => Ok(read_telling(found).map(Command::Story)),
        "picture" => Ok(read_given(found).map(Command::Picture)),
        "mermaid" => Ok(read_given(found).map(Command::Mermaid)),
        "trace" => Ok(Some(Command::Trace(read_whole(found)))),
        "page" => Ok(read_given(found).map(Command::Page)),
        "serve" => Ok(Some(Command::Serve)),
        "chain" => Ok(Some(Command::Chain(read_files(alloc, found)?))),
        "explore" => Ok(read_exploring(found).map(Command::Explore)),
        _ => Ok(None),
    }
}

/// Does what is asked, and answers the status.
pub(crate) fn carry_out<X: Sink>(rt: &HostRuntime, command: Command<'_>, errors: &mut X) -> u8 {
    match command {
        Command::Story(telling) => tell_story(rt, telling, errors),
        Command::Picture(given) => explain_given(rt, Form::Picture, given, errors),
        Command::Mermaid(given) => explain_given(rt, Form::Mermaid, given, errors),
        Command::Trace(given) => explain_given(rt, Form::Trace, given, errors),
        Command::Page(given) => explain_given(rt, Form::Page, given, errors),
        Command::Serve => serve_streams(rt, errors),
        Command::Chain(files) => check_files(rt, &files, errors),
        Command::Explore(given) => explore_given(rt, given, errors),
    }
}
