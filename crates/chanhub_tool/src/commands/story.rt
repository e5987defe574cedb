//! `chanhub_tool story [FROM [TO]] [FILE] [-o OUT] [--color WHEN]`.

use crate::asked::Form;
use crate::explain::explain_given;
use crate::given::{Given, optional, over_journal, read_given};
use clap::{Arg, ArgMatches, Command};
use hub_replay::Sink;
use hub_story_text::Paint;
use std::alloc::{AllocError, Global};
use std::env::{Env, FillError};
use std::io::IsTerminal;

/// The words that say when the lines of steps are shown in colours.
const WORDS: &[&str] = &["auto", "always", "never"];

/// When the lines of steps are shown in colours.
#[derive(Clone, Copy)]
enum Colours {
    /// Where standard output is a terminal, and the environment does not say otherwise.
    Auto,
    /// Always.
    Always,
    /// Never.
    Never,
}

/// What the command is given.
#[derive(Clone, Copy)]
pub(crate) struct Telling<'a> {
    /// As any command over a journal.
    given: Given<'a>,
    /// When in colours.
    colours: Colours,
}

fn colour_option<'a>(alloc: Global) -> Arg<'a> {
    optional(
        alloc,
        "color",
        "WHEN",
        "When steps are in colours; auto: where the story goes to a terminal and NO_COLOR is not set",
    )
    .long("color")
    .value_parser(WORDS)
}

pub(super) fn grammar<'a>(alloc: Global) -> Result<Command<'a>, AllocError> {
    over_journal(
        alloc,
        Command::new(alloc, "story")
            .about(
                "Tells a journal as text: a line for each step, who waits where all stalled and in the end, and what the ports carried",
            )
            .override_usage("chanhub_tool story [FROM [TO]] [FILE] [-o OUT] [--color WHEN]"),
    )?
    .arg(colour_option(alloc))
}

/// When in colours, by the word that `clap` found.
fn read_colours(word: Option<&str>) -> Colours {
    match word {
        Some("always") => Colours::Always,
        Some("never") => Colours::Never,
        _ => Colours::Auto,
    }
}

/// What `clap` found.
pub(super) fn read_telling<'a>(found: &ArgMatches<'a>) -> Option<Telling<'a>> {
    Some(Telling {
        given: read_given(found)?,
        colours: read_colours(found.get_str("color")),
    })
}

/// Whether the environment asks programs for no colours: by a variable that is not empty.
fn refuses_colours(rt: &HostRuntime) -> bool {
    match rt.var("NO_COLOR", &mut [0; 1]) {
        Ok(length) => length > 0,
        Err(FillError::TooLong) => true,
        Err(FillError::NotPresent) => false,
    }
}

/// Whether the story is shown in colours.
fn is_coloured(rt: &HostRuntime, telling: &Telling<'_>) -> bool {
    match telling.colours {
        Colours::Always => true,
        Colours::Never => false,
        Colours::Auto => {
            telling.given.output.is_none() && rt.stdout().is_terminal() && !refuses_colours(rt)
        }
    }
}

/// Tells the journal, and answers the status.
pub(super) fn tell_story<X: Sink>(rt: &HostRuntime, telling: Telling<'_>, errors: &mut X) -> u8 {
    let paint = if is_coloured(rt, &telling) {
        Paint::Colours
    } else {
        Paint::Plain
    };
    explain_given(rt, Form::Text(paint), telling.given, errors)
}
