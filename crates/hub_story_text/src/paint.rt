//! In which colours the lines of steps are shown.

ghost use Rattle.std.specs.Prelude.{◌≡◌};
ghost use Rattle.hub_story_text.specs.Paint.{colour_of, colour_text, ended_colour, fired_colour};

use hub_base::{Outcome, What};
use hub_story::Told;

/// How the lines of steps are shown.
#[derive(Clone, Copy)]
pub enum Paint {
    /// As text alone.
    Plain,
    /// In colours, by escape sequences of terminals: red where the step was stalled, a fault, or a send on a closed channel, and
    /// yellow where it waits to the end. The clock's waits have none.
    Colours,
}

/// The colour of a line.
#[derive(Clone, Copy)]
pub(crate) enum Colour {
    Red,
    Yellow,
}

/// Stands behind a line in a colour.
pub(crate) const NO_COLOUR: &[u8] = b"\x1b[0m\n";

/// The colour of a call whose case fired so.
fn fired_colour(outcome: Outcome) -> Option<Colour>
    ensures { result ≡ fired_colour outcome }
{
    match outcome {
        Outcome::Closed => Some(Colour::Red),
        Outcome::Sent | Outcome::Got(_) | Outcome::Drained => None,
    }
}

/// The colour of a step that ended so, of the clock or of another process.
fn ended_colour(own: bool, what: What) -> Option<Colour>
    ensures { result ≡ ended_colour own what }
{
    match what {
        What::Stalled if own => None,
        What::Stalled | What::Fault(_) => Some(Colour::Red),
        What::Fired { case: _, outcome } => fired_colour(outcome),
        _ => None,
    }
}

/// The colour of a step, of the clock or of another process, by how it ended.
pub(crate) fn colour_of(own: bool, end: Option<Told>) -> Option<Colour>
    ensures { result ≡ colour_of own end }
{
    match end {
        Some(told) => ended_colour(own, told.event.what),
        None if own => None,
        None => Some(Colour::Yellow),
    }
}

impl Colour {
    /// What selects it.
    pub(crate) fn text(self) -> &'static [u8]
        ensures { result.now ≡ colour_text self }
    {
        match self {
            Colour::Red => b"\x1b[31m",
            Colour::Yellow => b"\x1b[33m",
        }
    }
}
