//! What is asked of a journal.

ghost use Rattle.std.specs.Prelude.{◌≡◌, ◌<◌, ◌^◌};
ghost use Rattle.chanhub_tool.specs.Windows.{fitting, shown_of, too_long, too_many, window_of};

use crate::fault::StoryFault;
use hub_story::Window;
use hub_story_text::Paint;

/// In which form a journal is explained.
#[derive(Clone, Copy)]
pub enum Form {
    /// As text, shown so.
    Text(Paint),
    /// As a picture.
    Picture,
    /// As a sequence diagram for Mermaid.
    Mermaid,
    /// As a trace in Chrome's format.
    Trace,
    /// As a page for a browser.
    Page,
}

/// Which of its steps.
#[derive(Clone, Copy)]
pub enum Shown {
    /// All.
    All,
    /// From one to another, counted from 1.
    Steps {
        /// The first.
        from: u32,
        /// The last.
        to: u32,
    },
}

/// What is asked.
#[derive(Clone, Copy)]
pub struct Asked {
    /// The form.
    pub form: Form,
    /// The steps.
    pub shown: Shown,
}

/// The most steps that a picture shows without being asked for so many.
pub(crate) const MOST_DRAWN: usize = 10_000;

/// The most steps that a sequence diagram shows: of more it could not be read, and Mermaid refuses texts that are too long.
pub(crate) const MOST_IN_DIAGRAM: u32 = 200;

/// Whether a journal of so many steps is too long to be shown whole.
fn too_long(form: Form, count: usize) -> bool
    ensures { result ≡ too_long form count }
{
    match form {
        Form::Picture => count > MOST_DRAWN,
        Form::Text(_) | Form::Mermaid | Form::Trace | Form::Page => false,
    }
}

/// Whether so many steps are more than the form ever shows.
fn too_many(form: Form, count: u32) -> bool
    ensures { result ≡ too_many form count }
{
    match form {
        Form::Mermaid => count > MOST_IN_DIAGRAM,
        Form::Text(_) | Form::Picture | Form::Trace | Form::Page => false,
    }
}

/// These steps, where they are not too many.
fn fitting(form: Form, window: Window) -> Result<Window, StoryFault>
    ensures { result ≡ fitting form window }
{
    if too_many(form, window.end.saturating_sub(window.first)) {
        Err(StoryFault::TooMany)
    } else {
        Ok(window)
    }
}

/// The places of the steps that are asked for, in a journal of so many, however many they are.
fn shown_of(asked: Asked, count: usize) -> Result<Window, StoryFault>
    requires few { count < 2 ^ 32 }
    ensures { result ≡ shown_of asked.form asked.shown count }
{
    match asked.shown {
        Shown::All if too_long(asked.form, count) => Err(StoryFault::TooLong),
        Shown::All => Ok(Window {
            first: 0,
            end: count as u32,
        }),
        Shown::Steps { from, to } if to < from => Err(StoryFault::Backward),
        Shown::Steps { from, to } if from == 0 || to as usize > count => Err(StoryFault::Outside),
        Shown::Steps { from, to } => Ok(Window {
            first: from - 1,
            end: to,
        }),
    }
}

/// The places of the steps that are asked for, in a journal of so many.
pub(crate) fn window_of(asked: Asked, count: usize) -> Result<Window, StoryFault>
    requires few { count < 2 ^ 32 }
    ensures { result ≡ window_of asked count }
{
    match shown_of(asked, count) {
        Ok(window) => fitting(asked.form, window),
        Err(fault) => Err(fault),
    }
}
