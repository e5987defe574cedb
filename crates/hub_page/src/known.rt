//! A journal with what is known of it, and which of its steps are told.

ghost use Rattle.std.specs.Prelude.{◌≡◌};
ghost use Rattle.hub_page.specs.Known.{entries_of, procs_of};

use hub_core::ShortEntries;
use hub_story::Window;
use hub_story_text::Explained;

/// A journal with what is known of it.
#[derive(Clone, Copy)]
pub(crate) struct Known<'a> {
    /// The journal, explained.
    pub(crate) explained: Explained<'a>,
    /// The steps that are told, besides those without which they could not be understood.
    pub(crate) window: Window,
}

impl<'a> Known<'a> {
    /// The entries.
    pub(crate) fn entries(&self) -> &'a ShortEntries
        ensures { result.now ≡ entries_of self.now }
    {
        self.explained.journal.entries()
    }

    /// How many processes there are.
    pub(crate) fn procs(&self) -> u8
        ensures { result ≡ procs_of self.now }
    {
        self.explained.journal.head().procs
    }
}
