//! How long a journal's text can be, by the number of its entries and of their cases.

ghost use Rattle.std.specs.Prelude.{◌≡◌, ◌≤◌, true};
ghost use Rattle.std.specs.List.{AllByRecursion};
ghost use Rattle.hub_base.specs.Head.{AreOf, is_of};
ghost use Rattle.hub_base.specs.Lines.{line};
ghost use Rattle.hub_base.specs.Text.{Fits};
ghost use Rattle.hub_cut.specs.ChapterText.{most_line};

use crate::limits::{CASE_BYTES, LINE_BYTES, MOST_LINE_BYTES};
use hub_base::{Edition, Entry, EntryRef, Step};

/// So many bytes are kept for the entry's line, at least as many as it has. A start keeps those of a second line, for the
/// exit that its process may then make again.
pub(crate) fn most_line(edition: Edition, entry: &EntryRef<'_>) -> u32
    requires fits { is_of edition entry.now.step ≡ true }
    ensures most { result ≡ most_line entry.now }
    ensures few { result ≤ MOST_LINE_BYTES }
    ensures fits { Fits edition entry.now }
{
    let _fits = entry.fits(edition);
    match entry.step {
        Step::Start(_) => 2 * LINE_BYTES,
        _ => LINE_BYTES + CASE_BYTES * entry.step.cases().len() as u32,
    }
}

/// Shows that a text can have a line of each of these entries. It changes nothing.
pub(crate) fn all_fit(edition: Edition, entries: &[Entry])
    requires { AreOf edition entries.now }
    ensures { AllByRecursion (Fits edition) entries.now }
{
    for entry in entries {
        let _fits = entry.fits(edition);
    }
}
