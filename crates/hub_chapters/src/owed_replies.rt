//! Owed replies: what a process is told after a cut.

ghost use Rattle.std.specs.Prelude.{ℕ};
ghost use Rattle.hub_chapters.specs.Chapters.{Chapters};
ghost use Rattle.hub_chapters.specs.Owed.{OwedLaw};

use hub_base::{Entry, Head};

/// What a process is told after a cut is its reply in the chapter, and in the whole history. A call that
/// waited at the cut and waits no longer has its reply there; who was told nothing has the reply from
/// before the cut.
pub fn owed_replies_come(head: Head, later: &[Entry])
    ensures { (chapters : Chapters) (q : ℕ) → OwedLaw head chapters later.now q }
{}
