//! What the head lines of a journal say of its hub.

ghost use Rattle.std.specs.Prelude.{◌≡◌};

use crate::limits::{CASE_PLACES, MOST_CASES};
use crate::{Case, Entry};

/// The edition of a journal, and of the hub that writes it: which texts and which steps it admits. All else
/// that a hub does is the same in all.
#[derive(Clone, Copy, Debug, PartialEq, Eq)]
pub enum Edition {
    /// A journal whose first line is `chanhub journal 1`. Each value is a number, and a call has at most `MOST_CASES`
    /// cases.
    One,
    /// A journal whose first line is `chanhub journal 2`. A value is a number or bytes, a call has at most
    /// `CASE_PLACES` cases, as many as an entry holds, and a process may cancel the open call of another.
    Two,
    /// A journal whose first line is `chanhub journal 3`. It has all that the second has. A process that has exited may
    /// be started again, and a port that is closed and drained may be opened again.
    Three,
}

impl Edition {
    ghost use Rattle.std.specs.Prelude.{IsTrue};
    ghost use Rattle.std.specs.List.{AllByRecursion, list_all};
    ghost use Rattle.hub_base.specs.Head.{most_cases, has_bytes, has_cancel, has_lives, has_case, is_of};
    ghost use Rattle.hub_base.specs.Text.{CaseFits, Fits};

    /// The most cases that a call may have.
    pub fn most_cases(self) -> usize
        ensures { result ≡ most_cases self }
    {
        match self {
            Edition::One => MOST_CASES,
            Edition::Two | Edition::Three => CASE_PLACES,
        }
    }

    /// Whether a value may be bytes. In the first edition each is a number.
    pub fn has_bytes(self) -> bool
        ensures { result ≡ has_bytes self }
    {
        self != Edition::One
    }

    /// Whether a process may cancel the open call of another.
    pub fn has_cancel(self) -> bool
        ensures { result ≡ has_cancel self }
    {
        !matches!(self, Edition::One)
    }

    /// Whether processes may be started and ports opened again.
    pub fn has_lives(self) -> bool
        ensures { result ≡ has_lives self }
    {
        self == Edition::Three
    }

    /// Whether a journal of this edition can have all of these cases. All are looked at: so where only the proof asks, what is
    /// compiled has no loop.
    pub fn has_cases(self, cases: &[Case]) -> bool
        ensures is { result ≡ list_all (has_case self) cases.now }
        ensures fits { IsTrue result → AllByRecursion CaseFits cases.now }
    {
        let mut all = true;
        for case in cases {
            all &= case.fits(self);
        }
        all
    }

    /// Whether a journal of this edition can have all of these entries.
    pub fn has_all(self, entries: &[Entry]) -> bool
        ensures is { result ≡ list_all (λ e. is_of self e.step) entries.now }
        ensures fits { IsTrue result → AllByRecursion (Fits self) entries.now }
    {
        entries.iter().all(|entry| entry.fits(self))
    }
}

/// What a journal says of its hub before the first entry, and what the meaning of its entries rests on.
#[derive(Clone, Copy, Debug, PartialEq, Eq)]
pub struct Head {
    /// The edition, which the first line says.
    pub edition: Edition,
    /// The number of processes, 1 to `MOST_PROCS` of every hub and every text.
    pub procs: u8,
}
