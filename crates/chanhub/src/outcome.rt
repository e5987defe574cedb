//! What came of a command that did what it was asked for.

ghost use Rattle.std.specs.Prelude.{◌≡◌};
ghost use Rattle.chanhub.specs.Statuses.{status_of_outcome};

/// What came of a command that did what it was asked for. All of its text stands on standard output.
#[derive(Clone, Copy, Debug, PartialEq, Eq)]
pub enum Outcome {
    /// Nothing else is to be told by the status.
    Done,
    /// `verify`: the events differ from those of the journal.
    Differs,
    /// `run`: some call stalled.
    Stalled,
}

impl Outcome {
    /// The exit status: 0, 3 or 4.
    pub fn status(self) -> u8
        ensures { result ≡ status_of_outcome self }
    {
        match self {
            Outcome::Done => 0,
            Outcome::Differs => 3,
            Outcome::Stalled => 4,
        }
    }
}
