//! What the arguments ask for, and why they ask for nothing.

ghost use Rattle.std.specs.Prelude.{◌≡◌};
ghost use Rattle.chanhub.specs.declared.words.request.ArgumentsFault.TheVariants as fault;

use std::alloc::AllocError;

/// What the program is to do. Names of files are those of the arguments; an empty one is a name too.
#[derive(Clone, Copy)]
pub enum Request<'a> {
    /// Replay the journal on standard input.
    Replay,
    /// Run the scenario in this file, or on standard input where there is none. `journal`: print its
    /// journal, and not its report.
    Run {
        file: Option<&'a str>,
        journal: bool,
    },
    /// Compare the events of the journal in one file with the bytes of another.
    Verify {
        journal: &'a str,
        events: &'a str,
    },
}

/// Why the arguments ask for nothing.
#[derive(Clone, Copy, Debug, PartialEq, Eq)]
pub enum ArgumentsFault {
    /// The program has no such command, or not with these arguments. Help and version are no commands.
    BadArguments,
    /// An allocation failed.
    NoMemory,
}

impl From<AllocError> for ArgumentsFault {
    ghost from_gives = { λ _ given. given ≡ fault.NoMemory };

    fn from(_: AllocError) -> ArgumentsFault {
        ArgumentsFault::NoMemory
    }
}
