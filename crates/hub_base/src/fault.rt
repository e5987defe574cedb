//! Why a step had no effect.

ghost use Rattle.std.specs.Prelude.{◌≡◌};

use std::error::Error;
use std::fmt;

/// Why a step had no effect.
///
/// They are tested in the order 10, 1, 2, 3, then 11 where the journal has to grow and can't, then those of 4 to
/// 9, 12, 16 and 17 that apply, by number, and last, for a make or a reopen, 11 where its channel's memory is
/// refused. Faults 4 to 9, 12, 16 and 17 are answers to journaled steps, which change no channel and no open call.
/// The others are refusals: the step is not journaled and nothing changes.
#[derive(Clone, Copy, Debug, PartialEq, Eq)]
pub enum Fault {
    /// 1: the process number is not below the number of processes.
    NoProcess,
    /// 2: the process has exited.
    Gone,
    /// 3: the process has an open call.
    Busy,
    /// 4: a call has more cases than the edition admits: more than `MOST_CASES` in the first. In the others it
    /// never comes, since an entry holds no more than a call may have.
    TooManyCases,
    /// 5: a case, a close or a reopen names a port other than 0 that was not made.
    NoPort,
    /// 6: a capacity above `MOST_CAP`.
    BadCap,
    /// 7: `MOST_PORTS` ports are made already.
    TooManyPorts,
    /// 8: a close of port 0, the nil port, or a reopen of it, which has the same text. Go: a close of the nil channel
    /// panics ("Close").
    NilClose,
    /// 9: a close of a closed port. Go: it panics ("Close").
    AlreadyClosed,
    /// 10: a step other than `Step::Exit`, where the journal holds as many of them as its limit
    /// allows.
    JournalFull,
    /// 11: a growth was refused.
    NoMemory,
    /// 12: a cancel of a process that has no open call: it is not below the number of processes, has exited, is
    /// at work, or cancels itself.
    NotParked,
    // The C library has 13 to 15 of its own.
    /// 16: a reopen of a port that is open, or that holds a value.
    InUse,
    /// 17: a start of a process that has not exited, or that is not below the number of processes.
    NotGone,
}

impl Fault {
    ghost use Rattle.hub_base.specs.Faults.{fault_number, fault_text};

    /// The fault's number, 1 to 12, 16 or 17, as event texts print it.
    pub fn number(self) -> u8
        ensures { result ≡ fault_number self }
    {
        match self {
            Fault::InUse => 16,
            Fault::NotGone => 17,
            _ => self as u8 + 1,
        }
    }

    /// What is wrong, as it is printed.
    pub fn text(self) -> &'static str
        ensures { result.now ≡ fault_text self }
    {
        match self {
            Fault::NoProcess => "no such process",
            Fault::Gone => "the process has exited",
            Fault::Busy => "the process has an open call",
            Fault::TooManyCases => "too many cases",
            Fault::NoPort => "no such port",
            Fault::BadCap => "the capacity is too large",
            Fault::TooManyPorts => "too many ports",
            Fault::NilClose => "close of the nil port",
            Fault::AlreadyClosed => "close of a closed port",
            Fault::JournalFull => "the journal is full",
            Fault::NoMemory => "out of memory",
            Fault::NotParked => "no open call",
            Fault::InUse => "the port is in use",
            Fault::NotGone => "the process has not exited",
        }
    }
}

impl fmt::Display for Fault {
    fn fmt<W: fmt::Write>(&self, f: &mut fmt::Formatter<W>) -> fmt::Result {
        f.write_str(self.text())
    }
}

impl Error for Fault {}
