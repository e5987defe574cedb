//! Why a text was not read.

ghost use Rattle.std.specs.Prelude.{◌≡◌};

use std::alloc::AllocError;
use thiserror::Error;

/// What is wrong with a line of a journal's text.
#[derive(Clone, Copy, Debug, PartialEq, Eq)]
pub enum Kind {
    /// 1: line 1 is neither `chanhub journal 1` nor `chanhub journal 2`, or the text is empty.
    BadHeader,
    /// 2: line 2 is anything else than `procs N` with N from 1 to `MOST_PROCS`, or the text ends before it.
    BadProcs,
    /// 3: a further line has not the shape of a step, or spells a plain send or receive as a select.
    BadStep,
    /// 4: a number is neither `0` nor a digit from 1 to 9 followed by digits, or is above its
    /// greatest: `GREATEST_PID`, `GREATEST_PORT`, `GREATEST_CAP`, `GREATEST_VALUE` or `GREATEST_WORD`.
    BadNumber,
    /// 5: the line has no newline.
    CutLine,
    /// 6: a byte of the line, its newline included, stands behind the first `MOST_BYTES`; or the step is no
    /// exit, and `MOST_STEPS` lines before it are none.
    TooLong,
}

impl Kind {
    ghost use Rattle.hub_base.specs.Faults.{kind_number, kind_text};

    /// The kind's number, 1 to 6.
    pub fn number(self) -> u8
        ensures { result ≡ kind_number self }
    {
        self as u8 + 1
    }

    /// What is wrong, in two words, as fault lines print it.
    pub fn text(self) -> &'static str
        ensures { result.now ≡ kind_text self }
    {
        match self {
            Kind::BadHeader => "bad header",
            Kind::BadProcs => "bad procs",
            Kind::BadStep => "bad step",
            Kind::BadNumber => "bad number",
            Kind::CutLine => "cut line",
            Kind::TooLong => "too long",
        }
    }
}

/// The first faulty line of a text, counted from 1, and what is wrong with it.
#[derive(Clone, Copy, Debug, PartialEq, Eq)]
pub struct TextFault {
    /// The number of the line, from 1.
    pub line: u32,
    /// What is wrong with it.
    pub kind: Kind,
}

/// Why a journal was not read. Nothing is kept of it.
#[derive(Clone, Copy, Debug, PartialEq, Eq)]
pub enum ReadFault {
    /// The text is malformed.
    Text(TextFault),
    /// A growth was refused.
    NoMemory,
}

/// A growth was refused. Each call says what it leaves then.
#[derive(Clone, Copy, Debug, PartialEq, Eq, Error)]
#[error("out of memory")]
pub struct NoMemory;

impl From<AllocError> for NoMemory {
    fn from(_: AllocError) -> NoMemory {
        NoMemory
    }
}
