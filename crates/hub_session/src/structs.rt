//! The structs that cross. C has the same ones: capi/chanhub.h and capi/hub_c.h.
//!
//! What comes from C may be any bytes, so a truth that comes is a number: 0 is false, and every other one is true.

use hub_base::{MOST_PROCS, MOST_VALUE_BYTES};

/// A port was made.
pub const MADE: u8 = 1;
/// A case sent its value.
pub const SENT: u8 = 2;
/// A case received a value.
pub const GOT: u8 = 3;
/// A case is a receive from a port that is closed and empty.
pub const DRAINED: u8 = 4;
/// A case is a send on a closed port.
pub const CLOSED: u8 = 5;
/// The default was taken.
pub const DEFAULT: u8 = 6;
/// The close, the exit or the cancel is done.
pub const DONE: u8 = 7;
/// The call waits.
pub const PARKED: u8 = 8;
/// Everyone waited, so the call ended.
pub const STALLED: u8 = 9;
/// The step was refused, or had no effect.
pub const FAULT: u8 = 10;
/// Another process cancelled the call.
pub const CANCELLED: u8 = 11;

/// The fault of what is not asked of a hub, or not of one of its edition. The numbers below it are those of `Fault`, as are 16
/// and 17.
pub const BAD_CALL: u8 = 13;
/// The fault of a step that the journal that is followed has not: the hub has diverged from it.
pub const DIVERGED: u8 = 14;

/// A journal is not followed, since memory is refused. It is the number of `OpenFault::NoMemory`.
pub const REFUSED_MEMORY: u8 = 3;
/// A journal is not followed, since its text is malformed.
pub const MALFORMED: u8 = 5;
/// A journal is not followed, since one of its steps is not admitted.
pub const NOT_ADMITTED: u8 = 6;

/// A step makes a port.
pub const STEP_MAKE: u8 = 1;
/// A step is a call of one case without a default, which sends.
pub const STEP_SEND: u8 = 2;
/// A step is a call of one case without a default, which receives.
pub const STEP_RECV: u8 = 3;
/// A step is any other call without a default.
pub const STEP_SELECT: u8 = 4;
/// A step is a call with a default.
pub const STEP_SELECT_DEFAULT: u8 = 5;
/// A step closes a port.
pub const STEP_CLOSE: u8 = 6;
/// A step ends its process.
pub const STEP_EXIT: u8 = 7;
/// A step ends the open call of another process.
pub const STEP_CANCEL: u8 = 8;
/// A step starts another process again.
pub const STEP_START: u8 = 9;
/// A step opens a port again.
pub const STEP_REOPEN: u8 = 10;

/// A journal has no clock: the number of no process.
pub const NO_CLOCK: u8 = MOST_PROCS as u8;

/// There is no such piece of a text: the last one stands before it.
pub const NO_PIECE: u8 = 0;
/// The piece was written, perhaps with some behind it.
pub const WRITTEN: u8 = 1;
/// The piece is longer than the place for it.
pub const NO_ROOM: u8 = 2;
/// Memory was refused.
pub const NO_MEMORY: u8 = 3;

/// A number, or bytes.
#[repr(C)]
#[derive(Clone, Copy)]
pub struct ValueC {
    /// The number; 0 where it is bytes.
    pub number: u64,
    /// Whether it is bytes.
    pub is_bytes: u8,
    /// How many bytes it is.
    pub length: u8,
    /// The bytes, and zeros behind them.
    pub bytes: [u8; MOST_VALUE_BYTES],
}

/// A case: it sends the value on the port, or receives from it.
#[repr(C)]
#[derive(Clone, Copy)]
pub struct CaseC {
    /// Whether it sends.
    pub sends: u8,
    /// The port.
    pub port: u16,
    /// What it sends.
    pub value: ValueC,
}

/// What a call came to. The members that what is told has nothing for are 0.
#[repr(C)]
#[derive(Clone, Copy)]
pub struct ToldC {
    /// What is told, `MADE` to `CANCELLED`; 0 where no answer waits, and where a step's turn has not come.
    pub what: u8,
    /// The number of the fault.
    pub fault: u8,
    /// The index of the case.
    pub index: u8,
    /// The port that was made.
    pub port: u16,
    /// The value that was received; with `DIVERGED` the number of the journal's step.
    pub value: ValueC,
    /// A bit for each process whose call the step ended, the lowest for process 0.
    pub ended: u64,
    /// 1 where a chapter waits to be read, else 0.
    pub chapter: u8,
}

/// What a look at a port shows. All is 0 for one that was not made.
#[repr(C)]
#[derive(Clone, Copy)]
pub struct CountsC {
    /// Whether it was made.
    pub made: bool,
    /// Whether it is closed.
    pub closed: bool,
    /// Its capacity.
    pub cap: u32,
    /// How many sends on it completed.
    pub sent: u64,
    /// How many values were received from it.
    pub received: u64,
}

/// What a reading of pieces of a text came to.
#[repr(C)]
#[derive(Clone, Copy)]
pub struct PieceC {
    /// `NO_PIECE`, `WRITTEN`, `NO_ROOM` or `NO_MEMORY`.
    pub what: u8,
    /// How many pieces were written, from the one that was asked for on.
    pub count: u32,
    /// How many bytes were written, or how many there has to be room for; else 0.
    pub length: u64,
}

/// What a cut came to.
#[repr(C)]
#[derive(Clone, Copy)]
pub struct CutC {
    /// Whether the hub was cut.
    pub cut: bool,
    /// Whether a chapter waits to be read.
    pub chapter: bool,
}

/// What an opening of a hub that follows a journal came to.
#[repr(C)]
#[derive(Clone, Copy)]
pub struct FollowC {
    /// 0 if it was opened, else what refused it: `REFUSED_MEMORY`, `MALFORMED` or `NOT_ADMITTED`.
    pub refusal: u8,
    /// The journal's first line that is malformed or not admitted, from 1; else 0.
    pub line: u32,
}

/// A process's next step of the journal that is followed. All is 0 where there is none.
#[repr(C)]
#[derive(Clone, Copy)]
pub struct NextC {
    /// The number of the step in the journal, from 1.
    pub number: u32,
    /// What it is, `STEP_MAKE` to `STEP_REOPEN`.
    pub what: u8,
    /// Whom a cancel cancels, or a start starts; else 0.
    pub other: u8,
    /// The port of a send, a receive, a close or a reopen; else 0.
    pub port: u16,
}
