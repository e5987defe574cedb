//! The limits of a hub, of its steps and of a journal's text. Each of them stands here alone.

/// The most processes of a hub. They are numbered from 0.
pub const MOST_PROCS: usize = 64;

/// The most ports of a hub. They are numbered from 1.
pub const MOST_PORTS: usize = 64;

/// The most cases that a call may have in the first edition.
pub const MOST_CASES: usize = 8;

/// The places that an entry has for cases: the most that a text may name, and the most that a call may have
/// from the second edition on. In the first, a call that names more than `MOST_CASES` is refused when it is made.
pub const CASE_PLACES: usize = 16;

/// The most bytes of a value.
pub const MOST_VALUE_BYTES: usize = 32;

/// The greatest capacity that a channel may have, in values.
pub const MOST_CAP: u32 = 1024;

/// The most entries of a journal that are no exits.
pub const MOST_STEPS: u32 = 1_000_000;

/// The most bytes of a journal's text.
pub const MOST_BYTES: usize = 67_108_864;

/// The most events of a step: its answer, and one for each process whose call it ends.
pub const MOST_EVENTS: usize = MOST_PROCS + 1;

/// The greatest number that an entry can give a process. It may pass those of any hub.
pub const GREATEST_PID: u8 = u8::MAX;

/// The greatest number that an event can give a case.
pub const GREATEST_CASE: u8 = u8::MAX;

/// The greatest number that an entry can give a port.
pub const GREATEST_PORT: u16 = u16::MAX;

/// The greatest capacity that an entry can ask for.
pub const GREATEST_CAP: u32 = u32::MAX;

/// The greatest value that is a number.
pub const GREATEST_VALUE: u64 = u64::MAX;

/// The greatest choice word.
pub const GREATEST_WORD: u64 = u64::MAX;
