//! The limits of a text of events.

/// The most bytes of an event's line: ` case `, ` got `, two numbers, a value of `MOST_VALUE_BYTES` bytes and the
/// newline.
pub const MOST_LINE: usize = 83;

/// How many bytes a text of events grows by, beside those that it needs at once. They are set to zero, so they are
/// few: the lines that follow find them in the nearest memory.
pub const TEXT_GROWTH: usize = 1_024;
