//! The limits of a recorder, and how long its texts can be.

/// The most steps that a chapter may have to have behind its checkpoint, exits not counted.
pub const MOST_KEEP: u32 = 900_000;

/// The most bytes of an entry's line, without its cases.
pub(crate) const LINE_BYTES: u32 = 41;

/// The most bytes of a case.
pub(crate) const CASE_BYTES: u32 = 73;

/// The most bytes of an entry's line.
pub(crate) const MOST_LINE_BYTES: u32 = 1_209;

/// The lines of a checkpoint have fewer bytes.
pub(crate) const CHECKPOINT_BYTES: u32 = 7_600_000;

/// A chapter is full once the lines behind its checkpoint may have so many bytes. With one line more, its checkpoint and the
/// head lines, its text still stays below `MOST_BYTES`.
pub(crate) const CHAPTER_BYTES: u32 = 59_500_000;
