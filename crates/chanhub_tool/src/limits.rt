//! How many states of a scenario are gone through.

/// The number without `--states`.
pub(crate) const DEFAULT_STATES: u32 = 1_000_000;

/// The greatest that `--states` takes.
pub(crate) const MOST_STATES: u32 = 100_000_000;
