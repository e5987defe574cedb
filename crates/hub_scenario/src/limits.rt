//! The limits of a scenario file. Those of its ports, processes, numbers and cases are a journal's, and stand in
//! `hub_base`.

/// The most bytes of a file.
pub const MOST_FILE_BYTES: usize = 1_048_576;

/// The greatest seed. No whole number of TOML is above it.
pub const GREATEST_SEED: u64 = 9_223_372_036_854_775_807;

/// The limit of the hub's journal where a file names none, in steps.
pub const DEFAULT_LIMIT: u32 = 100_000;

/// The edition of the hub's journal where a file names none.
pub const DEFAULT_JOURNAL: u32 = 1;

/// The most steps of a script.
pub const MOST_SCRIPT_STEPS: u32 = 10_000;
