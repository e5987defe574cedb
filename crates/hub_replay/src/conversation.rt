//! A conversation between two reads: the line that comes next, what has come of it, and what the lines before
//! have led to.
//!
//! Of what was heard the two head lines are kept, and behind them the line that is not whole yet. So each line is
//! read where it came.

ghost use Rattle.std.specs.Prelude.{◌≤◌, ◌+◌, vec_len};
ghost use Rattle.std.specs.Option.{ForSome};
ghost use Rattle.hub_base.specs.declared.limits.TheConstants.{MOST_BYTES};

mod hearing;

use crate::running::Running;

/// What was heard of a journal so far, and what it has led to.
#[derive(Drop)]
pub(crate) struct Conversation {
    /// The head lines that have come, and behind them what has come of the next line.
    text: Vec<u8>,
    /// How many of these bytes are head lines.
    front: usize,
    /// The number of the next line, from 1.
    line: u32,
    /// How many bytes stand before it.
    place: usize,
    /// What the entries have led to, once both head lines have come.
    running: Option<Running>,
    ghost kept: { front ≤ vec_len text },
    ghost before: { front ≤ place },
    ghost within: { place ≤ MOST_BYTES },
    ghost first: { 1 ≤ line },
    ghost numbered: { line ≤ place + 1 },
    ghost few: { ForSome running (λ r. r.machine.steps ≤ place) },
}
