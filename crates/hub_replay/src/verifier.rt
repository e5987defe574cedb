//! Whether given bytes are the event text of a journal.
//!
//! They are compared as the journal's steps are made, and no whole event text is made: one buffer holds the
//! lines of some steps at a time.

ghost use Rattle.std.specs.Prelude.{IfOk, IfErr};
ghost use Rattle.hub_replay.specs.Replay.{HasNone};
ghost use Rattle.hub_replay.specs.Verify.{Compares};

use crate::ReplayFault;
use crate::comparison::Comparison;
use crate::steps::Steps;
use hub_text::{EventText, one_reading};
use std::alloc::Global;

/// How many bytes of lines are compared at once, or a few more.
const ENOUGH: usize = 65_536;

/// What a comparison says.
#[derive(Clone, Copy, Debug, PartialEq, Eq)]
pub enum Compared {
    /// The bytes are the event text.
    Same,
    /// They are not, and this line, counted from 1, is the first that differs: before it stand the newlines of
    /// the longest beginning that both have.
    Differs(u32),
}

/// Compares bytes with the event text of a journal. Where the journal is malformed the answer is `Text`, with
/// its first faulty line, whatever the bytes are; and `NoMemory` where a growth was refused. There is no other
/// `Err`.
pub fn verify(alloc: Global, journal: &[u8], events: &[u8]) -> Result<Compared, ReplayFault>
    ensures ok { IfOk result (λ compared. Compares journal.now events.now compared) }
    ensures err { IfErr result (λ fault. HasNone journal.now fault) }
{
    // Its clauses say that a journal has one event text.
    one_reading();
    let mut steps = Steps::open(alloc, journal)?;
    let mut comparison = Comparison::of(events);
    let mut lines = EventText::new(alloc);
    while steps.advance(&mut lines, ENOUGH)? {
        comparison.take(lines.text());
        lines.clear();
    }
    let last = lines.text();
    comparison.take(last);
    Ok(comparison.end())
}
