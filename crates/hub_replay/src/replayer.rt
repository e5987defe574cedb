//! From a journal that is read to its events, which are written.
//!
//! The whole event text is made before a byte of it is written, so a malformed journal writes nothing. The
//! entries are stepped as they are read, and none is kept.

ghost use Rattle.std.specs.Prelude.{◌≡◌, ◌+◌, IfOk, IfErr, OnOk, IsErrOf};
ghost use Rattle.hub_base.specs.declared.read_fault.TextFault.{TextFault};
ghost use Rattle.std.specs.Io.KnownBytes.{Appends};
ghost use Rattle.hub_replay.specs.Devices.{Failed, AppendsBeginning, ConsumesAtMost};
ghost use Rattle.hub_replay.specs.Replay.{IsEventText, HasNone, Replays, ReadsFaulty};

use crate::pieces::{read_up_to, write_whole};
use crate::steps::Steps;
use crate::{ReplayFault, Sink, Source};
use hub_base::MOST_BYTES;
use hub_text::EventText;
use std::alloc::Global;

/// The event text of the journal that these bytes are the text of.
fn event_text(alloc: Global, bytes: &[u8]) -> Result<EventText, ReplayFault>
    ensures ok { IfOk result (λ text. IsEventText bytes.now text.lines) }
    ensures err { IfErr result (HasNone bytes.now) }
{
    let mut steps = Steps::open(alloc, bytes)?;
    let mut text = EventText::new(alloc);
    while steps.advance(&mut text, usize::MAX)? {}
    Ok(text)
}

/// Reads a journal to its end, or until more than `MOST_BYTES` bytes have come, makes the event text of its
/// run, and writes that text. Nothing is tried again.
pub fn replay<S: Source, W: Sink>(
    alloc: Global,
    source: &mut S,
    sink: &mut W,
) -> Result<(), ReplayFault>
    ensures ok { OnOk result (Replays (S.remaining source.old) (S.remaining source.new)
        (Appends (W.contents sink.old) (W.contents sink.new))) }

    // Nothing is written where the journal is malformed, a read fails or memory is refused.
    ensures text { (fault : TextFault) → IsErrOf result (ReplayFault.Text fault)
        → ReadsFaulty (S.remaining source.old) (S.remaining source.new) fault
        × (sink.new ≡ sink.old) }
    ensures read { IsErrOf result ReplayFault.Read
        → Failed (S.failures source.old) (S.failures source.new) × (sink.new ≡ sink.old) }
    ensures memory { IsErrOf result ReplayFault.NoMemory → sink.new ≡ sink.old }

    // A beginning of the event text is written where a write fails.
    ensures write { IsErrOf result ReplayFault.Write
        → Failed (W.failures sink.old) (W.failures sink.new)
        × Replays (S.remaining source.old) (S.remaining source.new)
        (AppendsBeginning (W.contents sink.old) (W.contents sink.new)) }

    // At most one byte more is read than a journal may have, whatever the answer is.
    ensures few { ConsumesAtMost (S.remaining source.old) (S.remaining source.new) (MOST_BYTES + 1) }

    // No other call of either device failed.
    ensures reads_once { ¬ IsErrOf result ReplayFault.Read
        → S.failures source.new ≡ S.failures source.old }
    ensures writes_once { ¬ IsErrOf result ReplayFault.Write
        → W.failures sink.new ≡ W.failures sink.old }
{
    let bytes = read_up_to(alloc, source, MOST_BYTES)?;
    let text = event_text(alloc, &bytes)?;
    write_whole(sink, text.text())?;
    Ok(())
}
