//! `chanhub verify JOURNAL EVENTS`.

ghost use Rattle.std.specs.Prelude.{◌≡◌, ℕ, List, IfOk, IfErr};
ghost use Rattle.std.specs.Io.KnownBytes.{Appends};
ghost use Rattle.hub_replay.specs.Devices.{Failed, AppendsBeginning};
ghost use Rattle.chanhub.specs.declared.outcome.Outcome.{Outcome};
ghost use Rattle.chanhub.specs.Promises.{TellsComparison, IsRefused, RefusesComparison, RefusesFiles};

use crate::files::read_file;
use crate::outcome::Outcome;
use crate::refusal::Refusal;
use hub_base::MOST_BYTES;
use hub_replay::{Compared, Sink, verify, write_pieces};
use itoa::Buffer;
use std::alloc::Global;
use std::rt::Files;

/// No event text has more bytes.
const MOST_EVENT_BYTES: usize = 268_435_456;

/// Tells whether the events are those of the journal, or else the first line that differs.
fn tell_comparison<W: Sink>(
    alloc: Global,
    journal: &[u8],
    events: &[u8],
    output: &mut W,
) -> Result<Outcome, Refusal>
    ensures ok { IfOk result (λ outcome. TellsComparison journal.now events.now outcome
        (Appends (W.contents output.old) (W.contents output.new))) }

    ensures refused { IfErr result (λ refusal. IsRefused refusal (output.new ≡ output.old)
        (Failed (W.failures output.old) (W.failures output.new))
        ((outcome : Outcome) × TellsComparison journal.now events.now outcome
        (AppendsBeginning (W.contents output.old) (W.contents output.new)))) }
    ensures found { IfErr result (λ refusal. RefusesComparison journal.now refusal) }
{
    match verify(alloc, journal, events).map_err(Refusal::Replay)? {
        Compared::Same => {
            write_pieces(output, &["same\n"])?;
            Ok(Outcome::Done)
        }
        Compared::Differs(line) => {
            let mut digits = Buffer::new();
            write_pieces(output, &["differs at line ", digits.format(line), "\n"])?;
            Ok(Outcome::Differs)
        }
    }
}

/// Compares the events in one file with those of the journal in another. Both files are read first.
pub(crate) fn verify_files<R: Files, W: Sink>(
    rt: &R,
    alloc: Global,
    journal: &str,
    events: &str,
    output: &mut W,
) -> Result<Outcome, Refusal>
    ensures ok { IfOk result (λ outcome. (journal : List ℕ) × (events : List ℕ)
        × TellsComparison journal events outcome
        (Appends (W.contents output.old) (W.contents output.new))) }

    ensures refused { IfErr result (λ refusal. IsRefused refusal (output.new ≡ output.old)
        (Failed (W.failures output.old) (W.failures output.new))
        ((outcome : Outcome) × (journal : List ℕ) × (events : List ℕ)
        × TellsComparison journal events outcome
        (AppendsBeginning (W.contents output.old) (W.contents output.new)))) }
    ensures found { IfErr result (λ refusal. RefusesFiles refusal) }
{
    let journal_bytes = read_file(rt, alloc, journal, MOST_BYTES)?;
    let event_bytes = read_file(rt, alloc, events, MOST_EVENT_BYTES)?;
    tell_comparison(alloc, &journal_bytes, &event_bytes, output)
}
