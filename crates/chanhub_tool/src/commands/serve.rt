//! `chanhub_tool serve`: a conversation on standard input and output.

ghost use Rattle.std.specs.Prelude.{◌≡◌, ◌≤◌, []};
ghost use Rattle.hub_replay.specs.Devices.{Failed};
ghost use Rattle.hub_replay.specs.declared.fault.ReplayFault.{ReplayFault};
ghost use Rattle.hub_replay.specs.FaultLines.{fault_text, line_of, status_of, TellsOnce};
ghost use Rattle.hub_replay.specs.Serve.{HasConversed};
ghost use Rattle.chanhub_tool.specs.Promises.{HasEnded};

use clap::Command;
use hub_replay::{Counted, Pair, Sink, Talk, converse, tell_fault};
use std::alloc::Global;
use std::marker::{Brand, PhantomData};

pub(super) fn grammar<'a>(alloc: Global) -> Command<'a> {
    Command::new(alloc, "serve")
        .about(
            "Reads a journal from standard input as it comes, and answers the whole lines of each read at once on standard output",
        )
        .after_help(
            "There is a line for each event, as `chanhub replay` prints it. Nothing is said of a faulty line or behind it.",
        )
}

/// Converses, and answers the exit status: 0 where all that was heard is a journal and all of its events were said; 1
/// for a device or memory; 2 for a malformed journal. Why it is not 0 is told to `errors` as one line.
pub fn serve<T: Talk, X: Sink>(alloc: Global, talk: &mut T, errors: &mut X) -> u8
    requires heard { T.heard talk.old [] }
    requires said { T.said talk.old [] }
    ensures statuses { result ≤ 2 }
    ensures done { result ≡ 0 → HasConversed (T.heard talk.new) (T.said talk.new)
        × T.ended talk.new × (errors.new ≡ errors.old) }
    ensures ended { ¬ (result ≡ 0) → (fault : ReplayFault) × (result ≡ status_of fault)
        × HasEnded (T.heard talk.new) (T.said talk.new) (T.ended talk.new)
        (Failed (T.failed_reads talk.old) (T.failed_reads talk.new))
        (Failed (T.failed_writes talk.old) (T.failed_writes talk.new)) fault
        × TellsOnce (X.contents errors.old) (X.contents errors.new)
        (X.failures errors.old) (X.failures errors.new) (line_of (fault_text fault)) }
{
    match converse(alloc, talk) {
        Ok(()) => 0,
        Err(fault) => tell_fault(fault, errors),
    }
}

/// Converses on standard input and output, and answers the status.
pub(super) fn serve_streams<X: Sink>(rt: &HostRuntime, errors: &mut X) -> u8 {
    let mut pair = Pair::<Brand, _, _> {
        source: Counted::new(rt.stdin()),
        sink: Counted::new(rt.stdout()),
        of: PhantomData,
    };
    serve(rt.alloc(), &mut pair, errors)
}
