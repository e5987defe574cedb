//! `chanhub replay`.

ghost use Rattle.std.specs.Prelude.{◌≡◌, IfOk, IfErr, IsErrOf};
ghost use Rattle.hub_base.specs.declared.read_fault.TextFault.{TextFault};
ghost use Rattle.std.specs.Io.KnownBytes.{Appends};
ghost use Rattle.hub_replay.specs.Devices.{Failed, AppendsBeginning};
ghost use Rattle.hub_replay.specs.Replay.{Replays, ReadsFaulty};
ghost use Rattle.chanhub.specs.Promises.{IsRefused, RefusesReplay};
ghost use Rattle.chanhub.specs.Statuses.{status_of};

use crate::outcome::Outcome;
use crate::refusal::Refusal;
use hub_replay::{ReplayFault, Sink, Source, replay};
use std::alloc::Global;

/// Replays the journal on standard input.
pub(crate) fn replay_input<S: Source, W: Sink>(
    alloc: Global,
    input: &mut S,
    output: &mut W,
) -> Result<Outcome, Refusal>
    ensures ok { IfOk result (λ outcome. (outcome ≡ Outcome.Done)
        × Replays (S.remaining input.old) (S.remaining input.new)
        (Appends (W.contents output.old) (W.contents output.new))) }

    ensures refused { IfErr result (λ refusal. IsRefused refusal (output.new ≡ output.old)
        (Failed (W.failures output.old) (W.failures output.new))
        (Replays (S.remaining input.old) (S.remaining input.new)
        (AppendsBeginning (W.contents output.old) (W.contents output.new)))) }
    ensures found { IfErr result (λ refusal. RefusesReplay
        (S.remaining input.old) (S.remaining input.new)
        (Failed (S.failures input.old) (S.failures input.new)) refusal) }
    ensures faulty { IfErr result (λ refusal. status_of refusal ≡ 2 → (fault : TextFault)
        × ReadsFaulty (S.remaining input.old) (S.remaining input.new) fault) }
    ensures reads_once { ¬ IsErrOf result (Refusal.Replay ReplayFault.Read)
        → S.failures input.new ≡ S.failures input.old }
{
    match replay(alloc, input, output) {
        Ok(()) => Ok(Outcome::Done),
        Err(fault) => Err(Refusal::Replay(fault)),
    }
}
