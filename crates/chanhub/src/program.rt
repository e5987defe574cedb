//! What the program does with its arguments.

ghost use Rattle.std.specs.Prelude.{◌≡◌, ◌≤◌, ◌⊎◌, map, IfOk, IfErr, IsErrOf};
ghost use Rattle.hub_base.specs.declared.read_fault.TextFault.{TextFault};
ghost use Rattle.std.specs.Io.KnownBytes.{Appends};
ghost use Rattle.hub_replay.specs.Devices.{Failed};
ghost use Rattle.hub_replay.specs.Replay.{Replays, ReadsFaulty};
ghost use Rattle.chanhub.specs.Words.{AsksForReplay, HasUnknownOption};
ghost use Rattle.chanhub.specs.declared.outcome.Outcome.{Outcome};
ghost use Rattle.chanhub.specs.declared.refusal.Refusal.{Refusal};
ghost use Rattle.hub_replay.specs.FaultLines.{TellsOnce};
ghost use Rattle.chanhub.specs.FaultLines.{fault_line};
ghost use Rattle.chanhub.specs.Promises.{HasDone, HasBegun, HasRefused, IsRefused};
ghost use Rattle.chanhub.specs.Statuses.{status_of, status_of_outcome};

use crate::commands::{replay_input, run_from, verify_files};
use crate::outcome::Outcome;
use crate::refusal::Refusal;
use crate::words::{Request, read_words};
use hub_replay::{Sink, Source, tell_fault};
use std::convert::AsStr;
use std::rt::Files;
use std::sync::Wait;
use std::thread::Threads;

/// Does what the arguments ask for.
fn carry_out<R: Files + AllocGlobal + Threads + Wait + Sync, T: AsStr, S: Source, W: Sink>(
    rt: &R,
    words: &[T],
    input: &mut S,
    output: &mut W,
) -> Result<Outcome, Refusal>
    ensures done { IfOk result (λ outcome. HasDone (map T.text words.now) outcome
        (S.remaining input.old) (S.remaining input.new) (input.new ≡ input.old)
        (Appends (W.contents output.old) (W.contents output.new))) }

    ensures refused { IfErr result (λ refusal. IsRefused refusal (output.new ≡ output.old)
        (Failed (W.failures output.old) (W.failures output.new))
        (HasBegun (map T.text words.now)
        (S.remaining input.old) (S.remaining input.new) (input.new ≡ input.old)
        (W.contents output.old) (W.contents output.new))) }
    ensures found { IfErr result (λ refusal. HasRefused (map T.text words.now) refusal
        (S.remaining input.old) (S.remaining input.new) (input.new ≡ input.old)
        (Failed (S.failures input.old) (S.failures input.new))) }
    ensures unread { IsErrOf result Refusal.BadArguments → input.new ≡ input.old }
    ensures option { HasUnknownOption (map T.text words.now)
        → IsErrOf result Refusal.BadArguments }
    ensures faulty { AsksForReplay (map T.text words.now) → IfErr result (λ refusal.
        status_of refusal ≡ 2 → (fault : TextFault)
        × ReadsFaulty (S.remaining input.old) (S.remaining input.new) fault) }
{
    let alloc = rt.alloc();
    match read_words(alloc, words)? {
        Request::Replay => replay_input(alloc, input, output),
        Request::Run { file, journal } => run_from(rt, alloc, file, journal, input, output),
        Request::Verify { journal, events } => verify_files(rt, alloc, journal, events, output),
    }
}

/// Does what the arguments ask for, of which the first is the program's name, and answers the exit
/// status: 0; 1 for a device, memory or a full journal; 2 for malformed input or arguments; 3 where
/// `verify` finds a difference; 4 where a call stalled in `run`. A refusal is told to `errors` as one
/// line, and a failure of `errors` changes no status.
pub fn run_words<
    R: Files + AllocGlobal + Threads + Wait + Sync,
    T: AsStr,
    S: Source,
    W: Sink,
    X: Sink,
>(rt: &R, words: &[T], input: &mut S, output: &mut W, errors: &mut X) -> u8
    ensures statuses { result ≤ 4 }

    // 0, 3 and 4: what the command promises is done, and nothing went to `errors`.
    ensures done { ¬ (result ≡ 1) → ¬ (result ≡ 2) → (outcome : Outcome)
        × (result ≡ status_of_outcome outcome)
        × HasDone (map T.text words.now) outcome
        (S.remaining input.old) (S.remaining input.new) (input.new ≡ input.old)
        (Appends (W.contents output.old) (W.contents output.new)) }
    ensures silent { ¬ (result ≡ 1) → ¬ (result ≡ 2) → errors.new ≡ errors.old }

    // 1 and 2: why not is told to `errors`.
    ensures refused { (result ≡ 1) ⊎ (result ≡ 2) → (refusal : Refusal)
        × (result ≡ status_of refusal)
        × HasRefused (map T.text words.now) refusal
        (S.remaining input.old) (S.remaining input.new) (input.new ≡ input.old)
        (Failed (S.failures input.old) (S.failures input.new))
        × IsRefused refusal (output.new ≡ output.old)
        (Failed (W.failures output.old) (W.failures output.new))
        (HasBegun (map T.text words.now)
        (S.remaining input.old) (S.remaining input.new) (input.new ≡ input.old)
        (W.contents output.old) (W.contents output.new))
        × TellsOnce (X.contents errors.old) (X.contents errors.new)
        (X.failures errors.old) (X.failures errors.new) (fault_line refusal) }
    ensures unwritten { (result ≡ 1) → (output.new ≡ output.old)
        ⊎ (Failed (W.failures output.old) (W.failures output.new)
        × HasBegun (map T.text words.now)
        (S.remaining input.old) (S.remaining input.new) (input.new ≡ input.old)
        (W.contents output.old) (W.contents output.new)) }
    ensures malformed { result ≡ 2 → output.new ≡ output.old }
    ensures option { HasUnknownOption (map T.text words.now)
        → (result ≡ 2) × (input.new ≡ input.old) }

    // The same of a replay in full.
    ensures replays { result ≡ 0 → AsksForReplay (map T.text words.now)
        → Replays (S.remaining input.old) (S.remaining input.new)
        (Appends (W.contents output.old) (W.contents output.new)) }
    ensures faulty { result ≡ 2 → AsksForReplay (map T.text words.now)
        → (fault : TextFault) × ReadsFaulty (S.remaining input.old) (S.remaining input.new) fault }
{
    match carry_out(rt, words, input, output) {
        Ok(outcome) => outcome.status(),
        Err(refusal) => tell_fault(refusal, errors),
    }
}
