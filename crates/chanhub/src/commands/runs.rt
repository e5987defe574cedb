//! `chanhub run [FILE] [--journal]`.

ghost use Rattle.std.specs.Prelude.{◌≡◌, ℕ, List, IfOk, IfErr, IsErrOf, IsSome, IsNone};
ghost use Rattle.std.specs.Io.KnownBytes.{Appends};
ghost use Rattle.hub_base.specs.Head.{AreOf, IsHead};
ghost use Rattle.hub_replay.specs.Devices.{Failed, AppendsBeginning};
ghost use Rattle.chanhub.specs.declared.outcome.Outcome.{Outcome};
ghost use Rattle.chanhub.specs.Promises.{RunsScenario, ReadsScenario, TakesScenario, IsRefused, RefusesRun, RefusesScenario, TellsStalls, printed};

use crate::files::read_file;
use crate::outcome::Outcome;
use crate::refusal::Refusal;
use hub_base::NoMemory;
use hub_core::write_short_journal;
use hub_replay::{Sink, Source, SourceFault, read_up_to, write_whole};
use hub_runner::{NoGate, Report, run_scenario, write_report};
use hub_scenario::{MOST_FILE_BYTES, read_scenario};
use std::alloc::Global;
use std::rt::Files;
use std::sync::Wait;
use std::thread::Threads;

/// The bytes of the scenario in this file, or on standard input.
fn scenario_bytes<R: Files, S: Source>(
    rt: &R,
    alloc: Global,
    file: Option<&str>,
    input: &mut S,
) -> Result<Vec<u8>, SourceFault>
    ensures taken { IfOk result (λ bytes.
        TakesScenario (S.remaining input.old) (S.remaining input.new)
        (input.new ≡ input.old) bytes.items) }
    ensures input { IsNone file.entry → IfOk result (λ bytes.
        ReadsScenario (S.remaining input.old) (S.remaining input.new) bytes.items) }
    ensures read { IsNone file.entry → IsErrOf result SourceFault.Read
        → Failed (S.failures input.old) (S.failures input.new) }
    ensures file { IsSome file.entry → input.new ≡ input.old }
{
    match file {
        Some(path) => read_file(rt, alloc, path, MOST_FILE_BYTES),
        None => read_up_to(alloc, input, MOST_FILE_BYTES),
    }
}

/// What is printed of a run.
fn text_of(alloc: Global, report: &Report, journal: bool) -> Result<Vec<u8>, NoMemory>
    requires head { IsHead report.now.journal.head }
    requires fits { AreOf report.now.journal.head.edition report.now.journal.entries }
    ensures { IfOk result (λ text. text.items ≡ printed journal report.now) }
{
    let mut text = Vec::new(alloc);
    if journal {
        write_short_journal(&mut text, &report.journal)?;
    } else {
        write_report(&mut text, report)?;
    }
    Ok(text)
}

/// Whether some call stalled in the run.
fn outcome_of(report: &Report) -> Outcome
    ensures { TellsStalls result report.now.stalled }
{
    if report.stalled > 0 {
        Outcome::Stalled
    } else {
        Outcome::Done
    }
}

/// Runs the scenario that these bytes say, and prints its journal or its report.
fn run_bytes<R: Threads + Wait + Sync, W: Sink>(
    rt: &R,
    alloc: Global,
    bytes: &[u8],
    journal: bool,
    output: &mut W,
) -> Result<Outcome, Refusal>
    ensures ok { IfOk result (λ outcome. RunsScenario bytes.now journal outcome
        (Appends (W.contents output.old) (W.contents output.new))) }

    ensures refused { IfErr result (λ refusal. IsRefused refusal (output.new ≡ output.old)
        (Failed (W.failures output.old) (W.failures output.new))
        ((outcome : Outcome) × RunsScenario bytes.now journal outcome
        (AppendsBeginning (W.contents output.old) (W.contents output.new)))) }
    ensures found { IfErr result (λ refusal. RefusesRun bytes.now refusal) }
{
    let scenario = read_scenario(alloc, bytes)?;
    let report = run_scenario(rt, alloc, &scenario, &NoGate)?;
    let text = text_of(alloc, &report, journal)?;
    write_whole(output, &text)?;
    Ok(outcome_of(&report))
}

/// Runs the scenario in this file, or on standard input, and prints its journal or its report.
pub(crate) fn run_from<R: Files + Threads + Wait + Sync, S: Source, W: Sink>(
    rt: &R,
    alloc: Global,
    file: Option<&str>,
    journal: bool,
    input: &mut S,
    output: &mut W,
) -> Result<Outcome, Refusal>
    ensures ok { IfOk result (λ outcome. (bytes : List ℕ)
        × TakesScenario (S.remaining input.old) (S.remaining input.new)
        (input.new ≡ input.old) bytes
        × RunsScenario bytes journal outcome
        (Appends (W.contents output.old) (W.contents output.new))) }

    ensures refused { IfErr result (λ refusal. IsRefused refusal (output.new ≡ output.old)
        (Failed (W.failures output.old) (W.failures output.new))
        ((outcome : Outcome) × (bytes : List ℕ)
        × TakesScenario (S.remaining input.old) (S.remaining input.new)
        (input.new ≡ input.old) bytes
        × RunsScenario bytes journal outcome
        (AppendsBeginning (W.contents output.old) (W.contents output.new)))) }
    ensures found { IfErr result (λ refusal. RefusesScenario
        (S.remaining input.old) (S.remaining input.new) (input.new ≡ input.old)
        (Failed (S.failures input.old) (S.failures input.new)) refusal) }
    ensures file { IsSome file.entry → input.new ≡ input.old }
{
    let bytes = scenario_bytes(rt, alloc, file, input)?;
    run_bytes(rt, alloc, &bytes, journal, output)
}
