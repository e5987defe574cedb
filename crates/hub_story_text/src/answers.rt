//! What a step was told, in the words of events.

ghost use Rattle.std.specs.Prelude.{◌≡◌, ◌++◌, codes, decimal, OnOk};
ghost use Rattle.hub_base.specs.Value.{value_field};
ghost use Rattle.hub_story_text.specs.AnswerText.{answer_words, case_name, ended_words, fault_words, fired_name, outcome_words};

use crate::numbers::put_number;
use hub_base::{Case, Fault, NoMemory, Outcome, Value, What};
use hub_story::Part;
use hub_text::write_value;
use std::alloc::AllocError;

/// Appends a case without its value.
fn put_case_name(out: &mut Vec<u8>, case: Case) -> Result<(), AllocError>
    ensures { OnOk result (out.new.items ≡ out.old.items ++ case_name case) }
{
    match case {
        Case::Send(port, _) => put_number(out, b"s", port.0.into()),
        Case::Recv(port) => put_number(out, b"r", port.0.into()),
    }
}

/// Appends which case fired, where there was a choice.
fn put_fired_name(out: &mut Vec<u8>, cases: &[Case], fired: u8) -> Result<(), AllocError>
    ensures { OnOk result (out.new.items ≡ out.old.items ++ fired_name cases.now fired) }
{
    if cases.len() == 1 {
        return Ok(());
    }
    let Some(case) = cases.get(usize::from(fired)) else {
        return Ok(());
    };
    put_case_name(out, *case)?;
    out.extend_from_slice(b" ")
}

/// Appends these words.
fn put_words(out: &mut Vec<u8>, words: &[u8]) -> Result<(), NoMemory>
    ensures { OnOk result (out.new.items ≡ out.old.items ++ words.now) }
{
    Ok(out.extend_from_slice(words)?)
}

/// Appends a number behind these words.
fn put_counted(out: &mut Vec<u8>, words: &[u8], number: u64) -> Result<(), NoMemory>
    ensures { OnOk result (out.new.items ≡ out.old.items ++ words.now ++ decimal number) }
{
    Ok(put_number(out, words, number)?)
}

/// Appends a value that was received.
fn put_got(out: &mut Vec<u8>, value: Value) -> Result<(), NoMemory>
    ensures { OnOk result (out.new.items ≡ out.old.items ++ codes "got " ++ value_field value) }
{
    put_words(out, b"got ")?;
    write_value(out, &value)
}

/// Appends how a communication ended.
fn put_outcome(out: &mut Vec<u8>, outcome: Outcome) -> Result<(), NoMemory>
    ensures { OnOk result (out.new.items ≡ out.old.items ++ outcome_words outcome) }
{
    match outcome {
        Outcome::Sent => put_words(out, b"sent"),
        Outcome::Got(value) => put_got(out, value),
        Outcome::Drained => put_words(out, b"drained"),
        Outcome::Closed => put_words(out, b"closed"),
    }
}

/// Appends which case fired, and how it ended.
fn put_fired(out: &mut Vec<u8>, cases: &[Case], fired: u8, outcome: Outcome) -> Result<(), NoMemory>
    ensures { OnOk result (
        out.new.items ≡ out.old.items ++ fired_name cases.now fired ++ outcome_words outcome) }
{
    put_fired_name(out, cases, fired)?;
    put_outcome(out, outcome)
}

/// Appends what a step of these cases was told.
pub(crate) fn put_answer(out: &mut Vec<u8>, cases: &[Case], what: What) -> Result<(), NoMemory>
    ensures { OnOk result (out.new.items ≡ out.old.items ++ answer_words cases.now what) }
{
    match what {
        What::Made(port) => put_counted(out, b"made ", port.0.into()),
        What::Fired { case, outcome } => put_fired(out, cases, case, outcome),
        What::Default => put_words(out, b"default"),
        What::Done => put_words(out, b"done"),
        What::Parked => put_words(out, b"waits"),
        What::Stalled => put_words(out, b"stalled"),
        What::Fault(fault) => put_counted(out, b"fault ", fault.number().into()),
        What::Cancelled => put_words(out, b"cancelled"),
    }
}

/// Appends what a step of these cases was told that has ended.
pub(crate) fn put_ended(
    out: &mut Vec<u8>,
    part: Part,
    cases: &[Case],
    what: What,
) -> Result<(), NoMemory>
    ensures { OnOk result (out.new.items ≡ out.old.items ++ ended_words part cases.now what) }
{
    match (part, what) {
        (Part::OwnCall, What::Cancelled | What::Stalled) => put_words(out, b"woken"),
        (Part::OwnStep, What::Cancelled) => put_words(out, b"timed out"),
        _ => put_answer(out, cases, what),
    }
}

/// Why a step had no effect, in words.
pub(crate) fn fault_words(fault: Fault) -> &'static [u8]
    ensures { result.now ≡ fault_words fault }
{
    match fault {
        Fault::NoProcess => b"no such process",
        Fault::Gone => b"the process has exited",
        Fault::Busy => b"the process still waits in a call",
        Fault::TooManyCases => b"too many cases",
        Fault::NoPort => b"no such port",
        Fault::BadCap => b"the capacity is too large",
        Fault::TooManyPorts => b"too many ports",
        Fault::NilClose => b"close of the nil port",
        Fault::AlreadyClosed => b"close of a closed port",
        Fault::JournalFull => b"the journal is full",
        Fault::NoMemory => b"out of memory",
        Fault::NotParked => b"that process does not wait",
        Fault::InUse => b"the port is in use",
        Fault::NotGone => b"that process has not exited",
    }
}
