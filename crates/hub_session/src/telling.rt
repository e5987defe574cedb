//! What is told to C.

ghost use Rattle.std.specs.Prelude.{◌≡◌, ℕ, Err, None, Ok};
ghost use Rattle.hub_base.specs.Content.Content.{Num};
ghost use Rattle.hub_base.specs.Value.{content, number_in};
ghost use Rattle.hub_session.specs.Structs.{told_as, value_told};
ghost use Rattle.hub_session.specs.Tells.{bad_call, bit_of, bits_of, call_next, came_told, case_next, clock_told, counts_told, diverged_told, fault_told, next_for, next_on, next_told, only_next, only_told, outcome_told, step_next, what_told};

use crate::structs::{
    BAD_CALL, CANCELLED, CLOSED, CountsC, DEFAULT, DIVERGED, DONE, DRAINED, FAULT, GOT, MADE,
    NO_CLOCK, NextC, PARKED, SENT, STALLED, STEP_CANCEL, STEP_CLOSE, STEP_EXIT, STEP_MAKE,
    STEP_RECV, STEP_REOPEN, STEP_SELECT, STEP_SELECT_DEFAULT, STEP_SEND, STEP_START, ToldC, ValueC,
};
use hub_base::{
    Case, Entry, Event, Fault, MOST_PROCS, MOST_VALUE_BYTES, Outcome, Pid, Port, Step, Value, What,
};
use hub_cut::Totals;

/// Says a number.
#[inline(always)]
fn say_number(number: u64, said: &mut ValueC)
    ensures { said.new ≡ told_as (Num number) }
{
    said.number = number;
    said.is_bytes = 0;
    said.length = 0;
    said.bytes = [0; MOST_VALUE_BYTES];
}

/// Says a value that is bytes.
#[inline(always)]
fn say_bytes(value: &Value, said: &mut ValueC)
    requires { number_in (content value.now) ≡ None }
    ensures { said.new ≡ value_told value.now }
{
    said.number = 0;
    said.is_bytes = 1;
    said.length = value.len();
    said.bytes = *value.padded_bytes();
}

/// Says a value.
#[inline(always)]
fn say_value(value: &Value, said: &mut ValueC)
    ensures { said.new ≡ value_told value.now }
{
    match value.as_num() {
        Some(number) => say_number(number, said),
        None => say_bytes(value, said),
    }
}

/// Tells this number, and nothing with it.
#[inline(always)]
fn tell_only(what: u8, told: &mut ToldC)
    ensures { told.new ≡ only_told what }
{
    told.what = what;
    told.fault = 0;
    told.index = 0;
    told.port = 0;
    say_number(0, &mut told.value);
    told.ended = 0;
    told.chapter = 0;
}

/// Tells a fault.
fn tell_fault(fault: u8, told: &mut ToldC)
    ensures { told.new ≡ fault_told fault }
{
    tell_only(FAULT, told);
    told.fault = fault;
}

/// Tells that what C asks for is not asked of a hub, or not of one of its edition.
pub fn tell_bad_call(told: &mut ToldC)
    ensures { told.new ≡ bad_call }
{
    tell_fault(BAD_CALL, told);
}

/// Tells the number of the step at which the hub diverged from the journal that it follows.
pub(crate) fn tell_diverged(step: u32, told: &mut ToldC)
    ensures { told.new ≡ diverged_told step }
{
    tell_fault(DIVERGED, told);
    told.value.number = step.into();
}

/// Tells that no answer waits, or that a step's turn has not come.
pub(crate) fn tell_nothing(told: &mut ToldC)
    ensures { told.new ≡ only_told 0 }
{
    tell_only(0, told);
}

/// The number of how a communication ended.
#[inline(always)]
fn number_of_outcome(outcome: &Outcome) -> u8
    ensures { (index : ℕ) → result ≡ (outcome_told index outcome.now).what }
{
    match outcome {
        Outcome::Sent => SENT,
        Outcome::Got(_) => GOT,
        Outcome::Drained => DRAINED,
        Outcome::Closed => CLOSED,
    }
}

/// The number of what is told.
#[inline(always)]
fn number_of(what: &What) -> u8
    ensures { result ≡ (what_told what.now).what }
{
    match what {
        What::Made(_) => MADE,
        What::Fired { case: _, outcome } => number_of_outcome(outcome),
        What::Default => DEFAULT,
        What::Done => DONE,
        What::Parked => PARKED,
        What::Stalled => STALLED,
        What::Fault(_) => FAULT,
        What::Cancelled => CANCELLED,
    }
}

/// Tells what a process is told.
pub(crate) fn tell_what(what: &What, told: &mut ToldC)
    ensures { told.new ≡ what_told what.now }
{
    tell_only(number_of(what), told);
    match what {
        What::Made(port) => told.port = port.0,
        What::Fired { case, outcome } => {
            told.index = *case;
            if let Outcome::Got(value) = outcome {
                say_value(value, &mut told.value);
            }
        }
        What::Fault(fault) => told.fault = fault.number(),
        _ => (),
    }
}

/// The bit of a process.
#[inline(always)]
pub(crate) fn bit_of(pid: Pid) -> u64
    ensures { result ≡ bit_of pid }
{
    if usize::from(pid.0) < MOST_PROCS {
        1 << pid.0
    } else {
        0
    }
}

/// The bits of these processes.
pub(crate) fn bits_of(pids: &[Pid]) -> u64
    ensures { result ≡ bits_of pids.now }
{
    let mut bits = 0;
    for pid in pids {
        bits |= bit_of(*pid);
    }
    bits
}

/// Tells the answer of a step that was made, whose calls it ended, and whether a chapter waits.
#[inline(always)]
pub(crate) fn tell_made(answer: &Event, ended: u64, chapter: bool, told: &mut ToldC)
    ensures { told.new ≡ came_told (Ok answer.now) ended chapter }
{
    tell_what(&answer.what, told);
    told.ended = ended;
    told.chapter = chapter.into();
}

/// Tells the fault that refused a step, and whether a chapter waits.
#[inline(always)]
pub(crate) fn tell_refused(fault: Fault, chapter: bool, told: &mut ToldC)
    ensures { told.new ≡ came_told (Err fault) 0 chapter }
{
    tell_fault(fault.number(), told);
    told.chapter = chapter.into();
}

/// What a step is, and nothing with it.
fn only_next(number: u32, what: u8) -> NextC
    ensures { result ≡ only_next number what }
{
    NextC {
        number,
        what,
        other: 0,
        port: 0,
    }
}

/// What a step on this port is.
fn next_on(number: u32, what: u8, port: Port) -> NextC
    ensures { result ≡ next_on number what port.0 }
{
    NextC {
        number,
        what,
        other: 0,
        port: port.0,
    }
}

/// What a step for this process is.
fn next_for(number: u32, what: u8, pid: Pid) -> NextC
    ensures { result ≡ next_for number what pid.0 }
{
    NextC {
        number,
        what,
        other: pid.0,
        port: 0,
    }
}

/// What a call of one case is.
fn case_next(number: u32, case: Case) -> NextC
    ensures { result ≡ case_next number case }
{
    match case {
        Case::Send(port, _value) => next_on(number, STEP_SEND, port),
        Case::Recv(port) => next_on(number, STEP_RECV, port),
    }
}

/// What a call is.
fn call_next(number: u32, cases: &[Case], default: bool) -> NextC
    ensures { result ≡ call_next number cases.now default }
{
    match cases {
        _ if default => only_next(number, STEP_SELECT_DEFAULT),
        [case] => case_next(number, *case),
        _ => only_next(number, STEP_SELECT),
    }
}

/// What the step of this number is.
fn step_next(number: u32, step: &Step) -> NextC
    ensures { result ≡ step_next number step.now }
{
    match step {
        Step::Make(_) => only_next(number, STEP_MAKE),
        Step::Call { cases, default, .. } => call_next(number, cases.as_slice(), *default),
        Step::Close(port) => next_on(number, STEP_CLOSE, *port),
        Step::Exit => only_next(number, STEP_EXIT),
        Step::Cancel(pid) => next_for(number, STEP_CANCEL, *pid),
        Step::Start(pid) => next_for(number, STEP_START, *pid),
        Step::Reopen { port, .. } => next_on(number, STEP_REOPEN, *port),
    }
}

/// What is told of a process's next step of the journal and its number: all is 0 where there is none.
pub fn next_told(next: Option<(u32, Entry)>) -> NextC
    ensures { result ≡ next_told next }
{
    match next {
        Some((number, entry)) => step_next(number, &entry.step),
        None => only_next(0, 0),
    }
}

/// The number of a journal's clock.
pub(crate) fn clock_told(clock: Option<Pid>) -> u8
    ensures { result ≡ clock_told clock }
{
    match clock {
        Some(clock) => clock.0,
        None => NO_CLOCK,
    }
}

/// What a look shows: all is 0 where there is no such port.
pub fn counts_told(look: Option<Totals>) -> CountsC
    ensures { result ≡ counts_told look }
{
    match look {
        Some(look) => CountsC {
            made: true,
            closed: look.closed,
            cap: look.cap,
            sent: look.sent,
            received: look.received,
        },
        None => CountsC {
            made: false,
            closed: false,
            cap: 0,
            sent: 0,
            received: 0,
        },
    }
}
