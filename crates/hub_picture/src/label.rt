//! What stands in a box, and what its class says.

ghost use Rattle.hub_picture.specs.Reading.{IsPlain};

use crate::Asked;
use crate::frame::Scale;
use hub_base::{Case, Fault, Outcome, Pid, Port, Step, Value, What};
use hub_story::{Part, Told};

/// What an entry is, in a word.
#[derive(Clone, Copy)]
pub(crate) enum Label {
    /// It made this port.
    Make(Port),
    /// It sends on this port.
    Send(Port),
    /// It receives from this port.
    Receive(Port),
    /// It is a select of which no case fired.
    Select,
    /// It took its default.
    Default,
    /// It closes this port.
    Close(Port),
    /// The process ends.
    Exit,
    /// It cancels the call of this process.
    Cancel(Pid),
    /// It starts this process again.
    Start(Pid),
    /// It opens this port again.
    Reopen(Port),
    /// It was answered by this fault.
    Refused(Fault),
}

/// What an entry was told at last; `Parked` while it waits.
pub(crate) fn last_told(ended: Option<Told>) -> What {
    match ended {
        Some(end) => end.event.what,
        None => What::Parked,
    }
}

/// The only case.
fn only(cases: &[Case]) -> Option<Case> {
    match cases {
        [case] => Some(*case),
        _ => None,
    }
}

/// The label of a case; a select has none.
pub(crate) fn case_label(case: Option<Case>) -> Label {
    match case {
        Some(Case::Send(port, _value)) => Label::Send(port),
        Some(Case::Recv(port)) => Label::Receive(port),
        None => Label::Select,
    }
}

/// The label of a call.
fn call_label(cases: &[Case], what: What) -> Label {
    match what {
        What::Fired { case, .. } => case_label(cases.get(usize::from(case)).copied()),
        What::Default => Label::Default,
        _ => case_label(only(cases)),
    }
}

/// The label of a make.
fn make_label(what: What) -> Label {
    match what {
        What::Made(port) => Label::Make(port),
        _ => Label::Select,
    }
}

/// The label of a step that was told so at last.
fn step_label(step: &Step, what: What) -> Label {
    match step {
        Step::Make(_cap) => make_label(what),
        Step::Call { cases, .. } => call_label(cases.as_slice(), what),
        Step::Close(port) => Label::Close(*port),
        Step::Exit => Label::Exit,
        Step::Cancel(pid) => Label::Cancel(*pid),
        Step::Start(pid) => Label::Start(*pid),
        Step::Reopen { port, .. } => Label::Reopen(*port),
    }
}

/// The same, where a fault has its number.
fn answered_label(step: &Step, what: What) -> Label {
    match what {
        What::Fault(fault) => Label::Refused(fault),
        _ => step_label(step, what),
    }
}

/// The label of an entry.
pub(crate) fn label_of(asked: &Asked) -> Label {
    answered_label(&asked.entry.step, last_told(asked.ended))
}

/// The value that a case sends.
fn sent_value(case: Option<Case>) -> Option<Value> {
    match case {
        Some(Case::Send(_port, value)) => Some(value),
        _ => None,
    }
}

/// The value that a case moved.
fn outcome_value(case: Option<Case>, outcome: Outcome) -> Option<Value> {
    match outcome {
        Outcome::Sent => sent_value(case),
        Outcome::Got(value) => Some(value),
        Outcome::Drained | Outcome::Closed => None,
    }
}

/// The value that a step moved.
fn moved_value(step: &Step, what: What) -> Option<Value> {
    let Step::Call { cases, .. } = step else {
        return None;
    };
    match what {
        What::Fired { case, outcome } => {
            let case = cases.as_slice().get(usize::from(case)).copied();
            outcome_value(case, outcome)
        }
        _ => None,
    }
}

/// The value that an entry moved, where there is room for it.
pub(crate) fn shown_value(scale: Scale, asked: &Asked) -> Option<Value> {
    match scale {
        Scale::Wide => moved_value(&asked.entry.step, last_told(asked.ended)),
        Scale::Middle | Scale::Dense => None,
    }
}

/// What the class of an entry tells that it was told at last: a call of the clock that was woken is as good as done.
pub(crate) fn class_told(asked: &Asked) -> What {
    match (asked.part, last_told(asked.ended)) {
        (Part::OwnCall, What::Cancelled | What::Stalled) => What::Done,
        (_, what) => what,
    }
}

/// What the class of a case that fired says besides.
fn outcome_class(outcome: Outcome) -> &'static [u8]
    ensures { IsPlain result.now }
{
    match outcome {
        Outcome::Sent | Outcome::Got(_) => b"",
        Outcome::Drained => b" drained",
        Outcome::Closed => b" trouble",
    }
}

/// What the class of an entry says of its end.
pub(crate) fn end_class(what: What) -> &'static [u8]
    ensures { IsPlain result.now }
{
    match what {
        What::Fired { outcome, .. } => outcome_class(outcome),
        What::Parked => b" open",
        What::Stalled => b" trouble",
        What::Cancelled => b" cancelled",
        _ => b"",
    }
}
