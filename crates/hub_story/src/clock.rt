//! The clock of a journal: the process by which calls time out.

ghost use Rattle.std.specs.Prelude.{◌≡◌};
ghost use Rattle.hub_story.specs.Clock.{clock_of, is_made, is_nil_receive, is_of_kind, keeps_time, makes_first, makes_some};
ghost use Rattle.hub_story.specs.Clock.{is_step_of, steps_made};

use hub_base::{Case, EntryRef, Head, Pid, Step, StepRef};
use hub_core::{CaseRoom, ShortEntries};

/// The kinds of steps by which a clock is known. An exit is of none.
#[derive(Clone, Copy)]
enum Kind {
    /// A receive on port 0.
    NilReceive,
    /// A cancel.
    CancelStep,
    /// Any other step.
    Other,
}

/// Whether these cases are one receive on port 0.
fn is_nil_receive(cases: &[Case]) -> bool
    ensures { result ≡ is_nil_receive cases.now }
{
    match cases {
        [Case::Recv(port)] => port.0 == 0,
        _ => false,
    }
}

/// Whether the step is of this kind.
fn is_of_kind(kind: Kind, step: &StepRef<'_>) -> bool
    ensures { result ≡ is_of_kind kind step.now }
{
    match (kind, step) {
        (Kind::NilReceive, Step::Call { cases, default, .. }) => {
            !*default && is_nil_receive(cases.as_slice())
        }
        (Kind::CancelStep, Step::Cancel(_)) => true,
        (Kind::Other, Step::Make(_) | Step::Close(_) | Step::Start(_) | Step::Reopen { .. }) => {
            true
        }
        (Kind::Other, Step::Call { cases, default, .. }) => {
            *default || !is_nil_receive(cases.as_slice())
        }
        _ => false,
    }
}

/// Whether the entry is a step of this kind, of this process.
fn is_made(kind: Kind, pid: Pid, entry: &EntryRef<'_>) -> bool
    ensures { result ≡ is_made kind pid.0 entry.now }
{
    entry.pid.0 == pid.0 && is_of_kind(kind, &entry.step)
}

/// Whether the process makes such a step.
fn makes_some(kind: Kind, pid: Pid, entries: &ShortEntries) -> bool
    ensures { result ≡ makes_some kind pid.0 entries.now }
{
    let mut room = CaseRoom::new();
    for place in 0..entries.len() {
        if is_made(kind, pid, &entries.entry(place, &mut room)) {
            return true;
        }
    }
    false
}

/// Whether the process makes the first step.
fn makes_first(pid: Pid, entries: &ShortEntries) -> bool
    ensures { result ≡ makes_first pid.0 entries.now }
{
    match entries.pid_at(0) {
        Some(first) => first.0 == pid.0,
        None => false,
    }
}

/// Whether the entry is a step of this process, and no exit.
fn is_step_of(pid: Pid, entry: &EntryRef<'_>) -> bool
    ensures { result ≡ is_step_of pid.0 entry.now }
{
    entry.pid.0 == pid.0 && !entry.step.is_exit()
}

/// How many steps the process makes, its exit left aside.
fn steps_made(pid: Pid, entries: &ShortEntries) -> usize
    ensures { result ≡ steps_made pid.0 entries.now }
{
    let mut room = CaseRoom::new();
    let mut made = 0;
    for place in 0..entries.len() {
        if is_step_of(pid, &entries.entry(place, &mut room)) {
            made += 1;
        }
    }
    made
}

/// Whether the process does what a clock does.
fn keeps_time(pid: Pid, entries: &ShortEntries) -> bool
    ensures { result ≡ keeps_time pid.0 entries.now }
{
    makes_some(Kind::NilReceive, pid, entries)
        && !makes_some(Kind::Other, pid, entries)
        && (makes_first(pid, entries) || steps_made(pid, entries) > 1)
}

/// The clock of a journal with this head and these entries, if it has one: the process that waits on port 0 while no call has
/// a deadline, and cancels calls whose deadlines have passed.
pub fn clock_of(head: Head, entries: &ShortEntries) -> Option<Pid>
    ensures { result ≡ clock_of head entries.now }
{
    let last = Pid(head.procs.saturating_sub(1));
    if head.edition.has_cancel() && head.procs > 1 && keeps_time(last, entries) {
        Some(last)
    } else {
        None
    }
}
