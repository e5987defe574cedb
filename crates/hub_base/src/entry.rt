//! What a process asks of a hub.

ghost use Rattle.std.specs.Prelude.{◌≡◌, ◌≤◌, [], length};

use crate::{CASE_PLACES, Case, CaseSlice, Cases, Edition, Pid, Port};

/// One step of a process. `C` says how the cases of a call are held: a step of an entry has its own, and one that is only
/// passed on or looked at has a slice of them.
#[derive(Debug, Drop, PartialEq, Eq)]
pub enum Step<C = Cases> {
    /// Makes a port of this capacity, 0 for an unbuffered one. Above `MOST_CAP` the answer
    /// is `Fault::BadCap`.
    Make(u32),
    /// Sends or receives: one of the cases that can proceed fires, or the default is taken, or the
    /// call waits. A plain send or receive is a call of one case without default and with word 0.
    /// Go: "Select statements".
    Call {
        /// The communications, in order.
        cases: C,
        /// Whether there is a default.
        default: bool,
        /// Of `k` cases that can proceed, number `word mod k` fires, counted from 0 in case order.
        word: u64,
    },
    /// Closes a port. Go: "Close".
    Close(Port),
    /// Ends the process: no later step of it is admitted until it is started again.
    Exit,
    /// Ends the open call of this process with `What::Cancelled`. No value moves, and no port changes. No
    /// journal of the first edition has it. Without an open call the answer is `Fault::NotParked`.
    Cancel(Pid),
    /// Starts this process again, which has exited: it may make steps as at the opening. Only a journal of the
    /// third edition has it. Where the process has not exited the answer is `Fault::NotGone`.
    Start(Pid),
    /// Opens this port again, which is closed and drained. What was sent and received on it still counts. Only a
    /// journal of the third edition has it. Where the port is open or holds a value the answer is `Fault::InUse`, and
    /// `Fault::NilClose` for port 0.
    Reopen {
        /// The port.
        port: Port,
        /// Its capacity from then on. Above `MOST_CAP` the answer is `Fault::BadCap`.
        cap: u32,
    },
}

/// A step and the process that makes it.
#[derive(Debug, Drop, PartialEq, Eq)]
pub struct Entry<C = Cases> {
    /// Whose step it is.
    pub pid: Pid,
    /// The step.
    pub step: Step<C>,
}

/// A step whose cases lie elsewhere.
pub type StepRef<'a> = Step<CaseSlice<'a>>;

/// An entry whose cases lie elsewhere, as one is passed to a hub and looked at.
pub type EntryRef<'a> = Entry<CaseSlice<'a>>;

impl Entry {
    ghost use Rattle.std.specs.Prelude.{IsTrue};
    ghost use Rattle.hub_base.specs.Head.{is_of};
    ghost use Rattle.hub_base.specs.Text.{Fits};

    /// The same entry, whose cases stay where they are.
    #[inline(always)]
    pub fn by_slice(&self) -> EntryRef<'_>
        ensures { result ≡ self.now }
    {
        Entry {
            pid: self.pid,
            step: self.step.by_slice(),
        }
    }

    /// An equal entry. It takes no memory.
    pub fn copy(&self) -> Entry
        ensures { result ≡ self.now }
    {
        self.by_slice().to_owned()
    }

    /// Whether a journal of this edition can have the entry: one of the first edition has no cancel, and no value that
    /// is bytes, and only one of the third has a start or a reopen.
    pub fn fits(&self, edition: Edition) -> bool
        ensures is { result ≡ is_of edition self.now.step }
        ensures fits { IsTrue result → Fits edition self.now }
    {
        self.by_slice().fits(edition)
    }
}

impl EntryRef<'_> {
    ghost use Rattle.std.specs.Prelude.{IsTrue};
    ghost use Rattle.hub_base.specs.Head.{is_of};
    ghost use Rattle.hub_base.specs.Text.{Fits};

    /// The same entry, which has its cases itself. It takes no memory.
    pub fn to_owned(&self) -> Entry
        ensures { result ≡ self.now }
    {
        Entry {
            pid: self.pid,
            step: self.step.to_owned(),
        }
    }

    /// Whether a journal of this edition can have the entry, as `Entry::fits` says.
    pub fn fits(&self, edition: Edition) -> bool
        ensures is { result ≡ is_of edition self.now.step }
        ensures fits { IsTrue result → Fits edition self.now }
    {
        // Each number is read, since its type tells the greatest that it can be.
        let _pid = self.pid.0;
        match &self.step {
            Step::Make(cap) => {
                let _cap = *cap;
                true
            }
            Step::Call { cases, word, .. } => {
                let _word = *word;
                edition.has_cases(cases.as_slice())
            }
            Step::Close(port) => {
                let _port = port.0;
                true
            }
            Step::Exit => true,
            Step::Cancel(pid) => {
                let _pid = pid.0;
                edition.has_cancel()
            }
            Step::Start(pid) => {
                let _pid = pid.0;
                edition.has_lives()
            }
            Step::Reopen { port, cap } => {
                let _port = port.0;
                let _cap = *cap;
                edition.has_lives()
            }
        }
    }
}

impl<C> Step<C> {
    ghost use Rattle.hub_base.specs.Entry.{with_cases};

    /// The same step, with these cases if it is a call.
    #[inline(always)]
    pub fn with_cases<D: Drop>(&self, cases: D) -> Step<D>
        ensures { result ≡ with_cases self.now cases }
    {
        match self {
            Step::Make(cap) => Step::Make(*cap),
            Step::Call { default, word, .. } => Step::Call {
                cases,
                default: *default,
                word: *word,
            },
            Step::Close(port) => Step::Close(*port),
            Step::Exit => Step::Exit,
            Step::Cancel(pid) => Step::Cancel(*pid),
            Step::Start(pid) => Step::Start(*pid),
            Step::Reopen { port, cap } => Step::Reopen {
                port: *port,
                cap: *cap,
            },
        }
    }
}

impl Step {
    /// The same step, whose cases stay where they are.
    #[inline(always)]
    pub fn by_slice(&self) -> StepRef<'_>
        ensures { result ≡ self.now }
    {
        match self {
            Step::Call { cases, .. } => self.with_cases(CaseSlice::of(cases)),
            _ => self.with_cases(CaseSlice::few(&[])),
        }
    }
}

impl<'a> StepRef<'a> {
    ghost use Rattle.hub_base.specs.Reading.{is_exit};
    ghost use Rattle.hub_base.specs.Values.{cases_or};

    /// The same step, which has its cases itself. It takes no memory.
    pub fn to_owned(&self) -> Step
        ensures { result ≡ self.now }
    {
        match self {
            Step::Call { cases, .. } => self.with_cases(cases_from(cases.as_slice())),
            _ => self.with_cases(cases_from(&[])),
        }
    }

    /// Whether it ends its process. An exit counts towards no limit.
    #[inline(always)]
    pub fn is_exit(&self) -> bool
        ensures { result ≡ is_exit self.now }
    {
        matches!(self, Step::Exit)
    }

    /// The cases of a call; none where it is no call.
    #[inline(always)]
    pub fn cases(&self) -> &'a [Case]
        ensures cases { result.now ≡ cases_or self.now [] }
        ensures few { length result.now ≤ CASE_PLACES }
    {
        match self {
            Step::Call { cases, .. } => cases.as_slice(),
            _ => &[],
        }
    }
}

/// A call's list of these cases, in order. It takes no memory.
pub fn cases_from(cases: &[Case]) -> Cases
    requires { length cases.now ≤ CASE_PLACES }
    ensures { result.items ≡ cases.now }
{
    let mut list = Cases::new();
    match list.try_extend_from_slice(cases) {
        Ok(()) => list,
        Err(_full) => unreachable!(),
    }
}

/// Equal cases. It takes no memory.
pub fn copy_cases(cases: &Cases) -> Cases
    ensures { result ≡ cases.now }
{
    cases_from(cases.as_slice())
}
