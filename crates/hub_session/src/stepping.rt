//! The steps, and the answers that wait. Each step stands in a function of its own that is not inlined: a function pays
//! at entry for the size of its locals, and a call of many cases has room for them.

ghost use Rattle.std.specs.Prelude.{◌≡◌, ◌≤◌, ◌∷◌, [], Some, false, length, true};
ghost use Rattle.std.specs.List.{list_all};
ghost use Rattle.hub_base.specs.Head.{has_case, is_of};
ghost use Rattle.hub_base.specs.Lines.{by};
ghost use Rattle.hub_base.specs.Notation.{recv, select, send};
ghost use Rattle.hub_base.specs.declared.case.Case.TheVariants.{Send};
ghost use Rattle.hub_base.specs.declared.limits.TheConstants.{CASE_PLACES};
ghost use Rattle.hub_cut.specs.Recorder.{head_of_all};
ghost use Rattle.hub_session.specs.Hubs.{head_in};
ghost use Rattle.hub_session.specs.declared.session.Opened.TheVariants.{Endless};
ghost use Rattle.hub_session.specs.Steps.{Serves, ServesIn, ServesOpened, StepsIn, StepsSaid, TakesHub, TakesIn, held};
ghost use Rattle.hub_session.specs.Structs.{call_of, is_true, send_of, value_in};
ghost use Rattle.hub_session.specs.Tells.{bits_of};

use crate::asking::{bytes_value, case_in, is_case, is_true, is_value, take_cases};
use crate::following::step_following;
use crate::session::{Opened, Session};
use crate::structs::{CaseC, ToldC, ValueC};
use crate::telling::{bits_of, tell_bad_call, tell_made, tell_nothing, tell_refused, tell_what};
use hub_base::{
    CASE_PLACES, Case, CaseSlice, Entry, EntryRef, Event, Fault, Pid, Port, Step, StepRef, Value,
};
use hub_core::ShortHub;
use hub_live::under_lock::Locked;
use hub_served::EndlessHub;

/// How many places there are for a call of few cases.
const FEW_CASES: usize = 4;

/// The entry of a process that makes this step.
#[inline(always)]
fn entry_by(pid: u8, step: StepRef<'_>) -> EntryRef<'_>
    ensures { result ≡ by pid step.entry }
{
    Entry {
        pid: Pid(pid),
        step,
    }
}

/// The bits of the processes whose calls the last step ended. Mostly it ended none, and then their list is not copied.
#[inline(always)]
pub(crate) fn bits_ended(hub: &Locked) -> u64
    ensures { result ≡ bits_of hub.now.ended }
{
    if hub.has_ended() {
        bits_of(hub.ended().as_slice())
    } else {
        0
    }
}

/// The same of a hub that never ends.
#[inline(always)]
fn bits_ended_in_all(hub: &EndlessHub) -> u64
    ensures { result ≡ bits_of hub.now.ended }
{
    if hub.has_ended() {
        bits_of(hub.ended().as_slice())
    } else {
        0
    }
}

/// Lets the chapter go that the hub no longer keeps, where chapters are not handed out. Mostly there is none.
#[inline(always)]
pub(crate) fn hold(out: &mut Option<ShortHub>, hands_out: bool)
    ensures { out.new ≡ held hands_out out.old }
{
    if !hands_out && out.is_some() {
        *out = None;
    }
}

/// Makes a step of a hub that never ends, and tells what it came to. While a chapter waits to be read, no other can follow
/// it: a step that would hand one out is refused for want of memory.
#[inline(always)]
fn step_endless(
    hub: &mut EndlessHub,
    out: &mut Option<ShortHub>,
    hands_out: bool,
    entry: &EntryRef<'_>,
    told: &mut ToldC,
)
    requires fits { is_of (head_of_all hub.old.recorder).edition entry.now.step ≡ true }
    ensures { Serves hands_out (Endless hub.old) out.old entry.now (Endless hub.new) out.new told.new }
{
    if out.is_some() && hub.begins(&entry.step) {
        tell_refused(Fault::NoMemory, true, told);
        return;
    }
    match hub.step(entry, out) {
        Ok(()) => {
            hold(out, hands_out);
            tell_made(hub.answer(), bits_ended_in_all(hub), out.is_some(), told);
        }
        Err(fault) => tell_refused(fault, out.is_some(), told),
    }
}

impl Opened {
    /// Makes a step, which the hub's edition has, and tells what it came to.
    #[inline(always)]
    fn step(
        &mut self,
        out: &mut Option<ShortHub>,
        hands_out: bool,
        entry: &EntryRef<'_>,
        told: &mut ToldC,
    )
        requires fits { is_of (head_in self.old).edition entry.now.step ≡ true }
        ensures { ServesOpened hands_out self.old out.old entry.now self.new out.new told.new }
    {
        match self {
            Opened::Limited(hub) => match hub.step(entry) {
                Ok(()) => tell_made(hub.answer(), bits_ended(hub), out.is_some(), told),
                Err(fault) => tell_refused(fault, out.is_some(), told),
            },
            Opened::Endless(hub) => step_endless(hub, out, hands_out, entry, told),
            Opened::Following(hub) => step_following(hub, entry, told),
        }
    }

    /// Takes out the answer that waits for a process.
    fn take(&mut self, pid: u8) -> Option<Event>
        ensures { TakesHub self.old pid self.new result }
    {
        match self {
            Opened::Limited(locked) => locked.take(Pid(pid)),
            Opened::Endless(hub) => hub.take(Pid(pid)),
            Opened::Following(hub) => hub.take(Pid(pid)),
        }
    }
}

impl Session {
    /// Makes a step that the hub's edition has.
    #[inline(always)]
    fn serve(&mut self, entry: &EntryRef<'_>, told: &mut ToldC)
        requires fits { is_of (head_in self.old.hub).edition entry.now.step ≡ true }
        ensures { ServesIn self.old entry.now self.new told.new }
    {
        self.hub
            .step(&mut self.chapter, self.hands_out, entry, told);
    }

    /// Makes a step, where the hub's edition has it.
    #[inline(always)]
    fn step(&mut self, entry: &EntryRef<'_>, told: &mut ToldC)
        ensures { StepsIn self.old entry.now self.new told.new }
    {
        if entry.fits(self.hub.head().edition) {
            self.serve(entry, told);
        } else {
            tell_bad_call(told);
        }
    }

    /// Makes a call of one case, which the hub's edition has.
    #[inline(always)]
    fn call_case(&mut self, pid: u8, case: &Case, default: bool, word: u64, told: &mut ToldC)
        requires fits { has_case (head_in self.old.hub).edition case.now ≡ true }
        ensures { ServesIn self.old (select pid word (case.now ∷ []) default) self.new told.new }
    {
        let step = Step::Call {
            cases: CaseSlice::one(case),
            default,
            word,
        };
        self.serve(&entry_by(pid, step), told);
    }

    /// The same, where the hub's edition has it.
    #[inline(always)]
    fn call_any(&mut self, pid: u8, case: &Case, default: bool, word: u64, told: &mut ToldC)
        ensures { StepsIn self.old (select pid word (case.now ∷ []) default) self.new told.new }
    {
        if case.fits(self.hub.head().edition) {
            self.call_case(pid, case, default, word, told);
        } else {
            tell_bad_call(told);
        }
    }

    /// Makes a call of one case.
    #[inline(never)]
    fn call_one(&mut self, pid: u8, case: &CaseC, default: u8, word: u64, told: &mut ToldC)
        ensures { StepsSaid self.old (call_of pid (case.now ∷ []) default word) self.new told.new }
    {
        if is_case(case) {
            self.call_any(pid, &case_in(case), is_true(default), word, told);
        } else {
            tell_bad_call(told);
        }
    }

    /// Makes a call of these cases, which the hub's edition has.
    #[inline(always)]
    fn serve_call(&mut self, pid: u8, cases: &[Case], default: u8, word: u64, told: &mut ToldC)
        requires few { length cases.now ≤ CASE_PLACES }
        requires fits { list_all (has_case (head_in self.old.hub).edition) cases.now ≡ true }
        ensures { ServesIn self.old (select pid word cases.now (is_true default)) self.new told.new }
    {
        let step = Step::Call {
            cases: CaseSlice::few(cases),
            default: is_true(default),
            word,
        };
        self.serve(&entry_by(pid, step), told);
    }

    /// Makes a call of so many cases at most. Each place that there is has to be filled first, so a call of few is given few.
    #[inline(never)]
    fn call_within<const PLACES: usize>(
        &mut self,
        pid: u8,
        cases: &[CaseC],
        default: u8,
        word: u64,
        told: &mut ToldC,
    )
        requires few { length cases.now ≤ PLACES }
        requires within { PLACES ≤ CASE_PLACES }
        ensures { StepsSaid self.old (call_of pid cases.now default word) self.new told.new }
    {
        let mut places = [Case::default(); PLACES];
        if !take_cases(self.hub.head().edition, cases, &mut places) {
            tell_bad_call(told);
            return;
        }
        self.serve_call(pid, &places[..cases.len()], default, word, told);
    }

    /// Makes a call of these cases, with a default unless `default` is 0. It is told as a bad call, and nothing is done, if they are
    /// more than `CASE_PLACES`, or if one is no case or not one of the hub's edition.
    pub fn call(&mut self, pid: u8, cases: &[CaseC], default: u8, word: u64, told: &mut ToldC)
        ensures { StepsSaid self.old (call_of pid cases.now default word) self.new told.new }
    {
        match cases {
            [case] => self.call_one(pid, case, default, word, told),
            _ if cases.len() <= FEW_CASES => {
                self.call_within::<FEW_CASES>(pid, cases, default, word, told);
            }
            _ if cases.len() <= CASE_PLACES => {
                self.call_within::<CASE_PLACES>(pid, cases, default, word, told);
            }
            _ => tell_bad_call(told),
        }
    }

    /// Sends a number on a port, which every edition has.
    #[inline(never)]
    fn send_number(&mut self, pid: u8, port: u16, number: u64, told: &mut ToldC)
        ensures { StepsIn self.old (send pid port number) self.new told.new }
    {
        let case = Case::Send(Port(port), Value::num(number));
        self.call_case(pid, &case, false, 0, told);
    }

    /// Sends bytes on a port.
    #[inline(never)]
    fn send_bytes(&mut self, pid: u8, port: u16, value: &ValueC, told: &mut ToldC)
        requires { is_true value.now.is_bytes ≡ true }
        ensures { StepsIn self.old (select pid 0 (Send (record { 0 = port }) (value_in value.now) ∷ []) false) self.new told.new }
    {
        let case = Case::Send(Port(port), bytes_value(value));
        self.call_any(pid, &case, false, 0, told);
    }

    /// Sends a value on a port. It is told as a bad call, and nothing is done, if its bytes are more than `MOST_VALUE_BYTES`, or if
    /// the hub's edition has none.
    pub fn send(&mut self, pid: u8, port: u16, value: &ValueC, told: &mut ToldC)
        ensures { StepsSaid self.old (send_of pid port value.now) self.new told.new }
    {
        if !is_value(value) {
            tell_bad_call(told);
        } else if is_true(value.is_bytes) {
            self.send_bytes(pid, port, value, told);
        } else {
            self.send_number(pid, port, value.number, told);
        }
    }

    /// Receives from a port, which every edition has.
    #[inline(never)]
    pub fn receive(&mut self, pid: u8, port: u16, told: &mut ToldC)
        ensures { StepsIn self.old (recv pid port) self.new told.new }
    {
        self.call_case(pid, &Case::Recv(Port(port)), false, 0, told);
    }

    /// Makes a step. It is told as a bad call, and nothing is done, if the hub's edition has no such step.
    #[inline(never)]
    pub fn plain(&mut self, pid: u8, step: StepRef<'_>, told: &mut ToldC)
        ensures { StepsIn self.old (by pid step.entry) self.new told.new }
    {
        self.step(&entry_by(pid, step), told);
    }

    /// Takes out the answer that waits for a process, and tells it; 0 where none waits.
    pub fn take(&mut self, pid: u8, told: &mut ToldC)
        ensures { TakesIn pid self.old self.new told.new }
    {
        match self.hub.take(pid) {
            Some(answer) => tell_what(&answer.what, told),
            None => tell_nothing(told),
        }
    }
}
