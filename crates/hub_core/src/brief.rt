//! What is kept of an entry in 16 bytes, and how it is written out.

ghost use Rattle.std.specs.Prelude.{◌≡◌, ◌≤◌, ◌<◌, ◌+◌, ◌^◌, ◌++◌, ◌∷◌, [], false, IfSome, IsOk, OnErr, OnOk, drop, length, slice_get, take, vec_len};
ghost use Rattle.std.specs.Vec.{vec_capacity};
ghost use Rattle.hub_base.specs.declared.limits.TheConstants.{CASE_PLACES};
ghost use Rattle.hub_base.specs.Lines.{by, call};
ghost use Rattle.hub_base.specs.Values.{cases_at};
ghost use Rattle.hub_laws.specs.Once.{is_call};
ghost use Rattle.hub_core.specs.CaseListView.{HasCaseRoom};
ghost use Rattle.hub_core.specs.LogView.{AreBriefs, IsBriefOf, IsWhole, StandFrom};
ghost use Rattle.hub_core.specs.LogView.{case_count, cases_beside, cases_of, entry_of, first_of, own_of, written};

use crate::CaseRoom;
use crate::case_list::CaseList;
use hub_base::{Case, CaseSlice, Entry, EntryRef, Pid, Port, Step, StepRef, Value};
use std::alloc::AllocError;
use std::mem::size_of;

/// An entry without a list of cases.
///
/// A call of one case with which no choice goes is kept whole, unless it sends bytes. The cases of any other call stand in
/// a list beside.
#[derive(Clone, Copy)]
pub(crate) enum Brief {
    /// A call that sends a number.
    Send {
        pid: Pid,
        port: Port,
        number: u64,
    },
    /// A call that receives.
    Recv {
        pid: Pid,
        port: Port,
    },
    /// Any other call.
    Call {
        pid: Pid,
        default: bool,
        /// How many cases it has.
        count: u8,
        /// Where they begin among those of all entries that are kept short.
        first: u32,
        word: u64,
    },
    Make {
        pid: Pid,
        cap: u32,
    },
    Close {
        pid: Pid,
        port: Port,
    },
    Exit {
        pid: Pid,
    },
    Cancel {
        pid: Pid,
        other: Pid,
    },
    Start {
        pid: Pid,
        other: Pid,
    },
    Reopen {
        pid: Pid,
        port: Port,
        cap: u32,
    },
}

const _: () = prove!(size_of::<Brief>() == 16);

const _: () = prove!(size_of::<Entry>() == 648);

/// What is kept of a call with this case alone, no default and word 0, where that is all of it.
fn brief_of_one(pid: Pid, case: Case) -> Option<Brief>
    ensures { IfSome result (IsWhole (by pid.0 (call (case ∷ []) false 0))) }
{
    match case {
        Case::Recv(port) => Some(Brief::Recv { pid, port }),
        Case::Send(port, value) => match value.as_num() {
            Some(number) => Some(Brief::Send { pid, port, number }),
            None => None,
        },
    }
}

/// What is kept of a call, where that is all of it.
#[inline(always)]
fn brief_of_all(pid: Pid, cases: &[Case], default: bool, word: u64) -> Option<Brief>
    ensures { IfSome result (IsWhole (by pid.0 (call cases.now default word))) }
{
    if cases.len() == 1 && !default && word == 0 {
        brief_of_one(pid, cases[0])
    } else {
        None
    }
}

/// What is kept of a plain send or receive, where that is all of it; `None` of any other entry.
#[inline(always)]
pub(crate) fn brief_of_plain(entry: &EntryRef<'_>) -> Option<Brief>
    ensures { IfSome result (IsWhole entry.now) }
{
    match entry.step {
        Step::Call {
            ref cases,
            default,
            word,
        } => brief_of_all(entry.pid, cases.as_slice(), default, word),
        _ => None,
    }
}

/// What is kept of a call whose cases, where they are not kept with it, begin there.
fn brief_of_call(pid: Pid, cases: &[Case], default: bool, word: u64, first: u32) -> Brief
    requires { length cases.now ≤ CASE_PLACES }
    ensures { IsBriefOf (by pid.0 (call cases.now default word)) first result }
{
    match brief_of_all(pid, cases, default, word) {
        Some(brief) => brief,
        None => Brief::Call {
            pid,
            default,
            count: cases.len() as u8,
            first,
            word,
        },
    }
}

/// What is kept of an entry whose cases, where they are not kept with it, begin there.
fn brief_of(entry: &EntryRef<'_>, first: u32) -> Brief
    ensures { IsBriefOf entry.now first result }
{
    let pid = entry.pid;
    match entry.step {
        Step::Make(cap) => Brief::Make { pid, cap },
        Step::Call {
            ref cases,
            default,
            word,
        } => brief_of_call(pid, cases.as_slice(), default, word, first),
        Step::Close(port) => Brief::Close { pid, port },
        Step::Exit => Brief::Exit { pid },
        Step::Cancel(other) => Brief::Cancel { pid, other },
        Step::Start(other) => Brief::Start { pid, other },
        Step::Reopen { port, cap } => Brief::Reopen { pid, port, cap },
    }
}

/// The cases of the entry that are not kept with this, which is kept of it.
fn cases_beside<'a>(entry: &EntryRef<'a>, brief: Brief) -> &'a [Case]
    ensures cases { result.now ≡ cases_beside entry.now brief }
    ensures few { length result.now ≤ CASE_PLACES }
{
    match brief {
        Brief::Call { .. } => entry.step.cases(),
        _ => &[],
    }
}

/// Keeps an entry, for which there is a place, and its cases, where they are not kept with it. An `Err` is memory, or 2^32 cases
/// that stand there.
#[inline(always)]
pub(crate) fn keep(
    briefs: &mut Vec<Brief>,
    cases: &mut CaseList,
    entry: &EntryRef<'_>,
) -> Result<(), AllocError>
    requires briefs { AreBriefs briefs.old.items cases.old.items }
    requires begin { StandFrom 0 briefs.old.items }
    requires place { vec_len briefs.old < vec_capacity briefs.old }
    ensures briefs { AreBriefs briefs.new.items cases.new.items }
    ensures begin { StandFrom 0 briefs.new.items }
    ensures ok { OnOk result (written briefs.new.items cases.new.items
        ≡ written briefs.old.items cases.old.items ++ entry.now ∷ []) }
    ensures one_more { OnOk result (length briefs.new.items ≡ length briefs.old.items + 1) }
    ensures err { OnErr result (
        (briefs.new.items ≡ briefs.old.items) × (cases.new.items ≡ cases.old.items)) }
    ensures succeeds { length cases.old.items < 2 ^ 32
        → HasCaseRoom cases.old (length (cases_of entry.now)) → IsOk result }
{
    let Ok(first) = u32::try_from(cases.len()) else {
        return Err(AllocError);
    };
    let brief = brief_of(entry, first);
    cases.append(cases_beside(entry, brief))?;
    briefs.push_reserved(brief);
    Ok(())
}

/// A step of this process.
#[inline(always)]
fn entry_by(pid: Pid, step: StepRef<'_>) -> EntryRef<'_>
    ensures { result ≡ by pid.0 step.entry }
{
    Entry { pid, step }
}

/// A call of this case alone, which is put in the room for it.
fn call_of_one(pid: Pid, case: Case, room: &mut CaseRoom) -> EntryRef<'_>
    ensures { result ≡ by pid.0 (call (case ∷ []) false 0) }
{
    room.places[0] = case;
    let step = Step::Call {
        cases: CaseSlice::one(&room.places[0]),
        default: false,
        word: 0,
    };
    entry_by(pid, step)
}

impl Brief {
    /// Where the cases that are not kept with it begin among those of all entries.
    fn first(self) -> usize
        ensures { result ≡ first_of self }
    {
        match self {
            Brief::Call { first, .. } => first as usize,
            _ => 0,
        }
    }

    /// How many cases are not kept with it.
    fn count(self) -> usize
        ensures { result ≡ case_count self }
    {
        match self {
            Brief::Call { count, .. } => usize::from(count),
            _ => 0,
        }
    }

    /// The process of its entry, whatever its cases are.
    pub(crate) fn pid(self) -> Pid
        ensures { result ≡ (entry_of self []).pid }
    {
        match self {
            Brief::Send { pid, .. } => pid,
            Brief::Recv { pid, .. } => pid,
            Brief::Call { pid, .. } => pid,
            Brief::Make { pid, .. } => pid,
            Brief::Close { pid, .. } => pid,
            Brief::Exit { pid } => pid,
            Brief::Cancel { pid, .. } => pid,
            Brief::Start { pid, .. } => pid,
            Brief::Reopen { pid, .. } => pid,
        }
    }

    /// Whether its entry is a call, whatever its cases are.
    pub(crate) fn is_call(self) -> bool
        ensures { result ≡ is_call (entry_of self []).step }
    {
        match self {
            Brief::Send { .. } | Brief::Recv { .. } | Brief::Call { .. } => true,
            Brief::Make { .. }
            | Brief::Close { .. }
            | Brief::Exit { .. }
            | Brief::Cancel { .. }
            | Brief::Start { .. }
            | Brief::Reopen { .. } => false,
        }
    }

    /// The case of this number of its entry, if it has one; `cases` are those of all entries. No entry is made for it.
    fn case(self, cases: &CaseList, number: u8) -> Option<Case>
        requires { first_of self + case_count self ≤ length cases.now.items }
        ensures { result ≡ slice_get (cases_of (entry_of self (own_of self cases.now.items))) number }
    {
        match self {
            Brief::Send {
                port,
                number: sent,
                ..
            } if number == 0 => Some(Case::Send(port, Value::num(sent))),
            Brief::Recv { port, .. } if number == 0 => Some(Case::Recv(port)),
            Brief::Call { count, first, .. } if number < count => {
                cases.get(first as usize + usize::from(number))
            }
            _ => None,
        }
    }

    /// Its entry, whose cases are put in the room for them. Where they are not kept with it, they begin there among those of all
    /// entries.
    #[inline(always)]
    fn by_slice<'a>(self, cases: &CaseList, first: usize, room: &'a mut CaseRoom) -> EntryRef<'a>
        requires there { first + case_count self ≤ length cases.now.items }
        requires few { case_count self ≤ CASE_PLACES }
        ensures { result ≡ entry_of self (take (case_count self) (drop first cases.now.items)) }
    {
        match self {
            Brief::Send { pid, port, number } => {
                call_of_one(pid, Case::Send(port, Value::num(number)), room)
            }
            Brief::Recv { pid, port } => call_of_one(pid, Case::Recv(port), room),
            Brief::Call {
                pid,
                default,
                count,
                word,
                ..
            } => {
                let count = usize::from(count);
                cases.copy_to(first, count, &mut room.places);
                let cases = CaseSlice::few(&room.places[..count]);
                entry_by(
                    pid,
                    Step::Call {
                        cases,
                        default,
                        word,
                    },
                )
            }
            Brief::Make { pid, cap } => entry_by(pid, Step::Make(cap)),
            Brief::Close { pid, port } => entry_by(pid, Step::Close(port)),
            Brief::Exit { pid } => entry_by(pid, Step::Exit),
            Brief::Cancel { pid, other } => entry_by(pid, Step::Cancel(other)),
            Brief::Start { pid, other } => entry_by(pid, Step::Start(other)),
            Brief::Reopen { pid, port, cap } => entry_by(pid, Step::Reopen { port, cap }),
        }
    }

    /// Its entry, written out. Its cases, where they are not kept with it, begin there.
    fn entry(self, cases: &CaseList, first: usize) -> Entry
        requires there { first + case_count self ≤ length cases.now.items }
        requires few { case_count self ≤ CASE_PLACES }
        ensures { result ≡ entry_of self (take (case_count self) (drop first cases.now.items)) }
    {
        let mut room = CaseRoom::new();
        self.by_slice(cases, first, &mut room).to_owned()
    }
}

/// Writes entries out that are kept short.
pub(crate) fn write_out(whole: &mut Vec<Entry>, briefs: &[Brief], cases: &CaseList)
    requires briefs { AreBriefs briefs.now cases.now.items }
    requires room { vec_len whole.old + length briefs.now ≤ vec_capacity whole.old }
    ensures items { whole.new.items ≡ whole.old.items ++ written briefs.now cases.now.items }
    ensures capacity { vec_capacity whole.new ≡ vec_capacity whole.old }
{
    // This number is read, since its type tells how far the next one can go.
    let _all = cases.len();
    let mut at = 0;
    for brief in briefs {
        whole.push_reserved(brief.entry(cases, at));
        at += brief.count();
    }
}

/// The entry at this place of those that are kept short, whose cases are put in the room for them; `None` behind the last.
#[inline(always)]
pub(crate) fn short_at<'a>(
    briefs: &[Brief],
    cases: &CaseList,
    place: usize,
    room: &'a mut CaseRoom,
) -> Option<EntryRef<'a>>
    requires briefs { AreBriefs briefs.now cases.now.items }
    requires begin { StandFrom 0 briefs.now }
    ensures { result ≡ slice_get (written briefs.now cases.now.items) place }
{
    let Some(brief) = briefs.get(place) else {
        return None;
    };
    Some(brief.by_slice(cases, brief.first(), room))
}

/// The case of this number of the entry at this place of those that are kept short, if there is one.
pub(crate) fn short_case(
    briefs: &[Brief],
    cases: &CaseList,
    place: usize,
    number: u8,
) -> Option<Case>
    requires briefs { AreBriefs briefs.now cases.now.items }
    requires begin { StandFrom 0 briefs.now }
    ensures { result ≡ slice_get (cases_at (written briefs.now cases.now.items) place) number }
{
    let Some(brief) = briefs.get(place) else {
        return None;
    };
    brief.case(cases, number)
}
