//! Entries that are kept short.

ghost use Rattle.std.specs.Prelude.{◌≡◌, ◌<◌, ◌+◌, ◌++◌, ◌∷◌, [], IfOk, IsTrue, List, OnErr, OnOk, Some, false, length, slice_get};
ghost use Rattle.std.specs.Option.{option_map, option_map_or};
ghost use Rattle.hub_base.specs.Values.{cases_at};
ghost use Rattle.hub_laws.specs.Once.{is_call};
ghost use Rattle.hub_core.specs.LogView.{AreBriefs, StandFrom, entry_of, written};
ghost use Rattle.hub_base.specs.declared.case.Case.{Case};

use crate::CaseRoom;
use crate::brief::{Brief, brief_of_plain, keep, short_at, short_case, write_out};
use crate::case_list::CaseList;
use hub_base::{Case, Entry, EntryRef, Pid};
use std::alloc::{AllocError, Global};
use std::marker::Model;

/// Entries in order, in less memory: each in 16 bytes, and as much for each case of a call that has several, or sends bytes, which
/// stand beside.
#[derive(Drop)]
pub struct ShortEntries {
    /// What is kept of each.
    briefs: Vec<Brief>,
    /// The cases that are not kept there, one entry's after the other's.
    cases: CaseList,
}

impl Model for ShortEntries {
    ghost use Rattle.std.specs.Prelude.{List};
    ghost use Rattle.hub_base.specs.Entry.{Entry};
    ghost use Rattle.hub_core.specs.LogView.{AreBriefs, StandFrom, written};

    ghost Value = { List Entry };

    ghost view = { λ s. written s.briefs.items s.cases.items };

    ghost invariant = { λ s. AreBriefs s.briefs.items s.cases.items × StandFrom 0 s.briefs.items };
}

/// Whether both are kept of one plain send or receive.
#[inline(always)]
fn is_same_plain(brief: Brief, other: Brief) -> bool
    ensures { IsTrue result → ((cases others : List Case) → entry_of brief cases ≡ entry_of other others) }
{
    match (brief, other) {
        (
            Brief::Send { pid, port, number },
            Brief::Send {
                pid: own,
                port: given,
                number: sent,
            },
        ) => pid.0 == own.0 && port.0 == given.0 && number == sent,
        (
            Brief::Recv { pid, port },
            Brief::Recv {
                pid: own,
                port: given,
            },
        ) => pid.0 == own.0 && port.0 == given.0,
        _ => false,
    }
}

impl ShortEntries {
    /// No entry.
    pub fn new(alloc: Global) -> ShortEntries
        ensures { result ≡ [] }
    {
        ShortEntries {
            briefs: Vec::new(alloc),
            cases: CaseList::new(alloc),
        }
    }

    /// What is kept of entries, as a journal keeps it.
    pub(crate) fn of(briefs: Vec<Brief>, cases: CaseList) -> ShortEntries
        requires briefs { AreBriefs briefs.items cases.items }
        requires begin { StandFrom 0 briefs.items }
        ensures { result ≡ written briefs.items cases.items }
    {
        ShortEntries { briefs, cases }
    }

    /// Appends an entry. `Err` where memory was refused, and the entries are then as before; 2^32 cases or more are
    /// taken for that.
    pub fn push(&mut self, entry: &EntryRef<'_>) -> Result<(), AllocError>
        ensures ok { OnOk result (self.new ≡ self.old ++ entry.now ∷ []) }
        ensures err { OnErr result (self.new ≡ self.old) }
    {
        self.briefs.reserve(1)?;
        keep(&mut self.briefs, &mut self.cases, entry)
    }

    /// How many there are.
    pub fn len(&self) -> usize
        ensures { result ≡ length self.now }
    {
        self.briefs.len()
    }

    /// The entry at this place, whose cases are put in the room for them. `None` behind the last.
    pub fn get<'a>(&self, place: usize, room: &'a mut CaseRoom) -> Option<EntryRef<'a>>
        ensures { result ≡ slice_get self.now place }
    {
        short_at(&self.briefs, &self.cases, place, room)
    }

    /// The entry at this place, as `get` gives it.
    pub fn entry<'a>(&self, place: usize, room: &'a mut CaseRoom) -> EntryRef<'a>
        requires { place < length self.now }
        ensures { slice_get self.now place ≡ Some result }
    {
        match self.get(place, room) {
            Some(entry) => entry,
            None => unreachable!(),
        }
    }

    /// The cases of the entry at this place, as `get` gives it; none where it is no call, and behind the last.
    pub fn cases_at<'a>(&self, place: usize, room: &'a mut CaseRoom) -> &'a [Case]
        ensures { result.now ≡ cases_at self.now place }
    {
        match self.get(place, room) {
            Some(entry) => entry.step.cases(),
            None => &[],
        }
    }

    /// The case of this number of the entry at this place, if there is one.
    pub fn case_at(&self, place: usize, number: u8) -> Option<Case>
        ensures { result ≡ slice_get (cases_at self.now place) number }
    {
        short_case(&self.briefs, &self.cases, place, number)
    }

    /// The process of the entry at this place, for which no case is read; `None` behind the last.
    pub fn pid_at(&self, place: usize) -> Option<Pid>
        ensures { result ≡ option_map (λ e. e.pid) (slice_get self.now place) }
    {
        match self.briefs.get(place) {
            Some(brief) => Some(brief.pid()),
            None => None,
        }
    }

    /// Whether the entry at this place is a call, for which no case is read.
    pub fn is_call_at(&self, place: usize) -> bool
        ensures { result ≡ option_map_or (λ e. is_call e.step) (slice_get self.now place) false }
    {
        match self.briefs.get(place) {
            Some(brief) => brief.is_call(),
            None => false,
        }
    }

    /// Whether this entry stands at this place: a call that sends a number or receives, with one case, no default and word 0. Of any
    /// other entry this is false, also where it stands there.
    pub fn has_plain(&self, place: usize, entry: &EntryRef<'_>) -> bool
        ensures { IsTrue result → (slice_get self.now place ≡ Some entry.now) }
    {
        let Some(brief) = brief_of_plain(entry) else {
            return false;
        };
        match self.briefs.get(place) {
            Some(there) => is_same_plain(*there, brief),
            None => false,
        }
    }

    /// All of them, written out.
    pub fn write_out(&self, alloc: Global) -> Result<Vec<Entry>, AllocError>
        ensures { IfOk result (λ entries. entries.items ≡ self.now) }
    {
        let mut entries = Vec::with_capacity(alloc, self.len())?;
        write_out(&mut entries, &self.briefs, &self.cases);
        Ok(entries)
    }
}

/// These entries, kept short. An `Err` is memory.
pub(crate) fn shortened(alloc: Global, entries: &[Entry]) -> Result<ShortEntries, AllocError>
    ensures { IfOk result (λ list. list ≡ entries.now) }
{
    let mut list = ShortEntries::new(alloc);
    for entry in entries {
        list.push(&entry.by_slice())?;
    }
    Ok(list)
}
