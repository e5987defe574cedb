//! The journal of a hub, whose newest entries may be kept short.
//!
//! An entry has places for 16 cases, and a call mostly has one. Written out, entries take more new pages than all else
//! that steps do, and a new page takes longer than a step. So a hub that threads share keeps each entry in 16 bytes, and
//! beside them only the cases of a call that has several, or sends bytes; the entries are written out when they are asked
//! for. Their places are reserved as if they were written, so that this takes no memory.

ghost use Rattle.std.specs.Prelude.{◌≡◌, ◌≤◌, ◌<◌, ◌+◌, ◌++◌, ◌∷◌, [], true, false, IfOk, IsOk, OnOk, OnErr, length, slice_get, vec_len};
ghost use Rattle.std.specs.Vec.{vec_capacity};
ghost use Rattle.hub_core.specs.LogView.{FitsShort, HasRoomFor, places_asked};

use crate::CaseRoom;
use crate::brief::{Brief, brief_of_plain, keep, short_at, write_out};
use crate::case_list::CaseList;
use crate::copies::{copy_list, copy_list_over};
use crate::short_entries::{ShortEntries, shortened};
use hub_base::{Entry, EntryRef, MOST_PROCS, Step};
use std::alloc::{AllocError, Global};
use std::marker::Model;

/// The entries of a journal, in order. The newest may be kept short.
#[derive(Drop)]
pub(crate) struct Log {
    /// The entries that are written out. It has room for the others.
    whole: Vec<Entry>,
    /// Those that are kept short.
    briefs: Vec<Brief>,
    /// The cases that are not kept there, one entry's after the other's.
    cases: CaseList,
}

impl Model for Log {
    ghost use Rattle.hub_core.specs.LogView.{LogView};
    ghost use Rattle.hub_core.specs.LogKeeps.{LogKeeps, log_shown};

    ghost Value = { LogView };

    ghost view = { λ l. log_shown l };

    ghost invariant = { λ l. LogKeeps l };
}

/// Whether there is a place for one entry more that is kept short. An exit asks for no memory: any other step leaves room
/// for the exit of each process.
#[inline(always)]
fn has_room(briefs: &mut Vec<Brief>, entry: &EntryRef<'_>) -> bool
    ensures same { briefs.new.items ≡ briefs.old.items }
    ensures room { result ≡ true → vec_len briefs.new < vec_capacity briefs.new }
    ensures had_room { vec_len briefs.old + places_asked entry.now.step ≤ vec_capacity briefs.old
        → result ≡ true }
{
    match entry.step {
        Step::Exit => briefs.len() < briefs.capacity(),
        _ => briefs.reserve(MOST_PROCS + 1).is_ok(),
    }
}

/// Appends copies of these entries. There is room for them.
fn push_copies(entries: &mut Vec<Entry>, others: &[Entry])
    requires { vec_len entries.old + length others.now ≤ vec_capacity entries.old }
    ensures items { entries.new.items ≡ entries.old.items ++ others.now }
    ensures capacity { vec_capacity entries.new ≡ vec_capacity entries.old }
{
    for entry in others {
        entries.push_reserved(entry.copy());
    }
}

/// The same entries, written out, with room for so many.
fn copy_whole(alloc: Global, entries: &[Entry], capacity: usize) -> Result<Vec<Entry>, AllocError>
    requires { length entries.now ≤ capacity }
    ensures items { IfOk result (λ v. v.items ≡ entries.now) }
    ensures capacity { IfOk result (λ v. vec_capacity v ≡ capacity) }
{
    let mut copy = Vec::with_capacity(alloc, capacity)?;
    push_copies(&mut copy, entries);
    Ok(copy)
}

/// Puts these entries in place of those that are there. There is room for them.
fn copy_whole_over(entries: &mut Vec<Entry>, others: &[Entry])
    requires { length others.now ≤ vec_capacity entries.old }
    ensures items { entries.new.items ≡ others.now }
    ensures capacity { vec_capacity entries.new ≡ vec_capacity entries.old }
{
    entries.clear();
    push_copies(entries, others);
}

impl Log {
    /// No entry, and room for so many.
    pub(crate) fn with_capacity(alloc: Global, capacity: usize) -> Result<Log, AllocError>
        ensures items { IfOk result (λ l. l.items ≡ []) }
        ensures capacity { IfOk result (λ l. l.capacity ≡ capacity) }
        ensures short { IfOk result (λ l. l.short ≡ 0) }
    {
        Ok(Log {
            whole: Vec::with_capacity(alloc, capacity)?,
            briefs: Vec::new(alloc),
            cases: CaseList::new(alloc),
        })
    }

    /// The same entries, as many of them kept short, with as much room.
    pub(crate) fn copy(&self, alloc: Global) -> Result<Log, AllocError>
        ensures items { IfOk result (λ l. l.items ≡ self.now.items) }
        ensures short { IfOk result (λ l. l.short ≡ self.now.short) }
        ensures capacity { IfOk result (λ l. l.capacity ≡ self.now.capacity) }
    {
        Ok(Log {
            whole: copy_whole(alloc, &self.whole, self.whole.capacity())?,
            briefs: copy_list(alloc, &self.briefs)?,
            cases: self.cases.copy(alloc)?,
        })
    }

    /// Makes room for the entries of another. After a refusal there is no less than before.
    pub(crate) fn reserve_for(&mut self, other: &Log) -> Result<(), AllocError>
        ensures items { self.new.items ≡ self.old.items }
        ensures short { self.new.short ≡ self.old.short }
        ensures capacity { self.old.capacity ≤ self.new.capacity }
        ensures ok { OnOk result (HasRoomFor self.new other.now) }
    {
        self.whole.reserve(other.whole.capacity())?;
        self.briefs.reserve(other.briefs.len())?;
        self.cases.reserve_for(&other.cases)
    }

    /// Puts the entries of another in place of those that are there, as many of them kept short.
    pub(crate) fn copy_from(&mut self, other: &Log)
        requires { HasRoomFor self.old other.now }
        ensures items { self.new.items ≡ other.now.items }
        ensures short { self.new.short ≡ other.now.short }
        ensures capacity { other.now.capacity ≤ self.new.capacity }
    {
        copy_whole_over(&mut self.whole, &other.whole);
        copy_list_over(&mut self.briefs, &other.briefs);
        self.cases.copy_from(&other.cases);
    }

    /// Makes room for so many entries more, where there is not as much.
    pub(crate) fn reserve_more(&mut self, more: usize) -> Result<(), AllocError>
        ensures same { self.new.items ≡ self.old.items }
        ensures short { self.new.short ≡ self.old.short }
        ensures ok { OnOk result (length self.new.items + more ≤ self.new.capacity) }
        ensures full { OnErr result (self.old.capacity < length self.old.items + more) }
        ensures err { OnErr result (self.new.capacity ≡ self.old.capacity) }
        ensures spare { length self.old.items + more ≤ self.old.capacity
            → self.new.capacity ≡ self.old.capacity }
        ensures capacity { self.old.capacity ≤ self.new.capacity }
    {
        if self.whole.capacity() - self.len() < more {
            self.whole.reserve(self.briefs.len().saturating_add(more))
        } else {
            Ok(())
        }
    }

    /// Appends an entry, written out as all before it are.
    pub(crate) fn push(&mut self, entry: Entry)
        requires whole { self.old.short ≡ 0 }
        requires room { length self.old.items < self.old.capacity }
        ensures items { self.new.items ≡ self.old.items ++ entry ∷ [] }
        ensures capacity { self.new.capacity ≡ self.old.capacity }
        ensures short { self.new.short ≡ 0 }
    {
        self.whole.push_reserved(entry);
    }

    /// Appends an entry, which is kept short where there is memory for that. An exit asks for none.
    #[inline(always)]
    pub(crate) fn push_short(&mut self, entry: &EntryRef<'_>)
        requires room { length self.old.items < self.old.capacity }
        ensures items { self.new.items ≡ self.old.items ++ entry.now ∷ [] }
        ensures capacity { self.new.capacity ≡ self.old.capacity }
        ensures short { FitsShort self.old entry.now → self.new.short ≡ self.old.short + 1 }
    {
        if !self.keeps_plain(entry) && !self.keeps_call(entry) {
            self.push_any(entry);
        }
    }

    /// The same of any entry. It stands in a function of its own, so that a call that is kept at once does not pay for what it does
    /// not need.
    #[inline(never)]
    fn push_any(&mut self, entry: &EntryRef<'_>)
        requires room { length self.old.items < self.old.capacity }
        ensures items { self.new.items ≡ self.old.items ++ entry.now ∷ [] }
        ensures capacity { self.new.capacity ≡ self.old.capacity }
        ensures short { FitsShort self.old entry.now → self.new.short ≡ self.old.short + 1 }
    {
        if !self.keeps_short(entry) {
            self.push_whole(entry);
        }
    }

    /// Appends a call whose cases stand beside, and keeps it short, if there are places enough. It asks for no memory.
    #[inline(always)]
    fn keeps_call(&mut self, entry: &EntryRef<'_>) -> bool
        requires room { length self.old.items < self.old.capacity }
        ensures items { result ≡ true → self.new.items ≡ self.old.items ++ entry.now ∷ [] }
        ensures same { result ≡ false → self.new ≡ self.old }
        ensures capacity { self.new.capacity ≡ self.old.capacity }
        ensures short { result ≡ true → self.new.short ≡ self.old.short + 1 }
    {
        let Step::Call {
            ref cases,
            default,
            word,
        } = entry.step
        else {
            return false;
        };
        let beside = cases.as_slice();
        // A comparison takes fewer instructions here than a conversion that may fail.
        let first = self.cases.len();
        if first > u32::MAX as usize
            || !self.cases.has_room(beside.len())
            || self.briefs.capacity() - self.briefs.len() <= MOST_PROCS
        {
            return false;
        }
        self.cases.put(beside);
        self.briefs.push_reserved(Brief::Call {
            pid: entry.pid,
            default,
            count: beside.len() as u8,
            first: first as u32,
            word,
        });
        true
    }

    /// Appends a call of which all is kept in one place and keeps it so, if there are places enough. It asks for no memory.
    #[inline(always)]
    fn keeps_plain(&mut self, entry: &EntryRef<'_>) -> bool
        requires room { length self.old.items < self.old.capacity }
        ensures items { result ≡ true → self.new.items ≡ self.old.items ++ entry.now ∷ [] }
        ensures same { result ≡ false → self.new ≡ self.old }
        ensures capacity { self.new.capacity ≡ self.old.capacity }
        ensures short { result ≡ true → self.new.short ≡ self.old.short + 1 }
    {
        if self.briefs.capacity() - self.briefs.len() <= MOST_PROCS {
            return false;
        }
        match brief_of_plain(entry) {
            None => false,
            Some(brief) => {
                self.briefs.push_reserved(brief);
                true
            }
        }
    }

    /// Appends an entry, written out as all before it are then too. It stands in a function of its own, so that a step
    /// whose entry is kept short does not pay for the place of the copy.
    #[inline(never)]
    fn push_whole(&mut self, entry: &EntryRef<'_>)
        requires room { length self.old.items < self.old.capacity }
        ensures items { self.new.items ≡ self.old.items ++ entry.now ∷ [] }
        ensures capacity { self.new.capacity ≡ self.old.capacity }
    {
        self.write_out();
        self.push(entry.to_owned());
    }

    /// Appends an entry and keeps it short, if there is memory for that.
    #[inline(always)]
    fn keeps_short(&mut self, entry: &EntryRef<'_>) -> bool
        requires room { length self.old.items < self.old.capacity }
        ensures items { result ≡ true → self.new.items ≡ self.old.items ++ entry.now ∷ [] }
        ensures same { result ≡ false → self.new.items ≡ self.old.items }
        ensures capacity { self.new.capacity ≡ self.old.capacity }
        ensures short { result ≡ true → self.new.short ≡ self.old.short + 1 }
        ensures had_room { FitsShort self.old entry.now → result ≡ true }
    {
        if !has_room(&mut self.briefs, entry) {
            return false;
        }
        let Ok(()) = keep(&mut self.briefs, &mut self.cases, entry) else {
            return false;
        };
        true
    }

    /// Writes all entries out. It takes no memory.
    pub(crate) fn write_out(&mut self)
        ensures items { self.new.items ≡ self.old.items }
        ensures capacity { self.new.capacity ≡ self.old.capacity }
        ensures short { self.new.short ≡ 0 }
        ensures room { length self.new.items ≤ self.new.capacity }
    {
        write_out(&mut self.whole, &self.briefs, &self.cases);
        self.briefs.clear();
        self.cases.clear();
    }

    /// How many entries there are.
    pub(crate) fn len(&self) -> usize
        ensures count { result ≡ length self.now.items }
        ensures fits { result ≤ self.now.capacity }
    {
        self.whole.len() + self.briefs.len()
    }

    /// The entries, which are written out.
    pub(crate) fn as_slice(&self) -> &[Entry]
        requires { self.now.short ≡ 0 }
        ensures { result.now ≡ self.now.items }
    {
        &self.whole
    }

    /// The entry at this place; `None` behind the last. The cases of one that is kept short are put in the room for them.
    #[inline(always)]
    pub(crate) fn entry<'a>(&'a self, place: usize, room: &'a mut CaseRoom) -> Option<EntryRef<'a>>
        ensures { result ≡ slice_get self.now.items place }
    {
        match self.whole.get(place) {
            Some(entry) => Some(entry.by_slice()),
            None => short_at(&self.briefs, &self.cases, place - self.whole.len(), room),
        }
    }

    /// The entries.
    pub(crate) fn into_vec(self) -> Vec<Entry>
        ensures { result.items ≡ self.items }
    {
        let mut log = self;
        log.write_out();
        let Log {
            whole,
            briefs: _,
            cases: _,
        } = log;
        whole
    }

    /// The entries, each kept short. It takes memory only where some are written out.
    pub(crate) fn into_short(self, alloc: Global) -> Result<ShortEntries, AllocError>
        ensures items { IfOk result (λ list. list ≡ self.items) }
        ensures short { self.short ≡ length self.items → IsOk result }
    {
        let mut log = self;
        if !log.whole.is_empty() {
            log.write_out();
            return shortened(alloc, &log.whole);
        }
        let Log {
            whole: _,
            briefs,
            cases,
        } = log;
        Ok(ShortEntries::of(briefs, cases))
    }
}
