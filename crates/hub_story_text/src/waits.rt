//! How many calls waited, and which of them waited longest.

ghost use Rattle.std.specs.Prelude.{◌≡◌, ◌≤◌, ◌<◌, ◌+◌, ◌-◌, ◌^◌, ◌++◌, List, [], count_by, false, insert, length, slice_get, take, OnOk};
ghost use Rattle.std.specs.List.{AllByRecursion, cons_option, flat_map};
ghost use Rattle.std.specs.Option.{option_map_or};
ghost use Rattle.hub_story.specs.Told.{end_of};
ghost use Rattle.hub_story_text.specs.declared.waits.Wait.{Wait};
ghost use Rattle.hub_story_text.specs.Explained.{IsExplained, entries_of, told_of};
ghost use Rattle.hub_story_text.specs.Waits.{AreWaits, EndsLate, counts, line_at, told_wait, wait_of, waits as all_waits, waits_text, with_wait};

use crate::explained::{Explained, put_line};
use crate::lines::Line;
use crate::numbers::put_number;
use hub_base::{NoMemory, Pid};
use hub_core::{CaseRoom, ShortEntries};
use hub_story::{Told, is_by_clock, is_clock};
use std::alloc::{AllocError, Global};

/// How many of the longest waits are told.
pub(crate) const MOST_LONGEST: usize = 5;

/// The wait of a call.
#[derive(Clone, Copy)]
pub(crate) struct Wait {
    /// The place of its entry.
    place: u32,
    /// How many steps it waited.
    steps: u32,
}

/// The waits of some calls.
#[derive(Drop)]
pub(crate) struct Waits {
    /// How many there are.
    count: usize,
    /// The longest few, longest first.
    longest: Vec<Wait>,
}

/// The wait of the call at this place, one of so many, that ended so.
fn wait_of(count: usize, place: usize, end: Option<Told>) -> Option<Wait>
    requires few { count < 2 ^ 32 - 1 }
    requires within { place < count }
    ensures { result ≡ wait_of count place end }
{
    let place = place as u32;
    match end {
        None => Some(Wait {
            place,
            steps: count as u32 - (place + 1),
        }),
        Some(end) if place < end.by => Some(Wait {
            place,
            steps: end.by - place,
        }),
        Some(_) => None,
    }
}

/// The wait of the call at this place that ended so, unless it is the clock's.
pub(crate) fn told_wait(explained: &Explained, place: usize, end: Option<Told>) -> Option<Wait>
    requires explained { IsExplained explained.now }
    requires within { place < length (entries_of explained.now) }
    requires end { end ≡ end_of (told_of explained.now) place }
    ensures { result ≡ told_wait explained.now.clock (entries_of explained.now) (told_of explained.now) place }
{
    let entries = explained.journal.entries();
    if is_by_clock(explained.clock, entries, place as u32) {
        return None;
    }
    wait_of(entries.len(), place, end)
}

/// Behind how many of these, which stand longest first, a wait comes.
fn rank_of(ranked: &[Wait], wait: Wait) -> usize
    ensures within { result ≤ length ranked.now }
    ensures ranked { with_wait wait ranked.now ≡ insert ranked.now result wait }
{
    for (rank, other) in ranked.iter().enumerate() {
        if other.steps < wait.steps {
            return rank;
        }
    }
    ranked.len()
}

/// Takes a wait in among these, which stand longest first, and keeps the first few.
fn rank(ranked: &mut Vec<Wait>, wait: Wait) -> Result<(), AllocError>
    ensures { OnOk result (ranked.new.items ≡ take MOST_LONGEST (with_wait wait ranked.old.items)) }
{
    let rank = rank_of(ranked, wait);
    ranked.insert(rank, wait)?;
    ranked.truncate(MOST_LONGEST);
    Ok(())
}

impl Waits {
    /// None.
    pub(crate) fn new(alloc: Global) -> Waits
        ensures waits { AreWaits [] result }
        ensures few { result.count ≡ 0 }
    {
        Waits {
            count: 0,
            longest: Vec::new(alloc),
        }
    }

    /// Takes in the next wait, if there is one.
    pub(crate) fn note(&mut self, wait: Option<Wait>) -> Result<(), AllocError>
        requires { self.old.count < 2 ^ 32 }
        ensures waits { OnOk result ((ws : List Wait) → AreWaits ws self.old → AreWaits (ws ++ cons_option wait []) self.new) }
        ensures few { OnOk result (self.new.count ≤ self.old.count + 1) }
    {
        let Some(wait) = wait else {
            return Ok(());
        };
        rank(&mut self.longest, wait)?;
        self.count += 1;
        Ok(())
    }
}

/// Whether the entry at this place is a call, and not the clock's.
fn counts(clock: Option<Pid>, entries: &ShortEntries, place: usize) -> bool
    ensures { result ≡ option_map_or (counts clock) (slice_get entries.now place) false }
{
    match entries.pid_at(place) {
        Some(pid) => entries.is_call_at(place) && !is_clock(clock, pid),
        None => false,
    }
}

/// How many of these entries are calls, and not the clock's.
fn calls_of(clock: Option<Pid>, entries: &ShortEntries) -> usize
    ensures { result ≡ count_by (counts clock) entries.now }
{
    let mut calls = 0;
    for place in 0..entries.len() {
        calls += usize::from(counts(clock, entries, place));
    }
    calls
}

/// Appends the line of the step whose call waited so.
fn put_wait(out: &mut Vec<u8>, explained: &Explained, wait: Wait) -> Result<(), NoMemory>
    requires explained { IsExplained explained.now }
    requires late { EndsLate (told_of explained.now) wait }
    ensures { OnOk result (out.new.items ≡
        out.old.items ++ line_at explained.now.clock (entries_of explained.now) (told_of explained.now) wait) }
{
    let mut room = CaseRoom::new();
    let entries = explained.journal.entries();
    let Some(entry) = entries.get(wait.place as usize, &mut room) else {
        return Ok(());
    };
    let line = Line {
        place: wait.place,
        entry: &entry,
        end: explained.known.ends.at(wait.place as usize),
        came: &[],
    };
    put_line(out, explained, &line)
}

/// Appends the lines of these.
fn put_longest(out: &mut Vec<u8>, explained: &Explained, longest: &[Wait]) -> Result<(), NoMemory>
    requires explained { IsExplained explained.now }
    requires late { AllByRecursion (EndsLate (told_of explained.now)) longest.now }
    ensures { OnOk result (out.new.items ≡
        out.old.items
        ++ flat_map (line_at explained.now.clock (entries_of explained.now) (told_of explained.now)) longest.now) }
{
    for wait in longest {
        put_wait(out, explained, *wait)?;
    }
    Ok(())
}

/// Appends how many calls waited, and the lines of those that waited longest.
pub(crate) fn put_waits(
    out: &mut Vec<u8>,
    explained: &Explained,
    waits: &Waits,
) -> Result<(), NoMemory>
    requires explained { IsExplained explained.now }
    requires waits { AreWaits (all_waits explained.now.clock (entries_of explained.now) (told_of explained.now)) waits.now }
    ensures { OnOk result (out.new.items ≡
        out.old.items ++ waits_text explained.now.clock (entries_of explained.now) (told_of explained.now)) }
{
    put_number(out, b"", waits.count as u64)?;
    put_number(
        out,
        b" of ",
        calls_of(explained.clock, explained.journal.entries()) as u64,
    )?;
    out.extend_from_slice(b" calls waited, the longest first, five at most\n")?;
    put_longest(out, explained, &waits.longest)
}
