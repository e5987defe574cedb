//! What the clock of a journal, the process by which calls time out, has to do with its events.

ghost use Rattle.std.specs.Prelude.{◌≡◌, IfOk};
ghost use Rattle.hub_story.specs.Clock.{clock_of};
ghost use Rattle.hub_story.specs.ByClock.{is_by_clock, is_clock, other_outsiders, part_of, to_others};

use crate::clock::clock_of;
use crate::{Outsider, Told};
use hub_base::Pid;
use hub_core::{ShortEntries, ShortJournal};
use std::alloc::{AllocError, Global};

/// What the clock has to do with an event.
#[derive(Clone, Copy)]
pub enum Part {
    /// The event is told to the clock.
    OwnCall,
    /// The event came by a step of the clock, and is told to another process.
    OwnStep,
    /// Neither.
    NoPart,
}

/// The clock of a journal, if it has one.
pub fn clock_in(journal: &ShortJournal) -> Option<Pid>
    ensures { result ≡ clock_of journal.now.head journal.now.entries }
{
    clock_of(journal.head(), journal.entries())
}

/// Whether the process is the clock.
pub fn is_clock(clock: Option<Pid>, pid: Pid) -> bool
    ensures { result ≡ is_clock clock pid }
{
    match clock {
        Some(clock) => pid.0 == clock.0,
        None => false,
    }
}

/// Whether the clock makes the step at this place.
pub fn is_by_clock(clock: Option<Pid>, entries: &ShortEntries, place: u32) -> bool
    ensures { result ≡ is_by_clock clock entries.now place }
{
    match entries.pid_at(place as usize) {
        Some(pid) => is_clock(clock, pid),
        None => false,
    }
}

/// What the clock has to do with an event. Most journals have none.
pub fn part_of(clock: Option<Pid>, entries: &ShortEntries, told: &Told) -> Part
    ensures { result ≡ part_of clock entries.now told.now }
{
    if clock.is_none() {
        return Part::NoPart;
    }
    if is_clock(clock, told.event.pid) {
        return Part::OwnCall;
    }
    if is_by_clock(clock, entries, told.by) {
        return Part::OwnStep;
    }
    Part::NoPart
}

/// Those of these events that are told to other processes.
pub fn to_others(alloc: Global, clock: Option<Pid>, all: &[Told]) -> Result<Vec<Told>, AllocError>
    ensures { IfOk result (λ others. others.items ≡ to_others clock all.now) }
{
    let mut others = Vec::new(alloc);
    for told in all {
        if !is_clock(clock, told.event.pid) {
            others.push(*told)?;
        }
    }
    Ok(others)
}

/// Those of these processes that are not the clock.
pub fn other_outsiders(
    alloc: Global,
    clock: Option<Pid>,
    outside: &[Outsider],
) -> Result<Vec<Outsider>, AllocError>
    ensures { IfOk result (λ others. others.items ≡ other_outsiders clock outside.now) }
{
    let mut others = Vec::new(alloc);
    for outsider in outside {
        if !is_clock(clock, outsider.pid) {
            others.push(*outsider)?;
        }
    }
    Ok(others)
}
