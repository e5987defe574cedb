//! The line of a step.

ghost use Rattle.std.specs.Prelude.{◌≡◌, ◌<◌, ◌+◌, ◌-◌, ◌++◌, codes, decimal, OnOk};
ghost use Rattle.hub_story_text.specs.AnswerText.{ended_words};
ghost use Rattle.hub_story_text.specs.Cells.{with_cell};
ghost use Rattle.hub_story_text.specs.Writing.{LineBecomes};
ghost use Rattle.hub_story_text.specs.LineText.{asks, cells, got_words, moved_words, sent_words};
ghost use Rattle.hub_story_text.specs.LineText.{step_words, value_words, waited_words, with_clock, with_end};

use crate::answers::{fault_words, put_ended};
use crate::cells::{ANSWER, ASKS, VALUE, WAITED, close_cell, open_cell, put_right};
use crate::ends::ends_cells;
use crate::numbers::{number_of, put_number};
use hub_base::{Case, Edition, EntryRef, NoMemory, Outcome, Pid, Port, What};
use hub_core::ShortEntries;
use hub_story::{Part, Told, is_clock, part_of};
use hub_text::write_entry;
use std::alloc::AllocError;

/// What the line of an entry is written from.
#[derive(Clone, Copy)]
pub(crate) struct Line<'a> {
    /// The place of the entry.
    pub(crate) place: u32,
    /// The entry.
    pub(crate) entry: &'a EntryRef<'a>,
    /// How it ended; nothing while it waits.
    pub(crate) end: Option<Told>,
    /// What came by its step.
    pub(crate) came: &'a [Told],
}

/// Appends who asks what.
fn put_asks(out: &mut Vec<u8>, entry: &EntryRef<'_>) -> Result<(), NoMemory>
    ensures { OnOk result (out.new.items ≡ out.old.items ++ asks entry.now) }
{
    out.extend_from_slice(b"P")?;
    write_entry(out, Edition::Three, entry)?;
    out.truncate(out.len() - 1);
    Ok(())
}

/// Appends how long a step waited that ended so.
fn put_waited(out: &mut Vec<u8>, place: u32, told: &Told) -> Result<(), AllocError>
    requires { place < told.now.by }
    ensures { OnOk result (out.new.items ≡ out.old.items ++ waited_words place told.now) }
{
    put_number(out, b"", (told.by - place).into())?;
    put_number(out, b", until ", number_of(told.by))
}

/// Appends how long a step has waited that still does, by the last of so many steps.
fn put_still(out: &mut Vec<u8>, place: u32, count: usize) -> Result<(), AllocError>
    ensures { OnOk result (out.new.items ≡ out.old.items ++ decimal (count - (place + 1)) ++ codes ", still") }
{
    put_number(out, b"", count.saturating_sub(place as usize + 1) as u64)?;
    out.extend_from_slice(b", still")
}

/// Appends the process of the entry at this place, and its step.
fn put_step(out: &mut Vec<u8>, entries: &ShortEntries, place: u32) -> Result<(), AllocError>
    ensures { OnOk result (out.new.items ≡ out.old.items ++ step_words entries.now place) }
{
    if let Some(pid) = entries.pid_at(place as usize) {
        put_number(out, b"P", pid.0.into())?;
    }
    put_number(out, b", step ", number_of(place))
}

/// Appends where a value went that was sent on this port.
fn put_sent(
    out: &mut Vec<u8>,
    entries: &ShortEntries,
    port: Port,
    partner: Option<u32>,
) -> Result<(), AllocError>
    ensures { OnOk result (out.new.items ≡ out.old.items ++ sent_words entries.now port partner) }
{
    match partner {
        Some(place) => {
            out.extend_from_slice(b"to ")?;
            put_step(out, entries, place)
        }
        None => put_number(out, b"stays in port ", port.0.into()),
    }
}

/// Appends where a value came from that was received.
fn put_got(
    out: &mut Vec<u8>,
    entries: &ShortEntries,
    partner: Option<u32>,
) -> Result<(), AllocError>
    ensures { OnOk result (out.new.items ≡ out.old.items ++ got_words entries.now partner) }
{
    let Some(place) = partner else {
        return Ok(());
    };
    out.extend_from_slice(b"from ")?;
    put_step(out, entries, place)
}

/// Appends where the value went or came from that the case moved.
fn put_passed(
    out: &mut Vec<u8>,
    entries: &ShortEntries,
    partner: Option<u32>,
    case: Case,
    outcome: Outcome,
) -> Result<(), AllocError>
    ensures { OnOk result (out.new.items ≡ out.old.items ++ moved_words entries.now partner case outcome) }
{
    match (case, outcome) {
        (Case::Send(port, _), Outcome::Sent) => put_sent(out, entries, port, partner),
        (Case::Recv(_), Outcome::Got(_)) => put_got(out, entries, partner),
        _ => Ok(()),
    }
}

/// Appends where the value of a step went or came from, or what is wrong with the step.
fn put_moved(
    out: &mut Vec<u8>,
    entries: &ShortEntries,
    cases: &[Case],
    partner: Option<u32>,
    what: What,
) -> Result<(), AllocError>
    ensures { OnOk result (out.new.items ≡ out.old.items ++ value_words entries.now cases.now partner what) }
{
    match what {
        What::Fired { case, outcome } => match cases.get(usize::from(case)) {
            Some(case) => put_passed(out, entries, partner, *case, outcome),
            None => Ok(()),
        },
        What::Fault(fault) => out.extend_from_slice(fault_words(fault)),
        _ => Ok(()),
    }
}

/// Who asks what, in its column.
fn asks_cell(out: &mut Vec<u8>, start: usize, entry: &EntryRef<'_>) -> Result<(), NoMemory>
    ensures { OnOk result (LineBecomes start out.old.items out.new.items (λ line. with_cell ASKS line (asks entry.now))) }
{
    let cell = open_cell(out, start, ASKS)?;
    put_asks(out, entry)?;
    close_cell(out, cell);
    Ok(())
}

/// What a step of these cases was told that has ended.
fn ended_cell(
    out: &mut Vec<u8>,
    start: usize,
    part: Part,
    cases: &[Case],
    what: What,
) -> Result<(), NoMemory>
    ensures { OnOk result (
        LineBecomes start out.old.items out.new.items (λ line. with_cell ANSWER line (ended_words part cases.now what))) }
{
    let cell = open_cell(out, start, ANSWER)?;
    put_ended(out, part, cases, what)?;
    close_cell(out, cell);
    Ok(())
}

/// How long a step waited that ended so. Most do not wait.
fn waited_cell(out: &mut Vec<u8>, start: usize, place: u32, told: &Told) -> Result<(), AllocError>
    ensures { OnOk result (
        LineBecomes start out.old.items out.new.items (λ line. with_cell WAITED line (waited_words place told.now))) }
{
    if told.by <= place {
        return Ok(());
    }
    let cell = open_cell(out, start, WAITED)?;
    put_waited(out, place, told)?;
    close_cell(out, cell);
    Ok(())
}

/// How long a step has waited that still does.
fn still_cell(out: &mut Vec<u8>, start: usize, place: u32, count: usize) -> Result<(), AllocError>
    ensures { OnOk result (LineBecomes start out.old.items out.new.items
        (λ line. with_cell WAITED line (decimal (count - (place + 1)) ++ codes ", still"))) }
{
    let cell = open_cell(out, start, WAITED)?;
    put_still(out, place, count)?;
    close_cell(out, cell);
    Ok(())
}

/// What is known of the value of a step.
fn value_cell(
    out: &mut Vec<u8>,
    start: usize,
    entries: &ShortEntries,
    cases: &[Case],
    partner: Option<u32>,
    what: What,
) -> Result<(), AllocError>
    ensures { OnOk result (LineBecomes start out.old.items out.new.items
        (λ line. with_cell VALUE line (value_words entries.now cases.now partner what))) }
{
    let cell = open_cell(out, start, VALUE)?;
    put_moved(out, entries, cases, partner, what)?;
    close_cell(out, cell);
    Ok(())
}

/// That the step is the clock's, if it is.
fn clock_cell(
    out: &mut Vec<u8>,
    start: usize,
    clock: Option<Pid>,
    entry: &EntryRef<'_>,
) -> Result<(), AllocError>
    ensures { OnOk result (
        LineBecomes start out.old.items out.new.items (λ line. with_clock clock entry.now line)) }
{
    if !is_clock(clock, entry.pid) {
        return Ok(());
    }
    let cell = open_cell(out, start, VALUE)?;
    out.extend_from_slice(b"the clock")?;
    close_cell(out, cell);
    Ok(())
}

/// That it waits, and how long by the last of so many steps.
fn put_waits(out: &mut Vec<u8>, start: usize, place: u32, count: usize) -> Result<(), NoMemory>
    ensures { OnOk result (LineBecomes start out.old.items out.new.items
        (λ line. with_cell WAITED (with_cell ANSWER line (codes "waits")) (decimal (count - (place + 1)) ++ codes ", still"))) }
{
    ended_cell(out, start, Part::NoPart, &[], What::Parked)?;
    still_cell(out, start, place, count)?;
    Ok(())
}

/// What became of a step: what it was told in the end, how long it waited, and what is known of its value; or that it waits.
fn put_end(
    out: &mut Vec<u8>,
    start: usize,
    clock: Option<Pid>,
    entries: &ShortEntries,
    partner: Option<u32>,
    line: &Line<'_>,
) -> Result<(), NoMemory>
    ensures { OnOk result (LineBecomes start out.old.items out.new.items
        (λ before. with_end clock entries.now line.now.place line.now.entry.now partner before line.now.end)) }
{
    let Some(end) = line.end else {
        return put_waits(out, start, line.place, entries.len());
    };
    let cases = line.entry.step.cases();
    let part = part_of(clock, entries, &end);
    ended_cell(out, start, part, cases, end.event.what)?;
    waited_cell(out, start, line.place, &end)?;
    value_cell(out, start, entries, cases, partner, end.event.what)?;
    Ok(())
}

/// Appends the line, without the newline.
pub(crate) fn put_cells(
    out: &mut Vec<u8>,
    clock: Option<Pid>,
    entries: &ShortEntries,
    partner: Option<u32>,
    line: &Line<'_>,
) -> Result<(), NoMemory>
    ensures { OnOk result (out.new.items ≡ out.old.items
        ++ cells clock entries.now line.now.place line.now.entry.now line.now.end partner line.now.came.now) }
{
    let start = out.len();
    put_right(out, number_of(line.place))?;
    asks_cell(out, start, line.entry)?;
    put_end(out, start, clock, entries, partner, line)?;
    clock_cell(out, start, clock, line.entry)?;
    ends_cells(out, start, clock, entries, line.place, line.came)?;
    Ok(())
}
