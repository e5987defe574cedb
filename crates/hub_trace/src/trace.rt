//! A trace in Chrome's format.

ghost use Rattle.std.specs.Prelude.{◌≡◌, ◌<◌, ◌-◌, ◌^◌, length, IfErr, IfOk, OnErr, OnOk};
ghost use Rattle.hub_base.specs.Head.{IsHead};
ghost use Rattle.hub_replay.specs.Devices.{AppendsSome};
ghost use Rattle.hub_replay.specs.ViewFaults.{Fails};
ghost use Rattle.hub_trace.specs.Formats.Format.{Trace};
ghost use Rattle.hub_trace.specs.Formats.{AtLine, Keeps, Leads};
ghost use Rattle.hub_trace.specs.Json.{IsBegun, IsJson};

use crate::pieces::{Piece, number_of, put_event, put_pieces};
use crate::traffic::Traffic;
use crate::writing::{Pen, write_steps};
use hub_base::{EntryRef, NoMemory, Pid, Step, StepRef, What};
use hub_core::{CaseRoom, ShortEntries, ShortJournal};
use hub_replay::{Sink, ViewFault, write_whole};
use hub_story::{Part, Told, clock_in, is_clock, part_of};
use std::alloc::{AllocError, Global};

/// Appends the name of a process.
fn put_name(text: &mut Vec<u8>, pid: u8, clock: Option<Pid>) -> Result<(), NoMemory>
    ensures { OnOk result (Keeps Trace text.old.items text.new.items) }
{
    put_event(
        text,
        &[
            Piece::Word(b"{\"ph\":\"M\",\"pid\":1,\"tid\":"),
            Piece::Number(pid.into()),
            Piece::Word(b",\"name\":\"thread_name\",\"args\":{\"name\":\"P"),
            Piece::Number(pid.into()),
            Piece::Clock(is_clock(clock, Pid(pid))),
            Piece::Word(b"\"}},\n"),
        ],
    )
}

/// The first lines, with the names of so many processes.
fn first_lines(alloc: Global, procs: u8, clock: Option<Pid>) -> Result<Vec<u8>, NoMemory>
    ensures { IfOk result (λ text. AtLine Trace text.items) }
{
    let mut text = Vec::from_slice(
        alloc,
        b"{\"traceEvents\":[\n{\"ph\":\"M\",\"pid\":1,\"name\":\"process_name\",\"args\":{\"name\":\"processes\"}},\n",
    )?;
    for pid in 0..procs {
        put_name(&mut text, pid, clock)?;
    }
    Ok(text)
}

/// Appends the last lines. No comma stands behind the last event.
fn put_end(text: &mut Vec<u8>) -> Result<(), NoMemory>
    ensures { OnOk result (Leads (AtLine Trace) IsJson text.old.items text.new.items) }
{
    put_pieces(
        text,
        &[Piece::Word(
            b"{\"ph\":\"M\",\"pid\":2,\"name\":\"process_name\",\"args\":{\"name\":\"ports\"}}\n]}\n",
        )],
    )
}

/// An event, with the entry that it is told of, and what the clock has to do with it.
#[derive(Clone, Copy)]
struct Said<'a> {
    /// The event.
    told: &'a Told,
    /// The entry.
    entry: &'a EntryRef<'a>,
    /// The clock's part.
    part: Part,
}

/// Appends the slice of an entry, until the end of so many steps.
fn put_slice(text: &mut Vec<u8>, waited: bool, end: u64, said: &Said<'_>) -> Result<(), NoMemory>
    ensures { OnOk result (Keeps Trace text.old.items text.new.items) }
{
    put_event(
        text,
        &[
            Piece::Word(b"{\"ph\":\"X\",\"pid\":1,\"tid\":"),
            Piece::Number(said.told.event.pid.0.into()),
            Piece::Word(b",\"ts\":"),
            Piece::Number(number_of(said.told.asked)),
            Piece::Word(b",\"dur\":"),
            Piece::Number(end.saturating_sub(said.told.asked.into())),
            Piece::Word(b",\"cat\":\""),
            Piece::Waited(waited),
            Piece::Word(b"\",\"name\":\""),
            Piece::Asks(said.entry),
            Piece::Word(b"\",\"args\":{\"told\":\""),
            Piece::Tells(said.part, said.told.event.what),
            Piece::Word(b"\"}},\n"),
        ],
    )
}

/// Appends the slice of an entry, where the event ended it.
fn put_ended(text: &mut Vec<u8>, said: &Said<'_>) -> Result<(), NoMemory>
    ensures { OnOk result (Keeps Trace text.old.items text.new.items) }
{
    let told = said.told;
    if told.event.what.is_parked() {
        return Ok(());
    }
    put_slice(text, told.asked < told.by, number_of(told.by), said)
}

/// Whether an event of this step has a mark.
fn is_marked(step: &StepRef<'_>, what: What) -> bool {
    match what {
        What::Stalled | What::Cancelled => true,
        What::Done => matches!(step, Step::Close(_) | Step::Reopen { .. } | Step::Start(_)),
        _ => false,
    }
}

/// Where the mark of this process's step stands.
fn marked_process(pid: u8, step: &StepRef<'_>) -> u8 {
    match step {
        Step::Start(started) => started.0,
        _ => pid,
    }
}

/// Appends the mark of an event that has one.
fn put_mark(text: &mut Vec<u8>, said: &Said<'_>) -> Result<(), NoMemory>
    ensures { OnOk result (Keeps Trace text.old.items text.new.items) }
{
    if !is_marked(&said.entry.step, said.told.event.what) {
        return Ok(());
    }
    put_event(
        text,
        &[
            Piece::Word(b"{\"ph\":\"i\",\"s\":\"t\",\"pid\":1,\"tid\":"),
            Piece::Number(marked_process(said.told.event.pid.0, &said.entry.step).into()),
            Piece::Word(b",\"ts\":"),
            Piece::Number(number_of(said.told.by)),
            Piece::Word(b",\"name\":\""),
            Piece::Asks(said.entry),
            Piece::Word(b", "),
            Piece::Tells(said.part, said.told.event.what),
            Piece::Word(b"\"},\n"),
        ],
    )
}

/// What is known of a journal, and kept of its steps for the last lines.
#[derive(Drop)]
struct Events<'a> {
    /// The entries.
    entries: &'a ShortEntries,
    /// The clock, if one is.
    clock: Option<Pid>,
    /// The calls that wait, by arrival.
    waiting: Vec<Told>,
    /// The values that moved.
    traffic: Traffic,
}

/// Takes in an event: that a call waits, or how one ended.
fn note_waiting(waiting: &mut Vec<Told>, told: &Told) -> Result<(), AllocError> {
    if told.event.what.is_parked() {
        waiting.push(*told)?;
    } else {
        waiting.retain(|call| call.asked != told.asked);
    }
    Ok(())
}

impl Events<'_> {
    /// Appends the slices of the calls that wait in the end.
    fn put_waiting(&self, text: &mut Vec<u8>) -> Result<(), NoMemory>
        ensures { OnOk result (Keeps Trace text.old.items text.new.items) }
    {
        let mut room = CaseRoom::new();
        for told in &self.waiting {
            let Some(entry) = self.entries.get(told.asked as usize, &mut room) else {
                continue;
            };
            let said = Said {
                told,
                entry: &entry,
                part: Part::NoPart,
            };
            put_slice(text, true, self.entries.len() as u64, &said)?;
        }
        Ok(())
    }
}

impl Pen for Events<'_> {
    ghost format = { Trace };

    fn put(
        &mut self,
        text: &mut Vec<u8>,
        entry: &EntryRef<'_>,
        told: &Told,
        _came: &[Told],
    ) -> Result<(), NoMemory> {
        note_waiting(&mut self.waiting, told)?;
        self.traffic.note(self.entries, entry, told)?;
        let part = part_of(self.clock, self.entries, told);
        let said = Said { told, entry, part };
        put_ended(text, &said)?;
        put_mark(text, &said)
    }
}

/// Writes a journal of 1 to `MOST_PROCS` processes as a trace in Chrome's format, a step being a microsecond: a slice for each
/// entry until it ended; a mark for each call that was stalled or cancelled, for each close and reopen, and where a process is
/// started again; and for each port the values that went through it, as flows, and how many it held. Steps are counted from 1.
pub fn write_trace<W: Sink>(
    alloc: Global,
    journal: &ShortJournal,
    output: &mut W,
) -> Result<(), ViewFault>
    requires head { IsHead journal.now.head }
    requires few { length journal.now.entries < 2 ^ 32 - 1 }
    ensures whole { OnOk result (AppendsSome IsJson (W.contents output.old) (W.contents output.new)) }
    ensures beginning { OnErr result (AppendsSome IsBegun (W.contents output.old) (W.contents output.new)) }
    ensures err { IfErr result (Fails (W.failures output.old) (W.failures output.new)) }
    ensures ok { OnOk result (W.failures output.new ≡ W.failures output.old) }
{
    let mut events = Events {
        entries: journal.entries(),
        clock: clock_in(journal),
        waiting: Vec::new(alloc),
        traffic: Traffic::new(alloc)?,
    };
    let mut text = first_lines(alloc, journal.head().procs, events.clock)?;
    write_steps(output, &mut text, &mut events, journal)?;
    events.put_waiting(&mut text)?;
    events.traffic.write(output, &mut text)?;
    put_end(&mut text)?;
    write_whole(output, &text)?;
    Ok(())
}
