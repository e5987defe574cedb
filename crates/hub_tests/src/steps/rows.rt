//! What happens to a hub, row by row.

use super::entries::{Ask, Told, entry_of, is_made, make_step};
use crate::compare::same;
use hub_base::{Edition, Entry, Event, Events, Fault, Head, Look, Port, Value};
use hub_core::{Hub, ListFault, OpenFault, run};
use std::alloc::Global;
use std::process::Abort;
use std::test::Fail;

/// What happens to a hub.
#[derive(Clone, Copy)]
pub(super) enum Row {
    /// The process makes a step, and these are told of it.
    Steps(u8, Ask, &'static [(u8, Told)]),
    /// Its step is refused.
    Refuses(u8, Ask, Fault),
    /// The port shows this.
    Shows(u16, Option<Look>),
    /// At this place in the buffer of a port lies this number.
    Holds(u16, u32, Option<u64>),
    /// So many steps are reserved.
    Reserves(u32),
    /// The journal has so many entries.
    Keeps(usize),
    /// Allocations are refused from here on.
    Begins,
}

/// How many bytes the allocation has by which the script knows where refusals begin.
const MARK: usize = 7_777_777;

/// Allocations are refused from here on.
pub(super) fn begin(alloc: Global) {
    let _mark: Result<Vec<u8>, _> = Vec::with_capacity(alloc, MARK);
}

/// It shows the script that memory is refused by now.
fn allocate(alloc: Global) {
    let _refused: Result<Vec<u8>, _> = Vec::with_capacity(alloc, 1);
}

/// What a hub shows of a port: its counts, and the two oldest values in its buffer.
type Shown = (Option<Look>, Option<Value>, Option<Value>);

fn shown_at(hub: &Hub, port: u16) -> Shown {
    let port = Port(port);
    (hub.look(port), hub.buffered(port, 0), hub.buffered(port, 1))
}

/// Of ports 0 to 2.
fn look_at(hub: &Hub) -> [Shown; 3] {
    [shown_at(hub, 0), shown_at(hub, 1), shown_at(hub, 2)]
}

/// The hub has the steps of these rows and shows this, as before.
fn is_as_before(rt: &impl Abort, hub: &Hub, before: &[Row], looked: [Shown; 3]) {
    are_kept(rt, "before", hub.entries(), before);
    same(rt, look_at(hub), looked, "looks");
}

/// Makes a step behind those of these rows. Where memory was refused the hub is as before, and the step is made again.
fn step(
    rt: &impl Abort,
    hub: &mut Hub,
    before: &[Row],
    pid: u8,
    asked: Ask,
) -> Result<Events, Fault> {
    let looked = look_at(hub);
    let made = make_step(rt, hub, entry_of(pid, asked));
    if let Err(Fault::NoMemory) = made {
        is_as_before(rt, hub, before, looked);
        return make_step(rt, hub, entry_of(pid, asked));
    }
    made
}

/// Reserves steps. Where memory was refused the hub is as before, and they are reserved again.
fn reserve(rt: &impl Abort, hub: &mut Hub, before: &[Row], steps: u32) {
    let looked = look_at(hub);
    if hub.reserve(steps).is_err() {
        is_as_before(rt, hub, before, looked);
        same(rt, hub.reserve(steps).is_ok(), true, "reserved again");
    }
}

/// Has this happen to a hub, behind those rows.
fn follow_row(
    rt: &impl Abort,
    alloc: Global,
    hub: &mut Hub,
    before: &[Row],
    row: Row,
    place: (&str, usize),
) {
    match row {
        Row::Steps(pid, asked, told) => is_made(rt, step(rt, hub, before, pid, asked), told, place),
        Row::Refuses(pid, asked, fault) => {
            let refused = make_step(rt, hub, entry_of(pid, asked)).err();
            same(rt, refused, Some(fault), place);
        }
        Row::Shows(port, look) => same(rt, hub.look(Port(port)), look, place),
        Row::Holds(port, at, number) => {
            let value = hub.buffered(Port(port), at);
            same(rt, value, number.map(Value::num), place);
        }
        Row::Reserves(steps) => reserve(rt, hub, before, steps),
        Row::Keeps(count) => same(rt, hub.entries().len(), count, place),
        Row::Begins => {
            begin(alloc);
            allocate(alloc);
        }
    }
}

fn follow(rt: &impl Abort, alloc: Global, hub: &mut Hub, name: &str, rows: &[Row]) {
    for (place, row) in rows.iter().enumerate() {
        let before = rows.get(..place).unwrap_or_default();
        follow_row(rt, alloc, hub, before, *row, (name, place));
    }
}

/// The steps of these rows, as entries.
pub(super) fn entries_of(alloc: Global, rows: &[Row]) -> Result<Vec<Entry>, Fail> {
    let mut entries = Vec::new(alloc);
    for row in rows {
        if let Row::Steps(pid, asked, _) = row {
            entries.push(entry_of(*pid, *asked))?;
        }
    }
    Ok(entries)
}

/// The entries are the steps of these rows that were not refused, in order.
pub(super) fn are_kept(rt: &impl Abort, name: &str, entries: &[Entry], rows: &[Row]) {
    let mut place = 0usize;
    for row in rows {
        if let Row::Steps(pid, asked, _) = row {
            let entry = entry_of(*pid, *asked);
            same(rt, entries.get(place), Some(&entry), (name, place));
            place = place.saturating_add(1);
        }
    }
    same(rt, entries.len(), place, name);
}

/// A hub of this edition and limit, with so many processes.
pub(super) fn open(
    alloc: Global,
    edition: Edition,
    procs: u8,
    limit: u32,
) -> Result<Hub, OpenFault> {
    Hub::open(alloc, procs, limit, edition)
}

/// Opens a hub and, where memory was refused, another.
fn open_again(alloc: Global, edition: Edition, procs: u8, limit: u32) -> Result<Hub, OpenFault> {
    match open(alloc, edition, procs, limit) {
        Err(OpenFault::NoMemory) => open(alloc, edition, procs, limit),
        hub => hub,
    }
}

/// Runs these entries at a hub of the first edition, which must have them.
pub(super) fn run_all(
    rt: &impl Abort,
    alloc: Global,
    procs: u8,
    limit: u32,
    entries: &[Entry],
) -> Result<(Hub, Vec<Event>), ListFault> {
    assert!(rt; Edition::One.has_all(entries));
    run(alloc, procs, limit, Edition::One, entries)
}

/// How many entries such a run keeps, and how many events it tells.
pub(super) fn count_run(
    rt: &impl Abort,
    alloc: Global,
    procs: u8,
    limit: u32,
    entries: &[Entry],
) -> Result<(usize, usize), ListFault> {
    match run_all(rt, alloc, procs, limit, entries) {
        Ok(ran) => Ok(counts_of(ran)),
        Err(fault) => Err(fault),
    }
}

fn counts_of(ran: (Hub, Vec<Event>)) -> (usize, usize) {
    (ran.0.entries().len(), ran.1.len())
}

/// A story of a hub: its name, the hub's edition, how many processes the hub has, its limit, and what happens to it.
pub(super) type Story<'a> = (&'a str, Edition, u8, u32, &'a [Row]);

/// Opens the hub, and has this happen, each time again where memory was refused. What is left is its journal.
pub(super) fn tell(rt: &impl Abort, alloc: Global, story: &Story) {
    let (name, edition, procs, limit, _) = *story;
    match open_again(alloc, edition, procs, limit) {
        Ok(hub) => tell_of(rt, alloc, hub, story),
        Err(fault) => same(rt, Some(fault), None, name),
    }
}

fn tell_of(rt: &impl Abort, alloc: Global, hub: Hub, story: &Story) {
    let (name, edition, procs, _, rows) = *story;
    let mut hub = hub;
    follow(rt, alloc, &mut hub, name, rows);
    same(rt, hub.head(), Head { edition, procs }, name);
    let journal = hub.into_journal();
    same(rt, journal.head(), Head { edition, procs }, name);
    are_kept(rt, name, journal.entries(), rows);
}
