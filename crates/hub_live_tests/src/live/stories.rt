//! Stories of live hubs: what processes do with a new hub, first in one thread and then each in a thread of its own.

ghost use Rattle.std.specs.Prelude.{◌≡◌, All};

use super::one_thread::drain_plainly;
use super::rows::{Act, follow};
use super::tasks::Crew;
use super::threads::{all_make_their_own, in_threads, is_passed};
use crate::compare::same;
use crate::uses;
use hub_base::{Edition, Head, Journal};
use hub_live::{Blank, Held, HubName, LiveHub, Seat, hold_all};
use std::marker::Brand;
use std::process::Abort;
use std::sync::Wait;
use std::test::Fail;
use std::thread::Threads;

/// What the tests ask of the runtime.
pub(crate) trait Runtime: AllocGlobal + Threads + Wait + Abort + Sync {}

impl<R: AllocGlobal + Threads + Wait + Abort + Sync> Runtime for R {}

/// What is done with a new hub.
#[derive(Clone, Copy)]
pub(super) struct Story<'a> {
    pub name: &'a str,
    pub procs: u8,
    pub limit: u32,
    /// What is done in one thread, and by whom.
    pub rows: &'a [(u8, Act)],
    /// What each process then does in a thread of its own.
    pub crew: Crew,
    /// How many entries the journal has in the end, where that is known.
    pub entries: Option<usize>,
}

impl<'a> Story<'a> {
    /// Only cancels need the second edition, and only starts and reopens the third.
    fn head(&self) -> Head {
        let edition = match self.crew {
            Crew::Cancel => Edition::Two,
            Crew::Lives => Edition::Three,
            _ => Edition::One,
        };
        Head {
            edition,
            procs: self.procs,
        }
    }
}

/// The seats, where they are given back, once all is done.
fn tell_held<K: HubName + Send + Sync, R: Runtime>(
    rt: &R,
    hub: &LiveHub<K>,
    seats: Vec<Held<K>>,
    story: &Story,
) -> Result<Vec<Held<K>>, Fail> {
    let mut seats = seats;
    follow(rt, hub, &mut seats, story);
    match story.crew {
        Crew::None | Crew::Lives => Ok(seats),
        Crew::Plain => Ok(drain_plainly(rt, hub, seats)),
        Crew::HandOver => uses::hand_nine_over(rt, hub, seats),
        Crew::WorkOff => uses::work_off(rt, hub, seats),
        crew => in_threads(rt, hub, seats, crew),
    }
}

/// A hub has a name only where a function is generic over it, so each story is told from here.
fn tell_named<K: HubName + Send + Sync, R: Runtime>(
    rt: &R,
    blank: Blank,
    seats: Vec<Seat>,
    story: &Story,
) -> Result<(), Fail>
    requires named { blank.name ≡ K.name }
    requires seats { All (λ s. s.hub ≡ K.name) seats.items }
{
    let hub = blank.named::<K>();
    let held = hold_all::<K>(rt.alloc(), seats)?;
    let held = tell_held(rt, &hub, held, story)?;
    same(rt, hub.head(), story.head(), (story.name, "head"));
    compare(rt, &finish(rt, hub, held), story);
    Ok(())
}

/// The journal of a hub that ends, with these seats or none.
fn finish<K: HubName, R: AllocGlobal>(rt: &R, hub: LiveHub<K>, held: Vec<Held<K>>) -> Journal {
    if held.is_empty() {
        hub.finish(Vec::new(rt.alloc()))
    } else {
        hub.finish_held(held)
    }
}

/// The journal has so many entries, those of its crew.
fn compare(rt: &impl Abort, journal: &Journal, story: &Story) {
    let entries = journal.entries();
    let place = (story.name, "journal");
    same(rt, journal.head(), story.head(), place);
    if let Some(count) = story.entries {
        same(rt, entries.len(), count, place);
    }
    match story.crew {
        Crew::Pass => same(rt, is_passed(entries), true, place),
        Crew::MakeOwn => all_make_their_own(rt, entries),
        _ => {}
    }
}

/// Opens a hub, and tells the story of it.
fn tell<R: Runtime>(rt: &R, story: &Story) -> Result<(), Fail> {
    let Head { edition, procs } = story.head();
    let (blank, seats) = Blank::open(rt.alloc(), procs, story.limit, edition)?;
    tell_named::<Brand, R>(rt, blank, seats, story)
}

/// A story as a row of a table: its name; how often it is told; how many processes the hub has, and its limit; what is
/// done in one thread, and by whom; what each process then does in a thread of its own; and how many entries the journal
/// has in the end, where that is known.
pub(super) type Row<'a> = (
    &'a str,
    u32,
    (u8, u32),
    &'a [(u8, Act)],
    Crew,
    Option<usize>,
);

/// Tells the story of a row as often as it says, each time of a new hub: threads may come in any order.
pub(super) fn tell_row<R: Runtime>(rt: &R, row: &Row) -> Result<(), Fail> {
    let (name, times, (procs, limit), rows, crew, entries) = *row;
    let story = Story {
        name,
        procs,
        limit,
        rows,
        crew,
        entries,
    };
    for _ in 0..times {
        tell(rt, &story)?;
    }
    Ok(())
}
