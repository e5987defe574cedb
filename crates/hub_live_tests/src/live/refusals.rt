//! What stays where memory, or the start of a thread, is refused. The gate has both; `tests/drive/refusals.py` runs these
//! tests with each of their allocations refused that comes after `begin`, and that of a crew with each start too.

ghost use Rattle.std.specs.Prelude.{◌≡◌, All, vec_len};

use super::rows::{Act, ask};
use super::stories::{Runtime, tell_row};
use super::tasks::Crew;
use super::threads::{all_make_their_own, is_made};
use super::{Ask, DONE, MADE, ONE_WAITS, SENT, Told, compare, entry_of};
use crate::compare::same;
use hub_base::{Edition, Event, Fault, Pid};
use hub_core::OpenFault;
use hub_crew::{Member, Task, run_crew};
use hub_live::{Blank, Held, HubName, LiveHub, Seat, hold_all};
use std::alloc::{AllocError, Global};
use std::marker::Brand;
use std::process::Abort;
use std::sync::Wait;
use std::test::Fail;

/// How many bytes the allocation has by which the script knows where refusals begin.
const MARK: usize = 7_777_777;

/// Allocations, and starts of threads, are refused from here on.
pub(super) fn begin(alloc: Global) {
    let _mark: Result<Vec<u8>, _> = Vec::with_capacity(alloc, MARK);
}

/// It shows the script that memory is refused by now.
pub(super) fn allocate(alloc: Global) {
    let _refused: Result<Vec<u8>, _> = Vec::with_capacity(alloc, 1);
}

#[test]
fn opening_is_whole_or_refused(rt: HostRuntime) {
    begin(rt.alloc());
    match Blank::open(rt.alloc(), 4, 100, Edition::One) {
        Ok((_blank, seats)) => same(&rt, seats.len(), 4, "seats"),
        Err(fault) => same(&rt, fault, OpenFault::NoMemory, "refused"),
    }
}

// A step that was refused memory left no entry, and is answered where it is made again.
#[test]
fn refused_step_is_made_again(rt: HostRuntime) -> Result<(), Fail> {
    let rows = &[(0, Act::Begins), (0, Act::PassesAgain)];
    tell_row(&rt, &("again", 1, (1, 100), rows, Crew::None, Some(41)))
}

/// Makes a channel and passes twenty values through it; each call is made again where memory was refused.
pub(super) fn pass_again<K: HubName, R: Wait + Abort>(
    rt: &R,
    hub: &LiveHub<K>,
    seat: &mut Held<K>,
) {
    again(rt, hub, seat, Ask::Make(1), MADE);
    for number in 0..20 {
        again(rt, hub, seat, Ask::Send(number), SENT);
        again(rt, hub, seat, Ask::Recv, Told::Got(number));
    }
}

/// Makes the step, once more where memory was refused, and is told.
fn again<K: HubName, R: Wait + Abort>(
    rt: &R,
    hub: &LiveHub<K>,
    seat: &mut Held<K>,
    asked: Ask,
    told: Told,
) {
    let answer = ask_again(rt, hub, seat, asked);
    compare(rt, answer, seat.pid(), told, "again");
}

/// Makes the step and, where memory was refused, the same once more.
fn ask_again<K: HubName, R: Wait>(
    rt: &R,
    hub: &LiveHub<K>,
    seat: &mut Held<K>,
    asked: Ask,
) -> Result<Event, Fault>
    ensures { seat.new.pid ≡ seat.old.pid }
{
    let answer = ask(rt, hub, seat, asked);
    if answer == Err(Fault::NoMemory) {
        return ask(rt, hub, seat, asked);
    }
    answer
}

/// Each makes a channel of its own capacity, once more where memory was refused.
#[derive(Clone, Copy)]
struct MakeOwn;

impl<K: HubName, R: Wait> Task<LiveHub<K>, Held<K>, R> for MakeOwn {
    type Report = Result<Event, Fault>;

    fn perform(self, rt: &R, hub: &LiveHub<K>, seat: &mut Held<K>) -> Result<Event, Fault> {
        let Pid(pid) = seat.pid();
        ask_again(rt, hub, seat, Ask::Make(7 + u32::from(pid)))
    }
}

/// How many channels a crew of three made: one each, or none where it was refused.
fn made_by<K: HubName>(
    rt: &impl Abort,
    crew: Result<Vec<Member<Held<K>, Result<Event, Fault>>>, AllocError>,
) -> usize {
    let Ok(members) = crew else {
        return 0;
    };
    for member in &members {
        same(rt, is_made(Some(member.report)), true, member.seat.pid());
    }
    same(rt, members.len(), 3, "members");
    3
}

// Where memory or the start of a thread is refused, no thread begins that was started before, and no step is made.
#[test]
fn refused_crew_makes_no_step(rt: HostRuntime) -> Result<(), Fail> {
    let (blank, seats) = Blank::open(rt.alloc(), 3, 100, Edition::One)?;
    make_or_none::<Brand, _>(&rt, blank, seats)
}

fn make_or_none<K: HubName + Send + Sync, R: Runtime>(
    rt: &R,
    blank: Blank,
    seats: Vec<Seat>,
) -> Result<(), Fail>
    requires named { blank.name ≡ K.name }
    requires seats { All (λ s. s.hub ≡ K.name) seats.items }
{
    let hub = blank.named::<K>();
    let held = hold_all::<K>(rt.alloc(), seats)?;
    begin(rt.alloc());
    let made = made_by(rt, run_crew(rt, rt.alloc(), &hub, held, MakeOwn));
    let journal = hub.finish(Vec::new(rt.alloc()));
    same(rt, journal.entries().len(), made, "entries");
    all_make_their_own(rt, journal.entries());
    Ok(())
}

const ENDING: &[(u8, Act)] = &[
    (0, Act::Makes(1, Ok(1))),
    (0, Act::Asks(Ask::Send(4), SENT)),
    (0, Act::Begins),
    (0, Act::Allocates),
    (0, Act::Sees(1, Some(ONE_WAITS))),
    (0, Act::Meets),
    (1, Act::Sees(1, Some(ONE_WAITS))),
    (0, Act::Asks(Ask::Exit, DONE)),
    (1, Act::Asks(Ask::Exit, DONE)),
];

// Looks, meetings, exits and the end take no memory.
#[test]
fn last_calls_take_no_memory(rt: HostRuntime) -> Result<(), Fail> {
    tell_row(&rt, &("last", 1, (2, 100), ENDING, Crew::None, Some(4)))
}

// The end takes no memory, where all seats are handed in: one that knows the whole journal, and two that know none of it.
#[test]
fn end_takes_no_memory(rt: HostRuntime) -> Result<(), Fail> {
    open_and_end(&rt, true)
}

// Nor does it where no seat is handed in.
#[test]
fn end_without_seats_takes_no_memory(rt: HostRuntime) -> Result<(), Fail> {
    open_and_end(&rt, false)
}

/// Opens a hub of three processes, and ends it with all seats or none.
fn open_and_end<R: Runtime>(rt: &R, with_seats: bool) -> Result<(), Fail> {
    let (blank, seats) = Blank::open(rt.alloc(), 3, 100, Edition::One)?;
    make_and_end::<Brand, R>(rt, blank, seats, with_seats)
}

/// Process 2 makes a channel, before the hub ends.
fn make_and_end<K: HubName, R: Runtime>(
    rt: &R,
    blank: Blank,
    seats: Vec<Seat>,
    with_seats: bool,
) -> Result<(), Fail>
    requires named { blank.name ≡ K.name }
    requires count { vec_len seats ≡ 3 }
    requires seats { All (λ s. s.hub ≡ K.name) seats.items }
{
    let hub = blank.named::<K>();
    let mut seats = seats;
    compare(rt, hub.make(rt, &mut seats[2], 7), Pid(2), MADE, "make");
    if with_seats {
        end(rt, hub, seats);
    } else {
        end(rt, hub, Vec::new(rt.alloc()));
    }
    Ok(())
}

/// Memory is refused, and the hub ends with these seats.
fn end<K: HubName, R: Runtime>(rt: &R, hub: LiveHub<K>, seats: Vec<Seat>)
    requires { All (λ s. s.hub ≡ K.name) seats.items }
{
    begin(rt.alloc());
    allocate(rt.alloc());
    let journal = hub.finish(seats);
    let made = [entry_of(2, Ask::Make(7))];
    same(rt, journal.entries(), &made, "entries");
}
