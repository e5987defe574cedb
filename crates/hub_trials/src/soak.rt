//! Rounds of random calls in many threads, each compared with the replay of its journal.

ghost use Rattle.std.specs.Prelude.{◌≡◌, All, IfSome, OnOk};
ghost use Rattle.hub_base.specs.Head.{AreOf};
ghost use Rattle.hub_trials.specs.Answers.{answers_to};

use crate::answers::{first_wrong, saw_the_same};
use crate::beginning::hold_with_ports;
use crate::chances::{Chances, PORTS};
use crate::pair::{Pair, Process, pairs_of};
use crate::random_calls::{RandomTask, Until};
use crate::trouble::Trouble;
use hub_base::{Counts, Edition, Event, Journal, Port};
use hub_core::{Hub, run};
use hub_crew::{Member, run_crew};
use hub_live::{Blank, HubName, LiveHub, Seat};
use std::alloc::{AllocError, Global};
use std::marker::Brand;
use std::sync::Wait;
use std::thread::Threads;
use std::time::{Clock, Duration, Instant};

const PROCS: u8 = 64;

const LIMIT: u32 = 100_000;

/// The capacities of the ports.
const CAPACITIES: [u32; PORTS as usize] = [
    0, 1, 2, 3, 0, 1, 2, 3, 0, 1, 2, 3, 0, 1, 2, 3, 0, 1, 2, 3, 0, 1, 2, 3, 0, 1, 2, 3, 0, 1, 2, 3,
    0, 1, 2, 3, 0, 1, 2, 3,
];

/// How much was tried.
#[derive(Clone, Copy)]
pub struct Tally {
    pub rounds: u64,
    pub answers: u64,
    pub seconds: u64,
}

/// What the hub shows of each port, in order.
fn shown_by(alloc: Global, hub: &Hub) -> Result<Vec<Option<Counts>>, AllocError> {
    let mut shown = Vec::new(alloc);
    for port in 0..PORTS {
        shown.push(hub.look(Port(port + 1)).map(|look| look.counts))?;
    }
    Ok(shown)
}

/// The pairs, whose threads have ended, once each process has looked at all ports.
fn ended<K: HubName>(
    alloc: Global,
    hub: &LiveHub<K>,
    done: Vec<Member<Pair<K>, Result<(), Trouble>>>,
) -> Result<Vec<Pair<K>>, Trouble> {
    let mut pairs = Vec::new(alloc);
    for member in done {
        let Member { mut seat, report } = member;
        report?;
        seat.look_at_all(hub)?;
        pairs.push(seat).map_err(AllocError::from)?;
    }
    Ok(pairs)
}

/// Whether the process was answered as these events say, and saw in the end what is shown.
fn compare_process<K: HubName>(
    alloc: Global,
    process: &Process<K>,
    events: &[Event],
    shown: &[Option<Counts>],
) -> Result<(), Trouble>
    ensures told { OnOk result (process.now.told.items ≡ answers_to process.now.seat.pid events.now) }
    ensures looks { OnOk result (process.now.looks.items ≡ shown.now) }
{
    let pid = process.seat.pid();
    if let Some(place) = first_wrong(alloc, pid, process.told.as_slice(), events)? {
        return Err(Trouble::Differs { pid: pid.0, place });
    }
    if !saw_the_same(process.looks.as_slice(), shown) {
        return Err(Trouble::LooksDiffer { pid: pid.0 });
    }
    Ok(())
}

/// The same of both processes of a pair.
fn compare_pair<K: HubName>(
    alloc: Global,
    pair: &Pair<K>,
    events: &[Event],
    shown: &[Option<Counts>],
) -> Result<(), Trouble>
    ensures told { OnOk result (pair.now.active.told.items ≡ answers_to pair.now.active.seat.pid events.now) }
    ensures looks { OnOk result (pair.now.active.looks.items ≡ shown.now) }
    ensures other_told { OnOk result (IfSome pair.now.other (λ o.
        o.told.items ≡ answers_to o.seat.pid events.now)) }
    ensures other_looks { OnOk result (IfSome pair.now.other (λ o. o.looks.items ≡ shown.now)) }
{
    compare_process(alloc, &pair.active, events, shown)?;
    match &pair.other {
        Some(other) => compare_process(alloc, other, events, shown),
        None => Ok(()),
    }
}

/// The same of each process.
fn compare<K: HubName>(
    alloc: Global,
    pairs: &[Pair<K>],
    events: &[Event],
    shown: &[Option<Counts>],
) -> Result<(), Trouble>
    ensures told { OnOk result (All (λ p.
        (p.active.told.items ≡ answers_to p.active.seat.pid events.now)
        × IfSome p.other (λ o. o.told.items ≡ answers_to o.seat.pid events.now)) pairs.now) }
    ensures looks { OnOk result (All (λ p.
        (p.active.looks.items ≡ shown.now) × IfSome p.other (λ o. o.looks.items ≡ shown.now)) pairs.now) }
{
    for pair in pairs {
        compare_pair(alloc, pair, events, shown)?;
    }
    Ok(())
}

/// Whether each process was answered as the replay of the journal answers it, and saw in the end what that shows.
fn compare_replay<K: HubName>(
    alloc: Global,
    pairs: &[Pair<K>],
    journal: &Journal,
) -> Result<(), Trouble>
    requires { AreOf journal.now.head.edition journal.now.entries }
{
    let (procs, edition) = (journal.procs(), journal.edition());
    let Ok((replayed, events)) = run(alloc, procs, LIMIT, edition, journal.entries()) else {
        return Err(Trouble::NoReplay);
    };
    let shown = shown_by(alloc, &replayed)?;
    compare(alloc, pairs, events.as_slice(), shown.as_slice())
}

fn answers_of<K: HubName>(pairs: &[Pair<K>]) -> u64 {
    let mut answers = 0u64;
    for pair in pairs {
        answers = answers.wrapping_add(pair.answers() as u64);
    }
    answers
}

/// Makes the ports, and then the random calls of each pair in a thread of its own.
fn in_threads<K: HubName + Send + Sync, R: Threads + Wait + Clock + Sync>(
    rt: &R,
    alloc: Global,
    hub: &LiveHub<K>,
    seats: Vec<Seat>,
    seed: u64,
    until: Until,
) -> Result<Vec<Pair<K>>, Trouble>
    requires { All (λ s. s.hub ≡ K.name) seats.items }
{
    let (seats, made) = hold_with_ports(rt, alloc, hub, seats, &CAPACITIES)?;
    let mut pairs = pairs_of(alloc, hub, seats)?;
    if let Some(pair) = pairs.first_mut() {
        pair.active.told = made;
    }
    match run_crew(rt, alloc, hub, pairs, RandomTask { seed, until }) {
        Ok(done) => ended(alloc, hub, done),
        Err(_) => Err(Trouble::NotStarted),
    }
}

/// One hub with its threads, and the comparison. The number of answers.
fn in_round<K: HubName + Send + Sync, R: Threads + Wait + Clock + Sync>(
    rt: &R,
    alloc: Global,
    blank: Blank,
    seats: Vec<Seat>,
    seed: u64,
    until: Until,
) -> Result<u64, Trouble>
    requires named { blank.name ≡ K.name }
    requires seats { All (λ s. s.hub ≡ K.name) seats.items }
{
    let hub = blank.named::<K>();
    let pairs = in_threads(rt, alloc, &hub, seats, seed, until)?;
    let journal = hub.finish(Vec::new(alloc));
    compare_replay(alloc, pairs.as_slice(), &journal)?;
    Ok(answers_of(pairs.as_slice()))
}

fn round<R: Threads + Wait + Clock + Sync>(
    rt: &R,
    alloc: Global,
    edition: Edition,
    seed: u64,
    limit: Duration,
) -> Result<u64, Trouble> {
    let until = Until {
        began: Instant::now(rt)?,
        limit,
    };
    let (blank, seats) = Blank::open(alloc, PROCS, LIMIT, edition)?;
    in_round::<Brand, R>(rt, alloc, blank, seats, seed, until)
}

/// Rounds of the first and of the third edition in turn until so many seconds have gone: one of each at least, none of
/// which takes more than half the time.
pub fn soak<R: Threads + Wait + Clock + Sync>(
    rt: &R,
    alloc: Global,
    seconds: u64,
    seed: u64,
) -> Result<Tally, Trouble> {
    let began = Instant::now(rt)?;
    let half = Duration::from_millis(seconds.saturating_mul(500));
    let mut seeds = Chances::of(seed);
    let mut tally = Tally {
        rounds: 0,
        answers: 0,
        seconds: 0,
    };
    for _ in rt.forever() {
        for edition in [Edition::One, Edition::Three] {
            let answers = round(rt, alloc, edition, seeds.word(), half)?;
            tally.rounds = tally.rounds.wrapping_add(1);
            tally.answers = tally.answers.wrapping_add(answers);
        }
        tally.seconds = began.elapsed(rt)?.as_secs();
        if tally.seconds >= seconds {
            break;
        }
    }
    Ok(tally)
}
