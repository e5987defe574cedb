//! Runs of scenarios.

ghost use Rattle.std.specs.Prelude.{◌≡◌, ◌≤◌, ◌<◌, [], List, IfOk, IfErr, IsErrOf, OnOk, All, map, vec_len};
ghost use mathlib.Core.List.{IsPrefix};
ghost use Rattle.hub_runner.specs.Prelude.{Entry, AreOf, steps_of, IsLegal, AreSeats, Later, scenario_view, run_head, IsReportOf};
ghost use Rattle.hub_runner.specs.Prelude.{IsCutShort, BeginsWithPorts, AreMakes, MakesStopped, IsReady, IsOutcome, HaveEnded};
ghost use Rattle.hub_runner.specs.Prelude.{ShowPorts, AllFollow, asked_of, asker_of, Onward};

use crate::fault::{RunFault, with_outcome};
use crate::following::Following;
use crate::gate::Gate;
use crate::report::Report;
use hub_base::{Fault, MOST_STEPS, NoMemory};
use hub_core::ShortJournal;
use hub_crew::{Member, run_crew};
use hub_live::{Blank, Held, HubName, LiveHub, Seat, hold_all};
use hub_scenario::Scenario;
use std::alloc::Global;
use std::marker::Brand;
use std::sync::Wait;
use std::thread::Threads;

/// The seats of processes that make no more steps, and why one of these was refused, if one was.
#[derive(Drop)]
struct Ended<K: HubName> {
    seats: Vec<Held<K>>,
    fault: Option<RunFault>,
}

/// Makes the ports, in order.
fn make_ports<K: HubName, R: Wait>(
    rt: &R,
    hub: &LiveHub<K>,
    seat: &mut Held<K>,
    ports: &[u32],
) -> Result<(), Fault>
    requires { asked_of seat.old ≡ [] }
    ensures onward { Onward seat.old seat.new }
    ensures ok { OnOk result (AreMakes ports.now (asked_of seat.new)) }
    ensures err { IfErr result (λ f. MakesStopped ports.now seat.new f) }
{
    for cap in ports {
        // Its contract says that the process has no open call.
        let _pid = seat.pid();
        seat.make(rt, hub, *cap)?;
    }
    Ok(())
}

/// Shows all other seats what the first one has seen, while nobody asks anything.
fn show_all<K: HubName>(hub: &LiveHub<K>, first: &mut Held<K>, others: &mut [Held<K>])
    ensures later { Later first.old first.new }
    ensures same { asker_of first.new ≡ asker_of first.old }
    ensures others { map asker_of others.new ≡ map asker_of others.old }
    ensures shown { All (λ s. IsPrefix first.old.seen s.seen) others.new }
{
    // Its contract says that the seat is idle, also where there are no others.
    let _pid = first.pid();
    for other in others.iter_mut() {
        first.meet(hub, other);
    }
}

/// The seats, once process 0 has made the ports and all have seen them; or as they are where a make was
/// refused.
fn make_ready<K: HubName, R: Wait>(
    rt: &R,
    hub: &LiveHub<K>,
    seats: Vec<Held<K>>,
    scenario: &Scenario,
) -> Result<Vec<Held<K>>, Ended<K>>
    requires head { K.name.terms.head ≡ run_head (scenario_view scenario.now) }
    requires some { 0 < vec_len seats }
    requires count { vec_len seats ≡ vec_len scenario.now.scripts }
    requires seats { AreSeats K.name 0 seats.items }
    ensures pids { IfOk result (λ r. map (λ s. s.pid) r.items ≡ map (λ s. s.pid) seats.items) }
    ensures ready { IfOk result (λ r. All (IsReady (scenario_view scenario.now)) r.items) }
    ensures err { IfErr result (λ h. HaveEnded (scenario_view scenario.now) K.name
        (map (λ s. s.pid) seats.items) h.seats.items h.fault) }
    ensures ports { IfErr result (λ h. ShowPorts (scenario_view scenario.now) h.seats.items h.fault) }
{
    let mut seats = seats;
    let Some((first, others)) = seats.split_first_mut() else {
        unreachable!()
    };
    match make_ports(rt, hub, first, &scenario.ports) {
        Ok(()) => {
            // Each of the others knows that its process has asked nothing. So once they see these makes, there
            // is nothing else before them.
            show_all(hub, first, others);
            Ok(seats)
        }
        Err(fault) => Err(Ended {
            seats,
            fault: Some(RunFault::from(fault)),
        }),
    }
}

/// The seats of processes whose threads have ended, and why a step was refused, if one was.
fn end_of<K: HubName>(
    alloc: Global,
    scenario: &Scenario,
    members: Vec<Member<Held<K>, Result<(), Fault>>>,
) -> Result<Ended<K>, NoMemory>
    requires { All (λ m. IsOutcome (scenario_view scenario.now) m.seat m.report) members.items }
    ensures ended { IfOk result (λ h. HaveEnded (scenario_view scenario.now) K.name
        (map (λ m. m.seat.pid) members.items) h.seats.items h.fault) }
    ensures ports { IfOk result (λ h. ShowPorts (scenario_view scenario.now) h.seats.items h.fault) }
{
    let mut seats = Vec::new(alloc);
    let mut fault = None;
    for member in members {
        let Member { seat, report } = member;
        // Its contract says of which hub the seat is.
        let _pid = seat.pid();
        fault = with_outcome(fault, report);
        let Ok(()) = seats.push(seat) else {
            return Err(NoMemory);
        };
    }
    Ok(Ended { seats, fault })
}

/// The seats, once the ports are made and each process has followed its script; or as they are where a
/// step was refused.
fn follow_all<K: HubName + Send + Sync, R: Threads + Wait + Sync, G: Gate + Sync>(
    rt: &R,
    alloc: Global,
    hub: &LiveHub<K>,
    seats: Vec<Seat>,
    scenario: &Scenario,
    gate: &G,
) -> Result<Ended<K>, NoMemory>
    requires head { K.name.terms.head ≡ run_head (scenario_view scenario.now) }
    requires some { 0 < vec_len seats }
    requires count { vec_len seats ≡ vec_len scenario.now.scripts }
    requires seats { AreSeats K.name 0 seats.items }
    requires hubs { All (λ s. s.hub ≡ K.name) seats.items }
    ensures ended { IfOk result (λ h. HaveEnded (scenario_view scenario.now) K.name
        (map (λ s. s.pid) seats.items) h.seats.items h.fault) }
    ensures ports { IfOk result (λ h. ShowPorts (scenario_view scenario.now) h.seats.items h.fault) }
{
    let held = hold_all(alloc, seats)?;
    match make_ready(rt, hub, held, scenario) {
        Ok(ready) => {
            let members = run_crew(rt, alloc, hub, ready, Following { scenario, gate })?;
            end_of(alloc, scenario, members)
        }
        Err(ended) => Ok(ended),
    }
}

/// The journal of a run over a hub that has a name.
fn run_named<K: HubName + Send + Sync, R: Threads + Wait + Sync, G: Gate + Sync>(
    rt: &R,
    alloc: Global,
    blank: Blank,
    seats: Vec<Seat>,
    scenario: &Scenario,
    gate: &G,
) -> Result<ShortJournal, RunFault>
    requires named { blank.name ≡ K.name }
    requires head { K.name.terms.head ≡ run_head (scenario_view scenario.now) }
    requires limit { K.name.terms.limit ≡ scenario.now.limit }
    requires count { vec_len seats ≡ vec_len scenario.now.scripts }
    requires seats { AreSeats K.name 0 seats.items }
    requires hubs { All (λ s. s.hub ≡ K.name) seats.items }
    ensures head { IfOk result (λ j. j.head ≡ run_head (scenario_view scenario.now)) }
    ensures legal { IfOk result (λ j. IsLegal j.head j.entries) }
    ensures fits { IfOk result (λ j. AreOf j.head.edition j.entries) }
    ensures few { IfOk result (λ j. steps_of j.entries ≤ K.name.terms.limit) }
    ensures ports { IfOk result (λ j. BeginsWithPorts (scenario_view scenario.now) j.entries) }
    ensures follows { IfOk result (λ j. AllFollow (scenario_view scenario.now) j.entries) }
    ensures full { IsErrOf result RunFault.JournalFull
        → (journal : List Entry) × IsCutShort (scenario_view scenario.now) journal }
{
    let hub = blank.named::<K>();
    let Ended { seats, fault } = follow_all(rt, alloc, &hub, seats, scenario, gate)?;
    // Also where a step was refused, since only the whole journal shows where each process had come to.
    let journal = hub.finish_short(alloc, seats)?;
    match fault {
        None => Ok(journal),
        Some(fault) => Err(fault),
    }
}

/// The journal of a run.
fn run_journal<R: Threads + Wait + Sync, G: Gate + Sync>(
    rt: &R,
    alloc: Global,
    scenario: &Scenario,
    gate: &G,
) -> Result<ShortJournal, RunFault>
    ensures head { IfOk result (λ j. j.head ≡ run_head (scenario_view scenario.now)) }
    ensures legal { IfOk result (λ j. IsLegal j.head j.entries) }
    ensures fits { IfOk result (λ j. AreOf j.head.edition j.entries) }
    ensures few { IfOk result (λ j. steps_of j.entries ≤ MOST_STEPS) }
    ensures ports { IfOk result (λ j. BeginsWithPorts (scenario_view scenario.now) j.entries) }
    ensures follows { IfOk result (λ j. AllFollow (scenario_view scenario.now) j.entries) }
    ensures full { IsErrOf result RunFault.JournalFull
        → (journal : List Entry) × IsCutShort (scenario_view scenario.now) journal }
{
    let procs = scenario.scripts.len() as u8;
    let Ok((blank, seats)) = Blank::open(alloc, procs, scenario.limit, scenario.edition) else {
        return Err(RunFault::NoMemory);
    };
    run_named::<Brand, _, _>(rt, alloc, blank, seats, scenario, gate)
}

/// Runs a scenario: process 0 makes the ports, and then each process follows its script in a thread
/// of its own. None begins before all are started. The report says what happened; its journal is kept short.
///
/// Its journal begins with the makes of the ports, and in it every process has followed its script.
/// Refused by `JournalFull` where the limit cut the run short: the processes made as many steps as it
/// allows, as their scripts say, and one asked for a step more. Refused by `NoMemory` where an allocation
/// or the start of a thread was refused. It returns once all threads have ended; that they do end is not
/// promised.
pub fn run_scenario<R: Threads + Wait + Sync, G: Gate + Sync>(
    rt: &R,
    alloc: Global,
    scenario: &Scenario,
    gate: &G,
) -> Result<Report, RunFault>
    ensures head { IfOk result (λ r. r.journal.head ≡ run_head (scenario_view scenario.now)) }
    ensures legal { IfOk result (λ r. IsLegal r.journal.head r.journal.entries) }
    ensures fits { IfOk result (λ r. AreOf r.journal.head.edition r.journal.entries) }
    ensures ports { IfOk result (λ r. BeginsWithPorts (scenario_view scenario.now) r.journal.entries) }
    ensures follows { IfOk result (λ r. AllFollow (scenario_view scenario.now) r.journal.entries) }
    ensures report { IfOk result (λ r. IsReportOf r.journal r) }
    ensures full { IsErrOf result RunFault.JournalFull
        → (journal : List Entry) × IsCutShort (scenario_view scenario.now) journal }
{
    let journal = run_journal(rt, alloc, scenario, gate)?;
    Ok(Report::of(alloc, journal)?)
}
