//! What a gate sees of a run: that threads run at the same time, and what is counted before each call.

use crate::compare::same;
use crate::live::stories::Runtime;
use hub_runner::{Gate, PortReport, Report, run_scenario};
use hub_scenario::{Scenario, read_scenario};
use std::alloc::Global;
use std::process::Abort;
use std::sync::atomic::{AtomicBool, AtomicU32, Ordering};
use std::thread;

/// The report of a run of the scenario with this text, each of whose calls passes the gate, if there is one.
fn run_by<G: Gate + Sync>(
    rt: &impl Runtime,
    alloc: Global,
    text: &[u8],
    gate: &G,
) -> Option<Report> {
    match read_scenario(alloc, text) {
        Ok(scenario) => run_read(rt, alloc, scenario, gate),
        Err(_) => None,
    }
}

fn run_read<G: Gate + Sync>(
    rt: &impl Runtime,
    alloc: Global,
    scenario: Scenario,
    gate: &G,
) -> Option<Report> {
    run_scenario(rt, alloc, &scenario, gate).ok()
}

/// Holds the first call of each of two processes until the other has come to its own.
#[derive(Drop)]
struct Meeting {
    first: AtomicBool,
    second: AtomicBool,
    missed: AtomicBool,
}

impl Gate for Meeting {
    fn enter(&self, pid: u8, n: u32) {
        if n > 0 {
            return;
        }
        let (mine, other) = if pid == 0 {
            (&self.first, &self.second)
        } else {
            (&self.second, &self.first)
        };
        mine.store(true, Ordering::SeqCst);
        for _ in 0..10_000_000u32 {
            if other.load(Ordering::SeqCst) {
                return;
            }
            // Else the other may not get a processor while this one turns.
            thread::yield_now();
        }
        self.missed.store(true, Ordering::SeqCst);
    }
}

const MEETING: &[u8] =
    b"ports = [1, 1]\nprocess = [{steps = ['send 1 1']}, {steps = ['send 2 2']}]\n";

// On one thread the first process would wait in vain for the second.
#[test]
fn processes_run_at_the_same_time(rt: HostRuntime) {
    for _ in 0..100u32 {
        meet(&rt, rt.alloc());
    }
}

fn meet(rt: &impl Runtime, alloc: Global) {
    let gate = Meeting {
        first: AtomicBool::new(false),
        second: AtomicBool::new(false),
        missed: AtomicBool::new(false),
    };
    match run_by(rt, alloc, MEETING, &gate) {
        Some(report) => have_met(rt, report),
        None => same(rt, false, true, "a run that meets"),
    }
    same(rt, gate.missed.load(Ordering::SeqCst), false, "missed");
}

fn have_met(rt: &impl Abort, report: Report) {
    each_has_one(rt, report.ports.as_slice());
    let found = (
        report.stalled,
        report.faults,
        report.journal.entries().len(),
    );
    same(rt, found, (0, 0, 6), "stalls, faults, entries");
}

/// Both ports hold the value that was sent there.
fn each_has_one(rt: &impl Abort, ports: &[PortReport]) {
    let wanted = PortReport {
        cap: 1,
        sent: 1,
        received: 0,
        left: 1,
        sum: 0,
        closed: false,
    };
    same(rt, ports.len(), 2, "ports");
    for port in ports {
        same(rt, *port, wanted, "port");
    }
}

/// Counts the calls of all processes, and adds up their numbers.
#[derive(Drop)]
struct Counting {
    calls: AtomicU32,
    numbers: AtomicU32,
}

impl Gate for Counting {
    fn enter(&self, _pid: u8, n: u32) {
        self.calls.fetch_add(1, Ordering::SeqCst);
        self.numbers.fetch_add(n, Ordering::SeqCst);
    }
}

// Two sends and a close; two values and the end of the range. Each process counts from 0.
#[test]
fn each_receive_of_a_range_passes_the_gate(rt: HostRuntime) {
    let gate = Counting {
        calls: AtomicU32::new(0),
        numbers: AtomicU32::new(0),
    };
    let entries = match run_by(&rt, rt.alloc(), RANGE, &gate) {
        Some(report) => entries_in(report),
        None => 0,
    };
    let calls = gate.calls.load(Ordering::SeqCst);
    let numbers = gate.numbers.load(Ordering::SeqCst);
    same(
        &rt,
        (entries, calls, numbers),
        (9, 6, 6),
        "entries, calls, numbers",
    );
}

fn entries_in(report: Report) -> usize {
    report.journal.entries().len()
}

const RANGE: &[u8] =
    b"ports = [0]\nprocess = [{steps = ['send 1 4', 'send 1 5', 'close 1']}, {steps = ['range 1']}]\n";
