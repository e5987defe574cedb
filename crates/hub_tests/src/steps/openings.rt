//! Openings: how many processes, and which limits; and the texts of what refuses a hub or a run.

use super::rows::{count_run, open};
use crate::compare::{has_text, same};
use hub_base::{Edition, Fault};
use hub_core::{ListFault, OpenFault};
use std::alloc::Global;
use std::process::Abort;

const OPENINGS: &[(u8, u32, Option<OpenFault>)] = &[
    (0, 1, Some(OpenFault::BadProcs)),
    (65, 0, Some(OpenFault::BadProcs)),
    (255, 1_000_001, Some(OpenFault::BadProcs)),
    (1, 0, Some(OpenFault::BadLimit)),
    (1, 1_000_001, Some(OpenFault::BadLimit)),
    (64, 1_000_001, Some(OpenFault::BadLimit)),
    (1, 4294967295, Some(OpenFault::BadLimit)),
    (1, 1, None),
    (64, 1_000_000, None),
];

#[test]
fn openings_have_bounds(rt: HostRuntime) {
    for (procs, limit, fault) in OPENINGS {
        opens(&rt, rt.alloc(), *procs, *limit, *fault);
    }
}

/// What opens a hub, or refuses it, does so to a run as well.
fn opens(rt: &impl Abort, alloc: Global, procs: u8, limit: u32, fault: Option<OpenFault>) {
    let opened = open(alloc, Edition::One, procs, limit).err();
    same(rt, opened, fault, (procs, limit));
    let ran = count_run(rt, alloc, procs, limit, &[]).err();
    same(rt, ran, fault.map(ListFault::Open), (procs, limit));
}

#[test]
fn opening_faults_have_numbers(rt: HostRuntime) {
    for (fault, number) in [
        (OpenFault::BadProcs, 1),
        (OpenFault::BadLimit, 2),
        (OpenFault::NoMemory, 3),
    ] {
        same(&rt, fault.number(), number, fault);
    }
}

const FULL: ListFault = ListFault::At {
    index: 3,
    fault: Fault::JournalFull,
};

const FAULTS: &[(ListFault, &str)] = &[
    (
        ListFault::Open(OpenFault::BadProcs),
        "no hub: the number of processes is not 1 to 64",
    ),
    (
        ListFault::Open(OpenFault::BadLimit),
        "no hub: the limit is not 1 to 1000000",
    ),
    (
        ListFault::Open(OpenFault::NoMemory),
        "no hub: out of memory",
    ),
    (FULL, "entry 3: the journal is full"),
];

#[test]
fn faults_have_texts(rt: HostRuntime) {
    for (fault, text) in FAULTS {
        has_text(&rt, rt.alloc(), *fault, text);
    }
}
