//! The texts of what refuses a scenario, and of what ends a run.

use crate::compare::same;
use hub_runner::RunFault;
use hub_scenario::ScenarioFault;
use std::alloc::Global;
use std::fmt::Display;
use std::process::Abort;

const SCENARIOS: &[(ScenarioFault, &str)] = &[
    (ScenarioFault::TooLong, "too long"),
    (ScenarioFault::BadToml, "bad toml"),
    (ScenarioFault::BadKey, "bad key"),
    (ScenarioFault::BadSeed, "bad seed"),
    (ScenarioFault::BadLimit, "bad limit"),
    (ScenarioFault::BadJournal, "bad journal"),
    (ScenarioFault::BadPorts, "bad ports"),
    (ScenarioFault::BadProcesses, "bad processes"),
    (
        ScenarioFault::BadScript {
            process: 1,
            step: 20,
        },
        "bad script: process 1 step 20",
    ),
    (ScenarioFault::NoMemory, "out of memory"),
];

#[test]
fn scenarios_are_refused_with_texts(rt: HostRuntime) {
    for (fault, text) in SCENARIOS {
        is_written(&rt, rt.alloc(), *fault, text);
    }
}

#[test]
fn runs_end_with_texts(rt: HostRuntime) {
    is_written(&rt, rt.alloc(), RunFault::NoMemory, "out of memory");
    is_written(&rt, rt.alloc(), RunFault::JournalFull, "journal full");
}

/// The fault is written as this text.
fn is_written(rt: &impl Abort, alloc: Global, fault: impl Copy + Display, text: &str) {
    match format!(in alloc; "{fault}") {
        Ok(written) => same(rt, written.as_str(), text, "text"),
        Err(_) => same(rt, None, Some(text), "memory for a text"),
    }
}
