//! `hub_trials`: tries the live hub in many threads. A soak compares all answers with a replay of
//! the journal, and times tell how many operations a second are answered.
#![tactic(auto)]

mod answers;
mod beginning;
mod chances;
mod pair;
mod random_calls;
mod soak;
mod times;
mod trouble;
mod words;
mod workload;

use std::process::ExitCode;
use std::rt::Env;
use std::sync::Wait;
use std::thread::Threads;
use std::time::Clock;
use std::{env, io};
use times::rates_of;
use trouble::Trouble;
use words::{Trial, trial_of};
use workload::WORKLOADS;

fn try_soak<R: Threads + Wait + Clock + Print + Eprint + AllocGlobal + Sync>(
    rt: &R,
    seconds: u64,
    seed: u64,
) -> Result<(), Trouble> {
    let tally = soak::soak(rt, rt.alloc(), seconds, seed)?;
    println!(rt; "soak: each answer is the replay's")?;
    eprintln!(rt;
        "soak: {} rounds, {} answers, {} seconds",
        tally.rounds, tally.answers, tally.seconds
    )?;
    Ok(())
}

fn try_times<R: Threads + Wait + Clock + Print + AllocGlobal + Sync>(
    rt: &R,
    calls: u32,
    runs: u32,
) -> Result<(), Trouble> {
    for workload in WORKLOADS {
        let rates = rates_of(rt, rt.alloc(), workload, calls, runs)?;
        println!(rt; "{workload} best {} median {}", rates.best, rates.median)?;
    }
    Ok(())
}

fn run<R: Threads + Wait + Clock + Print + Eprint + Env + AllocGlobal + Sync>(
    rt: &R,
) -> Result<(), Trouble> {
    let words: Vec<String> = env::args(rt)?.collect(rt.alloc())?;
    match trial_of(words.as_slice()) {
        Some(Trial::Soak { seconds, seed }) => try_soak(rt, seconds, seed),
        Some(Trial::Times { calls, runs }) => try_times(rt, calls, runs),
        None => Err(Trouble::BadWords),
    }
}

fn main(rt: HostRuntime) -> ExitCode {
    match run(&rt) {
        Ok(()) => ExitCode::SUCCESS,
        Err(trouble) => {
            let _ = eprintln!(&rt; "hub_trials: {trouble}");
            ExitCode::from(trouble.status())
        }
    }
}
