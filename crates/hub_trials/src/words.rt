//! What the program is asked for.

ghost use Rattle.std.specs.Prelude.{◌≤◌, IsSome};

use std::convert::AsStr;

/// What the program is asked for.
#[derive(Clone, Copy)]
pub enum Trial {
    /// Rounds of random calls for so many seconds.
    Soak { seconds: u64, seed: u64 },
    /// So many runs of each workload, each of so many calls.
    Times { calls: u32, runs: u32 },
}

const CALLS: u32 = 200_000;

const RUNS: u32 = 10;

/// One round of each workload.
const LEAST_CALLS: u32 = 30;

/// So many calls, and a few ports, have room in a journal.
const MOST_CALLS: u32 = 900_000;

const MOST_RUNS: u32 = 1_000;

/// `soak SECONDS SEED`: what stands behind the first word.
fn soak_in<T: AsStr>(words: &[T]) -> Option<Trial> {
    match words {
        [seconds, seed] => {
            let seconds = seconds.as_str().parse().ok()?;
            let seed = seed.as_str().parse().ok()?;
            Some(Trial::Soak { seconds, seed })
        }
        _ => None,
    }
}

fn times_of(calls: u32, runs: u32) -> Option<Trial>
    ensures calls { IsSome result → (30 ≤ calls) × (calls ≤ 900000) }
    ensures runs { IsSome result → (1 ≤ runs) × (runs ≤ 1000) }
{
    if (LEAST_CALLS..=MOST_CALLS).contains(&calls) && (1..=MOST_RUNS).contains(&runs) {
        Some(Trial::Times { calls, runs })
    } else {
        None
    }
}

/// `times [CALLS [RUNS]]`: what stands behind the first word.
fn times_in<T: AsStr>(words: &[T]) -> Option<Trial> {
    match words {
        [] => times_of(CALLS, RUNS),
        [calls] => times_of(calls.as_str().parse().ok()?, RUNS),
        [calls, runs] => times_of(calls.as_str().parse().ok()?, runs.as_str().parse().ok()?),
        _ => None,
    }
}

/// What these words ask for, of which the first is the program's name.
pub fn trial_of<T: AsStr>(words: &[T]) -> Option<Trial> {
    match words {
        [_, task, rest @ ..] => match task.as_str() {
            "soak" => soak_in(rest),
            "times" => times_in(rest),
            _ => None,
        },
        _ => None,
    }
}
