//! The report of a journal: what each port carried, how many calls stalled, and how many faults
//! were told.

ghost use Rattle.std.specs.Prelude.{◌≤◌, IfOk};
ghost use Rattle.hub_runner.specs.Prelude.{IsHead, IsLegal, IsReportOf, steps_of};

use crate::replayed::replay;
use hub_base::{MOST_STEPS, NoMemory};
use hub_core::ShortJournal;
use std::alloc::Global;

/// What a port carried.
#[derive(Clone, Copy, Debug, PartialEq, Eq)]
pub struct PortReport {
    /// How many values it can buffer, 0 to `MOST_CAP`.
    pub cap: u32,
    /// How many sends completed.
    pub sent: u32,
    /// How many receives got a value.
    pub received: u32,
    /// How many values were sent and not received: `sent - received`.
    pub left: u32,
    /// The sum of the values received.
    pub sum: u128,
    /// Whether it is closed.
    pub closed: bool,
}

/// A journal, and what it tells of a run.
#[derive(Drop)]
pub struct Report {
    /// The journal that all else is told of.
    pub journal: ShortJournal,
    /// What each port carried: the first is port 1.
    pub ports: Vec<PortReport>,
    /// How many calls ended because everyone waited.
    pub stalled: u32,
    /// How many steps were answered by a fault.
    pub faults: u32,
}

impl Report {
    /// The report of a legal journal of 1 to `MOST_PROCS` processes with at most `MOST_STEPS` steps (an
    /// exit is not one). Its entries are replayed once; none is written out. `Err` where
    /// memory was refused; the journal is then dropped.
    pub fn of(alloc: Global, journal: ShortJournal) -> Result<Report, NoMemory>
        requires head { IsHead journal.head }
        requires legal { IsLegal journal.head journal.entries }
        requires few { steps_of journal.entries ≤ MOST_STEPS }

        ensures ok { IfOk result (λ r. IsReportOf journal r) }
    {
        let replayed = replay(alloc, &journal)?;
        let ports = replayed.ports(alloc)?;
        Ok(Report {
            journal,
            ports,
            stalled: replayed.stalled,
            faults: replayed.faults,
        })
    }
}
