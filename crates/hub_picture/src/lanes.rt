//! The lanes of a drawing.

ghost use Rattle.std.specs.Prelude.{◌≡◌, ◌++◌, IfOk, OnOk};
ghost use Rattle.hub_picture.specs.Lanes.{after, lanes_from, lanes_of, left_by, opening, turn_of, turns};

use hub_core::ShortEntries;
use hub_story::{Told, comes_back, leaves};
use std::alloc::{AllocError, Global};

/// A process, from the opening or the step by which it is started again until it exits.
#[derive(Clone, Copy)]
pub struct Lane {
    /// The process.
    pub pid: u8,
    /// By which step it is started again, if it is not there from the opening on.
    pub begun: Option<u32>,
    /// By which step it exits, if it does.
    pub exited: Option<u32>,
}

/// A process exits, or is started again.
#[derive(Clone, Copy)]
struct Turn {
    /// The process.
    pid: u8,
    /// By which step.
    by: u32,
    /// Whether it is started again.
    begins: bool,
}

/// What the event tells of that.
fn turn_of(entries: &ShortEntries, told: &Told) -> Option<Turn>
    ensures { result ≡ turn_of entries.now told.now }
{
    let by = told.by;
    if leaves(entries, told) {
        return Some(Turn {
            pid: told.event.pid.0,
            by,
            begins: false,
        });
    }
    match comes_back(entries, told) {
        Some(pid) => Some(Turn {
            pid: pid.0,
            by,
            begins: true,
        }),
        None => None,
    }
}

/// All that is told of it, in order.
fn turns_of(alloc: Global, entries: &ShortEntries, told: &[Told]) -> Result<Vec<Turn>, AllocError>
    ensures { IfOk result (λ all. all.items ≡ turns entries.now told.now) }
{
    let mut turns = Vec::new(alloc);
    for told in told {
        if let Some(turn) = turn_of(entries, told) {
            turns.push(turn)?;
        }
    }
    Ok(turns)
}

/// Puts in the lane that this turn leaves behind, if it does.
fn put_left(lanes: &mut Vec<Lane>, lane: Lane, turn: &Turn) -> Result<(), AllocError>
    ensures { OnOk result (lanes.new.items ≡ lanes.old.items ++ left_by lane turn.now) }
{
    if turn.pid == lane.pid && turn.begins {
        lanes.push(lane)?;
    }
    Ok(())
}

/// The lane behind this turn.
fn after(lane: Lane, turn: &Turn) -> Lane
    ensures { result ≡ after lane turn.now }
{
    if turn.pid != lane.pid {
        return lane;
    }
    let pid = lane.pid;
    if turn.begins {
        Lane {
            pid,
            begun: Some(turn.by),
            exited: None,
        }
    } else {
        Lane {
            pid,
            begun: lane.begun,
            exited: Some(turn.by),
        }
    }
}

/// Puts in the lanes of a process.
fn put_lanes(lanes: &mut Vec<Lane>, pid: u8, turns: &[Turn]) -> Result<(), AllocError>
    ensures { OnOk result (lanes.new.items ≡ lanes.old.items ++ lanes_from (opening pid) turns.now) }
{
    let mut lane = Lane {
        pid,
        begun: None,
        exited: None,
    };
    for turn in turns {
        put_left(lanes, lane, turn)?;
        lane = after(lane, turn);
    }
    lanes.push(lane)?;
    Ok(())
}

/// The lanes of so many processes.
pub(crate) fn lanes_of(
    alloc: Global,
    procs: u8,
    entries: &ShortEntries,
    told: &[Told],
) -> Result<Vec<Lane>, AllocError>
    ensures { IfOk result (λ lanes. lanes.items ≡ lanes_of procs entries.now told.now) }
{
    let turns = turns_of(alloc, entries, told)?;
    let mut lanes = Vec::new(alloc);
    for pid in 0..procs {
        put_lanes(&mut lanes, pid, &turns)?;
    }
    Ok(lanes)
}
