//! Who waits in vain, and for what: the foot of a drawing.

ghost use Rattle.std.specs.Prelude.{◌≡◌, ◌<◌, ◌-◌, ◌^◌, ◌++◌, filter, length, map, IfOk, OnOk};
ghost use Rattle.std.specs.List.{flat_map};
ghost use Rattle.hub_picture.specs.Standing.{IsStanding};
ghost use Rattle.hub_picture.specs.Waiters.{all_waiters, is_by, last_step, open_in, waiters_of, waits_for};

use crate::Window;
use crate::moves::Moves;
use hub_base::Case;
use hub_core::CaseRoom;
use hub_story::{LastMoves, Mover, Told, whom};
use std::alloc::{AllocError, Global};

/// A call that waits, one of its cases, and who was the last at its port.
#[derive(Clone, Copy)]
pub struct Waiter {
    /// The call: that it was stalled, or that it waits.
    pub told: Told,
    /// The case.
    pub case: Case,
    /// Who was the last to send on its port.
    pub sender: Option<Mover>,
    /// Who was the last to receive from it.
    pub receiver: Option<Mover>,
    /// Whether somebody received there, and all who did have left.
    pub gone: bool,
    /// For which process it perhaps waits, where it was stalled.
    pub whom: Option<u8>,
}

/// How things stand after a step.
#[derive(Clone, Copy)]
struct Standing<'a> {
    /// What is told.
    moves: &'a Moves<'a>,
    /// The step.
    step: u32,
    /// Who had moved values last by then, and who had left.
    last: &'a LastMoves,
    /// The calls that it stalled.
    stalled: &'a [Told],
}

/// What a call waits for by a case of it.
fn waits_for(standing: &Standing<'_>, call: &Told, case: Case) -> Waiter
    requires { IsStanding standing.now }
    ensures { let moves = standing.now.moves.now in
        result ≡ waits_for moves.entries.now moves.told.now standing.now.step standing.now.stalled.now call.now case }
{
    let there = standing.last.at(case.port());
    Waiter {
        told: *call,
        case,
        sender: there.sender,
        receiver: there.receiver,
        gone: there.gone,
        whom: whom(standing.moves.entries, standing.stalled, call, there, case),
    }
}

/// Adds what a call waits for by each of these cases.
fn add_cases(
    all: &mut Vec<Waiter>,
    standing: &Standing<'_>,
    call: &Told,
    cases: &[Case],
) -> Result<(), AllocError>
    requires { IsStanding standing.now }
    ensures { let moves = standing.now.moves.now in OnOk result (all.new.items ≡ all.old.items
        ++ map (waits_for moves.entries.now moves.told.now standing.now.step standing.now.stalled.now call.now) cases.now) }
{
    for case in cases {
        all.push(waits_for(standing, call, *case))?;
    }
    Ok(())
}

/// Adds what these calls wait for.
fn add_calls(
    all: &mut Vec<Waiter>,
    standing: &Standing<'_>,
    calls: &[Told],
) -> Result<(), AllocError>
    requires { IsStanding standing.now }
    ensures { let moves = standing.now.moves.now in OnOk result (all.new.items ≡ all.old.items
        ++ flat_map (waiters_of moves.entries.now moves.told.now standing.now.step standing.now.stalled.now) calls.now) }
{
    let mut room = CaseRoom::new();
    for call in calls {
        let cases = standing
            .moves
            .entries
            .cases_at(call.asked as usize, &mut room);
        add_cases(all, standing, call, cases)?;
    }
    Ok(())
}

/// Adds what these calls wait for, as it stands after this step, which stalled those.
fn add_waiters(
    alloc: Global,
    all: &mut Vec<Waiter>,
    moves: &Moves<'_>,
    step: u32,
    stalled: &[Told],
    calls: &[Told],
) -> Result<(), AllocError>
    ensures { OnOk result (all.new.items ≡ all.old.items
        ++ flat_map (waiters_of moves.now.entries.now moves.now.told.now step stalled.now) calls.now) }
{
    if calls.is_empty() {
        return Ok(());
    }
    let last = LastMoves::until(alloc, moves.entries, moves.told, step)?;
    let standing = Standing {
        moves,
        step,
        last: &last,
        stalled,
    };
    add_calls(all, &standing, calls)
}

/// The step of the last of these.
fn last_step(told: &[Told]) -> u32
    ensures { result ≡ last_step 0 told.now }
{
    let mut step = 0;
    for told in told {
        step = told.by;
    }
    step
}

/// Those of this step.
fn all_by(alloc: Global, step: u32, told: &[Told]) -> Result<Vec<Told>, AllocError>
    ensures { IfOk result (λ all. all.items ≡ filter (is_by step) told.now) }
{
    let mut all = Vec::new(alloc);
    for told in told {
        if told.by == step {
            all.push(*told)?;
        }
    }
    Ok(all)
}

/// The calls that wait in the end, where the window goes so far.
pub(crate) fn open_in(window: Window, count: u32, waiting: &[Told]) -> &[Told]
    ensures { result.now ≡ open_in window count waiting.now }
{
    if count <= window.end { waiting } else { &[] }
}

/// Whoever waits in vain, and for what.
pub(crate) fn waiters_in(
    alloc: Global,
    window: Window,
    moves: &Moves<'_>,
    stalls: &[Told],
    waiting: &[Told],
) -> Result<Vec<Waiter>, AllocError>
    requires few { length moves.now.entries.now < 2 ^ 32 - 1 }
    ensures { IfOk result (λ all. all.items
        ≡ all_waiters window moves.now.entries.now moves.now.told.now stalls.now waiting.now) }
{
    let count = moves.entries.len() as u32;
    let stall = last_step(stalls);
    let stalled = all_by(alloc, stall, stalls)?;
    let mut all = Vec::new(alloc);
    add_waiters(alloc, &mut all, moves, stall, &stalled, &stalled)?;
    let open = open_in(window, count, waiting);
    add_waiters(alloc, &mut all, moves, count, &[], open)?;
    Ok(all)
}
