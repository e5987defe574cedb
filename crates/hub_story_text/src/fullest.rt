//! How full a port was at most after a step, and when first. That is after a step by which a value was sent, so these alone are
//! looked at.

ghost use Rattle.std.specs.Prelude.{◌≡◌, ◌≤◌, ◌+◌, IfOk};
ghost use Rattle.hub_story.specs.OfPorts.{things_on};
ghost use Rattle.hub_story_text.specs.Fullest.{IsUp, count_below, fuller, fullest_of, steps_of};

use hub_base::Port;
use hub_story::{PortMove, PortMoves};
use std::alloc::{AllocError, Global};

/// What a port held at most.
#[derive(Clone, Copy)]
pub(crate) struct Fullest {
    /// How many values.
    pub(crate) most: usize,
    /// The place of the first step after which it held so many.
    pub(crate) place: u32,
}

/// By what was held so far, and after the step at this place.
fn fuller(before: Fullest, place: u32, held: usize) -> Fullest
    ensures { result ≡ fuller before place held }
{
    if before.most < held {
        return Fullest { most: held, place };
    }
    before
}

/// How many of these steps came by this place, of which so many are known to.
fn count_until(steps: &[u32], known: usize, place: u32) -> usize
    requires up { IsUp 0 steps.now }
    requires known { known ≤ count_below (place + 1) steps.now }
    ensures { result ≡ count_below (place + 1) steps.now }
{
    for count in known..steps.len() {
        if steps[count] > place {
            return count;
        }
    }
    steps.len()
}

/// What a port held at most, by the steps by which values were sent on it, and those by which they were received.
fn fullest_of(sent: &[u32], received: &[u32]) -> Fullest
    requires sent { IsUp 0 sent.now }
    requires received { IsUp 0 received.now }
    ensures { result ≡ fullest_of sent.now received.now }
{
    let mut full = Fullest { most: 0, place: 0 };
    let mut put = 0;
    let mut taken = 0;
    for place in sent {
        put = count_until(sent, put, *place);
        taken = count_until(received, taken, *place);
        full = fuller(full, *place, put.saturating_sub(taken));
    }
    full
}

/// The places of the steps by which the calls moved their values, in order.
fn steps_of(alloc: Global, moves: &[PortMove]) -> Result<Vec<u32>, AllocError>
    ensures { IfOk result (λ steps. steps.items ≡ steps_of moves.now) }
{
    let mut steps = Vec::new(alloc);
    for moved in moves {
        steps.push(moved.by)?;
    }
    Ok(steps)
}

/// What the port held at most, and after which step first.
pub(crate) fn fullest_on(
    alloc: Global,
    moves: &PortMoves,
    port: Port,
) -> Result<Fullest, AllocError>
    requires sent { IsUp 0 (steps_of (things_on moves.now.sent port)) }
    requires received { IsUp 0 (steps_of (things_on moves.now.received port)) }
    ensures { IfOk result (λ full.
        full ≡ fullest_of (steps_of (things_on moves.now.sent port)) (steps_of (things_on moves.now.received port))) }
{
    let sent = steps_of(alloc, moves.sent.on(port))?;
    let received = steps_of(alloc, moves.received.on(port))?;
    Ok(fullest_of(&sent, &received))
}
