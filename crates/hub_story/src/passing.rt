//! Which values went through a port, from which call to which.

ghost use Rattle.std.specs.Prelude.{◌≡◌, IfOk};
ghost use Rattle.hub_story.specs.Passing.{beside, moved_by, passages};
ghost use Rattle.hub_story.specs.Sides.{moves_on, value_on};

use crate::moves::move_of;
use crate::{Moved, Passage, Told};
use hub_base::Port;
use hub_core::ShortEntries;
use hub_parts::Side;
use std::alloc::{AllocError, Global};

/// The value that is told to have moved on this side of the port.
pub fn moved_by(side: Side, port: Port, entries: &ShortEntries, told: &Told) -> Option<Moved>
    ensures { result ≡ moved_by (value_on side port) entries.now told.now }
{
    let value = move_of(entries, told)?.value_at(side, port)?;
    Some(Moved { told: *told, value })
}

/// All values that are told to have moved on this side of the port, in order.
fn moves(
    alloc: Global,
    side: Side,
    port: Port,
    entries: &ShortEntries,
    told: &[Told],
) -> Result<Vec<Moved>, AllocError>
    ensures { IfOk result (λ moves. moves.items ≡ moves_on side port entries.now told.now) }
{
    let mut moves = Vec::new(alloc);
    for told in told {
        if let Some(moved) = moved_by(side, port, entries, told) {
            moves.push(moved)?;
        }
    }
    Ok(moves)
}

/// Each send beside the receive that stands in its place.
fn beside(alloc: Global, sends: &[Moved], receives: &[Moved]) -> Result<Vec<Passage>, AllocError>
    ensures { IfOk result (λ passages. passages.items ≡ beside sends.now receives.now) }
{
    let mut passages = Vec::new(alloc);
    for (place, received) in receives.iter().enumerate() {
        let Some(sent) = sends.get(place) else {
            return Ok(passages);
        };
        passages.push(Passage {
            sent: *sent,
            received: *received,
        })?;
    }
    Ok(passages)
}

/// The passages of values through a port, oldest first.
pub(crate) fn passages_of(
    alloc: Global,
    port: Port,
    entries: &ShortEntries,
    told: &[Told],
) -> Result<Vec<Passage>, AllocError>
    ensures { IfOk result (λ all. all.items ≡ passages entries.now told.now port) }
{
    let sends = moves(alloc, Side::Send, port, entries, told)?;
    let receives = moves(alloc, Side::Recv, port, entries, told)?;
    beside(alloc, &sends, &receives)
}
