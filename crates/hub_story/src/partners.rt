//! To which entry the value of an entry went, or from which it came.

ghost use Rattle.std.specs.Prelude.{◌≡◌, IfOk, List, length};
ghost use Rattle.std.specs.List.{fold};
ghost use Rattle.hub_story.specs.declared.told.Told.{Told as Event};
ghost use Rattle.hub_story.specs.PortMoves.{AreMoves};
ghost use Rattle.hub_story.specs.Partners.{AreIn, is_made, paired, places_of, ports_made, ways, with_way};

use crate::{PortMove, PortMoves, Told};
use hub_base::{MOST_PORTS, Port, What};
use hub_core::ShortEntries;
use std::alloc::{AllocError, Global};

/// Whether the event tells that a port was made.
pub(crate) fn is_made(told: &Told) -> bool
    ensures { result ≡ is_made told.now.event.what }
{
    matches!(told.event.what, What::Made(_))
}

/// Takes in that the value of one entry went to another, or came from it, where nothing is known of it yet.
fn note_way(table: &mut Vec<Option<u32>>, from: u32, to: u32)
    ensures { table.new.items ≡ with_way table.old.items (from, to) }
{
    let place = from as usize;
    if place < table.len() && table[place].is_none() {
        table[place] = Some(to);
    }
}

/// The places of these calls, in order.
fn places_of(alloc: Global, moves: &[PortMove]) -> Result<Vec<u32>, AllocError>
    ensures { IfOk result (λ places. places.items ≡ places_of moves.now) }
{
    let mut places = Vec::new(alloc);
    for moved in moves {
        places.push(moved.place)?;
    }
    Ok(places)
}

/// Takes in that the values of the calls at the first places went to those at the second, one by one.
fn note_pairs(table: &mut Vec<Option<u32>>, sent: &[u32], received: &[u32])
    ensures { table.new.items ≡ fold with_way table.old.items (paired sent.now received.now) }
{
    for place in 0..sent.len().min(received.len()) {
        note_way(table, sent[place], received[place]);
        note_way(table, received[place], sent[place]);
    }
}

/// For each of these entries the other one of the passage in which it stands, by what moved on so many ports, all that were made.
pub fn partners_of(
    alloc: Global,
    entries: &ShortEntries,
    moves: &PortMoves,
    made: usize,
) -> Result<Vec<Option<u32>>, AllocError>
    ensures { (all : List Event) → AreMoves entries.now all moves.now → made ≡ ports_made all
        → IfOk result (λ table. AreIn (ways entries.now all) (length entries.now) table.items) }
{
    let mut table = vec![in alloc; None; entries.len()]?;
    for place in 0..made.min(MOST_PORTS) {
        let port = Port(place as u16 + 1);
        let sent = places_of(alloc, moves.sent.on(port))?;
        let received = places_of(alloc, moves.received.on(port))?;
        note_pairs(&mut table, &sent, &received);
    }
    Ok(table)
}
