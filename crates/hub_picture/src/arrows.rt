//! Values on their way: the arrows of a drawing.

ghost use Rattle.std.specs.Prelude.{◌≡◌, ◌++◌, ◌∷◌, [], drop, is_some, IfNone, IfOk, IfSome, OnOk, Some};
ghost use Rattle.hub_base.specs.Values.{got_on, sent_on};
ghost use Rattle.hub_picture.specs.Drawings.{all_arrows, arrows_on};
ghost use Rattle.hub_picture.specs.Moves.{IsNextSent};
ghost use Rattle.hub_story.specs.declared.moved.Moved.{Moved as MovedValue};
ghost use Rattle.hub_story.specs.Passing.{moved_by, passages, sends};
ghost use Rattle.hub_story.specs.Sides.{value_on};

use crate::Window;
use crate::moves::{Moves, OnPort};
use hub_base::Port;
use hub_core::ShortEntries;
use hub_parts::Side;
use hub_story::{Passage, Told, moved_by};
use std::alloc::{AllocError, Global};

/// The passage of a value through a port.
#[derive(Clone, Copy)]
pub struct Arrow {
    /// The port.
    pub port: Port,
    /// From which call to which the value went.
    pub passage: Passage,
}

/// Whether it tells of a value that moved on this side of the port.
fn is_moved(side: Side, port: Port, entries: &ShortEntries, told: &Told) -> bool
    ensures { result ≡ is_some (moved_by (value_on side port) entries.now told.now) }
{
    moved_by(side, port, entries, told).is_some()
}

/// Where the next send on the port is told, from this place on.
fn next_sent(entries: &ShortEntries, port: Port, told: &OnPort<'_>, from: usize) -> Option<usize>
    ensures found { IfSome result (λ place. IsNextSent entries.now port told.now from place) }
    ensures none { IfNone result (sends entries.now (drop from told.now) port ≡ []) }
{
    for place in from..told.len() {
        if is_moved(Side::Send, port, entries, told.at(place)) {
            return Some(place);
        }
    }
    None
}

/// Adds the arrow from a send on the port to a receive, where it is shown. Nothing is copied of one that is not.
fn add_arrow(
    arrows: &mut Vec<Arrow>,
    window: Window,
    port: Port,
    entries: &ShortEntries,
    sent: &Told,
    received: &Told,
) -> Result<(), AllocError>
    ensures { OnOk result ((x y : MovedValue) → moved_by (sent_on port) entries.now sent.now ≡ Some x
        → moved_by (got_on port) entries.now received.now ≡ Some y
        → arrows.new.items ≡ arrows.old.items ++ arrows_on window port (record { sent = x; received = y } ∷ [])) }
{
    if !window.touches(sent.by, received.by) {
        return Ok(());
    }
    let Some(sent) = moved_by(Side::Send, port, entries, sent) else {
        return Ok(());
    };
    let Some(received) = moved_by(Side::Recv, port, entries, received) else {
        return Ok(());
    };
    arrows.push(Arrow {
        port,
        passage: Passage { sent, received },
    })?;
    Ok(())
}

/// Adds the arrows of a port, by what is told of it: from each send to the receive that stands in its place.
fn add_arrows(
    arrows: &mut Vec<Arrow>,
    window: Window,
    port: Port,
    entries: &ShortEntries,
    told: &OnPort<'_>,
) -> Result<(), AllocError>
    ensures { OnOk result (
        arrows.new.items ≡ arrows.old.items ++ arrows_on window port (passages entries.now told.now port)) }
{
    let mut from = 0;
    for place in 0..told.len() {
        let received = told.at(place);
        if is_moved(Side::Recv, port, entries, received) {
            let Some(sent) = next_sent(entries, port, told, from) else {
                return Ok(());
            };
            from = sent + 1;
            add_arrow(arrows, window, port, entries, told.at(sent), received)?;
        }
    }
    Ok(())
}

/// Adds the arrows of a port.
fn add_port(
    arrows: &mut Vec<Arrow>,
    window: Window,
    moves: &Moves<'_>,
    port: Port,
) -> Result<(), AllocError>
    ensures { OnOk result (arrows.new.items ≡ arrows.old.items
        ++ arrows_on window port (passages moves.now.entries.now moves.now.told.now port)) }
{
    add_arrows(arrows, window, port, moves.entries, &moves.on(port))?;
    Ok(())
}

/// The arrows of all ports, by the number of the port, and oldest first.
pub(crate) fn arrows_in(
    alloc: Global,
    window: Window,
    moves: &Moves<'_>,
) -> Result<Vec<Arrow>, AllocError>
    ensures { IfOk result (λ all.
        all.items ≡ all_arrows window moves.now.entries.now moves.now.told.now) }
{
    let mut all = Vec::new(alloc);
    for before in 0..moves.ports() as u16 {
        let port = Port(before + 1);
        add_port(&mut all, window, moves, port)?;
    }
    Ok(all)
}
