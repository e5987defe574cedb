//! The lives of a port: one that is closed and drained may be opened again.

ghost use Rattle.std.specs.Prelude.{◌≡◌};
ghost use Rattle.hub_story.specs.Lives.{closed_port, is_turn, most_room, port_closed, reopened, reopened_port, room_at, room_of, with_room};

use crate::Told;
use hub_base::{Port, Step, StepRef, What};
use hub_core::{CaseRoom, ShortEntries};

/// The port that the step opens again.
fn reopened(step: &StepRef<'_>) -> Option<Port>
    ensures { result ≡ reopened step.now }
{
    match step {
        Step::Reopen { port, .. } => Some(*port),
        _ => None,
    }
}

/// The port of which the event says that it was opened again.
pub fn reopened_port(entries: &ShortEntries, told: &Told) -> Option<Port>
    ensures { result ≡ reopened_port entries.now told.now }
{
    if !matches!(told.event.what, What::Done) {
        return None;
    }
    let mut room = CaseRoom::new();
    match entries.get(told.asked as usize, &mut room) {
        Some(entry) => reopened(&entry.step),
        None => None,
    }
}

/// The port that the step closes.
fn port_closed(step: &StepRef<'_>) -> Option<Port>
    ensures { result ≡ port_closed step.now }
{
    match step {
        Step::Close(port) => Some(*port),
        _ => None,
    }
}

/// The port of which the event says that its close was done.
pub fn closed_port(entries: &ShortEntries, told: &Told) -> Option<Port>
    ensures { result ≡ closed_port entries.now told.now }
{
    if !matches!(told.event.what, What::Done) {
        return None;
    }
    let mut room = CaseRoom::new();
    match entries.get(told.asked as usize, &mut room) {
        Some(entry) => port_closed(&entry.step),
        None => None,
    }
}

/// Whether the event says that a port was closed, or opened again.
pub(crate) fn is_turn(entries: &ShortEntries, told: &Told) -> bool
    ensures { result ≡ is_turn entries.now told.now }
{
    closed_port(entries, told).is_some() || reopened_port(entries, told).is_some()
}

/// For how many values this step makes a port, or opens it again.
fn room_of(step: &StepRef<'_>) -> u32
    ensures { result ≡ room_of step.now }
{
    match step {
        Step::Make(cap) => *cap,
        Step::Reopen { cap, .. } => *cap,
        _ => 0,
    }
}

/// The same of the entry at this place.
fn room_at(entries: &ShortEntries, place: u32) -> u32
    ensures { result ≡ room_at entries.now place }
{
    let mut cases = CaseRoom::new();
    match entries.get(place as usize, &mut cases) {
        Some(entry) => room_of(&entry.step),
        None => 0,
    }
}

/// So much room, or that with which the event says that the port was opened again, if that is more.
fn with_room(entries: &ShortEntries, port: Port, room: u32, told: &Told) -> u32
    ensures { result ≡ with_room entries.now port room told.now }
{
    match reopened_port(entries, told) {
        Some(reopened) if reopened.0 == port.0 => room.max(room_at(entries, told.asked)),
        _ => room,
    }
}

/// The most values for which the port has room, by all that is told: when the entry at this place made it, or since it was
/// opened again.
pub fn most_room(entries: &ShortEntries, told: &[Told], port: Port, place: u32) -> u32
    ensures { result ≡ most_room entries.now told.now port place }
{
    let mut room = room_at(entries, place);
    for told in told {
        room = with_room(entries, port, room, told);
    }
    room
}
