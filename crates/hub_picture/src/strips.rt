//! The ports of a drawing: a strip for each that has room for values.

ghost use Rattle.std.specs.Prelude.{◌≡◌, IfOk};
ghost use Rattle.hub_picture.specs.Levels.{strip_of, strips_from, with_room};

use hub_base::{Port, What};
use hub_core::ShortEntries;
use hub_story::{Told, most_room};
use std::alloc::{AllocError, Global};

/// A port that has room for values.
#[derive(Clone, Copy)]
pub struct Strip {
    /// In which row its strip stands, counted from 0.
    pub row: usize,
    /// The port.
    pub port: Port,
    /// How many values it has room for, in that of its lives in which it has the most.
    pub room: u32,
}

/// The strip of a port in this row, where it has room.
fn with_room(row: usize, port: Port, room: u32) -> Option<Strip>
    ensures { result ≡ with_room row port room }
{
    if room == 0 {
        None
    } else {
        Some(Strip { row, port, room })
    }
}

/// The strip of the port that is told to be made by one of these events.
fn strip_of(entries: &ShortEntries, all: &[Told], row: usize, told: &Told) -> Option<Strip>
    ensures { result ≡ strip_of entries.now all.now row told.now }
{
    match told.event.what {
        What::Made(port) => with_room(row, port, most_room(entries, all, port, told.asked)),
        _ => None,
    }
}

/// By all that is told, the strips of the ports that these events tell to be made, in order, a row each.
pub(crate) fn strips_of(
    alloc: Global,
    entries: &ShortEntries,
    all: &[Told],
    made: &[Told],
) -> Result<Vec<Strip>, AllocError>
    ensures { IfOk result (λ strips. strips.items ≡ strips_from entries.now all.now 0 made.now) }
{
    let mut strips = Vec::new(alloc);
    for told in made {
        if let Some(strip) = strip_of(entries, all, strips.len(), told) {
            strips.push(strip)?;
        }
    }
    Ok(strips)
}
