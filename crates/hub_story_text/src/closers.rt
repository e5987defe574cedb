//! Who opened a port again last, and who closed it since.

ghost use Rattle.std.specs.Prelude.{◌≡◌, ◌==◌, false};
ghost use Rattle.std.specs.Option.{option_map_or};
ghost use Rattle.hub_story_text.specs.Closers.{turns_on, with_turn};

use hub_base::Port;
use hub_core::ShortEntries;
use hub_story::{Told, closed_port, reopened_port};

/// What says so of a port.
#[derive(Clone, Copy)]
pub(crate) struct Turns {
    /// That it was opened again, the last time.
    pub reopened: Option<Told>,
    /// That it was closed since.
    pub closed: Option<Told>,
}

/// Whether a port was found, and is this one.
fn is_on(found: Option<Port>, port: Port) -> bool
    ensures { result ≡ option_map_or (λ q. q.0 == port.0) found false }
{
    match found {
        Some(found) => found.0 == port.0,
        None => false,
    }
}

/// What says so of this port, by one event more.
fn with_turn(entries: &ShortEntries, port: Port, turns: Turns, told: &Told) -> Turns
    ensures { result ≡ with_turn entries.now port turns told.now }
{
    if is_on(closed_port(entries, told), port) {
        return Turns {
            reopened: turns.reopened,
            closed: Some(*told),
        };
    }
    if is_on(reopened_port(entries, told), port) {
        return Turns {
            reopened: Some(*told),
            closed: None,
        };
    }
    turns
}

/// Which of these events say so of this port.
pub(crate) fn turns_on(entries: &ShortEntries, told: &[Told], port: Port) -> Turns
    ensures { result ≡ turns_on entries.now told.now port }
{
    let mut turns = Turns {
        reopened: None,
        closed: None,
    };
    for told in told {
        turns = with_turn(entries, port, turns, told);
    }
    turns
}
