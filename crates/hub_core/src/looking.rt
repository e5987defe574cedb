//! Looks at a port: its capacity and counts, and the values in its buffer.
//! Go: "Length and capacity".

ghost use Rattle.std.specs.Prelude.{◌≡◌, length};
ghost use Rattle.hub_core.specs.Looks.{look_on, value_on};

use crate::tally::Tallies;
use hub_base::{Counts, Look, Port, Value};
use hub_parts::Board;

/// The capacity and the counts of a port, or `None` for port 0 and for a port that was not made.
pub(crate) fn look(board: &Board, tallies: &Tallies, port: Port) -> Option<Look>
    requires { length tallies.now ≡ length board.now.ports }
    ensures { result ≡ look_on board.now tallies.now port }
{
    if port.0 == 0 || port.0 as usize > board.ports() {
        return None;
    }
    let tally = tallies.at(port);
    Some(Look {
        cap: board.cap(port),
        counts: Counts {
            len: tally.sent.saturating_sub(tally.received),
            sent: tally.sent,
            received: tally.received,
            closed: board.closed(port),
        },
    })
}

/// The value at a place of a port's buffer, 0 the oldest.
pub(crate) fn buffered(board: &Board, port: Port, place: u32) -> Option<Value>
    ensures { result ≡ value_on board.now port place }
{
    if port.0 == 0 || port.0 as usize > board.ports() {
        return None;
    }
    board.item(port, place as usize)
}
