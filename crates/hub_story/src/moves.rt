//! Which values moved. Only here what moved is taken out of an event.

ghost use Rattle.std.specs.Prelude.{◌≡◌, ◌<◌, IfSome, length};
ghost use Rattle.hub_story.specs.Moves.{got_from, move_by, move_of, value_at};

use crate::Told;
use crate::by_port::PORT_NUMBERS;
use hub_base::{Case, Outcome, Port, Value, What};
use hub_core::ShortEntries;
use hub_parts::Side;

/// A value that was sent or received.
#[derive(Clone, Copy)]
pub struct Move {
    /// Through which port.
    pub port: Port,
    /// On which side of it.
    pub side: Side,
    /// The value.
    pub value: Value,
}

impl Move {
    /// The value, where it moved on this side of the port.
    pub(crate) fn value_at(&self, side: Side, port: Port) -> Option<Value>
        ensures { result ≡ value_at side port self.now }
    {
        match (side, self.side) {
            (Side::Send, Side::Send) | (Side::Recv, Side::Recv) if self.port.0 == port.0 => {
                Some(self.value)
            }
            _ => None,
        }
    }
}

/// What a case with this outcome moved.
fn move_by(case: Case, outcome: Outcome) -> Option<Move>
    ensures value { result ≡ move_by case outcome }
    ensures few { IfSome result (λ moved. moved.port.0 < PORT_NUMBERS) }
{
    match (case, outcome) {
        (Case::Send(port, value), Outcome::Sent) => Some(Move {
            port,
            side: Side::Send,
            value,
        }),
        (Case::Recv(port), Outcome::Got(value)) => Some(Move {
            port,
            side: Side::Recv,
            value,
        }),
        _ => None,
    }
}

/// What is told to have moved.
pub fn move_of(entries: &ShortEntries, told: &Told) -> Option<Move>
    ensures value { result ≡ move_of entries.now told.now }
    ensures few { IfSome result (λ moved. moved.port.0 < PORT_NUMBERS) }
    ensures within { IfSome result (λ moved. told.now.asked < length entries.now) }
{
    let What::Fired { case, outcome } = told.event.what else {
        return None;
    };
    let case = entries.case_at(told.asked as usize, case)?;
    move_by(case, outcome)
}

/// The port from which it was received, if it was.
pub(crate) fn got_from(moved: Option<Move>) -> Option<Port>
    ensures { result ≡ got_from moved }
{
    match moved {
        Some(moved) if matches!(moved.side, Side::Recv) => Some(moved.port),
        _ => None,
    }
}
