//! A close: every open call with a case on the port ends. Go: "Close".

ghost use Rattle.std.specs.Prelude.{◌≡◌, ◌≤◌, ◌<◌, ◌∷◌, length};
ghost use Rattle.hub_base.specs.declared.event.What.TheVariants as what;
ghost use Rattle.hub_core.specs.Prelude.{Apart, IsMade, closing_outcome, fired, open_calls, tells};
ghost use Rattle.hub_core.specs.Hearing.{Heard};
ghost use Rattle.hub_core.specs.ListSteps.{cleared, closed_on, closing_events};

use hub_base::{Case, Event, Hears, Outcome, Pid, Port, What};
use hub_parts::{Board, Ended};

/// What a waiting call is told whose port is closed.
fn closing_event(ended: &Ended) -> Event
    ensures { result ≡ fired ended.now.pid ended.now.index (closing_outcome ended.now.case) }
{
    let outcome = match ended.case {
        Case::Send(_port, _value) => Outcome::Closed,
        Case::Recv(_port) => Outcome::Drained,
    };
    Event {
        pid: ended.pid,
        what: What::Fired {
            case: ended.index,
            outcome,
        },
    }
}

/// Ends each open call with a case on the port, oldest first, at its lowest such case.
fn end_calls<E: Hears>(board: &mut Board, events: &mut E, port: Port)
    requires made { IsMade board.old port }
    requires apart { Apart (open_calls board.old.waiting) }
    requires room { length board.old.waiting ≤ E.room events.old }
    ensures board { board.new ≡ cleared port board.old }
    ensures told { Heard E.heard E.room events.old events.new (closing_events port board.old.waiting) }
{
    while let Some(ended) = board.take_either(port) {
        events.hear(closing_event(&ended));
    }
}

/// Closes a port for a process, and ends the open calls with a case on it.
#[inline(never)]
pub(crate) fn close<E: Hears>(board: &mut Board, events: &mut E, pid: Pid, port: Port)
    requires made { IsMade board.old port }
    requires apart { Apart (open_calls board.old.waiting) }
    requires room { length board.old.waiting < E.room events.old }
    ensures board { board.new ≡ closed_on board.old port }
    ensures told { Heard E.heard E.room events.old events.new
        (tells pid what.Done ∷ closing_events port board.old.waiting) }
{
    events.hear(Event {
        pid,
        what: What::Done,
    });
    end_calls(board, events, port);
    board.shut(port);
}
