//! The stall rule: where every process that has not exited waits, no call could ever end, so all
//! end. Go has no such rule for single processes; there the whole program ends.

ghost use Rattle.std.specs.Prelude.{◌≡◌, ◌≤◌, length};
ghost use Rattle.hub_core.specs.Prelude.{Apart, open_calls};
ghost use Rattle.hub_core.specs.Hearing.{Heard};
ghost use Rattle.hub_core.specs.ListSteps.{count_gone, ArePresent, all_wait_on, none_open, stalled_events};

use crate::exited::Exited;
use hub_base::{Event, Hears, MOST_PROCS, What};
use hub_parts::Board;

/// Whether some call is open, and every process that has not exited has one.
///
/// Each open call is of another process, which has not exited. So all wait where the open calls and the processes that have
/// exited are together as many as there are processes.
pub(crate) fn all_wait(board: &Board, exited: &Exited, procs: u8) -> bool
    requires procs { board.now.procs ≡ procs }
    requires few { procs ≤ MOST_PROCS }
    requires count { exited.now.count ≡ count_gone exited.now.gone procs }
    requires apart { Apart (open_calls board.now.waiting) }
    requires present { ArePresent board.now.waiting exited.now.gone procs }
    ensures { result ≡ all_wait_on board.now exited.now.gone }
{
    let waiting = board.open_count();
    waiting != 0 && waiting + exited.count == procs
}

/// Ends every open call, oldest first.
pub(crate) fn stop_all<E: Hears>(board: &mut Board, events: &mut E)
    requires apart { Apart (open_calls board.old.waiting) }
    requires room { length board.old.waiting ≤ E.room events.old }
    ensures board { board.new ≡ none_open board.old }
    ensures told { Heard E.heard E.room events.old events.new (stalled_events board.old.waiting) }
{
    while let Some(pid) = board.stop() {
        events.hear(Event {
            pid,
            what: What::Stalled,
        });
    }
}
