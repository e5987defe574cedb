//! What stories tell agrees with the values of a port, with its channel, with time, and with who waits.

ghost use Rattle.hub_story.specs.Laws.{EndingLaw, EventsLaw, InTimeLaw, LevelsLaw, PassagesLaw, SendsLaw, WaitingLaw};

use hub_base::{Entry, Head};

/// What a story tells of a run is so.
pub fn stories_are_so(head: Head, entries: &[Entry])
    // Each event is told, once and in order.
    ensures events { EventsLaw head entries.now }

    // The values of the sends that it tells are the values sent, in order. So with receives.
    ensures sends { SendsLaw head entries.now }

    // Each value that was received on a port has one passage, from the send of that value, and no passage goes back.
    ensures passages { PassagesLaw head entries.now }
    ensures in_time { InTimeLaw head entries.now }

    // Each entry has at most one end: its answer, or what it is told after it waited.
    ensures ending { EndingLaw head entries.now }

    // How many values were sent on a port and received from it by the first entries, whatever their number, is what its
    // channel then tells.
    ensures levels { LevelsLaw head entries.now }

    // The calls that are told to wait in the end are the open calls, by arrival.
    ensures waiting { WaitingLaw head entries.now }
{}
