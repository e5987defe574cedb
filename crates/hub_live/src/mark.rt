//! Marks: whether a port is closed and its two counts in one word, so that one load tells them.

ghost use Rattle.std.specs.Prelude.{◌≡◌, ◌≤◌};
ghost use Rattle.hub_live.specs.Mark.{mark_of, read_back};

use hub_base::{Counts, MOST_STEPS};

/// A count is below this.
const COUNTS: u64 = 1 << 31;

const ONE_SENT: u64 = COUNTS;

const MADE: u64 = 1 << 62;

const CLOSED: u64 = 1 << 63;

/// The mark of a port that was made: `2^63 * closed + 2^62 + 2^31 * sent + received`, both counts at
/// most `MOST_STEPS`. How many values are buffered is told by their difference alone.
pub fn mark_of(counts: &Counts) -> u64
    requires sent { counts.now.sent ≤ MOST_STEPS }
    requires received { counts.now.received ≤ MOST_STEPS }
    ensures { result ≡ mark_of counts.now }
{
    let closed = if counts.closed { CLOSED } else { 0 };
    closed + MADE + ONE_SENT * u64::from(counts.sent) + u64::from(counts.received)
}

/// What a mark tells: the counts of the port, or `None` for the mark 0 of a port that is not made.
pub(crate) fn read_back(mark: u64) -> Option<Counts>
    ensures { result ≡ read_back mark }
{
    if mark == 0 {
        return None;
    }
    let sent = (mark / ONE_SENT % COUNTS) as u32;
    let received = (mark % COUNTS) as u32;
    Some(Counts {
        len: sent.saturating_sub(received),
        sent,
        received,
        closed: mark >= CLOSED,
    })
}
