//! The stories of live hubs, of crews and of their uses. Those of refused memory stand in `refusals`.

use super::one_thread::{COMING_BACK, LOOKING, MEETING, SELECTING, STALLING};
use super::rows::Act;
use super::stories::{Row, tell_row};
use super::tasks::Crew;
use super::threads::{MAKE, SEEN};
use crate::uses::{POLLING, SHARING};
use std::test::Fail;

/// Process 0 makes an unbuffered channel.
const CHAN: &[(u8, Act)] = &[(0, Act::Makes(0, Ok(1)))];

/// Process 0 makes a channel of two places.
const BUFFERED: &[(u8, Act)] = &[(0, Act::Makes(2, Ok(1)))];

const STORIES: &[Row] = &[
    // A seat whose hub no type says uses a channel up, and looks at it.
    ("plain", 1, (1, 10), &[], Crew::Plain, Some(7)),
    // A seat that sent looks; a second seat that received the value looks at no less.
    ("look", 1, (2, 100), LOOKING, Crew::None, Some(3)),
    // A close is seen after a meeting, and a second close is told so.
    ("meet", 100, (2, 100), MEETING, Crew::None, Some(3)),
    // The only process waits for ever: its own step tells it so. Then the journal is full, and it exits.
    ("lone_stall", 1, (1, 2), STALLING, Crew::None, Some(3)),
    // The select of two cases and a default: the case that can proceed is taken, then the default.
    ("select", 1, (1, 100), SELECTING, Crew::None, Some(5)),
    // A value goes from one thread to the other, whichever comes first.
    ("pass", 100, (2, 100), MAKE, Crew::Pass, Some(3)),
    // Both wait for ever, and the step of the second tells both.
    ("stall", 100, (2, 100), &[], Crew::Stall, Some(2)),
    // All wait for ever, and the step of the last tells all: one step wakes each other thread.
    ("stall_of_four", 100, (4, 100), &[], Crew::Stall, Some(4)),
    ("stall_of_all", 1, (64, 100), &[], Crew::Stall, Some(64)),
    // Three wait, mostly, and one close wakes them.
    (
        "close_on_all",
        100,
        (4, 100),
        MAKE,
        Crew::CloseOnAll,
        Some(5),
    ),
    // Process 1 waits for a value that never comes, until its call is cancelled. Most of the cancels may come too early.
    ("cancel", 1, (2, 1_000_000), MAKE, Crew::Cancel, None),
    // A look shows what a thread did that has been joined, though its seat made no call since.
    ("joined", 100, (2, 100), SEEN, Crew::Close, Some(2)),
    // One thread sends and 63 look meanwhile. The values sent never become fewer, and in the end each
    // seat finds them all.
    ("watch", 1, (64, 10_000), &[], Crew::Watch, Some(1001)),
    // A task that holds a reference: each makes a channel of its own capacity.
    ("make_own", 1, (3, 100), &[], Crew::MakeOwn, Some(3)),
    // The value goes from one member of the crew to the other.
    ("hand_over", 1, (2, 1000), CHAN, Crew::HandOver, Some(3)),
    // Three workers and 20 jobs: whoever does them, they are 20, and their numbers' sum is 210.
    ("work_off", 1, (4, 1000), BUFFERED, Crew::WorkOff, Some(45)),
    // A poll finds nothing, and then the value of the channel that has one.
    ("poll", 1, (1, 1000), POLLING, Crew::None, Some(5)),
    // A process that has exited makes steps again, and a port that is closed and drained takes values again.
    ("lives", 1, (2, 100), COMING_BACK, Crew::Lives, Some(11)),
    // The second process knows of the close once both have met.
    ("share", 1, (2, 1000), SHARING, Crew::None, Some(2)),
];

// Where a story does not end, its name is the last that is printed.
#[test]
fn each_story_is_told(rt: HostRuntime) -> Result<(), Fail> {
    for row in STORIES {
        println!(rt; "{}", row.0)?;
        tell_row(&rt, row)?;
    }
    Ok(())
}
