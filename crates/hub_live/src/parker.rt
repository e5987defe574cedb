//! Where the thread of one process waits until another tells it that its answer is there.
//!
//! All of it is a hint, of which no clause speaks: whoever waited looks under the lock, and where it finds no answer
//! it waits again. No wake is lost: who waits clears `told` under the lock, where it has just found no answer, so
//! whoever brings the answer has the lock later, and tells later still; and what `sleeper` was told it keeps until a
//! sleep ends by it.

use std::sync::Wait;
use std::sync::atomic::{AtomicBool, AtomicU32, Ordering};
use std::thread;

/// How often a thread looks before it sleeps: for some 3 to 8 microseconds, a part of what a sleep and a wake take. It is
/// a number of loads, since std's `spin_loop` emits no instruction: a loop of those takes no time.
const LOOKS: u32 = 16_000;

/// The most waits in a row that go without looks.
const MOST_SLEEPS: u32 = 127;

/// Where one thread waits.
#[derive(Drop)]
pub(crate) struct Parker {
    /// Whether it was told since it was cleared. Who looks reads this, since std's parker does not show whether a
    /// sleep would end at once.
    told: AtomicBool,
    /// Where the thread sleeps. To wake it takes a system call only while it does.
    sleeper: thread::Parker,
    /// How many waits go without looks after the last that looked: 0 where it was told meanwhile.
    spared: AtomicU32,
    /// How many waits are still to go without looks.
    sleeps: AtomicU32,
    /// Keeps the words of two processes off one line of the cache.
    _apart: [u64; 5],
}

impl Parker {
    pub(crate) fn new() -> Parker {
        Parker {
            told: AtomicBool::new(false),
            sleeper: thread::Parker::new(),
            spared: AtomicU32::new(0),
            sleeps: AtomicU32::new(0),
            _apart: [0; 5],
        }
    }

    /// Before a wait, while the lock is still held.
    pub(crate) fn clear(&self) {
        self.told.store(false, Ordering::SeqCst);
    }

    /// Ends the wait of the thread that waits, or else the next.
    pub(crate) fn tell(&self) {
        self.told.store(true, Ordering::SeqCst);
        self.sleeper.unpark();
    }

    /// Waits until it is told, by looks at first where those were of use lately. It may return for nothing.
    pub(crate) fn wait<R: Wait>(&self, rt: &R) {
        if self.begins_with_looks() {
            let told = self.was_told();
            self.note_looks(told);
            if told {
                return;
            }
        }
        self.sleeper.park(rt);
    }

    /// Whether a wait begins with looks.
    fn begins_with_looks(&self) -> bool {
        let sleeps = self.sleeps.load(Ordering::SeqCst);
        if sleeps > 0 {
            self.sleeps.store(sleeps - 1, Ordering::SeqCst);
        }
        sleeps == 0
    }

    /// After looks in vain the next waits go without, twice as many each time: on a busy machine the answer comes later than
    /// any look, and looks take the time of whoever is to bring it.
    fn note_looks(&self, told: bool) {
        let sleeps = if told {
            0
        } else {
            let spared = self.spared.load(Ordering::SeqCst);
            spared.saturating_mul(2).saturating_add(1).min(MOST_SLEEPS)
        };
        self.spared.store(sleeps, Ordering::SeqCst);
        self.sleeps.store(sleeps, Ordering::SeqCst);
    }

    /// Looks for a while whether it was told.
    fn was_told(&self) -> bool {
        for _ in 0..LOOKS {
            if self.told.load(Ordering::SeqCst) {
                return true;
            }
        }
        false
    }

    /// Lets the time of so many loads pass, some half nanosecond each. What it loads is of no use to it.
    pub(crate) fn pause(&self, loads: u32) {
        for _ in 0..loads {
            let _told = self.told.load(Ordering::SeqCst);
        }
    }
}
