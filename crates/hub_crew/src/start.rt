//! The start of all threads at once.

use std::sync::{Condvar, Mutex, Wait};

/// Whether the threads may begin, once this is known.
#[derive(Drop)]
pub(crate) struct Start {
    /// Whether all threads are to begin, once that is known; `Some(false)` where one could not be started.
    told: Mutex<Option<bool>>,
    /// Wakes those that wait for it.
    changed: Condvar,
}

impl Start {
    pub fn new() -> Start {
        Start {
            told: Mutex::new(None),
            changed: Condvar::new(),
        }
    }

    pub fn wait<R: Wait>(&self, rt: &R) -> bool {
        let mut told = self.told.lock(rt);
        for _ in rt.forever() {
            if let Some(begin) = *told {
                return begin;
            }
            told = self.changed.wait(rt, told);
        }
        unreachable!()
    }

    pub fn tell<R: Wait>(&self, rt: &R, begin: bool) {
        *self.told.lock(rt) = Some(begin);
        self.changed.notify_all();
    }
}
