//! How far a search has come, for who waits for it.

use hub_explore::Watch;
use hub_replay::{Counted, WriteFailed, write_pieces};
use itoa::Buffer;
use std::io::IsTerminal;
use std::time::Instant;

/// Goes back to the line's beginning and clears it.
const CLEAR: &str = "\r\x1b[K";

/// Shows how far a search has come, once a second, where standard error is a terminal: in one line, which is cleared at the
/// end.
#[derive(Drop)]
pub(crate) struct Progress<'a> {
    rt: &'a HostRuntime,
    /// When the search began; none where nothing is to be shown.
    began: Option<Instant>,
    /// The seconds after that at which the line was last shown.
    shown: u64,
}

impl<'a> Progress<'a> {
    pub(crate) fn new(rt: &'a HostRuntime) -> Progress<'a> {
        let began = if rt.stderr().is_terminal() {
            Instant::now(rt).ok()
        } else {
            None
        };
        Progress {
            rt,
            began,
            shown: 0,
        }
    }

    /// How many whole seconds have passed; 0 where nothing is to be shown.
    fn seconds(&self) -> u64 {
        match self.began {
            Some(began) => began.elapsed(self.rt).map_or(0, |passed| passed.as_secs()),
            None => 0,
        }
    }

    fn write(&self, pieces: &[&str]) -> Result<(), WriteFailed> {
        write_pieces(&mut Counted::new(self.rt.stderr()), pieces)
    }
}

impl Watch for Progress<'_> {
    fn state(&mut self, gone_through: u32, found: usize) {
        let seconds = self.seconds();
        if seconds > self.shown {
            self.shown = seconds;
            let mut found_digits = Buffer::new();
            let mut gone_digits = Buffer::new();
            let _ = self.write(&[
                CLEAR,
                found_digits.format(found),
                " states found, ",
                gone_digits.format(gone_through),
                " gone through",
            ]);
        }
    }

    fn end(&mut self) {
        if self.shown > 0 {
            let _ = self.write(&[CLEAR]);
        }
    }
}
