//! Where bytes come from and where they go.
//!
//! A device may fail at any call, and counts its failures, so that a contract can say that one was met. A
//! real count can't rise for ever: it stays at 2^64 - 1.

ghost use Rattle.std.specs.Prelude.{◌≡◌, ℕ, List, Option};
ghost use Rattle.std.specs.Io.{ReadsAtMost, WritesAtMost};
ghost use Rattle.std.specs.Io.KnownBytes.{ReadConsumes, WriteAppends};
ghost use Rattle.hub_replay.specs.Devices.{CountsRead, CountsWrite};

use std::io;
use std::io::{Read, Write};
use std::marker::Model;

/// What bytes are read from, with a count of the reads that failed.
pub trait Source {
    /// The bytes that reads will give from here on, where they are known.
    ghost remaining: { Self → Option (List ℕ) };

    /// How many reads have failed.
    ghost failures: { Self → ℕ };

    /// As std's `Read::read`. An `Err` is a failure.
    fn read(&mut self, buf: &mut [u8]) -> io::Result<usize>
        ensures bound { ReadsAtMost result buf.new }
        ensures bytes { ReadConsumes (remaining self.old) (remaining self.new) result buf.new }
        ensures counted { CountsRead (failures self.old) (failures self.new) result };
}

/// What bytes are written to, with a count of the writes that failed.
pub trait Sink {
    /// The bytes that the writer holds, where they are known.
    ghost contents: { Self → Option (List ℕ) };

    /// How many writes have failed, or taken no byte of a piece that is not empty.
    ghost failures: { Self → ℕ };

    /// As std's `Write::write`. An `Err` is a failure, and so is an `Ok(0)` of a piece that is not empty.
    fn write(&mut self, piece: &[u8]) -> io::Result<usize>
        ensures bound { WritesAtMost result piece.now }
        ensures bytes { WriteAppends (contents self.old) (contents self.new) result piece.now }
        ensures counted { CountsWrite (failures self.old) (failures self.new) result piece.now };
}

/// Any reader or writer of std, with a count of its failures.
#[derive(Drop)]
pub struct Counted<T> {
    /// What is read or written.
    inner: T,
    /// How many calls have failed.
    failures: u64,
}

impl<T> Model for Counted<T> {
    ghost use Rattle.hub_replay.specs.Devices.{CountedView};

    ghost Value = { CountedView T };

    ghost view = { λ c. record { inner = c.inner; failures = c.failures } };
}

impl<T> Counted<T> {
    pub fn new(inner: T) -> Counted<T>
        ensures { result ≡ record { inner = inner; failures = 0 } }
    {
        Counted { inner, failures: 0 }
    }

    pub fn into_inner(self) -> T
        ensures { result ≡ self.inner }
    {
        let Counted { inner, failures: _ } = self;
        inner
    }

    /// How many calls have failed, at most 2^64 - 1.
    pub fn failures(&self) -> u64
        ensures { result ≡ self.now.failures }
    {
        self.failures
    }
}

impl<T: Read> Source for Counted<T> {
    ghost remaining = { λ c. T.remaining c.inner };

    ghost failures = { λ c. c.failures };

    fn read(&mut self, buf: &mut [u8]) -> io::Result<usize> {
        let answer = self.inner.read(buf);
        if answer.is_err() {
            self.failures = self.failures.saturating_add(1);
        }
        answer
    }
}

impl<T: Write> Sink for Counted<T> {
    ghost contents = { λ c. T.contents c.inner };

    ghost failures = { λ c. c.failures };

    fn write(&mut self, piece: &[u8]) -> io::Result<usize> {
        let answer = self.inner.write(piece);
        let failed = match &answer {
            Ok(taken) => *taken == 0 && !piece.is_empty(),
            Err(_) => true,
        };
        if failed {
            self.failures = self.failures.saturating_add(1);
        }
        answer
    }
}
