//! A source and a sink as one device.
//!
//! What was heard is what the source has lost since the conversation began, and what was said is what the sink has
//! gained. What both held then is known to proofs alone.

ghost use Rattle.std.specs.Prelude.{ℕ, List, Option, None};
ghost use Rattle.std.specs.Io.KnownBytes.{Consumes, Appends, IsAtEnd};

use crate::{Sink, Source, Talk};
use std::io;
use std::marker::{Brand, PhantomData};

/// What the devices held when the conversation began, where that is known.
pub trait Opening {
    /// The bytes that were to be read.
    ghost unread: { Option (List ℕ) };

    /// The bytes that the sink held.
    ghost held: { Option (List ℕ) };
}

impl Opening for Brand {
    ghost unread = { None };

    ghost held = { None };
}

/// A source and a sink, in a conversation that began as `K` says.
#[derive(Drop)]
pub struct Pair<K: Opening, S: Source, W: Sink> {
    /// What is heard.
    pub source: S,
    /// Where it is said.
    pub sink: W,
    /// How the conversation began.
    pub of: PhantomData<K>,
}

impl<K: Opening, S: Source, W: Sink> Talk for Pair<K, S, W> {
    ghost heard = { λ pair bytes. Consumes K.unread (S.remaining pair.source) bytes };

    ghost said = { λ pair bytes. Appends K.held (W.contents pair.sink) bytes };

    ghost ended = { λ pair. IsAtEnd (S.remaining pair.source) };

    ghost failed_reads = { λ pair. S.failures pair.source };

    ghost failed_writes = { λ pair. W.failures pair.sink };

    fn hear(&mut self, buf: &mut [u8]) -> io::Result<usize> {
        self.source.read(buf)
    }

    fn say(&mut self, piece: &[u8]) -> io::Result<usize> {
        self.sink.write(piece)
    }
}
