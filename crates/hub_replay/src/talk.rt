//! A device for both directions of a conversation.
//!
//! Its calls require what a conversation promises: so that holds at each read and at each write.

ghost use Rattle.std.specs.Prelude.{◌≡◌, ◌<◌, ℕ, List, length};
ghost use Rattle.std.specs.Io.{ReadsAtMost, WritesAtMost};
ghost use Rattle.hub_replay.specs.Devices.{CountsRead, CountsWrite};
ghost use Rattle.hub_replay.specs.Talks.{Stays, Gives, Takes, HasAnswered, IsAnswer};

use std::io;

/// What a conversation hears from and speaks to, with a count of the calls that failed.
pub trait Talk {
    /// These bytes were heard so far. Of a device that doesn't tell them, any bytes may have been.
    ghost heard: { Self → List ℕ → Type 0 };

    /// These bytes were said so far. Of a device that doesn't tell them, any bytes may have been.
    ghost said: { Self → List ℕ → Type 0 };

    /// Nothing more is to come.
    ghost ended: { Self → Type 0 };

    /// How many reads have failed.
    ghost failed_reads: { Self → ℕ };

    /// How many writes have failed, or taken no byte.
    ghost failed_writes: { Self → ℕ };

    /// As std's `Read::read`, once all whole lines that were heard are answered. An `Err` is a failure.
    fn hear(&mut self, buf: &mut [u8]) -> io::Result<usize>
        requires answered { HasAnswered (heard self.old) (said self.old) }
        ensures bound { ReadsAtMost result buf.new }
        ensures bytes { Gives (heard self.old) (heard self.new) (ended self.new) result buf.new }
        ensures silent { Stays (said self.old) (said self.new) }
        ensures counted { CountsRead (failed_reads self.old) (failed_reads self.new) result }
        ensures others { failed_writes self.new ≡ failed_writes self.old };

    /// As std's `Write::write` of all that is still to be said of what was heard. An `Err` is a failure, and so is an
    /// `Ok(0)`.
    fn say(&mut self, piece: &[u8]) -> io::Result<usize>
        requires some { 0 < length piece.now }
        requires whole { IsAnswer (heard self.old) (said self.old) piece.now }
        ensures bound { WritesAtMost result piece.now }
        ensures bytes { Takes (said self.old) (said self.new) result piece.now }
        ensures deaf { Stays (heard self.old) (heard self.new) }
        ensures counted { CountsWrite (failed_writes self.old) (failed_writes self.new) result piece.now }
        ensures others { failed_reads self.new ≡ failed_reads self.old };
}
