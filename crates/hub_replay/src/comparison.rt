//! Bytes that are compared with a text which comes in pieces.

ghost use Rattle.std.specs.Prelude.{◌≡◌, ◌≤◌, ◌<◌, ◌-◌, ◌^◌, ◌++◌, ℕ, List, [], length, take};
ghost use Rattle.hub_replay.specs.Comparing.{Agrees, Tells};
ghost use Rattle.hub_replay.specs.Verify.{common_beginning, newlines_in};

use crate::Compared;

/// The length of the longest common beginning.
fn common_length(a: &[u8], b: &[u8]) -> usize
    ensures { result ≡ length (common_beginning a.now b.now) }
{
    // Most pieces agree as a whole, and so are compared many bytes at a time.
    if b.starts_with(a) {
        return a.len();
    }
    let most = a.len().min(b.len());
    for place in 0..most {
        if a[place] != b[place] {
            return place;
        }
    }
    most
}

/// How many newlines stand in these bytes.
pub fn newlines(bytes: &[u8]) -> usize
    ensures { result ≡ newlines_in bytes.now }
{
    bytes.iter().filter(|byte| **byte == b'\n').count()
}

/// How far given bytes agree with a text of which some pieces have come.
///
/// The first `agreed` bytes begin both. Once the two have parted, no later piece changes anything; before,
/// the text so far is no longer than that.
#[derive(Drop)]
pub struct Comparison<'a> {
    /// The text that the events are compared with.
    bytes: &'a [u8],
    /// How many of its bytes were the same so far.
    agreed: usize,
    /// Whether one differed.
    parted: bool,
    ghost within: { agreed ≤ length bytes.now },
}

impl<'a> Comparison<'a> {
    /// Before the first piece.
    pub fn of(bytes: &'a [u8]) -> Comparison<'a>
        ensures given { result.bytes.now ≡ bytes.now }
        ensures agrees { Agrees [] bytes.now result.agreed result.parted }
    {
        Comparison {
            bytes,
            agreed: 0,
            parted: false,
        }
    }

    /// Compares the next piece of the text.
    pub fn take(&mut self, piece: &[u8])
        ensures given { self.new.bytes.now ≡ self.old.bytes.now }
        ensures agrees { (text : List ℕ)
            → Agrees text self.old.bytes.now self.old.agreed self.old.parted
            → Agrees (text ++ piece.now) self.new.bytes.now self.new.agreed self.new.parted }
    {
        if self.parted {
            return;
        }
        prove!(self.agreed <= self.bytes.len());
        let more = common_length(piece, &self.bytes[self.agreed..]);
        self.agreed += more;
        self.parted = more < piece.len();
    }

    /// What is said when the text is complete.
    pub fn end(&self) -> Compared
        requires few { newlines_in (take self.now.agreed self.now.bytes.now) < 2 ^ 32 - 1 }
        ensures { (text : List ℕ)
            → Agrees text self.now.bytes.now self.now.agreed self.now.parted
            → Tells text self.now.bytes.now result }
    {
        if !self.parted && self.agreed == self.bytes.len() {
            return Compared::Same;
        }
        Compared::Differs(newlines(&self.bytes[..self.agreed]) as u32 + 1)
    }
}
