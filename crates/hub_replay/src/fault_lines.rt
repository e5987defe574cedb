//! The line on standard error that says why a program ended early. It is written piece by piece, so that it needs no
//! memory.

ghost use Rattle.std.specs.Prelude.{◌≡◌, ℕ, List, OnOk, OnErr};
ghost use Rattle.std.specs.Io.KnownBytes.{Appends};
ghost use Rattle.hub_replay.specs.Devices.{Failed, AppendsBeginning};
ghost use Rattle.hub_replay.specs.FaultLines.{joined, fault_text, line_of, status_of, TellsOnce};

use crate::{ReplayFault, Sink, WriteFailed, write_whole};
use itoa::Buffer;

/// Writes the pieces, one behind the other, and stops at the first write that fails.
pub fn write_pieces<W: Sink>(sink: &mut W, pieces: &[&str]) -> Result<(), WriteFailed>
    ensures whole { OnOk result
        (Appends (W.contents sink.old) (W.contents sink.new) (joined pieces.now)) }
    ensures beginning { OnErr result
        (AppendsBeginning (W.contents sink.old) (W.contents sink.new) (joined pieces.now)) }

    // One write failed at `Err`, and else none.
    ensures err { OnErr result (Failed (W.failures sink.old) (W.failures sink.new)) }
    ensures ok { OnOk result (W.failures sink.new ≡ W.failures sink.old) }
{
    for piece in pieces {
        write_whole(sink, piece.as_bytes())?;
    }
    Ok(())
}

/// Why a program ended early: a line on standard error, and an exit status.
pub trait ProgramFault: Copy {
    /// The line.
    ghost line: { Self → List ℕ };

    /// The status.
    ghost status: { Self → ℕ };

    /// The exit status of a program that ends with the fault.
    fn status(self) -> u8
        ensures { result ≡ status self };

    /// Writes the line that tells the fault, as in `chanhub: line 4: bad number`.
    fn write_line<W: Sink>(self, errors: &mut W) -> Result<(), WriteFailed>
        ensures whole { OnOk result
            (Appends (W.contents errors.old) (W.contents errors.new) (line self)) }
        ensures beginning { OnErr result
            (AppendsBeginning (W.contents errors.old) (W.contents errors.new) (line self)) }
        ensures err { OnErr result (Failed (W.failures errors.old) (W.failures errors.new)) }
        ensures ok { OnOk result (W.failures errors.new ≡ W.failures errors.old) };
}

impl ProgramFault for ReplayFault {
    ghost line = { λ fault. line_of (fault_text fault) };

    ghost status = { status_of };

    /// 1 for a device or memory, 2 for a malformed journal.
    fn status(self) -> u8 {
        match self {
            ReplayFault::Read | ReplayFault::Write | ReplayFault::NoMemory => 1,
            ReplayFault::Text(_) => 2,
        }
    }

    fn write_line<W: Sink>(self, errors: &mut W) -> Result<(), WriteFailed> {
        match self {
            ReplayFault::Text(text) => {
                let mut digits = Buffer::new();
                write_pieces(
                    errors,
                    &[
                        "chanhub: line ",
                        digits.format(text.line),
                        ": ",
                        text.kind.text(),
                        "\n",
                    ],
                )
            }
            ReplayFault::Read => write_pieces(errors, &["chanhub: read failed\n"]),
            ReplayFault::Write => write_pieces(errors, &["chanhub: write failed\n"]),
            ReplayFault::NoMemory => write_pieces(errors, &["chanhub: out of memory\n"]),
        }
    }
}

/// Tells the fault as one line, and answers its status, also where the line can't be written.
pub fn tell_fault<F: ProgramFault, W: Sink>(fault: F, errors: &mut W) -> u8
    ensures status { result ≡ F.status fault }
    ensures told { TellsOnce (W.contents errors.old) (W.contents errors.new)
        (W.failures errors.old) (W.failures errors.new) (F.line fault) }
{
    let _ = fault.write_line(errors);
    fault.status()
}
