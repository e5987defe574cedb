//! Reading up to the end, and writing a whole text. Nothing is tried again.

ghost use Rattle.std.specs.Prelude.{◌≡◌, ◌+◌, ◌≤◌, vec_len, IfOk, OnOk, OnErr, IsErrOf};
ghost use Rattle.std.specs.Io.KnownBytes.{Consumes, Appends, IsAtEnd};
ghost use Rattle.hub_replay.specs.Devices.{Failed, ConsumesAtMost, AppendsAllBut, AppendsBeginning};

use crate::{Sink, Source, SourceFault, WriteFailed};
use std::alloc::Global;

/// The most bytes that one read asks for; and so many of a text are written at once.
pub const CHUNK: usize = 65_536;

/// Reads to the end, or until `limit + 1` bytes have come.
pub fn read_up_to<S: Source>(
    alloc: Global,
    source: &mut S,
    limit: usize,
) -> Result<Vec<u8>, SourceFault>
    ensures bytes { IfOk result (λ v.
        Consumes (S.remaining source.old) (S.remaining source.new) v.items) }
    ensures end { IfOk result (λ v. vec_len v ≤ limit → IsAtEnd (S.remaining source.new)) }
    ensures most { IfOk result (λ v. vec_len v ≤ limit + 1) }

    // So few are read whatever the answer is.
    ensures few { ConsumesAtMost (S.remaining source.old) (S.remaining source.new) (limit + 1) }

    // One read failed where the answer is `Read`, and else none.
    ensures read { IsErrOf result SourceFault.Read
        → Failed (S.failures source.old) (S.failures source.new) }
    ensures memory { IsErrOf result SourceFault.NoMemory
        → S.failures source.new ≡ S.failures source.old }
    ensures ok { OnOk result (S.failures source.new ≡ S.failures source.old) }
{
    let mut bytes = Vec::new(alloc);
    let mut chunk = [0; CHUNK];
    while bytes.len() <= limit {
        let room = (limit - bytes.len()).min(CHUNK - 1) + 1;
        let place = &mut chunk[..room];
        let Ok(count) = source.read(place) else {
            return Err(SourceFault::Read);
        };
        if count == 0 {
            return Ok(bytes);
        }
        bytes.extend_from_slice(&place[..count])?;
    }
    Ok(bytes)
}

/// Writes all the bytes, and stops at the first write that fails or takes none.
pub fn write_whole<W: Sink>(sink: &mut W, bytes: &[u8]) -> Result<(), WriteFailed>
    ensures whole { OnOk result (Appends (W.contents sink.old) (W.contents sink.new) bytes.now) }
    ensures beginning { OnErr result
        (AppendsBeginning (W.contents sink.old) (W.contents sink.new) bytes.now) }

    // One write failed at `Err`, and else none.
    ensures err { OnErr result (Failed (W.failures sink.old) (W.failures sink.new)) }
    ensures ok { OnOk result (W.failures sink.new ≡ W.failures sink.old) }
{
    let mut rest = bytes;
    while !rest.is_empty() {
        match sink.write(rest) {
            Ok(count) if count > 0 => rest = &rest[count..],
            _ => return Err(WriteFailed),
        }
    }
    Ok(())
}

/// Writes what waits in `text`, where that is long, and lets it go.
pub fn write_many<W: Sink>(sink: &mut W, text: &mut Vec<u8>) -> Result<(), WriteFailed>
    ensures whole { OnOk result
        (AppendsAllBut (W.contents sink.old) (W.contents sink.new) text.old.items text.new.items) }
    ensures beginning { OnErr result
        (AppendsBeginning (W.contents sink.old) (W.contents sink.new) text.old.items) }

    // One write failed at `Err`, and else none.
    ensures err { OnErr result (Failed (W.failures sink.old) (W.failures sink.new)) }
    ensures ok { OnOk result (W.failures sink.new ≡ W.failures sink.old) }
{
    if text.len() < CHUNK {
        return Ok(());
    }
    write_whole(sink, text)?;
    text.clear();
    Ok(())
}
