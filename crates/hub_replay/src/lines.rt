//! One line of a journal's text. It is read behind the head lines that came before it, as if no other entry
//! stood between them: what a line says depends on the head alone.

ghost use Rattle.std.specs.Prelude.{◌≡◌, ◌≤◌, ◌++◌, ℕ, List, length, MatchOption, OnOk, IfOk, IfErr};
ghost use Rattle.hub_base.specs.Head.{IsHead};
ghost use Rattle.hub_base.specs.Lines.{pieces, read_fields};
ghost use Rattle.hub_base.specs.Reading.{read_text, head_lines};
ghost use Rattle.hub_base.specs.Reading.Reading.{Reads, Faulty};
ghost use Rattle.hub_base.specs.Entry.{Entry};
ghost use Rattle.hub_base.specs.declared.head.Edition.{Edition};
ghost use Rattle.hub_base.specs.declared.head.Head.{Head};
ghost use Rattle.hub_base.specs.declared.limits.TheConstants.{MOST_BYTES};
ghost use Rattle.hub_replay.specs.Verify.{newlines_in};
ghost use Rattle.hub_replay.specs.Lines.{IsCut, IsLine, IsSecond, IsEntryLine, Says, first_line, says_one};

use hub_base::{Head, Kind};
use hub_text::{EntryPlace, Reader};
use memchr::memchr;

/// The first line with its newline, and what stands behind it; `None` where there is no newline.
pub(crate) fn cut_line(bytes: &[u8]) -> Option<(&[u8], &[u8])>
    ensures { MatchOption result (newlines_in bytes.now ≡ 0)
        (λ x. IsCut bytes.now x.0.now x.1.now) }
{
    match memchr(b'\n', bytes) {
        Some(end) => Some((&bytes[..end + 1], &bytes[end + 1..])),
        None => None,
    }
}

/// Reads the first line; an `Err` is its fault, whatever follows.
pub(crate) fn read_first(line: &[u8]) -> Result<(), Kind>
    ensures ok { (body : List ℕ) → IsLine line.now body
        → OnOk result ((edition : Edition) × (line.now ≡ first_line edition)) }
    ensures err { (body : List ℕ) → IsLine line.now body
        → IfErr result (λ kind. (more : List ℕ) → read_text (line.now ++ more) ≡ Faulty 1 kind) }
{
    // No second line is there yet, and so that fault is none.
    match Reader::open(line) {
        Ok(_) => Ok(()),
        Err(fault) => {
            if fault.line == 1 {
                Err(fault.kind)
            } else {
                Ok(())
            }
        }
    }
}

/// Reads the second line behind the first; an `Err` is the fault of the second, whatever follows.
pub(crate) fn read_second(text: &[u8]) -> Result<Head, Kind>
    ensures head { IfOk result IsHead }
    ensures ok { (edition : Edition) (line body : List ℕ) → IsSecond text.now edition line body
        → IfOk result (λ head. text.now ≡ head_lines head) }
    ensures err { (edition : Edition) (line body : List ℕ) → IsSecond text.now edition line body
        → IfErr result (λ kind. (more : List ℕ) → read_text (text.now ++ more) ≡ Faulty 2 kind) }
{
    match Reader::open(text) {
        Ok(reader) => Ok(reader.head()),
        Err(fault) => Err(fault.kind),
    }
}

/// Reads what is left of a text, each entry into this place.
fn read_out(mut reader: Reader, place: &mut EntryPlace) -> Result<(), Kind>
    ensures ok { OnOk result ((head : Head) × (more : List Entry)
        × (reader.entry.left ≡ Reads head more)) }
    ensures err { IfErr result (λ kind. (k : ℕ) × (reader.entry.left ≡ Faulty k kind)) }
{
    'entries: loop {
        match reader.read_into(place) {
            Ok(true) => {}
            Ok(false) => return Ok(()),
            Err(fault) => return Err(fault.kind),
        }
    }
}

/// Reads the one entry that is left of a text; an `Err` is the fault of its line. In the other place any entry may then
/// stand.
fn read_one(mut reader: Reader, place: &mut EntryPlace, other: &mut EntryPlace) -> Result<(), Kind>
    ensures { (head : Head) (body : List ℕ)
        → reader.entry.left ≡ says_one head (read_fields head.edition (pieces 32 body))
        → Says head.edition body place.new result }
{
    match reader.read_into(place) {
        Ok(true) => read_out(reader, other),
        // There is a line, so this does not come.
        Ok(false) => Err(Kind::BadStep),
        Err(fault) => Err(fault.kind),
    }
}

/// Reads the line behind both head lines into the place; an `Err` is what is wrong with the line itself.
/// In the other place any entry may then stand.
pub(crate) fn read_entry(
    text: &[u8],
    place: &mut EntryPlace,
    other: &mut EntryPlace,
) -> Result<(), Kind>
    requires fits { length text.now ≤ MOST_BYTES }
    ensures { (head : Head) (line body : List ℕ) → IsEntryLine text.now head line body
        → Says head.edition body place.new result }
{
    match Reader::open(text) {
        Ok(reader) => read_one(reader, place, other),
        Err(fault) => Err(fault.kind),
    }
}
