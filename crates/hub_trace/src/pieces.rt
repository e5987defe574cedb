//! The pieces of a line.

ghost use Rattle.std.specs.Prelude.{◌≡◌, ◌++◌, ◌<◌, ◌+◌, List, ℕ, codes, drop, length, vec_len, OnOk};
ghost use Rattle.hub_trace.specs.declared.pieces.Piece.TheVariants.{Asks, Tells, With};
ghost use Rattle.hub_trace.specs.Formats.Format.{Trace};
ghost use Rattle.hub_trace.specs.Formats.{Keeps, in_events};
ghost use Rattle.hub_trace.specs.Pieces.{Grows, GrowsBy, Walks, behind};

use hub_base::{Edition, EntryRef, Event, NoMemory, Pid, Value, What};
use hub_story::Part;
use hub_text::{write_entry, write_event, write_number, write_value};

/// A piece of a line.
#[derive(Clone, Copy)]
pub(crate) enum Piece<'a> {
    /// A fixed text.
    Word(&'a [u8]),
    /// A number.
    Number(u64),
    /// What an entry asks: its line in the journal, without its process.
    Asks(&'a EntryRef<'a>),
    /// What a process is told: the line of the event, without its process, but for what is the clock's.
    Tells(Part, What),
    /// A value.
    Carries(Value),
    /// Whether a call waited, in a word.
    Waited(bool),
    /// That a process is the clock, if it is.
    Clock(bool),
    /// A word that spells nothing but visible bytes and spaces, with a number, if there is one.
    With(&'a [u8], Option<u64>),
}

/// The number of the step at this place, as it is printed.
pub(crate) fn number_of(place: u32) -> u64 {
    u64::from(place) + 1
}

/// How many bytes a process has in a line, with the space behind it.
fn process_len(pid: Pid) -> usize {
    match pid.0 {
        0..=9 => 2,
        10..=99 => 3,
        _ => 4,
    }
}

/// Takes the process out of the line that begins at this place, and the newline.
fn take_out(out: &mut Vec<u8>, line: usize, process: usize)
    requires { line < vec_len out.old }
    ensures { (front words : List ℕ) → out.old.items ≡ front ++ words ++ codes "\n" → length front ≡ line
        → (behind : ℕ) × (out.new.items ≡ front ++ drop behind words) }
{
    out.truncate(out.len() - 1);
    let process = process.min(out.len() - line);
    out.copy_within(line + process.., line);
    out.truncate(out.len() - process);
}

/// Appends what an entry asks. The third edition has every entry.
fn put_asked(out: &mut Vec<u8>, entry: &EntryRef<'_>) -> Result<(), NoMemory>
    ensures { OnOk result (Grows (Asks entry.entry) out.old.items out.new.items) }
{
    let line = out.len();
    write_entry(out, Edition::Three, entry)?;
    take_out(out, line, process_len(entry.pid));
    Ok(())
}

/// Appends the words of an event.
fn put_event_words(out: &mut Vec<u8>, part: Part, what: What) -> Result<(), NoMemory>
    ensures { OnOk result (Grows (Tells part what) out.old.items out.new.items) }
{
    let line = out.len();
    let pid = Pid(0);
    write_event(out, &Event { pid, what })?;
    take_out(out, line, process_len(pid));
    Ok(())
}

/// Appends what a process is told. A call of the clock is woken, and what the clock cancels has timed out.
fn put_told(out: &mut Vec<u8>, part: Part, what: What) -> Result<(), NoMemory>
    ensures { OnOk result (Grows (Tells part what) out.old.items out.new.items) }
{
    match (part, what) {
        (Part::OwnCall, What::Cancelled | What::Stalled) => Ok(out.extend_from_slice(b"woken")?),
        (Part::OwnStep, What::Cancelled) => Ok(out.extend_from_slice(b"timed out")?),
        _ => put_event_words(out, part, what),
    }
}

/// Appends a word with a number, if there is one.
fn put_with(out: &mut Vec<u8>, word: &[u8], number: Option<u64>) -> Result<(), NoMemory>
    ensures { OnOk result (Grows (With word.entry number) out.old.items out.new.items) }
{
    let Some(number) = number else {
        return Ok(());
    };
    out.extend_from_slice(word)?;
    Ok(write_number(out, number)?)
}

/// Appends a piece.
fn put_piece(out: &mut Vec<u8>, piece: &Piece<'_>) -> Result<(), NoMemory>
    ensures { OnOk result (Grows piece.now out.old.items out.new.items) }
{
    match piece {
        Piece::Word(bytes) => Ok(out.extend_from_slice(bytes)?),
        Piece::Number(number) => Ok(write_number(out, *number)?),
        Piece::Asks(entry) => put_asked(out, entry),
        Piece::Tells(part, what) => put_told(out, *part, *what),
        Piece::Carries(value) => write_value(out, value),
        Piece::Waited(true) => Ok(out.extend_from_slice(b"wait")?),
        Piece::Waited(false) => Ok(out.extend_from_slice(b"step")?),
        Piece::Clock(true) => Ok(out.extend_from_slice(b", the clock")?),
        Piece::Clock(false) => Ok(()),
        Piece::With(word, number) => put_with(out, word, *number),
    }
}

/// Appends pieces, in order.
pub(crate) fn put_pieces(out: &mut Vec<u8>, pieces: &[Piece<'_>]) -> Result<(), NoMemory>
    ensures { OnOk result (GrowsBy pieces.now out.old.items out.new.items) }
{
    for piece in pieces {
        put_piece(out, piece)?;
    }
    Ok(())
}

/// Appends the line of an event of a trace.
pub(crate) fn put_event(text: &mut Vec<u8>, pieces: &[Piece<'_>]) -> Result<(), NoMemory>
    requires { Walks behind pieces.now in_events in_events }
    ensures { OnOk result (Keeps Trace text.old.items text.new.items) }
{
    put_pieces(text, pieces)
}
