//! The pieces of a picture's text. Where memory is refused, a part of them may have been appended.
#![tactic(auto, using(crate::proofs::Reading::refused, crate::proofs::Reading::failed))]

ghost use Rattle.std.specs.Prelude.{◌≡◌, Some, true};
ghost use Rattle.hub_picture.specs.Reading.{IsPlain, Plain, Reads, WritesPiece, behind_pieces, behind_words, takes_text};
ghost use Rattle.hub_picture.specs.Xml.{State, after};

use crate::label::{Label, end_class};
use hub_base::{Case, Edition, Entry, Event, NoMemory, Pid, Port, Value, What};
use hub_story::{Mover, Part, Told};
use hub_text::{write_entry, write_event, write_number};
use std::alloc::AllocError;

/// How many colours there are, and marks.
const HUES: u16 = 8;

/// A piece of text.
#[derive(Clone, Copy)]
pub(crate) enum Piece<'a> {
    /// A fixed text, of tags too.
    Word(&'a [u8]),
    /// A plain text, where that is so.
    If(bool, &'a [u8]),
    /// A number.
    Number(u64),
    /// The line of an entry.
    Line(&'a Entry),
    /// The line of an event.
    Tells(Event),
    /// How an entry ended, and by which step.
    End(Part, Option<Told>),
    /// Until which step something goes on.
    Until(Option<u32>),
    /// Who moved a value, and by which step.
    Mover(Option<Mover>),
    /// What a case waits for.
    Aim(Case),
    /// The class of a label.
    Class(Label),
    /// What the class says of an end.
    Ending(What),
    /// A label.
    Name(Label),
    /// A value behind a label.
    Moves(Option<Value>),
}

/// Appends these bytes.
pub(crate) fn put(out: &mut Vec<u8>, bytes: &[u8]) -> Result<(), AllocError>
    ensures { (at : State) → Reads out.old out.new at (after at bytes.now) result }
{
    out.extend_from_slice(bytes)
}

/// Appends a plain text.
fn put_plain(out: &mut Vec<u8>, text: &[u8]) -> Result<(), AllocError>
    requires { IsPlain text.now }
    ensures { Plain out.old out.new result }
{
    out.extend_from_slice(text)
}

/// Appends a number.
fn put_number(out: &mut Vec<u8>, number: u64) -> Result<(), AllocError>
    ensures { Plain out.old out.new result }
{
    write_number(out, number)
}

/// Appends a word and a number.
fn put_numbered(out: &mut Vec<u8>, word: &[u8], number: u64) -> Result<(), AllocError>
    requires { IsPlain word.now }
    ensures { Plain out.old out.new result }
{
    put_plain(out, word)?;
    put_number(out, number)
}

/// Appends the line of an entry. The third edition has every entry.
fn put_entry(out: &mut Vec<u8>, entry: &Entry) -> Result<(), AllocError>
    ensures { Plain out.old out.new result }
{
    match write_entry(out, Edition::Three, &entry.by_slice()) {
        Ok(()) => Ok(()),
        Err(NoMemory) => Err(AllocError),
    }
}

/// Appends the line of an event.
fn put_event(out: &mut Vec<u8>, event: &Event) -> Result<(), AllocError>
    ensures { Plain out.old out.new result }
{
    match write_event(out, event) {
        Ok(()) => Ok(()),
        Err(NoMemory) => Err(AllocError),
    }
}

/// Appends a process, and the words that it was told.
fn put_words(out: &mut Vec<u8>, pid: Pid, words: &[u8]) -> Result<(), AllocError>
    requires { IsPlain words.now }
    ensures { Plain out.old out.new result }
{
    put_number(out, pid.0.into())?;
    put_plain(out, words)
}

/// Appends the line of an event, but for what is the clock's.
fn put_told(out: &mut Vec<u8>, part: Part, event: &Event) -> Result<(), AllocError>
    ensures { Plain out.old out.new result }
{
    match (part, event.what) {
        (Part::OwnCall, What::Cancelled | What::Stalled) => put_words(out, event.pid, b" woken\n"),
        (Part::OwnStep, What::Cancelled) => put_words(out, event.pid, b" timed out\n"),
        _ => put_event(out, event),
    }
}

/// Appends how an entry ended, and by which step.
fn put_end(out: &mut Vec<u8>, part: Part, ended: Option<Told>) -> Result<(), AllocError>
    ensures { Plain out.old out.new result }
{
    match ended {
        Some(end) => {
            put_told(out, part, &end.event)?;
            put_numbered(out, b"by step ", u64::from(end.by) + 1)
        }
        None => put_plain(out, b"waits"),
    }
}

/// Appends until which step something goes on.
fn put_until(out: &mut Vec<u8>, until: Option<u32>) -> Result<(), AllocError>
    ensures { Plain out.old out.new result }
{
    match until {
        Some(until) => put_numbered(out, b" until step ", u64::from(until) + 1),
        None => put_plain(out, b" on"),
    }
}

/// Appends who moved a value, and by which step.
fn put_mover(out: &mut Vec<u8>, mover: Option<Mover>) -> Result<(), AllocError>
    ensures { Plain out.old out.new result }
{
    match mover {
        Some(mover) => {
            put_numbered(out, b"P", mover.pid.0.into())?;
            put_numbered(out, b" at step ", u64::from(mover.by) + 1)
        }
        None => put_plain(out, b"nobody"),
    }
}

/// Appends what a case waits for.
fn put_aim(out: &mut Vec<u8>, case: Case) -> Result<(), AllocError>
    ensures { Plain out.old out.new result }
{
    match case {
        Case::Send(port, _value) => put_numbered(out, b" to send on port ", port.0.into()),
        Case::Recv(port) => put_numbered(out, b" to receive from port ", port.0.into()),
    }
}

/// The number of a port's colour and mark.
pub(crate) fn hue(port: Port) -> u64 {
    u64::from(port.0 % HUES)
}

/// Appends a word and the colour of a port.
fn put_hue(out: &mut Vec<u8>, word: &[u8], port: Port) -> Result<(), AllocError>
    requires { IsPlain word.now }
    ensures { Plain out.old out.new result }
{
    put_numbered(out, word, hue(port))
}

/// Appends the class of a label.
fn put_class(out: &mut Vec<u8>, label: Label) -> Result<(), AllocError>
    ensures { Plain out.old out.new result }
{
    match label {
        Label::Send(port) => put_hue(out, b"send h", port),
        Label::Receive(port) => put_hue(out, b"receive h", port),
        Label::Make(port) | Label::Close(port) | Label::Reopen(port) => {
            put_hue(out, b"port h", port)
        }
        Label::Refused(_fault) => put_plain(out, b"refused"),
        _ => put_plain(out, b"plain"),
    }
}

/// Appends a label.
fn put_label(out: &mut Vec<u8>, label: Label) -> Result<(), AllocError>
    ensures { Plain out.old out.new result }
{
    match label {
        Label::Make(port) => put_numbered(out, b"m", port.0.into()),
        Label::Send(port) => put_numbered(out, b"s", port.0.into()),
        Label::Receive(port) => put_numbered(out, b"r", port.0.into()),
        Label::Select => put_plain(out, b"?"),
        Label::Default => put_plain(out, b"def"),
        Label::Close(port) => put_numbered(out, b"c", port.0.into()),
        Label::Exit => put_plain(out, b"exit"),
        Label::Cancel(pid) => put_numbered(out, b"x", pid.0.into()),
        Label::Start(pid) => put_numbered(out, b"g", pid.0.into()),
        Label::Reopen(port) => put_numbered(out, b"o", port.0.into()),
        Label::Refused(fault) => put_numbered(out, b"f", fault.number().into()),
    }
}

/// Appends a value behind a label.
fn put_value(out: &mut Vec<u8>, value: Option<Value>) -> Result<(), AllocError>
    ensures { Plain out.old out.new result }
{
    match value {
        Some(value) => match value.as_num() {
            Some(number) if number <= 999_999 => put_numbered(out, b":", number),
            Some(_long) => put_plain(out, b":.."),
            None => put_plain(out, b":#"),
        },
        None => Ok(()),
    }
}

/// Appends a text, where that is so.
fn put_if(out: &mut Vec<u8>, so: bool, text: &[u8]) -> Result<(), AllocError>
    ensures { IsPlain text.now → Plain out.old out.new result }
{
    if so {
        out.extend_from_slice(text)
    } else {
        Ok(())
    }
}

/// Appends a piece.
fn put_piece(out: &mut Vec<u8>, piece: &Piece<'_>) -> Result<(), AllocError>
    ensures { WritesPiece out.old out.new piece.now result }
{
    match piece {
        Piece::Word(bytes) => put(out, bytes),
        Piece::If(so, text) => put_if(out, *so, text),
        Piece::Number(number) => put_number(out, *number),
        Piece::Line(entry) => put_entry(out, entry),
        Piece::Tells(event) => put_event(out, event),
        Piece::End(part, ended) => put_end(out, *part, *ended),
        Piece::Until(until) => put_until(out, *until),
        Piece::Mover(mover) => put_mover(out, *mover),
        Piece::Aim(case) => put_aim(out, *case),
        Piece::Class(label) => put_class(out, *label),
        Piece::Ending(what) => put_plain(out, end_class(*what)),
        Piece::Name(label) => put_label(out, *label),
        Piece::Moves(value) => put_value(out, *value),
    }
}

/// Appends pieces, in order.
pub(crate) fn put_pieces(out: &mut Vec<u8>, pieces: &[Piece<'_>]) -> Result<(), AllocError>
    ensures { (at : State) → (to : State) → behind_pieces at pieces.now ≡ Some to → Reads out.old out.new at to result }
{
    for piece in pieces {
        match put_piece(out, piece) {
            Ok(()) => {}
            Err(AllocError) => return Err(AllocError),
        }
    }
    Ok(())
}

/// Appends a word, and the number behind it, if there is one.
fn put_word(out: &mut Vec<u8>, word: &[u8], number: Option<u64>) -> Result<(), AllocError>
    ensures { (at : State) → takes_text (after at word.now) ≡ true → Reads out.old out.new at (after at word.now) result }
{
    put(out, word)?;
    match number {
        Some(number) => put_number(out, number),
        None => Ok(()),
    }
}

/// Appends words, and behind each the number in its place, while there is one.
pub(crate) fn put_filled(
    out: &mut Vec<u8>,
    words: &[&[u8]],
    numbers: &[u64],
) -> Result<(), AllocError>
    ensures { (at : State) → (to : State) → behind_words at words.now ≡ Some to → Reads out.old out.new at to result }
{
    for (place, word) in words.iter().enumerate() {
        match put_word(out, word, numbers.get(place).copied()) {
            Ok(()) => {}
            Err(AllocError) => return Err(AllocError),
        }
    }
    Ok(())
}
