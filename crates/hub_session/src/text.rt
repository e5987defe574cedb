//! The texts of a hub's journals, which are read some pieces at a time: piece 0 is the head lines, and piece k + 1 the line of
//! entry k.

ghost use Rattle.std.specs.Prelude.{◌≡◌, ◌≤◌, ◌+◌, ◌++◌, ◌-◌, [], true, false, IfOk, IfSome, OnErr, OnOk, drop, length, option_map, slice_get};
ghost use Rattle.std.specs.Option.{option_map_or};
ghost use Rattle.hub_base.specs.Head.{head_of, is_of};
ghost use Rattle.hub_base.specs.Lines.{line};
ghost use Rattle.hub_base.specs.Reading.{head_lines};
ghost use Rattle.hub_cut.specs.Recorder.{hub_in, journal_of};
ghost use Rattle.hub_session.specs.declared.session.Opened.TheVariants.{Following};
ghost use Rattle.hub_session.specs.Hubs.{given_in};
ghost use Rattle.hub_session.specs.Looks.{StaysIn};
ghost use Rattle.hub_session.specs.Pieces.{IsLegalJournal, Puts, PutsSome, Reads, none_told, piece_of, pieces};
ghost use Rattle.hub_session.specs.Texts.{journal_by, journal_in, journal_of_text, pieces_by, pieces_in, pieces_of};

use crate::session::{Opened, Session};
use crate::structs::{NO_MEMORY, NO_PIECE, NO_ROOM, PieceC, WRITTEN};
use hub_base::{Edition, Entry, EntryRef, Head, MOST_PROCS, NoMemory};
use hub_core::{CaseRoom, ShortHub};
use hub_live::under_lock::Locked;
use hub_served::Follower;
use hub_text::{write_entry, write_head};

/// The most pieces that are read at once, behind the first.
const MOST_MORE: u32 = 1_000;

/// A text of a hub.
#[derive(Clone, Copy)]
pub enum Text {
    /// The journal; of a hub that never ends, its present chapter.
    Present,
    /// The chapter before the present one.
    Before,
    /// The chapter that waits to be read.
    Waiting,
    /// The journal that the hub follows.
    Given,
    /// The line of the step at which the hub diverged from that, as its only piece.
    Asked,
}

/// Where the pieces of a text come from.
#[derive(Clone, Copy)]
pub(crate) enum Source<'a> {
    /// A hub's journal.
    Locked(&'a Locked),
    /// A chapter.
    Chapter(&'a ShortHub),
    /// The journal that a hub follows.
    Given(&'a Follower),
    /// The step at which a hub diverged.
    Asked(&'a Follower),
    /// Nowhere: the text has none.
    Nothing,
}

/// Appends the head lines; `Err` where memory is refused, with nothing appended.
fn write_first(out: &mut Vec<u8>, edition: Edition, procs: u8) -> Result<(), NoMemory>
    ensures ok { OnOk result (out.new.items ≡ out.old.items ++ head_lines (head_of edition procs)) }
    ensures err { OnErr result (out.new.items ≡ out.old.items) }
{
    // A hub has so many processes, and this passes always.
    if procs == 0 || usize::from(procs) > MOST_PROCS {
        return Err(NoMemory);
    }
    write_head(out, edition, procs)
}

/// Appends the line of this entry: whether there is such an entry. Refused if memory is.
#[inline(always)]
fn put_line(
    out: &mut Vec<u8>,
    edition: Edition,
    entry: Option<EntryRef<'_>>,
) -> Result<bool, NoMemory>
    requires fits { IfSome entry (λ e. is_of edition e.step ≡ true) }
    ensures ok { IfOk result (λ there. Puts (option_map line entry.entry) there out.old.items out.new.items) }
    ensures err { OnErr result (out.new.items ≡ out.old.items) }
{
    match entry {
        Some(entry) => {
            write_entry(out, edition, &entry)?;
            Ok(true)
        }
        None => Ok(false),
    }
}

/// The same of a piece of a text: the head lines, or for another number the line of this entry.
#[inline(always)]
fn put_piece(
    out: &mut Vec<u8>,
    head: Head,
    number: u64,
    entry: Option<EntryRef<'_>>,
) -> Result<bool, NoMemory>
    requires fits { IfSome entry (λ e. is_of head.edition e.step ≡ true) }
    ensures ok { IfOk result (λ there. Puts (piece_of head number entry.entry) there out.old.items out.new.items) }
    ensures err { OnErr result (out.new.items ≡ out.old.items) }
{
    if number > 0 {
        return put_line(out, head.edition, entry);
    }
    write_first(out, head.edition, head.procs)?;
    Ok(true)
}

/// The place of the entry whose line is this piece.
fn place_of(number: u64) -> usize
    ensures { result ≡ number - 1 }
{
    number.saturating_sub(1) as usize
}

/// An entry that there may be, whose cases stay where they are.
fn by_slice(entry: &Option<Entry>) -> Option<EntryRef<'_>>
    ensures { result ≡ entry.now }
{
    match entry {
        Some(entry) => Some(entry.by_slice()),
        None => None,
    }
}

/// Appends a piece of the journal that a hub follows: whether there is one. It stands in a function of its own, so that a line that is
/// read where it stands does not pay for the place of a copy.
#[inline(never)]
fn put_given(out: &mut Vec<u8>, hub: &Follower, number: u64) -> Result<bool, NoMemory>
    ensures ok { IfOk result (λ there. Puts (slice_get (option_map_or pieces (given_in (Following hub.now)) []) number) there out.old.items out.new.items) }
    ensures err { OnErr result (out.new.items ≡ out.old.items) }
    ensures lawful { IfSome (given_in (Following hub.now)) IsLegalJournal }
{
    let entry = hub.given(place_of(number));
    put_piece(out, hub.locked().head(), number, by_slice(&entry))
}

/// Appends the line of the step at which a hub diverged, in the same way: whether there is one.
#[inline(never)]
fn put_asked(out: &mut Vec<u8>, hub: &Follower) -> Result<bool, NoMemory>
    ensures ok { IfOk result (λ there. Puts (option_map line hub.now.asked) there out.old.items out.new.items) }
    ensures err { OnErr result (out.new.items ≡ out.old.items) }
{
    let entry = hub.asked();
    put_line(out, hub.locked().head().edition, by_slice(&entry))
}

impl<'a> Source<'a> {
    /// The chapter, if there is one.
    fn of(hub: Option<&'a ShortHub>) -> Source<'a>
        ensures journal { journal_by result ≡ option_map (λ h. journal_of (hub_in h.now)) hub.entry }
        ensures pieces { pieces_by result ≡ option_map_or pieces (journal_by result) [] }
    {
        match hub {
            Some(hub) => Source::Chapter(hub),
            None => Source::Nothing,
        }
    }

    /// Where this text of a hub comes from; `chapter` is the one that waits.
    fn of_text(text: Text, hub: &'a Opened, chapter: &'a Option<ShortHub>) -> Source<'a>
        ensures journal { journal_by result ≡ journal_in text hub.now chapter.now }
        ensures pieces { pieces_by result ≡ pieces_in text hub.now chapter.now }
    {
        match (text, hub) {
            (Text::Present, Opened::Limited(hub)) => Source::Locked(hub),
            (Text::Present, Opened::Endless(hub)) => Source::Chapter(hub.present()),
            (Text::Present, Opened::Following(hub)) => Source::Locked(hub.locked()),
            (Text::Before, Opened::Endless(hub)) => Source::of(hub.before()),
            (Text::Waiting, _) => Source::of(chapter.as_ref()),
            (Text::Given, Opened::Following(hub)) => Source::Given(hub),
            (Text::Asked, Opened::Following(hub)) => Source::Asked(hub),
            _ => Source::Nothing,
        }
    }

    /// Appends this piece: whether there is one. Refused if memory is.
    fn put(&self, out: &mut Vec<u8>, number: u64, room: &mut CaseRoom) -> Result<bool, NoMemory>
        ensures ok { IfOk result (λ there. Puts (slice_get (pieces_by self.now) number) there out.old.items out.new.items) }
        ensures err { OnErr result (out.new.items ≡ out.old.items) }
        ensures lawful { IfSome (journal_by self.now) IsLegalJournal }
    {
        let place = place_of(number);
        match self {
            Source::Locked(hub) => put_piece(out, hub.head(), number, hub.entry(place, room)),
            Source::Chapter(hub) => put_piece(out, hub.head(), number, hub.entry(place, room)),
            Source::Given(hub) => put_given(out, hub, number),
            Source::Asked(hub) if number == 0 => put_asked(out, hub),
            Source::Asked(_) | Source::Nothing => Ok(false),
        }
    }

    /// Appends this piece if there is one, it has room within so many bytes, and no memory is refused for it: whether it did.
    fn has_put(&self, out: &mut Vec<u8>, number: u64, most: usize, room: &mut CaseRoom) -> bool
        requires room { length out.old.items ≤ most }
        ensures put { result ≡ true → Puts (slice_get (pieces_by self.now) number) true out.old.items out.new.items }
        ensures unchanged { result ≡ false → out.new.items ≡ out.old.items }
        ensures fits { length out.new.items ≤ most }
    {
        let before = out.len();
        match self.put(out, number, room) {
            Ok(true) if out.len() <= most => true,
            _ => {
                out.truncate(before);
                false
            }
        }
    }

    /// Appends the pieces behind this one that have room within so many bytes, in order, at most `MOST_MORE`: how many.
    fn put_more(&self, out: &mut Vec<u8>, number: u64, most: usize, room: &mut CaseRoom) -> u32
        requires room { length out.old.items ≤ most }
        ensures pieces { PutsSome (drop (number + 1) (pieces_by self.now)) result out.old.items out.new.items }
        ensures fits { length out.new.items ≤ most }
        ensures few { result ≤ MOST_MORE }
    {
        for count in 0..MOST_MORE {
            match number.checked_add(u64::from(count) + 1) {
                Some(next) if self.has_put(out, next, most, room) => {}
                _ => return count,
            }
        }
        MOST_MORE
    }

    /// Writes pieces from this number on at the head of a place, which has room for them.
    fn read(&self, out: &mut Vec<u8>, number: u64, place: &mut [u8]) -> PieceC
        ensures reads { Reads (drop number (pieces_by self.now)) place.old place.new result }
        ensures lawful { IfSome (journal_by self.now) IsLegalJournal }
    {
        out.clear();
        let mut room = CaseRoom::new();
        match self.put(out, number, &mut room) {
            Ok(true) => {}
            Ok(false) => return no_piece(),
            Err(NoMemory) => return told(NO_MEMORY, 0, 0),
        }
        if place.len() < out.len() {
            return told(NO_ROOM, 0, out.len());
        }
        let count = 1 + self.put_more(out, number, place.len(), &mut room);
        place[..out.len()].copy_from_slice(out);
        told(WRITTEN, count, out.len())
    }
}

/// What is told of a reading.
fn told(what: u8, count: u32, length: usize) -> PieceC
    ensures { result ≡ record { what = what; count = count; length = length } }
{
    PieceC {
        what,
        count,
        length: length as u64,
    }
}

/// What is told where there is no such piece.
pub fn no_piece() -> PieceC
    ensures { result ≡ none_told }
{
    told(NO_PIECE, 0, 0)
}

impl Session {
    /// Writes pieces of a text at the head of `place`, from piece `number` on: as many whole ones as have room there, up to some
    /// bound, and at least that one. Piece 0 is the head lines, and piece k + 1 the line of entry k. Where piece `number` has no
    /// room there, nothing is written, and it is told how much it wants.
    #[inline(never)]
    pub fn read(&mut self, text: Text, number: u64, place: &mut [u8]) -> PieceC
        ensures reads { Reads (drop number (pieces_of text self.old)) place.old place.new result }
        ensures lawful { IfSome (journal_of_text text self.old) IsLegalJournal }
        ensures stays { StaysIn self.old self.new }
    {
        Source::of_text(text, &self.hub, &self.chapter).read(&mut self.pieces, number, place)
    }
}
