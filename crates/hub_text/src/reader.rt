//! Reading a journal: entry by entry, and whole.
//!
//! The first faulty line decides, and of its faults the first in the order of tests: too many
//! bytes, no newline, the head lines, the shape of a step, its numbers, its spelling, too many
//! steps.

ghost use Rattle.std.specs.Prelude.{◌≡◌, ◌≤◌, ◌<◌, ℕ, length, drop, true, Some, Ok, IfOk, IfErr, IsErrOf, OnSome, List, ◌++◌};
ghost use Rattle.std.specs.Bool.{OnTrue, OnFalse};
ghost use Rattle.std.specs.List.{AllByRecursion, flat_map};
ghost use mathlib.Core.List.{IsPrefix};
ghost use Rattle.hub_base.specs.EventText.{event_line, EventFits};
ghost use Rattle.hub_base.specs.Head.{IsHead, AreOf};
ghost use Rattle.hub_base.specs.Lines.{line};
ghost use Rattle.hub_base.specs.Reading.{read_text, edition_of, procs_number, procs_from, rows, HasEntry};
ghost use Rattle.hub_base.specs.ReadJournal.{Gives, IsFaultOf};
ghost use Rattle.hub_base.specs.Text.{IsText, IsFaulty, IsEither, Fits};
ghost use Rattle.hub_base.specs.Reading.Reading.{Reads, Faulty};
ghost use Rattle.hub_text.specs.Reader.{ReadsOn, FillsOn, edition_said, procs_said};
ghost use Rattle.hub_base.specs.Entry.{Entry};
ghost use Rattle.hub_base.specs.declared.event.Event.{Event};
ghost use Rattle.hub_base.specs.declared.head.Edition.{Edition};
ghost use Rattle.hub_base.specs.declared.head.Head.{Head};
ghost use Rattle.hub_base.specs.declared.read_fault.Kind.{Kind};

use crate::fields::Fields;
use crate::lines::line_at;
use crate::numbers::number;
use crate::place::EntryPlace;
use crate::quick::{quick_exit, quick_line};
use crate::steps::{read_line, same_text};
use crate::writer::header;
use hub_base::{
    Edition, Head, Journal, Kind, MOST_BYTES, MOST_PROCS, MOST_STEPS, ReadFault, TextFault,
};
use std::alloc::Global;
use std::marker::Model;

/// The edition that the first line says.
fn edition_of(line: &[u8]) -> Option<Edition>
    ensures { result ≡ edition_of line.now }
{
    if same_text(line, header(Edition::One)) {
        Some(Edition::One)
    } else if same_text(line, header(Edition::Two)) {
        Some(Edition::Two)
    } else if same_text(line, header(Edition::Three)) {
        Some(Edition::Three)
    } else {
        None
    }
}

/// The number of processes that the second line says.
fn procs_number(line: &[u8]) -> Option<u8>
    ensures value { result ≡ procs_number line.now }
{
    let mut fields = Fields::of(line, b' ');
    let word = fields.next_field()?;
    let procs = fields.next_field()?;
    if fields.next_field().is_some() || !same_text(word, b"procs") {
        return None;
    }
    let procs = number(procs, MOST_PROCS as u64)?;
    if procs == 0 { None } else { Some(procs as u8) }
}

/// Reads a journal's text, one entry at a time, and takes no memory.
///
/// What is left is a list of whole lines, the first of which has number `line` and begins at byte
/// `place`, and `steps` counts the entries before it that are no exits. All stay within the limits
/// of a text.
#[derive(Drop)]
pub struct Reader<'a> {
    /// What the head lines say.
    head: Head,
    /// The bytes behind the lines that were read.
    rest: &'a [u8],
    /// The number of the line that is read next, from 1.
    line: u32,
    /// How many bytes stand before it.
    place: usize,
    /// How many of the entries before it are no exits.
    steps: u32,
}

impl<'a> Model for Reader<'a> {
    ghost use Rattle.std.specs.Prelude.{length};
    ghost use Rattle.hub_text.specs.Reader.{ReaderView};

    ghost Value = { ReaderView };

    ghost use Rattle.hub_text.specs.ReaderKeeps.{ReaderKeeps, left_of};

    ghost view = { λ r. record { head = r.head; left = left_of r; bytes = length r.rest.now } };

    ghost invariant = { λ r. ReaderKeeps r };
}

/// The reader behind the second line, which begins at this place, in a journal of this edition.
fn open_entries(bytes: &[u8], place: usize, edition: Edition) -> Result<Reader<'_>, Kind>
    requires place { place ≤ MOST_BYTES }
    ensures ok { IfOk result (λ r. procs_from edition place (rows bytes.now) ≡ r.left) }
    ensures edition { IfOk result (λ r. r.head.edition ≡ edition) }
    ensures procs { IfOk result (λ r. procs_said (rows bytes.now) ≡ Some r.head.procs) }
    ensures bytes { IfOk result (λ r. r.bytes ≤ length bytes.now) }
    ensures fault { IfErr result (λ kind. procs_from edition place (rows bytes.now) ≡ Faulty 2 kind) }
{
    if bytes.is_empty() {
        return Err(Kind::BadProcs);
    }
    let (line, rest) = line_at(bytes, place)?;
    match procs_number(line) {
        None => Err(Kind::BadProcs),
        Some(procs) => Ok(Reader {
            head: Head { edition, procs },
            rest,
            line: 3,
            place: place + line.len() + 1,
            steps: 0,
        }),
    }
}

impl<'a> Reader<'a> {
    /// Reads the two head lines; an `Err` is a fault of one of them. The edition is the first line's and the
    /// number of processes the second's also where a later line is faulty.
    pub fn open(bytes: &'a [u8]) -> Result<Reader<'a>, TextFault>
        ensures ok { IfOk result (λ r. read_text bytes.now ≡ r.left) }
        ensures edition { IfOk result (λ r. edition_said (rows bytes.now) ≡ Some r.head.edition) }
        ensures procs { IfOk result (λ r. procs_said (drop 1 (rows bytes.now)) ≡ Some r.head.procs) }
        ensures bytes { IfOk result (λ r. r.bytes ≤ length bytes.now) }
        ensures fault { IfErr result (λ f. read_text bytes.now ≡ Faulty f.line f.kind) }
    {
        if bytes.is_empty() {
            return Err(TextFault {
                line: 1,
                kind: Kind::BadHeader,
            });
        }
        let (line, rest) = line_at(bytes, 0).map_err(|kind| TextFault { line: 1, kind })?;
        match edition_of(line) {
            None => Err(TextFault {
                line: 1,
                kind: Kind::BadHeader,
            }),
            Some(edition) => {
                open_entries(rest, line.len() + 1, edition).map_err(|kind| TextFault {
                    line: 2,
                    kind,
                })
            }
        }
    }

    /// What the head lines say.
    pub fn head(&self) -> Head
        ensures value { result ≡ self.now.head }
        ensures range { IsHead result }
    {
        self.head
    }

    /// The number of processes, 1 to `MOST_PROCS`.
    pub fn procs(&self) -> u8
        ensures value { result ≡ self.now.head.procs }
        ensures range { (1 ≤ result) × (result ≤ MOST_PROCS) }
    {
        self.head.procs
    }

    /// Reads the next entry into this place; `false` at the end of the text. At the end and at a fault the reader stays
    /// where it is, so that each further call answers the same, and any entry may stand in the place.
    #[inline(always)]
    pub fn read_into(&mut self, place: &mut EntryPlace) -> Result<bool, TextFault>
        ensures reads { FillsOn self.old self.new place.new result }
        ensures some { IfOk result (λ more. OnTrue more (HasEntry self.old.left)) }
    {
        if self.rest.is_empty() {
            return Ok(false);
        }
        if self.read_quickly(place) || self.read_exit(place) {
            return Ok(true);
        }
        self.read_slowly(place)
    }

    /// Reads the next line where it is one that `quick_line` knows, and within the limits. Where it answers
    /// `false`, any entry may stand in the place.
    #[inline]
    fn read_quickly(&mut self, place: &mut EntryPlace) -> bool
        requires some { 0 < self.old.bytes }
        ensures reads { OnTrue result (FillsOn self.old self.new place.new (Ok true)) }
        ensures some { OnTrue result (HasEntry self.old.left) }
        ensures unchanged { OnFalse result (self.new ≡ self.old) }
    {
        if self.steps == MOST_STEPS || self.rest[self.rest.len() - 1] != b'\n' {
            return false;
        }
        match quick_line(self.head.edition, self.rest, place) {
            Some(end) if end <= MOST_BYTES - self.place => {
                self.steps += 1;
                self.place += end;
                self.line += 1;
                self.rest = &self.rest[end..];
                true
            }
            _ => false,
        }
    }

    /// Reads the next line where it is an exit that `quick_exit` knows, and within the limits. Where it answers `false`,
    /// any entry may stand in the place.
    #[inline(never)]
    fn read_exit(&mut self, place: &mut EntryPlace) -> bool
        requires some { 0 < self.old.bytes }
        ensures reads { OnTrue result (FillsOn self.old self.new place.new (Ok true)) }
        ensures some { OnTrue result (HasEntry self.old.left) }
        ensures unchanged { OnFalse result (self.new ≡ self.old) }
    {
        if self.rest[self.rest.len() - 1] != b'\n' {
            return false;
        }
        let Some(end) = quick_exit(self.rest, place) else {
            return false;
        };
        if end > MOST_BYTES - self.place {
            return false;
        }
        self.place += end;
        self.line += 1;
        self.rest = &self.rest[end..];
        true
    }

    /// Reads any next line: its end is looked for, then its fields, and then their numbers.
    #[inline(never)]
    fn read_slowly(&mut self, place: &mut EntryPlace) -> Result<bool, TextFault>
        requires some { 0 < self.old.bytes }
        ensures reads { FillsOn self.old self.new place.new result }
        ensures some { IfOk result (λ more. OnTrue more (HasEntry self.old.left)) }
    {
        let (text, after) = match line_at(self.rest, self.place) {
            Ok(parts) => parts,
            Err(kind) => return Err(TextFault {
                line: self.line,
                kind,
            }),
        };
        match read_line(self.head.edition, text, place) {
            Ok(()) => {}
            Err(kind) => return Err(TextFault {
                line: self.line,
                kind,
            }),
        }
        if !place.is_exit() {
            if self.steps == MOST_STEPS {
                return Err(TextFault {
                    line: self.line,
                    kind: Kind::TooLong,
                });
            }
            self.steps += 1;
        }
        self.place += text.len() + 1;
        self.line += 1;
        self.rest = after;
        Ok(true)
    }

    /// The next entry, or `None` at the end of the text. At the end and at a fault the reader stays
    /// where it is, so that each further call answers the same.
    pub fn next_entry(&mut self) -> Result<Option<hub_base::Entry>, TextFault>
        ensures reads { ReadsOn self.old self.new result }
        ensures some { IfOk result (λ next. OnSome next (HasEntry self.old.left)) }
    {
        let mut place = EntryPlace::new();
        match self.read_into(&mut place) {
            Ok(true) => Ok(Some(place.entry().to_owned())),
            Ok(false) => Ok(None),
            Err(fault) => Err(fault),
        }
    }
}

/// The journal of the entries that are left.
fn collect_entries(alloc: Global, mut reader: Reader) -> Result<Journal, ReadFault>
    ensures gives { Gives result reader.entry.left }
    ensures memory { IsErrOf result ReadFault.NoMemory → HasEntry reader.entry.left }
{
    let mut entries = Vec::new(alloc);
    loop {
        match reader.next_entry() {
            Ok(Some(entry)) => {
                if entries.push(entry).is_err() {
                    return Err(ReadFault::NoMemory);
                }
            }
            Ok(None) => {
                let head = reader.head();
                return Ok(Journal::of(head.edition, head.procs, entries));
            }
            Err(fault) => return Err(ReadFault::Text(fault)),
        }
    }
}

/// The journal that the text says.
fn read_all(alloc: Global, bytes: &[u8]) -> Result<Journal, ReadFault>
    ensures gives { Gives result (read_text bytes.now) }
    ensures memory { IsErrOf result ReadFault.NoMemory → HasEntry (read_text bytes.now) }
{
    match Reader::open(bytes) {
        Ok(reader) => collect_entries(alloc, reader),
        Err(fault) => Err(ReadFault::Text(fault)),
    }
}

/// The journal that a text says: its edition, its number of processes, and its entries, whether or not a hub
/// admits them.
///
/// `NoMemory` is answered only where a growth was refused, and `Text` for the first faulty line.
pub fn read_journal(alloc: Global, bytes: &[u8]) -> Result<Journal, ReadFault>
    // What is read is so spelled, each byte of it.
    ensures found { IfOk result (λ j. IsText bytes.now j.head j.entries) }
    // Its edition has each of its entries.
    ensures fits { IfOk result (λ j. AreOf j.head.edition j.entries) }
    // What is so spelled is read, unless memory is refused.
    ensures only { (h : Head) (es : List Entry) → IsText bytes.now h es → Gives result (Reads h es) }
    // A fault is the first one.
    ensures faulty { IfErr result (λ f. IsFaultOf bytes.now f) }
    // What is faulty is refused for its first fault, unless memory is refused.
    ensures refused { (k : ℕ) (kind : Kind) → IsFaulty bytes.now k kind → Gives result (Faulty k kind) }
    // What is answered is computed so.
    ensures exact { Gives result (read_text bytes.now) }
    // No memory is asked for before the first entry.
    ensures memory { IsErrOf result ReadFault.NoMemory → HasEntry (read_text bytes.now) }
{
    read_all(alloc, bytes)
}

/// A law: each list of bytes is a text or faulty, and not both, in one way; and what the computed
/// reading of it says, it is.
pub fn one_reading()
    ensures some { (bytes : List ℕ) → IsEither bytes }
    ensures reads { (bytes : List ℕ) (h : Head) (es : List Entry)
        → read_text bytes ≡ Reads h es → IsText bytes h es }
    ensures faults { (bytes : List ℕ) (k : ℕ) (kind : Kind)
        → read_text bytes ≡ Faulty k kind → IsFaulty bytes k kind }
    ensures text { (bytes : List ℕ) (h k : Head) (es fs : List Entry)
        → IsText bytes h es → IsText bytes k fs → (h ≡ k) × (es ≡ fs) }
    ensures fault { (bytes : List ℕ) (j k : ℕ) (kind other : Kind)
        → IsFaulty bytes j kind → IsFaulty bytes k other → (j ≡ k) × (kind ≡ other) }
    ensures apart { (bytes : List ℕ) (h : Head) (k : ℕ) (es : List Entry) (kind : Kind)
        → IsText bytes h es → IsFaulty bytes k kind → ⊥ }
{}

/// A law: in one edition no spelling begins another, so a list of lines can be read in one way. Where an edition
/// has an entry, it fits, read or not: `Entry::fits` and `write_entry` tell so.
pub fn one_spelling()
    ensures { (edition : Edition) (e f : Entry) (x y : List ℕ)
        → Fits edition e → Fits edition f → line e ++ x ≡ line f ++ y → (e ≡ f) × (x ≡ y) }
{}

/// A law: no event's line begins another's, so a list of lines can be read in one way; and where the
/// text of some events begins that of others, the events begin the others. Each event fits: `write_event` tells so.
pub fn one_event_spelling()
    ensures line { (e f : Event) (x y : List ℕ)
        → EventFits e → EventFits f → event_line e ++ x ≡ event_line f ++ y → (e ≡ f) × (x ≡ y) }
    ensures text { (es fs : List Event)
        → AllByRecursion EventFits es → AllByRecursion EventFits fs
        → flat_map event_line es ≡ flat_map event_line fs → es ≡ fs }
    ensures begins { (es fs : List Event) (rest : List ℕ)
        → AllByRecursion EventFits es → AllByRecursion EventFits fs
        → flat_map event_line es ++ rest ≡ flat_map event_line fs → IsPrefix es fs }
{}
