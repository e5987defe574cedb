//! A journal whose entries are kept short, and how it is read and written.

ghost use Rattle.std.specs.Prelude.{◌≡◌, ◌≤◌, ◌++◌, ℕ, List, IfOk, IfErr, IsErrOf, IsOk, OnOk, OnErr};
ghost use Rattle.std.specs.List.{flat_map};
ghost use Rattle.std.specs.Vec.{vec_capacity};
ghost use Rattle.hub_base.specs.Head.{AreOf, IsHead};
ghost use Rattle.hub_base.specs.Lines.{line};
ghost use Rattle.hub_base.specs.Reading.{HasEntry, read_text, text};
ghost use Rattle.hub_base.specs.Text.{IsText};
ghost use Rattle.hub_base.specs.ReadJournal.{Gives, IsFaultOf};
ghost use Rattle.hub_text.specs.Writing.{HasRoomFor};

use crate::{CaseRoom, ShortEntries};
use hub_base::{Edition, Head, Journal, NoMemory, ReadFault};
use hub_text::{EntryPlace, Reader, write_entry, write_head};
use std::alloc::Global;
use std::marker::Model;

/// What a `Journal` holds, in less memory.
#[derive(Drop)]
pub struct ShortJournal {
    /// What the head lines say.
    head: Head,
    /// The entries, in order.
    list: ShortEntries,
}

impl Model for ShortJournal {
    ghost use Rattle.hub_base.specs.Journal.{JournalView};

    ghost Value = { JournalView };

    ghost view = { λ j. record { head = j.head; entries = j.list } };
}

impl ShortJournal {
    /// The journal of these entries.
    pub(crate) fn of(head: Head, list: ShortEntries) -> ShortJournal
        ensures { result ≡ record { head = head; entries = list } }
    {
        ShortJournal { head, list }
    }

    /// What the head lines say.
    pub fn head(&self) -> Head
        ensures { result ≡ self.now.head }
    {
        self.head
    }

    /// The entries, in order.
    pub fn entries(&self) -> &ShortEntries
        ensures { result.now ≡ self.now.entries }
    {
        &self.list
    }

    /// The same journal, written out.
    pub fn write_out(&self, alloc: Global) -> Result<Journal, NoMemory>
        ensures { IfOk result (λ j. j ≡ self.now) }
    {
        let entries = self.list.write_out(alloc)?;
        Ok(Journal::of(self.head.edition, self.head.procs, entries))
    }
}

/// The journal of the entries that are left.
fn collect_entries(alloc: Global, mut reader: Reader) -> Result<ShortJournal, ReadFault>
    ensures gives { Gives result reader.entry.left }
    ensures memory { IsErrOf result ReadFault.NoMemory → HasEntry reader.entry.left }
{
    let mut list = ShortEntries::new(alloc);
    let mut place = EntryPlace::new();
    loop {
        match reader.read_into(&mut place) {
            Ok(true) => {
                if list.push(&place.entry()).is_err() {
                    return Err(ReadFault::NoMemory);
                }
            }
            Ok(false) => {
                let head = reader.head();
                return Ok(ShortJournal { head, list });
            }
            Err(fault) => return Err(ReadFault::Text(fault)),
        }
    }
}

/// The journal that the text says.
fn read_all(alloc: Global, bytes: &[u8]) -> Result<ShortJournal, ReadFault>
    ensures gives { Gives result (read_text bytes.now) }
    ensures memory { IsErrOf result ReadFault.NoMemory → HasEntry (read_text bytes.now) }
{
    match Reader::open(bytes) {
        Ok(reader) => collect_entries(alloc, reader),
        Err(fault) => Err(ReadFault::Text(fault)),
    }
}

/// What `read_journal` reads, kept short. `NoMemory` is answered only where a growth was refused, and `Text` for the
/// first faulty line.
pub fn read_short_journal(alloc: Global, bytes: &[u8]) -> Result<ShortJournal, ReadFault>
    // What is read is so spelled, each byte of it.
    ensures found { IfOk result (λ j. IsText bytes.now j.head j.entries) }
    // Its edition has each of its entries.
    ensures fits { IfOk result (λ j. AreOf j.head.edition j.entries) }
    // A fault is the first one.
    ensures faulty { IfErr result (λ f. IsFaultOf bytes.now f) }
    // What is answered is computed so.
    ensures exact { Gives result (read_text bytes.now) }
    // No memory is asked for before the first entry.
    ensures memory { IsErrOf result ReadFault.NoMemory → HasEntry (read_text bytes.now) }
{
    read_all(alloc, bytes)
}

/// Appends the line of each entry. Where memory is refused, some may have been appended.
fn write_lines(out: &mut Vec<u8>, edition: Edition, entries: &ShortEntries) -> Result<(), NoMemory>
    requires fits { AreOf edition entries.now }
    ensures ok { OnOk result (out.new.items ≡ out.old.items ++ flat_map line entries.now) }
    ensures err { OnErr result ((rest : List ℕ) × (out.new.items ≡ out.old.items ++ rest)) }
    ensures capacity { vec_capacity out.old ≤ vec_capacity out.new }
    ensures succeeds { HasRoomFor out.old (flat_map line entries.now) → IsOk result }
{
    let mut room = CaseRoom::new();
    for place in 0..entries.len() {
        write_entry(out, edition, &entries.entry(place, &mut room))?;
    }
    Ok(())
}

/// Appends the text of a journal of 1 to `MOST_PROCS` processes whose edition has each of its entries, as `write_journal` does;
/// `Err` where a growth was refused, with nothing appended. It is read again as this journal.
pub fn write_short_journal(out: &mut Vec<u8>, journal: &ShortJournal) -> Result<(), NoMemory>
    requires head { IsHead journal.now.head }
    requires fits { AreOf journal.now.head.edition journal.now.entries }
    ensures ok { OnOk result (
        out.new.items ≡ out.old.items ++ text journal.now.head journal.now.entries) }
    ensures err { OnErr result (out.new.items ≡ out.old.items) }
    ensures capacity { vec_capacity out.old ≤ vec_capacity out.new }
    ensures succeeds { HasRoomFor out.old (text journal.now.head journal.now.entries) → IsOk result }
{
    let before = out.len();
    let head = journal.head();
    write_head(out, head.edition, head.procs)?;
    match write_lines(out, head.edition, journal.entries()) {
        Ok(()) => Ok(()),
        Err(NoMemory) => {
            out.truncate(before);
            Err(NoMemory)
        }
    }
}
