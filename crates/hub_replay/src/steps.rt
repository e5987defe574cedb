//! The steps of a journal, one after another.
//!
//! Both a replay and a comparison go through them. An entry is read, its step is made, and its events are written;
//! none of them is kept.

ghost use Rattle.std.specs.Prelude.{◌≡◌, ◌≤◌, ◌<◌, ◌+◌, ◌-◌, ◌^◌, ℕ, List, [], length, IfOk, IfErr};
ghost use Rattle.std.specs.Bool.{OnTrue};
ghost use Rattle.hub_base.specs.Reading.{read_text};
ghost use Rattle.hub_replay.specs.Replay.{HasNone};
ghost use Rattle.hub_replay.specs.Replayed.{Replayed, GoesOn};

use crate::ReplayFault;
use hub_base::MOST_BYTES;
use hub_core::Machine;
use hub_text::{EntryPlace, EventText, Reader, one_reading};
use std::alloc::Global;

/// The bytes that decide what a text says: of a text of too many bytes the first that is one too many
/// stands in a faulty line.
fn deciding(bytes: &[u8]) -> &[u8]
    ensures same { read_text result.now ≡ read_text bytes.now }
    ensures few { length result.now ≤ MOST_BYTES + 1 }
{
    if bytes.len() <= MOST_BYTES {
        bytes
    } else {
        &bytes[..MOST_BYTES + 1]
    }
}

/// A journal that is being read, and the machine that makes its steps.
///
/// The machine stands where the entries before led. All are read into one place.
#[derive(Drop)]
pub struct Steps<'a> {
    /// What is left of the journal.
    reader: Reader<'a>,
    /// What the entries so far have led to.
    machine: Machine,
    /// Where the last of them stands.
    place: EntryPlace,
    ghost room: { machine.steps + reader.bytes < 2 ^ 32 - 1 },
}

impl<'a> Steps<'a> {
    /// Before the first step of this journal.
    pub fn open(alloc: Global, bytes: &'a [u8]) -> Result<Steps<'a>, ReplayFault>
        ensures ok { IfOk result (λ steps. Replayed bytes.now [] steps.reader steps.machine) }
        ensures err { IfErr result (HasNone bytes.now) }
    {
        // Its clauses say of which text the reader's fault is the first.
        one_reading();
        let reader = Reader::open(deciding(bytes))?;
        let machine = Machine::new(alloc, reader.head())?;
        Ok(Steps {
            reader,
            machine,
            place: EntryPlace::new(),
        })
    }

    /// Makes the next step, and writes its events behind these lines; `false` at the end of the journal. An `Err`
    /// is the journal's first fault, or memory.
    #[inline(always)]
    fn step(&mut self, lines: &mut EventText) -> Result<bool, ReplayFault>
        ensures ok { IfOk result (λ more. (bytes text : List ℕ)
            → Replayed bytes text self.old.reader self.old.machine
            → GoesOn bytes text self.new.reader self.new.machine lines.old.lines lines.new.lines more) }
        ensures less { IfOk result (λ more. OnTrue more (self.new.reader.bytes < self.old.reader.bytes)) }
        ensures err { IfErr result (λ fault. (bytes text : List ℕ)
            → Replayed bytes text self.old.reader self.old.machine → HasNone bytes fault) }
    {
        // Its clauses say of which journal the reader's answers speak.
        one_reading();
        if !self.reader.read_into(&mut self.place)? {
            return Ok(false);
        }
        lines.make_step_room()?;
        self.machine.step_into(&self.place, lines)?;
        Ok(true)
    }

    /// Makes steps, and writes their events behind these lines, until they have so many bytes; `false` at the end of
    /// the journal. An `Err` is the journal's first fault, or memory.
    ///
    /// It is a function of its own for whoever calls it, since the compiler writes a whole step into a loop only where
    /// there is one such loop.
    #[inline(never)]
    pub fn advance(&mut self, lines: &mut EventText, enough: usize) -> Result<bool, ReplayFault>
        ensures ok { IfOk result (λ more. (bytes text : List ℕ)
            → Replayed bytes text self.old.reader self.old.machine
            → GoesOn bytes text self.new.reader self.new.machine lines.old.lines lines.new.lines more) }
        ensures less { IfOk result (λ more. OnTrue more (self.new.reader.bytes < self.old.reader.bytes)) }
        ensures enough { IfOk result (λ more. OnTrue more (enough ≤ length lines.new.lines)) }
        ensures err { IfErr result (λ fault. (bytes text : List ℕ)
            → Replayed bytes text self.old.reader self.old.machine → HasNone bytes fault) }
    {
        while self.step(lines)? {
            if lines.text().len() >= enough {
                return Ok(true);
            }
        }
        Ok(false)
    }
}
