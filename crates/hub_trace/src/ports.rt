//! The ports of a journal.

ghost use Rattle.std.specs.Prelude.{◌<◌, ◌-◌, ◌^◌, length};
ghost use Rattle.hub_base.specs.Head.{IsHead};

use hub_base::{EntryRef, NoMemory, Port, Step, What};
use hub_core::{CaseRoom, ShortJournal};
use hub_story::{PORT_NUMBERS, Told, Walk};
use std::alloc::{AllocError, Global};

/// The port that the event of this entry says was made, or opened again, with room for values.
fn roomy_port(entry: &EntryRef<'_>, what: What) -> Option<Port> {
    match (&entry.step, what) {
        (Step::Make(cap), What::Made(port)) if *cap > 0 => Some(port),
        (Step::Reopen { port, cap }, What::Done) if *cap > 0 => Some(*port),
        _ => None,
    }
}

/// The ports that were made, and which of them have room for values.
#[derive(Drop)]
pub(crate) struct Ports {
    /// Those that were made, in order.
    pub(crate) made: Vec<Port>,
    /// Whether the port of each number has room, in one of its lives at least.
    rooms: Vec<bool>,
}

impl Ports {
    /// None.
    pub(crate) fn new(alloc: Global) -> Result<Ports, AllocError> {
        Ok(Ports {
            made: Vec::new(alloc),
            rooms: vec![in alloc; false; PORT_NUMBERS]?,
        })
    }

    /// Takes in what is told of this entry.
    pub(crate) fn note(&mut self, entry: &EntryRef<'_>, told: &Told) -> Result<(), AllocError> {
        if let What::Made(port) = told.event.what {
            self.made.push(port)?;
        }
        let Some(port) = roomy_port(entry, told.event.what) else {
            return Ok(());
        };
        if let Some(room) = self.rooms.get_mut(usize::from(port.0)) {
            *room = true;
        }
        Ok(())
    }

    /// Takes in the events that came by the step of this entry. None of an earlier one tells of ports.
    fn note_step(&mut self, entry: &EntryRef<'_>, came: &[Told]) -> Result<(), AllocError> {
        for told in came {
            self.note(entry, told)?;
        }
        Ok(())
    }

    /// Those of a journal, by one walk.
    pub(crate) fn of(alloc: Global, journal: &ShortJournal) -> Result<Ports, NoMemory>
        requires head { IsHead journal.now.head }
        requires few { length journal.now.entries < 2 ^ 32 - 1 }
    {
        let mut walk = Walk::new(alloc, journal)?;
        let mut ports = Ports::new(alloc)?;
        let mut room = CaseRoom::new();
        for place in 0..journal.entries().len() {
            let entry = walk.step(journal, place, &mut room)?;
            ports.note_step(&entry, walk.came())?;
        }
        Ok(ports)
    }

    /// Whether the port has room.
    pub(crate) fn has_room(&self, port: Port) -> bool {
        self.rooms
            .get(usize::from(port.0))
            .copied()
            .unwrap_or(false)
    }
}
