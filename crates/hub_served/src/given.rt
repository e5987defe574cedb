//! The journal that is followed, and how much of it is made.
//!
//! Where a process's next entry stands is asked at each step, so it is kept for each process. When the first entry that was left
//! is made, its process's next place is the one to which that entry's link leads.

ghost use Rattle.std.specs.Prelude.{◌≡◌, ◌≤◌, ◌<◌, ◌+◌, IfOk, IfSome, length};
ghost use Rattle.std.specs.List.{position_from};
ghost use Rattle.hub_base.specs.declared.limits.TheConstants.{MOST_BYTES};
ghost use Rattle.hub_served.specs.Given.{AreLinks, AreTurns, turn_from};

use hub_base::Pid;
use hub_core::{ShortEntries, ShortJournal};
use std::alloc::{AllocError, Global};
use std::marker::Model;

/// How many numbers an entry can give a process.
const PID_NUMBERS: usize = 256;

/// The journal that is followed, of which so many entries are made.
#[derive(Drop)]
pub(crate) struct Given {
    /// The journal.
    journal: ShortJournal,
    /// For each entry the place of its process's next one; where there is none, the number of entries.
    links: Vec<u32>,
    /// For each process the place of its next entry that is not made; where there is none, the number of entries.
    turns: Vec<u32>,
    /// How many entries are made.
    made: usize,
}

impl Model for Given {
    ghost use Rattle.hub_served.specs.Given.{AreLinks, AreTurns, GivenView};

    ghost Value = { GivenView };

    ghost view = { λ g. record { entries = g.journal.entries; made = g.made } };

    ghost invariant = { λ g. AreLinks g.links.items 0 g.journal.entries × AreTurns g.turns.items g.made g.journal.entries };
}

/// The link of each entry. `turns` gets the place of each process's first entry.
fn links_of(
    alloc: Global,
    entries: &ShortEntries,
    turns: &mut Vec<u32>,
) -> Result<Vec<u32>, AllocError>
    requires few { length entries.now ≤ MOST_BYTES }
    requires none { AreTurns turns.old.items (length entries.now) entries.now }
    ensures links { IfOk result (λ links. AreLinks links.items 0 entries.now) }
    ensures turns { IfOk result (λ links. AreTurns turns.new.items 0 entries.now) }
{
    let mut links = vec![in alloc; 0; entries.len()]?;
    let mut left = entries.len();
    while left > 0 {
        left -= 1;
        if let Some(pid) = entries.pid_at(left) {
            let process = usize::from(pid.0);
            links[left] = turns[process];
            turns[process] = left as u32;
        }
    }
    Ok(links)
}

impl Given {
    /// This journal, of which nothing is made.
    pub(crate) fn of(alloc: Global, journal: ShortJournal) -> Result<Given, AllocError>
        requires few { length journal.entries ≤ MOST_BYTES }
        ensures { IfOk result (λ g. g ≡ record { entries = journal.entries; made = 0 }) }
    {
        let entries = journal.entries();
        let mut turns = vec![in alloc; entries.len() as u32; PID_NUMBERS]?;
        let links = links_of(alloc, entries, &mut turns)?;
        Ok(Given {
            journal,
            links,
            turns,
            made: 0,
        })
    }

    /// The entries.
    pub(crate) fn entries(&self) -> &ShortEntries
        ensures { result.now ≡ self.now.entries }
    {
        self.journal.entries()
    }

    /// How many of them are made.
    pub(crate) fn made(&self) -> usize
        ensures { result ≡ self.now.made }
    {
        self.made
    }

    /// The place of this process's next entry that is not made.
    pub(crate) fn turn(&self, pid: Pid) -> Option<usize>
        ensures turn { result ≡ turn_from pid.0 self.now.made self.now.entries }
        ensures behind { IfSome result (λ place. self.now.made ≤ place) }
        ensures within { IfSome result (λ place. place < length self.now.entries) }
    {
        let place = self.turns[usize::from(pid.0)] as usize;
        if place < self.entries().len() {
            Some(place)
        } else {
            None
        }
    }

    /// The next entry is made.
    pub(crate) fn advance(&mut self)
        requires left { self.old.made < length self.old.entries }
        ensures { self.new ≡ record { entries = self.old.entries; made = self.old.made + 1 } }
    {
        let Some(pid) = self.journal.entries().pid_at(self.made) else {
            unreachable!()
        };
        self.turns[usize::from(pid.0)] = self.links[self.made];
        self.made += 1;
    }
}
