//! A chapter's entries, made again.

ghost use Rattle.std.specs.Prelude.{IfOk, IfErr};
ghost use Rattle.hub_cut.specs.Chains.{IsRead, IsHubOf, MakesText};
ghost use Rattle.hub_cut.specs.Faults.{IsNotLegal, IsRefused};

use crate::ChainFault;
use crate::fault::refused_at;
use hub_base::{Events, MOST_STEPS};
use hub_core::{CaseRoom, ShortHub, ShortJournal, read_short_journal};
use std::alloc::Global;

/// The hub that has made the journal's steps.
pub(crate) fn hub_of(alloc: Global, journal: &ShortJournal) -> Result<ShortHub, ChainFault>
    requires { IsRead journal.now }
    ensures ok { IfOk result (λ hub. IsHubOf journal.now hub.memory.hub) }
    ensures err { IfErr result (IsRefused journal.now) }
{
    let head = journal.head();
    let Ok(mut hub) = ShortHub::open(alloc, head.procs, MOST_STEPS, head.edition) else {
        return Err(ChainFault::NoMemory);
    };
    let mut events = Events::new();
    let mut room = CaseRoom::new();
    for place in 0..journal.entries().len() {
        let entry = journal.entries().entry(place, &mut room);
        match hub.step_into(&entry, &mut events) {
            Ok(()) => {}
            Err(fault) => {
                hub.journal_is_legal();
                return Err(refused_at(place, fault));
            }
        }
    }
    Ok(hub)
}

/// The hub that has made the steps of the journal whose text this is, a legal one. It has no limit but the greatest.
#[tactic(auto, using(crate::proofs::Steps::makes_text))]
pub fn read_hub(alloc: Global, text: &[u8]) -> Result<ShortHub, ChainFault>
    ensures ok { IfOk result (λ hub. MakesText text.now hub.memory.hub) }
    ensures refused { IfErr result (IsNotLegal text.now) }
{
    let journal = read_short_journal(alloc, text)?;
    let hub = hub_of(alloc, &journal)?;
    hub.journal_is_legal();
    Ok(hub)
}
