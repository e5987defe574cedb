//! The text of a checkpoint, which is a journal of its own.

ghost use Rattle.std.specs.Prelude.{◌≡◌, IfOk};
ghost use Rattle.hub_base.specs.Head.{IsHead};
ghost use Rattle.hub_base.specs.Reading.{text};
ghost use Rattle.hub_base.specs.Text.{IsText};
ghost use Rattle.hub_core.specs.HubView.{state_of};
ghost use Rattle.hub_chapters.specs.Checkpoint.{checkpoint};

use crate::checkpoints::checkpoint_of;
use crate::texts::all_fit;
use hub_base::{Journal, NoMemory};
use hub_core::ShortHub;
use hub_text::write_journal;
use std::alloc::Global;

/// The text of this journal.
fn text_of(alloc: Global, journal: &Journal) -> Result<Vec<u8>, NoMemory>
    requires { IsHead journal.now.head }
    ensures { IfOk result (λ t. t.items ≡ text journal.now.head journal.now.entries) }
{
    let mut text = Vec::new(alloc);
    write_journal(&mut text, journal)?;
    Ok(text)
}

/// The text of the checkpoint of the hub's state. What `read_journal` reads of it is the checkpoint.
pub fn checkpoint_text(alloc: Global, hub: &ShortHub) -> Result<Vec<u8>, NoMemory>
    ensures { IfOk result (λ text. IsText text.items hub.now.memory.hub.terms.head (checkpoint (state_of hub.now.memory.hub))) }
{
    hub.journal_is_legal();
    let head = hub.head();
    let entries = checkpoint_of(alloc, hub)?;
    all_fit(head.edition, &entries);
    text_of(alloc, &Journal::of(head.edition, head.procs, entries))
}
