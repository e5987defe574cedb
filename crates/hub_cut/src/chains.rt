//! A chain of chapters that is checked.

ghost use Rattle.std.specs.Prelude.{◌≡◌, ◌++◌, ◌∷◌, [], ℕ, List, IfOk, IfErr, OnOk, OnErr};
ghost use Rattle.hub_base.specs.Entry.{Entry};
ghost use Rattle.hub_base.specs.declared.head.Head.{Head};
ghost use Rattle.hub_chapters.specs.Chapters.{Chapters};
ghost use Rattle.hub_chapters.specs.Chapters.Chapters.{First, Cut};

use crate::beginnings::{begins_with, has_head};
use crate::replays::hub_of;
use crate::{ChainFault, checkpoint_of};
use hub_base::Journal;
use hub_core::{ShortJournal, read_short_journal};
use std::alloc::Global;
use std::marker::Model;

/// A chain of chapters, each of which follows the one before. Contracts see the journal with which the next one must
/// begin: the checkpoint of the last chapter.
#[derive(Drop)]
pub struct Chain {
    /// The last chapter's checkpoint.
    checkpoint: Journal,
}

impl Model for Chain {
    ghost use Rattle.hub_base.specs.Journal.{JournalView};

    ghost Value = { JournalView };

    ghost view = { λ c. c.checkpoint };
}

impl Chain {
    ghost use Rattle.hub_cut.specs.Chains.{IsRead, EndsIn, Stands, Begins, Follows, IsChapter, IsWhole};
    ghost use Rattle.hub_cut.specs.Faults.{IsNotLegal, DoesNotFollow, IsRefused};
    ghost use Rattle.hub_cut.specs.Texts.{IsAt, StandsAt, AreWhole, IsNoNext};
    ghost use Rattle.hub_cut.specs.declared.fault.ChainFault.TheVariants as why;

    /// The chain that ends in this chapter.
    fn ending_in(alloc: Global, chapter: &ShortJournal) -> Result<Chain, ChainFault>
        requires { IsRead chapter.now }
        ensures ok { IfOk result (EndsIn chapter.now) }
        ensures err { IfErr result (IsRefused chapter.now) }
    {
        let hub = hub_of(alloc, chapter)?;
        hub.journal_is_legal();
        let head = hub.head();
        let entries = checkpoint_of(alloc, &hub)?;
        Ok(Chain {
            checkpoint: Journal::of(head.edition, head.procs, entries),
        })
    }

    /// The chain of one chapter, whose text this is: the text of a legal journal.
    pub fn first(alloc: Global, text: &[u8]) -> Result<Chain, ChainFault>
        ensures begins { IfOk result (Begins text.now) }
        ensures refused { IfErr result (IsNotLegal text.now) }
        ensures only { IfErr result (λ fault. ¬ (fault ≡ why.NoMemory) → (h : Head) (es : List Entry)
            → ¬ IsChapter text.now h (First es)) }
    {
        let chapter = read_short_journal(alloc, text)?;
        Chain::ending_in(alloc, &chapter)
    }

    /// Takes the next chapter, whose text this is: the text of a legal journal with the same head, which begins with the
    /// checkpoint of the last chapter. After a refusal the chain stands where it stood.
    pub fn next(&mut self, alloc: Global, text: &[u8]) -> Result<(), ChainFault>
        ensures follows { OnOk result ((h : Head) (chapters : Chapters)
            → Stands self.old h chapters → Follows text.now h chapters self.new) }
        ensures refused { IfErr result (DoesNotFollow self.old text.now) }
        ensures only { IfErr result (λ fault. ¬ (fault ≡ why.NoMemory)
            → (h : Head) (chapters : Chapters) (later : List Entry) → Stands self.old h chapters
            → ¬ IsChapter text.now h (Cut chapters later)) }
        ensures unchanged { OnErr result (self.new ≡ self.old) }
    {
        let chapter = read_short_journal(alloc, text)?;
        has_head(chapter.head(), self.checkpoint.head())?;
        begins_with(chapter.entries(), self.checkpoint.entries())?;
        *self = Chain::ending_in(alloc, &chapter)?;
        Ok(())
    }

    /// The chain with one chapter more; without a chain this is the first. After a refusal the chain is gone.
    pub fn longer(chain: Option<Chain>, alloc: Global, text: &[u8]) -> Result<Chain, ChainFault>
        ensures ok { IfOk result (λ longer. (texts : List (List ℕ))
            → IsAt chain texts → StandsAt longer (texts ++ text.now ∷ [])) }
        ensures refused { IfErr result (IsNoNext chain text.now) }
        ensures only { IfErr result (λ fault. ¬ (fault ≡ why.NoMemory) → (texts later : List (List ℕ))
            → IsAt chain texts → ¬ AreWhole (texts ++ text.now ∷ later)) }
    {
        match chain {
            None => Chain::first(alloc, text),
            Some(mut chain) => {
                chain.next(alloc, text)?;
                Ok(chain)
            }
        }
    }

    /// Its chapters are one history: a legal one, which tells what they tell behind their checkpoints.
    pub fn chapters_are_whole(&self)
        ensures chapters { (h : Head) (chapters : Chapters)
            → Stands self.now h chapters → IsWhole h chapters }
        ensures texts { (texts : List (List ℕ)) → StandsAt self.now texts → AreWhole texts }
    {}
}
