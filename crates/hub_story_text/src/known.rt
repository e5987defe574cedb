//! What must be known of a journal before its first step is told.

ghost use Rattle.std.specs.Prelude.{◌≡◌, ◌<◌, ◌-◌, ◌^◌, ◌++◌, filter, length, IfOk, OnOk};
ghost use Rattle.hub_base.specs.Head.{IsHead};
ghost use Rattle.hub_story.specs.Lives.{is_turn};
ghost use Rattle.hub_story.specs.Partners.{AreIn, is_made, ways};
ghost use Rattle.hub_story.specs.PortMoves.{AreMoves};
ghost use Rattle.hub_story.specs.Tellings.{IsTelling};
ghost use Rattle.hub_story.specs.Told.{told};
ghost use Rattle.hub_story_text.specs.Known.{IsKnown};
ghost use Rattle.hub_story_text.specs.StoryText.{ports_text};

use crate::ports::put_ports;
use hub_base::NoMemory;
use hub_core::ShortJournal;
use hub_story::{LateEnds, Outline, PortMoves, Told, partners_of};
use std::alloc::Global;

/// What is known of a journal.
#[derive(Drop)]
pub struct Known {
    /// How calls ended by later steps than their own.
    pub ends: LateEnds,
    /// For each entry the other one of the passage in which it stands.
    pub partners: Vec<Option<u32>>,
    /// The lines of the ports.
    pub ports: Vec<u8>,
}

/// What is known of the values of a journal: of each entry the other one of the passage in which it stands. Appends the lines
/// of the ports. The list of all moves is let go.
fn carried_of(
    ports: &mut Vec<u8>,
    journal: &ShortJournal,
    moves: PortMoves,
    made: &[Told],
    turns: &[Told],
) -> Result<Vec<Option<u32>>, NoMemory>
    requires telling { IsTelling (length journal.now.entries) (told journal.now.head journal.now.entries) }
    requires moves { AreMoves journal.now.entries (told journal.now.head journal.now.entries) moves }
    requires made { made.now ≡ filter (λ t. is_made t.event.what) (told journal.now.head journal.now.entries) }
    requires turns { turns.now ≡ filter (is_turn journal.now.entries) (told journal.now.head journal.now.entries) }
    ensures partners { IfOk result (λ partners. AreIn (ways journal.now.entries (told journal.now.head journal.now.entries))
        (length journal.now.entries) partners.items) }
    ensures ports { OnOk result (ports.new.items ≡
        ports.old.items ++ ports_text journal.now.entries (told journal.now.head journal.now.entries)) }
{
    put_ports(ports, journal, &moves, made, turns)?;
    let partners = partners_of(*ports.allocator(), journal.entries(), &moves, made.len())?;
    Ok(partners)
}

impl Known {
    /// What is known of a journal of 1 to `MOST_PROCS` processes, by one walk.
    pub fn of(alloc: Global, journal: &ShortJournal) -> Result<Known, NoMemory>
        requires head { IsHead journal.now.head }
        requires few { length journal.now.entries < 2 ^ 32 - 1 }
        ensures { IfOk result (IsKnown journal.now) }
    {
        let Outline {
            moves,
            made,
            turns,
            ended,
        } = Outline::of(alloc, journal)?;
        let mut ports = Vec::new(alloc);
        let partners = carried_of(&mut ports, journal, moves, &made, &turns)?;
        let ends = LateEnds::of(alloc, ended, journal.entries().len())?;
        Ok(Known {
            ends,
            partners,
            ports,
        })
    }
}
