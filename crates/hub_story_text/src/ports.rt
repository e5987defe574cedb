//! What each port that was made carried, and by whom it was made, opened again and closed.

ghost use Rattle.std.specs.Prelude.{◌≡◌, ◌++◌, filter, length, slice_get, OnOk, []};
ghost use Rattle.std.specs.Option.{option_map_or};
ghost use Rattle.hub_story.specs.Lives.{is_turn};
ghost use Rattle.hub_story.specs.Partners.{is_made};
ghost use Rattle.hub_story.specs.PortMoves.{AreMoves};
ghost use Rattle.hub_story.specs.Tellings.{IsTelling};
ghost use Rattle.hub_story.specs.Told.{told};
ghost use Rattle.hub_story_text.specs.PortText.{by_words, cap_words, counts_words, most_words, opened_at, port_line, turn_words};
ghost use Rattle.hub_story_text.specs.StoryText.{ports_text};

use crate::closers::{Turns, turns_on};
use crate::fullest::{Fullest, fullest_on};
use crate::numbers::{number_of, put_number};
use hub_base::{Port, Step, What};
use hub_core::{CaseRoom, ShortJournal};
use hub_story::{Level, PortMoves, Told};
use std::alloc::AllocError;

/// Appends the capacity with which the entry at this place made a port, or opened it again.
fn put_cap(out: &mut Vec<u8>, journal: &ShortJournal, place: u32) -> Result<(), AllocError>
    ensures { OnOk result (out.new.items ≡
        out.old.items ++ option_map_or (λ e. cap_words e.step) (slice_get journal.now.entries place) []) }
{
    let mut room = CaseRoom::new();
    let Some(entry) = journal.entries().get(place as usize, &mut room) else {
        return Ok(());
    };
    match entry.step {
        Step::Make(cap) => put_number(out, b" cap ", cap.into()),
        Step::Reopen { cap, .. } => put_number(out, b" cap ", cap.into()),
        _ => Ok(()),
    }
}

/// Appends how much was sent, received and left.
fn put_counts(out: &mut Vec<u8>, level: Level) -> Result<(), AllocError>
    ensures { OnOk result (out.new.items ≡ out.old.items ++ counts_words level.sent level.received) }
{
    put_number(out, b" sent ", level.sent as u64)?;
    put_number(out, b" received ", level.received as u64)?;
    put_number(
        out,
        b" left ",
        level.sent.saturating_sub(level.received) as u64,
    )
}

/// Appends how much a port held at most, if anything, and after which step first.
fn put_most(out: &mut Vec<u8>, full: Fullest) -> Result<(), AllocError>
    ensures { OnOk result (out.new.items ≡ out.old.items ++ most_words full) }
{
    if full.most == 0 {
        return Ok(());
    }
    put_number(out, b" most ", full.most as u64)?;
    put_number(out, b" at step ", number_of(full.place))
}

/// Appends by whom, behind these words.
fn put_by(out: &mut Vec<u8>, words: &[u8], told: &Told) -> Result<(), AllocError>
    ensures { OnOk result (out.new.items ≡ out.old.items ++ by_words words.now told.now) }
{
    put_number(out, words, told.event.pid.0.into())?;
    put_number(out, b" at step ", number_of(told.asked))
}

/// Appends by whom, behind these words, where there is such an event.
fn put_turn(out: &mut Vec<u8>, words: &[u8], told: Option<Told>) -> Result<(), AllocError>
    ensures { OnOk result (out.new.items ≡ out.old.items ++ turn_words words.now told) }
{
    match told {
        Some(told) => put_by(out, words, &told),
        None => Ok(()),
    }
}

/// The place of the step that opened the port last, which this event says was made.
fn opened_at(made: &Told, reopened: Option<Told>) -> u32
    ensures { result ≡ opened_at made.now reopened }
{
    match reopened {
        Some(told) => told.asked,
        None => made.asked,
    }
}

/// Appends what a port carried that this event says was made.
fn put_port(
    out: &mut Vec<u8>,
    journal: &ShortJournal,
    moves: &PortMoves,
    turns: &[Told],
    made: &Told,
    port: Port,
) -> Result<(), AllocError>
    requires telling { IsTelling (length journal.now.entries) (told journal.now.head journal.now.entries) }
    requires moves { AreMoves journal.now.entries (told journal.now.head journal.now.entries) moves.now }
    requires turns { turns.now ≡ filter (is_turn journal.now.entries) (told journal.now.head journal.now.entries) }
    ensures { OnOk result (out.new.items ≡
        out.old.items ++ port_line journal.now.entries (told journal.now.head journal.now.entries) made.now port) }
{
    let Turns { reopened, closed } = turns_on(journal.entries(), turns, port);
    put_number(out, b"port ", port.0.into())?;
    put_cap(out, journal, opened_at(made, reopened))?;
    put_counts(out, moves.level(port))?;
    put_most(out, fullest_on(*out.allocator(), moves, port)?)?;
    put_by(out, b" made by P", made)?;
    put_turn(out, b" reopened by P", reopened)?;
    put_turn(out, b" closed by P", closed)?;
    out.extend_from_slice(b"\n")?;
    Ok(())
}

/// Appends a line for each port, in the order in which they were made.
pub(crate) fn put_ports(
    out: &mut Vec<u8>,
    journal: &ShortJournal,
    moves: &PortMoves,
    made: &[Told],
    turns: &[Told],
) -> Result<(), AllocError>
    requires telling { IsTelling (length journal.now.entries) (told journal.now.head journal.now.entries) }
    requires moves { AreMoves journal.now.entries (told journal.now.head journal.now.entries) moves.now }
    requires made { made.now ≡ filter (λ t. is_made t.event.what) (told journal.now.head journal.now.entries) }
    requires turns { turns.now ≡ filter (is_turn journal.now.entries) (told journal.now.head journal.now.entries) }
    ensures { OnOk result (out.new.items ≡
        out.old.items ++ ports_text journal.now.entries (told journal.now.head journal.now.entries)) }
{
    for made in made {
        if let What::Made(port) = made.event.what {
            put_port(out, journal, moves, turns, made, port)?;
        }
    }
    Ok(())
}
