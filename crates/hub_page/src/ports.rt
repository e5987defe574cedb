//! What the ports hold at most.

ghost use Rattle.std.specs.Prelude.{◌≡◌, ◌≤◌, ◌<◌, ◌+◌, ◌==◌, length, max, replicate, IfOk, if◌then◌else◌};
ghost use Rattle.std.specs.List.{list_any};
ghost use Rattle.hub_base.specs.declared.value.Port.{Port};
ghost use Rattle.hub_story.specs.Levels.{count_at, level_of};
ghost use Rattle.hub_page.specs.Ports.{moves_on};

use hub_base::{MOST_PORTS, Port};
use hub_core::ShortEntries;
use hub_story::{Levels, Told, move_of};
use std::alloc::{AllocError, Global};

/// A table of what each port holds at most, before a step.
pub(crate) fn none_held(alloc: Global) -> Result<Vec<u64>, AllocError>
    ensures { IfOk result (λ most. most.items ≡ replicate (MOST_PORTS + 1) 0) }
{
    vec![in alloc; 0; MOST_PORTS + 1]
}

/// Takes in how many values the port holds, if it is in the table.
fn note_level(most: &mut Vec<u64>, levels: &Levels, port: Port)
    ensures value { (p : Port) → p.0 < length most.old.items → count_at most.new.items p
        ≡ (if p.0 == port.0 then max (count_at most.old.items p) (level_of levels.now p) else count_at most.old.items p) }
    ensures length { length most.new.items ≡ length most.old.items }
{
    let place = usize::from(port.0);
    if place < most.len() {
        most[place] = most[place].max(levels.level(port));
    }
}

/// Takes in how many values the port holds on which the event tells that one moved.
fn note_told(most: &mut Vec<u64>, levels: &Levels, entries: &ShortEntries, told: &Told)
    requires { length most.old.items ≡ MOST_PORTS + 1 }
    ensures most { (p : Port) → p.0 ≤ MOST_PORTS → count_at most.new.items p
        ≡ (if moves_on entries.now p told.now then max (count_at most.old.items p) (level_of levels.now p) else count_at most.old.items p) }
    ensures whole { length most.new.items ≡ MOST_PORTS + 1 }
{
    if let Some(moved) = move_of(entries, told) {
        note_level(most, levels, moved.port);
    }
}

/// Takes in how many values each port holds on which these tell that one moved.
pub(crate) fn note_held(most: &mut Vec<u64>, levels: &Levels, entries: &ShortEntries, came: &[Told])
    requires { length most.old.items ≡ MOST_PORTS + 1 }
    ensures most { (p : Port) → p.0 ≤ MOST_PORTS → count_at most.new.items p
        ≡ (if list_any (moves_on entries.now p) came.now then max (count_at most.old.items p) (level_of levels.now p)
        else count_at most.old.items p) }
    ensures whole { length most.new.items ≡ MOST_PORTS + 1 }
{
    for told in came {
        note_told(most, levels, entries, told);
    }
}
