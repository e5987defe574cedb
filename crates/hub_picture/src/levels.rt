//! How full ports were: the levels of a drawing.

ghost use Rattle.std.specs.Prelude.{◌≡◌, ◌<◌, ◌≤◌, ◌+◌, ◌-◌, ◌^◌, ◌∷◌, ◌++◌, [], filter, IfOk, OnOk};
ghost use Rattle.std.specs.List.{flat_map};
ghost use Rattle.hub_picture.specs.Levels.{after, in_row, is_same, levels_on, rows_from, shows_level};

use crate::moves::{Moves, OnPort};
use crate::{Strip, Window};
use hub_base::Port;
use hub_core::ShortEntries;
use hub_story::{Level, Told, move_of};
use std::alloc::{AllocError, Global};

/// How full a port was from one step until another.
#[derive(Clone, Copy)]
pub struct Held {
    /// The port.
    pub strip: Strip,
    /// From which step.
    pub from: u32,
    /// Until which step; `None` where it stayed so.
    pub until: Option<u32>,
    /// How many values were sent on it and received from it by then.
    pub level: Level,
}

/// The level with what is told here.
fn after(entries: &ShortEntries, port: Port, level: Level, told: &Told) -> Level
    requires sent { level.sent < 2 ^ 64 - 1 }
    requires received { level.received < 2 ^ 64 - 1 }
    ensures value { result ≡ after entries.now port level told.now }
    ensures sent { result.sent ≤ level.sent + 1 }
    ensures received { result.received ≤ level.received + 1 }
{
    match move_of(entries, told) {
        Some(moved) if moved.port.0 == port.0 => level.grown(moved.side),
        _ => level,
    }
}

/// Whether two levels are the same.
fn is_same(level: Level, other: Level) -> bool
    ensures { result ≡ is_same level other }
{
    level.sent == other.sent && level.received == other.received
}

/// Whether the port holds a value at a step of the window.
pub(crate) fn shows_level(window: Window, held: &Held) -> bool
    ensures { result ≡ shows_level window held.now }
{
    held.level.received < held.level.sent && window.shows(held.from, held.until)
}

/// Adds a level, where it is shown.
fn add_shown(levels: &mut Vec<Held>, window: Window, held: Held) -> Result<(), AllocError>
    ensures { OnOk result (levels.new.items ≡ levels.old.items ++ filter (shows_level window) (held ∷ [])) }
{
    if shows_level(window, &held) {
        levels.push(held)?;
    }
    Ok(())
}

/// Adds the levels of a port.
fn add_levels(
    levels: &mut Vec<Held>,
    window: Window,
    entries: &ShortEntries,
    told: &OnPort<'_>,
    strip: Strip,
) -> Result<(), AllocError>
    ensures { OnOk result (
        levels.new.items ≡ levels.old.items ++ levels_on window entries.now told.now strip) }
{
    let mut held = Held {
        strip,
        from: 0,
        until: None,
        level: Level::empty(),
    };
    for index in 0..told.len() {
        let told = told.at(index);
        let next = after(entries, strip.port, held.level, told);
        if !is_same(held.level, next) {
            let until = Some(told.by);
            add_shown(levels, window, Held { until, ..held })?;
            held.from = told.by;
            held.level = next;
        }
    }
    add_shown(levels, window, held)
}

/// The strip, in this row.
fn in_row(row: usize, strip: &Strip) -> Strip
    ensures { result ≡ in_row row strip.now }
{
    Strip { row, ..*strip }
}

/// The strips that are shown, and the levels on them.
#[derive(Drop)]
pub(crate) struct Levels {
    /// Of the ports those that hold a value at a step of the window, a row each.
    pub strips: Vec<Strip>,
    /// What they held, strip by strip, oldest first.
    pub held: Vec<Held>,
}

/// Of these strips those whose ports hold a value at a step of the window, and the levels on them. What is told of a port
/// is looked at once: a strip is shown where its port adds a level.
pub(crate) fn levels_in(
    alloc: Global,
    window: Window,
    moves: &Moves<'_>,
    made: &[Strip],
) -> Result<Levels, AllocError>
    ensures strips { IfOk result (λ all.
        all.strips.items ≡ rows_from window moves.now.entries.now moves.now.told.now 0 made.now) }
    ensures levels { IfOk result (λ all. all.held.items
        ≡ flat_map (levels_on window moves.now.entries.now moves.now.told.now) all.strips.items) }
{
    let mut strips = Vec::new(alloc);
    let mut held = Vec::new(alloc);
    for one in made {
        let row = strips.len();
        let strip = in_row(row, one);
        let before = held.len();
        let told = moves.on(strip.port);
        add_levels(&mut held, window, moves.entries, &told, strip)?;
        if held.len() > before {
            strips.push(strip)?;
        }
    }
    Ok(Levels { strips, held })
}
