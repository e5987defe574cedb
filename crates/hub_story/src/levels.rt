//! How full a port is after a step.

ghost use Rattle.std.specs.Prelude.{◌≡◌, ◌≤◌, ◌<◌, ◌+◌, ◌-◌, ◌^◌, ◌∷◌, ◌++◌, List, [], length, IfOk, OnOk};
ghost use Rattle.hub_base.specs.Entry.{Entry};
ghost use Rattle.hub_story.specs.declared.told.Told.{Told as Event};
ghost use Rattle.hub_story.specs.Levels.{AreLevels, IsWhole, count_at, empty, level_of, received_by, sent_by, told_by, with_one};
ghost use Rattle.hub_story.specs.Sides.{moves_on};

use crate::Told;
use crate::by_port::PORT_NUMBERS;
use crate::counts::{count_at, count_one};
use crate::moves::{Move, move_of};
use crate::passing::moved_by;
use hub_base::Port;
use hub_core::ShortEntries;
use hub_parts::Side;
use std::alloc::{AllocError, Global};

/// How many values were sent on a port, and how many of them were received.
#[derive(Clone, Copy)]
pub struct Level {
    /// How many values were sent.
    pub sent: usize,
    /// How many of them were received.
    pub received: usize,
}

impl Level {
    /// Of a port on which nothing was sent.
    pub fn empty() -> Level
        ensures { result ≡ empty }
    {
        Level {
            sent: 0,
            received: 0,
        }
    }

    /// With one value more on this side.
    pub fn grown(self, side: Side) -> Level
        requires sent { self.sent < 2 ^ 64 - 1 }
        requires received { self.received < 2 ^ 64 - 1 }
        ensures value { result ≡ with_one side self }
        ensures sent { result.sent ≤ self.sent + 1 }
        ensures received { result.received ≤ self.received + 1 }
    {
        match side {
            Side::Send => Level {
                sent: self.sent + 1,
                received: self.received,
            },
            Side::Recv => Level {
                sent: self.sent,
                received: self.received + 1,
            },
        }
    }
}

/// 1 where a value moved on this side of the port by one of the first so many entries, and else 0.
fn count_of(side: Side, port: Port, entries: &ShortEntries, told: &Told, count: u32) -> usize
    ensures value { result ≡ length (moves_on side port entries.now (told_by count (told.now ∷ []))) }
    ensures most { result ≤ 1 }
{
    if told.by >= count {
        return 0;
    }
    match moved_by(side, port, entries, told) {
        Some(_moved) => 1,
        None => 0,
    }
}

/// How many values were sent on the port and received from it by the first so many entries.
pub(crate) fn level_of(port: Port, entries: &ShortEntries, told: &[Told], count: u32) -> Level
    ensures sent { result.sent ≡ sent_by entries.now told.now port count }
    ensures received { result.received ≡ received_by entries.now told.now port count }
{
    let mut level = Level::empty();
    for told in told {
        level.sent += count_of(Side::Send, port, entries, told, count);
        level.received += count_of(Side::Recv, port, entries, told, count);
    }
    level
}

/// How many values moved on each port, by its number, event by event.
#[derive(Drop)]
pub struct Levels {
    /// How many were sent on it.
    pub sent: Vec<u64>,
    /// How many were received from it.
    pub received: Vec<u64>,
}

impl Levels {
    /// None was.
    pub fn new(alloc: Global) -> Result<Levels, AllocError>
        ensures none { (es : List Entry) → IfOk result (AreLevels es []) }
        ensures whole { IfOk result IsWhole }
    {
        Ok(Levels {
            sent: vec![in alloc; 0; PORT_NUMBERS]?,
            received: vec![in alloc; 0; PORT_NUMBERS]?,
        })
    }

    /// Takes in the next event of these entries. A count that can't grow finds no memory.
    fn note(&mut self, entries: &ShortEntries, told: &Told) -> Result<(), AllocError>
        requires { IsWhole self.old }
        ensures counted { OnOk result ((before : List Event) → AreLevels entries.now before self.old
            → AreLevels entries.now (before ++ told.now ∷ []) self.new) }
        ensures whole { IsWhole self.new }
    {
        let Some(Move { port, side, .. }) = move_of(entries, told) else {
            return Ok(());
        };
        match side {
            Side::Send => count_one(&mut self.sent, port.0.into()),
            Side::Recv => count_one(&mut self.received, port.0.into()),
        }
    }

    /// Takes in these events, in order, behind those so far.
    pub fn note_all(&mut self, entries: &ShortEntries, told: &[Told]) -> Result<(), AllocError>
        requires { IsWhole self.old }
        ensures counted { OnOk result (
            (before : List Event) → AreLevels entries.now before self.old → AreLevels entries.now (before ++ told.now) self.new) }
        ensures whole { IsWhole self.new }
    {
        for told in told {
            self.note(entries, told)?;
        }
        Ok(())
    }

    /// How many values were sent on the port.
    fn sent_on(&self, port: Port) -> u64
        ensures { result ≡ count_at self.now.sent.items port }
    {
        count_at(&self.sent, port.0.into())
    }

    /// How many were received from it.
    fn received_on(&self, port: Port) -> u64
        ensures { result ≡ count_at self.now.received.items port }
    {
        count_at(&self.received, port.0.into())
    }

    /// How many values were sent on it since that table counted them.
    pub fn sent_since(&self, before: &[u64], port: Port) -> u64
        ensures { result ≡ count_at self.now.sent.items port - count_at before.now port }
    {
        let before = count_at(before, port.0.into());
        self.sent_on(port).saturating_sub(before)
    }

    /// How many were received from it since that table counted them.
    pub fn received_since(&self, before: &[u64], port: Port) -> u64
        ensures { result ≡ count_at self.now.received.items port - count_at before.now port }
    {
        let before = count_at(before, port.0.into());
        self.received_on(port).saturating_sub(before)
    }

    /// How many values the port holds.
    pub fn level(&self, port: Port) -> u64
        ensures { result ≡ level_of self.now port }
    {
        self.sent_on(port).saturating_sub(self.received_on(port))
    }
}
