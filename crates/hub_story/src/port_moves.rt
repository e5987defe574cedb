//! Which calls moved values, port by port, in 8 bytes each.

ghost use Rattle.std.specs.Prelude.{◌≡◌, ◌∷◌, ◌++◌, List, [], IfOk, OnOk, length};
ghost use Rattle.hub_base.specs.Entry.{Entry};
ghost use Rattle.hub_story.specs.declared.told.Told.{Told as Event};
ghost use Rattle.hub_story.specs.Passing.{receives, sends};
ghost use Rattle.hub_story.specs.PortMoves.{AreMoves};

use crate::moves::{Move, move_of};
use crate::{ByPort, Level, Told};
use hub_base::Port;
use hub_core::ShortEntries;
use hub_parts::Side;
use std::alloc::{AllocError, Global};

/// A call that moved a value.
#[derive(Clone, Copy)]
pub struct PortMove {
    /// The place of its entry.
    pub place: u32,
    /// The place of the entry by whose step.
    pub by: u32,
}

/// The calls that moved values, port by port, in the order in which the values moved.
#[derive(Drop)]
pub struct PortMoves {
    /// Those that sent one.
    pub sent: ByPort<PortMove>,
    /// Those that received one.
    pub received: ByPort<PortMove>,
}

impl PortMoves {
    /// None.
    pub(crate) fn new(alloc: Global) -> Result<PortMoves, AllocError>
        ensures { (es : List Entry) → IfOk result (AreMoves es []) }
    {
        Ok(PortMoves {
            sent: ByPort::new(alloc)?,
            received: ByPort::new(alloc)?,
        })
    }

    /// Takes in the next event of these entries.
    pub(crate) fn note(&mut self, entries: &ShortEntries, told: &Told) -> Result<(), AllocError>
        ensures { OnOk result ((before : List Event) → AreMoves entries.now before self.old
            → AreMoves entries.now (before ++ told.now ∷ []) self.new) }
    {
        let Some(Move { port, side, .. }) = move_of(entries, told) else {
            return Ok(());
        };
        let moved = PortMove {
            place: told.asked,
            by: told.by,
        };
        match side {
            Side::Send => self.sent.push(port, moved),
            Side::Recv => self.received.push(port, moved),
        }
    }

    /// How many values went into the port, and how many came out of it.
    pub fn level(&self, port: Port) -> Level
        ensures sent { (es : List Entry) (all : List Event) → AreMoves es all self.now
            → result.sent ≡ length (sends es all port) }
        ensures received { (es : List Entry) (all : List Event) → AreMoves es all self.now
            → result.received ≡ length (receives es all port) }
    {
        Level {
            sent: self.sent.on(port).len(),
            received: self.received.on(port).len(),
        }
    }
}
