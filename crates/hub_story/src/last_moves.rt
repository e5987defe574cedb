//! Who was the last to send on a port, and to receive from it; who received there; and who has left.

ghost use Rattle.std.specs.Prelude.{◌≡◌, ◌<◌, ◌+◌, ◌∷◌, ◌++◌, List, [], IfOk, IfSome, OnOk};
ghost use Rattle.hub_base.specs.Entry.{Entry};
ghost use Rattle.hub_parts.specs.declared.side.Side.TheVariants.{Send as SendSide, Recv as RecvSide};
ghost use Rattle.hub_story.specs.declared.told.Told.{Told as Event};
ghost use Rattle.hub_story.specs.LastMoves.{AreLast, IsWhole, known_at, mover_at, mover_of, with_mover};
ghost use Rattle.hub_story.specs.Levels.{told_by};
ghost use Rattle.hub_story.specs.Moves.{move_of};

use crate::by_port::PORT_NUMBERS;
use crate::moves::{Move, move_of};
use crate::{Receivers, Told};
use hub_base::{Pid, Port};
use hub_core::ShortEntries;
use hub_parts::Side;
use std::alloc::{AllocError, Global};

/// Who moved a value.
#[derive(Clone, Copy, Debug, PartialEq, Eq)]
pub struct Mover {
    /// The process.
    pub pid: Pid,
    /// The place of its entry.
    pub asked: u32,
    /// The place of the entry by whose step the value moved.
    pub by: u32,
}

/// Of each port, by its number.
#[derive(Drop)]
pub struct LastMoves {
    /// Who was the last to send.
    sent: Vec<Option<Mover>>,
    /// Who was the last to receive a value.
    received: Vec<Option<Mover>>,
    /// Who received values since the port was made or opened again, and who has left.
    pub receivers: Receivers,
}

/// What is known of a port.
#[derive(Clone, Copy, Debug, PartialEq, Eq)]
pub struct AtPort {
    /// Who was the last to send there.
    pub sender: Option<Mover>,
    /// Who was the last to receive a value.
    pub receiver: Option<Mover>,
    /// Whether somebody received there since it was made or opened again, and all who did have left.
    pub gone: bool,
}

/// Whom the event tells of.
fn mover_of(told: &Told) -> Mover
    ensures { result ≡ mover_of told.now }
{
    Mover {
        pid: told.event.pid,
        asked: told.asked,
        by: told.by,
    }
}

impl LastMoves {
    /// Nobody has.
    pub fn new(alloc: Global) -> Result<LastMoves, AllocError>
        ensures none { (es : List Entry) → IfOk result (AreLast es []) }
        ensures whole { IfOk result IsWhole }
    {
        Ok(LastMoves {
            sent: vec![in alloc; None; PORT_NUMBERS]?,
            received: vec![in alloc; None; PORT_NUMBERS]?,
            receivers: Receivers::new(alloc)?,
        })
    }

    /// Takes in who moved this, if anything moved.
    fn note_mover(&mut self, told: &Told, moved: Option<Move>)
        requires whole { IsWhole self.old }
        requires few { IfSome moved (λ moved. moved.port.0 < PORT_NUMBERS) }
        ensures sent { self.new.sent.items ≡ with_mover SendSide self.old.sent.items moved (mover_of told.now) }
        ensures received { self.new.received.items ≡ with_mover RecvSide self.old.received.items moved (mover_of told.now) }
        ensures receivers { self.new.receivers ≡ self.old.receivers }
        ensures whole { IsWhole self.new }
    {
        let Some(Move { port, side, .. }) = moved else {
            return;
        };
        let mover = Some(mover_of(told));
        match side {
            Side::Send => self.sent[usize::from(port.0)] = mover,
            Side::Recv => self.received[usize::from(port.0)] = mover,
        }
    }

    /// Takes in the next event of these entries.
    fn note(&mut self, entries: &ShortEntries, told: &Told) -> Result<(), AllocError>
        requires { IsWhole self.old }
        ensures last { OnOk result ((before : List Event) → AreLast entries.now before self.old
            → AreLast entries.now (before ++ told.now ∷ []) self.new) }
        ensures whole { IsWhole self.new }
    {
        let moved = move_of(entries, told);
        self.note_mover(told, moved);
        self.receivers.note(entries, told, moved)?;
        Ok(())
    }

    /// Takes in these events, in order, behind those so far.
    pub fn note_all(&mut self, entries: &ShortEntries, told: &[Told]) -> Result<(), AllocError>
        requires { IsWhole self.old }
        ensures last { OnOk result (
            (before : List Event) → AreLast entries.now before self.old → AreLast entries.now (before ++ told.now) self.new) }
        ensures whole { IsWhole self.new }
    {
        for told in told {
            self.note(entries, told)?;
        }
        Ok(())
    }

    /// Those by this step, of all that is told.
    pub fn until(
        alloc: Global,
        entries: &ShortEntries,
        told: &[Told],
        step: u32,
    ) -> Result<LastMoves, AllocError>
        ensures { IfOk result (AreLast entries.now (told_by (step + 1) told.now)) }
    {
        let mut last = LastMoves::new(alloc)?;
        for told in told {
            if told.by <= step {
                last.note(entries, told)?;
            }
        }
        Ok(last)
    }

    /// Who was the last to send on the port.
    fn sender(&self, port: Port) -> Option<Mover>
        ensures { result ≡ mover_at self.now.sent.items port }
    {
        *self.sent.get(usize::from(port.0))?
    }

    /// Who was the last to receive from it.
    fn receiver(&self, port: Port) -> Option<Mover>
        ensures { result ≡ mover_at self.now.received.items port }
    {
        *self.received.get(usize::from(port.0))?
    }

    /// What they tell of the port.
    pub fn at(&self, port: Port) -> AtPort
        ensures { result ≡ known_at self.now port }
    {
        AtPort {
            sender: self.sender(port),
            receiver: self.receiver(port),
            gone: self.receivers.are_gone(port),
        }
    }
}
