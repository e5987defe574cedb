//! Who received from each port in its present life, and who has left.

ghost use Rattle.std.specs.Prelude.{◌≡◌, ◌∷◌, ◌++◌, ℕ, Bool, List, [], IfOk, OnOk};
ghost use Rattle.std.specs.List.{list_all, list_any};
ghost use Rattle.hub_base.specs.declared.value.Port.{Port as PortNumber};
ghost use Rattle.hub_base.specs.Entry.{Entry};
ghost use Rattle.hub_story.specs.declared.told.Told.{Told as Event};
ghost use Rattle.hub_story.specs.Leavers.{is_told_to};
ghost use Rattle.hub_story.specs.Moves.{move_of};
ghost use Rattle.hub_story.specs.OfPorts.{things_on};
ghost use Rattle.hub_story.specs.Receivers.{AreReceivers, are_gone, begun, got_there};

use crate::Told;
use crate::by_port::ByPort;
use crate::exits::note_leaver;
use crate::lives::reopened_port;
use crate::moves::{Move, got_from};
use crate::outside::any_told_to;
use hub_base::Port;
use hub_core::ShortEntries;
use std::alloc::{AllocError, Global};

/// Who received from each port, and who has left.
#[derive(Drop)]
pub struct Receivers {
    /// Who received values from each port since it was made or opened again, each process once.
    pub pids: ByPort<u8>,
    /// The exits of those who have left, in order.
    pub left: Vec<Told>,
}

/// Takes in that the process received from this port, if there is one.
fn note_receiver(pids: &mut ByPort<u8>, port: Option<Port>, pid: u8) -> Result<(), AllocError>
    ensures { OnOk result ((p : PortNumber) (test : ℕ → Bool) →
        list_all test (things_on pids.new p) ≡ list_all test (things_on pids.old p ++ got_there p port pid)) }
{
    let Some(port) = port else {
        return Ok(());
    };
    if pids.on(port).contains(&pid) {
        return Ok(());
    }
    pids.push(port, pid)
}

/// Takes in that a port is opened again by the next event, if one is: nobody has received there yet.
fn note_life(pids: &mut ByPort<u8>, entries: &ShortEntries, told: &Told)
    ensures { (p : PortNumber) → things_on pids.new p ≡ begun entries.now told.now p (things_on pids.old p) }
{
    if let Some(port) = reopened_port(entries, told) {
        pids.clear(port);
    }
}

/// Whether all these processes have left.
fn have_left(left: &[Told], pids: &[u8]) -> bool
    ensures { result ≡ list_all (λ n. list_any (is_told_to n) left.now) pids.now }
{
    pids.iter().all(|pid| any_told_to(*pid, left))
}

impl Receivers {
    /// Nobody received, and nobody has left.
    pub(crate) fn new(alloc: Global) -> Result<Receivers, AllocError>
        ensures { (es : List Entry) → IfOk result (AreReceivers es []) }
    {
        Ok(Receivers {
            pids: ByPort::new(alloc)?,
            left: Vec::new(alloc),
        })
    }

    /// Takes in the next event, by which this moved, if anything did.
    pub(crate) fn note(
        &mut self,
        entries: &ShortEntries,
        told: &Told,
        moved: Option<Move>,
    ) -> Result<(), AllocError>
        requires { moved ≡ move_of entries.now told.now }
        ensures { OnOk result ((before : List Event) → AreReceivers entries.now before self.old
            → AreReceivers entries.now (before ++ told.now ∷ []) self.new) }
    {
        note_life(&mut self.pids, entries, told);
        note_receiver(&mut self.pids, got_from(moved), told.event.pid.0)?;
        note_leaver(&mut self.left, entries, told)?;
        Ok(())
    }

    /// Whether somebody received from the port in its present life, and all who did have left.
    pub(crate) fn are_gone(&self, port: Port) -> bool
        ensures { result ≡ are_gone self.now.left.items (things_on self.now.pids port) }
    {
        let pids = self.pids.on(port);
        !pids.is_empty() && have_left(&self.left, pids)
    }
}
