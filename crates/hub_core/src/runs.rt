//! Runs: a hub is opened, and makes the steps of a list in order.

ghost use Rattle.std.specs.Prelude.{◌≡◌, ℕ, true, IfOk, IfErr, OnOk};
ghost use Rattle.hub_core.specs.Prelude.{AreOf, OnceLaw, head_of, is_of};
ghost use Rattle.hub_core.specs.HubView.{terms_of};
ghost use Rattle.hub_core.specs.RunsTo.{RunsTo, TellsOn, StopsAt, KeepsValues, ClosesForGood, NeverOpens, RefusesRun, IsFullAt};

use crate::admitted::tells;
use crate::{Hub, OpenFault};
use hub_base::{Edition, Entry, Event, Fault, What};
use std::alloc::{AllocError, Global};
use thiserror::Error;

/// Why a run of steps ended early. Nothing is kept of it.
#[derive(Clone, Copy, Debug, PartialEq, Eq, Error)]
pub enum ListFault {
    /// The hub was not opened.
    #[error("no hub: {0}")]
    Open(OpenFault),
    /// The entry at this place, counted from 0, found the journal full (`JournalFull`), or a growth
    /// was refused at it (`NoMemory`).
    #[error("entry {index}: {fault}")]
    At { index: usize, fault: Fault },
}

/// Makes one step and appends what follows; a step that is not admitted is told as one fault.
fn answer(hub: &mut Hub, events: &mut Vec<Event>, entry: &Entry) -> Result<(), Fault>
    requires fits { is_of hub.old.memory.hub.terms.head.edition entry.now.step ≡ true }
    ensures ok { OnOk result (TellsOn hub.old.memory.hub entry.now hub.new.memory.hub events.old.items events.new.items) }
    ensures err { IfErr result (λ f. StopsAt hub.old.memory.hub entry.now f) }
{
    match hub.step(entry.copy()) {
        Ok(told) => match events.extend_from_slice(told.as_slice()) {
            Ok(()) => Ok(()),
            Err(AllocError) => Err(Fault::NoMemory),
        },
        Err(fault) => match fault {
            Fault::JournalFull => Err(Fault::JournalFull),
            Fault::NoMemory => Err(Fault::NoMemory),
            fault => match events.push(tells(entry.pid, What::Fault(fault))) {
                Ok(()) => Ok(()),
                Err(_refused) => Err(Fault::NoMemory),
            },
        },
    }
}

/// Opens a hub of this edition, of so many processes, with this limit, makes the steps in order, each of which the
/// edition has, and gives the hub and the events of them all.
///
/// A step refused by `NoProcess`, `Gone` or `Busy` gives that fault as the event of its process, and
/// the run goes on; a refusal by `JournalFull` or `NoMemory` ends it, and nothing is kept.
pub fn run(
    alloc: Global,
    procs: u8,
    limit: u32,
    edition: Edition,
    entries: &[Entry],
) -> Result<(Hub, Vec<Event>), ListFault>
    requires fits { AreOf edition entries.now }

    // The events are the definition's, and the journal holds the admitted entries.
    ensures ok { IfOk result (λ r. RunsTo (terms_of edition procs limit) entries.now r.0.memory.hub r.1.items) }

    // On each port the values received, then those buffered, are those sent, in order.
    ensures received_then_buffered { IfOk result (λ r. KeepsValues (head_of edition procs) entries.now r.0.memory.hub) }

    // Each admitted call completes at most one of its cases, once.
    ensures at_most_one_case { OnOk result (OnceLaw (head_of edition procs) entries.now) }

    // After a close, until the port is opened again, no send completes on it, and receives drain it, then learn the close.
    ensures after_close { OnOk result (ClosesForGood (head_of edition procs) entries.now) }

    // In the first two editions no port is opened again.
    ensures never { OnOk result (NeverOpens (head_of edition procs) entries.now) }

    // The journal was never full at an entry that is no exit.
    ensures never_full { OnOk result ((i : ℕ) → ¬ IsFullAt (terms_of edition procs limit) entries.now i) }

    // A full journal is answered at the first place where it is full.
    ensures refused { IfErr result (λ f. RefusesRun (terms_of edition procs limit) entries.now f) }
{
    let mut hub = match Hub::open(alloc, procs, limit, edition) {
        Ok(hub) => hub,
        Err(fault) => return Err(ListFault::Open(fault)),
    };
    let mut events = Vec::new(alloc);
    for (index, entry) in entries.iter().enumerate() {
        match answer(&mut hub, &mut events, entry) {
            Ok(()) => {}
            Err(fault) => return Err(ListFault::At { index, fault }),
        }
    }
    Ok((hub, events))
}
