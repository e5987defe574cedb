//! One replay of a journal. A machine makes the steps, and what it does not keep is told by the
//! events of each: all that is received in one step is received on the port that its answer names.

ghost use Rattle.std.specs.Prelude.{◌≡◌, ◌≤◌, ◌<◌, ◌+◌, ◌^◌, ℕ, [], length, replicate, Some, IfOk, slice_index_or};
ghost use Rattle.std.specs.List.{sum_by};
ghost use Rattle.std.specs.Option.{option_map};
ghost use Rattle.hub_runner.specs.Prelude.{Port, IsHead, state, channel_at, steps_of, IsLegal, IsMade, port_touched, ports_told, told_of};
ghost use Rattle.hub_runner.specs.Prelude.{HasRoom, OfTold, Tells, Within, most_got, number_told, with_sum, with_told};

use crate::PortReport;
use crate::counting::{port_named, tell};
use hub_base::{Event, Events, Head, MOST_EVENTS, MOST_PORTS, MOST_STEPS, NoMemory, Port, StepRef};
use hub_core::{CaseRoom, Machine, ShortJournal};
use std::alloc::{AllocError, Global};

/// What some entries led to, and what their events told.
#[derive(Drop)]
pub(crate) struct Replayed {
    /// What the entries so far have led to.
    machine: Machine,
    /// The sum of the values received on each port, port 1 first. It is 0 where no port is made.
    sums: [u128; MOST_PORTS],
    /// How many events were `Stalled`.
    pub(crate) stalled: u32,
    /// How many events were faults.
    pub(crate) faults: u32,
}

/// No value was received.
fn no_sums() -> [u128; MOST_PORTS]
    ensures { result ≡ replicate MOST_PORTS 0 }
{
    [0; MOST_PORTS]
}

/// Adds so much to the sum of the port, if there is one.
fn add_to_sum(sums: &mut [u128; MOST_PORTS], port: Option<Port>, more: u128)
    requires made { (p : Port) → port ≡ Some p → IsMade p MOST_PORTS }
    requires room { (k : ℕ) → slice_index_or sums.old k 0 + more < 2 ^ 128 }
    ensures { sums.new ≡ with_sum sums.old port more }
{
    if let Some(port) = port {
        sums[port.0 as usize - 1] += more;
    }
}

impl Replayed {
    /// Nothing has happened.
    fn new(alloc: Global, head: Head) -> Result<Replayed, NoMemory>
        requires { IsHead head }
        ensures tells { IfOk result (λ r. Tells head [] r) }
        ensures within { IfOk result (λ r. Within 0 r) }
    {
        Ok(Replayed {
            machine: Machine::new(alloc, head)?,
            sums: no_sums(),
            stalled: 0,
            faults: 0,
        })
    }

    /// Adds what the events of a step tell.
    fn add(&mut self, step: &StepRef<'_>, events: &[Event])
        requires few { length events.now ≤ MOST_EVENTS }
        requires made { (p : Port) → port_touched step.now events.now ≡ Some p → IsMade p MOST_PORTS }
        requires room { HasRoom self.old }
        ensures told { self.new ≡ with_told self.old step.now events.now }
        ensures fits { sum_by number_told events.now ≤ most_got }
    {
        let told = tell(events);
        add_to_sum(&mut self.sums, port_named(step, events), told.got);
        self.stalled += told.stalled;
        self.faults += told.faults;
    }

    /// What one port carried, or `None` where it is not made.
    fn port(&self, port: Port) -> Option<PortReport>
        requires { IsMade port MOST_PORTS }
        ensures { OfTold self.now (λ h es.
            result ≡ option_map told_of (channel_at (state h es) port)) }
    {
        let look = self.machine.look(port)?;
        Some(PortReport {
            cap: look.cap,
            sent: look.counts.sent,
            received: look.counts.received,
            left: look.counts.len,
            sum: self.sums[port.0 as usize - 1],
            closed: look.counts.closed,
        })
    }

    /// What each port carried, in order of number.
    pub(crate) fn ports(&self, alloc: Global) -> Result<Vec<PortReport>, AllocError>
        ensures { IfOk result (λ ports.
            OfTold self.now (λ h es. ports.items ≡ ports_told h es)) }
    {
        let mut ports = Vec::new(alloc);
        for place in 0..64u16 {
            let Some(port) = self.port(Port(place + 1)) else {
                return Ok(ports);
            };
            ports.push(port)?;
        }
        Ok(ports)
    }
}

/// Replays a legal journal, of which no entry is written out.
pub(crate) fn replay(alloc: Global, journal: &ShortJournal) -> Result<Replayed, NoMemory>
    requires head { IsHead journal.now.head }
    requires legal { IsLegal journal.now.head journal.now.entries }
    requires few { steps_of journal.now.entries ≤ MOST_STEPS }
    ensures { IfOk result (λ r. Tells journal.now.head journal.now.entries r) }
{
    let mut replayed = Replayed::new(alloc, journal.head())?;
    let mut events = Events::new();
    let mut room = CaseRoom::new();
    let entries = journal.entries();
    for place in 0..entries.len() {
        let entry = entries.entry(place, &mut room);
        replayed.machine.answer(&entry, &mut events)?;
        replayed.add(&entry.step, &events);
    }
    Ok(replayed)
}
