//! The steps of a checkpoint, each made in a hub as it is found: none of them is written out before.

ghost use Rattle.std.specs.Prelude.{◌≡◌, ◌∷◌, [], false, IfOk, OnOk, map, slice_get, if◌then◌else◌};
ghost use Rattle.hub_base.specs.Lines.{by, call};
ghost use Rattle.hub_base.specs.Notation.{close, exit};
ghost use Rattle.hub_base.specs.Text.{steps_of};
ghost use Rattle.hub_chapters.specs.Checkpoint.{call_again, checkpoint, exited, ports_again, send_again};
ghost use Rattle.hub_core.specs.HubView.{IsLimit, opened_hub, state_of};
ghost use Rattle.hub_core.specs.Looks.{value_at};
ghost use Rattle.hub_cut.specs.Cut.{CanMake, Makes};
ghost use Rattle.hub_cut.specs.Written.{one_of, port_entries, sent_entries};

use crate::checkpoints::has_gone;
use crate::renewals::step_admitted_heard;
use hub_base::{
    Case, CaseSlice, Entry, EntryRef, Event, Hears, MOST_PORTS, NoMemory, Pid, Port, Step, Value,
};
use hub_core::ShortHub;

/// Who hears the events of steps that were told before.
#[derive(Drop)]
struct Nobody;

impl Hears for Nobody {
    ghost use Rattle.hub_base.specs.declared.limits.TheConstants.{MOST_EVENTS};

    ghost heard = { λ old told new. Unit {0} };

    ghost room = { λ nobody. MOST_EVENTS };

    ghost begins = { λ nobody. tt };

    ghost goes_on = { λ a b c xs ys first next. tt };

    #[inline(always)]
    fn hear(&mut self, _event: Event) {}
}

/// Makes a step in a hub that takes it. It is refused only if an allocation fails.
pub(crate) fn make(next: &mut ShortHub, entry: &EntryRef<'_>) -> Result<(), NoMemory>
    requires can { CanMake next.old.memory.hub (entry.now ∷ []) }
    ensures { OnOk result (Makes next.old.memory.hub (entry.now ∷ []) next.new.memory.hub) }
{
    let _fits = entry.fits(next.head().edition);
    step_admitted_heard(next, entry, &mut Nobody)?;
    Ok(())
}

/// Makes these steps in a hub that takes them. It is refused only if an allocation fails.
pub(crate) fn make_all(next: &mut ShortHub, entries: &[Entry]) -> Result<(), NoMemory>
    requires can { CanMake next.old.memory.hub entries.now }
    ensures { OnOk result (Makes next.old.memory.hub entries.now next.new.memory.hub) }
{
    for entry in entries {
        make(next, &entry.by_slice())?;
    }
    Ok(())
}

/// A call of these cases.
fn plain_call(pid: Pid, cases: CaseSlice<'_>) -> EntryRef<'_>
    ensures { result ≡ by pid.0 (call cases.entry.items false 0) }
{
    Entry {
        pid,
        step: Step::Call {
            cases,
            default: false,
            word: 0,
        },
    }
}

/// Sends a value on a port.
fn make_send(port: Port, value: Value, next: &mut ShortHub) -> Result<(), NoMemory>
    requires can { CanMake next.old.memory.hub (send_again port.0 value ∷ []) }
    ensures { OnOk result (Makes next.old.memory.hub (send_again port.0 value ∷ []) next.new.memory.hub) }
{
    let case = Case::Send(port, value);
    make(next, &plain_call(Pid(0), CaseSlice::one(&case)))
}

/// Sends the value at this place of the port's buffer, where there is one.
#[tactic(auto, using(crate::proofs::Renewing::made_none))]
fn make_value(hub: &ShortHub, port: Port, place: u32, next: &mut ShortHub) -> Result<(), NoMemory>
    requires can { CanMake next.old.memory.hub (one_of (send_again port.0) (value_at (state_of hub.now.memory.hub) port place)) }
    ensures { OnOk result (Makes next.old.memory.hub
        (one_of (send_again port.0) (value_at (state_of hub.now.memory.hub) port place)) next.new.memory.hub) }
{
    match hub.buffered(port, place) {
        Some(value) => make_send(port, value, next),
        None => Ok(()),
    }
}

/// Fills the port's buffer with so many values.
fn make_buffer(hub: &ShortHub, port: Port, len: u32, next: &mut ShortHub) -> Result<(), NoMemory>
    requires can { CanMake next.old.memory.hub (sent_entries (state_of hub.now.memory.hub) port len) }
    ensures { OnOk result (Makes next.old.memory.hub (sent_entries (state_of hub.now.memory.hub) port len) next.new.memory.hub) }
{
    for place in 0..len {
        make_value(hub, port, place, next)?;
    }
    Ok(())
}

/// Closes the port, where it is closed.
#[tactic(auto, using(crate::proofs::Renewing::made_none))]
fn make_close(port: Port, closed: bool, next: &mut ShortHub) -> Result<(), NoMemory>
    requires can { CanMake next.old.memory.hub (if closed then close 0 port.0 ∷ [] else []) }
    ensures { OnOk result (Makes next.old.memory.hub (if closed then close 0 port.0 ∷ [] else []) next.new.memory.hub) }
{
    if closed {
        make(
            next,
            &Entry {
                pid: Pid(0),
                step: Step::Close(port),
            },
        )?;
    }
    Ok(())
}

/// Makes the port, fills its buffer and closes it, where it is made.
fn make_port(hub: &ShortHub, port: Port, next: &mut ShortHub) -> Result<(), NoMemory>
    requires can { CanMake next.old.memory.hub (port_entries (state_of hub.now.memory.hub) port) }
    ensures { OnOk result (Makes next.old.memory.hub (port_entries (state_of hub.now.memory.hub) port) next.new.memory.hub) }
{
    let Some(look) = hub.look(port) else {
        return Ok(());
    };
    make(
        next,
        &Entry {
            pid: Pid(0),
            step: Step::Make(look.cap),
        },
    )?;
    make_buffer(hub, port, look.counts.len, next)?;
    make_close(port, look.counts.closed, next)
}

/// Makes the ports.
#[tactic(auto, using(crate::proofs::Renewing::made_none))]
fn make_ports(hub: &ShortHub, next: &mut ShortHub) -> Result<(), NoMemory>
    requires can { CanMake next.old.memory.hub (ports_again 1 (state_of hub.now.memory.hub).channels) }
    ensures { OnOk result (Makes next.old.memory.hub (ports_again 1 (state_of hub.now.memory.hub).channels) next.new.memory.hub) }
{
    for index in 0..MOST_PORTS {
        make_port(hub, Port(index as u16 + 1), next)?;
    }
    Ok(())
}

/// Makes the exit of the process of this number, where it has gone.
#[tactic(auto, using(crate::proofs::Renewing::made_none))]
fn make_exit(number: u8, gone: bool, next: &mut ShortHub) -> Result<(), NoMemory>
    requires can { CanMake next.old.memory.hub (map exit (if gone then number ∷ [] else [])) }
    ensures { OnOk result (Makes next.old.memory.hub (map exit (if gone then number ∷ [] else [])) next.new.memory.hub) }
{
    if gone {
        make(
            next,
            &Entry {
                pid: Pid(number),
                step: Step::Exit,
            },
        )?;
    }
    Ok(())
}

/// Makes an exit of each process that has gone.
#[tactic(auto, using(crate::proofs::Renewing::made_none))]
fn make_exits(hub: &ShortHub, next: &mut ShortHub) -> Result<(), NoMemory>
    requires can { CanMake next.old.memory.hub (map exit (exited (state_of hub.now.memory.hub))) }
    ensures { OnOk result (Makes next.old.memory.hub (map exit (exited (state_of hub.now.memory.hub))) next.new.memory.hub) }
{
    for number in 0..hub.head().procs {
        make_exit(number, has_gone(hub, number), next)?;
    }
    Ok(())
}

/// Makes the open call at this place, where there is one.
#[tactic(auto, using(crate::proofs::Renewing::made_none))]
fn make_call(hub: &ShortHub, place: usize, next: &mut ShortHub) -> Result<(), NoMemory>
    requires can { CanMake next.old.memory.hub (one_of call_again (slice_get (state_of hub.now.memory.hub).parked place)) }
    ensures { OnOk result (Makes next.old.memory.hub
        (one_of call_again (slice_get (state_of hub.now.memory.hub).parked place)) next.new.memory.hub) }
{
    match hub.call_at(place) {
        Some((pid, cases)) => make(next, &plain_call(pid, CaseSlice::of(&cases))),
        None => Ok(()),
    }
}

/// Makes the open calls, in order of arrival.
#[tactic(auto, using(crate::proofs::Renewing::made_none))]
fn make_calls(hub: &ShortHub, next: &mut ShortHub) -> Result<(), NoMemory>
    requires can { CanMake next.old.memory.hub (map call_again (state_of hub.now.memory.hub).parked) }
    ensures { OnOk result (Makes next.old.memory.hub (map call_again (state_of hub.now.memory.hub).parked) next.new.memory.hub) }
{
    for place in 0..usize::from(hub.head().procs) {
        make_call(hub, place, next)?;
    }
    Ok(())
}

/// Makes the checkpoint of a hub's state in a hub with the same terms, at which nothing has happened, and tells how many
/// steps it has, exits not counted. It is refused only if an allocation fails.
pub(crate) fn make_checkpoint(hub: &ShortHub, next: &mut ShortHub) -> Result<u32, NoMemory>
    requires new { next.old.memory.hub ≡ opened_hub hub.now.memory.hub.terms }
    requires limit { IsLimit hub.now.memory.hub.terms.limit }
    ensures made { OnOk result (Makes next.old.memory.hub (checkpoint (state_of hub.now.memory.hub)) next.new.memory.hub) }
    ensures steps { IfOk result (λ n. n ≡ steps_of (checkpoint (state_of hub.now.memory.hub))) }
{
    hub.journal_is_legal();
    make_ports(hub, next)?;
    let ports = next.len();
    make_exits(hub, next)?;
    let exits = next.len() - ports;
    make_calls(hub, next)?;
    Ok((next.len() - exits) as u32)
}
