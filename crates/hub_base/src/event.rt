//! What processes are told.

ghost use Rattle.std.specs.Prelude.{◌≡◌, ◌≤◌, ◌<◌, ◌+◌, ◌-◌, ◌∷◌, ◌++◌, [], List, ℕ, length};
ghost use Rattle.std.proofs.Common.{rules};
ghost use Rattle.hub_base.specs.declared.event.Event.{Event as Told};
ghost use Rattle.hub_base.specs.Values.{is_parked, is_stalled};

use crate::limits::MOST_EVENTS;
use crate::{Fault, Pid, Port, Value};
use arrayvec::ArrayVec;

/// How a communication ended.
#[derive(Clone, Copy, Debug, PartialEq, Eq)]
pub enum Outcome {
    /// A send: the value joined those sent.
    Sent,
    /// A receive: the oldest value not yet received.
    Got(Value),
    /// A receive on a closed and drained port. Go: the zero value, and false ("Receive operator").
    Drained,
    /// A send on a closed port. Go: it panics ("Send statements").
    Closed,
}

/// What a process is told of its step, or of its open call when it ends.
#[derive(Clone, Copy, Debug, PartialEq, Eq)]
pub enum What {
    /// The port was made.
    Made(Port),
    /// This case of the call fired.
    Fired { case: u8, outcome: Outcome },
    /// No case could proceed, and the call has a default. Go: "Select statements".
    Default,
    /// The close, the exit or the cancel is done.
    Done,
    /// No case can proceed: the call is open, and another event ends it.
    Parked,
    /// Every process that has not exited waits, so no call could ever end.
    Stalled,
    /// The step had no effect.
    Fault(Fault),
    /// Another process cancelled the open call.
    Cancelled,
}

impl What {
    /// Whether the call waits: another event ends it.
    #[inline(always)]
    pub fn is_parked(&self) -> bool
        ensures { result ≡ is_parked self.now }
    {
        matches!(self, What::Parked)
    }

    /// Whether a call ended because everyone waited.
    #[inline(always)]
    pub fn is_stalled(&self) -> bool
        ensures { result ≡ is_stalled self.now }
    {
        matches!(self, What::Stalled)
    }
}

/// What one process is told.
#[derive(Clone, Copy, Debug, PartialEq, Eq)]
pub struct Event {
    /// The process that is told.
    pub pid: Pid,
    /// What it is told.
    pub what: What,
}

/// That process 0 is told `Done`. It fills the places of a list of events that hold none yet, and is what a hub was answered before
/// its first step.
impl Default for Event {
    ghost use Rattle.std.specs.Prelude.{◌≡◌};
    ghost use Rattle.hub_base.specs.Notation.{done};

    ghost is_default = { λ event. event ≡ done 0 };

    fn default() -> Event {
        Event {
            pid: Pid(0),
            what: What::Done,
        }
    }
}

/// The events of one step: the caller's answer, then the calls that ended with it in order of
/// arrival. A park after which every process of the largest hub stalls gives `MOST_EVENTS`.
pub type Events = ArrayVec<Event, MOST_EVENTS>;

/// Whoever hears the events of steps, one after the other: a list of them, or a text that has a line for each.
pub trait Hears {
    /// That the first has heard these events, and is now the second.
    ghost heard: { Self → List Told → Self → Type 0 };

    /// How many events it has room for, at least.
    ghost room: { Self → ℕ };

    /// Hears an event more. There must be room.
    fn hear(&mut self, event: Event)
        requires { 0 < room self.old }
        ensures heard { heard self.old (event ∷ []) self.new }
        ensures room { room self.old ≤ room self.new + 1 };

    ghost begins: { (a : Self) → heard a [] a };

    ghost goes_on: { (a b c : Self) (xs ys : List Told) → heard a xs b → heard b ys c → heard a (xs ++ ys) c };
}

/// A list hears an event as its last.
impl Hears for Events {
    ghost use Rattle.std.proofs.Common.{sym};
    ghost use Rattle.std.proofs.lemmas.List.{append-nil};
    ghost use Rattle.std.proofs.lemmas.Grind.{common_steps};
    ghost use Rattle.hub_base.specs.declared.limits.TheConstants.{MOST_EVENTS};

    ghost heard = { λ old told new. new.items ≡ old.items ++ told };

    ghost room = { λ events. MOST_EVENTS - length events.items };

    ghost begins = { λ events. sym (append-nil events.items) };

    ghost goes_on = { Prim.search (rules, common_steps) };

    #[inline(always)]
    fn hear(&mut self, event: Event) {
        self.push(event);
    }
}
